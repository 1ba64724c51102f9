//! Partial trees over the codes of clause heads, as a list of words.
//!
//! `specs/Reading.antt` says how the words of a tree are read and which bucket some codes lead to, and `specs/Images.antt`
//! what the image of a tree is; rows, buckets and sizes are those of `call_patterns`. `specs/Lawful.antt` says which images
//! are lawful for a journal. An image has these words, the header first:
//!
//! | Word | Holds |
//! |---|---|
//! | 0 | from the lowest bit: the procedure in 32 bits, the pattern in three fields of 6 bits (a position plus one, 0 for none), the format, 1, in 8 bits |
//! | 1 | the mark: the length of the journal at which it was made |
//! | 2 | how many rows it has |
//! | 3 | the procedure's updates at the mark |
//! | 4, 5 | the first and the last clause of the chain at the mark, name plus one |
//! | 6 | how many words it has |
//! | 7 | the offset of the root |
//! | 8 | 0, the empty leaf |
//!
//! A node at a position of the pattern is the number of distinct codes there, the offset of the default child, and then the
//! codes, ascending, each with the offset of its child. The child of a code has the rows that have the code or none at the
//! position, the default child those that have none. Behind the last position stands a leaf: how many clauses it has, and
//! their names, in their order. A root or child without rows is the empty leaf.
#![tactic(auto)]

mod building;
mod image;
mod item;
mod law;
mod making;
mod parts;
mod reading;
mod sizing;

pub use image::{Bucket, Mark};
pub use law::{built_images_are_lawful, lawful_images_name_one_procedure, probes_find_the_rows};
pub use making::build;
pub use reading::{bucket_word, probe};
pub use sizing::{TreeSize, tree_size};
