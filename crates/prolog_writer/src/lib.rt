//! Terms as text.
//!
//! A term becomes pieces (`specs/Pieces.antt`), and pieces become bytes with a space where two would run together
//! (`specs/Spaces.antt`). No call here recurses on a term, so no depth is too great.
#![tactic(auto)]

mod frames;
mod kind;
mod law;
mod output;
mod reading_again;
mod shape;
mod spelling;
mod style;
mod writing;

pub use law::rows;
pub use reading_again::{
    parts_have_tokens, tables_are_lawful, terms_have_tokens, terms_read, texts_have_tokens,
    variables_are_numbered, written_is_read_again,
};
pub use style::Style;
pub use writing::{write, write_front};
