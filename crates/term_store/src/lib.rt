//! The store of terms of an engine: cells, the bindings of variables, and unification with the occurs check.
//!
//! A store shows its compounds, its bindings and how many variables there are (`specs/Shape.antt`). A cell is one word
//! into it, and `specs/Terms.antt` says which term it stands for. No call recurses on a term.
#![tactic(auto)]

mod above;
mod bound;
mod cell;
mod compare;
mod copy;
mod heads;
mod heap;
mod law;
mod order;
mod put;
mod read;
mod solve;
mod store;

pub use above::above_variables;
pub use cell::{Cell, Trailed, View};
pub use law::store_laws;
pub use store::Store;
