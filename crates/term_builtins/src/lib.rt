//! The builtins on terms: which there are, and what each does to the terms of a store.
//!
//! `specs/Table.antt` is the table of the builtins, and `specs/Meanings.antt` what each means: a test, two terms that are made one,
//! something that is written, or an error. `run_builtin` does that over cells. No call recurses on a term.
#![tactic(auto)]

mod answer;
mod atoms;
mod compounds;
mod faults;
mod find;
mod kinds;
mod lists;
mod numbers;
mod orders;
mod output;
mod run;
mod table;
mod univ;

pub use find::{find_builtin, table_is_in_order};
pub use run::{Did, run_builtin};
pub use table::{BUILTINS, Builtin, Kind, Relation, What, builtin_rows};
