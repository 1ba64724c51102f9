//! What a journal is: the list of a database's updates, its procedures, and the clauses of a procedure in their order.
//!
//! `specs/Journal.antt` defines it. Here are definitions and laws alone, and no code: the database, and what indexes see of
//! it, stand on them.
#![tactic(auto)]

mod law;

pub use law::{numbers_stay, worked_journal};
