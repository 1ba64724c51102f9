//! Databases that keep journals of clauses, and what a call asks of them: which journals are legal, the sizes of a
//! database, the counts of its work, the trait that the machine and the load stand on, the plain list that meets it, and
//! the gate that a run passes before each look.
#![tactic(auto)]

mod answers;
mod base;
mod call;
mod cause;
mod fate;
mod gate;
mod head;
mod law;
mod ledger;
mod plain;
mod seek;
mod sizes;
mod space;
mod tally;

pub use answers::{Added, Declared, Erased};
pub use base::{Base, Look};
pub use call::Call;
pub use cause::{ByIndex, Cause, How};
pub use gate::{Gate, OpenGate};
pub use law::{worked_journals, worked_words};
pub use plain::{PlainBase, PlainCursor};
pub use sizes::Sizes;
pub use space::{addition_words, declaration_words};
pub use tally::Tally;
