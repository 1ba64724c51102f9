//! Terms of Prolog and their standard order, clauses and journal entries, errors and the operator table.
//!
//! A term is a finite tree. It is kept flat, as its nodes in prefix order, and contracts see it as the tree
//! (`specs/Tree.antt`). No call here recurses on a term, so no depth is too great.
#![tactic(auto)]

mod bytes;
mod entry;
mod fault;
mod law;
mod name;
mod names;
mod node;
mod ops;
mod order;
mod shown;
mod term;
mod want;
mod whole;

pub use bytes::Bytes;
pub use entry::{
    Clause, End, Entries, Entry, Indicator, Kind, What, copy_clause, copy_entry, copy_indicator,
    term_indicator,
};
pub use fault::{Fault, fault_term};
pub use law::{bodies_are_bodies, standard_order, standard_order_rows};
pub use name::Name;
pub use names::Names;
pub use node::Node;
pub use ops::{Definitions, Infix, OpFault, OpKind, Ops, Postfix, Prefix};
pub use shown::{Shown, ShownVariables};
pub use term::Term;
pub use want::Want;
pub use whole::{WHOLE_MAX, WHOLE_MIN, Whole};
