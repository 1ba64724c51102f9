//! From a term that was read to a clause, or to what it is as a directive.
//!
//! `specs/Formed.antt` says which clause a term is, or the error of adding it, `specs/Directives.antt` which directive a term is,
//! `specs/Declarations.antt` what a directive declares of operators, and `specs/Dynamics.antt` which
//! procedures one declares dynamic, or the error. No call here recurses on a term, and the work is linear in its nodes.
#![tactic(auto)]

mod called;
mod clause;
mod culprit;
mod directive;
mod dynamics;
mod elements;
mod goals;
mod law;
mod numbers;
mod op_names;
mod operators;
mod slash;
mod table;
mod terms;

pub use clause::{Formed, clause_of};
pub use directive::{Directive, directive_of};
pub use dynamics::{Dynamics, Indicators};
pub use law::clauses_are_renamings;
pub use op_names::OpNames;
pub use operators::{Declaration, Declaring, declaring_of};
pub use table::declare;
