//! Arithmetic: the value of a term of a store, or the fault that it raises.
//!
//! `specs/Operations.antt` says what each operation gives over all integers, and `specs/Arithmetic.antt` what a term
//! comes to. `eval` computes that over cells. It doesn't recurse on a term, so no depth is too great.
#![tactic(auto)]

mod evaluation;
mod faults;
mod law;
mod operate;
mod operation;

pub use evaluation::eval;
pub use faults::EvalFault;
pub use law::{operations, rows};
