//! Terms of a text.
//!
//! `specs/Reads.antt` says by cases which tokens read as which term, `specs/Stops.antt` where the others stop being read
//! and with which fault, and `specs/Grammar.antt` gives the rules that read them one by one; `reads_by_cases` and
//! `faults_by_cases` tie them together.
#![tactic(auto)]

mod ahead;
mod built;
mod law;
mod order;
mod parser;
mod reader;
mod rule;
mod stack;
mod variables;

pub use law::{faults_by_cases, program_by_parts, reads_by_cases};
pub use reader::{Read, ReadTerm, read_term};
