//! The whole program over any source and any sink: a text of clauses and directives is loaded, a goal is run over it, and their
//! answers are written.
//!
//! `session::top` is the program; its clauses say what each status means, what the sink gains and what is left of the source.
#![tactic(auto)]

mod finish;
mod goal_run;
mod kept;
mod load;
mod memory;
mod part;
mod prepare;
mod putting;
mod reading;
mod refusal;
mod run;
mod runs;
mod session;
mod sink;
mod source;
mod standard;
mod steady;
mod texts;
mod words;
mod writing;

pub use finish::{Outcome, WANTED};
pub use memory::{MemorySink, MemorySource};
pub use prolog_terms::Want;
pub use reading::{MAX_TEXT, Text, read_all};
pub use runs::Runs;
pub use session::top;
pub use sink::{Put, Sink};
pub use source::{Got, Source};
pub use standard::{StdSink, StdSource};
pub use steady::{SteadySink, SteadySource};
pub use texts::output;
pub use words::STEP_BUDGET;
pub use writing::{Written, write_all};
