//! The machine: it runs a goal over the clauses of a base.
#![tactic(auto)]

mod balls;
mod bodies;
mod build;
mod builtins;
mod choices;
mod constructs;
mod control;
mod cursor;
mod cuts;
mod database;
mod engine;
mod enter;
mod errors;
mod findall;
mod goals;
mod keys;
mod law;
mod machine;
mod matching;
mod naming;
mod procedures;
mod raising;
mod reserved;
mod run;
mod running;
mod shown;
mod state;
mod sweeping;
mod terms;

pub use engine::Engine;
pub use errors::no_change;
pub use law::{
    bodies_by_walk, catches_have_marks, each_goal_runs, engine_laws, findalls_have_marks, rows,
    transcript, what_is_defined_is_called, what_is_reserved_is_done,
};
pub use reserved::is_reserved;
pub use run::{Event, Events, Fronts, Goal, Run, RunEnd};
