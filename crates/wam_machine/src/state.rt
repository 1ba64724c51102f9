// The state of a run.

use crate::run::Event;
use crate::terms::Terms;
use journal_base::{Sizes, Tally};
use prolog_terms::{Ops, Term};
use std::alloc::Global;

/// Whether the machine goes on with its goals, tries its newest alternative, or raises a ball.
#[derive(Drop)]
pub(crate) enum Mode {
    Going,
    Failing,
    Raising(Term),
}

/// The state of a run: its mode, its terms, and what was done so far.
pub(crate) struct Machine<C> {
    pub mode: Mode,
    pub terms: Terms<C>,
    pub steps: u64,
    pub events: Vec<Event>,
    pub front: u64,
    pub fronts: Vec<u64>,
    pub tally: Tally,
}

/// What a run stands on: its engine, the sizes of its database, the front at its beginning, its budget of steps, and the
/// operators under which its goals write.
#[derive(Clone, Copy)]
pub(crate) struct Host<'a> {
    pub alloc: Global,
    pub engine: u32,
    pub sizes: Sizes,
    pub start: u64,
    pub budget: u64,
    pub ops: &'a Ops,
}
