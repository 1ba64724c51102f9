// What a run is asked, and what it gives.
ghost use Rattle.std.specs.Prelude.{◌≡◌, [], ◌++◌, ◌∷◌, OnOk, OnErr};

use journal_base::Tally;
use prolog_terms::{Bytes, ShownVariables, Term, Want, Whole};
use std::alloc::Global;
use std::marker::Model;

/// A goal, and its variables that are shown.
#[derive(Debug, Drop)]
pub struct Goal {
    pub term: Term,
    pub shown: ShownVariables,
}

/// What happens in a run.
#[derive(Debug, Drop, PartialEq)]
pub enum Event {
    /// An answer: the list of the shown variables' values, with its variables numbered from 0 by first occurrence; `left`
    /// says whether a choice point is left, so that more may follow.
    Answer { values: Term, left: bool },
    /// Bytes that a goal wrote.
    Wrote(Bytes),
}

/// How a run ends.
#[derive(Debug, Drop)]
pub enum RunEnd {
    /// No alternative is left.
    Exhausted,
    /// A ball that nothing catches.
    Ball(Term),
    /// So many steps were done, which is the budget, and a further one was asked for.
    Spent(u64),
    /// The goal `halt` or `halt(N)`, with its number; that of `halt` is 0.
    Halted(Whole),
    /// Memory was wanted.
    Want,
}

/// The events of a run, in order.
#[derive(Debug, Drop)]
pub struct Events {
    events: Vec<Event>,
}

impl Model for Events {
    ghost use Rattle.std.specs.Prelude.{List};
    ghost use Rattle.wam_machine.specs.declared.run.Event.{Event};
    ghost use Rattle.wam_machine.specs.contracts.run.Event as of_event;
    ghost use Rattle.std.specs.Coded.{coded_list};

    ghost Value = { List Event };

    ghost coded = { coded_list of_event.the_row.coded };

    ghost view = { λ e. e.events.items };
}

impl Events {
    /// The events of this `Vec`.
    pub fn of(events: Vec<Event>) -> Events
        ensures { result ≡ events.items }
    {
        Events { events }
    }

    /// The events.
    pub fn items(&self) -> &[Event]
        ensures { result.now ≡ self.now }
    {
        self.events.as_slice()
    }
}

/// The fronts of a run: the length of the journal at each call of a procedure, each check of one and each update that was asked
/// for, in order.
#[derive(Debug, Drop)]
pub struct Fronts {
    fronts: Vec<u64>,
}

impl Model for Fronts {
    ghost use Rattle.std.specs.Prelude.{List, ℕ};

    ghost Value = { List ℕ };

    ghost view = { λ f. f.fronts.items };
}

impl Fronts {
    /// The fronts of this `Vec`.
    pub fn of(fronts: Vec<u64>) -> Fronts
        ensures { result ≡ fronts.items }
    {
        Fronts { fronts }
    }

    /// The fronts.
    pub fn items(&self) -> &[u64]
        ensures { result.now ≡ self.now }
    {
        self.fronts.as_slice()
    }
}

/// A run of a goal.
#[derive(Debug, Drop)]
pub struct Run {
    /// The engine that ran it, counted from 1 in the order of the goals; 0 is the load's.
    pub engine: u32,
    /// The line of the text in which its read-term begins; 0 for a goal of the command line.
    pub line: u64,
    /// The goal's variables that its answers show.
    pub shown: ShownVariables,
    /// What happened, in order.
    pub transcript: Events,
    /// The journal's length at each call, each check and each update that was asked for, in order.
    pub fronts: Fronts,
    /// The cost of its looks.
    pub tally: Tally,
    /// How many steps it took.
    pub steps: u64,
    /// How it ended.
    pub end: RunEnd,
}
