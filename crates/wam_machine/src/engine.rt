// The engine.
ghost use Rattle.std.specs.Prelude.{◌≡◌, ◌≤◌, ◌^◌, IfOk, IfErr};
ghost use Rattle.journal_base.specs.View.{Grows, none_out};
ghost use Rattle.wam_machine.specs.Runs.{IsRunOf, AreShown};

use crate::run::{Events, Fronts, Goal, Run, RunEnd};
use crate::running::run;
use journal_base::{Base, Gate, Tally};
use prolog_terms::{Ops, ShownVariables};
use std::alloc::Global;
use std::sync::Wait;

/// An engine over a base, with an operator table.
#[derive(Drop)]
pub struct Engine<B: Base> {
    base: B,
    ops: Ops,
    alloc: Global,
}

impl<B: Base> Engine<B> {
    /// An engine over this base; for want of memory the base is handed back.
    pub fn new(alloc: Global, base: B, ops: Ops) -> Result<Engine<B>, B>
        ensures ok { IfOk result (λ e. e.base ≡ base) }
        ensures ops { IfOk result (λ e. e.ops ≡ ops) }
        ensures err { IfErr result (λ b. b ≡ base) }
    {
        Ok(Engine { base, ops, alloc })
    }

    /// Runs a goal, of so many steps at most, and passes the gate before each look. No cursor of the base may be out, and
    /// none is out afterwards. Its goals write under the engine's operators. What the run adds to the journal is its transcript's.
    pub fn solve<R: Wait, G: Gate>(&mut self, rt: &R, goal: &Goal, budget: u64, gate: &G) -> Run
        requires shown { AreShown goal.now }
        requires budget { (1 ≤ budget) × (budget ≤ 10 ^ 11) }
        requires out { B.out self.old.base ≡ none_out }
        ensures run { IsRunOf self.old.ops (B.view self.new.base) (B.view self.old.base).seen budget goal.now result }
        ensures seen { Grows (B.view self.old.base) (B.view self.new.base) }
        ensures becomes { B.becomes self.old.base self.new.base }
        ensures out { B.out self.new.base ≡ none_out }
        ensures ops { self.new.ops ≡ self.old.ops }
    {
        match run(
            &mut self.base,
            self.alloc,
            &self.ops,
            rt,
            goal,
            budget,
            gate,
        ) {
            Ok(run) => run,
            Err(_) => self.wanted(),
        }
    }

    /// The run that wanted memory.
    fn wanted(&self) -> Run
        ensures engine { result.engine ≡ (B.view self.now.base).number }
        ensures line { result.line ≡ 0 }
        ensures steps { result.steps ≡ 0 }
        ensures end { result.end ≡ RunEnd.Want }
    {
        Run {
            engine: self.base.number(),
            line: 0,
            shown: ShownVariables::new(self.alloc),
            transcript: Events::of(Vec::new(self.alloc)),
            fronts: Fronts::of(Vec::new(self.alloc)),
            tally: Tally::new(),
            steps: 0,
            end: RunEnd::Want,
        }
    }

    /// The base and the operators, handed back.
    pub fn into_parts(self) -> (B, Ops)
        ensures base { result.0 ≡ self.base }
        ensures ops { result.1 ≡ self.ops }
    {
        (self.base, self.ops)
    }
}
