// The run of one goal over a base.
ghost use Rattle.std.specs.Prelude.{◌≡◌, ◌≤◌, ◌↔◌, IfOk, IsTrue};
ghost use Rattle.wam_machine.specs.Runs.{AreShown};
ghost use Rattle.prolog_session.specs.Words.{max_steps};
ghost use Rattle.prolog_session.specs.Bases.{HasRunBy};

use journal_base::{Gate, PlainBase};
use prolog_terms::{Ops, Want};
use std::alloc::Global;
use std::sync::Wait;
use wam_machine::{Engine, Goal, Run, RunEnd};

/// A run, the base over which it was made, and the operators of its engine.
#[derive(Drop)]
pub struct GoalRun {
    pub base: PlainBase,
    pub ops: Ops,
    pub run: Run,
}

/// Runs a goal by the engine that the base serves, in as many steps at most as are given; the run has this line, and writes
/// under these operators. The operators come back as they were, and the base with what the run added.
pub fn run_goal<R: Wait, G: Gate>(
    rt: &R,
    alloc: Global,
    gate: &G,
    steps: u64,
    base: PlainBase,
    ops: Ops,
    line: u64,
    goal: &Goal,
) -> Result<GoalRun, Want>
    requires steps { (1 ≤ steps) × (steps ≤ max_steps) }
    requires goal { AreShown goal.now }
    requires out { base.out ≡ 0 }
    ensures ops { IfOk result (λ ran. ran.ops ≡ ops) }
    ensures run { IfOk result (λ ran. HasRunBy ops base ran.base line goal.now steps ran.run) }
{
    let mut engine = match Engine::new(alloc, base, ops) {
        Ok(engine) => engine,
        Err(_) => return Err(Want),
    };
    let mut run = engine.solve(rt, goal, steps, gate);
    if wants(&run) {
        return Err(Want);
    }
    run.line = line;
    let (base, ops) = engine.into_parts();
    Ok(GoalRun { base, ops, run })
}

fn wants(run: &Run) -> bool
    ensures { IsTrue result ↔ (run.now.end ≡ RunEnd.Want) }
{
    match run.end {
        RunEnd::Want => true,
        _ => false,
    }
}
