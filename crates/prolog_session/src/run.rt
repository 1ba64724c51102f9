// The run of a command's goal, and the status that runs give.
ghost use Rattle.std.specs.Prelude.{◌≡◌, IfOk};
ghost use Rattle.std.specs.List.{list_any};
ghost use Rattle.journal_base.specs.Legal.{Legal};
ghost use Rattle.prolog_session.specs.Words.{IsReady};
ghost use Rattle.prolog_session.specs.Bases.{sizes_of};
ghost use Rattle.prolog_session.specs.Runs.{AreRunsBehind, ends_in_ball, ends_spent, status_of};

use crate::goal_run::run_goal;
use crate::load::Load;
use crate::runs::Runs;
use crate::words::Command;
use journal_base::{Base, Gate, PlainBase};
use prolog_terms::{Entries, Ops, Want};
use std::alloc::Global;
use std::sync::Wait;
use wam_machine::{Run, RunEnd};

/// The engine of the first goal.
const FIRST: u32 = 1;

/// The journal of a load with what the command's goal added, its runs with that of the goal behind them, and its operators.
#[derive(Drop)]
pub struct Ran {
    pub journal: Entries,
    pub runs: Runs,
    pub ops: Ops,
}

/// Runs the command's goal over the journal of a load, if it has one, in as many steps at most as the command gives. The goal's
/// engine has a copy of the operators.
pub fn run_command<R: Wait, G: Gate>(
    rt: &R,
    alloc: Global,
    gate: &G,
    command: Command,
    load: Load,
) -> Result<Ran, Want>
    requires ready { IsReady command }
    requires out { load.base.out ≡ 0 }
    ensures operators { IfOk result (λ ran. ran.ops ≡ load.ops) }
    ensures legal { IfOk result (λ ran. Legal load.base.words load.base.updates ran.journal) }
    ensures runs { IfOk result (λ ran. AreRunsBehind (sizes_of load.base) load.ops load.runs load.base.entries command ran.journal ran.runs) }
{
    let Load {
        base,
        ops,
        mut runs,
        refused: _,
    } = load;
    let Command { steps, goal } = command;
    let goal = match goal {
        Some(goal) => goal,
        None => return Ok(not_run(base, runs, ops)),
    };
    let ran = run_goal(
        rt,
        alloc,
        gate,
        steps,
        base.renumbered(FIRST),
        ops,
        0,
        &goal,
    )?;
    runs.push(ran.run)?;
    // For its clause `sound`.
    let _front = ran.base.front();
    Ok(Ran {
        journal: ran.base.into_entries(),
        runs,
        ops: ran.ops,
    })
}

/// What a command without a goal comes to: what the load left.
fn not_run(base: PlainBase, runs: Runs, ops: Ops) -> Ran
    ensures legal { Legal base.words base.updates result.journal }
    ensures journal { result.journal ≡ base.entries }
    ensures runs { result.runs ≡ runs }
    ensures ops { result.ops ≡ ops }
{
    // For its clause `sound`.
    let _front = base.front();
    Ran {
        journal: base.into_entries(),
        runs,
        ops,
    }
}

fn is_ball(run: &Run) -> bool
    ensures { result ≡ ends_in_ball run.now }
{
    match run.end {
        RunEnd::Ball(_) => true,
        _ => false,
    }
}

fn is_spent(run: &Run) -> bool
    ensures { result ≡ ends_spent run.now }
{
    match run.end {
        RunEnd::Spent(_) => true,
        _ => false,
    }
}

fn some_ball(runs: &[Run]) -> bool
    ensures { result ≡ list_any ends_in_ball runs.now }
{
    runs.iter().any(|run| is_ball(run))
}

fn some_spent(runs: &[Run]) -> bool
    ensures { result ≡ list_any ends_spent runs.now }
{
    runs.iter().any(|run| is_spent(run))
}

/// The status that runs give, where they are written whole.
#[tactic(auto, unfolding(crate::specs::Runs::status_of))]
pub fn status_of_runs(runs: &[Run]) -> u8
    ensures { result ≡ status_of runs.now }
{
    if some_ball(runs) {
        1
    } else if some_spent(runs) {
        7
    } else {
        0
    }
}
