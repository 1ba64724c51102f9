// A run, from its goal to its end.
ghost use Rattle.std.specs.Prelude.{◌≡◌, ◌≤◌, ◌^◌, [], IfOk, drop};
ghost use Rattle.journals.specs.Journal.{Journal};
ghost use Rattle.journal_base.specs.View.{Grows, IsSound, Looks, none_out, entries_by};
ghost use Rattle.wam_machine.specs.Cursors.{Begins};
ghost use Rattle.wam_machine.specs.Runs.{IsRunOf, IsTranscribed, AreShown};
ghost use Rattle.wam_machine.specs.View.{setting, calls, AreKept, IsReady, IsBeginning, IsHostOf, Makes, run_of};
ghost use Rattle.wam_machine.specs.Terms.{said, calls_in};

use crate::cuts::cut_back;
use crate::machine::advance;
use crate::run::{Events, Fronts, Goal, Run, RunEnd};
use crate::shown::begin;
use crate::state::{Host, Machine, Mode};
use crate::terms::{Terms, let_go};
use journal_base::{Base, Gate, Tally};
use prolog_terms::{Ops, ShownVariables, Want};
use std::alloc::Global;
use std::sync::Wait;

/// Moves the machine from the goal on until the run ends, and gives up the calls that are left.
pub(crate) fn run<B: Base, R: Wait, G: Gate>(
    base: &mut B,
    alloc: Global,
    ops: &Ops,
    rt: &R,
    goal: &Goal,
    budget: u64,
    gate: &G,
) -> Result<Run, Want>
    requires shown { AreShown goal.now }
    requires budget { budget ≤ 10 ^ 11 }
    requires out { B.out base.old ≡ none_out }
    ensures run { IfOk result (IsRunOf ops.now (B.view base.new) (B.view base.old).seen budget goal.now) }
    ensures seen { Grows (B.view base.old) (B.view base.new) }
    ensures becomes { B.becomes base.old base.new }
    ensures out { B.out base.new ≡ none_out }
{
    let host = Host {
        alloc,
        engine: base.number(),
        sizes: base.limits(),
        start: base.front(),
        budget,
        ops,
    };
    let shown = goal.shown.clone()?;
    let mut machine = first(alloc, goal, host.start)?;
    let ended = moves(base, &mut machine, &host, goal, rt, gate);
    clear(base, &mut machine.terms);
    match ended {
        Ok(end) => Ok(into_run(machine, host.engine, shown, end)),
        Err(want) => {
            stop(machine);
            Err(want)
        }
    }
}

/// The machine before its first move.
fn first<C>(alloc: Global, goal: &Goal, front: u64) -> Result<Machine<C>, Want>
    requires shown { AreShown goal.now }
    ensures { IfOk result (IsBeginning goal.now front) }
{
    let terms = begin(alloc, goal)?;
    Ok(Machine {
        mode: Mode::Going,
        terms,
        steps: 0,
        events: Vec::new(alloc),
        front,
        fronts: Vec::new(alloc),
        tally: Tally::new(),
    })
}

/// Makes one move after another until the run ends.
fn moves<B: Base, R: Wait, G: Gate>(
    base: &mut B,
    machine: &mut Machine<B::Cursor>,
    host: &Host<'_>,
    goal: &Goal,
    rt: &R,
    gate: &G,
) -> Result<RunEnd, Want>
    requires sound { IsSound (B.view base.old) }
    requires host { IsHostOf host.now (B.view base.old) }
    requires beginning { IsBeginning goal.now host.now.start machine.old }
    requires start { host.now.start ≡ (B.view base.old).seen }
    requires budget { host.now.budget ≤ 10 ^ 11 }
    requires out { B.out base.old ≡ none_out }
    ensures seen { Grows (B.view base.old) (B.view base.new) }
    ensures becomes { B.becomes base.old base.new }
    ensures kept { AreKept (B.serves base.new) B.group (B.out base.new) (calls machine.new) }
    ensures within { IfOk result (λ _. machine.new.steps ≤ host.now.budget) }
    ensures ended { IfOk result (λ end. Makes (B.view base.old) (B.view base.new) (λ made. (j : Journal) → Begins (B.view base.new) j → entries_by host.now.engine (drop host.now.start j) ≡ made
        → IsTranscribed (setting host.now machine.old j) (B.view base.new).causes goal.now.term (run_of host.now.engine goal.now.shown machine.new end))) }
{
    // The contract speaks of it.
    let _goal = goal;
    for _ in rt.forever() {
        if let Some(end) = advance(base, machine, host, rt, gate)? {
            return Ok(end);
        }
    }
    unreachable!()
}

/// Takes the whole stack away, and gives up its calls.
fn clear<B: Base>(base: &mut B, terms: &mut Terms<B::Cursor>)
    requires sound { IsSound (B.view base.old) }
    requires kept { AreKept (B.serves base.old) B.group (B.out base.old) (calls_in (said terms.old).stack) }
    ensures seen { Looks (B.view base.old) (B.view base.new) }
    ensures becomes { B.becomes base.old base.new }
    ensures none { terms.new.choices.items ≡ [] }
    ensures out { B.out base.new ≡ none_out }
{
    cut_back(base, terms, 0);
}

/// What the machine did, as a run.
fn into_run<C>(machine: Machine<C>, engine: u32, shown: ShownVariables, end: RunEnd) -> Run
    requires { machine.terms.choices.items ≡ [] }
    ensures { result ≡ run_of engine shown machine end }
{
    let Machine {
        mode: _,
        terms,
        steps,
        events,
        front: _,
        fronts,
        tally,
    } = machine;
    let_go(terms);
    Run {
        engine,
        line: 0,
        shown,
        transcript: Events::of(events),
        fronts: Fronts::of(fronts),
        tally,
        steps,
        end,
    }
}

/// Lets a machine go that has no calls left.
fn stop<C>(machine: Machine<C>)
    requires { machine.terms.choices.items ≡ [] }
{
    let Machine {
        mode: _,
        terms,
        steps: _,
        events: _,
        front: _,
        fronts: _,
        tally: _,
    } = machine;
    let_go(terms);
}
