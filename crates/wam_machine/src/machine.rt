// The machine's moves, each on its own.
ghost use Rattle.std.specs.Prelude.{◌≡◌, ◌≤◌, ◌^◌, ◌+◌, ◌++◌, ◌∷◌, [], All, IfOk, OnOk, OnErr, MatchOption, length, true, false};
ghost use Rattle.prolog_terms.specs.Tree.{Tree};
ghost use Rattle.prolog_terms.specs.Substitutions.{substituted, numbered};
ghost use Rattle.journals.specs.Journal.{Journal};
ghost use Rattle.journal_base.specs.Looks.{HasRoom};
ghost use Rattle.journal_base.specs.View.{IsSound, Grows, Looks};
ghost use Rattle.wam_machine.specs.States.{Setting, Do};
ghost use Rattle.wam_machine.specs.Machine.{move};
ghost use Rattle.wam_machine.specs.Terms.{AreTerms, IsGoal, IsTurn, HasNewest, said, built, turn_now, is_open, is_any_open};
ghost use Rattle.wam_machine.specs.Goals.{IsControl, IsSimple};
ghost use Rattle.wam_machine.specs.Cursors.{Begins, AreNamed};
ghost use Rattle.wam_machine.specs.View.{setting, calls, turn_calls, Acts, IsReady, IsLeft, AreKept, Does, Makes, IsHostOf, IsFronted, Resumes, KeepsCounts, IsRaising, performs_goal};

use crate::choices::{Newest, any_open, go_back, see_newest};
use crate::constructs::{construct, repeat};
use crate::control::{Control, goal_control};
use crate::cuts::{cut_stack, end_not, leave_catch};
use crate::database::access;
use crate::findall::{finish, keep_found};
use crate::goals::{push_next, take_next};
use crate::procedures::{call, take};
use crate::raising::{halt, raise};
use crate::run::{Event, RunEnd};
use crate::shown::values;
use crate::state::{Host, Machine, Mode};
use crate::terms::{Alternative, Next};
use journal_base::{Base, Gate};
use prolog_terms::Want;
use std::alloc::Global;
use std::sync::Wait;
use term_store::Cell;

/// One move. It answers the run's end, where it comes to it.
pub(crate) fn advance<B: Base, R: Wait, G: Gate>(
    base: &mut B,
    machine: &mut Machine<B::Cursor>,
    host: &Host<'_>,
    rt: &R,
    gate: &G,
) -> Result<Option<RunEnd>, Want>
    requires host { IsHostOf host.now (B.view base.old) }
    requires ready { IsReady (B.view base.old) (B.serves base.old) B.group (B.out base.old) B.rest B.may_visit B.looked_at host.now.budget machine.old }
    requires budget { host.now.budget ≤ 10 ^ 11 }
    ensures seen { Grows (B.view base.old) (B.view base.new) }
    ensures becomes { B.becomes base.old base.new }
    ensures kept { AreKept (B.serves base.new) B.group (B.out base.new) (calls machine.new) }
    ensures left { OnOk result (IsLeft host.now.budget (B.view base.new) machine.old machine.new) }
    ensures moves { IfOk result (λ o. Makes (B.view base.old) (B.view base.new) (λ made. (j : Journal) → Begins (B.view base.new) j → Does B.rest B.may_visit B.looked_at B.ahead (B.view base.new).causes made (move (setting host.now machine.old j)) (setting host.now machine.old j) machine.old machine.new o)) }
{
    match &machine.mode {
        Mode::Going => go_on(base, machine, host, rt, gate),
        Mode::Failing => retry(base, machine, host, rt),
        Mode::Raising(_ball) => raise(base, machine, host),
    }
}

/// Goes on with the next goal; where none is left, that is an answer.
fn go_on<B: Base, R: Wait, G: Gate>(
    base: &mut B,
    machine: &mut Machine<B::Cursor>,
    host: &Host<'_>,
    rt: &R,
    gate: &G,
) -> Result<Option<RunEnd>, Want>
    requires going { machine.old.mode ≡ Mode.Going }
    requires host { IsHostOf host.now (B.view base.old) }
    requires ready { IsReady (B.view base.old) (B.serves base.old) B.group (B.out base.old) B.rest B.may_visit B.looked_at host.now.budget machine.old }
    requires budget { host.now.budget ≤ 10 ^ 11 }
    ensures seen { Grows (B.view base.old) (B.view base.new) }
    ensures becomes { B.becomes base.old base.new }
    ensures kept { AreKept (B.serves base.new) B.group (B.out base.new) (calls machine.new) }
    ensures left { OnOk result (IsLeft host.now.budget (B.view base.new) machine.old machine.new) }
    ensures moves { IfOk result (λ o. Makes (B.view base.old) (B.view base.new) (λ made. (j : Journal) → Begins (B.view base.new) j → Does B.rest B.may_visit B.looked_at B.ahead (B.view base.new).causes made (move (setting host.now machine.old j)) (setting host.now machine.old j) machine.old machine.new o)) }
{
    match take_next(&mut machine.terms) {
        None => {
            answer(machine)?;
            Ok(None)
        }
        Some(Next::Do(goal, cut)) => do_goal(base, machine, host, goal, cut, rt, gate),
        Some(Next::ConditionEnd(height)) => {
            cut_stack(base, machine, host, height);
            Ok(None)
        }
        Some(Next::NotEnd(height)) => {
            end_not(base, machine, host, height);
            Ok(None)
        }
        Some(Next::CatchEnd(height)) => {
            leave_catch(base, machine, host, height);
            Ok(None)
        }
        Some(Next::FindallEnd(template, height)) => {
            keep_found(machine, template, height)?;
            Ok(None)
        }
    }
}

/// An answer: the shown term's value, open where an alternative is left.
fn answer<C>(machine: &mut Machine<C>) -> Result<(), Want>
    requires { AreTerms machine.old.terms }
    ensures same { OnOk result (machine.new ≡ record machine.old { mode = Mode.Failing; events = machine.new.events }) }
    ensures events { OnOk result (machine.new.events.items ≡ machine.old.events.items ++ Event.Answer (numbered (substituted (said machine.old.terms).bindings (said machine.old.terms).shown)) (is_any_open (said machine.old.terms).stack) ∷ []) }
    ensures terms { machine.new.terms ≡ machine.old.terms }
{
    let values = values(&machine.terms)?;
    let left = any_open(&machine.terms);
    machine.events.push(Event::Answer { values, left })?;
    machine.mode = Mode::Failing;
    Ok(())
}

/// Does a goal: a conjunction is taken apart, and anything else is done in one step.
fn do_goal<B: Base, R: Wait, G: Gate>(
    base: &mut B,
    machine: &mut Machine<B::Cursor>,
    host: &Host<'_>,
    goal: Cell,
    cut: usize,
    rt: &R,
    gate: &G,
) -> Result<Option<RunEnd>, Want>
    requires goal { IsGoal machine.old.terms goal }
    requires going { machine.old.mode ≡ Mode.Going }
    requires host { IsHostOf host.now (B.view base.old) }
    requires ready { IsReady (B.view base.old) (B.serves base.old) B.group (B.out base.old) B.rest B.may_visit B.looked_at host.now.budget machine.old }
    requires budget { host.now.budget ≤ 10 ^ 11 }
    ensures seen { Grows (B.view base.old) (B.view base.new) }
    ensures becomes { B.becomes base.old base.new }
    ensures kept { AreKept (B.serves base.new) B.group (B.out base.new) (calls machine.new) }
    ensures left { OnOk result (IsLeft host.now.budget (B.view base.new) machine.old machine.new) }
    ensures moves { IfOk result (λ o. Makes (B.view base.old) (B.view base.new) (λ made. (j : Journal) → Begins (B.view base.new) j → Does B.rest B.may_visit B.looked_at B.ahead (B.view base.new).causes made (performs_goal (setting host.now machine.old j) (built machine.old.terms goal) cut) (setting host.now machine.old j) machine.old machine.new o)) }
{
    let control = goal_control(host.alloc, &machine.terms, goal)?;
    if let Control::Both(left, right) = control {
        conjoin(machine, left, right, cut)?;
        return Ok(None);
    }
    let end = perform(base, machine, host, goal, cut, control, rt, gate)?;
    Ok(end)
}

/// Takes a conjunction apart: its goals come first.
fn conjoin<C>(machine: &mut Machine<C>, left: Cell, right: Cell, cut: usize) -> Result<(), Want>
    requires terms { AreTerms machine.old.terms }
    requires left { IsGoal machine.old.terms left }
    requires right { IsGoal machine.old.terms right }
    ensures terms { OnOk result (AreTerms machine.new.terms) }
    ensures same { OnOk result (machine.new ≡ record machine.old { terms = machine.new.terms }) }
    ensures said { OnOk result (said machine.new.terms ≡ record (said machine.old.terms) { goals = Do (built machine.old.terms left) cut ∷ Do (built machine.old.terms right) cut ∷ (said machine.old.terms).goals }) }
    ensures err { OnErr result (calls machine.new ≡ calls machine.old) }
{
    push_next(&mut machine.terms, Next::Do(right, cut))?;
    push_next(&mut machine.terms, Next::Do(left, cut))
}

/// Does a goal that is no conjunction, in one step.
fn perform<B: Base, R: Wait, G: Gate>(
    base: &mut B,
    machine: &mut Machine<B::Cursor>,
    host: &Host<'_>,
    goal: Cell,
    cut: usize,
    control: Control,
    rt: &R,
    gate: &G,
) -> Result<Option<RunEnd>, Want>
    requires goal { IsGoal machine.old.terms goal }
    requires control { IsControl machine.old.terms (built machine.old.terms goal) control }
    requires simple { IsSimple control }
    requires going { machine.old.mode ≡ Mode.Going }
    requires host { IsHostOf host.now (B.view base.old) }
    requires ready { IsReady (B.view base.old) (B.serves base.old) B.group (B.out base.old) B.rest B.may_visit B.looked_at host.now.budget machine.old }
    requires budget { host.now.budget ≤ 10 ^ 11 }
    ensures seen { Grows (B.view base.old) (B.view base.new) }
    ensures becomes { B.becomes base.old base.new }
    ensures kept { AreKept (B.serves base.new) B.group (B.out base.new) (calls machine.new) }
    ensures left { OnOk result (IsLeft host.now.budget (B.view base.new) machine.old machine.new) }
    ensures moves { IfOk result (λ o. Makes (B.view base.old) (B.view base.new) (λ made. (j : Journal) → Begins (B.view base.new) j → Does B.rest B.may_visit B.looked_at B.ahead (B.view base.new).causes made (performs_goal (setting host.now machine.old j) (built machine.old.terms goal) cut) (setting host.now machine.old j) machine.old machine.new o)) }
{
    if machine.steps == host.budget {
        return Ok(Some(RunEnd::Spent(machine.steps)));
    }
    machine.steps += 1;
    match control {
        Control::Cut => {
            cut_stack(base, machine, host, cut);
            Ok(None)
        }
        Control::User(indicator) => {
            call(base, machine, host, goal, &indicator, rt, gate)?;
            Ok(None)
        }
        Control::Database(asked) => {
            access(base, machine, host, asked, rt, gate)?;
            Ok(None)
        }
        Control::Halt => Ok(Some(RunEnd::Halted(0))),
        Control::HaltWith(code) => {
            let end = halt(machine, host.alloc, code)?;
            Ok(end)
        }
        other => {
            construct(machine, host.alloc, host.ops, cut, other)?;
            Ok(None)
        }
    }
}

/// After a failure the newest alternative is taken, and a mark is passed; where there is neither the run is over.
fn retry<B: Base, R: Wait>(
    base: &mut B,
    machine: &mut Machine<B::Cursor>,
    host: &Host<'_>,
    rt: &R,
) -> Result<Option<RunEnd>, Want>
    requires failing { machine.old.mode ≡ Mode.Failing }
    requires host { IsHostOf host.now (B.view base.old) }
    requires ready { IsReady (B.view base.old) (B.serves base.old) B.group (B.out base.old) B.rest B.may_visit B.looked_at host.now.budget machine.old }
    requires budget { host.now.budget ≤ 10 ^ 11 }
    ensures seen { Grows (B.view base.old) (B.view base.new) }
    ensures becomes { B.becomes base.old base.new }
    ensures kept { AreKept (B.serves base.new) B.group (B.out base.new) (calls machine.new) }
    ensures left { OnOk result (IsLeft host.now.budget (B.view base.new) machine.old machine.new) }
    ensures moves { IfOk result (λ o. Makes (B.view base.old) (B.view base.new) (λ made. (j : Journal) → Begins (B.view base.new) j → Does B.rest B.may_visit B.looked_at B.ahead (B.view base.new).causes made (move (setting host.now machine.old j)) (setting host.now machine.old j) machine.old machine.new o)) }
{
    match see_newest(&machine.terms) {
        Newest::Nothing => Ok(Some(RunEnd::Exhausted)),
        Newest::Mark | Newest::Catch => {
            pass_mark(machine, host.alloc)?;
            Ok(None)
        }
        Newest::Open => retake(base, machine, host, rt),
    }
}

/// Passes a mark, without a step: behind a `\+` the machine goes on, at a `catch` the failure goes further, and a `findall` has
/// found all.
fn pass_mark<C>(machine: &mut Machine<C>, alloc: Global) -> Result<(), Want>
    requires failing { machine.old.mode ≡ Mode.Failing }
    requires terms { AreTerms machine.old.terms }
    requires newest { HasNewest (said machine.old.terms).stack false }
    ensures acts { OnOk result ((x : Setting) → Acts (move x) machine.old machine.new) }
    ensures err { OnErr result (calls machine.new ≡ calls machine.old) }
{
    match go_back(&mut machine.terms) {
        Some(Alternative::NotMark) => {
            machine.mode = Mode::Going;
            Ok(())
        }
        Some(Alternative::CatchMark(_catcher, _recovery)) => Ok(()),
        Some(Alternative::FindallMark(list, found)) => finish(
            machine,
            alloc,
            list,
            found.as_slice(),
        ),
        _ => unreachable!(),
    }
}

/// Takes the newest alternative, by a step.
fn retake<B: Base, R: Wait>(
    base: &mut B,
    machine: &mut Machine<B::Cursor>,
    host: &Host<'_>,
    rt: &R,
) -> Result<Option<RunEnd>, Want>
    requires failing { machine.old.mode ≡ Mode.Failing }
    requires host { IsHostOf host.now (B.view base.old) }
    requires newest { HasNewest (said machine.old.terms).stack true }
    requires ready { IsReady (B.view base.old) (B.serves base.old) B.group (B.out base.old) B.rest B.may_visit B.looked_at host.now.budget machine.old }
    requires budget { host.now.budget ≤ 10 ^ 11 }
    ensures seen { Grows (B.view base.old) (B.view base.new) }
    ensures becomes { B.becomes base.old base.new }
    ensures kept { AreKept (B.serves base.new) B.group (B.out base.new) (calls machine.new) }
    ensures left { OnOk result (IsLeft host.now.budget (B.view base.new) machine.old machine.new) }
    ensures moves { IfOk result (λ o. Makes (B.view base.old) (B.view base.new) (λ made. (j : Journal) → Begins (B.view base.new) j → Does B.rest B.may_visit B.looked_at B.ahead (B.view base.new).causes made (move (setting host.now machine.old j)) (setting host.now machine.old j) machine.old machine.new o)) }
{
    if machine.steps == host.budget {
        return Ok(Some(RunEnd::Spent(machine.steps)));
    }
    match go_back(&mut machine.terms) {
        None => unreachable!(),
        Some(what) => {
            machine.steps += 1;
            machine.mode = Mode::Going;
            resume(base, machine, host, what, rt)?;
            Ok(None)
        }
    }
}

/// Goes on with an alternative that was taken.
fn resume<B: Base, R: Wait>(
    base: &mut B,
    machine: &mut Machine<B::Cursor>,
    host: &Host<'_>,
    what: Alternative<B::Cursor>,
    rt: &R,
) -> Result<(), Want>
    requires host { IsHostOf host.now (B.view base.old) }
    requires front { IsFronted (B.view base.old) machine.old.front }
    requires sound { IsSound (B.view base.old) }
    requires terms { AreTerms machine.old.terms }
    requires turn { IsTurn machine.old.terms what }
    requires open { is_open (turn_now machine.old.terms what) ≡ true }
    requires kept { AreKept (B.serves base.old) B.group (B.out base.old) (calls machine.old ++ turn_calls (turn_now machine.old.terms what)) }
    requires named { (j : Journal) → Begins (B.view base.old) j → All (AreNamed B.rest B.looked_at j) (calls machine.old ++ turn_calls (turn_now machine.old.terms what)) }
    requires room { HasRoom machine.old.tally }
    ensures seen { Grows (B.view base.old) (B.view base.new) }
    ensures becomes { B.becomes base.old base.new }
    ensures kept { AreKept (B.serves base.new) B.group (B.out base.new) (calls machine.new) }
    ensures counts { OnOk result (KeepsCounts machine.old machine.new) }
    ensures front { OnOk result (IsFronted (B.view base.new) machine.new.front) }
    ensures grown { OnOk result (length (calls machine.new) ≤ length (calls machine.old) + length (turn_calls (turn_now machine.old.terms what))) }
    ensures resumed { OnOk result (Makes (B.view base.old) (B.view base.new) (λ made. (j : Journal) → Begins (B.view base.new) j
        → Resumes B.rest B.may_visit B.looked_at B.ahead made (setting host.now machine.old j) (turn_now machine.old.terms what) machine.old machine.new)) }
{
    match what {
        Alternative::Clauses(call) => {
            take(base, machine, host, call, rt)?;
            Ok(())
        }
        Alternative::Right(goal, cut) => {
            push_next(&mut machine.terms, Next::Do(goal, cut))?;
            Ok(())
        }
        Alternative::Again => {
            repeat(machine)?;
            Ok(())
        }
        Alternative::NotMark => unreachable!(),
        Alternative::CatchMark(_, _) => unreachable!(),
        Alternative::FindallMark(_, _) => unreachable!(),
    }
}
