// What the machine does itself within a goal's step, beside calls and cuts. Each function says what the machine's definition
// does to its state.
ghost use Rattle.std.specs.Prelude.{◌≡◌, ℕ, suc, ◌<◌, ◌∷◌, [], All, IfOk, OnOk, OnErr, IsTrue, length, codes};
ghost use Rattle.prolog_terms.specs.Tree.{Tree, atom};
ghost use Rattle.prolog_terms.specs.Faults.{two};
ghost use Rattle.prolog_terms.specs.Clauses.{body_of, call_term, is_body};
ghost use Rattle.term_store.specs.Terms.{trees_of};
ghost use Rattle.term_builtins.specs.Table.{builtins};
ghost use Rattle.wam_machine.specs.States.{Setting, State, Do, ConditionEnd, NotEnd, Right, NotMark, onwards, pushed, height as height_of, fails, CatchMark, CatchEnd};
ghost use Rattle.wam_machine.specs.Machine.{performing, repeating, calling_builtin, running, denying, catching, throwing, calling_added};
ghost use Rattle.wam_machine.specs.Terms.{AreTerms, IsGoal, IsBuilt, said, built};
ghost use Rattle.wam_machine.specs.Goals.{AreAmong, AreGoals, IsConstruct, control_in};
ghost use Rattle.wam_machine.specs.View.{Acts, calls, settled_mode};

use crate::balls::{Thrown, as_ball};
use crate::bodies::body;
use crate::build::{Added, add, once_goal};
use crate::builtins::{Called, call_row};
use crate::choices::{height, make_place, save};
use crate::control::Control;
use crate::errors::{
    call_indicator, catch_indicator, not_indicator, too_many, unbound, unbound_ball, uncallable,
};
use crate::findall::gather;
use crate::goals::push_next;
use crate::run::Event;
use crate::state::{Machine, Mode};
use crate::terms::{Alternative, Next};
use prolog_terms::{Indicator, Ops, Want};
use std::alloc::Global;
use term_store::Cell;

/// Does what a goal is, where it is no conjunction, no cut, no end of the run and no call of a procedure.
pub(crate) fn construct<C>(
    machine: &mut Machine<C>,
    alloc: Global,
    ops: &Ops,
    cut: usize,
    control: Control,
) -> Result<(), Want>
    requires terms { AreTerms machine.old.terms }
    requires among { AreAmong (IsBuilt machine.old.terms) control }
    requires goals { AreGoals (IsGoal machine.old.terms) control }
    requires construct { IsConstruct control }
    ensures acts { OnOk result ((x : Setting) (goal : Tree) → x.ops ≡ ops.now → Acts (performing x goal cut (control_in (built machine.old.terms) control)) machine.old machine.new) }
    ensures err { OnErr result (calls machine.new ≡ calls machine.old) }
{
    match control {
        Control::True => Ok(()),
        Control::Fail => {
            machine.mode = Mode::Failing;
            Ok(())
        }
        Control::Repeat => repeat(machine),
        Control::Either(left, right) => either(machine, left, right, cut),
        Control::IfElse(condition, then, other) => if_else(machine, condition, then, other, cut),
        Control::If(condition, then) => if_alone(machine, condition, then, cut),
        Control::Not(goal) => deny(machine, alloc, goal),
        Control::Call(goal, added) => call_added(machine, alloc, goal, added.as_slice()),
        Control::Once(goal) => once(machine, goal, cut),
        Control::Catch(goal, catcher, recovery) => catch(machine, alloc, goal, catcher, recovery),
        Control::Findall(template, goal, list) => gather(machine, alloc, template, goal, list),
        Control::Throw(ball) => throw(machine, alloc, ball),
        Control::Halt => unreachable!(),
        Control::HaltWith(_) => unreachable!(),
        Control::Database(_) => unreachable!(),
        Control::Builtin(row, args) => builtin(machine, alloc, ops, row, args.as_slice()),
        Control::Cut => unreachable!(),
        Control::Both(_, _) => unreachable!(),
        Control::User(_) => unreachable!(),
    }
}

/// Succeeds, with a further turn as an alternative.
pub(crate) fn repeat<C>(machine: &mut Machine<C>) -> Result<(), Want>
    requires terms { AreTerms machine.old.terms }
    ensures same { machine.new ≡ record machine.old { terms = machine.new.terms } }
    ensures acts { OnOk result (Acts repeating machine.old machine.new) }
    ensures err { OnErr result (calls machine.new ≡ calls machine.old) }
{
    make_place(&mut machine.terms)?;
    save(&mut machine.terms, Alternative::Again);
    Ok(())
}

/// One goal, with the other as an alternative.
fn either<C>(machine: &mut Machine<C>, left: Cell, right: Cell, cut: usize) -> Result<(), Want>
    requires terms { AreTerms machine.old.terms }
    requires left { IsGoal machine.old.terms left }
    requires right { IsGoal machine.old.terms right }
    ensures acts { OnOk result (Acts (λ s. onwards (Do (built machine.old.terms left) cut ∷ []) (pushed (Right (built machine.old.terms right) cut) s)) machine.old machine.new) }
    ensures err { OnErr result (calls machine.new ≡ calls machine.old) }
{
    make_place(&mut machine.terms)?;
    save(&mut machine.terms, Alternative::Right(right, cut));
    push_next(&mut machine.terms, Next::Do(left, cut))
}

/// The first answer of a condition and then a goal, with another as an alternative.
fn if_else<C>(
    machine: &mut Machine<C>,
    condition: Cell,
    then: Cell,
    other: Cell,
    cut: usize,
) -> Result<(), Want>
    requires terms { AreTerms machine.old.terms }
    requires condition { IsGoal machine.old.terms condition }
    requires then { IsGoal machine.old.terms then }
    requires other { IsGoal machine.old.terms other }
    ensures acts { OnOk result (Acts (λ s. onwards (Do (built machine.old.terms condition) (suc (height_of s)) ∷ ConditionEnd (height_of s) ∷ Do (built machine.old.terms then) cut ∷ [])
        (pushed (Right (built machine.old.terms other) cut) s)) machine.old machine.new) }
    ensures err { OnErr result (calls machine.new ≡ calls machine.old) }
{
    let before = height(&machine.terms);
    make_place(&mut machine.terms)?;
    save(&mut machine.terms, Alternative::Right(other, cut));
    let within = height(&machine.terms);
    push_next(&mut machine.terms, Next::Do(then, cut))?;
    push_next(&mut machine.terms, Next::ConditionEnd(before))?;
    push_next(&mut machine.terms, Next::Do(condition, within))
}

/// The first answer of a condition, and then a goal.
fn if_alone<C>(
    machine: &mut Machine<C>,
    condition: Cell,
    then: Cell,
    cut: usize,
) -> Result<(), Want>
    requires terms { AreTerms machine.old.terms }
    requires condition { IsGoal machine.old.terms condition }
    requires then { IsGoal machine.old.terms then }
    ensures acts { OnOk result (Acts (λ s. onwards (Do (built machine.old.terms condition) (height_of s) ∷ ConditionEnd (height_of s) ∷ Do (built machine.old.terms then) cut ∷ []) s) machine.old machine.new) }
    ensures err { OnErr result (calls machine.new ≡ calls machine.old) }
{
    let before = height(&machine.terms);
    push_next(&mut machine.terms, Next::Do(then, cut))?;
    push_next(&mut machine.terms, Next::ConditionEnd(before))?;
    push_next(&mut machine.terms, Next::Do(condition, before))
}

/// The goal of a `\+` as a body, above a mark.
fn deny<C>(machine: &mut Machine<C>, alloc: Global, goal: Cell) -> Result<(), Want>
    requires terms { AreTerms machine.old.terms }
    requires goal { IsBuilt machine.old.terms goal }
    ensures acts { OnOk result (Acts (λ s. denying (built machine.old.terms goal) s (body_of (built machine.old.terms goal))) machine.old machine.new) }
    ensures err { OnErr result (calls machine.new ≡ calls machine.old) }
{
    match body(alloc, &mut machine.terms, goal)? {
        Some(made) => deny_body(machine, made),
        None => {
            let at = not_indicator(alloc)?;
            machine.mode = Mode::Raising(uncallable(alloc, &machine.terms, goal, &at)?);
            Ok(())
        }
    }
}

/// A body that is to have no answer, above a mark.
fn deny_body<C>(machine: &mut Machine<C>, made: Cell) -> Result<(), Want>
    requires terms { AreTerms machine.old.terms }
    requires made { IsGoal machine.old.terms made }
    ensures acts { OnOk result (Acts (λ s. onwards (Do (built machine.old.terms made) (suc (height_of s)) ∷ NotEnd (height_of s) ∷ []) (pushed NotMark s)) machine.old machine.new) }
    ensures err { OnErr result (calls machine.new ≡ calls machine.old) }
{
    let before = height(&machine.terms);
    make_place(&mut machine.terms)?;
    save(&mut machine.terms, Alternative::NotMark);
    let within = height(&machine.terms);
    push_next(&mut machine.terms, Next::NotEnd(before))?;
    push_next(&mut machine.terms, Next::Do(made, within))
}

/// The goal of a `catch` as a body, above a mark.
fn catch<C>(
    machine: &mut Machine<C>,
    alloc: Global,
    goal: Cell,
    catcher: Cell,
    recovery: Cell,
) -> Result<(), Want>
    requires terms { AreTerms machine.old.terms }
    requires goal { IsBuilt machine.old.terms goal }
    requires catcher { IsBuilt machine.old.terms catcher }
    requires recovery { IsBuilt machine.old.terms recovery }
    ensures acts { OnOk result (Acts (λ s. catching (built machine.old.terms goal) (built machine.old.terms catcher) (built machine.old.terms recovery) s (body_of (built machine.old.terms goal))) machine.old machine.new) }
    ensures err { OnErr result (calls machine.new ≡ calls machine.old) }
{
    match body(alloc, &mut machine.terms, goal)? {
        Some(made) => catch_body(machine, made, catcher, recovery),
        None => {
            let at = catch_indicator(alloc)?;
            machine.mode = Mode::Raising(uncallable(alloc, &machine.terms, goal, &at)?);
            Ok(())
        }
    }
}

/// A body whose balls a catcher may take, above a mark.
fn catch_body<C>(
    machine: &mut Machine<C>,
    made: Cell,
    catcher: Cell,
    recovery: Cell,
) -> Result<(), Want>
    requires terms { AreTerms machine.old.terms }
    requires made { IsGoal machine.old.terms made }
    requires catcher { IsBuilt machine.old.terms catcher }
    requires recovery { IsBuilt machine.old.terms recovery }
    ensures acts { OnOk result (Acts (λ s. onwards (Do (built machine.old.terms made) (suc (height_of s)) ∷ CatchEnd (suc (height_of s)) ∷ [])
        (pushed (CatchMark (built machine.old.terms catcher) (built machine.old.terms recovery)) s)) machine.old machine.new) }
    ensures err { OnErr result (calls machine.new ≡ calls machine.old) }
{
    make_place(&mut machine.terms)?;
    save(
        &mut machine.terms,
        Alternative::CatchMark(catcher, recovery),
    );
    let within = height(&machine.terms);
    push_next(&mut machine.terms, Next::CatchEnd(within))?;
    push_next(&mut machine.terms, Next::Do(made, within))
}

/// Raises a copy of a ball.
fn throw<C>(machine: &mut Machine<C>, alloc: Global, ball: Cell) -> Result<(), Want>
    requires terms { AreTerms machine.old.terms }
    requires ball { IsBuilt machine.old.terms ball }
    ensures acts { OnOk result (Acts (throwing (built machine.old.terms ball)) machine.old machine.new) }
    ensures err { OnErr result (calls machine.new ≡ calls machine.old) }
{
    match as_ball(&machine.terms, ball)? {
        Thrown::Unbound => {
            machine.mode = Mode::Raising(unbound_ball(alloc)?);
            Ok(())
        }
        Thrown::Ball(ball) => {
            machine.mode = Mode::Raising(ball);
            Ok(())
        }
    }
}

/// A goal with arguments added, as a body with a cut of its own.
fn call_added<C>(
    machine: &mut Machine<C>,
    alloc: Global,
    goal: Cell,
    added: &[Cell],
) -> Result<(), Want>
    requires terms { AreTerms machine.old.terms }
    requires goal { IsBuilt machine.old.terms goal }
    requires added { All (IsBuilt machine.old.terms) added.now }
    requires few { length added.now < 8 }
    ensures acts { OnOk result (Acts (calling_added (built machine.old.terms goal) (trees_of (built machine.old.terms) added.now)) machine.old machine.new) }
    ensures err { OnErr result (calls machine.new ≡ calls machine.old) }
{
    let at = call_indicator(alloc, added.len())?;
    match add(alloc, &mut machine.terms, goal, added)? {
        Added::Unbound => {
            machine.mode = Mode::Raising(unbound(alloc, &at)?);
            Ok(())
        }
        Added::TooMany => {
            machine.mode = Mode::Raising(too_many(alloc, &at)?);
            Ok(())
        }
        Added::Made(whole) => run_body(machine, alloc, whole, &at),
    }
}

/// A goal as a body with a cut of its own; where it can't be one, an error is raised there.
fn run_body<C>(
    machine: &mut Machine<C>,
    alloc: Global,
    goal: Cell,
    at: &Indicator,
) -> Result<(), Want>
    requires terms { AreTerms machine.old.terms }
    requires goal { IsBuilt machine.old.terms goal }
    ensures acts { OnOk result (Acts (λ s. running (built machine.old.terms goal) at.now s (body_of (built machine.old.terms goal))) machine.old machine.new) }
    ensures err { OnErr result (calls machine.new ≡ calls machine.old) }
{
    match body(alloc, &mut machine.terms, goal)? {
        Some(made) => {
            let before = height(&machine.terms);
            push_next(&mut machine.terms, Next::Do(made, before))
        }
        None => {
            machine.mode = Mode::Raising(uncallable(alloc, &machine.terms, goal, at)?);
            Ok(())
        }
    }
}

/// The goal `(call(G) -> true)`.
fn once<C>(machine: &mut Machine<C>, goal: Cell, cut: usize) -> Result<(), Want>
    requires terms { AreTerms machine.old.terms }
    requires goal { IsBuilt machine.old.terms goal }
    ensures acts { OnOk result (Acts (λ s. onwards (Do (two (codes "->") (call_term (built machine.old.terms goal)) (atom (codes "true"))) cut ∷ []) s) machine.old machine.new) }
    ensures err { OnErr result (calls machine.new ≡ calls machine.old) }
{
    let made = once_goal(&mut machine.terms, goal)?;
    push_next(&mut machine.terms, Next::Do(made, cut))
}

/// Calls a builtin on terms: it holds, fails, writes, or raises a ball.
fn builtin<C>(
    machine: &mut Machine<C>,
    alloc: Global,
    ops: &Ops,
    row: usize,
    args: &[Cell],
) -> Result<(), Want>
    requires terms { AreTerms machine.old.terms }
    requires row { row < length builtins }
    requires args { All (IsBuilt machine.old.terms) args.now }
    ensures acts { OnOk result (Acts (calling_builtin ops.now row (trees_of (built machine.old.terms) args.now)) machine.old machine.new) }
    ensures err { OnErr result (calls machine.new ≡ calls machine.old) }
{
    match call_row(alloc, &mut machine.terms, ops, row, args)? {
        Called::Yes => Ok(()),
        Called::No => {
            machine.mode = Mode::Failing;
            Ok(())
        }
        Called::Wrote(bytes) => {
            machine.events.push(Event::Wrote(bytes))?;
            Ok(())
        }
        Called::Ball(ball) => {
            machine.mode = Mode::Raising(ball);
            Ok(())
        }
    }
}

/// Goes on where something was done, and else fails.
pub(crate) fn settle<C>(machine: &mut Machine<C>, done: bool)
    ensures same { machine.new ≡ record machine.old { mode = machine.new.mode } }
    ensures mode { machine.new.mode ≡ settled_mode machine.old.mode done }
{
    if !done {
        machine.mode = Mode::Failing;
    }
}
