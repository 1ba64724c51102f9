// Balls that are raised, and the end of a run by `halt`.
ghost use Rattle.std.specs.Prelude.{◌≡◌, ◌≤◌, ◌^◌, ◌+◌, ◌∷◌, [], IfOk, OnOk, OnErr, MatchOption, true};
ghost use Rattle.prolog_terms.specs.Tree.{Tree};
ghost use Rattle.prolog_terms.specs.Substitutions.{beyond, renamed};
ghost use Rattle.term_unifier.specs.Unifier.{unifier};
ghost use Rattle.journals.specs.Journal.{Journal};
ghost use Rattle.journal_base.specs.View.{Looks};
ghost use Rattle.wam_machine.specs.States.{Setting, State, Going, over};
ghost use Rattle.wam_machine.specs.Machine.{halting, catching_ball, raising as raising_ball, reached};
ghost use Rattle.wam_machine.specs.Terms.{AreTerms, IsBuilt, KeepsBound, HasCatch, IsSolved, said, built};
ghost use Rattle.wam_machine.specs.Cursors.{Begins};
ghost use Rattle.wam_machine.specs.View.{setting, calls, Acts, IsReady, IsLeft, AreKept, Does, IsRaising};

use crate::balls::{Code, as_code, put_ball};
use crate::build::call_goal;
use crate::choices::{Newest, go_back, height as height_now, see_newest};
use crate::cuts::cut_stack;
use crate::enter::equate;
use crate::errors::{halt_indicator, no_integer, unbound};
use crate::goals::{active_catch, push_next};
use crate::run::RunEnd;
use crate::state::{Host, Machine, Mode};
use crate::terms::{Alternative, Next};
use journal_base::Base;
use prolog_terms::Want;
use std::alloc::Global;
use std::mem;
use term_store::Cell;

/// A ball is raised: what is above the mark of the active `catch` is taken away, and then its catcher is tried; where no
/// `catch` is active the ball ends the run. None of that takes a step.
pub(crate) fn raise<B: Base>(
    base: &mut B,
    machine: &mut Machine<B::Cursor>,
    host: &Host<'_>,
) -> Result<Option<RunEnd>, Want>
    requires raising { IsRaising machine.old.mode }
    requires ready { IsReady (B.view base.old) (B.serves base.old) B.group (B.out base.old) B.rest B.may_visit B.looked_at host.now.budget machine.old }
    requires budget { host.now.budget ≤ 10 ^ 11 }
    ensures seen { Looks (B.view base.old) (B.view base.new) }
    ensures becomes { B.becomes base.old base.new }
    ensures kept { AreKept (B.serves base.new) B.group (B.out base.new) (calls machine.new) }
    ensures left { OnOk result (IsLeft host.now.budget (B.view base.new) machine.old machine.new) }
    ensures moves { IfOk result (λ o. (ball : Tree) (j : Journal) → machine.old.mode ≡ Mode.Raising ball → Begins (B.view base.new) j
        → Does B.rest B.may_visit B.looked_at B.ahead (B.view base.new).causes [] (λ s. raising_ball (setting host.now machine.old j) s ball) (setting host.now machine.old j) machine.old machine.new o) }
{
    match active_catch(&machine.terms) {
        None => { Ok(uncaught(machine)) }
        Some(height) => {
            if height_now(&machine.terms) > height {
                cut_stack(base, machine, host, height);
                return Ok(None);
            }
            reach(base, machine, host)
        }
    }
}

/// The ball has come to the mark of the active `catch`, and its catcher is tried. Anything else that stood there would be
/// taken away.
fn reach<B: Base>(
    base: &mut B,
    machine: &mut Machine<B::Cursor>,
    host: &Host<'_>,
) -> Result<Option<RunEnd>, Want>
    requires raising { IsRaising machine.old.mode }
    requires ready { IsReady (B.view base.old) (B.serves base.old) B.group (B.out base.old) B.rest B.may_visit B.looked_at host.now.budget machine.old }
    requires budget { host.now.budget ≤ 10 ^ 11 }
    ensures seen { Looks (B.view base.old) (B.view base.new) }
    ensures becomes { B.becomes base.old base.new }
    ensures kept { AreKept (B.serves base.new) B.group (B.out base.new) (calls machine.new) }
    ensures left { OnOk result (IsLeft host.now.budget (B.view base.new) machine.old machine.new) }
    ensures moves { IfOk result (λ o. (ball : Tree) (j : Journal) → machine.old.mode ≡ Mode.Raising ball → Begins (B.view base.new) j
        → Does B.rest B.may_visit B.looked_at B.ahead (B.view base.new).causes [] (λ s. reached (setting host.now machine.old j) ball s s.stack) (setting host.now machine.old j) machine.old machine.new o) }
{
    match see_newest(&machine.terms) {
        Newest::Nothing => { Ok(uncaught(machine)) }
        Newest::Catch => {
            recover(machine)?;
            Ok(None)
        }
        Newest::Open | Newest::Mark => {
            let below = height_now(&machine.terms).saturating_sub(1);
            cut_stack(base, machine, host, below);
            Ok(None)
        }
    }
}

/// Goes back to the moment of the newest `catch`, and tries its catcher.
fn recover<C>(machine: &mut Machine<C>) -> Result<(), Want>
    requires raising { IsRaising machine.old.mode }
    requires terms { AreTerms machine.old.terms }
    requires newest { HasCatch (said machine.old.terms).stack true }
    ensures acts { OnOk result ((x : Setting) (ball : Tree) → machine.old.mode ≡ Mode.Raising ball → Acts (λ s. reached x ball s s.stack) machine.old machine.new) }
    ensures err { OnErr result (calls machine.new ≡ calls machine.old) }
{
    match go_back(&mut machine.terms) {
        Some(Alternative::CatchMark(catcher, recovery)) => try_catcher(machine, catcher, recovery),
        _ => unreachable!(),
    }
}

/// Where the ball and the catcher unify, the recovery is called; else the ball goes further.
fn try_catcher<C>(machine: &mut Machine<C>, catcher: Cell, recovery: Cell) -> Result<(), Want>
    requires raising { IsRaising machine.old.mode }
    requires terms { AreTerms machine.old.terms }
    requires catcher { IsBuilt machine.old.terms catcher }
    requires recovery { IsBuilt machine.old.terms recovery }
    ensures acts { OnOk result ((ball : Tree) → machine.old.mode ≡ Mode.Raising ball → Acts (λ s. catching_ball ball (built machine.old.terms catcher) (built machine.old.terms recovery) (record s { mode = Going })) machine.old machine.new) }
    ensures err { OnErr result (calls machine.new ≡ calls machine.old) }
{
    if takes(machine, catcher)? {
        let goal = call_goal(&mut machine.terms, recovery)?;
        let before = height_now(&machine.terms);
        push_next(&mut machine.terms, Next::Do(goal, before))?;
        machine.mode = Mode::Going;
    }
    Ok(())
}

/// Makes the ball that is raised and a catcher one; where they have no unifier, nothing is bound. The ball's variables are new
/// ones.
fn takes<C>(machine: &mut Machine<C>, catcher: Cell) -> Result<bool, Want>
    requires raising { IsRaising machine.old.mode }
    requires terms { AreTerms machine.old.terms }
    requires catcher { IsBuilt machine.old.terms catcher }
    ensures terms { OnOk result (AreTerms machine.new.terms) }
    ensures same { OnOk result (machine.new ≡ record machine.old { terms = machine.new.terms }) }
    ensures cells { OnOk result ((ball : Tree) → machine.old.mode ≡ Mode.Raising ball → KeepsBound (unifier (renamed (said machine.old.terms).fresh ball) (built machine.old.terms catcher)) machine.old.terms machine.new.terms) }
    ensures done { IfOk result (λ done. (ball : Tree) → machine.old.mode ≡ Mode.Raising ball → IsSolved [] (record (said machine.old.terms) { fresh = (said machine.old.terms).fresh + beyond ball }) (said machine.new.terms) done
        (unifier (renamed (said machine.old.terms).fresh ball) (built machine.old.terms catcher))) }
    ensures err { OnErr result (calls machine.new ≡ calls machine.old) }
{
    match &machine.mode {
        Mode::Raising(ball) => {
            let cell = put_ball(&mut machine.terms, ball)?;
            let done = equate(&mut machine.terms, cell, catcher)?;
            Ok(done)
        }
        _ => Ok(false),
    }
}

/// The ball that is raised ends the run, since nothing catches it.
fn uncaught<C>(machine: &mut Machine<C>) -> Option<RunEnd>
    requires raising { IsRaising machine.old.mode }
    ensures end { MatchOption result ⊥ (λ end. (ball : Tree) × ((machine.old.mode ≡ Mode.Raising ball) × (end ≡ RunEnd.Ball ball))) }
    ensures same { machine.new ≡ record machine.old { mode = machine.new.mode } }
{
    match mem::replace(&mut machine.mode, Mode::Failing) {
        Mode::Raising(ball) => Some(RunEnd::Ball(ball)),
        Mode::Going => None,
        Mode::Failing => None,
    }
}

/// Does `halt(N)`: it answers the run's end, where N is an integer, and else raises an error.
pub(crate) fn halt<C>(
    machine: &mut Machine<C>,
    alloc: Global,
    code: Cell,
) -> Result<Option<RunEnd>, Want>
    requires terms { AreTerms machine.old.terms }
    requires code { IsBuilt machine.old.terms code }
    ensures halts { IfOk result (λ o. MatchOption o ((x : Setting) → Acts (halting x (built machine.old.terms code)) machine.old machine.new)
        (λ end. (machine.new ≡ machine.old) × ((x : Setting) (s : State) → halting x (built machine.old.terms code) s ≡ over x s end))) }
    ensures err { OnErr result (calls machine.new ≡ calls machine.old) }
{
    match as_code(&machine.terms, code) {
        Code::Number(number) => Ok(Some(RunEnd::Halted(number))),
        Code::Unbound => {
            let at = halt_indicator(alloc)?;
            machine.mode = Mode::Raising(unbound(alloc, &at)?);
            Ok(None)
        }
        Code::Other => {
            machine.mode = Mode::Raising(no_integer(alloc, &machine.terms, code)?);
            Ok(None)
        }
    }
}
