// Clauses that are erased within one step: `retractall` and `abolish`.
ghost use Rattle.std.specs.Prelude.{◌≡◌, ℕ, ◌+◌, ◌<◌, ◌≤◌, ◌^◌, IfOk, OnOk, OnErr, Some, None, IsSome, option_map, length, take as first_of};
ghost use Rattle.prolog_terms.specs.Tree.{Tree};
ghost use Rattle.prolog_terms.specs.Faults.{fault_tree};
ghost use Rattle.prolog_terms.specs.Clauses.{IsClause};
ghost use Rattle.call_patterns.specs.Keys.{keys as keys_in};
ghost use Rattle.call_patterns.specs.Calls.{AreKeysOf, goal_keys};
ghost use Rattle.journals.specs.Journal.{Journal, clause_named, procedure_named};
ghost use Rattle.journal_base.specs.Goals.{Goal};
ghost use Rattle.journal_base.specs.Looks.{CountsVisits, HasRoom};
ghost use Rattle.journal_base.specs.View.{IsSound, Grows};
ghost use Rattle.wam_machine.specs.States.{State, Outcome, taking, Match, ToErase};
ghost use Rattle.wam_machine.specs.Procedures.{clearing, abolishing, sweeping_named, sweeping_where, absent_swept, declaring_swept, declared_as, sweep_at, swept_keys, no_change};
ghost use Rattle.wam_machine.specs.Naming.{naming_of};
ghost use Rattle.wam_machine.specs.Terms.{AreTerms, IsBuilt, IsGrown, KeepsCells, said, built, call_now};
ghost use Rattle.term_store.specs.Later.{AreLonger};
ghost use Rattle.wam_machine.specs.Cursors.{Begins, goal_of, visits_left, IsDynamic, IsChangeable, AreNamed};
ghost use Rattle.wam_machine.specs.View.{setting, calls, IsReady, IsLeft, AreKept, GoesOn, Makes, IsHostOf, IsFronted, HasOnlyAsked, Asks};
ghost use Rattle.wam_machine.specs.Sweeps.{IsSwept, IsMeant, IsSweep, Sweeps, SweepsOne, HasSwept, HasOnlySwept};

use crate::build::word;
use crate::cursor::{fetch, next, open};
use crate::cuts::give_up;
use crate::database::{Erasure, ask_erasure, take_front};
use crate::enter::compare;
use crate::errors::{
    abolish_indicator, no_room_at, retract_all_indicator, unbound, uncallable, unchangeable_at,
};
use crate::keys::keys as keys_now;
use crate::matching::{Head, head_of, raise, stands, stop};
use crate::naming::{Naming, named_by};
use crate::reserved::is_reserved;
use crate::state::{Host, Machine, Mode};
use crate::terms::{Call, Opened, Purpose, Terms, Use};
use call_patterns::Keys;
use journal_base::{Base, Declared, Gate};
use prolog_terms::{Clause, Indicator, Kind, Term, Want, fault_term};
use std::alloc::Global;
use std::sync::Wait;
use term_store::Cell;

/// Erases the clauses that a head could match.
pub(crate) fn retract_all<B: Base, R: Wait, G: Gate>(
    base: &mut B,
    machine: &mut Machine<B::Cursor>,
    host: &Host<'_>,
    head: Cell,
    rt: &R,
    gate: &G,
) -> Result<(), Want>
    requires head { IsBuilt machine.old.terms head }
    requires room { machine.old.tally.looks < machine.old.steps }
    requires budget { host.now.budget ≤ 10 ^ 11 }
    requires host { IsHostOf host.now (B.view base.old) }
    requires ready { IsReady (B.view base.old) (B.serves base.old) B.group (B.out base.old) B.rest B.may_visit B.looked_at host.now.budget machine.old }
    ensures seen { Grows (B.view base.old) (B.view base.new) }
    ensures becomes { B.becomes base.old base.new }
    ensures kept { AreKept (B.serves base.new) B.group (B.out base.new) (calls machine.new) }
    ensures left { OnOk result (IsLeft host.now.budget (B.view base.new) machine.old machine.new) }
    ensures goes { OnOk result (Makes (B.view base.old) (B.view base.new) (λ made. (j : Journal) → Begins (B.view base.new) j
        → GoesOn B.rest B.may_visit B.looked_at B.ahead (B.view base.new).causes made (clearing (setting host.now machine.old j) (built machine.old.terms head)) j machine.old machine.new)) }
{
    stands(base);
    let at = retract_all_indicator(host.alloc)?;
    let found = head_of(host.alloc, &machine.terms, head)?;
    match found {
        Head::Unbound => {
            let ball = unbound(host.alloc, &at)?;
            raise(base, machine, host, ball);
            Ok(())
        }
        Head::Number => {
            let ball = uncallable(host.alloc, &machine.terms, head, &at)?;
            raise(base, machine, host, ball);
            Ok(())
        }
        Head::Named(indicator) => {
            sweep_named(base, machine, host, Some(head), &indicator, rt, gate)
        }
    }
}

/// Erases all clauses of the procedure that a term names.
pub(crate) fn abolish<B: Base, R: Wait, G: Gate>(
    base: &mut B,
    machine: &mut Machine<B::Cursor>,
    host: &Host<'_>,
    named: Cell,
    rt: &R,
    gate: &G,
) -> Result<(), Want>
    requires named { IsBuilt machine.old.terms named }
    requires room { machine.old.tally.looks < machine.old.steps }
    requires budget { host.now.budget ≤ 10 ^ 11 }
    requires host { IsHostOf host.now (B.view base.old) }
    requires ready { IsReady (B.view base.old) (B.serves base.old) B.group (B.out base.old) B.rest B.may_visit B.looked_at host.now.budget machine.old }
    ensures seen { Grows (B.view base.old) (B.view base.new) }
    ensures becomes { B.becomes base.old base.new }
    ensures kept { AreKept (B.serves base.new) B.group (B.out base.new) (calls machine.new) }
    ensures left { OnOk result (IsLeft host.now.budget (B.view base.new) machine.old machine.new) }
    ensures goes { OnOk result (Makes (B.view base.old) (B.view base.new) (λ made. (j : Journal) → Begins (B.view base.new) j
        → GoesOn B.rest B.may_visit B.looked_at B.ahead (B.view base.new).causes made (λ s. abolishing (setting host.now machine.old j) s (naming_of (built machine.old.terms named))) j machine.old machine.new)) }
{
    stands(base);
    let found = named_by(host.alloc, &machine.terms, named)?;
    match found {
        Naming::Names(indicator) => sweep_named(base, machine, host, None, &indicator, rt, gate),
        Naming::NamesNone(fault) => {
            let at = abolish_indicator(host.alloc)?;
            let ball = fault_term(host.alloc, &fault, &at)?;
            raise(base, machine, host, ball);
            Ok(())
        }
    }
}

/// The name and arity of the call that erases the clauses of a goal, or all.
fn sweep_indicator(alloc: Global, goal: Option<Cell>) -> Result<Indicator, Want>
    ensures { IfOk result (λ i. (tree : Cell → Tree) → i ≡ sweep_at (option_map tree goal)) }
{
    match goal {
        Some(_) => retract_all_indicator(alloc),
        None => abolish_indicator(alloc),
    }
}

/// The error that the clauses of the procedure of this name and arity may not be erased.
fn unswept(alloc: Global, goal: Option<Cell>, indicator: &Indicator) -> Result<Term, Want>
    ensures { IfOk result (λ t. (tree : Cell → Tree) → t ≡ fault_tree (no_change indicator.now) (sweep_at (option_map tree goal))) }
{
    let at = sweep_indicator(alloc, goal)?;
    unchangeable_at(alloc, indicator, &at)
}

/// Erases the clauses of the procedure of this name and arity, which is looked for in what is seen: those that a goal could
/// match, or all.
fn sweep_named<B: Base, R: Wait, G: Gate>(
    base: &mut B,
    machine: &mut Machine<B::Cursor>,
    host: &Host<'_>,
    goal: Option<Cell>,
    indicator: &Indicator,
    rt: &R,
    gate: &G,
) -> Result<(), Want>
    requires goal { IsSwept (IsBuilt machine.old.terms) goal }
    requires room { machine.old.tally.looks < machine.old.steps }
    requires budget { host.now.budget ≤ 10 ^ 11 }
    requires host { IsHostOf host.now (B.view base.old) }
    requires ready { IsReady (B.view base.old) (B.serves base.old) B.group (B.out base.old) B.rest B.may_visit B.looked_at host.now.budget machine.old }
    ensures seen { Grows (B.view base.old) (B.view base.new) }
    ensures becomes { B.becomes base.old base.new }
    ensures kept { AreKept (B.serves base.new) B.group (B.out base.new) (calls machine.new) }
    ensures left { OnOk result (IsLeft host.now.budget (B.view base.new) machine.old machine.new) }
    ensures goes { OnOk result (Makes (B.view base.old) (B.view base.new) (λ made. (j : Journal) → Begins (B.view base.new) j
        → GoesOn B.rest B.may_visit B.looked_at B.ahead (B.view base.new).causes made (λ s. sweeping_named (setting host.now machine.old j) (option_map (built machine.old.terms) goal) s indicator.now) j machine.old machine.new)) }
{
    if is_reserved(indicator) {
        stands(base);
        let ball = unswept(host.alloc, goal, indicator)?;
        raise(base, machine, host, ball);
        return Ok(());
    }
    match base.find(indicator) {
        None => sweep_absent(base, machine, host, goal, indicator, rt),
        Some((procedure, kind)) => {
            sweep_kind(
                base, machine, host, goal, indicator, procedure, kind, rt, gate,
            )
        }
    }
}

/// Erases the clauses of a procedure that was found, unless it is static.
fn sweep_kind<B: Base, R: Wait, G: Gate>(
    base: &mut B,
    machine: &mut Machine<B::Cursor>,
    host: &Host<'_>,
    goal: Option<Cell>,
    indicator: &Indicator,
    procedure: u32,
    kind: Kind,
    rt: &R,
    gate: &G,
) -> Result<(), Want>
    requires found { (j : Journal) → Begins (B.view base.old) j → procedure_named (first_of (B.view base.old).seen j) indicator.now ≡ Some (procedure, kind) }
    requires goal { IsSwept (IsBuilt machine.old.terms) goal }
    requires room { machine.old.tally.looks < machine.old.steps }
    requires budget { host.now.budget ≤ 10 ^ 11 }
    requires host { IsHostOf host.now (B.view base.old) }
    requires ready { IsReady (B.view base.old) (B.serves base.old) B.group (B.out base.old) B.rest B.may_visit B.looked_at host.now.budget machine.old }
    ensures seen { Grows (B.view base.old) (B.view base.new) }
    ensures becomes { B.becomes base.old base.new }
    ensures kept { AreKept (B.serves base.new) B.group (B.out base.new) (calls machine.new) }
    ensures left { OnOk result (IsLeft host.now.budget (B.view base.new) machine.old machine.new) }
    ensures goes { OnOk result (Makes (B.view base.old) (B.view base.new) (λ made. (j : Journal) → Begins (B.view base.new) j
        → GoesOn B.rest B.may_visit B.looked_at B.ahead (B.view base.new).causes made (λ s. taking (setting host.now machine.old j) s (λ seen t. sweeping_where (setting host.now machine.old j) indicator.now (option_map (built machine.old.terms) goal) s.front seen t (procedure_named seen indicator.now))) j machine.old machine.new)) }
{
    match kind {
        Kind::Static => {
            stands(base);
            let ball = unswept(host.alloc, goal, indicator)?;
            stop(base, machine, host, Mode::Raising(ball))
        }
        Kind::Dynamic => {
            gate.pass(rt, host.engine, machine.tally.looks + 1);
            sweep(base, machine, host, goal, procedure, rt)
        }
    }
}

/// Takes the front that is seen, at which the procedure isn't declared.
fn sweep_absent<B: Base, R: Wait>(
    base: &mut B,
    machine: &mut Machine<B::Cursor>,
    host: &Host<'_>,
    goal: Option<Cell>,
    indicator: &Indicator,
    rt: &R,
) -> Result<(), Want>
    requires absent { (j : Journal) → Begins (B.view base.old) j → procedure_named (first_of (B.view base.old).seen j) indicator.now ≡ None }
    requires room { machine.old.tally.looks < machine.old.steps }
    requires budget { host.now.budget ≤ 10 ^ 11 }
    requires host { IsHostOf host.now (B.view base.old) }
    requires ready { IsReady (B.view base.old) (B.serves base.old) B.group (B.out base.old) B.rest B.may_visit B.looked_at host.now.budget machine.old }
    ensures seen { Grows (B.view base.old) (B.view base.new) }
    ensures becomes { B.becomes base.old base.new }
    ensures kept { AreKept (B.serves base.new) B.group (B.out base.new) (calls machine.new) }
    ensures left { OnOk result (IsLeft host.now.budget (B.view base.new) machine.old machine.new) }
    ensures goes { OnOk result (Makes (B.view base.old) (B.view base.new) (λ made. (j : Journal) → Begins (B.view base.new) j
        → GoesOn B.rest B.may_visit B.looked_at B.ahead (B.view base.new).causes made (λ s. taking (setting host.now machine.old j) s (λ seen t. sweeping_where (setting host.now machine.old j) indicator.now (option_map (built machine.old.terms) goal) s.front seen t (procedure_named seen indicator.now))) j machine.old machine.new)) }
{
    stands(base);
    take_front(base, machine)?;
    sweep_none(base, machine, host, goal, indicator, rt)
}

/// The procedure isn't declared: where the clauses of a goal are to be erased it is declared dynamic.
fn sweep_none<B: Base, R: Wait>(
    base: &mut B,
    machine: &mut Machine<B::Cursor>,
    host: &Host<'_>,
    goal: Option<Cell>,
    indicator: &Indicator,
    rt: &R,
) -> Result<(), Want>
    requires host { IsHostOf host.now (B.view base.old) }
    requires sound { IsSound (B.view base.old) }
    requires front { IsFronted (B.view base.old) machine.old.front }
    ensures seen { Grows (B.view base.old) (B.view base.new) }
    ensures becomes { B.becomes base.old base.new }
    ensures others { (c : B.Cursor) (g : Goal) → B.serves base.old c g → B.serves base.new c g }
    ensures out { B.out base.new ≡ B.out base.old }
    ensures same { HasOnlyAsked machine.old machine.new }
    ensures asks { OnOk result (Asks (B.view base.old) (B.view base.new) (λ j. absent_swept (setting host.now machine.old j) (option_map (built machine.old.terms) goal) indicator.now) machine.old machine.new) }
{
    match goal {
        None => {
            stands(base);
            Ok(())
        }
        Some(_) => declare_swept(base, machine, host, indicator, rt),
    }
}

/// Declares a procedure dynamic; another engine may have declared it meanwhile.
fn declare_swept<B: Base, R: Wait>(
    base: &mut B,
    machine: &mut Machine<B::Cursor>,
    host: &Host<'_>,
    indicator: &Indicator,
    rt: &R,
) -> Result<(), Want>
    requires host { IsHostOf host.now (B.view base.old) }
    requires sound { IsSound (B.view base.old) }
    requires front { IsFronted (B.view base.old) machine.old.front }
    ensures seen { Grows (B.view base.old) (B.view base.new) }
    ensures becomes { B.becomes base.old base.new }
    ensures others { (c : B.Cursor) (g : Goal) → B.serves base.old c g → B.serves base.new c g }
    ensures out { B.out base.new ≡ B.out base.old }
    ensures same { HasOnlyAsked machine.old machine.new }
    ensures asks { OnOk result (Asks (B.view base.old) (B.view base.new) (λ j. declaring_swept (setting host.now machine.old j) indicator.now) machine.old machine.new) }
{
    match base.declare(rt, indicator, Kind::Dynamic) {
        Declared::Done(_) => {
            take_front(base, machine)?;
            Ok(())
        }
        Declared::Already(_procedure, kind) => {
            take_front(base, machine)?;
            declared_before(base, machine, host, indicator, kind)
        }
        Declared::Full { .. } => {
            take_front(base, machine)?;
            let at = retract_all_indicator(host.alloc)?;
            machine.mode = Mode::Raising(no_room_at(host.alloc, &at)?);
            Ok(())
        }
        Declared::Want => Err(Want),
    }
}

/// A procedure that was declared meanwhile has no clause that is to be erased; a static one may not be changed.
fn declared_before<B: Base>(
    base: &B,
    machine: &mut Machine<B::Cursor>,
    host: &Host<'_>,
    indicator: &Indicator,
    kind: Kind,
) -> Result<(), Want>
    requires front { IsFronted (B.view base.now) machine.old.front }
    ensures same { HasOnlyAsked machine.old machine.new }
    ensures asks { OnOk result (Asks (B.view base.now) (B.view base.now) (λ j s. declared_as indicator.now s kind) machine.old machine.new) }
{
    // The contract speaks of it.
    let _base = base;
    match kind {
        Kind::Static => {
            let at = retract_all_indicator(host.alloc)?;
            machine.mode = Mode::Raising(unchangeable_at(host.alloc, indicator, &at)?);
            Ok(())
        }
        Kind::Dynamic => Ok(()),
    }
}

/// Looks up the clauses of a dynamic procedure that a goal could match, or all, and erases them.
fn sweep<B: Base, R: Wait>(
    base: &mut B,
    machine: &mut Machine<B::Cursor>,
    host: &Host<'_>,
    goal: Option<Cell>,
    procedure: u32,
    rt: &R,
) -> Result<(), Want>
    requires dynamic { (j : Journal) → Begins (B.view base.old) j → IsDynamic (first_of (B.view base.old).seen j) procedure }
    requires goal { IsSwept (IsBuilt machine.old.terms) goal }
    requires room { machine.old.tally.looks < machine.old.steps }
    requires budget { host.now.budget ≤ 10 ^ 11 }
    requires host { IsHostOf host.now (B.view base.old) }
    requires ready { IsReady (B.view base.old) (B.serves base.old) B.group (B.out base.old) B.rest B.may_visit B.looked_at host.now.budget machine.old }
    ensures seen { Grows (B.view base.old) (B.view base.new) }
    ensures becomes { B.becomes base.old base.new }
    ensures kept { AreKept (B.serves base.new) B.group (B.out base.new) (calls machine.new) }
    ensures left { OnOk result (IsLeft host.now.budget (B.view base.new) machine.old machine.new) }
    ensures goes { OnOk result (Makes (B.view base.old) (B.view base.new) (λ made. (j : Journal) → Begins (B.view base.new) j → (with : ℕ → Journal → State → Outcome)
        → IsSweep (setting host.now machine.old j) (option_map (built machine.old.terms) goal) (B.view base.old).seen procedure with
        → GoesOn B.rest B.may_visit B.looked_at B.ahead (B.view base.new).causes made (λ s. taking (setting host.now machine.old j) s (with s.front)) j machine.old machine.new)) }
{
    stands(base);
    let looked = looked_for(&mut machine.terms, goal)?;
    sweep_looked(base, machine, host, goal, looked, procedure, rt)
}

/// What is looked for: the goal, or an atom, which has no key at any position.
fn looked_for<C>(terms: &mut Terms<C>, goal: Option<Cell>) -> Result<Cell, Want>
    requires terms { AreTerms terms.old }
    requires goal { IsSwept (IsBuilt terms.old) goal }
    ensures grown { OnOk result (IsGrown terms.old terms.new) }
    ensures cell { IfOk result (IsBuilt terms.new) }
    ensures keys { IfOk result (λ c. keys_in (built terms.new c) ≡ swept_keys (option_map (built terms.old) goal)) }
    ensures err { OnErr result ((said terms.new).stack ≡ (said terms.old).stack) }
{
    match goal {
        Some(head) => Ok(head),
        None => {
            let nil = word(terms, b"[]")?;
            Ok(Cell::Atom(nil))
        }
    }
}

/// Looks up the clauses of what is looked for, and erases them.
fn sweep_looked<B: Base, R: Wait>(
    base: &mut B,
    machine: &mut Machine<B::Cursor>,
    host: &Host<'_>,
    goal: Option<Cell>,
    looked: Cell,
    procedure: u32,
    rt: &R,
) -> Result<(), Want>
    requires dynamic { (j : Journal) → Begins (B.view base.old) j → IsDynamic (first_of (B.view base.old).seen j) procedure }
    requires goal { IsSwept (IsBuilt machine.old.terms) goal }
    requires looked { IsBuilt machine.old.terms looked }
    requires keys { keys_in (built machine.old.terms looked) ≡ swept_keys (option_map (built machine.old.terms) goal) }
    requires room { machine.old.tally.looks < machine.old.steps }
    requires budget { host.now.budget ≤ 10 ^ 11 }
    requires host { IsHostOf host.now (B.view base.old) }
    requires ready { IsReady (B.view base.old) (B.serves base.old) B.group (B.out base.old) B.rest B.may_visit B.looked_at host.now.budget machine.old }
    ensures seen { Grows (B.view base.old) (B.view base.new) }
    ensures becomes { B.becomes base.old base.new }
    ensures kept { AreKept (B.serves base.new) B.group (B.out base.new) (calls machine.new) }
    ensures left { OnOk result (IsLeft host.now.budget (B.view base.new) machine.old machine.new) }
    ensures goes { OnOk result (Makes (B.view base.old) (B.view base.new) (λ made. (j : Journal) → Begins (B.view base.new) j → (with : ℕ → Journal → State → Outcome)
        → IsSweep (setting host.now machine.old j) (option_map (built machine.old.terms) goal) (B.view base.old).seen procedure with
        → GoesOn B.rest B.may_visit B.looked_at B.ahead (B.view base.new).causes made (λ s. taking (setting host.now machine.old j) s (with s.front)) j machine.old machine.new)) }
{
    stands(base);
    let keys = keys_now(&machine.terms, looked);
    machine.fronts.reserve(1)?;
    let Opened { mut call, how: _ } = open(
        base,
        &machine.terms,
        Use::Match(Purpose::Erase, looked),
        looked,
        procedure,
        &keys,
        &mut machine.tally,
    );
    let front = base.front();
    machine.fronts.push_reserved(front);
    machine.front = front;
    match sweep_left(base, machine, host, &mut call, &keys, goal, rt) {
        Ok(()) => {
            give_up(base, call);
            Ok(())
        }
        Err(want) => {
            give_up(base, call);
            Err(want)
        }
    }
}

/// Erases the clauses that are left of a call, one after another, until there is no room for an erasure.
fn sweep_left<B: Base, R: Wait>(
    base: &mut B,
    machine: &mut Machine<B::Cursor>,
    host: &Host<'_>,
    call: &mut Call<B::Cursor>,
    keys: &Keys,
    goal: Option<Cell>,
    rt: &R,
) -> Result<(), Want>
    requires host { IsHostOf host.now (B.view base.old) }
    requires sound { IsSound (B.view base.old) }
    requires front { IsFronted (B.view base.old) machine.old.front }
    requires terms { AreTerms machine.old.terms }
    requires cell { IsBuilt machine.old.terms call.old.goal }
    requires goal { IsSwept (IsBuilt machine.old.terms) goal }
    requires serves { B.serves base.old call.old.cursor (goal_of (call_now machine.old.terms call.old)) }
    requires out { 0 < (B.out base.old).of_group (B.group call.old.cursor) }
    requires named { (j : Journal) → Begins (B.view base.old) j → AreNamed B.rest B.looked_at j (call_now machine.old.terms call.old) }
    requires erases { (body : Tree) × ((call_now machine.old.terms call.old).used ≡ Match ToErase body) }
    requires room { HasRoom machine.old.tally }
    requires visits { (j : Journal) → Begins (B.view base.old) j → machine.old.tally.visits + visits_left B.may_visit B.looked_at j (call_now machine.old.terms call.old) ≤ 0x8000_0000_0000_0000 }
    requires keys { AreKeysOf machine.old.terms.names keys.now.at }
    requires of { goal_keys machine.old.terms.names keys.now.at ≡ keys_in (built machine.old.terms call.old.goal) }
    ensures seen { Grows (B.view base.old) (B.view base.new) }
    ensures becomes { B.becomes base.old base.new }
    ensures others { (c : B.Cursor) (g : Goal) → B.serves base.old c g → B.serves base.new c g }
    ensures out { B.out base.new ≡ B.out base.old }
    ensures group { B.group call.new.cursor ≡ B.group call.old.cursor }
    ensures serves { (g : Goal) × B.serves base.new call.new.cursor g }
    ensures same { HasOnlySwept machine.old machine.new }
    ensures terms { OnOk result (AreTerms machine.new.terms) }
    ensures said { OnOk result (said machine.new.terms ≡ record (said machine.old.terms) { fresh = (said machine.new.terms).fresh }) }
    ensures stack { (said machine.new.terms).stack ≡ (said machine.old.terms).stack }
    ensures front { OnOk result (IsFronted (B.view base.new) machine.new.front) }
    ensures tally { CountsVisits machine.old.tally machine.new.tally }
    ensures sweeps { OnOk result (Makes (B.view base.old) (B.view base.new) (λ made. (j : Journal) → Begins (B.view base.new) j
        → Sweeps B.rest B.may_visit B.looked_at B.ahead made (setting host.now machine.old j) (option_map (built machine.old.terms) goal) (call_now machine.old.terms call.old) (call_now machine.old.terms call.new) machine.old machine.new)) }
{
    while let Some(name) = next(base, &machine.terms, call, keys, &mut machine.tally) {
        let on = sweep_one(base, machine, host, call, name, goal, rt)?;
        if !on {
            return Ok(());
        }
    }
    Ok(())
}

/// Erases a clause of a call, by its name, where it is one of those that are erased. It answers whether others may follow: where
/// there is no room, the error is raised.
fn sweep_one<B: Base, R: Wait>(
    base: &mut B,
    machine: &mut Machine<B::Cursor>,
    host: &Host<'_>,
    call: &Call<B::Cursor>,
    name: u64,
    goal: Option<Cell>,
    rt: &R,
) -> Result<bool, Want>
    requires host { IsHostOf host.now (B.view base.old) }
    requires sound { IsSound (B.view base.old) }
    requires front { IsFronted (B.view base.old) machine.old.front }
    requires terms { AreTerms machine.old.terms }
    requires goal { IsSwept (IsBuilt machine.old.terms) goal }
    requires serves { (g : Goal) × B.serves base.old call.now.cursor g }
    requires named { (j : Journal) → Begins (B.view base.old) j → IsSome (clause_named (first_of (B.looked_at call.now.cursor) j) name) }
    requires changeable { (j : Journal) → Begins (B.view base.old) j → IsChangeable (first_of (B.looked_at call.now.cursor) j) name }
    ensures seen { Grows (B.view base.old) (B.view base.new) }
    ensures becomes { B.becomes base.old base.new }
    ensures others { (c : B.Cursor) (g : Goal) → B.serves base.old c g → B.serves base.new c g }
    ensures out { B.out base.new ≡ B.out base.old }
    ensures same { HasOnlySwept machine.old machine.new }
    ensures terms { OnOk result (AreTerms machine.new.terms) }
    ensures names { OnOk result (AreLonger machine.old.terms.names machine.new.terms.names) }
    ensures said { OnOk result (said machine.new.terms ≡ record (said machine.old.terms) { fresh = (said machine.new.terms).fresh }) }
    ensures cells { OnOk result (KeepsCells machine.old.terms machine.new.terms) }
    ensures stack { (said machine.new.terms).stack ≡ (said machine.old.terms).stack }
    ensures tally { machine.new.tally ≡ machine.old.tally }
    ensures front { OnOk result (IsFronted (B.view base.new) machine.new.front) }
    ensures sweeps { IfOk result (λ on. Makes (B.view base.old) (B.view base.new) (λ made. (j : Journal) → Begins (B.view base.new) j
        → SweepsOne B.rest B.looked_at made (setting host.now machine.old j) (option_map (built machine.old.terms) goal) (first_of (B.looked_at call.now.cursor) j) name machine.old machine.new on)) }
{
    let clause = fetch(base, call, name)?;
    let meant = is_meant(&mut machine.terms, goal, &clause)?;
    if meant {
        let on = erase_one(base, machine, host, name, goal, rt)?;
        return Ok(on);
    }
    Ok(true)
}

/// Whether a clause is one of those that are erased: where a goal is given, those whose head and the goal have a unifier. Nothing
/// is bound.
fn is_meant<C>(terms: &mut Terms<C>, goal: Option<Cell>, clause: &Clause) -> Result<bool, Want>
    requires terms { AreTerms terms.old }
    requires goal { IsSwept (IsBuilt terms.old) goal }
    requires clause { IsClause clause.now }
    ensures terms { OnOk result (AreTerms terms.new) }
    ensures names { OnOk result (AreLonger terms.old.names terms.new.names) }
    ensures cells { OnOk result (KeepsCells terms.old terms.new) }
    ensures meant { IfOk result (IsMeant (option_map (built terms.old) goal) clause.now (said terms.old) (said terms.new)) }
    ensures err { OnErr result ((said terms.new).stack ≡ (said terms.old).stack) }
{
    match goal {
        Some(head) => {
            let met = compare(terms, head, clause)?;
            Ok(met)
        }
        None => Ok(true),
    }
}

/// Asks for the erasure of a clause. Where there is no room the error is raised, and no other may follow.
fn erase_one<B: Base, R: Wait>(
    base: &mut B,
    machine: &mut Machine<B::Cursor>,
    host: &Host<'_>,
    name: u64,
    goal: Option<Cell>,
    rt: &R,
) -> Result<bool, Want>
    requires named { (j : Journal) → Begins (B.view base.old) j → IsSome (clause_named (first_of (B.view base.old).seen j) name) }
    requires changeable { (j : Journal) → Begins (B.view base.old) j → IsChangeable (first_of (B.view base.old).seen j) name }
    requires host { IsHostOf host.now (B.view base.old) }
    requires sound { IsSound (B.view base.old) }
    requires front { IsFronted (B.view base.old) machine.old.front }
    ensures seen { Grows (B.view base.old) (B.view base.new) }
    ensures becomes { B.becomes base.old base.new }
    ensures others { (c : B.Cursor) (g : Goal) → B.serves base.old c g → B.serves base.new c g }
    ensures out { B.out base.new ≡ B.out base.old }
    ensures same { HasOnlyAsked machine.old machine.new }
    ensures swept { IfOk result (HasSwept host.now (B.view base.old) (B.view base.new) goal name machine.old machine.new) }
{
    let asked = ask_erasure(base, machine, host, name, rt)?;
    match asked {
        Erasure::Done => Ok(true),
        Erasure::Gone => Ok(true),
        Erasure::Full => {
            let at = sweep_indicator(host.alloc, goal)?;
            machine.mode = Mode::Raising(no_room_at(host.alloc, &at)?);
            Ok(false)
        }
    }
}
