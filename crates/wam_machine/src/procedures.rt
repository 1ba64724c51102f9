// Calls of procedures: their clauses are tried, one after another.
ghost use Rattle.std.specs.Prelude.{◌≡◌, ℕ, ◌≤◌, ◌^◌, ◌+◌, ◌<◌, ◌++◌, ◌∷◌, [], All, IfOk, OnOk, None, Some, IsSome, if◌then◌else◌, length, take as first_of};
ghost use Rattle.prolog_terms.specs.Tree.{Tree};
ghost use Rattle.prolog_terms.specs.declared.entry.Indicator.{Indicator};
ghost use Rattle.call_patterns.specs.Keys.{keys as keys_in};
ghost use Rattle.call_patterns.specs.Calls.{AreKeysOf, goal_keys};
ghost use Rattle.journals.specs.Journal.{Journal, clause_named, number_of, procedures};
ghost use Rattle.journal_base.specs.Looks.{HasRoom};
ghost use Rattle.journal_base.specs.Goals.{Goal};
ghost use Rattle.journal_base.specs.View.{IsSound, Grows, Looks, has_more};
ghost use Rattle.wam_machine.specs.States.{State, Outcome, taking};
ghost use Rattle.wam_machine.specs.Procedures.{calling};
ghost use Rattle.wam_machine.specs.Terms.{AreTerms, IsBuilt, IsOfUse, IsOfCall, KeepsCells, said, built, use_of, call_now, saved_now};
ghost use Rattle.wam_machine.specs.Cursors.{Begins, names_left, AreNamed, IsUsable, IsOpenTo};
ghost use Rattle.wam_machine.specs.View.{setting, calls, IsReady, IsLeft, AreKept, GoesOn, Makes, IsHostOf, Tries, Attempts, IsSearch, IsFronted, HasOnlyAsked, Asks, IsPushed, KeepsCounts, where_met};

use crate::choices::{height, make_place, save};
use crate::cursor::{fetch, more, next, open};
use crate::cuts::give_up;
use crate::database::retract_one;
use crate::enter::enter;
use crate::errors::missing;
use crate::keys::keys as keys_now;
use crate::state::{Host, Machine, Mode};
use crate::terms::{Alternative, Call, Opened, Purpose, Use};
use call_patterns::Keys;
use journal_base::{Base, Gate};
use prolog_terms::{Indicator, Want};
use std::sync::Wait;
use term_store::Cell;

/// Calls a procedure.
pub(crate) fn call<B: Base, R: Wait, G: Gate>(
    base: &mut B,
    machine: &mut Machine<B::Cursor>,
    host: &Host<'_>,
    goal: Cell,
    indicator: &Indicator,
    rt: &R,
    gate: &G,
) -> Result<(), Want>
    requires goal { IsBuilt machine.old.terms goal }
    requires room { machine.old.tally.looks < machine.old.steps }
    requires host { IsHostOf host.now (B.view base.old) }
    requires ready { IsReady (B.view base.old) (B.serves base.old) B.group (B.out base.old) B.rest B.may_visit B.looked_at host.now.budget machine.old }
    requires budget { host.now.budget ≤ 10 ^ 11 }
    ensures seen { Grows (B.view base.old) (B.view base.new) }
    ensures becomes { B.becomes base.old base.new }
    ensures kept { AreKept (B.serves base.new) B.group (B.out base.new) (calls machine.new) }
    ensures left { OnOk result (IsLeft host.now.budget (B.view base.new) machine.old machine.new) }
    ensures goes { OnOk result (Makes (B.view base.old) (B.view base.new) (λ made. (j : Journal) → Begins (B.view base.new) j
        → GoesOn B.rest B.may_visit B.looked_at B.ahead (B.view base.new).causes made (λ s. calling (setting host.now machine.old j) s (built machine.old.terms goal) indicator.now) j machine.old machine.new)) }
{
    match base.find(indicator) {
        None => {
            miss(base, machine, host, indicator)?;
            Ok(())
        }
        Some((procedure, _kind)) => {
            gate.pass(rt, host.engine, machine.tally.looks + 1);
            look(base, machine, host, Use::Enter, goal, procedure, rt)?;
            Ok(())
        }
    }
}

/// The call of a procedure that isn't declared raises an error.
fn miss<B: Base>(
    base: &mut B,
    machine: &mut Machine<B::Cursor>,
    host: &Host<'_>,
    indicator: &Indicator,
) -> Result<(), Want>
    requires absent { (j : Journal) → Begins (B.view base.old) j → number_of (first_of (B.view base.old).seen j) indicator.now ≡ None }
    requires ready { IsReady (B.view base.old) (B.serves base.old) B.group (B.out base.old) B.rest B.may_visit B.looked_at host.now.budget machine.old }
    ensures seen { Looks (B.view base.old) (B.view base.new) }
    ensures becomes { B.becomes base.old base.new }
    ensures kept { AreKept (B.serves base.new) B.group (B.out base.new) (calls machine.new) }
    ensures left { OnOk result (IsLeft host.now.budget (B.view base.new) machine.old machine.new) }
    ensures goes { OnOk result ((goal : Tree) (j : Journal) → Begins (B.view base.new) j → GoesOn B.rest B.may_visit B.looked_at B.ahead (B.view base.new).causes [] (λ s. calling (setting host.now machine.old j) s goal indicator.now) j machine.old machine.new) }
{
    let ball = missing(host.alloc, indicator)?;
    let front = base.front();
    machine.fronts.push(front)?;
    machine.front = front;
    machine.mode = Mode::Raising(ball);
    Ok(())
}

/// Looks up the clauses of a declared procedure that a goal could match, and tries the first. A function that does so at each
/// front that may be taken is what is done.
pub(crate) fn look<B: Base, R: Wait>(
    base: &mut B,
    machine: &mut Machine<B::Cursor>,
    host: &Host<'_>,
    used: Use,
    goal: Cell,
    procedure: u32,
    rt: &R,
) -> Result<(), Want>
    requires found { (j : Journal) → Begins (B.view base.old) j → procedure < length (procedures (first_of (B.view base.old).seen j)) }
    requires may { (j : Journal) → Begins (B.view base.old) j → IsOpenTo (use_of (built machine.old.terms) used) (first_of (B.view base.old).seen j) procedure }
    requires goal { IsBuilt machine.old.terms goal }
    requires used { IsOfUse (IsBuilt machine.old.terms) used }
    requires room { machine.old.tally.looks < machine.old.steps }
    requires host { IsHostOf host.now (B.view base.old) }
    requires ready { IsReady (B.view base.old) (B.serves base.old) B.group (B.out base.old) B.rest B.may_visit B.looked_at host.now.budget machine.old }
    requires budget { host.now.budget ≤ 10 ^ 11 }
    ensures seen { Grows (B.view base.old) (B.view base.new) }
    ensures becomes { B.becomes base.old base.new }
    ensures kept { AreKept (B.serves base.new) B.group (B.out base.new) (calls machine.new) }
    ensures left { OnOk result (IsLeft host.now.budget (B.view base.new) machine.old machine.new) }
    ensures goes { OnOk result (Makes (B.view base.old) (B.view base.new) (λ made. (j : Journal) → Begins (B.view base.new) j → (with : ℕ → Journal → State → Outcome)
        → IsSearch (setting host.now machine.old j) (use_of (built machine.old.terms) used) (built machine.old.terms goal) (B.view base.old).seen procedure with
        → GoesOn B.rest B.may_visit B.looked_at B.ahead (B.view base.new).causes made (λ s. taking (setting host.now machine.old j) s (with s.front)) j machine.old machine.new)) }
{
    let keys = keys_now(&machine.terms, goal);
    machine.fronts.reserve(1)?;
    let Opened { call, how: _ } = open(
        base,
        &machine.terms,
        used,
        goal,
        procedure,
        &keys,
        &mut machine.tally,
    );
    let front = base.front();
    machine.fronts.push_reserved(front);
    machine.front = front;
    try_next(base, machine, host, call, &keys, rt)?;
    Ok(())
}

/// Takes an alternative: the first clause that is left of its call is tried.
pub(crate) fn take<B: Base, R: Wait>(
    base: &mut B,
    machine: &mut Machine<B::Cursor>,
    host: &Host<'_>,
    call: Call<B::Cursor>,
    rt: &R,
) -> Result<(), Want>
    requires host { IsHostOf host.now (B.view base.old) }
    requires sound { IsSound (B.view base.old) }
    requires front { IsFronted (B.view base.old) machine.old.front }
    requires terms { AreTerms machine.old.terms }
    requires cells { IsOfCall (IsBuilt machine.old.terms) call }
    requires kept { AreKept (B.serves base.old) B.group (B.out base.old) (calls machine.old ++ call_now machine.old.terms call ∷ []) }
    requires named { (j : Journal) → Begins (B.view base.old) j → All (AreNamed B.rest B.looked_at j) (calls machine.old ++ call_now machine.old.terms call ∷ []) }
    requires room { HasRoom machine.old.tally }
    ensures seen { Grows (B.view base.old) (B.view base.new) }
    ensures becomes { B.becomes base.old base.new }
    ensures kept { AreKept (B.serves base.new) B.group (B.out base.new) (calls machine.new) }
    ensures counts { OnOk result (KeepsCounts machine.old machine.new) }
    ensures front { OnOk result (IsFronted (B.view base.new) machine.new.front) }
    ensures grown { OnOk result (length (calls machine.new) ≤ length (calls machine.old) + 1) }
    ensures tried { OnOk result (Makes (B.view base.old) (B.view base.new) (λ made. (j : Journal) → Begins (B.view base.new) j
        → Tries B.rest B.may_visit B.looked_at B.ahead made (setting host.now machine.old j) (call_now machine.old.terms call) machine.old machine.new)) }
{
    let keys = keys_now(&machine.terms, call.goal);
    try_next(base, machine, host, call, &keys, rt)?;
    Ok(())
}

/// Tries the first clause that is left of a call.
fn try_next<B: Base, R: Wait>(
    base: &mut B,
    machine: &mut Machine<B::Cursor>,
    host: &Host<'_>,
    call: Call<B::Cursor>,
    keys: &Keys,
    rt: &R,
) -> Result<(), Want>
    requires host { IsHostOf host.now (B.view base.old) }
    requires sound { IsSound (B.view base.old) }
    requires front { IsFronted (B.view base.old) machine.old.front }
    requires terms { AreTerms machine.old.terms }
    requires cells { IsOfCall (IsBuilt machine.old.terms) call }
    requires kept { AreKept (B.serves base.old) B.group (B.out base.old) (calls machine.old ++ call_now machine.old.terms call ∷ []) }
    requires named { (j : Journal) → Begins (B.view base.old) j → All (AreNamed B.rest B.looked_at j) (calls machine.old ++ call_now machine.old.terms call ∷ []) }
    requires room { HasRoom machine.old.tally }
    requires keys { AreKeysOf machine.old.terms.names keys.now.at }
    requires of { goal_keys machine.old.terms.names keys.now.at ≡ keys_in (built machine.old.terms call.goal) }
    ensures seen { Grows (B.view base.old) (B.view base.new) }
    ensures becomes { B.becomes base.old base.new }
    ensures kept { AreKept (B.serves base.new) B.group (B.out base.new) (calls machine.new) }
    ensures counts { OnOk result (KeepsCounts machine.old machine.new) }
    ensures front { OnOk result (IsFronted (B.view base.new) machine.new.front) }
    ensures grown { OnOk result (length (calls machine.new) ≤ length (calls machine.old) + 1) }
    ensures tried { OnOk result (Makes (B.view base.old) (B.view base.new) (λ made. (j : Journal) → Begins (B.view base.new) j
        → Tries B.rest B.may_visit B.looked_at B.ahead made (setting host.now machine.old j) (call_now machine.old.terms call) machine.old machine.new)) }
{
    let mut left = call;
    match next(base, &machine.terms, &mut left, keys, &mut machine.tally) {
        None => {
            give_up(base, left);
            machine.mode = Mode::Failing;
            Ok(())
        }
        Some(name) => {
            let used = left.used;
            let met = attempt(base, machine, left, name)?;
            serve(base, machine, host, used, name, met, rt)?;
            Ok(())
        }
    }
}

/// Tries a clause of a call, so far as to whether the two sides were made one; an alternative is left exactly where another
/// clause follows.
fn attempt<B: Base>(
    base: &mut B,
    machine: &mut Machine<B::Cursor>,
    call: Call<B::Cursor>,
    name: u64,
) -> Result<bool, Want>
    requires terms { AreTerms machine.old.terms }
    requires cells { IsOfCall (IsBuilt machine.old.terms) call }
    requires kept { AreKept (B.serves base.old) B.group (B.out base.old) (calls machine.old ++ call_now machine.old.terms call ∷ []) }
    requires named { (j : Journal) → Begins (B.view base.old) j → All (AreNamed B.rest B.looked_at j) (calls machine.old ++ call_now machine.old.terms call ∷ []) }
    requires name { (j : Journal) → Begins (B.view base.old) j → IsSome (clause_named (first_of (B.looked_at call.cursor) j) name) }
    ensures seen { Looks (B.view base.old) (B.view base.new) }
    ensures becomes { B.becomes base.old base.new }
    ensures kept { AreKept (B.serves base.new) B.group (B.out base.new) (calls machine.new) }
    ensures terms { OnOk result (AreTerms machine.new.terms) }
    ensures shown { OnOk result ((said machine.new.terms).shown ≡ (said machine.old.terms).shown) }
    ensures same { OnOk result (machine.new ≡ record machine.old { terms = machine.new.terms }) }
    ensures pushed { OnOk result (IsPushed (call_now machine.old.terms call) (calls machine.old) (calls machine.new)) }
    ensures attempted { IfOk result (λ met. (j : Journal) → Begins (B.view base.new) j → Attempts B.rest B.may_visit B.looked_at j name (call_now machine.old.terms call) machine.old machine.new met) }
{
    match fetch(base, &call, name) {
        Err(want) => {
            give_up(base, call);
            Err(want)
        }
        Ok(clause) => {
            let goal = call.goal;
            let used = call.used;
            let cut = height(&machine.terms);
            keep(base, machine, call)?;
            let met = enter(&mut machine.terms, used, goal, &clause, cut)?;
            Ok(met)
        }
    }
}

/// What follows where the two sides were made one, and where they have no unifier: a clause that is to be erased is erased.
fn serve<B: Base, R: Wait>(
    base: &mut B,
    machine: &mut Machine<B::Cursor>,
    host: &Host<'_>,
    used: Use,
    name: u64,
    met: bool,
    rt: &R,
) -> Result<(), Want>
    requires host { IsHostOf host.now (B.view base.old) }
    requires sound { IsSound (B.view base.old) }
    requires front { IsFronted (B.view base.old) machine.old.front }
    requires usable { (j : Journal) → Begins (B.view base.old) j → IsUsable (use_of (built machine.old.terms) used) (first_of (B.view base.old).seen j) name }
    ensures seen { Grows (B.view base.old) (B.view base.new) }
    ensures becomes { B.becomes base.old base.new }
    ensures others { (c : B.Cursor) (g : Goal) → B.serves base.old c g → B.serves base.new c g }
    ensures out { B.out base.new ≡ B.out base.old }
    ensures same { HasOnlyAsked machine.old machine.new }
    ensures asks { OnOk result (Asks (B.view base.old) (B.view base.new) (λ j s. where_met (setting host.now machine.old j) (use_of (built machine.old.terms) used) name s met) machine.old machine.new) }
{
    if !met {
        machine.mode = Mode::Failing;
        return Ok(());
    }
    match used {
        Use::Enter => Ok(()),
        Use::Match(Purpose::Show, _) => Ok(()),
        Use::Match(Purpose::Erase, _) => retract_one(base, machine, host, name, rt),
    }
}

/// Leaves a call as an alternative where it has a clause left, and gives it up where it has none.
fn keep<B: Base>(
    base: &mut B,
    machine: &mut Machine<B::Cursor>,
    call: Call<B::Cursor>,
) -> Result<(), Want>
    requires terms { AreTerms machine.old.terms }
    requires cells { IsOfCall (IsBuilt machine.old.terms) call }
    requires kept { AreKept (B.serves base.old) B.group (B.out base.old) (calls machine.old ++ call_now machine.old.terms call ∷ []) }
    ensures seen { Looks (B.view base.old) (B.view base.new) }
    ensures becomes { B.becomes base.old base.new }
    ensures kept { AreKept (B.serves base.new) B.group (B.out base.new) (calls machine.new) }
    ensures terms { AreTerms machine.new.terms }
    ensures cells { KeepsCells machine.old.terms machine.new.terms }
    ensures same { OnOk result (machine.new ≡ record machine.old { terms = machine.new.terms }) }
    ensures said { said machine.new.terms ≡ record (said machine.old.terms) { stack = (said machine.new.terms).stack } }
    ensures stack { OnOk result ((j : Journal) → Begins (B.view base.new) j
        → (said machine.new.terms).stack ≡ (if has_more (names_left B.rest B.looked_at j (call_now machine.old.terms call)) then (said machine.old.terms).stack ++ saved_now machine.old.terms (Alternative.Clauses call) ∷ [] else (said machine.old.terms).stack)) }
    ensures pushed { OnOk result (IsPushed (call_now machine.old.terms call) (calls machine.old) (calls machine.new)) }
{
    if more(base, &call) {
        match make_place(&mut machine.terms) {
            Ok(()) => {
                save(&mut machine.terms, Alternative::Clauses(call));
                // For its clause `sound`.
                let _front = base.front();
                Ok(())
            }
            Err(want) => {
                give_up(base, call);
                Err(want)
            }
        }
    } else {
        give_up(base, call);
        Ok(())
    }
}
