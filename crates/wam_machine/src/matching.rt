// Clauses that are matched with a head and a body: `clause` and `retract`.
ghost use Rattle.std.specs.Prelude.{◌≡◌, ℕ, ◌<◌, ◌≤◌, ◌^◌, IfOk, OnOk, OnErr, Some, take as first_of};
ghost use Rattle.prolog_terms.specs.Faults.{fault_tree};
ghost use Rattle.prolog_terms.specs.declared.entry.Indicator.{Indicator};
ghost use Rattle.prolog_terms.specs.declared.fault.Fault.{Fault};
ghost use Rattle.prolog_clauses.specs.Formed.{parts_of};
ghost use Rattle.journals.specs.Journal.{Journal, procedure_named};
ghost use Rattle.journal_base.specs.View.{Grows};
ghost use Rattle.wam_machine.specs.States.{State, Outcome, Goes, ToShow, ToErase, raises, taking};
ghost use Rattle.wam_machine.specs.Procedures.{inspecting, retracting, matching, matching_where, headed, unless_integer, clause_at, retract_at, call_for, refusal_for};
ghost use Rattle.wam_machine.specs.Terms.{AreTerms, IsBuilt, IsGrown, said, built, purpose_of};
ghost use Rattle.wam_machine.specs.Cursors.{Begins};
ghost use Rattle.wam_machine.specs.View.{setting, calls, mode_of, IsReady, IsLeft, AreKept, GoesOn, Makes, IsHostOf};
ghost use Rattle.wam_machine.specs.Heads.{IsHead, IsNumber, AreParts, AreSides};

use crate::build::word;
use crate::database::take_front;
use crate::errors::{
    clause_indicator, retract_indicator, unbound, uncallable, unchangeable_at, unseen_at,
};
use crate::procedures::look;
use crate::reserved::is_reserved;
use crate::state::{Host, Machine, Mode};
use crate::terms::{Purpose, Terms, Use};
use journal_base::{Base, Gate};
use prolog_terms::{Indicator, Kind, Name, Term, Want};
use std::alloc::Global;
use std::sync::Wait;
use term_store::{Cell, View};

/// What a term is as a head.
#[derive(Drop)]
pub(crate) enum Head {
    /// It is unbound.
    Unbound,
    /// It is an integer.
    Number,
    /// It has this name and arity.
    Named(Indicator),
}

/// A head and a body with which clauses are matched, and what becomes of these.
#[derive(Clone, Copy)]
struct Matched {
    purpose: Purpose,
    head: Cell,
    body: Cell,
}

/// What a term is as a head.
pub(crate) fn head_of<C>(alloc: Global, terms: &Terms<C>, cell: Cell) -> Result<Head, Want>
    requires terms { AreTerms terms.now }
    requires cell { IsBuilt terms.now cell }
    ensures { IfOk result (IsHead (built terms.now cell)) }
{
    terms.store.known();
    match terms.store.look(cell) {
        View::Variable(_) => Ok(Head::Unbound),
        View::Integer(_) => Ok(Head::Number),
        View::Atom(name) => named(alloc, terms.names.text(name), 0),
        View::Compound(name, arguments) => {
            named(alloc, terms.names.text(name), arguments.len() as u32)
        }
    }
}

fn named(alloc: Global, name: &[u8], arity: u32) -> Result<Head, Want>
    ensures { IfOk result (λ h. h ≡ Head.Named (record { name = name.now; arity = arity })) }
{
    Ok(Head::Named(Indicator {
        name: Name::of(alloc, name)?,
        arity,
    }))
}

/// Whether a term is an integer.
fn is_number<C>(terms: &Terms<C>, cell: Cell) -> bool
    requires terms { AreTerms terms.now }
    requires cell { IsBuilt terms.now cell }
    ensures { IsNumber (built terms.now cell) result }
{
    terms.store.known();
    match terms.store.look(cell) {
        View::Integer(_) => true,
        _ => false,
    }
}

/// The head and the body of a term: of the name `:-` with two arguments it is a rule, and else a fact, whose body is `true`.
fn parts<C>(terms: &mut Terms<C>, clause: Cell) -> Result<(Cell, Cell), Want>
    requires terms { AreTerms terms.old }
    requires clause { IsBuilt terms.old clause }
    ensures grown { OnOk result (IsGrown terms.old terms.new) }
    ensures parts { IfOk result (AreParts terms.new (parts_of (built terms.old clause))) }
    ensures err { OnErr result ((said terms.new).stack ≡ (said terms.old).stack) }
{
    match sides(terms, clause) {
        Some(sides) => Ok(sides),
        None => {
            let truth = word(terms, b"true")?;
            Ok((clause, Cell::Atom(truth)))
        }
    }
}

/// The head and the body of a rule.
fn sides<C>(terms: &Terms<C>, clause: Cell) -> Option<(Cell, Cell)>
    requires terms { AreTerms terms.now }
    requires clause { IsBuilt terms.now clause }
    ensures { AreSides terms.now (built terms.now clause) result }
{
    terms.store.known();
    match terms.store.look(clause) {
        View::Compound(name, arguments) => match arguments {
            [head, body] => {
                if terms.names.text(name) == b":-".as_slice() {
                    return Some((*head, *body));
                }
                None
            }
            _ => None,
        },
        _ => None,
    }
}

/// Shows the clauses of a head and a body, one after another.
pub(crate) fn inspect<B: Base, R: Wait, G: Gate>(
    base: &mut B,
    machine: &mut Machine<B::Cursor>,
    host: &Host<'_>,
    head: Cell,
    body: Cell,
    rt: &R,
    gate: &G,
) -> Result<(), Want>
    requires head { IsBuilt machine.old.terms head }
    requires body { IsBuilt machine.old.terms body }
    requires room { machine.old.tally.looks < machine.old.steps }
    requires budget { host.now.budget ≤ 10 ^ 11 }
    requires host { IsHostOf host.now (B.view base.old) }
    requires ready { IsReady (B.view base.old) (B.serves base.old) B.group (B.out base.old) B.rest B.may_visit B.looked_at host.now.budget machine.old }
    ensures seen { Grows (B.view base.old) (B.view base.new) }
    ensures becomes { B.becomes base.old base.new }
    ensures kept { AreKept (B.serves base.new) B.group (B.out base.new) (calls machine.new) }
    ensures left { OnOk result (IsLeft host.now.budget (B.view base.new) machine.old machine.new) }
    ensures goes { OnOk result (Makes (B.view base.old) (B.view base.new) (λ made. (j : Journal) → Begins (B.view base.new) j
        → GoesOn B.rest B.may_visit B.looked_at B.ahead (B.view base.new).causes made (inspecting (setting host.now machine.old j) (built machine.old.terms head) (built machine.old.terms body)) j machine.old machine.new)) }
{
    stands(base);
    let at = clause_indicator(host.alloc)?;
    let found = head_of(host.alloc, &machine.terms, head)?;
    match found {
        Head::Unbound => {
            let ball = unbound(host.alloc, &at)?;
            raise(base, machine, host, ball);
            Ok(())
        }
        Head::Number => {
            let ball = uncallable(host.alloc, &machine.terms, head, &at)?;
            raise(base, machine, host, ball);
            Ok(())
        }
        Head::Named(indicator) => {
            inspect_named(base, machine, host, head, body, &indicator, rt, gate)
        }
    }
}

/// The same where the head has a name and an arity. An integer is no body.
fn inspect_named<B: Base, R: Wait, G: Gate>(
    base: &mut B,
    machine: &mut Machine<B::Cursor>,
    host: &Host<'_>,
    head: Cell,
    body: Cell,
    indicator: &Indicator,
    rt: &R,
    gate: &G,
) -> Result<(), Want>
    requires head { IsBuilt machine.old.terms head }
    requires body { IsBuilt machine.old.terms body }
    requires room { machine.old.tally.looks < machine.old.steps }
    requires budget { host.now.budget ≤ 10 ^ 11 }
    requires host { IsHostOf host.now (B.view base.old) }
    requires ready { IsReady (B.view base.old) (B.serves base.old) B.group (B.out base.old) B.rest B.may_visit B.looked_at host.now.budget machine.old }
    ensures seen { Grows (B.view base.old) (B.view base.new) }
    ensures becomes { B.becomes base.old base.new }
    ensures kept { AreKept (B.serves base.new) B.group (B.out base.new) (calls machine.new) }
    ensures left { OnOk result (IsLeft host.now.budget (B.view base.new) machine.old machine.new) }
    ensures goes { OnOk result (Makes (B.view base.old) (B.view base.new) (λ made. (j : Journal) → Begins (B.view base.new) j
        → GoesOn B.rest B.may_visit B.looked_at B.ahead (B.view base.new).causes made (λ s. unless_integer clause_at (built machine.old.terms body) s (matching (setting host.now machine.old j) ToShow (built machine.old.terms head) (built machine.old.terms body) s indicator.now)) j machine.old machine.new)) }
{
    if is_number(&machine.terms, body) {
        stands(base);
        let at = clause_indicator(host.alloc)?;
        let ball = uncallable(host.alloc, &machine.terms, body, &at)?;
        raise(base, machine, host, ball);
        return Ok(());
    }
    let matched = Matched {
        purpose: Purpose::Show,
        head,
        body,
    };
    match_clauses(base, machine, host, matched, indicator, rt, gate)
}

/// Erases the clauses of the head and the body of a clause, one after another.
pub(crate) fn retract<B: Base, R: Wait, G: Gate>(
    base: &mut B,
    machine: &mut Machine<B::Cursor>,
    host: &Host<'_>,
    clause: Cell,
    rt: &R,
    gate: &G,
) -> Result<(), Want>
    requires clause { IsBuilt machine.old.terms clause }
    requires room { machine.old.tally.looks < machine.old.steps }
    requires budget { host.now.budget ≤ 10 ^ 11 }
    requires host { IsHostOf host.now (B.view base.old) }
    requires ready { IsReady (B.view base.old) (B.serves base.old) B.group (B.out base.old) B.rest B.may_visit B.looked_at host.now.budget machine.old }
    ensures seen { Grows (B.view base.old) (B.view base.new) }
    ensures becomes { B.becomes base.old base.new }
    ensures kept { AreKept (B.serves base.new) B.group (B.out base.new) (calls machine.new) }
    ensures left { OnOk result (IsLeft host.now.budget (B.view base.new) machine.old machine.new) }
    ensures goes { OnOk result (Makes (B.view base.old) (B.view base.new) (λ made. (j : Journal) → Begins (B.view base.new) j
        → GoesOn B.rest B.may_visit B.looked_at B.ahead (B.view base.new).causes made (retracting (setting host.now machine.old j) (parts_of (built machine.old.terms clause))) j machine.old machine.new)) }
{
    stands(base);
    let cells = parts(&mut machine.terms, clause)?;
    retract_parts(base, machine, host, cells.0, cells.1, rt, gate)
}

/// Erases the clauses of a head and a body, one after another.
fn retract_parts<B: Base, R: Wait, G: Gate>(
    base: &mut B,
    machine: &mut Machine<B::Cursor>,
    host: &Host<'_>,
    head: Cell,
    body: Cell,
    rt: &R,
    gate: &G,
) -> Result<(), Want>
    requires head { IsBuilt machine.old.terms head }
    requires body { IsBuilt machine.old.terms body }
    requires room { machine.old.tally.looks < machine.old.steps }
    requires budget { host.now.budget ≤ 10 ^ 11 }
    requires host { IsHostOf host.now (B.view base.old) }
    requires ready { IsReady (B.view base.old) (B.serves base.old) B.group (B.out base.old) B.rest B.may_visit B.looked_at host.now.budget machine.old }
    ensures seen { Grows (B.view base.old) (B.view base.new) }
    ensures becomes { B.becomes base.old base.new }
    ensures kept { AreKept (B.serves base.new) B.group (B.out base.new) (calls machine.new) }
    ensures left { OnOk result (IsLeft host.now.budget (B.view base.new) machine.old machine.new) }
    ensures goes { OnOk result (Makes (B.view base.old) (B.view base.new) (λ made. (j : Journal) → Begins (B.view base.new) j
        → GoesOn B.rest B.may_visit B.looked_at B.ahead (B.view base.new).causes made (λ s. headed retract_at (built machine.old.terms head) s (λ i. matching (setting host.now machine.old j) ToErase (built machine.old.terms head) (built machine.old.terms body) s i)) j machine.old machine.new)) }
{
    stands(base);
    let at = retract_indicator(host.alloc)?;
    let found = head_of(host.alloc, &machine.terms, head)?;
    match found {
        Head::Unbound => {
            let ball = unbound(host.alloc, &at)?;
            raise(base, machine, host, ball);
            Ok(())
        }
        Head::Number => {
            let ball = uncallable(host.alloc, &machine.terms, head, &at)?;
            raise(base, machine, host, ball);
            Ok(())
        }
        Head::Named(indicator) => {
            let matched = Matched {
                purpose: Purpose::Erase,
                head,
                body,
            };
            match_clauses(base, machine, host, matched, &indicator, rt, gate)
        }
    }
}

/// Tries the clauses of the procedure of this name and arity, which is looked for in what is seen.
fn match_clauses<B: Base, R: Wait, G: Gate>(
    base: &mut B,
    machine: &mut Machine<B::Cursor>,
    host: &Host<'_>,
    matched: Matched,
    indicator: &Indicator,
    rt: &R,
    gate: &G,
) -> Result<(), Want>
    requires head { IsBuilt machine.old.terms matched.head }
    requires body { IsBuilt machine.old.terms matched.body }
    requires room { machine.old.tally.looks < machine.old.steps }
    requires budget { host.now.budget ≤ 10 ^ 11 }
    requires host { IsHostOf host.now (B.view base.old) }
    requires ready { IsReady (B.view base.old) (B.serves base.old) B.group (B.out base.old) B.rest B.may_visit B.looked_at host.now.budget machine.old }
    ensures seen { Grows (B.view base.old) (B.view base.new) }
    ensures becomes { B.becomes base.old base.new }
    ensures kept { AreKept (B.serves base.new) B.group (B.out base.new) (calls machine.new) }
    ensures left { OnOk result (IsLeft host.now.budget (B.view base.new) machine.old machine.new) }
    ensures goes { OnOk result (Makes (B.view base.old) (B.view base.new) (λ made. (j : Journal) → Begins (B.view base.new) j
        → GoesOn B.rest B.may_visit B.looked_at B.ahead (B.view base.new).causes made (λ s. matching (setting host.now machine.old j) (purpose_of matched.purpose) (built machine.old.terms matched.head) (built machine.old.terms matched.body) s indicator.now) j machine.old machine.new)) }
{
    if is_reserved(indicator) {
        stands(base);
        let ball = refusal(host.alloc, matched.purpose, indicator)?;
        raise(base, machine, host, ball);
        return Ok(());
    }
    match base.find(indicator) {
        None => stop(base, machine, host, Mode::Failing),
        Some((procedure, kind)) => {
            match_kind(
                base, machine, host, matched, indicator, procedure, kind, rt, gate,
            )
        }
    }
}

/// Tries the clauses of a procedure that was found, unless it is static.
fn match_kind<B: Base, R: Wait, G: Gate>(
    base: &mut B,
    machine: &mut Machine<B::Cursor>,
    host: &Host<'_>,
    matched: Matched,
    indicator: &Indicator,
    procedure: u32,
    kind: Kind,
    rt: &R,
    gate: &G,
) -> Result<(), Want>
    requires head { IsBuilt machine.old.terms matched.head }
    requires body { IsBuilt machine.old.terms matched.body }
    requires found { (j : Journal) → Begins (B.view base.old) j → procedure_named (first_of (B.view base.old).seen j) indicator.now ≡ Some (procedure, kind) }
    requires room { machine.old.tally.looks < machine.old.steps }
    requires budget { host.now.budget ≤ 10 ^ 11 }
    requires host { IsHostOf host.now (B.view base.old) }
    requires ready { IsReady (B.view base.old) (B.serves base.old) B.group (B.out base.old) B.rest B.may_visit B.looked_at host.now.budget machine.old }
    ensures seen { Grows (B.view base.old) (B.view base.new) }
    ensures becomes { B.becomes base.old base.new }
    ensures kept { AreKept (B.serves base.new) B.group (B.out base.new) (calls machine.new) }
    ensures left { OnOk result (IsLeft host.now.budget (B.view base.new) machine.old machine.new) }
    ensures goes { OnOk result (Makes (B.view base.old) (B.view base.new) (λ made. (j : Journal) → Begins (B.view base.new) j
        → GoesOn B.rest B.may_visit B.looked_at B.ahead (B.view base.new).causes made (λ s. taking (setting host.now machine.old j) s (λ seen t. matching_where (setting host.now machine.old j) (purpose_of matched.purpose) (built machine.old.terms matched.head) (built machine.old.terms matched.body) indicator.now s.front seen t (procedure_named seen indicator.now))) j machine.old machine.new)) }
{
    match kind {
        Kind::Static => {
            stands(base);
            let ball = refusal(host.alloc, matched.purpose, indicator)?;
            stop(base, machine, host, Mode::Raising(ball))
        }
        Kind::Dynamic => {
            gate.pass(rt, host.engine, machine.tally.looks + 1);
            let used = Use::Match(matched.purpose, matched.body);
            look(base, machine, host, used, matched.head, procedure, rt)
        }
    }
}

/// The error of a call with this purpose that the procedure's clauses may not be so used.
fn refusal(alloc: Global, purpose: Purpose, indicator: &Indicator) -> Result<Term, Want>
    ensures { IfOk result (λ t. t ≡ fault_tree (refusal_for (purpose_of purpose) indicator.now) (call_for (purpose_of purpose))) }
{
    match purpose {
        Purpose::Show => {
            let at = clause_indicator(alloc)?;
            unseen_at(alloc, indicator, &at)
        }
        Purpose::Erase => {
            let at = retract_indicator(alloc)?;
            unchangeable_at(alloc, indicator, &at)
        }
    }
}

/// What a base shows is no less than what it shows.
pub(crate) fn stands<B: Base>(base: &B)
    ensures { Grows (B.view base.now) (B.view base.now) }
{
    // For its clause `sound`.
    let _front = base.front();
}

/// Raises an error; nothing is asked of the base.
pub(crate) fn raise<B: Base>(
    base: &B,
    machine: &mut Machine<B::Cursor>,
    host: &Host<'_>,
    ball: Term,
)
    requires ready { IsReady (B.view base.now) (B.serves base.now) B.group (B.out base.now) B.rest B.may_visit B.looked_at host.now.budget machine.old }
    ensures kept { AreKept (B.serves base.now) B.group (B.out base.now) (calls machine.new) }
    ensures left { IsLeft host.now.budget (B.view base.now) machine.old machine.new }
    ensures goes { (fault : Fault) (at : Indicator) (f : Journal → State → Outcome) → ball ≡ fault_tree fault at → ((j : Journal) (s : State) → f j s ≡ raises fault at s)
        → Makes (B.view base.now) (B.view base.now) (λ made. (j : Journal) → Begins (B.view base.now) j
        → GoesOn B.rest B.may_visit B.looked_at B.ahead (B.view base.now).causes made (f j) j machine.old machine.new) }
{
    // The contract speaks of both.
    let _base = base;
    let _host = host;
    machine.mode = Mode::Raising(ball);
}

/// Takes the front that is seen, and goes on in a mode.
pub(crate) fn stop<B: Base>(
    base: &B,
    machine: &mut Machine<B::Cursor>,
    host: &Host<'_>,
    mode: Mode,
) -> Result<(), Want>
    requires ready { IsReady (B.view base.now) (B.serves base.now) B.group (B.out base.now) B.rest B.may_visit B.looked_at host.now.budget machine.old }
    ensures kept { AreKept (B.serves base.now) B.group (B.out base.now) (calls machine.new) }
    ensures left { OnOk result (IsLeft host.now.budget (B.view base.now) machine.old machine.new) }
    ensures goes { OnOk result ((with : Journal → ℕ → Journal → State → Outcome)
        → ((j : Journal) → Begins (B.view base.now) j → (s : State) → with j machine.old.front (first_of (B.view base.now).seen j) s ≡ Goes (record s { mode = mode_of mode }))
        → Makes (B.view base.now) (B.view base.now) (λ made. (j : Journal) → Begins (B.view base.now) j
        → GoesOn B.rest B.may_visit B.looked_at B.ahead (B.view base.now).causes made (λ s. taking (setting host.now machine.old j) s (with j s.front)) j machine.old machine.new)) }
{
    // The contract speaks of it.
    let _host = host;
    take_front(base, machine)?;
    machine.mode = mode;
    Ok(())
}
