// What goals ask of the database, other than calls: additions, and one erasure. Memory for what is asked is taken first; each front that is taken
// is that which the base has seen behind it.
ghost use Rattle.std.specs.Prelude.{◌≡◌, ◌<◌, ◌≤◌, ◌^◌, ◌++◌, ◌∷◌, [], IfOk, OnOk, OnErr, Some, IsSome, take as first_of};
ghost use Rattle.prolog_terms.specs.Faults.{fault_tree};
ghost use Rattle.prolog_terms.specs.Clauses.{IsClause};
ghost use Rattle.prolog_terms.specs.Indicators.{indicator_of};
ghost use Rattle.prolog_terms.specs.declared.entry.Kind.TheVariants.{Dynamic};
ghost use Rattle.journal_base.specs.Goals.{Goal};
ghost use Rattle.journals.specs.Journal.{Journal, procedure_named, clause_named};
ghost use Rattle.journal_base.specs.View.{Grows, Looks, IsSound};
ghost use Rattle.wam_machine.specs.States.{no_room, ToErase};
ghost use Rattle.wam_machine.specs.Procedures.{asserting, accessing, adding_clause, adding_named, adding_to, adding, declaring, assert_at, no_change, serving};
ghost use Rattle.wam_machine.specs.Goals.{IsAccess, access_in};
ghost use Rattle.wam_machine.specs.Terms.{AreTerms, IsBuilt, built};
ghost use Rattle.wam_machine.specs.Cursors.{Begins, IsChangeable};
ghost use Rattle.wam_machine.specs.View.{setting, calls, IsReady, IsLeft, AreKept, GoesOn, Makes, IsHostOf, Asks, Erases, IsFronted, HasOnlyAsked};
ghost use Rattle.wam_machine.specs.declared.state.Mode.TheVariants.{Raising};

use crate::control::Access;
use crate::errors::{assert_indicator, no_room_at, retract_indicator, unchangeable, without_room};
use crate::matching::{inspect, retract};
use crate::reserved::is_reserved;
use crate::state::{Host, Machine, Mode};
use crate::sweeping::{abolish, retract_all};
use journal_base::{Added, Base, Declared, Erased, Gate};
use prolog_clauses::{Formed, clause_of};
use prolog_terms::{Clause, End, Indicator, Kind, Want, fault_term, term_indicator};
use std::sync::Wait;
use term_store::Cell;

/// A clause that is to be added at an end, to the procedure of its head's name and arity.
#[derive(Clone, Copy)]
pub(crate) struct Addition<'a> {
    pub end: End,
    pub indicator: &'a Indicator,
    pub clause: &'a Clause,
}

/// What became of an erasure that was asked for.
#[derive(Clone, Copy)]
pub(crate) enum Erasure {
    /// It is done.
    Done,
    /// The clause was erased before.
    Gone,
    /// The database has no room for it.
    Full,
}

/// Asks the database for something.
pub(crate) fn access<B: Base, R: Wait, G: Gate>(
    base: &mut B,
    machine: &mut Machine<B::Cursor>,
    host: &Host<'_>,
    access: Access,
    rt: &R,
    gate: &G,
) -> Result<(), Want>
    requires access { IsAccess machine.old.terms access }
    requires room { machine.old.tally.looks < machine.old.steps }
    requires budget { host.now.budget ≤ 10 ^ 11 }
    requires host { IsHostOf host.now (B.view base.old) }
    requires ready { IsReady (B.view base.old) (B.serves base.old) B.group (B.out base.old) B.rest B.may_visit B.looked_at host.now.budget machine.old }
    ensures seen { Grows (B.view base.old) (B.view base.new) }
    ensures becomes { B.becomes base.old base.new }
    ensures kept { AreKept (B.serves base.new) B.group (B.out base.new) (calls machine.new) }
    ensures left { OnOk result (IsLeft host.now.budget (B.view base.new) machine.old machine.new) }
    ensures goes { OnOk result (Makes (B.view base.old) (B.view base.new) (λ made. (j : Journal) → Begins (B.view base.new) j
        → GoesOn B.rest B.may_visit B.looked_at B.ahead (B.view base.new).causes made (accessing (setting host.now machine.old j) (access_in (built machine.old.terms) access)) j machine.old machine.new)) }
{
    match access {
        Access::Assert(end, clause) => assert(base, machine, host, end, clause, rt),
        Access::Inspect(head, body) => inspect(base, machine, host, head, body, rt, gate),
        Access::Retract(clause) => retract(base, machine, host, clause, rt, gate),
        Access::RetractAll(head) => retract_all(base, machine, host, head, rt, gate),
        Access::Abolish(named) => abolish(base, machine, host, named, rt, gate),
    }
}

/// Adds a copy of a term as a clause; what is amiss with the term is told first.
fn assert<B: Base, R: Wait>(
    base: &mut B,
    machine: &mut Machine<B::Cursor>,
    host: &Host<'_>,
    end: End,
    term: Cell,
    rt: &R,
) -> Result<(), Want>
    requires terms { AreTerms machine.old.terms }
    requires term { IsBuilt machine.old.terms term }
    requires host { IsHostOf host.now (B.view base.old) }
    requires sound { IsSound (B.view base.old) }
    requires front { IsFronted (B.view base.old) machine.old.front }
    ensures seen { Grows (B.view base.old) (B.view base.new) }
    ensures becomes { B.becomes base.old base.new }
    ensures others { (c : B.Cursor) (g : Goal) → B.serves base.old c g → B.serves base.new c g }
    ensures out { B.out base.new ≡ B.out base.old }
    ensures same { HasOnlyAsked machine.old machine.new }
    ensures asks { OnOk result (Asks (B.view base.old) (B.view base.new) (λ j. asserting (setting host.now machine.old j) end (built machine.old.terms term)) machine.old machine.new) }
{
    let copy = machine.terms.store.read_back(&machine.terms.names, term)?;
    match clause_of(host.alloc, &copy)? {
        Formed::Clause(clause) => add_clause(base, machine, host, end, &clause, rt),
        Formed::Refused(fault) => {
            let at = assert_indicator(host.alloc, end)?;
            machine.mode = Mode::Raising(fault_term(host.alloc, &fault, &at)?);
            Ok(())
        }
    }
}

/// Adds a clause, unless its head is that of a control construct or a builtin.
fn add_clause<B: Base, R: Wait>(
    base: &mut B,
    machine: &mut Machine<B::Cursor>,
    host: &Host<'_>,
    end: End,
    clause: &Clause,
    rt: &R,
) -> Result<(), Want>
    requires clause { IsClause clause.now }
    requires host { IsHostOf host.now (B.view base.old) }
    requires sound { IsSound (B.view base.old) }
    requires front { IsFronted (B.view base.old) machine.old.front }
    ensures seen { Grows (B.view base.old) (B.view base.new) }
    ensures becomes { B.becomes base.old base.new }
    ensures others { (c : B.Cursor) (g : Goal) → B.serves base.old c g → B.serves base.new c g }
    ensures out { B.out base.new ≡ B.out base.old }
    ensures same { HasOnlyAsked machine.old machine.new }
    ensures asks { OnOk result (Asks (B.view base.old) (B.view base.new) (λ j s. adding_clause (setting host.now machine.old j) end clause.now s (indicator_of clause.now.head)) machine.old machine.new) }
{
    match term_indicator(host.alloc, &clause.head)? {
        None => unreachable!(),
        Some(indicator) => {
            if is_reserved(&indicator) {
                machine.mode = Mode::Raising(unchangeable(host.alloc, &indicator, end)?);
                return Ok(());
            }
            let addition = Addition {
                end,
                indicator: &indicator,
                clause,
            };
            add_named(base, machine, host, &addition, rt)
        }
    }
}

/// Adds a clause to its procedure, which is looked for in what is seen.
fn add_named<B: Base, R: Wait>(
    base: &mut B,
    machine: &mut Machine<B::Cursor>,
    host: &Host<'_>,
    addition: &Addition<'_>,
    rt: &R,
) -> Result<(), Want>
    requires clause { IsClause addition.now.clause.now }
    requires headed { indicator_of addition.now.clause.now.head ≡ Some addition.now.indicator.now }
    requires host { IsHostOf host.now (B.view base.old) }
    requires sound { IsSound (B.view base.old) }
    requires front { IsFronted (B.view base.old) machine.old.front }
    ensures seen { Grows (B.view base.old) (B.view base.new) }
    ensures becomes { B.becomes base.old base.new }
    ensures others { (c : B.Cursor) (g : Goal) → B.serves base.old c g → B.serves base.new c g }
    ensures out { B.out base.new ≡ B.out base.old }
    ensures same { HasOnlyAsked machine.old machine.new }
    ensures asks { OnOk result (Asks (B.view base.old) (B.view base.new) (λ j. adding_named (setting host.now machine.old j) addition.now.end addition.now.indicator.now addition.now.clause.now) machine.old machine.new) }
{
    let found = base.find(addition.indicator);
    take_front(base, machine)?;
    match found {
        Some((procedure, kind)) => add_to(base, machine, host, addition, procedure, kind, rt),
        None => declare_first(base, machine, host, addition, rt),
    }
}

/// Adds a clause to a procedure that is declared dynamic first; another engine may have declared it meanwhile.
fn declare_first<B: Base, R: Wait>(
    base: &mut B,
    machine: &mut Machine<B::Cursor>,
    host: &Host<'_>,
    addition: &Addition<'_>,
    rt: &R,
) -> Result<(), Want>
    requires clause { IsClause addition.now.clause.now }
    requires headed { indicator_of addition.now.clause.now.head ≡ Some addition.now.indicator.now }
    requires host { IsHostOf host.now (B.view base.old) }
    requires sound { IsSound (B.view base.old) }
    requires front { IsFronted (B.view base.old) machine.old.front }
    ensures seen { Grows (B.view base.old) (B.view base.new) }
    ensures becomes { B.becomes base.old base.new }
    ensures others { (c : B.Cursor) (g : Goal) → B.serves base.old c g → B.serves base.new c g }
    ensures out { B.out base.new ≡ B.out base.old }
    ensures same { HasOnlyAsked machine.old machine.new }
    ensures asks { OnOk result (Asks (B.view base.old) (B.view base.new) (λ j. declaring (setting host.now machine.old j) addition.now.end addition.now.indicator.now addition.now.clause.now) machine.old machine.new) }
{
    match base.declare(rt, addition.indicator, Kind::Dynamic) {
        Declared::Done(procedure) => {
            take_front(base, machine)?;
            add(base, machine, host, addition, procedure, rt)
        }
        Declared::Already(procedure, kind) => {
            take_front(base, machine)?;
            add_to(base, machine, host, addition, procedure, kind, rt)
        }
        Declared::Full { .. } => {
            take_front(base, machine)?;
            machine.mode = Mode::Raising(without_room(host.alloc, addition.end)?);
            Ok(())
        }
        Declared::Want => Err(Want),
    }
}

/// Adds a clause to a procedure, unless that is static.
fn add_to<B: Base, R: Wait>(
    base: &mut B,
    machine: &mut Machine<B::Cursor>,
    host: &Host<'_>,
    addition: &Addition<'_>,
    procedure: u32,
    kind: Kind,
    rt: &R,
) -> Result<(), Want>
    requires clause { IsClause addition.now.clause.now }
    requires headed { indicator_of addition.now.clause.now.head ≡ Some addition.now.indicator.now }
    requires found { (j : Journal) → Begins (B.view base.old) j → procedure_named (first_of (B.view base.old).seen j) addition.now.indicator.now ≡ Some (procedure, kind) }
    requires host { IsHostOf host.now (B.view base.old) }
    requires sound { IsSound (B.view base.old) }
    requires front { IsFronted (B.view base.old) machine.old.front }
    ensures seen { Grows (B.view base.old) (B.view base.new) }
    ensures becomes { B.becomes base.old base.new }
    ensures others { (c : B.Cursor) (g : Goal) → B.serves base.old c g → B.serves base.new c g }
    ensures out { B.out base.new ≡ B.out base.old }
    ensures same { HasOnlyAsked machine.old machine.new }
    ensures asks { OnOk result (Asks (B.view base.old) (B.view base.new) (λ j s. adding_to (setting host.now machine.old j) addition.now.end addition.now.indicator.now addition.now.clause.now s procedure kind) machine.old machine.new) }
{
    match kind {
        Kind::Static => {
            machine.mode = Mode::Raising(unchangeable(
                host.alloc,
                addition.indicator,
                addition.end,
            )?);
            Ok(())
        }
        Kind::Dynamic => add(base, machine, host, addition, procedure, rt),
    }
}

/// Adds a clause to a dynamic procedure.
fn add<B: Base, R: Wait>(
    base: &mut B,
    machine: &mut Machine<B::Cursor>,
    host: &Host<'_>,
    addition: &Addition<'_>,
    procedure: u32,
    rt: &R,
) -> Result<(), Want>
    requires clause { IsClause addition.now.clause.now }
    requires headed { indicator_of addition.now.clause.now.head ≡ Some addition.now.indicator.now }
    requires found { (j : Journal) → Begins (B.view base.old) j → procedure_named (first_of (B.view base.old).seen j) addition.now.indicator.now ≡ Some (procedure, Dynamic) }
    requires host { IsHostOf host.now (B.view base.old) }
    requires sound { IsSound (B.view base.old) }
    requires front { IsFronted (B.view base.old) machine.old.front }
    ensures seen { Grows (B.view base.old) (B.view base.new) }
    ensures becomes { B.becomes base.old base.new }
    ensures others { (c : B.Cursor) (g : Goal) → B.serves base.old c g → B.serves base.new c g }
    ensures out { B.out base.new ≡ B.out base.old }
    ensures same { HasOnlyAsked machine.old machine.new }
    ensures asks { OnOk result (Asks (B.view base.old) (B.view base.new) (λ j s. adding (setting host.now machine.old j) addition.now.end addition.now.clause.now s procedure) machine.old machine.new) }
{
    match base.add(rt, addition.end, procedure, addition.clause) {
        Added::Done(_) => {
            take_front(base, machine)?;
            Ok(())
        }
        Added::Full { .. } => {
            take_front(base, machine)?;
            machine.mode = Mode::Raising(without_room(host.alloc, addition.end)?);
            Ok(())
        }
        Added::Want => Err(Want),
    }
}

/// Asks for the erasure of a clause, and takes the front behind it.
pub(crate) fn ask_erasure<B: Base, R: Wait>(
    base: &mut B,
    machine: &mut Machine<B::Cursor>,
    host: &Host<'_>,
    clause: u64,
    rt: &R,
) -> Result<Erasure, Want>
    requires named { (j : Journal) → Begins (B.view base.old) j → IsSome (clause_named (first_of (B.view base.old).seen j) clause) }
    requires changeable { (j : Journal) → Begins (B.view base.old) j → IsChangeable (first_of (B.view base.old).seen j) clause }
    requires host { IsHostOf host.now (B.view base.old) }
    requires sound { IsSound (B.view base.old) }
    requires front { IsFronted (B.view base.old) machine.old.front }
    ensures seen { Grows (B.view base.old) (B.view base.new) }
    ensures becomes { B.becomes base.old base.new }
    ensures others { (c : B.Cursor) (g : Goal) → B.serves base.old c g → B.serves base.new c g }
    ensures out { B.out base.new ≡ B.out base.old }
    ensures same { HasOnlyAsked machine.old machine.new }
    ensures erases { IfOk result (Erases host.now (B.view base.old) (B.view base.new) clause machine.old machine.new) }
{
    // The contract speaks of it.
    let _host = host;
    match base.erase(rt, clause) {
        Erased::Done => {
            take_front(base, machine)?;
            Ok(Erasure::Done)
        }
        Erased::Gone { .. } => {
            take_front(base, machine)?;
            Ok(Erasure::Gone)
        }
        Erased::Full { .. } => {
            take_front(base, machine)?;
            Ok(Erasure::Full)
        }
    }
}

/// Erases a clause whose head and body were made one with a call's; one that is gone is a failure.
pub(crate) fn retract_one<B: Base, R: Wait>(
    base: &mut B,
    machine: &mut Machine<B::Cursor>,
    host: &Host<'_>,
    clause: u64,
    rt: &R,
) -> Result<(), Want>
    requires named { (j : Journal) → Begins (B.view base.old) j → IsSome (clause_named (first_of (B.view base.old).seen j) clause) }
    requires changeable { (j : Journal) → Begins (B.view base.old) j → IsChangeable (first_of (B.view base.old).seen j) clause }
    requires host { IsHostOf host.now (B.view base.old) }
    requires sound { IsSound (B.view base.old) }
    requires front { IsFronted (B.view base.old) machine.old.front }
    ensures seen { Grows (B.view base.old) (B.view base.new) }
    ensures becomes { B.becomes base.old base.new }
    ensures others { (c : B.Cursor) (g : Goal) → B.serves base.old c g → B.serves base.new c g }
    ensures out { B.out base.new ≡ B.out base.old }
    ensures same { HasOnlyAsked machine.old machine.new }
    ensures asks { OnOk result (Asks (B.view base.old) (B.view base.new) (λ j s. serving (setting host.now machine.old j) ToErase clause s) machine.old machine.new) }
{
    match ask_erasure(base, machine, host, clause, rt)? {
        Erasure::Done => Ok(()),
        Erasure::Gone => {
            machine.mode = Mode::Failing;
            Ok(())
        }
        Erasure::Full => {
            let at = retract_indicator(host.alloc)?;
            machine.mode = Mode::Raising(no_room_at(host.alloc, &at)?);
            Ok(())
        }
    }
}

/// Takes the front that the base has.
pub(crate) fn take_front<B: Base>(base: &B, machine: &mut Machine<B::Cursor>) -> Result<(), Want>
    ensures same { HasOnlyAsked machine.old machine.new }
    ensures front { OnOk result (machine.new.front ≡ (B.view base.now).seen) }
    ensures fronts { OnOk result (machine.new.fronts.items ≡ machine.old.fronts.items ++ (B.view base.now).seen ∷ []) }
    ensures mode { machine.new.mode ≡ machine.old.mode }
    ensures sound { IsSound (B.view base.now) }
{
    let front = base.front();
    machine.fronts.push(front)?;
    machine.front = front;
    Ok(())
}
