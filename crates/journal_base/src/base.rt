// A database: a journal that may only grow, and looks for the clauses that a goal could match.
ghost use Rattle.std.specs.Prelude.{◌≡◌, ℕ, ◌+◌, ◌^◌, ◌<◌, ◌≤◌, List, length, take, IfOk, Some, IsSome};
ghost use Rattle.prolog_terms.specs.declared.entry.What.TheVariants.{Declare, Add, Erase};
ghost use Rattle.journals.specs.Journal.{Journal, procedures, clause_named, procedure_named};
ghost use Rattle.journal_base.specs.Legal.{MayChange, MayChangeClause, MayAdd};
ghost use Rattle.call_patterns.specs.Candidates.{candidates};
ghost use Rattle.call_patterns.specs.Calls.{AreKeysOf};
ghost use Rattle.journal_base.specs.Goals.{Goal};
ghost use Rattle.journal_base.specs.View.{View, IsSound, Looks, InSeen, Out, opened, Gives, has_more};

use crate::{Added, Call, Declared, Erased, How, Sizes, Tally};
use prolog_terms::{Clause, End, Indicator, Kind, Want};
use std::sync::Wait;

/// What a look answers: a cursor over the clauses, and how they were found.
pub struct Look<C> {
    pub cursor: C,
    pub how: How,
}

/// A database as one engine sees it: a legal journal, of which it has seen a prefix, its front. Others may make the journal
/// longer meanwhile. So a base stands for journals, at least one, and what a call says holds of each journal for which the
/// base stands after the call; each of these has a prefix, no shorter than the front before the call, for which it stood
/// before. A refused update adds no entry, and no call but an update that is done adds an entry by the base's engine.
pub trait Base: Drop {
    ghost use Rattle.journal_base.specs.Goals.{goal_of};
    ghost use Rattle.journal_base.specs.Looks.{IsFair, TellsOnly, CountsLook, CountsVisits, HasRoom, allowance, most_raised, given};
    ghost use Rattle.journal_base.specs.Updates.{IsDeclared, IsAdded, IsErased};

    /// The clauses of a look that are still to come. It is given back by `drop_cursor`.
    type Cursor;

    // What it shows: the journals for which it stands, how much of them it has seen, its engine, sizes and causes, and the
    // entries of its engine.
    ghost view: { Self → View };

    // How many of its cursors were not dropped, in all and of each group that shares a hold.
    ghost out: { Self → Out };

    // What its calls do to it beyond what it shows: each call makes of a base what this relation allows, so that whoever
    // lends a base knows it again afterwards.
    ghost becomes: { Self → Self → Type 0 };

    // The cursor is of a look of this base for this goal; it may be used as long as a cursor of its group is out.
    ghost serves: { Self → Self.Cursor → Goal → Type 0 };

    ghost group: { Self.Cursor → ℕ };

    // The front of its look.
    ghost looked_at: { Self.Cursor → ℕ };

    // The clauses still to come, for a goal in a journal.
    ghost rest: { Self.Cursor → Goal → Journal → List ℕ };

    // The visits that it may still make, for a goal in a journal, and how many clauses it has visited ahead.
    ghost may_visit: { Self.Cursor → Goal → Journal → ℕ };

    ghost ahead: { Self.Cursor → ℕ };

    /// How much of the journal is seen.
    fn front(&self) -> u64
        ensures front { result ≡ (view self.now).seen }
        ensures sound { IsSound (view self.now) };

    /// The engine that it serves.
    fn number(&self) -> u32
        ensures { result ≡ (view self.now).number };

    /// How many words its journal may use, and how many updates it may have.
    fn limits(&self) -> Sizes
        ensures words { result.words ≡ (view self.now).words }
        ensures updates { result.updates ≡ (view self.now).updates };

    /// Looks up the clauses of a procedure that could match a goal, at the front of that moment: exactly its candidates, in
    /// order. The tally counts the look, and how its clauses were found.
    fn look(&mut self, call: &Call, tally: &mut Tally) -> Look<Self::Cursor>
        requires declared { InSeen (view self.old) (λ J. call.now.procedure < length (procedures J)) }
        requires keys { AreKeysOf call.now.names.now call.now.keys.now.at }
        requires room { (out self.old).all < 2 ^ 63 }
        requires tally { HasRoom tally.old }

        ensures becomes { becomes self.old self.new }
        ensures seen { Looks (view self.old) (view self.new) }
        ensures clauses { InSeen (view self.new) (λ J. rest result.cursor (goal_of call.now) J ≡ candidates J call.now.procedure (goal_of call.now).keys) }
        ensures at { looked_at result.cursor ≡ (view self.new).seen }

        ensures serves { serves self.new result.cursor (goal_of call.now) }
        ensures others { (c : Self.Cursor) (g : Goal) → serves self.old c g → serves self.new c g }
        ensures out { out self.new ≡ opened (group result.cursor) (out self.old) }

        ensures fair { InSeen (view self.new) (IsFair (view self.old).seen (goal_of call.now) result.how) }
        ensures causes { TellsOnly (view self.new).causes result.how }
        ensures counts { CountsLook tally.old tally.new result.how }
        ensures visits { InSeen (view self.new) (λ J. tally.new.visits + may_visit result.cursor (goal_of call.now) J ≤ tally.old.visits + allowance J (goal_of call.now) result.how) }
        ensures raised { InSeen (view self.new) (λ J. tally.new.visits + may_visit result.cursor (goal_of call.now) J ≤ tally.old.visits + most_raised) }
        ensures ahead { tally.old.visits + ahead result.cursor ≤ tally.new.visits };

    /// The next clause of a cursor, for the goal of its look. The tally counts the clauses visited.
    fn next(&mut self, cursor: &mut Self::Cursor, call: &Call, tally: &mut Tally) -> Option<u64>
        requires serves { serves self.old cursor.old (goal_of call.now) }
        requires out { 0 < (out self.old).of_group (group cursor.old) }
        requires keys { AreKeysOf call.now.names.now call.now.keys.now.at }
        requires tally { HasRoom tally.old }

        ensures becomes { becomes self.old self.new }
        ensures seen { Looks (view self.old) (view self.new) }
        ensures gives { InSeen (view self.new) (λ J. Gives result (rest cursor.old (goal_of call.now) J) (rest cursor.new (goal_of call.now) J)) }
        ensures at { looked_at cursor.new ≡ looked_at cursor.old }
        ensures group { group cursor.new ≡ group cursor.old }

        ensures serves { serves self.new cursor.new (goal_of call.now) }
        ensures others { (c : Self.Cursor) (g : Goal) → serves self.old c g → serves self.new c g }
        ensures out { out self.new ≡ out self.old }

        ensures counts { CountsVisits tally.old tally.new }
        ensures visits { InSeen (view self.new) (λ J. tally.new.visits + may_visit cursor.new (goal_of call.now) J ≤ tally.old.visits + may_visit cursor.old (goal_of call.now) J) }
        ensures ahead { tally.old.visits + given result + ahead cursor.new ≤ tally.new.visits + ahead cursor.old };

    /// Whether a clause is still to come.
    fn more(&self, cursor: &Self::Cursor) -> bool
        requires serves { (g : Goal) × serves self.now cursor.now g }
        requires out { 0 < (out self.now).of_group (group cursor.now) }
        ensures { (g : Goal) → serves self.now cursor.now g → InSeen (view self.now) (λ J. result ≡ has_more (rest cursor.now g J)) };

    /// Gives a cursor back, with its hold. Each cursor must be given back.
    fn drop_cursor(&mut self, cursor: Self::Cursor)
        requires serves { (g : Goal) × serves self.old cursor g }
        requires out { 0 < (out self.old).of_group (group cursor) }
        ensures becomes { becomes self.old self.new }
        ensures seen { Looks (view self.old) (view self.new) }
        ensures out { out self.old ≡ opened (group cursor) (out self.new) }
        ensures others { (c : Self.Cursor) (g : Goal) → serves self.old c g → 0 < (out self.new).of_group (group c) → serves self.new c g };

    /// The clause of a name, which was added in what is seen.
    fn fetch(&mut self, clause: u64) -> Result<Clause, Want>
        requires { InSeen (view self.old) (λ J. IsSome (clause_named J clause)) }
        ensures becomes { becomes self.old self.new }
        ensures seen { Looks (view self.old) (view self.new) }
        ensures others { (c : Self.Cursor) (g : Goal) → serves self.old c g → serves self.new c g }
        ensures out { out self.new ≡ out self.old }
        ensures clause { IfOk result (λ c. InSeen (view self.new) (λ J. clause_named J clause ≡ Some c)) };

    /// The number and kind of the procedure with this indicator, in what is seen when the call returns.
    fn find(&mut self, indicator: &Indicator) -> Option<(u32, Kind)>
        ensures becomes { becomes self.old self.new }
        ensures seen { Looks (view self.old) (view self.new) }
        ensures others { (c : Self.Cursor) (g : Goal) → serves self.old c g → serves self.new c g }
        ensures out { out self.new ≡ out self.old }
        ensures found { InSeen (view self.new) (λ J. result ≡ procedure_named J indicator.now) };

    /// Declares a procedure; a static one for engine 0 alone. It waits for its turn. Memory is taken first; then a procedure
    /// that is declared already is told, and then want of room.
    fn declare<R: Wait>(&mut self, rt: &R, indicator: &Indicator, kind: Kind) -> Declared
        requires { MayChange kind (view self.old).number }
        ensures becomes { becomes self.old self.new }
        ensures declared { IsDeclared (view self.old) (view self.new) indicator.now kind result }
        ensures others { (c : Self.Cursor) (g : Goal) → serves self.old c g → serves self.new c g }
        ensures out { out self.new ≡ out self.old };

    /// Adds a clause to a procedure of its head's indicator, at an end. It waits for its turn. Memory is taken first.
    fn add<R: Wait>(&mut self, rt: &R, end: End, procedure: u32, clause: &Clause) -> Added
        requires { InSeen (view self.old) (λ J. MayAdd J (view self.old).number procedure clause.now) }
        ensures becomes { becomes self.old self.new }
        ensures added { IsAdded (view self.old) (view self.new) (Add end procedure clause.now) result }
        ensures others { (c : Self.Cursor) (g : Goal) → serves self.old c g → serves self.new c g }
        ensures out { out self.new ≡ out self.old };

    /// Erases a clause that was added in what is seen. It waits for its turn. That the clause is gone is told before want of
    /// room.
    fn erase<R: Wait>(&mut self, rt: &R, clause: u64) -> Erased
        requires added { InSeen (view self.old) (λ J. IsSome (clause_named J clause)) }
        requires permitted { InSeen (view self.old) (λ J. MayChangeClause J (view self.old).number clause) }
        ensures becomes { becomes self.old self.new }
        ensures erased { IsErased (view self.old) (view self.new) clause result }
        ensures others { (c : Self.Cursor) (g : Goal) → serves self.old c g → serves self.new c g }
        ensures out { out self.new ≡ out self.old };

    // A cursor's clauses, and the visits that it may make, depend on the journal up to its look's front alone.
    ghost rest_local: { (c : Self.Cursor) (g : Goal) (J K : Journal) → take (looked_at c) J ≡ take (looked_at c) K → rest c g J ≡ rest c g K };

    ghost visits_local: { (c : Self.Cursor) (g : Goal) (J K : Journal) → take (looked_at c) J ≡ take (looked_at c) K → may_visit c g J ≡ may_visit c g K };

    // Calls follow each other.
    ghost becomes_itself: { (b : Self) → becomes b b };

    ghost becomes_further: { (a b c : Self) → becomes a b → becomes b c → becomes a c };

    // A cursor's look was at a front that is seen.
    ghost looked_seen: { (b : Self) (c : Self.Cursor) (g : Goal) → serves b c g → looked_at c ≤ (view b).seen };
}
