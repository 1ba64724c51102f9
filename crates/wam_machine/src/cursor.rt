// Calls over a base: their clauses, one after another.
ghost use Rattle.std.specs.Prelude.{◌≡◌, ℕ, ◌+◌, ◌^◌, ◌<◌, ◌≤◌, length, take, IfOk, Some, IsSome};
ghost use Rattle.call_patterns.specs.Keys.{keys as keys_in};
ghost use Rattle.call_patterns.specs.Calls.{AreKeysOf, goal_keys};
ghost use Rattle.journal_base.specs.Goals.{Goal};
ghost use Rattle.journals.specs.Journal.{Journal, procedures, clause_named};
ghost use Rattle.journal_base.specs.Looks.{CountsLook, CountsVisits, HasRoom, given};
ghost use Rattle.journal_base.specs.View.{Looks, InSeen, Gives, has_more, opened};
ghost use Rattle.prolog_terms.specs.Clauses.{IsClause};
ghost use Rattle.wam_machine.specs.Terms.{Left, built, call_now, use_of};
ghost use Rattle.wam_machine.specs.Cursors.{Begins, IsOpenTo, goal_of, names_left, visits_left, IsOpened};

use crate::terms::{Call, Opened, Terms, Use};
use call_patterns::Keys;
use journal_base::{Base, Look, Tally};
use prolog_terms::{Clause, Want};
use term_store::Cell;

/// Looks up the clauses of a call.
pub(crate) fn open<B: Base>(
    base: &mut B,
    terms: &Terms<B::Cursor>,
    used: Use,
    goal: Cell,
    procedure: u32,
    keys: &Keys,
    tally: &mut Tally,
) -> Opened<B::Cursor>
    requires may { (j : Journal) → Begins (B.view base.old) j → IsOpenTo (use_of (built terms.now) used) (take (B.view base.old).seen j) procedure }
    requires declared { InSeen (B.view base.old) (λ J. procedure < length (procedures J)) }
    requires keys { AreKeysOf terms.now.names keys.now.at }
    requires of { goal_keys terms.now.names keys.now.at ≡ keys_in (built terms.now goal) }
    requires room { (B.out base.old).all < 2 ^ 63 }
    requires tally { HasRoom tally.old }

    ensures seen { Looks (B.view base.old) (B.view base.new) }
    ensures becomes { B.becomes base.old base.new }
    ensures used { result.call.used ≡ used }
    ensures goal { result.call.goal ≡ goal }
    ensures procedure { result.call.procedure ≡ procedure }
    ensures at { B.looked_at result.call.cursor ≡ (B.view base.new).seen }
    ensures serves { B.serves base.new result.call.cursor (goal_of (call_now terms.now result.call)) }
    ensures others { (c : B.Cursor) (g : Goal) → B.serves base.old c g → B.serves base.new c g }
    ensures out { B.out base.new ≡ opened (B.group result.call.cursor) (B.out base.old) }

    ensures opened { (before : ℕ) → before ≤ (B.view base.old).seen → (j : Journal) → Begins (B.view base.new) j
        → IsOpened B.rest B.may_visit B.looked_at (B.view base.new).causes before j (call_now terms.now result.call) result.how tally.old tally.new }
    ensures counts { CountsLook tally.old tally.new result.how }
    ensures ahead { tally.old.visits + B.ahead result.call.cursor ≤ tally.new.visits }
{
    let asked = journal_base::Call {
        procedure,
        keys,
        names: &terms.names,
    };
    let Look { cursor, how } = base.look(&asked, tally);
    let opened = Opened {
        call: Call {
            used,
            goal,
            procedure,
            cursor,
        },
        how,
    };
    opened
}

/// The name of the next clause that is left of a call.
pub(crate) fn next<B: Base>(
    base: &mut B,
    terms: &Terms<B::Cursor>,
    call: &mut Call<B::Cursor>,
    keys: &Keys,
    tally: &mut Tally,
) -> Option<u64>
    requires serves { B.serves base.old call.old.cursor (goal_of (call_now terms.now call.old)) }
    requires out { 0 < (B.out base.old).of_group (B.group call.old.cursor) }
    requires keys { AreKeysOf terms.now.names keys.now.at }
    requires of { goal_keys terms.now.names keys.now.at ≡ keys_in (built terms.now call.old.goal) }
    requires tally { HasRoom tally.old }

    ensures seen { Looks (B.view base.old) (B.view base.new) }
    ensures becomes { B.becomes base.old base.new }
    ensures used { call.new.used ≡ call.old.used }
    ensures goal { call.new.goal ≡ call.old.goal }
    ensures procedure { call.new.procedure ≡ call.old.procedure }
    ensures at { B.looked_at call.new.cursor ≡ B.looked_at call.old.cursor }
    ensures group { B.group call.new.cursor ≡ B.group call.old.cursor }
    ensures serves { B.serves base.new call.new.cursor (goal_of (call_now terms.now call.new)) }
    ensures others { (c : B.Cursor) (g : Goal) → B.serves base.old c g → B.serves base.new c g }
    ensures out { B.out base.new ≡ B.out base.old }

    ensures gives { (j : Journal) → Begins (B.view base.new) j → Gives result (names_left B.rest B.looked_at j (call_now terms.now call.old)) (names_left B.rest B.looked_at j (call_now terms.now call.new)) }
    ensures visits { (j : Journal) → Begins (B.view base.new) j
        → tally.new.visits + visits_left B.may_visit B.looked_at j (call_now terms.now call.new) ≤ tally.old.visits + visits_left B.may_visit B.looked_at j (call_now terms.now call.old) }
    ensures counts { CountsVisits tally.old tally.new }
    ensures ahead { tally.old.visits + given result + B.ahead call.new.cursor ≤ tally.new.visits + B.ahead call.old.cursor }
{
    let asked = journal_base::Call {
        procedure: call.procedure,
        keys,
        names: &terms.names,
    };
    base.next(&mut call.cursor, &asked, tally)
}

/// Whether a clause is left of a call.
pub(crate) fn more<B: Base>(base: &B, call: &Call<B::Cursor>) -> bool
    requires serves { (g : Goal) × B.serves base.now call.now.cursor g }
    requires out { 0 < (B.out base.now).of_group (B.group call.now.cursor) }
    ensures { (c : Left B.Cursor) → c.cursor ≡ call.now.cursor → B.serves base.now c.cursor (goal_of c)
        → (j : Journal) → Begins (B.view base.now) j → result ≡ has_more (names_left B.rest B.looked_at j c) }
{
    base.more(&call.cursor)
}

/// A clause of a call, by its name.
pub(crate) fn fetch<B: Base>(
    base: &mut B,
    call: &Call<B::Cursor>,
    name: u64,
) -> Result<Clause, Want>
    requires serves { (g : Goal) × B.serves base.old call.now.cursor g }
    requires named { (j : Journal) → Begins (B.view base.old) j → IsSome (clause_named (take (B.looked_at call.now.cursor) j) name) }
    ensures seen { Looks (B.view base.old) (B.view base.new) }
    ensures becomes { B.becomes base.old base.new }
    ensures others { (c : B.Cursor) (g : Goal) → B.serves base.old c g → B.serves base.new c g }
    ensures out { B.out base.new ≡ B.out base.old }
    ensures clause { IfOk result (λ c. (j : Journal) → Begins (B.view base.new) j → clause_named (take (B.looked_at call.now.cursor) j) name ≡ Some c) }
    ensures body { IfOk result IsClause }
{
    // The contract speaks of it.
    let _call = call;
    base.fetch(name)
}
