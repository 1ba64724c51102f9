// The scan for the next clause that a goal could match.
ghost use Rattle.std.specs.Prelude.{◌≡◌, ◌+◌, ◌*◌, ◌^◌, ◌<◌, ◌≤◌, ◌++◌, [], length, None, Some, IfSome, MatchOption, true, false, ◌-◌, slice_get};
ghost use Rattle.prolog_terms.specs.declared.entry.End.TheVariants.{Front, Back};
ghost use Rattle.journals.specs.Journal.{added, adds_to, is_erased};
ghost use Rattle.call_patterns.specs.Calls.{AreKeysOf};
ghost use Rattle.journal_base.specs.Fates.{AreToldBy};
ghost use Rattle.journal_base.specs.Goals.{goal_of};
ghost use Rattle.journal_base.specs.Looks.{given};
ghost use Rattle.journal_base.specs.Scan.{place, is_candidate, scan, left, listed};

use crate::Call;
use crate::fate::{Fate, fate_at, gone_by};
use crate::head::head_agrees;
use prolog_terms::{Clause, End, Entry, What};

/// A candidate, and the place of the scan behind it.
#[derive(Drop)]
pub(crate) struct Found {
    pub next: Option<u64>,
    pub at: usize,
}

/// The clause that the update adds to the procedure at this end.
fn adds(what: &What, end: End, procedure: u32) -> Option<&Clause>
    ensures { MatchOption result (adds_to end procedure what.now ≡ false) (λ c. (adds_to end procedure what.now ≡ true) × (added what.now ≡ Some c.now)) }
{
    match what {
        What::Add(at, number, clause) => {
            if end == *at && procedure == *number {
                Some(clause)
            } else {
                None
            }
        }
        _ => None,
    }
}

/// Whether one of the entries erases the clause.
fn erased(seen: &[Entry], fates: &[Fate], k: usize) -> bool
    requires fates { AreToldBy seen.now fates.now }
    requires within { k < length seen.now }
    ensures { result ≡ is_erased seen.now k }
{
    gone_by(fate_at(fates, k), seen.len() as u64)
}

#[tactic(auto, unfolding(crate::specs::Scan::place))]
fn place_at(len: usize, q: usize) -> (End, usize)
    requires small { len < 2 ^ 60 }
    requires place { q < 2 * len }
    ensures place { result ≡ place len q }
    ensures within { result.1 < len }
{
    if q < len {
        (End::Front, len - 1 - q)
    } else {
        (End::Back, q - len)
    }
}

fn entry_at(seen: &[Entry], k: usize) -> &Entry
    requires { k < length seen.now }
    ensures { slice_get seen.now k ≡ Some result.now }
{
    &seen[k]
}

/// The clause at a place of the scan, where it is a candidate. A clause of the procedure is counted as visited.
fn at_place(seen: &[Entry], fates: &[Fate], q: usize, call: &Call, visits: &mut u64) -> Option<u64>
    requires fates { AreToldBy seen.now fates.now }
    requires small { length seen.now < 2 ^ 60 }
    requires keys { AreKeysOf call.now.names.now call.now.keys.now.at }
    requires place { q < 2 * length seen.now }
    requires room { visits.old < 2 ^ 64 - 1 }
    ensures none { result ≡ None → is_candidate seen.now (goal_of call.now) (place (length seen.now) q) ≡ false }
    ensures some { IfSome result (λ k. (is_candidate seen.now (goal_of call.now) (place (length seen.now) q) ≡ true) × (k ≡ (place (length seen.now) q).1)) }
    ensures visits { visits.new + left seen.now call.now.procedure (q + 1) ≡ visits.old + left seen.now call.now.procedure q }
    ensures few { visits.old + given result ≤ visits.new }
    ensures one { visits.new ≤ visits.old + 1 }
{
    let (end, k) = place_at(seen.len(), q);
    let clause = match adds(&entry_at(seen, k).what, end, call.procedure) {
        None => return None,
        Some(clause) => clause,
    };
    *visits += 1;
    if !erased(seen, fates, k) && head_agrees(clause, call) {
        Some(k as u64)
    } else {
        None
    }
}

/// The first candidate from a place of the scan on, and the place behind it. The clauses of the procedure that are passed
/// are counted as visited.
pub(crate) fn seek(
    seen: &[Entry],
    fates: &[Fate],
    from: usize,
    call: &Call,
    visits: &mut u64,
) -> Found
    requires fates { AreToldBy seen.now fates.now }
    requires small { length seen.now < 2 ^ 60 }
    requires keys { AreKeysOf call.now.names.now call.now.keys.now.at }
    requires from { from ≤ 2 * length seen.now }
    requires room { visits.old + 2 * length seen.now < 2 ^ 64 }

    ensures found { scan seen.now (goal_of call.now) from ≡ listed result.next ++ scan seen.now (goal_of call.now) result.at }
    ensures end { result.next ≡ None → scan seen.now (goal_of call.now) result.at ≡ [] }
    ensures at { result.at ≤ 2 * length seen.now }
    ensures visits { visits.new + left seen.now call.now.procedure result.at ≡ visits.old + left seen.now call.now.procedure from }
    ensures ahead { visits.old + given result.next ≤ visits.new }
{
    for q in from..2 * seen.len() {
        if let Some(k) = at_place(seen, fates, q, call, visits) {
            return Found {
                next: Some(k),
                at: q + 1,
            };
        }
    }
    Found {
        next: None,
        at: 2 * seen.len(),
    }
}
