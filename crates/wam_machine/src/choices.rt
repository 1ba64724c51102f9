// The stack: the moments that may be gone back to.
ghost use Rattle.std.specs.Prelude.{◌≡◌, ℕ, ◌≤◌, ◌++◌, ◌∷◌, [], OnOk, OnErr, MatchOption, Option, None, Some, length, true, false};
ghost use Rattle.wam_machine.specs.Terms.{AreTerms, IsTurn, HasPlace, KeepsCells, HasNewest, Saved, found_in, said, built, saved_now, turn_of, is_open, is_any_open};
ghost use Rattle.prolog_terms.specs.Tree.{Tree};
ghost use Rattle.wam_machine.specs.Choices.{IsCallOf, IsNewest};

use crate::terms::{Alternative, Call, Choice, Terms};
use prolog_terms::{Term, Want};
use term_store::Cell;

/// What the newest moment that may be gone back to is.
pub(crate) enum Newest {
    /// There is none.
    Nothing,
    /// An alternative.
    Open,
    /// The mark of a `\+`, or of a `findall`.
    Mark,
    /// The mark of a `catch`.
    Catch,
}

/// What the newest moment is.
pub(crate) fn see_newest<C>(terms: &Terms<C>) -> Newest
    ensures { IsNewest (said terms.now).stack result }
{
    match terms.choices.last() {
        None => Newest::Nothing,
        Some(choice) => match &choice.what {
            Alternative::NotMark => Newest::Mark,
            Alternative::FindallMark(_, _) => Newest::Mark,
            Alternative::CatchMark(_, _) => Newest::Catch,
            _ => Newest::Open,
        },
    }
}

/// The height of the stack.
pub(crate) fn height<C>(terms: &Terms<C>) -> usize
    ensures { result ≡ length (said terms.now).stack }
{
    terms.choices.len()
}

/// Whether an alternative is left: marks are none. Where an answer is given the newest moment is no mark, so this looks no
/// further.
pub(crate) fn any_open<C>(terms: &Terms<C>) -> bool
    ensures { result ≡ is_any_open (said terms.now).stack }
{
    let mut left = terms.choices.len();
    while left > 0 {
        left -= 1;
        if is_alternative(&terms.choices[left].what) {
            return true;
        }
    }
    false
}

/// Takes memory for one more moment.
pub(crate) fn make_place<C>(terms: &mut Terms<C>) -> Result<(), Want>
    requires terms { AreTerms terms.old }
    ensures terms { AreTerms terms.new }
    ensures names { terms.new.names ≡ terms.old.names }
    ensures said { said terms.new ≡ said terms.old }
    ensures cells { KeepsCells terms.old terms.new }
    ensures place { OnOk result (HasPlace terms.new) }
{
    terms.choices.reserve(1)?;
    Ok(())
}

/// Saves this moment: a failure comes back to it, and then goes on so.
pub(crate) fn save<C>(terms: &mut Terms<C>, what: Alternative<C>)
    requires terms { AreTerms terms.old }
    requires turn { IsTurn terms.old what }
    requires place { HasPlace terms.old }
    ensures terms { AreTerms terms.new }
    ensures names { terms.new.names ≡ terms.old.names }
    ensures said { said terms.new ≡ record (said terms.old) { stack = (said terms.old).stack ++ saved_now terms.old what ∷ [] } }
    ensures cells { KeepsCells terms.old terms.new }
{
    let mark = terms.store.mark();
    let frames = terms.frames.len();
    terms.choices.push_reserved(Choice {
        what,
        next: terms.next,
        frames,
        mark,
    });
}

/// Goes back to the newest moment, and takes it off.
pub(crate) fn go_back<C>(terms: &mut Terms<C>) -> Option<Alternative<C>>
    requires terms { AreTerms terms.old }
    ensures terms { AreTerms terms.new }
    ensures names { terms.new.names ≡ terms.old.names }
    ensures none { MatchOption result ((said terms.old).stack ≡ []) (λ what. (said terms.old).stack ≡ (said terms.new).stack ++ saved_now terms.new what ∷ []) }
    ensures turn { MatchOption result (terms.new ≡ terms.old) (IsTurn terms.new) }
    ensures fresh { (said terms.new).fresh ≡ (said terms.old).fresh }
    ensures shown { (said terms.new).shown ≡ (said terms.old).shown }
{
    if terms.choices.is_empty() {
        return None;
    }
    let Choice {
        what,
        next,
        frames,
        mark,
    } = terms.choices.pop()?;
    terms.store.undo_to(mark);
    terms.frames.truncate(frames);
    terms.next = next;
    Some(what)
}

/// Takes the newest moment away without going back to it. Its call is handed back, where it is one.
pub(crate) fn drop_newest<C>(terms: &mut Terms<C>) -> Option<Call<C>>
    requires some { 1 ≤ length (said terms.old).stack }
    ensures terms { AreTerms terms.old → AreTerms terms.new }
    ensures names { terms.new.names ≡ terms.old.names }
    ensures said { said terms.new ≡ record (said terms.old) { stack = (said terms.new).stack } }
    ensures dropped { (s : Saved C) × (((said terms.old).stack ≡ (said terms.new).stack ++ s ∷ []) × IsCallOf s.turn result) }
{
    let Choice {
        what,
        next: _,
        frames: _,
        mark: _,
    } = terms.choices.pop()?;
    match what {
        Alternative::Clauses(call) => Some(call),
        Alternative::Right(_, _) => None,
        Alternative::Again => None,
        Alternative::NotMark => None,
        Alternative::CatchMark(_, _) => None,
        Alternative::FindallMark(_, _found) => None,
    }
}

/// Adds a copy to those that the mark of a `findall` keeps, with which the stack has this height.
pub(crate) fn add_found<C>(terms: &mut Terms<C>, height: usize, copy: Term) -> Result<(), Want>
    requires terms { AreTerms terms.old }
    ensures terms { AreTerms terms.new }
    ensures said { OnOk result (said terms.new ≡ record (said terms.old) { stack = found_in height copy (said terms.old).stack }) }
    ensures err { OnErr result ((said terms.new).stack ≡ (said terms.old).stack) }
{
    if height == 0 || height > terms.choices.len() {
        return Ok(());
    }
    if let Alternative::FindallMark(_, found) = &mut terms.choices[height - 1].what {
        found.push(copy)?;
    }
    Ok(())
}

/// Whether it is an alternative, and no mark.
fn is_alternative<C>(what: &Alternative<C>) -> bool
    ensures { (tree : Cell → Tree) → result ≡ is_open (turn_of tree what.now) }
{
    match what {
        Alternative::NotMark => false,
        Alternative::CatchMark(_, _) => false,
        Alternative::FindallMark(_, _) => false,
        _ => true,
    }
}
