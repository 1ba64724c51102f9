// What is still to be done.
ghost use Rattle.std.specs.Prelude.{◌≡◌, ◌≤◌, ◌∷◌, [], OnOk, OnErr, MatchOption, reverse};
ghost use Rattle.wam_machine.specs.Machine.{active_catch as catch_among};
ghost use Rattle.wam_machine.specs.Terms.{AreTerms, IsNext, IsBuilt, KeepsCells, said, built, next_now, frames_kept};

use crate::terms::{Frame, Next, Terms};
use prolog_terms::Want;

/// Takes what is to be done next; nothing is left where the answer is none. Frames that nothing leads to any more are
/// dropped.
pub(crate) fn take_next<C>(terms: &mut Terms<C>) -> Option<Next>
    requires terms { AreTerms terms.old }
    ensures terms { AreTerms terms.new }
    ensures names { terms.new.names ≡ terms.old.names }
    ensures none { MatchOption result ((said terms.old).goals ≡ []) (λ next. (said terms.old).goals ≡ next_now terms.new next ∷ (said terms.new).goals) }
    ensures next { MatchOption result (terms.new ≡ terms.old) (IsNext terms.new) }
    ensures same { said terms.new ≡ record (said terms.old) { goals = (said terms.new).goals } }
{
    if terms.next == 0 {
        return None;
    }
    let at = terms.next - 1;
    let frame = terms.frames[at];
    let kept = kept_frames(terms);
    terms.next = frame.next;
    terms.frames.truncate(at.max(kept));
    Some(frame.what)
}

/// How many frames the newest moment that may be gone back to may need.
fn kept_frames<C>(terms: &Terms<C>) -> usize
    ensures { result ≡ frames_kept (reverse terms.now.choices.items) }
{
    match terms.choices.last() {
        Some(choice) => choice.frames,
        None => 0,
    }
}

/// Puts something before what is still to be done.
pub(crate) fn push_next<C>(terms: &mut Terms<C>, what: Next) -> Result<(), Want>
    requires terms { AreTerms terms.old }
    requires next { IsNext terms.old what }
    ensures terms { AreTerms terms.new }
    ensures names { terms.new.names ≡ terms.old.names }
    ensures said { OnOk result (said terms.new ≡ record (said terms.old) { goals = next_now terms.old what ∷ (said terms.old).goals }) }
    ensures err { OnErr result (said terms.new ≡ said terms.old) }
    ensures cells { KeepsCells terms.old terms.new }
{
    terms.frames.push(Frame {
        what,
        next: terms.next,
    })?;
    terms.next = terms.frames.len();
    Ok(())
}

/// The innermost `catch` whose end is still to come, by the height of the stack with its mark on it.
pub(crate) fn active_catch<C>(terms: &Terms<C>) -> Option<usize>
    requires { AreTerms terms.now }
    ensures { result ≡ catch_among (said terms.now).goals }
{
    let mut left = terms.next;
    while left > 0 {
        let frame = terms.frames[left - 1];
        if let Next::CatchEnd(height) = frame.what {
            return Some(height);
        }
        left = frame.next;
    }
    None
}
