// The terms of a run: what is still to be done, and what may be gone back to.
ghost use Rattle.std.specs.Prelude.{◌≡◌, []};

use journal_base::How;
use prolog_terms::{Names, Term};
use term_store::{Cell, Store, Trailed};

/// What becomes of a clause whose head and body were made one with a call's.
#[derive(Clone, Copy)]
pub(crate) enum Purpose {
    /// It is shown.
    Show,
    /// It is erased.
    Erase,
}

/// What a call does with the clauses that it tries.
#[derive(Clone, Copy)]
pub(crate) enum Use {
    /// A clause's head and the goal are made one, and the goals of its body come first.
    Enter,
    /// A clause's head and the goal are made one, and its body and this cell.
    Match(Purpose, Cell),
}

/// A call whose clauses are tried one after another: what it does with them, its goal, its procedure, and the cursor over the
/// clauses that are left.
pub(crate) struct Call<C> {
    pub used: Use,
    pub goal: Cell,
    pub procedure: u32,
    pub cursor: C,
}

/// A call that was looked up, and how its clauses were found.
pub(crate) struct Opened<C> {
    pub call: Call<C>,
    pub how: How,
}

/// What is still to be done.
#[derive(Clone, Copy)]
pub(crate) enum Next {
    /// A goal, and the height of the stack to which its cut goes back.
    Do(Cell, usize),
    /// The end of a condition, and the height of the stack before it.
    ConditionEnd(usize),
    /// The end of the goal of a `\+`, and the height of the stack before it.
    NotEnd(usize),
    /// The end of the goal of a `catch`, and the height of the stack with its mark on it.
    CatchEnd(usize),
    /// The end of the goal of a `findall`: its template, and the height of the stack with its mark on it.
    FindallEnd(Cell, usize),
}

/// What is still to be done, and the number of the frame with what comes after it; 0 is none.
#[derive(Clone, Copy)]
pub(crate) struct Frame {
    pub what: Next,
    pub next: usize,
}

/// How the machine goes on where it goes back.
pub(crate) enum Alternative<C> {
    /// With the clauses that are left of a call.
    Clauses(Call<C>),
    /// With the right side of a `;`, or an else, and the height to which its cut goes back.
    Right(Cell, usize),
    /// With a further turn of `repeat`.
    Again,
    /// Behind a `\+`. This is a mark, and no alternative.
    NotMark,
    /// With a ball that unifies with the catcher, by the call of the recovery; a failure goes further. This is a mark, too.
    CatchMark(Cell, Cell),
    /// Behind a `findall`, whose list is made one with that of the copies of its template that were found so far, each with
    /// variables numbered from 0. This is a mark, too.
    FindallMark(Cell, Vec<Term>),
}

/// A moment that may be gone back to: how the machine then goes on, what comes after that, how many frames it may stand in,
/// and the store's mark.
pub(crate) struct Choice<C> {
    pub what: Alternative<C>,
    pub next: usize,
    pub frames: usize,
    pub mark: Trailed,
}

/// The terms of a run, in a store: what is still to be done stands in frames, each of which leads on to one below it; the
/// moments that may be gone back to, the newest last, whose number is the height of the stack; and the term of which an
/// answer gives the value.
pub(crate) struct Terms<C> {
    pub store: Store,
    pub names: Names,
    pub shown: Cell,
    pub frames: Vec<Frame>,
    pub next: usize,
    pub choices: Vec<Choice<C>>,
}

/// Lets terms go that have no moment left to go back to.
pub(crate) fn let_go<C>(terms: Terms<C>)
    requires { terms.choices.items ≡ [] }
{
    let Terms {
        store: _,
        names: _,
        shown: _,
        frames: _,
        next: _,
        choices,
    } = terms;
    choices.destroy_empty();
}
