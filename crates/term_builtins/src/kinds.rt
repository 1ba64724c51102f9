// What a term is.
ghost use Rattle.std.specs.Prelude.{◌≡◌, length, IfOk, OnOk};
ghost use Rattle.term_store.specs.Terms.{term_of, HasTerm, AreNamed};
ghost use Rattle.term_store.specs.Heads.{IsFurther};
ghost use Rattle.term_builtins.specs.Meanings as means;
ghost use Rattle.term_builtins.specs.Answers.{IsAnswer};

use crate::answer::Answer;
use crate::table::Kind;
use prolog_terms::{Names, Want};
use term_store::{Cell, Store, View};

/// Whether what a cell stands for is of a kind.
pub(crate) fn is_of_kind(store: &Store, names: &Names, kind: Kind, cell: Cell) -> bool
    requires named { AreNamed (length names.now) store.now }
    requires valid { HasTerm (length names.now) store.now cell }
    ensures { result ≡ means.is_of_kind kind (term_of names.now store.now cell) }
{
    match store.look(cell) {
        View::Variable(_) => matches!(kind, Kind::Variable),
        View::Integer(_) => matches!(kind, Kind::Bound | Kind::Integer | Kind::Atomic),
        View::Atom(_) => matches!(
            kind,
            Kind::Bound | Kind::Atom | Kind::Atomic | Kind::Callable
        ),
        View::Compound(_, _) => matches!(kind, Kind::Bound | Kind::Compound | Kind::Callable),
    }
}

/// Whether two terms can't be made one; nothing is bound.
pub(crate) fn differ(
    store: &mut Store,
    names: &Names,
    left: Cell,
    right: Cell,
) -> Result<Answer, Want>
    requires named { AreNamed (length names.now) store.old }
    requires left { HasTerm (length names.now) store.old left }
    requires right { HasTerm (length names.now) store.old right }
    ensures further { IsFurther store.old names.now store.new names.now }
    ensures bindings { OnOk result (store.new.bindings ≡ store.old.bindings) }
    ensures answer { IfOk result (IsAnswer names.now store.old store.new (means.different (term_of names.now store.old left) (term_of names.now store.old right))) }
{
    store.known();
    let _ = names.count();
    let mark = store.mark();
    let is_one = store.unify(left, right)?;
    store.undo_to(mark);
    Ok(Answer::Holds(!is_one))
}
