// Values of arithmetic terms.
ghost use Rattle.std.specs.Prelude.{◌≡◌, length, IfOk, OnOk};
ghost use Rattle.prolog_arith.specs.Arithmetic.{evaluated};
ghost use Rattle.term_store.specs.Terms.{term_of, HasTerm, AreNamed};
ghost use Rattle.term_builtins.specs.Meanings.{valued, compared_numbers};
ghost use Rattle.term_builtins.specs.Answers.{IsAnswer};

use crate::answer::Answer;
use crate::orders::relates;
use crate::table::Relation;
use prolog_arith::{EvalFault, eval};
use prolog_terms::{Names, Want};
use std::alloc::Global;
use term_store::{Cell, Store};

/// `X is E`
pub(crate) fn evaluate(
    alloc: Global,
    store: &Store,
    names: &Names,
    left: Cell,
    right: Cell,
) -> Result<Answer, Want>
    requires named { AreNamed (length names.now) store.now }
    requires left { HasTerm (length names.now) store.now left }
    requires right { HasTerm (length names.now) store.now right }
    ensures answer { IfOk result (IsAnswer names.now store.now store.now (valued (term_of names.now store.now left) (evaluated (term_of names.now store.now right)))) }
{
    match eval(alloc, store, names, right) {
        Ok(value) => Ok(Answer::Equates(left, Cell::Integer(value))),
        Err(EvalFault::Fault(fault)) => Ok(Answer::Raises(fault)),
        Err(EvalFault::Want) => Err(Want),
    }
}

/// Whether the values of two arithmetic terms stand so; the left one's fault comes first.
pub(crate) fn numbers(
    alloc: Global,
    store: &Store,
    names: &Names,
    relation: Relation,
    left: Cell,
    right: Cell,
) -> Result<Answer, Want>
    requires named { AreNamed (length names.now) store.now }
    requires left { HasTerm (length names.now) store.now left }
    requires right { HasTerm (length names.now) store.now right }
    ensures answer { IfOk result (IsAnswer names.now store.now store.now (compared_numbers relation (term_of names.now store.now left) (term_of names.now store.now right))) }
{
    let first = match eval(alloc, store, names, left) {
        Ok(value) => value,
        Err(EvalFault::Fault(fault)) => return Ok(Answer::Raises(fault)),
        Err(EvalFault::Want) => return Err(Want),
    };
    match eval(alloc, store, names, right) {
        Ok(second) => Ok(Answer::Holds(relates(relation, first.cmp(&second)))),
        Err(EvalFault::Fault(fault)) => Ok(Answer::Raises(fault)),
        Err(EvalFault::Want) => Err(Want),
    }
}
