// The standard order.
ghost use Rattle.std.specs.Prelude.{◌≡◌, length, IfOk, OnOk, IfSome, IfNone};
ghost use Rattle.term_store.specs.Terms.{term_of, HasTerm, AreNamed};
ghost use Rattle.term_store.specs.Heads.{IsFurther};
ghost use Rattle.term_builtins.specs.Meanings as means;
ghost use Rattle.term_builtins.specs.Meanings.{comparing, is_sign, equal, Raises};
ghost use Rattle.term_builtins.specs.Answers.{IsAnswer};
ghost use Rattle.prolog_terms.specs.Tree.{Tree, atom};
ghost use Rattle.prolog_terms.specs.Order.{standard_order};

use crate::answer::Answer;
use crate::faults::{domain_error, type_error};
use crate::table::Relation;
use prolog_terms::{Fault, Names, Want};
use std::alloc::Global;
use std::cmp::Ordering;
use term_store::{Cell, Store, View};

/// Whether an order is in a relation.
pub(crate) fn relates(relation: Relation, order: Ordering) -> bool
    ensures { result ≡ means.relates relation order }
{
    match relation {
        Relation::Less => order.is_lt(),
        Relation::AtMost => order.is_le(),
        Relation::Greater => order.is_gt(),
        Relation::AtLeast => order.is_ge(),
        Relation::Equal => order.is_eq(),
        Relation::Different => order.is_ne(),
    }
}

/// Whether two terms stand so in the standard order.
pub(crate) fn ordered(
    store: &Store,
    names: &Names,
    relation: Relation,
    left: Cell,
    right: Cell,
) -> Result<Answer, Want>
    requires named { AreNamed (length names.now) store.now }
    requires left { HasTerm (length names.now) store.now left }
    requires right { HasTerm (length names.now) store.now right }
    ensures answer { IfOk result (IsAnswer names.now store.now store.now (means.ordered relation (term_of names.now store.now left) (term_of names.now store.now right))) }
{
    let order = store.compare_cells(names, left, right)?;
    Ok(Answer::Holds(relates(relation, order)))
}

/// `compare(O, A, B)`
pub(crate) fn compare(
    alloc: Global,
    store: &Store,
    names: &mut Names,
    order: Cell,
    left: Cell,
    right: Cell,
) -> Result<Answer, Want>
    requires named { AreNamed (length names.old) store.now }
    requires order { HasTerm (length names.old) store.now order }
    requires left { HasTerm (length names.old) store.now left }
    requires right { HasTerm (length names.old) store.now right }
    ensures further { IsFurther store.now names.old store.now names.new }
    ensures answer { IfOk result (IsAnswer names.new store.now store.now (comparing (term_of names.new store.now order) (term_of names.new store.now left) (term_of names.new store.now right))) }
{
    store.known();
    match order_fault(alloc, store, names, order)? {
        Some(fault) => Ok(Answer::Raises(fault)),
        None => equate_sign(store, names, order, left, right),
    }
}

/// What `compare` raises where its first argument is neither a variable nor an order.
fn order_fault(
    alloc: Global,
    store: &Store,
    names: &Names,
    order: Cell,
) -> Result<Option<Fault>, Want>
    requires named { AreNamed (length names.now) store.now }
    requires valid { HasTerm (length names.now) store.now order }
    ensures raised { IfOk result (λ found. IfSome found (λ fault. (left right : Tree) → comparing (term_of names.now store.now order) left right ≡ Raises fault)) }
    ensures free { IfOk result (λ found. IfNone found ((left right : Tree) → comparing (term_of names.now store.now order) left right ≡ equal (term_of names.now store.now order) (means.sign_of (standard_order left right)))) }
{
    match store.look(order) {
        View::Variable(_) => Ok(None),
        View::Atom(name) => {
            if is_order(names.text(name)) {
                return Ok(None);
            }
            let fault = domain_error(alloc, store, names, b"order", order)?;
            Ok(Some(fault))
        }
        _ => {
            let fault = type_error(alloc, store, names, b"atom", order)?;
            Ok(Some(fault))
        }
    }
}

/// A cell is to be made one with the name of the order of two terms.
fn equate_sign(
    store: &Store,
    names: &mut Names,
    order: Cell,
    left: Cell,
    right: Cell,
) -> Result<Answer, Want>
    requires named { AreNamed (length names.old) store.now }
    requires order { HasTerm (length names.old) store.now order }
    requires left { HasTerm (length names.old) store.now left }
    requires right { HasTerm (length names.old) store.now right }
    ensures further { IsFurther store.now names.old store.now names.new }
    ensures answer { IfOk result (IsAnswer names.new store.now store.now (equal (term_of names.new store.now order) (means.sign_of (standard_order (term_of names.new store.now left) (term_of names.new store.now right))))) }
{
    store.known();
    let found = store.compare_cells(names, left, right)?;
    let sign = names.intern(sign_of(found))?;
    Ok(Answer::Equates(order, Cell::Atom(sign)))
}

/// Whether it is `<`, `=` or `>`.
fn is_order(name: &[u8]) -> bool
    ensures { result ≡ is_sign name.now }
{
    name == b"<".as_slice() || name == b"=".as_slice() || name == b">".as_slice()
}

/// The name of an order.
fn sign_of(order: Ordering) -> &'static [u8]
    ensures { means.sign_of order ≡ atom result.now }
{
    match order {
        Ordering::Less => b"<",
        Ordering::Equal => b"=",
        Ordering::Greater => b">",
    }
}
