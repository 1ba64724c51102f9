// A term as the list of its name and its arguments.
ghost use Rattle.std.specs.Prelude.{◌≡◌, All, map, length, IfOk, OnOk};
ghost use Rattle.term_store.specs.Terms.{term_of, HasTerm, AreNamed};
ghost use Rattle.term_store.specs.Heads.{IsFurther};
ghost use Rattle.term_builtins.specs.Meanings as means;
ghost use Rattle.term_builtins.specs.Meanings.{of_list, from_elements, put_together, list_tree};
ghost use Rattle.term_builtins.specs.Answers.{IsAnswer};

use crate::answer::Answer;
use crate::compounds::is_variable;
use crate::faults::{domain_error, too_many, type_error};
use crate::lists::{elements_of, is_nil, put_list};
use prolog_terms::{Fault, Names, Want};
use std::alloc::Global;
use term_store::{Cell, Store, View};

/// `T =.. L`
pub(crate) fn univ(
    alloc: Global,
    store: &mut Store,
    names: &mut Names,
    term: Cell,
    list: Cell,
) -> Result<Answer, Want>
    requires named { AreNamed (length names.old) store.old }
    requires term { HasTerm (length names.old) store.old term }
    requires list { HasTerm (length names.old) store.old list }
    ensures further { IsFurther store.old names.old store.new names.new }
    ensures bindings { OnOk result (store.new.bindings ≡ store.old.bindings) }
    ensures answer { IfOk result (IsAnswer names.new store.old store.new (means.univ (term_of names.new store.old term) (term_of names.new store.old list))) }
{
    store.known();
    let _ = names.count();
    let mut cells = Vec::new(alloc);
    match store.look(term) {
        View::Variable(_) => return from_list(alloc, store, names, term, list),
        View::Compound(name, arguments) => {
            cells.push(Cell::Atom(name))?;
            cells.extend_from_slice(arguments)?;
        }
        _ => cells.push(term)?,
    }
    let made = put_list(store, names, cells.as_slice())?;
    Ok(Answer::Equates(list, made))
}

/// A term of the elements of a list, for one that is unbound.
fn from_list(
    alloc: Global,
    store: &mut Store,
    names: &Names,
    term: Cell,
    list: Cell,
) -> Result<Answer, Want>
    requires named { AreNamed (length names.now) store.old }
    requires term { HasTerm (length names.now) store.old term }
    requires list { HasTerm (length names.now) store.old list }
    ensures further { IsFurther store.old names.now store.new names.now }
    ensures bindings { OnOk result (store.new.bindings ≡ store.old.bindings) }
    ensures answer { IfOk result (IsAnswer names.now store.old store.new (of_list (term_of names.now store.old list) (from_elements (term_of names.now store.old term)))) }
{
    store.known();
    let found = elements_of(alloc, store, names, list)?;
    if is_variable(store, names, found.end) {
        return Ok(Answer::Raises(Fault::Instantiation));
    }
    if !is_nil(store, names, found.end) {
        let fault = type_error(alloc, store, names, b"list", list)?;
        return Ok(Answer::Raises(fault));
    }
    match found.cells.as_slice() {
        [] => {
            let fault = domain_error(alloc, store, names, b"non_empty_list", found.end)?;
            Ok(Answer::Raises(fault))
        }
        [first, rest @ ..] => together(alloc, store, names, term, *first, rest),
    }
}

/// A term of a name and arguments, for one that is unbound.
fn together(
    alloc: Global,
    store: &mut Store,
    names: &Names,
    term: Cell,
    first: Cell,
    rest: &[Cell],
) -> Result<Answer, Want>
    requires named { AreNamed (length names.now) store.old }
    requires term { HasTerm (length names.now) store.old term }
    requires first { HasTerm (length names.now) store.old first }
    requires rest { All (HasTerm (length names.now) store.old) rest.now }
    ensures further { IsFurther store.old names.now store.new names.now }
    ensures bindings { OnOk result (store.new.bindings ≡ store.old.bindings) }
    ensures answer { IfOk result (IsAnswer names.now store.old store.new (put_together (term_of names.now store.old term) (term_of names.now store.old first) (map (term_of names.now store.old) rest.now))) }
{
    store.known();
    match store.look(first) {
        View::Variable(_) => Ok(Answer::Raises(Fault::Instantiation)),
        View::Compound(_, _) => {
            let fault = type_error(alloc, store, names, b"atomic", first)?;
            Ok(Answer::Raises(fault))
        }
        View::Integer(_) => {
            if rest.is_empty() {
                return Ok(Answer::Equates(term, first));
            }
            let fault = type_error(alloc, store, names, b"atom", first)?;
            Ok(Answer::Raises(fault))
        }
        View::Atom(name) => {
            if rest.is_empty() {
                return Ok(Answer::Equates(term, first));
            }
            if rest.len() > 255 {
                let fault = too_many(alloc)?;
                return Ok(Answer::Raises(fault));
            }
            let made = store.compound(name, rest)?;
            Ok(Answer::Equates(term, made))
        }
    }
}
