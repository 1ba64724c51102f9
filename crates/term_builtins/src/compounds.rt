// Compounds: their names, arities and arguments, and copies.
ghost use Rattle.std.specs.Prelude.{◌≡◌, ◌||◌, slice_get, ℕ, ◌≤◌, ◌<◌, ◌+◌, ◌∷◌, [], length, IfOk, OnOk, pos, List};
ghost use Rattle.prolog_terms.specs.Faults.{two};
ghost use Rattle.std.specs.Prelude.{codes};
ghost use Rattle.term_store.specs.Terms.{term_of, HasTerm, AreNamed, text};
ghost use Rattle.term_store.specs.Heads.{IsFurther};
ghost use Rattle.term_builtins.specs.Meanings.{functor_of, both_equal, made_bound, made_named, made_sized, made, argument_of, argument_in, copied, is_variable as is_unbound, is_compound as is_built, variables_from};
ghost use Rattle.term_builtins.specs.Answers.{IsAnswer};
ghost use Rattle.prolog_terms.specs.Tree.{compound};

use crate::answer::Answer;
use crate::faults::{domain_error, too_many, type_error};
use prolog_terms::{Fault, Names, Want, Whole};
use std::alloc::Global;
use term_store::{Cell, Store, View};

/// Whether a cell is unbound.
pub(crate) fn is_variable(store: &Store, names: &Names, cell: Cell) -> bool
    requires valid { HasTerm (length names.now) store.now cell }
    ensures { result ≡ is_unbound (term_of names.now store.now cell) }
{
    matches!(store.look(cell), View::Variable(_))
}

/// Whether one of two cells is unbound.
fn is_either_variable(store: &Store, names: &Names, first: Cell, second: Cell) -> bool
    requires first { HasTerm (length names.now) store.now first }
    requires second { HasTerm (length names.now) store.now second }
    ensures { result ≡ is_unbound (term_of names.now store.now first) || is_unbound (term_of names.now store.now second) }
{
    is_variable(store, names, first) || is_variable(store, names, second)
}

/// Whether a cell stands for a compound.
fn is_compound(store: &Store, names: &Names, cell: Cell) -> bool
    requires valid { HasTerm (length names.now) store.now cell }
    ensures { result ≡ is_built (term_of names.now store.now cell) }
{
    matches!(store.look(cell), View::Compound(_, _))
}

/// `functor(T, N, A)`
pub(crate) fn functor(
    alloc: Global,
    store: &mut Store,
    names: &mut Names,
    term: Cell,
    name: Cell,
    arity: Cell,
) -> Result<Answer, Want>
    requires named { AreNamed (length names.old) store.old }
    requires term { HasTerm (length names.old) store.old term }
    requires name { HasTerm (length names.old) store.old name }
    requires arity { HasTerm (length names.old) store.old arity }
    ensures further { IsFurther store.old names.old store.new names.new }
    ensures bindings { OnOk result (store.new.bindings ≡ store.old.bindings) }
    ensures answer { IfOk result (IsAnswer names.new store.old store.new (functor_of store.old.variables (term_of names.new store.old term) (term_of names.new store.old name) (term_of names.new store.old arity))) }
{
    store.known();
    match store.look(term) {
        View::Variable(_) => make(alloc, store, names, term, name, arity),
        View::Compound(functor, arguments) => {
            let count = arguments.len() as Whole;
            both(
                store,
                names,
                name,
                Cell::Atom(functor),
                arity,
                Cell::Integer(count),
            )
        }
        _ => both(store, names, name, term, arity, Cell::Integer(0)),
    }
}

/// Two pairs of cells are to be made one, as the arguments of two terms.
fn both(
    store: &mut Store,
    names: &mut Names,
    first: Cell,
    second: Cell,
    third: Cell,
    fourth: Cell,
) -> Result<Answer, Want>
    requires named { AreNamed (length names.old) store.old }
    requires first { HasTerm (length names.old) store.old first }
    requires second { HasTerm (length names.old) store.old second }
    requires third { HasTerm (length names.old) store.old third }
    requires fourth { HasTerm (length names.old) store.old fourth }
    ensures further { IsFurther store.old names.old store.new names.new }
    ensures bindings { OnOk result (store.new.bindings ≡ store.old.bindings) }
    ensures answer { IfOk result (IsAnswer names.new store.old store.new (both_equal (term_of names.new store.old first) (term_of names.new store.old second) (term_of names.new store.old third) (term_of names.new store.old fourth))) }
{
    store.known();
    let comma = names.intern(b",")?;
    let left = store.compound(comma, &[first, third])?;
    store.known();
    let right = store.compound(comma, &[second, fourth])?;
    Ok(Answer::Equates(left, right))
}

/// A term of a name and an arity, for one that is unbound.
fn make(
    alloc: Global,
    store: &mut Store,
    names: &Names,
    term: Cell,
    name: Cell,
    arity: Cell,
) -> Result<Answer, Want>
    requires named { AreNamed (length names.now) store.old }
    requires term { HasTerm (length names.now) store.old term }
    requires name { HasTerm (length names.now) store.old name }
    requires arity { HasTerm (length names.now) store.old arity }
    ensures further { IsFurther store.old names.now store.new names.now }
    ensures bindings { OnOk result (store.new.bindings ≡ store.old.bindings) }
    ensures answer { IfOk result (IsAnswer names.now store.old store.new (made_bound store.old.variables (term_of names.now store.old term) (term_of names.now store.old name) (term_of names.now store.old arity))) }
{
    store.known();
    if is_either_variable(store, names, name, arity) {
        return Ok(Answer::Raises(Fault::Instantiation));
    }
    match store.look(arity) {
        View::Integer(count) => {
            if is_compound(store, names, name) {
                let fault = type_error(alloc, store, names, b"atomic", name)?;
                return Ok(Answer::Raises(fault));
            }
            make_sized(alloc, store, names, term, name, count)
        }
        _ => {
            let fault = type_error(alloc, store, names, b"integer", arity)?;
            Ok(Answer::Raises(fault))
        }
    }
}

/// A term of a name and so many arguments.
fn make_sized(
    alloc: Global,
    store: &mut Store,
    names: &Names,
    term: Cell,
    name: Cell,
    count: Whole,
) -> Result<Answer, Want>
    requires named { AreNamed (length names.now) store.old }
    requires term { HasTerm (length names.now) store.old term }
    requires name { HasTerm (length names.now) store.old name }
    ensures further { IsFurther store.old names.now store.new names.now }
    ensures bindings { OnOk result (store.new.bindings ≡ store.old.bindings) }
    ensures answer { IfOk result (IsAnswer names.now store.old store.new (made_sized store.old.variables (term_of names.now store.old term) (term_of names.now store.old name) count)) }
{
    store.known();
    if count < 0 {
        let fault = domain_error(
            alloc,
            store,
            names,
            b"not_less_than_zero",
            Cell::Integer(count),
        )?;
        return Ok(Answer::Raises(fault));
    }
    if count > 255 {
        return Ok(Answer::Raises(too_many(alloc)?));
    }
    if count == 0 {
        return Ok(Answer::Equates(term, name));
    }
    match store.look(name) {
        View::Atom(text) => {
            let made = make_compound(alloc, store, text, count as u64)?;
            Ok(Answer::Equates(term, made))
        }
        _ => {
            let fault = type_error(alloc, store, names, b"atom", name)?;
            Ok(Answer::Raises(fault))
        }
    }
}

/// A compound of so many new variables.
fn make_compound(alloc: Global, store: &mut Store, name: u64, count: u64) -> Result<Cell, Want>
    requires some { 1 ≤ count }
    requires few { count ≤ 255 }
    ensures further { (texts : List (List ℕ)) → AreNamed (length texts) store.old → name < length texts → IsFurther store.old texts store.new texts }
    ensures bindings { store.new.bindings ≡ store.old.bindings }
    ensures variables { OnOk result (store.new.variables ≡ store.old.variables + count) }
    ensures made { IfOk result (λ c. (texts : List (List ℕ)) → AreNamed (length texts) store.old → name < length texts → HasTerm (length texts) store.new c × (term_of texts store.new c ≡ compound (text texts name) (variables_from store.old.variables count))) }
{
    store.known();
    let mut cells = Vec::new(alloc);
    let first = store.fresh(count)?;
    let end = store.variables();
    for number in first..end {
        cells.push(Cell::Variable(number))?;
    }
    let made = store.compound(name, cells.as_slice())?;
    Ok(made)
}

/// `arg(N, T, A)`
pub(crate) fn argument(
    alloc: Global,
    store: &Store,
    names: &Names,
    number: Cell,
    whole: Cell,
    part: Cell,
) -> Result<Answer, Want>
    requires named { AreNamed (length names.now) store.now }
    requires number { HasTerm (length names.now) store.now number }
    requires whole { HasTerm (length names.now) store.now whole }
    requires part { HasTerm (length names.now) store.now part }
    ensures answer { IfOk result (IsAnswer names.now store.now store.now (argument_of (term_of names.now store.now number) (term_of names.now store.now whole) (term_of names.now store.now part))) }
{
    store.known();
    if is_either_variable(store, names, number, whole) {
        return Ok(Answer::Raises(Fault::Instantiation));
    }
    match store.look(number) {
        View::Integer(place) => argument_at(alloc, store, names, place, whole, part),
        _ => {
            let fault = type_error(alloc, store, names, b"integer", number)?;
            Ok(Answer::Raises(fault))
        }
    }
}

/// The argument of this number.
fn argument_at(
    alloc: Global,
    store: &Store,
    names: &Names,
    place: Whole,
    whole: Cell,
    part: Cell,
) -> Result<Answer, Want>
    requires named { AreNamed (length names.now) store.now }
    requires whole { HasTerm (length names.now) store.now whole }
    requires part { HasTerm (length names.now) store.now part }
    ensures answer { IfOk result (IsAnswer names.now store.now store.now (argument_in place (term_of names.now store.now whole) (term_of names.now store.now part))) }
{
    store.known();
    match store.look(whole) {
        View::Compound(_, arguments) => {
            if place < 0 {
                let culprit = Cell::Integer(place);
                let fault = domain_error(alloc, store, names, b"not_less_than_zero", culprit)?;
                return Ok(Answer::Raises(fault));
            }
            if place == 0 {
                return Ok(Answer::Holds(false));
            }
            let at = place as usize;
            match cell_at(arguments, at - 1) {
                Some(found) => Ok(Answer::Equates(found, part)),
                None => Ok(Answer::Holds(false)),
            }
        }
        _ => {
            let fault = type_error(alloc, store, names, b"compound", whole)?;
            Ok(Answer::Raises(fault))
        }
    }
}

/// The cell at an index.
fn cell_at(cells: &[Cell], index: usize) -> Option<Cell>
    ensures { result ≡ slice_get cells.now index }
{
    cells.get(index).copied()
}

/// `copy_term(A, B)`
pub(crate) fn copy(
    store: &mut Store,
    names: &Names,
    source: Cell,
    target: Cell,
) -> Result<Answer, Want>
    requires named { AreNamed (length names.now) store.old }
    requires source { HasTerm (length names.now) store.old source }
    requires target { HasTerm (length names.now) store.old target }
    ensures further { IsFurther store.old names.now store.new names.now }
    ensures bindings { OnOk result (store.new.bindings ≡ store.old.bindings) }
    ensures answer { IfOk result (IsAnswer names.now store.old store.new (copied store.old.variables (term_of names.now store.old source) (term_of names.now store.old target))) }
{
    store.known();
    let made = store.copy(source)?;
    Ok(Answer::Equates(target, made))
}
