// What a call comes to: a test, two cells that are to be made one, or a fault.
ghost use Rattle.std.specs.Prelude.{◌≡◌, All, IfOk, OnOk, length};
ghost use Rattle.prolog_terms.specs.Tree.{none, more};
ghost use Rattle.term_store.specs.Terms.{term_of, trees_of, HasTerm, AreNamed};
ghost use Rattle.term_store.specs.Heads.{IsFurther};
ghost use Rattle.term_builtins.specs.Meanings.{meaning};
ghost use Rattle.term_builtins.specs.Answers.{IsAnswer};

use crate::atoms::{atom_chars, atom_codes, atom_length, char_code};
use crate::compounds::{argument, copy, functor};
use crate::kinds::{differ, is_of_kind};
use crate::numbers::{evaluate, numbers};
use crate::orders::{compare, ordered};
use crate::output::put_char;
use crate::table::What;
use crate::univ::univ;
use prolog_terms::{Bytes, Fault, Names, Term, Want};
use prolog_writer::Style;
use std::alloc::Global;
use term_store::{Cell, Store};

/// What a call comes to.
#[derive(Drop)]
pub(crate) enum Answer {
    Holds(bool),
    /// These two cells are to be made one.
    Equates(Cell, Cell),
    /// This term is written in this style.
    Writes(Style, Term),
    /// These bytes are written.
    Puts(Bytes),
    Raises(Fault),
}

/// What a call of a builtin with these arguments comes to.
pub(crate) fn come_to(
    alloc: Global,
    store: &mut Store,
    names: &mut Names,
    what: What,
    args: &[Cell],
) -> Result<Answer, Want>
    requires named { AreNamed (length names.old) store.old }
    requires valid { All (HasTerm (length names.old) store.old) args.now }
    ensures further { IsFurther store.old names.old store.new names.new }
    ensures bindings { OnOk result (store.new.bindings ≡ store.old.bindings) }
    ensures answer { IfOk result (IsAnswer names.new store.old store.new (meaning what store.old.variables (trees_of (term_of names.new store.old) args.now))) }
{
    match args {
        [] => answer_none(alloc, store, names, what),
        [only] => answer_one(alloc, store, names, what, *only),
        [left, right] => answer_two(alloc, store, names, what, *left, *right),
        [first, second, third] => answer_three(alloc, store, names, what, *first, *second, *third),
        [_, _, _, _, ..] => Ok(Answer::Holds(false)),
    }
}

/// What a call with no argument comes to.
fn answer_none(alloc: Global, store: &Store, names: &Names, what: What) -> Result<Answer, Want>
    ensures answer { IfOk result (IsAnswer names.now store.now store.now (meaning what store.now.variables none)) }
{
    match what {
        What::NewLine => Ok(Answer::Puts(Bytes::of(alloc, b"\n")?)),
        _ => Ok(Answer::Holds(false)),
    }
}

/// What a call with one argument comes to.
fn answer_one(
    alloc: Global,
    store: &Store,
    names: &Names,
    what: What,
    only: Cell,
) -> Result<Answer, Want>
    requires named { AreNamed (length names.now) store.now }
    requires valid { HasTerm (length names.now) store.now only }
    ensures answer { IfOk result (IsAnswer names.now store.now store.now (meaning what store.now.variables (more (term_of names.now store.now only) none))) }
{
    match what {
        What::Test(kind) => Ok(Answer::Holds(is_of_kind(store, names, kind, only))),
        What::Write(style) => Ok(Answer::Writes(style, store.read_back(names, only)?)),
        What::PutChar => put_char(alloc, store, names, only),
        _ => Ok(Answer::Holds(false)),
    }
}

/// What a call with two arguments comes to.
fn answer_two(
    alloc: Global,
    store: &mut Store,
    names: &mut Names,
    what: What,
    left: Cell,
    right: Cell,
) -> Result<Answer, Want>
    requires named { AreNamed (length names.old) store.old }
    requires left { HasTerm (length names.old) store.old left }
    requires right { HasTerm (length names.old) store.old right }
    ensures further { IsFurther store.old names.old store.new names.new }
    ensures bindings { OnOk result (store.new.bindings ≡ store.old.bindings) }
    ensures answer { IfOk result (IsAnswer names.new store.old store.new (meaning what store.old.variables (more (term_of names.new store.old left) (more (term_of names.new store.old right) none)))) }
{
    match what {
        What::Unify => Ok(Answer::Equates(left, right)),
        What::Differ => differ(store, names, left, right),
        What::Order(relation) => ordered(store, names, relation, left, right),
        What::Univ => univ(alloc, store, names, left, right),
        What::Copy => copy(store, names, left, right),
        What::AtomLength => atom_length(alloc, store, names, left, right),
        What::AtomCodes => atom_codes(alloc, store, names, left, right),
        What::AtomChars => atom_chars(alloc, store, names, left, right),
        What::CharCode => char_code(alloc, store, names, left, right),
        What::Evaluate => evaluate(alloc, store, names, left, right),
        What::Numbers(relation) => numbers(alloc, store, names, relation, left, right),
        _ => Ok(Answer::Holds(false)),
    }
}

/// What a call with three arguments comes to.
fn answer_three(
    alloc: Global,
    store: &mut Store,
    names: &mut Names,
    what: What,
    first: Cell,
    second: Cell,
    third: Cell,
) -> Result<Answer, Want>
    requires named { AreNamed (length names.old) store.old }
    requires first { HasTerm (length names.old) store.old first }
    requires second { HasTerm (length names.old) store.old second }
    requires third { HasTerm (length names.old) store.old third }
    ensures further { IsFurther store.old names.old store.new names.new }
    ensures bindings { OnOk result (store.new.bindings ≡ store.old.bindings) }
    ensures answer { IfOk result (IsAnswer names.new store.old store.new (meaning what store.old.variables (more (term_of names.new store.old first) (more (term_of names.new store.old second) (more (term_of names.new store.old third) none))))) }
{
    match what {
        What::Compare => compare(alloc, store, names, first, second, third),
        What::Functor => functor(alloc, store, names, first, second, third),
        What::Argument => argument(alloc, store, names, first, second, third),
        _ => Ok(Answer::Holds(false)),
    }
}
