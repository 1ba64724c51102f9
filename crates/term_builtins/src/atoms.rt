// Atoms and their bytes.
ghost use Rattle.std.specs.Prelude.{ℕ, ◌≡◌, ◌++◌, ◌<◌, All, map, length, IfOk, OnOk, IsTrue, List, [], pos};
ghost use Rattle.term_store.specs.Terms.{term_of, HasTerm, AreNamed};
ghost use Rattle.term_store.specs.Heads.{IsFurther};
ghost use Rattle.term_builtins.specs.Meanings as means;
ghost use Rattle.term_builtins.specs.Meanings.{bytes_of_atom, code_tree, char_tree, code_element, char_element, length_checked, of_list, spelled, list_tree};
ghost use Rattle.term_builtins.specs.Answers.{IsAnswer, IsByte, byte_element, byte_tree};
ghost use Rattle.term_builtins.specs.Bytes.{IsByteCell, AreByteCells};
ghost use Rattle.term_store.specs.Later.{AreDistinct, AreLonger};

use crate::answer::Answer;
use crate::compounds::is_variable;
use crate::faults::{domain_error, no_code, type_error};
use crate::lists::{elements_of, is_nil, put_list};
use prolog_terms::{Fault, Names, Want, Whole};
use std::alloc::Global;
use term_store::{Cell, Store, View};

/// How the bytes of an atom are listed.
#[derive(Clone, Copy)]
pub(crate) enum Form {
    /// As integers.
    Codes,
    /// As atoms of one byte.
    Chars,
}

/// What an element of a list is: a byte, or the fault that it raises.
#[derive(Drop)]
pub(crate) enum Byte {
    Of(u8),
    Not(Fault),
}

/// `atom_length(A, N)`
pub(crate) fn atom_length(
    alloc: Global,
    store: &Store,
    names: &Names,
    atom: Cell,
    count: Cell,
) -> Result<Answer, Want>
    requires named { AreNamed (length names.now) store.now }
    requires atom { HasTerm (length names.now) store.now atom }
    requires count { HasTerm (length names.now) store.now count }
    ensures answer { IfOk result (IsAnswer names.now store.now store.now (means.atom_length (term_of names.now store.now atom) (term_of names.now store.now count))) }
{
    store.known();
    match store.look(atom) {
        View::Variable(_) => Ok(Answer::Raises(Fault::Instantiation)),
        View::Atom(name) => {
            let long = names.text(name).len() as Whole;
            checked_length(alloc, store, names, long, count)
        }
        _ => {
            let fault = type_error(alloc, store, names, b"atom", atom)?;
            Ok(Answer::Raises(fault))
        }
    }
}

/// A length, and a cell that is unbound or an integer that isn't negative.
fn checked_length(
    alloc: Global,
    store: &Store,
    names: &Names,
    long: Whole,
    count: Cell,
) -> Result<Answer, Want>
    requires named { AreNamed (length names.now) store.now }
    requires count { HasTerm (length names.now) store.now count }
    ensures answer { IfOk result (λ answer. (a : List ℕ) → long ≡ pos (length a) → IsAnswer names.now store.now store.now (length_checked a (term_of names.now store.now count)) answer) }
{
    store.known();
    match store.look(count) {
        View::Variable(_) => Ok(Answer::Equates(count, Cell::Integer(long))),
        View::Integer(value) => {
            if value < 0 {
                let fault = domain_error(alloc, store, names, b"not_less_than_zero", count)?;
                return Ok(Answer::Raises(fault));
            }
            Ok(Answer::Equates(count, Cell::Integer(long)))
        }
        _ => {
            let fault = type_error(alloc, store, names, b"integer", count)?;
            Ok(Answer::Raises(fault))
        }
    }
}

/// `atom_codes(A, L)`
pub(crate) fn atom_codes(
    alloc: Global,
    store: &mut Store,
    names: &mut Names,
    atom: Cell,
    list: Cell,
) -> Result<Answer, Want>
    requires named { AreNamed (length names.old) store.old }
    requires atom { HasTerm (length names.old) store.old atom }
    requires list { HasTerm (length names.old) store.old list }
    ensures further { IsFurther store.old names.old store.new names.new }
    ensures bindings { OnOk result (store.new.bindings ≡ store.old.bindings) }
    ensures answer { IfOk result (IsAnswer names.new store.old store.new (bytes_of_atom code_tree code_element (term_of names.new store.old atom) (term_of names.new store.old list))) }
{
    atom_bytes(alloc, store, names, Form::Codes, atom, list)
}

/// `atom_chars(A, L)`
pub(crate) fn atom_chars(
    alloc: Global,
    store: &mut Store,
    names: &mut Names,
    atom: Cell,
    list: Cell,
) -> Result<Answer, Want>
    requires named { AreNamed (length names.old) store.old }
    requires atom { HasTerm (length names.old) store.old atom }
    requires list { HasTerm (length names.old) store.old list }
    ensures further { IsFurther store.old names.old store.new names.new }
    ensures bindings { OnOk result (store.new.bindings ≡ store.old.bindings) }
    ensures answer { IfOk result (IsAnswer names.new store.old store.new (bytes_of_atom char_tree char_element (term_of names.new store.old atom) (term_of names.new store.old list))) }
{
    atom_bytes(alloc, store, names, Form::Chars, atom, list)
}

/// The bytes of an atom as a list in this form, or an atom of such a list.
fn atom_bytes(
    alloc: Global,
    store: &mut Store,
    names: &mut Names,
    form: Form,
    atom: Cell,
    list: Cell,
) -> Result<Answer, Want>
    requires named { AreNamed (length names.old) store.old }
    requires atom { HasTerm (length names.old) store.old atom }
    requires list { HasTerm (length names.old) store.old list }
    ensures further { IsFurther store.old names.old store.new names.new }
    ensures bindings { OnOk result (store.new.bindings ≡ store.old.bindings) }
    ensures answer { IfOk result (IsAnswer names.new store.old store.new (bytes_of_atom (byte_tree form) (byte_element form) (term_of names.new store.old atom) (term_of names.new store.old list))) }
{
    store.known();
    match store.look(atom) {
        View::Variable(_) => from_bytes(alloc, store, names, form, atom, list),
        View::Atom(name) => {
            let text = Vec::from_slice(alloc, names.text(name))?;
            let cells = byte_cells(alloc, names, form, text.as_slice())?;
            let made = put_list(store, names, cells.as_slice())?;
            Ok(Answer::Equates(list, made))
        }
        _ => {
            let fault = type_error(alloc, store, names, b"atom", atom)?;
            Ok(Answer::Raises(fault))
        }
    }
}

/// Cells of bytes, in this form.
fn byte_cells(alloc: Global, names: &mut Names, form: Form, text: &[u8]) -> Result<Vec<Cell>, Want>
    ensures texts { AreLonger names.old names.new }
    ensures distinct { AreDistinct names.new }
    ensures cells { IfOk result (λ cells. AreByteCells names.new form text.now cells.items) }
{
    let _ = names.count();
    let mut cells = Vec::new(alloc);
    for byte in text {
        let cell = byte_cell(names, form, *byte)?;
        cells.push(cell)?;
    }
    Ok(cells)
}

/// The cell of a byte, in this form.
fn byte_cell(names: &mut Names, form: Form, byte: u8) -> Result<Cell, Want>
    ensures texts { AreLonger names.old names.new }
    ensures distinct { AreDistinct names.old → AreDistinct names.new }
    ensures cell { IfOk result (IsByteCell names.new form byte) }
{
    match form {
        Form::Codes => Ok(Cell::Integer(Whole::from(byte))),
        Form::Chars => {
            let number = names.intern(&[byte])?;
            Ok(Cell::Atom(number))
        }
    }
}

/// An atom of the bytes of a list, for one that is unbound.
fn from_bytes(
    alloc: Global,
    store: &Store,
    names: &mut Names,
    form: Form,
    atom: Cell,
    list: Cell,
) -> Result<Answer, Want>
    requires named { AreNamed (length names.old) store.now }
    requires atom { HasTerm (length names.old) store.now atom }
    requires list { HasTerm (length names.old) store.now list }
    ensures further { IsFurther store.now names.old store.now names.new }
    ensures answer { IfOk result (IsAnswer names.new store.now store.now (of_list (term_of names.new store.now list) (spelled (byte_element form) (term_of names.new store.now atom) ([])))) }
{
    store.known();
    let _ = names.count();
    let found = elements_of(alloc, store, names, list)?;
    if is_variable(store, names, found.end) {
        return Ok(Answer::Raises(Fault::Instantiation));
    }
    if !is_nil(store, names, found.end) {
        let fault = type_error(alloc, store, names, b"list", list)?;
        return Ok(Answer::Raises(fault));
    }
    let mut text = Vec::new(alloc);
    for cell in &found.cells {
        match byte_of(alloc, store, names, form, *cell)? {
            Byte::Of(byte) => text.push(byte)?,
            Byte::Not(fault) => return Ok(Answer::Raises(fault)),
        }
    }
    let number = names.intern(text.as_slice())?;
    Ok(Answer::Equates(atom, Cell::Atom(number)))
}

/// What an element of a list is.
fn byte_of(
    alloc: Global,
    store: &Store,
    names: &Names,
    form: Form,
    cell: Cell,
) -> Result<Byte, Want>
    requires named { AreNamed (length names.now) store.now }
    requires valid { HasTerm (length names.now) store.now cell }
    ensures { IfOk result (IsByte (byte_element form (term_of names.now store.now cell))) }
{
    match form {
        Form::Codes => code_of(alloc, store, names, cell),
        Form::Chars => char_of(alloc, store, names, cell),
    }
}

/// The byte whose code a cell stands for.
fn code_of(alloc: Global, store: &Store, names: &Names, cell: Cell) -> Result<Byte, Want>
    requires named { AreNamed (length names.now) store.now }
    requires valid { HasTerm (length names.now) store.now cell }
    ensures { IfOk result (IsByte (code_element (term_of names.now store.now cell))) }
{
    store.known();
    match store.look(cell) {
        View::Variable(_) => Ok(Byte::Not(Fault::Instantiation)),
        View::Integer(value) => byte_in(alloc, value),
        _ => Ok(Byte::Not(no_code(alloc)?)),
    }
}

/// The byte of a code from 0 to 255.
fn byte_in(alloc: Global, value: Whole) -> Result<Byte, Want>
    ensures { IfOk result (IsByte (means.or_no means.no_code (means.code_in value))) }
{
    if value < 0 || value > 255 {
        return Ok(Byte::Not(no_code(alloc)?));
    }
    Ok(Byte::Of(value as u8))
}

/// The byte of an atom of one byte.
pub(crate) fn char_of(alloc: Global, store: &Store, names: &Names, cell: Cell) -> Result<Byte, Want>
    requires named { AreNamed (length names.now) store.now }
    requires valid { HasTerm (length names.now) store.now cell }
    ensures { IfOk result (IsByte (char_element (term_of names.now store.now cell))) }
{
    store.known();
    match store.look(cell) {
        View::Variable(_) => Ok(Byte::Not(Fault::Instantiation)),
        View::Atom(name) => {
            let text = names.text(name);
            if text.len() == 1 {
                return Ok(Byte::Of(text[0]));
            }
            let fault = type_error(alloc, store, names, b"character", cell)?;
            Ok(Byte::Not(fault))
        }
        _ => {
            let fault = type_error(alloc, store, names, b"character", cell)?;
            Ok(Byte::Not(fault))
        }
    }
}

/// `char_code(C, N)`
pub(crate) fn char_code(
    alloc: Global,
    store: &Store,
    names: &mut Names,
    char: Cell,
    code: Cell,
) -> Result<Answer, Want>
    requires named { AreNamed (length names.old) store.now }
    requires char { HasTerm (length names.old) store.now char }
    requires code { HasTerm (length names.old) store.now code }
    ensures further { IsFurther store.now names.old store.now names.new }
    ensures answer { IfOk result (IsAnswer names.new store.now store.now (means.char_code (term_of names.new store.now char) (term_of names.new store.now code))) }
{
    store.known();
    let _ = names.count();
    if is_variable(store, names, char) {
        return from_code(alloc, store, names, char, code);
    }
    match char_of(alloc, store, names, char)? {
        Byte::Not(fault) => Ok(Answer::Raises(fault)),
        Byte::Of(byte) => to_code(alloc, store, names, byte, code),
    }
}

/// The atom of a code, for one that is unbound.
fn from_code(
    alloc: Global,
    store: &Store,
    names: &mut Names,
    char: Cell,
    code: Cell,
) -> Result<Answer, Want>
    requires named { AreNamed (length names.old) store.now }
    requires char { HasTerm (length names.old) store.now char }
    requires code { HasTerm (length names.old) store.now code }
    ensures further { IsFurther store.now names.old store.now names.new }
    ensures answer { IfOk result (IsAnswer names.new store.now store.now (means.from_code (term_of names.new store.now char) (term_of names.new store.now code))) }
{
    store.known();
    let _ = names.count();
    match store.look(code) {
        View::Variable(_) => Ok(Answer::Raises(Fault::Instantiation)),
        View::Integer(value) => match byte_in(alloc, value)? {
            Byte::Not(fault) => Ok(Answer::Raises(fault)),
            Byte::Of(byte) => {
                let number = names.intern(&[byte])?;
                Ok(Answer::Equates(char, Cell::Atom(number)))
            }
        },
        _ => {
            let fault = type_error(alloc, store, names, b"integer", code)?;
            Ok(Answer::Raises(fault))
        }
    }
}

/// The code of a byte.
fn to_code(
    alloc: Global,
    store: &Store,
    names: &Names,
    byte: u8,
    code: Cell,
) -> Result<Answer, Want>
    requires named { AreNamed (length names.now) store.now }
    requires code { HasTerm (length names.now) store.now code }
    ensures answer { IfOk result (IsAnswer names.now store.now store.now (means.to_code byte (term_of names.now store.now code))) }
{
    store.known();
    match store.look(code) {
        View::Variable(_) => Ok(Answer::Equates(code, Cell::Integer(Whole::from(byte)))),
        View::Integer(value) => match byte_in(alloc, value)? {
            Byte::Not(fault) => Ok(Answer::Raises(fault)),
            Byte::Of(_) => Ok(Answer::Equates(code, Cell::Integer(Whole::from(byte)))),
        },
        _ => {
            let fault = type_error(alloc, store, names, b"integer", code)?;
            Ok(Answer::Raises(fault))
        }
    }
}
