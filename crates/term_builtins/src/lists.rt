// Lists.
ghost use Rattle.std.specs.Prelude.{◌≡◌, length, map, All, IfOk, OnOk};
ghost use Rattle.term_store.specs.Terms.{term_of, HasTerm, AreNamed};
ghost use Rattle.term_store.specs.Heads.{IsFurther};
ghost use Rattle.term_builtins.specs.Meanings.{list_tree, is_nil as is_nil_tree};
ghost use Rattle.term_builtins.specs.Answers.{IsList, AreParts};

use prolog_terms::{Names, Want};
use std::alloc::Global;
use term_store::{Cell, Store, View};

/// The elements of a list, and the cell at its end.
#[derive(Drop)]
pub(crate) struct Elements {
    pub cells: Vec<Cell>,
    pub end: Cell,
}

/// The elements of a list, and its end, which is any term. The time is linear in their count.
pub(crate) fn elements_of(
    alloc: Global,
    store: &Store,
    names: &Names,
    list: Cell,
) -> Result<Elements, Want>
    requires named { AreNamed (length names.now) store.now }
    requires valid { HasTerm (length names.now) store.now list }
    ensures cells { IfOk result (λ found. All (HasTerm (length names.now) store.now) found.cells.items) }
    ensures end { IfOk result (λ found. HasTerm (length names.now) store.now found.end) }
    ensures list { IfOk result (λ found. IsList names.now store.now (term_of names.now store.now list) found.cells.items found.end) }
{
    store.known();
    let mut cells = Vec::new(alloc);
    let mut end = list;
    while let Some((first, rest)) = parts(store, names, end) {
        cells.push(first)?;
        end = rest;
    }
    Ok(Elements { cells, end })
}

/// The first element of a list, and the list of the others; none where it is no list of one element or more.
fn parts(store: &Store, names: &Names, list: Cell) -> Option<(Cell, Cell)>
    requires named { AreNamed (length names.now) store.now }
    requires valid { HasTerm (length names.now) store.now list }
    ensures { AreParts names.now store.now (term_of names.now store.now list) result }
{
    store.known();
    match store.look(list) {
        View::Compound(name, arguments) => match arguments {
            [first, rest] => {
                if names.text(name) == b".".as_slice() {
                    return Some((*first, *rest));
                }
                None
            }
            _ => None,
        },
        _ => None,
    }
}

/// Whether a cell stands for `[]`.
pub(crate) fn is_nil(store: &Store, names: &Names, cell: Cell) -> bool
    requires named { AreNamed (length names.now) store.now }
    requires valid { HasTerm (length names.now) store.now cell }
    ensures { result ≡ is_nil_tree (term_of names.now store.now cell) }
{
    store.known();
    match store.look(cell) {
        View::Atom(name) => names.text(name) == b"[]".as_slice(),
        _ => false,
    }
}

/// A list of cells. The time is linear in their count.
pub(crate) fn put_list(store: &mut Store, names: &mut Names, cells: &[Cell]) -> Result<Cell, Want>
    requires named { AreNamed (length names.old) store.old }
    requires valid { All (HasTerm (length names.old) store.old) cells.now }
    ensures further { IsFurther store.old names.old store.new names.new }
    ensures bindings { store.new.bindings ≡ store.old.bindings }
    ensures variables { store.new.variables ≡ store.old.variables }
    ensures cell { IfOk result (λ c. HasTerm (length names.new) store.new c) }
    ensures list { IfOk result (λ c. term_of names.new store.new c ≡ list_tree (map (term_of names.new store.old) cells.now)) }
{
    store.known();
    let _ = names.count();
    let dot = names.intern(b".")?;
    let nil = names.intern(b"[]")?;
    let mut list = Cell::Atom(nil);
    let mut at = cells.len();
    while at > 0 {
        at -= 1;
        store.known();
        let made = store.compound(dot, &[cells[at], list])?;
        list = made;
    }
    Ok(list)
}
