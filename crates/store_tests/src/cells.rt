// Cells: what is seen of them, how they are bound, and how bindings are undone.
ghost use Rattle.term_store.specs.Terms.{IsCell};

use prolog_terms::Want;
use term_store::{Cell, Store, View};

/// The number of the free variable at which a cell ends.
fn variable_at(store: &Store, cell: Cell) -> Option<u64>
    requires { IsCell store.now cell }
{
    match store.look(cell) {
        View::Variable(number) => Some(number),
        View::Integer(_) => None,
        View::Atom(_) => None,
        View::Compound(_, _) => None,
    }
}

#[test]
fn the_younger_is_bound_to_the_older(rt: HostRuntime) -> Result<(), Want> {
    let mut store = Store::new(rt.alloc());
    let first = store.fresh(2)?;
    assert_eq!(rt; first, 0);
    assert_eq!(rt; store.variables(), 2);
    assert!(rt; store.unify(Cell::Variable(0), Cell::Variable(1))?);
    assert_eq!(rt; variable_at(&store, Cell::Variable(1)), Some(0));
    assert_eq!(rt; variable_at(&store, Cell::Variable(0)), Some(0));
    Ok(())
}

#[test]
fn a_cell_is_followed_to_its_end(rt: HostRuntime) -> Result<(), Want> {
    let mut store = Store::new(rt.alloc());
    store.fresh(3)?;
    assert!(rt; store.unify(Cell::Variable(1), Cell::Variable(2))?);
    assert!(rt; store.unify(Cell::Variable(0), Cell::Variable(1))?);
    assert!(rt; store.unify(Cell::Variable(2), Cell::Integer(7))?);
    match store.deref(Cell::Variable(2)) {
        Cell::Integer(value) => {
            assert_eq!(rt; value, 7);
        }
        _ => return Err(Want),
    }
    Ok(())
}

#[test]
fn a_mark_undoes_bindings(rt: HostRuntime) -> Result<(), Want> {
    let mut store = Store::new(rt.alloc());
    store.fresh(1)?;
    let mark = store.mark();
    assert!(rt; store.unify(Cell::Variable(0), Cell::Integer(7))?);
    assert_eq!(rt; variable_at(&store, Cell::Variable(0)), None);
    store.undo_to(mark);
    assert_eq!(rt; variable_at(&store, Cell::Variable(0)), Some(0));
    Ok(())
}

#[test]
fn a_compound_shows_its_cells(rt: HostRuntime) -> Result<(), Want> {
    let mut store = Store::new(rt.alloc());
    let cell = store.compound(5, &[Cell::Integer(1), Cell::Atom(2)])?;
    match store.node(cell) {
        View::Compound(name, [Cell::Integer(value), Cell::Atom(atom)]) => {
            assert_eq!(rt; name, 5);
            assert_eq!(rt; *value, 1);
            assert_eq!(rt; *atom, 2);
        }
        _ => return Err(Want),
    }
    Ok(())
}
