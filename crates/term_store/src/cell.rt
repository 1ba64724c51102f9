// Cells, and what is seen of them.

use prolog_terms::Whole;

/// A term of a store, by one word.
#[derive(Clone, Copy, Debug)]
pub enum Cell {
    /// A variable, by its number. The younger has the greater number.
    Variable(u64),
    /// An integer.
    Integer(Whole),
    /// An atom, by the number of its name.
    Atom(u64),
    /// A compound, by its place in the store.
    Compound(u64),
}

/// What stands at a cell.
#[derive(Clone, Copy)]
pub enum View<'a> {
    /// A variable, by its number.
    Variable(u64),
    /// An integer.
    Integer(Whole),
    /// An atom, by the number of its name.
    Atom(u64),
    /// The number of a compound's name, and its arguments.
    Compound(u64, &'a [Cell]),
}

/// A moment of a store: how many bindings and compounds there were.
#[derive(Clone, Copy)]
pub struct Trailed {
    pub(crate) bindings: u64,
    pub(crate) compounds: u64,
}
