// The keys of a term at the 40 positions.

use prolog_terms::Whole;

/// A position, from 0 to 39: five for each of the first eight arguments, in order. They are the argument itself, then its
/// own first four arguments.
#[derive(Clone, Copy, Debug, PartialEq, Eq)]
pub struct Position(pub u8);

/// A key: an integer, an atom, or a compound's name and arity. Names are numbers of a `Names`.
#[derive(Clone, Copy, Debug, PartialEq, Eq)]
pub enum Key {
    Int(Whole),
    Atom(u64),
    Functor(u64, u32),
}

/// The keys of a term at the 40 positions, in order, where it has them.
#[derive(Clone, Copy, Debug)]
pub struct Keys {
    pub at: [Option<Key>; 40],
}
