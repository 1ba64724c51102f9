// What a piece of a text is, as far as it matters for the space behind or before it.

#[derive(Clone, Copy, Debug, PartialEq, Eq)]
pub enum Kind {
    /// The name of an operator, or an atom, other than `Minus`.
    Named,
    /// The prefix operator `-`.
    Minus,
    /// The bracket that opens a parenthesis.
    Paren,
    /// Any other piece.
    Other,
}

/// What ends a piece: what it is, and its last byte.
#[derive(Clone, Copy, Debug, PartialEq, Eq)]
pub struct Edge {
    pub kind: Kind,
    pub byte: u8,
}
