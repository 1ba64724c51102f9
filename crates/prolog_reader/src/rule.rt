// The rules of the grammar.
use prolog_terms::Name;

/// What is open around the place that is read.
#[derive(Clone, Debug, Drop)]
pub(crate) enum Frame {
    /// A name, how many arguments stand before this one, and the greatest priority around.
    Arguments(Name, u8, u16),
    /// How many items of a list stand before this one, and the greatest priority around.
    Items(u64, u16),
    /// How many items of a list stand before its bar, and the greatest priority around.
    Tail(u64, u16),
    /// The greatest priority around.
    Paren(u16),
    /// The greatest priority around.
    Braces(u16),
    /// A prefix operator, its priority, and the greatest priority around.
    Prefixed(Name, u16, u16),
    /// An infix operator, likewise; its left operand stands before.
    Infixed(Name, u16, u16),
}

#[derive(Clone, Copy, Debug)]
pub(crate) enum Mode {
    /// A term of at most this priority begins here.
    Wants(u16),
    /// A term of the first priority stands before, where at most the second is allowed.
    Has(u16, u16),
}

/// Why a token was not taken.
#[derive(Clone, Copy, Debug, PartialEq, Eq)]
pub(crate) enum Fault {
    /// An integer of 2^63 that is not negated.
    TooLarge,
    /// No rule takes the token.
    Unexpected,
    /// An operator whose priority is too great, or whose operand's is.
    Priority,
    /// A comma after the 255th argument.
    Arity,
}

/// What an operator makes of the term before it: a term of two operands, with its priority and the greatest of the
/// right operand, or a term of one, with its priority.
#[derive(Clone, Debug, Drop)]
pub(crate) enum Extension {
    OverTwo(Name, u16, u16),
    OverOne(Name, u16),
}

/// What a step took: the token, the token and the next one, or nothing.
#[derive(Clone, Copy, Debug)]
pub(crate) enum Next {
    One,
    Two,
    Stop(Fault),
}
