// What updates answer.

use prolog_terms::Kind;

/// What a declaration answers.
#[derive(Clone, Copy, Debug, PartialEq, Eq)]
pub enum Declared {
    /// It was made; the procedure has this number.
    Done(u32),
    /// The procedure is declared already, with this number and kind.
    Already(u32, Kind),
    /// There is no room: so many words are used, it needs so many more, and the journal is so long.
    Full { used: u64, need: u64, updates: u64 },
    /// Memory was wanted.
    Want,
}

/// What an addition answers.
#[derive(Clone, Copy, Debug, PartialEq, Eq)]
pub enum Added {
    /// It was made; the clause has this name.
    Done(u64),
    /// There is no room, as for a declaration.
    Full { used: u64, need: u64, updates: u64 },
    /// Memory was wanted.
    Want,
}

/// What an erasure answers.
#[derive(Clone, Copy, Debug, PartialEq, Eq)]
pub enum Erased {
    /// It was made.
    Done,
    /// The clause is gone: the entry of this index erases it.
    Gone { at: u64 },
    /// The journal is as long as it may be.
    Full { updates: u64 },
}
