// What is amiss with a table.
use prolog_session::Want;
use std::alloc::{AllocError, AllocFailed};

/// Why a table can't be read.
#[derive(Clone, Copy, Debug, PartialEq, Eq)]
pub enum Fault {
    /// Memory was wanted.
    Want,
    /// The table isn't UTF-8.
    NotText,
    /// A line begins as none does.
    NoSuchLine,
    /// A part of a row stands before the first row.
    NoRow,
    /// A piece has a `\` that begins no escape.
    NoEscape,
    /// A number is out of its form or range.
    NoNumber,
    /// A word isn't UTF-8, or more of a word comes before the first word.
    NoWord,
}

impl From<Want> for Fault {
    fn from(_want: Want) -> Fault {
        Fault::Want
    }
}

impl From<AllocError> for Fault {
    fn from(_error: AllocError) -> Fault {
        Fault::Want
    }
}

impl<T: Drop> From<AllocFailed<T>> for Fault {
    fn from(_failed: AllocFailed<T>) -> Fault {
        Fault::Want
    }
}
