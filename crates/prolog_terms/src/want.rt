// Want of memory.

use std::alloc::{AllocError, AllocFailed};

/// An allocation was refused. It is the one answer that no contract ties to a cause.
#[derive(Clone, Copy, Debug, PartialEq, Eq)]
pub struct Want;

impl From<AllocError> for Want {
    fn from(_: AllocError) -> Want {
        Want
    }
}

impl<T: Drop> From<AllocFailed<T>> for Want {
    fn from(_: AllocFailed<T>) -> Want {
        Want
    }
}
