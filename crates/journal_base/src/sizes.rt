// How much a database may hold.

/// How much a database may hold: words for its records, from 1 to 2^30, and updates, from 1 to 2^24 - 1.
#[derive(Clone, Copy, Debug, PartialEq, Eq)]
pub struct Sizes {
    pub words: u64,
    pub updates: u64,
}
