// How a look found its clauses.

/// Why a look scans the procedure's clauses, or uses an index that is outgrown.
#[derive(Clone, Copy, Debug, PartialEq, Eq)]
pub enum Cause {
    /// The base has no indexes.
    Plain,
    /// The procedure has had fewer than 8 clauses.
    Few,
    /// The procedure's eight indexes have other patterns.
    Crowded,
    /// Another seat has claimed the index, by this word.
    Claimed(u64),
    /// The index at this mark would be too large.
    Barred(u64),
    /// No place for an index is free.
    NoPlace,
    /// The index was passed on meanwhile, as this word shows.
    Passed(u64),
    /// Memory was wanted while the index was built.
    NoMemory,
    /// This look has published an index, at this mark, which is outgrown already.
    Built(u64),
}

/// The index by which a look found its clauses.
#[derive(Clone, Copy, Debug, PartialEq, Eq)]
pub struct ByIndex {
    /// The journal's length at which it was made.
    pub mark: u64,
    /// How many clauses it covers.
    pub covered: u64,
    /// How many updates the procedure has had since.
    pub age: u64,
    /// How many clauses that were added in front the look passed over.
    pub late: u64,
    /// Why it is used although it is outgrown.
    pub kept: Option<Cause>,
}

/// How a look found its clauses.
#[derive(Clone, Copy, Debug, PartialEq, Eq)]
pub enum How {
    /// By an index.
    Indexed(ByIndex),
    /// By a scan of the procedure's clauses.
    Scanned(Cause),
}
