// Counts of a run's work.
ghost use Rattle.std.specs.Prelude.{◌≡◌};

/// What a run asked of its database, and what that cost.
#[derive(Clone, Copy, Debug, PartialEq, Eq)]
pub struct Tally {
    /// Looks for clauses.
    pub looks: u64,
    /// Looks that scanned the procedure's clauses.
    pub scans: u64,
    /// Looks that used an index which is outgrown.
    pub kept: u64,
    /// Looks that wanted memory for an index.
    pub wants: u64,
    /// Clauses visited.
    pub visits: u64,
    /// Clauses read to build indexes.
    pub built: u64,
    /// Indexes published.
    pub indexes: u64,
}

impl Tally {
    /// Nothing counted yet.
    pub fn new() -> Tally
        ensures { result ≡ record { looks = 0; scans = 0; kept = 0; wants = 0; visits = 0; built = 0; indexes = 0 } }
    {
        Tally {
            looks: 0,
            scans: 0,
            kept: 0,
            wants: 0,
            visits: 0,
            built: 0,
            indexes: 0,
        }
    }
}
