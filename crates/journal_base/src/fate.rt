// What became of the clauses of a list of entries.
ghost use Rattle.std.specs.Prelude.{◌≡◌, ◌<◌, length, slice_get, Some};
ghost use Rattle.journal_base.specs.Fates.{is_gone_by};

/// What became of the clause that an entry adds.
#[derive(Clone, Copy, Debug, PartialEq, Eq)]
pub(crate) enum Fate {
    /// The entry adds no clause.
    NoClause,
    /// No entry erases the clause.
    Alive,
    /// The entry of this index erases the clause.
    ErasedBy(u64),
}

/// Whether the clause is erased within so many entries.
pub(crate) fn gone_by(fate: Fate, front: u64) -> bool
    ensures { result ≡ is_gone_by fate front }
{
    match fate {
        Fate::NoClause => false,
        Fate::Alive => false,
        Fate::ErasedBy(at) => at < front,
    }
}

/// The fate of an entry's clause.
pub(crate) fn fate_at(fates: &[Fate], k: usize) -> Fate
    requires { k < length fates.now }
    ensures { slice_get fates.now k ≡ Some result }
{
    fates[k]
}
