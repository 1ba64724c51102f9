// Worked sizes of entries, and worked journals.

ghost use Rattle.journal_base.specs.Examples.{HasRows, HasJournals};

/// The words of a declaration, of an addition and of an erasure, computed by the checker.
pub fn worked_words()
    ensures { HasRows }
{}

/// A journal that is legal, and journals that aren't, each for one cause.
pub fn worked_journals()
    ensures { HasJournals }
{}
