// Laws of procedures and their numbers, and a worked journal.

ghost use Rattle.journals.specs.Examples.{HasRows};
ghost use Rattle.journals.specs.Laws.{IndicatorsAreEqual, NewNumber, NumbersStay};

/// An entry more leaves each procedure its number; a declaration gives the new one the number of those before it, and no
/// other indicator gets one. Indicators are the same exactly where they are equal.
pub fn numbers_stay()
    ensures stay { NumbersStay }
    ensures new { NewNumber }
    ensures equal { IndicatorsAreEqual }
{}

/// A worked journal, computed by the checker.
pub fn worked_journal()
    ensures { HasRows }
{}
