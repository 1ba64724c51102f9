// What the most general unifier is, case by case of the two terms.
ghost use Rattle.term_unifier.specs.Laws.{UnifierIsMostGeneral, Decomposition, InTurn, SameUnifiers, Elimination, YoungerToOlder, Identity, OccursCheck, Clash, Symmetry, Idempotence};
ghost use Rattle.term_unifier.specs.Resolved.{BindingsUnify, BindingsStand, StepUnifies};
ghost use Rattle.term_unifier.specs.Rows.{HasRows};

/// What the unifier of two terms is, by what they are: two compounds of a name, a variable and a term, two terms that
/// clash, and any two terms.
pub fn laws()
    ensures most_general { UnifierIsMostGeneral }
    ensures decomposition { Decomposition }
    ensures in_turn { InTurn }
    ensures same_unifiers { SameUnifiers }
    ensures elimination { Elimination }
    ensures younger_to_older { YoungerToOlder }
    ensures identity { Identity }
    ensures occurs_check { OccursCheck }
    ensures clash { Clash }
    ensures symmetry { Symmetry }
    ensures idempotence { Idempotence }
{}

/// What bindings are that a store keeps: a most general unifier, where their solutions are the unifiers of two terms; and
/// after older ones, the older ones and then the most general unifier of what the two terms stood for.
pub fn bindings()
    ensures unify { BindingsUnify }
    ensures stand { BindingsStand }
    ensures step { StepUnifies }
{}

/// Worked rows, which the checker computes.
pub fn rows()
    ensures { HasRows }
{}
