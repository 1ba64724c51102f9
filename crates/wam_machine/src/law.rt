// Laws of the machine's definition.
ghost use Rattle.wam_machine.specs.Machine.{TranscriptIsOne, StepsAreWithin, HasTranscript};
ghost use Rattle.wam_machine.specs.Laws.{GoalsAreBodies, CatchesHaveMarks, EachGoalRuns, LegalHasBodies, EngineLaws};
ghost use Rattle.wam_machine.specs.Found.{FindallsHaveMarks};
ghost use Rattle.wam_machine.specs.Defined.{DefinedAreCalled, ReservedAreDone};
ghost use Rattle.wam_machine.specs.Spine.{BodiesByWalk};
ghost use Rattle.wam_machine.specs.Rows.{HasRows};

/// A goal has at most one transcript over a journal and a list of fronts, and its steps are within the budget. Its run comes
/// to an end, unless it comes to a move that doesn't fit the journal or the fronts. Over clauses with bodies each goal is a body
/// at its turn.
pub fn transcript()
    ensures one { TranscriptIsOne }
    ensures within { StepsAreWithin }
    ensures total { HasTranscript }
    ensures goals { GoalsAreBodies }
{}

/// A ball that comes to the end of the active `catch` finds its mark.
pub fn catches_have_marks()
    ensures { CatchesHaveMarks }
{}

/// An answer of the goal of a `findall` finds its mark.
pub fn findalls_have_marks()
    ensures { FindallsHaveMarks }
{}

/// Worked rows of the machine's definition, computed.
pub fn rows()
    ensures { HasRows }
{}

/// Lists and terms as an engine keeps them.
pub fn engine_laws()
    ensures { EngineLaws }
{}

/// A term is made a body by a walk over its goals and connectives.
pub fn bodies_by_walk()
    ensures { BodiesByWalk }
{}

/// A goal whose name and arity are not reserved is the call of a procedure, so what a text or a goal may define is called
/// where it is a goal.
pub fn what_is_defined_is_called()
    ensures { DefinedAreCalled }
{}

/// A goal whose name and arity are reserved is never the call of a procedure.
pub fn what_is_reserved_is_done()
    ensures { ReservedAreDone }
{}

/// Each goal has a transcript over clauses with bodies, as those of a legal journal are, with its own updates behind them.
pub fn each_goal_runs()
    ensures runs { EachGoalRuns }
    ensures legal { LegalHasBodies }
{}
