// The goals of a text.
ghost use Rattle.std.specs.Prelude.{◌≡◌, ◌++◌, ◌∷◌, [], OnOk};

use prolog_terms::Want;
use std::alloc::Global;
use std::marker::Model;
use wam_machine::Goal;

/// A goal of a text, and the line of its directive.
#[derive(Debug, Drop)]
pub struct TextGoal {
    pub line: u64,
    pub goal: Goal,
}

/// The goals that are kept for the end of a text, in order.
#[derive(Debug, Drop)]
pub struct Kept {
    goals: Vec<TextGoal>,
}

impl Model for Kept {
    ghost use Rattle.std.specs.Prelude.{List};
    ghost use Rattle.prolog_session.specs.declared.kept.TextGoal.{TextGoal};
    ghost use Rattle.prolog_session.specs.contracts.kept.TextGoal as of_goal;
    ghost use Rattle.std.specs.Coded.{coded_list};

    ghost Value = { List TextGoal };

    ghost coded = { coded_list of_goal.the_row.coded };

    ghost view = { λ k. k.goals.items };
}

impl Kept {
    /// No goal.
    pub fn new(alloc: Global) -> Kept
        ensures { result ≡ [] }
    {
        Kept {
            goals: Vec::new(alloc),
        }
    }

    /// One goal more, at the end.
    pub fn push(&mut self, goal: TextGoal) -> Result<(), Want>
        ensures { OnOk result (self.new ≡ self.old ++ goal ∷ []) }
    {
        self.goals.push(goal)?;
        Ok(())
    }

    /// The goals.
    pub fn items(&self) -> &[TextGoal]
        ensures { result.now ≡ self.now }
    {
        self.goals.as_slice()
    }
}
