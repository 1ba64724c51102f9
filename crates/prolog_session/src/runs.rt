// The runs of a load and of a command.
ghost use Rattle.std.specs.Prelude.{◌≡◌, ◌++◌, ◌∷◌, [], OnOk};

use prolog_terms::Want;
use std::alloc::Global;
use std::marker::Model;
use wam_machine::Run;

/// The runs of the load, which are engine 0's, and those of the goals, in order.
#[derive(Debug, Drop)]
pub struct Runs {
    items: Vec<Run>,
}

impl Model for Runs {
    ghost use Rattle.std.specs.Prelude.{List};
    ghost use Rattle.wam_machine.specs.declared.run.Run.{Run};
    ghost use Rattle.wam_machine.specs.contracts.run.Run as of_run;
    ghost use Rattle.std.specs.Coded.{coded_list};

    ghost Value = { List Run };

    ghost coded = { coded_list of_run.the_row.coded };

    ghost view = { λ r. r.items.items };
}

impl Runs {
    /// No run.
    pub fn new(alloc: Global) -> Runs
        ensures { result ≡ [] }
    {
        Runs {
            items: Vec::new(alloc),
        }
    }

    /// One run more, at the end.
    pub fn push(&mut self, run: Run) -> Result<(), Want>
        ensures { OnOk result (self.new ≡ self.old ++ run ∷ []) }
    {
        self.items.push(run)?;
        Ok(())
    }

    /// The runs.
    pub fn items(&self) -> &[Run]
        ensures { result.now ≡ self.now }
    {
        self.items.as_slice()
    }
}
