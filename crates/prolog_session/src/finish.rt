// What is done after the preparation: the writing, and the outcome.
ghost use Rattle.std.specs.Prelude.{◌≡◌, ◌≤◌, [], Ok, None};
ghost use Rattle.prolog_session.specs.FaultCounts.{Rose};
ghost use Rattle.prolog_session.specs.Ends.{Finishes, failed_status, journal_left, runs_left, operators_left, final_status, final_journal, final_runs, final_operators};

use crate::prepare::{Prepared, status_of_prepared, text_of_prepared};
use crate::{Runs, Sink, Written, write_all};
use prolog_terms::{Entries, Ops, Want};
use std::alloc::Global;

/// The status, and the journal and the runs where the status tells them.
#[derive(Drop)]
pub struct Outcome {
    pub status: u8,
    pub journal: Entries,
    pub runs: Runs,
    /// The operators behind the text, or at the read-term that is refused; none where no text was loaded.
    pub ops: Option<Ops>,
}

/// The status where memory is wanted.
pub const WANTED: u8 = 6;

/// The status where the sink fails while the text of runs is written.
const SINK_FAILED: u8 = 5;

fn outcome_of(alloc: Global, status: u8, prepared: Prepared) -> Outcome
    ensures status { result.status ≡ status }
    ensures journal { result.journal ≡ journal_left prepared }
    ensures runs { result.runs ≡ runs_left prepared }
    ensures operators { result.ops ≡ operators_left prepared }
{
    let mut journal = Entries::new(alloc);
    let mut runs = Runs::new(alloc);
    let mut operators = None;
    match prepared {
        Prepared::BadWords | Prepared::SourceFailed | Prepared::TooLong => {}
        Prepared::Refused(loaded, ran, ops, _) => {
            journal = loaded;
            runs = ran;
            operators = Some(ops);
        }
        Prepared::Ran(loaded, ran, ops) => {
            journal = loaded;
            runs = ran;
            operators = Some(ops);
        }
    }
    Outcome {
        status,
        journal,
        runs,
        ops: operators,
    }
}

fn wanted(alloc: Global) -> Outcome
    ensures status { result.status ≡ 6 }
    ensures journal { result.journal ≡ [] }
    ensures runs { result.runs ≡ [] }
    ensures operators { result.ops ≡ None }
{
    Outcome {
        status: WANTED,
        journal: Entries::new(alloc),
        runs: Runs::new(alloc),
        ops: None,
    }
}

fn status_after_failure(prepared: &Prepared) -> u8
    ensures { result ≡ failed_status prepared.now }
{
    match prepared {
        Prepared::Ran(_, _, _) => SINK_FAILED,
        _ => status_of_prepared(prepared),
    }
}

fn concluded(alloc: Global, prepared: Prepared, written: Written) -> Outcome
    ensures status { result.status ≡ final_status (Ok prepared) written }
    ensures journal { result.journal ≡ final_journal (Ok prepared) written }
    ensures runs { result.runs ≡ final_runs (Ok prepared) written }
    ensures operators { result.ops ≡ final_operators (Ok prepared) written }
{
    match written {
        Written::All => outcome_of(alloc, status_of_prepared(&prepared), prepared),
        Written::Failed => outcome_of(alloc, status_after_failure(&prepared), prepared),
        Written::Want => wanted(alloc),
    }
}

/// Writes what was prepared.
pub fn finish<K: Sink>(alloc: Global, sink: &mut K, prepared: Result<Prepared, Want>) -> Outcome
    ensures finishes { Finishes prepared (K.written sink.old) (K.written sink.new) (Rose (K.faults sink.old) (K.faults sink.new)) result.status result.journal result.runs result.ops }
    ensures later { K.faults sink.old ≤ K.faults sink.new }
{
    let prepared = match prepared {
        Ok(prepared) => prepared,
        Err(_) => return wanted(alloc),
    };
    let text = match text_of_prepared(alloc, &prepared) {
        Ok(text) => text,
        Err(_) => return wanted(alloc),
    };
    let written = write_all(sink, &text);
    concluded(alloc, prepared, written)
}
