// All that is done before the first byte is written.
ghost use Rattle.std.specs.Prelude.{◌≡◌, ◌≤◌, IfOk, map, string_bytes};
ghost use Rattle.journal_base.specs.View.{AreSizes};
ghost use Rattle.prolog_session.specs.FaultCounts.{Rose};
ghost use Rattle.prolog_session.specs.Words.{command_of};
ghost use Rattle.prolog_session.specs.Prepared.{Prepares, status_before, text_before};

use crate::load::load_text;
use crate::refusal::{Refusal, text_of};
use crate::run::{run_command, status_of_runs};
use crate::texts::{output, refused_text};
use crate::words::read_command;
use crate::{Runs, Source, Text, read_all};
use journal_base::{Base, Gate, Sizes};
use prolog_terms::{Entries, Ops, Want};
use std::alloc::Global;
use std::sync::Wait;

/// What the words and the source lead to.
#[derive(Drop)]
pub enum Prepared {
    BadWords,
    SourceFailed,
    TooLong,
    Refused(Entries, Runs, Ops, Refusal),
    Ran(Entries, Runs, Ops),
}

/// Reads the words and the source, loads the text and runs the goal. Each goal of the text has the steps of the words, too.
pub fn prepare<R: Wait, S: Source, G: Gate>(
    rt: &R,
    alloc: Global,
    words: &[String],
    sizes: Sizes,
    source: &mut S,
    gate: &G,
) -> Result<Prepared, Want>
    requires { AreSizes sizes.words sizes.updates }
    ensures prepares { IfOk result (Prepares sizes (command_of (map string_bytes words.now)) (S.left source.old) (S.left source.new)) }
    ensures later { S.faults source.old ≤ S.faults source.new }
    ensures failed { IfOk result (λ p. p ≡ Prepared.SourceFailed → Rose (S.faults source.old) (S.faults source.new)) }
{
    let ops = Ops::initial(alloc)?;
    let command = match read_command(alloc, &ops, words)? {
        Some(command) => command,
        None => return Ok(Prepared::BadWords),
    };
    let text = match read_all(alloc, source) {
        Text::Whole(text) => text,
        Text::TooLong => return Ok(Prepared::TooLong),
        Text::Failed => return Ok(Prepared::SourceFailed),
        Text::Want => return Err(Want),
    };
    let load = load_text(rt, alloc, gate, command.steps, sizes, &text)?;
    // For its clause `sound`.
    let _front = load.base.front();
    if let Some(refusal) = load.refused {
        return Ok(Prepared::Refused(load.base.into_entries(), load.runs, load.ops, refusal));
    }
    let ran = run_command(rt, alloc, gate, command, load)?;
    Ok(Prepared::Ran(ran.journal, ran.runs, ran.ops))
}

/// The status, unless the sink fails or memory is wanted.
pub fn status_of_prepared(prepared: &Prepared) -> u8
    ensures { result ≡ status_before prepared.now }
{
    match prepared {
        Prepared::BadWords => 2,
        Prepared::SourceFailed => 4,
        Prepared::TooLong => 8,
        Prepared::Refused(_, _, _, _) => 3,
        Prepared::Ran(_, runs, _) => status_of_runs(runs.items()),
    }
}

/// What is to be written.
#[tactic(auto, unfolding(crate::specs::Errors::bad_words_text, crate::specs::Errors::source_text, crate::specs::Errors::too_long_text))]
pub fn text_of_prepared(alloc: Global, prepared: &Prepared) -> Result<Vec<u8>, Want>
    ensures { IfOk result (λ text. text.items ≡ text_before prepared.now) }
{
    match prepared {
        Prepared::BadWords => text_of(alloc, "error: bad words.\n"),
        Prepared::SourceFailed => text_of(alloc, "error: source.\n"),
        Prepared::TooLong => text_of(alloc, "error: text too long.\n"),
        Prepared::Refused(_, runs, ops, refusal) => {
            refused_text(alloc, ops, runs.items(), *refusal)
        }
        Prepared::Ran(_, runs, ops) => output(alloc, ops, runs.items()),
    }
}
