// The trial of a row.
ghost use Rattle.std.specs.Prelude.{◌<◌};

use crate::fault::Fault;
use crate::gate::CountingGate;
use crate::journal_text::journal_text;
use crate::report::Report;
use crate::row::Row;
use crate::run_text::runs_text;
use prolog_session::{SteadySink, SteadySource, Want, top};
use std::alloc::Global;
use std::sync::Wait;
use std::thread::Threads;

/// What a row's run gave.
#[derive(Drop)]
pub struct Came {
    pub status: u8,
    pub output: Vec<u8>,
    pub journal: Vec<u8>,
    pub runs: Vec<u8>,
    pub passes: Vec<u8>,
}

/// The words of a row's command.
fn words_of(alloc: Global, row: &Row) -> Result<Vec<String>, Fault> {
    let mut words = Vec::new(alloc);
    for word in row.words.iter() {
        let text = std::str::from_utf8(word).map_err(|_| Fault::NoWord)?;
        words.push(String::from_str(alloc, text)?)?;
    }
    Ok(words)
}

/// Runs a row, where source and sink take so many bytes a call.
fn run_row<R: Threads + Wait + Sync>(
    rt: &R,
    alloc: Global,
    row: &Row,
    step: usize,
) -> Result<Came, Fault>
    requires { 0 < step }
{
    let words = words_of(alloc, row)?;
    let gate = CountingGate::new();
    let mut source = SteadySource::new(row.text.clone()?, step);
    let mut sink = SteadySink::new(alloc, step)?;
    let sizes = row.sizes.sizes();
    let outcome = top(rt, alloc, &words, sizes, &mut source, &mut sink, &gate);
    let (passes, engine, look) = gate.counted();
    Ok(Came {
        status: outcome.status,
        output: Vec::from_slice(alloc, sink.bytes())?,
        journal: journal_text(alloc, &outcome.journal, &outcome.ops)?,
        runs: runs_text(alloc, &outcome.runs)?,
        passes: format!(in alloc; "{passes} {engine} {look}\n")?.into_bytes(),
    })
}

/// Whether what is asked for, if it is, is what came.
fn meets(wanted: &Option<Vec<u8>>, came: &Vec<u8>) -> bool {
    match wanted {
        Some(wanted) => wanted.as_slice() == came.as_slice(),
        None => true,
    }
}

/// Whether what came is what the row says.
fn is_as_wanted(row: &Row, came: &Came) -> bool {
    row.wanted.status == came.status
        && row.wanted.output.as_slice() == came.output.as_slice()
        && meets(&row.wanted.journal, &came.journal)
        && meets(&row.wanted.runs, &came.runs)
        && meets(&row.wanted.passes, &came.passes)
}

/// Runs a row at this step, and tells where it is as it says but must differ, or differs but must not.
fn try_at<R: Threads + Wait + Sync>(
    rt: &R,
    alloc: Global,
    row: &Row,
    step: usize,
    report: &mut Report,
) -> Result<bool, Fault>
    requires { 0 < step }
{
    let came = run_row(rt, alloc, row, step)?;
    if is_as_wanted(row, &came) != row.must_differ {
        return Ok(true);
    }
    report.say_row(row, &came)?;
    Ok(false)
}

/// Runs a row, with one, two and three bytes a call where it doesn't say how many, up to the first at which it isn't as it
/// should be.
pub fn try_row<R: Threads + Wait + Sync>(
    rt: &R,
    alloc: Global,
    row: &Row,
    report: &mut Report,
) -> Result<(), Fault> {
    let good = match row.step {
        Some(step) => try_at(rt, alloc, row, step.max(1), report)?,
        None => {
            try_at(rt, alloc, row, 1, report)?
                && try_at(rt, alloc, row, 2, report)?
                && try_at(rt, alloc, row, 3, report)?
        }
    };
    report.count(row.must_differ, good);
    Ok(())
}
