//! Runs a table of rows: each is a text, the words of a command, and what `prolog` makes of them. The table comes on standard
//! input, as the files in `rows/` at the top of the repository say it (docs/CONTRIBUTING.md has the format), and each row is
//! run by `prolog_session::top` over memory. A row that isn't answered as it says is told, with what came and what was wanted.
//!
//! The status is 0 where each row is as it says, and each row that must differ does; 1 where one isn't; 2 where the table can't
//! be read.
#![tactic(auto)]

mod fault;
mod gate;
mod journal_text;
mod piece;
mod report;
mod row;
mod run_text;
mod table;
mod trial;

use fault::Fault;
use prolog_session::{StdSink, StdSource, Text, Written, read_all, write_all};
use report::{Report, fault_text};
use std::alloc::Global;
use std::process::ExitCode;
use std::sync::Wait;
use std::thread::Threads;
use table::{Part, part_of};

/// The status where a row isn't answered as it says.
const DIFFERS: u8 = 1;

/// The status where the table can't be read.
const NO_TABLE: u8 = 2;

fn main(rt: HostRuntime) -> ExitCode {
    let alloc = rt.alloc();
    let mut source = StdSource::new(rt.stdin());
    let mut report = Report::new(alloc);
    let status = match read_all(alloc, &mut source) {
        Text::Whole(bytes) => status_of_table(&rt, alloc, &bytes, &mut report),
        _ => NO_TABLE,
    };
    let mut sink = StdSink::new(rt.stdout());
    match write_all(&mut sink, report.bytes()) {
        Written::All => ExitCode::from(status),
        _ => ExitCode::from(NO_TABLE),
    }
}

/// Runs the rows of a table, and tells what came of them.
fn status_of_table<R: Threads + Wait + Sync>(
    rt: &R,
    alloc: Global,
    bytes: &[u8],
    report: &mut Report,
) -> u8 {
    let mut line = 0u64;
    match run_table(rt, alloc, bytes, report, &mut line) {
        Ok(()) if report.is_good() => 0,
        Ok(()) => DIFFERS,
        Err(fault) => {
            let _ = report.say_fault(line, fault_text(fault));
            NO_TABLE
        }
    }
}

/// Runs each row where the next one begins, and the last one at the end. `line` counts the lines that were read.
fn run_table<R: Threads + Wait + Sync>(
    rt: &R,
    alloc: Global,
    bytes: &[u8],
    report: &mut Report,
    line: &mut u64,
) -> Result<(), Fault> {
    let text = std::str::from_utf8(bytes).map_err(|_| Fault::NotText)?;
    let mut row = None;
    for read in text.lines() {
        *line = line.saturating_add(1);
        match part_of(read)? {
            Part::Nothing => {}
            Part::Begin(name, must_differ) => {
                if let Some(done) = row.replace(row::Row::new(alloc, name, must_differ)?) {
                    trial::try_row(rt, alloc, &done, report)?;
                }
            }
            Part::Of(part) => match &mut row {
                Some(row) => row.take(alloc, part)?,
                None => return Err(Fault::NoRow),
            },
        }
    }
    if let Some(done) = row {
        trial::try_row(rt, alloc, &done, report)?;
    }
    report.say_counts()?;
    Ok(())
}
