//! `prolog [--steps N] [GOAL]`: reads a text of clauses on standard input, runs one goal over them and writes its answers.
//!
//! `prolog_session::top` is the whole program over any source and any sink; its clauses say what each status means, what the
//! sink gains and what is left of the source. `main` calls it with standard input and output.
#![tactic(auto)]

ghost use Rattle.std.specs.Prelude.{◌≡◌};
ghost use Rattle.std.specs.Process.{exit_status};

use journal_base::{OpenGate, Sizes};
use prolog_session::{Outcome, StdSink, StdSource, WANTED, Want, top};
use std::env;
use std::io::ErrorKind;
use std::process::ExitCode;

#[cfg(test)]
mod stream_tests;
#[cfg(test)]
mod tests;
#[cfg(test)]
mod text_tests;

/// The sizes of the database: its words and its updates.
const SIZES: Sizes = Sizes {
    words: 16_777_216,
    updates: 1_048_576,
};

fn main(rt: HostRuntime) -> ExitCode {
    let words = match words_after_the_first(&rt) {
        Ok(words) => words,
        Err(_) => return ExitCode::from(WANTED),
    };
    let mut source = StdSource::new(rt.stdin());
    let mut sink = StdSink::new(rt.stdout());
    let outcome = top(
        &rt,
        rt.alloc(),
        &words,
        SIZES,
        &mut source,
        &mut sink,
        &OpenGate,
    );
    ended(&outcome)
}

/// The program ends with the outcome's status.
fn ended(outcome: &Outcome) -> ExitCode
    ensures { exit_status result ≡ outcome.now.status }
{
    ExitCode::from(outcome.status)
}

/// The words after the program's name. Where they aren't UTF-8, they are one empty word, which is no goal.
fn words_after_the_first(rt: &HostRuntime) -> Result<Vec<String>, Want> {
    let mut words = Vec::new(rt.alloc());
    match env::args(rt) {
        Ok(args) => {
            for word in args.skip(1) {
                words.push(word)?;
            }
        }
        Err(error) => {
            if error.kind() == ErrorKind::OutOfMemory {
                return Err(Want);
            }
            words.push(String::new(rt.alloc()))?;
        }
    }
    Ok(words)
}
