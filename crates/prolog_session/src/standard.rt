//! A source over any reader of std, and a sink over any writer of std.
//!
//! These two are the trusted edge: what a file, a pipe or a terminal gives and takes stands in no contract. So they
//! tell no bytes. What is proved of them is that they pass on what the reader or the writer did, where that tells
//! its own bytes, and that they count each failure.
ghost use Rattle.std.specs.Prelude.{◌≡◌, ◌≢◌, ◌<◌, ◌≤◌, None, length};
ghost use Rattle.prolog_session.specs.FaultCounts.{Rose};
ghost use Rattle.prolog_session.specs.Sources.{ReadGives};
ghost use Rattle.prolog_session.specs.Sinks.{WriteTakes};
ghost use Rattle.prolog_session.specs.StandardMoves.{CountsFailedRead, CountsFailedWrite};

use crate::sink::{Put, Sink};
use crate::source::{Got, Source};
use std::io::{ErrorKind, Read, Write};
use std::marker::Model;

// How often an interrupted call is made again.
const MAX_RETRIES: u32 = 1000;

/// The trusted edge where bytes come in: reads from a reader of std. An interrupted read is made again, at most 1,000
/// times; any other error, or one interruption more, is a failure. A read of no bytes is the end.
#[derive(Drop)]
pub struct StdSource<I: Read> {
    reader: I,
    faults: u64,
}

impl<I: Read> Model for StdSource<I> {
    ghost use Rattle.prolog_session.specs.StandardMoves.{StdState};

    ghost Value = { StdState I };

    ghost view = { λ s. record { device = s.reader; faults = s.faults } };
}

impl<I: Read> StdSource<I> {
    /// A source over this reader that has not failed.
    pub fn new(reader: I) -> StdSource<I>
        ensures { result ≡ record { device = reader; faults = 0 } }
    {
        StdSource { reader, faults: 0 }
    }
}

impl<I: Read> Source for StdSource<I> {
    ghost left = { λ _. None };

    ghost faults = { λ s. s.faults };

    fn read(&mut self, into: &mut [u8]) -> Got
        requires { 0 < length into.old }
        ensures reads { ReadGives None None into.new result }
        ensures later { self.old.faults ≤ self.new.faults }
        ensures failed { result ≡ Got.Failed → Rose self.old.faults self.new.faults }
        ensures passed_on { ReadGives
            (I.remaining self.old.device) (I.remaining self.new.device) into.new result }
        ensures counted { CountsFailedRead self.old.faults self.new.faults result }
    {
        for _ in 0..=MAX_RETRIES {
            match self.reader.read(into) {
                Ok(0) => return Got::End,
                Ok(count) => return Got::Bytes(count),
                Err(error) => {
                    if error.kind() != ErrorKind::Interrupted {
                        break;
                    }
                }
            }
        }
        self.faults = self.faults.saturating_add(1);
        Got::Failed
    }
}

/// The trusted edge where bytes go out: writes to a writer of std. An interrupted write is made again, at most 1,000
/// times; any other error, one interruption more, or a write that takes no byte is a failure. It never wants memory.
#[derive(Drop)]
pub struct StdSink<O: Write> {
    writer: O,
    faults: u64,
}

impl<O: Write> Model for StdSink<O> {
    ghost use Rattle.prolog_session.specs.StandardMoves.{StdState};

    ghost Value = { StdState O };

    ghost view = { λ s. record { device = s.writer; faults = s.faults } };
}

impl<O: Write> StdSink<O> {
    /// A sink over this writer that has not failed.
    pub fn new(writer: O) -> StdSink<O>
        ensures { result ≡ record { device = writer; faults = 0 } }
    {
        StdSink { writer, faults: 0 }
    }
}

impl<O: Write> Sink for StdSink<O> {
    ghost written = { λ _. None };

    ghost faults = { λ s. s.faults };

    fn write(&mut self, from: &[u8]) -> Put
        requires { 0 < length from.now }
        ensures writes { WriteTakes None None from.now result }
        ensures later { self.old.faults ≤ self.new.faults }
        ensures failed { result ≡ Put.Failed → Rose self.old.faults self.new.faults }
        ensures wants_none { result ≢ Put.Want }
        ensures passed_on { WriteTakes
            (O.contents self.old.device) (O.contents self.new.device) from.now result }
        ensures counted { CountsFailedWrite self.old.faults self.new.faults result }
    {
        for _ in 0..=MAX_RETRIES {
            match self.writer.write(from) {
                Ok(0) => break,
                Ok(count) => return Put::Took(count),
                Err(error) => {
                    if error.kind() != ErrorKind::Interrupted {
                        break;
                    }
                }
            }
        }
        self.faults = self.faults.saturating_add(1);
        Put::Failed
    }
}
