//! A source and a sink in memory that tell their bytes and never fail.
ghost use Rattle.std.specs.Prelude.{◌≡◌, ◌≢◌, ◌<◌, ◌≤◌, Some, [], length, IfOk};
ghost use Rattle.prolog_session.specs.Sources.{ReadGives};
ghost use Rattle.prolog_session.specs.Sinks.{WriteTakes};
ghost use Rattle.prolog_session.specs.SteadyMoves.{SteadyGives, SteadyTakes};

use crate::memory::copy_next;
use crate::sink::{Put, Sink};
use crate::source::{Got, Source};
use prolog_terms::Want;
use std::alloc::Global;
use std::marker::Model;

/// Gives at most `step` bytes a call, and never fails.
#[derive(Drop)]
pub struct SteadySource {
    bytes: Vec<u8>,
    at: usize,
    step: usize,
}

impl Model for SteadySource {
    ghost use Rattle.std.specs.Prelude.{◌<◌, ◌≤◌, length, drop};
    ghost use Rattle.prolog_session.specs.SteadyMoves.{SteadySourceState};

    ghost Value = { SteadySourceState };

    ghost view = { λ s. record { left = drop s.at s.bytes.items; step = s.step } };

    ghost invariant = { λ s. (s.at ≤ length s.bytes.items) × (0 < s.step) };
}

impl SteadySource {
    /// A source of these bytes.
    pub fn new(bytes: Vec<u8>, step: usize) -> SteadySource
        requires { 0 < step }
        ensures { result ≡ record { left = bytes.items; step = step } }
    {
        SteadySource { bytes, at: 0, step }
    }
}

impl Source for SteadySource {
    ghost left = { λ s. Some s.left };

    ghost faults = { λ _. 0 };

    fn read(&mut self, into: &mut [u8]) -> Got
        requires { 0 < length into.old }
        ensures reads { ReadGives (Some self.old.left) (Some self.new.left) into.new result }
        ensures failed { result ≢ Got.Failed }
        ensures exact { SteadyGives self.old self.new (length into.old) result }
    {
        let count = copy_next(&self.bytes, self.at, self.step, into);
        if count == 0 {
            return Got::End;
        }
        self.at += count;
        Got::Bytes(count)
    }
}

/// Takes at most `step` bytes a call, and never fails.
#[derive(Drop)]
pub struct SteadySink {
    bytes: Vec<u8>,
    step: usize,
}

impl Model for SteadySink {
    ghost use Rattle.std.specs.Prelude.{◌<◌};
    ghost use Rattle.prolog_session.specs.SteadyMoves.{SteadySinkState};

    ghost Value = { SteadySinkState };

    ghost view = { λ s. record { written = s.bytes.items; step = s.step } };

    ghost invariant = { λ s. 0 < s.step };
}

impl SteadySink {
    /// A sink that nothing was written to. Nothing is allocated for it yet.
    pub fn new(alloc: Global, step: usize) -> Result<SteadySink, Want>
        requires { 0 < step }
        ensures { IfOk result (λ s. s ≡ record { written = []; step = step }) }
    {
        Ok(SteadySink {
            bytes: Vec::new(alloc),
            step,
        })
    }

    /// What was written, in order.
    pub fn bytes(&self) -> &[u8]
        ensures { result.now ≡ self.now.written }
    {
        &self.bytes
    }
}

impl Sink for SteadySink {
    ghost written = { λ s. Some s.written };

    ghost faults = { λ _. 0 };

    fn write(&mut self, from: &[u8]) -> Put
        requires { 0 < length from.now }
        ensures writes { WriteTakes (Some self.old.written) (Some self.new.written) from.now result }
        ensures failed { result ≢ Put.Failed }
        ensures exact { SteadyTakes self.old self.new from.now result }
    {
        let count = from.len().min(self.step);
        match self.bytes.extend_from_slice(&from[..count]) {
            Ok(()) => Put::Took(count),
            Err(_) => Put::Want,
        }
    }
}
