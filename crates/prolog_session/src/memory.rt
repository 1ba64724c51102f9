//! A source and a sink in memory that tell their bytes and fail where they are told to.
ghost use Rattle.std.specs.Prelude.{◌≡◌, ◌+◌, ◌<◌, ◌≤◌, Some, [], ◌++◌, length, take, drop, min, IfOk};
ghost use Rattle.prolog_session.specs.FaultCounts.{Rose};
ghost use Rattle.prolog_session.specs.Sources.{ReadGives};
ghost use Rattle.prolog_session.specs.Sinks.{WriteTakes};
ghost use Rattle.prolog_session.specs.MemoryMoves.{MemoryGives, MemoryTakes};

use crate::sink::{Put, Sink};
use crate::source::{Got, Source};
use prolog_terms::Want;
use std::alloc::Global;
use std::marker::Model;

/// Gives at most `step` bytes a call, and fails at the calls whose numbers, counted from 1, stand in `fails`. Those
/// calls move nothing; the next call goes on where the last one stopped.
#[derive(Drop)]
pub struct MemorySource {
    bytes: Vec<u8>,
    at: usize,
    step: usize,
    fails: Vec<u64>,
    calls: u64,
    faults: u64,
}

impl Model for MemorySource {
    ghost use Rattle.std.specs.Prelude.{◌<◌, ◌≤◌, length, drop};
    ghost use Rattle.prolog_session.specs.MemoryMoves.{MemorySourceState};

    ghost Value = { MemorySourceState };

    ghost view = { λ s. record {
      left = drop s.at s.bytes.items;
      step = s.step;
      fails = s.fails.items;
      calls = s.calls;
      faults = s.faults;
    } };

    ghost invariant = { λ s. (s.at ≤ length s.bytes.items) × (0 < s.step) };
}

impl MemorySource {
    /// A source of these bytes that has not been called.
    pub fn new(bytes: Vec<u8>, step: usize, fails: Vec<u64>) -> MemorySource
        requires { 0 < step }
        ensures { result ≡ record {
          left = bytes.items;
          step = step;
          fails = fails.items;
          calls = 0;
          faults = 0;
        } }
    {
        MemorySource {
            bytes,
            at: 0,
            step,
            fails,
            calls: 0,
            faults: 0,
        }
    }
}

impl Source for MemorySource {
    ghost left = { λ s. Some s.left };

    ghost faults = { λ s. s.faults };

    fn read(&mut self, into: &mut [u8]) -> Got
        requires { 0 < length into.old }
        ensures reads { ReadGives (Some self.old.left) (Some self.new.left) into.new result }
        ensures later { self.old.faults ≤ self.new.faults }
        ensures failed { result ≡ Got.Failed → Rose self.old.faults self.new.faults }
        ensures exact { MemoryGives self.old self.new (length into.old) result }
    {
        self.calls = self.calls.saturating_add(1);
        if self.fails.contains(&self.calls) {
            self.faults = self.faults.saturating_add(1);
            return Got::Failed;
        }
        let count = copy_next(&self.bytes, self.at, self.step, into);
        if count == 0 {
            return Got::End;
        }
        self.at += count;
        Got::Bytes(count)
    }
}

// Copies the next bytes after the first `at` into the front of a slice, at most `step` of them, and says how many.
pub(crate) fn copy_next(bytes: &[u8], at: usize, step: usize, into: &mut [u8]) -> usize
    requires { at ≤ length bytes.now }
    ensures count { result ≡ min (min (length (drop at bytes.now)) step) (length into.old) }
    ensures moved { drop at bytes.now ≡ take result into.new ++ drop (at + result) bytes.now }
{
    let count = (bytes.len() - at).min(step).min(into.len());
    into[..count].copy_from_slice(&bytes[at..at + count]);
    count
}

/// Takes at most `step` bytes a call and at most `room` bytes in all. It fails once it has taken them, and at the
/// calls whose numbers, counted from 1, stand in `fails`.
#[derive(Drop)]
pub struct MemorySink {
    bytes: Vec<u8>,
    step: usize,
    room: u64,
    fails: Vec<u64>,
    calls: u64,
    faults: u64,
}

impl Model for MemorySink {
    ghost use Rattle.std.specs.Prelude.{◌<◌};
    ghost use Rattle.prolog_session.specs.MemoryMoves.{MemorySinkState};

    ghost Value = { MemorySinkState };

    ghost view = { λ s. record {
      written = s.bytes.items;
      step = s.step;
      room = s.room;
      fails = s.fails.items;
      calls = s.calls;
      faults = s.faults;
    } };

    ghost invariant = { λ s. 0 < s.step };
}

impl MemorySink {
    /// A sink that has not been called. Nothing is allocated for it yet.
    pub fn new(alloc: Global, step: usize, room: u64, fails: Vec<u64>) -> Result<MemorySink, Want>
        requires { 0 < step }
        ensures { IfOk result (λ s. s ≡ record {
          written = [];
          step = step;
          room = room;
          fails = fails.items;
          calls = 0;
          faults = 0;
        }) }
    {
        Ok(MemorySink {
            bytes: Vec::new(alloc),
            step,
            room,
            fails,
            calls: 0,
            faults: 0,
        })
    }

    /// What was written, in order.
    pub fn bytes(&self) -> &[u8]
        ensures { result.now ≡ self.now.written }
    {
        &self.bytes
    }
}

impl Sink for MemorySink {
    ghost written = { λ s. Some s.written };

    ghost faults = { λ s. s.faults };

    fn write(&mut self, from: &[u8]) -> Put
        requires { 0 < length from.now }
        ensures writes { WriteTakes (Some self.old.written) (Some self.new.written) from.now result }
        ensures later { self.old.faults ≤ self.new.faults }
        ensures failed { result ≡ Put.Failed → Rose self.old.faults self.new.faults }
        ensures exact { MemoryTakes self.old self.new from.now result }
    {
        self.calls = self.calls.saturating_add(1);
        let room = self.room.saturating_sub(self.bytes.len() as u64);
        let count = from.len().min(self.step).min(room as usize);
        if count == 0 || self.fails.contains(&self.calls) {
            self.faults = self.faults.saturating_add(1);
            return Put::Failed;
        }
        match self.bytes.extend_from_slice(&from[..count]) {
            Ok(()) => Put::Took(count),
            Err(_) => Put::Want,
        }
    }
}
