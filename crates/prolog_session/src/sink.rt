//! Where bytes go.
ghost use Rattle.std.specs.Prelude.{◌≡◌, ℕ, ◌<◌, ◌≤◌, List, length};
ghost use Rattle.std.specs.declared.option.Option.{Option};
ghost use Rattle.prolog_session.specs.FaultCounts.{Rose};
ghost use Rattle.prolog_session.specs.Sinks.{WriteTakes};

/// What a write did.
#[derive(Clone, Copy, Debug, PartialEq, Eq)]
pub enum Put {
    /// It took this many bytes, at least one, from the front of the piece.
    Took(usize),
    /// It took nothing, since the sink failed.
    Failed,
    /// It took nothing for want of memory.
    Want,
}

/// Takes bytes, some at a call, until it fails or wants memory.
pub trait Sink {
    // The bytes written, where the sink tells them.
    ghost written: { Self → Option (List ℕ) };
    // How often it has failed.
    ghost faults: { Self → ℕ };

    /// Takes bytes from the front of a piece that isn't empty.
    fn write(&mut self, from: &[u8]) -> Put
        requires { 0 < length from.now }
        ensures writes { WriteTakes (written self.old) (written self.new) from.now result }
        ensures later { faults self.old ≤ faults self.new }
        ensures failed { result ≡ Put.Failed → Rose (faults self.old) (faults self.new) };
}
