//! Where bytes come from.
ghost use Rattle.std.specs.Prelude.{◌≡◌, ℕ, ◌<◌, ◌≤◌, List, length};
ghost use Rattle.std.specs.declared.option.Option.{Option};
ghost use Rattle.prolog_session.specs.FaultCounts.{Rose};
ghost use Rattle.prolog_session.specs.Sources.{ReadGives};

/// What a read gave.
#[derive(Clone, Copy, Debug, PartialEq, Eq)]
pub enum Got {
    /// This many bytes, at least one, moved into the front of the slice.
    Bytes(usize),
    /// Nothing, since no byte is left.
    End,
    /// Nothing, since the source failed.
    Failed,
}

/// Gives bytes, some at a call, until none is left or it fails.
pub trait Source {
    // The bytes that are left, where the source tells them.
    ghost left: { Self → Option (List ℕ) };
    // How often it has failed.
    ghost faults: { Self → ℕ };

    /// Moves the next bytes into the front of a slice that isn't empty.
    fn read(&mut self, into: &mut [u8]) -> Got
        requires { 0 < length into.old }
        ensures reads { ReadGives (left self.old) (left self.new) into.new result }
        ensures later { faults self.old ≤ faults self.new }
        ensures failed { result ≡ Got.Failed → Rose (faults self.old) (faults self.new) };
}
