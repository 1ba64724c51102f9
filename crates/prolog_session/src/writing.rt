//! A whole text into a sink.
ghost use Rattle.std.specs.Prelude.{◌≡◌, ◌≤◌};
ghost use Rattle.std.specs.Io.KnownBytes.{Appends};
ghost use Rattle.prolog_session.specs.FaultCounts.{Rose};
ghost use Rattle.prolog_session.specs.Sinks.{AppendsPrefix};

use crate::sink::{Put, Sink};

/// What writing a whole text came to.
#[derive(Clone, Copy, Debug, PartialEq, Eq)]
pub enum Written {
    /// The sink took all bytes.
    All,
    /// The sink failed, after some of the bytes from the front.
    Failed,
    /// The sink wanted memory, after some of the bytes from the front.
    Want,
}

/// Writes all bytes, in as many pieces as the sink takes.
pub fn write_all<K: Sink>(sink: &mut K, bytes: &[u8]) -> Written
    ensures all { result ≡ Written.All → Appends (K.written sink.old) (K.written sink.new) bytes.now }
    ensures prefix { AppendsPrefix (K.written sink.old) (K.written sink.new) bytes.now }
    ensures later { K.faults sink.old ≤ K.faults sink.new }
    ensures failed { result ≡ Written.Failed → Rose (K.faults sink.old) (K.faults sink.new) }
{
    let mut at = 0;
    while at < bytes.len() {
        match sink.write(&bytes[at..]) {
            Put::Took(count) => at += count,
            Put::Failed => return Written::Failed,
            Put::Want => return Written::Want,
        }
    }
    Written::All
}
