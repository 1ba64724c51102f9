//! The whole of a source.
ghost use Rattle.std.specs.Prelude.{◌≡◌, ◌≤◌};
ghost use Rattle.prolog_session.specs.FaultCounts.{Rose};
ghost use Rattle.prolog_session.specs.WholeText.{ReadsAll, max_text};

use crate::source::{Got, Source};
use std::alloc::Global;

/// The most bytes that a text may have, 64 MiB.
pub const MAX_TEXT: usize = 67_108_864;

// How many bytes are asked for at a call.
const PIECE: usize = 4096;

/// What reading a whole source came to.
#[derive(Drop)]
pub enum Text {
    /// All bytes of the source, at most `MAX_TEXT`.
    Whole(Vec<u8>),
    /// The source gave more than `MAX_TEXT` bytes, and was read no further.
    TooLong,
    /// The source failed.
    Failed,
    /// Want of memory.
    Want,
}

/// Reads a source to its end, at most `MAX_TEXT` bytes.
pub fn read_all<S: Source>(alloc: Global, source: &mut S) -> Text
    ensures reads { ReadsAll max_text (S.left source.old) (S.left source.new) result }
    ensures later { S.faults source.old ≤ S.faults source.new }
    ensures failed { result ≡ Text.Failed → Rose (S.faults source.old) (S.faults source.new) }
{
    let mut text = Vec::new(alloc);
    let mut piece = [0u8; PIECE];
    while text.len() <= MAX_TEXT {
        match source.read(&mut piece) {
            Got::Bytes(count) => match text.extend_from_slice(&piece[..count]) {
                Ok(()) => {}
                Err(_) => return Text::Want,
            },
            Got::End => return Text::Whole(text),
            Got::Failed => return Text::Failed,
        }
    }
    Text::TooLong
}
