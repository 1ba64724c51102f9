// Tests of sources and sinks.

use prolog_session::{
    Got, MAX_TEXT, MemorySink, MemorySource, Put, Sink, Source, StdSink, StdSource, SteadySink,
    SteadySource, Text, Written, read_all, write_all,
};
use std::io::{self, ErrorKind, Read, Write};
use std::sync::atomic::{AtomicU32, Ordering};
use std::test::Fail;

const TEXT: &[u8] = b"abcdefg";

#[test]
fn source_fails_at_each_call(rt: HostRuntime) -> Result<(), Fail> {
    let alloc = rt.alloc();
    // Two bytes a call: four calls for seven bytes, and a fifth for the end.
    for k in 1..=7 {
        let fails = vec![in alloc; k as u64]?;
        let mut source = MemorySource::new(TEXT.to_vec(alloc)?, 2, fails);
        let mut rest = TEXT;
        if k <= 5 {
            assert!(rt;
                matches!(read_all(alloc, &mut source), Text::Failed),
                "at {k}"
            );
            rest = TEXT.get(2 * (k - 1)..).unwrap_or(b"");
        }
        let text = read_all(alloc, &mut source);
        assert!(rt;
            matches!(&text, Text::Whole(bytes) if bytes.as_slice() == rest),
            "after {k}"
        );
    }
    Ok(())
}

#[test]
fn sink_fails_at_each_call(rt: HostRuntime) -> Result<(), Fail> {
    let alloc = rt.alloc();
    for k in 1..=5 {
        let mut sink = MemorySink::new(alloc, 2, 100, vec![in alloc; k as u64]?)?;
        let written = write_all(&mut sink, TEXT);
        if k <= 4 {
            assert_eq!(rt; written, Written::Failed, "at {k}");
            assert_eq!(rt; Some(sink.bytes()), TEXT.get(..2 * (k - 1)), "at {k}");
        } else {
            assert_eq!(rt; written, Written::All);
            assert_eq!(rt; sink.bytes(), TEXT);
        }
    }
    Ok(())
}

#[test]
fn sink_takes_its_room(rt: HostRuntime) -> Result<(), Fail> {
    let alloc = rt.alloc();
    for room in 0..=8 {
        let mut sink = MemorySink::new(alloc, 3, room as u64, Vec::new(alloc))?;
        let written = write_all(&mut sink, TEXT);
        let want = if room < 7 {
            Written::Failed
        } else {
            Written::All
        };
        assert_eq!(rt; written, want, "room {room}");
        assert_eq!(rt; Some(sink.bytes()), TEXT.get(..room.min(7)), "room {room}");
    }
    Ok(())
}

#[test]
fn reads_and_writes_whole_at_each_step(rt: HostRuntime) -> Result<(), Fail> {
    let alloc = rt.alloc();
    let text = b"abcdefg".as_slice();
    for step in 1..=3 {
        let mut source = SteadySource::new(text.to_vec(alloc)?, step);
        let read = read_all(alloc, &mut source);
        assert!(rt;
            matches!(&read, Text::Whole(bytes) if bytes.as_slice() == text),
            "step {step}"
        );
        let mut sink = SteadySink::new(alloc, step)?;
        assert_eq!(rt; write_all(&mut sink, text), Written::All, "step {step}");
        assert_eq!(rt; sink.bytes(), text, "step {step}");
    }
    Ok(())
}

#[test]
fn reads_up_to_the_limit(rt: HostRuntime) -> Result<(), Fail> {
    let alloc = rt.alloc();
    let mut source = SteadySource::new(vec![in alloc; b'a'; MAX_TEXT]?, 4096);
    let read = read_all(alloc, &mut source);
    assert!(rt; matches!(&read, Text::Whole(bytes) if bytes.len() == MAX_TEXT));
    let mut source = SteadySource::new(vec![in alloc; b'a'; MAX_TEXT + 1]?, 4096);
    assert!(rt; matches!(read_all(alloc, &mut source), Text::TooLong));
    Ok(())
}

// A reader or a writer that is interrupted so many times, then gives or takes at most three bytes a call, and
// once its bytes or its room are used up answers 0 or fails.
#[derive(Drop)]
struct Pipe<'a> {
    interruptions: &'a AtomicU32,
    text: &'static [u8],
    room: usize,
    breaks: bool,
}

impl<'a> Pipe<'a> {
    fn new(interruptions: &'a AtomicU32, breaks: bool) -> Pipe<'a> {
        Pipe {
            interruptions,
            text: b"abcde",
            room: 5,
            breaks,
        }
    }

    fn is_interrupted(&mut self) -> bool {
        let left = self.interruptions.load(Ordering::SeqCst);
        if left == 0 {
            return false;
        }
        self.interruptions.store(left - 1, Ordering::SeqCst);
        true
    }
}

impl<'a> Read for Pipe<'a> {
    fn read(&mut self, into: &mut [u8]) -> io::Result<usize> {
        if self.is_interrupted() {
            return Err(ErrorKind::Interrupted.into());
        }
        if self.text.is_empty() && self.breaks {
            return Err(ErrorKind::Other.into());
        }
        let count = self.text.len().min(into.len()).min(3);
        into[..count].copy_from_slice(&self.text[..count]);
        self.text = &self.text[count..];
        Ok(count)
    }
}

impl<'a> Write for Pipe<'a> {
    fn write(&mut self, from: &[u8]) -> io::Result<usize> {
        if self.is_interrupted() {
            return Err(ErrorKind::Interrupted.into());
        }
        if self.room == 0 && self.breaks {
            return Err(ErrorKind::Other.into());
        }
        let count = self.room.min(from.len()).min(3);
        self.room -= count;
        Ok(count)
    }

    fn flush(&mut self) -> io::Result<()> {
        Ok(())
    }
}

#[test]
fn reads_pieces_then_end_or_failure(rt: HostRuntime) {
    for (breaks, last) in [(false, Got::End), (true, Got::Failed)] {
        let two = AtomicU32::new(2);
        let mut source = StdSource::new(Pipe::new(&two, breaks));
        let mut into = [0u8; 4];
        assert_eq!(rt; source.read(&mut into), Got::Bytes(3));
        assert_eq!(rt; into, *b"abc\0");
        assert_eq!(rt; source.read(&mut into), Got::Bytes(2));
        assert_eq!(rt; into[..2], b"de"[..]);
        assert_eq!(rt; source.read(&mut into), last);
        assert_eq!(rt; source.read(&mut into), last);
    }
}

#[test]
fn reads_whole_or_fails(rt: HostRuntime) {
    let two = AtomicU32::new(2);
    let mut source = StdSource::new(Pipe::new(&two, false));
    let text = read_all(rt.alloc(), &mut source);
    assert!(rt; matches!(&text, Text::Whole(bytes) if bytes.as_slice() == b"abcde".as_slice()));
    let two = AtomicU32::new(2);
    let mut source = StdSource::new(Pipe::new(&two, true));
    assert!(rt; matches!(read_all(rt.alloc(), &mut source), Text::Failed));
}

#[test]
fn writes_pieces_then_fails(rt: HostRuntime) {
    for breaks in [false, true] {
        let two = AtomicU32::new(2);
        let mut sink = StdSink::new(Pipe::new(&two, breaks));
        assert_eq!(rt; sink.write(b"abcd"), Put::Took(3));
        assert_eq!(rt; sink.write(b"def"), Put::Took(2));
        assert_eq!(rt; sink.write(b"f"), Put::Failed);
        let two = AtomicU32::new(2);
        let mut sink = StdSink::new(Pipe::new(&two, breaks));
        assert_eq!(rt; write_all(&mut sink, b"abcde"), Written::All);
        assert_eq!(rt; write_all(&mut sink, b"f"), Written::Failed);
    }
}

#[test]
fn gives_up_after_a_thousand_and_one_interruptions(rt: HostRuntime) {
    let mut into = [0u8; 4];
    for (interruptions, got, put) in [
        (1000, Got::Bytes(3), Put::Took(3)),
        (1001, Got::Failed, Put::Failed),
        (1002, Got::Failed, Put::Failed),
    ] {
        let left = AtomicU32::new(interruptions);
        let mut source = StdSource::new(Pipe::new(&left, false));
        assert_eq!(rt; source.read(&mut into), got);
        assert_eq!(rt;
            left.load(Ordering::SeqCst),
            interruptions.saturating_sub(1001)
        );
        let left = AtomicU32::new(interruptions);
        let mut sink = StdSink::new(Pipe::new(&left, false));
        assert_eq!(rt; sink.write(b"abc"), put);
        assert_eq!(rt;
            left.load(Ordering::SeqCst),
            interruptions.saturating_sub(1001)
        );
    }
}
