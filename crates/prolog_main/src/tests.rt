// Tests of `top` that no table of rows can show: sources and sinks that fail, a text that is too long, and the limits.

use journal_base::{OpenGate, Sizes};
use prolog_session::{
    MAX_TEXT, MemorySink, MemorySource, STEP_BUDGET, Sink, Source, SteadySink, SteadySource, top,
};
use prolog_terms::Want;
use std::alloc::Global;
use std::sync::Wait;
use std::thread::Threads;

const SIZES: Sizes = Sizes {
    words: 1000,
    updates: 1000,
};

/// The status of a call of `top` with these words.
fn status<R: Threads + Wait + Sync, S: Source, K: Sink>(
    rt: &R,
    alloc: Global,
    words: &[&str],
    source: &mut S,
    sink: &mut K,
) -> Result<u8, Want> {
    let mut strings = Vec::new(alloc);
    for word in words {
        strings.push(String::from_str(alloc, word)?)?;
    }
    let outcome = top(rt, alloc, &strings, SIZES, source, sink, &OpenGate);
    Ok(outcome.status)
}

const TEXT: &[u8] = b"p(a). p(b). p(c).";

const WHOLE: &[u8] = b"% goal 1\ntrue.\n";

/// The source gives five bytes a call, and is asked a fifth time for the end.
#[test]
fn a_source_that_fails_at_any_call(rt: HostRuntime) {
    for call in 1..7 {
        let bytes = Vec::from_slice(rt.alloc(), TEXT).expect(&rt, "memory");
        let fails = Vec::from_slice(rt.alloc(), &[call]).expect(&rt, "memory");
        let mut source = MemorySource::new(bytes, 5, fails);
        let mut sink = SteadySink::new(rt.alloc(), 100).expect(&rt, "memory");
        let status = status(&rt, rt.alloc(), &["p(b)"], &mut source, &mut sink);
        if call <= 5 {
            assert_eq!(rt; status, Ok(4), "call {call}");
            assert!(rt; sink.bytes() == b"error: source.\n".as_slice());
        } else {
            assert_eq!(rt; status, Ok(0), "call {call}");
            assert!(rt; sink.bytes() == WHOLE);
        }
    }
}

/// The sink takes three bytes a call, and is called five times for fifteen.
#[test]
fn a_sink_that_fails_at_any_call(rt: HostRuntime) {
    for call in 1..7 {
        let bytes = Vec::from_slice(rt.alloc(), TEXT).expect(&rt, "memory");
        let fails = Vec::from_slice(rt.alloc(), &[call]).expect(&rt, "memory");
        let mut source = SteadySource::new(bytes, 5);
        let mut sink = MemorySink::new(rt.alloc(), 3, 100, fails).expect(&rt, "memory");
        let expected = if call <= 5 { 5 } else { 0 };
        let status = status(&rt, rt.alloc(), &["p(b)"], &mut source, &mut sink);
        assert_eq!(rt; status, Ok(expected), "call {call}");
        let taken = ((call as usize - 1) * 3).min(WHOLE.len());
        assert!(rt; sink.bytes() == &WHOLE[..taken], "call {call}");
    }
}

#[test]
fn a_sink_that_takes_three_bytes(rt: HostRuntime) {
    let mut source = SteadySource::new(Vec::new(rt.alloc()), 1);
    let mut sink = MemorySink::new(rt.alloc(), 100, 3, Vec::new(rt.alloc())).expect(&rt, "memory");
    assert_eq!(rt;
        status(&rt, rt.alloc(), &["true"], &mut source, &mut sink),
        Ok(5)
    );
    assert!(rt; sink.bytes() == b"% g".as_slice());
}

#[test]
fn a_text_that_is_too_long(rt: HostRuntime) {
    let bytes = vec![in rt.alloc(); b'a'; MAX_TEXT + 1].expect(&rt, "memory");
    let mut source = SteadySource::new(bytes, 4096);
    let mut sink = SteadySink::new(rt.alloc(), 100).expect(&rt, "memory");
    assert_eq!(rt;
        status(&rt, rt.alloc(), &["true"], &mut source, &mut sink),
        Ok(8)
    );
    assert!(rt; sink.bytes() == b"error: text too long.\n".as_slice());
}

#[test]
fn the_limits_are_those_of_the_language(rt: HostRuntime) {
    assert_eq!(rt;
        (crate::SIZES.words, crate::SIZES.updates),
        (16_777_216, 1_048_576)
    );
    assert_eq!(rt; (STEP_BUDGET, MAX_TEXT), (10_000_000, 67_108_864));
}
