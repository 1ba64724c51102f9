// What stands between quotes (docs/LANGUAGE.md, Tokens).
ghost use Rattle.std.specs.Prelude.{◌≡◌, ◌+◌, ◌<◌, ◌≤◌, length, IfOk, drop};
ghost use Rattle.prolog_lexer.specs.Quotes as spec;

use crate::digit::{digits_len, is_digit_of, value_of};
use crate::token::{BAD_ESCAPE, OPEN_QUOTE};
use prolog_terms::{Bytes, Want};
use std::alloc::Global;

/// What a byte inside quotes begins, with the count of the bytes after it that belong to it.
#[derive(Clone, Copy, Debug)]
pub(crate) enum Bit {
    /// The closing quote.
    Closed,
    /// A fault, by its number.
    Broken(u8),
    /// A byte that is meant.
    Stands(u8, usize),
    /// What stands for nothing.
    Skips(usize),
}

/// What stands after an opening quote.
#[derive(Debug, Drop)]
pub(crate) enum Contents {
    /// The bytes that are meant, and the count of those that they took with the closing quote.
    Text(Bytes, usize),
    /// A fault, by its number.
    Open(u8),
}

/// The greatest value of an escape.
const BYTE_MAX: u64 = 255;

pub(crate) fn begins_with(byte: u8, text: &[u8]) -> bool
    ensures { result ≡ spec.begins_with byte text.now }
{
    match text {
        [] => false,
        [b, ..] => *b == byte,
    }
}

/// The digits at the front and the `\` after them, as the escape that has some bytes before them.
#[tactic(auto, unfolding(crate::specs::Quotes::coded_by))]
fn coded_by(base: u8, before: usize, text: &[u8]) -> Bit
    requires low { 0 < base }
    requires small { base ≤ 16 }
    requires few { before ≤ 1 }
    ensures { result ≡ spec.coded_by base before text.now }
{
    let len = digits_len(base, text);
    let Some(value) = value_of(base, BYTE_MAX, &text[..len]) else {
        return Bit::Broken(BAD_ESCAPE);
    };
    if len > 0 && begins_with(b'\\', &text[len..]) {
        Bit::Stands(value as u8, before + len + 1)
    } else {
        Bit::Broken(BAD_ESCAPE)
    }
}

#[tactic(auto, unfolding(crate::specs::Quotes::letter))]
fn letter(byte: u8) -> Option<u8>
    ensures { result ≡ spec.letter byte }
{
    match byte {
        b'a' => Some(7),
        b'b' => Some(8),
        b't' => Some(9),
        b'n' => Some(10),
        b'v' => Some(11),
        b'f' => Some(12),
        b'r' => Some(13),
        b'\\' | b'\'' | b'"' | b'`' => Some(byte),
        _ => None,
    }
}

/// What the bytes after a `\` are.
#[tactic(auto, unfolding(crate::specs::Quotes::escape))]
pub(crate) fn escape(text: &[u8]) -> Bit
    ensures { result ≡ spec.escape text.now }
{
    let Some(first) = text.first() else {
        return Bit::Broken(BAD_ESCAPE);
    };
    let first = *first;
    if let Some(v) = letter(first) {
        return Bit::Stands(v, 1);
    }
    if first == b'\n' {
        Bit::Skips(1)
    } else if first == b'x' {
        coded_by(16, 1, &text[1..])
    } else if is_digit_of(8, first) {
        coded_by(8, 0, text)
    } else {
        Bit::Broken(BAD_ESCAPE)
    }
}

#[tactic(auto, unfolding(crate::specs::Quotes::bit))]
fn bit_at(quote: u8, byte: u8, rest: &[u8]) -> Bit
    ensures { result ≡ spec.bit quote byte rest.now }
{
    if byte == b'\n' {
        Bit::Broken(OPEN_QUOTE)
    } else if byte == quote {
        if begins_with(quote, rest) {
            Bit::Stands(quote, 1)
        } else {
            Bit::Closed
        }
    } else if byte == b'\\' {
        escape(rest)
    } else {
        Bit::Stands(byte, 0)
    }
}

pub(crate) fn contents_of(alloc: Global, quote: u8, text: &[u8]) -> Result<Contents, Want>
    ensures { IfOk result (λ x. x ≡ spec.inside quote 0 text.now) }
{
    let mut meant = Vec::new(alloc);
    let mut at = 0;
    'bytes: while at < text.len() {
        match bit_at(quote, text[at], &text[at + 1..]) {
            Bit::Closed => return Ok(Contents::Text(Bytes::of(alloc, meant.as_slice())?, at + 1)),
            Bit::Broken(fault) => return Ok(Contents::Open(fault)),
            Bit::Stands(b, k) => {
                meant.push(b)?;
                at = passed(text, at, k);
            }
            Bit::Skips(k) => at = passed(text, at, k),
        }
    }
    Ok(Contents::Open(OPEN_QUOTE))
}

/// The place after this byte and k more, but not past the end.
fn passed(text: &[u8], at: usize, k: usize) -> usize
    requires { at < length text.now }
    ensures more { at < result }
    ensures within { result ≤ length text.now }
    ensures rest { drop result text.now ≡ drop (at + 1 + k) text.now }
    ensures place { at + 1 + k ≤ length text.now → result ≡ at + 1 + k }
{
    let rest = text.len() - at - 1;
    if k <= rest { at + 1 + k } else { text.len() }
}
