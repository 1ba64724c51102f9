// The piece of a text that begins where the last one ended: blank, a token or a fault (docs/LANGUAGE.md, Tokens).
ghost use Rattle.std.specs.Prelude.{◌≡◌, ◌<◌, ◌≤◌, length, IfOk, IsTrue};
ghost use Rattle.std.specs.List.{prefix_len};
ghost use Rattle.prolog_lexer.specs.Classes as classes;
ghost use Rattle.prolog_lexer.specs.Pieces as spec;

use crate::TokenKind;
use crate::class::{Class, class_of, is_layout, is_symbol, is_word};
use crate::digit::{begins_with_digit, digits_len, value_of};
use crate::quote::{Bit, Contents, begins_with, contents_of, escape};
use crate::token::{BAD_ESCAPE, INTEGER_MAX, INTEGER_TOO_LARGE, NO_TOKEN, OPEN_COMMENT};
use prolog_terms::{Name, Want};
use std::alloc::Global;

/// Bytes at the front of a text, with their count: layout or a comment, a token, or a fault with its number.
#[derive(Debug, Drop)]
pub(crate) enum Piece {
    Blank(usize),
    Lexeme(TokenKind, usize),
    Refused(u8),
}

#[tactic(auto, unfolding(crate::specs::Pieces::piece))]
pub(crate) fn piece_at(alloc: Global, text: &[u8]) -> Result<Piece, Want>
    ensures { IfOk result (λ p. p ≡ spec.piece text.now) }
{
    let Some(first) = text.first() else {
        return Ok(Piece::Blank(0));
    };
    let first = *first;
    match class_of(first) {
        Class::Layout => Ok(Piece::Blank(1)),
        Class::Percent => Ok(Piece::Blank(line_len(text))),
        Class::Small => {
            let len = word_len(text);
            Ok(Piece::Lexeme(TokenKind::Name(Name::of(alloc, &text[..len])?), len))
        }
        Class::Capital => {
            let len = word_len(text);
            Ok(Piece::Lexeme(TokenKind::Variable(Name::of(alloc, &text[..len])?), len))
        }
        Class::Solo => Ok(Piece::Lexeme(TokenKind::Name(Name::of(alloc, &text[..1])?), 1)),
        Class::Punctuation => Ok(Piece::Lexeme(TokenKind::Punct(first), 1)),
        Class::Symbol => symbolic(alloc, text),
        Class::Digit => Ok(number(text)),
        Class::Quote => quoted(alloc, &text[1..]),
        Class::DoubleQuote => codes(alloc, &text[1..]),
        Class::Foreign => Ok(Piece::Refused(NO_TOKEN)),
    }
}

/// The quoted name that has this after its first quote.
fn quoted(alloc: Global, text: &[u8]) -> Result<Piece, Want>
    ensures { IfOk result (λ p. p ≡ spec.quoted_name text.now) }
{
    match contents_of(alloc, b'\'', text)? {
        Contents::Text(meant, n) => {
            let name = Name::of(alloc, meant.bytes())?;
            Ok(Piece::Lexeme(TokenKind::Quoted(name), 1 + n))
        }
        Contents::Open(fault) => Ok(Piece::Refused(fault)),
    }
}

/// The codes that have this after their first quote.
fn codes(alloc: Global, text: &[u8]) -> Result<Piece, Want>
    ensures { IfOk result (λ p. p ≡ spec.quoted_codes text.now) }
{
    match contents_of(alloc, b'"', text)? {
        Contents::Text(meant, n) => Ok(Piece::Lexeme(TokenKind::Codes(meant), 1 + n)),
        Contents::Open(fault) => Ok(Piece::Refused(fault)),
    }
}

#[tactic(auto, unfolding(crate::specs::Pieces::symbolic))]
fn symbolic(alloc: Global, text: &[u8]) -> Result<Piece, Want>
    ensures { IfOk result (λ p. p ≡ spec.symbolic text.now) }
{
    if begins_comment(text) {
        return Ok(comment(&text[2..]));
    }
    let len = symbol_len(text);
    if len == 1 && text[0] == b'.' && is_break(&text[1..]) {
        Ok(Piece::Lexeme(TokenKind::Stop, 1))
    } else {
        Ok(Piece::Lexeme(TokenKind::Name(Name::of(alloc, &text[..len])?), len))
    }
}

fn begins_comment(text: &[u8]) -> bool
    ensures value { result ≡ spec.begins_comment text.now }
    ensures two { IsTrue result → 2 ≤ length text.now }
{
    match text {
        [b'/', b'*', ..] => true,
        _ => false,
    }
}

/// Whether a `.` before this text is an End.
fn is_break(text: &[u8]) -> bool
    ensures { result ≡ spec.is_break text.now }
{
    match text {
        [] => true,
        [b, ..] => *b == b'%' || is_layout(*b),
    }
}

/// The comment that has this after its first two bytes.
#[tactic(auto, unfolding(crate::specs::Pieces::comment))]
fn comment(inside: &[u8]) -> Piece
    ensures { result ≡ spec.comment inside.now }
{
    for i in 0..inside.len() {
        if ends_comment(&inside[i..]) {
            return Piece::Blank(2 + i + 2);
        }
    }
    Piece::Refused(OPEN_COMMENT)
}

fn ends_comment(text: &[u8]) -> bool
    ensures { result ≡ spec.ends_comment text.now }
{
    match text {
        [b'*', b'/', ..] => true,
        _ => false,
    }
}

fn word_len(text: &[u8]) -> usize
    ensures value { result ≡ prefix_len classes.is_word text.now }
    ensures within { result ≤ length text.now }
{
    text.iter().take_while(|b| is_word(**b)).count()
}

fn symbol_len(text: &[u8]) -> usize
    ensures value { result ≡ prefix_len classes.is_symbol text.now }
    ensures within { result ≤ length text.now }
{
    text.iter().take_while(|b| is_symbol(**b)).count()
}

fn line_len(text: &[u8]) -> usize
    ensures { result ≡ prefix_len classes.in_line text.now }
{
    text.iter().take_while(|b| **b != b'\n').count()
}

#[tactic(auto, unfolding(crate::specs::Pieces::number))]
fn number(text: &[u8]) -> Piece
    ensures { result ≡ spec.number text.now }
{
    if begins_with_two(b'0', b'\'', text) {
        character(&text[2..])
    } else if is_based(b'x', 16, text) {
        based(16, text)
    } else if is_based(b'o', 8, text) {
        based(8, text)
    } else if is_based(b'b', 2, text) {
        based(2, text)
    } else {
        decimal(text)
    }
}

fn begins_with_two(a: u8, b: u8, text: &[u8]) -> bool
    ensures value { result ≡ spec.begins_with_two a b text.now }
    ensures two { IsTrue result → 2 ≤ length text.now }
{
    match text {
        [x, y, ..] => *x == a && *y == b,
        _ => false,
    }
}

fn is_based(letter: u8, base: u8, text: &[u8]) -> bool
    ensures value { result ≡ spec.is_based letter base text.now }
    ensures two { IsTrue result → 2 ≤ length text.now }
{
    begins_with_two(b'0', letter, text) && begins_with_digit(base, &text[2..])
}

#[tactic(auto, unfolding(crate::specs::Pieces::decimal))]
fn decimal(text: &[u8]) -> Piece
    ensures { result ≡ spec.decimal text.now }
{
    let len = digits_len(10, text);
    match value_of(10, INTEGER_MAX, &text[..len]) {
        Some(n) => Piece::Lexeme(TokenKind::Integer(u128::from(n)), len),
        None => Piece::Refused(INTEGER_TOO_LARGE),
    }
}

/// The integer whose digits stand after the first two bytes.
#[tactic(auto, unfolding(crate::specs::Pieces::based))]
fn based(base: u8, text: &[u8]) -> Piece
    requires low { 0 < base }
    requires high { base ≤ 16 }
    requires two { 2 ≤ length text.now }
    ensures { result ≡ spec.based base text.now }
{
    let digits = &text[2..];
    let len = digits_len(base, digits);
    match value_of(base, INTEGER_MAX, &digits[..len]) {
        Some(n) => Piece::Lexeme(TokenKind::Integer(u128::from(n)), 2 + len),
        None => Piece::Refused(INTEGER_TOO_LARGE),
    }
}

/// The integer that has this after `0'`.
#[tactic(auto, unfolding(crate::specs::Pieces::character))]
fn character(text: &[u8]) -> Piece
    ensures { result ≡ spec.character text.now }
{
    let Some(first) = text.first() else {
        return Piece::Refused(BAD_ESCAPE);
    };
    match *first {
        b'\'' if begins_with(b'\'', &text[1..]) => Piece::Lexeme(TokenKind::Integer(39), 4),
        b'\'' | b'\n' => Piece::Refused(BAD_ESCAPE),
        b'\\' => match escape(&text[1..]) {
            Bit::Stands(v, k) => Piece::Lexeme(TokenKind::Integer(u128::from(v)), 3 + k),
            _ => Piece::Refused(BAD_ESCAPE),
        },
        b => Piece::Lexeme(TokenKind::Integer(u128::from(b)), 3),
    }
}
