// Tokens (docs/LANGUAGE.md, Tokens).

use prolog_terms::{Bytes, Name};

/// 2^63, the greatest integer that is a token.
pub(crate) const INTEGER_MAX: u64 = 0x8000_0000_0000_0000;

/// The numbers of the faults.
pub(crate) const NO_TOKEN: u8 = 1;

pub(crate) const OPEN_QUOTE: u8 = 2;

pub(crate) const BAD_ESCAPE: u8 = 3;

pub(crate) const OPEN_COMMENT: u8 = 4;

pub(crate) const INTEGER_TOO_LARGE: u8 = 5;

/// What a token is.
#[derive(Clone, Debug, Drop, PartialEq, Eq)]
pub enum TokenKind {
    /// A name: a small letter and the word bytes after it, a run of symbol bytes, or one solo byte.
    Name(Name),
    /// A name in quotes, by the bytes that it means.
    Quoted(Name),
    /// A variable, by its spelling.
    Variable(Name),
    /// An integer, by its value, at most 2^63.
    Integer(u128),
    /// What stands in double quotes, by the bytes that it means.
    Codes(Bytes),
    /// A punctuation byte.
    Punct(u8),
    /// The End of a read-term.
    Stop,
}

/// A token, with the place of its bytes (`to` is the place after the last) and the line of its first byte. Places count
/// bytes from 0, lines from 1.
#[derive(Clone, Debug, Drop, PartialEq, Eq)]
pub struct Token {
    pub kind: TokenKind,
    pub from: u64,
    pub to: u64,
    pub line: u64,
}

/// Bytes that are no token. The number says why: 1 a byte that is none of a token, 2 a quote that is left open, 3 a bad
/// escape, 4 a comment that is left open, 5 an integer too large. The line is that of the first byte of the token or
/// comment in which the fault comes.
#[derive(Clone, Copy, Debug, PartialEq, Eq)]
pub struct LexFault {
    pub number: u8,
    pub line: u64,
}

/// What the lexer finds next.
#[derive(Debug, Drop)]
pub enum Lexed {
    Token(Token),
    Refused(LexFault),
    /// The end of the text.
    End,
}
