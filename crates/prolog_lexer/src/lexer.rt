// The tokens of a text, one at a time.
ghost use Rattle.std.specs.Prelude.{◌≡◌, ◌≤◌, ◌<◌, ◌+◌, ◌==◌, ◌↔◌, [], IfOk, OnErr, IsTrue, false, take, drop, count_by, length};
ghost use Rattle.prolog_lexer.specs.Pieces.{piece};
ghost use Rattle.prolog_lexer.specs.Streams.{ahead, tokens, rest_of, ended, refused as refused_stream, token as token_stream, Gives};
ghost use Rattle.prolog_lexer.specs.Tokens.{Tokens, listed, ending};
ghost use Rattle.prolog_lexer.specs.declared.piece.Piece.TheVariants.{Blank, Lexeme, Refused};

use crate::piece::{Piece, piece_at};
use crate::{LexFault, Lexed, Token, TokenKind};
use prolog_terms::Want;
use std::alloc::Global;
use std::marker::Model;

/// A text that is read token by token, up to a place in some line.
#[derive(Drop)]
pub struct Lexer<'a> {
    text: &'a [u8],
    at: usize,
    line: u64,
}

impl<'a> Model for Lexer<'a> {
    ghost use Rattle.prolog_lexer.specs.Streams.{Place, IsWithin};

    ghost Value = { Place };

    ghost view = { λ x. record { text = x.text.now; at = x.at; line = x.line } };

    ghost invariant = { λ x. IsWithin (record { text = x.text.now; at = x.at; line = x.line }) };
}

impl<'a> Lexer<'a> {
    /// A lexer at the front of the text: the tokens ahead, and how they end, are those that the text has by cases.
    #[tactic(auto, unfolding(crate::specs::Streams::ahead))]
    pub fn new(text: &'a [u8]) -> Lexer<'a>
        ensures tokens { ahead result ≡ tokens text.now }
        ensures cases { Tokens 0 1 text.now (listed (ahead result)) (ending (ahead result)) }
    {
        Lexer {
            text,
            at: 0,
            line: 1,
        }
    }

    /// A lexer at the same place of the same text.
    pub fn copy(&self) -> Lexer<'a>
        ensures { result ≡ self.now }
    {
        Lexer {
            text: self.text,
            at: self.at,
            line: self.line,
        }
    }

    /// The next token, a fault where the next bytes that are no layout and no comment are no token, or the end of the text.
    /// A token is no longer ahead. After a fault, at the end and after want of memory what is ahead stays as it was, so that
    /// the same is answered again, though layout and comments may have been passed over.
    pub fn next(&mut self, alloc: Global) -> Result<Lexed, Want>
        ensures next { IfOk result (λ found. Gives found (ahead self.old) (ahead self.new)) }
        ensures err { OnErr result (ahead self.new ≡ ahead self.old) }
    {
        'pieces: while !self.is_done() {
            match self.piece(alloc)? {
                Piece::Blank(len) => self.pass(len),
                Piece::Lexeme(kind, len) => return Ok(Lexed::Token(self.token(kind, len))),
                Piece::Refused(number) => return Ok(Lexed::Refused(self.fault(number))),
            }
        }
        Ok(Lexed::End)
    }

    fn is_done(&self) -> bool
        ensures done { IsTrue result → ahead self.now ≡ ended }
        ensures more { result ≡ false → 0 < length (rest_of self.now) }
    {
        self.at == self.text.len()
    }

    #[tactic(auto, unfolding(crate::specs::Streams::rest_of))]
    fn piece(&self, alloc: Global) -> Result<Piece, Want>
        ensures { IfOk result (λ p. piece (rest_of self.now) ≡ p) }
    {
        piece_at(alloc, &self.text[self.at..])
    }

    fn pass(&mut self, len: usize)
        requires some { 0 < length (rest_of self.old) }
        requires blank { piece (rest_of self.old) ≡ Blank len }
        ensures ahead { ahead self.new ≡ ahead self.old }
        ensures less { length (rest_of self.new) < length (rest_of self.old) }
    {
        self.advance(len);
    }

    fn token(&mut self, kind: TokenKind, len: usize) -> Token
        requires some { 0 < length (rest_of self.old) }
        requires lexeme { piece (rest_of self.old) ≡ Lexeme kind len }
        ensures { ahead self.old ≡ token_stream result (ahead self.new) }
    {
        let line = self.line;
        let from = self.at;
        self.advance(len);
        Token {
            kind,
            from: from as u64,
            to: self.at as u64,
            line,
        }
    }

    fn fault(&self, number: u8) -> LexFault
        requires some { 0 < length (rest_of self.now) }
        requires refused { piece (rest_of self.now) ≡ Refused number }
        ensures { ahead self.now ≡ refused_stream result }
    {
        LexFault {
            number,
            line: self.line,
        }
    }

    fn advance(&mut self, len: usize)
        requires { self.old.at + len ≤ length self.old.text }
        ensures text { self.new.text ≡ self.old.text }
        ensures at { self.new.at ≡ self.old.at + len }
        ensures line { self.new.line ≡ self.old.line + count_by (λ b. b == 10) (take len (drop self.old.at self.old.text)) }
    {
        let passed = &self.text[self.at..self.at + len];
        let lines = passed.iter().filter(|b| **b == 10).count();
        self.at += len;
        self.line += lines as u64;
    }
}
