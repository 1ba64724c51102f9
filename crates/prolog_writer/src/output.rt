// A text that grows piece by piece.
ghost use Rattle.std.specs.Prelude.{◌≡◌, OnOk, codes};
ghost use Rattle.std.specs.Fmt.{decimal, signed_decimal};
ghost use Rattle.prolog_writer.specs.Spaces as spec;
ghost use Rattle.prolog_writer.specs.Spaces.{Writing, piece, no_piece_yet, added, edge_of, needs_space};
ghost use Rattle.prolog_writer.specs.Spelling.{name_text, variable_text};
ghost use Rattle.prolog_writer.specs.Pieces.{mark};

use crate::kind::{Edge, Kind};
use crate::spelling::{in_quotes, is_alphanumeric, is_digit, is_symbol};
use itoa::Buffer;
use prolog_terms::{Want, Whole};
use std::alloc::Global;
use std::marker::Model;

fn is_wordy(byte: u8) -> bool
    ensures { result ≡ spec.is_wordy byte }
{
    is_alphanumeric(byte) || byte == b'\''
}

fn is_named(kind: Kind) -> bool
    ensures { result ≡ spec.is_named kind }
{
    match kind {
        Kind::Named | Kind::Minus => true,
        Kind::Paren | Kind::Other => false,
    }
}

fn is_minus(kind: Kind) -> bool
    ensures { result ≡ spec.is_minus kind }
{
    match kind {
        Kind::Minus => true,
        Kind::Named | Kind::Paren | Kind::Other => false,
    }
}

fn is_paren(kind: Kind) -> bool
    ensures { result ≡ spec.is_paren kind }
{
    match kind {
        Kind::Paren => true,
        Kind::Named | Kind::Minus | Kind::Other => false,
    }
}

fn parts(edge: Edge, kind: Kind, byte: u8) -> bool
    ensures { result ≡ spec.parts edge kind byte }
{
    is_wordy(edge.byte) && is_wordy(byte)
        || is_symbol(edge.byte) && is_symbol(byte)
        || is_named(edge.kind) && is_paren(kind)
        || is_minus(edge.kind) && is_digit(byte)
}

fn needs_space(before: Option<Edge>, kind: Kind, text: &[u8]) -> bool
    ensures { result ≡ needs_space before kind text.now }
{
    match before {
        None => false,
        Some(edge) => match text.split_first() {
            None => false,
            Some((byte, _)) => parts(edge, kind, *byte),
        },
    }
}

fn edge_of(kind: Kind, text: &[u8]) -> Option<Edge>
    ensures { result ≡ edge_of (piece kind text.now) }
{
    match text.last() {
        None => None,
        Some(byte) => Some(Edge { kind, byte: *byte }),
    }
}

/// A text, and what ends its last piece.
#[derive(Drop)]
pub struct Output {
    text: Vec<u8>,
    last: Option<Edge>,
}

impl Model for Output {
    ghost use Rattle.prolog_writer.specs.Spaces.{Writing};

    ghost Value = { Writing };

    ghost view = { λ o. record { text = o.text.items; edge = o.last } };
}

impl Output {
    /// No piece yet, behind a text.
    pub fn behind(text: Vec<u8>) -> Output
        ensures { result ≡ no_piece_yet text.items }
    {
        Output { text, last: None }
    }

    /// The bytes.
    pub fn into_text(self) -> Vec<u8>
        ensures { result.items ≡ self.text }
    {
        self.text
    }

    /// One piece more, behind a space where one has to stand.
    pub fn put(&mut self, kind: Kind, text: &[u8]) -> Result<(), Want>
        ensures { OnOk result (self.new ≡ added self.old (piece kind text.now)) }
    {
        if needs_space(self.last, kind, text) {
            self.text.push(b' ')?;
        }
        self.text.extend_from_slice(text)?;
        self.last = edge_of(kind, text);
        Ok(())
    }

    /// A bracket, a comma or a bar.
    pub fn put_mark(&mut self, words: &str) -> Result<(), Want>
        ensures { OnOk result (self.new ≡ added self.old (mark words.now)) }
    {
        self.put(Kind::Other, words.as_bytes())
    }

    /// A name, between quotes or without.
    #[tactic(auto, unfolding(crate::specs::Spelling::name_text))]
    pub fn put_name(
        &mut self,
        alloc: Global,
        kind: Kind,
        quoted: bool,
        name: &[u8],
    ) -> Result<(), Want>
        ensures { OnOk result (self.new ≡ added self.old (piece kind (name_text quoted name.now))) }
    {
        if quoted {
            let text = in_quotes(alloc, name)?;
            self.put(kind, text.as_slice())
        } else {
            self.put(kind, name)
        }
    }

    /// An integer.
    pub fn put_whole(&mut self, whole: Whole) -> Result<(), Want>
        ensures { OnOk result (self.new ≡ added self.old (mark (signed_decimal whole))) }
    {
        self.put_mark(Buffer::new().format(whole))
    }

    /// A variable, by its number.
    pub fn put_variable(&mut self, alloc: Global, number: u64) -> Result<(), Want>
        ensures { OnOk result (self.new ≡ added self.old (mark (variable_text number))) }
    {
        let mut text = Vec::from_slice(alloc, b"_".as_slice())?;
        text.extend_from_slice(Buffer::new().format(u128::from(number) + 1).as_bytes())?;
        self.put(Kind::Other, text.as_slice())
    }
}
