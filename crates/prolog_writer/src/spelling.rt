// How names are spelled.
ghost use Rattle.std.specs.Prelude.{◌≡◌, ◌<◌, ◌++◌, OnOk, IfOk};
ghost use Rattle.std.specs.List.{flat_map, list_all};
ghost use Rattle.prolog_writer.specs.Spelling as spec;
ghost use Rattle.prolog_writer.specs.Spelling.{in_quotes, escaped};

use crate::Style;
use prolog_terms::Want;
use std::alloc::Global;

pub fn is_small(byte: u8) -> bool
    ensures { result ≡ spec.is_small byte }
{
    byte >= b'a' && byte <= b'z' || byte >= 128
}

pub fn is_digit(byte: u8) -> bool
    ensures { result ≡ spec.is_digit byte }
{
    byte >= b'0' && byte <= b'9'
}

pub fn is_alphanumeric(byte: u8) -> bool
    ensures { result ≡ spec.is_alphanumeric byte }
{
    is_small(byte) || byte >= b'A' && byte <= b'Z' || is_digit(byte) || byte == b'_'
}

pub fn is_symbol(byte: u8) -> bool
    ensures { result ≡ spec.is_symbol byte }
{
    b"+-*/\\^<>=~:.?@#&$".as_slice().contains(&byte)
}

fn is_word(name: &[u8]) -> bool
    ensures { result ≡ spec.is_word name.now }
{
    match name.split_first() {
        None => false,
        Some((first, rest)) => is_small(*first) && are_alphanumeric(rest),
    }
}

fn are_alphanumeric(bytes: &[u8]) -> bool
    ensures { result ≡ list_all spec.is_alphanumeric bytes.now }
{
    bytes.iter().all(|byte| is_alphanumeric(*byte))
}

pub fn same_text(name: &[u8], words: &str) -> bool
    ensures { result ≡ spec.same_text name.now words.now }
{
    name == words.as_bytes()
}

fn is_reserved(name: &[u8]) -> bool
    ensures { result ≡ spec.is_reserved name.now }
{
    same_text(name, ".") || name.starts_with(b"/*".as_slice())
}

fn are_symbols(bytes: &[u8]) -> bool
    ensures { result ≡ list_all spec.is_symbol bytes.now }
{
    bytes.iter().all(|byte| is_symbol(*byte))
}

fn is_symbolic(name: &[u8]) -> bool
    ensures { result ≡ spec.is_symbolic name.now }
{
    !name.is_empty() && !is_reserved(name) && are_symbols(name)
}

fn is_brackets(name: &[u8]) -> bool
    ensures { result ≡ spec.is_brackets name.now }
{
    same_text(name, "[]") || same_text(name, "{}")
}

fn is_solo(name: &[u8]) -> bool
    ensures { result ≡ spec.is_solo name.now }
{
    is_brackets(name) || same_text(name, "!") || same_text(name, ";")
}

fn stands_alone(name: &[u8]) -> bool
    ensures { result ≡ spec.stands_alone name.now }
{
    is_word(name) || is_symbolic(name) || is_solo(name)
}

fn has_quotes(style: Style) -> bool
    ensures { result ≡ spec.has_quotes style }
{
    match style {
        Style::Plain => false,
        Style::Quoted | Style::Canonical => true,
    }
}

/// Whether an atom stands between quotes.
pub fn quotes_atom(style: Style, name: &[u8]) -> bool
    ensures { result ≡ spec.quotes_atom style name.now }
{
    has_quotes(style) && !stands_alone(name)
}

/// Whether the name of a compound stands between quotes before its arguments.
pub fn quotes_functor(style: Style, name: &[u8]) -> bool
    ensures { result ≡ spec.quotes_functor style name.now }
{
    has_quotes(style) && (is_brackets(name) || !stands_alone(name))
}

/// Whether the name of an operator stands between quotes.
pub fn quotes_operator(style: Style, name: &[u8]) -> bool
    ensures { result ≡ spec.quotes_operator style name.now }
{
    !same_text(name, ",") && quotes_atom(style, name)
}

fn put(text: &mut Vec<u8>, words: &str) -> Result<(), Want>
    ensures { OnOk result (text.new.items ≡ text.old.items ++ words.now) }
{
    text.extend_from_slice(words.as_bytes())?;
    Ok(())
}

fn hex_digit(digit: u8) -> u8
    requires { digit < 16 }
    ensures { result ≡ spec.hex_digit digit }
{
    if digit < 10 {
        b'0' + digit
    } else {
        b'a' + (digit - 10)
    }
}

#[tactic(auto, unfolding(crate::specs::Spelling::escaped))]
fn put_escaped(text: &mut Vec<u8>, byte: u8) -> Result<(), Want>
    ensures { OnOk result (text.new.items ≡ text.old.items ++ escaped byte) }
{
    if byte == b'\\' {
        put(text, "\\\\")
    } else if byte == b'\'' {
        put(text, "\\'")
    } else if byte == b'\n' {
        put(text, "\\n")
    } else if byte == b'\t' {
        put(text, "\\t")
    } else if byte < 32 || byte == 127 {
        put(text, "\\x")?;
        text.push(hex_digit(byte / 16))?;
        text.push(hex_digit(byte % 16))?;
        put(text, "\\")
    } else {
        text.push(byte)?;
        Ok(())
    }
}

fn put_inside(text: &mut Vec<u8>, name: &[u8]) -> Result<(), Want>
    ensures { OnOk result (text.new.items ≡ text.old.items ++ flat_map escaped name.now) }
{
    for byte in name {
        put_escaped(text, *byte)?;
    }
    Ok(())
}

/// The name between quotes.
pub fn in_quotes(alloc: Global, name: &[u8]) -> Result<Vec<u8>, Want>
    ensures { IfOk result (λ text. text.items ≡ in_quotes name.now) }
{
    let mut text = Vec::new(alloc);
    put(&mut text, "'")?;
    put_inside(&mut text, name)?;
    put(&mut text, "'")?;
    Ok(text)
}
