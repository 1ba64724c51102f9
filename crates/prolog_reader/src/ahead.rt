// One token, what it is as an operator, and what may follow it.
ghost use Rattle.std.specs.Prelude.{◌≡◌, IfOk};
ghost use Rattle.std.specs.Option.{option_copied};
ghost use Rattle.prolog_reader.specs.Grammar as grammar;
ghost use Rattle.prolog_reader.specs.Grammar.{stops};

use crate::rule::{Extension, Fault};
use prolog_lexer::{Token, TokenKind};
use prolog_terms::{Definitions, Name, Ops, Want};
use std::alloc::Global;

pub(crate) fn operator_text(kind: &TokenKind) -> Option<&[u8]>
    ensures { option_copied result ≡ grammar.operator_name kind.now }
{
    match kind {
        TokenKind::Name(name) => Some(name.bytes()),
        TokenKind::Quoted(name) => Some(name.bytes()),
        TokenKind::Punct(b',') => Some(b","),
        _ => None,
    }
}

pub(crate) fn found_of(ops: &Ops, text: Option<&[u8]>) -> Definitions
    ensures { result ≡ grammar.found_of ops.now (option_copied text.entry) }
{
    match text {
        Some(text) => ops.definitions(text),
        None => Definitions {
            as_prefix: None,
            as_infix: None,
            as_postfix: None,
        },
    }
}

pub(crate) fn extension(
    alloc: Global,
    text: Option<&[u8]>,
    found: Definitions,
    priority: u16,
    most: u16,
) -> Result<Option<Extension>, Want>
    ensures { IfOk result (λ x. x ≡ grammar.extended (option_copied text.entry) found priority most) }
{
    let Some(text) = text else {
        return Ok(None);
    };
    if let Some(op) = found.as_infix {
        if op.priority <= most && priority <= op.left {
            return Ok(Some(Extension::OverTwo(Name::of(alloc, text)?, op.priority, op.right)));
        }
    }
    if let Some(op) = found.as_postfix {
        if op.priority <= most && priority <= op.operand {
            return Ok(Some(Extension::OverOne(Name::of(alloc, text)?, op.priority)));
        }
    }
    Ok(None)
}

pub(crate) fn follows(found: Definitions) -> bool
    ensures { result ≡ grammar.follows found }
{
    found.as_infix.is_some() || found.as_postfix.is_some()
}

#[tactic(auto, unfolding(crate::specs::Grammar::refusal))]
pub(crate) fn refusal(ops: &Ops, token: &Token) -> Fault
    ensures { grammar.refusal ops.now token.now ≡ stops result }
{
    if follows(found_of(ops, operator_text(&token.kind))) {
        Fault::Priority
    } else {
        Fault::Unexpected
    }
}

pub(crate) fn is_punct(kind: &TokenKind, byte: u8) -> bool
    ensures { result ≡ grammar.is_punct byte kind.now }
{
    match kind {
        TokenKind::Punct(found) => *found == byte,
        _ => false,
    }
}

pub(crate) fn opens(kind: &TokenKind) -> bool
    ensures { result ≡ grammar.opens kind.now }
{
    match kind {
        TokenKind::Punct(b) => *b == b'(',
        _ => false,
    }
}

pub(crate) fn calls(token: &Token, rest: &[Token]) -> bool
    ensures { result ≡ grammar.calls token.now rest.now }
{
    match rest.first() {
        None => false,
        Some(next) => token.to == next.from && opens(&next.kind),
    }
}

pub(crate) fn negates(token: &Token, rest: &[Token]) -> bool
    ensures { result ≡ grammar.negates token.now rest.now }
{
    match rest.first() {
        None => false,
        Some(next) => token.to == next.from && is_integer(&next.kind) && is_minus(&token.kind),
    }
}

pub(crate) fn is_integer(kind: &TokenKind) -> bool
    ensures { result ≡ grammar.is_integer kind.now }
{
    match kind {
        TokenKind::Integer(_) => true,
        _ => false,
    }
}

pub(crate) fn is_minus(kind: &TokenKind) -> bool
    ensures { result ≡ grammar.is_minus kind.now }
{
    match kind {
        TokenKind::Name(name) => name.bytes() == b"-".as_slice(),
        _ => false,
    }
}

pub(crate) fn next_value(rest: &[Token]) -> u128
    ensures { result ≡ grammar.next_value rest.now }
{
    match rest.first() {
        None => 0,
        Some(next) => value_of(&next.kind),
    }
}

pub(crate) fn value_of(kind: &TokenKind) -> u128
    ensures { result ≡ grammar.value_of kind.now }
{
    match kind {
        TokenKind::Integer(value) => *value,
        _ => 0,
    }
}

pub(crate) fn next_is(byte: u8, rest: &[Token]) -> bool
    ensures { result ≡ grammar.next_is byte rest.now }
{
    match rest.first() {
        None => false,
        Some(next) => is_punct(&next.kind, byte),
    }
}

pub(crate) fn begins(kind: &TokenKind) -> bool
    ensures { result ≡ grammar.begins kind.now }
{
    match kind {
        TokenKind::Punct(b) => !(*b == b')'
            || *b == b']'
            || *b == b'}'
            || *b == b','
            || *b == b'|'),
        TokenKind::Stop => false,
        _ => true,
    }
}

pub(crate) fn bars(ops: &Ops, kind: &TokenKind) -> bool
    ensures { result ≡ grammar.bars ops.now kind.now }
{
    match kind {
        TokenKind::Name(name) => {
            let found = ops.definitions(name.bytes());
            follows(found) && found.as_prefix.is_none()
        }
        _ => false,
    }
}

pub(crate) fn takes_operand(ops: &Ops, rest: &[Token]) -> bool
    ensures { result ≡ grammar.takes_operand ops.now rest.now }
{
    match rest.split_first() {
        None => false,
        Some((next, after)) => begins(&next.kind)
            && !(bars(ops, &next.kind) && !(calls(next, after) || negates(next, after))),
    }
}
