// Read-terms of a text (docs/LANGUAGE.md, "Terms").
ghost use Rattle.std.specs.Prelude.{◌≡◌, ◌++◌, IfOk, OnErr};
ghost use Rattle.prolog_lexer.specs.Streams.{ahead};
ghost use Rattle.prolog_reader.specs.Grammar as grammar;
ghost use Rattle.prolog_terms.specs.Flat.{front};
ghost use Rattle.prolog_reader.specs.Orders.{IsOneTerm};
ghost use Rattle.prolog_reader.specs.Texts as texts;
ghost use Rattle.prolog_reader.specs.Texts.{Says, ByCases, HasFault, Numbers, upto, HasItsVariables, reading_of, read_reading};

use crate::order::term_of;
use crate::parser::{Parser, read};
use crate::rule::Fault;
use prolog_lexer::{LexFault, Lexed, Lexer, Token, TokenKind};
use prolog_terms::{Ops, ShownVariables, Term, Want};
use std::alloc::Global;

/// How the tokens of a read-term end: at an End in a line, at the end of the text, or at a fault.
#[derive(Clone, Copy, Debug)]
pub(crate) enum Ended {
    Stopped(u64),
    Out,
    Faulty(LexFault),
}

/// A term that was read.
#[derive(Debug, Drop)]
pub struct ReadTerm {
    /// The term, with its variables numbered from 0 by first occurrence.
    pub term: Term,
    /// The line of its first token.
    pub line: u64,
    /// Its named variables, in order of first occurrence, but for those whose name begins with `_`.
    pub shown: ShownVariables,
    /// How many variables it has.
    pub vars: u64,
}

/// What a call of `read_term` finds.
#[derive(Debug, Drop)]
pub enum Read {
    Term(ReadTerm),
    /// The end of the text: no token is left.
    End,
    /// The line of the read-term's first token (of the fault, where it has none) and the number of the fault: 1 to 5 of
    /// the lexer, 5 also where an integer of 2^63 is not negated, 6 where the text ends within a read-term, 7 where a token
    /// can't stand where it does, 8 where that is for an operator's priority, 9 where more than 255 arguments follow.
    Refused { line: u64, fault: u8 },
}

/// The number of the fault where the text ends within a read-term.
const NO_END: u8 = 6;

/// Reads the next read-term: its tokens up to the next End, and the term that they are under these operators. What the lexer
/// has ahead then is what stands behind the End or, where none came, the fault or the end of the text; for want of memory
/// what is ahead stays as it was.
#[tactic(auto, unfolding(crate::specs::Texts::read_of))]
pub fn read_term(alloc: Global, lexer: &mut Lexer, ops: &Ops) -> Result<Read, Want>
    ensures read { IfOk result (λ r. Says (texts.read_of ops.now (ahead lexer.old)) r) }
    ensures cases { IfOk result (λ r. ByCases ops.now (upto (ahead lexer.old)) (texts.tail (ahead lexer.old)).how r) }
    ensures faults { IfOk result (λ r. HasFault ops.now (upto (ahead lexer.old)) (texts.tail (ahead lexer.old)).how r) }
    ensures variables { IfOk result (λ r. Numbers r) }
    ensures rest { IfOk result (λ _. ahead lexer.new ≡ (texts.tail (ahead lexer.old)).rest) }
    ensures err { OnErr result (ahead lexer.new ≡ ahead lexer.old) }
{
    let mut behind = lexer.copy();
    let mut tokens = Vec::new(alloc);
    let ended = collect(alloc, &mut behind, &mut tokens)?;
    let read = answer(alloc, ops, tokens.as_slice(), ended)?;
    *lexer = behind;
    Ok(read)
}

fn is_stop(kind: &TokenKind) -> bool
    ensures { result ≡ texts.is_stop kind.now }
{
    match kind {
        TokenKind::Stop => true,
        _ => false,
    }
}

fn collect(alloc: Global, lexer: &mut Lexer, tokens: &mut Vec<Token>) -> Result<Ended, Want>
    ensures tokens { IfOk result (λ _. tokens.new.items ≡ tokens.old.items ++ upto (ahead lexer.old)) }
    ensures ended { IfOk result (λ e. texts.tail (ahead lexer.old) ≡ record { how = e; rest = ahead lexer.new }) }
{
    'tokens: loop {
        match lexer.next(alloc)? {
            Lexed::End => return Ok(Ended::Out),
            Lexed::Refused(fault) => return Ok(Ended::Faulty(fault)),
            Lexed::Token(token) => {
                if is_stop(&token.kind) {
                    return Ok(Ended::Stopped(token.line));
                }
                tokens.push(token)?;
            }
        }
    }
}

fn line_of(tokens: &[Token], ended: Ended) -> u64
    ensures { result ≡ texts.line_of tokens.now ended }
{
    match tokens.first() {
        Some(token) => token.line,
        None => match ended {
            Ended::Stopped(line) => line,
            Ended::Faulty(fault) => fault.line,
            Ended::Out => 0,
        },
    }
}

fn number(fault: Fault) -> u8
    ensures { result ≡ texts.number fault }
{
    match fault {
        Fault::TooLarge => 5,
        Fault::Unexpected => 7,
        Fault::Priority => 8,
        Fault::Arity => 9,
    }
}

fn answer(alloc: Global, ops: &Ops, tokens: &[Token], ended: Ended) -> Result<Read, Want>
    ensures says { IfOk result (λ r. Says (texts.answer ops.now tokens.now ended) r) }
    ensures cases { IfOk result (λ r. ByCases ops.now tokens.now ended r) }
    ensures faults { IfOk result (λ r. HasFault ops.now tokens.now ended r) }
    ensures variables { IfOk result (λ r. Numbers r) }
{
    let line = line_of(tokens, ended);
    match ended {
        Ended::Faulty(fault) => Ok(Read::Refused {
            line,
            fault: fault.number,
        }),
        Ended::Out => {
            if tokens.is_empty() {
                Ok(Read::End)
            } else {
                Ok(Read::Refused {
                    line,
                    fault: NO_END,
                })
            }
        }
        Ended::Stopped(_) => match read(alloc, ops, tokens)? {
            Ok(parser) => Ok(Read::Term(found_term(alloc, line, parser)?)),
            Err(fault) => Ok(Read::Refused {
                line,
                fault: number(fault),
            }),
        },
    }
}

fn found_term(alloc: Global, line: u64, parser: Parser) -> Result<ReadTerm, Want>
    requires { IsOneTerm parser.terms }
    ensures reading { IfOk result (λ r. read_reading r ≡ reading_of (front parser.terms) parser.variables) }
    ensures line { IfOk result (λ r. r.line ≡ line) }
{
    let shown = parser.variables.shown()?;
    let vars = parser.variables.count();
    let term = term_of(alloc, parser.terms)?;
    Ok(ReadTerm {
        term,
        line,
        shown,
        vars,
    })
}
