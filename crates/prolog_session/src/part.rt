// The read-terms of a text, as a load takes them.
ghost use Rattle.std.specs.Prelude.{◌≡◌, Some, IfOk};
ghost use Rattle.prolog_terms.specs.Indicators.{indicator_of};
ghost use Rattle.prolog_lexer.specs.Streams.{ahead};
ghost use Rattle.prolog_reader.specs.Texts.{Answer, Says, Numbers, HasItsVariables, read_of, read_reading, tail};
ghost use Rattle.wam_machine.specs.Procedures.{no_change};
ghost use Rattle.prolog_session.specs.Load as load;
ghost use Rattle.prolog_session.specs.Load.{IsReadyPart, IsReadyNext};

use crate::kept::TextGoal;
use crate::refusal::Refusal;
use prolog_clauses::{Declaring, Directive, Dynamics, Formed, clause_of, directive_of};
use prolog_lexer::Lexer;
use prolog_reader::{Read, ReadTerm, read_term};
use prolog_terms::{
    Clause, Fault, Indicator, Name, Ops, ShownVariables, Term, Want, term_indicator,
};
use std::alloc::Global;
use wam_machine::{Goal, is_reserved, no_change};

/// What a read-term is to a load.
#[derive(Debug, Drop)]
pub enum Part {
    /// A clause, with the line in which it begins, and its head's name and arity.
    Clause(u64, Indicator, Clause),
    /// A directive `:- op(P, T, N)`, with its line.
    Operators(u64, Declaring),
    /// A directive `:- dynamic(Specs)`, with its line.
    Procedures(u64, Dynamics),
    /// A directive or a query whose goal is run at its place.
    Goal(TextGoal),
    /// A directive `:- initialization(G)`, whose goal is kept for the end of the text.
    Kept(TextGoal),
    /// A directive that says nothing.
    Nothing,
    /// A read-term in this line that can't be added: the error, and the call that raises it.
    Raises(u64, Fault, Indicator),
}

/// What is next in a text.
#[derive(Debug, Drop)]
pub enum Next {
    /// A read-term that the load takes.
    Taken(Part),
    /// A read-term that is refused, at which the load ends.
    Refused(Refusal),
    /// The end of the text.
    End,
}

/// What is next in a text, under these operators.
pub fn next_part(alloc: Global, lexer: &mut Lexer, ops: &Ops) -> Result<Next, Want>
    ensures next { IfOk result (λ n. n ≡ load.next_of (read_of ops.now (ahead lexer.old))) }
    ensures ready { IfOk result IsReadyNext }
    ensures rest { IfOk result (λ _. ahead lexer.new ≡ (tail (ahead lexer.old)).rest) }
{
    let read = read_term(alloc, lexer, ops)?;
    next_of(alloc, read)
}

fn next_of(alloc: Global, read: Read) -> Result<Next, Want>
    requires { Numbers read }
    ensures next { IfOk result (λ n. (a : Answer) → Says a read → n ≡ load.next_of a) }
    ensures ready { IfOk result IsReadyNext }
{
    match read {
        Read::Term(read) => Ok(Next::Taken(part_of(alloc, read)?)),
        Read::Refused { line, fault } => Ok(Next::Refused(Refusal { line, fault })),
        Read::End => Ok(Next::End),
    }
}

fn part_of(alloc: Global, read: ReadTerm) -> Result<Part, Want>
    requires { HasItsVariables (read_reading read) }
    ensures part { IfOk result (λ p. p ≡ load.part_of read.line (read_reading read)) }
    ensures ready { IfOk result IsReadyPart }
{
    match directive_of(alloc, &read.term)? {
        Some(directive) => Ok(part_of_directive(read.line, directive, read.shown)),
        None => part_of_term(alloc, read.line, &read.term),
    }
}

fn part_of_directive(line: u64, directive: Directive, shown: ShownVariables) -> Part
    ensures { result ≡ load.part_of_directive line shown directive }
{
    match directive {
        Directive::Operators(declaring) => Part::Operators(line, declaring),
        Directive::Dynamic(dynamics) => Part::Procedures(line, dynamics),
        Directive::Nothing => Part::Nothing,
        Directive::Kept(term) => Part::Kept(TextGoal {
            line,
            goal: Goal { term, shown },
        }),
        Directive::Goal(term) => Part::Goal(TextGoal {
            line,
            goal: Goal { term, shown },
        }),
    }
}

fn part_of_term(alloc: Global, line: u64, term: &Term) -> Result<Part, Want>
    ensures part { IfOk result (λ p. p ≡ load.part_of_term line term.now (indicator_of term.now)) }
    ensures ready { IfOk result IsReadyPart }
{
    if let Some(indicator) = term_indicator(alloc, term)? {
        if is_grammar_rule(&indicator) {
            return not_changed(alloc, line, &indicator);
        }
    }
    match clause_of(alloc, term)? {
        Formed::Clause(clause) => part_of_clause(alloc, line, clause),
        Formed::Refused(fault) => not_added(alloc, line, fault),
    }
}

fn part_of_clause(alloc: Global, line: u64, clause: Clause) -> Result<Part, Want>
    ensures { IfOk result (λ p. p ≡ load.part_of_clause line clause (indicator_of clause.head)) }
{
    match term_indicator(alloc, &clause.head)? {
        Some(indicator) => part_of_named(alloc, line, indicator, clause),
        None => Ok(Part::Nothing),
    }
}

fn part_of_named(
    alloc: Global,
    line: u64,
    indicator: Indicator,
    clause: Clause,
) -> Result<Part, Want>
    ensures { IfOk result (λ p. p ≡ load.part_of_clause line clause (Some indicator)) }
{
    if is_reserved(&indicator) {
        return not_changed(alloc, line, &indicator);
    }
    Ok(Part::Clause(line, indicator, clause))
}

/// Whether the indicator is that of a grammar rule, which is no clause.
fn is_grammar_rule(indicator: &Indicator) -> bool
    ensures { result ≡ load.is_grammar_rule indicator.now }
{
    indicator.name.bytes() == b"-->".as_slice() && indicator.arity == 2
}

/// The error that no text may change the procedure of this name and arity.
fn not_changed(alloc: Global, line: u64, indicator: &Indicator) -> Result<Part, Want>
    ensures { IfOk result (λ p. p ≡ load.not_added line (no_change indicator.now)) }
{
    let fault = no_change(alloc, indicator)?;
    not_added(alloc, line, fault)
}

/// The call that adds a clause of the text.
pub(crate) fn assertz(alloc: Global) -> Result<Indicator, Want>
    ensures { IfOk result (λ i. i ≡ load.assertz) }
{
    Ok(Indicator {
        name: Name::of(alloc, b"assertz")?,
        arity: 1,
    })
}

/// The error is that of `assertz/1`.
fn not_added(alloc: Global, line: u64, fault: Fault) -> Result<Part, Want>
    ensures { IfOk result (λ p. p ≡ load.not_added line fault) }
{
    let at = assertz(alloc)?;
    Ok(Part::Raises(line, fault, at))
}
