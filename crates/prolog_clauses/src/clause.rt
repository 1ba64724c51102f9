// From a term to a clause (docs/LANGUAGE.md, "Clauses").
ghost use Rattle.std.specs.Prelude.{◌≡◌, true, false, IfOk};
ghost use Rattle.prolog_terms.specs.Clauses as terms;
ghost use Rattle.prolog_terms.specs.Flat.{tree, nodes as nodes_of, HasPrefixOrder, IsPrefixOrder};
ghost use Rattle.prolog_clauses.specs.Formed as spec;
ghost use Rattle.prolog_clauses.specs.Flat as flat;

use crate::called::body_of;
use crate::culprit::type_error;
use crate::goals::{begins_rule, is_body, tree_len};
use crate::numbers::Numbers;
use prolog_terms::{Clause, Fault, Name, Node, Term, Want};
use std::alloc::Global;

/// What a term is.
#[derive(Debug, Drop)]
pub enum Formed {
    /// A clause, its variables numbered from 0 by first occurrence through head and then body.
    Clause(Clause),
    /// No clause, and this is the error of adding it. What is amiss with the head comes before what is amiss with the body:
    /// the head is a variable (an instantiation error) or an integer (a type error of the head), or an integer stands as a goal
    /// of the body, through `,`, `;` and `->` (a type error of the whole body as it was written).
    Refused(Fault),
}

/// The clause that a term is: a term of the name `:-` with two arguments is a rule, and every other term is a fact, whose
/// body is `true`. A variable that stands as a goal of a rule's body, through `,`, `;` and `->`, becomes `call` of it.
/// Whether the head's name is reserved, and whether the term is a directive (`:-` or `?-` with one argument) or a grammar
/// rule (`-->` with two), is for the caller to see: here these are heads of facts like any other.
pub fn clause_of(alloc: Global, term: &Term) -> Result<Formed, Want>
    ensures { IfOk result (λ x. x ≡ spec.clause_of term.now) }
{
    let nodes = term.nodes();
    if begins_rule(nodes) {
        rule(alloc, nodes)
    } else {
        fact(alloc, nodes)
    }
}

/// The clause of a rule's nodes.
fn rule(alloc: Global, nodes: &[Node]) -> Result<Formed, Want>
    requires rule { flat.begins_rule nodes.now ≡ true }
    requires term { HasPrefixOrder nodes.now }
    ensures { IfOk result (λ x. x ≡ spec.clause_of (tree nodes.now)) }
{
    let parts = &nodes[1..];
    let (head, body) = parts.split_at(tree_len(parts));
    of_parts(alloc, head, body)
}

/// The clause of a fact's nodes.
fn fact(alloc: Global, nodes: &[Node]) -> Result<Formed, Want>
    requires fact { flat.begins_rule nodes.now ≡ false }
    requires term { HasPrefixOrder nodes.now }
    ensures { IfOk result (λ x. x ≡ spec.clause_of (tree nodes.now)) }
{
    let body = [Node::Atom(Name::of(alloc, b"true")?)];
    of_parts(alloc, nodes, &body)
}

/// The clause of these nodes of head and body.
fn of_parts(alloc: Global, head: &[Node], body: &[Node]) -> Result<Formed, Want>
    requires head { HasPrefixOrder head.now }
    requires body { HasPrefixOrder body.now }
    ensures { IfOk result (λ x. x ≡ spec.of_parts (spec.rule (tree head.now) (tree body.now))) }
{
    match &head[0] {
        Node::Var(_) => Ok(Formed::Refused(Fault::Instantiation)),
        Node::Int(_) => Ok(Formed::Refused(no_callable(alloc, head)?)),
        Node::Atom(_) | Node::Functor(_, _) => with_body(alloc, head, body),
    }
}

/// The same, where the head is one: with `call` of each variable that stands as a goal of the body.
fn with_body(alloc: Global, head: &[Node], body: &[Node]) -> Result<Formed, Want>
    requires head { HasPrefixOrder head.now }
    requires body { HasPrefixOrder body.now }
    ensures { IfOk result (λ x. x ≡ spec.with_body (spec.rule (tree head.now) (tree body.now)) (terms.body_of (tree body.now))) }
{
    if is_body(body) {
        return Ok(Formed::Clause(numbered(alloc, head, body)?));
    }
    match body_of(alloc, body)? {
        Some(goals) => Ok(Formed::Clause(numbered(alloc, head, goals.as_slice())?)),
        None => Ok(Formed::Refused(no_callable(alloc, body)?)),
    }
}

/// The error that a term can't be called.
fn no_callable(alloc: Global, nodes: &[Node]) -> Result<Fault, Want>
    requires { HasPrefixOrder nodes.now }
    ensures { IfOk result (λ fault. fault ≡ spec.no_callable (tree nodes.now)) }
{
    type_error(alloc, b"callable", nodes)
}

/// Head and body, with their variables numbered by first occurrence.
fn numbered(alloc: Global, head: &[Node], body: &[Node]) -> Result<Clause, Want>
    requires head { HasPrefixOrder head.now }
    requires body { HasPrefixOrder body.now }
    ensures { IfOk result (λ c. c ≡ spec.numbered (spec.rule (tree head.now) (tree body.now))) }
{
    let mut numbers = Numbers::new(alloc);
    let head = numbers.all_numbered(alloc, head)?;
    let body = numbers.all_numbered(alloc, body)?;
    Ok(Clause {
        head: term_of(head),
        body: term_of(body),
        vars: numbers.count(),
    })
}

/// The term of these nodes.
pub(crate) fn term_of(nodes: Vec<Node>) -> Term
    requires { IsPrefixOrder nodes.items }
    ensures { nodes_of result ≡ nodes.items }
{
    Term::of_nodes(nodes).unwrap()
}
