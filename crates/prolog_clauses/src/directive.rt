// Which directive a term is (docs/LANGUAGE.md, "Programs").
ghost use Rattle.std.specs.Prelude.{◌≡◌, ◌++◌, Some, None, IfOk, OnOk, IfSome, IfNone};
ghost use Rattle.prolog_terms.specs.Flat.{tree, HasPrefixOrder};
ghost use Rattle.prolog_clauses.specs.Directives as spec;

use crate::clause::term_of;
use crate::dynamics::{Dynamics, dynamics_of};
use crate::elements::begins_with;
use crate::operators::{Declaring, declaring_of};
use prolog_terms::{Name, Node, Term, Want};
use std::alloc::Global;

/// What a term is as a directive.
#[derive(Debug, Drop)]
pub enum Directive {
    /// `:- op(P, T, N)`, and what it comes to.
    Operators(Declaring),
    /// `:- dynamic(Specs)`, and what it comes to.
    Dynamic(Dynamics),
    /// `:- discontiguous(_)` or `:- multifile(_)`, which says nothing.
    Nothing,
    /// The goal `once(G)` of `:- initialization(G)`, which is kept for the end of the text.
    Kept(Term),
    /// The goal `once(G)` of any other `:- G`, or of `?- G`.
    Goal(Term),
}

/// What a term is as a directive; nothing where it is neither `:- G` nor `?- G`. A query `?- G` is a goal, whatever G is.
pub fn directive_of(alloc: Global, term: &Term) -> Result<Option<Directive>, Want>
    ensures directive { IfOk result (λ d. d ≡ spec.directive_of term.now) }
    ensures ready { IfOk result (λ d. IfSome d (spec.IsReady term.now)) }
{
    match declaring_of(alloc, term)? {
        Some(declaring) => Ok(Some(Directive::Operators(declaring))),
        None => of_nodes(alloc, term.nodes()),
    }
}

/// The directive of these nodes, which declares no operators.
fn of_nodes(alloc: Global, nodes: &[Node]) -> Result<Option<Directive>, Want>
    requires { HasPrefixOrder nodes.now }
    ensures { IfOk result (λ d. d ≡ spec.by_declaring None (tree nodes.now)) }
{
    if let Some(goal) = argument(nodes, b":-") {
        return Ok(Some(of_goal(alloc, goal)?));
    }
    match argument(nodes, b"?-") {
        Some(goal) => Ok(Some(Directive::Goal(once(alloc, goal)?))),
        None => Ok(None),
    }
}

/// The directive `:- G` of this goal, which declares no operators.
fn of_goal(alloc: Global, goal: &[Node]) -> Result<Directive, Want>
    requires { HasPrefixOrder goal.now }
    ensures { IfOk result (λ d. d ≡ spec.of_goal (tree goal.now)) }
{
    if says_nothing(goal) {
        return Ok(Directive::Nothing);
    }
    if let Some(specs) = argument(goal, b"dynamic") {
        return Ok(Directive::Dynamic(dynamics_of(alloc, specs)?));
    }
    match argument(goal, b"initialization") {
        Some(kept) => Ok(Directive::Kept(once(alloc, kept)?)),
        None => Ok(Directive::Goal(once(alloc, goal)?)),
    }
}

/// Whether the goal of a directive says nothing to a load.
fn says_nothing(goal: &[Node]) -> bool
    requires { HasPrefixOrder goal.now }
    ensures { result ≡ spec.says_nothing (tree goal.now) }
{
    is_term_of_one(goal, b"discontiguous") || is_term_of_one(goal, b"multifile")
}

/// Whether it is a term of this name with one argument.
fn is_term_of_one(nodes: &[Node], name: &[u8]) -> bool
    requires { HasPrefixOrder nodes.now }
    ensures { result ≡ spec.is_term_of_one name.now (tree nodes.now) }
{
    argument(nodes, name).is_some()
}

/// The nodes of the argument, where it is a term of this name with one.
fn argument<'a>(nodes: &'a [Node], name: &[u8]) -> Option<&'a [Node]>
    requires { HasPrefixOrder nodes.now }
    ensures some { IfSome result (λ a. spec.argument name.now (tree nodes.now) ≡ Some (tree a.now)) }
    ensures prefix { IfSome result (λ a. HasPrefixOrder a.now) }
    ensures none { IfNone result (spec.argument name.now (tree nodes.now) ≡ None) }
{
    if begins_with(nodes, name, 1) {
        Some(&nodes[1..])
    } else {
        None
    }
}

/// The term `once(G)` of this goal.
fn once(alloc: Global, goal: &[Node]) -> Result<Term, Want>
    requires { HasPrefixOrder goal.now }
    ensures { IfOk result (λ t. t ≡ spec.once (tree goal.now)) }
{
    let mut nodes = Vec::new(alloc);
    nodes.push(Node::Functor(Name::of(alloc, b"once")?, 1))?;
    put_nodes(&mut nodes, goal)?;
    Ok(term_of(nodes))
}

fn put_nodes(nodes: &mut Vec<Node>, more: &[Node]) -> Result<(), Want>
    ensures { OnOk result (nodes.new.items ≡ nodes.old.items ++ more.now) }
{
    for node in more {
        nodes.push(node.clone()?)?;
    }
    Ok(())
}
