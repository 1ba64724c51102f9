// What a term says that stands for a procedure.
ghost use Rattle.std.specs.Prelude.{◌≡◌, ◌<◌, codes, length, MatchOption, IfSome, IfOk};
ghost use Rattle.prolog_terms.specs.Tree.{atom};
ghost use Rattle.prolog_terms.specs.Flat.{tree, HasPrefixOrder};
ghost use Rattle.prolog_clauses.specs.Dynamics as spec;
ghost use Rattle.prolog_clauses.specs.Procedures.{IsSlash, IsNoSlash, arity_of as arity};

use crate::elements::{begins_with, is_variable, split_tree};
use prolog_terms::{Indicator, Name, Node, Want, Whole};

/// The nodes of N and A, where the term is `N/A`.
fn slash(term: &[Node]) -> Option<(&[Node], &[Node])>
    requires { HasPrefixOrder term.now }
    ensures slash { MatchOption result (IsNoSlash (tree term.now)) (λ parts. IsSlash (tree term.now) (tree parts.0.now) (tree parts.1.now)) }
    ensures name { IfSome result (λ parts. HasPrefixOrder parts.0.now) }
    ensures arity { IfSome result (λ parts. HasPrefixOrder parts.1.now) }
{
    if begins_with(term, b"/", 2) {
        Some(split_tree(&term[1..]))
    } else {
        None
    }
}

/// Whether the term is unbound, or it is an `N/A` of which N or A is.
pub(crate) fn is_unbound(term: &[Node]) -> bool
    requires { HasPrefixOrder term.now }
    ensures { result ≡ spec.is_unbound (tree term.now) }
{
    match slash(term) {
        Some((name, arity)) => is_variable(name) || is_variable(arity),
        None => is_variable(term),
    }
}

/// The procedure that the term names: it is `N/A` with an atom N and an integer A from 0 to 255.
pub(crate) fn indicator_of(term: &[Node]) -> Result<Option<Indicator>, Want>
    requires { HasPrefixOrder term.now }
    ensures { IfOk result (λ i. i ≡ spec.spec_indicator (tree term.now)) }
{
    match slash(term) {
        Some((name, arity)) => Ok(named(name, arity)?),
        None => Ok(None),
    }
}

/// The same, of N and A.
fn named(name: &[Node], arity: &[Node]) -> Result<Option<Indicator>, Want>
    requires name { HasPrefixOrder name.now }
    requires arity { HasPrefixOrder arity.now }
    ensures { IfOk result (λ i. i ≡ spec.indicator_named (codes "/") (tree name.now) (tree arity.now)) }
{
    match &name[0] {
        Node::Atom(text) => Ok(with_arity(text, arity)?),
        Node::Var(_) | Node::Int(_) | Node::Functor(_, _) => Ok(None),
    }
}

/// The same, of an atom N.
fn with_arity(name: &Name, arity: &[Node]) -> Result<Option<Indicator>, Want>
    requires { HasPrefixOrder arity.now }
    ensures { IfOk result (λ i. i ≡ spec.indicator_named (codes "/") (atom name.now) (tree arity.now)) }
{
    match &arity[0] {
        Node::Int(whole) => match arity_of(*whole) {
            Some(arity) => Ok(Some(Indicator {
                name: name.clone()?,
                arity,
            })),
            None => Ok(None),
        },
        Node::Var(_) | Node::Atom(_) | Node::Functor(_, _) => Ok(None),
    }
}

/// The arity that an integer is.
fn arity_of(whole: Whole) -> Option<u32>
    ensures { result ≡ arity whole }
{
    if whole < 0 || whole > 255 {
        None
    } else {
        Some(whole as u32)
    }
}
