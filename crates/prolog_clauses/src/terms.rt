// The terms that stand for procedures, one behind the other, by their nodes.
ghost use Rattle.std.specs.Prelude.{◌≡◌, ◌<◌, [], ◌∷◌, length, MatchOption, IfSome};
ghost use Rattle.prolog_terms.specs.Flat.{tree, forest, HasPrefixOrder};
ghost use Rattle.prolog_clauses.specs.Procedures.{all_conjuncts, terms_left, AreLeft, ArePrefixOrders};

use crate::elements::{begins_with, cell, split_tree};
use prolog_terms::Node;

/// How terms that stand for procedures are held together.
#[derive(Clone, Copy, Debug, PartialEq, Eq)]
pub(crate) enum Form {
    /// As the elements of a list.
    Listed,
    /// By `,` of two arguments, or there is one term alone.
    Joined,
}

/// The nodes of the next term and those behind it, where there is one.
pub(crate) fn next_term(form: Form, nodes: &[Node]) -> Option<(&[Node], &[Node])>
    requires { AreLeft form nodes.now }
    ensures next { MatchOption result (terms_left form nodes.now ≡ []) (λ parts. terms_left form nodes.now ≡ tree parts.0.now ∷ terms_left form parts.1.now) }
    ensures term { IfSome result (λ parts. HasPrefixOrder parts.0.now) }
    ensures rest { IfSome result (λ parts. AreLeft form parts.1.now) }
    ensures shorter { IfSome result (λ parts. length parts.1.now < length nodes.now) }
{
    match form {
        Form::Listed => cell(nodes),
        Form::Joined => next_conjunct(nodes),
    }
}

/// The nodes of the next term that conjunctions join and those behind it, where there is one.
fn next_conjunct(nodes: &[Node]) -> Option<(&[Node], &[Node])>
    requires { ArePrefixOrders nodes.now }
    ensures next { MatchOption result (all_conjuncts (forest nodes.now) ≡ []) (λ parts. all_conjuncts (forest nodes.now) ≡ tree parts.0.now ∷ all_conjuncts (forest parts.1.now)) }
    ensures term { IfSome result (λ parts. HasPrefixOrder parts.0.now) }
    ensures rest { IfSome result (λ parts. ArePrefixOrders parts.1.now) }
    ensures shorter { IfSome result (λ parts. length parts.1.now < length nodes.now) }
{
    let mut left = nodes;
    'commas: while begins_with(left, b",", 2) {
        left = &left[1..];
    }
    if left.is_empty() {
        None
    } else {
        Some(split_tree(left))
    }
}
