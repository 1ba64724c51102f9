// The elements of a list, by its nodes.
ghost use Rattle.std.specs.Prelude.{◌≡◌, ◌<◌, ℕ, length, MatchOption, IfSome};
ghost use Rattle.std.specs.List.{list_any};
ghost use Rattle.prolog_terms.specs.Tree.{Tree, Trees, more};
ghost use Rattle.prolog_terms.specs.Flat.{tree, nodes as nodes_of, nodes_all, HasPrefixOrder};
ghost use Rattle.prolog_clauses.specs.Declarations as spec;
ghost use Rattle.prolog_clauses.specs.Cells.{IsCell, IsNoCell};
ghost use Rattle.prolog_clauses.specs.Flat as flat;

use crate::goals::tree_len;
use prolog_terms::Node;

/// Whether the term is a variable.
pub(crate) fn is_variable(nodes: &[Node]) -> bool
    requires { HasPrefixOrder nodes.now }
    ensures { result ≡ spec.is_variable (tree nodes.now) }
{
    match &nodes[0] {
        Node::Var(_) => true,
        Node::Int(_) | Node::Atom(_) | Node::Functor(_, _) => false,
    }
}

/// Whether the term is `[]`.
pub(crate) fn is_nil(nodes: &[Node]) -> bool
    requires { HasPrefixOrder nodes.now }
    ensures { result ≡ spec.is_nil (tree nodes.now) }
{
    match &nodes[0] {
        Node::Atom(name) => name.bytes() == b"[]".as_slice(),
        Node::Var(_) | Node::Int(_) | Node::Functor(_, _) => false,
    }
}

/// Whether the nodes begin with a compound's of this name and so many arguments.
pub(crate) fn begins_with(nodes: &[Node], name: &[u8], arity: u32) -> bool
    ensures { result ≡ flat.begins_with name.now arity nodes.now }
{
    match nodes.first() {
        Some(Node::Functor(text, count)) => text.bytes() == name && *count == arity,
        _ => false,
    }
}

/// The nodes of the first tree, and those behind them.
pub(crate) fn split_tree(nodes: &[Node]) -> (&[Node], &[Node])
    ensures front { (t : Tree) (ts : Trees) → nodes_all (more t ts) ≡ nodes.now → result.0.now ≡ nodes_of t }
    ensures back { (t : Tree) (ts : Trees) → nodes_all (more t ts) ≡ nodes.now → result.1.now ≡ nodes_all ts }
{
    nodes.split_at(tree_len(nodes))
}

/// The nodes of the element and the rest, where the term is a cell of a list.
pub(crate) fn cell(nodes: &[Node]) -> Option<(&[Node], &[Node])>
    requires { HasPrefixOrder nodes.now }
    ensures cell { MatchOption result (IsNoCell (tree nodes.now)) (λ parts. IsCell (tree nodes.now) (tree parts.0.now) (tree parts.1.now)) }
    ensures element { IfSome result (λ parts. HasPrefixOrder parts.0.now) }
    ensures rest { IfSome result (λ parts. HasPrefixOrder parts.1.now) }
    ensures shorter { IfSome result (λ parts. length parts.1.now < length nodes.now) }
{
    if begins_with(nodes, b".", 2) {
        Some(split_tree(&nodes[1..]))
    } else {
        None
    }
}

/// Whether an element is a variable, whatever the list ends with.
pub(crate) fn has_unbound_element(nodes: &[Node]) -> bool
    requires { HasPrefixOrder nodes.now }
    ensures { result ≡ list_any spec.is_variable (spec.elements (tree nodes.now)) }
{
    let mut left = nodes;
    'cells: while let Some((element, rest)) = cell(left) {
        if is_variable(element) {
            return true;
        }
        left = rest;
    }
    false
}

/// The nodes of what the list ends with.
pub(crate) fn list_end(nodes: &[Node]) -> &[Node]
    requires { HasPrefixOrder nodes.now }
    ensures ends { tree result.now ≡ spec.list_end (tree nodes.now) }
    ensures prefix { HasPrefixOrder result.now }
{
    let mut left = nodes;
    'cells: while let Some((_, rest)) = cell(left) {
        left = rest;
    }
    left
}

/// Whether the list ends in `[]`.
pub(crate) fn ends_in_nil(nodes: &[Node]) -> bool
    requires { HasPrefixOrder nodes.now }
    ensures { result ≡ spec.is_nil (spec.list_end (tree nodes.now)) }
{
    is_nil(list_end(nodes))
}
