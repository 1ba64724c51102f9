// The standard order of terms.
ghost use Rattle.std.specs.Prelude.{◌≡◌};
ghost use Rattle.std.specs.Cmp.Lexicographic.{slice_cmp};
ghost use Rattle.prolog_terms.specs.Order.{standard_order, node_rank, node_order};

use crate::{Node, Term};
use std::cmp::Ordering;

impl Term {
    /// The standard order (ISO/IEC 13211-1, 7.2): variables by their numbers, then integers by value, then atoms by the
    /// bytes of their names, then compounds by the count of their arguments, then by name, then by the arguments from the
    /// left. It is Equal exactly where the two are one term.
    pub fn compare(&self, other: &Term) -> Ordering
        ensures { result ≡ standard_order self.now other.now }
    {
        compare_all(self.nodes(), other.nodes())
    }
}

/// Nodes from the left: those of two terms stand at the same places up to the first two that differ, and these decide.
fn compare_all(first: &[Node], second: &[Node]) -> Ordering
    ensures { result ≡ slice_cmp node_order first.now second.now }
{
    let mut left = first;
    let mut right = second;
    while let Some((node, after)) = left.split_first() {
        let Some((other, behind)) = right.split_first() else {
            return Ordering::Greater;
        };
        let found = compare_nodes(node, other);
        if found.is_ne() {
            return found;
        }
        left = after;
        right = behind;
    }
    if right.is_empty() {
        Ordering::Equal
    } else {
        Ordering::Less
    }
}

fn compare_nodes(left: &Node, right: &Node) -> Ordering
    ensures { result ≡ node_order left.now right.now }
{
    match (left, right) {
        (Node::Var(number), Node::Var(other)) => number.cmp(other),
        (Node::Int(value), Node::Int(other)) => value.cmp(other),
        (Node::Atom(name), Node::Atom(other)) => name.bytes().cmp(other.bytes()),
        (Node::Functor(name, arity), Node::Functor(other, count)) => arity
            .cmp(count)
            .then(name.bytes().cmp(other.bytes())),
        _ => rank(left).cmp(&rank(right)),
    }
}

fn rank(node: &Node) -> u8
    ensures { result ≡ node_rank node.now }
{
    match node {
        Node::Var(_) => 0,
        Node::Int(_) => 1,
        Node::Atom(_) => 2,
        Node::Functor(_, _) => 3,
    }
}
