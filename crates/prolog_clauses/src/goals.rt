// Where a tree ends, and which trees are bodies, by their nodes.
ghost use Rattle.std.specs.Prelude.{◌≡◌, ◌<◌, ◌≤◌, length, IfSome};
ghost use Rattle.prolog_terms.specs.Clauses as terms;
ghost use Rattle.prolog_terms.specs.Flat.{tree, HasPrefixOrder};
ghost use Rattle.prolog_clauses.specs.Flat as flat;

use prolog_terms::{Name, Node};

/// How many nodes the tree at the front has.
pub(crate) fn tree_len(nodes: &[Node]) -> usize
    ensures value { result ≡ flat.span 1 nodes.now }
    ensures within { result ≤ length nodes.now }
{
    let mut wanted = 1u128;
    let mut len = 0;
    for node in nodes {
        if wanted == 0 {
            return len;
        }
        wanted -= 1;
        if let Node::Functor(_, arity) = node {
            wanted += u128::from(*arity);
        }
        len += 1;
    }
    len
}

/// Whether the nodes are those of a rule: a term of the name `:-` with two arguments.
pub(crate) fn begins_rule(nodes: &[Node]) -> bool
    ensures { result ≡ flat.begins_rule nodes.now }
{
    match nodes.first() {
        Some(Node::Functor(name, arity)) => name.bytes() == b":-".as_slice() && *arity == 2,
        _ => false,
    }
}

/// Whether the name joins goals.
pub(crate) fn is_connective(name: &Name) -> bool
    ensures { result ≡ terms.is_connective name.now }
{
    let text = name.bytes();
    text == b",".as_slice() || text == b";".as_slice() || text == b"->".as_slice()
}

/// How many nodes lead from the goal at the front to the next one: the goals that a connective joins are its arguments.
/// A variable and an integer are no goal.
fn goal_len(nodes: &[Node]) -> Option<usize>
    requires { 0 < length nodes.now }
    ensures value { result ≡ flat.goal_len nodes.now }
    ensures some { IfSome result (λ n. 0 < n) }
    ensures within { IfSome result (λ n. n ≤ length nodes.now) }
{
    match &nodes[0] {
        Node::Var(_) | Node::Int(_) => None,
        Node::Atom(_) => Some(1),
        Node::Functor(name, arity) => {
            if is_connective(name) && *arity == 2 {
                Some(1)
            } else {
                Some(tree_len(nodes))
            }
        }
    }
}

/// Whether no variable and no integer stands as a goal.
pub(crate) fn is_body(nodes: &[Node]) -> bool
    requires { HasPrefixOrder nodes.now }
    ensures { result ≡ terms.is_body (tree nodes.now) }
{
    let mut at = 0;
    'goals: while at < nodes.len() {
        match goal_len(&nodes[at..]) {
            None => return false,
            Some(len) => at += len,
        }
    }
    true
}
