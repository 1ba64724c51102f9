// Walks over the nodes of a term.

ghost use Rattle.std.specs.Prelude.{◌≡◌, ◌≤◌, ◌<◌, ◌^◌, length, slice_get, option_and_then, Some};
ghost use Rattle.prolog_terms.specs.Flat.{past};
ghost use Rattle.call_patterns.specs.Places.{trees_at, tree_at, argument_of};
ghost use Rattle.call_patterns.specs.Keys.{subterm_at};
ghost use Rattle.call_patterns.specs.Wanted.{wanted_of};

use prolog_terms::Node;

fn wanted(node: &Node) -> u32
    ensures { result ≡ wanted_of node.now }
{
    match node {
        Node::Functor(_, arity) => *arity,
        _ => 0,
    }
}

fn node_at(nodes: &[Node], k: usize) -> &Node
    requires { k < length nodes.now }
    ensures { slice_get nodes.now k ≡ Some result.now }
{
    &nodes[k]
}

/// The place behind the term that begins at a place.
fn past_term(nodes: &[Node], at: usize) -> usize
    requires { at ≤ length nodes.now }
    ensures place { trees_at nodes.now result ≡ past 1 (trees_at nodes.now at) }
    ensures within { result ≤ length nodes.now }
{
    let mut left = 1u128;
    for k in at..nodes.len() {
        if left == 0 {
            return k;
        }
        left = left - 1 + u128::from(wanted(node_at(nodes, k)));
    }
    nodes.len()
}

/// The place of an argument of the term that begins at a place, or the end where it has none.
fn argument_at(nodes: &[Node], at: usize, i: usize) -> usize
    ensures place { tree_at nodes.now result ≡ argument_of nodes.now at i }
    ensures within { result ≤ length nodes.now }
{
    if at >= nodes.len() {
        return nodes.len();
    }
    if i >= wanted(node_at(nodes, at)) as usize {
        return nodes.len();
    }
    let mut k = at + 1;
    for _turn in 0..i {
        k = past_term(nodes, k);
    }
    k
}

/// The place of a term's position among its nodes, or the end where it has none.
pub fn position_at(nodes: &[Node], position: usize) -> usize
    ensures place { tree_at nodes.now result ≡ option_and_then (λ t. subterm_at t position) (tree_at nodes.now 0) }
    ensures within { result ≤ length nodes.now }
{
    let outer = argument_at(nodes, 0, position / 5);
    if position % 5 == 0 {
        outer
    } else {
        argument_at(nodes, outer, position % 5 - 1)
    }
}
