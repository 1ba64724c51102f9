// The keys of a term, and whether those of two terms agree.
ghost use Rattle.std.specs.Prelude.{◌≡◌, ◌<◌, ◌≤◌, IsTrue, IfOk, Some, length, take, slice_get, option_map, option_and_then, nat_eq, List, ℕ};
ghost use Rattle.std.specs.Option.{option_copied};
ghost use Rattle.std.specs.List.{IsDistinct};
ghost use Rattle.std.specs.Cmp.Lexicographic.{pointwise};
ghost use Rattle.prolog_terms.specs.Flat.{are_trees, tree};
ghost use Rattle.call_patterns.specs.Keys.{keys as keys_in, key_at as key_in, keys_agree};
ghost use Rattle.call_patterns.specs.Calls.{AreKeysOf, IsKeyOf, key_of, goal_keys};
ghost use Rattle.call_patterns.specs.NodeKey.{place_key, node_key};

use crate::key::{Key, Keys};
use crate::walk::position_at;
use prolog_terms::{Names, Node, Want};

/// How many positions a term has.
const POSITIONS: usize = 40;

fn node_at(nodes: &[Node], at: usize) -> Option<&Node>
    ensures { option_copied result ≡ slice_get nodes.now at }
{
    nodes.get(at)
}

/// The key of a node.
fn key_of_node(node: &Node, names: &mut Names) -> Result<Option<Key>, Want>
    ensures key { IfOk result (λ k. IsKeyOf names.new k × (option_map (key_of names.new) k ≡ node_key node.now)) }
    ensures kept { take (length names.old) names.new ≡ names.old }
{
    match node {
        Node::Var(_) => Ok(None),
        Node::Int(whole) => Ok(Some(Key::Int(*whole))),
        Node::Atom(name) => Ok(Some(Key::Atom(names.intern(name.bytes())?))),
        Node::Functor(name, arity) => {
            Ok(Some(Key::Functor(names.intern(name.bytes())?, *arity)))
        }
    }
}

/// The key at a position.
fn key_at(nodes: &[Node], position: usize, names: &mut Names) -> Result<Option<Key>, Want>
    requires { IsTrue (are_trees 1 nodes.now) }
    ensures key { IfOk result (λ k. IsKeyOf names.new k × (option_map (key_of names.new) k ≡ key_in (tree nodes.now) position)) }
    ensures kept { take (length names.old) names.new ≡ names.old }
{
    match node_at(nodes, position_at(nodes, position)) {
        None => Ok(None),
        Some(node) => key_of_node(node, names),
    }
}

/// The keys of the term that these nodes are. Their names get numbers behind those of `names`, which begin as before; so
/// they do where memory is wanted, when some of the term's names may have got theirs.
pub fn keys_of(nodes: &[Node], names: &mut Names) -> Result<Keys, Want>
    requires { IsTrue (are_trees 1 nodes.now) }
    ensures numbered { IfOk result (λ k. AreKeysOf names.new k.at) }
    ensures keys { IfOk result (λ k. goal_keys names.new k.at ≡ keys_in (tree nodes.now)) }
    ensures kept { take (length names.old) names.new ≡ names.old }
{
    let mut at = [None; POSITIONS];
    for position in 0..POSITIONS {
        at[position] = key_at(nodes, position, names)?;
    }
    Ok(Keys { at })
}

/// Whether keys of a head and of a goal agree, where their names are numbers of one `Names`: at each position one of the
/// two has no key, or both are equal.
pub fn could_match(head: &Keys, goal: &Keys) -> bool
    ensures { (names : List (List ℕ)) → IsDistinct (pointwise nat_eq) names → AreKeysOf names head.now.at → AreKeysOf names goal.now.at
        → result ≡ pointwise keys_agree (goal_keys names head.now.at) (goal_keys names goal.now.at) }
{
    for position in 0..POSITIONS {
        if !agree(head.at[position], goal.at[position]) {
            return false;
        }
    }
    true
}

/// Whether one of the keys isn't there, or both are equal.
fn agree(head: Option<Key>, goal: Option<Key>) -> bool
    ensures { (names : List (List ℕ)) → IsDistinct (pointwise nat_eq) names → IsKeyOf names head → IsKeyOf names goal
        → result ≡ keys_agree (option_map (key_of names) head) (option_map (key_of names) goal) }
{
    match (head, goal) {
        (Some(a), Some(b)) => a == b,
        _ => true,
    }
}
