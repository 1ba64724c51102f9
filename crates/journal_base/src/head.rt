// Whether a clause's head could match a goal, from its nodes.
ghost use Rattle.std.specs.Prelude.{◌≡◌, ◌<◌, length, IsTrue, option_and_then, option_map, Some, slice_get};
ghost use Rattle.std.specs.Option.{option_copied};
ghost use Rattle.prolog_terms.specs.Flat.{are_trees};
ghost use Rattle.call_patterns.specs.Keys.{key as key_in, keys_agree};
ghost use Rattle.call_patterns.specs.Places.{tree_at};
ghost use Rattle.call_patterns.specs.Calls.{AreKeysOf, IsKeyOf, key_of};
ghost use Rattle.call_patterns.specs.Candidates.{head_agrees as agrees};
ghost use Rattle.call_patterns.specs.NodeKey.{node_key};
ghost use Rattle.journal_base.specs.Goals.{goal_of};

use crate::Call;
use call_patterns::{Key, Keys, position_at};
use prolog_terms::{Clause, Names, Node};

/// How many positions a term has.
pub(crate) const POSITIONS: usize = 40;

/// Whether the node shows no key, or this one.
fn node_agrees(node: &Node, key: &Key, names: &Names) -> bool
    requires { IsKeyOf names.now (Some key.now) }
    ensures { result ≡ keys_agree (node_key node.now) (Some (key_of names.now key.now)) }
{
    match node {
        Node::Var(_) => true,
        Node::Int(whole) => match key {
            Key::Int(other) => *whole == *other,
            _ => false,
        },
        Node::Atom(name) => match key {
            Key::Atom(number) => name.bytes() == names.text(*number),
            _ => false,
        },
        Node::Functor(name, arity) => match key {
            Key::Functor(number, other) => name.bytes() == names.text(*number) && *arity == *other,
            _ => false,
        },
    }
}

fn node_at(nodes: &[Node], at: usize) -> Option<&Node>
    ensures { option_copied result ≡ slice_get nodes.now at }
{
    nodes.get(at)
}

/// Whether the node at a place and the key agree; past the end there is no key.
fn key_agrees(nodes: &[Node], at: usize, key: &Option<Key>, names: &Names) -> bool
    requires prefix { IsTrue (are_trees 1 nodes.now) }
    requires key { IsKeyOf names.now key.now }
    ensures { result ≡ keys_agree (option_and_then key_in (tree_at nodes.now at)) (option_map (key_of names.now) key.now) }
{
    match key {
        None => true,
        Some(key) => match node_at(nodes, at) {
            None => true,
            Some(node) => node_agrees(node, key, names),
        },
    }
}

fn key_at(keys: &Keys, position: usize) -> &Option<Key>
    requires position { position < 40 }
    requires length { length keys.now.at ≡ 40 }
    ensures { slice_get keys.now.at position ≡ Some result.now }
{
    &keys.at[position]
}

/// Whether the clause's head could match the goal. It takes no memory.
pub(crate) fn head_agrees(clause: &Clause, call: &Call) -> bool
    requires { AreKeysOf call.now.names.now call.now.keys.now.at }
    ensures { result ≡ agrees (goal_of call.now).keys (Some clause.now) }
{
    let nodes = clause.head.nodes();
    for position in 0..POSITIONS {
        let key = key_at(call.keys, position);
        let place = position_at(nodes, position);
        if !key_agrees(nodes, place, key, call.names) {
            return false;
        }
    }
    true
}
