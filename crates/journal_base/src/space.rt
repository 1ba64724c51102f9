// How many words an update needs.
ghost use Rattle.std.specs.Prelude.{ℕ, ◌≡◌, ◌+◌, ◌<◌, ◌≤◌, length, filter, is_some, IfSome, IsTrue, slice_get};
ghost use Rattle.std.specs.List.{sum_by};
ghost use Rattle.std.specs.Option.{option_copied};
ghost use Rattle.prolog_terms.specs.Flat.{are_trees, tree};
ghost use Rattle.call_patterns.specs.Keys.{keys};
ghost use Rattle.call_patterns.specs.NodeKey.{place_key};
ghost use Rattle.prolog_terms.specs.declared.entry.End.{End as AnEnd};
ghost use Rattle.prolog_terms.specs.declared.entry.Kind.{Kind as AKind};
ghost use Rattle.prolog_terms.specs.declared.entry.What.TheVariants.{Add, Declare};
ghost use Rattle.journal_base.specs.Space.{text_words as words_of_text, node_words as words_of_node, need};

use crate::head::POSITIONS;
use call_patterns::position_at;
use prolog_terms::{Clause, Indicator, Node};

/// The words of a text: eight bytes to a word.
fn text_words(text: &[u8]) -> u64
    ensures { result ≡ words_of_text (length text.now) }
{
    (text.len() as u64).div_ceil(8)
}

fn node_words(node: &Node) -> u64
    ensures { result ≡ words_of_node node.now }
{
    match node {
        Node::Var(_) => 1,
        Node::Int(_) => 2,
        Node::Atom(name) => 1 + text_words(name.bytes()),
        Node::Functor(name, _) => 1 + text_words(name.bytes()),
    }
}

/// The words of all nodes, where they fit 64 bits.
fn all_words(nodes: &[Node]) -> Option<u64>
    ensures { IfSome result (λ n. n ≡ sum_by words_of_node nodes.now) }
{
    let mut words = 0u64;
    for node in nodes {
        words = words.checked_add(node_words(node))?;
    }
    Some(words)
}

/// Whether a node shows a key; past the end there is none.
fn has_key(nodes: &[Node], at: usize) -> bool
    ensures { result ≡ is_some (place_key nodes.now at) }
{
    match nodes.get(at) {
        None => false,
        Some(Node::Var(_)) => false,
        Some(_) => true,
    }
}

/// How many of a term's positions have a key.
fn count_keys(nodes: &[Node]) -> u64
    requires { IsTrue (are_trees 1 nodes.now) }
    ensures keys { result ≡ length (filter is_some (keys (tree nodes.now))) }
    ensures few { result ≤ 40 }
{
    let mut count = 0u64;
    for position in 0..POSITIONS {
        if has_key(nodes, position_at(nodes, position)) {
            count += 1;
        }
    }
    count
}

/// The words that a procedure's declaration needs, of either kind. It takes no memory.
#[tactic(auto, unfolding(crate::specs::Space::need))]
pub fn declaration_words(indicator: &Indicator) -> u64
    ensures { (k : AKind) → result ≡ need (Declare indicator.now k) }
{
    16 + text_words(indicator.name.bytes())
}

/// The words that a clause's addition needs, at either end of whichever procedure, where they fit 64 bits. It takes no memory.
pub fn addition_words(clause: &Clause) -> Option<u64>
    ensures { IfSome result (λ n. (e : AnEnd) (p : ℕ) → n ≡ need (Add e p clause.now)) }
{
    let head = all_words(clause.head.nodes())?;
    let body = all_words(clause.body.nodes())?;
    let words = head.checked_add(body)?;
    words.checked_add(6 + count_keys(clause.head.nodes()))
}
