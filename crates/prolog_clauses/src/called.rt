// The body of a clause: each variable that stands as a goal becomes `call` of it.
ghost use Rattle.std.specs.Prelude.{◌≡◌, ◌≤◌, [], ◌∷◌, ◌++◌, true, false, None, Some, IfOk, OnOk, IfSome, MatchOption};
ghost use Rattle.prolog_terms.specs.Clauses as terms;
ghost use Rattle.prolog_terms.specs.Flat.{tree, HasPrefixOrder};
ghost use Rattle.prolog_clauses.specs.Flat as flat;

use crate::goals::is_connective;
use prolog_terms::{Name, Node, Want};
use std::alloc::Global;

/// The nodes of the body that a term's nodes are; none where an integer stands as a goal.
pub(crate) fn body_of(alloc: Global, nodes: &[Node]) -> Result<Option<Vec<Node>>, Want>
    requires { HasPrefixOrder nodes.now }
    ensures body { IfOk result (λ body. MatchOption body (terms.body_of (tree nodes.now) ≡ None) (λ b. terms.body_of (tree nodes.now) ≡ Some (tree b.items))) }
    ensures order { IfOk result (λ body. IfSome body (λ b. HasPrefixOrder b.items)) }
{
    let mut out = Vec::with_capacity(alloc, nodes.len())?;
    let mut behind = 0u128;
    for node in nodes {
        if behind == 0 {
            if !push_goal(alloc, &mut out, node)? {
                return Ok(None);
            }
            behind = trees_behind(node);
        } else {
            push_node(&mut out, node)?;
            behind = behind - 1 + arity_of(node);
        }
    }
    Ok(Some(out))
}

/// Adds the first node of a goal, behind `call` where it is a variable. Where it is an integer the answer is false.
fn push_goal(alloc: Global, out: &mut Vec<Node>, node: &Node) -> Result<bool, Want>
    ensures goal { IfOk result (λ goal. goal ≡ true → flat.and_nodes (Some out.old.items) (flat.goal_nodes node.now) ≡ Some out.new.items) }
    ensures integer { IfOk result (λ goal. goal ≡ false → flat.goal_nodes node.now ≡ None) }
{
    match node {
        Node::Int(_) => return Ok(false),
        Node::Var(_) => out.push(Node::Functor(Name::of(alloc, b"call")?, 1))?,
        Node::Atom(_) | Node::Functor(_, _) => {}
    }
    push_node(out, node)?;
    Ok(true)
}

fn push_node(out: &mut Vec<Node>, node: &Node) -> Result<(), Want>
    ensures { OnOk result (out.new.items ≡ out.old.items ++ node.now ∷ []) }
{
    out.push(node.clone()?)?;
    Ok(())
}

/// How many trees stand behind a node before its own tree ends.
fn arity_of(node: &Node) -> u128
    ensures value { result ≡ flat.arity_of node.now }
    ensures few { result ≤ 0xffff_ffff }
{
    match node {
        Node::Functor(_, arity) => u128::from(*arity),
        Node::Var(_) | Node::Int(_) | Node::Atom(_) => 0,
    }
}

/// How many trees stand behind the first node of a goal before the next goal.
fn trees_behind(node: &Node) -> u128
    ensures value { result ≡ flat.trees_behind node.now }
    ensures few { result ≤ 0xffff_ffff }
{
    match node {
        Node::Functor(name, arity) => {
            if is_connective(name) && *arity == 2 {
                0
            } else {
                u128::from(*arity)
            }
        }
        Node::Var(_) | Node::Int(_) | Node::Atom(_) => 0,
    }
}
