// The nodes of a term.
ghost use Rattle.std.specs.Prelude.{◌<◌};
ghost use Rattle.prolog_terms.specs.Tree.{IsWhole};
ghost use Rattle.prolog_terms.specs.Flat.{IsWholeNode, AreWholeNodes};

use crate::{Name, Whole};

/// A node of a term in prefix order. A functor has its count of arguments and is followed by them.
#[derive(Clone, Debug, Drop, PartialEq, Eq)]
pub enum Node {
    /// A variable, by its number.
    Var(u64),
    /// An integer.
    Int(Whole),
    /// An atom, by its text.
    Atom(Name),
    /// The name of a compound, and how many arguments it has.
    Functor(Name, u32),
}

/// The numbers and integers of the nodes have 64 bits, as their types say. The walk does nothing but see each of them.
pub(crate) fn nodes_known(nodes: &[Node])
    ensures { AreWholeNodes nodes.now }
{
    for node in nodes {
        node_known(node);
    }
}

fn node_known(node: &Node)
    ensures { IsWholeNode node.now }
{
    match node {
        Node::Var(number) => number_known(*number),
        Node::Int(value) => value_known(*value),
        Node::Atom(_) | Node::Functor(_, _) => {}
    }
}

fn number_known(number: u64)
    ensures { number < 0x1_0000_0000_0000_0000 }
{}

fn value_known(value: Whole)
    ensures { IsWhole value }
{}
