// A term of nodes in postfix order.
ghost use Rattle.std.specs.Prelude.{◌≡◌, IfOk, OnOk, reverse};
ghost use Rattle.prolog_terms.specs.Flat.{front};
ghost use Rattle.prolog_reader.specs.Orders as spec;
ghost use Rattle.prolog_reader.specs.Orders.{IsOneTerm, nothing_written};

use crate::built::Built;
use crate::stack::Stack;
use prolog_terms::{Name, Node, Term, Want};
use std::alloc::Global;
use std::marker::Model;

/// A compound of which so many arguments, the first ones, are not written.
#[derive(Debug, Drop)]
pub(crate) struct Pending {
    pub name: Name,
    pub arity: u32,
    pub left: u32,
}

/// Nodes in prefix order, written from the last to the first.
#[derive(Debug, Drop)]
struct Turning {
    pending: Stack<Pending>,
    written: Stack<Node>,
}

impl Model for Turning {
    ghost Value = { Rattle.prolog_reader.specs.Orders.Turning };

    ghost view = { λ t. record { pending = t.pending; written = t.written } };
}

impl Turning {
    fn settle(&mut self) -> Result<(), Want>
        ensures { OnOk result (self.new ≡ spec.settled self.old.pending self.old.written) }
    {
        'pending: while let Some(compound) = self.pending.pop() {
            if compound.left > 1 {
                self.pending.push(Pending {
                    left: compound.left - 1,
                    ..compound
                })?;
                return Ok(());
            }
            self.written
                .push(Node::Functor(compound.name, compound.arity))?;
        }
        Ok(())
    }

    fn take(&mut self, node: Node) -> Result<(), Want>
        ensures { OnOk result (self.new ≡ spec.taken node self.old) }
    {
        match node {
            Node::Functor(name, arity) => {
                self.pending.push(Pending {
                    name,
                    arity,
                    left: arity,
                })?;
                Ok(())
            }
            leaf => {
                self.written.push(leaf)?;
                self.settle()?;
                Ok(())
            }
        }
    }
}

fn prefix_order(alloc: Global, nodes: Vec<Node>) -> Result<Vec<Node>, Want>
    ensures { IfOk result (λ found. found.items ≡ (spec.turned nothing_written (reverse nodes.items)).written) }
{
    let mut nodes = Stack::from_oldest(nodes);
    let mut turning = Turning {
        pending: Stack::new(alloc),
        written: Stack::new(alloc),
    };
    'nodes: while let Some(node) = nodes.pop() {
        turning.take(node)?;
    }
    Ok(turning.written.into_newest())
}

/// The one term that is built, in time linear in its nodes.
pub(crate) fn term_of(alloc: Global, built: Built) -> Result<Term, Want>
    requires { IsOneTerm built }
    ensures { IfOk result (λ t. t ≡ front built) }
{
    let nodes = prefix_order(alloc, built.into_nodes())?;
    Ok(Term::from_prefix(nodes))
}
