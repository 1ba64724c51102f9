// Numbers of variables, by first occurrence.
ghost use Rattle.std.specs.Prelude.{◌≡◌, [], length, IfOk, OnOk};
ghost use Rattle.prolog_clauses.specs.Renaming as spec;
ghost use Rattle.prolog_clauses.specs.Flat as flat;

use indexmap::IndexSet;
use prolog_terms::{Node, Want};
use std::alloc::Global;
use std::marker::Model;

/// The variables that were met, each at its number.
#[derive(Drop)]
pub(crate) struct Numbers {
    met: IndexSet<u64>,
}

impl Model for Numbers {
    ghost use Rattle.std.specs.Prelude.{ℕ, List};

    ghost Value = { List ℕ };

    ghost view = { λ n. n.met.keys };
}

impl Numbers {
    /// No variable is met yet.
    pub fn new(alloc: Global) -> Numbers
        ensures { result ≡ [] }
    {
        Numbers {
            met: IndexSet::new(alloc),
        }
    }

    /// How many were met.
    pub fn count(&self) -> u64
        ensures { result ≡ length self.now }
    {
        self.met.len() as u64
    }

    /// The number of a variable, which is a new one where it was not met.
    fn number_of(&mut self, variable: u64) -> Result<u64, Want>
        ensures number { IfOk result (λ n. n ≡ spec.place_of variable self.old) }
        ensures met { OnOk result (self.new ≡ spec.with_variable self.old variable) }
    {
        let (number, _) = self.met.insert_full(variable)?;
        Ok(number as u64)
    }

    /// The node, with the number of its variable.
    fn numbered(&mut self, node: &Node) -> Result<Node, Want>
        ensures node { IfOk result (λ n. n ≡ flat.node_numbered self.old node.now) }
        ensures met { OnOk result (self.new ≡ flat.met_with self.old node.now) }
    {
        match node {
            Node::Var(variable) => Ok(Node::Var(self.number_of(*variable)?)),
            other => Ok(other.clone()?),
        }
    }

    /// The nodes, with the numbers of their variables.
    pub fn all_numbered(&mut self, alloc: Global, nodes: &[Node]) -> Result<Vec<Node>, Want>
        ensures nodes { IfOk result (λ ns. ns.items ≡ flat.numbered_nodes self.old nodes.now) }
        ensures met { OnOk result (self.new ≡ flat.met_after_nodes self.old nodes.now) }
    {
        let mut out = Vec::with_capacity(alloc, nodes.len())?;
        for node in nodes {
            out.push(self.numbered(node)?)?;
        }
        Ok(out)
    }
}
