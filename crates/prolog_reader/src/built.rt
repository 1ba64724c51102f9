// The terms that are complete, as nodes in postfix order.
ghost use Rattle.std.specs.Prelude.{◌≡◌, OnOk};
ghost use Rattle.prolog_reader.specs.Grammar.{pushed};

use prolog_terms::{Node, Want};
use std::alloc::Global;
use std::marker::Model;

#[derive(Debug, Drop)]
pub(crate) struct Built {
    nodes: Vec<Node>,
}

impl Model for Built {
    ghost use Rattle.prolog_terms.specs.Tree.{Trees};
    ghost use Rattle.prolog_reader.specs.Stacks.{trees_code};

    ghost Value = { Trees };

    ghost coded = { trees_code };

    ghost use Rattle.prolog_reader.specs.Stacks.{the_stack};

    ghost view = { λ b. the_stack b.nodes.items };
}

impl Built {
    ghost use Rattle.std.specs.Prelude.{◌≡◌, OnOk};
    ghost use Rattle.prolog_terms.specs.Tree.{none};
    ghost use Rattle.prolog_reader.specs.Stacks.{the_stack};

    pub(crate) fn new(alloc: Global) -> Built
        ensures { result ≡ none }
    {
        Built {
            nodes: Vec::new(alloc),
        }
    }

    pub(crate) fn push(&mut self, node: Node) -> Result<(), Want>
        ensures { OnOk result (self.new ≡ pushed node self.old) }
    {
        self.nodes.push(node)?;
        Ok(())
    }

    /// The nodes in postfix order.
    pub(crate) fn into_nodes(self) -> Vec<Node>
        ensures { the_stack result.items ≡ self }
    {
        self.nodes
    }
}
