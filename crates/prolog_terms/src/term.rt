// A finite tree, kept flat in prefix order.
ghost use Rattle.std.specs.Prelude.{◌≡◌, ◌↔◌, IsTrue, IfOk, IfErr, IsOk};
ghost use Rattle.prolog_terms.specs.Tree.{HasArities, HasWholes};
ghost use Rattle.std.specs.Cmp.{on_per};
ghost use Rattle.std.specs.Cmp.Lexicographic.{pointwise, lists_per, lists_equiv};
ghost use Rattle.prolog_terms.specs.Flat.{nodes as nodes_of, are_trees, IsPrefixOrder, AreWholeNodes};

use crate::Node;
use crate::node::nodes_known;
use std::alloc::AllocError;
use std::marker::Model;

/// A list of nodes.
#[derive(Debug, Drop)]
pub(crate) struct Nodes {
    items: Vec<Node>,
}

impl Model for Nodes {
    ghost use Rattle.std.specs.Prelude.{List};
    ghost use Rattle.prolog_terms.specs.declared.node.Node.{Node};

    ghost Value = { List Node };

    ghost use Rattle.prolog_terms.specs.Flat.{AreWholeNodes};

    ghost view = { λ n. n.items.items };

    ghost invariant = { λ n. AreWholeNodes n.items.items };
}

impl Nodes {
    pub fn from_vec(items: Vec<Node>) -> Nodes
        ensures { result ≡ items.items }
    {
        nodes_known(items.as_slice());
        Nodes { items }
    }

    pub fn items(&self) -> &[Node]
        ensures items { result.now ≡ self.now }
        ensures wholes { AreWholeNodes self.now }
    {
        self.items.as_slice()
    }
}

/// A term: a finite tree of variables, integers, atoms and compounds of 1 to 255 arguments.
#[derive(Debug, Drop)]
pub struct Term {
    nodes: Nodes,
}

impl Model for Term {
    ghost use Rattle.prolog_terms.specs.Tree.{Tree};
    ghost use Rattle.prolog_terms.specs.Flat.{tree_code};

    ghost Value = { Tree };

    ghost coded = { tree_code };

    ghost use Rattle.prolog_terms.specs.Flat.{tree, HasPrefixOrder};

    ghost view = { λ t. tree t.nodes };

    ghost invariant = { λ t. HasPrefixOrder t.nodes };
}

impl Term {
    /// The term of which these are the nodes in prefix order. A list that isn't the prefix order of one tree with
    /// arities from 1 to 255 is refused and handed back.
    pub fn of_nodes(nodes: Vec<Node>) -> Result<Term, Vec<Node>>
        ensures accepted { IsOk result ↔ IsPrefixOrder nodes.items }
        ensures ok { IfOk result (λ t. nodes_of t ≡ nodes.items) }
        ensures refused { IfErr result (λ back. back ≡ nodes) }
    {
        if is_prefix_order(nodes.as_slice()) {
            Ok(Term {
                nodes: Nodes::from_vec(nodes),
            })
        } else {
            Err(nodes)
        }
    }

    /// The term of which these are the nodes in prefix order.
    pub fn from_prefix(nodes: Vec<Node>) -> Term
        requires { IsPrefixOrder nodes.items }
        ensures { nodes_of result ≡ nodes.items }
    {
        Term {
            nodes: Nodes::from_vec(nodes),
        }
    }

    /// Its nodes in prefix order.
    pub fn nodes(&self) -> &[Node]
        ensures nodes { result.now ≡ nodes_of self.now }
        ensures prefix { IsTrue (are_trees 1 result.now) }
        ensures arities { HasArities self.now }
        ensures wholes { HasWholes self.now }
    {
        self.nodes.items()
    }
}

fn is_prefix_order(nodes: &[Node]) -> bool
    ensures { result ≡ are_trees 1 nodes.now }
{
    let mut wanted = 1u128;
    for node in nodes {
        if wanted == 0 {
            return false;
        }
        wanted -= 1;
        if let Node::Functor(_, arity) = node {
            if *arity == 0 || *arity > 255 {
                return false;
            }
            wanted += u128::from(*arity);
        }
    }
    wanted == 0
}

impl Clone for Nodes {
    ghost is_clone = { λ a b. b ≡ a };

    fn clone(&self) -> Result<Nodes, AllocError> {
        Ok(Nodes {
            items: self.items.clone()?,
        })
    }
}

impl PartialEq for Nodes {
    ghost use Rattle.prolog_terms.specs.contracts.node.NodePartialEq.TheImpl.Laws.{laws-law};

    ghost eq = { pointwise ⟦<Node as PartialEq>⟧.eq };

    ghost laws = { lists_per laws-law };

    fn eq(&self, other: &Nodes) -> bool
        ensures { result ≡ pointwise ⟦<Node as PartialEq>⟧.eq self.now other.now }
    {
        self.items.as_slice() == other.items.as_slice()
    }
}

impl PartialEq for Term {
    ghost use Rattle.prolog_terms.specs.contracts.node.NodePartialEq.TheImpl.Laws.{laws-law};

    ghost eq = { λ s t. pointwise ⟦<Node as PartialEq>⟧.eq (nodes_of s) (nodes_of t) };

    ghost laws = { on_per nodes_of (lists_per laws-law) };

    fn eq(&self, other: &Term) -> bool
        ensures eq { result ≡ pointwise ⟦<Node as PartialEq>⟧.eq (nodes_of self.now) (nodes_of other.now) }
        ensures same { IsTrue result ↔ (self.now ≡ other.now) }
    {
        self.nodes == other.nodes
    }
}

impl Clone for Term {
    ghost is_clone = { λ a b. b ≡ a };

    fn clone(&self) -> Result<Term, AllocError> {
        Ok(Term {
            nodes: self.nodes.clone()?,
        })
    }
}
