// Errors as terms.
ghost use Rattle.std.specs.Prelude.{◌≡◌, ◌++◌, ◌∷◌, [], OnOk, IfOk, codes};
ghost use Rattle.prolog_terms.specs.declared.node.Node.TheVariants.{Atom, Int, Functor};
ghost use Rattle.prolog_terms.specs.Tree.{HasArities, atom};
ghost use Rattle.prolog_terms.specs.Flat.{nodes as nodes_of};
ghost use Rattle.prolog_terms.specs.Faults.{one, two, three, error_tree, fault_tree, indicator_tree};

use crate::{Indicator, Name, Node, Term, Want, Whole};
use std::alloc::Global;

/// What went wrong in a call (ISO/IEC 13211-1, 7.12.2).
#[derive(Debug, Drop)]
pub enum Fault {
    /// An argument is unbound.
    Instantiation,
    /// The term is not of this type.
    OfType(Name, Term),
    /// The term is outside this domain.
    Domain(Name, Term),
    /// No procedure has this indicator.
    Existence(Indicator),
    /// This action on such a thing is not permitted on this term.
    Permission(Name, Name, Term),
    /// A limit of the implementation is passed.
    Representation(Name),
    /// An evaluation has no value.
    Evaluation(Name),
    /// A resource is used up.
    Resource(Name),
}

fn put_atom(nodes: &mut Vec<Node>, alloc: Global, text: &[u8]) -> Result<(), Want>
    ensures { OnOk result (nodes.new.items ≡ nodes.old.items ++ Atom text.now ∷ []) }
{
    nodes.push(Node::Atom(Name::of(alloc, text)?))?;
    Ok(())
}

fn put_functor(nodes: &mut Vec<Node>, alloc: Global, text: &[u8], arity: u32) -> Result<(), Want>
    ensures { OnOk result (nodes.new.items ≡ nodes.old.items ++ Functor text.now arity ∷ []) }
{
    nodes.push(Node::Functor(Name::of(alloc, text)?, arity))?;
    Ok(())
}

fn put_term(nodes: &mut Vec<Node>, term: &Term) -> Result<(), Want>
    ensures nodes { OnOk result (nodes.new.items ≡ nodes.old.items ++ nodes_of term.now) }
    ensures arities { OnOk result (HasArities term.now) }
{
    for node in term.nodes() {
        nodes.push(node.clone()?)?;
    }
    Ok(())
}

fn put_indicator(nodes: &mut Vec<Node>, alloc: Global, indicator: &Indicator) -> Result<(), Want>
    ensures { OnOk result (nodes.new.items ≡ nodes.old.items ++ nodes_of (indicator_tree indicator.now)) }
{
    put_functor(nodes, alloc, b"/", 2)?;
    put_atom(nodes, alloc, indicator.name.bytes())?;
    nodes.push(Node::Int(Whole::from(indicator.arity)))?;
    Ok(())
}

#[tactic(auto, unfolding(crate::specs::Faults::error_tree))]
fn put_error(nodes: &mut Vec<Node>, alloc: Global, fault: &Fault) -> Result<(), Want>
    ensures nodes { OnOk result (nodes.new.items ≡ nodes.old.items ++ nodes_of (error_tree fault.now)) }
    ensures arities { OnOk result (HasArities (error_tree fault.now)) }
{
    match fault {
        Fault::Instantiation => put_atom(nodes, alloc, b"instantiation_error")?,
        Fault::OfType(valid, culprit) => put_culprit(nodes, alloc, b"type_error", valid, culprit)?,
        Fault::Domain(valid, culprit) => put_culprit(
            nodes,
            alloc,
            b"domain_error",
            valid,
            culprit,
        )?,
        Fault::Existence(indicator) => put_missing(nodes, alloc, indicator)?,
        Fault::Permission(action, kind, culprit) => put_permission(
            nodes, alloc, action, kind, culprit,
        )?,
        Fault::Representation(flag) => put_named(nodes, alloc, b"representation_error", flag)?,
        Fault::Evaluation(error) => put_named(nodes, alloc, b"evaluation_error", error)?,
        Fault::Resource(resource) => put_named(nodes, alloc, b"resource_error", resource)?,
    }
    Ok(())
}

fn put_missing(nodes: &mut Vec<Node>, alloc: Global, indicator: &Indicator) -> Result<(), Want>
    ensures { OnOk result (nodes.new.items ≡ nodes.old.items ++ nodes_of (two (codes "existence_error") (atom (codes "procedure")) (indicator_tree indicator.now))) }
{
    put_functor(nodes, alloc, b"existence_error", 2)?;
    put_atom(nodes, alloc, b"procedure")?;
    put_indicator(nodes, alloc, indicator)?;
    Ok(())
}

fn put_permission(
    nodes: &mut Vec<Node>,
    alloc: Global,
    action: &Name,
    kind: &Name,
    culprit: &Term,
) -> Result<(), Want>
    ensures nodes { OnOk result (nodes.new.items ≡ nodes.old.items ++ nodes_of (three (codes "permission_error") (atom action.now) (atom kind.now) culprit.now)) }
    ensures arities { OnOk result (HasArities culprit.now) }
{
    put_functor(nodes, alloc, b"permission_error", 3)?;
    put_atom(nodes, alloc, action.bytes())?;
    put_atom(nodes, alloc, kind.bytes())?;
    put_term(nodes, culprit)?;
    Ok(())
}

fn put_culprit(
    nodes: &mut Vec<Node>,
    alloc: Global,
    error: &[u8],
    valid: &Name,
    culprit: &Term,
) -> Result<(), Want>
    ensures nodes { OnOk result (nodes.new.items ≡ nodes.old.items ++ nodes_of (two error.now (atom valid.now) culprit.now)) }
    ensures arities { OnOk result (HasArities culprit.now) }
{
    put_functor(nodes, alloc, error, 2)?;
    put_atom(nodes, alloc, valid.bytes())?;
    put_term(nodes, culprit)?;
    Ok(())
}

fn put_named(nodes: &mut Vec<Node>, alloc: Global, error: &[u8], name: &Name) -> Result<(), Want>
    ensures { OnOk result (nodes.new.items ≡ nodes.old.items ++ nodes_of (one error.now (atom name.now))) }
{
    put_functor(nodes, alloc, error, 1)?;
    put_atom(nodes, alloc, name.bytes())?;
    Ok(())
}

/// The term `error(E, at)`: what the fault says, and the indicator of the call that raised it.
pub fn fault_term(alloc: Global, fault: &Fault, at: &Indicator) -> Result<Term, Want>
    ensures { IfOk result (λ t. t ≡ fault_tree fault.now at.now) }
{
    let mut nodes = Vec::new(alloc);
    put_functor(&mut nodes, alloc, b"error", 2)?;
    put_error(&mut nodes, alloc, fault)?;
    put_indicator(&mut nodes, alloc, at)?;
    Ok(Term::from_prefix(nodes))
}
