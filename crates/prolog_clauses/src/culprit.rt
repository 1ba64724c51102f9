// The errors of a term.
ghost use Rattle.std.specs.Prelude.{◌≡◌, IfOk};
ghost use Rattle.prolog_terms.specs.Flat.{tree, HasPrefixOrder};
ghost use Rattle.prolog_terms.specs.Substitutions.{numbered};
ghost use Rattle.prolog_clauses.specs.Declarations as spec;

use crate::clause::term_of;
use crate::numbers::Numbers;
use prolog_terms::{Fault, Name, Node, Term, Want};
use std::alloc::Global;

/// The term, its variables numbered from 0 by first occurrence.
fn culprit(alloc: Global, nodes: &[Node]) -> Result<Term, Want>
    requires { HasPrefixOrder nodes.now }
    ensures { IfOk result (λ t. t ≡ numbered (tree nodes.now)) }
{
    let mut numbers = Numbers::new(alloc);
    let nodes = numbers.all_numbered(alloc, nodes)?;
    Ok(term_of(nodes))
}

/// The error that the term is not of this type.
pub(crate) fn type_error(alloc: Global, valid: &[u8], nodes: &[Node]) -> Result<Fault, Want>
    requires { HasPrefixOrder nodes.now }
    ensures { IfOk result (λ fault. fault ≡ spec.type_error valid.now (tree nodes.now)) }
{
    let name = Name::of(alloc, valid)?;
    Ok(Fault::OfType(name, culprit(alloc, nodes)?))
}

/// The error that the term is outside this domain.
pub(crate) fn domain_error(alloc: Global, valid: &[u8], nodes: &[Node]) -> Result<Fault, Want>
    requires { HasPrefixOrder nodes.now }
    ensures { IfOk result (λ fault. fault ≡ spec.domain_error valid.now (tree nodes.now)) }
{
    let name = Name::of(alloc, valid)?;
    Ok(Fault::Domain(name, culprit(alloc, nodes)?))
}
