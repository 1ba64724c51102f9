// The faults of builtins.
ghost use Rattle.std.specs.Prelude.{◌≡◌, length, IfOk, codes};
ghost use Rattle.prolog_terms.specs.Substitutions.{numbered};
ghost use Rattle.prolog_terms.specs.declared.fault.Fault.TheVariants.{OfType, Domain, Representation};
ghost use Rattle.term_store.specs.Terms.{term_of, HasTerm, AreNamed};

use prolog_terms::{Fault, Name, Names, Want};
use std::alloc::Global;
use term_store::{Cell, Store};

/// What a cell stands for isn't of a type.
pub(crate) fn type_error(
    alloc: Global,
    store: &Store,
    names: &Names,
    valid: &[u8],
    culprit: Cell,
) -> Result<Fault, Want>
    requires named { AreNamed (length names.now) store.now }
    requires valid { HasTerm (length names.now) store.now culprit }
    ensures { IfOk result (λ f. f ≡ OfType valid.now (numbered (term_of names.now store.now culprit))) }
{
    let culprit = store.read_back(names, culprit)?;
    Ok(Fault::OfType(Name::of(alloc, valid)?, culprit))
}

/// What a cell stands for is outside of a domain.
pub(crate) fn domain_error(
    alloc: Global,
    store: &Store,
    names: &Names,
    domain: &[u8],
    culprit: Cell,
) -> Result<Fault, Want>
    requires named { AreNamed (length names.now) store.now }
    requires valid { HasTerm (length names.now) store.now culprit }
    ensures { IfOk result (λ f. f ≡ Domain domain.now (numbered (term_of names.now store.now culprit))) }
{
    let culprit = store.read_back(names, culprit)?;
    Ok(Fault::Domain(Name::of(alloc, domain)?, culprit))
}

/// A compound would have more than 255 arguments.
pub(crate) fn too_many(alloc: Global) -> Result<Fault, Want>
    ensures { IfOk result (λ f. f ≡ Representation (codes "max_arity")) }
{
    Ok(Fault::Representation(Name::of(alloc, b"max_arity")?))
}

/// A number or a term is no byte.
pub(crate) fn no_code(alloc: Global) -> Result<Fault, Want>
    ensures { IfOk result (λ f. f ≡ Representation (codes "character_code")) }
{
    Ok(Fault::Representation(Name::of(alloc, b"character_code")?))
}
