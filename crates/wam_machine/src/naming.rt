// The name and arity that a term names.
ghost use Rattle.std.specs.Prelude.{◌≡◌, IfOk};
ghost use Rattle.prolog_terms.specs.Tree.{integer};
ghost use Rattle.wam_machine.specs.Naming as spec;
ghost use Rattle.wam_machine.specs.Terms.{AreTerms, IsBuilt, built};

use crate::terms::Terms;
use prolog_terms::{Fault, Indicator, Name, Want, Whole};
use std::alloc::Global;
use term_store::{Cell, View};

/// What the argument of `abolish` names.
#[derive(Drop)]
pub(crate) enum Naming {
    /// This name and arity.
    Names(Indicator),
    /// None, which is this error.
    NamesNone(Fault),
}

/// The name and arity that a term of `/` with two arguments names, an atom and an integer from 0 to 255.
pub(crate) fn named_by<C>(alloc: Global, terms: &Terms<C>, named: Cell) -> Result<Naming, Want>
    requires terms { AreTerms terms.now }
    requires named { IsBuilt terms.now named }
    ensures { IfOk result (λ n. n ≡ spec.naming_of (built terms.now named)) }
{
    terms.store.known();
    match terms.store.look(named) {
        View::Variable(_) => Ok(Naming::NamesNone(Fault::Instantiation)),
        View::Compound(functor, arguments) => match arguments {
            [name, arity] => {
                if terms.names.text(functor) == b"/".as_slice() {
                    return by_name(alloc, terms, *name, *arity);
                }
                not_of_type(alloc, terms, b"predicate_indicator", named)
            }
            [_, _, _, ..] => not_of_type(alloc, terms, b"predicate_indicator", named),
            _ => not_of_type(alloc, terms, b"predicate_indicator", named),
        },
        _ => not_of_type(alloc, terms, b"predicate_indicator", named),
    }
}

/// The error of a term that is not of a type; its variables are numbered from 0.
fn not_of_type<C>(
    alloc: Global,
    terms: &Terms<C>,
    type_name: &[u8],
    cell: Cell,
) -> Result<Naming, Want>
    requires terms { AreTerms terms.now }
    requires cell { IsBuilt terms.now cell }
    ensures { IfOk result (λ n. n ≡ spec.not_of_type type_name.now (built terms.now cell)) }
{
    let culprit = terms.store.read_back(&terms.names, cell)?;
    Ok(Naming::NamesNone(Fault::OfType(Name::of(alloc, type_name)?, culprit)))
}

/// Of a name and an arity: an unbound one of the two comes first.
fn by_name<C>(alloc: Global, terms: &Terms<C>, name: Cell, arity: Cell) -> Result<Naming, Want>
    requires terms { AreTerms terms.now }
    requires name { IsBuilt terms.now name }
    requires arity { IsBuilt terms.now arity }
    ensures { IfOk result (λ n. n ≡ spec.by_name (built terms.now name) (built terms.now arity)) }
{
    terms.store.known();
    match terms.store.look(name) {
        View::Variable(_) => Ok(Naming::NamesNone(Fault::Instantiation)),
        View::Atom(number) => with_name(alloc, terms, terms.names.text(number), arity),
        _ => without_name(alloc, terms, name, arity),
    }
}

/// Of what is no name, and an arity.
fn without_name<C>(alloc: Global, terms: &Terms<C>, name: Cell, arity: Cell) -> Result<Naming, Want>
    requires terms { AreTerms terms.now }
    requires name { IsBuilt terms.now name }
    requires arity { IsBuilt terms.now arity }
    ensures { IfOk result (λ n. n ≡ spec.without_name (built terms.now name) (built terms.now arity)) }
{
    terms.store.known();
    match terms.store.look(arity) {
        View::Variable(_) => Ok(Naming::NamesNone(Fault::Instantiation)),
        _ => not_of_type(alloc, terms, b"atom", name),
    }
}

/// Of this name, and an arity.
fn with_name<C>(alloc: Global, terms: &Terms<C>, name: &[u8], arity: Cell) -> Result<Naming, Want>
    requires terms { AreTerms terms.now }
    requires arity { IsBuilt terms.now arity }
    ensures { IfOk result (λ n. n ≡ spec.with_name name.now (built terms.now arity)) }
{
    terms.store.known();
    match terms.store.look(arity) {
        View::Variable(_) => Ok(Naming::NamesNone(Fault::Instantiation)),
        View::Integer(count) => with_count(alloc, terms, name, arity, count),
        _ => not_of_type(alloc, terms, b"integer", arity),
    }
}

/// Of this name, and an integer that stands at a cell.
fn with_count<C>(
    alloc: Global,
    terms: &Terms<C>,
    name: &[u8],
    arity: Cell,
    count: Whole,
) -> Result<Naming, Want>
    requires terms { AreTerms terms.now }
    requires arity { IsBuilt terms.now arity }
    requires count { built terms.now arity ≡ integer count }
    ensures { IfOk result (λ n. n ≡ spec.with_arity name.now count) }
{
    if count < 0 {
        let culprit = terms.store.read_back(&terms.names, arity)?;
        let domain = Name::of(alloc, b"not_less_than_zero")?;
        return Ok(Naming::NamesNone(Fault::Domain(domain, culprit)));
    }
    if count > 255 {
        let flag = Name::of(alloc, b"max_arity")?;
        return Ok(Naming::NamesNone(Fault::Representation(flag)));
    }
    let known = Name::of(alloc, name)?;
    let few = count as u32;
    Ok(Naming::Names(Indicator {
        name: known,
        arity: few,
    }))
}
