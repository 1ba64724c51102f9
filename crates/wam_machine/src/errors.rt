// The balls of errors that goals raise.
ghost use Rattle.std.specs.Prelude.{◌≡◌, suc, ◌<◌, ◌++◌, ◌∷◌, [], IfOk, OnOk, codes};
ghost use Rattle.prolog_terms.specs.Flat.{nodes as nodes_of};
ghost use Rattle.prolog_terms.specs.declared.node.Node.TheVariants.{Atom, Functor};
ghost use Rattle.prolog_terms.specs.Faults.{fault_tree, indicator_tree};
ghost use Rattle.prolog_terms.specs.declared.fault.Fault.TheVariants.{Existence, Instantiation, Permission, Representation};
ghost use Rattle.wam_machine.specs.States.{not_callable, no_room};
ghost use Rattle.wam_machine.specs.Procedures.{assert_at, clause_at, retract_at, retract_all_at, abolish_at, no_access, no_change};
ghost use Rattle.wam_machine.specs.Machine.{not_integer, halt_with};
ghost use Rattle.wam_machine.specs.Terms.{AreTerms, IsBuilt, built};

use crate::terms::Terms;
use prolog_terms::{
    End, Fault, Indicator, Name, Node, Term, Want, Whole, copy_indicator, fault_term,
};
use std::alloc::Global;
use term_store::Cell;

/// The error of a call of an undeclared procedure.
pub(crate) fn missing(alloc: Global, indicator: &Indicator) -> Result<Term, Want>
    ensures { IfOk result (λ t. t ≡ fault_tree (Existence indicator.now) indicator.now) }
{
    let fault = Fault::Existence(copy_indicator(indicator)?);
    fault_term(alloc, &fault, indicator)
}

/// The error of an unbound goal.
pub(crate) fn unbound(alloc: Global, at: &Indicator) -> Result<Term, Want>
    ensures { IfOk result (λ t. t ≡ fault_tree Instantiation at.now) }
{
    fault_term(alloc, &Fault::Instantiation, at)
}

/// The error of a goal that would have more than 255 arguments.
pub(crate) fn too_many(alloc: Global, at: &Indicator) -> Result<Term, Want>
    ensures { IfOk result (λ t. t ≡ fault_tree (Representation (codes "max_arity")) at.now) }
{
    let flag = Name::of(alloc, b"max_arity")?;
    fault_term(alloc, &Fault::Representation(flag), at)
}

/// The error of a goal that can't be a body; its variables are numbered from 0.
pub(crate) fn uncallable<C>(
    alloc: Global,
    terms: &Terms<C>,
    goal: Cell,
    at: &Indicator,
) -> Result<Term, Want>
    requires terms { AreTerms terms.now }
    requires goal { IsBuilt terms.now goal }
    ensures { IfOk result (λ t. t ≡ fault_tree (not_callable (built terms.now goal)) at.now) }
{
    let culprit = terms.store.read_back(&terms.names, goal)?;
    let callable = Name::of(alloc, b"callable")?;
    fault_term(alloc, &Fault::OfType(callable, culprit), at)
}

/// The name and arity of `call` with so many arguments added.
pub(crate) fn call_indicator(alloc: Global, added: usize) -> Result<Indicator, Want>
    requires { added < 8 }
    ensures { IfOk result (λ i. i ≡ record { name = codes "call"; arity = suc added }) }
{
    Ok(Indicator {
        name: Name::of(alloc, b"call")?,
        arity: added as u32 + 1,
    })
}

/// The name and arity of `\+`.
pub(crate) fn not_indicator(alloc: Global) -> Result<Indicator, Want>
    ensures { IfOk result (λ i. i ≡ record { name = codes "\\+"; arity = 1 }) }
{
    Ok(Indicator {
        name: Name::of(alloc, b"\\+")?,
        arity: 1,
    })
}

/// The name and arity of `catch`.
pub(crate) fn catch_indicator(alloc: Global) -> Result<Indicator, Want>
    ensures { IfOk result (λ i. i ≡ record { name = codes "catch"; arity = 3 }) }
{
    Ok(Indicator {
        name: Name::of(alloc, b"catch")?,
        arity: 3,
    })
}

/// The name and arity of `findall`.
pub(crate) fn findall_indicator(alloc: Global) -> Result<Indicator, Want>
    ensures { IfOk result (λ i. i ≡ record { name = codes "findall"; arity = 3 }) }
{
    Ok(Indicator {
        name: Name::of(alloc, b"findall")?,
        arity: 3,
    })
}

/// The error of an unbound ball.
pub(crate) fn unbound_ball(alloc: Global) -> Result<Term, Want>
    ensures { IfOk result (λ t. t ≡ fault_tree Instantiation (record { name = codes "throw"; arity = 1 })) }
{
    let throw = Indicator {
        name: Name::of(alloc, b"throw")?,
        arity: 1,
    };
    unbound(alloc, &throw)
}

/// The name and arity of `halt` with a number.
pub(crate) fn halt_indicator(alloc: Global) -> Result<Indicator, Want>
    ensures { IfOk result (λ i. i ≡ halt_with) }
{
    Ok(Indicator {
        name: Name::of(alloc, b"halt")?,
        arity: 1,
    })
}

/// The error of a `halt` with a term that is no integer; its variables are numbered from 0.
pub(crate) fn no_integer<C>(alloc: Global, terms: &Terms<C>, code: Cell) -> Result<Term, Want>
    requires terms { AreTerms terms.now }
    requires code { IsBuilt terms.now code }
    ensures { IfOk result (λ t. t ≡ fault_tree (not_integer (built terms.now code)) halt_with) }
{
    let culprit = terms.store.read_back(&terms.names, code)?;
    let integer = Name::of(alloc, b"integer")?;
    let halt = halt_indicator(alloc)?;
    fault_term(alloc, &Fault::OfType(integer, culprit), &halt)
}

/// The name and arity of the call that adds a clause at an end.
pub(crate) fn assert_indicator(alloc: Global, end: End) -> Result<Indicator, Want>
    ensures { IfOk result (λ i. i ≡ assert_at end) }
{
    let name = match end {
        End::Front => b"asserta".as_slice(),
        End::Back => b"assertz".as_slice(),
    };
    Ok(Indicator {
        name: Name::of(alloc, name)?,
        arity: 1,
    })
}

fn put_slash(nodes: &mut Vec<Node>, alloc: Global) -> Result<(), Want>
    ensures { OnOk result (nodes.new.items ≡ nodes.old.items ++ Functor (codes "/") 2 ∷ []) }
{
    nodes.push(Node::Functor(Name::of(alloc, b"/")?, 2))?;
    Ok(())
}

fn put_name(nodes: &mut Vec<Node>, name: &Name) -> Result<(), Want>
    ensures { OnOk result (nodes.new.items ≡ nodes.old.items ++ Atom name.now ∷ []) }
{
    nodes.push(Node::Atom(name.clone()?))?;
    Ok(())
}

fn put_indicator(nodes: &mut Vec<Node>, alloc: Global, indicator: &Indicator) -> Result<(), Want>
    ensures { OnOk result (nodes.new.items ≡ nodes.old.items ++ nodes_of (indicator_tree indicator.now)) }
{
    put_slash(nodes, alloc)?;
    put_name(nodes, &indicator.name)?;
    nodes.push(Node::Int(Whole::from(indicator.arity)))?;
    Ok(())
}

/// The term of a name and arity.
fn indicator_term(alloc: Global, indicator: &Indicator) -> Result<Term, Want>
    ensures { IfOk result (λ t. t ≡ indicator_tree indicator.now) }
{
    let mut nodes = Vec::new(alloc);
    put_indicator(&mut nodes, alloc, indicator)?;
    Ok(Term::from_prefix(nodes))
}

/// The fault that this may not be done to what is of a kind, the procedure of this name and arity.
fn refused(alloc: Global, action: &[u8], kind: &[u8], indicator: &Indicator) -> Result<Fault, Want>
    ensures { IfOk result (λ f. f ≡ Permission action.now kind.now (indicator_tree indicator.now)) }
{
    let action = Name::of(alloc, action)?;
    let kind = Name::of(alloc, kind)?;
    let culprit = indicator_term(alloc, indicator)?;
    Ok(Fault::Permission(action, kind, culprit))
}

/// The fault that the procedure of this name and arity may not be changed.
pub fn no_change(alloc: Global, indicator: &Indicator) -> Result<Fault, Want>
    ensures { IfOk result (λ f. f ≡ no_change indicator.now) }
{
    refused(alloc, b"modify", b"static_procedure", indicator)
}

/// The error that a call may not change the procedure of this name and arity.
pub(crate) fn unchangeable_at(
    alloc: Global,
    indicator: &Indicator,
    at: &Indicator,
) -> Result<Term, Want>
    ensures { IfOk result (λ t. t ≡ fault_tree (no_change indicator.now) at.now) }
{
    let fault = no_change(alloc, indicator)?;
    fault_term(alloc, &fault, at)
}

/// The error that a call may not see the clauses of the procedure of this name and arity.
pub(crate) fn unseen_at(alloc: Global, indicator: &Indicator, at: &Indicator) -> Result<Term, Want>
    ensures { IfOk result (λ t. t ≡ fault_tree (no_access indicator.now) at.now) }
{
    let fault = refused(alloc, b"access", b"private_procedure", indicator)?;
    fault_term(alloc, &fault, at)
}

/// The error that no goal may add a clause at an end to the procedure of this name and arity.
pub(crate) fn unchangeable(alloc: Global, indicator: &Indicator, end: End) -> Result<Term, Want>
    ensures { IfOk result (λ t. t ≡ fault_tree (no_change indicator.now) (assert_at end)) }
{
    let at = assert_indicator(alloc, end)?;
    unchangeable_at(alloc, indicator, &at)
}

/// The error of a call that the database has no room for an update.
pub(crate) fn no_room_at(alloc: Global, at: &Indicator) -> Result<Term, Want>
    ensures { IfOk result (λ t. t ≡ fault_tree no_room at.now) }
{
    let fault = Fault::Resource(Name::of(alloc, b"database")?);
    fault_term(alloc, &fault, at)
}

/// The error that the database has no room for a clause at an end.
pub(crate) fn without_room(alloc: Global, end: End) -> Result<Term, Want>
    ensures { IfOk result (λ t. t ≡ fault_tree no_room (assert_at end)) }
{
    let at = assert_indicator(alloc, end)?;
    no_room_at(alloc, &at)
}

/// The name and arity of `clause`.
pub(crate) fn clause_indicator(alloc: Global) -> Result<Indicator, Want>
    ensures { IfOk result (λ i. i ≡ clause_at) }
{
    Ok(Indicator {
        name: Name::of(alloc, b"clause")?,
        arity: 2,
    })
}

/// The name and arity of `retract`.
pub(crate) fn retract_indicator(alloc: Global) -> Result<Indicator, Want>
    ensures { IfOk result (λ i. i ≡ retract_at) }
{
    Ok(Indicator {
        name: Name::of(alloc, b"retract")?,
        arity: 1,
    })
}

/// The name and arity of `retractall`.
pub(crate) fn retract_all_indicator(alloc: Global) -> Result<Indicator, Want>
    ensures { IfOk result (λ i. i ≡ retract_all_at) }
{
    Ok(Indicator {
        name: Name::of(alloc, b"retractall")?,
        arity: 1,
    })
}

/// The name and arity of `abolish`.
pub(crate) fn abolish_indicator(alloc: Global) -> Result<Indicator, Want>
    ensures { IfOk result (λ i. i ≡ abolish_at) }
{
    Ok(Indicator {
        name: Name::of(alloc, b"abolish")?,
        arity: 1,
    })
}
