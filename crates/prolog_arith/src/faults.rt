// The faults of an evaluation.
ghost use Rattle.std.specs.Prelude.{◌≡◌, ◌≤◌, Err, IfOk};
ghost use Rattle.prolog_terms.specs.Tree.{atom, integer};
ghost use Rattle.std.specs.Prelude.{codes, pos};
ghost use Rattle.prolog_terms.specs.Faults.{two};
ghost use Rattle.prolog_arith.specs.declared.faults.EvalFault.TheVariants as of_fault;
ghost use Rattle.prolog_arith.specs.Arithmetic.{Raises, not_evaluable};
ghost use Rattle.prolog_arith.specs.Work.{outcome, IsCause};

use crate::operate::NoValue;
use prolog_terms::{Fault, Name, Node, Term, Want, Whole};
use std::alloc::{AllocFailed, Global};

/// Why an evaluation has no value.
#[derive(Debug, Drop)]
pub enum EvalFault {
    /// The fault that the term raises.
    Fault(Fault),
    /// An allocation was refused.
    Want,
}

impl From<Want> for EvalFault {
    ghost from_gives = { λ _ e. e ≡ of_fault.Want };

    fn from(_: Want) -> EvalFault {
        EvalFault::Want
    }
}

impl<T: Drop> From<AllocFailed<T>> for EvalFault {
    ghost from_gives = { λ _ e. e ≡ of_fault.Want };

    fn from(_: AllocFailed<T>) -> EvalFault {
        EvalFault::Want
    }
}

/// What an operation raises that gives nothing.
pub(crate) fn raised(alloc: Global, why: NoValue) -> EvalFault
    ensures { IsCause result (outcome (Err why)) }
{
    let text = match why {
        NoValue::Overflow => b"int_overflow".as_slice(),
        NoValue::ZeroDivisor => b"zero_divisor".as_slice(),
    };
    match Name::of(alloc, text) {
        Ok(name) => EvalFault::Fault(Fault::Evaluation(name)),
        Err(_) => EvalFault::Want,
    }
}

/// What a name with so many operands raises that is no operation.
pub(crate) fn unknown(alloc: Global, name: &[u8], arity: usize) -> EvalFault
    requires { arity ≤ 255 }
    ensures { IsCause result (not_evaluable name.now arity) }
{
    match type_error(alloc, name, arity) {
        Ok(fault) => EvalFault::Fault(fault),
        Err(_) => EvalFault::Want,
    }
}

fn type_error(alloc: Global, name: &[u8], arity: usize) -> Result<Fault, Want>
    requires { arity ≤ 255 }
    ensures { IfOk result (λ f. not_evaluable name.now arity ≡ Raises f) }
{
    let valid = Name::of(alloc, b"evaluable")?;
    let culprit = indicator(alloc, name, arity)?;
    Ok(Fault::OfType(valid, culprit))
}

/// The term `name / arity`.
fn indicator(alloc: Global, name: &[u8], arity: usize) -> Result<Term, Want>
    requires { arity ≤ 255 }
    ensures { IfOk result (λ t. t ≡ two (codes "/") (atom name.now) (integer (pos arity))) }
{
    let mut nodes = Vec::new(alloc);
    nodes.push(Node::Functor(Name::of(alloc, b"/")?, 2))?;
    nodes.push(Node::Atom(Name::of(alloc, name)?))?;
    nodes.push(Node::Int(arity as Whole))?;
    Ok(Term::from_prefix(nodes))
}
