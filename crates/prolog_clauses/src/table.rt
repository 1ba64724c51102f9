// What a declaration makes of the operator table.
ghost use Rattle.std.specs.Prelude.{◌≡◌, ◌≤◌, IfOk, OnOk, OnErr, IsSome, None};
ghost use Rattle.prolog_terms.specs.Tree.{atom};
ghost use Rattle.prolog_terms.specs.Operators.{all_declared, declared, refusal, ChangesAlone};
ghost use Rattle.prolog_clauses.specs.Declarations as spec;

use crate::operators::{Declaration, Declaring};
use prolog_terms::{Fault, Name, Node, OpFault, OpKind, Ops, Term, Want};
use std::alloc::Global;

/// Declares what a directive declares, or gives the error. Where there is one, nothing has changed, also for want of
/// memory. For want of memory without an error the first names are declared, as many as there was memory for.
pub fn declare(alloc: Global, ops: &mut Ops, declaring: Declaring) -> Result<Option<Fault>, Want>
    requires { spec.HasPriority declaring }
    ensures fault { IfOk result (λ fault. fault ≡ spec.error_of ops.old declaring) }
    ensures table { OnOk result (ops.new ≡ spec.table_after ops.old declaring) }
    ensures refused { IsSome (spec.error_of ops.old declaring) → ops.new ≡ ops.old }
    ensures part { OnErr result (spec.IsInPart ops.old declaring ops.new) }
{
    match declaring {
        Declaring::Declares(declaration) => declare_names(alloc, ops, &declaration),
        Declaring::Raises(fault) => Ok(Some(fault)),
    }
}

fn declare_names(
    alloc: Global,
    ops: &mut Ops,
    declaration: &Declaration,
) -> Result<Option<Fault>, Want>
    requires { declaration.now.priority ≤ 1200 }
    ensures fault { IfOk result (λ fault. fault ≡ spec.permission ops.old declaration.now.priority declaration.now.kind declaration.now.names) }
    ensures table { OnOk result (ops.new ≡ spec.declared_unless (spec.permission ops.old declaration.now.priority declaration.now.kind declaration.now.names) declaration.now ops.old) }
    ensures refused { IsSome (spec.permission ops.old declaration.now.priority declaration.now.kind declaration.now.names) → ops.new ≡ ops.old }
    ensures part { OnErr result (spec.HasFirst declaration.now ops.old ops.new) }
{
    if let Some(fault) = permission(alloc, ops, declaration)? {
        return Ok(Some(fault));
    }
    declare_all(ops, declaration)?;
    Ok(None)
}

/// The error of the first name that the table refuses.
fn permission(alloc: Global, ops: &Ops, declaration: &Declaration) -> Result<Option<Fault>, Want>
    ensures { IfOk result (λ fault. fault ≡ spec.permission ops.now declaration.now.priority declaration.now.kind declaration.now.names) }
{
    let names = declaration.names.items();
    for name in names {
        if let Some(why) = ops.refusal(declaration.priority, declaration.kind, name) {
            return Ok(Some(refused_as(alloc, name, why)?));
        }
    }
    Ok(None)
}

fn refused_as(alloc: Global, name: &Name, why: OpFault) -> Result<Fault, Want>
    ensures { IfOk result (λ fault. fault ≡ spec.refused_as name.now why) }
{
    let action = match why {
        OpFault::Comma => Name::of(alloc, b"modify")?,
        OpFault::Reserved | OpFault::Clash | OpFault::Want => Name::of(alloc, b"create")?,
    };
    let kind = Name::of(alloc, b"operator")?;
    Ok(Fault::Permission(action, kind, atom(alloc, name)?))
}

fn atom(alloc: Global, name: &Name) -> Result<Term, Want>
    ensures { IfOk result (λ t. t ≡ atom name.now) }
{
    let mut nodes = Vec::new(alloc);
    nodes.push(Node::Atom(name.clone()?))?;
    Ok(Term::from_prefix(nodes))
}

/// Declares each name. None is refused: a name of the same type and priority makes no other one refused.
fn declare_all(ops: &mut Ops, declaration: &Declaration) -> Result<(), Want>
    requires priority { declaration.now.priority ≤ 1200 }
    requires permission { spec.permission ops.old declaration.now.priority declaration.now.kind declaration.now.names ≡ None }
    ensures ok { OnOk result (ops.new ≡ all_declared declaration.now.priority declaration.now.kind declaration.now.names ops.old) }
    ensures part { OnErr result (spec.HasFirst declaration.now ops.old ops.new) }
{
    let names = declaration.names.items();
    for name in names {
        declare_one(ops, declaration.priority, declaration.kind, name)?;
    }
    Ok(())
}

/// Declares a name that isn't refused.
fn declare_one(ops: &mut Ops, priority: u16, kind: OpKind, name: &Name) -> Result<(), Want>
    requires priority { priority ≤ 1200 }
    requires permission { refusal priority kind name.now ops.old ≡ None }
    ensures ok { OnOk result (ops.new ≡ declared priority kind name.now ops.old) }
    ensures alone { OnOk result (ChangesAlone priority kind name.now ops.old ops.new) }
    ensures err { OnErr result (ops.new ≡ ops.old) }
{
    match ops.declare(priority, kind, name) {
        Ok(()) => Ok(()),
        Err(OpFault::Want) => Err(Want),
        Err(OpFault::Comma | OpFault::Reserved | OpFault::Clash) => unreachable!(),
    }
}
