// The value of a term of a store.
ghost use Rattle.std.specs.Prelude.{◌≡◌, ◌∷◌, ◌++◌, [], ◌<◌, ◌≤◌, length, reverse, All, IfOk, IfErr, OnOk, IsSome};
ghost use Rattle.term_store.specs.Terms.{term_of, HasTerm, AreNamed};
ghost use Rattle.prolog_arith.specs.declared.evaluation.Task.TheVariants.{Apply};
ghost use Rattle.prolog_arith.specs.Arithmetic.{Is, evaluated};
ghost use Rattle.prolog_arith.specs.Work.{outcome, taken, opened, IsCause, IsPushed, IsApplied, IsRefused, IsEvaluated};

use crate::faults::{EvalFault, raised, unknown};
use crate::operate::{NoValue, apply_binary, apply_unary};
use crate::operation::{Operation, find};
use prolog_terms::{Fault, Names, Want, Whole};
use std::alloc::Global;
use term_store::{Cell, Store, View};

/// What is still to be done.
#[derive(Clone, Copy)]
pub(crate) enum Task {
    /// A cell is evaluated.
    Evaluate(Cell),
    /// An operation takes the last values.
    Apply(Operation),
}

/// The value of what the cell stands for, or the fault that it raises. It takes no recursion, and the time is linear in
/// the term as unfolded: parts that stand there more than once are evaluated as often.
pub fn eval(alloc: Global, store: &Store, names: &Names, cell: Cell) -> Result<Whole, EvalFault>
    requires named { AreNamed (length names.now) store.now }
    requires valid { HasTerm (length names.now) store.now cell }
    ensures value { IfOk result (λ n. evaluated (term_of names.now store.now cell) ≡ Is n) }
    ensures fault { IfErr result (λ e. IsCause e (evaluated (term_of names.now store.now cell))) }
{
    let mut tasks = Vec::new(alloc);
    let mut values = Vec::new(alloc);
    tasks.push(Task::Evaluate(cell))?;
    while let Some(task) = tasks.pop() {
        match task {
            Task::Evaluate(next) => {
                evaluate(alloc, store, names, &mut tasks, &mut values, next)?;
            }
            Task::Apply(operation) => {
                apply(alloc, &mut values, operation)?;
            }
        }
    }
    match values.pop() {
        Some(value) => Ok(value),
        None => unreachable!(),
    }
}

/// Evaluates a cell: an integer at once, and a compound by its operation, after its operands.
fn evaluate(
    alloc: Global,
    store: &Store,
    names: &Names,
    tasks: &mut Vec<Task>,
    values: &mut Vec<Whole>,
    cell: Cell,
) -> Result<(), EvalFault>
    requires named { AreNamed (length names.now) store.now }
    requires valid { HasTerm (length names.now) store.now cell }
    ensures evaluated { OnOk result (IsEvaluated names.now store.now cell tasks.old.items tasks.new.items values.old.items values.new.items) }
    ensures fault { IfErr result (λ e. IsCause e (evaluated (term_of names.now store.now cell))) }
{
    store.known();
    match store.look(cell) {
        View::Variable(_) => Err(EvalFault::Fault(Fault::Instantiation)),
        View::Integer(value) => {
            values.push(value)?;
            Ok(())
        }
        View::Atom(name) => Err(unknown(alloc, names.text(name), 0)),
        View::Compound(name, operands) => {
            let text = names.text(name);
            match find(text, operands.len()) {
                Some(found) => {
                    open(tasks, found, operands)?;
                    Ok(())
                }
                None => Err(unknown(alloc, text, operands.len())),
            }
        }
    }
}

/// An operation is to be applied after its operands, the left one first.
fn open(tasks: &mut Vec<Task>, operation: Operation, operands: &[Cell]) -> Result<(), Want>
    ensures { OnOk result (reverse tasks.new.items ≡ opened operands.now ++ Apply operation ∷ reverse tasks.old.items) }
{
    tasks.push(Task::Apply(operation))?;
    let mut at = operands.len();
    while at > 0 {
        at -= 1;
        tasks.push(Task::Evaluate(operands[at]))?;
    }
    Ok(())
}

/// Applies an operation to the last values, which are taken off.
fn apply(alloc: Global, values: &mut Vec<Whole>, operation: Operation) -> Result<(), EvalFault>
    requires { IsSome (taken operation (reverse values.old.items)) }
    ensures applied { OnOk result (IsApplied operation values.old.items values.new.items) }
    ensures refused { IfErr result (λ e. IsRefused operation values.old.items e) }
{
    match operation {
        Operation::One(unary) => {
            let operand = last(values);
            push_answer(alloc, values, apply_unary(unary, operand))?;
            Ok(())
        }
        Operation::Two(binary) => {
            let right = last(values);
            let left = last(values);
            push_answer(alloc, values, apply_binary(binary, left, right))?;
            Ok(())
        }
    }
}

/// What an operation gives is the last value.
fn push_answer(
    alloc: Global,
    values: &mut Vec<Whole>,
    answer: Result<Whole, NoValue>,
) -> Result<(), EvalFault>
    ensures pushed { OnOk result (IsPushed (outcome answer) values.old.items values.new.items) }
    ensures refused { IfErr result (λ e. IsCause e (outcome answer)) }
{
    match answer {
        Ok(value) => {
            values.push(value)?;
            Ok(())
        }
        Err(why) => Err(raised(alloc, why)),
    }
}

/// The last value, which is taken off.
fn last(values: &mut Vec<Whole>) -> Whole
    requires { 0 < length values.old.items }
    ensures { values.old.items ≡ values.new.items ++ result ∷ [] }
{
    match values.pop() {
        Some(value) => value,
        None => unreachable!(),
    }
}
