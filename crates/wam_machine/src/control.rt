// What a goal is.
ghost use Rattle.std.specs.Prelude.{◌≡◌, ◌≤◌, ◌<◌, ◌∷◌, [], All, IfOk, length, false, codes};
ghost use Rattle.prolog_terms.specs.Tree.{Tree, atom, compound, none, more};
ghost use Rattle.prolog_terms.specs.Clauses.{is_named};
ghost use Rattle.term_store.specs.Terms.{trees_of};
ghost use Rattle.wam_machine.specs.Control.{control_of};
ghost use Rattle.wam_machine.specs.Terms.{AreTerms, IsGoal, IsBuilt, built};
ghost use Rattle.wam_machine.specs.Goals.{IsControl, IsFound, IsFoundNow, IsArrow, IsPlain, IsAsked};

use crate::terms::Terms;
use prolog_terms::{End, Indicator, Name, Want};
use std::alloc::Global;
use term_builtins::find_builtin;
use term_store::{Cell, View};

/// What a goal asks of the database, other than the call of a procedure.
#[derive(Clone, Copy)]
pub(crate) enum Access {
    /// A clause is added at an end.
    Assert(End, Cell),
    /// The clauses of a head and a body are shown, one after another.
    Inspect(Cell, Cell),
    /// The same by a clause, and each is erased.
    Retract(Cell),
    /// The clauses of a head are erased.
    RetractAll(Cell),
    /// The clauses of a name and arity are erased.
    Abolish(Cell),
}

/// What a goal is: one that the machine does itself, or the call of a procedure.
#[derive(Drop)]
pub(crate) enum Control {
    True,
    Fail,
    /// The alternatives since the clause, or the local scope, began are taken away.
    Cut,
    Repeat,
    /// A conjunction: one goal, and then the other.
    Both(Cell, Cell),
    /// One goal, with the other as an alternative.
    Either(Cell, Cell),
    /// A condition, what comes after its first answer, and what comes where it has none.
    IfElse(Cell, Cell, Cell),
    /// A condition, and what comes after its first answer.
    If(Cell, Cell),
    /// What has no answer.
    Not(Cell),
    /// A goal, with up to seven arguments added.
    Call(Cell, Vec<Cell>),
    Once(Cell),
    /// A goal, a catcher and a recovery.
    Catch(Cell, Cell, Cell),
    /// A template, a goal and a list.
    Findall(Cell, Cell, Cell),
    /// A ball is raised.
    Throw(Cell),
    /// The run is ended.
    Halt,
    /// The run is ended with a number.
    HaltWith(Cell),
    /// The database is asked for something.
    Database(Access),
    /// A builtin on terms, by its place in the table, with its arguments.
    Builtin(usize, Vec<Cell>),
    /// Any other goal, by its name and arity.
    User(Indicator),
}

/// What a goal is.
pub(crate) fn goal_control<C>(alloc: Global, terms: &Terms<C>, goal: Cell) -> Result<Control, Want>
    requires terms { AreTerms terms.now }
    requires goal { IsGoal terms.now goal }
    ensures { IfOk result (IsControl terms.now (built terms.now goal)) }
{
    terms.store.known();
    match terms.store.look(goal) {
        View::Variable(_) => unreachable!(),
        View::Integer(_) => unreachable!(),
        View::Atom(name) => atom_control(alloc, terms.names.text(name)),
        View::Compound(name, arguments) => {
            row_control(alloc, terms, terms.names.text(name), arguments)
        }
    }
}

/// What an atom of this name is as a goal.
fn atom_control(alloc: Global, name: &[u8]) -> Result<Control, Want>
    ensures { IfOk result (IsFound [] (λ tree. atom name.now)) }
{
    if name == b"true".as_slice() {
        return Ok(Control::True);
    }
    if name == b"fail".as_slice() {
        return Ok(Control::Fail);
    }
    if name == b"!".as_slice() {
        return Ok(Control::Cut);
    }
    if name == b"repeat".as_slice() {
        return Ok(Control::Repeat);
    }
    if name == b"halt".as_slice() {
        return Ok(Control::Halt);
    }
    plain(alloc, name, &[])
}

/// What a compound of this name and these arguments is as a goal.
fn row_control<C>(
    alloc: Global,
    terms: &Terms<C>,
    name: &[u8],
    arguments: &[Cell],
) -> Result<Control, Want>
    requires terms { AreTerms terms.now }
    requires some { 1 ≤ length arguments.now }
    requires few { length arguments.now ≤ 255 }
    requires valid { All (IsBuilt terms.now) arguments.now }
    ensures { IfOk result (IsFoundNow terms.now (compound name.now (trees_of (built terms.now) arguments.now))) }
{
    match arguments {
        [only] => one_control(alloc, name, *only),
        [left, right] => {
            if name == b";".as_slice() {
                return Ok(either_control(terms, *left, *right));
            }
            two_control(alloc, name, *left, *right)
        }
        [first, second, third] => three_control(alloc, name, *first, *second, *third),
        _ => more_control(alloc, name, arguments),
    }
}

/// What a compound of this name and this argument is as a goal.
fn one_control(alloc: Global, name: &[u8], only: Cell) -> Result<Control, Want>
    ensures { IfOk result (IsFound (only ∷ []) (λ tree. compound name.now (more (tree only) none))) }
{
    if name == b"call".as_slice() {
        return Ok(Control::Call(only, Vec::new(alloc)));
    }
    if name == b"once".as_slice() {
        return Ok(Control::Once(only));
    }
    if name == b"\\+".as_slice() {
        return Ok(Control::Not(only));
    }
    if name == b"throw".as_slice() {
        return Ok(Control::Throw(only));
    }
    if name == b"halt".as_slice() {
        return Ok(Control::HaltWith(only));
    }
    access_control(alloc, name, only)
}

/// What a compound of this name, which is no control construct, and this argument is as a goal.
fn access_control(alloc: Global, name: &[u8], only: Cell) -> Result<Control, Want>
    ensures { IfOk result (IsAsked name.now only) }
{
    if name == b"asserta".as_slice() {
        return Ok(Control::Database(Access::Assert(End::Front, only)));
    }
    if name == b"assertz".as_slice() {
        return Ok(Control::Database(Access::Assert(End::Back, only)));
    }
    if name == b"retract".as_slice() {
        return Ok(Control::Database(Access::Retract(only)));
    }
    if name == b"retractall".as_slice() {
        return Ok(Control::Database(Access::RetractAll(only)));
    }
    if name == b"abolish".as_slice() {
        return Ok(Control::Database(Access::Abolish(only)));
    }
    plain(alloc, name, &[only])
}

/// What a compound of this name, which is not `;`, and these two arguments is as a goal.
fn two_control(alloc: Global, name: &[u8], left: Cell, right: Cell) -> Result<Control, Want>
    requires { is_named (codes ";") name.now ≡ false }
    ensures { IfOk result (IsFound (left ∷ right ∷ []) (λ tree. compound name.now (more (tree left) (more (tree right) none)))) }
{
    if name == b",".as_slice() {
        return Ok(Control::Both(left, right));
    }
    if name == b"->".as_slice() {
        return Ok(Control::If(left, right));
    }
    if name == b"call".as_slice() {
        let mut added = Vec::new(alloc);
        added.push(right)?;
        return Ok(Control::Call(left, added));
    }
    if name == b"clause".as_slice() {
        return Ok(Control::Database(Access::Inspect(left, right)));
    }
    plain(alloc, name, &[left, right])
}

/// What a compound of this name and these three arguments is as a goal.
fn three_control(
    alloc: Global,
    name: &[u8],
    first: Cell,
    second: Cell,
    third: Cell,
) -> Result<Control, Want>
    ensures { IfOk result (IsFound (first ∷ second ∷ third ∷ []) (λ tree. compound name.now (more (tree first) (more (tree second) (more (tree third) none))))) }
{
    if name == b"catch".as_slice() {
        return Ok(Control::Catch(first, second, third));
    }
    if name == b"findall".as_slice() {
        return Ok(Control::Findall(first, second, third));
    }
    if name == b"call".as_slice() {
        let mut added = Vec::new(alloc);
        added.push(second)?;
        added.push(third)?;
        return Ok(Control::Call(first, added));
    }
    plain(alloc, name, &[first, second, third])
}

/// What a compound of this name and four arguments or more is as a goal.
fn more_control(alloc: Global, name: &[u8], arguments: &[Cell]) -> Result<Control, Want>
    requires some { 4 ≤ length arguments.now }
    requires few { length arguments.now ≤ 255 }
    ensures { IfOk result (IsFound arguments.now (λ tree. compound name.now (trees_of tree arguments.now))) }
{
    if name == b"call".as_slice() && arguments.len() <= 8 {
        let mut added = Vec::new(alloc);
        added.extend_from_slice(&arguments[1..])?;
        return Ok(Control::Call(arguments[0], added));
    }
    plain(alloc, name, arguments)
}

/// What a `;` is as a goal: a condition with an else where its left side is a `->`.
fn either_control<C>(terms: &Terms<C>, left: Cell, right: Cell) -> Control
    requires terms { AreTerms terms.now }
    requires left { IsBuilt terms.now left }
    requires right { IsBuilt terms.now right }
    ensures { IsFoundNow terms.now (compound (codes ";") (more (built terms.now left) (more (built terms.now right) none))) result }
{
    match arrow(terms, left) {
        Some((condition, then)) => Control::IfElse(condition, then, right),
        None => Control::Either(left, right),
    }
}

/// The two sides of a `->`.
fn arrow<C>(terms: &Terms<C>, cell: Cell) -> Option<(Cell, Cell)>
    requires terms { AreTerms terms.now }
    requires cell { IsBuilt terms.now cell }
    ensures { IsArrow terms.now (built terms.now cell) result }
{
    terms.store.known();
    match terms.store.look(cell) {
        View::Compound(name, arguments) => match arguments {
            [condition, then] => {
                if terms.names.text(name) == b"->".as_slice() {
                    return Some((*condition, *then));
                }
                None
            }
            _ => None,
        },
        _ => None,
    }
}

/// What is no control construct: a builtin on terms, or the call of a procedure.
fn plain(alloc: Global, name: &[u8], arguments: &[Cell]) -> Result<Control, Want>
    requires few { length arguments.now ≤ 255 }
    ensures { IfOk result (IsPlain name.now arguments.now) }
{
    let arity = arguments.len() as u32;
    match find_builtin(name, arity) {
        Some(row) => {
            let mut args = Vec::new(alloc);
            args.extend_from_slice(arguments)?;
            Ok(Control::Builtin(row, args))
        }
        None => user(alloc, name, arity),
    }
}

/// The call of a procedure.
fn user(alloc: Global, name: &[u8], arity: u32) -> Result<Control, Want>
    ensures { IfOk result (λ found. found ≡ Control.User (record { name = name.now; arity = arity })) }
{
    Ok(Control::User(Indicator {
        name: Name::of(alloc, name)?,
        arity,
    }))
}
