// Terms that are made bodies: a variable that stands as a goal becomes `call` of it. What is walked over is the spine of
// goals and connectives alone, with a list of what is still to be walked over.
ghost use Rattle.std.specs.Prelude.{◌≡◌, ◌<◌, ◌≤◌, ◌∷◌, ◌++◌, [], All, IfOk, OnOk, OnErr, Some, IsSome, length, map, reverse};
ghost use Rattle.prolog_terms.specs.Tree.{Tree};
ghost use Rattle.prolog_terms.specs.Clauses.{is_connective};
ghost use Rattle.term_store.specs.Terms.{text};
ghost use Rattle.wam_machine.specs.Spine.{spine, spines, folded, part_on, joint_on};
ghost use Rattle.wam_machine.specs.Goals.{IsOfKind, IsPart, IsMadeBody, part_now};
ghost use Rattle.wam_machine.specs.Terms.{AreTerms, IsBuilt, IsGrown, said, built};

use crate::build::{call_goal, compound_of};
use crate::terms::Terms;
use prolog_terms::Want;
use std::alloc::Global;
use term_store::{Cell, View};

/// Whether a term is a body.
pub(crate) enum Kind {
    /// It is one as it stands.
    Body,
    /// It is one where its variables that stand as goals are called.
    Open,
    /// An integer stands in it as a goal, so it can't be one.
    Broken,
}

/// A part of a spine.
#[derive(Clone, Copy)]
pub(crate) enum Part {
    /// A variable that stands as a goal.
    Variable(Cell),
    /// An integer that stands as a goal.
    Integer(Cell),
    /// Any other goal.
    Goal(Cell),
    /// The number of a connective's name; its two sides follow.
    Joint(u64),
}

/// Makes what a cell stands for a body; none is made where it can't be one. No term is made where no variable stands as a
/// goal, and else the spine alone.
pub(crate) fn body<C>(alloc: Global, terms: &mut Terms<C>, goal: Cell) -> Result<Option<Cell>, Want>
    requires terms { AreTerms terms.old }
    requires goal { IsBuilt terms.old goal }
    ensures grown { OnOk result (IsGrown terms.old terms.new) }
    ensures body { IfOk result (IsMadeBody (built terms.old goal) terms.new) }
    ensures err { OnErr result ((said terms.new).stack ≡ (said terms.old).stack) }
{
    match body_kind(alloc, terms, goal)? {
        Kind::Broken => Ok(None),
        Kind::Body => Ok(Some(goal)),
        Kind::Open => {
            let parts = parts(alloc, terms, goal)?;
            let made = joined(alloc, terms, parts.as_slice())?;
            Ok(Some(made))
        }
    }
}

/// Whether what a cell stands for is a body.
fn body_kind<C>(alloc: Global, terms: &Terms<C>, goal: Cell) -> Result<Kind, Want>
    requires terms { AreTerms terms.now }
    requires goal { IsBuilt terms.now goal }
    ensures { IfOk result (IsOfKind (built terms.now goal)) }
{
    let mut todo = Vec::new(alloc);
    let mut next = Some(goal);
    let mut unbound = false;
    while let Some(cell) = next {
        match next_part(terms, &mut todo, cell)? {
            Part::Integer(_) => return Ok(Kind::Broken),
            Part::Variable(_) => unbound = true,
            Part::Goal(_) => {}
            Part::Joint(_) => {}
        }
        next = todo.pop();
    }
    if unbound {
        Ok(Kind::Open)
    } else {
        Ok(Kind::Body)
    }
}

/// The parts of the spine of what a cell stands for, in their order.
fn parts<C>(alloc: Global, terms: &Terms<C>, goal: Cell) -> Result<Vec<Part>, Want>
    requires terms { AreTerms terms.now }
    requires goal { IsBuilt terms.now goal }
    ensures parts { IfOk result (λ ps. map (part_now terms.now) ps.items ≡ spine (built terms.now goal)) }
    ensures are { IfOk result (λ ps. All (IsPart terms.now) ps.items) }
{
    let mut parts = Vec::new(alloc);
    let mut todo = Vec::new(alloc);
    let mut next = Some(goal);
    while let Some(cell) = next {
        let met = next_part(terms, &mut todo, cell)?;
        parts.push(met)?;
        next = todo.pop();
    }
    Ok(parts)
}

/// The first part of the spine of what a cell stands for. The two sides of a connective are put on what is still to be
/// walked over, of which the last comes first.
fn next_part<C>(terms: &Terms<C>, todo: &mut Vec<Cell>, cell: Cell) -> Result<Part, Want>
    requires terms { AreTerms terms.now }
    requires cell { IsBuilt terms.now cell }
    requires todo { All (IsBuilt terms.now) todo.old.items }
    ensures todo { OnOk result (All (IsBuilt terms.now) todo.new.items) }
    ensures spine { IfOk result (λ p. spine (built terms.now cell) ++ spines (map (built terms.now) (reverse todo.old.items)) ≡ part_now terms.now p ∷ spines (map (built terms.now) (reverse todo.new.items))) }
    ensures is { IfOk result (IsPart terms.now) }
{
    terms.store.known();
    match terms.store.look(cell) {
        View::Variable(_) => Ok(Part::Variable(cell)),
        View::Integer(_) => Ok(Part::Integer(cell)),
        View::Atom(_) => Ok(Part::Goal(cell)),
        View::Compound(name, arguments) => match arguments {
            [left, right] => {
                if !joins(terms.names.text(name)) {
                    return Ok(Part::Goal(cell));
                }
                todo.push(*right)?;
                todo.push(*left)?;
                Ok(Part::Joint(name))
            }
            _ => Ok(Part::Goal(cell)),
        },
    }
}

/// Whether it is the name of a connective.
fn joins(name: &[u8]) -> bool
    ensures { result ≡ is_connective name.now }
{
    name == b",".as_slice() || name == b";".as_slice() || name == b"->".as_slice()
}

/// The body of these parts: they are put on a stack of bodies, the last first.
fn joined<C>(alloc: Global, terms: &mut Terms<C>, parts: &[Part]) -> Result<Cell, Want>
    requires terms { AreTerms terms.old }
    requires parts { All (IsPart terms.old) parts.now }
    requires whole { (body : Tree) × (folded (map (part_now terms.old) parts.now) [] ≡ Some (body ∷ [])) }
    ensures grown { OnOk result (IsGrown terms.old terms.new) }
    ensures cell { IfOk result (IsBuilt terms.new) }
    ensures term { IfOk result (λ c. folded (map (part_now terms.old) parts.now) [] ≡ Some (built terms.new c ∷ [])) }
    ensures err { OnErr result ((said terms.new).stack ≡ (said terms.old).stack) }
{
    let mut stack = Vec::new(alloc);
    let mut left = parts.len();
    while left > 0 {
        left -= 1;
        put_part(terms, &mut stack, parts[left])?;
    }
    match stack.pop() {
        Some(body) => Ok(body),
        None => Err(Want),
    }
}

/// Puts a part on a stack of bodies: a goal as a further one, a connective on the two newest.
fn put_part<C>(terms: &mut Terms<C>, stack: &mut Vec<Cell>, part: Part) -> Result<(), Want>
    requires terms { AreTerms terms.old }
    requires part { IsPart terms.old part }
    requires stack { All (IsBuilt terms.old) stack.old.items }
    requires can { IsSome (part_on (part_now terms.old part) (Some (map (built terms.old) (reverse stack.old.items)))) }
    ensures grown { OnOk result (IsGrown terms.old terms.new) }
    ensures stack { OnOk result (All (IsBuilt terms.new) stack.new.items) }
    ensures put { OnOk result (part_on (part_now terms.old part) (Some (map (built terms.old) (reverse stack.old.items))) ≡ Some (map (built terms.new) (reverse stack.new.items))) }
    ensures err { OnErr result ((said terms.new).stack ≡ (said terms.old).stack) }
{
    match part {
        Part::Variable(cell) => {
            let called = call_goal(terms, cell)?;
            stack.push(called)?;
            Ok(())
        }
        Part::Integer(cell) => {
            stack.push(cell)?;
            Ok(())
        }
        Part::Goal(cell) => {
            stack.push(cell)?;
            Ok(())
        }
        Part::Joint(name) => join(terms, stack, name),
    }
}

/// Puts a connective on the two newest bodies of a stack.
fn join<C>(terms: &mut Terms<C>, stack: &mut Vec<Cell>, name: u64) -> Result<(), Want>
    requires terms { AreTerms terms.old }
    requires name { name < length terms.old.names }
    requires stack { All (IsBuilt terms.old) stack.old.items }
    requires two { 2 ≤ length stack.old.items }
    ensures grown { OnOk result (IsGrown terms.old terms.new) }
    ensures stack { OnOk result (All (IsBuilt terms.new) stack.new.items) }
    ensures put { OnOk result (joint_on (text terms.old.names name) (Some (map (built terms.old) (reverse stack.old.items))) ≡ Some (map (built terms.new) (reverse stack.new.items))) }
    ensures err { OnErr result ((said terms.new).stack ≡ (said terms.old).stack) }
{
    let left = stack.pop().ok_or(Want)?;
    let right = stack.pop().ok_or(Want)?;
    let whole = compound_of(terms, name, &[left, right])?;
    stack.push(whole)?;
    Ok(())
}
