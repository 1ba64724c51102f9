// Lists of what goals find: the goal of a `findall` stands above a mark, which keeps a copy of the template for each answer.
ghost use Rattle.std.specs.Prelude.{◌≡◌, ◌≤◌, ◌∷◌, [], All, IfOk, OnOk, OnErr, map, drop, suc};
ghost use Rattle.prolog_terms.specs.Substitutions.{numbered};
ghost use Rattle.prolog_terms.specs.Clauses.{body_of};
ghost use Rattle.term_builtins.specs.Meanings.{list_tree};
ghost use Rattle.wam_machine.specs.States.{Going, Do, FindallEnd, FindallMark, onwards, pushed, height as height_of, fails};
ghost use Rattle.wam_machine.specs.Machine.{gathering, gathered, found_at, new_copies, behind_copies};
ghost use Rattle.wam_machine.specs.Terms.{AreTerms, IsGoal, IsBuilt, IsGrown, KeepsCells, said, built};
ghost use Rattle.wam_machine.specs.View.{Acts, calls};

use crate::balls::put_ball;
use crate::bodies::body;
use crate::build::{build, word};
use crate::choices::{add_found, height, make_place, save};
use crate::enter::equate;
use crate::errors::{findall_indicator, uncallable};
use crate::goals::push_next;
use crate::state::{Machine, Mode};
use crate::terms::{Alternative, Next, Terms};
use prolog_terms::{Term, Want};
use std::alloc::Global;
use term_store::Cell;

/// The goal of a `findall` as a body, above a mark.
pub(crate) fn gather<C>(
    machine: &mut Machine<C>,
    alloc: Global,
    template: Cell,
    goal: Cell,
    list: Cell,
) -> Result<(), Want>
    requires terms { AreTerms machine.old.terms }
    requires template { IsBuilt machine.old.terms template }
    requires goal { IsBuilt machine.old.terms goal }
    requires list { IsBuilt machine.old.terms list }
    ensures acts { OnOk result (Acts (λ s. gathering (built machine.old.terms template) (built machine.old.terms goal) (built machine.old.terms list) s (body_of (built machine.old.terms goal))) machine.old machine.new) }
    ensures err { OnErr result (calls machine.new ≡ calls machine.old) }
{
    match body(alloc, &mut machine.terms, goal)? {
        Some(made) => gather_body(machine, alloc, template, made, list),
        None => {
            let at = findall_indicator(alloc)?;
            machine.mode = Mode::Raising(uncallable(alloc, &machine.terms, goal, &at)?);
            Ok(())
        }
    }
}

/// A body whose answers are gathered, above a mark with nothing found yet.
fn gather_body<C>(
    machine: &mut Machine<C>,
    alloc: Global,
    template: Cell,
    made: Cell,
    list: Cell,
) -> Result<(), Want>
    requires terms { AreTerms machine.old.terms }
    requires template { IsBuilt machine.old.terms template }
    requires made { IsGoal machine.old.terms made }
    requires list { IsBuilt machine.old.terms list }
    ensures acts { OnOk result (Acts (λ s. onwards (Do (built machine.old.terms made) (suc (height_of s)) ∷ FindallEnd (built machine.old.terms template) (suc (height_of s)) ∷ [])
        (pushed (FindallMark (built machine.old.terms list) []) s)) machine.old machine.new) }
    ensures err { OnErr result (calls machine.new ≡ calls machine.old) }
{
    make_place(&mut machine.terms)?;
    save(
        &mut machine.terms,
        Alternative::FindallMark(list, Vec::new(alloc)),
    );
    let within = height(&machine.terms);
    push_next(&mut machine.terms, Next::FindallEnd(template, within))?;
    push_next(&mut machine.terms, Next::Do(made, within))
}

/// The goal of a `findall` has an answer: a copy of the template is kept, and that is a failure.
pub(crate) fn keep_found<C>(
    machine: &mut Machine<C>,
    template: Cell,
    height: usize,
) -> Result<(), Want>
    requires terms { AreTerms machine.old.terms }
    requires template { IsBuilt machine.old.terms template }
    ensures acts { OnOk result (Acts (λ s. fails (record s { stack = found_at height (numbered (built machine.old.terms template)) s.stack })) machine.old machine.new) }
    ensures err { OnErr result (calls machine.new ≡ calls machine.old) }
{
    let copy = copy_of(&machine.terms, template)?;
    add_found(&mut machine.terms, height, copy)?;
    machine.mode = Mode::Failing;
    Ok(())
}

/// A copy of what a cell stands for, with its variables numbered from 0 by first occurrence.
fn copy_of<C>(terms: &Terms<C>, cell: Cell) -> Result<Term, Want>
    requires terms { AreTerms terms.now }
    requires cell { IsBuilt terms.now cell }
    ensures { IfOk result (λ t. t ≡ numbered (built terms.now cell)) }
{
    terms.store.read_back(&terms.names, cell)
}

/// The goal of a `findall` has no further answer: its list is made one with that of the copies, whose variables are new ones.
pub(crate) fn finish<C>(
    machine: &mut Machine<C>,
    alloc: Global,
    list: Cell,
    found: &[Term],
) -> Result<(), Want>
    requires terms { AreTerms machine.old.terms }
    requires list { IsBuilt machine.old.terms list }
    ensures acts { OnOk result (Acts (λ s. gathered (built machine.old.terms list) found.now (record s { mode = Going })) machine.old machine.new) }
    ensures err { OnErr result (calls machine.new ≡ calls machine.old) }
{
    let made = list_found(alloc, &mut machine.terms, found)?;
    if equate(&mut machine.terms, list, made)? {
        machine.mode = Mode::Going;
    } else {
        machine.mode = Mode::Failing;
    }
    Ok(())
}

/// The list of these copies, whose variables are new ones.
fn list_found<C>(alloc: Global, terms: &mut Terms<C>, found: &[Term]) -> Result<Cell, Want>
    requires terms { AreTerms terms.old }
    ensures terms { OnOk result (AreTerms terms.new) }
    ensures said { OnOk result (said terms.new ≡ record (said terms.old) { fresh = behind_copies (said terms.old).fresh found.now }) }
    ensures cells { OnOk result (KeepsCells terms.old terms.new) }
    ensures cell { IfOk result (IsBuilt terms.new) }
    ensures term { IfOk result (λ c. built terms.new c ≡ list_tree (new_copies (said terms.old).fresh found.now)) }
    ensures err { OnErr result ((said terms.new).stack ≡ (said terms.old).stack) }
{
    let cells = put_copies(alloc, terms, found)?;
    list_of_cells(terms, cells.as_slice())
}

/// Puts copies one after the other, each with new variables.
fn put_copies<C>(alloc: Global, terms: &mut Terms<C>, found: &[Term]) -> Result<Vec<Cell>, Want>
    requires terms { AreTerms terms.old }
    ensures terms { OnOk result (AreTerms terms.new) }
    ensures said { OnOk result (said terms.new ≡ record (said terms.old) { fresh = behind_copies (said terms.old).fresh found.now }) }
    ensures kept { OnOk result (KeepsCells terms.old terms.new) }
    ensures cells { IfOk result (λ cells. All (IsBuilt terms.new) cells.items) }
    ensures copies { IfOk result (λ cells. map (built terms.new) cells.items ≡ new_copies (said terms.old).fresh found.now) }
    ensures err { OnErr result ((said terms.new).stack ≡ (said terms.old).stack) }
{
    let mut cells = Vec::new(alloc);
    let mut left = found;
    while let Some((copy, rest)) = left.split_first() {
        let cell = put_ball(terms, copy)?;
        cells.push(cell)?;
        left = rest;
    }
    Ok(cells)
}

/// The list of what these cells stand for.
fn list_of_cells<C>(terms: &mut Terms<C>, cells: &[Cell]) -> Result<Cell, Want>
    requires terms { AreTerms terms.old }
    requires cells { All (IsBuilt terms.old) cells.now }
    ensures grown { OnOk result (IsGrown terms.old terms.new) }
    ensures cell { IfOk result (IsBuilt terms.new) }
    ensures term { IfOk result (λ c. built terms.new c ≡ list_tree (map (built terms.old) cells.now)) }
    ensures err { OnErr result ((said terms.new).stack ≡ (said terms.old).stack) }
{
    let end = word(terms, b"[]")?;
    let mut list = Cell::Atom(end);
    let mut left = cells.len();
    while left > 0 {
        left -= 1;
        list = build(terms, b".", &[cells[left], list])?;
    }
    Ok(list)
}
