// Terms that a run makes in its store.
ghost use Rattle.std.specs.Prelude.{◌≡◌, ◌+◌, ◌<◌, ◌≤◌, ◌++◌, All, IfOk, OnOk, OnErr, length, codes};
ghost use Rattle.prolog_terms.specs.Tree.{atom, compound};
ghost use Rattle.prolog_terms.specs.Faults.{two};
ghost use Rattle.term_store.specs.Terms.{text, trees_of};
ghost use Rattle.prolog_terms.specs.Clauses.{call_term};
ghost use Rattle.wam_machine.specs.Goals.{IsAdded};
ghost use Rattle.wam_machine.specs.Terms.{AreTerms, IsBuilt, IsGrown, said, built};

use crate::terms::Terms;
use prolog_terms::Want;
use std::alloc::Global;
use term_store::{Cell, View};

/// The number of a name with this text.
pub(crate) fn word<C>(terms: &mut Terms<C>, name: &[u8]) -> Result<u64, Want>
    requires terms { AreTerms terms.old }
    ensures grown { OnOk result (IsGrown terms.old terms.new) }
    ensures inside { IfOk result (λ n. n < length terms.new.names) }
    ensures text { IfOk result (λ n. text terms.new.names n ≡ name.now) }
    ensures err { OnErr result ((said terms.new).stack ≡ (said terms.old).stack) }
{
    terms.store.known();
    let number = terms.names.intern(name)?;
    Ok(number)
}

/// A compound with the name of this number.
pub(crate) fn compound_of<C>(
    terms: &mut Terms<C>,
    name: u64,
    arguments: &[Cell],
) -> Result<Cell, Want>
    requires terms { AreTerms terms.old }
    requires name { name < length terms.old.names }
    requires some { 1 ≤ length arguments.now }
    requires few { length arguments.now ≤ 255 }
    requires valid { All (IsBuilt terms.old) arguments.now }
    ensures grown { OnOk result (IsGrown terms.old terms.new) }
    ensures cell { IfOk result (IsBuilt terms.new) }
    ensures term { IfOk result (λ c. built terms.new c ≡ compound (text terms.old.names name) (trees_of (built terms.old) arguments.now)) }
    ensures err { OnErr result ((said terms.new).stack ≡ (said terms.old).stack) }
{
    terms.store.known();
    let whole = terms.store.compound(name, arguments)?;
    Ok(whole)
}

/// A compound with this name.
pub(crate) fn build<C>(terms: &mut Terms<C>, name: &[u8], arguments: &[Cell]) -> Result<Cell, Want>
    requires terms { AreTerms terms.old }
    requires some { 1 ≤ length arguments.now }
    requires few { length arguments.now ≤ 255 }
    requires valid { All (IsBuilt terms.old) arguments.now }
    ensures grown { OnOk result (IsGrown terms.old terms.new) }
    ensures cell { IfOk result (IsBuilt terms.new) }
    ensures term { IfOk result (λ c. built terms.new c ≡ compound name.now (trees_of (built terms.old) arguments.now)) }
    ensures err { OnErr result ((said terms.new).stack ≡ (said terms.old).stack) }
{
    let number = word(terms, name)?;
    compound_of(terms, number, arguments)
}

/// The goal `call(G)`.
pub(crate) fn call_goal<C>(terms: &mut Terms<C>, goal: Cell) -> Result<Cell, Want>
    requires terms { AreTerms terms.old }
    requires goal { IsBuilt terms.old goal }
    ensures grown { OnOk result (IsGrown terms.old terms.new) }
    ensures cell { IfOk result (IsBuilt terms.new) }
    ensures term { IfOk result (λ c. built terms.new c ≡ call_term (built terms.old goal)) }
    ensures err { OnErr result ((said terms.new).stack ≡ (said terms.old).stack) }
{
    build(terms, b"call", &[goal])
}

/// The goal `(call(G) -> true)`.
pub(crate) fn once_goal<C>(terms: &mut Terms<C>, goal: Cell) -> Result<Cell, Want>
    requires terms { AreTerms terms.old }
    requires goal { IsBuilt terms.old goal }
    ensures grown { OnOk result (IsGrown terms.old terms.new) }
    ensures cell { IfOk result (IsBuilt terms.new) }
    ensures term { IfOk result (λ c. built terms.new c ≡ two (codes "->") (call_term (built terms.old goal)) (atom (codes "true"))) }
    ensures err { OnErr result ((said terms.new).stack ≡ (said terms.old).stack) }
{
    let called = call_goal(terms, goal)?;
    let truth = word(terms, b"true")?;
    build(terms, b"->", &[called, Cell::Atom(truth)])
}

/// A goal with arguments added.
pub(crate) enum Added {
    /// The goal is unbound.
    Unbound,
    /// It would have more than 255 arguments.
    TooMany,
    /// The goal with the arguments; an integer takes none.
    Made(Cell),
}

/// Adds up to seven arguments to a goal, behind its own.
pub(crate) fn add<C>(
    alloc: Global,
    terms: &mut Terms<C>,
    goal: Cell,
    added: &[Cell],
) -> Result<Added, Want>
    requires terms { AreTerms terms.old }
    requires goal { IsBuilt terms.old goal }
    requires added { All (IsBuilt terms.old) added.now }
    requires few { length added.now < 8 }
    ensures grown { OnOk result (IsGrown terms.old terms.new) }
    ensures added { IfOk result (IsAdded (built terms.old goal) (trees_of (built terms.old) added.now) terms.new) }
    ensures err { OnErr result ((said terms.new).stack ≡ (said terms.old).stack) }
{
    terms.store.known();
    match terms.store.look(goal) {
        View::Variable(_) => Ok(Added::Unbound),
        View::Integer(_) => Ok(Added::Made(goal)),
        View::Atom(name) => {
            if added.is_empty() {
                return Ok(Added::Made(goal));
            }
            let made = compound_of(terms, name, added)?;
            Ok(Added::Made(made))
        }
        View::Compound(name, arguments) => {
            if arguments.len() + added.len() > 255 {
                return Ok(Added::TooMany);
            }
            if added.is_empty() {
                return Ok(Added::Made(goal));
            }
            let all = both(alloc, arguments, added)?;
            let made = compound_of(terms, name, all.as_slice())?;
            Ok(Added::Made(made))
        }
    }
}

/// The one cells, and then the others.
fn both(alloc: Global, left: &[Cell], right: &[Cell]) -> Result<Vec<Cell>, Want>
    ensures { IfOk result (λ all. all.items ≡ left.now ++ right.now) }
{
    let mut all = Vec::new(alloc);
    all.extend_from_slice(left)?;
    all.extend_from_slice(right)?;
    Ok(all)
}
