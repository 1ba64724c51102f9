// The first terms of a run, and its answers' values.
ghost use Rattle.std.specs.Prelude.{◌≡◌, ◌<◌, IfOk, OnOk, OnErr, All, Some, [], ◌∷◌, length, slice_get, codes};
ghost use Rattle.prolog_terms.specs.Tree.{atom};
ghost use Rattle.prolog_terms.specs.Substitutions.{substituted, numbered, beyond};
ghost use Rattle.term_store.specs.Terms.{raw, meaning, HasTerm, AreNamed};
ghost use Rattle.term_store.specs.Later.{IsLater, AreLonger, AreDistinct};
ghost use Rattle.wam_machine.specs.Beyond.{beyond_node as beyond_in};
ghost use Rattle.wam_machine.specs.States.{Do};
ghost use Rattle.wam_machine.specs.Machine.{shown_list};
ghost use Rattle.wam_machine.specs.Control.{first_body};
ghost use Rattle.wam_machine.specs.Terms.{AreTerms, IsBuilt, IsGoal, IsGrown, said, built};
ghost use Rattle.wam_machine.specs.Runs.{AreShown};
ghost use Rattle.wam_machine.specs.View.{said_at_first};

use crate::bodies::body;
use crate::build::call_goal;
use crate::goals::push_next;
use crate::run::Goal;
use crate::terms::{Next, Terms, let_go};
use prolog_terms::{Names, Node, Shown, Term, Want};
use std::alloc::Global;
use term_store::{Cell, Store};

/// The terms of a run before its first move: the goal, made a body, is still to be done, or `call` of it where it can't be
/// one; and its shown variables are a list.
pub(crate) fn begin<C>(alloc: Global, goal: &Goal) -> Result<Terms<C>, Want>
    requires shown { AreShown goal.now }
    ensures terms { IfOk result AreTerms }
    ensures said { IfOk result (λ t. said t ≡ said_at_first goal.now) }
{
    let mut store = Store::new(alloc);
    let mut names = Names::new(alloc);
    let beyond = beyond_of(&goal.term)?;
    let _first = store.fresh(beyond)?;
    let first = store.put(&mut names, &goal.term, 0)?;
    store.known();
    let shown = list_of(&mut store, &mut names, goal.shown.items())?;
    let mut terms = begun(alloc, store, names, shown);
    match begin_with(alloc, &mut terms, first) {
        Ok(()) => Ok(terms),
        Err(want) => {
            let_go(terms);
            Err(want)
        }
    }
}

/// Puts a goal, as it is run at first, before what is still to be done.
fn begin_with<C>(alloc: Global, terms: &mut Terms<C>, goal: Cell) -> Result<(), Want>
    requires terms { AreTerms terms.old }
    requires goal { IsBuilt terms.old goal }
    ensures terms { OnOk result (AreTerms terms.new) }
    ensures said { OnOk result (said terms.new ≡ record (said terms.old) { goals = Do (first_body (built terms.old goal)) 0 ∷ (said terms.old).goals }) }
    ensures err { OnErr result ((said terms.new).stack ≡ (said terms.old).stack) }
{
    let first = first_goal(alloc, terms, goal)?;
    push_next(terms, Next::Do(first, 0))
}

/// Terms with nothing to be done yet, whose shown term is this.
fn begun<C>(alloc: Global, store: Store, names: Names, shown: Cell) -> Terms<C>
    requires distinct { AreDistinct names }
    requires named { AreNamed (length names) store }
    requires shown { HasTerm (length names) store shown }
    ensures terms { AreTerms result }
    ensures store { result.store ≡ store }
    ensures names { result.names ≡ names }
    ensures said { said result ≡ record {
      goals = [];
      bindings = meaning names store;
      fresh = store.variables;
      shown = raw names store shown;
      stack = [];
    } }
{
    Terms {
        store,
        names,
        shown,
        frames: Vec::new(alloc),
        next: 0,
        choices: Vec::new(alloc),
    }
}

/// The body as which a goal is run at first.
fn first_goal<C>(alloc: Global, terms: &mut Terms<C>, goal: Cell) -> Result<Cell, Want>
    requires terms { AreTerms terms.old }
    requires goal { IsBuilt terms.old goal }
    ensures grown { OnOk result (IsGrown terms.old terms.new) }
    ensures goal { IfOk result (IsGoal terms.new) }
    ensures first { IfOk result (λ c. built terms.new c ≡ first_body (built terms.old goal)) }
    ensures err { OnErr result ((said terms.new).stack ≡ (said terms.old).stack) }
{
    match body(alloc, terms, goal)? {
        Some(made) => Ok(made),
        None => call_goal(terms, goal),
    }
}

/// A number above each variable of a term. Want is answered too where no number is.
pub(crate) fn beyond_of(term: &Term) -> Result<u64, Want>
    ensures { IfOk result (λ n. n ≡ beyond term.now) }
{
    let nodes = term.nodes();
    let mut beyond = 0u64;
    for node in nodes {
        beyond = beyond.max(beyond_node(node)?);
    }
    Ok(beyond)
}

/// A number above a node's variable, if it is one.
fn beyond_node(node: &Node) -> Result<u64, Want>
    ensures { IfOk result (λ n. n ≡ beyond_in node.now) }
{
    match node {
        Node::Var(number) => number.checked_add(1).ok_or(Want),
        _ => Ok(0),
    }
}

/// The list of these variables. At Want some of it may stand in the store.
fn list_of(store: &mut Store, names: &mut Names, shown: &[Shown]) -> Result<Cell, Want>
    requires named { AreNamed (length names.old) store.old }
    requires shown { All (λ s. s.var < store.old.variables) shown.now }
    ensures later { IsLater store.old store.new }
    ensures bindings { store.new.bindings ≡ store.old.bindings }
    ensures variables { store.new.variables ≡ store.old.variables }
    ensures texts { AreLonger names.old names.new }
    ensures distinct { AreDistinct names.new }
    ensures named { AreNamed (length names.new) store.new }
    ensures cell { IfOk result (HasTerm (length names.new) store.new) }
    ensures term { IfOk result (λ c. raw names.new store.new c ≡ shown_list shown.now) }
{
    let dot = names.intern(b".".as_slice())?;
    let end = names.intern(b"[]".as_slice())?;
    list_with(store, names, dot, Cell::Atom(end), shown)
}

/// The list of these variables, by the number of its functor and a cell for its end, from the last to the first.
fn list_with(
    store: &mut Store,
    names: &Names,
    dot: u64,
    end: Cell,
    shown: &[Shown],
) -> Result<Cell, Want>
    requires named { AreNamed (length names.now) store.old }
    requires dot { slice_get names.now dot ≡ Some (codes ".") }
    requires end { HasTerm (length names.now) store.old end }
    requires empty { raw names.now store.old end ≡ atom (codes "[]") }
    requires shown { All (λ s. s.var < store.old.variables) shown.now }
    ensures later { IsLater store.old store.new }
    ensures bindings { store.new.bindings ≡ store.old.bindings }
    ensures variables { store.new.variables ≡ store.old.variables }
    ensures named { AreNamed (length names.now) store.new }
    ensures cell { IfOk result (HasTerm (length names.now) store.new) }
    ensures term { IfOk result (λ c. raw names.now store.new c ≡ shown_list shown.now) }
{
    // The contract speaks of it.
    let _names = names;
    let mut list = end;
    let mut left = shown.len();
    while left > 0 {
        left -= 1;
        store.known();
        list = store.compound(dot, &[Cell::Variable(shown[left].var), list])?;
    }
    Ok(list)
}

/// The value of the shown term, with its variables numbered from 0 by first occurrence.
pub(crate) fn values<C>(terms: &Terms<C>) -> Result<Term, Want>
    requires { AreTerms terms.now }
    ensures { IfOk result (λ t. t ≡ numbered (substituted (said terms.now).bindings (said terms.now).shown)) }
{
    terms.store.read_back(&terms.names, terms.shown)
}
