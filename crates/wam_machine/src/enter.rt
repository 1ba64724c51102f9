// Terms that are made one, and clauses that are entered.
ghost use Rattle.std.specs.Prelude.{◌≡◌, ◌+◌, ◌≤◌, ◌++◌, IfOk, OnOk, OnErr, IsTrue, IsFalse, true, None, [], length, map};
ghost use Rattle.prolog_terms.specs.Clauses.{IsClause, is_body};
ghost use Rattle.prolog_terms.specs.Substitutions.{renamed, beyond, substituted};
ghost use Rattle.term_unifier.specs.Unifier.{unifier};
ghost use Rattle.term_store.specs.Terms.{AreNamed};
ghost use Rattle.term_store.specs.Later.{IsLater, AreDistinct, AreLonger};
ghost use Rattle.wam_machine.specs.Control.{is_true_atom, body_goals};
ghost use Rattle.wam_machine.specs.States.{Do};
ghost use Rattle.wam_machine.specs.Terms.{AreTerms, IsBuilt, IsOfUse, KeepsBound, KeepsCells, said, built, use_of, AreEquated, IsEntered, IsCompared};

use crate::goals::push_next;
use crate::terms::{Next, Terms, Use};
use prolog_terms::{Clause, Node, Term, Want};
use term_store::Cell;

/// Makes two terms one, by the most general unifier of what they stand for. Where there is none, no variable is bound.
pub(crate) fn equate<C>(terms: &mut Terms<C>, left: Cell, right: Cell) -> Result<bool, Want>
    requires terms { AreTerms terms.old }
    requires left { IsBuilt terms.old left }
    requires right { IsBuilt terms.old right }
    ensures terms { OnOk result (AreTerms terms.new) }
    ensures names { terms.new.names ≡ terms.old.names }
    ensures cells { OnOk result (KeepsBound (unifier (built terms.old left) (built terms.old right)) terms.old terms.new) }
    ensures equated { IfOk result (AreEquated (built terms.old left) (built terms.old right) [] (said terms.old) (said terms.new)) }
    ensures err { OnErr result ((said terms.new).stack ≡ (said terms.old).stack) }
{
    let mark = terms.store.mark();
    if terms.store.unify(left, right)? {
        return Ok(true);
    }
    terms.store.undo_to(mark);
    Ok(false)
}

/// Tries a clause by a call: its variables are new ones, and its head and the goal are made one. Where the clause is entered its
/// body's goals come before what is still to be done, with a cut that goes back to a height; else its body and the call's are
/// made one too. Where the two sides have no unifier, no variable is bound.
pub(crate) fn enter<C>(
    terms: &mut Terms<C>,
    used: Use,
    goal: Cell,
    clause: &Clause,
    cut: usize,
) -> Result<bool, Want>
    requires terms { AreTerms terms.old }
    requires goal { IsBuilt terms.old goal }
    requires used { IsOfUse (IsBuilt terms.old) used }
    requires clause { IsClause clause.now }
    ensures terms { OnOk result (AreTerms terms.new) }
    ensures entered { IfOk result (IsEntered (use_of (built terms.old) used) (built terms.old goal) clause.now cut (said terms.old) (said terms.new)) }
    ensures err { OnErr result ((said terms.new).stack ≡ (said terms.old).stack) }
{
    terms.store.known();
    let mark = terms.store.mark();
    let from = terms.store.variables();
    if !terms
        .store
        .unify_new(&mut terms.names, &clause.head, clause.vars, goal)?
    {
        terms.store.undo_to(mark);
        return Ok(false);
    }
    match used {
        Use::Enter => {
            push_body(terms, &clause.body, from, cut)?;
            Ok(true)
        }
        Use::Match(_, body) => {
            if !unify_body(terms, &clause.body, from, body)? {
                terms.store.undo_to(mark);
                return Ok(false);
            }
            Ok(true)
        }
    }
}

/// Makes a clause's body, as it is bound by now, and a cell one. Where they have no unifier, bindings may have been made.
fn unify_body<C>(terms: &mut Terms<C>, body: &Term, from: u64, cell: Cell) -> Result<bool, Want>
    requires terms { AreTerms terms.old }
    requires cell { IsBuilt terms.old cell }
    requires room { from + beyond body.now ≤ terms.old.store.variables }
    ensures names { AreLonger terms.old.names terms.new.names }
    ensures distinct { AreDistinct terms.new.names }
    ensures named { AreNamed (length terms.new.names) terms.new.store }
    ensures later { IsLater terms.old.store terms.new.store }
    ensures variables { terms.new.store.variables ≡ terms.old.store.variables }
    ensures same { terms.new ≡ record terms.old { names = terms.new.names; store = terms.new.store } }
    ensures met { IfOk result (λ yes. IsTrue yes → AreTerms terms.new × AreEquated (substituted (said terms.old).bindings (renamed from body.now)) (built terms.old cell) [] (said terms.old) (said terms.new) true) }
    ensures refused { IfOk result (λ yes. IsFalse yes → unifier (substituted (said terms.old).bindings (renamed from body.now)) (built terms.old cell) ≡ None) }
{
    terms.store.known();
    let whole = terms.store.put(&mut terms.names, body, from)?;
    terms.store.known();
    terms.store.unify(whole, cell)
}

/// Whether a clause's head and a goal have a unifier; nothing is bound. The clause's variables are new ones.
pub(crate) fn compare<C>(terms: &mut Terms<C>, goal: Cell, clause: &Clause) -> Result<bool, Want>
    requires terms { AreTerms terms.old }
    requires goal { IsBuilt terms.old goal }
    requires clause { IsClause clause.now }
    ensures terms { OnOk result (AreTerms terms.new) }
    ensures names { OnOk result (AreLonger terms.old.names terms.new.names) }
    ensures compared { IfOk result (IsCompared (built terms.old goal) clause.now (said terms.old) (said terms.new)) }
    ensures cells { OnOk result (KeepsCells terms.old terms.new) }
    ensures err { OnErr result ((said terms.new).stack ≡ (said terms.old).stack) }
{
    terms.store.known();
    let mark = terms.store.mark();
    let met = terms
        .store
        .unify_new(&mut terms.names, &clause.head, clause.vars, goal)?;
    terms.store.undo_to(mark);
    Ok(met)
}

/// Puts a clause's body, as it is bound by now, before what is still to be done; a body that is `true` alone has no goal.
fn push_body<C>(terms: &mut Terms<C>, body: &Term, from: u64, cut: usize) -> Result<(), Want>
    requires terms { AreTerms terms.old }
    requires body { IsTrue (is_body body.now) }
    requires room { from + beyond body.now ≤ terms.old.store.variables }
    ensures terms { OnOk result (AreTerms terms.new) }
    ensures said { OnOk result (said terms.new ≡ record (said terms.old) {
      goals = map (λ goal. Do (substituted (said terms.old).bindings (renamed from goal)) cut) (body_goals body.now) ++ (said terms.old).goals;
    }) }
    ensures err { OnErr result ((said terms.new).stack ≡ (said terms.old).stack) }
{
    terms.store.known();
    if is_true(body) {
        return Ok(());
    }
    let goal = terms.store.put(&mut terms.names, body, from)?;
    push_next(terms, Next::Do(goal, cut))
}

/// Whether it is the atom `true`.
fn is_true(term: &Term) -> bool
    ensures { result ≡ is_true_atom term.now }
{
    match term.nodes().first() {
        Some(Node::Atom(name)) => name.bytes() == b"true".as_slice(),
        _ => false,
    }
}
