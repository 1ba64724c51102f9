// Cells in the standard order of terms.
ghost use Rattle.std.specs.Prelude.{◌≡◌, ◌++◌, length, reverse, IsTrue, IfOk, OnOk};
ghost use Rattle.prolog_terms.specs.Order.{standard_order};
ghost use Rattle.term_store.specs.Terms.{text};
ghost use Rattle.term_store.specs.Work.{pairs_of};
ghost use Rattle.term_store.specs.Compares.{kind, view_order, args_of, IsNamedView};

use crate::solve::Pair;
use crate::store::Store;
use crate::{Cell, View};
use prolog_terms::{Names, Want};
use std::cmp::Ordering;

impl Store {
    ghost use Rattle.term_store.specs.Terms.{term_of, HasTerm, AreNamed};
    ghost use Rattle.term_store.specs.Compares.{IsCompared};

    /// The standard order of what two cells stand for (ISO/IEC 13211-1, 7.2), where variables go by their numbers, so
    /// the older first. It is Equal exactly where the two stand for one term. Two cells that lead to the same compound
    /// are equal without a walk; apart from that the time is linear in the terms as unfolded, up to where they differ:
    /// parts that stand there more than once are compared as often.
    pub fn compare_cells(&self, names: &Names, left: Cell, right: Cell) -> Result<Ordering, Want>
        requires named { AreNamed (length names.now) self.now }
        requires left { HasTerm (length names.now) self.now left }
        requires right { HasTerm (length names.now) self.now right }
        ensures { IfOk result (λ o. o ≡ standard_order (term_of names.now self.now left) (term_of names.now self.now right)) }
    {
        let mut todo = Vec::new(self.allocator());
        todo.push(Pair { left, right })?;
        while let Some(pair) = todo.pop() {
            let found = self.compare_pair(names, &mut todo, pair)?;
            if found.is_ne() {
                return Ok(found);
            }
        }
        Ok(Ordering::Equal)
    }

    /// Compares two cells up to their arguments. Where these decide, their pairs go to what is to do, the first of them
    /// last.
    fn compare_pair(
        &self,
        names: &Names,
        todo: &mut Vec<Pair>,
        pair: Pair,
    ) -> Result<Ordering, Want>
        requires named { AreNamed (length names.now) self.now }
        requires left { HasTerm (length names.now) self.now pair.left }
        requires right { HasTerm (length names.now) self.now pair.right }
        ensures { IfOk result (λ o. IsCompared names.now self.now pair.left pair.right todo.old.items todo.new.items o) }
    {
        self.known();
        let left = self.deref(pair.left);
        let right = self.deref(pair.right);
        if are_one(left, right) {
            return Ok(Ordering::Equal);
        }
        let first = self.node(left);
        let second = self.node(right);
        let found = compare_views(names, first, second);
        if found.is_ne() {
            return Ok(found);
        }
        push_pairs_back(todo, args(first), args(second))?;
        Ok(Ordering::Equal)
    }
}

/// Whether two cells are the same one.
fn are_one(left: Cell, right: Cell) -> bool
    ensures { IsTrue result → left ≡ right }
{
    match (left, right) {
        (Cell::Variable(number), Cell::Variable(other)) => number == other,
        (Cell::Integer(value), Cell::Integer(other)) => value == other,
        (Cell::Atom(name), Cell::Atom(other)) => name == other,
        (Cell::Compound(at), Cell::Compound(other)) => at == other,
        _ => false,
    }
}

fn compare_views(names: &Names, left: View, right: View) -> Ordering
    requires left { IsNamedView (length names.now) left }
    requires right { IsNamedView (length names.now) right }
    ensures { result ≡ view_order (text names.now) left.entry right.entry }
{
    match (left, right) {
        (View::Variable(number), View::Variable(other)) => number.cmp(&other),
        (View::Integer(value), View::Integer(other)) => value.cmp(&other),
        (View::Atom(name), View::Atom(other)) => names.text(name).cmp(names.text(other)),
        (View::Compound(name, args), View::Compound(other, others)) => {
            let by_arity = args.len().cmp(&others.len());
            by_arity.then(names.text(name).cmp(names.text(other)))
        }
        _ => kind_of(left).cmp(&kind_of(right)),
    }
}

fn kind_of(view: View) -> u8
    ensures { result ≡ kind view.entry }
{
    match view {
        View::Variable(_) => 0,
        View::Integer(_) => 1,
        View::Atom(_) => 2,
        View::Compound(_, _) => 3,
    }
}

fn args(view: View) -> &[Cell]
    ensures { result.now ≡ args_of view.entry }
{
    match view {
        View::Compound(_, args) => args,
        _ => &[],
    }
}

/// Appends the pairs of two rows, as far as both go, the first of them last.
fn push_pairs_back(todo: &mut Vec<Pair>, left: &[Cell], right: &[Cell]) -> Result<(), Want>
    ensures { OnOk result (reverse todo.new.items ≡ pairs_of left.now right.now ++ reverse todo.old.items) }
{
    let mut at = left.len().min(right.len());
    while at > 0 {
        at -= 1;
        todo.push(Pair {
            left: left[at],
            right: right[at],
        })?;
    }
    Ok(())
}
