// Terms into a store.
ghost use Rattle.std.specs.Prelude.{◌≡◌, ℕ, List, ◌≤◌, ◌+◌, ◌++◌, length, reverse, All, IfOk, OnOk, OnErr};
ghost use Rattle.prolog_terms.specs.Tree.{Trees, variable, none, more, count};
ghost use Rattle.prolog_terms.specs.Substitutions.{substituted, all_substituted, beyond};
ghost use Rattle.prolog_terms.specs.Flat.{forest, joined};

use crate::Cell;
use crate::store::Store;
use prolog_terms::{Name, Names, Node, Term, Want};
use std::alloc::Global;

impl Store {
    ghost use Rattle.term_store.specs.Terms.{raw, HasTerm, AreNamed};
    ghost use Rattle.term_store.specs.Later.{IsLater, IsTakenBack, AreLonger, AreDistinct};
    ghost use Rattle.term_store.specs.Puts.{shifted, placed, IsFit, AreFit, Grows, AreCells};

    /// A cell of the term, whose variable n is the store's variable from + n; its texts get numbers. At Want some of
    /// its compounds may stand in the store, which going back to any earlier mark takes away, and some of its texts may
    /// have got numbers. The time is linear in the term.
    pub fn put(&mut self, names: &mut Names, term: &Term, from: u64) -> Result<Cell, Want>
        requires variables { from + beyond term.now ≤ self.old.variables }
        requires named { AreNamed (length names.old) self.old }
        ensures later { IsLater self.old self.new }
        ensures bindings { self.new.bindings ≡ self.old.bindings }
        ensures variables { self.new.variables ≡ self.old.variables }
        ensures texts { AreLonger names.old names.new }
        ensures distinct { AreDistinct names.new }
        ensures named { AreNamed (length names.new) self.new }
        ensures cell { IfOk result (λ c. HasTerm (length names.new) self.new c) }
        ensures term { IfOk result (λ c. raw names.new self.new c ≡ substituted (λ n. variable (from + n)) term.now) }
        ensures want { OnErr result (IsTakenBack self.old self.new) }
    {
        let _ = names.count();
        self.put_nodes(names, term.nodes(), from)
    }

    /// Puts the term of these nodes, its variables from a number on.
    pub(crate) fn put_nodes(
        &mut self,
        names: &mut Names,
        nodes: &[Node],
        from: u64,
    ) -> Result<Cell, Want>
        requires one { count (forest nodes.now) ≡ 1 }
        requires fit { AreFit self.old.variables from nodes.now }
        requires named { AreNamed (length names.old) self.old }
        ensures grows { Grows self.old names.old self.new names.new }
        ensures cell { IfOk result (λ c. HasTerm (length names.new) self.new c) }
        ensures term { IfOk result (λ c. more (raw names.new self.new c) none ≡ all_substituted (shifted from) (forest nodes.now)) }
    {
        let mut stack = Vec::new(self.allocator());
        let mut at = nodes.len();
        while at > 0 {
            at -= 1;
            self.put_node(names, &mut stack, &nodes[at], from)?;
        }
        match stack.pop() {
            Some(cell) => Ok(cell),
            None => unreachable!(),
        }
    }

    /// Puts one node, before those whose cells the stack has.
    fn put_node(
        &mut self,
        names: &mut Names,
        stack: &mut Vec<Cell>,
        node: &Node,
        from: u64,
    ) -> Result<(), Want>
        requires fit { IsFit self.old.variables from (length stack.old.items) node.now }
        requires cells { All (HasTerm (length names.old) self.old) (reverse stack.old.items) }
        requires named { AreNamed (length names.old) self.old }
        ensures grows { Grows self.old names.old self.new names.new }
        ensures cells { OnOk result ((ts : Trees) → AreCells self.old names.old stack.old.items ts → AreCells self.new names.new stack.new.items (placed from node.now ts)) }
    {
        self.known();
        self.fits();
        match node {
            Node::Var(number) => {
                stack.push(Cell::Variable(from + *number))?;
                Ok(())
            }
            Node::Int(value) => {
                stack.push(Cell::Integer(*value))?;
                Ok(())
            }
            Node::Atom(name) => {
                let number = names.intern(name.bytes())?;
                stack.push(Cell::Atom(number))?;
                Ok(())
            }
            Node::Functor(name, arity) => self.put_compound(names, stack, name, *arity),
        }
    }

    /// Puts a compound whose arguments are the last cells of the stack, the first of them last.
    fn put_compound(
        &mut self,
        names: &mut Names,
        stack: &mut Vec<Cell>,
        name: &Name,
        arity: u32,
    ) -> Result<(), Want>
        requires some { 1 ≤ arity }
        requires few { arity ≤ 255 }
        requires there { arity ≤ length stack.old.items }
        requires named { AreNamed (length names.old) self.old }
        requires cells { All (HasTerm (length names.old) self.old) (reverse stack.old.items) }
        ensures grows { Grows self.old names.old self.new names.new }
        ensures cells { OnOk result ((ts : Trees) → AreCells self.old names.old stack.old.items ts → AreCells self.new names.new stack.new.items (joined name.now arity ts)) }
    {
        self.known();
        let number = names.intern(name.bytes())?;
        let row = take_row(self.allocator(), stack, arity)?;
        let cell = self.compound(number, row.as_slice())?;
        stack.push(cell)?;
        Ok(())
    }
}

/// The last cells of a stack, the last one first, which are taken off it.
pub(crate) fn take_row(alloc: Global, stack: &mut Vec<Cell>, count: u32) -> Result<Vec<Cell>, Want>
    requires { count ≤ length stack.old.items }
    ensures row { IfOk result (λ row. reverse stack.old.items ≡ row.items ++ reverse stack.new.items) }
    ensures count { IfOk result (λ row. length row.items ≡ count) }
{
    let mut row = Vec::new(alloc);
    for _ in 0..count {
        if let Some(cell) = stack.pop() {
            row.push(cell)?;
        }
    }
    Ok(row)
}
