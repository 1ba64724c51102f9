// The store of terms.
ghost use Rattle.std.specs.Prelude.{◌≡◌, ℕ, ◌<◌, ◌≤◌, ◌+◌, ◌^◌, ◌++◌, ◌∷◌, [], List, None, All, length, IfOk, OnOk, OnErr, IsTrue};
ghost use Rattle.prolog_terms.specs.Substitutions.{substituted, occurs};

use crate::bound::Bound;
use crate::heap::Heap;
use crate::{Cell, Trailed, View};
use prolog_terms::Want;
use std::alloc::Global;
use std::marker::Model;

/// The terms of an engine: compounds, variables and their bindings. Variables are numbered from 0 on in the order in
/// which they were made, and a number is never given again.
#[derive(Drop)]
pub struct Store {
    heap: Heap,
    bound: Bound,
    variables: u64,
    alloc: Global,
}

impl Model for Store {
    ghost use Rattle.term_store.specs.Shape.{Shape, shape_code};

    ghost Value = { Shape };

    ghost coded = { shape_code };

    ghost use Rattle.term_store.specs.Terms.{IsShape};

    ghost view = { λ s. record { compounds = s.heap; bindings = s.bound; variables = s.variables } };

    ghost invariant = { λ s. IsShape (record { compounds = s.heap; bindings = s.bound; variables = s.variables }) };
}

impl Store {
    ghost use Rattle.term_store.specs.Terms.{raw, raw_by, bindings_by, resolved, row_at, text, lookup, IsCell, IsShape, IsOlder};
    ghost use Rattle.term_store.specs.Later.{mark_of, back, CanGoBack};
    ghost use Rattle.term_store.specs.Views.{Sees, tree_of};

    /// A store with no terms.
    pub fn new(alloc: Global) -> Store
        ensures { result ≡ record { compounds = []; bindings = []; variables = 0 } }
    {
        Store {
            heap: Heap::new(alloc),
            bound: Bound::new(alloc),
            variables: 0,
            alloc,
        }
    }

    /// What it shows is always well formed.
    pub fn known(&self)
        ensures { IsShape self.now }
    {
        let _ = &self.variables;
    }

    /// The numbers of variables are numbers of the machine.
    pub(crate) fn fits(&self)
        ensures { self.now.variables < 2 ^ 64 }
    {
        let _ = self.variables();
    }

    /// How many variables there are: their numbers are those below.
    pub fn variables(&self) -> u64
        ensures { result ≡ self.now.variables }
    {
        self.variables
    }

    /// Where its memory comes from.
    pub(crate) fn allocator(&self) -> Global {
        self.alloc
    }

    /// So many new variables, free ones; the answer is the number of the first. Want is answered too where numbers run
    /// out.
    pub fn fresh(&mut self, count: u64) -> Result<u64, Want>
        ensures first { IfOk result (λ n. n ≡ self.old.variables) }
        ensures ok { OnOk result (self.new ≡ record self.old { variables = self.old.variables + count }) }
        ensures err { OnErr result (self.new ≡ self.old) }
    {
        let first = self.variables;
        match first.checked_add(count) {
            Some(all) => {
                self.variables = all;
                Ok(first)
            }
            None => Err(Want),
        }
    }

    /// A new compound of 1 to 255 cells that are there, with the name of this number.
    pub fn compound(&mut self, name: u64, args: &[Cell]) -> Result<Cell, Want>
        requires some { 1 ≤ length args.now }
        requires few { length args.now ≤ 255 }
        requires valid { All (IsCell self.old) args.now }
        ensures cell { IfOk result (λ c. c ≡ Cell.Compound (length self.old.compounds)) }
        ensures ok { OnOk result (self.new ≡ record self.old { compounds = self.old.compounds ++ (name, args.now) ∷ [] }) }
        ensures err { OnErr result (self.new ≡ self.old) }
    {
        let at = self.heap.count();
        self.heap.push(name, args)?;
        Ok(Cell::Compound(at))
    }

    /// What stands at a cell, without following a binding.
    pub fn node(&self, cell: Cell) -> View
        requires { IsCell self.now cell }
        ensures sees { Sees self.now cell result }
        ensures raw { (texts : List (List ℕ)) → raw texts self.now cell ≡ tree_of (text texts) (raw texts self.now) result }
    {
        self.known();
        self.see(cell)
    }

    fn see(&self, cell: Cell) -> View
        requires { IsCell self.now cell }
        ensures { Sees self.now cell result }
    {
        match cell {
            Cell::Variable(number) => View::Variable(number),
            Cell::Integer(value) => View::Integer(value),
            Cell::Atom(name) => View::Atom(name),
            Cell::Compound(at) => {
                let (name, args) = self.heap.row(at);
                View::Compound(name, args)
            }
        }
    }

    /// The name and the arguments of the compound at this place.
    pub(crate) fn row(&self, at: u64) -> (u64, &[Cell])
        requires { at < length self.now.compounds }
        ensures { row_at self.now.compounds at ≡ (result.0, result.1.now) }
    {
        self.heap.row(at)
    }

    /// What a variable is bound to.
    pub(crate) fn slot(&self, variable: u64) -> Option<Cell>
        ensures slot { result ≡ lookup self.now.bindings variable }
        ensures formed { IsShape self.now }
    {
        self.bound.get(variable)
    }

    /// Binds a free variable to a cell that doesn't lead back to it and is no younger variable.
    pub(crate) fn bind(&mut self, variable: u64, cell: Cell) -> Result<(), Want>
        requires inside { variable < self.old.variables }
        requires valid { IsCell self.old cell }
        requires free { lookup self.old.bindings variable ≡ None }
        requires older { IsOlder variable cell }
        requires absent { (name : ℕ → List ℕ) → ¬ IsTrue (occurs variable (substituted (resolved (bindings_by name self.old.compounds self.old.bindings)) (raw_by name self.old.compounds cell))) }
        ensures ok { OnOk result (self.new ≡ record self.old { bindings = (variable, cell) ∷ self.old.bindings }) }
        ensures err { OnErr result (self.new ≡ self.old) }
    {
        self.bound.bind(variable, cell)?;
        Ok(())
    }

    /// This moment, to go back to.
    pub fn mark(&self) -> Trailed
        ensures mark { result ≡ mark_of self.now }
        ensures can { CanGoBack result self.now }
        ensures same { back result self.now ≡ self.now }
    {
        Trailed {
            bindings: self.bound.count(),
            compounds: self.heap.count(),
        }
    }

    /// Back to a mark: bindings that were made since are undone, and compounds that were made since are gone.
    pub fn undo_to(&mut self, mark: Trailed)
        requires { CanGoBack mark self.old }
        ensures { self.new ≡ back mark self.old }
    {
        self.bound.cut(mark.bindings);
        self.heap.cut(mark.compounds);
    }

    /// Back to a mark, and to a count of variables: what was made since is gone.
    pub(crate) fn restore(&mut self, mark: Trailed, variables: u64)
        requires can { CanGoBack mark self.old }
        requires formed { IsShape (record (back mark self.old) { variables = variables }) }
        ensures { self.new ≡ record (back mark self.old) { variables = variables } }
    {
        self.undo_to(mark);
        self.variables = variables;
    }
}
