// The bindings of a store.
ghost use Rattle.std.specs.Prelude.{◌≡◌, ◌≤◌, ◌-◌, ◌∷◌, [], None, length, drop, OnOk, OnErr};
ghost use Rattle.term_store.specs.Terms.{lookup};

use crate::Cell;
use prolog_terms::Want;
use std::alloc::Global;
use std::collections::BTreeMap;
use std::marker::Model;

/// What each variable is bound to, and the bound variables in the order in which they were bound.
#[derive(Drop)]
pub(crate) struct Bound {
    slots: BTreeMap<u64, Cell>,
    trail: Vec<u64>,
}

impl Model for Bound {
    ghost use Rattle.std.specs.Prelude.{ℕ, List};
    ghost use Rattle.term_store.specs.declared.cell.Cell.{Cell};

    ghost Value = { List (ℕ × Cell) };

    ghost use Rattle.term_store.specs.Inside.{slot, trailed, AreKept};

    ghost view = { λ b. trailed (slot b.slots) b.trail.items };

    ghost invariant = { λ b. AreKept (slot b.slots) (trailed (slot b.slots) b.trail.items) };
}

impl Bound {
    pub fn new(alloc: Global) -> Bound
        ensures { result ≡ [] }
    {
        Bound {
            slots: BTreeMap::new(alloc),
            trail: Vec::new(alloc),
        }
    }

    pub fn count(&self) -> u64
        ensures { result ≡ length self.now }
    {
        self.trail.len() as u64
    }

    /// What the variable is bound to.
    pub fn get(&self, variable: u64) -> Option<Cell>
        ensures { result ≡ lookup self.now variable }
    {
        self.slots.get(&variable).copied()
    }

    /// Binds a variable that is free.
    pub fn bind(&mut self, variable: u64, cell: Cell) -> Result<(), Want>
        requires { lookup self.old variable ≡ None }
        ensures ok { OnOk result (self.new ≡ (variable, cell) ∷ self.old) }
        ensures err { OnErr result (self.new ≡ self.old) }
    {
        self.trail.reserve(1)?;
        self.slots.insert(variable, cell)?;
        self.trail.push(variable)?;
        Ok(())
    }

    /// The oldest so many bindings alone.
    pub fn cut(&mut self, count: u64)
        requires { count ≤ length self.old }
        ensures { self.new ≡ drop (length self.old - count) self.old }
    {
        while self.count() > count {
            self.unbind();
        }
    }

    /// One binding less.
    fn unbind(&mut self)
        requires { 1 ≤ length self.old }
        ensures { self.new ≡ drop 1 self.old }
    {
        if let Some(variable) = self.trail.pop() {
            self.slots.remove(&variable);
        }
    }
}
