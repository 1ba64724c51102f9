// A term of new variables that is made one with a cell, without building it.
ghost use Rattle.std.specs.Prelude.{◌≡◌, ℕ, ◌<◌, ◌≤◌, ◌+◌, ◌^◌, ◌∷◌, [], List, All, length, drop, reverse, IsTrue, IsFalse, IfOk, OnOk, OnErr, slice_range};
ghost use Rattle.prolog_terms.specs.Tree.{Tree, Trees, variable, integer, atom, compound, none, more, count};
ghost use Rattle.prolog_terms.specs.Flat.{forest, joined};
ghost use Rattle.prolog_terms.specs.Substitutions.{beyond, renamed, all_substituted};
ghost use Rattle.term_store.specs.Heads.{IsFront};
ghost use Rattle.term_store.specs.Puts.{AreFit};

use crate::Cell;
use crate::read::push_back;
use crate::store::Store;
use prolog_terms::{Name, Names, Node, Term, Want, Whole};

/// What is left to do where a term is made one with a cell: the number from which its variables go, the place among its
/// nodes, and the cells with which the terms from there on are made one, the first of them last.
#[derive(Drop)]
pub(crate) struct Matching {
    from: u64,
    at: usize,
    todo: Vec<Cell>,
}

impl Store {
    ghost use Rattle.term_store.specs.Terms.{raw, lookup, IsCell, HasTerm, AreNamed};
    ghost use Rattle.term_store.specs.Later.{IsLater, IsTakenBack, AreLonger, AreDistinct};
    ghost use Rattle.term_store.specs.Puts.{shifted};
    ghost use Rattle.term_store.specs.Heads.{IsMadeOne, CannotBeOne, IsFurther, Comes, Matches, stage, stage_with, left_at};

    /// Makes a term and what a cell stands for one, by their most general unifier. The term's variables are new ones: so
    /// many are made, and its variable n is the n-th of them. It is false where no substitution makes the two equal;
    /// bindings may have been made then too, as at Want, and are undone by going back to a mark. Want is answered too
    /// where numbers of variables run out. The term isn't built but where a compound of it meets a free variable. A
    /// variable that stands in the term for the first time is bound to what it meets without a look at it, since nothing
    /// refers to the variable yet.
    pub fn unify_new(
        &mut self,
        names: &mut Names,
        term: &Term,
        count: u64,
        cell: Cell,
    ) -> Result<bool, Want>
        requires variables { beyond term.now ≤ count }
        requires named { AreNamed (length names.old) self.old }
        requires valid { HasTerm (length names.old) self.old cell }
        ensures later { IsLater self.old self.new }
        ensures variables { OnOk result (self.new.variables ≡ self.old.variables + count) }
        ensures texts { AreLonger names.old names.new }
        ensures distinct { AreDistinct names.new }
        ensures named { AreNamed (length names.new) self.new }
        ensures made_one { IfOk result (λ yes. IsTrue yes → IsMadeOne names.new self.old self.new (renamed self.old.variables term.now) cell) }
        ensures refused { IfOk result (λ yes. IsFalse yes → CannotBeOne names.new self.old (renamed self.old.variables term.now) cell) }
        ensures want { OnErr result (IsTakenBack self.old self.new) }
    {
        self.known();
        let _ = names.count();
        let from = self.variables();
        match from.checked_add(count) {
            None => Err(Want),
            Some(all) => {
                let is_one = self.match_nodes(names, term.nodes(), from, cell)?;
                self.known();
                self.fresh(all - self.variables())?;
                Ok(is_one)
            }
        }
    }

    /// Makes the term of these nodes one with a cell.
    fn match_nodes(
        &mut self,
        names: &mut Names,
        nodes: &[Node],
        from: u64,
        cell: Cell,
    ) -> Result<bool, Want>
        requires one { count (forest nodes.now) ≡ 1 }
        requires fit { AreFit (2 ^ 64) from nodes.now }
        requires named { AreNamed (length names.old) self.old }
        requires valid { HasTerm (length names.old) self.old cell }
        ensures further { IsFurther self.old names.old self.new names.new }
        ensures within { (m : ℕ) → AreFit m from nodes.now → self.old.variables ≤ m → self.new.variables ≤ m }
        ensures comes { IfOk result (Comes (record { store = self.old; texts = names.old; terms = left_at from nodes.now 0; cells = cell ∷ [] }) (record { store = self.new; texts = names.new; terms = none; cells = [] })) }
    {
        self.known();
        let mut matching = Matching {
            from,
            at: 0,
            todo: Vec::new(self.allocator()),
        };
        matching.todo.push(cell)?;
        while let Some(next) = matching.todo.pop() {
            if !self.match_node(names, nodes, &mut matching, next)? {
                return Ok(false);
            }
        }
        Ok(true)
    }

    /// Makes the term at the next node one with a cell, or goes into both.
    fn match_node(
        &mut self,
        names: &mut Names,
        nodes: &[Node],
        matching: &mut Matching,
        cell: Cell,
    ) -> Result<bool, Want>
        requires there { matching.old.at < length nodes.now }
        requires fit { AreFit (2 ^ 64) matching.old.from (drop matching.old.at nodes.now) }
        requires named { AreNamed (length names.old) self.old }
        requires valid { All (HasTerm (length names.old) self.old) (cell ∷ reverse matching.old.todo.items) }
        ensures further { IsFurther self.old names.old self.new names.new }
        ensures within { (m : ℕ) → AreFit m matching.old.from (drop matching.old.at nodes.now) → self.old.variables ≤ m → self.new.variables ≤ m }
        ensures from { matching.new.from ≡ matching.old.from }
        ensures lower { IfOk result (λ yes. IsTrue yes → matching.old.at < matching.new.at) }
        ensures upper { matching.new.at ≤ length nodes.now }
        ensures comes { IfOk result (Comes (stage_with self.old names.old nodes.now matching.old cell) (stage self.new names.new nodes.now matching.new)) }
    {
        self.known();
        let _ = names.count();
        let from = matching.from;
        match &nodes[matching.at] {
            Node::Var(number) => {
                matching.at += 1;
                self.match_variable(from + *number, cell)
            }
            Node::Int(value) => {
                matching.at += 1;
                self.match_integer(*value, cell)
            }
            Node::Atom(name) => {
                matching.at += 1;
                self.match_atom(names, name, cell)
            }
            Node::Functor(name, arity) => match self.deref(cell) {
                Cell::Variable(free) => self.match_free(names, nodes, matching, free),
                Cell::Integer(_) => Ok(false),
                Cell::Atom(_) => Ok(false),
                Cell::Compound(place) => self.match_row(names, matching, name, *arity, place),
            },
        }
    }

    /// Makes a variable of the term one with a cell. The variables are made as they are met: one that isn't there yet
    /// stands in nothing, and is bound to the end of the cell's bindings, so that no chain of bindings grows.
    fn match_variable(&mut self, number: u64, cell: Cell) -> Result<bool, Want>
        requires valid { IsCell self.old cell }
        ensures further { (texts : List (List ℕ)) → AreNamed (length texts) self.old → HasTerm (length texts) self.old cell → IsFurther self.old texts self.new texts }
        ensures within { (m : ℕ) → number < m → self.old.variables ≤ m → self.new.variables ≤ m }
        ensures matches { IfOk result (λ yes. (texts : List (List ℕ)) → AreDistinct texts → AreNamed (length texts) self.old → HasTerm (length texts) self.old cell → Matches self.old texts self.new texts (variable number) cell yes) }
    {
        self.known();
        if number < self.variables() {
            let is_one = self.unify(Cell::Variable(number), cell)?;
            self.known();
            return Ok(is_one);
        }
        let end = self.deref(cell);
        self.fresh(number - self.variables())?;
        self.bind_new(end)?;
        Ok(true)
    }

    /// A new variable, which is bound to a cell: nothing refers to it yet, so there is nothing to check.
    fn bind_new(&mut self, cell: Cell) -> Result<(), Want>
        requires { IsCell self.old cell }
        ensures ok { OnOk result (self.new ≡ record self.old { variables = self.old.variables + 1; bindings = (self.old.variables, cell) ∷ self.old.bindings }) }
        ensures err { OnErr result (self.new ≡ record self.old { variables = self.new.variables }) }
        ensures within { (self.old.variables ≤ self.new.variables) × (self.new.variables ≤ self.old.variables + 1) }
    {
        self.known();
        let number = self.fresh(1)?;
        self.bind(number, cell)?;
        Ok(())
    }

    /// Makes an integer one with a cell.
    fn match_integer(&mut self, value: Whole, cell: Cell) -> Result<bool, Want>
        requires valid { IsCell self.old cell }
        ensures further { (texts : List (List ℕ)) → AreNamed (length texts) self.old → IsFurther self.old texts self.new texts }
        ensures variables { self.new.variables ≡ self.old.variables }
        ensures matches { IfOk result (λ yes. (texts : List (List ℕ)) → AreNamed (length texts) self.old → HasTerm (length texts) self.old cell → Matches self.old texts self.new texts (integer value) cell yes) }
    {
        self.known();
        match self.deref(cell) {
            Cell::Variable(free) => {
                self.bind(free, Cell::Integer(value))?;
                Ok(true)
            }
            Cell::Integer(found) => Ok(found == value),
            Cell::Atom(_) => Ok(false),
            Cell::Compound(_) => Ok(false),
        }
    }

    /// Makes an atom one with a cell.
    fn match_atom(&mut self, names: &mut Names, name: &Name, cell: Cell) -> Result<bool, Want>
        requires named { AreNamed (length names.old) self.old }
        requires valid { HasTerm (length names.old) self.old cell }
        ensures further { IsFurther self.old names.old self.new names.new }
        ensures variables { self.new.variables ≡ self.old.variables }
        ensures matches { IfOk result (Matches self.old names.old self.new names.new (atom name.now) cell) }
    {
        self.known();
        match self.deref(cell) {
            Cell::Variable(free) => {
                let number = names.intern(name.bytes())?;
                self.bind(free, Cell::Atom(number))?;
                Ok(true)
            }
            Cell::Integer(_) => Ok(false),
            Cell::Atom(found) => Ok(names.text(found) == name.bytes()),
            Cell::Compound(_) => Ok(false),
        }
    }

    /// Goes into a compound of the term and one of the store, where name and arity are the same.
    fn match_row(
        &self,
        names: &Names,
        matching: &mut Matching,
        name: &Name,
        arity: u32,
        place: u64,
    ) -> Result<bool, Want>
        requires inside { place < length self.now.compounds }
        requires named { AreNamed (length names.now) self.now }
        requires room { matching.old.at + 1 < 2 ^ 64 }
        ensures from { matching.new.from ≡ matching.old.from }
        ensures at { IfOk result (λ yes. IsTrue yes → matching.new.at ≡ matching.old.at + 1) }
        ensures stays { OnErr result (matching.new.at ≡ matching.old.at) }
        ensures upper { matching.new.at ≤ matching.old.at + 1 }
        ensures matches { IfOk result (λ yes. (ts : Trees) → arity ≤ count ts → All (HasTerm (length names.now) self.now) (reverse matching.old.todo.items)
            → Comes (record { store = self.now; texts = names.now; terms = joined name.now arity ts; cells = Cell.Compound place ∷ reverse matching.old.todo.items })
            (record { store = self.now; texts = names.now; terms = ts; cells = reverse matching.new.todo.items }) yes) }
    {
        self.known();
        let (found, arguments) = self.row(place);
        if names.text(found) != name.bytes() {
            return Ok(false);
        }
        if arguments.len() != arity as usize {
            return Ok(false);
        }
        push_back(&mut matching.todo, arguments)?;
        matching.at += 1;
        Ok(true)
    }

    /// Builds the term at the next node, and binds a free variable to it where the variable doesn't stand in it.
    fn match_free(
        &mut self,
        names: &mut Names,
        nodes: &[Node],
        matching: &mut Matching,
        free: u64,
    ) -> Result<bool, Want>
        requires there { matching.old.at < length nodes.now }
        requires fit { AreFit (2 ^ 64) matching.old.from (drop matching.old.at nodes.now) }
        requires compound { (f : List ℕ) × ((us : Trees) × ((ts : Trees) × (forest (drop matching.old.at nodes.now) ≡ more (compound f us) ts))) }
        requires named { AreNamed (length names.old) self.old }
        requires inside { free < self.old.variables }
        requires free { lookup self.old.bindings free ≡ None }
        requires valid { All (HasTerm (length names.old) self.old) (reverse matching.old.todo.items) }
        ensures further { IsFurther self.old names.old self.new names.new }
        ensures within { (m : ℕ) → AreFit m matching.old.from (drop matching.old.at nodes.now) → self.old.variables ≤ m → self.new.variables ≤ m }
        ensures from { matching.new.from ≡ matching.old.from }
        ensures lower { IfOk result (λ yes. matching.old.at < matching.new.at) }
        ensures upper { matching.new.at ≤ length nodes.now }
        ensures comes { IfOk result (Comes (stage_with self.old names.old nodes.now matching.old (Cell.Variable free)) (stage self.new names.new nodes.now matching.new)) }
    {
        self.known();
        let _ = names.count();
        let (built, end) = self.put_front(names, nodes, matching.at, matching.from)?;
        self.known();
        matching.at = end;
        self.solve_variable(free, built)
    }

    /// Puts the term that stands at a place of nodes; the answer is its cell, and the place behind it.
    fn put_front(
        &mut self,
        names: &mut Names,
        nodes: &[Node],
        at: usize,
        from: u64,
    ) -> Result<(Cell, usize), Want>
        requires there { at < length nodes.now }
        requires fit { AreFit (2 ^ 64) from (drop at nodes.now) }
        requires named { AreNamed (length names.old) self.old }
        ensures further { IsFurther self.old names.old self.new names.new }
        ensures bindings { self.new.bindings ≡ self.old.bindings }
        ensures within { (m : ℕ) → AreFit m from (drop at nodes.now) → self.old.variables ≤ m → self.new.variables ≤ m }
        ensures cell { IfOk result (λ found. HasTerm (length names.new) self.new found.0) }
        ensures behind { IfOk result (λ found. (at < found.1) × (found.1 ≤ length nodes.now)) }
        ensures term { IfOk result (λ found. left_at from nodes.now at ≡ more (raw names.new self.new found.0) (left_at from nodes.now found.1)) }
    {
        self.known();
        let end = front_end(nodes, at);
        let part = &nodes[at..end];
        self.make_variables(part, from)?;
        let cell = self.put_nodes(names, part, from)?;
        Ok((cell, end))
    }

    /// Makes the variables of nodes that aren't there yet, from a number on.
    fn make_variables(&mut self, nodes: &[Node], from: u64) -> Result<(), Want>
        requires fit { AreFit (2 ^ 64) from nodes.now }
        ensures same { self.new ≡ record self.old { variables = self.new.variables } }
        ensures more { self.old.variables ≤ self.new.variables }
        ensures within { (m : ℕ) → AreFit m from nodes.now → self.old.variables ≤ m → self.new.variables ≤ m }
        ensures fit { OnOk result (AreFit self.new.variables from nodes.now) }
    {
        for node in nodes {
            if let Node::Var(number) = node {
                self.make_variable(from + *number)?;
            }
        }
        Ok(())
    }

    /// Makes the variables up to this one, where it isn't there yet.
    fn make_variable(&mut self, number: u64) -> Result<(), Want>
        ensures same { self.new ≡ record self.old { variables = self.new.variables } }
        ensures more { self.old.variables ≤ self.new.variables }
        ensures within { (m : ℕ) → number < m → self.old.variables ≤ m → self.new.variables ≤ m }
        ensures there { OnOk result (number < self.new.variables) }
    {
        if number >= self.variables() {
            self.fresh(number - self.variables())?;
            self.fresh(1)?;
        }
        Ok(())
    }
}

/// The place behind the term that stands at a place of nodes.
fn front_end(nodes: &[Node], at: usize) -> usize
    requires there { at < length nodes.now }
    requires fit { (m : ℕ) × ((from : ℕ) × AreFit m from (drop at nodes.now)) }
    ensures { IsFront nodes.now at result }
{
    let mut left: usize = 1;
    let mut end = at;
    while left > 0 {
        left -= 1;
        if let Node::Functor(_, arity) = &nodes[end] {
            left += *arity as usize;
        }
        end += 1;
    }
    end
}
