// Unification with the occurs check.
ghost use Rattle.std.specs.Ordering.{int_eq};
ghost use Rattle.prolog_terms.specs.Tree.{Tree};
ghost use Rattle.prolog_terms.specs.Substitutions.{substituted};
ghost use Rattle.std.specs.Prelude.{◌≡◌, ℕ, ◌<◌, ◌≤◌, ◌+◌, ◌++◌, ◌∷◌, [], List, None, All, length, IsTrue, IsFalse, ◌↔◌, IfOk, OnOk, OnErr};
ghost use Rattle.term_store.specs.Work.{pairs_of};

use crate::store::Store;
use crate::{Cell, View};
use prolog_terms::{Want, Whole};

/// Two cells that are to be made equal.
#[derive(Clone, Copy)]
pub(crate) struct Pair {
    pub(crate) left: Cell,
    pub(crate) right: Cell,
}

impl Store {
    ghost use Rattle.term_store.specs.Work.{Solves, IsFreeIfVariable, IsFound, AreFound, Outcome};
    ghost use Rattle.term_store.specs.Terms.{raw_by, bindings_by, lookup, IsShape, IsNamed, IsOlder, term_of, text, IsCell, HasTerm, AreNamed, IsUnified, HaveNoUnifier};
    ghost use Rattle.term_store.specs.Later.{IsLater, IsTakenBack, AreDistinct};
    ghost use Rattle.term_store.specs.Views.{Looks, Sees, tree_of};

    /// The cell at the end of a cell's bindings: a free variable, or no variable.
    fn follow(&self, cell: Cell) -> Cell
        requires { IsCell self.now cell }
        ensures formed { IsShape self.now }
        ensures valid { IsCell self.now result }
        ensures named { (count : ℕ) → AreNamed count self.now → IsNamed count cell → IsNamed count result }
        ensures same { (name : ℕ → List ℕ) (s : ℕ → Tree) → Solves s (bindings_by name self.now.compounds self.now.bindings) → substituted s (raw_by name self.now.compounds result) ≡ substituted s (raw_by name self.now.compounds cell) }
        ensures free { IsFreeIfVariable self.now result }
    {
        self.known();
        let mut cell = cell;
        while let Cell::Variable(variable) = cell {
            match self.slot(variable) {
                Some(next) => cell = next,
                None => return cell,
            }
        }
        cell
    }

    /// The cell at the end of a cell's bindings: a free variable, or no variable. It stands for the same term, and what
    /// is seen there is what a look at the cell shows. It takes a step for each variable that is bound to the next one,
    /// however large the term.
    pub fn deref(&self, cell: Cell) -> Cell
        requires { IsCell self.now cell }
        ensures valid { IsCell self.now result }
        ensures named { (count : ℕ) → AreNamed count self.now → IsNamed count cell → IsNamed count result }
        ensures free { IsFreeIfVariable self.now result }
        ensures looks { (view : View) → Sees self.now result view → Looks self.now cell view }
        ensures term { (texts : List (List ℕ)) → term_of texts self.now result ≡ term_of texts self.now cell }
    {
        self.follow(cell)
    }

    /// What stands at a cell, where bindings are followed down to a free variable or to what is no variable.
    pub fn look(&self, cell: Cell) -> View
        requires { IsCell self.now cell }
        ensures looks { Looks self.now cell result }
        ensures term { (texts : List (List ℕ)) → term_of texts self.now cell ≡ tree_of (text texts) (term_of texts self.now) result }
    {
        let end = self.follow(cell);
        self.node(end)
    }

    /// Whether the variable stands in what the cell stands for. It takes no memory where the cell leads to no compound.
    fn occurs(&self, variable: u64, cell: Cell) -> Result<bool, Want>
        requires { IsCell self.now cell }
        ensures { IfOk result (λ found. IsFound self.now variable cell found) }
    {
        self.known();
        match self.look(cell) {
            View::Variable(other) => Ok(other == variable),
            View::Integer(_) => Ok(false),
            View::Atom(_) => Ok(false),
            View::Compound(_, args) => self.occurs_in(variable, args),
        }
    }

    /// Whether the variable stands in what one of the cells stands for.
    fn occurs_in(&self, variable: u64, cells: &[Cell]) -> Result<bool, Want>
        requires { All (IsCell self.now) cells.now }
        ensures { IfOk result (λ found. AreFound self.now variable cells.now found) }
    {
        self.known();
        let mut todo = Vec::new(self.allocator());
        todo.extend_from_slice(cells)?;
        while let Some(next) = todo.pop() {
            match self.look(next) {
                View::Variable(other) => {
                    if other == variable {
                        return Ok(true);
                    }
                }
                View::Integer(_) => {}
                View::Atom(_) => {}
                View::Compound(_, args) => {
                    todo.extend_from_slice(args)?;
                }
            }
        }
        Ok(false)
    }

    /// Makes a free variable and a cell equal, by a binding of the variable.
    pub(crate) fn solve_variable(&mut self, variable: u64, cell: Cell) -> Result<bool, Want>
        requires inside { variable < self.old.variables }
        requires valid { IsCell self.old cell }
        requires free { lookup self.old.bindings variable ≡ None }
        requires cell_free { IsFreeIfVariable self.old cell }
        requires older { IsOlder variable cell }
        ensures err { OnErr result (self.new ≡ self.old) }
        ensures outcome { IfOk result (λ yes. (work : List Pair) → Outcome self.old self.new work work (Cell.Variable variable) cell yes) }
    {
        self.known();
        if self.occurs(variable, cell)? {
            return Ok(false);
        }
        self.bind(variable, cell)?;
        Ok(true)
    }

    /// Makes two compounds equal, by pairs of their arguments; a compound and itself are equal already.
    fn solve_compounds(&self, work: &mut Vec<Pair>, i: u64, j: u64) -> Result<bool, Want>
        requires left { i < length self.now.compounds }
        requires right { j < length self.now.compounds }
        ensures outcome { IfOk result (λ yes. Outcome self.now self.now work.old.items work.new.items (Cell.Compound i) (Cell.Compound j) yes) }
    {
        self.known();
        if i == j {
            return Ok(true);
        }
        let (left_name, left) = self.row(i);
        let (right_name, right) = self.row(j);
        if left_name != right_name {
            return Ok(false);
        }
        if left.len() != right.len() {
            return Ok(false);
        }
        push_pairs(work, left, right)?;
        Ok(true)
    }

    /// Makes two cells equal, neither of them a bound variable.
    fn solve(&mut self, work: &mut Vec<Pair>, left: Cell, right: Cell) -> Result<bool, Want>
        requires left_valid { IsCell self.old left }
        requires right_valid { IsCell self.old right }
        requires left_free { IsFreeIfVariable self.old left }
        requires right_free { IsFreeIfVariable self.old right }
        ensures err { OnErr result (self.new ≡ self.old) }
        ensures outcome { IfOk result (λ yes. Outcome self.old self.new work.old.items work.new.items left right yes) }
    {
        self.known();
        match left {
            Cell::Variable(x) => match right {
                Cell::Variable(y) => {
                    if x == y {
                        return Ok(true);
                    }
                    if y < x {
                        return self.solve_variable(x, right);
                    }
                    self.solve_variable(y, left)
                }
                _ => self.solve_variable(x, right),
            },
            Cell::Integer(m) => match right {
                Cell::Variable(y) => self.solve_variable(y, left),
                Cell::Integer(n) => Ok(are_same(m, n)),
                Cell::Atom(_) => Ok(false),
                Cell::Compound(_) => Ok(false),
            },
            Cell::Atom(m) => match right {
                Cell::Variable(y) => self.solve_variable(y, left),
                Cell::Integer(_) => Ok(false),
                Cell::Atom(n) => Ok(m == n),
                Cell::Compound(_) => Ok(false),
            },
            Cell::Compound(i) => match right {
                Cell::Variable(y) => self.solve_variable(y, left),
                Cell::Integer(_) => Ok(false),
                Cell::Atom(_) => Ok(false),
                Cell::Compound(j) => self.solve_compounds(work, i, j),
            },
        }
    }

    /// Makes two cells equal, or finds that nothing does; what is left to do goes to the work.
    fn step(&mut self, work: &mut Vec<Pair>, pair: Pair) -> Result<bool, Want>
        requires left { IsCell self.old pair.left }
        requires right { IsCell self.old pair.right }
        ensures err { OnErr result (self.new ≡ self.old) }
        ensures outcome { IfOk result (λ yes. Outcome self.old self.new work.old.items work.new.items pair.left pair.right yes) }
    {
        let left = self.follow(pair.left);
        let right = self.follow(pair.right);
        self.solve(work, left, right)
    }

    /// Binds variables so that the two cells stand for one term, and no more than that: the most general unifier. It is
    /// false where no substitution makes the two terms equal; bindings may have been made then too, as at Want, and are
    /// undone by going back to a mark. Of two variables the younger is bound to the older.
    pub fn unify(&mut self, a: Cell, b: Cell) -> Result<bool, Want>
        requires a { IsCell self.old a }
        requires b { IsCell self.old b }
        ensures later { IsLater self.old self.new }
        ensures compounds { self.new.compounds ≡ self.old.compounds }
        ensures variables { self.new.variables ≡ self.old.variables }
        ensures named { (count : ℕ) → AreNamed count self.old → HasTerm count self.old a → HasTerm count self.old b → AreNamed count self.new }
        ensures unified { IfOk result (λ yes. IsTrue yes → (texts : List (List ℕ)) → IsUnified texts self.old self.new a b) }
        ensures refused { IfOk result (λ yes. IsFalse yes → (texts : List (List ℕ)) → AreDistinct texts → AreNamed (length texts) self.old → HasTerm (length texts) self.old a → HasTerm (length texts) self.old b → HaveNoUnifier texts self.old a b) }
        ensures want { OnErr result (IsTakenBack self.old self.new) }
    {
        self.known();
        let mut work = Vec::new(self.allocator());
        work.push(Pair { left: a, right: b })?;
        while let Some(pair) = work.pop() {
            if !self.step(&mut work, pair)? {
                return Ok(false);
            }
        }
        self.known();
        Ok(true)
    }
}

fn are_same(m: Whole, n: Whole) -> bool
    ensures { result ≡ int_eq m n }
{
    m == n
}

/// Appends the pairs of two rows.
fn push_pairs(work: &mut Vec<Pair>, left: &[Cell], right: &[Cell]) -> Result<(), Want>
    requires { length left.now ≡ length right.now }
    ensures { OnOk result (work.new.items ≡ work.old.items ++ pairs_of left.now right.now) }
{
    for k in 0..left.len() {
        work.push(Pair {
            left: left[k],
            right: right[k],
        })?;
    }
    Ok(())
}
