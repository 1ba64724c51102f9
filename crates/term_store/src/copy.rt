// Copies of terms.
ghost use Rattle.std.specs.Prelude.{◌≡◌, ℕ, ◌≤◌, ◌<◌, ◌+◌, [], length, reverse, All, IfOk, OnOk, OnErr};
ghost use Rattle.prolog_terms.specs.Tree.{Tree};

use crate::order::Seen;
use crate::put::take_row;
use crate::read::push_back;
use crate::store::Store;
use crate::{Cell, View};
use prolog_terms::Want;

impl Store {
    ghost use Rattle.term_store.specs.Terms.{IsCell, row_at};
    ghost use Rattle.term_store.specs.Later.{IsLater};
    ghost use Rattle.term_store.specs.Copies.{IsCopy, IsUnfolded, IsUnfolding, IsRebuilt, IsRebuilding, IsMade, IsMet, AreEnough, arity_at, behind};

    /// A cell of a copy of what the cell stands for, with new variables, the first of which is the one that occurs
    /// first. A term without variables isn't copied: the cell itself is the answer. For want of memory the store is as
    /// it was; Want is answered too where numbers of variables run out. The time is linear in the term as unfolded, up
    /// to the logarithm of the count of its variables, and so is the copy: parts that stand there more than once are
    /// copied as often.
    pub fn copy(&mut self, cell: Cell) -> Result<Cell, Want>
        requires { IsCell self.old cell }
        ensures copy { IfOk result (λ c. IsCopy self.old self.new cell c) }
        ensures err { OnErr result (self.new ≡ self.old) }
    {
        self.known();
        let mark = self.mark();
        let variables = self.variables();
        match self.copy_cell(cell) {
            Ok(copy) => Ok(copy),
            Err(want) => {
                self.restore(mark, variables);
                Err(want)
            }
        }
    }

    fn copy_cell(&mut self, cell: Cell) -> Result<Cell, Want>
        requires { IsCell self.old cell }
        ensures copy { IfOk result (λ c. IsCopy self.old self.new cell c) }
        ensures later { IsLater self.old self.new }
    {
        self.known();
        let mut seen = Seen::new(self.allocator());
        let cells = self.unfold(cell, &mut seen)?;
        let count = seen.count();
        if count == 0 {
            return Ok(cell);
        }
        let from = self.fresh(count)?;
        self.known();
        let copy = self.rebuild(cells.as_slice(), &seen, from)?;
        Ok(copy)
    }

    /// The cells of what a cell stands for, in prefix order: none is a bound variable. Its variables have been met.
    fn unfold(&self, cell: Cell, seen: &mut Seen) -> Result<Vec<Cell>, Want>
        requires valid { IsCell self.now cell }
        requires none { seen.old ≡ [] }
        ensures { IfOk result (λ cells. IsUnfolding self.now cell [] cells.items seen.new) }
    {
        self.known();
        let mut cells = Vec::new(self.allocator());
        let mut todo = Vec::new(self.allocator());
        todo.push(cell)?;
        while let Some(next) = todo.pop() {
            self.unfold_cell(&mut todo, seen, &mut cells, next)?;
        }
        Ok(cells)
    }

    /// Writes one cell, and its arguments go to what is to do, the first of them last.
    fn unfold_cell(
        &self,
        todo: &mut Vec<Cell>,
        seen: &mut Seen,
        cells: &mut Vec<Cell>,
        cell: Cell,
    ) -> Result<(), Want>
        requires { IsCell self.now cell }
        ensures { OnOk result (IsUnfolded self.now cell todo.old.items todo.new.items seen.old seen.new cells.old.items cells.new.items) }
    {
        self.known();
        let end = self.deref(cell);
        cells.push(end)?;
        match self.node(end) {
            View::Variable(number) => {
                seen.place(number)?;
                Ok(())
            }
            View::Integer(_) => Ok(()),
            View::Atom(_) => Ok(()),
            View::Compound(_, args) => {
                push_back(todo, args)?;
                Ok(())
            }
        }
    }

    /// A new cell of the term of these cells, each variable by its place behind a number.
    fn rebuild(&mut self, cells: &[Cell], seen: &Seen, from: u64) -> Result<Cell, Want>
        requires fits { from + length seen.now ≤ self.old.variables }
        requires valid { All (IsCell self.old) cells.now }
        requires enough { AreEnough self.old.compounds cells.now }
        requires some { 1 ≤ length cells.now }
        requires met { All (IsMet seen.now) cells.now }
        ensures later { IsLater self.old self.new }
        ensures cell { IfOk result (λ c. IsMade (behind from seen.now) self.old self.new cells.now c) }
    {
        let mut stack = Vec::new(self.allocator());
        let mut at = cells.len();
        while at > 0 {
            at -= 1;
            self.rebuild_cell(&mut stack, seen, cells[at], from)?;
        }
        match stack.pop() {
            Some(cell) => Ok(cell),
            None => unreachable!(),
        }
    }

    /// Makes one cell anew, before those that the stack has.
    fn rebuild_cell(
        &mut self,
        stack: &mut Vec<Cell>,
        seen: &Seen,
        cell: Cell,
        from: u64,
    ) -> Result<(), Want>
        requires fits { from + length seen.now ≤ self.old.variables }
        requires valid { IsCell self.old cell }
        requires enough { arity_at self.old.compounds cell ≤ length stack.old.items }
        requires met { IsMet seen.now cell }
        requires cells { All (IsCell self.old) (reverse stack.old.items) }
        ensures later { IsLater self.old self.new }
        ensures rebuilt { OnOk result (IsRebuilt (behind from seen.now) self.old self.new cell stack.old.items stack.new.items) }
    {
        self.fits();
        match cell {
            Cell::Variable(number) => {
                let Some(place) = seen.find(number) else {
                    unreachable!();
                };
                stack.push(Cell::Variable(from + place))?;
                Ok(())
            }
            Cell::Integer(_) => {
                stack.push(cell)?;
                Ok(())
            }
            Cell::Atom(_) => {
                stack.push(cell)?;
                Ok(())
            }
            Cell::Compound(at) => {
                self.rebuild_compound(stack, at)?;
                Ok(())
            }
        }
    }

    /// Makes a compound anew, whose arguments are the last cells of the stack, the first of them last.
    fn rebuild_compound(&mut self, stack: &mut Vec<Cell>, at: u64) -> Result<(), Want>
        requires valid { at < length self.old.compounds }
        requires enough { length (row_at self.old.compounds at).1 ≤ length stack.old.items }
        requires cells { All (IsCell self.old) (reverse stack.old.items) }
        ensures later { IsLater self.old self.new }
        ensures rebuilt { OnOk result ((r : ℕ → Tree) → IsRebuilt r self.old self.new (Cell.Compound at) stack.old.items stack.new.items) }
    {
        self.known();
        let (name, args) = self.row(at);
        let count = args.len();
        let row = take_row(self.allocator(), stack, count as u32)?;
        let cell = self.compound(name, row.as_slice())?;
        stack.push(cell)?;
        Ok(())
    }
}
