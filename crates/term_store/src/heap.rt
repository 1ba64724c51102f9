// The compounds of a store.
ghost use Rattle.std.specs.Prelude.{◌≡◌, ◌<◌, ◌≤◌, ◌+◌, ◌^◌, ◌++◌, ◌∷◌, [], length, take, slice_range, IfOk, OnOk, OnErr};
ghost use Rattle.term_store.specs.Terms.{row_at};
ghost use Rattle.term_store.specs.Inside.{AreLaidFrom, end_of as end_at};

use crate::Cell;
use prolog_terms::Want;
use std::alloc::Global;
use std::marker::Model;

/// A compound: the number of its name, and where its arguments stand.
#[derive(Clone, Copy)]
pub(crate) struct Row {
    pub(crate) name: u64,
    pub(crate) first: usize,
    pub(crate) arity: usize,
}

/// Compounds, each at its place, with their arguments one after the other.
#[derive(Drop)]
pub(crate) struct Heap {
    rows: Vec<Row>,
    args: Vec<Cell>,
}

impl Model for Heap {
    ghost use Rattle.std.specs.Prelude.{ℕ, List};
    ghost use Rattle.term_store.specs.declared.cell.Cell.{Cell};

    ghost Value = { List (ℕ × List Cell) };

    ghost use Rattle.term_store.specs.Inside.{rows_of, AreLaid};

    ghost view = { λ h. rows_of h.args.items h.rows.items };

    ghost invariant = { λ h. AreLaid h.args.items h.rows.items };
}

impl Heap {
    pub fn new(alloc: Global) -> Heap
        ensures { result ≡ [] }
    {
        Heap {
            rows: Vec::new(alloc),
            args: Vec::new(alloc),
        }
    }

    pub fn count(&self) -> u64
        ensures { result ≡ length self.now }
    {
        self.rows.len() as u64
    }

    /// The name and the arguments of the compound at this place.
    pub fn row(&self, at: u64) -> (u64, &[Cell])
        requires { at < length self.now }
        ensures { row_at self.now at ≡ (result.0, result.1.now) }
    {
        let row = self.rows[at as usize];
        (row.name, part(self.args.as_slice(), row.first, row.arity))
    }

    /// One more compound, at the end.
    pub fn push(&mut self, name: u64, args: &[Cell]) -> Result<(), Want>
        ensures ok { OnOk result (self.new ≡ self.old ++ (name, args.now) ∷ []) }
        ensures err { OnErr result (self.new ≡ self.old) }
    {
        self.rows.reserve(1)?;
        let first = self.args.len();
        self.args.extend_from_slice(args)?;
        self.rows.push(Row {
            name,
            first,
            arity: args.len(),
        })?;
        Ok(())
    }

    /// The first so many compounds alone.
    pub fn cut(&mut self, count: u64)
        requires { count ≤ length self.old }
        ensures { self.new ≡ take count self.old }
    {
        self.rows.truncate(count as usize);
        let end = end_of(self.rows.as_slice());
        self.args.truncate(end);
    }
}

/// So many cells, from a place on.
fn part(cells: &[Cell], first: usize, count: usize) -> &[Cell]
    requires { first + count ≤ length cells.now }
    ensures { result.now ≡ slice_range cells.now first (first + count) }
{
    &cells[first..first + count]
}

/// Where the arguments of these rows end.
fn end_of(rows: &[Row]) -> usize
    requires laid { AreLaidFrom 0 (end_at 0 rows.now) rows.now }
    requires fits { end_at 0 rows.now < 2 ^ 64 }
    ensures { result ≡ end_at 0 rows.now }
{
    if rows.is_empty() {
        return 0;
    }
    let row = rows[rows.len() - 1];
    row.first + row.arity
}
