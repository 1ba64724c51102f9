// Terms out of a store.
ghost use Rattle.std.specs.Prelude.{◌≡◌, ℕ, List, ◌++◌, length, reverse, IfOk, OnOk};
ghost use Rattle.prolog_terms.specs.Tree.{variable};
ghost use Rattle.prolog_terms.specs.Substitutions.{substituted, variables, place_of};

use crate::order::Seen;
use crate::store::Store;
use crate::{Cell, View};
use prolog_terms::{Name, Names, Node, Term, Want};

impl Store {
    ghost use Rattle.term_store.specs.Terms.{term_of, HasTerm, AreNamed};
    ghost use Rattle.term_store.specs.Reads.{IsRead};

    /// The term that the cell stands for, its variables numbered from 0 by first occurrence. The time is linear in the
    /// term as unfolded, up to the logarithm of the count of its variables: parts that stand there more than once are
    /// written as often.
    pub fn read_back(&self, names: &Names, cell: Cell) -> Result<Term, Want>
        requires named { AreNamed (length names.now) self.now }
        requires valid { HasTerm (length names.now) self.now cell }
        ensures { IfOk result (λ t. t ≡ substituted (λ v. variable (place_of v (variables (term_of names.now self.now cell)))) (term_of names.now self.now cell)) }
    {
        self.known();
        let alloc = self.allocator();
        let mut nodes = Vec::new(alloc);
        let mut seen = Seen::new(alloc);
        let mut todo = Vec::new(alloc);
        todo.push(cell)?;
        while let Some(next) = todo.pop() {
            self.read_cell(names, &mut todo, &mut seen, &mut nodes, next)?;
        }
        Ok(Term::from_prefix(nodes))
    }

    /// Reads one cell: its node, and its arguments go to what is to do, the first of them last.
    fn read_cell(
        &self,
        names: &Names,
        todo: &mut Vec<Cell>,
        seen: &mut Seen,
        nodes: &mut Vec<Node>,
        cell: Cell,
    ) -> Result<(), Want>
        requires named { AreNamed (length names.now) self.now }
        requires valid { HasTerm (length names.now) self.now cell }
        ensures { OnOk result (IsRead names.now self.now cell todo.old.items todo.new.items seen.old seen.new nodes.old.items nodes.new.items) }
    {
        self.known();
        match self.look(cell) {
            View::Variable(number) => {
                let place = seen.place(number)?;
                nodes.push(Node::Var(place))?;
                Ok(())
            }
            View::Integer(value) => {
                nodes.push(Node::Int(value))?;
                Ok(())
            }
            View::Atom(name) => {
                let text = Name::of(self.allocator(), names.text(name))?;
                nodes.push(Node::Atom(text))?;
                Ok(())
            }
            View::Compound(name, args) => {
                let text = Name::of(self.allocator(), names.text(name))?;
                nodes.push(Node::Functor(text, args.len() as u32))?;
                push_back(todo, args)?;
                Ok(())
            }
        }
    }
}

/// Appends cells to what is to do, the first of them last.
pub(crate) fn push_back(todo: &mut Vec<Cell>, cells: &[Cell]) -> Result<(), Want>
    ensures { OnOk result (reverse todo.new.items ≡ cells.now ++ reverse todo.old.items) }
{
    let mut at = cells.len();
    while at > 0 {
        at -= 1;
        todo.push(cells[at])?;
    }
    Ok(())
}
