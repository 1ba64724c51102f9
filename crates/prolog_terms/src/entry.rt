// What a journal holds.
ghost use Rattle.std.specs.Prelude.{◌≡◌, ◌++◌, ◌∷◌, [], IfOk, OnOk, OnErr};
ghost use Rattle.prolog_terms.specs.Indicators.{indicator_of, node_indicator};

use crate::{Name, Node, Term, Want};
use std::alloc::Global;
use std::marker::Model;

/// The name and arity of a procedure (ISO/IEC 13211-1, 3.90).
#[derive(Clone, Debug, Drop, PartialEq, Eq, Hash)]
pub struct Indicator {
    pub name: Name,
    pub arity: u32,
}

/// A head, which is an atom or a compound, and a body of goals; a fact's body is `true`. The variables of both are
/// numbered from 0 by first occurrence, and `vars` counts them.
#[derive(Clone, Debug, Drop, PartialEq)]
pub struct Clause {
    pub head: Term,
    pub body: Term,
    pub vars: u64,
}

/// Whether a running goal may change a procedure.
#[derive(Clone, Copy, Debug, PartialEq, Eq)]
pub enum Kind {
    /// Only the load may change it.
    Static,
    /// Goals may change it.
    Dynamic,
}

/// The end of a procedure at which a clause is added.
#[derive(Clone, Copy, Debug, PartialEq, Eq)]
pub enum End {
    Front,
    Back,
}

/// An update of the database.
#[derive(Clone, Debug, Drop, PartialEq)]
pub enum What {
    /// A procedure is declared. Its number is how many were declared before it.
    Declare(Indicator, Kind),
    /// A clause is added to the procedure of this number. Its name is the index of this entry.
    Add(End, u32, Clause),
    /// The clause of this name is erased.
    Erase(u64),
}

/// An update, and the engine that made it.
#[derive(Clone, Debug, Drop, PartialEq)]
pub struct Entry {
    pub by: u32,
    pub what: What,
}

/// A list of entries, as a journal is.
#[derive(Debug, Drop)]
pub struct Entries {
    items: Vec<Entry>,
}

impl Model for Entries {
    ghost use Rattle.std.specs.Prelude.{List};
    ghost use Rattle.prolog_terms.specs.declared.entry.Entry.{Entry};
    ghost use Rattle.prolog_terms.specs.contracts.entry.Entry as of_entry;
    ghost use Rattle.std.specs.Coded.{coded_list};

    ghost Value = { List Entry };

    ghost coded = { coded_list of_entry.the_row.coded };

    ghost view = { λ e. e.items.items };
}

impl Entries {
    /// No entry.
    pub fn new(alloc: Global) -> Entries
        ensures { result ≡ [] }
    {
        Entries {
            items: Vec::new(alloc),
        }
    }

    /// The entries of this `Vec`.
    pub fn of(items: Vec<Entry>) -> Entries
        ensures { result ≡ items.items }
    {
        Entries { items }
    }

    /// The entries.
    pub fn items(&self) -> &[Entry]
        ensures { result.now ≡ self.now }
    {
        self.items.as_slice()
    }

    /// One entry more, at the end.
    pub fn push(&mut self, entry: Entry) -> Result<(), Want>
        ensures ok { OnOk result (self.new ≡ self.old ++ entry ∷ []) }
        ensures err { OnErr result (self.new ≡ self.old) }
    {
        self.items.push(entry)?;
        Ok(())
    }
}

/// The same indicator again.
pub fn copy_indicator(indicator: &Indicator) -> Result<Indicator, Want>
    ensures { IfOk result (λ i. i ≡ indicator.now) }
{
    Ok(indicator.clone()?)
}

/// The name and arity of a term that is an atom or a compound; a variable and an integer have none.
pub fn term_indicator(alloc: Global, term: &Term) -> Result<Option<Indicator>, Want>
    ensures { IfOk result (λ o. o ≡ indicator_of term.now) }
{
    match first_node(term) {
        Node::Var(_) => Ok(None),
        Node::Int(_) => Ok(None),
        Node::Atom(name) => Ok(Some(Indicator {
            name: Name::of(alloc, name.bytes())?,
            arity: 0,
        })),
        Node::Functor(name, arity) => Ok(Some(Indicator {
            name: Name::of(alloc, name.bytes())?,
            arity: *arity,
        })),
    }
}

fn first_node(term: &Term) -> &Node
    ensures { node_indicator result.now ≡ indicator_of term.now }
{
    let nodes = term.nodes();
    &nodes[0]
}

/// The same clause again.
pub fn copy_clause(clause: &Clause) -> Result<Clause, Want>
    ensures { IfOk result (λ c. c ≡ clause.now) }
{
    Ok(clause.clone()?)
}

/// The same entry again.
pub fn copy_entry(entry: &Entry) -> Result<Entry, Want>
    ensures { IfOk result (λ c. c ≡ entry.now) }
{
    Ok(entry.clone()?)
}
