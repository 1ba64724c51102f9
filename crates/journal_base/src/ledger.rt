// A list of entries, what became of their clauses, and room for more.
ghost use Rattle.std.specs.Prelude.{◌≡◌, ◌≤◌, ◌<◌, ◌+◌, ◌++◌, ◌∷◌, [], OnOk, IfSome, IsSome, Some, None, true, false, length, slice_get};
ghost use Rattle.prolog_terms.specs.declared.entry.What.TheVariants.{Declare, Add, Erase};
ghost use Rattle.prolog_terms.specs.declared.entry.Entry.{Entry as AnEntry};
ghost use Rattle.journals.specs.Journal.{clause_named, is_erased, erases};

use crate::fate::{Fate, fate_at};
use prolog_terms::{Clause, End, Entries, Entry, Indicator, Kind, Want, What};
use std::alloc::Global;
use std::marker::Model;

/// A list of entries. Beside each stands what became of its clause, and for each clause that is alive there is room for the
/// entry that erases it.
#[derive(Drop)]
pub(crate) struct Ledger {
    entries: Vec<Entry>,
    fates: Vec<Fate>,
    alive: usize,
}

impl Model for Ledger {
    ghost use Rattle.journal_base.specs.Held.{Held, held_code};

    ghost Value = { Held };

    ghost coded = { held_code };

    ghost use Rattle.journal_base.specs.Ledgers.{held_of, IsLedger};

    ghost view = { held_of };

    ghost invariant = { IsLedger };
}

impl Ledger {
    ghost use Rattle.journal_base.specs.Fates.{AreFates};

    /// No entry.
    pub(crate) fn new(alloc: Global) -> Ledger
        ensures { result.entries ≡ [] }
    {
        Ledger {
            entries: Vec::new(alloc),
            fates: Vec::new(alloc),
            alive: 0,
        }
    }

    /// The entries.
    pub(crate) fn entries(&self) -> &[Entry]
        ensures { result.now ≡ self.now.entries }
    {
        self.entries.as_slice()
    }

    /// How many entries there are.
    pub(crate) fn count(&self) -> u64
        ensures { result ≡ length self.now.entries }
    {
        self.entries.len() as u64
    }

    /// What became of the entries' clauses.
    pub(crate) fn fates(&self) -> &[Fate]
        ensures { AreFates self.now.entries result.now }
    {
        self.fates.as_slice()
    }

    /// The entries, and no more.
    pub(crate) fn into_entries(self) -> Entries
        ensures { result ≡ self.entries }
    {
        Entries::of(self.entries)
    }

    /// The index of the entry that erases a clause.
    pub(crate) fn eraser(&self, clause: u64) -> Option<u64>
        requires { IsSome (clause_named self.now.entries clause) }
        ensures none { result ≡ None → is_erased self.now.entries clause ≡ false }
        ensures some { IfSome result (λ e. (x : AnEntry) × ((slice_get self.now.entries e ≡ Some x) × (erases clause x.what ≡ true))) }
    {
        match fate_at(self.fates.as_slice(), clause as usize) {
            Fate::NoClause => None,
            Fate::Alive => None,
            Fate::ErasedBy(at) => Some(at),
        }
    }

    /// Makes room for so many entries more.
    pub(crate) fn reserve(&mut self, more: usize) -> Result<(), Want>
        ensures entries { self.new.entries ≡ self.old.entries }
        ensures room { OnOk result (more ≤ self.new.room) }
    {
        let Some(places) = self.alive.checked_add(more) else {
            return Err(Want);
        };
        self.entries.reserve(places)?;
        self.fates.reserve(places)?;
        Ok(())
    }

    /// A declaration more, in the room for one entry.
    pub(crate) fn declare(&mut self, by: u32, indicator: Indicator, kind: Kind)
        requires { 1 ≤ self.old.room }
        ensures { self.new.entries ≡ self.old.entries ++ record { by = by; what = Declare indicator kind } ∷ [] }
    {
        self.entries.push_reserved(Entry {
            by,
            what: What::Declare(indicator, kind),
        });
        self.fates.push_reserved(Fate::NoClause);
    }

    /// A clause more, in the room for two entries, since it may be erased.
    pub(crate) fn add(&mut self, by: u32, end: End, procedure: u32, clause: Clause)
        requires { 2 ≤ self.old.room }
        ensures { self.new.entries ≡ self.old.entries ++ record { by = by; what = Add end procedure clause } ∷ [] }
    {
        self.entries.push_reserved(Entry {
            by,
            what: What::Add(end, procedure, clause),
        });
        self.fates.push_reserved(Fate::Alive);
        self.alive += 1;
    }

    /// The erasure of a clause that is alive, in the room that was made with it.
    pub(crate) fn erase(&mut self, by: u32, clause: u64)
        requires added { IsSome (clause_named self.old.entries clause) }
        requires alive { is_erased self.old.entries clause ≡ false }
        ensures { self.new.entries ≡ self.old.entries ++ record { by = by; what = Erase clause } ∷ [] }
    {
        let at = self.entries.len() as u64;
        self.fates[clause as usize] = Fate::ErasedBy(at);
        self.alive -= 1;
        self.entries.push_reserved(Entry {
            by,
            what: What::Erase(clause),
        });
        self.fates.push_reserved(Fate::NoClause);
    }
}
