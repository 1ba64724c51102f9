// A base that keeps one list of entries and scans it whole.
ghost use Rattle.std.specs.Prelude.{ℕ, ◌≡◌, ◌≢◌, ◌≤◌, ◌<◌, ◌+◌, ◌⊎◌, [], true, false, IfOk, OnOk, OnErr, IsOk, IsSome, Some, length};
ghost use Rattle.std.specs.HashMap.{get, Updates, spare};
ghost use Rattle.prolog_terms.specs.declared.entry.Indicator.{Indicator as AnIndicator};
ghost use Rattle.prolog_terms.specs.declared.entry.What.TheVariants.{Add};
ghost use Rattle.journals.specs.Journal.{clause_named, same_indicator};
ghost use Rattle.journal_base.specs.Legal.{MayChange, MayChangeClause, MayAdd};
ghost use Rattle.prolog_terms.specs.declared.entry.End.{End as AnEnd};
ghost use Rattle.journal_base.specs.Space.{need};
ghost use Rattle.journal_base.specs.View.{AreSizes, InSeen, Looks};

use crate::ledger::Ledger;
use crate::seek::seek;
use crate::space::{addition_words, declaration_words};
use crate::{Added, Base, Call, Cause, Declared, Erased, How, Look, Sizes, Tally};
use prolog_terms::{
    Clause, End, Entries, Entry, Indicator, Kind, Want, What, copy_clause, copy_indicator,
};
use std::alloc::Global;
use std::collections::HashMap;
use std::marker::Model;
use std::sync::Wait;

/// A database of one engine, in memory: one list of entries, which each look scans whole.
#[derive(Drop)]
pub struct PlainBase {
    number: u32,
    words: u64,
    updates: u64,
    ledger: Ledger,
    found: HashMap<Indicator, (u32, Kind)>,
    declared: u32,
    used: u64,
    out: u64,
}

impl Model for PlainBase {
    ghost use Rattle.journal_base.specs.Plain.{Plain, plain_code};

    ghost Value = { Plain };

    ghost coded = { plain_code };

    ghost use Rattle.journal_base.specs.PlainInside.{plain_of, IsPlain};

    ghost view = { plain_of };

    ghost invariant = { IsPlain };
}

/// The clauses of a look that are still to come: the next one, and the place of the scan behind it.
pub struct PlainCursor {
    front: u64,
    next: Option<u64>,
    at: u64,
}

impl PlainBase {
    /// An empty database of these sizes, which serves this engine.
    pub fn new(alloc: Global, number: u32, sizes: Sizes) -> Result<PlainBase, Want>
        requires { AreSizes sizes.words sizes.updates }
        ensures made { IfOk result (λ b. b ≡ record { number = number; words = sizes.words; updates = sizes.updates; entries = []; out = 0 }) }
        ensures always { IsOk result }
    {
        Ok(PlainBase {
            number,
            words: sizes.words,
            updates: sizes.updates,
            ledger: Ledger::new(alloc),
            found: HashMap::new(alloc),
            declared: 0,
            used: 0,
            out: 0,
        })
    }

    /// The same database, which serves another engine from now on.
    pub fn renumbered(self, number: u32) -> PlainBase
        ensures { result ≡ record self { number = number } }
    {
        PlainBase {
            number,
            words: self.words,
            updates: self.updates,
            ledger: self.ledger,
            found: self.found,
            declared: self.declared,
            used: self.used,
            out: self.out,
        }
    }

    /// The entries.
    pub fn entries(&self) -> &[Entry]
        ensures { result.now ≡ self.now.entries }
    {
        self.ledger.entries()
    }

    /// The entries, and no more.
    pub fn into_entries(self) -> Entries
        ensures { result ≡ self.entries }
    {
        self.ledger.into_entries()
    }
}

impl PlainBase {
    ghost use Rattle.journal_base.specs.Plain.{plain_view, IsContinued};
    ghost use Rattle.journal_base.specs.Updates.{IsDeclared, IsAdded, IsErased};

    /// Declares a procedure. Memory is taken first; then a procedure that is declared already is told, and then want of room.
    fn try_declare(&mut self, indicator: &Indicator, kind: Kind) -> Result<Declared, Want>
        requires { MayChange kind self.old.number }
        ensures answer { IfOk result (λ d. IsDeclared (plain_view self.old) (plain_view self.new) indicator.now kind d) }
        ensures want { OnErr result (Looks (plain_view self.old) (plain_view self.new)) }
        ensures becomes { IsContinued self.old self.new }
        ensures out { self.new.out ≡ self.old.out }
    {
        let used = self.used;
        let key = copy_indicator(indicator)?;
        let named = copy_indicator(indicator)?;
        self.ledger.reserve(1)?;
        make_room(&mut self.found)?;
        if let Some((number, kind)) = look_up(&self.found, indicator) {
            return Ok(Declared::Already(number, kind));
        }
        let need = declaration_words(indicator);
        let updates = self.ledger.count();
        if is_full(self.words, self.updates, used, need, updates) {
            return Ok(Declared::Full {
                used,
                need,
                updates,
            });
        }
        let number = self.declared;
        enter(&mut self.found, key, (number, kind));
        self.ledger.declare(self.number, named, kind);
        self.used = used + need;
        self.declared = number + 1;
        Ok(Declared::Done(number))
    }

    /// Adds a clause to a procedure. Memory is taken first, also for its erasure; then want of room is told.
    fn try_add(&mut self, end: End, procedure: u32, clause: &Clause) -> Result<Added, Want>
        requires { InSeen (plain_view self.old) (λ J. MayAdd J self.old.number procedure clause.now) }
        ensures answer { IfOk result (λ d. IsAdded (plain_view self.old) (plain_view self.new) (Add end procedure clause.now) d) }
        ensures want { OnErr result (Looks (plain_view self.old) (plain_view self.new)) }
        ensures becomes { IsContinued self.old self.new }
        ensures out { self.new.out ≡ self.old.out }
    {
        let used = self.used;
        let copy = copy_clause(clause)?;
        let need = wanted_words(clause)?;
        self.ledger.reserve(2)?;
        let updates = self.ledger.count();
        if is_full(self.words, self.updates, used, need, updates) {
            return Ok(Added::Full {
                used,
                need,
                updates,
            });
        }
        self.ledger.add(self.number, end, procedure, copy);
        self.used = used + need;
        Ok(Added::Done(updates))
    }

    /// Erases a clause. That it is gone is told first, and then want of room. It takes no memory.
    fn erase_clause(&mut self, clause: u64) -> Erased
        requires added { InSeen (plain_view self.old) (λ J. IsSome (clause_named J clause)) }
        requires permitted { InSeen (plain_view self.old) (λ J. MayChangeClause J self.old.number clause) }
        ensures answer { IsErased (plain_view self.old) (plain_view self.new) clause result }
        ensures becomes { IsContinued self.old self.new }
        ensures out { self.new.out ≡ self.old.out }
    {
        if let Some(at) = self.ledger.eraser(clause) {
            return Erased::Gone { at };
        }
        let updates = self.ledger.count();
        if updates == self.updates {
            return Erased::Full { updates };
        }
        self.ledger.erase(self.number, clause);
        Erased::Done
    }
}

impl Base for PlainBase {
    ghost use Rattle.journal_base.specs.Plain.{plain_view, plain_out, IsContinued, continued_itself, continued_further};
    ghost use Rattle.journal_base.specs.PlainCursor.{plain_serves, plain_rest, plain_may_visit, plain_rest_local, plain_visits_local};
    ghost use Rattle.journal_base.specs.Looks.{given};

    type Cursor = PlainCursor;

    ghost view = { plain_view };

    ghost out = { λ b. plain_out b.out };

    ghost becomes = { IsContinued };

    ghost serves = { plain_serves };

    ghost group = { λ _. 0 };

    ghost looked_at = { λ c. c.front };

    ghost rest = { plain_rest };

    ghost may_visit = { plain_may_visit };

    ghost ahead = { λ c. given c.next };

    ghost rest_local = { plain_rest_local };

    ghost visits_local = { plain_visits_local };

    ghost becomes_itself = { continued_itself };

    ghost becomes_further = { continued_further };

    ghost looked_seen = { λ b c g s. s.seen };

    fn front(&self) -> u64 {
        self.ledger.entries().len() as u64
    }

    fn number(&self) -> u32 {
        self.number
    }

    fn limits(&self) -> Sizes {
        Sizes {
            words: self.words,
            updates: self.updates,
        }
    }

    fn look(&mut self, call: &Call, tally: &mut Tally) -> Look<PlainCursor> {
        let seen = self.ledger.entries();
        let found = seek(seen, self.ledger.fates(), 0, call, &mut tally.visits);
        let cursor = PlainCursor {
            front: seen.len() as u64,
            next: found.next,
            at: found.at as u64,
        };
        self.out += 1;
        tally.looks += 1;
        tally.scans += 1;
        Look {
            cursor,
            how: How::Scanned(Cause::Plain),
        }
    }

    fn next(&mut self, cursor: &mut PlainCursor, call: &Call, tally: &mut Tally) -> Option<u64> {
        let entries = self.ledger.entries();
        let next = cursor.next?;
        let seen = &entries[..cursor.front as usize];
        let fates = self.ledger.fates();
        let found = seek(seen, fates, cursor.at as usize, call, &mut tally.visits);
        cursor.next = found.next;
        cursor.at = found.at as u64;
        Some(next)
    }

    fn more(&self, cursor: &PlainCursor) -> bool {
        cursor.next.is_some()
    }

    fn drop_cursor(&mut self, cursor: PlainCursor) {
        let PlainCursor {
            front: _,
            next: _,
            at: _,
        } = cursor;
        self.out -= 1;
    }

    fn fetch(&mut self, clause: u64) -> Result<Clause, Want> {
        let entries = self.ledger.entries();
        copy_clause(clause_at(entries, clause as usize))
    }

    fn find(&mut self, indicator: &Indicator) -> Option<(u32, Kind)> {
        look_up(&self.found, indicator)
    }

    fn declare<R: Wait>(&mut self, _rt: &R, indicator: &Indicator, kind: Kind) -> Declared {
        match self.try_declare(indicator, kind) {
            Ok(answer) => answer,
            Err(Want) => Declared::Want,
        }
    }

    fn add<R: Wait>(&mut self, _rt: &R, end: End, procedure: u32, clause: &Clause) -> Added {
        match self.try_add(end, procedure, clause) {
            Ok(answer) => answer,
            Err(Want) => Added::Want,
        }
    }

    fn erase<R: Wait>(&mut self, _rt: &R, clause: u64) -> Erased {
        self.erase_clause(clause)
    }
}

/// Whether there is no room: so many words are used of those that there are, so many more are needed, and the list is so long.
fn is_full(words: u64, limit: u64, used: u64, need: u64, updates: u64) -> bool
    requires { used ≤ words }
    ensures full { result ≡ true → (words < used + need) ⊎ (updates ≡ limit) }
    ensures room { result ≡ false → (used + need ≤ words) × (updates ≢ limit) }
{
    words - used < need || updates == limit
}

/// The number and kind that stand for an indicator.
fn look_up(found: &HashMap<Indicator, (u32, Kind)>, indicator: &Indicator) -> Option<(u32, Kind)>
    ensures { result ≡ get same_indicator found.now indicator.now }
{
    found.get(indicator).copied()
}

/// Makes room for one procedure more.
fn make_room(found: &mut HashMap<Indicator, (u32, Kind)>) -> Result<(), Want>
    ensures same { (i : AnIndicator) → get same_indicator found.new i ≡ get same_indicator found.old i }
    ensures room { OnOk result (0 < spare found.new) }
{
    found.reserve(1)?;
    Ok(())
}

/// Enters a procedure into the map, where there is room for one.
fn enter(found: &mut HashMap<Indicator, (u32, Kind)>, key: Indicator, procedure: (u32, Kind))
    requires { 0 < spare found.old }
    ensures { Updates same_indicator found.old found.new key (Some procedure) }
{
    match found.insert(key, procedure) {
        Ok(_) => {}
        Err(_) => unreachable!(),
    }
}

/// The words that a clause's addition needs. Where they don't fit 64 bits, memory is wanted.
fn wanted_words(clause: &Clause) -> Result<u64, Want>
    ensures { IfOk result (λ n. (e : AnEnd) (p : ℕ) → n ≡ need (Add e p clause.now)) }
{
    match addition_words(clause) {
        Some(words) => Ok(words),
        None => Err(Want),
    }
}

/// The clause that the entry of this index adds.
fn clause_at(entries: &[Entry], k: usize) -> &Clause
    requires { IsSome (clause_named entries.now k) }
    ensures { clause_named entries.now k ≡ Some result.now }
{
    match entries.get(k) {
        Some(entry) => match &entry.what {
            What::Add(_, _, clause) => clause,
            What::Declare(_, _) => unreachable!(),
            What::Erase(_) => unreachable!(),
        },
        None => unreachable!(),
    }
}
