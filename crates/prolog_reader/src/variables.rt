// The variables of a read-term.
ghost use Rattle.std.specs.Prelude.{◌≡◌, ◌+◌, IfOk, OnOk};
ghost use Rattle.prolog_reader.specs.Numberings as spec;
ghost use Rattle.prolog_reader.specs.Numberings.{no_variables, numbered, met, shown_of};

use indexmap::IndexMap;
use indexmap::map::Slice;
use prolog_terms::{Name, Shown, ShownVariables, Want};
use std::alloc::Global;
use std::marker::Model;

/// The variables that were met so far: those with a name, and how many there are in all.
#[derive(Drop)]
pub(crate) struct Variables {
    numbers: IndexMap<Name, u64>,
    count: u64,
}

impl Model for Variables {
    ghost use Rattle.prolog_reader.specs.Numberings.{Numbering};

    ghost Value = { Numbering };

    ghost view = { λ v. record { known = v.numbers.entries; count = v.count } };
}

impl Variables {
    pub(crate) fn new(alloc: Global) -> Variables
        ensures { result ≡ no_variables }
    {
        Variables {
            numbers: IndexMap::new(alloc),
            count: 0,
        }
    }

    /// The number of a variable: that of its name, or the next one.
    pub(crate) fn number(&mut self, name: &Name) -> Result<u64, Want>
        ensures number { IfOk result (λ n. n ≡ numbered name.now self.old) }
        ensures met { OnOk result (self.new ≡ met name.now self.old) }
    {
        if is_anonymous(name.bytes()) {
            return self.next();
        }
        match self.numbers.get(name.bytes()) {
            Some(number) => Ok(*number),
            None => {
                self.numbers.insert(name.clone()?, self.count)?;
                let number = self.next()?;
                Ok(number)
            }
        }
    }

    fn next(&mut self) -> Result<u64, Want>
        ensures number { IfOk result (λ n. n ≡ self.old.count) }
        ensures count { OnOk result (self.new ≡ record { known = self.old.known; count = self.old.count + 1 }) }
    {
        let number = self.count;
        self.count = number.checked_add(1).ok_or(Want)?;
        Ok(number)
    }

    pub(crate) fn count(&self) -> u64
        ensures { result ≡ self.now.count }
    {
        self.count
    }

    /// The named variables, in order of first occurrence, but for those whose name begins with `_`.
    pub(crate) fn shown(&self) -> Result<ShownVariables, Want>
        ensures { IfOk result (λ shown. shown ≡ shown_of self.now.known) }
    {
        let alloc = *self.numbers.allocator();
        let shown = shown_among(alloc, self.numbers.as_slice())?;
        Ok(ShownVariables::from_vec(shown))
    }
}

fn shown_among(alloc: Global, entries: Slice<'_, Name, u64>) -> Result<Vec<Shown>, Want>
    ensures { IfOk result (λ shown. shown.items ≡ shown_of entries.entry) }
{
    let mut left = entries;
    let mut shown = Vec::new(alloc);
    'entries: while let Some(((name, number), rest)) = left.split_first() {
        if !is_hidden(name.bytes()) {
            shown.push(Shown {
                name: name.clone()?,
                var: *number,
            })?;
        }
        left = rest;
    }
    Ok(shown)
}

fn is_anonymous(name: &[u8]) -> bool
    ensures { result ≡ spec.is_anonymous name.now }
{
    name == b"_".as_slice()
}

fn is_hidden(name: &[u8]) -> bool
    ensures { result ≡ spec.is_hidden name.now }
{
    match name.first() {
        Some(b) => *b == b'_',
        None => false,
    }
}
