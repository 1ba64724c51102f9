// An engine's private numbering of texts.
ghost use Rattle.std.specs.Prelude.{◌≡◌, ◌<◌, ◌++◌, ◌∷◌, [], IfOk, OnOk, OnErr, Some, length, slice_get, nat_eq};
ghost use Rattle.std.specs.Cmp.Lexicographic.{pointwise, lists_equiv};
ghost use Rattle.std.specs.Cmp.{nat_eq_equiv};
ghost use Rattle.std.specs.Cmp.Rules.{hashing};
ghost use Rattle.std.proofs.Common.{rules};
ghost use Rattle.indexmap.specs.IndexSet.{insert_key};
ghost use Rattle.std.specs.List.{IsDistinct};

use crate::{Name, Want};
use indexmap::{Equivalent, IndexSet};
use std::alloc::Global;
use std::marker::Model;

/// Texts, each at its number: an engine's private numbering, so that keys are compared by number. A number once given
/// stands for its text as long as the `Names` is there.
#[derive(Drop)]
pub struct Names {
    texts: IndexSet<Name>,
}

impl Model for Names {
    ghost use Rattle.std.specs.Prelude.{ℕ, List};

    ghost Value = { List (List ℕ) };

    ghost view = { λ n. n.texts.keys };

    ghost use Rattle.std.specs.Prelude.{nat_eq};
    ghost use Rattle.std.specs.List.{IsDistinct};
    ghost use Rattle.std.specs.Cmp.Lexicographic.{pointwise};

    ghost invariant = { λ n. IsDistinct (pointwise nat_eq) n.texts.keys };
}

/// A text stands for the name that has it.
impl Equivalent<Name> for &[u8] {
    ghost equivalent = { λ q k. pointwise nat_eq q.now k };

    ghost respects_hash = { Prim.search (hashing, rules) };

    ghost respects_eq = { λ q x y. (lists_equiv nat_eq_equiv).congr q.now x y };

    fn equivalent(&self, key: &Name) -> bool {
        *self == key.bytes()
    }
}

impl Names {
    /// No text has a number yet.
    pub fn new(alloc: Global) -> Names
        ensures { result ≡ [] }
    {
        Names {
            texts: IndexSet::new(alloc),
        }
    }

    /// How many texts have numbers: these are the numbers below it. No two of them have the same text.
    pub fn count(&self) -> u64
        ensures count { result ≡ length self.now }
        ensures distinct { IsDistinct (pointwise nat_eq) self.now }
    {
        self.texts.len() as u64
    }

    /// The number of a text, which is a new one where it has none.
    pub fn intern(&mut self, text: &[u8]) -> Result<u64, Want>
        ensures number { IfOk result (λ n. slice_get self.new n ≡ Some text.now) }
        ensures texts { OnOk result (self.new ≡ insert_key (pointwise nat_eq) self.old text.now) }
        ensures distinct { IsDistinct (pointwise nat_eq) self.new }
        ensures err { OnErr result (self.new ≡ self.old) }
    {
        if let Some(number) = self.texts.get_index_of(text) {
            return Ok(number as u64);
        }
        let name = Name::of(*self.texts.allocator(), text)?;
        let (number, _) = self.texts.insert_full(name)?;
        Ok(number as u64)
    }

    /// The text of a number that this numbering has given.
    pub fn text(&self, number: u64) -> &[u8]
        requires { number < length self.now }
        ensures { slice_get self.now number ≡ Some result.now }
    {
        let texts = self.texts.as_slice();
        texts[number as usize].bytes()
    }
}
