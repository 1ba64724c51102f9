// The variables of a term, in order of first occurrence.
ghost use Rattle.std.specs.Prelude.{◌≡◌, ◌<◌, [], length, false, IfOk, IfSome, IsNone, OnErr};
ghost use Rattle.prolog_terms.specs.Tree.{variable};
ghost use Rattle.prolog_terms.specs.Substitutions.{variables_after, contains, place_of};

use prolog_terms::Want;
use std::alloc::Global;
use std::collections::BTreeMap;
use std::marker::Model;

/// Variables that have been met, each once, in order.
#[derive(Drop)]
pub(crate) struct Seen {
    order: Vec<u64>,
    places: BTreeMap<u64, u64>,
}

impl Model for Seen {
    ghost use Rattle.std.specs.Prelude.{ℕ, List};

    ghost Value = { List ℕ };

    ghost use Rattle.term_store.specs.Inside.{ArePlaced};

    ghost view = { λ s. s.order.items };

    ghost invariant = { λ s. ArePlaced s.order.items s.places };
}

impl Seen {
    pub fn new(alloc: Global) -> Seen
        ensures { result ≡ [] }
    {
        Seen {
            order: Vec::new(alloc),
            places: BTreeMap::new(alloc),
        }
    }

    /// How many have been met.
    pub fn count(&self) -> u64
        ensures { result ≡ length self.now }
    {
        self.order.len() as u64
    }

    /// The place of a variable that has been met.
    pub fn find(&self, number: u64) -> Option<u64>
        ensures place { IfSome result (λ n. n ≡ place_of number self.now) }
        ensures low { IfSome result (λ n. n < length self.now) }
        ensures none { IsNone result → contains number self.now ≡ false }
    {
        self.places.get(&number).copied()
    }

    /// The place of a variable, which is the next one where it is met first.
    pub fn place(&mut self, number: u64) -> Result<u64, Want>
        ensures place { IfOk result (λ n. n ≡ place_of number self.new) }
        ensures seen { IfOk result (λ n. self.new ≡ variables_after self.old (variable number)) }
        ensures err { OnErr result (self.new ≡ self.old) }
    {
        if let Some(place) = self.places.get(&number) {
            return Ok(*place);
        }
        let place = self.order.len() as u64;
        self.order.reserve(1)?;
        self.places.insert(number, place)?;
        self.order.push(number)?;
        Ok(place)
    }
}
