// The variables of a term that an answer shows.
ghost use Rattle.std.specs.Prelude.{◌≡◌, []};
ghost use Rattle.std.specs.Cmp.Lexicographic.{pointwise, lists_per};

use crate::Name;
use std::alloc::{AllocError, Global};
use std::marker::Model;

/// A variable of a term, by its name in the text and its number in the term.
#[derive(Debug, Drop, Clone, PartialEq)]
pub struct Shown {
    pub name: Name,
    pub var: u64,
}

/// The variables that are shown, in order.
#[derive(Debug, Drop)]
pub struct ShownVariables {
    items: Vec<Shown>,
}

impl Model for ShownVariables {
    ghost use Rattle.std.specs.Prelude.{List};
    ghost use Rattle.prolog_terms.specs.declared.shown.Shown.{Shown};

    ghost Value = { List Shown };

    ghost view = { λ s. s.items.items };
}

impl ShownVariables {
    /// No variable is shown.
    pub fn new(alloc: Global) -> ShownVariables
        ensures { result ≡ [] }
    {
        ShownVariables {
            items: Vec::new(alloc),
        }
    }

    /// These variables.
    pub fn from_vec(items: Vec<Shown>) -> ShownVariables
        ensures { result ≡ items.items }
    {
        ShownVariables { items }
    }

    /// The variables, in order.
    pub fn items(&self) -> &[Shown]
        ensures { result.now ≡ self.now }
    {
        self.items.as_slice()
    }

    /// The variables, in order, for use of their own.
    pub fn into_vec(self) -> Vec<Shown>
        ensures { result.items ≡ self }
    {
        self.items
    }
}

impl Clone for ShownVariables {
    ghost is_clone = { λ a b. b ≡ a };

    fn clone(&self) -> Result<ShownVariables, AllocError> {
        Ok(ShownVariables {
            items: self.items.clone()?,
        })
    }
}

impl PartialEq for ShownVariables {
    ghost use Rattle.prolog_terms.specs.contracts.shown.ShownPartialEq.TheImpl.Laws.{laws-law};

    ghost eq = { pointwise ⟦<Shown as PartialEq>⟧.eq };

    ghost laws = { lists_per laws-law };

    fn eq(&self, other: &ShownVariables) -> bool
        ensures { result ≡ pointwise ⟦<Shown as PartialEq>⟧.eq self.now other.now }
    {
        self.items.as_slice() == other.items.as_slice()
    }
}
