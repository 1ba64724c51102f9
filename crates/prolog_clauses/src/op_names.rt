// The names of operators that are declared.
ghost use Rattle.std.specs.Prelude.{◌≡◌};

use prolog_terms::Name;
use std::marker::Model;

/// Names of operators, in order.
#[derive(Debug, Drop)]
pub struct OpNames {
    items: Vec<Name>,
}

impl Model for OpNames {
    ghost use Rattle.std.specs.Prelude.{ℕ, List};

    ghost Value = { List (List ℕ) };

    ghost view = { λ n. n.items.items };
}

impl OpNames {
    /// These names.
    pub fn from_vec(items: Vec<Name>) -> OpNames
        ensures { result ≡ items.items }
    {
        OpNames { items }
    }

    /// The names, in order.
    pub fn items(&self) -> &[Name]
        ensures { result.now ≡ self.now }
    {
        self.items.as_slice()
    }
}
