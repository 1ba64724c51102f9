//! The most general unifier of two terms: its definition, its laws, and worked rows.
//!
//! `specs/Unifier.antt` defines it twice: by what it is (`IsUnifier`), and as a function that computes it (`unifier`).
//! Here are definitions and laws alone, and no code: an engine that unifies cites them in its contracts.
#![tactic(auto)]

mod law;

ghost use Rattle.term_unifier.specs.Unifier.{MguIsTheUnifier, UnifierIsOne};

pub use law::{bindings, laws, rows};

/// The unifier that is computed is the most general one, it is none exactly where no substitution unifies, and there is
/// one alone.
pub fn unifier()
    ensures meets { MguIsTheUnifier }
    ensures one { UnifierIsOne }
{}
