// A read-term that is refused, and what is written of it.
ghost use Rattle.std.specs.Prelude.{◌≡◌, ◌++◌, IfOk, OnOk};
ghost use Rattle.prolog_session.specs.Errors as errors;

use crate::putting::{put, put_number};
use prolog_terms::Want;
use std::alloc::Global;

/// The line in which a read-term begins that is refused, counted from 1, and the number of its fault.
#[derive(Clone, Copy, Debug, PartialEq, Eq)]
pub struct Refusal {
    pub line: u64,
    pub fault: u8,
}

/// These words as a text of their own.
pub fn text_of(alloc: Global, words: &str) -> Result<Vec<u8>, Want>
    ensures { IfOk result (λ text. text.items ≡ words.now) }
{
    let mut text = Vec::new(alloc);
    put(&mut text, words)?;
    Ok(text)
}

/// Puts the text of a refusal at the end of a text.
#[tactic(auto, unfolding(crate::specs::Errors::refusal_text))]
pub fn put_refusal(text: &mut Vec<u8>, refusal: Refusal) -> Result<(), Want>
    ensures { OnOk result (text.new.items ≡ text.old.items ++ errors.refusal_text refusal) }
{
    put(text, "error: line ")?;
    put_number(text, refusal.line.into())?;
    put(text, ": fault ")?;
    put_number(text, refusal.fault.into())?;
    put(text, ".\n")?;
    Ok(())
}
