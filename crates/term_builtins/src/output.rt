// What is written.
ghost use Rattle.std.specs.Prelude.{length, IfOk};
ghost use Rattle.term_store.specs.Terms.{term_of, HasTerm, AreNamed};
ghost use Rattle.term_builtins.specs.Meanings.{putting};
ghost use Rattle.term_builtins.specs.Answers.{IsAnswer};

use crate::answer::Answer;
use crate::atoms::{Byte, char_of};
use prolog_terms::{Bytes, Names, Want};
use std::alloc::Global;
use term_store::{Cell, Store};

/// `put_char(C)`
pub(crate) fn put_char(
    alloc: Global,
    store: &Store,
    names: &Names,
    cell: Cell,
) -> Result<Answer, Want>
    requires named { AreNamed (length names.now) store.now }
    requires valid { HasTerm (length names.now) store.now cell }
    ensures answer { IfOk result (IsAnswer names.now store.now store.now (putting (term_of names.now store.now cell))) }
{
    match char_of(alloc, store, names, cell)? {
        Byte::Of(byte) => Ok(Answer::Puts(Bytes::of(alloc, &[byte])?)),
        Byte::Not(fault) => Ok(Answer::Raises(fault)),
    }
}
