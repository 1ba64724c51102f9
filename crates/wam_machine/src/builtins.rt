// Builtins on terms, by their place in the table.
ghost use Rattle.std.specs.Prelude.{◌≡◌, ◌<◌, All, IfOk, OnOk, OnErr, length};
ghost use Rattle.term_store.specs.Terms.{trees_of};
ghost use Rattle.term_builtins.specs.Table.{builtins};
ghost use Rattle.wam_machine.specs.Terms.{AreTerms, IsBuilt, built, said};
ghost use Rattle.wam_machine.specs.Called.{IsRowCalled};
ghost use Rattle.prolog_writer.specs.Pieces.{written};

use crate::terms::Terms;
use prolog_terms::{Bytes, Ops, Term, Want};
use prolog_writer::{Style, write};
use std::alloc::Global;
use term_builtins::{Did, run_builtin};
use term_store::Cell;

/// What the call of a builtin gave.
#[derive(Drop)]
pub(crate) enum Called {
    /// It holds, and variables are bound by it.
    Yes,
    /// It fails, and nothing is bound.
    No,
    /// It holds, and writes these bytes; nothing is bound.
    Wrote(Bytes),
    /// It raises this ball, and nothing is bound.
    Ball(Term),
}

/// The greatest priority that a term has.
const PRIORITY: u16 = 1200;

/// Calls the builtin of a row of the table with these arguments; what it writes it writes under these operators.
pub(crate) fn call_row<C>(
    alloc: Global,
    terms: &mut Terms<C>,
    ops: &Ops,
    row: usize,
    args: &[Cell],
) -> Result<Called, Want>
    requires terms { AreTerms terms.old }
    requires row { row < length builtins }
    requires args { All (IsBuilt terms.old) args.now }
    ensures terms { OnOk result (AreTerms terms.new) }
    ensures called { IfOk result (IsRowCalled ops.now row (trees_of (built terms.old) args.now) (said terms.old) (said terms.new)) }
    ensures err { OnErr result ((said terms.new).stack ≡ (said terms.old).stack) }
{
    terms.store.known();
    match run_builtin(alloc, &mut terms.store, &mut terms.names, row, args) {
        Did::Yes => Ok(Called::Yes),
        Did::No => Ok(Called::No),
        Did::Wrote(style, term) => Ok(Called::Wrote(text_of(alloc, ops, style, &term)?)),
        Did::Put(bytes) => Ok(Called::Wrote(bytes)),
        Did::Ball(ball) => Ok(Called::Ball(ball)),
        Did::Want => Err(Want),
    }
}

/// The text of a term in a style, under these operators.
fn text_of(alloc: Global, ops: &Ops, style: Style, term: &Term) -> Result<Bytes, Want>
    ensures { IfOk result (λ bytes. bytes ≡ written ops.now style 1200 term.now) }
{
    let text = write(alloc, term, ops, style, PRIORITY)?;
    Bytes::of(alloc, text.as_slice())
}
