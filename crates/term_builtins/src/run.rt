// A call of a builtin.
ghost use Rattle.std.specs.Prelude.{◌<◌, All, length, IfOk, ◌≡◌};
ghost use Rattle.term_store.specs.Terms.{term_of, trees_of, HasTerm, AreNamed};
ghost use Rattle.term_store.specs.Later.{IsTakenBack};
ghost use Rattle.term_store.specs.Heads.{IsFurther};
ghost use Rattle.term_builtins.specs.Meanings.{meaning};
ghost use Rattle.term_builtins.specs.Table.{builtins, indicator};
ghost use Rattle.term_builtins.specs.Answers.{IsDone, row_at};
ghost use Rattle.term_builtins.specs.declared.run.Did.TheVariants as did;
ghost use Rattle.prolog_terms.specs.Faults.{fault_tree};

use crate::answer::{Answer, come_to};
use crate::table::row_of;
use prolog_terms::{Bytes, Fault, Indicator, Name, Names, Term, Want, fault_term};
use prolog_writer::Style;
use std::alloc::Global;
use term_store::{Cell, Store};

/// What a call of a builtin gave.
#[derive(Drop)]
pub enum Did {
    /// It holds, and variables are bound by it.
    Yes,
    /// It fails, and nothing is bound.
    No,
    /// It holds, and writes this term in this style; nothing is bound.
    Wrote(Style, Term),
    /// It holds, and writes these bytes; nothing is bound.
    Put(Bytes),
    /// It raises this ball, an error at its own name and arity, and nothing is bound.
    Ball(Term),
    /// An allocation was refused. Variables may be bound and compounds made, which going back to an earlier mark takes
    /// away.
    Want,
}

/// Calls the builtin of a row of the table with these arguments: its place is that in `BUILTINS`.
pub fn run_builtin(
    alloc: Global,
    store: &mut Store,
    names: &mut Names,
    row: usize,
    args: &[Cell],
) -> Did
    requires row { row < length builtins }
    requires named { AreNamed (length names.old) store.old }
    requires valid { All (HasTerm (length names.old) store.old) args.now }
    ensures further { IsFurther store.old names.old store.new names.new }
    ensures done { IsDone names.new store.old store.new (indicator (row_at builtins row)) (meaning (row_at builtins row).what store.old.variables (trees_of (term_of names.new store.old) args.now)) result }
    ensures want { result ≡ did.Want → IsTakenBack store.old store.new }
{
    match try_run(alloc, store, names, row, args) {
        Ok(did) => did,
        Err(Want) => Did::Want,
    }
}

fn try_run(
    alloc: Global,
    store: &mut Store,
    names: &mut Names,
    row: usize,
    args: &[Cell],
) -> Result<Did, Want>
    requires row { row < length builtins }
    requires named { AreNamed (length names.old) store.old }
    requires valid { All (HasTerm (length names.old) store.old) args.now }
    ensures further { IsFurther store.old names.old store.new names.new }
    ensures done { IfOk result (IsDone names.new store.old store.new (indicator (row_at builtins row)) (meaning (row_at builtins row).what store.old.variables (trees_of (term_of names.new store.old) args.now))) }
{
    store.known();
    let _ = names.count();
    let builtin = row_of(row);
    match come_to(alloc, store, names, builtin.what, args)? {
        Answer::Holds(true) => Ok(Did::Yes),
        Answer::Holds(false) => Ok(Did::No),
        Answer::Equates(left, right) => {
            let mark = store.mark();
            if store.unify(left, right)? {
                return Ok(Did::Yes);
            }
            store.undo_to(mark);
            Ok(Did::No)
        }
        Answer::Writes(style, term) => Ok(Did::Wrote(style, term)),
        Answer::Puts(bytes) => Ok(Did::Put(bytes)),
        Answer::Raises(fault) => Ok(Did::Ball(ball(alloc, fault, row)?)),
    }
}

/// The error of a fault at the builtin of a row.
fn ball(alloc: Global, fault: Fault, row: usize) -> Result<Term, Want>
    requires row { row < length builtins }
    ensures { IfOk result (λ t. t ≡ (fault_tree fault (indicator (row_at builtins row)))) }
{
    let builtin = row_of(row);
    let at = Indicator {
        name: Name::of(alloc, builtin.name)?,
        arity: builtin.arity,
    };
    fault_term(alloc, &fault, &at)
}
