// Balls, and the numbers of `halt`.
ghost use Rattle.std.specs.Prelude.{◌≡◌, ◌+◌, IfOk, OnOk, OnErr};
ghost use Rattle.prolog_terms.specs.Substitutions.{beyond, renamed};
ghost use Rattle.wam_machine.specs.Balls.{IsThrown, IsCode};
ghost use Rattle.wam_machine.specs.Terms.{AreTerms, IsBuilt, KeepsCells, said, built};

use crate::shown::beyond_of;
use crate::terms::Terms;
use prolog_terms::{Term, Want, Whole};
use term_store::{Cell, View};

/// What a term is as a ball.
#[derive(Drop)]
pub(crate) enum Thrown {
    Unbound,
    /// A copy, with its variables numbered from 0.
    Ball(Term),
}

/// What a term is as the number of a `halt`.
pub(crate) enum Code {
    Unbound,
    Number(Whole),
    Other,
}

/// What a term is as a ball.
pub(crate) fn as_ball<C>(terms: &Terms<C>, ball: Cell) -> Result<Thrown, Want>
    requires terms { AreTerms terms.now }
    requires ball { IsBuilt terms.now ball }
    ensures { IfOk result (IsThrown (built terms.now ball)) }
{
    terms.store.known();
    match terms.store.look(ball) {
        View::Variable(_) => Ok(Thrown::Unbound),
        _ => Ok(Thrown::Ball(terms.store.read_back(&terms.names, ball)?)),
    }
}

/// What a term is as the number of a `halt`.
pub(crate) fn as_code<C>(terms: &Terms<C>, cell: Cell) -> Code
    requires terms { AreTerms terms.now }
    requires cell { IsBuilt terms.now cell }
    ensures { IsCode (built terms.now cell) result }
{
    terms.store.known();
    match terms.store.look(cell) {
        View::Variable(_) => Code::Unbound,
        View::Integer(number) => Code::Number(number),
        View::Atom(_) => Code::Other,
        View::Compound(_, _) => Code::Other,
    }
}

/// Puts a ball, whose variables are new ones.
pub(crate) fn put_ball<C>(terms: &mut Terms<C>, ball: &Term) -> Result<Cell, Want>
    requires { AreTerms terms.old }
    ensures terms { OnOk result (AreTerms terms.new) }
    ensures said { OnOk result (said terms.new ≡ record (said terms.old) { fresh = (said terms.old).fresh + beyond ball.now }) }
    ensures cells { OnOk result (KeepsCells terms.old terms.new) }
    ensures cell { IfOk result (IsBuilt terms.new) }
    ensures ball { IfOk result (λ c. built terms.new c ≡ renamed (said terms.old).fresh ball.now) }
    ensures err { OnErr result ((said terms.new).stack ≡ (said terms.old).stack) }
{
    terms.store.known();
    let beyond = beyond_of(ball)?;
    let from = terms.store.fresh(beyond)?;
    let cell = terms.store.put(&mut terms.names, ball, from)?;
    Ok(cell)
}
