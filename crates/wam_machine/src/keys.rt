// The keys of a goal, as it stands.
ghost use Rattle.std.specs.Prelude.{◌≡◌, ◌<◌, length, option_map, slice_get, IfSome};
ghost use Rattle.call_patterns.specs.Keys.{keys as keys_in, key as key_in, argument as argument_in, arguments as arguments_in};
ghost use Rattle.call_patterns.specs.Calls.{AreKeysOf, IsKeyOf, key_of, goal_keys};
ghost use Rattle.call_patterns.specs.Filling.{IsKeyAt};
ghost use Rattle.term_store.specs.Terms.{HasTerm, term_of};
ghost use Rattle.wam_machine.specs.Terms.{AreTerms, IsBuilt, built};

use crate::terms::Terms;
use call_patterns::{Key, Keys};
use term_store::{Cell, View};

/// How many positions a term has.
const POSITIONS: usize = 40;

/// The keys of what a goal stands for.
pub(crate) fn keys<C>(terms: &Terms<C>, goal: Cell) -> Keys
    requires terms { AreTerms terms.now }
    requires goal { IsBuilt terms.now goal }
    ensures numbered { AreKeysOf terms.now.names result.at }
    ensures keys { goal_keys terms.now.names result.at ≡ keys_in (built terms.now goal) }
{
    let mut at = [None; POSITIONS];
    for position in 0..POSITIONS {
        at[position] = key_at(terms, goal, position);
    }
    Keys { at }
}

/// The key at a position of what a cell stands for.
fn key_at<C>(terms: &Terms<C>, cell: Cell, position: usize) -> Option<Key>
    requires terms { AreTerms terms.now }
    requires cell { HasTerm (length terms.now.names) terms.now.store cell }
    ensures { IsKeyAt terms.now.names (term_of terms.now.names terms.now.store cell) position result }
{
    match argument(terms, cell, position / 5) {
        None => None,
        Some(outer) => {
            if position % 5 == 0 {
                return key(terms, outer);
            }
            match argument(terms, outer, position % 5 - 1) {
                None => None,
                Some(inner) => key(terms, inner),
            }
        }
    }
}

/// An argument of what a cell stands for.
fn argument<C>(terms: &Terms<C>, cell: Cell, index: usize) -> Option<Cell>
    requires terms { AreTerms terms.now }
    requires cell { HasTerm (length terms.now.names) terms.now.store cell }
    ensures valid { IfSome result (HasTerm (length terms.now.names) terms.now.store) }
    ensures argument { option_map (term_of terms.now.names terms.now.store) result ≡ argument_in (arguments_in (term_of terms.now.names terms.now.store cell)) index }
{
    terms.store.known();
    match terms.store.look(cell) {
        View::Compound(_, arguments) => cell_at(arguments, index),
        _ => None,
    }
}

/// The cell at an index.
fn cell_at(cells: &[Cell], index: usize) -> Option<Cell>
    ensures { result ≡ slice_get cells.now index }
{
    cells.get(index).copied()
}

/// The key of what a cell stands for.
fn key<C>(terms: &Terms<C>, cell: Cell) -> Option<Key>
    requires terms { AreTerms terms.now }
    requires cell { HasTerm (length terms.now.names) terms.now.store cell }
    ensures numbered { IsKeyOf terms.now.names result }
    ensures key { option_map (key_of terms.now.names) result ≡ key_in (term_of terms.now.names terms.now.store cell) }
{
    terms.store.known();
    match terms.store.look(cell) {
        View::Variable(_) => None,
        View::Integer(value) => Some(Key::Int(value)),
        View::Atom(name) => Some(Key::Atom(name)),
        View::Compound(name, arguments) => Some(Key::Functor(name, arguments.len() as u32)),
    }
}
