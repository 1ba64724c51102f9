// The pattern of a call: where an index looks.

ghost use Rattle.call_patterns.specs.Patterns.{IsPattern, has_key as is_key_there, pattern, positions};
ghost use Rattle.call_patterns.specs.Calls.{goal_keys};
ghost use Rattle.std.specs.Prelude.{List, [], take, ℕ, ◌++◌, ◌<◌, ◌∷◌, ◌≡◌};

use crate::key::{Keys, Position};

/// At most three positions, in ascending order: the first `count` of `at`. The others are position 0.
#[derive(Clone, Copy, Debug, PartialEq, Eq)]
pub struct Pattern {
    pub count: u8,
    pub at: [Position; 3],
}

/// How many arguments have a position of their own.
const ARGUMENTS: u8 = 8;

/// The position of an argument is its number times this.
const POSITIONS_EACH: u8 = 5;

/// Whether there is a key at a position.
fn has_key(keys: &Keys, position: u8) -> bool
    ensures { (names : List (List ℕ)) → result ≡ is_key_there (goal_keys names keys.now.at) position }
{
    match keys.at.get(position as usize) {
        Some(Some(_)) => true,
        _ => false,
    }
}

/// The pattern with one position more, if there is room for it.
fn with_position(pattern: Pattern, position: u8) -> Pattern
    requires pattern { IsPattern pattern }
    requires position { position < 40 }
    ensures pattern { IsPattern result }
    ensures positions { positions result ≡ take 3 (positions pattern ++ position ∷ []) }
{
    let [first, second, _] = pattern.at;
    let none = Position(0);
    let new = Position(position);
    match pattern.count {
        0 => Pattern {
            count: 1,
            at: [new, none, none],
        },
        1 => Pattern {
            count: 2,
            at: [first, new, none],
        },
        2 => Pattern {
            count: 3,
            at: [first, second, new],
        },
        _ => pattern,
    }
}

fn empty() -> Pattern
    ensures pattern { IsPattern result }
    ensures positions { positions result ≡ [] }
{
    Pattern {
        count: 0,
        at: [Position(0); 3],
    }
}

/// The pattern of a call's keys: the first argument positions that have a key, in order, three at most, whatever texts the
/// keys' names stand for. It takes no memory.
pub fn pattern_of(keys: &Keys) -> Pattern
    ensures pattern { IsPattern result }
    ensures positions { (names : List (List ℕ)) → positions result ≡ pattern (goal_keys names keys.now.at) }
{
    let mut pattern = empty();
    for argument in 0..ARGUMENTS {
        let position = POSITIONS_EACH * argument;
        if has_key(keys, position) {
            pattern = with_position(pattern, position);
        }
    }
    pattern
}
