// Calls.

use call_patterns::Keys;
use prolog_terms::Names;

/// What a look is asked: a procedure, and the goal's keys with the names in which they are numbered.
#[derive(Clone, Copy)]
pub struct Call<'a> {
    pub procedure: u32,
    pub keys: &'a Keys,
    pub names: &'a Names,
}
