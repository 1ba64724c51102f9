// A list of words that is read one at a time.

ghost use Rattle.std.specs.Prelude.{List, length, slice_index, ℕ, ◌<◌, ◌≡◌};

/// A list of words that is read one at a time, and of which may be known only that it is one of several lists.
pub trait Words {
    /// The lists of words that it may be.
    ghost may_be: { Self → List ℕ → Type 0 };

    /// The word at a place, counted from 0, of each list that it may be from then on. There is at least one, and each is
    /// one that it might have been before. The place is within every list that it may be.
    fn word(&mut self, at: u64) -> u64
        requires { (words : List ℕ) → may_be self.old words → at < length words }
        ensures some { (words : List ℕ) × may_be self.new words }
        ensures narrows { (words : List ℕ) → may_be self.new words → may_be self.old words }
        ensures gives { (words : List ℕ) → may_be self.new words → slice_index words at ≡ result };
}

/// A vector is its own list alone.
impl Words for Vec<u64> {
    ghost may_be = { λ vector words. words ≡ vector.items };

    fn word(&mut self, at: u64) -> u64 {
        self[at as usize]
    }
}
