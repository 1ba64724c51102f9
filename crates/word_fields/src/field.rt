// One field of a word: it is read and set, and all else stays.

ghost use Rattle.std.specs.Int.{bit_at};
ghost use Rattle.std.specs.Prelude.{ℕ, ◌+◌, ◌<◌, ◌^◌, ◌≡◌, ◌≤◌, ◌⊎◌};
ghost use Rattle.word_fields.specs.Fields.{IsField, field, with_field};

/// The field of a word's `BITS` bits from its bit `AT` on, the lowest bit being bit 0. It has at least one bit, and ends
/// within the word.
pub struct Field<const AT: u32, const BITS: u32>;

impl<const AT: u32, const BITS: u32> Field<AT, BITS> {
    /// The value that stands in the field.
    pub fn get(word: u64) -> u64
        requires { IsField AT BITS }
        ensures value { result ≡ field AT BITS word }
        ensures small { result < 2 ^ BITS }
    {
        (word >> AT) & (u64::MAX >> (64 - BITS))
    }

    /// The word with the value in the field, and every bit outside of the field as before.
    pub fn set(word: u64, value: u64) -> u64
        requires field { IsField AT BITS }
        requires small { value < 2 ^ BITS }
        ensures word { result ≡ with_field AT BITS word value }
        ensures value { field AT BITS result ≡ value }
        ensures outside { (i : ℕ) → (i < AT) ⊎ (AT + BITS ≤ i) → bit_at result i ≡ bit_at word i }
    {
        word - (Self::get(word) << AT) + (value << AT)
    }
}

/// A word with several of its fields set, one after another: `fields!(word, Low = 5, High = 7)`, where `Low` and `High`
/// name types `Field<..>`.
#[macro_export]
macro_rules! fields {
    ($word:expr $(, $field:ty = $value:expr)* $(,)?) => {{
        let word: u64 = $word;
        $(let word = <$field>::set(word, $value);)*
        word
    }};
}
