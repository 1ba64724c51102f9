// Digits of a base, and their value (docs/LANGUAGE.md, Tokens).
ghost use Rattle.std.specs.Prelude.{◌≡◌, ◌<◌, ◌≤◌, length};
ghost use Rattle.std.specs.List.{prefix_len};
ghost use Rattle.prolog_lexer.specs.Digits as spec;

#[tactic(auto, unfolding(crate::specs::Digits::digit))]
fn digit(byte: u8) -> u8
    ensures value { result ≡ spec.digit byte }
    ensures small { result ≤ 16 }
{
    match byte {
        b'0'..=b'9' => byte - b'0',
        b'a'..=b'f' => byte - b'a' + 10,
        b'A'..=b'F' => byte - b'A' + 10,
        _ => 16,
    }
}

pub(crate) fn is_digit_of(base: u8, byte: u8) -> bool
    ensures { result ≡ spec.is_digit_of base byte }
{
    digit(byte) < base
}

pub(crate) fn begins_with_digit(base: u8, text: &[u8]) -> bool
    ensures { result ≡ spec.begins_with_digit base text.now }
{
    match text {
        [] => false,
        [b, ..] => is_digit_of(base, *b),
    }
}

pub(crate) fn digits_len(base: u8, text: &[u8]) -> usize
    ensures value { result ≡ prefix_len (spec.is_digit_of base) text.now }
    ensures within { result ≤ length text.now }
{
    text.iter().take_while(|b| is_digit_of(base, **b)).count()
}

/// The value of the digits, where it is at most this.
pub(crate) fn value_of(base: u8, most: u64, digits: &[u8]) -> Option<u64>
    requires low { 0 < base }
    requires high { base ≤ 16 }
    ensures { result ≡ spec.at_most most (spec.value_from base 0 digits.now) }
{
    let limit = u128::from(most);
    let mut value: u128 = 0;
    for d in digits {
        value = u128::from(base) * value + u128::from(digit(*d));
        if value > limit {
            return None;
        }
    }
    Some(value as u64)
}
