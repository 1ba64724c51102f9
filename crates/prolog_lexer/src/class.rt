// The class of a byte (docs/LANGUAGE.md, Tokens).
ghost use Rattle.std.specs.Prelude.{◌≡◌};
ghost use Rattle.prolog_lexer.specs.Classes as spec;

#[derive(Clone, Copy, Debug)]
pub(crate) enum Class {
    Layout,
    Small,
    Capital,
    Digit,
    Symbol,
    Solo,
    Punctuation,
    Percent,
    Quote,
    DoubleQuote,
    Foreign,
}

#[tactic(auto, unfolding(crate::specs::Classes::class))]
pub(crate) fn class_of(byte: u8) -> Class
    ensures { result ≡ spec.class byte }
{
    match byte {
        9..=13 | 32 => Class::Layout,
        b'a'..=b'z' | 128..=255 => Class::Small,
        b'A'..=b'Z' | b'_' => Class::Capital,
        b'0'..=b'9' => Class::Digit,
        b'!' | b';' => Class::Solo,
        b'(' | b')' | b'[' | b']' | b'{' | b'}' | b',' | b'|' => Class::Punctuation,
        b'%' => Class::Percent,
        b'\'' => Class::Quote,
        b'"' => Class::DoubleQuote,
        b'+'
        | b'-'
        | b'*'
        | b'/'
        | b'\\'
        | b'^'
        | b'<'
        | b'>'
        | b'='
        | b'~'
        | b':'
        | b'.'
        | b'?'
        | b'@'
        | b'#'
        | b'&'
        | b'$' => Class::Symbol,
        _ => Class::Foreign,
    }
}

pub(crate) fn is_word(byte: u8) -> bool
    ensures { result ≡ spec.is_word byte }
{
    match class_of(byte) {
        Class::Small | Class::Capital | Class::Digit => true,
        _ => false,
    }
}

pub(crate) fn is_symbol(byte: u8) -> bool
    ensures { result ≡ spec.is_symbol byte }
{
    match class_of(byte) {
        Class::Symbol => true,
        _ => false,
    }
}

pub(crate) fn is_layout(byte: u8) -> bool
    ensures { result ≡ spec.is_layout byte }
{
    match class_of(byte) {
        Class::Layout => true,
        _ => false,
    }
}
