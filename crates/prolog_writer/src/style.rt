// The styles of a text.

/// How a term is written.
#[derive(Clone, Copy, Debug, PartialEq, Eq)]
pub enum Style {
    /// Names without quotes, and operators.
    Plain,
    /// Names in quotes where they need them, and operators.
    Quoted,
    /// Names in quotes where they need them, and no operators.
    Canonical,
}
