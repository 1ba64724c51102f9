// The integers of the language.

/// An integer of the language: 64 bits, signed (ISO/IEC 13211-1, 7.1.2, lets an implementation bound its integers).
pub type Whole = i64;

/// The least integer.
pub const WHOLE_MIN: Whole = i64::MIN;

/// The greatest integer.
pub const WHOLE_MAX: Whole = i64::MAX;
