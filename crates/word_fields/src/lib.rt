//! Packed fields of a word of 64 bits, and lists of words that are read one at a time.
//!
//! `specs/Fields.antt` says what a field of a word is and which word has another value in it. `Field` is proved once for
//! every place and width, and `fields_stand_apart` says what a reader of a packed word needs of the others.
#![tactic(auto)]

mod field;
mod law;
mod words;

pub use field::Field;
pub use law::fields_stand_apart;
pub use words::Words;
