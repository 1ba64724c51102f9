// The table of the builtins.
ghost use Rattle.std.specs.Prelude.{◌≡◌, ◌<◌, length, map};
ghost use Rattle.term_builtins.specs.Table.{builtins};
ghost use Rattle.term_builtins.specs.Answers.{row_at};
ghost use Rattle.term_builtins.specs.Rows.{told};

use prolog_writer::Style;

/// How two values stand in an order.
#[derive(Clone, Copy, Debug, Drop, PartialEq)]
pub enum Relation {
    Less,
    AtMost,
    Greater,
    AtLeast,
    Equal,
    Different,
}

/// What a term is asked to be.
#[derive(Clone, Copy, Debug, Drop, PartialEq)]
pub enum Kind {
    /// An unbound variable.
    Variable,
    /// Anything else.
    Bound,
    Atom,
    Integer,
    /// An atom or an integer.
    Atomic,
    Compound,
    /// An atom or a compound.
    Callable,
}

/// What a builtin does (docs/LANGUAGE.md, "Builtins").
#[derive(Clone, Copy, Debug, Drop, PartialEq)]
pub enum What {
    /// Two terms are made one.
    Unify,
    /// Two terms can't be made one.
    Differ,
    /// Two terms stand so in the standard order.
    Order(Relation),
    /// How two terms stand in the standard order.
    Compare,
    /// A term is of a kind.
    Test(Kind),
    /// A term's name and arity, or a term of a name and an arity.
    Functor,
    /// An argument by its number.
    Argument,
    /// A term as the list of its name and its arguments.
    Univ,
    /// A copy with new variables.
    Copy,
    AtomLength,
    AtomCodes,
    AtomChars,
    CharCode,
    /// A term is written.
    Write(Style),
    /// Byte 10 is written.
    NewLine,
    /// An atom of one byte is written.
    PutChar,
    /// The value of an arithmetic term.
    Evaluate,
    /// The values of two arithmetic terms stand so.
    Numbers(Relation),
}

/// A row of the table.
#[derive(Clone, Copy, Debug, Drop)]
pub struct Builtin {
    pub name: &'static [u8],
    pub arity: u32,
    pub what: What,
}

/// The builtins on terms, in order of the bytes of their names, and then of how many arguments they have.
pub const BUILTINS: [Builtin; 38] = [
    Builtin {
        name: b"<",
        arity: 2,
        what: What::Numbers(Relation::Less),
    },
    Builtin {
        name: b"=",
        arity: 2,
        what: What::Unify,
    },
    Builtin {
        name: b"=..",
        arity: 2,
        what: What::Univ,
    },
    Builtin {
        name: b"=:=",
        arity: 2,
        what: What::Numbers(Relation::Equal),
    },
    Builtin {
        name: b"=<",
        arity: 2,
        what: What::Numbers(Relation::AtMost),
    },
    Builtin {
        name: b"==",
        arity: 2,
        what: What::Order(Relation::Equal),
    },
    Builtin {
        name: b"=\\=",
        arity: 2,
        what: What::Numbers(Relation::Different),
    },
    Builtin {
        name: b">",
        arity: 2,
        what: What::Numbers(Relation::Greater),
    },
    Builtin {
        name: b">=",
        arity: 2,
        what: What::Numbers(Relation::AtLeast),
    },
    Builtin {
        name: b"@<",
        arity: 2,
        what: What::Order(Relation::Less),
    },
    Builtin {
        name: b"@=<",
        arity: 2,
        what: What::Order(Relation::AtMost),
    },
    Builtin {
        name: b"@>",
        arity: 2,
        what: What::Order(Relation::Greater),
    },
    Builtin {
        name: b"@>=",
        arity: 2,
        what: What::Order(Relation::AtLeast),
    },
    Builtin {
        name: b"\\=",
        arity: 2,
        what: What::Differ,
    },
    Builtin {
        name: b"\\==",
        arity: 2,
        what: What::Order(Relation::Different),
    },
    Builtin {
        name: b"arg",
        arity: 3,
        what: What::Argument,
    },
    Builtin {
        name: b"atom",
        arity: 1,
        what: What::Test(Kind::Atom),
    },
    Builtin {
        name: b"atom_chars",
        arity: 2,
        what: What::AtomChars,
    },
    Builtin {
        name: b"atom_codes",
        arity: 2,
        what: What::AtomCodes,
    },
    Builtin {
        name: b"atom_length",
        arity: 2,
        what: What::AtomLength,
    },
    Builtin {
        name: b"atomic",
        arity: 1,
        what: What::Test(Kind::Atomic),
    },
    Builtin {
        name: b"callable",
        arity: 1,
        what: What::Test(Kind::Callable),
    },
    Builtin {
        name: b"char_code",
        arity: 2,
        what: What::CharCode,
    },
    Builtin {
        name: b"compare",
        arity: 3,
        what: What::Compare,
    },
    Builtin {
        name: b"compound",
        arity: 1,
        what: What::Test(Kind::Compound),
    },
    Builtin {
        name: b"copy_term",
        arity: 2,
        what: What::Copy,
    },
    Builtin {
        name: b"functor",
        arity: 3,
        what: What::Functor,
    },
    Builtin {
        name: b"integer",
        arity: 1,
        what: What::Test(Kind::Integer),
    },
    Builtin {
        name: b"is",
        arity: 2,
        what: What::Evaluate,
    },
    Builtin {
        name: b"nl",
        arity: 0,
        what: What::NewLine,
    },
    Builtin {
        name: b"nonvar",
        arity: 1,
        what: What::Test(Kind::Bound),
    },
    Builtin {
        name: b"number",
        arity: 1,
        what: What::Test(Kind::Integer),
    },
    Builtin {
        name: b"put_char",
        arity: 1,
        what: What::PutChar,
    },
    Builtin {
        name: b"unify_with_occurs_check",
        arity: 2,
        what: What::Unify,
    },
    Builtin {
        name: b"var",
        arity: 1,
        what: What::Test(Kind::Variable),
    },
    Builtin {
        name: b"write",
        arity: 1,
        what: What::Write(Style::Plain),
    },
    Builtin {
        name: b"write_canonical",
        arity: 1,
        what: What::Write(Style::Canonical),
    },
    Builtin {
        name: b"writeq",
        arity: 1,
        what: What::Write(Style::Quoted),
    },
];

/// The rows of `BUILTINS`: they are those of the table in `specs/Table.antt`, one by one and in their order.
pub fn builtin_rows() -> &'static [Builtin]
    ensures { map told result.now ≡ builtins }
{
    BUILTINS.as_slice()
}

/// The row at a place of `BUILTINS`.
pub(crate) fn row_of(place: usize) -> Builtin
    requires { place < length builtins }
    ensures name { result.name.now ≡ (row_at builtins place).name }
    ensures arity { result.arity ≡ (row_at builtins place).arity }
    ensures what { result.what ≡ (row_at builtins place).what }
{
    row_in(builtin_rows(), place)
}

/// The row at a place of rows that are those of the table.
fn row_in(rows: &[Builtin], place: usize) -> Builtin
    requires rows { map told rows.now ≡ builtins }
    requires place { place < length builtins }
    ensures name { result.name.now ≡ (row_at builtins place).name }
    ensures arity { result.arity ≡ (row_at builtins place).arity }
    ensures what { result.what ≡ (row_at builtins place).what }
{
    rows[place]
}
