// The operations of arithmetic, and their names.
ghost use Rattle.std.specs.Prelude.{◌≡◌};
ghost use Rattle.prolog_arith.specs.Arithmetic.{unary_of, binary_of, division_of, bits_of, operation_of};

/// An operation of one operand.
#[derive(Clone, Copy)]
pub(crate) enum Unary {
    /// `-`: the opposite.
    Opposite,
    /// `abs`: the absolute value.
    Absolute,
    /// `sign`: -1, 0 or 1.
    Signum,
    /// `\`: each bit turned.
    Complement,
}

/// An operation of two operands.
#[derive(Clone, Copy)]
pub(crate) enum Binary {
    /// `+`
    Sum,
    /// `-`
    Difference,
    /// `*`
    Product,
    /// `min`
    Least,
    /// `max`
    Greatest,
    /// `//`: the quotient, toward zero.
    Quotient,
    /// `rem`: what `//` leaves, with the sign of the dividend.
    Remainder,
    /// `mod`: what the floor of the quotient leaves, with the sign of the divisor.
    Modulo,
    /// `/\`: the bits that both have.
    BothBits,
    /// `\/`: the bits that one of them has.
    EitherBits,
    /// `<<`: times a power of two.
    ShiftLeft,
    /// `>>`: divided by a power of two, down to the floor.
    ShiftRight,
}

/// An operation.
#[derive(Clone, Copy)]
pub(crate) enum Operation {
    One(Unary),
    Two(Binary),
}

/// The operation of this name and so many operands, if there is one.
pub(crate) fn find(name: &[u8], arity: usize) -> Option<Operation>
    ensures { result ≡ operation_of name.now arity }
{
    match arity {
        1 => Some(Operation::One(find_unary(name)?)),
        2 => Some(Operation::Two(find_binary(name)?)),
        _ => None,
    }
}

fn find_unary(name: &[u8]) -> Option<Unary>
    ensures { result ≡ unary_of name.now }
{
    if name == b"-".as_slice() {
        return Some(Unary::Opposite);
    }
    if name == b"abs".as_slice() {
        return Some(Unary::Absolute);
    }
    if name == b"sign".as_slice() {
        return Some(Unary::Signum);
    }
    if name == b"\\".as_slice() {
        return Some(Unary::Complement);
    }
    None
}

fn find_binary(name: &[u8]) -> Option<Binary>
    ensures { result ≡ binary_of name.now }
{
    if name == b"+".as_slice() {
        return Some(Binary::Sum);
    }
    if name == b"-".as_slice() {
        return Some(Binary::Difference);
    }
    if name == b"*".as_slice() {
        return Some(Binary::Product);
    }
    if name == b"min".as_slice() {
        return Some(Binary::Least);
    }
    if name == b"max".as_slice() {
        return Some(Binary::Greatest);
    }
    find_division(name)
}

fn find_division(name: &[u8]) -> Option<Binary>
    ensures { result ≡ division_of name.now }
{
    if name == b"//".as_slice() {
        return Some(Binary::Quotient);
    }
    if name == b"rem".as_slice() {
        return Some(Binary::Remainder);
    }
    if name == b"mod".as_slice() {
        return Some(Binary::Modulo);
    }
    find_bits(name)
}

fn find_bits(name: &[u8]) -> Option<Binary>
    ensures { result ≡ bits_of name.now }
{
    if name == b"/\\".as_slice() {
        return Some(Binary::BothBits);
    }
    if name == b"\\/".as_slice() {
        return Some(Binary::EitherBits);
    }
    if name == b"<<".as_slice() {
        return Some(Binary::ShiftLeft);
    }
    if name == b">>".as_slice() {
        return Some(Binary::ShiftRight);
    }
    None
}
