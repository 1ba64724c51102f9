// What the operations give.
ghost use Rattle.std.specs.Prelude.{◌≡◌, ◌^◌, pos, ◌*ℤ◌};
ghost use Rattle.prolog_arith.specs.declared.operation.Binary.TheVariants.{Quotient, Remainder, Modulo, ShiftLeft, ShiftRight};
ghost use Rattle.prolog_arith.specs.Operations.{floored};
ghost use Rattle.prolog_arith.specs.Arithmetic.{unary_value, binary_value, whole};
ghost use Rattle.prolog_arith.specs.Work.{outcome};

use crate::operation::{Binary, Unary};
use prolog_terms::Whole;

/// Why an operation gives nothing.
#[derive(Clone, Copy)]
pub(crate) enum NoValue {
    /// The integer has more than 64 bits.
    Overflow,
    /// The divisor is 0.
    ZeroDivisor,
}

/// What an operation of one operand gives.
pub(crate) fn apply_unary(operation: Unary, operand: Whole) -> Result<Whole, NoValue>
    ensures { outcome result ≡ unary_value operation operand }
{
    match operation {
        Unary::Opposite => operand.checked_neg().ok_or(NoValue::Overflow),
        Unary::Absolute => operand.checked_abs().ok_or(NoValue::Overflow),
        Unary::Signum => Ok(operand.signum()),
        Unary::Complement => Ok(!operand),
    }
}

/// What an operation of two operands gives.
pub(crate) fn apply_binary(operation: Binary, left: Whole, right: Whole) -> Result<Whole, NoValue>
    ensures { outcome result ≡ binary_value operation left right }
{
    match operation {
        Binary::Sum => left.checked_add(right).ok_or(NoValue::Overflow),
        Binary::Difference => left.checked_sub(right).ok_or(NoValue::Overflow),
        Binary::Product => left.checked_mul(right).ok_or(NoValue::Overflow),
        Binary::Least => Ok(left.min(right)),
        Binary::Greatest => Ok(left.max(right)),
        Binary::Quotient => quotient(left, right),
        Binary::Remainder => remainder(left, right),
        Binary::Modulo => modulo(left, right),
        Binary::BothBits => Ok(left & right),
        Binary::EitherBits => Ok(left | right),
        Binary::ShiftLeft => shift_left(left, right),
        Binary::ShiftRight => shift_right(left, right),
    }
}

fn quotient(left: Whole, right: Whole) -> Result<Whole, NoValue>
    ensures { outcome result ≡ binary_value Quotient left right }
{
    if right == 0 {
        return Err(NoValue::ZeroDivisor);
    }
    left.checked_div(right).ok_or(NoValue::Overflow)
}

fn remainder(left: Whole, right: Whole) -> Result<Whole, NoValue>
    ensures { outcome result ≡ binary_value Remainder left right }
{
    if right == 0 {
        return Err(NoValue::ZeroDivisor);
    }
    Ok(left.wrapping_rem(right))
}

fn modulo(left: Whole, right: Whole) -> Result<Whole, NoValue>
    ensures { outcome result ≡ binary_value Modulo left right }
{
    if right == 0 {
        return Err(NoValue::ZeroDivisor);
    }
    let rest = left.wrapping_rem_euclid(right);
    if right < 0 && rest != 0 {
        return Ok(rest + right);
    }
    Ok(rest)
}

fn shift_left(left: Whole, right: Whole) -> Result<Whole, NoValue>
    ensures { outcome result ≡ binary_value ShiftLeft left right }
{
    if right < 0 {
        return Ok(scaled_down(left, right.unsigned_abs()));
    }
    scaled_up(left, right.unsigned_abs())
}

fn shift_right(left: Whole, right: Whole) -> Result<Whole, NoValue>
    ensures { outcome result ≡ binary_value ShiftRight left right }
{
    if right > 0 {
        return Ok(scaled_down(left, right.unsigned_abs()));
    }
    scaled_up(left, right.unsigned_abs())
}

/// An integer times 2 to this power.
fn scaled_up(value: Whole, power: u64) -> Result<Whole, NoValue>
    ensures { outcome result ≡ whole (value *ℤ pos (2 ^ power)) }
{
    if value == 0 {
        return Ok(0);
    }
    if power > 63 {
        return Err(NoValue::Overflow);
    }
    narrowed(i128::from(value) * (1i128 << power))
}

/// An integer of 128 bits as one of 64.
fn narrowed(value: i128) -> Result<Whole, NoValue>
    ensures { outcome result ≡ whole value }
{
    match Whole::try_from(value) {
        Ok(value) => Ok(value),
        Err(_) => Err(NoValue::Overflow),
    }
}

/// The floor of an integer divided by 2 to this power: beyond 63 it is what its sign says.
fn scaled_down(value: Whole, power: u64) -> Whole
    ensures { result ≡ floored value (pos (2 ^ power)) }
{
    value >> power.min(63)
}
