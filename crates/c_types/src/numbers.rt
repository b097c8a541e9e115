ghost use Rattle.std.specs.Prelude.{◌≡◌, IfOk, IsFalse};
ghost use Rattle.c_types.specs.Numbers as numbers;
ghost use Rattle.c_types.specs.Numbers.{IsInRange, converted, arith_result};

use crate::{ArithOp, IntKind, Trap};

/// The number of the kind that equals the value modulo 2 to the width of the kind
/// (ISO/IEC 9899:2011, 6.3.1.3; docs/MEANING.md for the signed kinds). Most values are numbers of the kind already,
/// and only the others are divided.
pub fn convert(kind: IntKind, value: i128) -> i128
    ensures value { result ≡ converted kind value }
    ensures in_range { IsInRange kind result }
{
    if kind.contains(value) {
        return value;
    }
    residue_of(kind, value)
}

/// The number of the kind that equals the value modulo 2 to the width of the kind.
#[tactic(auto, unfolding(crate::specs::Numbers::converted))]
fn residue_of(kind: IntKind, value: i128) -> i128
    ensures value { result ≡ converted kind value }
    ensures in_range { IsInRange kind result }
{
    let count = 1 << kind.width();
    let rest = value.rem_euclid(count);
    if rest <= kind.greatest() {
        rest
    } else {
        rest - count
    }
}

/// What the arithmetic mark gives at two numbers of the kind; of a shift the right operand may be
/// any number (ISO/IEC 9899:2011, 6.5.5 to 6.5.12; docs/MEANING.md where that leaves it undefined).
///
/// Unsigned results wrap. `Err` is `ZeroDivisor` where a division has the divisor 0, `Shift` where
/// a shift count is negative or not below the width, or a signed left shift is of a negative
/// number or has a result that the kind does not hold, and else `Overflow` where a signed kind
/// does not hold the result, or the quotient to which a remainder belongs.
#[tactic(auto, unfolding(crate::specs::Numbers::arith_result))]
pub fn arith(op: ArithOp, kind: IntKind, a: i128, b: i128) -> Result<i128, Trap>
    requires left { IsInRange kind a }
    requires right { IsFalse (numbers.is_shift op) → IsInRange kind b }
    ensures value { result ≡ arith_result op kind a b }
    ensures in_range { IfOk result (λ value. IsInRange kind value) }
{
    match op {
        ArithOp::Add => number_or(Trap::Overflow, kind, a + b),
        ArithOp::Sub => number_or(Trap::Overflow, kind, a - b),
        ArithOp::Mul => product(kind, a, b),
        ArithOp::Div => quotient(kind, a, b),
        ArithOp::Rem => remainder(kind, a, b),
        ArithOp::Shl => shifted_left(kind, a, b),
        ArithOp::Shr => shifted_right(kind, a, b),
        ArithOp::And => Ok(convert(kind, a & b)),
        ArithOp::Or => Ok(convert(kind, a | b)),
        ArithOp::Xor => Ok(convert(kind, a ^ b)),
    }
}

/// The value as a number of the kind: an unsigned kind wraps, and where a signed kind does not
/// hold it, it is the trap.
fn number_or(trap: Trap, kind: IntKind, value: i128) -> Result<i128, Trap>
    ensures value { result ≡ numbers.number_or trap kind value }
    ensures in_range { IfOk result (λ value. IsInRange kind value) }
{
    if kind.is_signed() && !kind.contains(value) {
        return Err(trap);
    }
    Ok(convert(kind, value))
}

#[tactic(auto, unfolding(crate::specs::Numbers::arith_result))]
fn product(kind: IntKind, a: i128, b: i128) -> Result<i128, Trap>
    requires left { IsInRange kind a }
    requires right { IsInRange kind b }
    ensures value { result ≡ arith_result ArithOp.Mul kind a b }
    ensures in_range { IfOk result (λ value. IsInRange kind value) }
{
    if kind.is_signed() {
        number_or(Trap::Overflow, kind, a * b)
    } else {
        // A product of two unsigned numbers of 64 bits may be past the last `i128`.
        Ok(convert(kind, a.wrapping_mul(b)))
    }
}

fn quotient(kind: IntKind, a: i128, b: i128) -> Result<i128, Trap>
    requires left { IsInRange kind a }
    requires right { IsInRange kind b }
    ensures value { result ≡ numbers.quotient kind a b }
    ensures in_range { IfOk result (λ value. IsInRange kind value) }
{
    if b == 0 {
        return Err(Trap::ZeroDivisor);
    }
    number_or(Trap::Overflow, kind, a / b)
}

fn remainder(kind: IntKind, a: i128, b: i128) -> Result<i128, Trap>
    requires left { IsInRange kind a }
    requires right { IsInRange kind b }
    ensures value { result ≡ numbers.remainder kind a b }
    ensures in_range { IfOk result (λ value. IsInRange kind value) }
{
    if b == 0 {
        return Err(Trap::ZeroDivisor);
    }
    if !kind.contains(a / b) {
        return Err(Trap::Overflow);
    }
    Ok(a % b)
}

#[tactic(auto, unfolding(crate::specs::Numbers::arith_result))]
fn shifted_left(kind: IntKind, a: i128, b: i128) -> Result<i128, Trap>
    requires { IsInRange kind a }
    ensures value { result ≡ arith_result ArithOp.Shl kind a b }
    ensures in_range { IfOk result (λ value. IsInRange kind value) }
{
    let Some(count) = shift_count(kind, b) else {
        return Err(Trap::Shift);
    };
    if !kind.is_signed() {
        // The shifted number may be past the last `i128`, which loses no bit of the kind.
        return Ok(convert(kind, a << count));
    }
    if a < 0 {
        return Err(Trap::Shift);
    }
    number_or(Trap::Shift, kind, a << count)
}

#[tactic(auto, unfolding(crate::specs::Numbers::arith_result))]
fn shifted_right(kind: IntKind, a: i128, b: i128) -> Result<i128, Trap>
    requires { IsInRange kind a }
    ensures value { result ≡ arith_result ArithOp.Shr kind a b }
    ensures in_range { IfOk result (λ value. IsInRange kind value) }
{
    match shift_count(kind, b) {
        Some(count) => Ok(a >> count),
        None => Err(Trap::Shift),
    }
}

/// The number of bits to shift by, if the operand is one: not negative, and below the width.
fn shift_count(kind: IntKind, b: i128) -> Option<u32>
    ensures { result ≡ numbers.shift_count kind b }
{
    if 0 <= b && b < kind.width() as i128 {
        Some(b as u32)
    } else {
        None
    }
}
