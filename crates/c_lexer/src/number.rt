ghost use Rattle.std.specs.Prelude.{◌≡◌, ◌+◌, ◌*◌, ◌<◌, ◌≤◌, ◌^◌, MatchOption, length};
ghost use Rattle.std.specs.List.{prefix_len};
ghost use Rattle.c_lexer.specs.Bytes as bytes;
ghost use Rattle.c_lexer.specs.Numbers as numbers;

use crate::byte::{digit_value, is_hexadecimal_digit, is_octal_digit};
use c_types::{Base, IntKind, Suffix, constant_kind, is_digit};

/// An integer constant: the first kind of its list that holds its value, and the value.
#[derive(Clone, Copy, Debug, PartialEq, Eq)]
pub struct Integer {
    pub kind: IntKind,
    pub value: u64,
}

/// What the bytes are as an integer constant (ISO/IEC 9899:2011, 6.4.4.1); None where they are
/// none, or where no kind of the constant's list holds its value.
pub fn integer_constant(word: &[u8]) -> Option<Integer>
    ensures { result ≡ numbers.integer_of word.now }
{
    let base = base_of(word);
    let rest = behind_prefix(base, word);
    let count = count_digits(base, rest);
    integer_from(base, &rest[..count], suffix_of(&rest[count..]))
}

#[tactic(auto, using(crate::proofs::NumberLemmas::no_kind))]
fn integer_from(base: Base, digits: &[u8], suffix: Option<Suffix>) -> Option<Integer>
    ensures { result ≡ numbers.integer_from base digits.now suffix }
{
    if digits.is_empty() {
        return None;
    }
    let suffix = suffix?;
    let value = value_of(base, digits)?;
    let kind = constant_kind(base, suffix, value as u128)?;
    Some(Integer { kind, value })
}

fn base_of(word: &[u8]) -> Base
    ensures { result ≡ numbers.base_of word.now }
{
    match word {
        [b'0', b'x' | b'X', ..] => Base::Hex,
        [b'0', ..] => Base::Octal,
        _ => Base::Decimal,
    }
}

fn behind_prefix(base: Base, word: &[u8]) -> &[u8]
    ensures { result.now ≡ numbers.behind_prefix base word.now }
{
    match base {
        Base::Hex => word.get(2..).unwrap_or(&[]),
        Base::Decimal | Base::Octal => word,
    }
}

fn is_digit_of(base: Base, byte: u8) -> bool
    ensures { result ≡ numbers.is_digit_of base byte }
{
    match base {
        Base::Decimal => is_digit(byte),
        Base::Octal => is_octal_digit(byte),
        Base::Hex => is_hexadecimal_digit(byte),
    }
}

fn count_digits(base: Base, word: &[u8]) -> usize
    ensures value { result ≡ prefix_len (numbers.is_digit_of base) word.now }
    ensures bound { result ≤ length word.now }
{
    word.iter()
        .take_while(|byte| is_digit_of(base, **byte))
        .count()
}

fn suffix_of(bytes: &[u8]) -> Option<Suffix>
    ensures { result ≡ numbers.suffix_of bytes.now }
{
    match bytes {
        [] => Some(Suffix::Plain),
        [b'u' | b'U'] => Some(Suffix::U),
        [b'l' | b'L'] => Some(Suffix::L),
        [b'u' | b'U', b'l' | b'L'] => Some(Suffix::UL),
        [b'l' | b'L', b'u' | b'U'] => Some(Suffix::UL),
        _ => None,
    }
}

fn radix(base: Base) -> u64
    ensures { result ≡ numbers.radix base }
{
    match base {
        Base::Decimal => 10,
        Base::Octal => 8,
        Base::Hex => 16,
    }
}

/// One digit more; None where the number is above the greatest `u64`.
fn grown(base: Base, value: u64, digit: u8) -> Option<u64>
    ensures { MatchOption result (18446744073709551615 < value * numbers.radix base + bytes.digit_value digit) (λ more. more ≡ value * numbers.radix base + bytes.digit_value digit) }
{
    match value.checked_mul(radix(base)) {
        Some(product) => product.checked_add(digit_value(digit) as u64),
        None => None,
    }
}

/// The number that the digits write; None where it is above the greatest `u64`.
fn value_of(base: Base, digits: &[u8]) -> Option<u64>
    ensures { MatchOption result (18446744073709551615 < numbers.value_of (numbers.radix base) digits.now) (λ value. value ≡ numbers.value_of (numbers.radix base) digits.now) }
{
    let mut value: u64 = 0;
    for digit in digits {
        match grown(base, value, *digit) {
            Some(more) => value = more,
            None => return None,
        }
    }
    Some(value)
}
