//! Values that a C compiler gave: gcc, with the profile's widths, each operation run in a process of
//! its own that stops at what the standard leaves undefined. That a constant has no kind is no answer of
//! gcc, which goes on to wider types: there `None` follows from the list of 6.4.4.1.
ghost use Rattle.std.specs.Prelude.{IsFalse};
ghost use Rattle.c_types.specs.Numbers as numbers;
ghost use Rattle.c_types.specs.Numbers.{IsInRange};

use c_types::ArithOp::*;
use c_types::IntKind::*;
use c_types::Trap::*;
use c_types::*;

static KINDS: [IntKind; 6] = [Char, UChar, Int, UInt, Long, ULong];

static EDGES: [(ArithOp, IntKind, i128, i128, Result<i128, Trap>); 97] = [
    (Add, Int, 2147483647, 1, Err(Overflow)),
    (Add, Int, -2147483648, -1, Err(Overflow)),
    (Add, Int, 2147483647, -2147483648, Ok(-1)),
    (Sub, Int, -2147483648, 1, Err(Overflow)),
    (Sub, Int, 0, -2147483648, Err(Overflow)),
    (Sub, Int, -1, -2147483648, Ok(2147483647)),
    (Mul, Int, -2147483648, -1, Err(Overflow)),
    (Mul, Int, 46341, 46341, Err(Overflow)),
    (Mul, Int, 46340, -46340, Ok(-2147395600)),
    (Mul, Int, 65536, -32768, Ok(-2147483648)),
    (Div, Int, -7, 2, Ok(-3)),
    (Div, Int, 7, -2, Ok(-3)),
    (Div, Int, -2147483648, -1, Err(Overflow)),
    (Div, Int, -2147483648, 0, Err(ZeroDivisor)),
    (Div, Int, 2147483647, -1, Ok(-2147483647)),
    (Rem, Int, -7, 2, Ok(-1)),
    (Rem, Int, 7, -2, Ok(1)),
    (Rem, Int, -2147483648, -1, Err(Overflow)),
    (Rem, Int, 5, 0, Err(ZeroDivisor)),
    (Rem, Int, -2147483648, 2147483647, Ok(-1)),
    (Shl, Int, 1, 30, Ok(1073741824)),
    (Shl, Int, 1, 31, Err(Shift)),
    (Shl, Int, 0, 31, Ok(0)),
    (Shl, Int, 0, 32, Err(Shift)),
    (Shl, Int, -1, 0, Err(Shift)),
    (Shl, Int, 1, -1, Err(Shift)),
    (Shl, Int, 2147483647, 1, Err(Shift)),
    (Shl, Int, 3, 4294967296, Err(Shift)),
    (Shr, Int, -1, 1, Ok(-1)),
    (Shr, Int, -5, 1, Ok(-3)),
    (Shr, Int, -2147483648, 31, Ok(-1)),
    (Shr, Int, 2147483647, 30, Ok(1)),
    (Shr, Int, 5, 32, Err(Shift)),
    (Shr, Int, 5, -1, Err(Shift)),
    (And, Int, -4, 7, Ok(4)),
    (And, Int, -2147483648, -1, Ok(-2147483648)),
    (Or, Int, -2147483648, 1, Ok(-2147483647)),
    (Or, Int, 12, 10, Ok(14)),
    (Xor, Int, -1, 5, Ok(-6)),
    (Xor, Int, -2147483648, 2147483647, Ok(-1)),
    (Add, UInt, 4294967295, 1, Ok(0)),
    (Sub, UInt, 0, 1, Ok(4294967295)),
    (Mul, UInt, 4294967295, 4294967295, Ok(1)),
    (Mul, UInt, 65536, 65536, Ok(0)),
    (Div, UInt, 4294967295, 2, Ok(2147483647)),
    (Div, UInt, 1, 0, Err(ZeroDivisor)),
    (Rem, UInt, 4294967295, 10, Ok(5)),
    (Rem, UInt, 1, 0, Err(ZeroDivisor)),
    (Shl, UInt, 4294967295, 1, Ok(4294967294)),
    (Shl, UInt, 3, 31, Ok(2147483648)),
    (Shl, UInt, 1, 32, Err(Shift)),
    (Shl, UInt, 1, -1, Err(Shift)),
    (Shr, UInt, 4294967295, 31, Ok(1)),
    (Shr, UInt, 1, 32, Err(Shift)),
    (And, UInt, 4294967295, 255, Ok(255)),
    (Or, UInt, 2147483648, 1, Ok(2147483649)),
    (Xor, UInt, 4294967295, 1, Ok(4294967294)),
    (Add, Long, 9223372036854775807, 1, Err(Overflow)),
    (Add, Long, 9223372036854775807, -9223372036854775808, Ok(-1)),
    (Sub, Long, -1, -9223372036854775808, Ok(9223372036854775807)),
    (Sub, Long, 0, -9223372036854775808, Err(Overflow)),
    (Mul, Long, -9223372036854775808, -1, Err(Overflow)),
    (
        Mul,
        Long,
        -9223372036854775808,
        -9223372036854775808,
        Err(Overflow),
    ),
    (Mul, Long, 3037000500, 3037000500, Err(Overflow)),
    (Mul, Long, 3037000499, 3037000499, Ok(9223372030926249001)),
    (Mul, Long, 9223372036854775807, -1, Ok(-9223372036854775807)),
    (Div, Long, -9223372036854775808, -1, Err(Overflow)),
    (Div, Long, -9223372036854775808, 3, Ok(-3074457345618258602)),
    (Div, Long, 9223372036854775807, 0, Err(ZeroDivisor)),
    (Rem, Long, -9223372036854775808, -1, Err(Overflow)),
    (Rem, Long, -9223372036854775808, 10, Ok(-8)),
    (Rem, Long, -1, 0, Err(ZeroDivisor)),
    (Shl, Long, 1, 62, Ok(4611686018427387904)),
    (Shl, Long, 1, 63, Err(Shift)),
    (Shl, Long, 1, 64, Err(Shift)),
    (Shl, Long, -1, 1, Err(Shift)),
    (Shr, Long, -9223372036854775808, 63, Ok(-1)),
    (Shr, Long, -7, 2, Ok(-2)),
    (Shr, Long, 1, 64, Err(Shift)),
    (
        And,
        Long,
        -9223372036854775808,
        -2,
        Ok(-9223372036854775808),
    ),
    (Or, Long, -9223372036854775808, 9223372036854775807, Ok(-1)),
    (Xor, Long, -9223372036854775808, -1, Ok(9223372036854775807)),
    (Add, ULong, 18446744073709551615, 1, Ok(0)),
    (Sub, ULong, 0, 1, Ok(18446744073709551615)),
    (
        Mul,
        ULong,
        18446744073709551615,
        3,
        Ok(18446744073709551613),
    ),
    (
        Mul,
        ULong,
        18446744073709551615,
        9223372036854775807,
        Ok(9223372036854775809),
    ),
    (
        Div,
        ULong,
        18446744073709551615,
        10,
        Ok(1844674407370955161),
    ),
    (Rem, ULong, 18446744073709551615, 10, Ok(5)),
    (Div, ULong, 18446744073709551615, 0, Err(ZeroDivisor)),
    (
        Shl,
        ULong,
        18446744073709551615,
        63,
        Ok(9223372036854775808),
    ),
    (
        Shl,
        ULong,
        18446744073709551615,
        1,
        Ok(18446744073709551614),
    ),
    (Shl, ULong, 1, 64, Err(Shift)),
    (Shr, ULong, 18446744073709551615, 63, Ok(1)),
    (Shr, ULong, 1, -64, Err(Shift)),
    (And, ULong, 18446744073709551615, 1, Ok(1)),
    (Or, ULong, 9223372036854775808, 1, Ok(9223372036854775809)),
    (
        Xor,
        ULong,
        18446744073709551615,
        18446744073709551615,
        Ok(0),
    ),
];

/// A value, and what it is in each kind.
static CONVERTED: [(i128, [i128; 6]); 27] = [
    (0, [0, 0, 0, 0, 0, 0]),
    (1, [1, 1, 1, 1, 1, 1]),
    (-1, [-1, 255, -1, 4294967295, -1, 18446744073709551615]),
    (127, [127, 127, 127, 127, 127, 127]),
    (128, [-128, 128, 128, 128, 128, 128]),
    (200, [-56, 200, 200, 200, 200, 200]),
    (255, [-1, 255, 255, 255, 255, 255]),
    (256, [0, 0, 256, 256, 256, 256]),
    (
        -128,
        [-128, 128, -128, 4294967168, -128, 18446744073709551488],
    ),
    (
        -129,
        [127, 127, -129, 4294967167, -129, 18446744073709551487],
    ),
    (32767, [-1, 255, 32767, 32767, 32767, 32767]),
    (
        2147483647,
        [-1, 255, 2147483647, 2147483647, 2147483647, 2147483647],
    ),
    (
        2147483648,
        [0, 0, -2147483648, 2147483648, 2147483648, 2147483648],
    ),
    (
        -2147483648,
        [
            0,
            0,
            -2147483648,
            2147483648,
            -2147483648,
            18446744071562067968,
        ],
    ),
    (
        -2147483649,
        [
            -1,
            255,
            2147483647,
            2147483647,
            -2147483649,
            18446744071562067967,
        ],
    ),
    (
        4294967295,
        [-1, 255, -1, 4294967295, 4294967295, 4294967295],
    ),
    (4294967296, [0, 0, 0, 0, 4294967296, 4294967296]),
    (
        9223372036854775807,
        [
            -1,
            255,
            -1,
            4294967295,
            9223372036854775807,
            9223372036854775807,
        ],
    ),
    (
        -9223372036854775808,
        [0, 0, 0, 0, -9223372036854775808, 9223372036854775808],
    ),
    (
        9223372036854775808,
        [0, 0, 0, 0, -9223372036854775808, 9223372036854775808],
    ),
    (
        -9223372036854775809,
        [
            -1,
            255,
            -1,
            4294967295,
            9223372036854775807,
            9223372036854775807,
        ],
    ),
    (
        18446744073709551615,
        [-1, 255, -1, 4294967295, -1, 18446744073709551615],
    ),
    (18446744073709551616, [0, 0, 0, 0, 0, 0]),
    (-18446744073709551615, [1, 1, 1, 1, 1, 1]),
    (
        170141183460469231731687303715884105727,
        [-1, 255, -1, 4294967295, -1, 18446744073709551615],
    ),
    (-170141183460469231731687303715884105728, [0, 0, 0, 0, 0, 0]),
    (-170141183460469231731687303715884105727, [1, 1, 1, 1, 1, 1]),
];

/// The kind of a sum, by the kinds of its operands.
static USUAL: [[IntKind; 6]; 6] = [
    [Int, Int, Int, UInt, Long, ULong],
    [Int, Int, Int, UInt, Long, ULong],
    [Int, Int, Int, UInt, Long, ULong],
    [UInt, UInt, UInt, UInt, Long, ULong],
    [Long, Long, Long, Long, Long, ULong],
    [ULong, ULong, ULong, ULong, ULong, ULong],
];

fn right_operand(op: ArithOp, kind: IntKind, b: i128) -> i128
    ensures { IsFalse (numbers.is_shift op) → IsInRange kind result }
{
    if op.is_shift() { b } else { convert(kind, b) }
}

#[test]
fn computes_as_c(rt: HostRuntime) {
    for (op, kind, a, b, want) in &EDGES {
        let right = right_operand(*op, *kind, *b);
        let result = arith(*op, *kind, convert(*kind, *a), right);
        assert_eq!(rt; result, *want, "{op:?} {kind:?} {a} {b}");
    }
}

/// Whether the value is what it is to be in each kind.
fn converts(value: i128, wanted: &[i128; 6]) -> bool {
    for (kind, want) in KINDS.iter().zip(wanted) {
        if convert(*kind, value) != *want {
            return false;
        }
    }
    true
}

#[test]
fn converts_as_c(rt: HostRuntime) {
    for (value, wanted) in &CONVERTED {
        assert!(rt; converts(*value, wanted), "{value}");
    }
}

/// Whether a sum with each kind has the kind that it is to have.
fn sums(a: IntKind, row: &[IntKind; 6]) -> bool {
    for (b, want) in KINDS.iter().zip(row) {
        if usual(a, *b) != *want {
            return false;
        }
    }
    true
}

#[test]
fn names_kinds_as_c(rt: HostRuntime) {
    for (a, row) in KINDS.iter().zip(&USUAL) {
        assert!(rt; sums(*a, row), "{a:?}");
    }
    assert!(rt; promote(Char) == Int && promote(ULong) == ULong);
}

static CONSTANTS: [(Base, Suffix, u128, Option<IntKind>); 24] = [
    (Base::Decimal, Suffix::Plain, 2147483647, Some(Int)),
    (Base::Decimal, Suffix::Plain, 2147483648, Some(Long)),
    (Base::Decimal, Suffix::Plain, 4294967295, Some(Long)),
    (
        Base::Decimal,
        Suffix::Plain,
        9223372036854775807,
        Some(Long),
    ),
    (Base::Decimal, Suffix::Plain, 9223372036854775808, None),
    (Base::Decimal, Suffix::U, 4294967295, Some(UInt)),
    (Base::Decimal, Suffix::U, 4294967296, Some(ULong)),
    (Base::Decimal, Suffix::L, 0, Some(Long)),
    (Base::Decimal, Suffix::L, 9223372036854775808, None),
    (Base::Decimal, Suffix::UL, 18446744073709551615, Some(ULong)),
    (Base::Hex, Suffix::Plain, 0x7fffffff, Some(Int)),
    (Base::Hex, Suffix::Plain, 0x80000000, Some(UInt)),
    (Base::Hex, Suffix::Plain, 4294967295, Some(UInt)),
    (Base::Hex, Suffix::Plain, 0x100000000, Some(Long)),
    (Base::Hex, Suffix::Plain, 0x8000000000000000, Some(ULong)),
    (Base::Hex, Suffix::U, 0x100000000, Some(ULong)),
    (Base::Hex, Suffix::L, 1, Some(Long)),
    (Base::Hex, Suffix::L, 0x8000000000000000, Some(ULong)),
    (Base::Hex, Suffix::UL, 1, Some(ULong)),
    (Base::Octal, Suffix::Plain, 511, Some(Int)),
    (Base::Octal, Suffix::Plain, 4294967295, Some(UInt)),
    (
        Base::Octal,
        Suffix::Plain,
        18446744073709551615,
        Some(ULong),
    ),
    (Base::Octal, Suffix::Plain, 18446744073709551616, None),
    (Base::Octal, Suffix::UL, 18446744073709551616, None),
];

#[test]
fn gives_constants_kinds_as_c(rt: HostRuntime) {
    for (base, suffix, value, want) in &CONSTANTS {
        assert_eq!(rt;
            constant_kind(*base, *suffix, *value),
            *want,
            "{base:?} {suffix:?} {value}"
        );
    }
}

fn are_known() -> bool {
    is_word(b"_x1")
        && is_word(b"while")
        && is_keyword(b"_Static_assert")
        && is_keyword(b"if")
        && is_known(b"printf")
}

fn are_not_known() -> bool {
    !is_word(b"1x")
        && !is_word(b"")
        && !is_word(b"a-b")
        && !is_word(b"a\xc3")
        && !is_keyword(b"If")
        && !is_known(b"puts")
        && !is_known(b"print")
}

#[test]
fn knows_words(rt: HostRuntime) {
    assert!(rt; are_known());
    assert!(rt; are_not_known());
    assert!(rt; Shift.number() == 3 && NoAnswer.text() == "no answer left");
}
