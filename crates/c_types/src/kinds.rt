ghost use Rattle.std.specs.Prelude.{◌≡◌, ◌↔◌, IsTrue, pos, find, int_le};
ghost use Rattle.c_types.specs.Numbers as numbers;

/// The kinds of integers (ISO/IEC 9899:2011, 6.2.5), with the widths of this project's profile:
/// 8, 8, 32, 32, 64 and 64 bits, in two's complement. A plain `char` is signed.
#[derive(Clone, Copy, Debug, PartialEq, Eq)]
pub enum IntKind {
    /// `char` and `signed char`.
    Char,
    /// `unsigned char`.
    UChar,
    /// `int`.
    Int,
    /// `unsigned int`.
    UInt,
    /// `long`.
    Long,
    /// `unsigned long`.
    ULong,
}

/// The arithmetic marks (ISO/IEC 9899:2011, 6.5.5 to 6.5.12).
#[derive(Clone, Copy, Debug, PartialEq, Eq)]
pub enum ArithOp {
    /// `+`.
    Add,
    /// `-`.
    Sub,
    /// `*`.
    Mul,
    /// `/`.
    Div,
    /// `%`.
    Rem,
    /// `<<`.
    Shl,
    /// `>>`.
    Shr,
    /// `&`.
    And,
    /// `|`.
    Or,
    /// `^`.
    Xor,
}

/// The base in which an integer constant is written (ISO/IEC 9899:2011, 6.4.4.1).
#[derive(Clone, Copy, Debug, PartialEq, Eq)]
pub enum Base {
    /// Base 10: the digits do not begin with 0.
    Decimal,
    /// Base 8: the digits begin with 0.
    Octal,
    /// Base 16: the digits follow `0x` or `0X`.
    Hex,
}

/// The suffix of an integer constant, in either case (ISO/IEC 9899:2011, 6.4.4.1).
#[derive(Clone, Copy, Debug, PartialEq, Eq)]
pub enum Suffix {
    /// No suffix.
    Plain,
    /// `u`.
    U,
    /// `l`.
    L,
    /// `ul` or `lu`.
    UL,
}

impl IntKind {
    /// The number of bits: 8, 32 or 64.
    pub fn width(self) -> u32
        ensures { result ≡ numbers.width self }
    {
        match self {
            IntKind::Char | IntKind::UChar => 8,
            IntKind::Int | IntKind::UInt => 32,
            IntKind::Long | IntKind::ULong => 64,
        }
    }

    /// Whether the kind has negative numbers.
    pub fn is_signed(self) -> bool
        ensures { result ≡ numbers.is_signed self }
    {
        matches!(self, IntKind::Char | IntKind::Int | IntKind::Long)
    }

    /// The least number of the kind.
    pub fn least(self) -> i128
        ensures { result ≡ numbers.least self }
    {
        match self {
            IntKind::Char => i8::MIN as i128,
            IntKind::Int => i32::MIN as i128,
            IntKind::Long => i64::MIN as i128,
            IntKind::UChar | IntKind::UInt | IntKind::ULong => 0,
        }
    }

    /// The greatest number of the kind.
    pub fn greatest(self) -> i128
        ensures { result ≡ numbers.greatest self }
    {
        match self {
            IntKind::Char => i8::MAX as i128,
            IntKind::UChar => u8::MAX as i128,
            IntKind::Int => i32::MAX as i128,
            IntKind::UInt => u32::MAX as i128,
            IntKind::Long => i64::MAX as i128,
            IntKind::ULong => u64::MAX as i128,
        }
    }

    /// Whether the value is a number of the kind.
    pub fn contains(self, value: i128) -> bool
        ensures value { result ≡ numbers.is_in_range self value }
        ensures fact { IsTrue result ↔ numbers.IsInRange self value }
    {
        self.least() <= value && value <= self.greatest()
    }
}

impl ArithOp {
    /// Whether the mark is `<<` or `>>`, of which the right operand is a count.
    pub fn is_shift(self) -> bool
        ensures { result ≡ numbers.is_shift self }
    {
        matches!(self, ArithOp::Shl | ArithOp::Shr)
    }
}

/// The kind in which a number of the kind is computed with: `int` for both kinds of `char`, and
/// else the kind itself (ISO/IEC 9899:2011, 6.3.1.1).
pub fn promote(kind: IntKind) -> IntKind
    ensures { result ≡ numbers.promoted kind }
{
    match kind {
        IntKind::Char | IntKind::UChar => IntKind::Int,
        other => other,
    }
}

/// The kind to which the two operands of a mark are brought: the later of the two promoted kinds
/// in the order `int`, `unsigned int`, `long`, `unsigned long` (ISO/IEC 9899:2011, 6.3.1.8).
pub fn usual(a: IntKind, b: IntKind) -> IntKind
    ensures { result ≡ numbers.usual_kind a b }
{
    let (a, b) = (promote(a), promote(b));
    if rank(a) <= rank(b) { b } else { a }
}

fn rank(kind: IntKind) -> u8
    ensures { result ≡ numbers.rank kind }
{
    match kind {
        IntKind::Char | IntKind::UChar | IntKind::Int => 0,
        IntKind::UInt => 1,
        IntKind::Long => 2,
        IntKind::ULong => 3,
    }
}

/// The kind of an integer constant: the first kind of the list for its base and suffix that holds
/// the value, or `None` where none of them does (ISO/IEC 9899:2011, 6.4.4.1).
pub fn constant_kind(base: Base, suffix: Suffix, value: u128) -> Option<IntKind>
    ensures { result ≡ find (λ kind. int_le (pos value) (numbers.greatest kind)) (numbers.constant_kinds base suffix) }
{
    constant_kinds(base, suffix)
        .iter()
        .copied()
        .find(|kind| is_at_most(value, *kind))
}

fn constant_kinds(base: Base, suffix: Suffix) -> &'static [IntKind]
    ensures { result.now ≡ numbers.constant_kinds base suffix }
{
    match (base, suffix) {
        (Base::Decimal, Suffix::Plain) => &[IntKind::Int, IntKind::Long],
        (Base::Decimal, Suffix::L) => &[IntKind::Long],
        (_, Suffix::Plain) => &[IntKind::Int, IntKind::UInt, IntKind::Long, IntKind::ULong],
        (_, Suffix::U) => &[IntKind::UInt, IntKind::ULong],
        (_, Suffix::L) => &[IntKind::Long, IntKind::ULong],
        (_, Suffix::UL) => &[IntKind::ULong],
    }
}

fn is_at_most(value: u128, kind: IntKind) -> bool
    ensures { result ≡ int_le (pos value) (numbers.greatest kind) }
{
    value <= kind.greatest().unsigned_abs()
}
