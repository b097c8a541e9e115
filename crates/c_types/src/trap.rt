ghost use Rattle.std.specs.Prelude.{◌≡◌};
ghost use Rattle.c_types.specs.Traps.{trap_number, trap_text};

/// What ends a run before its end. The traps stand where C leaves the behaviour undefined
/// (docs/MEANING.md), and at the limits of a run.
#[derive(Clone, Copy, Debug, PartialEq, Eq)]
pub enum Trap {
    /// A signed result that its kind does not have.
    Overflow,
    /// A division by zero.
    ZeroDivisor,
    /// A shift by a count that is negative or too large, or of a number that can't be shifted.
    Shift,
    /// An index outside of its array.
    Index,
    /// The use of the value of a function that returned none.
    NoValue,
    /// Too many calls in one another.
    Calls,
    /// Too many cells of arrays at once.
    Cells,
    /// A call of `abort`.
    Abort,
    /// A call of a function without a body, with no answer left for it.
    NoAnswer,
}

impl Trap {
    /// The number of the trap, from 1 to 9, in the order of the variants.
    pub fn number(&self) -> u32
        ensures { result ≡ trap_number self.now }
    {
        match self {
            Trap::Overflow => 1,
            Trap::ZeroDivisor => 2,
            Trap::Shift => 3,
            Trap::Index => 4,
            Trap::NoValue => 5,
            Trap::Calls => 6,
            Trap::Cells => 7,
            Trap::Abort => 8,
            Trap::NoAnswer => 9,
        }
    }

    /// What the trap is called in a message.
    pub fn text(&self) -> &'static str
        ensures { result.now ≡ trap_text self.now }
    {
        match self {
            Trap::Overflow => "signed overflow",
            Trap::ZeroDivisor => "division by zero",
            Trap::Shift => "bad shift",
            Trap::Index => "index out of range",
            Trap::NoValue => "missing return value",
            Trap::Calls => "too many nested calls",
            Trap::Cells => "too many array cells",
            Trap::Abort => "abort",
            Trap::NoAnswer => "no answer left",
        }
    }
}
