ghost use Rattle.std.specs.Prelude.{◌≡◌};
ghost use Rattle.c_types.specs.declared.refusal.ReadStop.TheVariants.{Memory as StopMemory};

use std::alloc::{AllocError, AllocFailed};

/// Memory was refused.
#[derive(Clone, Copy, Debug, PartialEq, Eq)]
pub struct Memory;

impl From<AllocError> for Memory {
    fn from(_: AllocError) -> Memory {
        Memory
    }
}

impl<T: Drop> From<AllocFailed<T>> for Memory {
    fn from(_: AllocFailed<T>) -> Memory {
        Memory
    }
}

/// Why and where a text is refused. The reasons are listed in docs/SUBSET.md.
#[derive(Clone, Copy, Debug, PartialEq, Eq)]
pub struct Refusal {
    /// The number of the reason, one of `reasons`.
    pub reason: u32,
    /// The line, counted from 1 by newline bytes.
    pub line: u64,
    /// The column, counted from 1 by bytes.
    pub column: u64,
    /// The number of bytes before the place.
    pub at: u64,
}

/// Why a reading phase gave nothing: the text is refused, or memory was.
#[derive(Clone, Copy, Debug, PartialEq, Eq)]
pub enum ReadStop {
    Refused(Refusal),
    Memory,
}

impl From<Memory> for ReadStop {
    ghost from_gives = { λ _ e. e ≡ StopMemory };

    fn from(_: Memory) -> ReadStop {
        ReadStop::Memory
    }
}

impl From<AllocError> for ReadStop {
    ghost from_gives = { λ _ e. e ≡ StopMemory };

    fn from(_: AllocError) -> ReadStop {
        ReadStop::Memory
    }
}

impl<T: Drop> From<AllocFailed<T>> for ReadStop {
    ghost from_gives = { λ _ e. e ≡ StopMemory };

    fn from(_: AllocFailed<T>) -> ReadStop {
        ReadStop::Memory
    }
}
