ghost use Rattle.std.specs.Prelude.{◌≡◌};
ghost use Rattle.rg_ports.specs.Reads as spec;

use crate::calls::next_count;
use crate::port::ReadError;

/// What a shelf counts of its reads. Each count stands still at 18,446,744,073,709,551,615.
#[derive(Clone, Copy, Debug, PartialEq, Eq)]
pub struct ReadCounts {
    /// All that were made.
    pub made: u64,
    /// Those that the device failed.
    pub faults: u64,
    /// Those that found no file of their name.
    pub absences: u64,
}

/// No read was made.
pub const NO_READS: ReadCounts = ReadCounts {
    made: 0,
    faults: 0,
    absences: 0,
};

/// The counts once one read more was made, with this error or none.
pub fn after_read(counts: ReadCounts, error: Option<ReadError>) -> ReadCounts
    ensures value { result ≡ spec.after_read counts error }
    ensures grows { spec.NotFewer counts result }
{
    let ReadCounts {
        made,
        faults,
        absences,
    } = counts;
    let made = next_count(made);
    match error {
        Some(ReadError::Failed) => ReadCounts {
            made,
            faults: next_count(faults),
            absences,
        },
        Some(ReadError::Absent) => ReadCounts {
            made,
            faults,
            absences: next_count(absences),
        },
        _ => ReadCounts {
            made,
            faults,
            absences,
        },
    }
}
