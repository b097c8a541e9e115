ghost use Rattle.std.specs.Prelude.{◌≡◌};
ghost use Rattle.cmd_words.specs.Status.{exit_code};

use c_types::{Refusal, Trap};

/// How a command ended (docs/COMMANDS.md).
#[derive(Clone, Copy, Debug, PartialEq, Eq)]
pub enum Status {
    /// The job was done.
    Done,
    /// The text is outside the subset: why, and where.
    Refused(Refusal),
    /// The words fit no form.
    Usage,
    /// Memory was refused.
    Memory,
    /// A read failed.
    ReadFault,
    /// A write failed.
    WriteFault,
    /// The program that was run reached a trap.
    Trapped(Trap),
    /// The program that was run had not ended after its steps.
    Spent,
    /// No file has the name.
    Absent,
}

impl Status {
    /// The exit status of the process. It takes no memory.
    pub fn code(&self) -> u8
        ensures { result ≡ exit_code self.now }
    {
        match self {
            Status::Done => 0,
            Status::Refused(_) => 1,
            Status::Usage => 2,
            Status::Memory => 3,
            Status::ReadFault => 4,
            Status::WriteFault => 5,
            Status::Trapped(_) => 6,
            Status::Spent => 7,
            Status::Absent => 8,
        }
    }
}
