ghost use Rattle.std.specs.Prelude.{◌≡◌, ◌≤◌, length, IfOk, IfErr, OnOk};
ghost use Rattle.cmd_words.specs.Lines.{Tells};
ghost use Rattle.cmd_files.specs.Taken.{HandsOver, Untaken};
ghost use Rattle.rg_ports.specs.Reads.{NotFewer, IsOneRead};

use c_types::{Bytes, Refusal, reasons};
use cmd_words::{Status, tell, tell_absent, tell_refusal};
use rg_ports::{ReadError, Shelf, Sink};
use std::alloc::Global;

const TOO_LONG: Refusal = Refusal {
    reason: reasons::TEXT_TOO_LONG,
    line: 1,
    column: 1,
    at: 0,
};

/// The text of a file that has at most `most` bytes. Where there is none, how the command ends, which is told.
pub fn take_text<H: Shelf, E: Sink>(
    alloc: Global,
    from: &str,
    most: usize,
    shelf: &mut H,
    err: &mut E,
) -> Result<Bytes, Status>
    ensures text { IfOk result (λ text. HandsOver (H.held shelf.old) from.now (λ held. held ≡ text)) }
    ensures most { IfOk result (λ text. length text ≤ most) }
    ensures silent { OnOk result (err.new ≡ err.old) }
    ensures untaken { IfErr result (Untaken (λ line. Tells (E.written err.old) (E.written err.new) (E.faults err.old) (E.faults err.new) line)
        most from.now (H.held shelf.old) (H.reads shelf.old) (H.reads shelf.new)) }
    ensures kept { H.held shelf.new ≡ H.held shelf.old }
    ensures once { IsOneRead (H.reads shelf.old) (H.reads shelf.new) }
    ensures grows { NotFewer (H.reads shelf.old) (H.reads shelf.new) }
    ensures writes { H.write_faults shelf.new ≡ H.write_faults shelf.old }
    ensures wants { H.wants shelf.new ≡ H.wants shelf.old }
{
    match shelf.read(alloc, from, most) {
        Ok(text) => Ok(text),
        Err(ReadError::Absent) => {
            tell_absent(err, from);
            Err(Status::Absent)
        }
        Err(ReadError::TooLong) => {
            tell_refusal(err, from, &TOO_LONG);
            Err(Status::Refused(TOO_LONG))
        }
        Err(ReadError::Failed) => {
            tell(err, "regoto: read failed\n");
            Err(Status::ReadFault)
        }
        Err(ReadError::Memory) => {
            tell(err, "regoto: out of memory\n");
            Err(Status::Memory)
        }
    }
}
