//! The moves of a report, or where it is none.

ghost use Rattle.std.specs.Prelude.{◌≡◌, ◌<◌, IfOk, Err};
ghost use Rattle.move_report.specs.Answers.{IsReport};
ghost use Rattle.move_replay.specs.Replay.{IsUnreadable};

use crate::lines::line_start;
use c_types::{List, ReadStop, Refusal, reasons};
use move_report::{ReportStop, read_report};
use report_moves::Move;
use std::alloc::Global;

/// A refusal at the first byte of a line.
pub fn refused(reason: u32, line: u64, at: usize) -> ReadStop
    ensures { result ≡ ReadStop.Refused (record { reason = reason; line = line; column = 1; at = at }) }
{
    ReadStop::Refused(Refusal {
        reason,
        line,
        column: 1,
        at: at as u64,
    })
}

/// Reads the moves of a report. Refuses with reason 50 at the first line that is none of a report.
pub fn read_moves(alloc: Global, report: &[u8]) -> Result<List<Move>, ReadStop>
    ensures ok { IfOk result (λ ms. IsReport report.now ms) }
    ensures refused { (refusal : Refusal) → result ≡ Err (ReadStop.Refused refusal) → IsUnreadable report.now refusal }
{
    match read_report(alloc, report) {
        Ok(moves) => Ok(moves),
        Err(ReportStop::BadLine(line)) => {
            let at = line_start(report, line.saturating_sub(1) as usize);
            Err(refused(reasons::BAD_REPORT_LINE, line, at))
        }
        Err(ReportStop::Memory) => Err(ReadStop::Memory),
    }
}
