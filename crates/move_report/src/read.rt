ghost use Rattle.std.specs.Prelude.{IfOk, IfErr};
ghost use Rattle.move_report.specs.Answers.{IsReport, Refuses};

use crate::line::line_at;
use c_types::{List, Memory};
use report_moves::Move;
use std::alloc::Global;

/// Why a text was not read as a report.
#[derive(Clone, Copy, Debug, PartialEq, Eq)]
pub enum ReportStop {
    /// The first line that is the line of no move, counted from 1.
    BadLine(u64),
    /// Memory was refused.
    Memory,
}

/// Reads a report: exactly the moves whose text it is, or the first line that is the line of no move.
/// A last line without its newline is one.
pub fn read_report(alloc: Global, text: &[u8]) -> Result<List<Move>, ReportStop>
    ensures ok { IfOk result (IsReport text.now) }
    ensures err { IfErr result (Refuses text.now) }
{
    let mut moves = List::new(alloc);
    let mut rest = text;
    while !rest.is_empty() {
        let line = match line_at(alloc, rest) {
            Ok(line) => line,
            Err(Memory) => return Err(ReportStop::Memory),
        };
        let Some(line) = line else {
            return Err(ReportStop::BadLine(moves.len() as u64 + 1));
        };
        match moves.push(line.a_move) {
            Ok(()) => rest = line.rest,
            Err(Memory) => return Err(ReportStop::Memory),
        }
    }
    Ok(moves)
}
