ghost use Rattle.std.specs.Prelude.{◌≡◌, IfOk, IfErr, Err};
ghost use Rattle.c_text.specs.Reading.{IsInSubset, IsRefusedFor};
ghost use Rattle.move_driver.specs.Text.{output, IsTextRestructured, CanBeReplayed, IsOnlyOutput};
ghost use Rattle.move_driver.specs.Settled.{IsTextSettled};

use crate::counts::Counts;
use crate::program::{Rewritten, rewrite};
use c_printer::print;
use c_text::read;
use c_types::{Bytes, ReadStop, Refusal};
use move_report::write_report;
use std::alloc::Global;

/// A restructured text.
#[derive(Drop)]
pub struct Written {
    pub text: Bytes,
    /// The moves, one line for each (docs/REWRITING.md).
    pub report: Bytes,
    pub counts: Counts,
}

/// Restructures a text: reads its program, eliminates the jumps, and prints what is left, with the report of the moves.
/// A text is refused exactly if it is outside of the subset, at its first fault (docs/SUBSET.md). Want of memory is the
/// only other failure. A text that was written comes out the same, with an empty report.
pub fn restructure_text(alloc: Global, text: &[u8]) -> Result<Written, ReadStop>
    ensures restructured { IfOk result (λ written. IsTextRestructured text.now (output written)) }
    ensures only { IfOk result (λ written. IsOnlyOutput text.now (output written)) }
    ensures replayable { IfOk result (λ written. CanBeReplayed text.now (output written)) }
    ensures settled { IfOk result (λ written. IsTextSettled written.text) }
    ensures refused { (refusal : Refusal) → result ≡ Err (ReadStop.Refused refusal) → IsRefusedFor text.now refusal }
    ensures complete { IsInSubset text.now → IfErr result (λ stop. stop ≡ ReadStop.Memory) }
{
    let program = read(alloc, text)?;
    let Rewritten {
        program,
        moves,
        counts,
    } = rewrite(alloc, program)?;
    let text = print(alloc, &program)?;
    let report = write_report(alloc, &moves)?;
    Ok(Written {
        text,
        report,
        counts,
    })
}
