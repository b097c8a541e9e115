//! All moves of a report, made in a program.

ghost use Rattle.std.specs.Prelude.{◌≡◌, ◌+◌, OnOk, Err, All, length};
ghost use Rattle.restructure_laws.specs.Lawful.{Moves};
ghost use Rattle.restructure_laws.specs.Replayed.{IsTopWellMade, IsTopLeapless};
ghost use Rattle.move_replay.specs.Replay.{IsAt, IsStopped, Stops};

use crate::all_moves::{leap_left, make_moves};
use crate::lines::line_start;
use crate::reading::refused;
use c_tree::Top;
use c_types::{List, ReadStop, Refusal, reasons};
use report_moves::Move;
use std::alloc::Global;

/// Makes the moves in their order. Refuses with reason 51 at the first that isn't lawful.
fn make_each(
    alloc: Global,
    tops: &mut List<Top>,
    moves: &List<Move>,
    report: &[u8],
) -> Result<(), ReadStop>
    requires { All IsTopWellMade tops.old }
    ensures moved { OnOk result (Moves tops.old moves.now tops.new) }
    ensures refused { (refusal : Refusal) → result ≡ Err (ReadStop.Refused refusal) → IsStopped tops.old moves.now report.now refusal }
{
    match make_moves(alloc, tops, moves.as_slice())? {
        Some(made) => Err(refused(
            reasons::UNFIT_MOVE,
            made as u64 + 1,
            line_start(report, made),
        )),
        None => Ok(()),
    }
}

/// Refuses with reason 52 behind the last move where a Leap is left.
fn find_none(
    alloc: Global,
    tops: &List<Top>,
    moves: &List<Move>,
    report: &[u8],
) -> Result<(), ReadStop>
    requires { All IsTopWellMade tops.now }
    ensures leapless { OnOk result (All IsTopLeapless tops.now) }
    ensures left { (refusal : Refusal) → result ≡ Err (ReadStop.Refused refusal) → ¬ (All IsTopLeapless tops.now) }
    ensures refused { (refusal : Refusal) → result ≡ Err (ReadStop.Refused refusal) → IsAt 52 (length moves.now + 1) (length report.now) refusal }
{
    if leap_left(alloc, tops.as_slice())? {
        Err(refused(reasons::JUMP_LEFT, moves.len() as u64 + 1, report.len()))
    } else {
        Ok(())
    }
}

/// Makes the moves in their order. Refuses with reason 51 at the first that isn't lawful, and with reason 52
/// behind the last where a Leap is left then; the functions are given up then.
pub fn make_all(
    alloc: Global,
    tops: &mut List<Top>,
    moves: &List<Move>,
    report: &[u8],
) -> Result<(), ReadStop>
    requires { All IsTopWellMade tops.old }
    ensures moved { OnOk result (Moves tops.old moves.now tops.new) }
    ensures leapless { OnOk result (All IsTopLeapless tops.new) }
    ensures refused { (refusal : Refusal) → result ≡ Err (ReadStop.Refused refusal) → Stops tops.old moves.now report.now refusal }
{
    match make_each(alloc, tops, moves, report) {
        Ok(()) => find_none(alloc, tops, moves, report),
        Err(stop) => Err(stop),
    }
}
