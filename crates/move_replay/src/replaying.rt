//! From a program and a report to the plain form.

ghost use Rattle.std.specs.Prelude.{◌≡◌, ◌≢◌, ◌+◌, true, IfOk, OnOk, Ok, Err, length};
ghost use Rattle.c_copies.specs.Names.{names as the_names};
ghost use Rattle.c_tree.specs.InRange.{IsProgramInRange};
ghost use Rattle.c_tree.specs.Jumps.{is_plain_program};
ghost use Rattle.c_tree.specs.Text.{text_of};
ghost use Rattle.c_text.specs.Reading.{IsProgramOf};
ghost use Rattle.plain_laws.specs.Laws.{BehavesAsStructured};
ghost use Rattle.c_resolved_laws.specs.Counts.{IsResolved};
ghost use Rattle.c_tree.specs.declared.tree.Program.{Program as TheProgram};
ghost use Rattle.report_moves.specs.Report.{report_text};
ghost use Rattle.move_report.specs.Answers.{IsReport};
ghost use Rattle.move_report.specs.Numbers.{HaveNumbers};
ghost use Rattle.move_driver.specs.Restructured.{IsRestructured};
ghost use Rattle.move_driver.specs.declared.counts.Counts.{Counts as TheCounts};
ghost use Rattle.report_moves.specs.declared.moves.Move.{Move as TheMove};
ghost use Rattle.plain_form.specs.Plain.{plain as the_plain};
ghost use Rattle.print_limits.specs.Limits.{IsWithinLimits};
ghost use Rattle.move_replay.specs.Replay.{IsStart, IsFinished, IsAt, IsReplay, IsRefusal};

use crate::all_moves::convert_tops;
use crate::making::make_all;
use crate::reading::{read_moves, refused};
use c_tree::Program;
use c_types::{List, Memory, Name, ReadStop, Refusal, reasons};
use move_driver::{Counts, count, flatten_program, slot_counts};
use plain_form::plain;
use print_limits::is_within_limits;
use report_moves::Move;
use std::alloc::Global;

/// Gives each function of a program its flat form, and converts it; answers all names that the program had.
fn flatten_and_convert(alloc: Global, program: &mut Program) -> Result<List<Name>, Memory>
    ensures names { IfOk result (λ it. it ≡ the_names program.old) }
    ensures start { OnOk result (IsStart program.old program.new.tops) }
{
    let names = flatten_program(alloc, program)?;
    convert_tops(alloc, &mut program.tops)?;
    Ok(names)
}

/// The plain form of what the moves have reached, and what was done. Refuses with reason 53 where it is not
/// within the limits of a text.
fn plain_within_limits(
    alloc: Global,
    names: &List<Name>,
    moves: &List<Move>,
    program: Program,
    report: &[u8],
) -> Result<(Program, Counts), ReadStop>
    ensures ok { IfOk result (λ r. IsFinished names.now moves.now program r.0 r.1) }
    ensures deep { (refusal : Refusal) → result ≡ Err (ReadStop.Refused refusal) → ¬ (IsWithinLimits (the_plain names.now program)) }
    ensures refused { (refusal : Refusal) → result ≡ Err (ReadStop.Refused refusal) → IsAt 53 (length moves.now + 1) (length report.now) refusal }
{
    let before = slot_counts(alloc, &program)?;
    let plain = plain(alloc, names, program)?;
    if is_within_limits(&plain) {
        let counts = count(moves, &before, &plain);
        Ok((plain, counts))
    } else {
        Err(refused(
            reasons::RESULT_TOO_DEEP,
            moves.len() as u64 + 1,
            report.len(),
        ))
    }
}

/// What `replay` gives for the moves of the report.
fn replay_read_moves(
    alloc: Global,
    program: Program,
    moves: &List<Move>,
    report: &[u8],
) -> Result<(Program, Counts), ReadStop>
    requires resolved { IsResolved program }
    requires report { IsReport report.now moves.now }
    ensures replayed { IfOk result (λ r. IsReplay program report.now r.0 r.1) }
    ensures refused { (refusal : Refusal) → result ≡ Err (ReadStop.Refused refusal) → IsRefusal program report.now refusal }
{
    let mut program = program;
    let names = flatten_and_convert(alloc, &mut program)?;
    match make_all(alloc, &mut program.tops, moves, report) {
        Ok(()) => plain_within_limits(alloc, &names, moves, program, report),
        Err(stop) => Err(stop),
    }
}

/// What `replay` gives, with its cause.
fn replay_report(
    alloc: Global,
    program: Program,
    report: &[u8],
) -> Result<(Program, Counts), ReadStop>
    requires { IsResolved program }
    ensures replayed { IfOk result (λ r. IsReplay program report.now r.0 r.1) }
    ensures refused { (refusal : Refusal) → result ≡ Err (ReadStop.Refused refusal) → IsRefusal program report.now refusal }
{
    match read_moves(alloc, report) {
        Ok(moves) => replay_read_moves(alloc, program, &moves, report),
        Err(stop) => Err(stop),
    }
}

/// The plain form that a report makes of a resolved program, and what was done. Each function takes its flat form and is
/// converted; then the moves are made in the order of the report, which may be any in which each move is lawful where it
/// is made (docs/REWRITING.md). A report is refused at the first line that is none (50); else at the first move that
/// isn't lawful (51); else behind its last line, where a jump is left (52), or where the plain form is nested too deeply
/// or has too long an expression (53). The result has no goto and no label, and behaves as the program; it is a resolved
/// program again, and its printed text reads back as it. The report of `restructure_program`,
/// where it can be written, gives what that gives. The program is given up where it is refused.
pub fn replay(alloc: Global, program: Program, report: &[u8]) -> Result<(Program, Counts), ReadStop>
    requires { IsResolved program }
    ensures replayed { IfOk result (λ r. IsReplay program report.now r.0 r.1) }
    ensures refused { (refusal : Refusal) → result ≡ Err (ReadStop.Refused refusal) → IsRefusal program report.now refusal }
    ensures complete { (q : TheProgram) (counts : TheCounts) → IsReplay program report.now q counts → result ≢ Err ReadStop.Memory → result ≡ Ok (q, counts) }
    ensures exact { (refusal : Refusal) → IsRefusal program report.now refusal → result ≢ Err ReadStop.Memory → result ≡ Err (ReadStop.Refused refusal) }
    ensures restructured { (q : TheProgram) (ms : List TheMove) (counts : TheCounts) → IsRestructured program q ms counts → HaveNumbers ms → report.now ≡ report_text ms → IsReplay program report.now q counts }
    ensures plain { IfOk result (λ r. is_plain_program r.0 ≡ true) }
    ensures ranged { IfOk result (λ r. IsProgramInRange r.0) }
    ensures behaves { IfOk result (λ r. BehavesAsStructured program r.0) }
    ensures resolved { IfOk result (λ r. IsResolved r.0) }
    ensures reads_back { IfOk result (λ r. IsProgramOf (text_of r.0) r.0) }
{
    replay_report(alloc, program, report)
}
