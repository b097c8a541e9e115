ghost use Rattle.std.specs.Prelude.{◌≡◌};
ghost use Rattle.cmd_words.specs.Lines.{Tells};
ghost use Rattle.regoto.specs.Replayed.{ReplaysIn, CompletesReport};
ghost use Rattle.regoto.specs.Replays.{Replays, CompletesReplay};

use crate::replayer::{Replayer, program_read, replayed};
use c_tree::Program;
use cmd_files::{Targets, write_translation};
use cmd_words::Status;
use rg_ports::{Shelf, Sink};
use std::alloc::Global;

/// Makes the moves of the report of one file in the program, and writes what becomes of it to another, which may be the
/// same.
fn replay_in<R: Replayer, H: Shelf, E: Sink>(
    alloc: Global,
    replayer: &R,
    program: Program,
    report: &str,
    to: &str,
    shelf: &mut H,
    err: &mut E,
) -> Status
    requires { R.ready program }
    ensures replays { ReplaysIn (λ line. Tells (E.written err.old) (E.written err.new) (E.faults err.old) (E.faults err.new) line)
        (R.gives program) (R.rejects program) report.now to.now (H.held shelf.old) (H.held shelf.new)
        (H.reads shelf.old) (H.reads shelf.new) (H.write_faults shelf.old) (H.write_faults shelf.new) result }
    ensures completes { CompletesReport (R.accepts program) report.now (H.held shelf.old) (H.reads shelf.old) (H.reads shelf.new)
        (H.write_faults shelf.old) (H.write_faults shelf.new) result }
{
    match replayed(alloc, replayer, program, report, shelf, err) {
        Ok(made) => {
            write_translation(
                &Targets {
                    text: to,
                    report: None,
                },
                &made,
                shelf,
                err,
            )
        }
        Err(status) => status,
    }
}

/// Reads the program of one file, makes the moves of the report of another in it, and writes what becomes of it to a
/// third. Each two may be the same.
pub fn replay_file<R: Replayer, H: Shelf, E: Sink>(
    alloc: Global,
    replayer: &R,
    from: &str,
    report: &str,
    to: &str,
    shelf: &mut H,
    err: &mut E,
) -> Status
    ensures replays { Replays (λ line. Tells (E.written err.old) (E.written err.new) (E.faults err.old) (E.faults err.new) line)
        R.reads R.refuses R.gives R.rejects from.now report.now to.now (H.held shelf.old) (H.held shelf.new)
        (H.reads shelf.old) (H.reads shelf.new) (H.write_faults shelf.old) (H.write_faults shelf.new) result }
    ensures completes { CompletesReplay R.reads R.accepts from.now report.now (H.held shelf.old) (H.reads shelf.old) (H.reads shelf.new)
        (H.write_faults shelf.old) (H.write_faults shelf.new) result }
{
    match program_read(alloc, replayer, from, shelf, err) {
        Ok(program) => replay_in(alloc, replayer, program, report, to, shelf, err),
        Err(status) => status,
    }
}
