ghost use Rattle.std.specs.Prelude.{◌≡◌, ◌≤◌, ℕ, List, length, IfOk, IfErr, OnOk, Err};
ghost use Rattle.cmd_words.specs.Lines.{Tells};
ghost use Rattle.cmd_files.specs.Taken.{HandsOver};
ghost use Rattle.cmd_files.specs.Translated.{Untranslated};
ghost use Rattle.regoto.specs.Replayed.{Unreplayed};
ghost use Rattle.rg_ports.specs.Reads.{NotFewer, IsOneRead};

use c_tree::Program;
use c_types::{ReadStop, Refusal};
use cmd_files::{MOST_BYTES, Translation, take_text};
use cmd_words::{Status, tell, tell_refusal};
use rg_ports::{Shelf, Sink};
use std::alloc::Global;

/// The most bytes of a report.
pub const MOST_REPORT_BYTES: usize = 67108864;

/// Reads texts as programs, and makes the moves of reports in them.
pub trait Replayer {
    ghost use Rattle.c_types.specs.declared.refusal.Refusal.{Refusal};
    ghost use Rattle.c_tree.specs.declared.tree.Program.{Program};
    ghost use Rattle.cmd_files.specs.declared.translator.Translation.{Translation};

    /// What a text reads as.
    ghost reads: { List ℕ → Program → Type 0 };

    /// Why a text is refused.
    ghost refuses: { List ℕ → Refusal → Type 0 };

    /// What holds of each program that was read.
    ghost ready: { Program → Type 0 };

    /// What a report makes of a program.
    ghost gives: { Program → List ℕ → Translation → Type 0 };

    /// The reports that make something of a program, if memory allows.
    ghost accepts: { Program → List ℕ → Type 0 };

    /// Why a report is refused.
    ghost rejects: { Program → List ℕ → Refusal → Type 0 };

    fn read(&self, alloc: Global, text: &[u8]) -> Result<Program, ReadStop>
        ensures reads { IfOk result (reads text.now) }
        ensures ready { IfOk result ready }
        ensures refuses { (refusal : Refusal) → result ≡ Err (ReadStop.Refused refusal) → refuses text.now refusal };

    fn replay(
        &self,
        alloc: Global,
        program: Program,
        report: &[u8],
    ) -> Result<Translation, ReadStop>
        requires { ready program }
        ensures gives { IfOk result (gives program report.now) }
        ensures rejects { (refusal : Refusal) → result ≡ Err (ReadStop.Refused refusal) → rejects program report.now refusal };

    /// A text reads as one program.
    ghost one: { (text : List ℕ) (p q : Program) → reads text p → reads text q → p ≡ q };

    /// No text is both read and refused.
    ghost apart: { (text : List ℕ) (p : Program) (refusal : Refusal) → reads text p → refuses text refusal → ⊥ };

    /// No report is both accepted and refused.
    ghost report_apart: { (p : Program) (report : List ℕ) (refusal : Refusal) → ready p → accepts p report → rejects p report refusal → ⊥ };
}

/// The program of a file. Where there is none, how the command ends, which is told.
pub fn program_read<R: Replayer, H: Shelf, E: Sink>(
    alloc: Global,
    replayer: &R,
    from: &str,
    shelf: &mut H,
    err: &mut E,
) -> Result<Program, Status>
    ensures read { IfOk result (λ program. HandsOver (H.held shelf.old) from.now (λ text. (length text ≤ 1048576) × R.reads text program)) }
    ensures ready { IfOk result R.ready }
    ensures silent { OnOk result (err.new ≡ err.old) }
    ensures unread { IfErr result (Untranslated (λ line. Tells (E.written err.old) (E.written err.new) (E.faults err.old) (E.faults err.new) line)
        R.refuses from.now (H.held shelf.old) (H.reads shelf.old) (H.reads shelf.new)) }
    ensures once { IsOneRead (H.reads shelf.old) (H.reads shelf.new) }
    ensures kept { H.held shelf.new ≡ H.held shelf.old }
    ensures grows { NotFewer (H.reads shelf.old) (H.reads shelf.new) }
    ensures writes { H.write_faults shelf.new ≡ H.write_faults shelf.old }
{
    let text = take_text(alloc, from, MOST_BYTES, shelf, err)?;
    match replayer.read(alloc, text.as_slice()) {
        Ok(program) => Ok(program),
        Err(ReadStop::Refused(refusal)) => {
            tell_refusal(err, from, &refusal);
            Err(Status::Refused(refusal))
        }
        Err(ReadStop::Memory) => {
            tell(err, "regoto: out of memory\n");
            Err(Status::Memory)
        }
    }
}

/// What the report of a file makes of the program. Where that is nothing, how the command ends, which is told.
pub fn replayed<R: Replayer, H: Shelf, E: Sink>(
    alloc: Global,
    replayer: &R,
    program: Program,
    report: &str,
    shelf: &mut H,
    err: &mut E,
) -> Result<Translation, Status>
    requires { R.ready program }
    ensures given { IfOk result (λ made. HandsOver (H.held shelf.old) report.now (λ text. (length text ≤ 67108864) × R.gives program text made)) }
    ensures silent { OnOk result (err.new ≡ err.old) }
    ensures unreplayed { IfErr result (Unreplayed (λ line. Tells (E.written err.old) (E.written err.new) (E.faults err.old) (E.faults err.new) line)
        (R.rejects program) report.now (H.held shelf.old) (H.reads shelf.old) (H.reads shelf.new)) }
    ensures kept { H.held shelf.new ≡ H.held shelf.old }
    ensures grows { NotFewer (H.reads shelf.old) (H.reads shelf.new) }
    ensures writes { H.write_faults shelf.new ≡ H.write_faults shelf.old }
{
    let text = take_text(alloc, report, MOST_REPORT_BYTES, shelf, err)?;
    match replayer.replay(alloc, program, text.as_slice()) {
        Ok(made) => Ok(made),
        Err(ReadStop::Refused(refusal)) => {
            tell_refusal(err, report, &refusal);
            Err(Status::Refused(refusal))
        }
        Err(ReadStop::Memory) => {
            tell(err, "regoto: out of memory\n");
            Err(Status::Memory)
        }
    }
}
