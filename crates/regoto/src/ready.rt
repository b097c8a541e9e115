ghost use Rattle.std.specs.Prelude.{◌≡◌, ◌≤◌, ℕ, List, length, MatchOption, IfOk, IfErr, OnOk, Err};
ghost use Rattle.jump_meaning.specs.Code.{code_of};
ghost use Rattle.jump_meaning.specs.Runs.{IsEntry};
ghost use Rattle.cmd_words.specs.Lines.{Tells};
ghost use Rattle.cmd_files.specs.Taken.{HandsOver};
ghost use Rattle.regoto.specs.Runnable.{main_entry as the_main_entry, EntersMain, IsRunnable, IsBlocked, IsUnfit, Unfit, Unrun};

use c_tree::Program;
use c_types::{List, Memory, Name, ReadStop, Refusal, reasons};
use cmd_files::take_text;
use cmd_words::{Status, tell, tell_refusal};
use rg_ports::{Shelf, Sink};
use std::alloc::Global;
use step_interp::{Entry, is_entry};
use step_open_calls::has_open_call;

/// The most bytes of a text that is run.
pub const MOST_RUN_BYTES: usize = 67108864;

const NO_MAIN: Refusal = Refusal {
    reason: reasons::NO_MAIN,
    line: 1,
    column: 1,
    at: 0,
};

const OPEN_CALL: Refusal = Refusal {
    reason: reasons::NO_BODY,
    line: 1,
    column: 1,
    at: 0,
};

/// Reads texts as programs.
pub trait ProgramReader {
    ghost use Rattle.c_types.specs.declared.refusal.Refusal.{Refusal};
    ghost use Rattle.c_tree.specs.declared.tree.Program.{Program};
    ghost use Rattle.regoto.specs.Runnable.{EntersMain};

    /// What a text reads as.
    ghost gives: { List ℕ → Program → Type 0 };

    /// Why a text is refused.
    ghost refuses: { List ℕ → Refusal → Type 0 };

    fn read(&self, alloc: Global, text: &[u8]) -> Result<Program, ReadStop>
        ensures gives { IfOk result (gives text.now) }
        ensures enters { IfOk result EntersMain }
        ensures refuses { (refusal : Refusal) → result ≡ Err (ReadStop.Refused refusal) → refuses text.now refusal };

    /// A text reads as one program.
    ghost one: { (text : List ℕ) (p q : Program) → gives text p → gives text q → p ≡ q };

    /// No text is both read and refused.
    ghost apart: { (text : List ℕ) (p : Program) (refusal : Refusal) → gives text p → refuses text refusal → ⊥ };
}

/// A program, and where its run begins.
#[derive(Drop)]
pub struct Ready {
    pub program: Program,
    pub entry: Entry,
}

/// The start of a run in `main`, without arguments.
fn main_entry(alloc: Global) -> Result<Entry, Memory>
    ensures { IfOk result (λ entry. entry ≡ the_main_entry) }
{
    let function = Name::from_string(String::from_str(alloc, "main")?);
    Ok(Entry {
        function,
        arguments: List::new(alloc),
    })
}

/// Why the program can't be run, if it can't.
fn blocked(program: &Program, entry: &Entry) -> Option<Refusal>
    requires main { entry.now ≡ the_main_entry }
    requires enters { EntersMain program.now }
    ensures { MatchOption result (IsRunnable program.now) (λ refusal. IsBlocked program.now refusal) }
{
    if !is_entry(program, entry) {
        return Some(NO_MAIN);
    }
    if has_open_call(program) {
        return Some(OPEN_CALL);
    }
    None
}

/// The program with the start of its run, if it can be run. Else how the command ends, which is told.
pub fn ready_program<E: Sink>(
    alloc: Global,
    program: Program,
    from: &str,
    err: &mut E,
) -> Result<Ready, Status>
    requires { EntersMain program }
    ensures program { IfOk result (λ ready. ready.program ≡ program) }
    ensures runnable { IfOk result (λ ready. IsRunnable ready.program) }
    ensures entry { IfOk result (λ ready. ready.entry ≡ the_main_entry) }
    ensures silent { OnOk result (err.new ≡ err.old) }
    ensures unfit { IfErr result (Unfit (λ line. Tells (E.written err.old) (E.written err.new) (E.faults err.old) (E.faults err.new) line)
        (IsBlocked program) from.now) }
{
    let entry = match main_entry(alloc) {
        Ok(entry) => entry,
        Err(Memory) => {
            tell(err, "regoto: out of memory\n");
            return Err(Status::Memory);
        }
    };
    match blocked(&program, &entry) {
        None => Ok(Ready { program, entry }),
        Some(refusal) => {
            tell_refusal(err, from, &refusal);
            Err(Status::Refused(refusal))
        }
    }
}

/// The program that the text reads as, if it can be run. Else how the command ends, which is told.
fn readied<R: ProgramReader, E: Sink>(
    alloc: Global,
    reader: &R,
    from: &str,
    text: &[u8],
    err: &mut E,
) -> Result<Ready, Status>
    ensures gives { IfOk result (λ ready. R.gives text.now ready.program) }
    ensures runnable { IfOk result (λ ready. IsRunnable ready.program) }
    ensures entry { IfOk result (λ ready. ready.entry ≡ the_main_entry) }
    ensures enters { IfOk result (λ ready. EntersMain ready.program) }
    ensures silent { OnOk result (err.new ≡ err.old) }
    ensures unfit { IfErr result (Unfit (λ line. Tells (E.written err.old) (E.written err.new) (E.faults err.old) (E.faults err.new) line)
        (λ refusal. IsUnfit R.gives R.refuses refusal text.now) from.now) }
{
    match reader.read(alloc, text) {
        Ok(program) => ready_program(alloc, program, from, err),
        Err(ReadStop::Refused(refusal)) => {
            tell_refusal(err, from, &refusal);
            Err(Status::Refused(refusal))
        }
        Err(ReadStop::Memory) => {
            tell(err, "regoto: out of memory\n");
            Err(Status::Memory)
        }
    }
}

/// The program of a file, if it can be run. Else how the command ends, which is told.
pub fn prepared<R: ProgramReader, H: Shelf, E: Sink>(
    alloc: Global,
    reader: &R,
    from: &str,
    shelf: &mut H,
    err: &mut E,
) -> Result<Ready, Status>
    ensures read { IfOk result (λ ready. HandsOver (H.held shelf.old) from.now (λ text. (length text ≤ 67108864) × R.gives text ready.program)) }
    ensures runnable { IfOk result (λ ready. IsRunnable ready.program) }
    ensures entry { IfOk result (λ ready. ready.entry ≡ the_main_entry) }
    ensures enters { IfOk result (λ ready. EntersMain ready.program) }
    ensures silent { OnOk result (err.new ≡ err.old) }
    ensures unrun { IfErr result (Unrun (λ line. Tells (E.written err.old) (E.written err.new) (E.faults err.old) (E.faults err.new) line)
        R.gives R.refuses from.now (H.held shelf.old) (H.reads shelf.old) (H.reads shelf.new)) }
    ensures kept { H.held shelf.new ≡ H.held shelf.old }
    ensures writes { H.write_faults shelf.new ≡ H.write_faults shelf.old }
{
    let text = take_text(alloc, from, MOST_RUN_BYTES, shelf, err)?;
    readied(alloc, reader, from, text.as_slice(), err)
}
