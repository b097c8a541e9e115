ghost use Rattle.std.specs.Prelude.{◌≡◌, ℕ, codes, IfOk, IfErr, OnOk};
ghost use Rattle.c_resolved_laws.specs.Counts.{IsResolved};
ghost use Rattle.cmd_words.specs.Demo.{demo_line};
ghost use Rattle.cmd_words.specs.Lines.{Tells};
ghost use Rattle.cmd_files.specs.Shown.{Hands};
ghost use Rattle.regoto.specs.Runnable.{main_entry, IsRunnable, IsUnfit, Unfit};
ghost use Rattle.c_text.specs.Reading.{IsProgramOf, IsRefusedFor};
ghost use Rattle.regoto.specs.Demos.{CompletesDemo, IsShown, IsUnreadFor, ShowsDemo, StopsAt, Unshown};

use crate::alone::{STEPS, Stop};
use crate::both::show_both;
use crate::{Ready, ready_program};
use c_text::read;
use c_types::{Memory, ReadStop};
use cmd_words::{Demonstration, Status, tell, tell_refusal, tell_spent, tell_trap, write_demo};
use demo_gen::make;
use rg_ports::Sink;
use std::alloc::Global;

/// Restructures the text of n functions (`demo_gen::make`), runs its program and that of the result without input, for at
/// most 100,000,000 steps each, and writes one line about it to `out`.
pub fn demo<O: Sink, E: Sink>(alloc: Global, n: u32, out: &mut O, err: &mut E) -> Status
    ensures shows { ShowsDemo n (out.new ≡ out.old) (O.written out.old) (O.written out.new) (O.faults out.old) (O.faults out.new)
        (E.written err.old) (E.written err.new) (E.faults err.old) (E.faults err.new) result }
    ensures completes { CompletesDemo n (O.faults out.old) (O.faults out.new) result }
{
    match demonstrated(alloc, n, err) {
        Ok(shown) => write_line(shown, out, err),
        Err(status) => status,
    }
}

/// Writes the line on a demonstration to `out`.
fn write_line<O: Sink, E: Sink>(shown: Demonstration, out: &mut O, err: &mut E) -> Status
    ensures { Hands (demo_line shown) (O.written out.old) (O.written out.new) (O.faults out.old) (O.faults out.new)
        (E.written err.old) (E.written err.new) (E.faults err.old) (E.faults err.new) result }
{
    if write_demo(out, shown) {
        return Status::Done;
    }
    tell(err, "regoto: write failed\n");
    Status::WriteFault
}

/// What is to be shown of the text of n functions. Else how the command ends, which is told.
fn demonstrated<E: Sink>(alloc: Global, n: u32, err: &mut E) -> Result<Demonstration, Status>
    ensures shown { IfOk result (IsShown n) }
    ensures silent { OnOk result (err.new ≡ err.old) }
    ensures unshown { IfErr result (Unshown (λ line. Tells (E.written err.old) (E.written err.new) (E.faults err.old) (E.faults err.new) line) n) }
{
    let text = match make(alloc, n) {
        Ok(text) => text,
        Err(Memory) => {
            tell(err, "regoto: out of memory\n");
            return Err(Status::Memory);
        }
    };
    let source = read_source(alloc, text.as_slice(), err)?;
    match show_both(alloc, n, text.as_slice(), &source) {
        Ok(shown) => Ok(shown),
        Err(stop) => Err(tell_stop(err, stop)),
    }
}

/// The program of the text, if it can be run. Else how the command ends, which is told.
fn read_source<E: Sink>(alloc: Global, text: &[u8], err: &mut E) -> Result<Ready, Status>
    ensures reads { IfOk result (λ ready. IsProgramOf text.now ready.program) }
    ensures resolved { IfOk result (λ ready. IsResolved ready.program) }
    ensures runnable { IfOk result (λ ready. IsRunnable ready.program) }
    ensures entry { IfOk result (λ ready. ready.entry ≡ main_entry) }
    ensures silent { OnOk result (err.new ≡ err.old) }
    ensures unfit { IfErr result (Unfit (λ line. Tells (E.written err.old) (E.written err.new) (E.faults err.old) (E.faults err.new) line)
        (λ refusal. IsUnfit IsProgramOf IsRefusedFor refusal text.now) (codes "demo")) }
{
    match read(alloc, text) {
        Ok(program) => ready_program(alloc, program, "demo", err),
        Err(stop) => Err(tell_unread(err, stop)),
    }
}

/// Tells why the text has no program.
fn tell_unread<E: Sink>(err: &mut E, stop: ReadStop) -> Status
    ensures { IsUnreadFor (λ line. Tells (E.written err.old) (E.written err.new) (E.faults err.old) (E.faults err.new) line) stop result }
{
    match stop {
        ReadStop::Refused(refusal) => {
            tell_refusal(err, "demo", &refusal);
            Status::Refused(refusal)
        }
        ReadStop::Memory => {
            tell(err, "regoto: out of memory\n");
            Status::Memory
        }
    }
}

/// Tells why nothing is shown.
fn tell_stop<E: Sink>(err: &mut E, stop: Stop) -> Status
    ensures { (n : ℕ) → StopsAt n stop → Unshown (λ line. Tells (E.written err.old) (E.written err.new) (E.faults err.old) (E.faults err.new) line) n result }
{
    match stop {
        Stop::Trapped(trap) => {
            tell_trap(err, trap);
            Status::Trapped(trap)
        }
        Stop::Spent => {
            tell_spent(err, STEPS);
            Status::Spent
        }
        Stop::Memory => {
            tell(err, "regoto: out of memory\n");
            Status::Memory
        }
    }
}
