ghost use Rattle.std.specs.Prelude.{◌≡◌, ◌⊎◌, [], ℕ, List, Some, codes};
ghost use Rattle.jump_meaning.specs.Code.{code_of};
ghost use Rattle.jump_meaning.specs.Runs.{jump_run};
ghost use Rattle.rg_ports.specs.Count.{Rose};
ghost use Rattle.cmd_words.specs.Lines.{Tells, ended_line};
ghost use Rattle.regoto.specs.Runnable.{main_entry, EntersMain, IsRunnable};
ghost use Rattle.regoto.specs.Ran.{Ran, status_of, line_of, shown_status};

use crate::ready::Ready;
use cmd_words::{Status, tell, tell_ended, tell_spent, tell_trap};
use rg_ports::{Sink, Source};
use std::alloc::Global;
use step_interp::{RunAnswer, run};

/// Tells the value with which a run ended.
fn tell_value<E: Sink>(err: &mut E, value: &i128)
    ensures { Tells (E.written err.old) (E.written err.new) (E.faults err.old) (E.faults err.new) (ended_line value.now) }
{
    let number = *value;
    tell_ended(err, number);
}

/// Tells how a run ended.
fn tell_answer<E: Sink>(answer: &RunAnswer, steps: u64, err: &mut E) -> Status
    ensures status { result ≡ status_of answer.now }
    ensures line { Tells (E.written err.old) (E.written err.new) (E.faults err.old) (E.faults err.new) (line_of steps answer.now) }
{
    match answer {
        RunAnswer::Ended(value, _) => {
            tell_value(err, value);
            Status::Done
        }
        RunAnswer::Trapped(trap, _) => {
            tell_trap(err, *trap);
            Status::Trapped(*trap)
        }
        RunAnswer::Spent => {
            tell_spent(err, steps);
            Status::Spent
        }
        RunAnswer::ReadFault => {
            tell(err, "regoto: read failed\n");
            Status::ReadFault
        }
        RunAnswer::WriteFault => {
            tell(err, "regoto: write failed\n");
            Status::WriteFault
        }
        RunAnswer::Memory => {
            tell(err, "regoto: out of memory\n");
            Status::Memory
        }
    }
}

/// Runs the program for at most so many steps, and tells how that ended.
pub fn run_ready<I: Source, O: Sink, E: Sink>(
    alloc: Global,
    ready: &Ready,
    steps: u64,
    input: &mut I,
    out: &mut O,
    err: &mut E,
) -> Status
    requires entry { ready.now.entry ≡ main_entry }
    requires enters { EntersMain ready.now.program }
    requires runnable { IsRunnable ready.now.program }
    ensures ran { Ran (λ line. Tells (E.written err.old) (E.written err.new) (E.faults err.old) (E.faults err.new) line) steps
        (I.rest input.old) (I.rest input.new) (I.faults input.old) (I.faults input.new)
        (O.written out.old) (O.written out.new) (O.faults out.old) (O.faults out.new) result ready.now.program }
    ensures complete { ¬ Rose (I.faults input.old) (I.faults input.new) → ¬ Rose (O.faults out.old) (O.faults out.new)
        → (bytes : List ℕ) → I.rest input.old ≡ Some bytes
        → (result ≡ shown_status (jump_run (code_of ready.now.program) (codes "main") [] bytes [] steps)) ⊎ (result ≡ Status.Memory) }
{
    let answer = run(alloc, &ready.program, &ready.entry, steps, input, out);
    tell_answer(&answer, steps, err)
}
