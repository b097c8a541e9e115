ghost use Rattle.std.specs.Prelude.{◌≡◌, ◌≤◌, FitsSigned, IfOk, OnErr};
ghost use Rattle.std.specs.Int.{w128};
ghost use Rattle.rg_ports.specs.Count.{Rose};
ghost use Rattle.rg_ports.specs.Written.{Written};
ghost use Rattle.jump_meaning.specs.Code.{code_of};
ghost use Rattle.jump_meaning.specs.Runs.{IsEntry};
ghost use Rattle.jump_meaning.specs.World.{World};
ghost use Rattle.step_interp.specs.Functions.{AreFunctionsOf};
ghost use Rattle.step_interp.specs.Machines.{HasWorld};
ghost use Rattle.step_interp.specs.Answers.{AgreesOver, Answers, AnswersOver, Beginning};
ghost use Rattle.step_interp.specs.Followed.{Followed, Follows, HasPorts, IsReadFault, IsWriteFault, ReadsNext};

use crate::entry::Entry;
use crate::functions::{Functions, functions_of};
use crate::machine::{Machine, Next};
use crate::skipping::skip;
use crate::starts::start;
use crate::steps::step;
use c_tree::Program;
use c_types::{Memory, Trap};
use rg_ports::{Failed, Sink, Source, write_all};
use std::alloc::Global;

/// How a run stood when it was left; the `u64` is the number of steps.
#[derive(Clone, Copy, Debug, PartialEq, Eq)]
pub enum RunAnswer {
    Ended(i128, u64),
    Trapped(Trap, u64),
    /// All steps were made, and the run goes on.
    Spent,
    ReadFault,
    WriteFault,
    Memory,
}

/// What is done with what a step comes to: the run goes on, or it is over.
#[derive(Clone, Copy)]
pub enum After {
    GoesOn,
    Over(RunAnswer),
}

/// The next byte of the input, or -1 at its end.
fn read_byte<I: Source>(input: &mut I) -> Result<i128, Failed>
    ensures ok { IfOk result (λ z. ReadsNext z (I.rest input.old) (I.rest input.new)) }
    ensures fits { IfOk result (λ z. FitsSigned w128 z) }
    ensures err { OnErr result (I.rest input.new ≡ I.rest input.old) }
    ensures failed { OnErr result (Rose (I.faults input.old) (I.faults input.new)) }
    ensures grows { I.faults input.old ≤ I.faults input.new }
{
    let mut buf = [0u8; 1];
    let count = input.read(&mut buf)?;
    if count == 0 {
        return Ok(-1);
    }
    Ok(buf[0] as i128)
}

/// One step, with what it reads and writes; `steps` is its number, from 1.
fn step_with<I: Source, O: Sink>(
    machine: &mut Machine<'_, '_>,
    steps: u64,
    input: &mut I,
    out: &mut O,
) -> After
    ensures program { machine.new.program ≡ machine.old.program }
    ensures came { (told : Written) (w : World) → HasWorld machine.old w → HasPorts told w (O.written out.old) (I.rest input.old)
        → Followed (code_of machine.old.program.now) told steps machine.old w result machine.new (O.written out.new) (I.rest input.new) }
    ensures read_fault { IsReadFault result → Rose (I.faults input.old) (I.faults input.new) }
    ensures write_fault { IsWriteFault result → Rose (O.faults out.old) (O.faults out.new) }
    ensures reads { I.faults input.old ≤ I.faults input.new }
    ensures writes { O.faults out.old ≤ O.faults out.new }
{
    match step(machine) {
        Err(Memory) => After::Over(RunAnswer::Memory),
        Ok(Next::Goes) => After::GoesOn,
        Ok(Next::Reads) => match read_byte(input) {
            Ok(number) => match machine.give(number) {
                Ok(()) => After::GoesOn,
                Err(Memory) => After::Over(RunAnswer::Memory),
            },
            Err(Failed) => After::Over(RunAnswer::ReadFault),
        },
        Ok(Next::Writes(byte)) => match write_all(out, &[byte]) {
            Ok(()) => After::GoesOn,
            Err(Failed) => After::Over(RunAnswer::WriteFault),
        },
        Ok(Next::Prints(text)) => match write_all(out, text.as_slice()) {
            Ok(()) => After::GoesOn,
            Err(Failed) => After::Over(RunAnswer::WriteFault),
        },
        Ok(Next::Ends(number)) => After::Over(RunAnswer::Ended(number, steps)),
        Ok(Next::Traps(trap)) => After::Over(RunAnswer::Trapped(trap, steps)),
    }
}

/// Runs a machine for at most so many steps.
fn run_machine<I: Source, O: Sink>(
    machine: &mut Machine<'_, '_>,
    budget: u64,
    input: &mut I,
    out: &mut O,
) -> RunAnswer
    ensures answers { (r : Beginning) → r.code ≡ code_of machine.old.program.now
        → Follows r.first r.told machine.old (O.written out.old) (I.rest input.old)
        → Answers r budget result (O.written out.new) (I.rest input.new) }
    ensures read_fault { result ≡ RunAnswer.ReadFault → Rose (I.faults input.old) (I.faults input.new) }
    ensures write_fault { result ≡ RunAnswer.WriteFault → Rose (O.faults out.old) (O.faults out.new) }
    ensures reads { I.faults input.old ≤ I.faults input.new }
    ensures writes { O.faults out.old ≤ O.faults out.new }
{
    let mut done = 0;
    while done < budget {
        let Ok(steps) = skip(machine, budget - done) else {
            return RunAnswer::Memory;
        };
        if steps > 0 {
            done += steps;
        } else {
            match step_with(machine, done + 1, input, out) {
                After::GoesOn => done += 1,
                After::Over(answer) => return answer,
            }
        }
    }
    RunAnswer::Spent
}

/// Runs the program, which has these functions, from the entry, for at most so many steps.
fn run_linked<'t, 'a, I: Source, O: Sink>(
    alloc: Global,
    program: &'a Program,
    functions: &'t Functions<'a>,
    entry: &Entry,
    budget: u64,
    input: &mut I,
    out: &mut O,
) -> RunAnswer
    requires { AreFunctionsOf program.now functions.now }
    ensures answers { AnswersOver program.now entry.now budget result (I.rest input.old) (I.rest input.new) (O.written out.old) (O.written out.new) }
    ensures read_fault { result ≡ RunAnswer.ReadFault → Rose (I.faults input.old) (I.faults input.new) }
    ensures write_fault { result ≡ RunAnswer.WriteFault → Rose (O.faults out.old) (O.faults out.new) }
    ensures reads { I.faults input.old ≤ I.faults input.new }
    ensures writes { O.faults out.old ≤ O.faults out.new }
{
    let arguments = entry.arguments.as_slice();
    match start(alloc, program, functions, &entry.function, arguments) {
        Ok(Some(machine)) => {
            let mut machine = machine;
            run_machine(&mut machine, budget, input, out)
        }
        Ok(None) => RunAnswer::Trapped(Trap::Cells, 0),
        Err(Memory) => RunAnswer::Memory,
    }
}

/// Runs the program from the entry, for at most so many steps.
fn run_entry<'a, I: Source, O: Sink>(
    alloc: Global,
    program: &'a Program,
    entry: &Entry,
    budget: u64,
    input: &mut I,
    out: &mut O,
) -> RunAnswer
    ensures answers { AnswersOver program.now entry.now budget result (I.rest input.old) (I.rest input.new) (O.written out.old) (O.written out.new) }
    ensures read_fault { result ≡ RunAnswer.ReadFault → Rose (I.faults input.old) (I.faults input.new) }
    ensures write_fault { result ≡ RunAnswer.WriteFault → Rose (O.faults out.old) (O.faults out.new) }
    ensures reads { I.faults input.old ≤ I.faults input.new }
    ensures writes { O.faults out.old ≤ O.faults out.new }
{
    match functions_of(alloc, program) {
        Ok(functions) => run_linked(alloc, program, &functions, entry, budget, input, out),
        Err(Memory) => RunAnswer::Memory,
    }
}

/// Runs the program from the entry, for at most so many steps, by the meaning of programs with jumps
/// (ISO/IEC 9899:2011, 6.8). It reads a byte where `getchar` is called, and writes each byte before the
/// next step. A call of a function without a body that is none of the library's has no answer. Over a
/// source that tells its bytes:
///
/// - After `Ended` or `Trapped` the value or the trap and the number of steps are those of the run, and
///   the sink was given exactly its bytes.
/// - After `Spent` all steps were made, the run goes on, and the sink was given exactly the bytes of
///   these steps.
/// - Else it was given those of a number of steps. After `ReadFault` the next step is a call of
///   `getchar`. After `WriteFault` the next step has bytes, of which it was given a proper prefix too.
pub fn run<I: Source, O: Sink>(
    alloc: Global,
    program: &Program,
    entry: &Entry,
    budget: u64,
    input: &mut I,
    out: &mut O,
) -> RunAnswer
    requires { IsEntry (code_of program.now) entry.now.function entry.now.arguments }
    ensures answers { AnswersOver program.now entry.now budget result (I.rest input.old) (I.rest input.new) (O.written out.old) (O.written out.new) }
    ensures read_fault { result ≡ RunAnswer.ReadFault → Rose (I.faults input.old) (I.faults input.new) }
    ensures write_fault { result ≡ RunAnswer.WriteFault → Rose (O.faults out.old) (O.faults out.new) }
    ensures reads { I.faults input.old ≤ I.faults input.new }
    ensures writes { O.faults out.old ≤ O.faults out.new }
    // Where no call on a port fails, the answer is the one that the run shows, but for want of memory.
    ensures complete { ¬ (Rose (I.faults input.old) (I.faults input.new)) → ¬ (Rose (O.faults out.old) (O.faults out.new))
        → AgreesOver program.now entry.now budget result (I.rest input.old) }
{
    run_entry(alloc, program, entry, budget, input, out)
}
