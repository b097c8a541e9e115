ghost use Rattle.std.specs.Prelude.{◌≡◌, IfOk, IfErr};
ghost use Rattle.demo_gen.specs.DemoText.{demo_text};
ghost use Rattle.c_resolved_laws.specs.Counts.{IsResolved};
ghost use Rattle.regoto.specs.Runnable.{main_entry, IsRunnable};
ghost use Rattle.c_text.specs.Reading.{IsInSubset, IsProgramOf};
ghost use Rattle.move_driver.specs.Text.{output, IsTextRestructured, IsOnlyOutput};
ghost use Rattle.regoto.specs.Demos.{IsShown, StopsAt};

use crate::Ready;
use crate::alone::{End, STEPS, Stop, run_alone};
use c_text::read;
use c_tree::Program;
use c_types::{Memory, ReadStop};
use cmd_words::Demonstration;
use move_driver::{Written, restructure_text};
use std::alloc::Global;

/// Restructures a text of the subset.
fn restructured(alloc: Global, text: &[u8]) -> Result<Written, Memory>
    requires { IsInSubset text.now }
    ensures restructured { IfOk result (λ written. IsTextRestructured text.now (output written)) }
    ensures only { IfOk result (λ written. IsOnlyOutput text.now (output written)) }
{
    match restructure_text(alloc, text) {
        Ok(written) => Ok(written),
        Err(ReadStop::Memory) => Err(Memory),
        Err(ReadStop::Refused(_)) => unreachable!(),
    }
}

/// The program of a text of the subset.
fn reread(alloc: Global, text: &[u8]) -> Result<Program, Memory>
    requires { IsInSubset text.now }
    ensures { IfOk result (λ program. IsProgramOf text.now program) }
{
    match read(alloc, text) {
        Ok(program) => Ok(program),
        Err(ReadStop::Memory) => Err(Memory),
        Err(ReadStop::Refused(_)) => unreachable!(),
    }
}

/// Restructures the text of n functions, and runs its program and that of the result.
pub fn show_both(alloc: Global, n: u32, text: &[u8], source: &Ready) -> Result<Demonstration, Stop>
    requires text { text.now ≡ demo_text n }
    requires reads { IsProgramOf text.now source.now.program }
    requires resolved { IsResolved source.now.program }
    requires entry { source.now.entry ≡ main_entry }
    requires runnable { IsRunnable source.now.program }
    ensures shown { IfOk result (IsShown n) }
    ensures stops { IfErr result (StopsAt n) }
{
    let written = restructured(alloc, text)?;
    let result = reread(alloc, written.text.as_slice())?;
    let End { value, bytes } = run_alone(alloc, &source.program, &source.entry, STEPS)?;
    run_alone(alloc, &result, &source.entry, STEPS)?;
    Ok(Demonstration {
        functions: n,
        jumps: written.counts.jumps,
        moves: written.counts.moves,
        guards: written.counts.guards,
        bytes,
        value,
    })
}
