ghost use Rattle.std.specs.Prelude.{◌≡◌, [], codes, IfOk, IfErr};
ghost use Rattle.jump_meaning.specs.Code.{code_of};
ghost use Rattle.jump_meaning.specs.Runs.{IsEntry};
ghost use Rattle.regoto.specs.Runnable.{main_entry};
ghost use Rattle.regoto.specs.declared.alone.Stop.TheVariants.{Memory as StopMemory};
ghost use Rattle.regoto.specs.DemoRuns.{most_steps, left_at, IsEnd, IsStop};

use c_tree::Program;
use c_types::{Memory, Trap};
use rg_ports::{CountSink, NoInput};
use std::alloc::Global;
use step_interp::{Entry, RunAnswer, run};

/// The most steps of a run.
pub const STEPS: u64 = 100000000;

/// How a run ended.
#[derive(Clone, Copy, Debug, PartialEq, Eq)]
pub struct End {
    pub value: i128,
    /// The bytes of its output.
    pub bytes: u64,
}

/// Why a run didn't end.
#[derive(Clone, Copy, Debug, PartialEq, Eq)]
pub enum Stop {
    Trapped(Trap),
    Spent,
    Memory,
}

impl From<Memory> for Stop {
    ghost from_gives = { λ _ e. e ≡ StopMemory };

    fn from(_: Memory) -> Stop {
        Stop::Memory
    }
}

/// Runs `main` of the program without input, and counts its output, for at most so many steps.
pub fn run_alone(alloc: Global, program: &Program, entry: &Entry, steps: u64) -> Result<End, Stop>
    requires main { entry.now ≡ main_entry }
    requires steps { steps ≡ most_steps }
    requires enters { IsEntry (code_of program.now) (codes "main") [] }
    ensures end { IfOk result (IsEnd (left_at program.now)) }
    ensures stop { IfErr result (IsStop (left_at program.now)) }
{
    let mut input = NoInput::new();
    let mut out = CountSink::new();
    match run(alloc, program, entry, steps, &mut input, &mut out) {
        RunAnswer::Ended(value, _) => Ok(End {
            value,
            bytes: out.written(),
        }),
        RunAnswer::Trapped(trap, _) => Err(Stop::Trapped(trap)),
        RunAnswer::Spent => Err(Stop::Spent),
        RunAnswer::Memory => Err(Stop::Memory),
        RunAnswer::ReadFault | RunAnswer::WriteFault => unreachable!(),
    }
}
