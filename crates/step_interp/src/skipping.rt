ghost use Rattle.std.specs.Prelude.{◌≡◌, ◌≤◌, IfOk};
ghost use Rattle.step_interp.specs.Skipped.{Skips};

use crate::machine::Machine;
use c_types::Memory;
use step_ahead::advance;

/// Makes several steps at once, at most so many, and answers how many. They show nothing. Want of memory is
/// the only failure, and the machine is of no use then.
pub fn skip(machine: &mut Machine<'_, '_>, most: u64) -> Result<u64, Memory>
    ensures program { machine.new.program ≡ machine.old.program }
    ensures most { IfOk result (λ n. n ≤ most) }
    ensures ok { IfOk result (λ n. Skips n machine.old machine.new) }
{
    let call = &mut machine.call;
    advance(&mut call.tasks, &mut call.values, &mut machine.store, most)
}
