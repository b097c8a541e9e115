ghost use Rattle.std.specs.Prelude.{◌≡◌, IfOk};
ghost use Rattle.step_interp.specs.Steps.{Performs, Steps};

use crate::calling::invoke;
use crate::machine::{Machine, Next};
use c_types::Memory;
use step_tasks::{Done, Task, act, control, is_control, next_task};

/// A task that is neither a call nor its end.
fn perform<'a>(machine: &mut Machine<'_, 'a>, task: Task<'a>) -> Result<Next, Memory>
    ensures program { machine.new.program ≡ machine.old.program }
    ensures ok { IfOk result (λ next. Performs task.entry machine.old next machine.new) }
{
    if is_control(&task) {
        control(&mut machine.call, &machine.store, task)?;
        return Ok(Next::Goes);
    }
    let call = &mut machine.call;
    match act(&mut call.tasks, &mut call.values, &mut machine.store, task)? {
        Done::Goes => Ok(Next::Goes),
        Done::Traps(trap) => Ok(Next::Traps(trap)),
    }
}

/// One step: the next task of the newest call.
pub fn step(machine: &mut Machine<'_, '_>) -> Result<Next, Memory>
    ensures program { machine.new.program ≡ machine.old.program }
    ensures ok { IfOk result (λ next. Steps machine.old next machine.new) }
{
    match next_task(&mut machine.call.tasks)? {
        None => machine.fall(),
        Some(Task::Call(name, count)) => invoke(machine, name, count),
        Some(Task::End(true)) => machine.end(),
        Some(Task::End(false)) => machine.fall(),
        Some(task) => perform(machine, task),
    }
}
