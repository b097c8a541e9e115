ghost use Rattle.std.specs.Prelude.{◌≡◌, ℕ, List, IfOk};
ghost use Rattle.jump_meaning.specs.Calls.{arguments_taken, without_last};
ghost use Rattle.step_memory.specs.Values.{values_of};
ghost use Rattle.step_tasks.specs.Labels.{AreLabelsOf};
ghost use Rattle.step_interp.specs.Machines.{IsFunctionOf};
ghost use Rattle.step_interp.specs.Calls.{Called, CallsFunction};

use crate::functions::routine_of;
use crate::known::call_without_body;
use crate::machine::{Machine, Next};
use crate::spare::clear_values;
use c_tree::Function;
use c_types::{Memory, Name};
use std::mem;
use step_tasks::{Labels, Values};

/// Takes so many of the values pending, so that the first of them is on top. They stand in a stack whose
/// entries were of no use.
fn take_arguments<'a>(
    spare: Values<'a>,
    values: &mut Values<'a>,
    count: u32,
) -> Result<Values<'a>, Memory>
    ensures taken { IfOk result (λ it. (ns : List (List ℕ)) → values_of ns it ≡ arguments_taken count (values_of ns values.old)) }
    ensures left { IfOk result (λ _. (ns : List (List ℕ)) → values_of ns values.new ≡ without_last count (values_of ns values.old)) }
{
    let mut arguments = spare;
    clear_values(&mut arguments);
    for _at in 0..count {
        match values.pop() {
            Some(value) => arguments.push(value)?,
            None => return Ok(arguments),
        }
    }
    Ok(arguments)
}

/// A call of a function of the program, which has these labels, with these arguments, the first one on
/// top.
fn call_function<'t, 'a>(
    machine: &mut Machine<'t, 'a>,
    function: &'a Function,
    labels: &'t Labels<'a>,
    arguments: Values<'a>,
) -> Result<Next, Memory>
    ensures program { machine.new.program ≡ machine.old.program }
    ensures ok { IfOk result (λ next. IsFunctionOf machine.old.program.now function.now → AreLabelsOf function.now labels.now
        → CallsFunction function.now arguments.entry machine.old next machine.new) }
{
    if function.body.is_some() {
        return machine.enter(function, labels, arguments);
    }
    call_without_body(
        machine,
        &function.name,
        function.result.is_some(),
        arguments,
    )
}

/// A call of the function of a name, which takes so many of the values pending.
pub fn invoke<'a>(machine: &mut Machine<'_, 'a>, name: &'a Name, count: u32) -> Result<Next, Memory>
    ensures program { machine.new.program ≡ machine.old.program }
    ensures ok { IfOk result (λ next. Called name.now count machine.old next machine.new) }
{
    let spare = mem::replace(&mut machine.spare_values, Values::new(machine.alloc));
    let arguments = take_arguments(spare, &mut machine.call.values, count)?;
    match routine_of(machine.functions, name) {
        Some(routine) => call_function(machine, routine.function, &routine.labels, arguments),
        None => call_without_body(machine, name, false, arguments),
    }
}
