ghost use Rattle.std.specs.Prelude.{◌≡◌, [], IfOk, OnOk};
ghost use Rattle.jump_meaning.specs.Tasks.{items};
ghost use Rattle.step_tasks.specs.Controls.{body_of};
ghost use Rattle.step_tasks.specs.Tasks.{tasks_of};

use c_tree::Function;
use c_types::{List, Memory};
use std::alloc::Global;
use step_tasks::{Call, Labels, Tasks, Values, Work};

fn clear_tasks(tasks: &mut Tasks<'_>)
    ensures { tasks.new ≡ [] }
{
    while let Some(_) = tasks.pop() {}
}

/// Takes all values off.
pub fn clear_values(values: &mut Values<'_>)
    ensures { values.new ≡ [] }
{
    while let Some(_) = values.pop() {}
}

/// Puts the tasks of a function at its start in place of those of no use.
fn begin_tasks<'a>(tasks: &mut Tasks<'a>, function: &'a Function) -> Result<(), Memory>
    ensures { OnOk result (tasks_of tasks.new ≡ items (body_of function.now) []) }
{
    clear_tasks(tasks);
    if let Some(body) = &function.body {
        tasks.push(Work::Items(body.as_slice()))?;
    }
    Ok(())
}

/// A call at its start, with the memory of these stacks: its items are to come, no guard is set, and no
/// value is pending.
pub fn begun<'t, 'a>(
    alloc: Global,
    function: &'a Function,
    labels: &'t Labels<'a>,
    tasks: Tasks<'a>,
    values: Values<'a>,
) -> Result<Call<'t, 'a>, Memory>
    ensures function { IfOk result (λ it. it.function.now ≡ function.now) }
    ensures labels { IfOk result (λ it. it.labels.now ≡ labels.now) }
    ensures guards { IfOk result (λ it. it.guards ≡ []) }
    ensures tasks { IfOk result (λ it. tasks_of it.tasks ≡ items (body_of function.now) []) }
    ensures values { IfOk result (λ it. it.values ≡ []) }
{
    let mut tasks = tasks;
    let mut values = values;
    begin_tasks(&mut tasks, function)?;
    clear_values(&mut values);
    Ok(Call {
        function,
        labels,
        guards: List::new(alloc),
        tasks,
        values,
    })
}
