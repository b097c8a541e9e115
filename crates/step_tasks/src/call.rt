ghost use Rattle.std.specs.Prelude.{◌≡◌, [], IfOk};
ghost use Rattle.jump_meaning.specs.Tasks.{items};
ghost use Rattle.step_tasks.specs.Controls.{body_of};
ghost use Rattle.step_tasks.specs.Tasks.{tasks_of};

use crate::labels::Labels;
use crate::work::{Tasks, Values, Work};
use c_tree::Function;
use c_types::{List, Memory};
use std::alloc::Global;

/// A call: its function, where the labels of that stand, the labels whose guards are set, what it has still to do, and the values
/// pending.
#[derive(Drop)]
pub struct Call<'t, 'a> {
    pub function: &'a Function,
    pub labels: &'t Labels<'a>,
    pub guards: List<u32>,
    pub tasks: Tasks<'a>,
    pub values: Values<'a>,
}

/// The tasks of a function at its start.
fn first_tasks<'a>(alloc: Global, function: &'a Function) -> Result<Tasks<'a>, Memory>
    ensures { IfOk result (λ it. tasks_of it ≡ items (body_of function.now) []) }
{
    let mut tasks = Tasks::new(alloc);
    if let Some(body) = &function.body {
        tasks.push(Work::Items(body.as_slice()))?;
    }
    Ok(tasks)
}

impl<'t, 'a> Call<'t, 'a> {
    /// A call at its start: its items are to come, no guard is set, and no value is pending.
    pub fn new(
        alloc: Global,
        function: &'a Function,
        labels: &'t Labels<'a>,
    ) -> Result<Call<'t, 'a>, Memory>
        ensures function { IfOk result (λ it. it.function.now ≡ function.now) }
        ensures labels { IfOk result (λ it. it.labels.now ≡ labels.now) }
        ensures guards { IfOk result (λ it. it.guards ≡ []) }
        ensures tasks { IfOk result (λ it. tasks_of it.tasks ≡ items (body_of function.now) []) }
        ensures values { IfOk result (λ it. it.values ≡ []) }
    {
        let tasks = first_tasks(alloc, function)?;
        Ok(Call {
            function,
            labels,
            guards: List::new(alloc),
            tasks,
            values: Values::new(alloc),
        })
    }
}
