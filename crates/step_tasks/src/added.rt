ghost use Rattle.std.specs.Prelude.{◌≡◌, ◌∷◌, OnOk};
ghost use Rattle.c_tree.specs.Trees.{trees_of};
ghost use Rattle.jump_meaning.specs.Tasks.{items};
ghost use Rattle.step_tasks.specs.Tasks.{computes, task_of, tasks_of};

use crate::work::{Task, Tasks, Work};
use c_tree::{Expression, Item};
use c_types::Memory;

/// One more task, before the others.
pub fn add<'a>(tasks: &mut Tasks<'a>, task: Task<'a>) -> Result<(), Memory>
    ensures ok { OnOk result (tasks_of tasks.new ≡ task_of task.entry ∷ tasks_of tasks.old) }
{
    tasks.push(Work::One(task))
}

/// Two more tasks, the first before the second.
pub fn add_two<'a>(tasks: &mut Tasks<'a>, first: Task<'a>, second: Task<'a>) -> Result<(), Memory>
    ensures ok { OnOk result (tasks_of tasks.new ≡ task_of first.entry ∷ task_of second.entry ∷ tasks_of tasks.old) }
{
    add(tasks, second)?;
    add(tasks, first)
}

/// Three more tasks, in this order.
pub fn add_three<'a>(
    tasks: &mut Tasks<'a>,
    first: Task<'a>,
    second: Task<'a>,
    third: Task<'a>,
) -> Result<(), Memory>
    ensures ok { OnOk result (tasks_of tasks.new
        ≡ task_of first.entry ∷ task_of second.entry ∷ task_of third.entry ∷ tasks_of tasks.old) }
{
    add_two(tasks, second, third)?;
    add(tasks, first)
}

/// The items of a list, before the other tasks.
pub fn add_items<'a>(tasks: &mut Tasks<'a>, list: &'a [Item]) -> Result<(), Memory>
    ensures ok { OnOk result (tasks_of tasks.new ≡ items (trees_of list.now) (tasks_of tasks.old)) }
{
    if list.is_empty() {
        return Ok(());
    }
    tasks.push(Work::Items(list))
}

/// The expressions, one after the other, before the other tasks.
pub fn add_arguments<'a>(tasks: &mut Tasks<'a>, list: &'a [Expression]) -> Result<(), Memory>
    ensures ok { OnOk result (tasks_of tasks.new ≡ computes list.now (tasks_of tasks.old)) }
{
    if list.is_empty() {
        return Ok(());
    }
    tasks.push(Work::Arguments(list))
}
