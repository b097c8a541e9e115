ghost use Rattle.std.specs.Prelude.{◌≡◌, ◌∷◌, List, cond, OnOk};
ghost use Rattle.c_tree.specs.Trees.{tree_of, trees_of};
ghost use Rattle.jump_meaning.specs.Tasks.{items};
ghost use Rattle.step_tasks.specs.declared.work.Work.{Work as TheWork};
ghost use Rattle.step_tasks.specs.Tasks.{computes, loop_of, tasks_of};

use c_tree::{Expression, Item};
use c_types::Memory;
use step_tasks::{Stage, Task, Tasks, Work};

/// The items of a list, before the other tasks.
pub fn add_items<'a>(tasks: &mut Tasks<'a>, list: &'a [Item]) -> Result<(), Memory>
    ensures ok { OnOk result (tasks_of tasks.new ≡ items (trees_of list.now) (tasks_of tasks.old)) }
{
    if list.is_empty() {
        return Ok(());
    }
    tasks.push(Work::Items(list))
}

/// The expressions, one after the other, before the other tasks.
pub fn add_arguments<'a>(tasks: &mut Tasks<'a>, list: &'a [Expression]) -> Result<(), Memory>
    ensures ok { OnOk result (tasks_of tasks.new ≡ computes list.now (tasks_of tasks.old)) }
{
    if list.is_empty() {
        return Ok(());
    }
    tasks.push(Work::Arguments(list))
}

/// The work on top goes.
pub fn take_off(tasks: &mut Tasks<'_>)
    ensures { (x : TheWork) (below : List TheWork) → tasks.old ≡ x ∷ below → tasks.new ≡ below }
{
    tasks.pop();
}

/// What is left of a list takes the place of the work on top.
pub fn go_on<'a>(tasks: &mut Tasks<'a>, rest: &'a [Item]) -> Result<(), Memory>
    ensures ok { OnOk result ((x : TheWork) (below : List TheWork) → tasks.old ≡ x ∷ below → tasks_of tasks.new ≡ items (trees_of rest.now) (tasks_of below)) }
{
    take_off(tasks);
    add_items(tasks, rest)
}

/// One list or the other, before the other tasks.
pub fn add_chosen<'a>(
    tasks: &mut Tasks<'a>,
    holds: bool,
    a: &'a [Item],
    b: &'a [Item],
) -> Result<(), Memory>
    ensures ok { OnOk result (tasks_of tasks.new ≡ items (cond holds (trees_of a.now) (trees_of b.now)) (tasks_of tasks.old)) }
{
    if holds {
        add_items(tasks, a)
    } else {
        add_items(tasks, b)
    }
}

/// The body of a loop and its end, if its test holds.
pub fn add_body<'a>(
    tasks: &mut Tasks<'a>,
    holds: bool,
    item: &'a Item,
    body: &'a [Item],
) -> Result<(), Memory>
    ensures ok { OnOk result (tasks_of tasks.new ≡ cond holds (items (trees_of body.now) (loop_of (tree_of item.now) ∷ tasks_of tasks.old)) (tasks_of tasks.old)) }
{
    if !holds {
        return Ok(());
    }
    tasks.push(Work::One(Task::Of(Stage::Loop, item)))?;
    add_items(tasks, body)
}
