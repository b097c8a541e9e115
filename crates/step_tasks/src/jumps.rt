ghost use Rattle.std.specs.Prelude.{◌≡◌, [], OnOk};
ghost use Rattle.c_tree.specs.declared.tree.Function.{Function};
ghost use Rattle.c_tree.specs.TestTrees.{selector_tree};
ghost use Rattle.c_tree.specs.Trees.{tree_of};
ghost use Rattle.jump_meaning.specs.Search.{find};
ghost use Rattle.jump_meaning.specs.Step.{switch_kind as the_switch_kind};
ghost use Rattle.jump_meaning.specs.Tasks.{cut as the_cut, cut_to as the_cut_to};
ghost use Rattle.step_tasks.specs.Controls.{body_of, is_loop as the_loop, is_out as the_out, ends_break as the_break, ends_continue as the_continue, MovesAlways};
ghost use Rattle.step_tasks.specs.Labels.{AreLabelsOf};
ghost use Rattle.step_tasks.specs.Tasks.{enter_of, tasks_of};

use crate::call::Call;
use crate::labels::Labels;
use crate::operate::operand_kind;
use crate::pending::take_number;
use crate::search::{Goal, seek_sections};
use crate::table::{restore, start};
use crate::work::{Stage, Task, Tasks, Work};
use c_tree::{Item, Selector};
use c_types::{IntKind, Memory, promote};

/// Whether the task stands behind the body of a loop.
fn is_loop(task: &Task<'_>) -> bool
    ensures { result ≡ the_loop task.now }
{
    match task {
        Task::Of(Stage::Loop, _) => true,
        _ => false,
    }
}

fn is_out(task: &Task<'_>) -> bool
    ensures { result ≡ the_out task.now }
{
    match task {
        Task::Out => true,
        _ => false,
    }
}

/// Whether `break` comes to the end of this work, and no further.
fn ends_break(work: &Work<'_>) -> bool
    ensures { result ≡ the_break work.now }
{
    match work {
        Work::One(task) => is_loop(task) || is_out(task),
        Work::Tail(_) => true,
        _ => false,
    }
}

/// Whether `continue` comes to this work.
fn ends_continue(work: &Work<'_>) -> bool
    ensures { result ≡ the_continue work.now }
{
    match work {
        Work::One(task) => is_loop(task),
        _ => false,
    }
}

/// `break`: the tasks behind the nearest loop or switch.
pub fn cut(tasks: &mut Tasks<'_>)
    ensures { tasks_of tasks.new ≡ the_cut (tasks_of tasks.old) }
{
    while let Some(work) = tasks.pop() {
        if ends_break(&work) {
            return;
        }
    }
}

/// `continue`: the tasks from the end of the nearest loop's body on.
pub fn cut_to(tasks: &mut Tasks<'_>)
    ensures { tasks_of tasks.new ≡ the_cut_to (tasks_of tasks.old) }
{
    while let Some(work) = tasks.top() {
        if ends_continue(work) {
            return;
        }
        tasks.pop();
    }
}

fn clear(tasks: &mut Tasks<'_>)
    ensures { tasks.new ≡ [] }
{
    while let Some(_) = tasks.pop() {}
}

/// `goto`: the tasks from the label on, where these are the labels of the function.
pub fn jump<'a>(tasks: &mut Tasks<'a>, labels: &Labels<'a>, label: u32) -> Result<(), Memory>
    ensures ok { OnOk result ((f : Function) → AreLabelsOf f labels.now → tasks_of tasks.new ≡ find label (body_of f)) }
{
    clear(tasks);
    restore(tasks, labels, start(labels, label))
}

/// The kind in which the cases of a switch are compared.
fn switch_kind(selector: &Selector) -> IntKind
    ensures { result ≡ the_switch_kind (selector_tree selector.now) }
{
    match selector {
        Selector::Source(e) => promote(operand_kind(e.kind)),
        Selector::Pick(_, _, rest) => switch_kind(rest.get()),
    }
}

/// Takes the value of a selector, and goes to the section that it selects.
pub fn enter<'a>(call: &mut Call<'_, 'a>, item: &'a Item) -> Result<(), Memory>
    ensures function { call.new.function ≡ call.old.function }
    ensures labels { call.new.labels ≡ call.old.labels }
    ensures ok { OnOk result (MovesAlways (enter_of (tree_of item.now)) call.old call.new) }
{
    let number = take_number(&mut call.values);
    let Item::Switch(selector, sections) = item else {
        return Err(Memory);
    };
    let kind = switch_kind(selector);
    let sections = sections.as_slice();
    if seek_sections(&mut call.tasks, &Goal::Case(kind, number), sections)? {
        return Ok(());
    }
    seek_sections(&mut call.tasks, &Goal::Default, sections)?;
    Ok(())
}
