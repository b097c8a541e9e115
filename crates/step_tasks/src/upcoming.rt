ghost use Rattle.std.specs.Prelude.{◌≡◌, ◌≤◌, ◌+◌, IfOk, OnOk};
ghost use Rattle.jump_meaning.specs.Step.{is_dropped};
ghost use Rattle.jump_meaning.specs.Tasks.{end_of};
ghost use Rattle.step_tasks.specs.Controls.{IsNext, IsOpened, weights, is_nothing as the_nothing, drops as the_drops};
ghost use Rattle.step_tasks.specs.declared.work.Work.TheVariants.{One};
ghost use Rattle.step_tasks.specs.Tasks.{tasks_of};

use crate::added::{add_arguments, add_items};
use crate::work::{Stage, Task, Tasks, Use, Work};
use c_tree::Section;
use c_types::Memory;

/// The `break` that ends a section, if one does.
fn add_end(tasks: &mut Tasks<'_>, ends: bool) -> Result<(), Memory>
    ensures tasks { OnOk result (tasks_of tasks.new ≡ end_of ends (tasks_of tasks.old)) }
    ensures weight { OnOk result (weights tasks.new ≤ 1 + weights tasks.old) }
{
    if ends {
        return tasks.push(Work::One(Task::EndSection));
    }
    Ok(())
}

/// The items of a section, then its end, then the later sections.
fn add_section<'a>(
    tasks: &mut Tasks<'a>,
    section: &'a Section,
    later: &'a [Section],
) -> Result<(), Memory>
    ensures ok { OnOk result (IsOpened section.now later.now tasks.old tasks.new) }
{
    tasks.push(Work::Tail(later))?;
    add_end(tasks, section.ends)?;
    tasks.push(Work::Items(section.list.as_slice()))
}

/// Takes the next task, if there is one.
pub fn next_task<'a>(tasks: &mut Tasks<'a>) -> Result<Option<Task<'a>>, Memory>
    ensures { IfOk result (λ task. IsNext task tasks.old tasks.new) }
{
    while let Some(work) = tasks.pop() {
        match work {
            Work::One(task) => return Ok(Some(task)),
            Work::Items([]) => (),
            Work::Items([item, rest @ ..]) => {
                add_items(tasks, rest)?;
                return Ok(Some(Task::Of(Stage::Run, item)));
            }
            Work::Arguments([]) => (),
            Work::Arguments([e, rest @ ..]) => {
                add_arguments(tasks, rest)?;
                return Ok(Some(Task::With(Use::Compute, e)));
            }
            Work::Tail([]) => return Ok(Some(Task::Out)),
            Work::Tail([section, rest @ ..]) => add_section(tasks, section, rest)?,
        }
    }
    Ok(None)
}

/// Whether no task is in the work.
fn is_nothing(work: &Work<'_>) -> bool
    ensures { result ≡ the_nothing work.now }
{
    match work {
        Work::Items([]) => true,
        Work::Arguments([]) => true,
        _ => false,
    }
}

fn is_drop(task: &Task<'_>) -> bool
    ensures { result ≡ the_drops (One task.now) }
{
    match task {
        Task::DropValue => true,
        _ => false,
    }
}

fn drops(work: &Work<'_>) -> bool
    ensures { result ≡ the_drops work.now }
{
    match work {
        Work::One(task) => is_drop(task),
        _ => false,
    }
}

/// Whether the next task drops a value.
pub fn drops_next(tasks: &mut Tasks<'_>) -> bool
    ensures drops { result ≡ is_dropped (tasks_of tasks.old) }
    ensures tasks { tasks_of tasks.new ≡ tasks_of tasks.old }
{
    while let Some(work) = tasks.top() {
        if !is_nothing(work) {
            return drops(work);
        }
        tasks.pop();
    }
    false
}
