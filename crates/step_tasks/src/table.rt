ghost use Rattle.std.specs.Prelude.{◌≡◌, ◌<◌, [], ℕ, cond, eqb, length, List, IfOk, OnOk};
ghost use Rattle.jump_meaning.specs.Code.{entry_or};
ghost use Rattle.jump_meaning.specs.Tasks as T;
ghost use Rattle.step_tasks.specs.Labels.{IsPut, IsStack, start_of};
ghost use Rattle.step_tasks.specs.Tasks.{tasks_of};

use crate::labels::{Labels, Level};
use crate::work::{Tasks, Work};
use c_types::{List, Memory};
use std::alloc::Global;

/// A table without labels.
pub fn no_labels<'a>(alloc: Global) -> Labels<'a>
    ensures levels { result.levels ≡ [] }
    ensures starts { result.starts ≡ [] }
{
    Labels {
        levels: List::new(alloc),
        starts: List::new(alloc),
    }
}

/// The level from which the tasks of a label go on, 0 where there is no such label.
pub fn start(labels: &Labels<'_>, label: u32) -> usize
    ensures { result ≡ start_of labels.now label }
{
    match labels.starts.get(label as usize) {
        Some(start) => *start,
        None => 0,
    }
}

/// Makes room for a label.
fn make_room(starts: &mut List<usize>, label: u32) -> Result<(), Memory>
    ensures room { OnOk result (label < length starts.new) }
    ensures same { OnOk result ((l : ℕ) → entry_or 0 starts.new l ≡ entry_or 0 starts.old l) }
{
    for _ in starts.len()..label as usize + 1 {
        starts.push(0)?;
    }
    Ok(())
}

/// The tasks of a label go on from this level.
pub fn set_start(labels: &mut Labels<'_>, label: u32, level: usize) -> Result<(), Memory>
    ensures levels { labels.new.levels ≡ labels.old.levels }
    ensures starts { OnOk result ((l : ℕ) → start_of labels.new l ≡ cond (eqb l label) level (start_of labels.old l)) }
{
    make_room(&mut labels.starts, label)?;
    labels.starts.set(label as usize, level);
    Ok(())
}

/// Work before that of a level is a level more.
pub fn put<'a>(labels: &mut Labels<'a>, work: Work<'a>, below: usize) -> Result<usize, Memory>
    ensures { IfOk result (λ level. IsPut below work.entry labels.old labels.new level) }
{
    labels.levels.push(Level { work, below })?;
    Ok(labels.levels.len())
}

/// Puts the tasks from a level on, where no others are.
pub fn restore<'a>(tasks: &mut Tasks<'a>, labels: &Labels<'a>, level: usize) -> Result<(), Memory>
    ensures { OnOk result ((k : List T.Task) → IsStack labels.now.levels level k → tasks.old ≡ [] → tasks_of tasks.new ≡ k) }
{
    if level == 0 {
        return Ok(());
    }
    match labels.levels.get(level - 1) {
        Some(top) => {
            if top.below >= level {
                return Err(Memory);
            }
            restore(tasks, labels, top.below)?;
            tasks.push(top.work)
        }
        None => Err(Memory),
    }
}
