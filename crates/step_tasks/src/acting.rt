ghost use Rattle.std.specs.Prelude.{◌≡◌, IfOk, OnOk};
ghost use Rattle.c_tree.specs.ExpressionTrees.{expression_tree};
ghost use Rattle.jump_meaning.specs.Effects.{Op};
ghost use Rattle.jump_meaning.specs.Tasks.{Works};
ghost use Rattle.step_tasks.specs.Controls.{is_control as the_control, Moves};
ghost use Rattle.step_tasks.specs.Effects.{ChangesOr, IsDone, IsDoneOr, IsDoneOrAlways, op_with};
ghost use Rattle.step_tasks.specs.Tasks.{task_of};

use crate::call::Call;
use crate::expressions::{compute, find};
use crate::items::{branch, head, loop_end, run_item, turn};
use crate::jumps::{cut, enter};
use crate::operate::{
    Done, and_then, apply_binary, apply_unary, convert_top, decide, fetch, index, judge, load,
    or_else,
};
use crate::pending::{leave_nothing, take};
use crate::stored::{assign, count, set};
use crate::tests_asked::{arm, ask, ask_selector};
use crate::work::{Stage, Task, Tasks, Use, Values};
use c_tree::Expression;
use c_types::Memory;
use step_memory::Store;

/// Whether the task is one of an item, a test or a selector.
pub fn is_control(task: &Task<'_>) -> bool
    ensures { result ≡ the_control task.now }
{
    match task {
        Task::Of(_, _) => true,
        Task::Ask(_) => true,
        Task::Arm(_) => true,
        Task::AskSelector(_) => true,
        Task::EndSection => true,
        Task::Out => true,
        _ => false,
    }
}

/// A task of an item, a test or a selector. Any other is refused.
pub fn control<'a>(call: &mut Call<'_, 'a>, store: &Store<'a>, task: Task<'a>) -> Result<(), Memory>
    ensures function { call.new.function ≡ call.old.function }
    ensures labels { call.new.labels ≡ call.old.labels }
    ensures ok { OnOk result (Moves (task_of task.entry) store.now call.old call.new) }
{
    match task {
        Task::Of(stage, item) => match stage {
            Stage::Run => run_item(call, store, item),
            Stage::Branch => branch(call, item),
            Stage::Turn => turn(call, item),
            Stage::Loop => loop_end(&mut call.tasks, item),
            Stage::Head => head(&mut call.tasks, item),
            Stage::Enter => enter(call, item),
        },
        Task::Ask(test) => ask(call, test),
        Task::Arm(label) => arm(call, label),
        Task::AskSelector(selector) => ask_selector(call, selector),
        Task::EndSection => {
            cut(&mut call.tasks);
            Ok(())
        }
        Task::Out => Ok(()),
        _ => Err(Memory),
    }
}

/// What is to be done with an expression.
fn act_with<'a>(
    tasks: &mut Tasks<'a>,
    values: &mut Values<'a>,
    store: &Store<'a>,
    role: Use,
    e: &'a Expression,
) -> Result<(), Memory>
    ensures ok { OnOk result (IsDone (op_with role (expression_tree e.now)) store.now tasks.old tasks.new values.old values.new) }
{
    match role {
        Use::Compute => compute(tasks, values, store, e),
        Use::And => and_then(tasks, values, e),
        Use::Or => or_else(tasks, values, e),
        Use::Decide => decide(tasks, values, e),
    }
}

/// A task of an expression that takes values and leaves one, and looks at nothing else. Any other is
/// refused.
fn act_on_values<'a>(values: &mut Values<'a>, task: Task<'a>) -> Result<Done, Memory>
    ensures ok { IfOk result (λ done. (o : Op) → task_of task.entry ≡ Works o → IsDoneOrAlways o done values.old values.new) }
{
    match task {
        Task::DropValue => {
            take(values);
            Ok(Done::Goes)
        }
        Task::Unary(op, kind) => apply_unary(values, op, kind),
        Task::Binary(op, j, k) => apply_binary(values, op, j, k),
        Task::Convert(kind) => {
            convert_top(values, kind)?;
            Ok(Done::Goes)
        }
        Task::LeaveNothing => {
            leave_nothing(values)?;
            Ok(Done::Goes)
        }
        Task::Judge => {
            judge(values)?;
            Ok(Done::Goes)
        }
        _ => Err(Memory),
    }
}

/// A task of an expression that changes no variable, other than a call or its end. Any other is
/// refused.
fn act_reading<'a>(
    tasks: &mut Tasks<'a>,
    values: &mut Values<'a>,
    store: &Store<'a>,
    task: Task<'a>,
) -> Result<Done, Memory>
    ensures ok { IfOk result (λ done. (o : Op) → task_of task.entry ≡ Works o → IsDoneOr o done store.now tasks.old tasks.new values.old values.new) }
{
    match task {
        Task::With(role, e) => {
            act_with(tasks, values, store, role, e)?;
            Ok(Done::Goes)
        }
        Task::Find(place) => {
            find(tasks, values, store, place)?;
            Ok(Done::Goes)
        }
        Task::Index(home) => index(values, store, home),
        Task::Load => {
            load(values, store)?;
            Ok(Done::Goes)
        }
        Task::Fetch => {
            fetch(values, store)?;
            Ok(Done::Goes)
        }
        _ => act_on_values(values, task),
    }
}

/// A task of an expression, other than a call or its end. Any other is refused.
pub fn act<'a>(
    tasks: &mut Tasks<'a>,
    values: &mut Values<'a>,
    store: &mut Store<'a>,
    task: Task<'a>,
) -> Result<Done, Memory>
    ensures names { store.new.names ≡ store.old.names }
    ensures ok { IfOk result (λ done. (o : Op) → task_of task.entry ≡ Works o → ChangesOr o done store.old store.new tasks.old tasks.new values.old values.new) }
{
    match task {
        Task::Store => {
            assign(values, store)?;
            Ok(Done::Goes)
        }
        Task::Count(up, after) => count(values, store, up, after),
        Task::Set(x, at, later) => {
            set(tasks, values, store, x, at, later)?;
            Ok(Done::Goes)
        }
        Task::Clear(x, from) => {
            store.clear(x, from)?;
            Ok(Done::Goes)
        }
        _ => act_reading(tasks, values, store, task),
    }
}
