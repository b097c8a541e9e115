ghost use Rattle.std.specs.Prelude.{◌≡◌, ◌∷◌, cond, option_map, OnOk};
ghost use Rattle.c_tree.specs.ExpressionTrees.{expression_tree};
ghost use Rattle.c_tree.specs.Trees.{Local, Leap, Arm as TheArm, tree_of, trees_of, expression_trees};
ghost use Rattle.jump_meaning.specs.Tasks.{Runs, items};
ghost use Rattle.jump_meaning.specs.Step.{dropped};
ghost use Rattle.step_tasks.specs.Controls.{GoesTo, Moves, MovesAlways, Turned, returns};
ghost use Rattle.step_tasks.specs.Tasks.{branch_of, turn_of, loop_of, head_of, tasks_of};

use crate::added::{add, add_items, add_two};
use crate::call::Call;
use crate::guards::{is_set, reset_guard, set_guard};
use crate::jumps::{cut, cut_to, jump};
use crate::pending::take_truth;
use crate::stored::initialise;
use crate::work::{Stage, Task, Tasks, Use};
use c_tree::{Expression, Item};
use c_types::{Boxed, List, Memory};
use step_memory::Store;

/// `return`, with its value, if it has one.
fn add_return<'a>(tasks: &mut Tasks<'a>, value: &'a Option<Expression>) -> Result<(), Memory>
    ensures ok { OnOk result (tasks_of tasks.new ≡ returns (option_map expression_tree value.now) (tasks_of tasks.old)) }
{
    match value {
        Some(e) => add_two(tasks, Task::With(Use::Compute, e), Task::End(true)),
        None => add(tasks, Task::End(false)),
    }
}

/// An item that is replaced by other tasks, whatever the guards are.
fn expand<'a>(tasks: &mut Tasks<'a>, item: &'a Item) -> Result<(), Memory>
    ensures ok { OnOk result (GoesTo (Runs (tree_of item.now)) tasks.old tasks.new) }
{
    match item {
        Item::Evaluate(e) => add_two(tasks, Task::With(Use::Compute, e), Task::DropValue),
        Item::Return(value) => add_return(tasks, value),
        Item::If(t, _, _) => add_two(tasks, Task::Ask(t), Task::Of(Stage::Branch, item)),
        Item::While(t, _) => add_two(tasks, Task::Ask(t), Task::Of(Stage::Turn, item)),
        Item::Do(a, _) => {
            add(tasks, Task::Of(Stage::Loop, item))?;
            add_items(tasks, a.as_slice())
        }
        Item::For(first, _, _, _) => {
            add(tasks, Task::Of(Stage::Head, item))?;
            add_items(tasks, first.as_slice())
        }
        Item::Switch(s, _) => { add_two(tasks, Task::AskSelector(s), Task::Of(Stage::Enter, item)) }
        Item::Block(a) => add_items(tasks, a.as_slice()),
        Item::Break => {
            cut(tasks);
            Ok(())
        }
        Item::Continue => {
            cut_to(tasks);
            Ok(())
        }
        Item::Mark(_) => Ok(()),
        Item::Arrival(_) => Ok(()),
        Item::Note(_) => Ok(()),
        _ => Err(Memory),
    }
}

/// A declaration, with its initialisers, if it has any.
fn declare<'a>(
    call: &mut Call<'_, 'a>,
    store: &Store<'a>,
    slot: u32,
    initialisers: &'a Option<List<Expression>>,
) -> Result<(), Memory>
    ensures function { call.new.function ≡ call.old.function }
    ensures labels { call.new.labels ≡ call.old.labels }
    ensures ok { OnOk result (Moves (Runs (Local slot (option_map expression_trees initialisers.now))) store.now call.old call.new) }
{
    match initialisers {
        Some(es) => {
            let (tasks, values) = (&mut call.tasks, &mut call.values);
            initialise(tasks, values, store, slot, 0, es.as_slice())
        }
        None => Ok(()),
    }
}

/// The guard of a label is set, or is to be set to whether an expression isn't 0.
fn arms<'a>(
    call: &mut Call<'_, 'a>,
    label: u32,
    value: &'a Option<Expression>,
) -> Result<(), Memory>
    ensures function { call.new.function ≡ call.old.function }
    ensures labels { call.new.labels ≡ call.old.labels }
    ensures ok { OnOk result (MovesAlways (Runs (TheArm label (option_map expression_tree value.now))) call.old call.new) }
{
    match value {
        Some(e) => add_two(
            &mut call.tasks,
            Task::With(Use::Compute, e),
            Task::Arm(label),
        ),
        None => set_guard(&mut call.guards, label),
    }
}

/// A jump to the label if its guard is set.
fn leap(call: &mut Call<'_, '_>, label: u32) -> Result<(), Memory>
    ensures function { call.new.function ≡ call.old.function }
    ensures labels { call.new.labels ≡ call.old.labels }
    ensures ok { OnOk result (MovesAlways (Runs (Leap label)) call.old call.new) }
{
    if is_set(&call.guards, label) {
        return jump(&mut call.tasks, call.labels, label);
    }
    Ok(())
}

/// An item. Control in it goes to its parts.
pub fn run_item<'a>(
    call: &mut Call<'_, 'a>,
    store: &Store<'a>,
    item: &'a Item,
) -> Result<(), Memory>
    ensures function { call.new.function ≡ call.old.function }
    ensures labels { call.new.labels ≡ call.old.labels }
    ensures ok { OnOk result (Moves (Runs (tree_of item.now)) store.now call.old call.new) }
{
    match item {
        Item::Local(slot, initialisers) => declare(call, store, *slot, initialisers),
        Item::Goto(label) => jump(&mut call.tasks, call.labels, *label),
        Item::Arm(label, value) => arms(call, *label, value),
        Item::Leap(label) => leap(call, *label),
        Item::Land(label) => {
            reset_guard(&mut call.guards, *label);
            Ok(())
        }
        _ => expand(&mut call.tasks, item),
    }
}

/// Takes whether the test of an `if` holds.
pub fn branch<'a>(call: &mut Call<'_, 'a>, item: &'a Item) -> Result<(), Memory>
    ensures function { call.new.function ≡ call.old.function }
    ensures labels { call.new.labels ≡ call.old.labels }
    ensures ok { OnOk result (MovesAlways (branch_of (tree_of item.now)) call.old call.new) }
{
    let holds = take_truth(&mut call.values);
    match item {
        Item::If(_, a, b) => {
            if holds {
                add_items(&mut call.tasks, a.as_slice())
            } else {
                add_items(&mut call.tasks, b.as_slice())
            }
        }
        _ => Err(Memory),
    }
}

/// A further turn of a loop, if its test holds.
pub fn turn<'a>(call: &mut Call<'_, 'a>, item: &'a Item) -> Result<(), Memory>
    ensures function { call.new.function ≡ call.old.function }
    ensures labels { call.new.labels ≡ call.old.labels }
    ensures ok { OnOk result (MovesAlways (turn_of (tree_of item.now)) call.old call.new) }
{
    let holds = take_truth(&mut call.values);
    add_turn(&mut call.tasks, holds, item)
}

/// A loop with its body to come, if its test holds.
fn add_turn<'a>(tasks: &mut Tasks<'a>, holds: bool, item: &'a Item) -> Result<(), Memory>
    ensures ok { OnOk result (Turned (turn_of (tree_of item.now)) holds tasks.old tasks.new) }
{
    match item {
        Item::While(_, a) => add_body(tasks, holds, item, a.as_slice()),
        Item::Do(_, _) => {
            if holds {
                return add(tasks, Task::Of(Stage::Run, item));
            }
            Ok(())
        }
        Item::For(_, _, _, a) => add_body(tasks, holds, item, a.as_slice()),
        _ => Err(Memory),
    }
}

/// The body of a loop and its end, if its test holds.
fn add_body<'a>(
    tasks: &mut Tasks<'a>,
    holds: bool,
    item: &'a Item,
    body: &'a [Item],
) -> Result<(), Memory>
    ensures ok { OnOk result (tasks_of tasks.new ≡ cond holds (items (trees_of body.now) (loop_of (tree_of item.now) ∷ tasks_of tasks.old)) (tasks_of tasks.old)) }
{
    if !holds {
        return Ok(());
    }
    add(tasks, Task::Of(Stage::Loop, item))?;
    add_items(tasks, body)
}

/// The end of a loop's body.
pub fn loop_end<'a>(tasks: &mut Tasks<'a>, item: &'a Item) -> Result<(), Memory>
    ensures ok { OnOk result (GoesTo (loop_of (tree_of item.now)) tasks.old tasks.new) }
{
    match item {
        Item::While(_, _) => add(tasks, Task::Of(Stage::Run, item)),
        Item::Do(_, t) => add_two(tasks, Task::Ask(t), Task::Of(Stage::Turn, item)),
        Item::For(_, _, step, _) => {
            add(tasks, Task::Of(Stage::Head, item))?;
            add_step(tasks, step)
        }
        _ => Err(Memory),
    }
}

/// The third part of a `for`, whose value is dropped, where there is one.
fn add_step<'a>(tasks: &mut Tasks<'a>, step: &'a Option<Boxed<Expression>>) -> Result<(), Memory>
    ensures ok { OnOk result (tasks_of tasks.new ≡ dropped (option_map expression_tree step.now) (tasks_of tasks.old)) }
{
    match step {
        Some(e) => add_two(tasks, Task::With(Use::Compute, e.get()), Task::DropValue),
        None => Ok(()),
    }
}

/// The test of a `for`.
pub fn head<'a>(tasks: &mut Tasks<'a>, item: &'a Item) -> Result<(), Memory>
    ensures ok { OnOk result (GoesTo (head_of (tree_of item.now)) tasks.old tasks.new) }
{
    match item {
        Item::For(_, test, _, a) => match test {
            Some(e) => add_two(
                tasks,
                Task::With(Use::Compute, e.get()),
                Task::Of(Stage::Turn, item),
            ),
            None => add_body(tasks, true, item, a.as_slice()),
        },
        _ => Err(Memory),
    }
}
