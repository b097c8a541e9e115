ghost use Rattle.std.specs.Prelude.{◌≡◌, ◌≤◌, ◌∷◌, Option, Some, IfOk};
ghost use Rattle.c_tree.specs.ExpressionTrees.{ExpressionTree, expression_tree};
ghost use Rattle.c_tree.specs.TestTrees.{Source};
ghost use Rattle.c_tree.specs.Trees.{Forest, While, For, tree_of, trees_of};
ghost use Rattle.jump_meaning.specs.Tasks.{Runs, Heads, items};
ghost use Rattle.step_tasks.specs.Tasks.{loop_of, head_of, tasks_of};
ghost use Rattle.step_ahead.specs.Ahead.{Reaches, WhereTop};

use crate::asking::ask;
use crate::pushing::{add_body, go_on, take_off};
use crate::storing::evaluated;
use c_tree::{Expression, Item, Test};
use c_types::Memory;
use step_memory::Store;
use step_tasks::{Stage, Task, Tasks, Work};

/// A `while`, with which a list begins.
pub fn enter_while<'a>(
    tasks: &mut Tasks<'a>,
    store: &Store<'a>,
    item: &'a Item,
    e: &'a Expression,
    a: &'a [Item],
    rest: &'a [Item],
    most: u64,
) -> Result<u64, Memory>
    ensures most { IfOk result (λ n. n ≤ most) }
    ensures ok { IfOk result (λ n. tree_of item.now ≡ While (Source (expression_tree e.now)) (trees_of a.now)
        → WhereTop (λ k. Runs (tree_of item.now) ∷ items (trees_of rest.now) k) tasks.old
        (Reaches store.now store.now n (tasks_of tasks.old) (tasks_of tasks.new))) }
{
    let Some(asked) = ask(store, e, 3, most) else {
        return Ok(0);
    };
    go_on(tasks, rest)?;
    add_body(tasks, asked.holds, item, a)?;
    Ok(asked.steps)
}

/// The end of the body of a `while`.
fn again<'a>(
    tasks: &mut Tasks<'a>,
    store: &Store<'a>,
    item: &'a Item,
    e: &'a Expression,
    a: &'a [Item],
    most: u64,
) -> Result<u64, Memory>
    ensures most { IfOk result (λ n. n ≤ most) }
    ensures ok { IfOk result (λ n. tree_of item.now ≡ While (Source (expression_tree e.now)) (trees_of a.now)
        → WhereTop (λ k. loop_of (tree_of item.now) ∷ k) tasks.old
        (Reaches store.now store.now n (tasks_of tasks.old) (tasks_of tasks.new))) }
{
    let Some(asked) = ask(store, e, 4, most) else {
        return Ok(0);
    };
    take_off(tasks);
    add_body(tasks, asked.holds, item, a)?;
    Ok(asked.steps)
}

/// The third part of a `for`.
fn for_step<'a>(
    tasks: &mut Tasks<'a>,
    store: &mut Store<'a>,
    item: &'a Item,
    e: &'a Expression,
    most: u64,
) -> Result<u64, Memory>
    ensures names { store.new.names ≡ store.old.names }
    ensures most { IfOk result (λ n. n ≤ most) }
    ensures ok { IfOk result (λ n. (f a : Forest) (t : Option ExpressionTree) → tree_of item.now ≡ For f t (Some (expression_tree e.now)) a
        → WhereTop (λ k. loop_of (tree_of item.now) ∷ k) tasks.old
        (Reaches store.old store.new n (tasks_of tasks.old) (tasks_of tasks.new))) }
{
    if most == 0 {
        return Ok(0);
    }
    match evaluated(store, e, most - 1) {
        Some(steps) => {
            take_off(tasks);
            tasks.push(Work::One(Task::Of(Stage::Head, item)))?;
            Ok(steps + 1)
        }
        None => Ok(0),
    }
}

/// The steps at the end of the body of a loop, or none.
pub fn loop_end<'a>(
    tasks: &mut Tasks<'a>,
    store: &mut Store<'a>,
    item: &'a Item,
    most: u64,
) -> Result<u64, Memory>
    ensures names { store.new.names ≡ store.old.names }
    ensures most { IfOk result (λ n. n ≤ most) }
    ensures ok { IfOk result (λ n. WhereTop (λ k. loop_of (tree_of item.now) ∷ k) tasks.old
        (Reaches store.old store.new n (tasks_of tasks.old) (tasks_of tasks.new))) }
{
    match item {
        Item::While(test, a) => match test {
            Test::Source(e) => again(tasks, store, item, e, a.as_slice(), most),
            _ => Ok(0),
        },
        Item::For(_, _, step, _) => match step {
            Some(e) => for_step(tasks, store, item, e.get(), most),
            None => Ok(0),
        },
        _ => Ok(0),
    }
}

/// The test of a `for`.
fn turn<'a>(
    tasks: &mut Tasks<'a>,
    store: &Store<'a>,
    item: &'a Item,
    e: &'a Expression,
    a: &'a [Item],
    most: u64,
) -> Result<u64, Memory>
    ensures most { IfOk result (λ n. n ≤ most) }
    ensures ok { IfOk result (λ n. (f : Forest) (u : Option ExpressionTree) → tree_of item.now ≡ For f (Some (expression_tree e.now)) u (trees_of a.now)
        → WhereTop (λ k. head_of (tree_of item.now) ∷ k) tasks.old
        (Reaches store.now store.now n (tasks_of tasks.old) (tasks_of tasks.new))) }
{
    let Some(asked) = ask(store, e, 2, most) else {
        return Ok(0);
    };
    take_off(tasks);
    add_body(tasks, asked.holds, item, a)?;
    Ok(asked.steps)
}

/// The steps of the test of a `for`, or none.
pub fn head<'a>(
    tasks: &mut Tasks<'a>,
    store: &Store<'a>,
    item: &'a Item,
    most: u64,
) -> Result<u64, Memory>
    ensures most { IfOk result (λ n. n ≤ most) }
    ensures ok { IfOk result (λ n. WhereTop (λ k. head_of (tree_of item.now) ∷ k) tasks.old
        (Reaches store.now store.now n (tasks_of tasks.old) (tasks_of tasks.new))) }
{
    match item {
        Item::For(_, test, _, a) => match test {
            Some(e) => turn(tasks, store, item, e.get(), a.as_slice(), most),
            None => Ok(0),
        },
        _ => Ok(0),
    }
}
