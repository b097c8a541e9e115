ghost use Rattle.std.specs.Prelude.{◌≡◌, ◌≤◌, ◌∷◌, Some, IfOk};
ghost use Rattle.c_tree.specs.declared.tree.Item as I;
ghost use Rattle.c_tree.specs.declared.tree.Test.TheVariants as T;
ghost use Rattle.c_tree.specs.ExpressionTrees.{expression_tree};
ghost use Rattle.c_tree.specs.TestTrees.{Source};
ghost use Rattle.c_tree.specs.Trees.{Evaluate, If, Return, tree_of, trees_of};
ghost use Rattle.jump_meaning.specs.Tasks.{Runs, items};
ghost use Rattle.step_tasks.specs.Tasks.{tasks_of};
ghost use Rattle.step_ahead.specs.Ahead.{GoesOn, Reaches, WhereTop};

use crate::asking::ask;
use crate::beginning::begin_in;
use crate::loops::enter_while;
use crate::pushing::{add_chosen, go_on};
use crate::storing::evaluated;
use c_tree::{Expression, Item, Test};
use c_types::Memory;
use step_memory::Store;
use step_tasks::{Task, Tasks, Values};

/// An expression statement that calls or changes something in its parts.
fn begin_statement<'a>(
    tasks: &mut Tasks<'a>,
    values: &mut Values<'a>,
    store: &Store<'a>,
    e: &'a Expression,
    rest: &'a [Item],
    most: u64,
) -> Result<u64, Memory>
    ensures most { IfOk result (λ n. n ≤ most) }
    ensures ok { IfOk result (λ n. WhereTop (λ k. Runs (Evaluate (expression_tree e.now)) ∷ items (trees_of rest.now) k) tasks.old
        (GoesOn store.now store.now n tasks.old tasks.new values.old values.new)) }
{
    if most < 2 {
        return Ok(0);
    }
    let steps = begin_in(tasks, values, store, e, Task::DropValue, rest, most - 1)?;
    Ok(steps + 1)
}

/// `return` with a value.
fn begin_return<'a>(
    tasks: &mut Tasks<'a>,
    values: &mut Values<'a>,
    store: &Store<'a>,
    e: &'a Expression,
    rest: &'a [Item],
    most: u64,
) -> Result<u64, Memory>
    ensures most { IfOk result (λ n. n ≤ most) }
    ensures ok { IfOk result (λ n. WhereTop (λ k. Runs (Return (Some (expression_tree e.now))) ∷ items (trees_of rest.now) k) tasks.old
        (GoesOn store.now store.now n tasks.old tasks.new values.old values.new)) }
{
    if most < 2 {
        return Ok(0);
    }
    let steps = begin_in(tasks, values, store, e, Task::End(true), rest, most - 1)?;
    Ok(steps + 1)
}

/// An expression statement.
fn evaluate<'a>(
    tasks: &mut Tasks<'a>,
    values: &mut Values<'a>,
    store: &mut Store<'a>,
    e: &'a Expression,
    rest: &'a [Item],
    most: u64,
) -> Result<u64, Memory>
    requires { 1 ≤ most }
    ensures names { store.new.names ≡ store.old.names }
    ensures most { IfOk result (λ n. n ≤ most) }
    ensures ok { IfOk result (λ n. WhereTop (λ k. Runs (Evaluate (expression_tree e.now)) ∷ items (trees_of rest.now) k) tasks.old
        (GoesOn store.old store.new n tasks.old tasks.new values.old values.new)) }
{
    match evaluated(store, e, most - 1) {
        Some(steps) => {
            go_on(tasks, rest)?;
            Ok(steps + 1)
        }
        None => begin_statement(tasks, values, store, e, rest, most),
    }
}

/// An `if`.
fn branch<'a>(
    tasks: &mut Tasks<'a>,
    store: &Store<'a>,
    e: &'a Expression,
    a: &'a [Item],
    b: &'a [Item],
    rest: &'a [Item],
    most: u64,
) -> Result<u64, Memory>
    ensures most { IfOk result (λ n. n ≤ most) }
    ensures ok { IfOk result (λ n. WhereTop (λ k. Runs (If (Source (expression_tree e.now)) (trees_of a.now) (trees_of b.now)) ∷ items (trees_of rest.now) k) tasks.old
        (Reaches store.now store.now n (tasks_of tasks.old) (tasks_of tasks.new))) }
{
    let Some(asked) = ask(store, e, 3, most) else {
        return Ok(0);
    };
    go_on(tasks, rest)?;
    add_chosen(tasks, asked.holds, a, b)?;
    Ok(asked.steps)
}

/// The steps of an `if` or a `while`, with which a list begins, or none.
fn choose<'a>(
    tasks: &mut Tasks<'a>,
    store: &Store<'a>,
    item: &'a Item,
    rest: &'a [Item],
    most: u64,
) -> Result<u64, Memory>
    ensures most { IfOk result (λ n. n ≤ most) }
    ensures ok { IfOk result (λ n. WhereTop (λ k. Runs (tree_of item.now) ∷ items (trees_of rest.now) k) tasks.old
        (Reaches store.now store.now n (tasks_of tasks.old) (tasks_of tasks.new))) }
{
    match item {
        Item::If(test, a, b) => match test {
            Test::Source(e) => branch(tasks, store, e, a.as_slice(), b.as_slice(), rest, most),
            _ => Ok(0),
        },
        Item::While(test, a) => match test {
            Test::Source(e) => enter_while(tasks, store, item, e, a.as_slice(), rest, most),
            _ => Ok(0),
        },
        _ => Ok(0),
    }
}

/// The steps of a statement, with which a list begins, or none.
pub fn statement<'a>(
    tasks: &mut Tasks<'a>,
    values: &mut Values<'a>,
    store: &mut Store<'a>,
    item: &'a Item,
    rest: &'a [Item],
    most: u64,
) -> Result<u64, Memory>
    requires { 1 ≤ most }
    ensures names { store.new.names ≡ store.old.names }
    ensures most { IfOk result (λ n. n ≤ most) }
    ensures ok { IfOk result (λ n. WhereTop (λ k. Runs (tree_of item.now) ∷ items (trees_of rest.now) k) tasks.old
        (GoesOn store.old store.new n tasks.old tasks.new values.old values.new)) }
{
    match item {
        Item::Evaluate(e) => evaluate(tasks, values, store, e, rest, most),
        Item::Return(value) => match value {
            Some(e) => begin_return(tasks, values, store, e, rest, most),
            None => Ok(0),
        },
        _ => choose(tasks, store, item, rest, most),
    }
}
