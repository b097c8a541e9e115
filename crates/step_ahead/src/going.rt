ghost use Rattle.std.specs.Prelude.{◌≡◌, ◌≤◌, ◌∷◌, IfOk, OnOk};
ghost use Rattle.c_tree.specs.ExpressionTrees.{expression_tree, place_tree};
ghost use Rattle.jump_meaning.specs.Effects.{Computes, Drops, Finds, Stores};
ghost use Rattle.jump_meaning.specs.Tasks.{Works};
ghost use Rattle.step_tasks.specs.Tasks.{computes};
ghost use Rattle.step_ahead.specs.Ahead.{GoesOn, WhereTop};

use crate::beginning::{begin, locate};
use crate::loops::{head, loop_end};
use crate::pushing::{add_arguments, take_off};
use crate::statements::statement;
use c_tree::{Expression, Place};
use c_types::Memory;
use step_memory::Store;
use step_tasks::{Stage, Task, Tasks, Use, Values, Work, assign, take};

/// An expression that is to be computed.
fn leave<'a>(
    tasks: &mut Tasks<'a>,
    values: &mut Values<'a>,
    store: &Store<'a>,
    e: &'a Expression,
    most: u64,
) -> Result<u64, Memory>
    requires { 1 ≤ most }
    ensures most { IfOk result (λ n. n ≤ most) }
    ensures ok { IfOk result (λ n. WhereTop (λ k. Works (Computes (expression_tree e.now)) ∷ k) tasks.old
        (GoesOn store.now store.now n tasks.old tasks.new values.old values.new)) }
{
    take_off(tasks);
    begin(tasks, values, store, e, most)
}

/// The first of some arguments.
fn argument<'a>(
    tasks: &mut Tasks<'a>,
    values: &mut Values<'a>,
    store: &Store<'a>,
    e: &'a Expression,
    rest: &'a [Expression],
    most: u64,
) -> Result<u64, Memory>
    requires { 1 ≤ most }
    ensures most { IfOk result (λ n. n ≤ most) }
    ensures ok { IfOk result (λ n. WhereTop (λ k. Works (Computes (expression_tree e.now)) ∷ computes rest.now k) tasks.old
        (GoesOn store.now store.now n tasks.old tasks.new values.old values.new)) }
{
    take_off(tasks);
    add_arguments(tasks, rest)?;
    begin(tasks, values, store, e, most)
}

/// A place that is to be found.
fn reach<'a>(
    tasks: &mut Tasks<'a>,
    values: &mut Values<'a>,
    store: &Store<'a>,
    place: &'a Place,
    most: u64,
) -> Result<u64, Memory>
    requires { 1 ≤ most }
    ensures most { IfOk result (λ n. n ≤ most) }
    ensures ok { IfOk result (λ n. WhereTop (λ k. Works (Finds (place_tree place.now)) ∷ k) tasks.old
        (GoesOn store.now store.now n tasks.old tasks.new values.old values.new)) }
{
    take_off(tasks);
    locate(tasks, values, store, place, most)
}

/// A value is stored in a place, in one step.
fn put<'a>(
    tasks: &mut Tasks<'a>,
    values: &mut Values<'a>,
    store: &mut Store<'a>,
) -> Result<(), Memory>
    ensures names { store.new.names ≡ store.old.names }
    ensures ok { OnOk result (WhereTop (λ k. Works Stores ∷ k) tasks.old
        (GoesOn store.old store.new 1 tasks.old tasks.new values.old values.new)) }
{
    take_off(tasks);
    assign(values, store)?;
    Ok(())
}

/// A value is dropped, in one step.
fn let_go<'a>(tasks: &mut Tasks<'a>, values: &mut Values<'a>, store: &Store<'a>)
    ensures { WhereTop (λ k. Works Drops ∷ k) tasks.old
        (GoesOn store.now store.now 1 tasks.old tasks.new values.old values.new) }
{
    take_off(tasks);
    take(values);
}

/// Makes several steps of a call at once, at most so many, and answers how many: none where the next ones
/// call something, show something or meet a trap. Want of memory is the only failure, and the tasks and
/// the values are of no use then.
pub fn advance<'a>(
    tasks: &mut Tasks<'a>,
    values: &mut Values<'a>,
    store: &mut Store<'a>,
    most: u64,
) -> Result<u64, Memory>
    ensures names { store.new.names ≡ store.old.names }
    ensures most { IfOk result (λ n. n ≤ most) }
    ensures ok { IfOk result (λ n. GoesOn store.old store.new n tasks.old tasks.new values.old values.new) }
{
    if most == 0 {
        return Ok(0);
    }
    let Some(work) = tasks.top() else {
        return Ok(0);
    };
    let work = *work;
    match work {
        Work::Items([item, rest @ ..]) => statement(tasks, values, store, item, rest, most),
        Work::Arguments([e, rest @ ..]) => argument(tasks, values, store, e, rest, most),
        Work::One(task) => match task {
            Task::Of(stage, item) => match stage {
                Stage::Loop => loop_end(tasks, store, item, most),
                Stage::Head => head(tasks, store, item, most),
                _ => Ok(0),
            },
            Task::With(role, e) => match role {
                Use::Compute => leave(tasks, values, store, e, most),
                _ => Ok(0),
            },
            Task::Find(place) => reach(tasks, values, store, place, most),
            Task::Store => {
                put(tasks, values, store)?;
                Ok(1)
            }
            Task::DropValue => {
                let_go(tasks, values, store);
                Ok(1)
            }
            _ => Ok(0),
        },
        _ => Ok(0),
    }
}
