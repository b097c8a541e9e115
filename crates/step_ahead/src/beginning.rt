ghost use Rattle.std.specs.Prelude.{◌≡◌, ◌≤◌, ◌∷◌, List, FitsSigned, IfOk, IfSome};
ghost use Rattle.std.specs.Int.{w128};
ghost use Rattle.c_tree.specs.ExpressionTrees.{expression_tree, place_tree};
ghost use Rattle.c_tree.specs.Trees.{trees_of};
ghost use Rattle.jump_meaning.specs.Effects.{Computes, Finds};
ghost use Rattle.jump_meaning.specs.Tasks.{Works, items};
ghost use Rattle.step_tasks.specs.declared.work.Work.{Work as TheWork};
ghost use Rattle.step_tasks.specs.Tasks.{task_of, tasks_of};
ghost use Rattle.step_ahead.specs.Ahead.{Passes};
ghost use Rattle.step_ahead.specs.Taken.{IsComputed, IsFound};

use crate::computing::{DEPTH, computed, found};
use crate::finding::Found;
use crate::marks::Computed;
use crate::pushing::go_on;
use c_tree::{Expression, Item, Place};
use c_types::Memory;
use step_memory::{Store, Value};
use step_tasks::{Task, Tasks, Values, Work, compute, find};

/// The number of an expression, where it is computed in at most so many steps.
fn computed_within(store: &Store<'_>, e: &Expression, most: u64) -> Option<Computed>
    ensures most { IfSome result (λ r. r.steps ≤ most) }
    ensures ok { IfSome result (λ r. IsComputed store.now (expression_tree e.now) r) }
    ensures fits { IfSome result (λ r. FitsSigned w128 r.number) }
{
    let Some(x) = computed(store, e, DEPTH) else {
        return None;
    };
    if x.steps as u64 > most {
        return None;
    }
    Some(x)
}

/// The cell that a place is, where it is found in at most so many steps.
fn found_within(store: &Store<'_>, place: &Place, most: u64) -> Option<Found>
    ensures most { IfSome result (λ r. r.steps ≤ most) }
    ensures ok { IfSome result (λ r. IsFound store.now (place_tree place.now) r) }
{
    let Some(x) = found(store, place) else {
        return None;
    };
    if x.steps as u64 > most {
        return None;
    }
    Some(x)
}

/// Computes an expression, or makes the first step of one that calls or changes something.
pub fn begin<'a>(
    tasks: &mut Tasks<'a>,
    values: &mut Values<'a>,
    store: &Store<'a>,
    e: &'a Expression,
    most: u64,
) -> Result<u64, Memory>
    requires { 1 ≤ most }
    ensures most { IfOk result (λ n. n ≤ most) }
    ensures ok { IfOk result (λ n. Passes store.now store.now n (Works (Computes (expression_tree e.now)) ∷ tasks_of tasks.old) (tasks_of tasks.new) values.old values.new) }
{
    match computed_within(store, e, most) {
        Some(x) => {
            values.push(Value::Integer(x.number))?;
            Ok(x.steps as u64)
        }
        None => {
            compute(tasks, values, store, e)?;
            Ok(1)
        }
    }
}

/// Finds a place, or makes the first step of one whose index calls or changes something.
pub fn locate<'a>(
    tasks: &mut Tasks<'a>,
    values: &mut Values<'a>,
    store: &Store<'a>,
    place: &'a Place,
    most: u64,
) -> Result<u64, Memory>
    requires { 1 ≤ most }
    ensures most { IfOk result (λ n. n ≤ most) }
    ensures ok { IfOk result (λ n. Passes store.now store.now n (Works (Finds (place_tree place.now)) ∷ tasks_of tasks.old) (tasks_of tasks.new) values.old values.new) }
{
    match found_within(store, place, most) {
        Some(x) => {
            values.push(Value::Designates(x.owner, x.at))?;
            Ok(x.steps as u64)
        }
        None => {
            find(tasks, values, store, place)?;
            Ok(1)
        }
    }
}

/// Begins the expression of a statement in place of the work on top; then comes a task, and then what is
/// left of the list.
pub fn begin_in<'a>(
    tasks: &mut Tasks<'a>,
    values: &mut Values<'a>,
    store: &Store<'a>,
    e: &'a Expression,
    taker: Task<'a>,
    rest: &'a [Item],
    most: u64,
) -> Result<u64, Memory>
    requires { 1 ≤ most }
    ensures most { IfOk result (λ n. n ≤ most) }
    ensures ok { IfOk result (λ n. (x : TheWork) (below : List TheWork) → tasks.old ≡ x ∷ below
        → Passes store.now store.now n (Works (Computes (expression_tree e.now)) ∷ task_of taker.entry ∷ items (trees_of rest.now) (tasks_of below)) (tasks_of tasks.new) values.old values.new) }
{
    go_on(tasks, rest)?;
    tasks.push(Work::One(taker))?;
    begin(tasks, values, store, e, most)
}
