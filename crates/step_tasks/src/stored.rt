ghost use Rattle.std.specs.Prelude.{◌≡◌, suc, IfOk, OnOk};
ghost use Rattle.c_tree.specs.Trees.{expression_trees};
ghost use Rattle.jump_meaning.specs.Effects.{Stores, Counts, Sets, initialise as the_initialisers};
ghost use Rattle.jump_meaning.specs.Operations.{count_mark};
ghost use Rattle.step_tasks.specs.Effects.{CountsIn, Effects, Changes, LeavesIn, LeavesInOr};

use crate::added::{add, add_two};
use crate::operate::Done;
use crate::pending::{leave_cell, leave_number, take, take_number};
use crate::work::{Task, Tasks, Use, Values};
use c_tree::{Expression, Home};
use c_types::{ArithOp, Memory, Trap, arith, convert, promote};
use step_memory::{Owner, Store, Value};

/// Takes a value and a place, and leaves what is stored.
pub fn assign<'a>(values: &mut Values<'a>, store: &mut Store<'a>) -> Result<(), Memory>
    ensures names { store.new.names ≡ store.old.names }
    ensures ok { OnOk result (LeavesIn Stores store.old store.new values.old values.new) }
{
    let number = take_number(values);
    let Value::Designates(owner, at) = take(values) else {
        return Err(Memory);
    };
    let kind = store.kind(owner)?;
    store.set(owner, at, number)?;
    leave_number(values, convert(kind, number))
}

/// The mark by which `++` and `--` count.
fn count_op(up: bool) -> ArithOp
    ensures { result ≡ count_mark up }
{
    if up { ArithOp::Add } else { ArithOp::Sub }
}

/// Counts a cell up or down, and leaves its value before or after that.
fn count_cell<'a>(
    values: &mut Values<'a>,
    store: &mut Store<'a>,
    owner: Owner,
    at: u32,
    up: bool,
    after: bool,
) -> Result<Done, Memory>
    ensures names { store.new.names ≡ store.old.names }
    ensures ok { IfOk result (λ done. CountsIn up after owner at done store.old store.new values.old values.new) }
{
    let old = store.number(owner, at)?;
    let kind = store.kind(owner)?;
    let promoted = promote(kind);
    if !promoted.contains(old) {
        return Err(Memory);
    }
    match arith(count_op(up), promoted, old, 1) {
        Ok(new) => {
            store.set(owner, at, new)?;
            if after {
                leave_number(values, old)?;
            } else {
                leave_number(values, convert(kind, new))?;
            }
            Ok(Done::Goes)
        }
        Err(trap) => Ok(Done::Traps(trap)),
    }
}

/// Takes a place, counts its cell up or down, and leaves its value before or after that.
pub fn count<'a>(
    values: &mut Values<'a>,
    store: &mut Store<'a>,
    up: bool,
    after: bool,
) -> Result<Done, Memory>
    ensures names { store.new.names ≡ store.old.names }
    ensures ok { IfOk result (λ done. LeavesInOr (Counts up after) done store.old store.new values.old values.new) }
{
    let Value::Designates(owner, at) = take(values) else {
        return Err(Memory);
    };
    count_cell(values, store, owner, at, up, after)
}

/// The initialisers of a slot from one on, and then the cells that are left out.
pub fn initialise<'a>(
    tasks: &mut Tasks<'a>,
    values: &mut Values<'a>,
    store: &Store<'a>,
    slot: u32,
    at: u32,
    initialisers: &'a [Expression],
) -> Result<(), Memory>
    ensures ok { OnOk result (Effects (the_initialisers slot at (expression_trees initialisers.now)) store.now tasks.old tasks.new values.old values.new) }
{
    match initialisers {
        [] => {
            if store.is_array(slot)? {
                return add(tasks, Task::Clear(slot, at));
            }
            Ok(())
        }
        [first, rest @ ..] => {
            let owner = store.reached(&Home::Slot(slot))?;
            leave_cell(values, owner, at)?;
            add_two(
                tasks,
                Task::With(Use::Compute, first),
                Task::Set(slot, at, rest),
            )
        }
    }
}

/// Stores an initialiser, and goes on with the next.
pub fn set<'a>(
    tasks: &mut Tasks<'a>,
    values: &mut Values<'a>,
    store: &mut Store<'a>,
    slot: u32,
    at: u32,
    later: &'a [Expression],
) -> Result<(), Memory>
    ensures names { store.new.names ≡ store.old.names }
    ensures ok { OnOk result (Changes (Sets slot at (expression_trees later.now)) store.old store.new tasks.old tasks.new values.old values.new) }
{
    if at >= 4294967295 {
        return Err(Memory);
    }
    let number = take_number(values);
    let Value::Designates(owner, cell) = take(values) else {
        return Err(Memory);
    };
    store.set(owner, cell, number)?;
    initialise(tasks, values, store, slot, at + 1, later)
}
