ghost use Rattle.std.specs.Prelude.{◌≡◌, ℕ, ℤ, pos, List, IfOk, OnOk};
ghost use Rattle.c_tree.specs.ExpressionTrees.{expression_tree};
ghost use Rattle.jump_meaning.specs.Effects.{Indexes, Loads, Fetches, AppliesUnary, AppliesBinary, Converts, Ands, Ors, Judges, conversion};
ghost use Rattle.jump_meaning.specs.Operations.{operand_kind as the_kind};
ghost use Rattle.jump_meaning.specs.World.{World, load as the_load};
ghost use Rattle.step_memory.specs.Stores.{names_of, HoldsWorld};
ghost use Rattle.step_memory.specs.Values.{value_of};
ghost use Rattle.step_tasks.specs.Effects.{Computed, IsDoneAlways, IsLeft, IsLeftAlways, IsLeftOr, IsLeftOrAlways, IsOutcome};
ghost use Rattle.step_tasks.specs.Indexes.{has_cell as the_cell};
ghost use Rattle.step_tasks.specs.Tasks.{decide_of};

use crate::added::{add, add_two};
use crate::pending::{last, leave_cell, leave_number, leave_truth, take, take_number, take_truth};
use crate::work::{Task, Tasks, Use, Values};
use c_constants::{binary_result, unary_result};
use c_tree::{BinaryOp, Expression, Home, Node, UnaryOp};
use c_types::{IntKind, Memory, Trap, convert};
use step_memory::{Store, Value};

/// What a task of an expression comes to, apart from the values.
#[derive(Clone, Copy)]
pub enum Done {
    Goes,
    Traps(Trap),
}

/// The kind of an operand; each operand of a resolved program has one.
pub fn operand_kind(kind: Option<IntKind>) -> IntKind
    ensures { result ≡ the_kind kind }
{
    match kind {
        Some(kind) => kind,
        None => IntKind::Int,
    }
}

/// The number is left, or the trap stops the run.
pub fn leave<'a>(values: &mut Values<'a>, number: Result<i128, Trap>) -> Result<Done, Memory>
    ensures ok { IfOk result (λ done. IsOutcome number done values.old values.new) }
{
    match number {
        Ok(number) => {
            leave_number(values, number)?;
            Ok(Done::Goes)
        }
        Err(trap) => Ok(Done::Traps(trap)),
    }
}

/// Whether a variable of so many cells has a cell of this number.
fn has_cell(at: i128, count: usize) -> bool
    ensures { result ≡ the_cell at count }
{
    at >= 0 && at < count as i128
}

/// Takes an index, and leaves that cell of the array.
pub fn index<'a>(values: &mut Values<'a>, store: &Store<'a>, home: &Home) -> Result<Done, Memory>
    ensures ok { IfOk result (λ done. IsLeftOr (Indexes home.now) done store.now values.old values.new) }
{
    let at = take_number(values);
    let owner = store.reached(home)?;
    let count = store.count(owner)?;
    if !has_cell(at, count) {
        return Ok(Done::Traps(Trap::Index));
    }
    if at < 0 || at > 4294967295 {
        return Err(Memory);
    }
    leave_cell(values, owner, at as u32)?;
    Ok(Done::Goes)
}

/// The number in the cell that a value designates. A cell that isn't there is refused.
pub fn loaded(store: &Store<'_>, place: Value<'_>) -> Result<i128, Memory>
    ensures { IfOk result (λ n. (w : World) → HoldsWorld store.now w → the_load (value_of (names_of store.now) place.entry) w ≡ n) }
{
    match place {
        Value::Designates(owner, at) => store.number(owner, at),
        _ => Err(Memory),
    }
}

/// Takes a place, and leaves its value.
pub fn load<'a>(values: &mut Values<'a>, store: &Store<'a>) -> Result<(), Memory>
    ensures ok { OnOk result (IsLeft Loads store.now values.old values.new) }
{
    let place = take(values);
    leave_number(values, loaded(store, place)?)
}

/// Leaves the value of a place above it.
pub fn fetch<'a>(values: &mut Values<'a>, store: &Store<'a>) -> Result<(), Memory>
    ensures ok { OnOk result (IsLeft Fetches store.now values.old values.new) }
{
    let place = last(values);
    leave_number(values, loaded(store, place)?)
}

/// Takes an operand of the kind, and leaves what the mark gives.
pub fn apply_unary<'a>(
    values: &mut Values<'a>,
    op: UnaryOp,
    kind: Option<IntKind>,
) -> Result<Done, Memory>
    ensures ok { IfOk result (λ done. IsLeftOrAlways (AppliesUnary op kind) done values.old values.new) }
{
    let a = take_number(values);
    leave(values, unary_result(op, operand_kind(kind), a))
}

/// Takes two operands of the kinds, and leaves what the mark gives.
pub fn apply_binary<'a>(
    values: &mut Values<'a>,
    op: BinaryOp,
    j: Option<IntKind>,
    k: Option<IntKind>,
) -> Result<Done, Memory>
    ensures ok { IfOk result (λ done. IsLeftOrAlways (AppliesBinary op j k) done values.old values.new) }
{
    let b = take_number(values);
    let a = take_number(values);
    leave(
        values,
        binary_result(op, operand_kind(j), operand_kind(k), a, b),
    )
}

/// Takes a number, and leaves it converted.
pub fn convert_top<'a>(values: &mut Values<'a>, kind: IntKind) -> Result<(), Memory>
    ensures ok { OnOk result (IsLeftAlways (Converts kind) values.old values.new) }
{
    let a = take_number(values);
    leave_number(values, convert(kind, a))
}

/// Takes the first operand of `&&`: it decides, or the second is to come.
pub fn and_then<'a>(
    tasks: &mut Tasks<'a>,
    values: &mut Values<'a>,
    b: &'a Expression,
) -> Result<(), Memory>
    ensures ok { OnOk result (IsDoneAlways (Ands (expression_tree b.now)) tasks.old tasks.new values.old values.new) }
{
    if !take_truth(values) {
        return leave_number(values, 0);
    }
    add_two(tasks, Task::With(Use::Compute, b), Task::Judge)
}

/// Takes the first operand of `||`: it decides, or the second is to come.
pub fn or_else<'a>(
    tasks: &mut Tasks<'a>,
    values: &mut Values<'a>,
    b: &'a Expression,
) -> Result<(), Memory>
    ensures ok { OnOk result (IsDoneAlways (Ors (expression_tree b.now)) tasks.old tasks.new values.old values.new) }
{
    if take_truth(values) {
        return leave_number(values, 1);
    }
    add_two(tasks, Task::With(Use::Compute, b), Task::Judge)
}

/// Takes a number, and leaves whether it isn't 0.
pub fn judge<'a>(values: &mut Values<'a>) -> Result<(), Memory>
    ensures ok { OnOk result (IsLeftAlways Judges values.old values.new) }
{
    let holds = take_truth(values);
    leave_truth(values, holds)
}

/// The conversion to a kind, where there is one.
fn add_conversion<'a>(tasks: &mut Tasks<'a>, kind: Option<IntKind>) -> Result<(), Memory>
    ensures ok { OnOk result (Computed (conversion kind) tasks.old tasks.new) }
{
    match kind {
        Some(kind) => add(tasks, Task::Convert(kind)),
        None => Ok(()),
    }
}

/// Takes the condition of `a ? b : c`.
pub fn decide<'a>(
    tasks: &mut Tasks<'a>,
    values: &mut Values<'a>,
    e: &'a Expression,
) -> Result<(), Memory>
    ensures ok { OnOk result (IsDoneAlways (decide_of (expression_tree e.now)) tasks.old tasks.new values.old values.new) }
{
    let holds = take_truth(values);
    let Node::Conditional(_, b, c) = &e.node else {
        return Err(Memory);
    };
    add_conversion(tasks, e.kind)?;
    if holds {
        add(tasks, Task::With(Use::Compute, b.get()))
    } else {
        add(tasks, Task::With(Use::Compute, c.get()))
    }
}
