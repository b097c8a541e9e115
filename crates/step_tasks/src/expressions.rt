ghost use Rattle.std.specs.Prelude.{◌≡◌, [], ◌∷◌, OnOk};
ghost use Rattle.c_tree.specs.declared.tree.BinaryOp.TheVariants.{Arith};
ghost use Rattle.c_tree.specs.declared.tree.Expression.{out-Expression};
ghost use Rattle.c_tree.specs.Trees.{expression_trees};
ghost use Rattle.c_tree.specs.ExpressionTrees.{expression_tree, place_tree};
ghost use Rattle.jump_meaning.specs.Effects.{Computes, Drops, Finds, Fetches, AppliesBinary, Stores, binary_tasks, cast_tasks};
ghost use Rattle.step_tasks.specs.Tasks.{tasks_of};
ghost use Rattle.step_tasks.specs.Effects.{Computed, IsDone, call_tasks};

use crate::added::{add, add_three, add_two};
use crate::pending::{leave_array, leave_cell, leave_character, leave_constant, leave_format};
use crate::work::{Task, Tasks, Use, Values, Work};
use c_tree::{BinaryOp, Expression, Node, Place};
use c_types::{ArithOp, IntKind, List, Memory, Name};
use step_memory::Store;

fn add_binary<'a>(
    tasks: &mut Tasks<'a>,
    op: BinaryOp,
    a: &'a Expression,
    b: &'a Expression,
) -> Result<(), Memory>
    ensures ok { OnOk result (Computed (binary_tasks op (expression_tree a.now) (expression_tree b.now)) tasks.old tasks.new) }
{
    match op {
        BinaryOp::AndThen => {
            add(tasks, Task::With(Use::And, b))?;
            add(tasks, Task::With(Use::Compute, a))
        }
        BinaryOp::OrElse => {
            add(tasks, Task::With(Use::Or, b))?;
            add(tasks, Task::With(Use::Compute, a))
        }
        _ => {
            add(tasks, Task::Binary(op, a.kind, b.kind))?;
            add(tasks, Task::With(Use::Compute, b))?;
            add(tasks, Task::With(Use::Compute, a))
        }
    }
}

fn add_cast<'a>(
    tasks: &mut Tasks<'a>,
    kind: Option<IntKind>,
    a: &'a Expression,
) -> Result<(), Memory>
    ensures ok { OnOk result (Computed (Computes (expression_tree a.now) ∷ cast_tasks kind) tasks.old tasks.new) }
{
    match kind {
        Some(kind) => add(tasks, Task::Convert(kind))?,
        None => {
            add(tasks, Task::LeaveNothing)?;
            add(tasks, Task::DropValue)?;
        }
    }
    add(tasks, Task::With(Use::Compute, a))
}

fn add_update<'a>(
    tasks: &mut Tasks<'a>,
    op: ArithOp,
    kind: Option<IntKind>,
    place: &'a Place,
    value: &'a Expression,
) -> Result<(), Memory>
    ensures ok { OnOk result (Computed
        (Finds (place_tree place.now) ∷ Fetches ∷ Computes (expression_tree value.now) ∷ AppliesBinary (Arith op) kind (out-Expression value.now).kind ∷ Stores ∷ [])
        tasks.old tasks.new) }
{
    add(tasks, Task::Store)?;
    add(tasks, Task::Binary(BinaryOp::Arith(op), kind, value.kind))?;
    add(tasks, Task::With(Use::Compute, value))?;
    add(tasks, Task::Fetch)?;
    add(tasks, Task::Find(place))
}

fn add_call<'a>(
    tasks: &mut Tasks<'a>,
    name: &'a Name,
    arguments: &'a List<Expression>,
) -> Result<(), Memory>
    ensures ok { OnOk result (Computed (call_tasks name.now (expression_trees arguments.now)) tasks.old tasks.new) }
{
    add(tasks, Task::Call(name, arguments.len() as u32))?;
    tasks.push(Work::Arguments(arguments.as_slice()))
}

fn add_comma<'a>(tasks: &mut Tasks<'a>, a: &'a Expression, b: &'a Expression) -> Result<(), Memory>
    ensures ok { OnOk result (Computed (Computes (expression_tree a.now) ∷ Drops ∷ Computes (expression_tree b.now) ∷ []) tasks.old tasks.new) }
{
    let first = Task::With(Use::Compute, a);
    add_three(tasks, first, Task::DropValue, Task::With(Use::Compute, b))
}

/// An expression that leaves its value at once, or its parts and then what takes them.
pub fn compute<'a>(
    tasks: &mut Tasks<'a>,
    values: &mut Values<'a>,
    store: &Store<'a>,
    e: &'a Expression,
) -> Result<(), Memory>
    ensures ok { OnOk result (IsDone (Computes (expression_tree e.now)) store.now tasks.old tasks.new values.old values.new) }
{
    match &e.node {
        Node::Number(number) => leave_constant(values, number),
        Node::Character(byte) => leave_character(values, byte),
        Node::EnumName(_, number) => leave_constant(values, number),
        Node::Text(bytes) => leave_format(values, bytes),
        Node::Array(home) => leave_array(values, store.reached(home)?),
        Node::Read(place) => add_two(tasks, Task::Find(place), Task::Load),
        Node::Unary(op, a) => {
            let a = a.get();
            let then = Task::Unary(*op, a.kind);
            add_two(tasks, Task::With(Use::Compute, a), then)
        }
        Node::Cast(a) => add_cast(tasks, e.kind, a.get()),
        Node::Binary(op, a, b) => add_binary(tasks, *op, a.get(), b.get()),
        Node::Conditional(a, _, _) => {
            let then = Task::With(Use::Decide, e);
            add_two(tasks, Task::With(Use::Compute, a.get()), then)
        }
        Node::Assign(place, value) => {
            let then = Task::With(Use::Compute, value.get());
            add_three(tasks, Task::Find(place), then, Task::Store)
        }
        Node::Update(op, place, value) => add_update(tasks, *op, e.kind, place, value.get()),
        Node::Count(place, up, after) => {
            add_two(tasks, Task::Find(place), Task::Count(*up, *after))
        }
        Node::Comma(a, b) => add_comma(tasks, a.get(), b.get()),
        Node::Call(name, arguments) => add_call(tasks, name, arguments),
    }
}

/// A place: a variable is left at once, a cell after its index.
pub fn find<'a>(
    tasks: &mut Tasks<'a>,
    values: &mut Values<'a>,
    store: &Store<'a>,
    place: &'a Place,
) -> Result<(), Memory>
    ensures ok { OnOk result (IsDone (Finds (place_tree place.now)) store.now tasks.old tasks.new values.old values.new) }
{
    match place {
        Place::Var(home) => leave_cell(values, store.reached(home)?, 0),
        Place::Cell(home, index) => {
            add_two(
                tasks,
                Task::With(Use::Compute, index.get()),
                Task::Index(home),
            )
        }
    }
}
