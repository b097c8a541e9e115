ghost use Rattle.std.specs.Prelude.{◌≡◌, ◌≤◌, pos, Bool, Ok, MatchOption, IfSome, FitsSigned};
ghost use Rattle.std.specs.Int.{w128};
ghost use Rattle.c_types.specs.Numbers.{IsInRange, arith_result};
ghost use Rattle.c_tree.specs.declared.tree.Expression.{out-Expression};
ghost use Rattle.c_tree.specs.declared.tree.Node as N;
ghost use Rattle.c_tree.specs.ExpressionTrees.{expression_tree};
ghost use Rattle.jump_meaning.specs.Operations.{count_mark};
ghost use Rattle.step_memory.specs.Stores.{StoresIn};
ghost use Rattle.step_ahead.specs.Taken.{IsEvaluated};

use crate::computing::{DEPTH, computed, found};
use crate::finding::Found;
use crate::marks::{after, operand_kind};
use c_constants::binary_result;
use c_tree::{BinaryOp, Expression, Node, Place};
use c_types::{ArithOp, IntKind, Memory, Trap, arith, promote};
use step_memory::Store;

/// Stores a number in a cell, where that takes at most so many steps.
fn stored(store: &mut Store<'_>, found: Found, number: i128, steps: u64, most: u64) -> Option<u64>
    ensures names { store.new.names ≡ store.old.names }
    ensures done { MatchOption result (store.new ≡ store.old) (λ n. (n ≡ steps) × (n ≤ most) × StoresIn found.owner found.at number store.old store.new) }
{
    if steps > most {
        return None;
    }
    match store.set(found.owner, found.at, number) {
        Ok(()) => Some(steps),
        Err(Memory) => None,
    }
}

/// `place = value`, whose value is dropped.
fn assigned(
    store: &mut Store<'_>,
    e: &Expression,
    place: &Place,
    value: &Expression,
    most: u64,
) -> Option<u64>
    ensures names { store.new.names ≡ store.old.names }
    ensures done { MatchOption result (store.new ≡ store.old) (λ n. (n ≤ most) × ((out-Expression e.now).node ≡ N.Assign place.now value.now → IsEvaluated store.old store.new (expression_tree e.now) n)) }
{
    // the value first, since that may be a call, which ends this at once
    let Some(x) = computed(store, value, DEPTH) else {
        return None;
    };
    let Some(found) = found(store, place) else {
        return None;
    };
    let steps = found.steps as u64 + x.steps as u64 + 3;
    stored(store, found, x.number, steps, most)
}

/// `place += value` and the like, whose value is dropped.
fn updated(
    store: &mut Store<'_>,
    e: &Expression,
    op: ArithOp,
    place: &Place,
    value: &Expression,
    most: u64,
) -> Option<u64>
    ensures names { store.new.names ≡ store.old.names }
    ensures done { MatchOption result (store.new ≡ store.old) (λ n. (n ≤ most) × ((out-Expression e.now).node ≡ N.Update op place.now value.now → IsEvaluated store.old store.new (expression_tree e.now) n)) }
{
    let Some(found) = found(store, place) else {
        return None;
    };
    let Ok(old) = store.number(found.owner, found.at) else {
        return None;
    };
    let Some(x) = computed(store, value, DEPTH) else {
        return None;
    };
    let (j, k) = (operand_kind(e.kind), operand_kind(value.kind));
    let number = binary_result(BinaryOp::Arith(op), j, k, old, x.number);
    let Some(y) = after(number, found.steps, x.steps, 5) else {
        return None;
    };
    stored(store, found, y.number, y.steps as u64, most)
}

/// What `++` or `--` makes of a number of the kind.
fn stepped(kind: IntKind, old: i128, up: bool) -> Result<i128, Trap>
    requires { IsInRange kind old }
    ensures { result ≡ arith_result (count_mark up) kind old (pos 1) }
{
    if up {
        arith(ArithOp::Add, kind, old, 1)
    } else {
        arith(ArithOp::Sub, kind, old, 1)
    }
}

/// What `++` or `--` makes of a number of the kind, if there is no trap.
fn next(kind: IntKind, old: i128, up: bool) -> Option<i128>
    ensures next { IfSome result (λ n. arith_result (count_mark up) kind old (pos 1) ≡ Ok n) }
    ensures fits { IfSome result (λ n. FitsSigned w128 n) }
{
    if !kind.contains(old) {
        return None;
    }
    match stepped(kind, old, up) {
        Ok(number) => Some(number),
        Err(_) => None,
    }
}

/// `++` or `--`, whose value is dropped.
fn counted(store: &mut Store<'_>, e: &Expression, place: &Place, up: bool, most: u64) -> Option<u64>
    ensures names { store.new.names ≡ store.old.names }
    ensures done { MatchOption result (store.new ≡ store.old) (λ n. (n ≤ most) × ((after : Bool) → (out-Expression e.now).node ≡ N.Count place.now up after → IsEvaluated store.old store.new (expression_tree e.now) n)) }
{
    let Some(found) = found(store, place) else {
        return None;
    };
    let Ok(old) = store.number(found.owner, found.at) else {
        return None;
    };
    let Ok(kind) = store.kind(found.owner) else {
        return None;
    };
    let Some(number) = next(promote(kind), old, up) else {
        return None;
    };
    stored(store, found, number, found.steps as u64 + 3, most)
}

/// Evaluates an expression whose value is dropped, and answers how many steps of the run that takes, at
/// most so many. `None` where these are not enough, or where `computed` has no answer: nothing changes
/// then, and the run takes single steps.
pub fn evaluated(store: &mut Store<'_>, e: &Expression, most: u64) -> Option<u64>
    ensures names { store.new.names ≡ store.old.names }
    ensures done { MatchOption result (store.new ≡ store.old) (λ n. (n ≤ most) × IsEvaluated store.old store.new (expression_tree e.now) n) }
{
    match &e.node {
        Node::Assign(place, value) => assigned(store, e, place, value.get(), most),
        Node::Update(op, place, value) => updated(store, e, *op, place, value.get(), most),
        Node::Count(place, up, _) => counted(store, e, place, *up, most),
        _ => dropped(store, e, most),
    }
}

/// An expression that changes nothing, whose value is dropped.
fn dropped(store: &Store<'_>, e: &Expression, most: u64) -> Option<u64>
    ensures { IfSome result (λ n. (n ≤ most) × IsEvaluated store.now store.now (expression_tree e.now) n) }
{
    let Some(x) = computed(store, e, DEPTH) else {
        return None;
    };
    let steps = x.steps as u64 + 1;
    if steps > most {
        return None;
    }
    Some(steps)
}
