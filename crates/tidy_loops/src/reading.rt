ghost use Rattle.std.specs.Prelude.{◌≡◌, ◌-◌, length, take, drop, option_map, Option};
ghost use Rattle.std.specs.Option.{option_copied};
ghost use Rattle.c_tree.specs.ExpressionTrees.{expression_tree, place_tree};
ghost use Rattle.c_tree.specs.TestTrees.{Source};
ghost use Rattle.c_tree.specs.Trees.{expression_trees, trees_of};
ghost use Rattle.c_tree.specs.Views.{tree_at};
ghost use Rattle.tidy_laws.specs.Changes.{is_zero_value as the_is_zero_value, is_declaration as the_is_declaration};
ghost use Rattle.tidy_loops.specs.Views.{expression_at, test_at};
ghost use Rattle.tidy_loops.specs.Slots.{and_slot as the_and_slot, and_half as the_and_half, stop_slot as the_stop_slot, second_half as the_second_half, reset_slot as the_reset_slot, first_reset as the_first_reset, reset_by, reset_in};

use crate::forms::{is_int, is_number, off_slot, place_slot};
use c_tree::{BinaryOp, Expression, Item, Node, Place, Test};
use c_types::{IntKind, List};

fn and_slot(op: BinaryOp, e: &Expression) -> Option<u32>
    ensures { result ≡ the_and_slot op (expression_tree e.now) }
{
    match op {
        BinaryOp::AndThen => off_slot(e),
        _ => None,
    }
}

fn stop_slot_of(e: &Expression) -> Option<u32>
    ensures { result ≡ the_stop_slot (Source (expression_at e.now)) }
{
    match &e.node {
        Node::Binary(op, a, _) => and_slot(*op, a.get()),
        _ => None,
    }
}

/// The slot `g` of a test `!g && t`.
pub fn stop_slot(test: &Test) -> Option<u32>
    ensures { result ≡ the_stop_slot (test_at test.now) }
{
    match test {
        Test::Source(e) => stop_slot_of(e),
        _ => None,
    }
}

fn and_half(op: BinaryOp, e: &Expression) -> Option<&Expression>
    ensures { option_map expression_tree (option_copied result) ≡ the_and_half op (expression_tree e.now) }
{
    match op {
        BinaryOp::AndThen => Some(e),
        _ => None,
    }
}

fn second_half_of(e: &Expression) -> Option<&Expression>
    ensures { option_map expression_tree (option_copied result) ≡ the_second_half (Source (expression_at e.now)) }
{
    match &e.node {
        Node::Binary(op, _, b) => and_half(*op, b.get()),
        _ => None,
    }
}

/// The second half of such a test.
pub fn second_half(test: &Test) -> Option<&Expression>
    ensures { option_map expression_tree (option_copied result) ≡ the_second_half (test_at test.now) }
{
    match test {
        Test::Source(e) => second_half_of(e),
        _ => None,
    }
}

fn reset_of(kind: Option<IntKind>, place: &Place, value: &Expression) -> Option<u32>
    ensures { result ≡ reset_by kind (place_tree place.now) (expression_tree value.now) }
{
    if !is_int(kind) {
        return None;
    }
    if !is_number(0, value) {
        return None;
    }
    place_slot(place)
}

fn reset_slot_of(e: &Expression) -> Option<u32>
    ensures { result ≡ reset_in (expression_at e.now) }
{
    match &e.node {
        Node::Assign(place, value) => reset_of(e.kind, place, value.get()),
        _ => None,
    }
}

/// The slot `g` of `g = 0;`.
fn reset_slot(item: &Item) -> Option<u32>
    ensures { result ≡ the_reset_slot (tree_at item.now) }
{
    match item {
        Item::Evaluate(e) => reset_slot_of(e),
        _ => None,
    }
}

/// That of the first item.
pub fn first_reset(items: &[Item]) -> Option<u32>
    ensures { result ≡ the_first_reset (trees_of items.now) }
{
    match items {
        [item, ..] => reset_slot(item),
        [] => None,
    }
}

/// The items of a list but the last, and the last.
pub fn split_last(list: &List<Item>) -> (&[Item], &[Item])
    ensures front { result.0.now ≡ take (length list.now - 1) list.now }
    ensures back { result.1.now ≡ drop (length list.now - 1) list.now }
{
    let items = list.as_slice();
    items.split_at(items.len().saturating_sub(1))
}

/// Whether the values of a declaration are one 0.
pub fn is_zero_value(values: &Option<List<Expression>>) -> bool
    ensures { result ≡ the_is_zero_value (option_map expression_trees values.now) }
{
    match values {
        Some(es) => is_one_zero(es.as_slice()),
        None => false,
    }
}

fn is_one_zero(es: &[Expression]) -> bool
    ensures { result ≡ the_is_zero_value (Option.Some (expression_trees es.now)) }
{
    match es {
        [e] => is_number(0, e),
        _ => false,
    }
}

/// Whether the item is `int g = 0;`.
pub fn is_declaration(slot: u32, item: &Item) -> bool
    ensures { result ≡ the_is_declaration slot (tree_at item.now) }
{
    match item {
        Item::Local(at, values) => *at == slot && is_zero_value(values),
        _ => false,
    }
}
