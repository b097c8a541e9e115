ghost use Rattle.std.specs.Prelude.{◌≡◌, ◌<◌, ◌+◌, length, drop, option_map};
ghost use Rattle.std.specs.Option.{option_copied};
ghost use Rattle.c_tree.specs.ExpressionTrees.{expression_tree, place_tree};
ghost use Rattle.c_tree.specs.Trees.{trees_of};
ghost use Rattle.c_tree.specs.Views.{tree_at};
ghost use Rattle.tidy_laws.specs.Tails.{is_check as the_is_check, is_end};
ghost use Rattle.tidy_laws.specs.Changes.{is_narrow as the_is_narrow, is_number as the_is_number, checks as the_checks, set_value as the_set_value};
ghost use Rattle.tidy_loops.specs.Views.{expression_at, test_at, home_slot as the_home_slot, place_slot as the_place_slot, read_slot as the_read_slot, off_slot as the_off_slot, is_it as the_is_it, unary_off, value_for, is_int_kind};

use c_tree::{Expression, Home, Item, Node, Place, Test, UnaryOp};
use c_types::{IntKind, List};
use tidy_slots::names;

fn home_slot(home: &Home) -> Option<u32>
    ensures { result ≡ the_home_slot home.now }
{
    match home {
        Home::Slot(x) => Some(*x),
        Home::Global(_) => None,
    }
}

/// The slot of a variable that is a number.
pub fn place_slot(place: &Place) -> Option<u32>
    ensures { result ≡ the_place_slot (place_tree place.now) }
{
    match place {
        Place::Var(home) => home_slot(home),
        Place::Cell(_, _) => None,
    }
}

fn read_slot(e: &Expression) -> Option<u32>
    ensures { result ≡ the_read_slot (expression_at e.now) }
{
    match &e.node {
        Node::Read(place) => place_slot(place),
        _ => None,
    }
}

/// The slot `g` of `!g`.
pub fn off_slot(e: &Expression) -> Option<u32>
    ensures { result ≡ the_off_slot (expression_at e.now) }
{
    match &e.node {
        Node::Unary(op, a) => not_slot(*op, a.get()),
        _ => None,
    }
}

fn not_slot(op: UnaryOp, a: &Expression) -> Option<u32>
    ensures { result ≡ unary_off op (expression_tree a.now) }
{
    match op {
        UnaryOp::Not => read_slot(a),
        _ => None,
    }
}

/// Whether it is this slot.
pub fn is_it(slot: u32, found: Option<u32>) -> bool
    ensures { result ≡ the_is_it slot found }
{
    match found {
        Some(x) => x == slot,
        None => false,
    }
}

/// Whether an `if` with this test and else-list is a check of the slot.
fn checks(slot: u32, test: &Test, other: &List<Item>) -> bool
    ensures { result ≡ the_checks slot (test_at test.now) (trees_of other.now) }
{
    match test {
        Test::Source(e) => other.is_empty() && is_it(slot, off_slot(e)),
        _ => false,
    }
}

/// Whether the item is a check of the slot.
pub fn is_check(slot: u32, item: &Item) -> bool
    ensures { result ≡ the_is_check slot (tree_at item.now) }
{
    match item {
        Item::If(test, _, other) => checks(slot, test, other),
        _ => false,
    }
}

/// Whether the item at the place is followed by nothing, or by one check and nothing else.
pub fn is_last(slot: u32, items: &[Item], at: usize) -> bool
    requires { at < length items.now }
    ensures { result ≡ is_end slot (trees_of (drop (at + 1) items.now)) }
{
    if at + 1 == items.len() {
        return true;
    }
    at + 2 == items.len() && is_check(slot, &items[at + 1])
}

/// Whether it is `int`.
pub fn is_int(kind: Option<IntKind>) -> bool
    ensures { result ≡ is_int_kind kind }
{
    match kind {
        Some(IntKind::Int) => true,
        _ => false,
    }
}

/// Whether the expression is this number.
pub fn is_number(n: u32, e: &Expression) -> bool
    ensures { result ≡ the_is_number n (expression_at e.now) }
{
    match &e.node {
        Node::Number(value) => is_int(e.kind) && *value == n as i128,
        _ => false,
    }
}

fn is_narrow(kind: Option<IntKind>) -> bool
    ensures { result ≡ the_is_narrow kind }
{
    match kind {
        Some(IntKind::Char) => true,
        Some(IntKind::UChar) => true,
        Some(IntKind::Int) => true,
        _ => false,
    }
}

/// The expression of a set of the slot.
pub fn set_value(slot: u32, e: &Expression) -> Option<&Expression>
    ensures { option_map expression_tree (option_copied result) ≡ the_set_value slot (expression_at e.now) }
{
    match &e.node {
        Node::Assign(place, value) => value_of(slot, place, value.get()),
        _ => None,
    }
}

fn value_of<'a>(slot: u32, place: &Place, value: &'a Expression) -> Option<&'a Expression>
    ensures { option_map expression_tree (option_copied result) ≡ value_for slot (place_tree place.now) (expression_tree value.now) }
{
    if !is_it(slot, place_slot(place)) {
        return None;
    }
    if !is_narrow(value.kind) {
        return None;
    }
    if names(slot, value) {
        return None;
    }
    Some(value)
}
