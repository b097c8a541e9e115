//! Whether all mentions of a slot in a list are exits. The list is read from its end: the reading stops at the first
//! mention that is no exit, and once no mention is left.

ghost use Rattle.std.specs.Prelude.{◌≡◌, ◌+◌, ◌<◌, ◌≤◌, ◌&&◌, not, eqb, ltb, is_some, true, cond, length, drop, option_map};
ghost use Rattle.c_tree.specs.ExpressionTrees.{expression_tree};
ghost use Rattle.c_tree.specs.TestTrees.{test_tree};
ghost use Rattle.c_tree.specs.Trees.{Nil, For, trees_of, sections_of};
ghost use Rattle.c_tree.specs.Views.{tree_at};
ghost use Rattle.tidy_laws.specs.Tails.{is_end};
ghost use Rattle.tidy_laws.specs.Mentions.{item_lacks};
ghost use Rattle.tidy_laws.specs.Changes.{set_value as the_set_value};
ghost use Rattle.tidy_slots.specs.Counts.{one_if, expression_count, test_count, list_count, item_count, sections_count};
ghost use Rattle.tidy_loops.specs.Exits.{checks_within, exits_in, exits_of};
ghost use Rattle.tidy_loops.specs.Remaining.{exits_within, item_exits, IsLeft};

use crate::forms::{is_check, is_last, set_value};
use c_tree::{Expression, Item, Section, Test};
use c_types::{Boxed, List};
use tidy_slots::{item_names, list_names, names, part_names, selector_names, test_names};

/// Whether an expression sets the slot.
fn is_set(slot: u32, e: &Expression) -> bool
    ensures { result ≡ is_some (the_set_value slot (expression_tree e.now)) }
{
    set_value(slot, e).is_some()
}

/// Whether an expression statement is an exit, where it may be at a tail.
fn is_exit(slot: u32, tail: bool, e: &Expression) -> bool
    ensures { result ≡ (tail && is_some (the_set_value slot (expression_tree e.now))) }
{
    tail && is_set(slot, e)
}

fn behind_expression(slot: u32, tail: bool, e: &Expression, left: u64) -> Option<u64>
    requires { expression_count slot (expression_tree e.now) ≤ left }
    ensures { IsLeft left (cond tail (one_if (is_some (the_set_value slot (expression_tree e.now)))) 0) (expression_count slot (expression_tree e.now)) result }
{
    if is_exit(slot, tail, e) {
        return Some(left.saturating_sub(1));
    }
    if names(slot, e) {
        return None;
    }
    Some(left)
}

/// Behind the test of an `if`, which may be a check.
fn behind_test(slot: u32, check: bool, test: &Test, left: u64) -> Option<u64>
    requires within { test_count slot (test_tree test.now) ≤ left }
    requires check { check ≡ true → test_count slot (test_tree test.now) ≡ 1 }
    ensures { IsLeft left (one_if check) (test_count slot (test_tree test.now)) result }
{
    if check {
        return Some(left.saturating_sub(1));
    }
    if test_names(slot, test) {
        return None;
    }
    Some(left)
}

/// Behind an item that holds no list.
fn behind_plain(slot: u32, item: &Item, left: u64) -> Option<u64>
    ensures { IsLeft left 0 (item_count slot (tree_at item.now)) result }
{
    if item_names(slot, item) {
        return None;
    }
    Some(left)
}

/// Whether the head of a `for` names the slot.
fn head_names(
    slot: u32,
    first: &List<Item>,
    test: &Option<Boxed<Expression>>,
    third: &Option<Boxed<Expression>>,
) -> bool
    ensures { result ≡ not (item_lacks slot (For (trees_of first.now) (option_map expression_tree test.now) (option_map expression_tree third.now) Nil)) }
{
    let first = list_names(slot, first);
    let test = part_names(slot, test);
    let third = part_names(slot, third);
    first | (test | third)
}

/// Whether an item at this place of a list is at a tail.
fn is_at_tail(slot: u32, tail: bool, items: &[Item], at: usize) -> bool
    requires { at < length items.now }
    ensures { result ≡ (tail && is_end slot (trees_of (drop (at + 1) items.now))) }
{
    tail && is_last(slot, items, at)
}

#[cycle(remaining)]
fn behind_list(slot: u32, tail: bool, list: &List<Item>, left: u64) -> Option<u64>
    requires { list_count slot (trees_of list.now) ≤ left }
    ensures { IsLeft left (exits_within tail slot (trees_of list.now)) (list_count slot (trees_of list.now)) result }
{
    behind_items(slot, tail, list.as_slice(), left)
}

/// What is left of so many mentions behind a list that has no more of them, which is read from its end. `None` where
/// one of its mentions is no exit.
#[cycle(remaining)]
fn behind_items(slot: u32, tail: bool, items: &[Item], left: u64) -> Option<u64>
    requires { list_count slot (trees_of items.now) ≤ left }
    ensures { IsLeft left (exits_within tail slot (trees_of items.now)) (list_count slot (trees_of items.now)) result }
{
    let mut now = left;
    let mut at = items.len();
    'items: while at > 0 {
        if now == 0 {
            return Some(0);
        }
        let place = at - 1;
        let last = is_at_tail(slot, tail, items, place);
        let Some(rest) = behind_item(slot, last, &items[place], now) else {
            return None;
        };
        now = rest;
        at = place;
    }
    Some(now)
}

#[cycle(remaining)]
fn behind_sections(slot: u32, sections: &[Section], left: u64) -> Option<u64>
    requires { sections_count slot (sections_of sections.now) ≤ left }
    ensures { IsLeft left (checks_within slot (sections_of sections.now)) (sections_count slot (sections_of sections.now)) result }
{
    let mut now = left;
    let mut at = sections.len();
    'sections: while at > 0 {
        if now == 0 {
            return Some(0);
        }
        let place = at - 1;
        let Some(rest) = behind_list(slot, false, &sections[place].list, now) else {
            return None;
        };
        now = rest;
        at = place;
    }
    Some(now)
}

#[cycle(remaining)]
fn behind_both(slot: u32, tail: bool, a: &List<Item>, b: &List<Item>, left: u64) -> Option<u64>
    requires { list_count slot (trees_of a.now) + list_count slot (trees_of b.now) ≤ left }
    ensures { IsLeft left (exits_within tail slot (trees_of a.now) + exits_within tail slot (trees_of b.now)) (list_count slot (trees_of a.now) + list_count slot (trees_of b.now)) result }
{
    let Some(rest) = behind_list(slot, tail, b, left) else {
        return None;
    };
    behind_list(slot, tail, a, rest)
}

#[cycle(remaining)]
fn behind_item(slot: u32, tail: bool, item: &Item, left: u64) -> Option<u64>
    requires { item_count slot (tree_at item.now) ≤ left }
    ensures { IsLeft left (item_exits tail slot (tree_at item.now)) (item_count slot (tree_at item.now)) result }
{
    match item {
        Item::Evaluate(e) => behind_expression(slot, tail, e, left),
        Item::If(test, a, b) => {
            let Some(rest) = behind_test(slot, is_check(slot, item), test, left) else {
                return None;
            };
            behind_both(slot, tail, a, b, rest)
        }
        Item::While(test, a) => {
            if test_names(slot, test) {
                return None;
            }
            behind_list(slot, false, a, left)
        }
        Item::Do(a, test) => {
            if test_names(slot, test) {
                return None;
            }
            behind_list(slot, false, a, left)
        }
        Item::For(first, test, third, a) => {
            if head_names(slot, first, test, third) {
                return None;
            }
            behind_list(slot, false, a, left)
        }
        Item::Switch(selector, sections) => {
            if selector_names(slot, selector) {
                return None;
            }
            behind_sections(slot, sections.as_slice(), left)
        }
        Item::Block(a) => behind_list(slot, false, a, left),
        _ => behind_plain(slot, item, left),
    }
}

/// Whether a list at a tail holds so many exits, where it names the slot no more often.
pub fn are_exits(slot: u32, items: &[Item], left: u64) -> bool
    requires { list_count slot (trees_of items.now) ≤ left }
    ensures { result ≡ eqb left (exits_in slot (trees_of items.now)) }
{
    match behind_items(slot, true, items, left) {
        Some(rest) => rest == 0,
        None => false,
    }
}

/// Whether an item at a tail names the slot otherwise than in exits, where it names it so often at most.
pub fn names_otherwise(slot: u32, item: &Item, most: u64) -> bool
    requires { item_count slot (tree_at item.now) ≤ most }
    ensures { result ≡ ltb (exits_of slot (tree_at item.now)) (item_count slot (tree_at item.now)) }
{
    match behind_item(slot, true, item, most) {
        Some(_) => false,
        None => true,
    }
}
