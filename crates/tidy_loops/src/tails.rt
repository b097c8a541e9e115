//! How a list at a tail is rewritten for a slot. The caller says how often the list names the slot at most, so this
//! begins at the end of each list, and stops where no mention can be left.

ghost use Rattle.std.specs.Prelude.{ℕ, ◌≡◌, ◌≤◌, ◌<◌, ◌+◌, ◌&&◌, leb, length, drop, is_some, IfOk, OnOk};
ghost use Rattle.std.specs.Option.{option_map_or};
ghost use Rattle.c_tree.specs.ExpressionTrees.{expression_tree};
ghost use Rattle.c_tree.specs.Trees.{NoSection, trees_of, sections_of};
ghost use Rattle.c_tree.specs.Views.{tree_at, before};
ghost use Rattle.tidy_laws.specs.Tails.{is_end};
ghost use Rattle.tidy_laws.specs.Changes.{leaving as the_leaving, tailed as the_tailed, inner_sections};
ghost use Rattle.tidy_slots.specs.Counts.{one_if, list_count, item_count, sections_count};
ghost use Rattle.tidy_loops.specs.Exits.{jump_of, left_at, exits_in, checks_within};
ghost use Rattle.tidy_loops.specs.Remaining.{exits_within, item_exits};
ghost use Rattle.tidy_loops.specs.Rewritten.{list_rewritten, each_rewritten, item_rewritten, sets_of};

use crate::exits::{Exit, jump};
use crate::forms::{is_check, is_last, is_number, set_value};
use crate::ways::{checks_among, give_ways};
use c_copies::copy_expression;
use c_tree::{Expression, Item, Section, Test};
use c_types::{List, Memory};
use std::alloc::Global;
use std::mem;

/// What a set of this value becomes: the jump, or an `if` with the value as its test.
fn leaving(alloc: Global, exit: Exit, value: &Expression) -> Result<Item, Memory>
    ensures { IfOk result (λ it. tree_at it ≡ the_leaving (jump_of exit) (expression_tree value.now)) }
{
    if is_number(1, value) {
        return Ok(jump(exit));
    }
    let mut list = List::new(alloc);
    list.push(jump(exit))?;
    let value = copy_expression(alloc, value)?;
    Ok(Item::If(Test::Source(value), list, List::new(alloc)))
}

/// What a set becomes, and none of any other item.
fn left_by(alloc: Global, slot: u32, exit: Exit, item: &Item) -> Result<Option<Item>, Memory>
    ensures made { IfOk result (λ it. option_map_or tree_at it (tree_at item.now) ≡ left_at slot (jump_of exit) (tree_at item.now)) }
    ensures told { IfOk result (λ it. one_if (is_some it) ≡ sets_of slot (tree_at item.now)) }
{
    match item {
        Item::Evaluate(e) => match set_value(slot, e) {
            Some(value) => Ok(Some(leaving(alloc, exit, value)?)),
            None => Ok(None),
        },
        _ => Ok(None),
    }
}

/// Makes a set what it becomes, and counts it down. Any other item stays as it is.
fn leave(alloc: Global, slot: u32, exit: Exit, item: &mut Item, left: u64) -> Result<u64, Memory>
    requires { item_count slot (tree_at item.old) ≤ left }
    ensures made { OnOk result (tree_at item.new ≡ left_at slot (jump_of exit) (tree_at item.old)) }
    ensures left { IfOk result (λ n. n + sets_of slot (tree_at item.old) ≡ left) }
{
    match left_by(alloc, slot, exit, item)? {
        Some(made) => {
            drop(mem::replace(item, made));
            Ok(left - 1)
        }
        None => Ok(left),
    }
}

/// One less where it holds.
fn fewer(holds: bool, left: u64) -> u64
    requires { one_if holds ≤ left }
    ensures { result + one_if holds ≡ left }
{
    if holds { left - 1 } else { left }
}

/// The place from which on the items of the list are at a tail. There is none in a list that is at none.
fn first_at_tail(slot: u32, tail: bool, items: &[Item]) -> usize
    ensures { (at : ℕ) → at < length items.now → leb result at ≡ (tail && is_end slot (trees_of (drop (at + 1) items.now))) }
{
    let length = items.len();
    if !tail || length == 0 {
        return length;
    }
    if length == 1 {
        return 0;
    }
    if is_last(slot, items, length - 2) {
        return length - 2;
    }
    length - 1
}

/// Makes each set at a tail of a list at a tail the jump, and each check give way to its list; answers how many
/// mentions may still be left. Items that stay are not moved where no item of their list is a check. After `Memory` the
/// list is given up.
pub fn tailed(
    alloc: Global,
    slot: u32,
    exit: Exit,
    list: &mut List<Item>,
    left: u64,
) -> Result<u64, Memory>
    requires { list_count slot (trees_of list.old) ≤ left }
    ensures made { OnOk result (trees_of list.new ≡ the_tailed slot (jump_of exit) (trees_of list.old)) }
    ensures left { IfOk result (λ n. n + exits_in slot (trees_of list.old) ≡ left) }
{
    rewrite_list(alloc, slot, exit, true, list, left)
}

/// Makes exits of the sets of the slot in a list that may be at no tail. What it takes away from the number is no more than
/// the list names the slot, so the number bounds the mentions before it too.
#[cycle(rewrite)]
fn rewrite_list(
    alloc: Global,
    slot: u32,
    exit: Exit,
    tail: bool,
    list: &mut List<Item>,
    left: u64,
) -> Result<u64, Memory>
    requires { list_count slot (trees_of list.old) ≤ left }
    ensures made { OnOk result (trees_of list.new ≡ list_rewritten tail slot (jump_of exit) (trees_of list.old)) }
    ensures left { IfOk result (λ n. n + exits_within tail slot (trees_of list.old) ≡ left) }
    ensures behind { IfOk result (λ n. left ≤ n + list_count slot (trees_of list.old)) }
{
    if left == 0 {
        return Ok(0);
    }
    let checks = checks_among(alloc, slot, list.as_slice())?;
    let still = rewrite_items(alloc, slot, exit, tail, list.as_mut_slice(), left)?;
    give_ways(alloc, &checks, list)?;
    Ok(still)
}

/// Which items are at a tail is asked before any of them is rewritten.
#[cycle(rewrite)]
fn rewrite_items(
    alloc: Global,
    slot: u32,
    exit: Exit,
    tail: bool,
    items: &mut [Item],
    left: u64,
) -> Result<u64, Memory>
    requires { list_count slot (trees_of items.old) ≤ left }
    ensures as_long { length items.new ≡ length items.old }
    ensures made { OnOk result (trees_of items.new ≡ each_rewritten tail slot (jump_of exit) (trees_of items.old)) }
    ensures left { IfOk result (λ n. n + exits_within tail slot (trees_of items.old) ≡ left) }
{
    let first = first_at_tail(slot, tail, items);
    let mut still = left;
    let mut ahead = items.len();
    'items: while ahead > 0 {
        if still == 0 {
            return Ok(0);
        }
        let at = ahead - 1;
        still = rewrite_item(alloc, slot, exit, first <= at, &mut items[at], still)?;
        ahead = at;
    }
    Ok(still)
}

#[cycle(rewrite)]
fn rewrite_item(
    alloc: Global,
    slot: u32,
    exit: Exit,
    tail: bool,
    item: &mut Item,
    left: u64,
) -> Result<u64, Memory>
    requires { item_count slot (tree_at item.old) ≤ left }
    ensures made { OnOk result (tree_at item.new ≡ item_rewritten tail slot (jump_of exit) (tree_at item.old)) }
    ensures left { IfOk result (λ n. n + item_exits tail slot (tree_at item.old) ≡ left) }
{
    let check = is_check(slot, item);
    match item {
        Item::Evaluate(_) => {
            if tail {
                leave(alloc, slot, exit, item, left)
            } else {
                Ok(left)
            }
        }
        Item::If(_, a, b) => {
            let still = fewer(check, left);
            let still = rewrite_list(alloc, slot, exit, tail, b, still)?;
            rewrite_list(alloc, slot, exit, tail, a, still)
        }
        Item::While(_, a) => rewrite_list(alloc, slot, exit, false, a, left),
        Item::Do(a, _) => rewrite_list(alloc, slot, exit, false, a, left),
        Item::For(_, _, _, a) => rewrite_list(alloc, slot, exit, false, a, left),
        Item::Switch(_, sections) => rewrite_switch(alloc, slot, exit, sections, left),
        Item::Block(a) => rewrite_list(alloc, slot, exit, false, a, left),
        // No other item holds a list.
        _ => Ok(left),
    }
}

#[cycle(rewrite)]
fn rewrite_switch(
    alloc: Global,
    slot: u32,
    exit: Exit,
    sections: &mut List<Section>,
    left: u64,
) -> Result<u64, Memory>
    requires { sections_count slot (sections_of sections.old) ≤ left }
    ensures made { OnOk result (sections_of sections.new ≡ inner_sections slot (sections_of sections.old)) }
    ensures left { IfOk result (λ n. n + checks_within slot (sections_of sections.old) ≡ left) }
{
    rewrite_sections(alloc, slot, exit, sections.as_mut_slice(), left)
}

#[cycle(rewrite)]
fn rewrite_sections(
    alloc: Global,
    slot: u32,
    exit: Exit,
    sections: &mut [Section],
    left: u64,
) -> Result<u64, Memory>
    requires { sections_count slot (sections_of sections.old) ≤ left }
    ensures as_long { length sections.new ≡ length sections.old }
    ensures made { OnOk result (sections_of sections.new ≡ inner_sections slot (sections_of sections.old)) }
    ensures left { IfOk result (λ n. n + checks_within slot (sections_of sections.old) ≡ left) }
{
    let mut still = left;
    let mut ahead = sections.len();
    'sections: while ahead > 0 {
        if still == 0 {
            return Ok(0);
        }
        let at = ahead - 1;
        still = rewrite_section(alloc, slot, exit, &mut sections[at], still)?;
        ahead = at;
    }
    Ok(still)
}

#[cycle(rewrite)]
fn rewrite_section(
    alloc: Global,
    slot: u32,
    exit: Exit,
    section: &mut Section,
    left: u64,
) -> Result<u64, Memory>
    requires { sections_count slot (before section.old NoSection) ≤ left }
    ensures made { OnOk result (before section.new NoSection ≡ inner_sections slot (before section.old NoSection)) }
    ensures left { IfOk result (λ n. n + checks_within slot (before section.old NoSection) ≡ left) }
{
    rewrite_list(alloc, slot, exit, false, &mut section.list, left)
}
