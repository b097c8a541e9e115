//! The slot of the change at a loop, in a body that names it outside the loop too, where it declares it.

ghost use Rattle.std.specs.Prelude.{◌≡◌, ◌+◌, ◌<◌, ◌≤◌, ◌&&◌, ◌⊎◌, ℕ, true, eqb, Option, IfOk};
ghost use Rattle.c_tree.specs.TestTrees.{test_tree};
ghost use Rattle.c_tree.specs.Trees.{trees_of};
ghost use Rattle.c_tree.specs.Views.{tree_at};
ghost use Rattle.tidy_laws.specs.Changes.{are_low as the_are_low};
ghost use Rattle.tidy_slots.specs.Counts.{one_if, list_count, test_count};
ghost use Rattle.tidy_loops.specs.Views.{is_it as the_is_it};
ghost use Rattle.tidy_loops.specs.Exits.{exits_in};
ghost use Rattle.tidy_loops.specs.Remaining.{IsApart};
ghost use Rattle.tidy_loops.specs.Slots.{count_in, allowed, breaks as the_breaks, continues as the_continues, stop_slot as the_stop_slot, first_reset as the_first_reset, last_reset, but_last, break_slot as the_break_slot, continue_slot as the_continue_slot};

use crate::counts::count_of;
use crate::forms::is_it;
use crate::levels::items_are_low;
use crate::reading::{first_reset, split_last, stop_slot};
use crate::remaining::are_exits;
use c_tree::{Item, Test};
use c_types::{List, Memory};

/// Whether a list at a tail names the slot in exits alone, which are all its mentions but so many others, and its sets
/// stand no deeper than they may.
fn are_all(
    slot: u32,
    level: u32,
    items: &[Item],
    mentions: u64,
    others: u64,
) -> Result<bool, Memory>
    requires some { 0 < others }
    requires outside { (mentions ≡ 0) ⊎ (list_count slot (trees_of items.now) + others ≤ mentions) }
    ensures { IfOk result (λ it. it ≡ (the_are_low slot level (trees_of items.now) && eqb mentions (others + exits_in slot (trees_of items.now)))) }
{
    let Some(left) = mentions.checked_sub(others) else {
        return Ok(false);
    };
    if !are_exits(slot, items, left) {
        return Ok(false);
    }
    if left == 0 {
        return Ok(true);
    }
    items_are_low(slot, level, items)
}

fn breaks(
    counts: &List<u64>,
    level: u32,
    list: &List<Item>,
    rest: &[Item],
    slot: u32,
) -> Result<bool, Memory>
    requires { the_is_it slot (the_first_reset (trees_of rest.now)) ≡ true → (count_in counts.now slot ≡ 0) ⊎ (list_count slot (trees_of list.now) + 3 ≤ count_in counts.now slot) }
    ensures { IfOk result (λ it. it ≡ the_breaks (count_in counts.now) level (trees_of list.now) (trees_of rest.now) slot) }
{
    if !is_it(slot, first_reset(rest)) {
        return Ok(false);
    }
    are_all(slot, level, list.as_slice(), count_of(counts, slot), 3)
}

fn break_in(
    counts: &List<u64>,
    level: u32,
    test: &Test,
    list: &List<Item>,
    rest: &[Item],
) -> Result<Option<u32>, Memory>
    requires { (g : ℕ) → (count_in counts.now g ≡ 0) ⊎ (test_count g (test_tree test.now) + list_count g (trees_of list.now) + one_if (the_is_it g (the_first_reset (trees_of rest.now))) < count_in counts.now g) }
    ensures { IfOk result (λ it. it ≡ allowed (the_breaks (count_in counts.now) level (trees_of list.now) (trees_of rest.now)) (the_stop_slot (test_tree test.now))) }
{
    match stop_slot(test) {
        Some(slot) => {
            if breaks(counts, level, list, rest, slot)? {
                Ok(Some(slot))
            } else {
                Ok(None)
            }
        }
        None => Ok(None),
    }
}

/// The slot of the change by `break` at an item before these, if it is a loop whose body stands at this level and that
/// allows one. `Memory` where no `u32` numbers the levels.
pub fn break_slot(
    counts: &List<u64>,
    level: u32,
    item: &Item,
    rest: &[Item],
) -> Result<Option<u32>, Memory>
    requires { IsApart (count_in counts.now) (tree_at item.now) (trees_of rest.now) }
    ensures { IfOk result (λ it. it ≡ the_break_slot (count_in counts.now) level (tree_at item.now) (trees_of rest.now)) }
{
    match item {
        Item::While(test, list) => break_in(counts, level, test, list, rest),
        Item::Do(list, test) => break_in(counts, level, test, list, rest),
        _ => Ok(None),
    }
}

fn continue_before(
    counts: &List<u64>,
    level: u32,
    front: &[Item],
    reset: Option<u32>,
) -> Result<Option<u32>, Memory>
    requires { (g : ℕ) → reset ≡ Option.Some g → (count_in counts.now g ≡ 0) ⊎ (list_count g (trees_of front.now) + 2 ≤ count_in counts.now g) }
    ensures { IfOk result (λ it. it ≡ allowed (the_continues (count_in counts.now) level (trees_of front.now)) reset) }
{
    match reset {
        Some(slot) => {
            if are_all(slot, level, front, count_of(counts, slot), 2)? {
                Ok(Some(slot))
            } else {
                Ok(None)
            }
        }
        None => Ok(None),
    }
}

fn continue_in(counts: &List<u64>, level: u32, list: &List<Item>) -> Result<Option<u32>, Memory>
    requires { (g : ℕ) → (count_in counts.now g ≡ 0) ⊎ (list_count g (trees_of list.now) < count_in counts.now g) }
    ensures { IfOk result (λ it. it ≡ allowed (the_continues (count_in counts.now) level (but_last (trees_of list.now))) (last_reset (trees_of list.now))) }
{
    let (front, back) = split_last(list);
    continue_before(counts, level, front, first_reset(back))
}

/// The slot of the change by `continue` at an item before these, if it is a loop whose body stands at this level and
/// that allows one. `Memory` where no `u32` numbers the levels.
pub fn continue_slot(
    counts: &List<u64>,
    level: u32,
    item: &Item,
    rest: &[Item],
) -> Result<Option<u32>, Memory>
    requires { IsApart (count_in counts.now) (tree_at item.now) (trees_of rest.now) }
    ensures { IfOk result (λ it. it ≡ the_continue_slot (count_in counts.now) level (tree_at item.now)) }
{
    match item {
        Item::While(_, list) => continue_in(counts, level, list),
        Item::Do(list, _) => continue_in(counts, level, list),
        Item::For(_, _, _, list) => continue_in(counts, level, list),
        _ => Ok(None),
    }
}
