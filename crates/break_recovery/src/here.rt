//! The change at a loop: which one applies, and what it makes.

ghost use Rattle.std.specs.Prelude.{◌≡◌, ◌<◌, length, take, drop, slice_get, Some, None, IfOk, OnOk};
ghost use Rattle.c_tree.specs.Trees.{trees_of, join};
ghost use Rattle.c_tree.specs.Views.{tree_at};
ghost use Rattle.jump_meaning.specs.Code.{FunctionTree};
ghost use Rattle.tidy_loops.specs.Slots.{Tells, count_in};
ghost use Rattle.break_recovery.specs.Steady.{AreAlike, IsSaid};
ghost use Rattle.break_recovery.specs.Next.{put, next_here, changed_to};
ghost use Rattle.break_recovery.specs.Loops.{continue_there, change_there, change_first, loop_after, list_after, slot_of as the_slot_of, keeps_next as the_keeps_next};
ghost use Rattle.break_recovery.specs.Within.{IsWithin};
ghost use Rattle.break_recovery.specs.Exits.{exits_of as the_exits_of, HoldsAtMost};
ghost use Rattle.break_recovery.specs.Steady.{item_turned as the_item_turned};
ghost use Rattle.c_tree.specs.declared.tree.Item.{Item};
ghost use Rattle.tidy_loops.specs.Remaining.{IsApart};

use crate::held::{Holds, are_held_there};
use crate::steady::{Turned, item_turned, no_slot};
use c_tree::Item;
use c_types::{List, Memory};
use std::alloc::Global;
use tidy_loops::{break_slot, broken, continue_slot, continued, count_of};

/// A change at a loop, with its slot.
#[derive(Clone, Copy)]
pub enum Change {
    /// By `break`: the item behind the loop goes.
    Break(u32),
    /// By `continue`.
    Continue(u32),
}

/// The slot of the change.
pub fn slot_of(change: Change) -> u32
    ensures { result ≡ the_slot_of change }
{
    match change {
        Change::Break(slot) | Change::Continue(slot) => slot,
    }
}

/// Whether the item behind the loop stays.
pub fn keeps_next(change: Change) -> bool
    ensures { result ≡ the_keeps_next change }
{
    matches!(change, Change::Continue(_))
}

fn change_by_continue(
    counts: &List<u64>,
    level: u32,
    item: &Item,
    rest: &[Item],
) -> Result<Option<Change>, Memory>
    requires { IsApart (count_in counts.now) (tree_at item.now) (trees_of rest.now) }
    ensures { IfOk result (λ it. it ≡ continue_there (count_in counts.now) level (tree_at item.now)) }
{
    match continue_slot(counts, level, item, rest)? {
        Some(slot) => Ok(Some(Change::Continue(slot))),
        None => Ok(None),
    }
}

/// The change at an item before these, if it is a loop whose body stands at this level and that allows one.
/// Of these it reads the first alone.
pub fn change_of(
    counts: &List<u64>,
    level: u32,
    item: &Item,
    rest: &[Item],
) -> Result<Option<Change>, Memory>
    requires { IsApart (count_in counts.now) (tree_at item.now) (trees_of rest.now) }
    ensures { IfOk result (λ it. it ≡ change_there (count_in counts.now) level (tree_at item.now) (trees_of rest.now)) }
{
    match break_slot(counts, level, item, rest)? {
        Some(slot) => Ok(Some(Change::Break(slot))),
        None => change_by_continue(counts, level, item, rest),
    }
}

/// How many exits of its slot the loop of a change holds, by the counts.
pub fn exits_of(counts: &List<u64>, change: Change) -> u64
    ensures { result ≡ the_exits_of (count_in counts.now) change }
{
    match change {
        Change::Break(slot) => count_of(counts, slot).saturating_sub(3),
        Change::Continue(slot) => count_of(counts, slot).saturating_sub(2),
    }
}

/// The other slots of which the change of a loop with so many exits makes or takes checks.
pub fn turned_by(alloc: Global, change: Change, exits: u64, item: &Item) -> Result<Turned, Memory>
    requires { HoldsAtMost change exits (tree_at item.now) }
    ensures { IfOk result (λ it. it ≡ the_item_turned (the_slot_of change) (tree_at item.now)) }
{
    if exits == 0 {
        return Ok(no_slot(alloc));
    }
    let mut turned = no_slot(alloc);
    item_turned(slot_of(change), item, &mut turned)?;
    Ok(turned)
}

/// Makes the change at the loop, which holds so many exits. After `Memory` the loop is given up.
pub fn changed_loop(
    alloc: Global,
    change: Change,
    exits: u64,
    item: &mut Item,
) -> Result<(), Memory>
    requires { HoldsAtMost change exits (tree_at item.old) }
    ensures { OnOk result (tree_at item.new ≡ loop_after change (tree_at item.old)) }
{
    match change {
        Change::Break(slot) => broken(alloc, slot, item, exits),
        Change::Continue(slot) => continued(alloc, slot, item, exits),
    }
}

fn find(
    counts: &List<u64>,
    level: u32,
    list: &List<Item>,
    at: usize,
) -> Result<Option<Change>, Memory>
    requires place { at < length list.now }
    requires within { IsWithin (count_in counts.now) (trees_of list.now) }
    ensures { IfOk result (λ it. it ≡ change_first (count_in counts.now) level (trees_of (drop at list.now))) }
{
    let items = list.as_slice();
    let (_, rest) = items.split_at(at + 1);
    change_of(counts, level, &items[at], rest)
}

fn make(
    alloc: Global,
    change: Change,
    exits: u64,
    list: &mut List<Item>,
    at: usize,
) -> Result<(), Memory>
    requires place { at < length list.old }
    requires exits { (x : Item) → slice_get list.old at ≡ Some x → HoldsAtMost change exits (tree_at x) }
    ensures { OnOk result (trees_of list.new ≡ join (trees_of (take at list.old)) (list_after change (trees_of (drop at list.old)))) }
{
    changed_loop(alloc, change, exits, list.at_mut(at))?;
    if keeps_next(change) {
        return Ok(());
    }
    let count = list.len();
    if at + 1 < count {
        drop(list.remove(at + 1));
    }
    Ok(())
}

/// Makes the change at a loop whose body stands at this level, if one applies, and answers its slot, and whether
/// that is sure to allow no loop round it a change. Else the list stays.
pub fn change_here(
    alloc: Global,
    counts: &List<u64>,
    level: u32,
    list: &mut List<Item>,
    at: usize,
    sure: &mut bool,
    holds: &mut Holds,
) -> Result<Option<u32>, Memory>
    requires place { at < length list.old }
    requires within { IsWithin (count_in counts.now) (trees_of list.old) }
    ensures made { IfOk result (λ it. (f : FunctionTree) → Tells counts.now f → changed_to it (trees_of list.new) ≡ put (join (trees_of (take at list.old))) (next_here f level (trees_of (drop at list.old)))) }
    ensures kept { IfOk result (λ it. it ≡ None → (list.new ≡ list.old) × (sure.new ≡ sure.old)) }
    ensures alike { IfOk result (λ it. IsSaid it sure.new (λ g. AreAlike counts.now g (trees_of list.old) (trees_of list.new))) }
{
    match find(counts, level, list, at)? {
        Some(change) => {
            let exits = exits_of(counts, change);
            let turned = turned_by(alloc, change, exits, &list.as_slice()[at])?;
            let held = are_held_there(alloc, counts, holds, &turned, list, at + 1)?;
            make(alloc, change, exits, list, at)?;
            *sure = held;
            Ok(Some(slot_of(change)))
        }
        None => Ok(None),
    }
}
