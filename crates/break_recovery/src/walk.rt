//! Changes in a row at the loops of one list, made on one walk. What such changes take out leaves a gap behind the item
//! that the walk has come to, and the gap closes at the end of the walk: the items behind it move once, and not for each
//! change.

ghost use Rattle.std.specs.Prelude.{false, ◌≡◌, suc, ◌+◌, ◌<◌, ◌≤◌, ◌++◌, ℕ, List, [], length, take, drop, slice_get, Some, None, IfOk, OnOk};
ghost use Rattle.c_tree.specs.Trees.{trees_of, join};
ghost use Rattle.tidy_loops.specs.Slots.{count_in};
ghost use Rattle.break_recovery.specs.Next.{next_list};
ghost use Rattle.break_recovery.specs.Places.{AreQuiet};
ghost use Rattle.break_recovery.specs.Loops.{change_first, list_after};
ghost use Rattle.break_recovery.specs.Steady.{AreAlike};
ghost use Rattle.break_recovery.specs.InARow.{IsRow, closed};
ghost use Rattle.break_recovery.specs.Within.{IsWithin};
ghost use Rattle.break_recovery.specs.Exits.{HoldsAtMost};
ghost use Rattle.break_recovery.specs.Held.{AreHeld, SameBehind};
ghost use Rattle.c_tree.specs.declared.tree.Item.{Item};
ghost use Rattle.c_tree.specs.Views.{tree_at};

use crate::functions::forget;
use crate::held::{Holds, are_held, forget_holds};
use crate::here::{Change, change_of, changed_loop, exits_of, keeps_next, slot_of, turned_by};
use crate::quiet::item_is_quiet;
use c_tree::Item;
use c_types::{List, Memory};
use std::alloc::Global;
use std::mem;
use tidy_loops::deeper;

/// How far a walk has come: to the item at a place, behind which a gap ends at another.
#[derive(Clone, Copy)]
pub struct Walk {
    pub at: usize,
    pub next: usize,
}

/// With fewer items than these a walk costs more than it spares: they are read again, and few move up.
const FEW: usize = 64;

/// Whether a list has few items from a place on.
pub fn are_few(list: &List<Item>, place: usize) -> bool
    ensures many { result ≡ false → place < length list.now }
    ensures bound { length list.now ≤ 4294967295 }
{
    let count = list.len();
    place >= count || count - place < FEW
}

/// Makes changes at loops of a list at this level, from a place on, as long as each is the next of the list and allows no
/// loop round it a change, and answers their slots. They count no more then. The place moves on to where the changes end.
/// Where few items are left it makes none.
pub fn change_along(
    alloc: Global,
    counts: &mut List<u64>,
    level: u32,
    list: &mut List<Item>,
    place: &mut usize,
    holds: &mut Holds,
) -> Result<List<u32>, Memory>
    requires { IsWithin (count_in counts.old) (trees_of list.old) }
    ensures { IfOk result (λ gs. IsRow (λ f. next_list f level) AreAlike (λ f. AreQuiet f (suc level)) counts.old counts.new gs place.old place.new (trees_of list.old) (trees_of list.new)) }
{
    if are_few(list, *place) {
        return Ok(List::new(alloc));
    }
    let mut walk = Walk {
        at: *place,
        next: *place + 1,
    };
    forget_holds(alloc, holds);
    let slots = walk_on(alloc, counts, level, list, &mut walk, holds)?;
    close_gap(alloc, list, walk.at, walk.next)?;
    *place = walk.at;
    Ok(slots)
}

/// Takes step after step as long as one leads on, but no more than two for each item, so that it ends.
fn walk_on(
    alloc: Global,
    counts: &mut List<u64>,
    level: u32,
    list: &mut List<Item>,
    walk: &mut Walk,
    holds: &mut Holds,
) -> Result<List<u32>, Memory>
    requires place { (walk.old.at < walk.old.next) × (walk.old.next ≤ length list.old) }
    requires within { IsWithin (count_in counts.old) (trees_of (closed walk.old.at walk.old.next list.old)) }
    requires known { AreHeld holds.old.known list.old walk.old.next }
    ensures within { OnOk result ((walk.new.at < walk.new.next) × (walk.new.next ≤ length list.new)) }
    ensures row { IfOk result (λ gs. IsRow (λ f. next_list f level) AreAlike (λ f. AreQuiet f (suc level)) counts.old counts.new gs walk.old.at walk.new.at (trees_of (closed walk.old.at walk.old.next list.old)) (trees_of (closed walk.new.at walk.new.next list.new))) }
{
    let inside = deeper(level)?;
    let mut slots = List::new(alloc);
    let mut left = 2 * list.len();
    'steps: while left > 0 {
        let leads_on = step(alloc, counts, inside, list, walk, holds, &mut slots)?;
        if !leads_on {
            return Ok(slots);
        }
        left -= 1;
    }
    Ok(slots)
}

/// Makes the change at the item that the walk has come to, or moves on to the next item. Says whether it did either.
fn step(
    alloc: Global,
    counts: &mut List<u64>,
    level: u32,
    list: &mut List<Item>,
    walk: &mut Walk,
    holds: &mut Holds,
    slots: &mut List<u32>,
) -> Result<bool, Memory>
    requires place { (walk.old.at < walk.old.next) × (walk.old.next ≤ length list.old) }
    requires within { IsWithin (count_in counts.old) (trees_of (closed walk.old.at walk.old.next list.old)) }
    requires known { AreHeld holds.old.known list.old walk.old.next }
    ensures known { OnOk result (AreHeld holds.new.known list.new walk.new.next) }
    ensures less { OnOk result (IsWithin (count_in counts.new) (trees_of (closed walk.new.at walk.new.next list.new))) }
    ensures within { OnOk result ((walk.new.at < walk.new.next) × (walk.new.next ≤ length list.new)) }
    ensures row { (n : ℕ) → level ≡ suc n → OnOk result ((gs : List ℕ) × (slots.new ≡ slots.old ++ gs) × IsRow (λ f. next_list f n) AreAlike (λ f. AreQuiet f (suc n)) counts.old counts.new gs walk.old.at walk.new.at (trees_of (closed walk.old.at walk.old.next list.old)) (trees_of (closed walk.new.at walk.new.next list.new))) }
{
    match find(counts, level, list, *walk)? {
        Some(change) => change_held(alloc, change, counts, list, walk, holds, slots),
        None => pass(counts, level, list, walk),
    }
}

/// The change at the item that the walk has come to.
fn find(
    counts: &List<u64>,
    level: u32,
    list: &List<Item>,
    walk: Walk,
) -> Result<Option<Change>, Memory>
    requires place { (walk.at < walk.next) × (walk.next ≤ length list.now) }
    requires within { IsWithin (count_in counts.now) (trees_of (closed walk.at walk.next list.now)) }
    ensures { IfOk result (λ it. it ≡ change_first (count_in counts.now) level (trees_of (drop walk.at (closed walk.at walk.next list.now)))) }
{
    let items = list.as_slice();
    let at = walk.at;
    let (_, rest) = items.split_at(walk.next);
    change_of(counts, level, &items[at], rest)
}

/// Makes this change, and says so, where all slots are held that it turns. Else it makes none.
fn change_held(
    alloc: Global,
    change: Change,
    counts: &mut List<u64>,
    list: &mut List<Item>,
    walk: &mut Walk,
    holds: &mut Holds,
    slots: &mut List<u32>,
) -> Result<bool, Memory>
    requires place { (walk.old.at < walk.old.next) × (walk.old.next ≤ length list.old) }
    requires known { AreHeld holds.old.known list.old walk.old.next }
    requires found { (n : ℕ) × change_first (count_in counts.old) n (trees_of (drop walk.old.at (closed walk.old.at walk.old.next list.old))) ≡ Some change }
    requires within { IsWithin (count_in counts.old) (trees_of (closed walk.old.at walk.old.next list.old)) }
    ensures known { OnOk result (AreHeld holds.new.known list.new walk.new.next) }
    ensures less { OnOk result (IsWithin (count_in counts.new) (trees_of (closed walk.new.at walk.new.next list.new))) }
    ensures within { OnOk result ((walk.new.at < walk.new.next) × (walk.new.next ≤ length list.new)) }
    ensures row { (n : ℕ) → Some change ≡ change_first (count_in counts.old) (suc n) (trees_of (drop walk.old.at (closed walk.old.at walk.old.next list.old))) → OnOk result ((gs : List ℕ) × (slots.new ≡ slots.old ++ gs) × IsRow (λ f. next_list f n) AreAlike (λ f. AreQuiet f (suc n)) counts.old counts.new gs walk.old.at walk.new.at (trees_of (closed walk.old.at walk.old.next list.old)) (trees_of (closed walk.new.at walk.new.next list.new))) }
{
    let slot = slot_of(change);
    let at = walk.at;
    let exits = exits_of(counts, change);
    let turned = turned_by(alloc, change, exits, &list.as_slice()[at])?;
    let held = are_held(counts, holds, &turned, list, walk.next)?;
    if !held {
        return Ok(false);
    }
    make(alloc, change, exits, list, walk)?;
    forget(slot, counts);
    slots.push(slot)?;
    Ok(true)
}

/// Makes this change: what it takes out comes into the gap.
fn make(
    alloc: Global,
    change: Change,
    exits: u64,
    list: &mut List<Item>,
    walk: &mut Walk,
) -> Result<(), Memory>
    requires place { (walk.old.at < walk.old.next) × (walk.old.next ≤ length list.old) }
    requires exits { (x : Item) → slice_get list.old walk.old.at ≡ Some x → HoldsAtMost change exits (tree_at x) }
    ensures within { OnOk result ((walk.new.at < walk.new.next) × (walk.new.next ≤ length list.new)) }
    ensures place { OnOk result (walk.new.at ≡ walk.old.at) }
    ensures behind { OnOk result ((walk.old.next ≤ walk.new.next) × SameBehind walk.new.next list.old list.new) }
    ensures made { OnOk result (trees_of (closed walk.new.at walk.new.next list.new) ≡ join (trees_of (take walk.old.at (closed walk.old.at walk.old.next list.old))) (list_after change (trees_of (drop walk.old.at (closed walk.old.at walk.old.next list.old))))) }
{
    changed_loop(alloc, change, exits, list.at_mut(walk.at))?;
    if keeps_next(change) {
        return Ok(());
    }
    if walk.next < list.len() {
        walk.next += 1;
    }
    Ok(())
}

/// Moves on to the next item, if there is one and no change applies in this one, and says whether it did.
fn pass(
    counts: &List<u64>,
    level: u32,
    list: &mut List<Item>,
    walk: &mut Walk,
) -> Result<bool, Memory>
    requires place { (walk.old.at < walk.old.next) × (walk.old.next ≤ length list.old) }
    requires within { IsWithin (count_in counts.now) (trees_of (closed walk.old.at walk.old.next list.old)) }
    ensures behind { OnOk result ((walk.old.next ≤ walk.new.next) × SameBehind walk.new.next list.old list.new) }
    ensures less { OnOk result (IsWithin (count_in counts.now) (trees_of (closed walk.new.at walk.new.next list.new))) }
    ensures within { OnOk result ((walk.new.at < walk.new.next) × (walk.new.next ≤ length list.new)) }
    ensures row { (n : ℕ) → level ≡ suc n → None ≡ change_first (count_in counts.now) level (trees_of (drop walk.old.at (closed walk.old.at walk.old.next list.old))) → OnOk result (IsRow (λ f. next_list f n) AreAlike (λ f. AreQuiet f (suc n)) counts.now counts.now [] walk.old.at walk.new.at (trees_of (closed walk.old.at walk.old.next list.old)) (trees_of (closed walk.new.at walk.new.next list.new))) }
{
    if walk.next >= list.len() {
        return Ok(false);
    }
    let at = walk.at;
    let quiet = item_is_quiet(counts, level, &list.as_slice()[at])?;
    if !quiet {
        return Ok(false);
    }
    move_on(list, walk);
    Ok(true)
}

/// Moves on to the next item, which comes in front of the gap.
fn move_on(list: &mut List<Item>, walk: &mut Walk)
    requires bound { length list.old ≤ 4294967295 }
    requires within { (walk.old.at < walk.old.next) × (walk.old.next < length list.old) }
    ensures within { (walk.new.at < walk.new.next) × (walk.new.next ≤ length list.new) }
    ensures place { walk.new.at ≡ walk.old.at + 1 }
    ensures behind { (walk.old.next ≤ walk.new.next) × SameBehind walk.new.next list.old list.new }
    ensures same { (closed walk.new.at walk.new.next list.new) ≡ (closed walk.old.at walk.old.next list.old) }
{
    let item = mem::replace(list.at_mut(walk.next), Item::Break);
    list.set(walk.at + 1, item);
    walk.at += 1;
    walk.next += 1;
}

/// Takes out what stands behind one place and before another.
fn close_gap(alloc: Global, list: &mut List<Item>, at: usize, next: usize) -> Result<(), Memory>
    requires { (at < next) × (next ≤ length list.old) }
    ensures { OnOk result (list.new ≡ closed at next list.old) }
{
    close(alloc, list, at + 1, next)
}

/// Takes out what stands from one place up to another.
fn close(alloc: Global, list: &mut List<Item>, from: usize, to: usize) -> Result<(), Memory>
    requires { (from ≤ to) × (to ≤ length list.old) }
    ensures { OnOk result (list.new ≡ take from list.old ++ drop to list.old) }
{
    if from == to {
        return Ok(());
    }
    let mut items = list.take(alloc);
    let mut behind = items.split_off(to)?;
    items.truncate(from);
    items.append(&mut behind)?;
    list.put(items);
    Ok(())
}
