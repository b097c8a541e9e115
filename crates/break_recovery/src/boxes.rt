//! Changes in the outermost list of a function. Its items are boxed meanwhile, so that those behind an item that is
//! taken out move by 8 bytes each.

ghost use Rattle.std.specs.Prelude.{◌≡◌, ◌<◌, ℕ, length, take, drop, reverse, slice_get, Some, None, IfOk, OnOk};
ghost use Rattle.c_tree.specs.Trees.{trees_of, join};
ghost use Rattle.jump_meaning.specs.Code.{FunctionTree};
ghost use Rattle.tidy_laws.specs.Changes.{undeclared};
ghost use Rattle.tidy_loops.specs.Slots.{Tells, count_in};
ghost use Rattle.break_recovery.specs.Next.{put, next_at, next_here, changed_to};
ghost use Rattle.break_recovery.specs.Places.{removed_at};
ghost use Rattle.break_recovery.specs.Ways.{IsWayAt, LeadsOn};
ghost use Rattle.break_recovery.specs.Loops.{change_first, list_after};
ghost use Rattle.break_recovery.specs.Within.{AreApart};
ghost use Rattle.break_recovery.specs.Exits.{HoldsAtMost};
ghost use Rattle.c_tree.specs.declared.tree.Item.{Item};
ghost use Rattle.c_tree.specs.Views.{tree_at};

use crate::held::Holds;
use crate::here::{Change, change_of, changed_loop, exits_of, keeps_next, slot_of};
use crate::search::{change_item, was_asked};
use c_tree::Item;
use c_types::{Boxed, List, Memory};
use std::alloc::Global;
use std::slice;
use tidy_loops::is_declaration;

/// The items in boxes. After `Memory` they are given up.
pub fn boxed(alloc: Global, items: List<Item>) -> Result<List<Boxed<Item>>, Memory>
    ensures { IfOk result (λ it. it ≡ items) }
{
    let mut boxes = List::from_vec(Vec::with_capacity(alloc, items.len())?);
    for item in items.into_vec() {
        boxes.push(Boxed::new(alloc, item)?)?;
    }
    Ok(boxes)
}

/// The items out of their boxes. After `Memory` they are given up.
pub fn unboxed(alloc: Global, boxes: List<Boxed<Item>>) -> Result<List<Item>, Memory>
    ensures { IfOk result (λ it. it ≡ boxes) }
{
    let mut items = List::from_vec(Vec::with_capacity(alloc, boxes.len())?);
    for item in boxes.into_vec() {
        items.push(item.into_inner())?;
    }
    Ok(items)
}

fn find(
    counts: &List<u64>,
    level: u32,
    list: &List<Boxed<Item>>,
    at: usize,
) -> Result<Option<Change>, Memory>
    requires place { at < length list.now }
    requires within { AreApart (count_in counts.now) (trees_of list.now) }
    ensures { IfOk result (λ it. it ≡ change_first (count_in counts.now) level (trees_of (drop at list.now))) }
{
    let items = list.as_slice();
    match list.get(at + 1) {
        Some(next) => change_of(counts, level, items[at].get(), slice::from_ref(next.get())),
        None => change_of(counts, level, items[at].get(), &[]),
    }
}

fn make(
    alloc: Global,
    change: Change,
    exits: u64,
    list: &mut List<Boxed<Item>>,
    at: usize,
) -> Result<(), Memory>
    requires place { at < length list.old }
    requires exits { (x : Item) → slice_get list.old at ≡ Some x → HoldsAtMost change exits (tree_at x) }
    ensures { OnOk result (trees_of list.new ≡ join (trees_of (take at list.old)) (list_after change (trees_of (drop at list.old)))) }
{
    changed_loop(alloc, change, exits, list.at_mut(at).get_mut())?;
    if keeps_next(change) {
        return Ok(());
    }
    let count = list.len();
    if at + 1 < count {
        drop(list.remove(at + 1));
    }
    Ok(())
}

fn change_here(
    alloc: Global,
    counts: &List<u64>,
    level: u32,
    list: &mut List<Boxed<Item>>,
    at: usize,
) -> Result<Option<u32>, Memory>
    requires place { at < length list.old }
    requires within { AreApart (count_in counts.now) (trees_of list.old) }
    ensures made { IfOk result (λ it. (f : FunctionTree) → Tells counts.now f → changed_to it (trees_of list.new) ≡ put (join (trees_of (take at list.old))) (next_here f level (trees_of (drop at list.old)))) }
    ensures kept { IfOk result (λ it. it ≡ None → list.new ≡ list.old) }
{
    match find(counts, level, list, at)? {
        Some(change) => {
            make(alloc, change, exits_of(counts, change), list, at)?;
            Ok(Some(slot_of(change)))
        }
        None => Ok(None),
    }
}

/// Makes the change at an item or in it, if one applies, and answers its slot. Else the list stays. The counts are
/// those of the function.
pub fn change_at(
    alloc: Global,
    counts: &List<u64>,
    level: u32,
    list: &mut List<Boxed<Item>>,
    at: usize,
    way: &mut List<usize>,
    sure: &mut bool,
    holds: &mut Holds,
) -> Result<Option<u32>, Memory>
    requires place { at < length list.old }
    requires within { AreApart (count_in counts.now) (trees_of list.old) }
    ensures made { IfOk result (λ it. (f : FunctionTree) → Tells counts.now f → IsWayAt sure.old f level (reverse way.old) (trees_of (drop at list.old)) → changed_to it (trees_of list.new) ≡ put (join (trees_of (take at list.old))) (next_at f level (trees_of (drop at list.old)))) }
    ensures kept { IfOk result (λ it. it ≡ None → list.new ≡ list.old) }
    ensures way { IfOk result (λ it. LeadsOn counts.now it (λ g. g) (λ f. IsWayAt sure.old f level (reverse way.old) (trees_of (drop at list.old))) (λ (g : ℕ) h. IsWayAt sure.new h level (reverse way.new) (trees_of (drop at list.new)))) }
{
    if was_asked(way, *sure) {
        return change_within(alloc, counts, level, list, at, way, sure, holds);
    }
    change_asked(alloc, counts, level, list, at, way, sure, holds)
}

/// Makes the next change at this place, whose item may allow one itself.
fn change_asked(
    alloc: Global,
    counts: &List<u64>,
    level: u32,
    list: &mut List<Boxed<Item>>,
    at: usize,
    way: &mut List<usize>,
    sure: &mut bool,
    holds: &mut Holds,
) -> Result<Option<u32>, Memory>
    requires place { at < length list.old }
    requires within { AreApart (count_in counts.now) (trees_of list.old) }
    ensures made { IfOk result (λ it. (f : FunctionTree) → Tells counts.now f → IsWayAt sure.old f level (reverse way.old) (trees_of (drop at list.old)) → changed_to it (trees_of list.new) ≡ put (join (trees_of (take at list.old))) (next_at f level (trees_of (drop at list.old)))) }
    ensures kept { IfOk result (λ it. it ≡ None → list.new ≡ list.old) }
    ensures way { IfOk result (λ it. LeadsOn counts.now it (λ g. g) (λ f. IsWayAt sure.old f level (reverse way.old) (trees_of (drop at list.old))) (λ (g : ℕ) h. IsWayAt sure.new h level (reverse way.new) (trees_of (drop at list.new)))) }
{
    let here = change_here(alloc, counts, level, list, at)?;
    if here.is_some() {
        *way = List::new(alloc);
        return Ok(here);
    }
    change_within(alloc, counts, level, list, at, way, sure, holds)
}

/// Makes the next change in the item at this place, which allows none itself.
fn change_within(
    alloc: Global,
    counts: &List<u64>,
    level: u32,
    list: &mut List<Boxed<Item>>,
    at: usize,
    way: &mut List<usize>,
    sure: &mut bool,
    holds: &mut Holds,
) -> Result<Option<u32>, Memory>
    requires place { at < length list.old }
    requires within { AreApart (count_in counts.now) (trees_of list.old) }
    ensures made { IfOk result (λ it. (f : FunctionTree) → Tells counts.now f → next_here f level (trees_of (drop at list.old)) ≡ None → IsWayAt sure.old f level (reverse way.old) (trees_of (drop at list.old)) → changed_to it (trees_of list.new) ≡ put (join (trees_of (take at list.old))) (next_at f level (trees_of (drop at list.old)))) }
    ensures kept { IfOk result (λ it. it ≡ None → list.new ≡ list.old) }
    ensures way { IfOk result (λ it. LeadsOn counts.now it (λ g. g) (λ f. (next_here f level (trees_of (drop at list.old)) ≡ None) × IsWayAt sure.old f level (reverse way.old) (trees_of (drop at list.old))) (λ (g : ℕ) h. IsWayAt sure.new h level (reverse way.new) (trees_of (drop at list.new)))) }
{
    change_item(
        alloc,
        counts,
        level,
        list.at_mut(at).get_mut(),
        way,
        sure,
        holds,
    )
}

/// Takes the first `int g = 0;` out, and answers where it stood.
pub fn undeclare(slot: u32, list: &mut List<Boxed<Item>>) -> Option<usize>
    ensures gone { trees_of list.new ≡ undeclared slot (trees_of list.old) }
    ensures place { trees_of list.new ≡ removed_at result (trees_of list.old) }
{
    let mut i = 0;
    while i < list.len() {
        if is_declaration(slot, list.as_slice()[i].get()) {
            drop(list.remove(i));
            return Some(i);
        }
        i += 1;
    }
    None
}
