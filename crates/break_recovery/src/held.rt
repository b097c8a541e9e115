//! Mentions of slots that are no exits. As long as one stands behind the loops of a list that are changed, no loop round
//! the list allows a change of its slot, whatever checks the changes make. A slot that doesn't count needs none, since no
//! loop allows a change of it.

ghost use Rattle.std.specs.Prelude.{◌≡◌, ◌<◌, ◌≤◌, ◌⊎◌, ℕ, List, [], true, length, drop, slice_get, Some, IfSome, IfOk, OnOk};
ghost use Rattle.c_tree.specs.Trees.{trees_of};
ghost use Rattle.c_tree.specs.declared.tree.Item.{Item};
ghost use Rattle.tidy_slots.specs.Counts.{list_count};
ghost use Rattle.tidy_loops.specs.Slots.{count_in};
ghost use Rattle.break_recovery.specs.Held.{IsHeldAt, IsHeldBehind, AreHeld, AllHeld};

use crate::steady::Turned;
use crate::walk::are_few;
use c_tree::Item;
use c_types::{List, Memory};
use std::alloc::Global;
use tidy_loops::{count_of, names_otherwise};

/// A slot, and the place of an item of a list that names it otherwise than in exits.
#[derive(Clone, Copy)]
pub struct Held {
    slot: u32,
    place: usize,
}

/// Such slots of a list, and for how many more it may be read.
#[derive(Drop)]
pub struct Holds {
    known: List<Held>,
    looks: u32,
}

/// For how many slots of a function a list is read. Each costs as much as the list has items.
const LOOKS: u32 = 64;

/// None known yet.
pub fn no_holds(alloc: Global) -> Holds
    ensures { result.known ≡ [] }
{
    Holds {
        known: List::new(alloc),
        looks: LOOKS,
    }
}

/// Forgets them, for another list.
pub fn forget_holds(alloc: Global, holds: &mut Holds)
    ensures { holds.new.known ≡ [] }
{
    holds.known = List::new(alloc);
}

/// Whether a slot is known to be held behind a place.
fn is_known(known: &List<Held>, slot: u32, place: usize) -> bool
    ensures { result ≡ true → (xs : List Item) → AreHeld known.now xs place → IsHeldBehind slot xs place }
{
    let all = known.as_slice();
    for i in 0..all.len() {
        let held = &all[i];
        if held.slot == slot && place < held.place {
            return true;
        }
    }
    false
}

/// The last place behind another at which an item names the slot otherwise than in exits, but for the last of the list.
fn place_behind(slot: u32, most: u64, items: &[Item], place: usize) -> Option<usize>
    requires { list_count slot (trees_of (drop place items.now)) ≤ most }
    ensures { IfSome result (λ i. (place < i) × IsHeldAt slot items.now i) }
{
    let mut left = items.len().saturating_sub(1);
    'items: while left > place {
        let at = left - 1;
        if at > place && names_otherwise(slot, &items[at], most) {
            return Some(at);
        }
        left = at;
    }
    None
}

/// Reads a list for a slot that counts so often, if there are not few items.
fn look(
    holds: &mut Holds,
    slot: u32,
    most: u64,
    list: &List<Item>,
    place: usize,
) -> Result<bool, Memory>
    requires most { list_count slot (trees_of (drop place list.now)) ≤ most }
    requires known { AreHeld holds.old.known list.now place }
    ensures known { OnOk result (AreHeld holds.new.known list.now place) }
    ensures held { IfOk result (λ it. it ≡ true → IsHeldBehind slot list.now place) }
{
    if holds.looks == 0 || are_few(list, place) {
        return Ok(false);
    }
    holds.looks -= 1;
    match place_behind(slot, most, list.as_slice(), place) {
        Some(at) => {
            holds.known.push(Held { slot, place: at })?;
            Ok(true)
        }
        None => Ok(false),
    }
}

/// Whether a slot is held behind a place, as far as this is known. One that doesn't count needs none.
fn is_held(
    counts: &List<u64>,
    holds: &mut Holds,
    slot: u32,
    list: &List<Item>,
    place: usize,
) -> Result<bool, Memory>
    requires most { (count_in counts.now slot ≡ 0) ⊎ (list_count slot (trees_of (drop place list.now)) < count_in counts.now slot) }
    requires known { AreHeld holds.old.known list.now place }
    ensures known { OnOk result (AreHeld holds.new.known list.now place) }
    ensures held { IfOk result (λ it. it ≡ true → (count_in counts.now slot ≡ 0) ⊎ IsHeldBehind slot list.now place) }
{
    let most = count_of(counts, slot);
    if most == 0 || is_known(&holds.known, slot, place) {
        return Ok(true);
    }
    look(holds, slot, most, list, place)
}

/// Whether all slots that are turned are held behind a place, as far as this is known. A slot that doesn't count needs
/// none.
pub fn are_held(
    counts: &List<u64>,
    holds: &mut Holds,
    turned: &Turned,
    list: &List<Item>,
    place: usize,
) -> Result<bool, Memory>
    requires most { (g : ℕ) → (count_in counts.now g ≡ 0) ⊎ (list_count g (trees_of (drop place list.now)) < count_in counts.now g) }
    requires known { AreHeld holds.old.known list.now place }
    ensures known { OnOk result (AreHeld holds.new.known list.now place) }
    ensures held { IfOk result (λ it. it ≡ true → AllHeld counts.now turned.now list.now place) }
{
    if turned.any {
        return Ok(false);
    }
    let slots = turned.slots.as_slice();
    for i in 0..slots.len() {
        let held = is_held(counts, holds, slots[i], list, place)?;
        if !held {
            return Ok(false);
        }
    }
    Ok(true)
}

/// Whether all slots that are turned are held behind a place of a list of which nothing is known yet.
pub fn are_held_there(
    alloc: Global,
    counts: &List<u64>,
    holds: &mut Holds,
    turned: &Turned,
    list: &List<Item>,
    place: usize,
) -> Result<bool, Memory>
    requires { (g : ℕ) → (count_in counts.now g ≡ 0) ⊎ (list_count g (trees_of (drop place list.now)) < count_in counts.now g) }
    ensures { IfOk result (λ it. it ≡ true → AllHeld counts.now turned.now list.now place) }
{
    forget_holds(alloc, holds);
    are_held(counts, holds, turned, list, place)
}
