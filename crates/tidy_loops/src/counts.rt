ghost use Rattle.std.specs.Prelude.{◌≡◌, ◌<◌, ◌&&◌, ℕ, cond, eqb, length, replicate, IfOk, OnOk};
ghost use Rattle.c_tree.specs.Trees.{trees_of};
ghost use Rattle.jump_meaning.specs.Code.{function_tree};
ghost use Rattle.c_tree.specs.Views.{tree_at};
ghost use Rattle.tidy_laws.specs.Changes.{is_flag as the_is_flag, is_declaration, declares};
ghost use Rattle.tidy_slots.specs.Counts.{list_count};
ghost use Rattle.tidy_slots.specs.Added.{Adds};
ghost use Rattle.tidy_loops.specs.Slots.{count_in, declared as the_declared, is_free as the_is_free, items_in, Tells};

use crate::reading::is_zero_value;
use c_tree::{Function, Item, Slot};
use c_types::{IntKind, List, Memory};
use std::alloc::Global;
use tidy_slots::count_list;

/// The count of the slot, 0 where it has none.
pub fn count_of(counts: &List<u64>, slot: u32) -> u64
    ensures { result ≡ count_in counts.now slot }
{
    match counts.get(slot as usize) {
        Some(n) => *n,
        None => 0,
    }
}

fn is_flag(slot: &Slot) -> bool
    ensures { result ≡ the_is_flag slot.now }
{
    slot.kind == IntKind::Int && slot.cells.is_none() && !slot.constant
}

/// Whether the slot is a variable of the function that may go where it is declared as a guard is: an
/// `int`, no parameter, no array and not `const`.
fn is_free(function: &Function, slot: u32) -> bool
    ensures { result ≡ the_is_free (function_tree function.now) slot }
{
    if slot < function.params {
        return false;
    }
    match function.slots.get(slot as usize) {
        Some(found) => is_flag(found),
        None => false,
    }
}

fn zeros(alloc: Global, count: usize) -> Result<List<u64>, Memory>
    ensures { IfOk result (λ it. it ≡ replicate count 0) }
{
    let mut counts = List::new(alloc);
    for i in 0..count {
        counts.push(0)?;
    }
    Ok(counts)
}

fn count_body(counts: &mut List<u64>, body: &Option<List<Item>>) -> Result<(), Memory>
    ensures { OnOk result (Adds counts.old (λ g. list_count g (items_in body.now)) counts.new) }
{
    match body {
        Some(list) => count_list(counts, list),
        None => Ok(()),
    }
}

fn put(kept: &mut List<u64>, slot: u32, count: u64)
    ensures as_long { length kept.new ≡ length kept.old }
    ensures put { (g : ℕ) → g < length kept.old → count_in kept.new g ≡ cond (eqb slot g) count (count_in kept.old g) }
{
    if (slot as usize) < kept.len() {
        kept.set(slot as usize, count);
    }
}

/// The slot that the item declares as `int g = 0;`.
fn declared_slot(item: &Item) -> Option<u32>
    ensures { result ≡ the_declared (tree_at item.now) }
{
    match item {
        Item::Local(at, values) => {
            if is_zero_value(values) {
                Some(*at)
            } else {
                None
            }
        }
        _ => None,
    }
}

/// Keeps the count of the slot that the item so declares, if it is free.
fn keep_if(function: &Function, counts: &List<u64>, item: &Item, kept: &mut List<u64>)
    ensures as_long { length kept.new ≡ length kept.old }
    ensures kept { (g : ℕ) → g < length kept.old → count_in kept.new g ≡ cond (the_is_free (function_tree function.now) g && is_declaration g (tree_at item.now)) (count_in counts.now g) (count_in kept.old g) }
{
    match declared_slot(item) {
        Some(at) => {
            if is_free(function, at) {
                put(kept, at, count_of(counts, at));
            }
        }
        None => {}
    }
}

fn keep_declared(function: &Function, counts: &List<u64>, items: &[Item], kept: &mut List<u64>)
    ensures as_long { length kept.new ≡ length kept.old }
    ensures kept { (g : ℕ) → g < length kept.old → count_in kept.new g ≡ cond (the_is_free (function_tree function.now) g && declares g (trees_of items.now)) (count_in counts.now g) (count_in kept.old g) }
{
    for i in 0..items.len() {
        keep_if(function, counts, &items[i], kept);
    }
}

fn keep_body(function: &Function, counts: &List<u64>, kept: &mut List<u64>)
    ensures as_long { length kept.new ≡ length kept.old }
    ensures kept { (g : ℕ) → g < length kept.old → count_in kept.new g ≡ cond (the_is_free (function_tree function.now) g && declares g (items_in function.now.body)) (count_in counts.now g) (count_in kept.old g) }
{
    match &function.body {
        Some(list) => keep_declared(function, counts, list.as_slice(), kept),
        None => {}
    }
}

/// How often the body names each slot that may go: an `int` that is declared by `int g = 0;` in the
/// outermost list, no parameter, no array and not `const`. Each other slot has 0.
pub fn guard_counts(alloc: Global, function: &Function) -> Result<List<u64>, Memory>
    ensures { IfOk result (λ it. Tells it (function_tree function.now)) }
{
    let mut counts = zeros(alloc, function.slots.len())?;
    count_body(&mut counts, &function.body)?;
    let mut kept = zeros(alloc, function.slots.len())?;
    keep_body(function, &counts, &mut kept);
    Ok(kept)
}
