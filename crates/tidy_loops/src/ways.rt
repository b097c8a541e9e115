//! Which items of a list are checks, and how these give way to their lists.

ghost use Rattle.std.specs.Prelude.{◌≡◌, ◌++◌, cond, [], get_or, Bool, IfOk, OnOk};
ghost use Rattle.c_tree.specs.Trees.{trees_of, join};
ghost use Rattle.c_tree.specs.Views.{tree_at};
ghost use Rattle.tidy_laws.specs.Changes.{has_local as the_has_local, given_way};
ghost use Rattle.tidy_loops.specs.Exits.{is_local as the_is_local, then_list, has_check as the_has_check, checks_told, way_given, ways_given};

use crate::forms::is_check;
use c_tree::Item;
use c_types::{List, MOST, Memory};
use std::alloc::Global;

fn has_check(slot: u32, items: &[Item]) -> bool
    ensures { result ≡ the_has_check slot (trees_of items.now) }
{
    for i in 0..items.len() {
        if is_check(slot, &items[i]) {
            return true;
        }
    }
    false
}

/// For each item whether it is a check of the slot. Where none is, there are no answers, and that takes no memory.
pub fn checks_among(alloc: Global, slot: u32, items: &[Item]) -> Result<List<bool>, Memory>
    ensures { IfOk result (λ it. it ≡ cond (the_has_check slot (trees_of items.now)) (checks_told slot (trees_of items.now)) []) }
{
    let mut checks = List::new(alloc);
    if !has_check(slot, items) {
        return Ok(checks);
    }
    for i in 0..items.len() {
        checks.push(is_check(slot, &items[i]))?;
    }
    Ok(checks)
}

fn is_local(item: &Item) -> bool
    ensures { result ≡ the_is_local (tree_at item.now) }
{
    match item {
        Item::Local(_, _) => true,
        _ => false,
    }
}

fn has_local(items: &[Item]) -> bool
    ensures { result ≡ the_has_local (trees_of items.now) }
{
    for i in 0..items.len() {
        if is_local(&items[i]) {
            return true;
        }
    }
    false
}

/// Puts these items behind the others. `Memory` also where there are too many for a list.
fn append(alloc: Global, out: &mut List<Item>, list: List<Item>) -> Result<(), Memory>
    ensures { OnOk result (out.new ≡ out.old ++ list) }
{
    let mut all = out.take(alloc);
    let mut more = list.into_vec();
    if all.len() > MOST - more.len() {
        return Err(Memory);
    }
    all.append(&mut more)?;
    out.put(all);
    Ok(())
}

/// Puts the list of a check behind the others: its items, or a block if a declaration is among them.
fn give_way(alloc: Global, list: List<Item>, out: &mut List<Item>) -> Result<(), Memory>
    ensures { OnOk result (trees_of out.new ≡ join (trees_of out.old) (given_way (trees_of list))) }
{
    if has_local(list.as_slice()) {
        out.push(Item::Block(list))
    } else {
        append(alloc, out, list)
    }
}

/// The list of an `if`, or none of another item.
fn then_of(alloc: Global, item: Item) -> List<Item>
    ensures { trees_of result ≡ then_list (tree_at item) }
{
    match item {
        Item::If(test, a, b) => {
            drop(test);
            drop(b);
            a
        }
        _ => {
            drop(item);
            List::new(alloc)
        }
    }
}

fn add(alloc: Global, gives: bool, item: Item, out: &mut List<Item>) -> Result<(), Memory>
    ensures { OnOk result (trees_of out.new ≡ join (trees_of out.old) (way_given gives (tree_at item))) }
{
    if gives {
        give_way(alloc, then_of(alloc, item), out)
    } else {
        out.push(item)
    }
}

fn is_told(told: &List<bool>, at: usize) -> bool
    ensures { result ≡ get_or told.now at Bool.false }
{
    match told.get(at) {
        Some(it) => *it,
        None => false,
    }
}

/// Makes the items that are told give way to their lists. Where none is told they stay where they stand. After
/// `Memory` the list is given up.
pub fn give_ways(alloc: Global, told: &List<bool>, list: &mut List<Item>) -> Result<(), Memory>
    ensures { OnOk result (trees_of list.new ≡ ways_given told.now (trees_of list.old)) }
{
    if told.is_empty() {
        return Ok(());
    }
    let mut out = List::new(alloc);
    let mut at = 0;
    for item in list.take(alloc) {
        add(alloc, is_told(told, at), item, &mut out)?;
        at += 1;
    }
    list.put(out.into_vec());
    Ok(())
}
