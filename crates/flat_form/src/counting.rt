//! Gotos and labels of flat forms, counted.

ghost use Rattle.std.specs.Prelude.{◌≡◌, ◌+◌, IfOk, OnOk};
ghost use Rattle.c_tree.specs.Everywhere.{total, total_of, total_in};
ghost use Rattle.c_tree.specs.Trees.{trees_of, sections_of};
ghost use Rattle.c_resolved_laws.specs.Counts.{goto_of, gotos_of, labels_of, bound_counts as the_bound_counts, flat_counts as the_flat_counts};
ghost use Rattle.c_tree.specs.Views.{tree_at};

use crate::flat_counts_labels::label_count;
use crate::labels_in;
use crate::made::{Counted, count_made};
use crate::strays::without_strays;
use crate::sums::add;
use c_tree::{Item, Section};
use c_types::{List, Memory};
use flat_questions::{has_arrival, has_jumps, named_labels};
use std::alloc::Global;

#[cycle(counting)]
fn add_list(list: &List<Item>, count: &mut u64) -> Result<(), Memory>
    ensures { OnOk result (count.new ≡ count.old + total goto_of (trees_of list.now)) }
{
    add_items(list.as_slice(), count)
}

#[cycle(counting)]
fn add_items(items: &[Item], count: &mut u64) -> Result<(), Memory>
    ensures { OnOk result (count.new ≡ count.old + total goto_of (trees_of items.now)) }
{
    for i in 0..items.len() {
        add_item(&items[i], count)?;
    }
    Ok(())
}

#[cycle(counting)]
fn add_item(item: &Item, count: &mut u64) -> Result<(), Memory>
    ensures { OnOk result (count.new ≡ count.old + total_of goto_of (tree_at item.now)) }
{
    match item {
        Item::If(_, a, b) => {
            add_list(a, count)?;
            add_list(b, count)
        }
        Item::While(_, a) => add_list(a, count),
        Item::Do(a, _) => add_list(a, count),
        Item::For(first, _, _, a) => {
            add_list(first, count)?;
            add_list(a, count)
        }
        Item::Block(a) => add_list(a, count),
        Item::Switch(_, sections) => add_sections(sections.as_slice(), count),
        Item::Goto(_) => add(count, 1),
        _ => Ok(()),
    }
}

#[cycle(counting)]
fn add_sections(sections: &[Section], count: &mut u64) -> Result<(), Memory>
    ensures { OnOk result (count.new ≡ count.old + total_in goto_of (sections_of sections.now)) }
{
    for i in 0..sections.len() {
        add_list(&sections[i].list, count)?;
    }
    Ok(())
}

/// How many gotos a body has. Want of memory is the only failure: more than `u64` holds count as that.
pub fn gotos_in(list: &List<Item>) -> Result<u64, Memory>
    ensures { IfOk result (λ it. it ≡ total goto_of (trees_of list.now)) }
{
    let mut count = 0;
    add_list(list, &mut count)?;
    Ok(count)
}

/// How many gotos the flat form of a body has.
fn flat_gotos(alloc: Global, body: &List<Item>) -> Result<u64, Memory>
    ensures { IfOk result (λ it. it ≡ gotos_of (trees_of body.now)) }
{
    let named = named_labels(alloc, body)?;
    let gotos = count_made(alloc, Counted::Gotos, named.as_slice(), body)?;
    Ok(gotos)
}

/// How many labels it has: those that are made, and those of the body that stay.
fn flat_labels(alloc: Global, body: &List<Item>) -> Result<u64, Memory>
    ensures { IfOk result (λ it. it ≡ labels_of (trees_of body.now)) }
{
    let named = named_labels(alloc, body)?;
    let labels = labels_in(alloc, body)?;
    let made = count_made(alloc, Counted::Labels, named.as_slice(), body)?;
    let stay = label_count(alloc, named.as_slice(), labels.as_slice())?;
    match made.checked_add(stay) {
        Some(sum) => Ok(sum),
        None => Err(Memory),
    }
}

/// How many gotos and labels the flat form of a body has that holds no stray case label.
fn bound_counts(alloc: Global, body: &List<Item>) -> Result<Option<(u64, u64)>, Memory>
    ensures { IfOk result (λ it. it ≡ the_bound_counts (trees_of body.now)) }
{
    if has_jumps(body) {
        let gotos = flat_gotos(alloc, body)?;
        let labels = flat_labels(alloc, body)?;
        Ok(Some((gotos, labels)))
    } else {
        Ok(None)
    }
}

/// How many gotos and how many labels the flat form of a function with this body has, whatever its
/// variables and labels are; `None` where it has no jumps. A label that stands twice counts once, and
/// a case label outside of any switch for nothing. Want of memory is the only failure.
pub fn flat_counts(alloc: Global, body: &List<Item>) -> Result<Option<(u64, u64)>, Memory>
    ensures { IfOk result (λ it. it ≡ the_flat_counts (trees_of body.now)) }
{
    if has_arrival(body) {
        let bound = without_strays(alloc, body)?;
        bound_counts(alloc, &bound)
    } else {
        bound_counts(alloc, body)
    }
}
