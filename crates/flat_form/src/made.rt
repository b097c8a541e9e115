//! The gotos or the labels of a flat form, counted by the items of the body.

ghost use Rattle.std.specs.Prelude.{◌≡◌, ◌+◌, false, IfOk, OnOk};
ghost use Rattle.c_tree.specs.Trees.{trees_of, sections_of};
ghost use Rattle.c_tree.specs.Views.{tree_at};
ghost use Rattle.flat_questions.specs.Reading.{is_flagged as the_is_flagged};
ghost use Rattle.c_resolved_laws.specs.Counts.{summed, summed_of, summed_in};
ghost use Rattle.flat_form.specs.Given.{given};

use crate::gotos::gotos_given;
use crate::labels::labels_given;
use crate::sums::add;
use c_tree::{Item, Section};
use c_types::{List, Memory};
use flat_questions::holds_jump;
use std::alloc::Global;

/// What is counted.
#[derive(Clone, Copy, PartialEq, Eq)]
pub enum Counted {
    Gotos,
    Labels,
}

/// Adds what an item gives, apart from what stands in it.
fn add_own(
    alloc: Global,
    what: Counted,
    named: &[bool],
    in_jumpy: bool,
    item: &Item,
    count: &mut u64,
) -> Result<(), Memory>
    ensures { OnOk result (count.new ≡ count.old + given what (the_is_flagged named.now) in_jumpy (tree_at item.now)) }
{
    match what {
        Counted::Gotos => add(count, gotos_given(alloc, named, in_jumpy, item)?),
        Counted::Labels => add(count, labels_given(alloc, named, in_jumpy, item)?),
    }
}

#[cycle(making)]
fn add_list(
    alloc: Global,
    what: Counted,
    named: &[bool],
    in_jumpy: bool,
    list: &List<Item>,
    count: &mut u64,
) -> Result<(), Memory>
    ensures { OnOk result (count.new ≡ count.old + summed (given what (the_is_flagged named.now)) (the_is_flagged named.now) in_jumpy (trees_of list.now)) }
{
    add_items(alloc, what, named, in_jumpy, list.as_slice(), count)
}

#[cycle(making)]
fn add_items(
    alloc: Global,
    what: Counted,
    named: &[bool],
    in_jumpy: bool,
    items: &[Item],
    count: &mut u64,
) -> Result<(), Memory>
    ensures { OnOk result (count.new ≡ count.old + summed (given what (the_is_flagged named.now)) (the_is_flagged named.now) in_jumpy (trees_of items.now)) }
{
    for i in 0..items.len() {
        add_item(alloc, what, named, in_jumpy, &items[i], count)?;
    }
    Ok(())
}

#[cycle(making)]
fn add_item(
    alloc: Global,
    what: Counted,
    named: &[bool],
    in_jumpy: bool,
    item: &Item,
    count: &mut u64,
) -> Result<(), Memory>
    ensures { OnOk result (count.new ≡ count.old + summed_of (given what (the_is_flagged named.now)) (the_is_flagged named.now) in_jumpy (tree_at item.now)) }
{
    match item {
        Item::If(_, a, b) => {
            add_list(alloc, what, named, in_jumpy, a, count)?;
            add_list(alloc, what, named, in_jumpy, b, count)
        }
        Item::Block(a) => add_list(alloc, what, named, in_jumpy, a, count),
        Item::While(_, a) => {
            add_own(alloc, what, named, in_jumpy, item, count)?;
            add_list(alloc, what, named, holds_jump(named, a), a, count)
        }
        Item::Do(a, _) => {
            add_own(alloc, what, named, in_jumpy, item, count)?;
            add_list(alloc, what, named, holds_jump(named, a), a, count)
        }
        Item::For(first, _, _, a) => {
            add_own(alloc, what, named, in_jumpy, item, count)?;
            add_list(alloc, what, named, in_jumpy, first, count)?;
            add_list(alloc, what, named, holds_jump(named, a), a, count)
        }
        Item::Switch(_, sections) => {
            add_own(alloc, what, named, in_jumpy, item, count)?;
            add_sections(alloc, what, named, in_jumpy, sections.as_slice(), count)
        }
        _ => add_own(alloc, what, named, in_jumpy, item, count),
    }
}

#[cycle(making)]
fn add_sections(
    alloc: Global,
    what: Counted,
    named: &[bool],
    in_jumpy: bool,
    sections: &[Section],
    count: &mut u64,
) -> Result<(), Memory>
    ensures { OnOk result (count.new ≡ count.old + summed_in (given what (the_is_flagged named.now)) (the_is_flagged named.now) in_jumpy (sections_of sections.now)) }
{
    for i in 0..sections.len() {
        add_list(alloc, what, named, in_jumpy, &sections[i].list, count)?;
    }
    Ok(())
}

/// How many gotos the flat form of a body has, or how many labels it makes: those of exits that are
/// captured, and those of scattered switches. The flags say which labels of the body are named. Want of
/// memory is the only failure.
pub fn count_made(
    alloc: Global,
    what: Counted,
    named: &[bool],
    body: &List<Item>,
) -> Result<u64, Memory>
    ensures { IfOk result (λ it. it ≡ summed (given what (the_is_flagged named.now)) (the_is_flagged named.now) false (trees_of body.now)) }
{
    let mut count = 0;
    add_list(alloc, what, named, false, body, &mut count)?;
    Ok(count)
}
