//! The exits of a list that are bound to a construct around it, counted, and whether a switch is left by
//! gotos. Want of memory is the only failure: more than `u64` holds count as that.

ghost use Rattle.std.specs.Prelude.{◌≡◌, ◌+◌, OnOk};
ghost use Rattle.c_tree.specs.Exits.{breaks, breaks_of, continues, continues_of, continues_in};
ghost use Rattle.c_tree.specs.Trees.{trees_of, sections_of};
ghost use Rattle.c_tree.specs.Views.{tree_at};
ghost use Rattle.flat_questions.specs.Reading.{is_flagged as the_is_flagged};
ghost use Rattle.c_resolved_laws.specs.Counts.{is_jumpy as the_is_jumpy};

use crate::sums::add;
use c_tree::{Item, Section};
use c_types::{List, Memory};
use flat_questions::{sections_have_continue, sections_hold_jump};

/// Whether a switch that isn't scattered is jumpy: by what it holds, or since it leaves a jumpy loop. The
/// flags say which labels are named.
pub fn is_jumpy(named: &[bool], in_jumpy: bool, sections: &List<Section>) -> bool
    ensures { result ≡ the_is_jumpy (the_is_flagged named.now) in_jumpy (sections_of sections.now) }
{
    sections_hold_jump(named, sections) || (in_jumpy && sections_have_continue(sections))
}

#[cycle(breaking)]
pub fn add_breaks(list: &List<Item>, count: &mut u64) -> Result<(), Memory>
    ensures { OnOk result (count.new ≡ count.old + breaks (trees_of list.now)) }
{
    add_breaks_among(list.as_slice(), count)
}

#[cycle(breaking)]
fn add_breaks_among(items: &[Item], count: &mut u64) -> Result<(), Memory>
    ensures { OnOk result (count.new ≡ count.old + breaks (trees_of items.now)) }
{
    for i in 0..items.len() {
        add_breaks_of(&items[i], count)?;
    }
    Ok(())
}

#[cycle(breaking)]
fn add_breaks_of(item: &Item, count: &mut u64) -> Result<(), Memory>
    ensures { OnOk result (count.new ≡ count.old + breaks_of (tree_at item.now)) }
{
    match item {
        Item::If(_, a, b) => {
            add_breaks(a, count)?;
            add_breaks(b, count)
        }
        Item::For(first, _, _, _) => add_breaks(first, count),
        Item::Block(a) => add_breaks(a, count),
        Item::Break => add(count, 1),
        _ => Ok(()),
    }
}

#[cycle(continuing)]
pub fn add_continues(list: &List<Item>, count: &mut u64) -> Result<(), Memory>
    ensures { OnOk result (count.new ≡ count.old + continues (trees_of list.now)) }
{
    add_continues_among(list.as_slice(), count)
}

#[cycle(continuing)]
fn add_continues_among(items: &[Item], count: &mut u64) -> Result<(), Memory>
    ensures { OnOk result (count.new ≡ count.old + continues (trees_of items.now)) }
{
    for i in 0..items.len() {
        add_continues_of(&items[i], count)?;
    }
    Ok(())
}

#[cycle(continuing)]
fn add_continues_of(item: &Item, count: &mut u64) -> Result<(), Memory>
    ensures { OnOk result (count.new ≡ count.old + continues_of (tree_at item.now)) }
{
    match item {
        Item::If(_, a, b) => {
            add_continues(a, count)?;
            add_continues(b, count)
        }
        Item::For(first, _, _, _) => add_continues(first, count),
        Item::Switch(_, sections) => add_continues_in(sections.as_slice(), count),
        Item::Block(a) => add_continues(a, count),
        Item::Continue => add(count, 1),
        _ => Ok(()),
    }
}

#[cycle(continuing)]
fn add_continues_in(sections: &[Section], count: &mut u64) -> Result<(), Memory>
    ensures { OnOk result (count.new ≡ count.old + continues_in (sections_of sections.now)) }
{
    for i in 0..sections.len() {
        add_continues(&sections[i].list, count)?;
    }
    Ok(())
}
