//! Of which other slots a change of a loop makes or takes checks.

ghost use Rattle.std.specs.Prelude.{◌≡◌, OnOk};
ghost use Rattle.c_tree.specs.Trees.{trees_of, sections_of};
ghost use Rattle.c_tree.specs.ExpressionTrees.{expression_tree, place_tree};
ghost use Rattle.c_tree.specs.Views.{tree_at};
ghost use Rattle.tidy_loops.specs.Views.{expression_at, test_at};
ghost use Rattle.break_recovery.specs.Steady.{both, no_slot as the_no_slot, one_of, assigned as the_assigned, set_turned as the_set_turned, has_else as the_has_else, turned as the_turned, item_turned as the_item_turned, sections_turned as the_sections_turned};

use c_tree::{Expression, Item, Node, Place, Section, Test};
use c_types::{List, Memory};
use std::alloc::Global;
use tidy_loops::{is_it, off_slot, place_slot};
use tidy_slots::list_names;

/// The slots of which a change of another makes or takes checks, in the order of the text. One may stand there twice.
#[derive(Drop)]
pub struct Turned {
    pub slots: List<u32>,
    /// Whether it may be any slot.
    pub any: bool,
}

/// No slot.
pub fn no_slot(alloc: Global) -> Turned
    ensures { result ≡ the_no_slot }
{
    Turned {
        slots: List::new(alloc),
        any: false,
    }
}

/// With this slot, if there is one.
fn add(slot: Option<u32>, turned: &mut Turned) -> Result<(), Memory>
    ensures { OnOk result (turned.new ≡ both turned.old (one_of slot)) }
{
    match slot {
        Some(slot) => turned.slots.push(slot),
        None => Ok(()),
    }
}

fn assigned(slot: u32, place: &Place, value: &Expression, turned: &mut Turned) -> Result<(), Memory>
    ensures { OnOk result (turned.new ≡ both turned.old (the_assigned slot (place_tree place.now) (expression_tree value.now))) }
{
    if !is_it(slot, place_slot(place)) {
        return Ok(());
    }
    add(off_slot(value), turned)
}

/// What a set of the slot to `!x` becomes is a check of x.
fn set_turned(slot: u32, e: &Expression, turned: &mut Turned) -> Result<(), Memory>
    ensures { OnOk result (turned.new ≡ both turned.old (the_set_turned slot (expression_at e.now))) }
{
    match &e.node {
        Node::Assign(place, value) => assigned(slot, place, value.get(), turned),
        _ => Ok(()),
    }
}

/// Whether an `if` with this test and else-list is one with `!x` and an else-list.
fn has_else(test: &Test, other: &List<Item>) -> bool
    ensures { result ≡ the_has_else (test_at test.now) (trees_of other.now) }
{
    match test {
        Test::Source(e) => !other.is_empty() && off_slot(e).is_some(),
        _ => false,
    }
}

/// Adds those of a list.
#[cycle(turned)]
fn list_turned(slot: u32, list: &List<Item>, turned: &mut Turned) -> Result<(), Memory>
    ensures { OnOk result (turned.new ≡ both turned.old (the_turned slot (trees_of list.now))) }
{
    items_turned(slot, list.as_slice(), turned)
}

#[cycle(turned)]
fn items_turned(slot: u32, items: &[Item], turned: &mut Turned) -> Result<(), Memory>
    ensures { OnOk result (turned.new ≡ both turned.old (the_turned slot (trees_of items.now))) }
{
    for i in 0..items.len() {
        item_turned(slot, &items[i], turned)?;
    }
    Ok(())
}

#[cycle(turned)]
fn sections_turned(slot: u32, sections: &[Section], turned: &mut Turned) -> Result<(), Memory>
    ensures { OnOk result (turned.new ≡ both turned.old (the_sections_turned slot (sections_of sections.now))) }
{
    for i in 0..sections.len() {
        list_turned(slot, &sections[i].list, turned)?;
    }
    Ok(())
}

/// Adds those of the `if`s and sets of an item, at any depth.
#[cycle(turned)]
pub fn item_turned(slot: u32, item: &Item, turned: &mut Turned) -> Result<(), Memory>
    ensures { OnOk result (turned.new ≡ both turned.old (the_item_turned slot (tree_at item.now))) }
{
    match item {
        Item::Evaluate(e) => set_turned(slot, e, turned),
        Item::If(test, a, b) => {
            list_turned(slot, a, turned)?;
            if !has_else(test, b) {
                return list_turned(slot, b, turned);
            }
            // an else-list that lacks the slot stays
            if list_names(slot, b) {
                turned.any = true;
            }
            Ok(())
        }
        Item::While(_, a) => list_turned(slot, a, turned),
        Item::Do(a, _) => list_turned(slot, a, turned),
        Item::For(_, _, _, a) => list_turned(slot, a, turned),
        Item::Switch(_, sections) => sections_turned(slot, sections.as_slice(), turned),
        Item::Block(a) => list_turned(slot, a, turned),
        _ => Ok(()),
    }
}
