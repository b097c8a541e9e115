ghost use Rattle.std.specs.Prelude.{◌≡◌, length, IfOk, OnOk};
ghost use Rattle.c_tree.specs.SectionLabels.{labels_passed as the_labels_passed};
ghost use Rattle.plain_laws.specs.Plain.{ended as the_ended, plain_items as the_plain_items, slot_among, tidied};
ghost use Rattle.c_tree.specs.declared.tree.Section.{out-Section};
ghost use Rattle.plain_form.specs.Made.{test_made, selector_made, arm_made, land_made, made_item as the_made_item, made_section as the_made_section, made_items as the_made_items, made_sections as the_made_sections};

use crate::expressions::{armed, guard_set, number, plain_selector, plain_test};
use crate::sections::end;
use crate::slots::{Guards, Slots};
use c_tree::{Expression, Item, Section, Selector, Test, labels_passed};
use c_types::{IntKind, List, Memory};
use std::alloc::Global;
use std::mem;

fn make_arm(
    alloc: Global,
    guards: &Guards,
    label: u32,
    e: Option<Expression>,
) -> Result<Item, Memory>
    ensures { IfOk result (λ it. it ≡ arm_made guards.now label e) }
{
    match guards {
        Guards::Kept => Ok(Item::Arm(label, e)),
        Guards::Variables(slots) => {
            let e = armed(alloc, e)?;
            guard_set(alloc, slots.slot(label), e)
        }
    }
}

fn make_land(alloc: Global, guards: &Guards, label: u32) -> Result<Item, Memory>
    ensures { IfOk result (λ it. it ≡ land_made guards.now label) }
{
    match guards {
        Guards::Kept => Ok(Item::Land(label)),
        Guards::Variables(slots) => { guard_set(alloc, slots.slot(label), number(IntKind::Int, 0)) }
    }
}

fn make_test(alloc: Global, guards: &Guards, test: &mut Test) -> Result<(), Memory>
    ensures { OnOk result (test.new ≡ test_made guards.now test.old) }
{
    match guards {
        Guards::Kept => Ok(()),
        Guards::Variables(slots) => {
            let taken = mem::replace(test, Test::On(0));
            let e = plain_test(alloc, slots, taken)?;
            drop(mem::replace(test, Test::Source(e)));
            Ok(())
        }
    }
}

/// A selector that stands in the place of one that is taken out.
fn placeholder() -> Selector {
    Selector::Source(number(IntKind::Int, 0))
}

fn make_selector(alloc: Global, guards: &Guards, selector: &mut Selector) -> Result<(), Memory>
    ensures { OnOk result (selector.new ≡ selector_made guards.now selector.old) }
{
    match guards {
        Guards::Kept => Ok(()),
        Guards::Variables(slots) => {
            let taken = mem::replace(selector, placeholder());
            let e = plain_selector(alloc, slots, taken)?;
            drop(mem::replace(selector, Selector::Source(e)));
            Ok(())
        }
    }
}

/// Gives the sections their entries, each to the next.
fn give(alloc: Global, sections: &mut List<Section>) -> Result<(), Memory>
    ensures { OnOk result (sections.new ≡ the_labels_passed sections.old) }
{
    let taken = mem::replace(sections, List::new(alloc));
    let made = labels_passed(alloc, taken)?;
    drop(mem::replace(sections, made));
    Ok(())
}

/// The items with their guards in variables, in which each switch has its sections in the plain form.
pub fn plain_items(alloc: Global, slots: Slots, list: List<Item>) -> Result<List<Item>, Memory>
    ensures { IfOk result (λ it. it ≡ tidied (the_plain_items (slot_among slots.base slots.left) list)) }
{
    let guards = Guards::Variables(slots);
    let mut list = list;
    make_list(alloc, &guards, &mut list)?;
    Ok(list)
}

/// The items, in which each switch has its sections in the plain form.
pub fn tidied_items(alloc: Global, list: List<Item>) -> Result<List<Item>, Memory>
    ensures { IfOk result (λ it. it ≡ tidied list) }
{
    let mut list = list;
    make_list(alloc, &Guards::Kept, &mut list)?;
    Ok(list)
}

/// Gives the items their guards as they become, and each switch its sections in the plain form.
#[cycle(made_items)]
fn make_list(alloc: Global, guards: &Guards, list: &mut List<Item>) -> Result<(), Memory>
    ensures { OnOk result (list.new ≡ the_made_items guards.now list.old) }
{
    make_items(alloc, guards, list.as_mut_slice())
}

#[cycle(made_items)]
fn make_items(alloc: Global, guards: &Guards, items: &mut [Item]) -> Result<(), Memory>
    ensures as_long { length items.new ≡ length items.old }
    ensures made { OnOk result (items.new ≡ the_made_items guards.now items.old) }
{
    for i in 0..items.len() {
        make_item(alloc, guards, &mut items[i])?;
    }
    Ok(())
}

#[cycle(made_items)]
fn make_sections(alloc: Global, guards: &Guards, items: &mut [Section]) -> Result<(), Memory>
    ensures as_long { length items.new ≡ length items.old }
    ensures made { OnOk result (items.new ≡ the_made_sections guards.now items.old) }
{
    for i in 0..items.len() {
        make_section(alloc, guards, &mut items[i])?;
    }
    Ok(())
}

#[cycle(made_items)]
fn make_section(alloc: Global, guards: &Guards, section: &mut Section) -> Result<(), Memory>
    ensures { OnOk result (section.new ≡ the_made_section guards.now section.old) }
{
    make_list(alloc, guards, &mut section.list)?;
    end(section);
    Ok(())
}

#[cycle(made_items)]
fn make_item(alloc: Global, guards: &Guards, item: &mut Item) -> Result<(), Memory>
    ensures { OnOk result (item.new ≡ the_made_item guards.now item.old) }
{
    match item {
        Item::If(test, a, b) => {
            make_list(alloc, guards, a)?;
            make_list(alloc, guards, b)?;
            make_test(alloc, guards, test)
        }
        Item::While(test, a) => {
            make_list(alloc, guards, a)?;
            make_test(alloc, guards, test)
        }
        Item::Do(a, test) => {
            make_list(alloc, guards, a)?;
            make_test(alloc, guards, test)
        }
        Item::For(first, _, _, a) => {
            make_list(alloc, guards, first)?;
            make_list(alloc, guards, a)
        }
        Item::Switch(selector, sections) => {
            make_sections(alloc, guards, sections.as_mut_slice())?;
            give(alloc, sections)?;
            make_selector(alloc, guards, selector)
        }
        Item::Block(a) => make_list(alloc, guards, a),
        Item::Arm(at, e) => {
            let taken = mem::replace(e, None);
            let made = make_arm(alloc, guards, *at, taken)?;
            drop(mem::replace(item, made));
            Ok(())
        }
        Item::Land(at) => {
            let made = make_land(alloc, guards, *at)?;
            drop(mem::replace(item, made));
            Ok(())
        }
        // Any other item stays as it is.
        _ => Ok(()),
    }
}
