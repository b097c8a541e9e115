ghost use Rattle.std.specs.Prelude.{◌≡◌, ◌<◌, eqb, false, length, remove, Some, None};
ghost use Rattle.c_tree.specs.declared.tree.Item.{Arm};
ghost use Rattle.c_tree.specs.Changed.{one};
ghost use Rattle.c_tree.specs.Trees.{tree_of, trees_of, sections_of};
ghost use Rattle.move_laws.specs.Drops.{dropped, dropped_item, dropped_sections};
ghost use Rattle.guard_edits.specs.Goes.{goes as the_goes, IsWithoutGuard};

use c_tree::{Expression, Item, Section};
use c_types::List;
use std::mem;

/// Whether the item goes with the guard: its Land, or an Arm of it without condition.
fn goes(item: &Item, label: u32) -> bool
    ensures { result ≡ the_goes label item.now }
{
    match item {
        Item::Arm(at, e) => arm_goes(*at, e, label),
        Item::Land(at) => label == *at,
        _ => false,
    }
}

fn arm_goes(at: u32, e: &Option<Expression>, label: u32) -> bool
    ensures { result ≡ the_goes label (Arm at e.now) }
{
    match e {
        Some(_) => false,
        None => label == at,
    }
}

/// An Arm without its guard.
fn disarmed(at: u32, e: Option<Expression>, label: u32) -> Item
    requires { the_goes label (Arm at e) ≡ false }
    ensures { one (tree_of result) ≡ dropped_item (eqb label) (tree_of (Arm at e)) }
{
    match e {
        Some(e) => {
            if label == at {
                Item::Evaluate(e)
            } else {
                Item::Arm(at, Some(e))
            }
        }
        None => Item::Arm(at, None),
    }
}

/// Lets the item at a place go.
fn take_away(list: &mut List<Item>, at: usize)
    requires { at < length list.old }
    ensures { list.new ≡ remove list.old at }
{
    drop(list.remove(at));
}

#[cycle(drops)]
fn drop_inside(item: &mut Item, label: u32)
    requires { the_goes label item.old ≡ false }
    ensures { one (tree_of item.new) ≡ dropped_item (eqb label) (tree_of item.old) }
{
    match mem::replace(item, Item::Break) {
        Item::If(test, mut a, mut b) => {
            drop_in(&mut a, label);
            drop_in(&mut b, label);
            *item = Item::If(test, a, b);
        }
        Item::While(test, mut a) => {
            drop_in(&mut a, label);
            *item = Item::While(test, a);
        }
        Item::Do(mut a, test) => {
            drop_in(&mut a, label);
            *item = Item::Do(a, test);
        }
        Item::For(mut first, test, update, mut a) => {
            drop_in(&mut first, label);
            drop_in(&mut a, label);
            *item = Item::For(first, test, update, a);
        }
        Item::Switch(selector, mut sections) => {
            drop_sections(&mut sections, label);
            *item = Item::Switch(selector, sections);
        }
        Item::Block(mut a) => {
            drop_in(&mut a, label);
            *item = Item::Block(a);
        }
        Item::Arm(at, e) => *item = disarmed(at, e, label),
        other => *item = other,
    }
}

#[cycle(drops)]
fn drop_in(list: &mut List<Item>, label: u32)
    ensures { trees_of list.new ≡ dropped (eqb label) (trees_of list.old) }
{
    let mut i = 0;
    while i < list.len() {
        if goes(&list.as_slice()[i], label) {
            take_away(list, i);
        } else {
            drop_inside(list.at_mut(i), label);
            i += 1;
        }
    }
}

#[cycle(drops)]
fn drop_section(section: &mut Section, label: u32)
    ensures { IsWithoutGuard label section.old section.new }
{
    drop_in(&mut section.list, label);
}

#[cycle(drops)]
fn drop_sections(sections: &mut List<Section>, label: u32)
    ensures { sections_of sections.new ≡ dropped_sections (eqb label) (sections_of sections.old) }
{
    let mut k = 0;
    while k < sections.len() {
        drop_section(sections.at_mut(k), label);
        k += 1;
    }
}

/// Takes a guard away from a body: its Lands and its Arms without a condition go, and of an Arm with a
/// condition the condition stays as a statement. It takes no memory.
pub fn drop_guard(body: &mut List<Item>, label: u32)
    ensures { trees_of body.new ≡ dropped (eqb label) (trees_of body.old) }
{
    drop_in(body, label);
}
