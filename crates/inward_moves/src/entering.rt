ghost use Rattle.std.specs.Prelude.{◌≡◌, ◌≤◌, ◌<◌, ◌+◌, ◌++◌, ◌∷◌, [], length, IfOk, IsSome, slice_get, vec_len, vec_capacity};
ghost use Rattle.c_tree.specs.Inward.{section_entered, entered};
ghost use Rattle.c_tree.specs.Join.{Holds};
ghost use Rattle.c_tree.specs.Outward.{HasBranch};
ghost use Rattle.c_tree.specs.Paths.{child as the_child, list_of, with_list};

use c_tree::{Branch, Expression, Item, Node, Section, Selector, Test, child};
use c_types::{Boxed, List, MOST, Memory};
use move_list_edits::{and_off, or_on};
use std::alloc::Global;
use std::mem;

/// A `Vec` that holds a Leap alone, with room for the items of a list behind it.
#[derive(Drop)]
pub struct Front {
    items: Vec<Item>,
}

fn make_front(alloc: Global, label: u32, more: usize) -> Result<Front, Memory>
    ensures leap { IfOk result (λ f. f.items.items ≡ Item.Leap label ∷ []) }
    ensures room { IfOk result (λ f. 1 + more ≤ vec_capacity f.items) }
    ensures bound { IfOk result (λ f. 1 + more ≤ 4294967295) }
{
    if more >= MOST {
        return Err(Memory);
    }
    let mut items = Vec::with_capacity(alloc, more + 1)?;
    items.push(Item::Leap(label))?;
    Ok(Front { items })
}

fn put_front(alloc: Global, list: &mut List<Item>, front: Front, label: u32)
    requires leap { front.items.items ≡ Item.Leap label ∷ [] }
    requires room { 1 + length list.old ≤ vec_capacity front.items }
    requires bound { 1 + length list.old ≤ 4294967295 }
    ensures { list.new ≡ Item.Leap label ∷ list.old }
{
    let Front { items: mut all } = front;
    let mut items = list.take(alloc);
    match all.append(&mut items) {
        Ok(()) => list.put(all),
        Err(_) => unreachable!(),
    }
}

fn put_first(alloc: Global, section: &mut Section, front: Front, label: u32)
    requires leap { front.items.items ≡ Item.Leap label ∷ [] }
    requires room { 1 + length (list_of section.old) ≤ vec_capacity front.items }
    requires bound { 1 + length (list_of section.old) ≤ 4294967295 }
    ensures { section.new ≡ with_list (Item.Leap label ∷ list_of section.old) section.old }
{
    put_front(alloc, &mut section.list, front, label);
}

fn enter_section(alloc: Global, sections: &mut List<Section>, k: usize, front: Front, label: u32)
    requires leap { front.items.items ≡ Item.Leap label ∷ [] }
    requires room { Holds (λ c. 1 + length (list_of c) ≤ vec_capacity front.items) (slice_get sections.old k) }
    requires bound { Holds (λ c. 1 + length (list_of c) ≤ 4294967295) (slice_get sections.old k) }
    ensures { sections.new ≡ section_entered label k sections.old }
{
    put_first(alloc, sections.at_mut(k), front, label);
}

fn pick(selector: &mut Selector, label: u32, number: i128, mut spare: Boxed<Selector>)
    ensures { selector.new ≡ Selector.Pick label number selector.old }
{
    spare.set(mem::replace(selector, placeholder()));
    *selector = Selector::Pick(label, number, spare);
}

fn placeholder() -> Selector {
    Selector::Source(Expression {
        kind: None,
        node: Node::Number(0),
    })
}

/// What a construct takes as a Leap goes into it: a `Vec` for its list, and boxes for its test and
/// its selector.
#[derive(Drop)]
pub struct Spare {
    front: Front,
    test: Boxed<Test>,
    selector: Boxed<Selector>,
}

fn length_at(item: &Item, branch: Branch) -> usize
    requires { IsSome (the_child branch item.now) }
    ensures { Holds (λ a. length a ≡ result) (the_child branch item.now) }
{
    match child(item, branch) {
        Some(list) => list.len(),
        None => unreachable!(),
    }
}

pub fn make_spare(alloc: Global, item: &Item, branch: Branch, label: u32) -> Result<Spare, Memory>
    requires { IsSome (the_child branch item.now) }
    ensures leap { IfOk result (λ s. s.front.items.items ≡ Item.Leap label ∷ []) }
    ensures room { IfOk result (λ s. Holds (λ a. 1 + length a ≤ vec_capacity s.front.items) (the_child branch item.now)) }
    ensures bound { IfOk result (λ s. Holds (λ a. 1 + length a ≤ 4294967295) (the_child branch item.now)) }
{
    let front = make_front(alloc, label, length_at(item, branch))?;
    let test = Boxed::new(alloc, Test::On(label))?;
    let selector = Boxed::new(alloc, placeholder())?;
    Ok(Spare {
        front,
        test,
        selector,
    })
}

/// The construct with the Leap first in its list at the branch. It takes no memory.
pub fn enter(alloc: Global, item: &mut Item, branch: Branch, label: u32, number: i128, spare: Spare)
    requires branch { HasBranch branch item.old }
    requires leap { spare.front.items.items ≡ Item.Leap label ∷ [] }
    requires room { Holds (λ a. 1 + length a ≤ vec_capacity spare.front.items) (the_child branch item.old) }
    requires bound { Holds (λ a. 1 + length a ≤ 4294967295) (the_child branch item.old) }
    ensures { item.new ≡ entered label number branch item.old }
{
    let Spare {
        front,
        test: spare_test,
        selector: spare_selector,
    } = spare;
    match (branch, item) {
        (Branch::Then, Item::If(test, list, _)) => {
            put_front(alloc, list, front, label);
            or_on(test, label, spare_test);
        }
        (Branch::Else, Item::If(test, _, list)) => {
            put_front(alloc, list, front, label);
            and_off(test, label, spare_test);
        }
        (Branch::Body, Item::While(test, list)) => {
            put_front(alloc, list, front, label);
            or_on(test, label, spare_test);
        }
        (Branch::Body, Item::Do(list, _)) => put_front(alloc, list, front, label),
        (Branch::Section(k), Item::Switch(selector, sections)) => {
            enter_section(alloc, sections, k as usize, front, label);
            pick(selector, label, number, spare_selector);
        }
        _ => unreachable!(),
    }
}
