ghost use Rattle.std.specs.Prelude.{◌≡◌, ◌<◌, IsSome, option_map, slice_get, IsTrue, length};
ghost use Rattle.std.specs.Option.{option_copied, option_copied_mut};
ghost use Rattle.c_tree.specs.Paths.{list_of, child as the_child, list_at as the_list_at, fits as the_fits, put_at, IsExchanged};
ghost use Rattle.std.specs.Borrow.{sem};
ghost use Rattle.c_tree.specs.Lending.{LendsSection, LendsSections, LendsChild};

use crate::tree::{Branch, Item, Path, Section, Step};
use c_types::List;
use std::mem;

fn section_list(section: &Section) -> &List<Item>
    ensures { result.now ≡ list_of section.now }
{
    &section.list
}

/// The list of the item at the branch, or `None` where the item has no such branch
/// (docs/REWRITING.md, Paths).
pub fn child(item: &Item, branch: Branch) -> Option<&List<Item>>
    ensures { option_copied result ≡ the_child branch item.now }
{
    match (branch, item) {
        (Branch::Body, Item::While(_, list)) => Some(list),
        (Branch::Body, Item::Do(list, _)) => Some(list),
        (Branch::Body, Item::For(_, _, _, list)) => Some(list),
        (Branch::Body, Item::Block(list)) => Some(list),
        (Branch::Then, Item::If(_, list, _)) => Some(list),
        (Branch::Else, Item::If(_, _, list)) => Some(list),
        (Branch::Section(k), Item::Switch(_, sections)) => match sections.get(k as usize) {
            Some(section) => Some(section_list(section)),
            None => None,
        },
        _ => None,
    }
}

/// The list that the steps lead to, or `None` where a step names no item or no branch of it
/// (docs/REWRITING.md, Paths). It takes no memory.
pub fn find_list<'a>(list: &'a List<Item>, steps: &[Step]) -> Option<&'a List<Item>>
    ensures { option_copied result ≡ the_list_at list.now steps.now }
{
    match steps {
        [] => Some(list),
        [step, rest @ ..] => {
            let Some(item) = list.get(step.item as usize) else {
                return None;
            };
            let Some(inner) = child(item, step.branch) else {
                return None;
            };
            find_list(inner, rest)
        }
    }
}

/// Whether the path leads to an item: its steps lead to a list, and that list has an item at its
/// place (docs/REWRITING.md, Paths). It takes no memory.
pub fn fits(list: &List<Item>, at: &Path) -> bool
    ensures { result ≡ the_fits list.now at.now.steps at.now.item }
{
    match find_list(list, at.steps.as_slice()) {
        Some(here) => (at.item as usize) < here.len(),
        None => false,
    }
}

/// The list in which the item at the path stands (docs/REWRITING.md, Paths). It takes no memory.
pub fn list_at<'a>(list: &'a List<Item>, at: &Path) -> &'a List<Item>
    requires { IsTrue (the_fits list.now at.now.steps at.now.item) }
    ensures list { the_list_at list.now at.now.steps ≡ Some result.now }
    ensures within { at.now.item < length result.now }
{
    match find_list(list, at.steps.as_slice()) {
        Some(here) => here,
        None => unreachable!(),
    }
}

fn section_list_mut(section: &mut Section) -> &mut List<Item>
    ensures* writes_back { sem 𝓛 (LendsSection section.entry result) }
    ensures value { result.now ≡ list_of section.old }
{
    &mut section.list
}

fn sections_list_mut(sections: &mut List<Section>, k: usize) -> Option<&mut List<Item>>
    ensures* writes_back { sem 𝓛 (LendsSections sections.entry k result) }
    ensures value { option_copied_mut result ≡ option_map list_of (slice_get sections.old k) }
{
    if k < sections.len() {
        Some(section_list_mut(sections.at_mut(k)))
    } else {
        None
    }
}

fn child_mut(item: &mut Item, branch: Branch) -> Option<&mut List<Item>>
    ensures* writes_back { sem 𝓛 (LendsChild item.entry branch result) }
    ensures value { option_copied_mut result ≡ the_child branch item.old }
{
    match (branch, item) {
        (Branch::Body, Item::While(_, lent)) => Some(lent),
        (Branch::Body, Item::Do(lent, _)) => Some(lent),
        (Branch::Body, Item::For(_, _, _, lent)) => Some(lent),
        (Branch::Body, Item::Block(lent)) => Some(lent),
        (Branch::Then, Item::If(_, lent, _)) => Some(lent),
        (Branch::Else, Item::If(_, _, lent)) => Some(lent),
        (Branch::Section(k), Item::Switch(_, sections)) => {
            sections_list_mut(sections, k as usize)
        }
        _ => None,
    }
}

/// Puts the list `new` where the steps lead, and gives the list that stood there. Nothing else of
/// the body is changed (docs/REWRITING.md, Paths). It takes no memory, so it can't fail, and it
/// moves no item of either list.
///
/// `put` says what the body then is. `exchanged` says it list by list: what stands in the new list
/// stands there, what is reached another way is as it was, and with the old list put back the body
/// is as it was.
pub fn replace_at(list: &mut List<Item>, steps: &[Step], new: List<Item>) -> List<Item>
    requires { IsSome (the_list_at list.old steps.now) }
    ensures taken { the_list_at list.old steps.now ≡ Some result }
    ensures put { list.new ≡ put_at list.old steps.now new }
    ensures exchanged { IsExchanged list.old steps.now new list.new }
{
    exchange(list, steps, new)
}

fn exchange(list: &mut List<Item>, steps: &[Step], new: List<Item>) -> List<Item>
    requires { IsSome (the_list_at list.old steps.now) }
    ensures taken { the_list_at list.old steps.now ≡ Some result }
    ensures put { list.new ≡ put_at list.old steps.now new }
{
    match steps {
        [] => mem::replace(list, new),
        [step, rest @ ..] => {
            let item = list.at_mut(step.item as usize);
            match child_mut(item, step.branch) {
                Some(inner) => exchange(inner, rest, new),
                None => unreachable!(),
            }
        }
    }
}
