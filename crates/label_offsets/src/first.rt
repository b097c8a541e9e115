//! The first item of a kind in a body, in text order.

ghost use Rattle.std.specs.Prelude.{◌≡◌, [], IfOk, length, ◌≤◌, ◌+◌, take};
ghost use Rattle.label_offsets.specs.Leaps.{seeks_leaps as the_seeks_leaps, seeks_arms as the_seeks_arms, seeks_lands as the_seeks_lands, is_sought as the_is_sought, here_if, paths_of, paths_from, sections_paths, leaps_from, places_from, first, under};

use crate::places::path_under;
use c_tree::{Branch, Item, Path, Section};
use c_types::{List, Memory};
use std::alloc::Global;

/// What is sought.
#[derive(Clone, Copy)]
pub enum Sought {
    /// The Leaps, of any label.
    Leap,
    /// The Arms and Lands of the label.
    Guard(u32),
    /// The Lands of the label.
    Land(u32),
}

/// The path of the first Leap of a body in text order (docs/REWRITING): an item before what it
/// holds, a then-list before its else-list, sections in order. `None` where the body has no Leap.
/// A `for` is searched in its body alone, not in its first part.
pub fn first_leap(alloc: Global, body: &List<Item>) -> Result<Option<Path>, Memory>
    ensures { IfOk result (λ r. r ≡ first (leaps_from 0 body.now)) }
{
    first_among(alloc, Sought::Leap, body.as_slice(), 0)
}

/// The path of the first Leap of a body in text order, where the first items of the body, so many as `from` says, have
/// none. They are not looked at.
pub fn first_leap_from(alloc: Global, body: &List<Item>, from: u32) -> Result<Option<Path>, Memory>
    requires { leaps_from 0 (take from body.now) ≡ [] }
    ensures { IfOk result (λ r. r ≡ first (leaps_from 0 body.now)) }
{
    first_among(alloc, Sought::Leap, body.as_slice(), from as usize)
}

/// The path of the first Arm or Land of the label in text order, or `None` where the body has none. A
/// `for` is searched in its body alone, not in its first part.
pub fn first_place(alloc: Global, body: &List<Item>, label: u32) -> Result<Option<Path>, Memory>
    ensures { IfOk result (λ r. r ≡ first (places_from label 0 body.now)) }
{
    first_among(alloc, Sought::Guard(label), body.as_slice(), 0)
}

fn seeks_leaps(sought: Sought) -> bool
    ensures { result ≡ the_seeks_leaps sought }
{
    match sought {
        Sought::Leap => true,
        _ => false,
    }
}

fn seeks_arms(sought: Sought, label: u32) -> bool
    ensures { result ≡ the_seeks_arms sought label }
{
    match sought {
        Sought::Guard(guard) => guard == label,
        _ => false,
    }
}

fn seeks_lands(sought: Sought, label: u32) -> bool
    ensures { result ≡ the_seeks_lands sought label }
{
    match sought {
        Sought::Leap => false,
        Sought::Guard(guard) => guard == label,
        Sought::Land(land) => label == land,
    }
}

fn is_sought(sought: Sought, item: &Item) -> bool
    ensures { result ≡ the_is_sought sought item.now }
{
    match item {
        Item::Leap(_) => seeks_leaps(sought),
        Item::Arm(label, _) => seeks_arms(sought, *label),
        Item::Land(label) => seeks_lands(sought, *label),
        _ => false,
    }
}

fn here(alloc: Global, sought: Sought, item: &Item, at: u32) -> Option<Path>
    ensures { result ≡ first (here_if (the_is_sought sought item.now) at) }
{
    if is_sought(sought, item) {
        Some(Path {
            steps: List::new(alloc),
            item: at,
        })
    } else {
        None
    }
}

#[cycle(find)]
fn first_among(
    alloc: Global,
    sought: Sought,
    items: &[Item],
    from: usize,
) -> Result<Option<Path>, Memory>
    requires bound { length items.now ≤ 4294967295 }
    requires none { paths_from sought 0 (take from items.now) ≡ [] }
    ensures { IfOk result (λ r. r ≡ first (paths_from sought 0 items.now)) }
{
    for i in from..items.len() {
        if let Some(path) = first_of(alloc, sought, &items[i], i as u32)? {
            return Ok(Some(path));
        }
    }
    Ok(None)
}

#[cycle(find)]
fn first_under(
    alloc: Global,
    sought: Sought,
    list: &List<Item>,
    item: u32,
    branch: Branch,
) -> Result<Option<Path>, Memory>
    ensures { IfOk result (λ r. r ≡ first (under item branch (paths_from sought 0 list.now))) }
{
    match first_among(alloc, sought, list.as_slice(), 0)? {
        Some(path) => Ok(Some(path_under(path, item, branch)?)),
        None => Ok(None),
    }
}

/// The path of the first sought item that is the item `at` of a list, or stands in it.
#[cycle(find)]
pub fn first_of(alloc: Global, sought: Sought, item: &Item, at: u32) -> Result<Option<Path>, Memory>
    ensures { IfOk result (λ r. r ≡ first (paths_of sought item.now at)) }
{
    match item {
        Item::If(_, a, b) => match first_under(alloc, sought, a, at, Branch::Then)? {
            Some(path) => Ok(Some(path)),
            None => first_under(alloc, sought, b, at, Branch::Else),
        },
        Item::While(_, a) => first_under(alloc, sought, a, at, Branch::Body),
        Item::Do(a, _) => first_under(alloc, sought, a, at, Branch::Body),
        Item::For(_, _, _, a) => first_under(alloc, sought, a, at, Branch::Body),
        Item::Block(a) => first_under(alloc, sought, a, at, Branch::Body),
        Item::Switch(_, sections) => first_section(alloc, sought, sections.as_slice(), at),
        _ => Ok(here(alloc, sought, item, at)),
    }
}

#[cycle(find)]
fn first_section(
    alloc: Global,
    sought: Sought,
    sections: &[Section],
    at: u32,
) -> Result<Option<Path>, Memory>
    requires { length sections.now ≤ 4294967295 }
    ensures { IfOk result (λ r. r ≡ first (sections_paths sought at 0 sections.now)) }
{
    for k in 0..sections.len() {
        let branch = Branch::Section(k as u32);
        if let Some(path) = first_under(alloc, sought, &sections[k].list, at, branch)? {
            return Ok(Some(path));
        }
    }
    Ok(None)
}
