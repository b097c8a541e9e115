ghost use Rattle.std.specs.Prelude.{◌≡◌, ◌<◌, ℕ, List, ◌∷◌, length, take, drop, reverse, true, [], None, IfOk};
ghost use Rattle.c_tree.specs.Paths.{list_of, with_list};
ghost use Rattle.c_tree.specs.Trees.{trees_of, sections_of, join};
ghost use Rattle.jump_meaning.specs.Code.{FunctionTree};
ghost use Rattle.c_tree.specs.Views.{tree_at};
ghost use Rattle.tidy_loops.specs.Slots.{count_in, Tells};
ghost use Rattle.break_recovery.specs.Next.{put, next_list, next_at, next_here, next_item, next_either, next_sections, changed_to};
ghost use Rattle.break_recovery.specs.Steady.{AreAlike, AreAlikeOf, AreSectionsAlike, IsAlike, IsSaid};
ghost use Rattle.break_recovery.specs.Ways.{IsWay, IsWayAt, IsWayIn, IsWayOf, IsWayThrough, IsStep, LeadsOn};
ghost use Rattle.break_recovery.specs.Within.{IsWithin, AreSectionsWithin, AreWithin};

use crate::held::Holds;
use crate::here::change_here;
use c_tree::{Item, Section};
use c_types::{List, Memory};
use std::alloc::Global;
use std::mem;
use tidy_loops::deeper;

/// The next step of a way, 0 where it ends. The way stands with its last step in front.
pub fn next_step(way: &mut List<usize>) -> usize
    ensures { IsStep (reverse way.old) result (reverse way.new) }
{
    match way.pop() {
        Some(step) => step,
        None => 0,
    }
}

/// Whether the item at the front of a way was asked before: the way goes on in it, and is sure.
pub fn was_asked(way: &List<usize>, sure: bool) -> bool
    ensures { result ≡ true → (sure ≡ true) × (way.now ≡ [] → ⊥) }
{
    sure && !way.is_empty()
}

/// Makes the next change of a list at this level, if one applies, and answers its slot. Else the list
/// stays. The counts are those of the function. The way leads to the last change, and then to this one.
/// Where it is sure, no item that it goes on in allows a change itself, so none is asked: a change that
/// makes no check of another slot, and takes none, keeps that so.
#[cycle(search)]
fn change_list(
    alloc: Global,
    counts: &List<u64>,
    level: u32,
    list: &mut List<Item>,
    way: &mut List<usize>,
    sure: &mut bool,
    holds: &mut Holds,
) -> Result<Option<u32>, Memory>
    requires { IsWithin (count_in counts.now) (trees_of list.old) }
    ensures made { IfOk result (λ it. (f : FunctionTree) → Tells counts.now f → IsWay sure.old f level (reverse way.old) (trees_of list.old) → changed_to it (trees_of list.new) ≡ next_list f level (trees_of list.old)) }
    ensures kept { IfOk result (λ it. it ≡ None → list.new ≡ list.old) }
    ensures alike { IfOk result (λ it. IsSaid it sure.new (λ g. AreAlike counts.now g (trees_of list.old) (trees_of list.new))) }
    ensures way { IfOk result (λ it. LeadsOn counts.now it (λ g. g) (λ f. IsWay sure.old f level (reverse way.old) (trees_of list.old)) (λ (g : ℕ) h. IsWay sure.new h level (reverse way.new) (trees_of list.new))) }
{
    let inside = deeper(level)?;
    let mut i = next_step(way);
    while i < list.len() {
        let change = change_at(alloc, counts, inside, list, i, way, sure, holds)?;
        if change.is_some() {
            way.push(i)?;
            return Ok(change);
        }
        *way = List::new(alloc);
        i += 1;
    }
    Ok(None)
}

#[cycle(search)]
fn change_at(
    alloc: Global,
    counts: &List<u64>,
    level: u32,
    list: &mut List<Item>,
    at: usize,
    way: &mut List<usize>,
    sure: &mut bool,
    holds: &mut Holds,
) -> Result<Option<u32>, Memory>
    requires place { at < length list.old }
    requires within { IsWithin (count_in counts.now) (trees_of list.old) }
    ensures made { IfOk result (λ it. (f : FunctionTree) → Tells counts.now f → IsWayAt sure.old f level (reverse way.old) (trees_of (drop at list.old)) → changed_to it (trees_of list.new) ≡ put (join (trees_of (take at list.old))) (next_at f level (trees_of (drop at list.old)))) }
    ensures kept { IfOk result (λ it. it ≡ None → list.new ≡ list.old) }
    ensures alike { IfOk result (λ it. IsSaid it sure.new (λ g. AreAlike counts.now g (trees_of list.old) (trees_of list.new))) }
    ensures way { IfOk result (λ it. LeadsOn counts.now it (λ g. g) (λ f. IsWayAt sure.old f level (reverse way.old) (trees_of (drop at list.old))) (λ (g : ℕ) h. IsWayAt sure.new h level (reverse way.new) (trees_of (drop at list.new)))) }
{
    if was_asked(way, *sure) {
        return change_within(alloc, counts, level, list, at, way, sure, holds);
    }
    change_asked(alloc, counts, level, list, at, way, sure, holds)
}

/// Makes the next change at this place of a list, whose item may allow one itself.
#[cycle(search)]
fn change_asked(
    alloc: Global,
    counts: &List<u64>,
    level: u32,
    list: &mut List<Item>,
    at: usize,
    way: &mut List<usize>,
    sure: &mut bool,
    holds: &mut Holds,
) -> Result<Option<u32>, Memory>
    requires place { at < length list.old }
    requires within { IsWithin (count_in counts.now) (trees_of list.old) }
    ensures made { IfOk result (λ it. (f : FunctionTree) → Tells counts.now f → IsWayAt sure.old f level (reverse way.old) (trees_of (drop at list.old)) → changed_to it (trees_of list.new) ≡ put (join (trees_of (take at list.old))) (next_at f level (trees_of (drop at list.old)))) }
    ensures kept { IfOk result (λ it. it ≡ None → list.new ≡ list.old) }
    ensures alike { IfOk result (λ it. IsSaid it sure.new (λ g. AreAlike counts.now g (trees_of list.old) (trees_of list.new))) }
    ensures way { IfOk result (λ it. LeadsOn counts.now it (λ g. g) (λ f. IsWayAt sure.old f level (reverse way.old) (trees_of (drop at list.old))) (λ (g : ℕ) h. IsWayAt sure.new h level (reverse way.new) (trees_of (drop at list.new)))) }
{
    let here = change_here(alloc, counts, level, list, at, sure, holds)?;
    if here.is_some() {
        *way = List::new(alloc);
        return Ok(here);
    }
    change_within(alloc, counts, level, list, at, way, sure, holds)
}

/// Makes the next change in the item at this place, which allows none itself.
#[cycle(search)]
fn change_within(
    alloc: Global,
    counts: &List<u64>,
    level: u32,
    list: &mut List<Item>,
    at: usize,
    way: &mut List<usize>,
    sure: &mut bool,
    holds: &mut Holds,
) -> Result<Option<u32>, Memory>
    requires place { at < length list.old }
    requires within { IsWithin (count_in counts.now) (trees_of list.old) }
    ensures made { IfOk result (λ it. (f : FunctionTree) → Tells counts.now f → next_here f level (trees_of (drop at list.old)) ≡ None → IsWayAt sure.old f level (reverse way.old) (trees_of (drop at list.old)) → changed_to it (trees_of list.new) ≡ put (join (trees_of (take at list.old))) (next_at f level (trees_of (drop at list.old)))) }
    ensures kept { IfOk result (λ it. it ≡ None → list.new ≡ list.old) }
    ensures alike { IfOk result (λ it. IsSaid it sure.new (λ g. AreAlike counts.now g (trees_of list.old) (trees_of list.new))) }
    ensures way { IfOk result (λ it. LeadsOn counts.now it (λ g. g) (λ f. (next_here f level (trees_of (drop at list.old)) ≡ None) × IsWayAt sure.old f level (reverse way.old) (trees_of (drop at list.old))) (λ (g : ℕ) h. IsWayAt sure.new h level (reverse way.new) (trees_of (drop at list.new)))) }
{
    change_item(alloc, counts, level, list.at_mut(at), way, sure, holds)
}

/// Makes the next change of an item, whose lists stand at this level.
#[cycle(search)]
pub fn change_item(
    alloc: Global,
    counts: &List<u64>,
    level: u32,
    item: &mut Item,
    way: &mut List<usize>,
    sure: &mut bool,
    holds: &mut Holds,
) -> Result<Option<u32>, Memory>
    requires { AreWithin (count_in counts.now) (tree_at item.old) }
    ensures made { IfOk result (λ it. (f : FunctionTree) → Tells counts.now f → IsWayIn sure.old f level (reverse way.old) (tree_at item.old) → changed_to it (tree_at item.new) ≡ next_item f level (tree_at item.old)) }
    ensures kept { IfOk result (λ it. it ≡ None → item.new ≡ item.old) }
    ensures alike { IfOk result (λ it. IsSaid it sure.new (λ g. IsAlike counts.now g (tree_at item.old) (tree_at item.new))) }
    ensures way { IfOk result (λ it. LeadsOn counts.now it (λ g. g) (λ f. IsWayIn sure.old f level (reverse way.old) (tree_at item.old)) (λ (g : ℕ) h. IsWayIn sure.new h level (reverse way.new) (tree_at item.new))) }
{
    match mem::replace(item, Item::Break) {
        Item::If(test, mut a, mut b) => {
            let change = change_either(alloc, counts, level, &mut a, &mut b, way, sure, holds);
            *item = Item::If(test, a, b);
            change
        }
        Item::While(test, mut a) => {
            let change = change_list(alloc, counts, level, &mut a, way, sure, holds);
            *item = Item::While(test, a);
            change
        }
        Item::Do(mut a, test) => {
            let change = change_list(alloc, counts, level, &mut a, way, sure, holds);
            *item = Item::Do(a, test);
            change
        }
        Item::For(mut first, test, third, mut a) => {
            let change = change_either(alloc, counts, level, &mut first, &mut a, way, sure, holds);
            *item = Item::For(first, test, third, a);
            change
        }
        Item::Switch(selector, mut sections) => {
            let change = change_sections(alloc, counts, level, &mut sections, way, sure, holds);
            *item = Item::Switch(selector, sections);
            change
        }
        Item::Block(mut a) => {
            let change = change_list(alloc, counts, level, &mut a, way, sure, holds);
            *item = Item::Block(a);
            change
        }
        other => {
            *item = other;
            Ok(None)
        }
    }
}

/// Makes the next change of the first of two lists, or else of the second.
#[cycle(search)]
fn change_either(
    alloc: Global,
    counts: &List<u64>,
    level: u32,
    first: &mut List<Item>,
    second: &mut List<Item>,
    way: &mut List<usize>,
    sure: &mut bool,
    holds: &mut Holds,
) -> Result<Option<u32>, Memory>
    requires { IsWithin (count_in counts.now) (trees_of first.old) × IsWithin (count_in counts.now) (trees_of second.old) }
    ensures made { IfOk result (λ it. (f : FunctionTree) → Tells counts.now f → IsWayOf sure.old f level (reverse way.old) (trees_of first.old) (trees_of second.old) → changed_to it (trees_of first.new, trees_of second.new) ≡ next_either f level (trees_of first.old) (trees_of second.old)) }
    ensures kept { IfOk result (λ it. it ≡ None → (first.new ≡ first.old) × (second.new ≡ second.old)) }
    ensures alike { IfOk result (λ it. IsSaid it sure.new (λ g. AreAlikeOf counts.now g (trees_of first.old) (trees_of second.old) (trees_of first.new) (trees_of second.new))) }
    ensures way { IfOk result (λ it. LeadsOn counts.now it (λ g. g) (λ f. IsWayOf sure.old f level (reverse way.old) (trees_of first.old) (trees_of second.old)) (λ (g : ℕ) h. IsWayOf sure.new h level (reverse way.new) (trees_of first.new) (trees_of second.new))) }
{
    if next_step(way) > 0 {
        return change_second(alloc, counts, level, second, way, sure, holds);
    }
    let change = change_list(alloc, counts, level, first, way, sure, holds)?;
    if change.is_some() {
        way.push(0)?;
        return Ok(change);
    }
    *way = List::new(alloc);
    change_second(alloc, counts, level, second, way, sure, holds)
}

/// Makes the next change of the second of two lists, where the first has none.
#[cycle(search)]
fn change_second(
    alloc: Global,
    counts: &List<u64>,
    level: u32,
    second: &mut List<Item>,
    way: &mut List<usize>,
    sure: &mut bool,
    holds: &mut Holds,
) -> Result<Option<u32>, Memory>
    requires { IsWithin (count_in counts.now) (trees_of second.old) }
    ensures made { IfOk result (λ it. (f : FunctionTree) → Tells counts.now f → IsWay sure.old f level (reverse way.old) (trees_of second.old) → changed_to it (trees_of second.new) ≡ next_list f level (trees_of second.old)) }
    ensures kept { IfOk result (λ it. it ≡ None → second.new ≡ second.old) }
    ensures alike { IfOk result (λ it. IsSaid it sure.new (λ g. AreAlike counts.now g (trees_of second.old) (trees_of second.new))) }
    ensures way { IfOk result (λ it. LeadsOn counts.now it (λ g. g) (λ f. IsWay sure.old f level (reverse way.old) (trees_of second.old)) (λ (g : ℕ) h. (w : List ℕ) × (reverse way.new ≡ 1 ∷ w) × IsWay sure.new h level w (trees_of second.new))) }
{
    let change = change_list(alloc, counts, level, second, way, sure, holds)?;
    if change.is_some() {
        way.push(1)?;
        return Ok(change);
    }
    Ok(None)
}

#[cycle(search)]
fn change_sections(
    alloc: Global,
    counts: &List<u64>,
    level: u32,
    sections: &mut List<Section>,
    way: &mut List<usize>,
    sure: &mut bool,
    holds: &mut Holds,
) -> Result<Option<u32>, Memory>
    requires { AreSectionsWithin (count_in counts.now) (sections_of sections.old) }
    ensures made { IfOk result (λ it. (f : FunctionTree) → Tells counts.now f → IsWayThrough sure.old f level (reverse way.old) (sections_of sections.old) → changed_to it (sections_of sections.new) ≡ next_sections f level (sections_of sections.old)) }
    ensures kept { IfOk result (λ it. it ≡ None → sections.new ≡ sections.old) }
    ensures alike { IfOk result (λ it. IsSaid it sure.new (λ g. AreSectionsAlike counts.now g (sections_of sections.old) (sections_of sections.new))) }
    ensures way { IfOk result (λ it. LeadsOn counts.now it (λ g. g) (λ f. IsWayThrough sure.old f level (reverse way.old) (sections_of sections.old)) (λ (g : ℕ) h. IsWayThrough sure.new h level (reverse way.new) (sections_of sections.new))) }
{
    let mut i = next_step(way);
    while i < sections.len() {
        let change = change_section(alloc, counts, level, sections.at_mut(i), way, sure, holds)?;
        if change.is_some() {
            way.push(i)?;
            return Ok(change);
        }
        *way = List::new(alloc);
        i += 1;
    }
    Ok(None)
}

#[cycle(search)]
fn change_section(
    alloc: Global,
    counts: &List<u64>,
    level: u32,
    section: &mut Section,
    way: &mut List<usize>,
    sure: &mut bool,
    holds: &mut Holds,
) -> Result<Option<u32>, Memory>
    requires { IsWithin (count_in counts.now) (trees_of (list_of section.old)) }
    ensures made { IfOk result (λ it. (f : FunctionTree) → Tells counts.now f → IsWay sure.old f level (reverse way.old) (trees_of (list_of section.old)) → changed_to it (trees_of (list_of section.new)) ≡ next_list f level (trees_of (list_of section.old))) }
    ensures rest { IfOk result (λ it. section.new ≡ with_list (list_of section.new) section.old) }
    ensures kept { IfOk result (λ it. it ≡ None → section.new ≡ section.old) }
    ensures alike { IfOk result (λ it. IsSaid it sure.new (λ g. AreAlike counts.now g (trees_of (list_of section.old)) (trees_of (list_of section.new)))) }
    ensures way { IfOk result (λ it. LeadsOn counts.now it (λ g. g) (λ f. IsWay sure.old f level (reverse way.old) (trees_of (list_of section.old))) (λ (g : ℕ) h. IsWay sure.new h level (reverse way.new) (trees_of (list_of section.new)))) }
{
    change_list(alloc, counts, level, &mut section.list, way, sure, holds)
}
