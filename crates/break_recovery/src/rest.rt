//! The way down to the list of the last change, and the changes in a row there.

ghost use Rattle.std.specs.Prelude.{◌≡◌, ℕ, List, [], reverse, true, false, IfOk};
ghost use Rattle.c_tree.specs.Paths.{list_of, with_list};
ghost use Rattle.c_tree.specs.Trees.{Forest, trees_of, sections_of};
ghost use Rattle.c_tree.specs.Views.{tree_at};
ghost use Rattle.break_recovery.specs.Next.{next_list, next_item, next_either, next_sections};
ghost use Rattle.break_recovery.specs.Steady.{AreAlike, AreAlikeOf, AreSectionsAlike, IsAlike};
ghost use Rattle.break_recovery.specs.Ways.{IsStep, IsWay, IsWayIn, IsWayOf, IsWayThrough};
ghost use Rattle.break_recovery.specs.InARow.{IsRow};
ghost use Rattle.tidy_loops.specs.Slots.{count_in};
ghost use Rattle.break_recovery.specs.Within.{IsWithin, AreSectionsWithin, AreWithin};

use crate::held::Holds;
use crate::search::next_step;
use crate::walk::change_along;
use c_tree::{Item, Section};
use c_types::{List, Memory};
use std::alloc::Global;
use std::mem;
use tidy_loops::deeper;

/// Whether the way goes on.
fn goes_on(way: &List<usize>) -> bool
    ensures on { result ≡ true → way.now ≡ [] → ⊥ }
    ensures ends { result ≡ false → way.now ≡ [] }
{
    !way.is_empty()
}

/// Gives the way up, and answers no slots.
fn give_up(alloc: Global, way: &mut List<usize>) -> List<u32>
    ensures slots { result ≡ [] }
    ensures way { way.new ≡ [] }
{
    *way = List::new(alloc);
    List::new(alloc)
}

/// Makes changes in a row in the list at the end of the way, and answers their slots.
#[cycle(rest)]
fn change_on(
    alloc: Global,
    counts: &mut List<u64>,
    level: u32,
    list: &mut List<Item>,
    way: &mut List<usize>,
    holds: &mut Holds,
) -> Result<List<u32>, Memory>
    requires { IsWithin (count_in counts.old) (trees_of list.old) }
    ensures { IfOk result (λ gs. IsRow (λ f. next_list f level) AreAlike (λ f. IsWay true f level) counts.old counts.new gs (reverse way.old) (reverse way.new) (trees_of list.old) (trees_of list.new)) }
{
    let mut at = next_step(way);
    if goes_on(way) {
        return change_on_at(alloc, counts, level, list, at, way, holds);
    }
    let slots = change_along(alloc, counts, level, list, &mut at, holds)?;
    way.push(at)?;
    Ok(slots)
}

#[cycle(rest)]
fn change_on_at(
    alloc: Global,
    counts: &mut List<u64>,
    level: u32,
    list: &mut List<Item>,
    at: usize,
    way: &mut List<usize>,
    holds: &mut Holds,
) -> Result<List<u32>, Memory>
    requires on { way.old ≡ [] → ⊥ }
    requires within { IsWithin (count_in counts.old) (trees_of list.old) }
    ensures { IfOk result (λ gs. (v : List ℕ) → IsStep v at (reverse way.old) → IsRow (λ f. next_list f level) AreAlike (λ f. IsWay true f level) counts.old counts.new gs v (reverse way.new) (trees_of list.old) (trees_of list.new)) }
{
    let inside = deeper(level)?;
    if at >= list.len() {
        return Ok(give_up(alloc, way));
    }
    let slots = change_on_in(alloc, counts, inside, list.at_mut(at), way, holds)?;
    way.push(at)?;
    Ok(slots)
}

/// Makes changes in a row in the list at the end of the way in an item, whose lists stand at this level.
#[cycle(rest)]
pub fn change_on_in(
    alloc: Global,
    counts: &mut List<u64>,
    level: u32,
    item: &mut Item,
    way: &mut List<usize>,
    holds: &mut Holds,
) -> Result<List<u32>, Memory>
    requires { AreWithin (count_in counts.old) (tree_at item.old) }
    ensures { IfOk result (λ gs. IsRow (λ f. next_item f level) IsAlike (λ f. IsWayIn true f level) counts.old counts.new gs (reverse way.old) (reverse way.new) (tree_at item.old) (tree_at item.new)) }
{
    match mem::replace(item, Item::Break) {
        Item::If(test, mut a, mut b) => {
            let slots = change_on_either(alloc, counts, level, &mut a, &mut b, way, holds);
            *item = Item::If(test, a, b);
            slots
        }
        Item::While(test, mut a) => {
            let slots = change_on(alloc, counts, level, &mut a, way, holds);
            *item = Item::While(test, a);
            slots
        }
        Item::Do(mut a, test) => {
            let slots = change_on(alloc, counts, level, &mut a, way, holds);
            *item = Item::Do(a, test);
            slots
        }
        Item::For(mut first, test, third, mut a) => {
            let slots = change_on_either(alloc, counts, level, &mut first, &mut a, way, holds);
            *item = Item::For(first, test, third, a);
            slots
        }
        Item::Switch(selector, mut sections) => {
            let slots = change_on_sections(alloc, counts, level, &mut sections, way, holds);
            *item = Item::Switch(selector, sections);
            slots
        }
        Item::Block(mut a) => {
            let slots = change_on(alloc, counts, level, &mut a, way, holds);
            *item = Item::Block(a);
            slots
        }
        other => {
            *item = other;
            Ok(give_up(alloc, way))
        }
    }
}

#[cycle(rest)]
fn change_on_either(
    alloc: Global,
    counts: &mut List<u64>,
    level: u32,
    first: &mut List<Item>,
    second: &mut List<Item>,
    way: &mut List<usize>,
    holds: &mut Holds,
) -> Result<List<u32>, Memory>
    requires { IsWithin (count_in counts.old) (trees_of first.old) × IsWithin (count_in counts.old) (trees_of second.old) }
    ensures { IfOk result (λ gs. IsRow (λ f (c : Forest × Forest). next_either f level c.0 c.1) (λ s g (c d : Forest × Forest). AreAlikeOf s g c.0 c.1 d.0 d.1) (λ f w (c : Forest × Forest). IsWayOf true f level w c.0 c.1) counts.old counts.new gs (reverse way.old) (reverse way.new) (trees_of first.old, trees_of second.old) (trees_of first.new, trees_of second.new)) }
{
    if next_step(way) > 0 {
        let slots = change_on(alloc, counts, level, second, way, holds)?;
        way.push(1)?;
        return Ok(slots);
    }
    let slots = change_on(alloc, counts, level, first, way, holds)?;
    way.push(0)?;
    Ok(slots)
}

#[cycle(rest)]
fn change_on_sections(
    alloc: Global,
    counts: &mut List<u64>,
    level: u32,
    sections: &mut List<Section>,
    way: &mut List<usize>,
    holds: &mut Holds,
) -> Result<List<u32>, Memory>
    requires { AreSectionsWithin (count_in counts.old) (sections_of sections.old) }
    ensures { IfOk result (λ gs. IsRow (λ f. next_sections f level) AreSectionsAlike (λ f. IsWayThrough true f level) counts.old counts.new gs (reverse way.old) (reverse way.new) (sections_of sections.old) (sections_of sections.new)) }
{
    let at = next_step(way);
    if at >= sections.len() {
        return Ok(give_up(alloc, way));
    }
    let slots = change_on_section(alloc, counts, level, sections.at_mut(at), way, holds)?;
    way.push(at)?;
    Ok(slots)
}

#[cycle(rest)]
fn change_on_section(
    alloc: Global,
    counts: &mut List<u64>,
    level: u32,
    section: &mut Section,
    way: &mut List<usize>,
    holds: &mut Holds,
) -> Result<List<u32>, Memory>
    requires { IsWithin (count_in counts.old) (trees_of (list_of section.old)) }
    ensures row { IfOk result (λ gs. IsRow (λ f. next_list f level) AreAlike (λ f. IsWay true f level) counts.old counts.new gs (reverse way.old) (reverse way.new) (trees_of (list_of section.old)) (trees_of (list_of section.new))) }
    ensures rest { IfOk result (λ gs. section.new ≡ with_list (list_of section.new) section.old) }
{
    change_on(alloc, counts, level, &mut section.list, way, holds)
}
