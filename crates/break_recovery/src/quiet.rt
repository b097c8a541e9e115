//! Whether no change applies in an item.

ghost use Rattle.std.specs.Prelude.{◌≡◌, ◌<◌, ℕ, length, drop, true, None, IfOk};
ghost use Rattle.c_tree.specs.Trees.{trees_of, sections_of};
ghost use Rattle.c_tree.specs.Views.{tree_at};
ghost use Rattle.jump_meaning.specs.Code.{FunctionTree};
ghost use Rattle.tidy_loops.specs.Slots.{Tells, count_in};
ghost use Rattle.break_recovery.specs.Next.{next_list, next_at, next_item, next_sections};
ghost use Rattle.break_recovery.specs.Places.{behind};
ghost use Rattle.break_recovery.specs.Loops.{change_first};
ghost use Rattle.break_recovery.specs.Within.{IsWithin, AreSectionsWithin, AreWithin};

use crate::here::{Change, change_of};
use c_tree::{Item, Section};
use c_types::{List, Memory};
use tidy_loops::deeper;

/// The change at this place, whose lists stand at this level.
fn find(counts: &List<u64>, level: u32, items: &[Item], at: usize) -> Result<Option<Change>, Memory>
    requires place { at < length items.now }
    requires within { IsWithin (count_in counts.now) (trees_of items.now) }
    ensures { IfOk result (λ it. it ≡ change_first (count_in counts.now) level (trees_of (drop at items.now))) }
{
    let (_, rest) = items.split_at(at + 1);
    change_of(counts, level, &items[at], rest)
}

/// Whether no change applies in a list at this level.
#[cycle(quiet)]
fn is_quiet(counts: &List<u64>, level: u32, list: &List<Item>) -> Result<bool, Memory>
    requires { IsWithin (count_in counts.now) (trees_of list.now) }
    ensures { IfOk result (λ q. q ≡ true → (f : FunctionTree) → Tells counts.now f → next_list f level (trees_of list.now) ≡ None) }
{
    let inside = deeper(level)?;
    items_are_quiet(counts, inside, list.as_slice())
}

/// Whether no change applies at these items, whose lists stand at this level.
#[cycle(quiet)]
fn items_are_quiet(counts: &List<u64>, level: u32, items: &[Item]) -> Result<bool, Memory>
    requires { IsWithin (count_in counts.now) (trees_of items.now) }
    ensures { IfOk result (λ q. q ≡ true → (f : FunctionTree) → Tells counts.now f → (j : ℕ) → next_at f level (behind j (trees_of items.now)) ≡ None) }
{
    for i in 0..items.len() {
        let change = find(counts, level, items, i)?;
        if change.is_some() {
            return Ok(false);
        }
        let quiet = item_is_quiet(counts, level, &items[i])?;
        if !quiet {
            return Ok(false);
        }
    }
    Ok(true)
}

/// Whether no change applies in an item whose lists stand at this level.
#[cycle(quiet)]
pub fn item_is_quiet(counts: &List<u64>, level: u32, item: &Item) -> Result<bool, Memory>
    requires { AreWithin (count_in counts.now) (tree_at item.now) }
    ensures { IfOk result (λ q. q ≡ true → (f : FunctionTree) → Tells counts.now f → next_item f level (tree_at item.now) ≡ None) }
{
    match item {
        Item::If(_, a, b) => {
            let first = is_quiet(counts, level, a)?;
            if !first {
                return Ok(false);
            }
            is_quiet(counts, level, b)
        }
        Item::While(_, a) => is_quiet(counts, level, a),
        Item::Do(a, _) => is_quiet(counts, level, a),
        Item::For(start, _, _, a) => {
            let before = is_quiet(counts, level, start)?;
            if !before {
                return Ok(false);
            }
            is_quiet(counts, level, a)
        }
        Item::Switch(_, sections) => sections_are_quiet(counts, level, sections.as_slice()),
        Item::Block(a) => is_quiet(counts, level, a),
        _ => Ok(true),
    }
}

#[cycle(quiet)]
fn sections_are_quiet(counts: &List<u64>, level: u32, sections: &[Section]) -> Result<bool, Memory>
    requires { AreSectionsWithin (count_in counts.now) (sections_of sections.now) }
    ensures { IfOk result (λ q. q ≡ true → (f : FunctionTree) → Tells counts.now f → next_sections f level (sections_of sections.now) ≡ None) }
{
    for i in 0..sections.len() {
        let quiet = is_quiet(counts, level, &sections[i].list)?;
        if !quiet {
            return Ok(false);
        }
    }
    Ok(true)
}
