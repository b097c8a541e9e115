//! The next simplification after one that was made.

ghost use Rattle.std.specs.Prelude.{◌≡◌, IfOk, OnOk, IsTrue, IsFalse};
ghost use Rattle.c_tree.specs.Trees.{trees_of};
ghost use Rattle.guard_simplify.specs.Choice.{choices, first};
ghost use Rattle.guard_simplify.specs.Later.{AreBarred};
ghost use Rattle.move_bodies.specs.Simplified.{IsApart, IsApartAt, GoesOn, IsAfter};

use c_tree::{Item, Path, find_list};
use c_types::{List, Memory};
use guard_simplify::{Choice, choice_from, first_choice, item_at, neighbours};
use report_moves::MoveKind;
use std::alloc::Global;

/// Whether the item before a place of a list can become one with the item there.
fn joins(items: &[Item], place: usize) -> bool
    ensures { IsFalse result → IsApart items.now place }
{
    if place == 0 {
        return false;
    }
    match item_at(items, place - 1) {
        Some(before) => neighbours(before, item_at(items, place)).is_some(),
        None => false,
    }
}

fn joins_at(body: &List<Item>, at: &Path) -> bool
    ensures { IsFalse result → IsApartAt body.now at.now }
{
    match find_list(body, at.steps.as_slice()) {
        Some(list) => joins(list.as_slice(), at.item as usize),
        None => false,
    }
}

/// Whether no simplification can have become possible before the place of the last one.
fn goes_on(body: &List<Item>, last: &Choice) -> bool
    ensures { IsTrue result → GoesOn last.now body.now }
{
    match last.kind {
        MoveKind::Z2 => !joins_at(body, &last.path),
        MoveKind::Z4 => true,
        _ => false,
    }
}

/// The next simplification of a body after the last one was made; `barred` has the labels whose guards
/// couldn't go before, and gets those whose guards can't go now. Where nothing before the place of the last
/// one can have become possible, the search goes on there.
pub fn next_choice(
    alloc: Global,
    body: &List<Item>,
    barred: &mut List<u32>,
    last: &Choice,
) -> Result<Option<Choice>, Memory>
    requires { IsAfter last.now barred.old body.now }
    ensures next { IfOk result (λ r. r ≡ first (choices (trees_of body.now))) }
    ensures marks { OnOk result (AreBarred barred.new body.now) }
{
    if goes_on(body, last) {
        choice_from(alloc, barred.as_slice(), body, &last.path)
    } else {
        first_choice(alloc, body, barred)
    }
}
