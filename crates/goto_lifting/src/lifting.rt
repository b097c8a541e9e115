ghost use Rattle.std.specs.Prelude.{◌≡◌, ℕ, ◌<◌, ◌≤◌, ◌+◌, ◌-◌, ◌++◌, ◌∷◌, [], length, IfOk, IfSome, IfNone, Some, OnOk, OnErr, slice_get, slice_set, take, drop, slice_range, vec_len, vec_capacity};
ghost use Rattle.c_tree.specs.Join.{Holds};
ghost use Rattle.c_tree.specs.Labels.{lands_inside};
ghost use Rattle.c_tree.specs.Lift.{lifted, lifted_at, CanLift};
ghost use Rattle.c_tree.specs.Trees.{tree_of, trees_of};
ghost use Rattle.c_tree.specs.WellMade.{IsWellMade};
ghost use Rattle.move_laws.specs.MoveRuleLaws.{Keeps};
ghost use Rattle.goto_lifting.specs.Lifting.{IsHeldBefore, IsLifted};

use c_tree::{Branch, Item, Path, Step, Test, find_list, replace_at};
use c_types::{List, Memory};
use label_offsets::{holds, label_at, path_into};
use move_list_edits::{cut, set_at};
use std::alloc::Global;

/// S, T, Leap, with S at `place`, become a `do` that begins with the Leap.
fn lift_items(
    alloc: Global,
    items: &mut Vec<Item>,
    leap: usize,
    place: usize,
    label: u32,
) -> Result<(), Memory>
    requires order { place < leap }
    requires in_bounds { leap < vec_len items.old }
    requires bound { vec_len items.old ≤ 4294967295 }
    ensures ok { OnOk result (items.new.items ≡ lifted label leap place items.old.items) }
    ensures len { vec_len items.new ≤ vec_len items.old }
    ensures err { OnErr result (items.new.items ≡ items.old.items) }
{
    let mut inner = Vec::with_capacity(alloc, leap - place + 1)?;
    inner.push(Item::Leap(label))?;
    let mut stretch = cut(items, place, leap)?;
    match inner.append(&mut stretch) {
        Ok(()) => {}
        Err(_) => unreachable!(),
    }
    let made = Item::Do(List::from_vec(inner), Test::On(label));
    set_at(items, place, made);
    Ok(())
}

/// The label of a Leap, and the place of an earlier item of its list that holds the label.
#[derive(Clone, Copy)]
struct Found {
    label: u32,
    place: u32,
}

fn lift_in(
    alloc: Global,
    body: &mut List<Item>,
    steps: &[Step],
    leap: usize,
    found: Found,
) -> Result<(), Memory>
    requires { CanLift found.label leap found.place steps.now body.old }
    ensures ok { OnOk result (body.new ≡ lifted_at found.label leap found.place steps.now body.old) }
    ensures err { OnErr result (body.new ≡ body.old) }
{
    let list = replace_at(body, steps, List::new(alloc));
    let mut items = list.into_vec();
    let done = lift_items(alloc, &mut items, leap, found.place as usize, found.label);
    let empty = replace_at(body, steps, List::from_vec(items));
    drop(empty);
    done
}

fn held_before(items: &[Item], leap: usize, label: u32) -> Option<usize>
    requires { leap < length items.now }
    ensures before { IfSome result (λ j. j < leap) }
    ensures holds { IfSome result (λ j. Holds (λ x. 0 < lands_inside label (tree_of x)) (slice_get items.now j)) }
    ensures none { IfNone result ((k : ℕ) → k < leap → Holds (λ x. 0 < lands_inside label (tree_of x)) (slice_get items.now k) → ⊥) }
{
    for i in 0..leap {
        if holds(&items[i], label) {
            return Some(i);
        }
    }
    None
}

fn found_at(body: &List<Item>, at: &Path) -> Found
    requires { IsHeldBefore body.now at.now }
    ensures { CanLift result.label at.now.item result.place at.now.steps body.now }
{
    let Some(label) = label_at(body, at) else {
        unreachable!();
    };
    let Some(list) = find_list(body, at.steps.as_slice()) else {
        unreachable!();
    };
    let Some(place) = held_before(list.as_slice(), at.item as usize, label) else {
        unreachable!();
    };
    Found {
        label,
        place: place as u32,
    }
}

/// Lifts the Leap at a path before an earlier item of its list that holds its label
/// (docs/REWRITING.md, rule L), and answers where the Leap then stands: first in a `do` that holds
/// the items from that one on and runs again while the guard is set. A body that was well made is
/// well made then. After `Memory` the body is as it was.
pub fn lift(alloc: Global, body: &mut List<Item>, at: &Path) -> Result<Path, Memory>
    requires { IsHeldBefore body.old at.now }
    ensures ok { IfOk result (λ to. IsLifted at.now body.old body.new to) }
    ensures well_made { OnOk result (IsWellMade (trees_of body.old) → IsWellMade (trees_of body.new)) }
    ensures behaviour { OnOk result (Keeps body.old body.new) }
    ensures err { OnErr result (body.new ≡ body.old) }
{
    let found = found_at(body, at);
    let steps = at.steps.as_slice();
    let first = Step {
        item: found.place,
        branch: Branch::Body,
    };
    let to = path_into(alloc, steps, first)?;
    lift_in(alloc, body, steps, at.item as usize, found)?;
    Ok(to)
}
