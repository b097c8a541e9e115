ghost use Rattle.std.specs.Prelude.{◌≡◌, ℕ, cond, nat_eq, ◌≤◌, ◌<◌, ◌+◌, ◌++◌, ◌∷◌, [], length, IfOk, IfSome, IfNone, IsSome, OnOk, OnErr, slice_get, slice_set, slice_range, take, drop, vec_len, vec_capacity};
ghost use Rattle.std.specs.Option.{option_map_or};
ghost use Rattle.c_tree.specs.Inward.{entered, moved_in, moved_in_at, path_inside, CanMoveIn, MovesIn};
ghost use Rattle.c_tree.specs.Join.{Holds, guarded, list_there};
ghost use Rattle.c_tree.specs.Outward.{HasBranch};
ghost use Rattle.c_tree.specs.Paths.{child as the_child, list_at};
ghost use Rattle.c_tree.specs.Trees.{trees_of};
ghost use Rattle.c_tree.specs.WellMade.{IsWellMade};
ghost use Rattle.move_laws.specs.Bodies.{KeepsBehaviour};
ghost use Rattle.inward_moves.specs.Entering.{LeadsTo, IsHeldAfter, IsMovedIn};

use crate::entering::{Spare, enter, make_spare};
use crate::finding::branch_with;
use crate::numbers::number_for;
use c_tree::{Branch, Item, Path, Step, find_list, replace_at};
use c_types::{List, Memory};
use label_offsets::{label_at, path_into};
use move_list_edits::guard_between;
use std::alloc::Global;

/// Where a Leap goes in: its label, the place of the item and the branch that lead to the Land, and
/// the number by which the guard selects the branch.
#[derive(Clone, Copy)]
struct Way {
    label: u32,
    place: u32,
    branch: Branch,
    number: i128,
}

fn enter_at(alloc: Global, items: &mut Vec<Item>, at: usize, way: Way, spare: Spare)
    requires branch { Holds (HasBranch way.branch) (slice_get items.old.items at) }
    requires leap { spare.front.items.items ≡ Item.Leap way.label ∷ [] }
    requires room { Holds (λ x. Holds (λ a. 1 + length a ≤ vec_capacity spare.front.items) (the_child way.branch x)) (slice_get items.old.items at) }
    requires bound { Holds (λ x. Holds (λ a. 1 + length a ≤ 4294967295) (the_child way.branch x)) (slice_get items.old.items at) }
    ensures items { items.new.items ≡ option_map_or (λ x. slice_set items.old.items at (entered way.label way.number way.branch x)) (slice_get items.old.items at) items.old.items }
    ensures len { vec_len items.new ≡ vec_len items.old }
{
    enter(
        alloc,
        &mut items[at],
        way.branch,
        way.label,
        way.number,
        spare,
    );
}

fn move_in_items(alloc: Global, items: &mut Vec<Item>, leap: u32, way: Way) -> Result<(), Memory>
    requires order { leap < way.place }
    requires branch { Holds (HasBranch way.branch) (slice_get items.old.items way.place) }
    requires list { Holds (λ x. IsSome (the_child way.branch x)) (slice_get items.old.items way.place) }
    requires bound { vec_len items.old ≤ 4294967295 }
    ensures ok { OnOk result (items.new.items ≡ moved_in way.label way.number leap way.place way.branch items.old.items) }
    ensures len { vec_len items.new ≤ vec_len items.old }
    ensures err { OnErr result (items.new.items ≡ items.old.items) }
{
    let place = way.place as usize;
    let spare = make_spare(alloc, &items[place], way.branch, way.label)?;
    guard_between(alloc, items, leap as usize, place, way.label)?;
    let after = place_after(leap, way.place);
    enter_at(alloc, items, after as usize, way, spare);
    Ok(())
}

fn move_in_in(
    alloc: Global,
    body: &mut List<Item>,
    steps: &[Step],
    leap: u32,
    way: Way,
) -> Result<(), Memory>
    requires { CanMoveIn way.label way.number leap way.place way.branch steps.now body.old }
    ensures ok { OnOk result (body.new ≡ moved_in_at way.label way.number leap way.place way.branch steps.now body.old) }
    ensures err { OnErr result (body.new ≡ body.old) }
{
    let list = replace_at(body, steps, List::new(alloc));
    let mut items = list.into_vec();
    let done = move_in_items(alloc, &mut items, leap, way);
    let empty = replace_at(body, steps, List::from_vec(items));
    drop(empty);
    done
}

/// The place of an item after a place, and its branch that leads to the Land of a label.
#[derive(Clone, Copy)]
struct Target {
    place: u32,
    branch: Branch,
}

fn target_after(items: &[Item], leap: usize, label: u32) -> Option<Target>
    requires bound { length items.now ≤ 4294967295 }
    requires in_bounds { leap < length items.now }
    ensures after { IfSome result (λ t. leap < t.place) }
    ensures leads { IfSome result (λ t. Holds (LeadsTo label t.branch) (slice_get items.now t.place)) }
    ensures none { IfNone result ((j : ℕ) (b : Branch) → leap < j → Holds (LeadsTo label b) (slice_get items.now j) → ⊥) }
{
    for j in leap + 1..items.len() {
        if let Some(branch) = branch_with(&items[j], label) {
            return Some(Target {
                place: j as u32,
                branch,
            });
        }
    }
    None
}

fn way_at(alloc: Global, body: &List<Item>, at: &Path) -> Result<Way, Memory>
    requires { IsHeldAfter body.now at.now }
    ensures { IfOk result (λ w. CanMoveIn w.label w.number at.now.item w.place w.branch at.now.steps body.now) }
{
    let Some(label) = label_at(body, at) else {
        unreachable!();
    };
    let Some(list) = find_list(body, at.steps.as_slice()) else {
        unreachable!();
    };
    let items = list.as_slice();
    let Some(target) = target_after(items, at.item as usize, label) else {
        unreachable!();
    };
    let number = number_for(alloc, &items[target.place as usize], target.branch)?;
    Ok(Way {
        label,
        place: target.place,
        branch: target.branch,
        number,
    })
}

/// The place of the item that is entered, once the items between are under the guard.
fn place_after(leap: u32, place: u32) -> u32
    requires { leap < place }
    ensures { result ≡ cond (nat_eq (leap + 1) place) leap (leap + 1) }
{
    if leap + 1 == place { leap } else { leap + 1 }
}

/// Moves the Leap at a path into a later item of its list that holds its label (docs/REWRITING.md,
/// rule I), and answers where it then stands: first in the list of that item that leads to the
/// Land. The items between go under an `if` where the guard is not set, and the item is entered
/// where the guard is set. The body stays well made. After `Memory` it is as it was.
pub fn move_in(alloc: Global, body: &mut List<Item>, at: &Path) -> Result<Path, Memory>
    requires { IsHeldAfter body.old at.now }
    ensures ok { IfOk result (λ to. IsMovedIn at.now body.old body.new to) }
    ensures well_made { OnOk result (IsWellMade (trees_of body.new)) }
    ensures behaviour { OnOk result (KeepsBehaviour body.old body.new) }
    ensures err { OnErr result (body.new ≡ body.old) }
{
    let way = way_at(alloc, body, at)?;
    let steps = at.steps.as_slice();
    let first = Step {
        item: place_after(at.item, way.place),
        branch: way.branch,
    };
    let to = path_into(alloc, steps, first)?;
    move_in_in(alloc, body, steps, at.item, way)?;
    Ok(to)
}
