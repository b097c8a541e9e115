ghost use Rattle.std.specs.Prelude.{◌≡◌, ◌≤◌, ◌<◌, ◌+◌, ◌++◌, ◌∷◌, [], length, IfOk, OnOk, OnErr, insert, slice_get, slice_set, take, drop, vec_len, vec_capacity};
ghost use Rattle.std.specs.Option.{option_map_or};
ghost use Rattle.c_tree.specs.Join.{Holds};
ghost use Rattle.c_tree.specs.Outward.{left, moved_out, moved_out_at, path_outside, HasBranch, CanMoveOut, MovesOut};
ghost use Rattle.c_tree.specs.Paths.{child as the_child};
ghost use Rattle.c_tree.specs.Trees.{trees_of};
ghost use Rattle.c_tree.specs.WellMade.{IsWellMade};
ghost use Rattle.move_laws.specs.MoveRuleLaws.{Keeps};
ghost use Rattle.outward_moves.specs.Fallen.{fallen_after};
ghost use Rattle.outward_moves.specs.Leaving.{IsHeldElsewhere, IsMovedOut};

use crate::leaving::{Spare, leave, make_spare};
use c_tree::{Branch, Item, Path, Step, replace_at};
use c_types::{List, MOST, Memory};
use label_offsets::label_at;
use move_list_edits::insert_at;
use std::alloc::Global;

fn leave_at(
    alloc: Global,
    items: &mut Vec<Item>,
    at: usize,
    branch: Branch,
    leap: usize,
    label: u32,
    spare: Spare,
) -> Result<(), Memory>
    requires branch { Holds (HasBranch branch) (slice_get items.old.items at) }
    requires in_bounds { Holds (λ x. Holds (λ a. leap < length a) (the_child branch x)) (slice_get items.old.items at) }
    requires enough { Holds (λ x. fallen_after branch x ≤ vec_len spare.rooms) (slice_get items.old.items at) }
    ensures ok { OnOk result (items.new.items ≡ option_map_or (λ x. slice_set items.old.items at (left label branch leap x)) (slice_get items.old.items at) items.old.items) }
    ensures len { vec_len items.new ≡ vec_len items.old }
    ensures capacity { vec_capacity items.new ≡ vec_capacity items.old }
    ensures err { OnErr result (items.new.items ≡ items.old.items) }
{
    leave(alloc, &mut items[at], branch, leap, label, spare)
}

fn move_out_items(
    alloc: Global,
    items: &mut Vec<Item>,
    at: usize,
    branch: Branch,
    leap: usize,
    label: u32,
) -> Result<(), Memory>
    requires branch { Holds (HasBranch branch) (slice_get items.old.items at) }
    requires in_bounds { Holds (λ x. Holds (λ a. leap < length a) (the_child branch x)) (slice_get items.old.items at) }
    ensures ok { OnOk result (items.new.items ≡ moved_out label at branch leap items.old.items) }
    ensures len { vec_len items.old ≤ 4294967295 → vec_len items.new ≤ 4294967295 }
    ensures err { OnErr result (items.new.items ≡ items.old.items) }
{
    if items.len() >= MOST {
        return Err(Memory);
    }
    let spare = make_spare(alloc, &items[at], branch)?;
    items.reserve_exact(1)?;
    leave_at(alloc, items, at, branch, leap, label, spare)?;
    insert_at(items, at + 1, Item::Leap(label));
    Ok(())
}

fn move_out_in(
    alloc: Global,
    body: &mut List<Item>,
    outer: &[Step],
    last: Step,
    leap: usize,
    label: u32,
) -> Result<(), Memory>
    requires { CanMoveOut label outer.now last leap body.old }
    ensures ok { OnOk result (body.new ≡ moved_out_at label outer.now last leap body.old) }
    ensures err { OnErr result (body.new ≡ body.old) }
{
    let list = replace_at(body, outer, List::new(alloc));
    let mut items = list.into_vec();
    let done = move_out_items(
        alloc,
        &mut items,
        last.item as usize,
        last.branch,
        leap,
        label,
    );
    let empty = replace_at(body, outer, List::from_vec(items));
    drop(empty);
    done
}

fn without_last(steps: &[Step]) -> (&[Step], Step)
    requires { 0 < length steps.now }
    ensures { steps.now ≡ result.0.now ++ result.1 ∷ [] }
{
    let end = steps.len() - 1;
    (&steps[..end], steps[end])
}

fn path_after(alloc: Global, outer: &[Step], last: Step) -> Result<Path, Memory>
    ensures { IfOk result (λ to. to ≡ path_outside outer.now last) }
{
    let steps = List::from_slice(alloc, outer)?;
    match last.item.checked_add(1) {
        Some(item) => Ok(Path { steps, item }),
        None => Err(Memory),
    }
}

/// Moves the Leap at a path out of the construct in whose list it stands (docs/REWRITING.md, rule
/// O), and answers where it then stands: right after the construct. What comes after it in its list
/// goes under an `if` where the guard is not set, a loop is left where it is set, and so are the
/// later sections of a `switch`. A body that was well made is well made then. After `Memory` the
/// body is as it was.
pub fn move_out(alloc: Global, body: &mut List<Item>, at: &Path) -> Result<Path, Memory>
    requires { IsHeldElsewhere body.old at.now }
    ensures ok { IfOk result (λ to. IsMovedOut at.now body.old body.new to) }
    ensures well_made { OnOk result (IsWellMade (trees_of body.old) → IsWellMade (trees_of body.new)) }
    ensures behaviour { OnOk result (Keeps body.old body.new) }
    ensures err { OnErr result (body.new ≡ body.old) }
{
    let Some(label) = label_at(body, at) else {
        unreachable!();
    };
    let (outer, last) = without_last(at.steps.as_slice());
    let to = path_after(alloc, outer, last)?;
    move_out_in(alloc, body, outer, last, at.item as usize, label)?;
    Ok(to)
}
