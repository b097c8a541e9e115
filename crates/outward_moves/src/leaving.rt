ghost use Rattle.std.specs.Prelude.{◌≡◌, ◌≤◌, ◌<◌, ◌+◌, ◌++◌, ◌∷◌, [], length, IfOk, OnOk, OnErr, slice_get, take, drop, vec_len, vec_capacity};
ghost use Rattle.c_tree.specs.Join.{guarded, joined_after, Holds};
ghost use Rattle.c_tree.specs.Outward.{rest_guarded, left, HasBranch};
ghost use Rattle.c_tree.specs.Paths.{child as the_child};
ghost use Rattle.outward_moves.specs.Fallen.{fallen_after};

use crate::sections::{Room, count_later, leave_section, make_rooms};
use c_tree::{Branch, Item, Test};
use c_types::{Boxed, List, Memory};
use move_list_edits::{and_off, guard_between};
use std::alloc::Global;

/// Takes the Leap out of a list and puts the items after it under the guard.
pub fn guard_rest(
    alloc: Global,
    list: &mut List<Item>,
    leap: usize,
    label: u32,
) -> Result<(), Memory>
    requires in_bounds { leap < length list.old }
    ensures ok { OnOk result (list.new ≡ rest_guarded label leap list.old) }
    ensures err { OnErr result (list.new ≡ list.old) }
{
    let mut items = list.take(alloc);
    let end = items.len();
    let done = guard_between(alloc, &mut items, leap, end, label);
    list.put(items);
    done
}

/// What a construct takes as a Leap goes out of it: a box for the test of a loop, and a `Vec` for
/// each section that is fallen into.
#[derive(Drop)]
pub struct Spare {
    test: Boxed<Test>,
    rooms: Vec<Room>,
}

fn rooms_for(item: &Item, branch: Branch) -> usize
    ensures { result ≡ fallen_after branch item.now }
{
    match (branch, item) {
        (Branch::Section(k), Item::Switch(_, sections)) => {
            count_later(sections.as_slice(), k as usize)
        }
        _ => 0,
    }
}

pub fn make_spare(alloc: Global, item: &Item, branch: Branch) -> Result<Spare, Memory>
    ensures { IfOk result (λ s. vec_len s.rooms ≡ fallen_after branch item.now) }
{
    // A placeholder, which the test of the loop replaces.
    let test = Boxed::new(alloc, Test::On(0))?;
    let rooms = make_rooms(alloc, rooms_for(item, branch))?;
    Ok(Spare { test, rooms })
}

/// The construct after the Leap at the place `leap` of the branch has gone out.
pub fn leave(
    alloc: Global,
    item: &mut Item,
    branch: Branch,
    leap: usize,
    label: u32,
    spare: Spare,
) -> Result<(), Memory>
    requires branch { HasBranch branch item.old }
    requires in_bounds { Holds (λ a. leap < length a) (the_child branch item.old) }
    requires enough { fallen_after branch item.old ≤ vec_len spare.rooms }
    ensures ok { OnOk result (item.new ≡ left label branch leap item.old) }
    ensures err { OnErr result (item.new ≡ item.old) }
{
    let Spare {
        test: spare,
        mut rooms,
    } = spare;
    match (branch, item) {
        (Branch::Then, Item::If(_, list, _)) => guard_rest(alloc, list, leap, label),
        (Branch::Else, Item::If(_, _, list)) => guard_rest(alloc, list, leap, label),
        (Branch::Body, Item::While(test, list)) => {
            guard_rest(alloc, list, leap, label)?;
            and_off(test, label, spare);
            Ok(())
        }
        (Branch::Body, Item::Do(list, test)) => {
            guard_rest(alloc, list, leap, label)?;
            and_off(test, label, spare);
            Ok(())
        }
        (Branch::Section(k), Item::Switch(_, sections)) => {
            leave_section(alloc, sections, k, leap, label, &mut rooms)
        }
        _ => unreachable!(),
    }
}
