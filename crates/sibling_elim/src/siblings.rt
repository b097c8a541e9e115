ghost use Rattle.std.specs.Prelude.{◌≡◌, ◌≤◌, ◌<◌, ◌≢◌, length, ◌++◌, ◌∷◌, [], IfSome, IfNone, Some, OnOk, OnErr, slice_set, slice_get, position, take, drop, slice_range, vec_len};
ghost use Rattle.c_tree.specs.Join.{joined_after, joined_before, joined, joined_at, list_there, CanJoin};
ghost use Rattle.c_tree.specs.Paths.{list_at};
ghost use Rattle.c_tree.specs.Trees.{trees_of};
ghost use Rattle.c_tree.specs.WellMade.{IsWellMade};
ghost use Rattle.move_laws.specs.MoveRuleLaws.{Keeps};
ghost use Rattle.sibling_elim.specs.Sibling.{HasSibling, IsJoined, land_beside as the_land_beside};

use c_tree::{Item, Path, Step, Test, find_list, replace_at};
use c_types::{List, Memory};
use label_offsets::{first_land, label_at, land_after};
use move_list_edits::{cut, guard_between, set_at};
use std::alloc::Global;

fn join_before(items: &mut Vec<Item>, leap: usize, land: usize, label: u32) -> Result<(), Memory>
    requires order { land < leap }
    requires in_bounds { leap < vec_len items.old }
    requires bound { vec_len items.old ≤ 4294967295 }
    ensures ok { OnOk result (items.new.items ≡ joined_before label leap land items.old.items) }
    ensures len { vec_len items.new ≤ vec_len items.old }
    ensures err { OnErr result (items.new.items ≡ items.old.items) }
{
    let mid = cut(items, land, leap)?;
    let made = Item::Do(List::from_vec(mid), Test::On(label));
    set_at(items, land, made);
    Ok(())
}

fn join_items(
    alloc: Global,
    items: &mut Vec<Item>,
    leap: usize,
    land: usize,
    label: u32,
) -> Result<(), Memory>
    requires leap_in { leap < vec_len items.old }
    requires land_in { land < vec_len items.old }
    requires differ { leap ≢ land }
    requires bound { vec_len items.old ≤ 4294967295 }
    ensures ok { OnOk result (items.new.items ≡ joined label leap land items.old.items) }
    ensures len { vec_len items.new ≤ vec_len items.old }
    ensures err { OnErr result (items.new.items ≡ items.old.items) }
{
    if leap < land {
        guard_between(alloc, items, leap, land, label)
    } else {
        join_before(items, leap, land, label)
    }
}

fn join_in(
    alloc: Global,
    body: &mut List<Item>,
    steps: &[Step],
    leap: usize,
    pair: Pair,
) -> Result<(), Memory>
    requires { CanJoin pair.label leap pair.land steps.now body.old }
    ensures ok { OnOk result (body.new ≡ joined_at pair.label leap pair.land steps.now body.old) }
    ensures err { OnErr result (body.new ≡ body.old) }
{
    let list = replace_at(body, steps, List::new(alloc));
    let mut items = list.into_vec();
    let done = join_items(alloc, &mut items, leap, pair.land, pair.label);
    let empty = replace_at(body, steps, List::from_vec(items));
    drop(empty);
    done
}

fn land_beside(items: &[Item], leap: usize, label: u32) -> Option<usize>
    requires { leap < length items.now }
    ensures { result ≡ the_land_beside label leap items.now }
{
    match land_after(items, leap, label) {
        Some(land) => Some(land),
        None => first_land(items, label),
    }
}

/// The label of a Leap, and the place of its Land in the same list.
#[derive(Clone, Copy)]
struct Pair {
    label: u32,
    land: usize,
}

fn pair_at(body: &List<Item>, at: &Path) -> Pair
    requires { HasSibling body.now at.now }
    ensures applies { CanJoin result.label at.now.item result.land at.now.steps body.now }
    ensures first { the_land_beside result.label at.now.item (list_there body.now at.now.steps) ≡ Some result.land }
{
    let Some(label) = label_at(body, at) else {
        unreachable!();
    };
    let Some(list) = find_list(body, at.steps.as_slice()) else {
        unreachable!();
    };
    let Some(land) = land_beside(list.as_slice(), at.item as usize, label) else {
        unreachable!();
    };
    Pair { label, land }
}

/// Joins the Leap at a path with the Land of its label in its list (docs/REWRITING.md, rule J): the
/// first Land of the label after it, else the first before it. The items between them go under an
/// `if` where the guard is not set, or, with the Land, into a `do` that runs again while it is set.
/// A body that was well made is well made then. After `Memory` the body is as it was.
pub fn join(alloc: Global, body: &mut List<Item>, at: &Path) -> Result<(), Memory>
    requires { HasSibling body.old at.now }
    ensures ok { OnOk result (IsJoined at.now body.old body.new) }
    ensures well_made { OnOk result (IsWellMade (trees_of body.old) → IsWellMade (trees_of body.new)) }
    ensures behaviour { OnOk result (Keeps body.old body.new) }
    ensures err { OnErr result (body.new ≡ body.old) }
{
    let pair = pair_at(body, at);
    join_in(alloc, body, at.steps.as_slice(), at.item as usize, pair)
}
