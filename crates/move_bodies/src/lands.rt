//! Where the Land of a Leap stands: where it should stand after the last move, or else where a search
//! finds it.

ghost use Rattle.std.specs.Prelude.{◌≡◌, IfOk, IsTrue, Some};
ghost use Rattle.c_tree.specs.Trees.{trees_of};
ghost use Rattle.c_tree.specs.WellMade.{IsWellMade};
ghost use Rattle.label_offsets.specs.Marks.{label_at as the_label_at};
ghost use Rattle.label_offsets.specs.Standing.{IsPlaceOf};

use c_tree::{Branch, Item, Path, Step, find_list};
use c_types::{List, MOST, Memory};
use label_offsets::{Rule, is_land, outermost, place_of};
use std::alloc::Global;

fn leads_to_land(body: &List<Item>, label: u32, at: &Path) -> bool
    ensures { IsTrue result → IsPlaceOf label body.now at.now }
{
    let Some(list) = find_list(body, at.steps.as_slice()) else {
        return false;
    };
    match list.get(at.item as usize) {
        Some(item) => is_land(item, label),
        None => false,
    }
}

/// The place of the Land of the Leap at a path. It is sought only where it doesn't stand where it should.
pub fn find_land(
    alloc: Global,
    body: &List<Item>,
    at: &Path,
    label: u32,
    should: Option<Path>,
) -> Result<Path, Memory>
    requires well_made { IsWellMade (trees_of body.now) }
    requires label { the_label_at body.now at.now ≡ Some label }
    ensures { IfOk result (λ p. IsPlaceOf label body.now p) }
{
    match should {
        Some(land) => {
            if leads_to_land(body, label, &land) {
                return Ok(land);
            }
        }
        None => {}
    }
    place_of(alloc, body, outermost(at), label)
}

/// The item of the list after so many steps of a path to which it leads, or into which.
fn item_after(path: &Path, steps: usize) -> u32 {
    match path.steps.get(steps) {
        Some(step) => step.item,
        None => path.item,
    }
}

/// Moves that item to another place of its list.
fn move_item(path: Path, steps: usize, to: u32) -> Path {
    let Path {
        steps: mut all,
        item,
    } = path;
    match all.get_mut(steps) {
        Some(step) => {
            step.item = to;
            Path { steps: all, item }
        }
        None => Path {
            steps: all,
            item: to,
        },
    }
}

fn has_front(steps: &[Step], front: &[Step]) -> bool {
    front.len() <= steps.len() && &steps[..front.len()] == front
}

/// A Leap that goes out comes to stand before what stands behind its construct.
fn after_out(at: &Path, land: Path) -> Path {
    match at.steps.as_slice() {
        [outer @ .., last] => {
            let place = item_after(&land, outer.len());
            if place > last.item && has_front(land.steps.as_slice(), outer) {
                move_item(land, outer.len(), place.saturating_add(1))
            } else {
                land
            }
        }
        [] => land,
    }
}

/// A Leap that goes in leaves at most one item before the one that it goes into, and stands first there.
fn after_in(at: &Path, land: Path) -> Path {
    let outer = at.steps.len();
    let behind = item_after(&land, outer).saturating_sub(1);
    let place = behind.min(at.item.saturating_add(1));
    let inside = item_after(&land, outer + 1).saturating_add(1);
    move_item(move_item(land, outer, place), outer + 1, inside)
}

/// A Leap that is lifted stands first in a `do`, and the item that holds the Land second.
fn after_lift(at: &Path, land: Path) -> Result<Path, Memory> {
    let outer = at.steps.len();
    let item = item_after(&land, outer);
    let Path {
        steps: all,
        item: last,
    } = move_item(land, outer, 1);
    let mut all = all.into_vec();
    if outer > all.len() || all.len() >= MOST {
        return Err(Memory);
    }
    let branch = Branch::Body;
    all.insert(outer, Step { item, branch })?;
    Ok(Path {
        steps: List::from_vec(all),
        item: last,
    })
}

/// Where the Land should stand when the Leap at the path is moved by the rule, or `None` where the Leap is
/// joined. It may stand elsewhere only where the Leap leaves a section of the `switch` that holds the Land.
pub fn land_after_move(rule: Rule, at: &Path, land: Path) -> Result<Option<Path>, Memory> {
    match rule {
        Rule::SiblingBefore | Rule::SiblingAfter => Ok(None),
        Rule::Outward => Ok(Some(after_out(at, land))),
        Rule::InwardOf => Ok(Some(after_in(at, land))),
        Rule::LiftOf => Ok(Some(after_lift(at, land)?)),
    }
}
