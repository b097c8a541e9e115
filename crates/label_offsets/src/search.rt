ghost use Rattle.std.specs.Prelude.{◌≡◌, ◌≤◌, ◌<◌, ◌-◌, IfOk, IfSome, IfNone, length, take};
ghost use Rattle.c_tree.specs.Trees.{trees_of};
ghost use Rattle.c_tree.specs.Everywhere.{Everywhere};
ghost use Rattle.c_tree.specs.Labels.{lands};
ghost use Rattle.c_tree.specs.WellMade.{IsPlainFor, IsWellMade};
ghost use Rattle.label_offsets.specs.Standing.{IsPlaceOf, HasNoLandAt};

use crate::first::{Sought, first_of};
use c_tree::{Item, Path};
use c_types::{List, Memory};
use std::alloc::Global;

/// The path of a Land of the label in a well made body that has one (docs/REWRITING.md). It is sought
/// from the item `near` of the body on, to both sides.
pub fn place_of(alloc: Global, body: &List<Item>, near: u32, label: u32) -> Result<Path, Memory>
    requires well_made { IsWellMade (trees_of body.now) }
    requires land { 0 < lands label (trees_of body.now) }
    ensures { IfOk result (λ p. IsPlaceOf label body.now p) }
{
    match place_around(alloc, body.as_slice(), near as usize, label)? {
        Some(path) => Ok(path),
        None => unreachable!(),
    }
}

/// A Leap mostly stands near its Land, so the items next to `near` come first.
fn place_around(
    alloc: Global,
    items: &[Item],
    near: usize,
    label: u32,
) -> Result<Option<Path>, Memory>
    requires { length items.now ≤ 4294967295 }
    ensures found { IfOk result (λ r. IfSome r (λ p. IsPlaceOf label items.now p)) }
    ensures none { IfOk result (λ r. IfNone r (Everywhere IsPlainFor (trees_of items.now) → lands label (trees_of items.now) ≡ 0)) }
{
    let middle = near.min(items.len());
    for far in 0..items.len() {
        if let Some(path) = place_at(alloc, items, middle + far, label)? {
            return Ok(Some(path));
        }
        if let Some(path) = place_before(alloc, items, middle.saturating_sub(far), label)? {
            return Ok(Some(path));
        }
    }
    Ok(None)
}

fn place_before(
    alloc: Global,
    items: &[Item],
    end: usize,
    label: u32,
) -> Result<Option<Path>, Memory>
    requires { length items.now ≤ 4294967295 }
    ensures found { IfOk result (λ r. IfSome r (λ p. IsPlaceOf label items.now p)) }
    ensures none { IfOk result (λ r. IfNone r (Everywhere IsPlainFor (trees_of items.now) → lands label (trees_of (take end items.now)) ≡ lands label (trees_of (take (end - 1) items.now)))) }
{
    if end == 0 {
        return Ok(None);
    }
    place_at(alloc, items, end - 1, label)
}

fn place_at(alloc: Global, items: &[Item], at: usize, label: u32) -> Result<Option<Path>, Memory>
    requires { length items.now ≤ 4294967295 }
    ensures found { IfOk result (λ r. IfSome r (λ p. IsPlaceOf label items.now p)) }
    ensures none { IfOk result (λ r. IfNone r (HasNoLandAt label items.now at)) }
{
    if at >= items.len() {
        return Ok(None);
    }
    first_of(alloc, Sought::Land(label), &items[at], at as u32)
}
