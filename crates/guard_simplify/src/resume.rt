//! The first simplification that applies at a place or behind it.

ghost use Rattle.std.specs.Prelude.{◌≡◌, IfOk, option_map};
ghost use Rattle.std.specs.Option.{option_copied};
ghost use Rattle.guard_simplify.specs.Choice.{has as the_has, under_one, first};
ghost use Rattle.guard_simplify.specs.Later.{behind, after, else_first, first_from};

use crate::choice::Choice;
use crate::find::{first_among, first_section, first_under, put_under};
use c_tree::{Branch, Item, Path, Step, child};
use c_types::{List, Memory};
use std::alloc::Global;

/// The first in the lists of an item that stand behind the one at a branch.
fn first_behind(
    alloc: Global,
    barred: &[u32],
    item: &Item,
    branch: Branch,
    place: u32,
) -> Result<Option<Choice>, Memory>
    ensures { IfOk result (λ r. r ≡ first (behind (λ l. the_has l barred.now) place branch item.now)) }
{
    match (branch, item) {
        (Branch::Then, Item::If(_, _, b)) => first_under(alloc, barred, b, place, Branch::Else),
        (Branch::Section(k), Item::Switch(_, sections)) => {
            first_section(alloc, barred, sections.as_slice(), place, k as usize + 1)
        }
        _ => Ok(None),
    }
}

/// The first behind the list that a step leads to, in the list of its item.
fn first_after(
    alloc: Global,
    barred: &[u32],
    list: &List<Item>,
    item: &Item,
    step: &Step,
) -> Result<Option<Choice>, Memory>
    ensures { IfOk result (λ r. r ≡ first (after (λ l. the_has l barred.now) list.now item.now step.now)) }
{
    match first_behind(alloc, barred, item, step.branch, step.item)? {
        Some(choice) => Ok(Some(choice)),
        None => first_among(alloc, barred, list.as_slice(), step.item as usize + 1),
    }
}

/// The one that was found in the list that a step leads to, or the first behind it.
fn first_found(
    alloc: Global,
    barred: &[u32],
    list: &List<Item>,
    item: &Item,
    step: &Step,
    found: Option<Choice>,
) -> Result<Option<Choice>, Memory>
    ensures { IfOk result (λ r. r ≡ else_first (option_map (under_one step.now.item step.now.branch) found) (first (after (λ l. the_has l barred.now) list.now item.now step.now))) }
{
    match put_under(found, step.item, step.branch)? {
        Some(choice) => Ok(Some(choice)),
        None => first_after(alloc, barred, list, item, step),
    }
}

fn first_later(
    alloc: Global,
    barred: &[u32],
    list: &List<Item>,
    steps: &[Step],
    place: u32,
) -> Result<Option<Choice>, Memory>
    ensures { IfOk result (λ r. r ≡ first_from (λ l. the_has l barred.now) list.now steps.now place) }
{
    match steps {
        [] => first_among(alloc, barred, list.as_slice(), place as usize),
        [step, rest @ ..] => {
            let Some(item) = list.get(step.item as usize) else {
                return Ok(None);
            };
            let Some(inner) = child(item, step.branch) else {
                return first_after(alloc, barred, list, item, step);
            };
            let found = first_later(alloc, barred, inner, rest, place)?;
            first_found(alloc, barred, list, item, step, found)
        }
    }
}

/// The first simplification that applies to a body at a place or behind it in text order; `barred` has the
/// labels whose guards can't go.
pub fn choice_from(
    alloc: Global,
    barred: &[u32],
    body: &List<Item>,
    at: &Path,
) -> Result<Option<Choice>, Memory>
    ensures { IfOk result (λ r. r ≡ first_from (λ l. the_has l barred.now) body.now at.now.steps at.now.item) }
{
    first_later(alloc, barred, body, at.steps.as_slice(), at.item)
}
