//! The simplification that a move of a report names, and whether it may be made.

ghost use Rattle.std.specs.Prelude.{◌≡◌, ◌↔◌, IfOk, IfSome, IfNone, IsTrue};
ghost use Rattle.guard_simplify.specs.declared.choice.Choice.{Choice as TheChoice};
ghost use Rattle.move_bodies.specs.Lawful.{AreBarredFor, IsAt, IsNowhere, MayCome, IsNamed};

use c_tree::{Item, Path, find_list};
use c_types::{List, Memory, Name};
use guard_simplify::{Choice, barred_labels, item_at, own_of_kind};
use label_offsets::{Rule, first_place, relation};
use report_moves::{Move, MoveKind, has_name};
use std::alloc::Global;

/// The labels whose guards can't go, as far as a kind asks for them.
fn barred_for(alloc: Global, body: &List<Item>, kind: MoveKind) -> Result<List<u32>, Memory>
    ensures { IfOk result (λ ls. AreBarredFor kind ls body.now) }
{
    match kind {
        MoveKind::Z5 => barred_labels(alloc, body),
        _ => Ok(List::new(alloc)),
    }
}

/// The simplification of a kind at a place of a body, if it applies there.
pub fn choice_at(
    alloc: Global,
    body: &List<Item>,
    kind: MoveKind,
    at: &Path,
) -> Result<Option<Choice>, Memory>
    ensures some { IfOk result (λ r. IfSome r (λ c. IsAt kind at.now body.now c)) }
    ensures none { IfOk result (λ r. IfNone r (IsNowhere kind at.now body.now)) }
{
    let barred = barred_for(alloc, body, kind)?;
    let Some(list) = find_list(body, at.steps.as_slice()) else {
        return Ok(None);
    };
    let items = list.as_slice();
    let place = at.item as usize;
    let Some(item) = item_at(items, place) else {
        return Ok(None);
    };
    let next = item_at(items, place + 1);
    match own_of_kind(alloc, kind, barred.as_slice(), item, next, at.item)? {
        Some(choice) => {
            let steps = List::from_slice(alloc, at.steps.as_slice())?;
            Ok(Some(Choice {
                kind: choice.kind,
                label: choice.label,
                path: Path {
                    steps,
                    item: at.item,
                },
            }))
        }
        None => Ok(None),
    }
}

fn comes_after(rule: Rule) -> bool
    ensures { IsTrue result ↔ rule ≡ Rule.SiblingAfter }
{
    matches!(rule, Rule::SiblingAfter)
}

fn same_path(p: &Path, q: &Path) -> bool
    ensures { IsTrue result ↔ p.now ≡ q.now }
{
    p.item == q.item && comes_after(relation(p, q))
}

/// Whether the place of the simplification is one where it may be made: of a guard that goes, the first
/// Arm or Land of its label.
fn is_first_place(alloc: Global, body: &List<Item>, choice: &Choice) -> Result<bool, Memory>
    ensures { IfOk result (λ r. IsTrue r ↔ MayCome body.now choice.now) }
{
    let MoveKind::Z5 = choice.kind else {
        return Ok(true);
    };
    let Some(label) = choice.label else {
        return Ok(true);
    };
    match first_place(alloc, body, label)? {
        Some(path) => Ok(same_path(&path, &choice.path)),
        None => Ok(false),
    }
}

/// The simplification that the move names, if it is lawful in the body: it applies at that place, whether
/// or not it is the next, and has a label of that name. The function's name is not looked at.
pub fn lawful_choice(
    alloc: Global,
    body: &List<Item>,
    labels: &List<Name>,
    step: &Move,
) -> Result<Option<Choice>, Memory>
    ensures some { IfOk result (λ r. IfSome r (λ c. IsNamed body.now labels.now step.now c)) }
    ensures none { IfOk result (λ r. IfNone r ((c : TheChoice) → ¬ (IsNamed body.now labels.now step.now c))) }
{
    let Some(choice) = choice_at(alloc, body, step.kind, &step.path)? else {
        return Ok(None);
    };
    if !has_name(labels, choice.label, &step.label) {
        return Ok(None);
    }
    if is_first_place(alloc, body, &choice)? {
        Ok(Some(choice))
    } else {
        Ok(None)
    }
}
