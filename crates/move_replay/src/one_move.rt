//! One move of a report, in a function.

ghost use Rattle.std.specs.Prelude.{◌≡◌, ◌<◌, ◌↔◌, IfOk, IfSome, IsTrue, IsFalse, Some, true, length};
ghost use Rattle.c_tree.specs.declared.tree.Function.{Function as TheFunction};
ghost use Rattle.c_tree.specs.declared.tree.Item.{Item as TheItem};
ghost use Rattle.c_tree.specs.InRange.{body_of};
ghost use Rattle.c_tree.specs.Trees.{trees_of};
ghost use Rattle.c_tree.specs.WellMade.{IsWellMade};
ghost use Rattle.move_order_laws.specs.Leaps.{leaps};
ghost use Rattle.restructure_laws.specs.Lawful.{IsLeapMoved, IsMovedBy};
ghost use Rattle.restructure_laws.specs.Replayed.{IsTopWellMade};

use c_tree::{Function, Item, Path, Top};
use c_types::{List, Memory, Name};
use label_offsets::{first_leap, label_at};
use move_bodies::{Moved, apply_one, move_near};
use report_moves::{Move, MoveKind, has_name};
use std::alloc::Global;
use std::mem;

/// Whether a Leap is left in a well made body.
fn has_leap(alloc: Global, body: &List<Item>) -> Result<bool, Memory>
    requires { IsWellMade (trees_of body.now) }
    ensures yes { IfOk result (λ b. IsTrue b → 0 < leaps (trees_of body.now)) }
    ensures no { IfOk result (λ b. IsFalse b → leaps (trees_of body.now) ≡ 0) }
{
    let found = first_leap(alloc, body)?;
    Ok(found.is_some())
}

/// Whether a Leap is left in a flat function.
pub fn has_leap_left(alloc: Global, function: &Function) -> Result<bool, Memory>
    requires made { IsTopWellMade (Top.Function function.now) }
    requires flat { function.now.flat ≡ true }
    ensures yes { IfOk result (λ b. IsTrue b → 0 < leaps (body_of function.now)) }
    ensures no { IfOk result (λ b. IsFalse b → leaps (body_of function.now) ≡ 0) }
{
    match &function.body {
        Some(body) => has_leap(alloc, body),
        None => Ok(false),
    }
}

/// Whether a path leads to a Leap of a function, so that one is left. It is told without a search.
fn leads_to_leap(function: &Function, at: &Path) -> bool
    ensures { IsTrue result → 0 < leaps (body_of function.now) }
{
    match &function.body {
        Some(body) => label_at(body, at).is_some(),
        None => false,
    }
}

fn same_kind(a: MoveKind, b: MoveKind) -> bool
    ensures { IsTrue result ↔ a ≡ b }
{
    a == b
}

/// Moves a Leap in a well made body as the move says, if that is lawful. After another answer the body is
/// given up. `land` says where its Land should stand, and gets where it should stand then.
fn move_leap(
    alloc: Global,
    labels: &List<Name>,
    body: &mut List<Item>,
    step: &Move,
    land: &mut Option<Path>,
) -> Result<bool, Memory>
    requires { IsWellMade (trees_of body.old) }
    ensures yes { IfOk result (λ b. IsTrue b → IsLeapMoved labels.now step.now body.old body.new) }
    ensures no { IfOk result (λ b. IsFalse b → (new : List TheItem) → ¬ (IsLeapMoved labels.now step.now body.old new)) }
{
    let Some(label) = label_at(body, &step.path) else {
        return Ok(false);
    };
    if !has_name(labels, Some(label), &step.label) {
        return Ok(false);
    }
    let Moved { kind, .. } = move_near(alloc, body, &step.path, label, land)?;
    Ok(same_kind(kind, step.kind))
}

/// Moves a Leap of a well made function as the move says, if that is lawful. After another answer the function is given
/// up. `land` says where its Land should stand, and gets where it should stand then.
fn move_leap_of(
    alloc: Global,
    function: &mut Function,
    step: &Move,
    land: &mut Option<Path>,
) -> Result<bool, Memory>
    requires made { IsTopWellMade (Top.Function function.old) }
    requires flat { function.old.flat ≡ true }
    requires name { function.old.name ≡ step.now.function }
    requires leap { 0 < leaps (body_of function.old) }
    ensures yes { IfOk result (λ b. IsTrue b → IsMovedBy step.now function.old function.new) }
    ensures no { IfOk result (λ b. IsFalse b → (g : TheFunction) → ¬ (IsMovedBy step.now function.old g)) }
{
    let Some(body) = mem::replace(&mut function.body, None) else {
        return Ok(false);
    };
    let mut body = body;
    let done = move_leap(alloc, &function.labels, &mut body, step, land);
    drop(mem::replace(&mut function.body, Some(body)));
    done
}

/// What is known of the next move from those before it.
#[derive(Drop)]
pub struct Known {
    /// Where the Land of the last Leap should stand.
    pub land: Option<Path>,
    /// The place of a function in which no Leap is left.
    pub leapless: Option<usize>,
}

fn is_place(place: Option<usize>, at: usize) -> bool
    ensures { IsTrue result → place ≡ Some at }
{
    match place {
        Some(other) => other == at,
        None => false,
    }
}

/// Whether a Leap is left in the flat function at the place. It is sought only where nothing tells.
fn has_leap_now(
    alloc: Global,
    function: &Function,
    at: usize,
    path: &Path,
    leapless: Option<usize>,
) -> Result<bool, Memory>
    requires made { IsTopWellMade (Top.Function function.now) }
    requires flat { function.now.flat ≡ true }
    requires leapless { leapless ≡ Some at → leaps (body_of function.now) ≡ 0 }
    ensures yes { IfOk result (λ b. IsTrue b → 0 < leaps (body_of function.now)) }
    ensures no { IfOk result (λ b. IsFalse b → leaps (body_of function.now) ≡ 0) }
{
    if leads_to_leap(function, path) {
        return Ok(true);
    }
    if is_place(leapless, at) {
        return Ok(false);
    }
    has_leap_left(alloc, function)
}

/// Makes the move in a flat function of its name, which stands at the place, if it is lawful there. After
/// another answer the function is given up.
pub fn move_in(
    alloc: Global,
    function: &mut Function,
    at: usize,
    step: &Move,
    known: &mut Known,
) -> Result<bool, Memory>
    requires made { IsTopWellMade (Top.Function function.old) }
    requires flat { function.old.flat ≡ true }
    requires name { function.old.name ≡ step.now.function }
    requires leapless { known.old.leapless ≡ Some at → leaps (body_of function.old) ≡ 0 }
    ensures yes { IfOk result (λ b. IsTrue b → IsMovedBy step.now function.old function.new) }
    ensures no { IfOk result (λ b. IsFalse b → (g : TheFunction) → ¬ (IsMovedBy step.now function.old g)) }
    ensures leapless { IfOk result (λ b. IsTrue b → IfSome known.new.leapless (λ k. (k ≡ at) × (leaps (body_of function.new) ≡ 0))) }
{
    if has_leap_now(alloc, function, at, &step.path, known.leapless)? {
        known.leapless = None;
        move_leap_of(alloc, function, step, &mut known.land)
    } else {
        known.leapless = Some(at);
        apply_one(alloc, function, step)
    }
}
