//! All simplifications of a body, and of a function.

ghost use Rattle.std.specs.Prelude.{◌≡◌, ◌≤◌, IfOk, OnOk, OnErr, IsSome};
ghost use Rattle.c_tree.specs.InRange.{body_of};
ghost use Rattle.c_tree.specs.Trees.{trees_of};
ghost use Rattle.c_tree.specs.WellMade.{IsWellMade};
ghost use Rattle.move_laws.specs.MoveRuleLaws.{Keeps};
ghost use Rattle.move_order_laws.specs.Nesting.{nesting};
ghost use Rattle.guard_simplify.specs.Application.{Reaches, IsSimple};
ghost use Rattle.move_bodies.specs.Simplified.{IsOnTheWay, IsSimplified, IsPartlySimplified, KeepsBody};

use crate::choice_naming::name_choices;
use crate::next_choice::next_choice;
use crate::one_choice::apply;
use c_tree::{Function, Item};
use c_types::{List, Memory};
use guard_simplify::{Choice, first_choice};
use report_moves::Move;
use std::alloc::Global;
use std::mem;

/// Simplifies a body until no simplification applies, and answers the simplifications in order. A body
/// that was well made is well made then, and behaves the same in every steady program. No list comes to
/// stand deeper. After `Memory` the body stands after some of these simplifications, none of them in part.
pub fn simplify_body(alloc: Global, body: &mut List<Item>) -> Result<List<Choice>, Memory>
    ensures reaches { IfOk result (λ cs. Reaches body.old cs body.new) }
    ensures simple { OnOk result (IsSimple body.new) }
    ensures well_made { IsWellMade (trees_of body.old) → IsWellMade (trees_of body.new) }
    ensures behaviour { Keeps body.old body.new }
    ensures levels { nesting (trees_of body.new) ≤ nesting (trees_of body.old) }
    ensures err { OnErr result (IsOnTheWay body.old body.new) }
{
    let mut choices = List::new(alloc);
    let mut barred = List::new(alloc);
    let mut next = first_choice(alloc, body, &mut barred)?;
    while let Some(choice) = next {
        apply(alloc, body, &choice)?;
        next = next_choice(alloc, body, &mut barred, &choice)?;
        choices.push(choice)?;
    }
    Ok(choices)
}

/// Simplifies the body of a function without jumps until no simplification applies, and answers the
/// simplifications in order, for the report. A body that was well made is well made then, and behaves the
/// same in every steady program. No list comes to stand deeper. After `Memory` the body stands after some of
/// these simplifications, none of them in part.
#[tactic(auto, using(crate::proofs::Levels::body_simpler))]
pub fn simplify(alloc: Global, function: &mut Function) -> Result<List<Move>, Memory>
    requires { IsSome function.old.body }
    ensures ok { IfOk result (λ ms. IsSimplified function.old function.new ms) }
    ensures behaviour { KeepsBody function.old function.new }
    ensures levels { nesting (body_of function.new) ≤ nesting (body_of function.old) }
    ensures err { OnErr result (IsPartlySimplified function.old function.new) }
{
    let Some(body) = mem::replace(&mut function.body, None) else {
        unreachable!();
    };
    let mut body = body;
    let done = simplify_body(alloc, &mut body);
    drop(mem::replace(&mut function.body, Some(body)));
    name_choices(alloc, &function.name, &function.labels, done?)
}
