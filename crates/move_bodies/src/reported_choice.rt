//! One simplification that a report names, in whatever order.

ghost use Rattle.std.specs.Prelude.{◌≡◌, ◌≤◌, IfOk, OnErr, IsTrue, IsFalse};
ghost use Rattle.c_tree.specs.InRange.{body_of};
ghost use Rattle.c_tree.specs.Trees.{trees_of};
ghost use Rattle.move_order_laws.specs.Nesting.{nesting};
ghost use Rattle.move_bodies.specs.Lawful.{IsLawfulMove, IsMade, IsMadeIn, IsLawfulIn};

use crate::lawful::lawful_choice;
use crate::one_choice::apply;
use c_tree::{Function, Item};
use c_types::{List, Memory, Name};
use report_moves::Move;
use std::alloc::Global;
use std::mem;

fn apply_named(
    alloc: Global,
    name: &Name,
    labels: &List<Name>,
    body: &mut List<Item>,
    step: &Move,
) -> Result<bool, Memory>
    ensures yes { IfOk result (λ b. IsTrue b → IsMadeIn name.now labels.now step.now body.old body.new) }
    ensures no { IfOk result (λ b. IsFalse b → ¬ (IsLawfulIn name.now labels.now step.now body.old)) }
    ensures same { IfOk result (λ b. IsFalse b → body.new ≡ body.old) }
    ensures err { OnErr result (body.new ≡ body.old) }
    ensures levels { nesting (trees_of body.new) ≤ nesting (trees_of body.old) }
{
    if *name != step.function {
        return Ok(false);
    }
    match lawful_choice(alloc, body, labels, step)? {
        Some(choice) => {
            apply(alloc, body, &choice)?;
            Ok(true)
        }
        None => Ok(false),
    }
}

/// Makes the simplification that the move names in a function without jumps, and answers true, where it is
/// lawful: it applies at that place and has that label, whether or not it is the next, and the place of a
/// guard that goes is the first Arm or Land of its label. No list comes to stand deeper. Else, and after
/// `Memory`, the function is as it was.
#[tactic(auto, using(crate::proofs::Levels::body_simpler))]
pub fn apply_one(alloc: Global, function: &mut Function, step: &Move) -> Result<bool, Memory>
    ensures yes { IfOk result (λ b. IsTrue b → IsMade function.old function.new step.now) }
    ensures no { IfOk result (λ b. IsFalse b → ¬ (IsLawfulMove function.old step.now)) }
    ensures same { IfOk result (λ b. IsFalse b → function.new ≡ function.old) }
    ensures err { OnErr result (function.new ≡ function.old) }
    ensures levels { nesting (body_of function.new) ≤ nesting (body_of function.old) }
{
    let Some(body) = mem::replace(&mut function.body, None) else {
        return Ok(false);
    };
    let mut body = body;
    let done = apply_named(alloc, &function.name, &function.labels, &mut body, step);
    drop(mem::replace(&mut function.body, Some(body)));
    done
}
