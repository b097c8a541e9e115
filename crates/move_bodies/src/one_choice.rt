//! One simplification of a body, whatever its kind.

ghost use Rattle.std.specs.Prelude.{◌≡◌, ◌≤◌, OnOk, OnErr};
ghost use Rattle.c_tree.specs.Trees.{trees_of};
ghost use Rattle.move_order_laws.specs.Nesting.{nesting};
ghost use Rattle.guard_simplify.specs.Choice.{Among, choices};
ghost use Rattle.guard_simplify.specs.Application.{IsApplied};

use c_tree::Item;
use c_types::{List, Memory};
use guard_edits::{drop_guard, edit_at};
use guard_simplify::Choice;
use report_moves::MoveKind;
use std::alloc::Global;

/// Makes a simplification that applies, also one that isn't the next. No list comes to stand deeper. After
/// `Memory` the body is as it was.
pub fn apply(alloc: Global, body: &mut List<Item>, choice: &Choice) -> Result<(), Memory>
    requires { Among choice.now (choices (trees_of body.old)) }
    ensures ok { OnOk result (IsApplied choice.now body.old body.new) }
    ensures levels { nesting (trees_of body.new) ≤ nesting (trees_of body.old) }
    ensures err { OnErr result (body.new ≡ body.old) }
{
    match choice.kind {
        MoveKind::Z5 => match choice.label {
            Some(label) => {
                drop_guard(body, label);
                Ok(())
            }
            None => unreachable!(),
        },
        _ => edit_at(alloc, body, choice),
    }
}
