//! One simplification of a body, at its place.

ghost use Rattle.std.specs.Prelude.{◌≡◌, ◌≢◌, ◌<◌, OnOk, OnErr, length};
ghost use Rattle.c_tree.specs.Trees.{trees_of};
ghost use Rattle.report_moves.specs.declared.moves.MoveKind.TheVariants.{Z5};
ghost use Rattle.guard_simplify.specs.Choice.{Among, choices};
ghost use Rattle.guard_simplify.specs.Application.{edited, IsEdited};
ghost use Rattle.guard_edits.specs.Built.{MayEdit};

use crate::edits::{join_items, remove_item, shorten_item, unnest_item};
use c_tree::{Item, replace_at};
use c_types::{List, Memory};
use guard_simplify::Choice;
use report_moves::MoveKind;
use std::alloc::Global;

/// Makes it in a list.
fn edit(alloc: Global, list: &mut List<Item>, at: usize, kind: MoveKind) -> Result<(), Memory>
    requires may { MayEdit kind list.old at }
    requires within { at < length list.old }
    ensures ok { OnOk result (trees_of list.new ≡ edited kind at (trees_of list.old)) }
    ensures err { OnErr result (list.new ≡ list.old) }
{
    match kind {
        MoveKind::Z1 => {
            remove_item(list, at);
            Ok(())
        }
        MoveKind::Z2 => shorten_item(alloc, list, at),
        MoveKind::Z3 => join_items(alloc, list, at),
        MoveKind::Z4 => unnest_item(alloc, list, at),
        _ => unreachable!(),
    }
}

/// Makes a simplification that applies, of Z1 to Z4, in the list at its place. After `Memory` the body
/// is as it was.
pub fn edit_at(alloc: Global, body: &mut List<Item>, choice: &Choice) -> Result<(), Memory>
    requires applies { Among choice.now (choices (trees_of body.old)) }
    requires not_guard { choice.now.kind ≢ Z5 }
    ensures ok { OnOk result (IsEdited choice.now body.old body.new) }
    ensures err { OnErr result (body.new ≡ body.old) }
{
    let steps = choice.path.steps.as_slice();
    let mut list = replace_at(body, steps, List::new(alloc));
    let done = edit(alloc, &mut list, choice.path.item as usize, choice.kind);
    let empty = replace_at(body, steps, list);
    drop(empty);
    done
}
