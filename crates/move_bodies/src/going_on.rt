ghost use Rattle.std.specs.Prelude.{◌≡◌, IfOk, OnErr, OnOk, IsTrue, IsFalse, Some};
ghost use Rattle.c_tree.specs.Trees.{trees_of};
ghost use Rattle.c_tree.specs.WellMade.{IsWellMade};
ghost use Rattle.label_offsets.specs.Marks.{label_at as the_label_at};
ghost use Rattle.sibling_elim.specs.Sibling.{HasSibling};
ghost use Rattle.inward_moves.specs.Entering.{IsHeldAfter};
ghost use Rattle.move_bodies.specs.Leaving.{IsAhead};
ghost use Rattle.move_bodies.specs.Moving.{IsMove};

use crate::one_move::Moved;
use c_tree::{Item, Path, find_list};
use c_types::{List, Memory};
use inward_moves::move_in;
use label_offsets::first_land;
use report_moves::MoveKind;
use sibling_elim::join;
use std::alloc::Global;

/// Whether the list of the Leap, which stands first in it, has the Land.
fn has_land_beside(body: &List<Item>, at: &Path, label: u32) -> bool
    requires well_made { IsWellMade (trees_of body.now) }
    requires label { the_label_at body.now at.now ≡ Some label }
    requires ahead { IsAhead label body.now at.now }
    ensures some { IsTrue result → HasSibling body.now at.now }
    ensures none { IsFalse result → IsHeldAfter body.now at.now }
{
    let Some(list) = find_list(body, at.steps.as_slice()) else {
        unreachable!();
    };
    match first_land(list.as_slice(), label) {
        Some(_) => true,
        None => false,
    }
}

/// Moves a Leap that stands first in its list, where the Land stands in that list or in an element of
/// it: it is joined, or goes in. After `Memory` the body is as it was.
pub fn go_on(alloc: Global, body: &mut List<Item>, at: &Path, label: u32) -> Result<Moved, Memory>
    requires well_made { IsWellMade (trees_of body.old) }
    requires label { the_label_at body.old at.now ≡ Some label }
    requires ahead { IsAhead label body.old at.now }
    ensures moves { IfOk result (λ m. IsMove label at.now m.kind m.to body.old body.new) }
    ensures well_made { OnOk result (IsWellMade (trees_of body.new)) }
    ensures err { OnErr result (body.new ≡ body.old) }
{
    if has_land_beside(body, at, label) {
        join(alloc, body, at)?;
        Ok(Moved {
            kind: MoveKind::Join,
            to: None,
        })
    } else {
        let to = move_in(alloc, body, at)?;
        Ok(Moved {
            kind: MoveKind::Inward,
            to: Some(to),
        })
    }
}
