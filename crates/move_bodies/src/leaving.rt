ghost use Rattle.std.specs.Prelude.{◌≡◌, ◌<◌, IfOk, Some};
ghost use Rattle.c_tree.specs.Trees.{trees_of};
ghost use Rattle.c_tree.specs.WellMade.{IsWellMade};
ghost use Rattle.label_offsets.specs.Marks.{label_at as the_label_at};
ghost use Rattle.label_offsets.specs.Relation.{relation as the_relation};
ghost use Rattle.label_offsets.specs.Standing.{IsPlaceOf};
ghost use Rattle.move_bodies.specs.Leaving.{is_outward, LeadsOn};
ghost use Rattle.move_bodies.specs.Moving.{IsUnderway};

use c_tree::{Item, Path};
use c_types::{List, Memory};
use label_offsets::{Rule, relation};
use move_order_laws::Kept;
use outward_moves::move_out;
use report_moves::MoveKind;
use std::alloc::Global;

/// Whether the Leap at a path goes out, by the place that its Land had when it was chosen.
fn goes_out(at: &Path, land: &Path) -> bool
    ensures { result ≡ is_outward (the_relation at.now.steps at.now.item land.now.steps land.now.item) }
{
    match relation(at, land) {
        Rule::Outward => true,
        _ => false,
    }
}

/// Moves the Leap out until its list has the Land or an element of it holds the Land, and answers where
/// it stands then. The place of the Land is that of the start: a list on the way to the Leap gains and
/// loses no Land.
pub fn leave(
    alloc: Global,
    body: &mut List<Item>,
    start: Path,
    label: u32,
    land: &Path,
    moves: &mut List<Kept>,
) -> Result<Path, Memory>
    requires well_made { IsWellMade (trees_of body.old) }
    requires label { the_label_at body.old start ≡ Some label }
    requires land { IsPlaceOf label body.old land.now }
    ensures underway { IfOk result (λ to. IsUnderway label start (Some to) body.old body.new moves.old moves.new) }
    ensures leads { IfOk result (λ to. LeadsOn label body.new to) }
{
    let mut at = start;
    while goes_out(&at, land) {
        let to = move_out(alloc, body, &at)?;
        moves.push(Kept {
            kind: MoveKind::Out,
            label,
            path: at,
        })?;
        at = to;
    }
    Ok(at)
}
