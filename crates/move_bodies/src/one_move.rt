ghost use Rattle.std.specs.Prelude.{◌≡◌, IfOk, OnErr, OnOk, Some};
ghost use Rattle.c_tree.specs.Trees.{trees_of};
ghost use Rattle.c_tree.specs.WellMade.{IsWellMade};
ghost use Rattle.label_offsets.specs.Choice.{IsRuleAt};
ghost use Rattle.label_offsets.specs.Marks.{label_at as the_label_at};
ghost use Rattle.move_bodies.specs.Moving.{IsMove};

use crate::lands::{find_land, land_after_move};
use c_tree::{Item, Path};
use c_types::{List, Memory};
use goto_lifting::lift;
use inward_moves::move_in;
use label_offsets::{Rule, relation};
use outward_moves::move_out;
use report_moves::MoveKind;
use sibling_elim::join;
use std::alloc::Global;
use std::mem;

/// A move that was made: its kind, and where the Leap stands then, or `None` where it is joined.
#[derive(Drop)]
pub struct Moved {
    pub kind: MoveKind,
    pub to: Option<Path>,
}

/// One move by the given rule, which applies.
fn move_by(
    alloc: Global,
    body: &mut List<Item>,
    at: &Path,
    label: u32,
    rule: Rule,
) -> Result<Moved, Memory>
    requires well_made { IsWellMade (trees_of body.old) }
    requires label { the_label_at body.old at.now ≡ Some label }
    requires rule { IsRuleAt rule body.old at.now }
    ensures moves { IfOk result (λ m. IsMove label at.now m.kind m.to body.old body.new) }
    ensures well_made { OnOk result (IsWellMade (trees_of body.new)) }
    ensures err { OnErr result (body.new ≡ body.old) }
{
    match rule {
        Rule::SiblingBefore | Rule::SiblingAfter => {
            join(alloc, body, at)?;
            Ok(Moved {
                kind: MoveKind::Join,
                to: None,
            })
        }
        Rule::LiftOf => {
            let to = lift(alloc, body, at)?;
            Ok(Moved {
                kind: MoveKind::Lift,
                to: Some(to),
            })
        }
        Rule::InwardOf => {
            let to = move_in(alloc, body, at)?;
            Ok(Moved {
                kind: MoveKind::Inward,
                to: Some(to),
            })
        }
        Rule::Outward => {
            let to = move_out(alloc, body, at)?;
            Ok(Moved {
                kind: MoveKind::Out,
                to: Some(to),
            })
        }
    }
}

/// Moves the Leap of the label at the path by the rule that applies, in place. `land` says where the Land
/// should stand, and gets where it should stand after the move: so the moves of one Leap search for its Land
/// once. It may say anything; where it is wrong the Land is sought. After `Memory` the body is as it was.
pub fn move_near(
    alloc: Global,
    body: &mut List<Item>,
    at: &Path,
    label: u32,
    land: &mut Option<Path>,
) -> Result<Moved, Memory>
    requires well_made { IsWellMade (trees_of body.old) }
    requires label { the_label_at body.old at.now ≡ Some label }
    ensures moves { IfOk result (λ m. IsMove label at.now m.kind m.to body.old body.new) }
    ensures well_made { OnOk result (IsWellMade (trees_of body.new)) }
    ensures err { OnErr result (body.new ≡ body.old) }
{
    let place = find_land(alloc, body, at, label, mem::replace(land, None))?;
    let rule = relation(at, &place);
    *land = land_after_move(rule, at, place)?;
    move_by(alloc, body, at, label, rule)
}

/// Moves the Leap of the label at the path by the rule that applies, in place. After `Memory` the body
/// is as it was.
pub fn move_once(
    alloc: Global,
    body: &mut List<Item>,
    at: &Path,
    label: u32,
) -> Result<Moved, Memory>
    requires well_made { IsWellMade (trees_of body.old) }
    requires label { the_label_at body.old at.now ≡ Some label }
    ensures moves { IfOk result (λ m. IsMove label at.now m.kind m.to body.old body.new) }
    ensures well_made { OnOk result (IsWellMade (trees_of body.new)) }
    ensures err { OnErr result (body.new ≡ body.old) }
{
    let mut land = None;
    move_near(alloc, body, at, label, &mut land)
}
