ghost use Rattle.std.specs.Prelude.{IfOk, IsSome};
ghost use Rattle.c_tree.specs.Trees.{trees_of};
ghost use Rattle.c_tree.specs.WellMade.{IsWellMade};
ghost use Rattle.label_offsets.specs.Choice.{IsRuleAt};
ghost use Rattle.label_offsets.specs.Marks.{label_at as the_label_at};

use crate::marks::label_at;
use crate::places::{Rule, outermost, relation};
use crate::search::place_of;
use c_tree::{Item, Path};
use c_types::{List, Memory};
use std::alloc::Global;

/// The rule that applies to the Leap at a path of a well made body (docs/REWRITING.md).
pub fn rule_at(alloc: Global, body: &List<Item>, at: &Path) -> Result<Rule, Memory>
    requires well_made { IsWellMade (trees_of body.now) }
    requires leap { IsSome (the_label_at body.now at.now) }
    ensures { IfOk result (λ r. IsRuleAt r body.now at.now) }
{
    let Some(label) = label_at(body, at) else {
        unreachable!();
    };
    let land = place_of(alloc, body, outermost(at), label)?;
    Ok(relation(at, &land))
}
