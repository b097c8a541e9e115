ghost use Rattle.std.specs.Prelude.{◌≡◌, ◌*◌, option_map, OnOk, IfOk};
ghost use Rattle.c_tree.specs.ExpressionTrees.{expression_tree};
ghost use Rattle.c_tree.specs.Trees.{expression_trees, trees_of, join};
ghost use Rattle.flat_laws.specs.FlatForm.{mark_if};
ghost use Rattle.flat_items.specs.Plans.{aim_of};
ghost use Rattle.lower_items.specs.Forms.{simple_form, local_form};
ghost use Rattle.lower_items.specs.Plans.{layout_of, arrivals_of};
ghost use Rattle.c_tree.specs.Views.{tree_at};

use crate::cases::add_arrival;
use crate::plans::{Cases, Plan, source_label};
use c_tree::{Expression, Item};
use c_types::{List, Memory};
use flat_items::{Here, Scope, add, add_break, add_continue, add_goto, add_initialised, add_label};
use flat_questions::is_flagged;
use std::alloc::Global;

fn add_source(plan: &Plan, label: u32, out: &mut List<Item>) -> Result<(), Memory>
    ensures { OnOk result (trees_of out.new ≡ join (trees_of out.old) (mark_if ((layout_of plan.now).plan.live label) (7 * label))) }
{
    if is_flagged(plan.named.as_slice(), label) {
        add_label(source_label(label)?, out)
    } else {
        Ok(())
    }
}

fn add_local(
    alloc: Global,
    plan: &Plan,
    slot: u32,
    given: Option<List<Expression>>,
    out: &mut List<Item>,
) -> Result<(), Memory>
    ensures { OnOk result (trees_of out.new ≡ join (trees_of out.old) (local_form (layout_of plan.now) slot (option_map expression_trees given))) }
{
    match given {
        Some(given) => add_initialised(alloc, plan.slots.as_slice(), slot, given, out),
        None => Ok(()),
    }
}

fn add_simple(
    alloc: Global,
    plan: &Plan,
    scope: Scope,
    cases: &Cases,
    item: Item,
    out: &mut List<Item>,
) -> Result<(), Memory>
    ensures { OnOk result (trees_of out.new ≡ join (trees_of out.old) (simple_form (layout_of plan.now) (aim_of scope.breaks) (aim_of scope.continues) (arrivals_of cases.now) (tree_at item))) }
{
    match item {
        Item::Local(slot, given) => add_local(alloc, plan, slot, given, out),
        Item::Break => add_break(scope.breaks, out),
        Item::Continue => add_continue(scope.continues, out),
        Item::Goto(label) => add_goto(source_label(label)?, out),
        Item::Mark(label) => add_source(plan, label, out),
        Item::Arrival(case) => add_arrival(cases, case, out),
        other => add(out, other),
    }
}

/// What stands in the place of an item that holds no list.
pub fn write_simple(
    alloc: Global,
    plan: &Plan,
    scope: Scope,
    cases: &Cases,
    item: Item,
    here: Here,
    out: &mut List<Item>,
) -> Result<Here, Memory>
    ensures place { IfOk result (λ it. it ≡ here) }
    ensures items { OnOk result (trees_of out.new ≡ join (trees_of out.old) (simple_form (layout_of plan.now) (aim_of scope.breaks) (aim_of scope.continues) (arrivals_of cases.now) (tree_at item))) }
{
    add_simple(alloc, plan, scope, cases, item, out)?;
    Ok(here)
}
