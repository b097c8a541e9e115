ghost use Rattle.std.specs.Prelude.{◌≡◌, true, IfOk};
ghost use Rattle.c_tree.specs.Exits.{breaks, continues};
ghost use Rattle.c_tree.specs.Trees.{trees_of, sections_of};
ghost use Rattle.flat_laws.specs.Parts.{holds_jump as the_holds_jump, kept_breaks, ends_then as the_ends_then};
ghost use Rattle.flat_laws.specs.FlatForm.{aim as the_aim, is_moved as the_is_moved, is_jumpy_switch as the_is_jumpy_switch, scatter_aim as the_scatter_aim};
ghost use Rattle.flat_questions.specs.Reading.{ending_as};
ghost use Rattle.flat_items.specs.Plans.{aim_of, plan_of, here_of};

use crate::plans::{Aim, Here, Plan, Scope, break_label, continue_label};
use c_tree::{Item, Section};
use c_types::{List, Memory};
use flat_questions::{
    Ending, has_break, has_continue, holds_jump, keeps_break, leaves, sections_have_continue,
    sections_hold_jump,
};

fn break_aim(plan: &Plan, construct: u32, a: &List<Item>) -> Result<Aim, Memory>
    ensures { IfOk result (λ it. aim_of it ≡ the_aim true (breaks (trees_of a.now)) ((plan_of plan.now).break_label construct)) }
{
    if has_break(a) {
        Ok(Aim::Becomes(break_label(plan, construct)?))
    } else {
        Ok(Aim::Absent)
    }
}

fn continue_aim(plan: &Plan, construct: u32, a: &List<Item>) -> Result<Aim, Memory>
    ensures { IfOk result (λ it. aim_of it ≡ the_aim true (continues (trees_of a.now)) ((plan_of plan.now).continue_label construct)) }
{
    if has_continue(a) {
        Ok(Aim::Becomes(continue_label(plan, construct)?))
    } else {
        Ok(Aim::Absent)
    }
}

/// Whether a loop with this body is jumpy.
pub fn is_jumpy(plan: &Plan, a: &List<Item>) -> bool
    ensures { result ≡ the_holds_jump (plan_of plan.now).live (trees_of a.now) }
{
    holds_jump(plan.named.as_slice(), a)
}

/// What exits become in the body of a loop.
pub fn loop_scope(plan: &Plan, jumpy: bool, construct: u32, a: &List<Item>) -> Result<Scope, Memory>
    ensures breaks { IfOk result (λ it. aim_of it.breaks ≡ the_aim jumpy (breaks (trees_of a.now)) ((plan_of plan.now).break_label construct)) }
    ensures continues { IfOk result (λ it. aim_of it.continues ≡ the_aim jumpy (continues (trees_of a.now)) ((plan_of plan.now).continue_label construct)) }
{
    if jumpy {
        let breaks = break_aim(plan, construct, a)?;
        let continues = continue_aim(plan, construct, a)?;
        Ok(Scope { breaks, continues })
    } else {
        Ok(Scope {
            breaks: Aim::Stays,
            continues: Aim::Stays,
        })
    }
}

fn is_moved(aim: Aim) -> bool
    ensures { result ≡ the_is_moved (aim_of aim) }
{
    match aim {
        Aim::Stays => false,
        _ => true,
    }
}

/// Whether a switch is jumpy that stays one.
pub fn is_jumpy_switch(plan: &Plan, continues: Aim, sections: &List<Section>) -> bool
    ensures { result ≡ the_is_jumpy_switch (plan_of plan.now) (aim_of continues) (sections_of sections.now) }
{
    sections_hold_jump(plan.named.as_slice(), sections)
        || (is_moved(continues) && sections_have_continue(sections))
}

/// What a `break` becomes in a switch that stays one.
pub fn switch_aim(
    plan: &Plan,
    jumpy: bool,
    construct: u32,
    sections: &[Section],
) -> Result<Aim, Memory>
    ensures { IfOk result (λ it. aim_of it ≡ the_aim jumpy (kept_breaks (plan_of plan.now).live (sections_of sections.now)) ((plan_of plan.now).break_label construct)) }
{
    if jumpy {
        if keeps_break(plan.named.as_slice(), sections) {
            Ok(Aim::Becomes(break_label(plan, construct)?))
        } else {
            Ok(Aim::Absent)
        }
    } else {
        Ok(Aim::Stays)
    }
}

/// What a `break` becomes in a scattered switch.
pub fn scatter_aim(plan: &Plan, here: Here, sections: &[Section]) -> Result<Aim, Memory>
    ensures { IfOk result (λ it. aim_of it ≡ the_scatter_aim (plan_of plan.now) (here_of here) (sections_of sections.now)) }
{
    if leaves(sections) {
        Ok(Aim::Becomes(break_label(plan, here.construct)?))
    } else {
        Ok(Aim::Absent)
    }
}

/// Whether a section has an end in the flat form.
pub fn ends_then(jumpy: bool, ends: bool, ending: Ending) -> bool
    ensures { result ≡ the_ends_then jumpy ends (ending_as ending) }
{
    match ending {
        Ending::Breaks => true,
        Ending::Jumps => ends || jumpy,
        _ => ends,
    }
}
