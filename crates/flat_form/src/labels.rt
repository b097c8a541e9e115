//! The labels that an item gives a flat form, apart from those that stand in it.

ghost use Rattle.std.specs.Prelude.{◌≡◌, ◌+◌, cond, IfOk};
ghost use Rattle.c_tree.specs.Exits.{breaks, continues};
ghost use Rattle.c_tree.specs.Trees.{trees_of, sections_of};
ghost use Rattle.c_tree.specs.Views.{tree_at};
ghost use Rattle.flat_laws.specs.Parts.{kept_breaks, holds_jump as the_holds_jump};
ghost use Rattle.flat_questions.specs.Reading.{is_flagged as the_is_flagged};
ghost use Rattle.c_resolved_laws.specs.Counts.{one_for, is_jumpy as the_is_jumpy, scattered_labels, labels_in};

use crate::exits::is_jumpy;
use crate::sums::{add, one_if};
use c_tree::{Item, Section};
use c_types::{IntKind, List, Memory};
use flat_questions::{
    case_numbers, has_break, has_continue, holds_jump, is_scattered, keeps_break, leaves,
    switch_has_default,
};
use std::alloc::Global;

/// Those of a loop with this body. The flags say which labels are named.
fn of_loop(named: &[bool], body: &List<Item>) -> u64
    ensures { result ≡ cond (the_holds_jump (the_is_flagged named.now) (trees_of body.now)) (one_for (breaks (trees_of body.now)) + one_for (continues (trees_of body.now))) 0 }
{
    if holds_jump(named, body) {
        one_if(has_break(body)) + one_if(has_continue(body))
    } else {
        0
    }
}

/// Those of a scattered switch of these sections.
fn of_scattered(alloc: Global, sections: &[Section]) -> Result<u64, Memory>
    ensures { IfOk result (λ it. it ≡ scattered_labels (sections_of sections.now)) }
{
    let cases = case_numbers(alloc, IntKind::Int, sections)?;
    let mut count = cases.len() as u64;
    add(&mut count, one_if(switch_has_default(sections)))?;
    add(&mut count, one_if(leaves(sections)))?;
    Ok(count)
}

/// Those of a switch that isn't scattered.
fn of_plain(named: &[bool], in_jumpy: bool, sections: &List<Section>) -> u64
    ensures { result ≡ cond (the_is_jumpy (the_is_flagged named.now) in_jumpy (sections_of sections.now)) (one_for (kept_breaks (the_is_flagged named.now) (sections_of sections.now))) 0 }
{
    if is_jumpy(named, in_jumpy, sections) {
        one_if(keeps_break(named, sections.as_slice()))
    } else {
        0
    }
}

/// Those of an item, where the flag says whether the nearest loop around it is jumpy. Want of memory is
/// the only failure.
pub fn labels_given(
    alloc: Global,
    named: &[bool],
    in_jumpy: bool,
    item: &Item,
) -> Result<u64, Memory>
    ensures { IfOk result (λ it. it ≡ labels_in (the_is_flagged named.now) in_jumpy (tree_at item.now)) }
{
    match item {
        Item::While(_, a) => Ok(of_loop(named, a)),
        Item::Do(a, _) => Ok(of_loop(named, a)),
        Item::For(_, _, _, a) => Ok(of_loop(named, a)),
        Item::Switch(_, sections) => {
            if is_scattered(sections.as_slice()) {
                of_scattered(alloc, sections.as_slice())
            } else {
                Ok(of_plain(named, in_jumpy, sections))
            }
        }
        _ => Ok(0),
    }
}
