//! The gotos that an item gives a flat form, apart from those that stand in it.

ghost use Rattle.std.specs.Prelude.{◌≡◌, ◌+◌, cond, IfOk, OnOk};
ghost use Rattle.c_tree.specs.Exits.{breaks, breaks_in, continues};
ghost use Rattle.c_tree.specs.Trees.{trees_of, sections_of};
ghost use Rattle.c_tree.specs.Views.{tree_at};
ghost use Rattle.flat_laws.specs.Parts.{kept_breaks, section_list, ending, holds_jump as the_holds_jump};
ghost use Rattle.flat_questions.specs.Reading.{is_flagged as the_is_flagged};
ghost use Rattle.c_resolved_laws.specs.Counts.{section_ends, is_jumpy as the_is_jumpy, scattered_gotos, gotos_in};
ghost use Rattle.flat_form.specs.Given.{some_in};

use crate::exits::{add_breaks, add_continues, is_jumpy};
use crate::sums::{add, one_if};
use c_tree::{Item, Section};
use c_types::{IntKind, List, Memory};
use flat_questions::{Ending, case_numbers, ends_by, holds_jump, is_scattered, switch_kind};
use std::alloc::Global;

/// Those of a loop with this body. The flags say which labels are named.
fn of_loop(named: &[bool], body: &List<Item>) -> Result<u64, Memory>
    ensures { IfOk result (λ it. it ≡ cond (the_holds_jump (the_is_flagged named.now) (trees_of body.now)) (breaks (trees_of body.now) + continues (trees_of body.now)) 0) }
{
    let mut count = 0;
    if holds_jump(named, body) {
        add_breaks(body, &mut count)?;
        add_continues(body, &mut count)?;
    }
    Ok(count)
}

/// Adds one for each number that is there.
fn add_tests(numbers: &[Option<i128>], count: &mut u64) -> Result<(), Memory>
    ensures { OnOk result (count.new ≡ count.old + some_in numbers.now) }
{
    for i in 0..numbers.len() {
        add(count, one_if(numbers[i].is_some()))?;
    }
    Ok(())
}

/// Adds the ends of sections, and the breaks of their switch.
fn add_ends(sections: &[Section], count: &mut u64) -> Result<(), Memory>
    ensures { OnOk result (count.new ≡ count.old + (section_ends (sections_of sections.now) + breaks_in (sections_of sections.now))) }
{
    for i in 0..sections.len() {
        let section = &sections[i];
        add(count, one_if(section.ends))?;
        add_breaks(&section.list, count)?;
    }
    Ok(())
}

/// Those of a scattered switch of these sections that compares in this kind.
fn of_scattered(alloc: Global, kind: IntKind, sections: &[Section]) -> Result<u64, Memory>
    ensures { IfOk result (λ it. it ≡ scattered_gotos kind (sections_of sections.now)) }
{
    let numbers = case_numbers(alloc, kind, sections)?;
    let mut count = 1;
    add_tests(numbers.as_slice(), &mut count)?;
    add_ends(sections, &mut count)?;
    Ok(count)
}

/// Adds the breaks that stay in the list of a section: all but one by which it ends.
fn add_kept(named: &[bool], list: &List<Item>, count: &mut u64) -> Result<(), Memory>
    ensures { OnOk result (count.new ≡ count.old + breaks (section_list (the_is_flagged named.now) (trees_of list.now) (ending (the_is_flagged named.now) (trees_of list.now)))) }
{
    let mut all = 0;
    add_breaks(list, &mut all)?;
    match ends_by(named, list) {
        Ending::Breaks => add(count, all - 1),
        _ => add(count, all),
    }
}

/// Adds the breaks that stay in sections.
fn add_kept_in(named: &[bool], sections: &[Section], count: &mut u64) -> Result<(), Memory>
    ensures { OnOk result (count.new ≡ count.old + kept_breaks (the_is_flagged named.now) (sections_of sections.now)) }
{
    for i in 0..sections.len() {
        add_kept(named, &sections[i].list, count)?;
    }
    Ok(())
}

/// Those of a switch that isn't scattered.
fn of_plain(named: &[bool], in_jumpy: bool, sections: &List<Section>) -> Result<u64, Memory>
    ensures { IfOk result (λ it. it ≡ cond (the_is_jumpy (the_is_flagged named.now) in_jumpy (sections_of sections.now)) (kept_breaks (the_is_flagged named.now) (sections_of sections.now)) 0) }
{
    let mut count = 0;
    if is_jumpy(named, in_jumpy, sections) {
        add_kept_in(named, sections.as_slice(), &mut count)?;
    }
    Ok(count)
}

/// Those of an item, where the flag says whether the nearest loop around it is jumpy. Want of memory is
/// the only failure.
pub fn gotos_given(
    alloc: Global,
    named: &[bool],
    in_jumpy: bool,
    item: &Item,
) -> Result<u64, Memory>
    ensures { IfOk result (λ it. it ≡ gotos_in (the_is_flagged named.now) in_jumpy (tree_at item.now)) }
{
    match item {
        Item::Goto(_) => Ok(1),
        Item::While(_, a) => of_loop(named, a),
        Item::Do(a, _) => of_loop(named, a),
        Item::For(_, _, _, a) => of_loop(named, a),
        Item::Switch(selector, sections) => {
            if is_scattered(sections.as_slice()) {
                of_scattered(alloc, switch_kind(selector), sections.as_slice())
            } else {
                of_plain(named, in_jumpy, sections)
            }
        }
        _ => Ok(0),
    }
}
