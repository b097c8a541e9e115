ghost use Rattle.std.specs.Prelude.{cond, eqb, Some, None, IfOk, OnOk};
ghost use Rattle.c_tree.specs.Trees.{tree_of, trees_of, section_tree, sections_of};
ghost use Rattle.jump_meaning.specs.Search.{ToLabel, is_goal, seek as the_seek, seek_in as the_seek_in, seek_sections as the_seek_sections};
ghost use Rattle.jump_meaning.specs.Tasks.{items, end_of};
ghost use Rattle.step_tasks.specs.Labels.{AddsBefore, AreLabelsOf};
ghost use Rattle.step_tasks.specs.Tasks.{work_of};

use crate::labels::Labels;
use crate::search::has_lists;
use crate::table::{no_labels, put, set_start, start};
use crate::work::{Stage, Task, Work};
use c_tree::{Function, Item, Section};
use c_types::Memory;
use std::alloc::Global;

/// Adds a label before these items, unless the table has it.
fn add_label<'a>(
    labels: &mut Labels<'a>,
    label: u32,
    list: &'a [Item],
    below: usize,
) -> Result<(), Memory>
    ensures { OnOk result (AddsBefore below (λ k l. cond (eqb l label) (Some (items (trees_of list.now) k)) None) labels.old labels.new) }
{
    if start(labels, label) != 0 {
        return Ok(());
    }
    let level = put(labels, Work::Items(list), below)?;
    set_start(labels, label, level)
}

/// Adds the labels of a list that has this work behind it.
#[cycle(gathering)]
fn gather_before<'a>(
    labels: &mut Labels<'a>,
    list: &'a [Item],
    work: Work<'a>,
    below: usize,
) -> Result<(), Memory>
    ensures { OnOk result (AddsBefore below (λ k l. the_seek (ToLabel l) (trees_of list.now) (work_of work.entry k)) labels.old labels.new) }
{
    let level = put(labels, work, below)?;
    gather(labels, list, level)
}

/// Adds the labels in an item.
#[cycle(gathering)]
fn gather_in<'a>(labels: &mut Labels<'a>, item: &'a Item, below: usize) -> Result<(), Memory>
    ensures { OnOk result (AddsBefore below (λ k l. the_seek_in (ToLabel l) (tree_of item.now) k) labels.old labels.new) }
{
    match item {
        Item::If(_, a, b) => {
            gather(labels, a.as_slice(), below)?;
            gather(labels, b.as_slice(), below)
        }
        Item::While(_, a) => {
            let work = Work::One(Task::Of(Stage::Loop, item));
            gather_before(labels, a.as_slice(), work, below)
        }
        Item::Do(a, _) => {
            let work = Work::One(Task::Of(Stage::Loop, item));
            gather_before(labels, a.as_slice(), work, below)
        }
        Item::For(_, _, _, a) => {
            let work = Work::One(Task::Of(Stage::Loop, item));
            gather_before(labels, a.as_slice(), work, below)
        }
        Item::Switch(_, sections) => gather_sections(labels, sections.as_slice(), below),
        Item::Block(a) => gather(labels, a.as_slice(), below),
        _ => Ok(()),
    }
}

/// Adds the labels in the lists of an item that has these items behind it.
#[cycle(gathering)]
fn gather_inside<'a>(
    labels: &mut Labels<'a>,
    item: &'a Item,
    behind: &'a [Item],
    below: usize,
) -> Result<(), Memory>
    ensures { OnOk result (AddsBefore below (λ k l. the_seek_in (ToLabel l) (tree_of item.now) (items (trees_of behind.now) k)) labels.old labels.new) }
{
    if !has_lists(item) {
        return Ok(());
    }
    let level = put(labels, Work::Items(behind), below)?;
    gather_in(labels, item, level)
}

/// Adds an item that is a label, before these items, or else the labels in it.
#[cycle(gathering)]
fn gather_item<'a>(
    labels: &mut Labels<'a>,
    item: &'a Item,
    list: &'a [Item],
    behind: &'a [Item],
    below: usize,
) -> Result<(), Memory>
    ensures { OnOk result (AddsBefore below
        (λ k l. cond (is_goal (ToLabel l) (tree_of item.now)) (Some (items (trees_of list.now) k)) (the_seek_in (ToLabel l) (tree_of item.now) (items (trees_of behind.now) k)))
        labels.old labels.new) }
{
    match item {
        Item::Mark(label) => add_label(labels, *label, list, below),
        Item::Land(label) => add_label(labels, *label, list, below),
        _ => gather_inside(labels, item, behind, below),
    }
}

/// Adds the labels of a list.
#[cycle(gathering)]
fn gather<'a>(labels: &mut Labels<'a>, list: &'a [Item], below: usize) -> Result<(), Memory>
    ensures { OnOk result (AddsBefore below (λ k l. the_seek (ToLabel l) (trees_of list.now) k) labels.old labels.new) }
{
    for at in 0..list.len() {
        gather_item(labels, &list[at], &list[at..], &list[at + 1..], below)?;
    }
    Ok(())
}

/// Adds the labels in the sections of a switch.
#[cycle(gathering)]
fn gather_sections<'a>(
    labels: &mut Labels<'a>,
    sections: &'a [Section],
    below: usize,
) -> Result<(), Memory>
    ensures { OnOk result (AddsBefore below (λ k l. the_seek_sections (ToLabel l) (sections_of sections.now) k) labels.old labels.new) }
{
    for at in 0..sections.len() {
        let level = put(labels, Work::Tail(&sections[at + 1..]), below)?;
        gather_section(labels, &sections[at], level)?;
    }
    Ok(())
}

/// Adds the labels in the list of one section, which has its end behind it.
#[cycle(gathering)]
fn gather_section<'a>(
    labels: &mut Labels<'a>,
    section: &'a Section,
    below: usize,
) -> Result<(), Memory>
    ensures { OnOk result (AddsBefore below (λ k l. let s = section_tree section.now in the_seek (ToLabel l) s.list (end_of s.ends k)) labels.old labels.new) }
{
    let list = section.list.as_slice();
    if section.ends {
        gather_before(labels, list, Work::One(Task::EndSection), below)
    } else {
        gather(labels, list, below)
    }
}

/// The labels of a function.
pub fn labels_of<'a>(alloc: Global, function: &'a Function) -> Result<Labels<'a>, Memory>
    ensures { IfOk result (λ it. AreLabelsOf function.now it) }
{
    let mut labels = no_labels(alloc);
    match &function.body {
        Some(body) => {
            gather(&mut labels, body.as_slice(), 0)?;
            Ok(labels)
        }
        None => Ok(labels),
    }
}
