//! The labels of a flat form get their numbers where they stand.

ghost use Rattle.std.specs.Prelude.{◌≡◌, length, OnOk};
ghost use Rattle.c_tree.specs.Trees.{NoSection, trees_of, sections_of};
ghost use Rattle.c_tree.specs.Views.{before, tree_at};
ghost use Rattle.flat_laws.specs.Relabelled.{relabelled, relabelled_item, relabelled_among};
ghost use Rattle.flat_items.specs.Plans.{number_at};

use c_tree::{Item, Section};
use c_types::{List, Memory};
use flat_items::{Places, label_of};

fn renumber_label(places: &Places, label: &mut u32) -> Result<(), Memory>
    ensures { OnOk result (label.new ≡ number_at places.now label.old) }
{
    *label = label_of(places, *label as usize)?;
    Ok(())
}

/// Gives each goto and each label of a list the number that its code has by these places. Want of
/// memory is the only failure; numbers past `u32` count as that.
#[cycle(renumbering)]
pub fn renumber(places: &Places, list: &mut List<Item>) -> Result<(), Memory>
    ensures { OnOk result (trees_of list.new ≡ relabelled (number_at places.now) (trees_of list.old)) }
{
    renumber_items(places, list.as_mut_slice())
}

#[cycle(renumbering)]
fn renumber_items(places: &Places, items: &mut [Item]) -> Result<(), Memory>
    ensures as_long { length items.new ≡ length items.old }
    ensures renumbered { OnOk result (trees_of items.new ≡ relabelled (number_at places.now) (trees_of items.old)) }
{
    for i in 0..items.len() {
        renumber_item(places, &mut items[i])?;
    }
    Ok(())
}

#[cycle(renumbering)]
fn renumber_item(places: &Places, item: &mut Item) -> Result<(), Memory>
    ensures { OnOk result (tree_at item.new ≡ relabelled_item (number_at places.now) (tree_at item.old)) }
{
    match item {
        Item::If(_, a, b) => {
            renumber(places, a)?;
            renumber(places, b)
        }
        Item::While(_, a) => renumber(places, a),
        Item::Do(a, _) => renumber(places, a),
        Item::For(first, _, _, a) => {
            renumber(places, first)?;
            renumber(places, a)
        }
        Item::Switch(_, sections) => renumber_sections(places, sections.as_mut_slice()),
        Item::Block(a) => renumber(places, a),
        Item::Goto(label) => renumber_label(places, label),
        Item::Mark(label) => renumber_label(places, label),
        // No other item of a flat form has a label.
        _ => Ok(()),
    }
}

#[cycle(renumbering)]
fn renumber_sections(places: &Places, sections: &mut [Section]) -> Result<(), Memory>
    ensures as_long { length sections.new ≡ length sections.old }
    ensures renumbered { OnOk result (sections_of sections.new ≡ relabelled_among (number_at places.now) (sections_of sections.old)) }
{
    for i in 0..sections.len() {
        renumber_section(places, &mut sections[i])?;
    }
    Ok(())
}

#[cycle(renumbering)]
fn renumber_section(places: &Places, section: &mut Section) -> Result<(), Memory>
    ensures { OnOk result (before section.new NoSection ≡ relabelled_among (number_at places.now) (before section.old NoSection)) }
{
    renumber(places, &mut section.list)
}
