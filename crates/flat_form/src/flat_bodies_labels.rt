ghost use Rattle.std.specs.Prelude.{◌≡◌, ◌++◌, IfOk, OnOk};
ghost use Rattle.c_tree.specs.Trees.{trees_of, sections_of};
ghost use Rattle.flat_laws.specs.FlatForm.{marks, marks_in, marks_among};
ghost use Rattle.c_tree.specs.Views.{tree_at};

use c_tree::{Item, Section};
use c_types::{List, Memory};
use std::alloc::Global;

/// The labels that stand in a body, in text order. Want of memory is the only failure.
pub fn labels_in(alloc: Global, body: &List<Item>) -> Result<List<u32>, Memory>
    ensures { IfOk result (λ it. it ≡ marks (trees_of body.now)) }
{
    let mut out = List::new(alloc);
    add_list(body, &mut out)?;
    Ok(out)
}

#[cycle(marking)]
fn add_list(list: &List<Item>, out: &mut List<u32>) -> Result<(), Memory>
    ensures { OnOk result (out.new ≡ out.old ++ marks (trees_of list.now)) }
{
    add_items(list.as_slice(), out)
}

#[cycle(marking)]
fn add_items(items: &[Item], out: &mut List<u32>) -> Result<(), Memory>
    ensures { OnOk result (out.new ≡ out.old ++ marks (trees_of items.now)) }
{
    for i in 0..items.len() {
        add_item(&items[i], out)?;
    }
    Ok(())
}

#[cycle(marking)]
fn add_item(item: &Item, out: &mut List<u32>) -> Result<(), Memory>
    ensures { OnOk result (out.new ≡ out.old ++ marks_in (tree_at item.now)) }
{
    match item {
        Item::If(_, a, b) => {
            add_list(a, out)?;
            add_list(b, out)
        }
        Item::While(_, a) => add_list(a, out),
        Item::Do(a, _) => add_list(a, out),
        Item::For(first, _, _, a) => {
            add_list(first, out)?;
            add_list(a, out)
        }
        Item::Block(a) => add_list(a, out),
        Item::Switch(_, sections) => add_sections(sections.as_slice(), out),
        Item::Mark(label) => out.push(*label),
        _ => Ok(()),
    }
}

#[cycle(marking)]
fn add_sections(sections: &[Section], out: &mut List<u32>) -> Result<(), Memory>
    ensures { OnOk result (out.new ≡ out.old ++ marks_among (sections_of sections.now)) }
{
    for i in 0..sections.len() {
        add_list(&sections[i].list, out)?;
    }
    Ok(())
}
