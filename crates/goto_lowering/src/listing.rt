ghost use Rattle.std.specs.Prelude.{◌≡◌, ◌++◌, ◌∷◌, Some, None, IfOk, OnOk};
ghost use Rattle.c_tree.specs.Trees.{trees_of, sections_of};
ghost use Rattle.lower_laws.specs.Lowering.{constructs as the_constructs, constructs_in, constructs_among};
ghost use Rattle.c_tree.specs.Views.{tree_at};

use c_tree::{Item, Section};
use c_types::{IntKind, List, Memory};
use flat_questions::switch_kind;
use std::alloc::Global;

/// The loops and switches of a body, in text order: of each switch the kind of its variable. Want of memory
/// is the only failure.
pub fn constructs(alloc: Global, body: &List<Item>) -> Result<List<Option<IntKind>>, Memory>
    ensures { IfOk result (λ it. it ≡ the_constructs (trees_of body.now)) }
{
    let mut out = List::new(alloc);
    add_list(body, &mut out)?;
    Ok(out)
}

#[cycle(listing)]
fn add_list(list: &List<Item>, out: &mut List<Option<IntKind>>) -> Result<(), Memory>
    ensures { OnOk result (out.new ≡ out.old ++ the_constructs (trees_of list.now)) }
{
    add_items(list.as_slice(), out)
}

#[cycle(listing)]
fn add_items(items: &[Item], out: &mut List<Option<IntKind>>) -> Result<(), Memory>
    ensures { OnOk result (out.new ≡ out.old ++ the_constructs (trees_of items.now)) }
{
    for i in 0..items.len() {
        add_item(&items[i], out)?;
    }
    Ok(())
}

#[cycle(listing)]
fn add_loop(a: &List<Item>, out: &mut List<Option<IntKind>>) -> Result<(), Memory>
    ensures { OnOk result (out.new ≡ out.old ++ None ∷ the_constructs (trees_of a.now)) }
{
    out.push(None)?;
    add_list(a, out)
}

#[cycle(listing)]
fn add_item(item: &Item, out: &mut List<Option<IntKind>>) -> Result<(), Memory>
    ensures { OnOk result (out.new ≡ out.old ++ constructs_in (tree_at item.now)) }
{
    match item {
        Item::If(_, a, b) => {
            add_list(a, out)?;
            add_list(b, out)
        }
        Item::While(_, a) => add_loop(a, out),
        Item::Do(a, _) => add_loop(a, out),
        Item::For(first, _, _, a) => {
            add_loop(first, out)?;
            add_list(a, out)
        }
        Item::Block(a) => add_list(a, out),
        Item::Switch(selector, sections) => add_switch(switch_kind(selector), sections, out),
        _ => Ok(()),
    }
}

#[cycle(listing)]
fn add_switch(
    kind: IntKind,
    sections: &List<Section>,
    out: &mut List<Option<IntKind>>,
) -> Result<(), Memory>
    ensures { OnOk result (out.new ≡ out.old ++ Some kind ∷ constructs_among (sections_of sections.now)) }
{
    out.push(Some(kind))?;
    add_sections(sections.as_slice(), out)
}

#[cycle(listing)]
fn add_sections(sections: &[Section], out: &mut List<Option<IntKind>>) -> Result<(), Memory>
    ensures { OnOk result (out.new ≡ out.old ++ constructs_among (sections_of sections.now)) }
{
    for i in 0..sections.len() {
        add_list(&sections[i].list, out)?;
    }
    Ok(())
}
