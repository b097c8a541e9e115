//! Labels, or case labels that no switch is around, are taken out of a list where it stands.

ghost use Rattle.std.specs.Prelude.{◌≡◌, length};
ghost use Rattle.c_tree.specs.Trees.{NoSection, trees_of, sections_of};
ghost use Rattle.c_tree.specs.Views.{before, tree_at};
ghost use Rattle.flat_laws.specs.Unlabelled.{unlabelled_among};
ghost use Rattle.flat_form.specs.Cleared.{goes as the_goes, kept, inside, each_inside, cleared, cleared_first, cleared_among};

use c_tree::{Item, Section};
use c_types::List;
use std::alloc::Global;

/// Whether an item goes: a case label where strays are taken out, and else a label.
fn goes(strays: bool, item: &Item) -> bool
    ensures { result ≡ the_goes strays (tree_at item.now) }
{
    match item {
        Item::Mark(_) => !strays,
        Item::Arrival(_) => strays,
        _ => false,
    }
}

/// Takes out what goes, but nothing that stands in another item.
fn drop_those(alloc: Global, strays: bool, list: &mut List<Item>)
    ensures { trees_of list.new ≡ kept strays (trees_of list.old) }
{
    let mut items = list.take(alloc);
    items.retain(|item| !goes(strays, item));
    list.put(items);
}

/// Takes the labels out of a list, or its stray case labels. That takes no memory.
#[cycle(clear)]
pub fn clear(alloc: Global, strays: bool, list: &mut List<Item>)
    ensures { trees_of list.new ≡ cleared strays (trees_of list.old) }
{
    clear_items(alloc, strays, list.as_mut_slice());
    drop_those(alloc, strays, list);
}

#[cycle(clear)]
fn clear_items(alloc: Global, strays: bool, items: &mut [Item])
    ensures as_long { length items.new ≡ length items.old }
    ensures made { trees_of items.new ≡ each_inside strays (trees_of items.old) }
{
    for i in 0..items.len() {
        clear_item(alloc, strays, &mut items[i]);
    }
}

#[cycle(clear)]
fn clear_item(alloc: Global, strays: bool, item: &mut Item)
    ensures { tree_at item.new ≡ inside strays (tree_at item.old) }
{
    match item {
        Item::If(_, a, b) => {
            clear(alloc, strays, a);
            clear(alloc, strays, b);
        }
        Item::While(_, a) => clear(alloc, strays, a),
        Item::Do(a, _) => clear(alloc, strays, a),
        Item::For(first, _, _, a) => {
            clear_first(alloc, strays, first);
            clear(alloc, strays, a);
        }
        Item::Switch(_, sections) => clear_sections(alloc, strays, sections.as_mut_slice()),
        Item::Block(a) => clear(alloc, strays, a),
        // No other item holds a list.
        _ => {}
    }
}

/// No stray stands in the first part of a `for`.
#[cycle(clear)]
fn clear_first(alloc: Global, strays: bool, list: &mut List<Item>)
    ensures { trees_of list.new ≡ cleared_first strays (trees_of list.old) }
{
    if !strays {
        clear(alloc, strays, list);
    }
}

/// A case label in a section isn't a stray.
#[cycle(clear)]
fn clear_sections(alloc: Global, strays: bool, sections: &mut [Section])
    ensures as_long { length sections.new ≡ length sections.old }
    ensures made { sections_of sections.new ≡ cleared_among strays (sections_of sections.old) }
{
    if strays {
        return;
    }
    for i in 0..sections.len() {
        clear_section(alloc, &mut sections[i]);
    }
}

#[cycle(clear)]
fn clear_section(alloc: Global, section: &mut Section)
    ensures { before section.new NoSection ≡ unlabelled_among (before section.old NoSection) }
{
    clear(alloc, false, &mut section.list);
}
