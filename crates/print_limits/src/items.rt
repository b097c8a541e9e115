//! How deep lists stand in one another.

ghost use Rattle.std.specs.Prelude.{◌≤◌, ◌+◌, ◌↔◌, IsTrue};
ghost use Rattle.c_tree.specs.Paths.{list_of};
ghost use Rattle.c_tree.specs.Trees.{trees_of, sections_of};
ghost use Rattle.c_resolved_defs.specs.PrintableStatements.{depth, depth_of, depth_in};
ghost use Rattle.c_tree.specs.Views.{tree_at};

use c_tree::{Item, Section};
use c_types::List;

/// Whether one level more is enough for a list.
#[cycle(nesting)]
fn list_fits(list: &List<Item>, room: u32) -> bool
    ensures { IsTrue result ↔ depth (trees_of list.now) + 1 ≤ room }
{
    room > 0 && are_nested(list.as_slice(), room - 1)
}

/// Whether so many levels are enough for the lists in the items.
#[cycle(nesting)]
pub fn are_nested(items: &[Item], room: u32) -> bool
    ensures { IsTrue result ↔ depth (trees_of items.now) ≤ room }
{
    for i in 0..items.len() {
        if !is_nested(&items[i], room) {
            return false;
        }
    }
    true
}

#[cycle(nesting)]
fn is_nested(item: &Item, room: u32) -> bool
    ensures { IsTrue result ↔ depth_of (tree_at item.now) ≤ room }
{
    match item {
        Item::If(_, a, b) => list_fits(a, room) && list_fits(b, room),
        Item::While(_, a) => list_fits(a, room),
        Item::Do(a, _) => list_fits(a, room),
        Item::For(_, _, _, a) => list_fits(a, room),
        Item::Switch(_, sections) => room > 0 && sections_fit(sections.as_slice(), room - 1),
        Item::Block(a) => list_fits(a, room),
        _ => true,
    }
}

#[cycle(nesting)]
fn is_nested_section(section: &Section, room: u32) -> bool
    ensures { IsTrue result ↔ depth (trees_of (list_of section.now)) ≤ room }
{
    are_nested(section.list.as_slice(), room)
}

#[cycle(nesting)]
fn sections_fit(sections: &[Section], room: u32) -> bool
    ensures { IsTrue result ↔ depth_in (sections_of sections.now) ≤ room }
{
    for i in 0..sections.len() {
        if !is_nested_section(&sections[i], room) {
            return false;
        }
    }
    true
}
