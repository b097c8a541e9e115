ghost use Rattle.std.specs.Prelude.{◌≡◌, ◌<◌, ◌↔◌, IsTrue, IfSome, length, position};
ghost use Rattle.c_tree.specs.Trees.{tree_of, trees_of, sections_of};
ghost use Rattle.c_tree.specs.Everywhere.{total_in};
ghost use Rattle.c_tree.specs.Labels.{land_of, lands, lands_inside};
ghost use Rattle.label_offsets.specs.Marks.{is_land as the_is_land, leap_label as the_leap_label, label_at as the_label_at, land_after as the_land_after, held};

use c_tree::{Item, Path, Section, find_list};
use c_types::List;

/// Whether the item is the Land of the label.
pub fn is_land(item: &Item, label: u32) -> bool
    ensures { result ≡ the_is_land label item.now }
{
    match item {
        Item::Land(at) => *at == label,
        _ => false,
    }
}

fn leap_label(item: &Item) -> Option<u32>
    ensures { result ≡ the_leap_label item.now }
{
    match item {
        Item::Leap(label) => Some(*label),
        _ => None,
    }
}

/// The label of the Leap at the path, or `None` where the path leads to no Leap.
pub fn label_at(body: &List<Item>, at: &Path) -> Option<u32>
    ensures { result ≡ the_label_at body.now at.now }
{
    let Some(list) = find_list(body, at.steps.as_slice()) else {
        return None;
    };
    match list.get(at.item as usize) {
        Some(item) => leap_label(item),
        None => None,
    }
}

/// The place of the first Land of the label in a list, or `None` where the list has none. It looks
/// into no item.
pub fn first_land(items: &[Item], label: u32) -> Option<usize>
    ensures place { result ≡ position (the_is_land label) items.now }
    ensures within { IfSome result (λ k. k < length items.now) }
{
    items.iter().position(|item| is_land(item, label))
}

/// The place of the first Land of the label after the place `leap` of a list, or `None` where the
/// list has none there. It looks into no item.
pub fn land_after(items: &[Item], leap: usize, label: u32) -> Option<usize>
    requires { leap < length items.now }
    ensures place { result ≡ the_land_after label leap items.now }
    ensures after { IfSome result (λ j. leap < j) }
    ensures within { IfSome result (λ j. j < length items.now) }
{
    match first_land(&items[leap + 1..], label) {
        Some(k) => Some(leap + 1 + k),
        None => None,
    }
}

/// Whether an item holds the label: its Land stands in one of the item's lists, at any depth.
pub fn holds(item: &Item, label: u32) -> bool
    ensures { IsTrue result ↔ (0 < lands_inside label (tree_of item.now)) }
{
    has_inside(item, label)
}

#[cycle(land)]
fn has_inside(item: &Item, label: u32) -> bool
    ensures { IsTrue result ↔ (0 < held label item.now) }
{
    match item {
        Item::If(_, a, b) => has_land(a, label) || has_land(b, label),
        Item::While(_, a) => has_land(a, label),
        Item::Do(a, _) => has_land(a, label),
        Item::For(first, _, _, a) => has_land(first, label) || has_land(a, label),
        Item::Switch(_, sections) => sections_have_land(sections.as_slice(), label),
        Item::Block(a) => has_land(a, label),
        _ => false,
    }
}

/// Whether the Land of the label stands in a list, at any depth.
#[cycle(land)]
pub fn has_land(list: &List<Item>, label: u32) -> bool
    ensures { IsTrue result ↔ (0 < lands label (trees_of list.now)) }
{
    items_have_land(list.as_slice(), label)
}

#[cycle(land)]
fn items_have_land(items: &[Item], label: u32) -> bool
    ensures { IsTrue result ↔ (0 < lands label (trees_of items.now)) }
{
    for item in items {
        if is_land(item, label) || has_inside(item, label) {
            return true;
        }
    }
    false
}

#[cycle(land)]
fn sections_have_land(sections: &[Section], label: u32) -> bool
    ensures { IsTrue result ↔ (0 < total_in (land_of label) (sections_of sections.now)) }
{
    for section in sections {
        if has_land(&section.list, label) {
            return true;
        }
    }
    false
}
