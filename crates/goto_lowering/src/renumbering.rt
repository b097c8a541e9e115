ghost use Rattle.std.specs.Prelude.{◌≡◌, Some, IfOk};
ghost use Rattle.c_tree.specs.Trees.{trees_of};
ghost use Rattle.flat_items.specs.Plans.{number_at};
ghost use Rattle.goto_lowering.specs.Renumbered.{renumbered_goto as the_renumbered_goto, renumbered_item, lone_goto as the_lone_goto};
ghost use Rattle.lower_items.specs.Jumps.{goto_of};
ghost use Rattle.c_tree.specs.Views.{tree_at};

use c_tree::Item;
use c_types::{List, Memory};
use flat_items::{Places, label_of};

fn goto_label(item: &Item) -> Option<u32>
    ensures { result ≡ goto_of (tree_at item.now) }
{
    match item {
        Item::Goto(label) => Some(*label),
        _ => None,
    }
}

fn lone_goto(list: &[Item]) -> Option<u32>
    ensures { result ≡ the_lone_goto (trees_of list.now) }
{
    if list.len() == 1 {
        goto_label(&list[0])
    } else {
        None
    }
}

/// The list of an `if`, in which the labels have these places.
fn renumbered_goto(places: &Places, list: List<Item>) -> Result<List<Item>, Memory>
    ensures { IfOk result (λ it. trees_of it ≡ the_renumbered_goto (number_at places.now) (trees_of list)) }
{
    let mut list = list;
    match lone_goto(list.as_slice()) {
        Some(label) => {
            let label = label_of(places, label as usize)?;
            list.set(0, Item::Goto(label));
            Ok(list)
        }
        None => Ok(list),
    }
}

/// An item of a flat list, in which the labels have these places.
pub fn renumbered(places: &Places, item: Item) -> Result<Item, Memory>
    ensures { IfOk result (λ it. tree_at it ≡ renumbered_item (number_at places.now) (tree_at item)) }
{
    match item {
        Item::Goto(label) => Ok(Item::Goto(label_of(places, label as usize)?)),
        Item::Mark(label) => Ok(Item::Mark(label_of(places, label as usize)?)),
        Item::If(test, a, b) => match renumbered_goto(places, a) {
            Ok(a) => Ok(Item::If(test, a, b)),
            Err(e) => {
                drop(test);
                Err(e)
            }
        },
        other => Ok(other),
    }
}
