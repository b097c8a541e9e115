//! A list of items after a simplification of one of them.

ghost use Rattle.std.specs.Prelude.{◌≡◌, ◌<◌, OnOk, OnErr, Some, length, slice_get};
ghost use Rattle.c_tree.specs.Trees.{tree_of, trees_of};
ghost use Rattle.report_moves.specs.declared.moves.MoveKind.TheVariants.{Z1, Z2, Z3, Z4};
ghost use Rattle.guard_simplify.specs.Application.{shortened, edited};
ghost use Rattle.guard_simplify.specs.Views.{repeat_in};
ghost use Rattle.guard_edits.specs.Built.{ArePair, IsNest, IsUnnested};

use crate::joining::{if_parts, join_next, room_for};
use crate::wrappers::{unwrap_selector, unwrap_test, wrap};
use c_tree::{Item, Test};
use c_types::{Boxed, List, Memory};
use guard_simplify::{Repeat, repeat_of};
use std::alloc::Global;
use std::mem;

/// Takes the wrapper away that was found in the item.
fn shorten(item: &mut Item, found: Repeat)
    requires { repeat_in item.old ≡ Some found }
    ensures { tree_of item.new ≡ shortened (tree_of item.old) }
{
    match mem::replace(item, Item::Break) {
        Item::If(test, a, b) => *item = Item::If(unwrap_test(test, found.at), a, b),
        Item::While(test, a) => *item = Item::While(unwrap_test(test, found.at), a),
        Item::Do(a, test) => *item = Item::Do(a, unwrap_test(test, found.at)),
        Item::Switch(selector, sections) => {
            *item = Item::Switch(unwrap_selector(selector, found.at), sections);
        }
        other => *item = other,
    }
}

/// Z1: the item goes.
pub fn remove_item(list: &mut List<Item>, at: usize)
    requires { at < length list.old }
    ensures { trees_of list.new ≡ edited Z1 at (trees_of list.old) }
{
    drop(list.remove(at));
}

/// Z2: the first wrapper that repeats another goes from the test or selector of the item.
pub fn shorten_item(alloc: Global, list: &mut List<Item>, at: usize) -> Result<(), Memory>
    requires { at < length list.old }
    ensures ok { OnOk result (trees_of list.new ≡ edited Z2 at (trees_of list.old)) }
    ensures err { OnErr result (list.new ≡ list.old) }
{
    match repeat_of(alloc, &list.as_slice()[at])? {
        Some(found) => {
            shorten(list.at_mut(at), found);
            Ok(())
        }
        None => Ok(()),
    }
}

/// Z3: the item and its neighbour become one.
pub fn join_items(alloc: Global, list: &mut List<Item>, at: usize) -> Result<(), Memory>
    requires { ArePair list.old at }
    ensures ok { OnOk result (trees_of list.new ≡ edited Z3 at (trees_of list.old)) }
    ensures err { OnErr result (list.new ≡ list.old) }
{
    let items = list.as_slice();
    let room = room_for(alloc, &items[at], &items[at + 1])?;
    let next = list.remove(at + 1);
    join_next(list.at_mut(at), next, room);
    Ok(())
}

/// Makes one `if` of an `if` and the one in it. It takes no memory.
fn unnest(item: &mut Item, spare: Boxed<Test>)
    requires { IsNest item.old }
    ensures { IsUnnested item.old item.new }
{
    let (test, mut list, c) = if_parts(mem::replace(item, Item::Break));
    match list.pop() {
        Some(last) => {
            let (inner, a, b) = if_parts(last);
            drop(list);
            drop(b);
            drop(mem::replace(item, Item::If(wrap(test, inner, spare), a, c)));
        }
        None => unreachable!(),
    }
}

/// Z4: the item and the one in it become one.
pub fn unnest_item(alloc: Global, list: &mut List<Item>, at: usize) -> Result<(), Memory>
    requires within { at < length list.old }
    requires nest { (x : Item) → slice_get list.old at ≡ Some x → IsNest x }
    ensures ok { OnOk result (trees_of list.new ≡ edited Z4 at (trees_of list.old)) }
    ensures err { OnErr result (list.new ≡ list.old) }
{
    let spare = Boxed::new(alloc, Test::On(0))?;
    unnest(list.at_mut(at), spare);
    Ok(())
}
