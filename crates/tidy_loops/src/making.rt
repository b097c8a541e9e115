ghost use Rattle.std.specs.Prelude.{◌≡◌, ◌≤◌, OnOk};
ghost use Rattle.c_tree.specs.TestTrees.{test_tree};
ghost use Rattle.c_tree.specs.Trees.{Tree, trees_of};
ghost use Rattle.c_tree.specs.Views.{tree_at};
ghost use Rattle.tidy_laws.specs.Changes.{tailed as the_tailed};
ghost use Rattle.tidy_slots.specs.Counts.{list_count};
ghost use Rattle.tidy_loops.specs.Remaining.{loop_list};
ghost use Rattle.tidy_loops.specs.Slots.{rest_test, but_last, broken as the_broken, continued as the_continued};

use crate::exits::Exit;
use crate::reading::second_half;
use crate::tails::tailed;
use c_copies::copy_expression;
use c_tree::{Item, Test};
use c_types::{List, Memory};
use std::alloc::Global;
use std::mem;

/// Takes the first half of a test `!g && t` away.
fn rest(alloc: Global, test: &mut Test) -> Result<(), Memory>
    ensures { OnOk result (test_tree test.new ≡ rest_test (test_tree test.old)) }
{
    match second_half(test) {
        Some(e) => {
            let e = copy_expression(alloc, e)?;
            drop(mem::replace(test, Test::Source(e)));
            Ok(())
        }
        None => Ok(()),
    }
}

/// Makes the change by `break` at the loop. So many mentions of the slot are left in its body at most; with none, only
/// the test is shortened. After `Memory` the loop is given up.
pub fn broken(alloc: Global, slot: u32, item: &mut Item, left: u64) -> Result<(), Memory>
    requires { list_count slot (loop_list (tree_at item.old)) ≤ left }
    ensures { OnOk result (tree_at item.new ≡ the_broken slot (tree_at item.old)) }
{
    match item {
        Item::While(test, list) => {
            tailed(alloc, slot, Exit::Break, list, left)?;
            rest(alloc, test)
        }
        Item::Do(list, test) => {
            tailed(alloc, slot, Exit::Break, list, left)?;
            rest(alloc, test)
        }
        _ => Ok(()),
    }
}

fn tailed_front(alloc: Global, slot: u32, list: &mut List<Item>, left: u64) -> Result<(), Memory>
    requires { list_count slot (but_last (trees_of list.old)) ≤ left }
    ensures { OnOk result (trees_of list.new ≡ the_tailed slot Tree.Continue (but_last (trees_of list.old))) }
{
    drop(list.pop());
    tailed(alloc, slot, Exit::Continue, list, left)?;
    Ok(())
}

/// Makes the change by `continue` at the loop. So many mentions of the slot are left in its body before the last item at
/// most; with none, only that item is taken away. After `Memory` the loop is given up.
pub fn continued(alloc: Global, slot: u32, item: &mut Item, left: u64) -> Result<(), Memory>
    requires { list_count slot (but_last (loop_list (tree_at item.old))) ≤ left }
    ensures { OnOk result (tree_at item.new ≡ the_continued slot (tree_at item.old)) }
{
    match item {
        Item::While(_, list) => tailed_front(alloc, slot, list, left),
        Item::Do(list, _) => tailed_front(alloc, slot, list, left),
        Item::For(_, _, _, list) => tailed_front(alloc, slot, list, left),
        _ => Ok(()),
    }
}
