ghost use Rattle.std.specs.Prelude.{◌≡◌, ◌≤◌, ◌<◌, ◌++◌, ◌∷◌, [], OnOk, OnErr, slice_set, take, drop, slice_range, vec_len, vec_capacity};
ghost use Rattle.c_tree.specs.Join.{joined_after};

use crate::edits::{cut, drop_at, set_at};
use c_tree::{Item, Test};
use c_types::{Boxed, List, Memory};
use std::alloc::Global;
use std::mem;

/// Takes the item at `from` away and puts the items after it, up to the place `to`, under an `if`
/// where the guard of the label is not set; where there are none, no `if` is made. After `Memory`
/// nothing has changed.
pub fn guard_between(
    alloc: Global,
    items: &mut Vec<Item>,
    from: usize,
    to: usize,
    label: u32,
) -> Result<(), Memory>
    requires order { from < to }
    requires in_bounds { to ≤ vec_len items.old }
    requires bound { vec_len items.old ≤ 4294967295 }
    ensures ok { OnOk result (items.new.items ≡ joined_after label from to items.old.items) }
    ensures len { vec_len items.new ≤ vec_len items.old }
    ensures err { OnErr result (items.new.items ≡ items.old.items) }
{
    if from + 1 == to {
        drop_at(items, from);
        return Ok(());
    }
    let mid = cut(items, from + 1, to)?;
    let made = Item::If(Test::Off(label), List::from_vec(mid), List::new(alloc));
    set_at(items, from, made);
    Ok(())
}

/// Makes the test one that holds only where the guard of the label is not set. It takes no memory.
pub fn and_off(test: &mut Test, label: u32, mut spare: Boxed<Test>)
    ensures { test.new ≡ Test.AndOff label test.old }
{
    spare.set(mem::replace(test, Test::On(label)));
    *test = Test::AndOff(label, spare);
}

/// Makes the test one that also holds where the guard of the label is set. It takes no memory.
pub fn or_on(test: &mut Test, label: u32, mut spare: Boxed<Test>)
    ensures { test.new ≡ Test.OrOn label test.old }
{
    spare.set(mem::replace(test, Test::On(label)));
    *test = Test::OrOn(label, spare);
}
