//! Two neighbours become one.

ghost use Rattle.std.specs.Prelude.{◌≡◌, ◌≤◌, ◌+◌, ◌++◌, [], IfOk, length, vec_capacity};
ghost use Rattle.c_tree.specs.declared.tree.Item.{If};
ghost use Rattle.guard_edits.specs.Built.{IsIf, IsJoined, first_length as the_first_length};

use c_tree::{Item, Test};
use c_types::{List, Memory};
use std::alloc::Global;
use std::mem;

/// One list and then the other, in a `Vec` that has room for both. It takes no memory.
fn both(a: List<Item>, b: List<Item>, room: Vec<Item>) -> List<Item>
    requires empty { room.items ≡ [] }
    requires fits { length a + length b ≤ vec_capacity room }
    requires bound { length a + length b ≤ 4294967295 }
    ensures { result ≡ a ++ b }
{
    let mut all = room;
    let mut first = a.into_vec();
    let mut second = b.into_vec();
    match all.append(&mut first) {
        Ok(()) => {}
        Err(_) => unreachable!(),
    }
    match all.append(&mut second) {
        Ok(()) => {}
        Err(_) => unreachable!(),
    }
    List::from_vec(all)
}

/// The length of the first list of an `if`.
fn first_length(item: &Item) -> usize
    ensures value { result ≡ the_first_length item.now }
    ensures bound { result ≤ 4294967295 }
{
    match item {
        Item::If(_, a, _) => a.len(),
        _ => 0,
    }
}

/// Room for the first lists of two `if`s.
pub fn room_for(alloc: Global, first: &Item, next: &Item) -> Result<Vec<Item>, Memory>
    ensures empty { IfOk result (λ room. room.items ≡ []) }
    ensures fits { IfOk result (λ room. the_first_length first.now + the_first_length next.now ≤ vec_capacity room) }
    ensures bound { IfOk result (λ room. the_first_length first.now + the_first_length next.now ≤ 4294967295) }
{
    let count = first_length(first) + first_length(next);
    if count > 4294967295 {
        return Err(Memory);
    }
    let room = Vec::with_capacity(alloc, count)?;
    Ok(room)
}

/// The test of an `if`, its then-list and its else-list.
pub(crate) fn if_parts(item: Item) -> (Test, List<Item>, List<Item>)
    requires { IsIf item }
    ensures { item ≡ If result.0 result.1 result.2 }
{
    match item {
        Item::If(test, a, b) => (test, a, b),
        _ => unreachable!(),
    }
}

/// Puts the first list of an `if` behind that of its neighbour. It takes no memory.
pub fn join_next(item: &mut Item, next: Item, room: Vec<Item>)
    requires first { IsIf item.old }
    requires second { IsIf next }
    requires empty { room.items ≡ [] }
    requires fits { the_first_length item.old + the_first_length next ≤ vec_capacity room }
    requires bound { the_first_length item.old + the_first_length next ≤ 4294967295 }
    ensures { IsJoined item.old next item.new }
{
    let (test, a, b) = if_parts(mem::replace(item, Item::Break));
    let (other, c, d) = if_parts(next);
    drop(other);
    drop(d);
    drop(mem::replace(item, Item::If(test, both(a, c, room), b)));
}
