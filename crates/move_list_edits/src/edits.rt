ghost use Rattle.std.specs.Prelude.{◌≡◌, ◌≤◌, ◌<◌, ◌+◌, ◌++◌, ◌∷◌, [], IfOk, OnOk, OnErr, insert, remove, slice_set, take, drop, slice_range, vec_len, vec_capacity};

use c_types::Memory;

/// Gives back the room of a list that uses less than a quarter of it.
fn give_back<T: Drop>(items: &mut Vec<T>)
    ensures { items.new.items ≡ items.old.items }
{
    let len = items.len();
    if len < items.capacity() / 4 {
        items.shrink_to(len.saturating_mul(2).saturating_add(4));
    }
}

/// Puts so many items from a place on behind the others.
fn turn<T: Drop>(items: &mut Vec<T>, from: usize, count: usize)
    requires { from + count ≤ vec_len items.old }
    ensures items { items.new.items ≡ take from items.old.items ++ (drop count (drop from items.old.items) ++ take count (drop from items.old.items)) }
    ensures len { vec_len items.new ≡ vec_len items.old }
{
    items.slice_mut(from..).rotate_left(count);
}

/// `cut` of fewer items than stand behind them, which are moved once and take no room elsewhere.
fn cut_few<T: Drop>(items: &mut Vec<T>, from: usize, to: usize) -> Result<Vec<T>, Memory>
    requires start_le_end { from ≤ to }
    requires in_bounds { to ≤ vec_len items.old }
    ensures cut { IfOk result (λ mid. mid.items ≡ slice_range items.old.items from to) }
    ensures rest { OnOk result (items.new.items ≡ take from items.old.items ++ drop to items.old.items) }
    ensures err { OnErr result (items.new.items ≡ items.old.items) }
{
    let count = to - from;
    let keep = items.len() - count;
    turn(items, from, count);
    match items.split_off(keep) {
        Ok(mid) => {
            give_back(items);
            Ok(mid)
        }
        Err(_) => {
            turn(items, from, keep - from);
            Err(Memory)
        }
    }
}

/// `cut` of no fewer items than stand behind them.
fn cut_many<T: Drop>(items: &mut Vec<T>, from: usize, to: usize) -> Result<Vec<T>, Memory>
    requires start_le_end { from ≤ to }
    requires in_bounds { to ≤ vec_len items.old }
    ensures cut { IfOk result (λ mid. mid.items ≡ slice_range items.old.items from to) }
    ensures rest { OnOk result (items.new.items ≡ take from items.old.items ++ drop to items.old.items) }
    ensures err { OnErr result (items.new.items ≡ items.old.items) }
{
    // The tail goes first, so that what is moved out keeps no room for it.
    let mut tail = items.split_off(to)?;
    let mid = items.split_off(from);
    match items.append(&mut tail) {
        Ok(()) => {}
        Err(_) => unreachable!(),
    }
    give_back(items);
    match mid {
        Ok(mid) => Ok(mid),
        Err(_) => Err(Memory),
    }
}

/// Moves the items from one place up to another out. After `Memory` nothing has changed.
pub fn cut<T: Drop>(items: &mut Vec<T>, from: usize, to: usize) -> Result<Vec<T>, Memory>
    requires start_le_end { from ≤ to }
    requires in_bounds { to ≤ vec_len items.old }
    ensures cut { IfOk result (λ mid. mid.items ≡ slice_range items.old.items from to) }
    ensures rest { OnOk result (items.new.items ≡ take from items.old.items ++ drop to items.old.items) }
    ensures err { OnErr result (items.new.items ≡ items.old.items) }
{
    if to - from < items.len() - to {
        cut_few(items, from, to)
    } else {
        cut_many(items, from, to)
    }
}

/// Puts the item in the place of the one that stands there, which is let go.
pub fn set_at<T: Drop>(items: &mut Vec<T>, at: usize, item: T)
    requires { at < vec_len items.old }
    ensures { items.new.items ≡ slice_set items.old.items at item }
{
    items[at] = item;
}

/// Lets the item at the place go; those behind it move up.
pub fn drop_at<T: Drop>(items: &mut Vec<T>, at: usize)
    requires { at < vec_len items.old }
    ensures { items.new.items ≡ remove items.old.items at }
{
    items.remove(at);
}

/// Puts the item at the place, where there is room for one more; those from there on move down. It
/// takes no memory.
pub fn insert_at<T: Drop>(items: &mut Vec<T>, at: usize, item: T)
    requires in_bounds { at ≤ vec_len items.old }
    requires room { vec_len items.old < vec_capacity items.old }
    ensures items { items.new.items ≡ insert items.old.items at item }
    ensures len { vec_len items.new ≡ vec_len items.old + 1 }
{
    match items.insert(at, item) {
        Ok(()) => {}
        Err(_) => unreachable!(),
    }
}
