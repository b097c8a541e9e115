ghost use Rattle.std.specs.Prelude.{◌≡◌, [], ◌∷◌, ◌+◌, ◌++◌, ◌<◌, ◌≤◌, length, slice_get, slice_set, remove, ◌↔◌, IsTrue, IfOk, MatchOption, OnOk, OnErr, OnSome, vec_len};
ghost use Rattle.std.specs.Option.{option_copied, option_copied_mut};
ghost use Rattle.std.specs.Borrow.{Lends, LendsIf, sem, Array};
ghost use Rattle.std.specs.Cmp.Lexicographic.{pointwise, lists_per, lists_equiv};
ghost use Rattle.c_types.specs.contracts.list.List.{the_row};
ghost use Rattle.c_types.specs.Refill.{refilled};

use crate::Memory;
use std::alloc::Global;
use std::marker::Model;
use std::mem;

/// The most entries of a `List`, so that each place in one fits a `u32`.
pub const MOST: usize = 4294967295;

/// A `Vec` of at most `MOST` entries that contracts see as the list of its entries, so that a copy
/// equals what it copies. A call that takes no allocator and returns no `Result` takes no memory.
#[derive(Debug, Drop)]
pub struct List<T> {
    items: Vec<T>,
}

impl<T> Model for List<T> {
    ghost use Rattle.std.specs.Prelude.{List, ◌≤◌, length};
    ghost use Rattle.std.specs.Coded.{coded_list};

    ghost Value = { List T };

    ghost coded = { coded_list T.code };

    ghost view = { λ it. it.items.items };

    ghost invariant = { λ it. length it.items.items ≤ 4294967295 };
}

impl<T: PartialEq> PartialEq for List<T> {
    ghost eq = { λ a b. pointwise T.eq a b };

    ghost laws = { lists_per T.laws };

    fn eq(&self, other: &List<T>) -> bool {
        self.items == other.items
    }
}

impl<T: Eq> Eq for List<T> {
    ghost laws = { lists_equiv T.Eq.laws };
}

impl<T> List<T> {
    /// The empty list, which has no room yet.
    pub fn new(alloc: Global) -> List<T>
        ensures { result ≡ [] }
    {
        List {
            items: Vec::new(alloc),
        }
    }

    /// The entries of the `Vec`, which stay where they are.
    pub fn from_vec(items: Vec<T>) -> List<T>
        requires { vec_len items ≤ 4294967295 }
        ensures { result ≡ items.items }
    {
        List { items }
    }

    /// The entries as a `Vec`.
    pub fn into_vec(self) -> Vec<T>
        ensures items { result.items ≡ self }
        ensures bound { vec_len result ≤ 4294967295 }
    {
        let List { items } = self;
        items
    }

    /// The entries as a slice.
    pub fn as_slice(&self) -> &[T]
        ensures value { result.now ≡ self.now }
        ensures bound { length self.now ≤ 4294967295 }
    {
        self.items.as_slice()
    }

    /// The number of entries, at most `MOST`.
    pub fn len(&self) -> usize
        ensures value { result ≡ length self.now }
        ensures bound { result ≤ 4294967295 }
    {
        self.items.len()
    }

    /// Whether the list has no entries.
    pub fn is_empty(&self) -> bool
        ensures { IsTrue result ↔ (self.now ≡ []) }
    {
        self.items.is_empty()
    }

    /// The entries as a slice to write to: what is left in it stands in the list afterwards.
    pub fn as_mut_slice(&mut self) -> &mut [T]
        ensures* writes_back { sem 𝓛 (Lends (the_row T.row) (Array T.row 0) self.entry result (refilled self.entry.now)) }
        ensures value { result.now ≡ self.old }
    {
        self.items.as_mut_slice()
    }

    /// The entry at the place, or `None` past the last.
    pub fn get(&self, at: usize) -> Option<&T>
        ensures value { option_copied result ≡ slice_get self.now at }
        ensures within { OnSome result (at < length self.now) }
    {
        self.items.get(at)
    }

    /// The entry at the place to write to, or `None` past the last.
    pub fn get_mut(&mut self, at: usize) -> Option<&mut T>
        ensures* writes_back { sem 𝓛 (LendsIf (the_row T.row) T.row self.entry result (slice_set self.entry.now at) self.entry.now) }
        ensures value { option_copied_mut result ≡ slice_get self.old at }
    {
        self.items.get_mut(at)
    }

    /// The entry at a place that is there, to write to.
    pub fn at_mut(&mut self, at: usize) -> &mut T
        requires { at < length self.old }
        ensures* writes_back { sem 𝓛 (Lends (the_row T.row) T.row self.entry result (slice_set self.entry.now at)) }
        ensures value { slice_get self.old at ≡ Some result.now }
    {
        &mut self.items[at]
    }

    /// Takes the last entry off, or `None` where there is none.
    pub fn pop(&mut self) -> Option<T>
        ensures { MatchOption result ((self.old ≡ []) × (self.new ≡ [])) (λ last. self.old ≡ self.new ++ last ∷ []) }
    {
        self.items.pop()
    }

    /// Takes the entry at a place that is there out; those behind it move up.
    pub fn remove(&mut self, at: usize) -> T
        requires { at < length self.old }
        ensures item { slice_get self.old at ≡ Some result }
        ensures rest { self.new ≡ remove self.old at }
    {
        self.items.remove(at)
    }

    /// Takes all entries out and leaves the list empty.
    pub fn take(&mut self, alloc: Global) -> Vec<T>
        ensures items { result.items ≡ self.old }
        ensures bound { vec_len result ≤ 4294967295 }
        ensures after { self.new ≡ [] }
    {
        mem::replace(&mut self.items, Vec::new(alloc))
    }
}

impl<T: Copy> List<T> {
    /// A copy of the slice. `Err` where memory is refused, or where the slice is longer than `MOST`.
    pub fn from_slice(alloc: Global, items: &[T]) -> Result<List<T>, Memory>
        ensures { IfOk result (λ it. it ≡ items.now) }
    {
        if items.len() > MOST {
            return Err(Memory);
        }
        let items = Vec::from_slice(alloc, items)?;
        Ok(List { items })
    }
}

impl<T: Drop> List<T> {
    /// Puts the item in the place of an entry that is there, which is let go.
    pub fn set(&mut self, at: usize, item: T)
        requires { at < length self.old }
        ensures { self.new ≡ slice_set self.old at item }
    {
        self.items[at] = item;
    }

    /// Puts the item behind the last entry. `Err` where memory is refused, or where the list has
    /// `MOST` entries; the list is then as it was, and the item is let go.
    pub fn push(&mut self, item: T) -> Result<(), Memory>
        ensures ok { OnOk result (self.new ≡ self.old ++ item ∷ []) }
        ensures err { OnErr result (self.new ≡ self.old) }
    {
        if self.items.len() >= MOST {
            return Err(Memory);
        }
        if self.items.len() == self.items.capacity() {
            if self.items.is_empty() {
                // most lists of a tree have one entry, where a first push makes room for four
                self.items.reserve_exact(1)?;
            } else {
                self.items.reserve(1)?;
            }
        }
        self.items.push_reserved(item);
        Ok(())
    }

    /// Puts these entries in the place of all that are there, which are let go.
    pub fn put(&mut self, items: Vec<T>)
        requires { vec_len items ≤ 4294967295 }
        ensures { self.new ≡ items.items }
    {
        self.items = items;
    }
}

/// From so many entries on, a list that takes a shorter one in front is turned round where it stands; below, it is moved.
const LONG: usize = 64;

/// One list behind another, where the first is the shorter: the entries of the second stay in their room.
fn with_front<T: Drop>(a: Vec<T>, b: Vec<T>) -> Result<List<T>, Memory>
    requires { vec_len a + vec_len b ≤ 4294967295 }
    ensures { IfOk result (λ it. it ≡ a.items ++ b.items) }
{
    let mut a = a;
    let mut b = b;
    let count = b.len();
    b.append(&mut a)?;
    b.rotate_left(count);
    Ok(List::from_vec(b))
}

/// The entries of the first list and behind them those of the second. `Err` where memory is refused, or where they are
/// more than `MOST`.
pub fn concatenated<T: Drop>(a: List<T>, b: List<T>) -> Result<List<T>, Memory>
    ensures { IfOk result (λ it. it ≡ a ++ b) }
{
    let mut a = a.into_vec();
    let mut b = b.into_vec();
    if a.len() > MOST - b.len() {
        return Err(Memory);
    }
    if b.len() > LONG && a.len() < b.len() {
        return with_front(a, b);
    }
    a.append(&mut b)?;
    Ok(List::from_vec(a))
}
