ghost use Rattle.std.specs.Prelude.{◌≡◌, ◌≤◌, ◌<◌, ◌^◌, [], true, length, is_ok, IfOk, IfErr, OnOk, OnErr};
ghost use Rattle.std.specs.List.{insert};
ghost use Rattle.std.specs.List.Sorted.{IsStrictlySortedBy};
ghost use Rattle.c_types.specs.Words.{name_cmp};
ghost use Rattle.c_copies.specs.Names.{has_name, with_name};

use c_types::{MOST, Memory, Name};
use name_keys::{HeldName, Key, key_of};
use std::alloc::Global;
use std::cmp::Ordering;
use std::marker::Model;

/// A set of names for those that come in byte order or are few, which it keeps in a row: any other name moves those behind it. Contracts see it as
/// the list of the names in byte order.
#[derive(Drop)]
pub struct RisingNames {
    names: Vec<HeldName>,
}

impl Model for RisingNames {
    ghost use Rattle.std.specs.Prelude.{List, ℕ, ◌≤◌, length};
    ghost use Rattle.std.specs.Coded.{coded_list, coded_ℕ};
    ghost use Rattle.std.specs.List.Sorted.{IsStrictlySortedBy};
    ghost use Rattle.c_types.specs.Words.{name_cmp};

    ghost Value = { List (List ℕ) };

    ghost coded = { coded_list (coded_list coded_ℕ) };

    ghost view = { λ it. it.names.items };

    ghost invariant = { λ it. IsStrictlySortedBy name_cmp it.names.items × (length it.names.items ≤ 4294967295) };
}

/// Where a name stands, or would stand.
fn place_of<'x>(names: &'x [HeldName], name: &Key<'x>) -> Result<usize, usize>
    requires { IsStrictlySortedBy name_cmp names.now }
    ensures has { is_ok result ≡ has_name names.now name.now }
    ensures there { IfOk result (λ at. with_name names.now name.now ≡ names.now) }
    ensures within { IfErr result (λ at. at ≤ length names.now) }
    ensures new { IfErr result (λ at. with_name names.now name.now ≡ insert names.now at name.now) }
{
    let mut from = 0;
    let mut to = names.len();
    while from < to {
        let middle = from + (to - from) / 2;
        match name.cmp(&names[middle].key()) {
            Ordering::Less => to = middle,
            Ordering::Equal => return Ok(middle),
            Ordering::Greater => from = middle + 1,
        }
    }
    Err(from)
}

/// Whether a name comes behind all.
fn comes_last<'x>(names: &'x [HeldName], name: &Key<'x>) -> bool
    requires { IsStrictlySortedBy name_cmp names.now }
    ensures { result ≡ true → with_name names.now name.now ≡ insert names.now (length names.now) name.now }
{
    let end = names.len();
    if end == 0 {
        return true;
    }
    match name.cmp(&names[end - 1].key()) {
        Ordering::Greater => true,
        _ => false,
    }
}

/// Where a name stands, or would stand, found at once behind all others.
fn place_for<'x>(names: &'x [HeldName], name: &Key<'x>) -> Result<usize, usize>
    requires { IsStrictlySortedBy name_cmp names.now }
    ensures there { IfOk result (λ at. with_name names.now name.now ≡ names.now) }
    ensures within { IfErr result (λ at. at ≤ length names.now) }
    ensures new { IfErr result (λ at. with_name names.now name.now ≡ insert names.now at name.now) }
{
    if comes_last(names, name) {
        Err(names.len())
    } else {
        place_of(names, name)
    }
}

impl RisingNames {
    /// The empty set.
    pub fn new(alloc: Global) -> RisingNames
        ensures { result ≡ [] }
    {
        RisingNames {
            names: Vec::new(alloc),
        }
    }

    /// How many names are in it.
    pub fn len(&self) -> usize
        ensures value { result ≡ length self.now }
        ensures bound { result < 2 ^ 63 }
    {
        self.names.len()
    }

    /// Whether a name is in it.
    pub fn contains(&self, name: &str) -> bool
        ensures { result ≡ has_name self.now name.now }
    {
        place_of(&self.names, &key_of(name.as_bytes())).is_ok()
    }

    /// Puts a name in. After want of memory, the only failure, the set is unchanged.
    pub fn add(&mut self, alloc: Global, name: &str) -> Result<(), Memory>
        ensures ok { OnOk result (self.new ≡ with_name self.old name.now) }
        ensures err { OnErr result (self.new ≡ self.old) }
    {
        match place_for(&self.names, &key_of(name.as_bytes())) {
            Ok(_) => Ok(()),
            Err(at) => {
                if self.names.len() >= MOST {
                    return Err(Memory);
                }
                let name = Name::from_string(String::from_str(alloc, name)?);
                self.names.insert(at, HeldName::new(name))?;
                Ok(())
            }
        }
    }
}
