//! Where the search for a free number behind a name goes on.

ghost use Rattle.std.specs.Prelude.{◌≡◌, [], IfOk, OnOk};
ghost use Rattle.std.specs.Option.{option_copied};
ghost use Rattle.c_fresh_names.specs.Fresh.{fresh as the_fresh};
ghost use Rattle.flat_names.specs.Gathered.{all_used};
ghost use Rattle.flat_names.specs.Numbers.{found, or_first, with_number, AreUsedBelow};

use c_fresh_names::UsedNames;
use c_types::{Memory, Name};
use std::alloc::Global;
use std::collections::BTreeMap;
use std::marker::Model;

/// For each name behind which a number was sought, one below which none is free. Contracts see the names in byte order.
#[derive(Drop)]
pub struct NextNumbers<'a> {
    numbers: BTreeMap<&'a [u8], u64>,
}

impl<'a> Model for NextNumbers<'a> {
    ghost use Rattle.std.specs.Prelude.{List, ℕ, map};

    ghost Value = { List (List ℕ × ℕ) };

    ghost view = { λ it. map (λ e. (e.0.now, e.1)) it.numbers.entries };
}

impl<'a> NextNumbers<'a> {
    /// No names.
    pub fn new(alloc: Global) -> NextNumbers<'a>
        ensures { result ≡ [] }
    {
        NextNumbers {
            numbers: BTreeMap::new(alloc),
        }
    }

    fn find(&self, name: &[u8]) -> Option<&u64>
        ensures { option_copied result ≡ found name.now self.now }
    {
        self.numbers.get(name)
    }

    fn next(&self, name: &[u8]) -> u64
        ensures { result ≡ or_first (found name.now self.now) }
    {
        match self.find(name) {
            Some(number) => *number,
            None => 2,
        }
    }

    fn put(&mut self, name: &'a [u8], number: u64) -> Result<(), Memory>
        ensures { OnOk result (self.new ≡ with_number name.now number self.old) }
    {
        self.numbers.insert(name, number)?;
        Ok(())
    }
}

/// What `fresh` gives, where the search for a number goes on from the one that is kept.
pub fn fresh_beside<'a>(
    alloc: Global,
    used: &UsedNames,
    numbers: &mut NextNumbers<'a>,
    base: &'a Name,
) -> Result<Name, Memory>
    requires { AreUsedBelow (all_used used.now) numbers.old }
    ensures name { IfOk result (λ it. it ≡ the_fresh base.now (all_used used.now)) }
    ensures numbers { OnOk result (AreUsedBelow (all_used used.now) numbers.new) }
{
    if used.contains(base.as_str()) {
        let key = base.as_str().as_bytes();
        let start = numbers.next(key);
        let (name, number) = used.free_from(alloc, base.as_str(), start)?;
        numbers.put(key, number)?;
        Ok(name)
    } else {
        base.copy(alloc)
    }
}
