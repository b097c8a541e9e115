ghost use Rattle.std.specs.Prelude.{◌≡◌, ◌<◌, ◌^◌, [], length, IfOk, OnOk, OnErr};
ghost use Rattle.c_copies.specs.Names.{has_name, with_name};

use c_types::{List, Memory, Name};
use std::alloc::Global;
use std::collections::BTreeSet;
use std::marker::Model;

/// A set of names, which contracts see as the list of the names in byte order.
#[derive(Drop)]
pub struct NameSet {
    names: BTreeSet<String>,
}

impl Model for NameSet {
    ghost use Rattle.std.specs.Prelude.{List, ℕ, map, string_bytes};
    ghost use Rattle.std.specs.Coded.{coded_list, coded_ℕ};

    ghost Value = { List (List ℕ) };

    ghost coded = { coded_list (coded_list coded_ℕ) };

    ghost view = { λ it. map string_bytes it.names.keys };
}

impl NameSet {
    /// The empty set.
    pub fn new(alloc: Global) -> NameSet
        ensures { result ≡ [] }
    {
        NameSet {
            names: BTreeSet::new(alloc),
        }
    }

    /// How many names are in it.
    pub fn len(&self) -> usize
        ensures value { result ≡ length self.now }
        ensures bound { result < 2 ^ 63 }
    {
        self.names.len()
    }

    /// Whether a name is in it.
    pub fn contains(&self, name: &str) -> bool
        ensures { result ≡ has_name self.now name.now }
    {
        self.names.contains(name)
    }

    /// Puts a name in. After want of memory, the only failure, the set is unchanged.
    pub fn add(&mut self, alloc: Global, name: &str) -> Result<(), Memory>
        ensures ok { OnOk result (self.new ≡ with_name self.old name.now) }
        ensures err { OnErr result (self.new ≡ self.old) }
    {
        let name = String::from_str(alloc, name)?;
        self.names.insert(name)?;
        Ok(())
    }

    /// All names in byte order. Want of memory is the only failure.
    pub fn into_list(self, alloc: Global) -> Result<List<Name>, Memory>
        ensures { IfOk result (λ it. it ≡ self) }
    {
        let NameSet { names } = self;
        let mut out = List::new(alloc);
        for name in names {
            out.push(Name::from_string(name))?;
        }
        Ok(out)
    }
}
