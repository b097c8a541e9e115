ghost use Rattle.std.specs.Prelude.{◌≡◌, [], IfOk, OnOk};
ghost use Rattle.c_copies.specs.Names.{with_name};

use c_types::{List, Memory, Name};
use name_keys::{TextKey, key_of_text};
use std::alloc::Global;
use std::collections::BTreeSet;
use std::marker::Model;

/// A set of names that stay where they stand, which contracts see as the list of the names in byte order.
#[derive(Drop)]
pub struct GatheredNames<'a> {
    names: BTreeSet<TextKey<'a>>,
}

impl<'a> Model for GatheredNames<'a> {
    ghost use Rattle.std.specs.Prelude.{List, ℕ};
    ghost use Rattle.std.specs.Coded.{coded_list, coded_ℕ};

    ghost Value = { List (List ℕ) };

    ghost coded = { coded_list (coded_list coded_ℕ) };

    ghost view = { λ it. it.names.keys };
}

impl<'a> GatheredNames<'a> {
    /// The empty set.
    pub fn new(alloc: Global) -> GatheredNames<'a>
        ensures { result ≡ [] }
    {
        GatheredNames {
            names: BTreeSet::new(alloc),
        }
    }

    /// Puts a name in. Want of memory is the only failure.
    pub fn add(&mut self, name: &'a str) -> Result<(), Memory>
        ensures { OnOk result (self.new ≡ with_name self.old name.now) }
    {
        self.names.insert(key_of_text(name))?;
        Ok(())
    }

    /// Copies of all names, in byte order. Want of memory is the only failure.
    pub fn into_list(self, alloc: Global) -> Result<List<Name>, Memory>
        ensures { IfOk result (λ it. it ≡ self.entry) }
    {
        let GatheredNames { names } = self;
        let mut out = List::new(alloc);
        for name in names {
            out.push(Name::from_string(String::from_str(alloc, name.text())?))?;
        }
        Ok(out)
    }
}
