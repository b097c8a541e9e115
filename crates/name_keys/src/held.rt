ghost use Rattle.std.specs.Prelude.{◌≡◌};

use crate::front::front_of;
use crate::key::{Key, key_with};
use c_types::Name;
use std::marker::Model;

/// A name with what its key begins with, which contracts see as the name.
#[derive(Drop)]
pub struct HeldName {
    first: u64,
    name: Name,
}

impl Model for HeldName {
    ghost use Rattle.std.specs.Prelude.{◌≡◌, List, ℕ};
    ghost use Rattle.std.specs.Coded.{coded_list, coded_ℕ};

    ghost Value = { List ℕ };

    ghost coded = { coded_list coded_ℕ };

    ghost use Rattle.name_keys.specs.Fronts.{front};

    ghost view = { λ it. it.name };

    ghost invariant = { λ it. it.first ≡ front 8 it.name };
}

impl HeldName {
    /// The name, where it stands. Takes no memory.
    pub fn new(name: Name) -> HeldName
        ensures { result ≡ name }
    {
        HeldName {
            first: front_of(name.as_str().as_bytes()),
            name,
        }
    }

    /// The key of the name.
    #[inline]
    pub fn key(&self) -> Key<'_>
        ensures { result ≡ self.now }
    {
        key_with(self.first, self.name.as_str().as_bytes())
    }
}
