//! The numbers of a function's labels.

ghost use Rattle.std.specs.Prelude.{◌≡◌, false, [], IfOk, OnOk};
ghost use Rattle.std.specs.Option.{option_copied};
ghost use Rattle.c_kinds.specs.Scopes.{found, with_entry};
ghost use Rattle.c_statements.specs.Context as context;
ghost use Rattle.c_statements.specs.Labels as spec;

use c_types::Memory;
use name_keys::{Key, key_of};
use std::alloc::Global;
use std::collections::BTreeMap;
use std::marker::Model;

/// Labels and their numbers, which contracts see in byte order.
#[derive(Drop)]
pub struct LabelNumbers<'a> {
    numbers: BTreeMap<Key<'a>, u32>,
}

impl<'a> Model for LabelNumbers<'a> {
    ghost use Rattle.std.specs.Prelude.{List, ℕ};

    ghost Value = { List (List ℕ × ℕ) };

    ghost view = { λ it. it.numbers.entries };
}

impl<'a> LabelNumbers<'a> {
    /// No labels.
    pub fn new(alloc: Global) -> LabelNumbers<'a>
        ensures { result ≡ [] }
    {
        LabelNumbers {
            numbers: BTreeMap::new(alloc),
        }
    }

    /// The number of a label.
    #[tactic(auto, using(c_kinds::proofs::Lookups::found_in))]
    pub fn get(&self, name: &'a [u8]) -> Option<&u32>
        ensures { option_copied result ≡ found name.now self.now }
    {
        self.numbers.get(&key_of(name))
    }

    /// Whether there is a label with this name.
    pub fn has(&self, name: &'a [u8]) -> bool
        ensures { result ≡ context.has_label self.now name.now }
    {
        self.get(name).is_some()
    }

    fn insert(&mut self, name: &'a [u8], number: u32) -> Result<(), Memory>
        ensures { OnOk result (self.new ≡ with_entry name.now number self.old) }
    {
        self.numbers.insert(key_of(name), number)?;
        Ok(())
    }

    /// Gives a label that has none the next number. More than 2^32 are refused as for want of memory.
    pub fn add_new(&mut self, name: &'a [u8]) -> Result<(), Memory>
        requires { context.has_label self.old name.now ≡ false }
        ensures { OnOk result (self.new ≡ spec.with_number name.now self.old) }
    {
        let next = self.numbers.len();
        if next > 4294967295 {
            return Err(Memory);
        }
        self.insert(name, next as u32)
    }

    /// The number of a label, and behind all of them that of one that isn't there. More than 2^32 are
    /// refused as for want of memory.
    pub fn number(&self, name: &'a [u8]) -> Result<u32, Memory>
        ensures { IfOk result (λ n. n ≡ context.number_in self.now name.now) }
    {
        if let Some(number) = self.get(name) {
            return Ok(*number);
        }
        let behind = self.numbers.len();
        if behind > 4294967295 {
            return Err(Memory);
        }
        Ok(behind as u32)
    }
}
