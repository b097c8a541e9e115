//! The names of lists and of variables, put into a set.

ghost use Rattle.std.specs.Prelude.{◌≡◌, OnOk};
ghost use Rattle.c_copies.specs.Names.{with_names, given_name, slots_names};

use crate::name_set::NameSet;
use c_tree::Slot;
use c_types::{Memory, Name};
use std::alloc::Global;

/// Puts the names of a list into a set. Want of memory is the only failure; the set has some of the
/// names then.
pub fn add_names(alloc: Global, set: &mut NameSet, names: &[Name]) -> Result<(), Memory>
    ensures { OnOk result (set.new ≡ with_names set.old names.now) }
{
    for name in names {
        set.add(alloc, name.as_str())?;
    }
    Ok(())
}

fn add_given_name(alloc: Global, set: &mut NameSet, name: &Name) -> Result<(), Memory>
    ensures { OnOk result (set.new ≡ with_names set.old (given_name name.now)) }
{
    if name.as_str().is_empty() {
        Ok(())
    } else {
        set.add(alloc, name.as_str())
    }
}

/// Puts the names of variables into a set, without empty ones. Want of memory is the only failure;
/// the set has some of the names then.
pub fn add_slots(alloc: Global, set: &mut NameSet, slots: &[Slot]) -> Result<(), Memory>
    ensures { OnOk result (set.new ≡ with_names set.old (slots_names slots.now)) }
{
    for i in 0..slots.len() {
        add_given_name(alloc, set, &slots[i].name)?;
    }
    Ok(())
}
