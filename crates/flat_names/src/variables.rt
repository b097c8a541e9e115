ghost use Rattle.std.specs.Prelude.{◌≡◌, ◌++◌, ◌∷◌, [], ◌≤◌, cond, length, IfOk, OnOk};
ghost use Rattle.c_copies.specs.Names.{has_name, with_name};
ghost use Rattle.c_fresh_names.specs.Fresh.{fresh as the_fresh};
ghost use Rattle.flat_names.specs.Gathered.{all_used, named_of};
ghost use Rattle.flat_names.specs.Numbers.{AreUsedBelow};
ghost use Rattle.flat_names.specs.FlatNames.{variable_name as the_variable_name, slot_named, slot_taken, slot_used, named_slots, renamed as the_renamed};

use crate::numbers::{NextNumbers, fresh_beside};
use c_copies::copy_slot;
use c_fresh_names::UsedNames;
use c_tree::Slot;
use c_types::{List, Memory, Name};
use std::alloc::Global;

fn renamed(slot: &Slot, name: Name) -> Slot
    ensures { result ≡ the_renamed slot.now name }
{
    Slot {
        name,
        kind: slot.kind,
        cells: slot.cells,
        constant: false,
    }
}

/// The name of a block variable: its own, unless that is taken.
fn variable_name<'a>(
    alloc: Global,
    taken: &UsedNames,
    used: &mut UsedNames,
    numbers: &mut NextNumbers<'a>,
    name: &'a Name,
) -> Result<Name, Memory>
    requires { AreUsedBelow (all_used used.old) numbers.old }
    ensures name { IfOk result (λ it. it ≡ the_variable_name (all_used taken.now) (all_used used.old) name.now) }
    ensures used { IfOk result (λ it. all_used used.new ≡ cond (has_name (all_used taken.now) name.now) (with_name (all_used used.old) (the_fresh name.now (all_used used.old))) (all_used used.old)) }
    ensures numbers { OnOk result (AreUsedBelow (all_used used.new) numbers.new) }
    ensures file { used.new.file ≡ used.old.file }
{
    if taken.contains(name.as_str()) {
        let made = fresh_beside(alloc, used, numbers, name)?;
        used.add(alloc, made.as_str())?;
        Ok(made)
    } else {
        name.copy(alloc)
    }
}

/// One more variable: a parameter stays, and a block variable gets its name.
fn add_slot<'a>(
    alloc: Global,
    stays: bool,
    taken: &mut UsedNames,
    used: &mut UsedNames,
    numbers: &mut NextNumbers<'a>,
    named: &mut List<Slot>,
    slot: &'a Slot,
) -> Result<(), Memory>
    requires { AreUsedBelow (all_used used.old) numbers.old }
    ensures taken { OnOk result (all_used taken.new ≡ slot_taken stays (all_used taken.old) (all_used used.old) slot.now) }
    ensures used { OnOk result (all_used used.new ≡ slot_used stays (all_used taken.old) (all_used used.old) slot.now) }
    ensures slots { OnOk result (named.new ≡ named.old ++ slot_named stays (all_used taken.old) (all_used used.old) slot.now ∷ []) }
    ensures numbers { OnOk result (AreUsedBelow (all_used used.new) numbers.new) }
    ensures taken_file { taken.new.file ≡ taken.old.file }
    ensures used_file { used.new.file ≡ used.old.file }
{
    if stays {
        taken.add(alloc, slot.name.as_str())?;
        named.push(copy_slot(alloc, slot)?)
    } else {
        let name = variable_name(alloc, taken, used, numbers, &slot.name)?;
        taken.add(alloc, slot.name.as_str())?;
        taken.add(alloc, name.as_str())?;
        named.push(renamed(slot, name))
    }
}

/// The variables of a function whose first so many are parameters, with their names in the flat form.
/// Taken are the names of the file and of the library; used are those that no new name may be. Want of
/// memory is the only failure.
pub fn name_slots(
    alloc: Global,
    params: u32,
    taken: &mut UsedNames,
    used: &mut UsedNames,
    slots: &[Slot],
) -> Result<List<Slot>, Memory>
    requires { length slots.now ≤ 4294967295 }
    ensures value { IfOk result (λ it. named_of used.new it ≡ named_slots params (all_used taken.old) (all_used used.old) slots.now) }
    ensures taken_file { taken.new.file ≡ taken.old.file }
    ensures used_file { used.new.file ≡ used.old.file }
{
    let mut named = List::new(alloc);
    let mut numbers = NextNumbers::new(alloc);
    for i in 0..slots.len() {
        add_slot(
            alloc,
            i < params as usize,
            taken,
            used,
            &mut numbers,
            &mut named,
            &slots[i],
        )?;
    }
    Ok(named)
}
