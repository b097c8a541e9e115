ghost use Rattle.std.specs.Prelude.{◌≡◌, ◌≤◌, length, IfOk, OnOk};
ghost use Rattle.flat_names.specs.Gathered.{named_of};
ghost use Rattle.flat_names.specs.FlatNames.{named_slots};
ghost use Rattle.lower_laws.specs.Lowering.{with_variable, with_variables, label_names as the_label_names};

use crate::labels::label_names;
use c_fresh_names::UsedNames;
use c_tree::Slot;
use c_types::{IntKind, List, Memory, Name};
use flat_names::{FlatNames, ProgramNames, made_name, name_slots};
use std::alloc::Global;

/// The variable of loop or switch `k`, if it is a switch, whose variable has this kind.
fn add_variable(
    alloc: Global,
    used: &mut UsedNames,
    slots: &mut List<Slot>,
    k: u64,
    kind: Option<IntKind>,
) -> Result<(), Memory>
    ensures value { OnOk result (named_of used.new slots.new ≡ with_variable k kind (named_of used.old slots.old)) }
    ensures file { used.new.file ≡ used.old.file }
{
    match kind {
        Some(kind) => {
            let name = made_name(alloc, "switch", k, used)?;
            slots.push(Slot {
                name,
                kind,
                cells: None,
                constant: false,
            })
        }
        None => Ok(()),
    }
}

/// The variables of the switches among these loops and switches, behind others.
fn add_variables(
    alloc: Global,
    used: &mut UsedNames,
    slots: &mut List<Slot>,
    constructs: &[Option<IntKind>],
) -> Result<(), Memory>
    requires { length constructs.now ≤ 4294967295 }
    ensures value { OnOk result (named_of used.new slots.new ≡ with_variables 1 constructs.now (named_of used.old slots.old)) }
    ensures file { used.new.file ≡ used.old.file }
{
    for i in 0..constructs.len() {
        add_variable(alloc, used, slots, i as u64 + 1, constructs[i])?;
    }
    Ok(())
}

/// The variables and labels of the flat list of a function that has these: block variables get their names,
/// then come the variables of its switches, then labels get theirs, where `codes` say which stand in the
/// list. The names of its program are gathered, and serve its next function then. Want of memory is the only
/// failure.
pub fn name_lowered(
    alloc: Global,
    names: &mut ProgramNames,
    params: u32,
    slots: &[Slot],
    labels: &[Name],
    constructs: &[Option<IntKind>],
    codes: &[u32],
) -> Result<FlatNames, Memory>
    requires slots { length slots.now ≤ 4294967295 }
    requires constructs { length constructs.now ≤ 4294967295 }
    requires codes { length codes.now ≤ 4294967295 }
    ensures slots { IfOk result (λ it. it.slots ≡ (with_variables 1 constructs.now (named_slots params names.old.taken.file names.old.used.file slots.now)).slots) }
    ensures labels { IfOk result (λ it. it.labels ≡ the_label_names labels.now (with_variables 1 constructs.now (named_slots params names.old.taken.file names.old.used.file slots.now)).used 1 codes.now) }
    ensures used { names.new.used.file ≡ names.old.used.file }
    ensures taken { names.new.taken.file ≡ names.old.taken.file }
{
    let ProgramNames { used, taken } = names;
    used.forget_own(alloc);
    taken.forget_own(alloc);
    let mut slots = name_slots(alloc, params, taken, used, slots)?;
    add_variables(alloc, used, &mut slots, constructs)?;
    let labels = label_names(alloc, labels, used, codes)?;
    Ok(FlatNames { slots, labels })
}
