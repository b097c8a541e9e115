ghost use Rattle.std.specs.Prelude.{◌≡◌, [], ◌++◌, false, length, IfOk, OnOk};
ghost use Rattle.c_types.specs.Words.{known_functions};
ghost use Rattle.c_copies.specs.Names.{has_name, with_names};
ghost use Rattle.guard_vars.specs.GuardNames.{guard_name as the_guard_name, named_guards as the_named_guards, own_names, guard_names_beside as the_guard_names_beside, guard_names as the_guard_names, AreNew};

use c_copies::{add_names, add_slots};
use c_fresh_names::UsedNames;
use c_tree::Function;
use c_types::{List, Memory, Name};
use std::alloc::Global;

fn guard_name(alloc: Global, label: &Name, used: &UsedNames) -> Result<Name, Memory>
    ensures value { IfOk result (λ it. it ≡ the_guard_name label.now (with_names used.now.file used.now.own)) }
    ensures unused { IfOk result (λ it. has_name (with_names used.now.file used.now.own) it ≡ false) }
{
    let label = label.as_str();
    let base = format!(in alloc; "goto_{label}")?;
    used.fresh(alloc, base.as_str())
}

fn named_guards(alloc: Global, used: &mut UsedNames, labels: &[Name]) -> Result<List<Name>, Memory>
    ensures value { IfOk result (λ it. it ≡ the_named_guards (with_names used.old.file used.old.own) labels.now) }
    ensures new_names { IfOk result (λ it. AreNew (with_names used.old.file used.old.own) it) }
    ensures file { used.new.file ≡ used.old.file }
{
    let mut out = List::new(alloc);
    for i in 0..labels.len() {
        let name = guard_name(alloc, &labels[i], used)?;
        used.add(alloc, name.as_str())?;
        out.push(name)?;
    }
    Ok(out)
}

fn take_names(alloc: Global, used: &mut UsedNames, function: &Function) -> Result<(), Memory>
    ensures file { used.new.file ≡ used.old.file }
    ensures own { OnOk result (used.new.own ≡ with_names [] (own_names function.now)) }
{
    used.forget_own(alloc);
    add_slots(alloc, &mut used.own, function.slots.as_slice())?;
    add_names(alloc, &mut used.own, function.labels.as_slice())
}

/// The names that `guard_names` gives to the guards of a function, where the names of its file are gathered.
/// Its own names come in the place of those that were there. Want of memory is the only failure.
pub fn guard_names_beside(
    alloc: Global,
    used: &mut UsedNames,
    function: &Function,
) -> Result<List<Name>, Memory>
    ensures value { IfOk result (λ it. it ≡ the_guard_names_beside used.old.file function.now) }
    ensures one_each { IfOk result (λ it. length it ≡ length function.now.labels) }
    ensures new_names { IfOk result (λ it. AreNew (used.old.file ++ own_names function.now) it) }
    ensures file { used.new.file ≡ used.old.file }
{
    take_names(alloc, used, function)?;
    named_guards(alloc, used, function.labels.as_slice())
}

/// A name for the guard of each label of a function, in the order of its labels: the first of
/// `goto_L`, `goto_L_2`, `goto_L_3` and so on that isn't used. Used are the names handed in, which
/// are those of the whole file, the known functions of the library, the names of the function's own
/// variables and labels, and the names given to earlier labels. Each name that is given is none of
/// these. Want of memory is the only failure.
pub fn guard_names(
    alloc: Global,
    names: &List<Name>,
    function: &Function,
) -> Result<List<Name>, Memory>
    ensures value { IfOk result (λ it. it ≡ the_guard_names names.now function.now) }
    ensures one_each { IfOk result (λ it. length it ≡ length function.now.labels) }
    ensures new_names { IfOk result (λ it. AreNew (names.now ++ known_functions ++ own_names function.now) it) }
{
    let mut used = UsedNames::new(alloc, names.as_slice())?;
    guard_names_beside(alloc, &mut used, function)
}
