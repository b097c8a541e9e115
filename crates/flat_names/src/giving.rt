ghost use Rattle.std.specs.Prelude.{◌≡◌, ◌+◌, ◌<◌, ◌≤◌, ◌^◌, length, IfOk, OnOk};
ghost use Rattle.c_copies.specs.Names.{with_name};
ghost use Rattle.c_fresh_names.specs.Fresh.{fresh as the_fresh};
ghost use Rattle.flat_names.specs.Gathered.{all_used, given_of};
ghost use Rattle.flat_names.specs.FlatNames.{name_variable as the_name_variable, name_case as the_name_case, name_cases as the_name_cases, name_default as the_name_default, name_break as the_name_break, name_construct as the_name_construct, name_constructs as the_name_constructs};

use crate::constructs::Construct;
use c_fresh_names::{UsedNames, numbered};
use c_tree::Slot;
use c_types::{IntKind, List, Memory, Name};
use std::alloc::Global;

/// The names that were given so far.
#[derive(Drop)]
pub struct GivenNames {
    /// The variables of scattered switches.
    pub variables: List<Slot>,
    pub made: Made,
}

/// The names of labels that were given.
#[derive(Drop)]
pub struct Made {
    /// Those of the case labels of scattered switches.
    pub cases: List<Name>,
    /// The name of the default of each loop or switch, if it has one.
    pub defaults: List<Option<Name>>,
    /// The name of the label behind each loop or switch, if a scattered switch has one.
    pub breaks: List<Option<Name>>,
}

fn give(alloc: Global, used: &mut UsedNames, base: &Name) -> Result<Name, Memory>
    ensures name { IfOk result (λ it. it ≡ the_fresh base.now (all_used used.old)) }
    ensures used { IfOk result (λ it. all_used used.new ≡ with_name (all_used used.old) it) }
    ensures file { used.new.file ≡ used.old.file }
{
    let name = used.fresh(alloc, base.as_str())?;
    used.add(alloc, name.as_str())?;
    Ok(name)
}

fn name_variable(
    alloc: Global,
    used: &mut UsedNames,
    given: &mut GivenNames,
    k: u64,
    kind: IntKind,
) -> Result<(), Memory>
    ensures value { OnOk result (given_of used.new given.new ≡ the_name_variable k kind (given_of used.old given.old)) }
    ensures file { used.new.file ≡ used.old.file }
{
    let base = numbered(alloc, "switch", k)?;
    let name = give(alloc, used, &base)?;
    given.variables.push(Slot {
        name,
        kind,
        cells: None,
        constant: false,
    })
}

fn name_case(
    alloc: Global,
    used: &mut UsedNames,
    given: &mut GivenNames,
    k: u64,
    i: u64,
) -> Result<(), Memory>
    ensures value { OnOk result (given_of used.new given.new ≡ the_name_case k i (given_of used.old given.old)) }
    ensures file { used.new.file ≡ used.old.file }
{
    let stem = numbered(alloc, "case", k)?;
    let base = numbered(alloc, stem.as_str(), i)?;
    let name = give(alloc, used, &base)?;
    given.made.cases.push(name)
}

fn name_cases(
    alloc: Global,
    used: &mut UsedNames,
    given: &mut GivenNames,
    k: u64,
    count: usize,
) -> Result<(), Memory>
    requires { count < 2 ^ 63 }
    ensures value { OnOk result (given_of used.new given.new ≡ the_name_cases k 1 count (given_of used.old given.old)) }
    ensures file { used.new.file ≡ used.old.file }
{
    for i in 0..count {
        name_case(alloc, used, given, k, i as u64 + 1)?;
    }
    Ok(())
}

fn name_default(
    alloc: Global,
    used: &mut UsedNames,
    given: &mut GivenNames,
    k: u64,
    named: bool,
) -> Result<(), Memory>
    ensures value { OnOk result (given_of used.new given.new ≡ the_name_default k named (given_of used.old given.old)) }
    ensures file { used.new.file ≡ used.old.file }
{
    if named {
        let base = numbered(alloc, "default", k)?;
        let name = give(alloc, used, &base)?;
        given.made.defaults.push(Some(name))
    } else {
        given.made.defaults.push(None)
    }
}

fn name_break(
    alloc: Global,
    used: &mut UsedNames,
    given: &mut GivenNames,
    k: u64,
    named: bool,
) -> Result<(), Memory>
    ensures value { OnOk result (given_of used.new given.new ≡ the_name_break k named (given_of used.old given.old)) }
    ensures file { used.new.file ≡ used.old.file }
{
    if named {
        let base = numbered(alloc, "break", k)?;
        let name = give(alloc, used, &base)?;
        given.made.breaks.push(Some(name))
    } else {
        given.made.breaks.push(None)
    }
}

fn name_scattered(
    alloc: Global,
    used: &mut UsedNames,
    given: &mut GivenNames,
    k: u64,
    kind: IntKind,
    count: usize,
    default: bool,
    behind: bool,
) -> Result<(), Memory>
    requires { count < 2 ^ 63 }
    ensures value { OnOk result (given_of used.new given.new ≡ the_name_break k behind (the_name_default k default (the_name_cases k 1 count (the_name_variable k kind (given_of used.old given.old))))) }
    ensures file { used.new.file ≡ used.old.file }
{
    name_variable(alloc, used, given, k, kind)?;
    name_cases(alloc, used, given, k, count)?;
    name_default(alloc, used, given, k, default)?;
    name_break(alloc, used, given, k, behind)
}

fn name_construct(
    alloc: Global,
    used: &mut UsedNames,
    given: &mut GivenNames,
    k: u64,
    construct: Construct,
) -> Result<(), Memory>
    ensures value { OnOk result (given_of used.new given.new ≡ the_name_construct k construct (given_of used.old given.old)) }
    ensures file { used.new.file ≡ used.old.file }
{
    match construct {
        Construct::Stays => {
            name_default(alloc, used, given, k, false)?;
            name_break(alloc, used, given, k, false)
        }
        Construct::Scattered(kind, count, default, behind) => {
            if count > 4294967295 {
                return Err(Memory);
            }
            name_scattered(alloc, used, given, k, kind, count, default, behind)
        }
    }
}

/// Names of what the scattered switches among these loops and switches need. Want of memory is the
/// only failure.
pub fn name_constructs(
    alloc: Global,
    used: &mut UsedNames,
    given: &mut GivenNames,
    constructs: &[Construct],
) -> Result<(), Memory>
    requires { length constructs.now ≤ 4294967295 }
    ensures value { OnOk result (given_of used.new given.new ≡ the_name_constructs 1 constructs.now (given_of used.old given.old)) }
    ensures file { used.new.file ≡ used.old.file }
{
    for i in 0..constructs.len() {
        name_construct(alloc, used, given, i as u64 + 1, constructs[i])?;
    }
    Ok(())
}
