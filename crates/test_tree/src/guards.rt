//! Names of guards.

use c_tree::{Function, Slot};
use c_types::{IntKind, List, Memory, Name};
use guard_vars::guard_names;
use std::alloc::Global;

pub fn name(alloc: Global, text: &str) -> Result<Name, Memory> {
    Ok(Name::from_string(String::from_str(alloc, text)?))
}

/// Whether the names are these, in order.
pub fn are_names(names: &List<Name>, wanted: &[&str]) -> bool {
    if names.len() != wanted.len() {
        return false;
    }
    for (name, want) in names.as_slice().iter().zip(wanted) {
        if name.as_str() != *want {
            return false;
        }
    }
    true
}

fn variable(alloc: Global) -> Result<Slot, Memory> {
    Ok(Slot {
        name: name(alloc, "goto_end")?,
        kind: IntKind::Int,
        cells: None,
        constant: false,
    })
}

fn main_of(alloc: Global) -> Result<Function, Memory> {
    let name = name(alloc, "main")?;
    Ok(Function {
        name,
        result: Some(IntKind::Int),
        file_only: false,
        params: 0,
        slots: List::new(alloc),
        labels: List::new(alloc),
        body: None,
        flat: true,
    })
}

/// Gives a function a variable `goto_end`, and the labels `end` and `top`.
fn fill(alloc: Global, function: &mut Function) -> Result<(), Memory> {
    function.slots.push(variable(alloc)?)?;
    function.labels.push(name(alloc, "end")?)?;
    function.labels.push(name(alloc, "top")?)
}

fn names_guards(alloc: Global, function: &mut Function) -> Result<bool, Memory> {
    fill(alloc, function)?;
    let names = List::new(alloc);
    let guards = guard_names(alloc, &names, function)?;
    let met = are_names(&guards, &["goto_end_2", "goto_top"]);
    drop(guards);
    Ok(met)
}

fn are_named(alloc: Global) -> Result<bool, Memory> {
    let mut function = main_of(alloc)?;
    let met = names_guards(alloc, &mut function);
    drop(function);
    met
}

#[test]
fn guard_named_like_a_variable(rt: HostRuntime) {
    assert!(rt; are_named(rt.alloc()) == Ok(true));
}
