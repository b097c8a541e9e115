ghost use Rattle.std.specs.Prelude.{◌≡◌, ◌≤◌, ◌+◌, ◌-◌, ◌++◌, length, map, Some, IfOk};
ghost use Rattle.guard_vars.specs.GuardNames.{guard_names_beside as the_guard_names_beside};
ghost use Rattle.plain_laws.specs.Plain.{guard_slot, numbers_from, variable_declared, guard_declared as the_guard_declared, declared as the_declared, guarded_body as the_guarded_body, with_guard_variables as the_with_guard_variables, tidied, plain_body, plain_function as the_plain_function};

use crate::expressions::number;
use crate::items::{plain_items, tidied_items};
use crate::left::{Left, guards_left};
use crate::slots::Slots;
use crate::staying::stays;
use c_fresh_names::UsedNames;
use c_tree::{Function, Item, Slot};
use c_types::{IntKind, List, MOST, Memory, Name, concatenated};
use guard_vars::guard_names_beside;
use std::alloc::Global;
use std::mem;

fn declare_variables(alloc: Global, from: u32, to: u32) -> Result<List<Item>, Memory>
    ensures { IfOk result (λ it. it ≡ map variable_declared (numbers_from from (to - from))) }
{
    let mut out = List::new(alloc);
    for k in from..to {
        out.push(Item::Local(k, None))?;
    }
    Ok(out)
}

fn guard_declared(alloc: Global, k: u32) -> Result<Item, Memory>
    ensures { IfOk result (λ it. it ≡ the_guard_declared k) }
{
    let mut values = List::new(alloc);
    values.push(number(IntKind::Int, 0))?;
    Ok(Item::Local(k, Some(values)))
}

fn declare_guards(alloc: Global, from: u32, to: u32) -> Result<List<Item>, Memory>
    ensures { IfOk result (λ it. it ≡ map the_guard_declared (numbers_from from (to - from))) }
{
    let mut out = List::new(alloc);
    for k in from..to {
        out.push(guard_declared(alloc, k)?)?;
    }
    Ok(out)
}

/// The declarations of a function's block variables and of its guards, whose labels these are.
fn declarations(alloc: Global, function: &Function, left: &List<u32>) -> Result<List<Item>, Memory>
    requires { length function.now.slots + length left.now ≤ 4294967295 }
    ensures { IfOk result (λ it. it ≡ the_declared function.now left.now) }
{
    let base = function.slots.len() as u32;
    let variables = declare_variables(alloc, function.params, base)?;
    let guards = declare_guards(alloc, base, base + left.len() as u32)?;
    concatenated(variables, guards)
}

fn with_guard_slots(slots: List<Slot>, names: List<Name>) -> Result<List<Slot>, Memory>
    ensures { IfOk result (λ it. it ≡ slots ++ map guard_slot names) }
{
    let mut out = slots;
    for name in names.into_vec() {
        out.push(Slot {
            name,
            kind: IntKind::Int,
            cells: None,
            constant: false,
        })?;
    }
    Ok(out)
}

fn guarded_body(
    alloc: Global,
    function: &Function,
    left: List<u32>,
    body: List<Item>,
) -> Result<List<Item>, Memory>
    ensures { IfOk result (λ it. it ≡ the_guarded_body function.now left body) }
{
    let base = function.slots.len();
    if left.len() > MOST - base {
        return Err(Memory);
    }
    let declared = declarations(alloc, function, &left)?;
    let slots = Slots {
        base: base as u32,
        left,
    };
    let items = plain_items(alloc, slots, body)?;
    concatenated(declared, items)
}

fn with_guard_variables(
    alloc: Global,
    used: &mut UsedNames,
    function: Function,
    body: List<Item>,
) -> Result<Function, Memory>
    ensures value { IfOk result (λ it. it ≡ the_with_guard_variables (the_guard_names_beside used.old.file function) function body) }
    ensures file { used.new.file ≡ used.old.file }
{
    let guards = guard_names_beside(alloc, used, &function)?;
    let Left { labels, names } = guards_left(alloc, &body, guards)?;
    let body = guarded_body(alloc, &function, labels, body)?;
    let Function {
        name,
        result,
        file_only,
        params,
        slots,
        labels: _,
        body: _,
        flat: _,
    } = function;
    let slots = with_guard_slots(slots, names)?;
    Ok(Function {
        name,
        result,
        file_only,
        params,
        slots,
        labels: List::new(alloc),
        body: Some(body),
        flat: false,
    })
}

/// The function with the sections of its switches in the plain form.
fn with_tidied_body(alloc: Global, function: Function, body: List<Item>) -> Result<Function, Memory>
    ensures { IfOk result (λ it. it ≡ record function { body = Some (tidied body) }) }
{
    let body = tidied_items(alloc, body)?;
    let mut function = function;
    drop(mem::replace(&mut function.body, Some(body)));
    Ok(function)
}

/// The plain form of a function with this body, which is taken out of it, where the names of its file are gathered.
fn with_plain_body(
    alloc: Global,
    used: &mut UsedNames,
    function: Function,
    body: List<Item>,
) -> Result<Function, Memory>
    ensures value { IfOk result (λ it. it ≡ plain_body (the_guard_names_beside used.old.file function) function (Some body)) }
    ensures file { used.new.file ≡ used.old.file }
{
    if function.flat {
        with_guard_variables(alloc, used, function, body)
    } else {
        with_tidied_body(alloc, function, body)
    }
}

/// The plain form of a function, where the names of its file are gathered.
pub fn plain_function(
    alloc: Global,
    used: &mut UsedNames,
    function: Function,
) -> Result<Function, Memory>
    ensures value { IfOk result (λ it. it ≡ the_plain_function (the_guard_names_beside used.old.file function) function) }
    ensures file { used.new.file ≡ used.old.file }
{
    if stays(&function) {
        return Ok(function);
    }
    let mut function = function;
    match mem::replace(&mut function.body, None) {
        Some(body) => with_plain_body(alloc, used, function, body),
        None => Ok(function),
    }
}
