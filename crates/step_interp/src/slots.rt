ghost use Rattle.std.specs.Prelude.{◌≡◌, ◌<◌, ◌≤◌, ℕ, List, length, IfOk};
ghost use Rattle.jump_meaning.specs.Code.{function_tree};
ghost use Rattle.jump_meaning.specs.World.{parameter as the_parameter, slot_at_start};
ghost use Rattle.step_memory.specs.Rooms.{IsRoom, AreSlots};
ghost use Rattle.step_memory.specs.Values.{value_of, values_of};
ghost use Rattle.step_interp.specs.Numbers.{IsNumberRoom};

use c_tree::{Function, Slot};
use c_types::{List, Memory, convert};
use std::alloc::Global;
use step_memory::{Cells, FIRST, Room, Rooms, Value};
use step_tasks::{Values, integer, take};

/// A number parameter at the start of a call: the argument, converted. An array that no array is
/// lent to is refused.
fn number_room(slot: &Slot, number: i128) -> Result<Room, Memory>
    ensures { IfOk result (λ r. IsNumberRoom slot.now number r) }
{
    if slot.cells.is_some() {
        return Err(Memory);
    }
    Ok(Room {
        kind: slot.kind,
        cells: Cells::Number(convert(slot.kind, number)),
    })
}

/// A parameter at the start of a call: the argument, converted, or the array that is lent.
fn parameter(slot: &Slot, value: Value<'_>) -> Result<Room, Memory>
    ensures { IfOk result (λ r. (ns : List (List ℕ)) → IsRoom ns r (the_parameter slot.now (value_of ns value.entry))) }
{
    match value {
        Value::Lends(owner) => Ok(Room {
            kind: slot.kind,
            cells: Cells::Lent(owner),
        }),
        _ => number_room(slot, integer(value)),
    }
}

/// The rooms of the first so many slots, which are parameters, at the start of a call with these
/// arguments, the first one on top.
fn parameter_rooms<'a>(
    alloc: Global,
    function: &Function,
    count: usize,
    arguments: &mut Values<'a>,
) -> Result<List<Room>, Memory>
    requires slots { count ≤ length function.now.slots }
    requires parameters { count ≤ function.now.params }
    ensures count { IfOk result (λ rooms. length rooms ≡ count) }
    ensures slots { IfOk result (λ rooms. (ns : List (List ℕ)) → AreSlots ns rooms (slot_at_start (function_tree function.now) (values_of ns arguments.old))) }
{
    let slots = function.slots.as_slice();
    let mut rooms = List::from_vec(Vec::with_capacity(alloc, slots.len().min(FIRST))?);
    for slot in &slots[..count] {
        rooms.push(parameter(slot, take(arguments))?)?;
    }
    Ok(rooms)
}

/// How many parameters a function has, none of which is missing among its slots.
fn parameter_count(function: &Function) -> usize
    ensures slots { result ≤ length function.now.slots }
    ensures parameters { result ≤ function.now.params }
    ensures all { result < length function.now.slots → function.now.params ≤ result }
{
    let slots = function.slots.len();
    let parameters = function.params as usize;
    if slots < parameters {
        slots
    } else {
        parameters
    }
}

/// The slots of a function at the start of a call with these arguments, the first one on top.
pub fn rooms_at_start<'a>(
    alloc: Global,
    function: &'a Function,
    arguments: &mut Values<'a>,
) -> Result<Rooms<'a>, Memory>
    ensures count { IfOk result (λ rooms. length rooms ≡ length function.now.slots) }
    ensures slots { IfOk result (λ rooms. (ns : List (List ℕ)) → AreSlots ns rooms (slot_at_start (function_tree function.now) (values_of ns arguments.old))) }
{
    let count = parameter_count(function);
    let rooms = parameter_rooms(alloc, function, count, arguments)?;
    let slots = function.slots.as_slice();
    Rooms::new(alloc, rooms, &slots[count..])
}
