ghost use Rattle.std.specs.Prelude.{◌↔◌, take, All, IsNone, IsTrue};
ghost use Rattle.jump_meaning.specs.Code.{code_of};
ghost use Rattle.jump_meaning.specs.Runs.{IsEntry};

use crate::lookup::definition;
use c_tree::{Program, Slot};
use c_types::{List, Name};

/// Where a run begins: a function whose parameters are numbers, and an argument for each.
#[derive(Drop)]
pub struct Entry {
    pub function: Name,
    pub arguments: List<i128>,
}

/// Whether the first so many slots are numbers.
fn are_numbers(slots: &[Slot], count: u32) -> bool
    ensures { IsTrue result ↔ All (λ s. IsNone s.cells) (take count slots.now) }
{
    for (at, slot) in slots.iter().enumerate() {
        if at >= count as usize {
            return true;
        }
        if slot.cells.is_some() {
            return false;
        }
    }
    true
}

/// Whether a run of the program may begin there: the function has a body and number parameters, with an
/// argument for each.
pub fn is_entry(program: &Program, entry: &Entry) -> bool
    ensures { IsTrue result ↔ IsEntry (code_of program.now) entry.now.function entry.now.arguments }
{
    match definition(program, &entry.function) {
        None => false,
        Some(function) => {
            function.body.is_some()
                && entry.arguments.len() == function.params as usize
                && are_numbers(function.slots.as_slice(), function.params)
        }
    }
}
