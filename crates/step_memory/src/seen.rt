ghost use Rattle.std.specs.Prelude.{FitsSigned, IfOk, OnErr};
ghost use Rattle.std.specs.Int.{w128};
ghost use Rattle.step_memory.specs.Rooms.{IsKindOf, IsCountOf, IsNumberAt, IsArrayIf, LacksCell};
ghost use Rattle.step_memory.specs.Pages.{room_at_start};
ghost use Rattle.step_memory.specs.Seen.{room_seen};

use crate::room::Room;
use c_tree::Slot;
use c_types::{IntKind, Memory};

/// What is seen of a variable.
#[derive(Clone, Copy)]
pub enum Seen<'r> {
    Made(&'r Room),
    /// The variable of a slot as at the start of a call: 0 everywhere.
    Start(&'r Slot),
}

/// How many cells a slot has at the start of a call, of which a number has one.
fn count_at_start(slot: &Slot) -> usize
    ensures { IsCountOf (room_at_start slot.now) result }
{
    match slot.cells {
        None => 1,
        Some(count) => count as usize,
    }
}

/// The number in a cell of a slot at the start of a call.
fn number_at_start(slot: &Slot, at: u32) -> Result<i128, Memory>
    ensures ok { IfOk result (λ n. IsNumberAt (room_at_start slot.now) at n) }
    ensures fits { IfOk result (λ n. FitsSigned w128 n) }
    ensures err { OnErr result (LacksCell (room_at_start slot.now) at) }
{
    if at as usize >= count_at_start(slot) {
        return Err(Memory);
    }
    Ok(0)
}

impl<'r> Seen<'r> {
    /// The kind of its cells.
    pub fn kind(self) -> IntKind
        ensures { IsKindOf (room_seen self.entry) result }
    {
        match self {
            Seen::Made(room) => room.kind(),
            Seen::Start(slot) => slot.kind,
        }
    }

    /// How many cells it has, of which a number has one.
    pub fn count(self) -> usize
        ensures { IsCountOf (room_seen self.entry) result }
    {
        match self {
            Seen::Made(room) => room.count(),
            Seen::Start(slot) => count_at_start(slot),
        }
    }

    /// Whether it is an array, one of its own or a lent one.
    pub fn is_array(self) -> bool
        ensures { IsArrayIf (room_seen self.entry) result }
    {
        match self {
            Seen::Made(room) => room.is_array(),
            Seen::Start(slot) => slot.cells.is_some(),
        }
    }

    /// The number in a cell. A cell that isn't there is refused.
    pub fn number(self, at: u32) -> Result<i128, Memory>
        ensures ok { IfOk result (λ n. IsNumberAt (room_seen self.entry) at n) }
        ensures fits { IfOk result (λ n. FitsSigned w128 n) }
        ensures err { OnErr result (LacksCell (room_seen self.entry) at) }
    {
        match self {
            Seen::Made(room) => room.number(at),
            Seen::Start(slot) => number_at_start(slot, at),
        }
    }
}
