ghost use Rattle.std.specs.Prelude.{◌≡◌, ◌<◌, length, slice_set, FitsSigned, IfOk, OnOk, OnErr};
ghost use Rattle.std.specs.Int.{w128};
ghost use Rattle.jump_meaning.specs.World.{with_number, with_zeros};
ghost use Rattle.step_memory.specs.Rooms.{IsKindOf, IsCountOf, IsNumberAt, IsArrayIf, LacksCell, Becomes, BecomesAt, KeptBelow, ZeroFrom};

use crate::value::Owner;
use c_types::{IntKind, List, Memory, convert};

/// A variable: the kind of its cells, and what they hold.
#[derive(Drop)]
pub struct Room {
    pub kind: IntKind,
    pub cells: Cells,
}

/// What a variable holds.
#[derive(Drop)]
pub enum Cells {
    Number(i128),
    Array(List<i128>),
    /// The array of another variable.
    Lent(Owner),
}

impl Room {
    /// The kind of its cells.
    pub fn kind(&self) -> IntKind
        ensures { IsKindOf self.now result }
    {
        match self.cells {
            Cells::Lent(_) => IntKind::Int,
            _ => self.kind,
        }
    }

    /// How many cells it has, of which a number has one.
    pub fn count(&self) -> usize
        ensures { IsCountOf self.now result }
    {
        match &self.cells {
            Cells::Number(_) => 1,
            Cells::Array(cells) => cells.len(),
            Cells::Lent(_) => 0,
        }
    }

    /// Whether it is an array, one of its own or a lent one.
    pub fn is_array(&self) -> bool
        ensures { IsArrayIf self.now result }
    {
        match self.cells {
            Cells::Number(_) => false,
            _ => true,
        }
    }

    /// The number in a cell. A cell that isn't there is refused.
    pub fn number(&self, at: u32) -> Result<i128, Memory>
        ensures ok { IfOk result (λ n. IsNumberAt self.now at n) }
        ensures fits { IfOk result (λ n. FitsSigned w128 n) }
        ensures err { OnErr result (LacksCell self.now at) }
    {
        match &self.cells {
            Cells::Number(number) => { if at == 0 { Ok(*number) } else { Err(Memory) } }
            Cells::Array(cells) => match cells.get(at as usize) {
                Some(number) => Ok(*number),
                None => Err(Memory),
            },
            Cells::Lent(_) => Err(Memory),
        }
    }

    /// Stores the number, converted, in a cell. A cell that isn't there is refused, and nothing
    /// changes then.
    pub fn set(&mut self, at: u32, value: i128) -> Result<(), Memory>
        ensures ok { OnOk result (Becomes (with_number at value) self.old self.new) }
        ensures err { OnErr result (LacksCell self.old at) }
        ensures unchanged { OnErr result (self.new ≡ self.old) }
    {
        let value = convert(self.kind, value);
        match &mut self.cells {
            Cells::Number(number) => {
                if at != 0 {
                    return Err(Memory);
                }
                *number = value;
            }
            Cells::Array(cells) => {
                let at = at as usize;
                if at >= cells.len() {
                    return Err(Memory);
                }
                put(cells, at, value);
            }
            Cells::Lent(_) => return Err(Memory),
        }
        Ok(())
    }

    /// The cells from one on become 0.
    pub fn clear(&mut self, from: u32)
        ensures { Becomes (with_zeros from) self.old self.new }
    {
        match &mut self.cells {
            Cells::Number(number) => {
                if from == 0 {
                    *number = 0;
                }
            }
            Cells::Array(cells) => zero(cells, from as usize),
            Cells::Lent(_) => (),
        }
    }
}

/// The numbers from a place on become 0.
fn zero(cells: &mut List<i128>, from: usize)
    ensures length { length cells.new ≡ length cells.old }
    ensures kept { KeptBelow from cells.old cells.new }
    ensures zero { ZeroFrom from cells.new }
{
    for at in from..cells.len() {
        cells.set(at, 0);
    }
}

/// Puts a number in the place of one.
fn put(cells: &mut List<i128>, at: usize, value: i128)
    requires { at < length cells.old }
    ensures { cells.new ≡ slice_set cells.old at value }
{
    cells.set(at, value);
}

/// Stores the number, converted, in a cell of a room.
pub fn set_in(rooms: &mut List<Room>, place: usize, at: u32, value: i128) -> Result<(), Memory>
    ensures length { length rooms.new ≡ length rooms.old }
    ensures ok { OnOk result (BecomesAt (with_number at value) place rooms.old rooms.new) }
    ensures err { OnErr result (rooms.new ≡ rooms.old) }
{
    if place >= rooms.len() {
        return Err(Memory);
    }
    rooms.at_mut(place).set(at, value)
}

/// The cells of a room from one on become 0.
pub fn clear_in(rooms: &mut List<Room>, place: usize, from: u32) -> Result<(), Memory>
    ensures length { length rooms.new ≡ length rooms.old }
    ensures ok { OnOk result (BecomesAt (with_zeros from) place rooms.old rooms.new) }
    ensures err { OnErr result (rooms.new ≡ rooms.old) }
{
    if place >= rooms.len() {
        return Err(Memory);
    }
    rooms.at_mut(place).clear(from);
    Ok(())
}
