ghost use Rattle.std.specs.Prelude.{◌≡◌, [], map, Some, None, FitsSigned, IfOk, IfSome, OnOk, OnErr};
ghost use Rattle.std.specs.Int.{w128};
ghost use Rattle.c_tree.specs.declared.tree.Home.{Home as TheHome};
ghost use Rattle.jump_meaning.specs.Code.{entry_or};
ghost use Rattle.step_memory.specs.Rooms.{HasSlots};
ghost use Rattle.step_memory.specs.Seen.{room_seen};
ghost use Rattle.step_memory.specs.declared.store.Store.{Store as TheStore};
ghost use Rattle.step_memory.specs.Stores.{room_at, Names, Reaches, HasKind, HasCount, HasNumber, HasNoCell, HasArray, StoresIn, ClearsIn, EntersCall, LeavesCall};

use crate::room::{Cells, Room, clear_in, set_in};
use crate::rooms::Rooms;
use crate::seen::Seen;
use crate::value::Owner;
use c_tree::Home;
use c_types::{IntKind, List, Memory, Name};
use std::collections::BTreeMap;

/// The variables: those of the file, by the table of their names, and those of each call.
#[derive(Drop)]
pub struct Store<'a> {
    pub names: Vec<&'a Name>,
    /// Where each of these names stands among them.
    pub places: BTreeMap<&'a str, u32>,
    pub file: List<Room>,
    /// The slots of each call, whose numbers begin at 1. What an ended call held stays until the
    /// next call of its number.
    pub calls: List<Rooms<'a>>,
    /// The number of the newest call.
    pub newest: u32,
}

/// The name at a place of the table, if it is this one.
fn is_at(names: &[&Name], at: u32, name: &Name) -> Result<u32, Memory>
    ensures { IfOk result (λ i. entry_or [] (map (λ n. n.now) names.now) i ≡ name.now) }
{
    let place = at as usize;
    if place >= names.len() {
        return Err(Memory);
    }
    let other = names[place];
    if other.as_str() == name.as_str() {
        return Ok(at);
    }
    Err(Memory)
}

/// The place of a name in the table.
fn place_of(names: &[&Name], places: &BTreeMap<&str, u32>, name: &Name) -> Result<u32, Memory>
    ensures { IfOk result (λ i. entry_or [] (map (λ n. n.now) names.now) i ≡ name.now) }
{
    match places.get(name.as_str()) {
        Some(at) => is_at(names, *at, name),
        None => Err(Memory),
    }
}

/// The variable whose cells a room has.
fn holder(room: &Room, owner: Owner) -> Owner
    ensures { (s : TheStore) (h : TheHome) → Names s h owner → room_at s owner ≡ Some room.now → Reaches s h result }
{
    match room.cells {
        Cells::Lent(other) => other,
        _ => owner,
    }
}

impl<'a> Store<'a> {
    /// The room of a variable of the file, or of one of the first slots of a call.
    fn first_room(&self, owner: Owner) -> Option<&Room>
        ensures { IfSome result (λ r. room_at self.now owner ≡ Some r.now) }
    {
        match owner {
            Owner::File(at) => self.file.get(at as usize),
            Owner::Call(call, at) => match self.calls.get(call as usize) {
                Some(slots) => slots.first_room(at as usize),
                None => None,
            },
        }
    }

    /// What is seen of a variable. One that isn't there is refused.
    pub fn room(&self, owner: Owner) -> Result<Seen<'_>, Memory>
        ensures ok { IfOk result (λ r. room_at self.now owner ≡ Some (room_seen r)) }
        ensures err { OnErr result (room_at self.now owner ≡ None) }
    {
        let seen = match owner {
            Owner::File(at) => match self.file.get(at as usize) {
                Some(room) => Some(Seen::Made(room)),
                None => None,
            },
            Owner::Call(call, at) => match self.calls.get(call as usize) {
                Some(slots) => slots.get(at as usize),
                None => None,
            },
        };
        match seen {
            Some(seen) => Ok(seen),
            None => Err(Memory),
        }
    }

    /// The variable that a name stands for.
    fn named(&self, home: &Home) -> Result<Owner, Memory>
        ensures { IfOk result (λ o. Names self.now home.now o) }
    {
        match home {
            Home::Global(name) => Ok(Owner::File(place_of(
                self.names.as_slice(),
                &self.places,
                name,
            )?)),
            Home::Slot(at) => Ok(Owner::Call(self.newest, *at)),
        }
    }

    /// The variable that a name reaches: for an array parameter the array lent to it. A name of no
    /// variable is refused.
    pub fn reached(&self, home: &Home) -> Result<Owner, Memory>
        ensures { IfOk result (λ o. Reaches self.now home.now o) }
    {
        let owner = self.named(home)?;
        match self.first_room(owner) {
            Some(room) => Ok(holder(room, owner)),
            None => self.holder_behind(owner),
        }
    }

    /// The variable whose cells one has that is none of the first slots of a call.
    #[cold]
    #[inline(never)]
    fn holder_behind(&self, owner: Owner) -> Result<Owner, Memory>
        ensures { IfOk result (λ o. (h : TheHome) → Names self.now h owner → Reaches self.now h o) }
    {
        match self.room(owner)? {
            Seen::Made(room) => Ok(holder(room, owner)),
            Seen::Start(_) => Ok(owner),
        }
    }

    /// The kind of a variable's cells. A variable that isn't there is refused.
    pub fn kind(&self, owner: Owner) -> Result<IntKind, Memory>
        ensures ok { IfOk result (λ k. HasKind self.now owner k) }
        ensures err { OnErr result (room_at self.now owner ≡ None) }
    {
        match self.first_room(owner) {
            Some(room) => Ok(room.kind()),
            None => self.kind_behind(owner),
        }
    }

    /// `kind` of a variable that is none of the first slots of a call.
    #[cold]
    #[inline(never)]
    fn kind_behind(&self, owner: Owner) -> Result<IntKind, Memory>
        ensures ok { IfOk result (λ k. HasKind self.now owner k) }
        ensures err { OnErr result (room_at self.now owner ≡ None) }
    {
        Ok(self.room(owner)?.kind())
    }

    /// The number of a variable's cells. A variable that isn't there is refused.
    pub fn count(&self, owner: Owner) -> Result<usize, Memory>
        ensures ok { IfOk result (λ n. HasCount self.now owner n) }
        ensures err { OnErr result (room_at self.now owner ≡ None) }
    {
        match self.first_room(owner) {
            Some(room) => Ok(room.count()),
            None => self.count_behind(owner),
        }
    }

    /// `count` of a variable that is none of the first slots of a call.
    #[cold]
    #[inline(never)]
    fn count_behind(&self, owner: Owner) -> Result<usize, Memory>
        ensures ok { IfOk result (λ n. HasCount self.now owner n) }
        ensures err { OnErr result (room_at self.now owner ≡ None) }
    {
        Ok(self.room(owner)?.count())
    }

    /// The number in a cell of a variable. A cell that isn't there is refused.
    pub fn number(&self, owner: Owner, at: u32) -> Result<i128, Memory>
        ensures ok { IfOk result (λ z. HasNumber self.now owner at z) }
        ensures fits { IfOk result (λ z. FitsSigned w128 z) }
        ensures err { OnErr result (HasNoCell self.now owner at) }
    {
        match self.first_room(owner) {
            Some(room) => room.number(at),
            None => self.number_behind(owner, at),
        }
    }

    /// `number` of a variable that is none of the first slots of a call.
    #[cold]
    #[inline(never)]
    fn number_behind(&self, owner: Owner, at: u32) -> Result<i128, Memory>
        ensures ok { IfOk result (λ z. HasNumber self.now owner at z) }
        ensures fits { IfOk result (λ z. FitsSigned w128 z) }
        ensures err { OnErr result (HasNoCell self.now owner at) }
    {
        self.room(owner)?.number(at)
    }

    /// Whether a slot of the newest call is an array. A slot that isn't there is refused.
    pub fn is_array(&self, slot: u32) -> Result<bool, Memory>
        ensures ok { IfOk result (λ b. HasArray self.now slot b) }
        ensures err { OnErr result (room_at self.now (Owner.Call self.now.newest slot) ≡ None) }
    {
        Ok(self.room(Owner::Call(self.newest, slot))?.is_array())
    }

    /// Stores the number, converted, in a cell of a variable. A cell that isn't there is refused,
    /// and nothing changes then.
    pub fn set(&mut self, owner: Owner, at: u32, value: i128) -> Result<(), Memory>
        ensures names { self.new.names ≡ self.old.names }
        ensures ok { OnOk result (StoresIn owner at value self.old self.new) }
        ensures err { OnErr result (self.new ≡ self.old) }
    {
        match owner {
            Owner::File(place) => set_in(&mut self.file, place as usize, at, value),
            Owner::Call(call, slot) => {
                let call = call as usize;
                if call >= self.calls.len() {
                    return Err(Memory);
                }
                self.calls.at_mut(call).set(slot as usize, at, value)
            }
        }
    }

    /// The cells of a slot of the newest call from one on become 0. A slot that isn't there is
    /// refused, and nothing changes then.
    pub fn clear(&mut self, slot: u32, from: u32) -> Result<(), Memory>
        ensures names { self.new.names ≡ self.old.names }
        ensures ok { OnOk result (ClearsIn (Home.Slot slot) from self.old self.new) }
        ensures err { OnErr result (self.new ≡ self.old) }
    {
        let owner = self.reached(&Home::Slot(slot))?;
        match owner {
            Owner::File(place) => clear_in(&mut self.file, place as usize, from),
            Owner::Call(call, slot) => {
                let call = call as usize;
                if call >= self.calls.len() {
                    return Err(Memory);
                }
                self.calls.at_mut(call).clear(slot as usize, from)
            }
        }
    }

    /// One more call, with these slots. Nothing changes where memory is refused.
    pub fn enter(&mut self, slots: Rooms<'a>) -> Result<(), Memory>
        ensures names { self.new.names ≡ self.old.names }
        ensures ok { OnOk result (EntersCall slots.entry self.old self.new) }
        ensures err { OnErr result (self.new ≡ self.old) }
    {
        if self.newest >= 4294967295 {
            return Err(Memory);
        }
        let call = self.newest + 1;
        put_slots(&mut self.calls, call as usize, slots)?;
        self.newest = call;
        Ok(())
    }

    /// The newest call is over.
    pub fn leave(&mut self)
        ensures names { self.new.names ≡ self.old.names }
        ensures left { LeavesCall self.old self.new }
    {
        self.newest = self.newest.saturating_sub(1);
    }
}

/// Puts the slots of a call in the place of those that an ended call of its number left, or behind
/// the last. Nothing changes where memory is refused.
fn put_slots<'a>(calls: &mut List<Rooms<'a>>, call: usize, slots: Rooms<'a>) -> Result<(), Memory>
    ensures ok { OnOk result (HasSlots call slots.entry calls.old calls.new) }
    ensures err { OnErr result (calls.new ≡ calls.old) }
{
    if call < calls.len() {
        calls.set(call, slots);
        return Ok(());
    }
    if call > calls.len() {
        return Err(Memory);
    }
    calls.push(slots)
}
