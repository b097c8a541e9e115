ghost use Rattle.std.specs.Prelude.{◌≡◌, ◌≢◌, ◌++◌, ◌+◌, ◌*◌, ◌<◌, ◌≤◌, ℕ, pos, Bool, true, false, [], map, replicate, length, take, drop, get_or, slice_get, Some, None, IfOk, IfSome, OnOk, OnErr, MatchOption};
ghost use Rattle.jump_meaning.specs.World.{with_number, with_zeros};
ghost use Rattle.step_memory.specs.Rooms.{BecomesAt};
ghost use Rattle.step_memory.specs.Changes.{changed};
ghost use Rattle.step_memory.specs.Pages.{room_at_start, shown, ArePages};
ghost use Rattle.step_memory.specs.Seen.{room_seen};

use crate::room::{Cells, Room, clear_in, set_in};
use crate::seen::Seen;
use c_tree::Slot;
use c_types::{List, Memory};
use std::alloc::Global;
use std::marker::Model;

/// How many rooms of a call are made at its start; those of all parameters are, too.
pub const FIRST: usize = 64;

/// How many of the others are made together.
const PAGE: usize = 64;

/// The rooms of a call. Those of its first slots are made at its start, and each other one when it,
/// or one near to it, is first written to. Contracts see all rooms, where those that aren't made yet
/// are as at the start of the call.
#[derive(Drop)]
pub struct Rooms<'a> {
    alloc: Global,
    first: List<Room>,
    /// The slots behind the first ones.
    slots: &'a [Slot],
    /// Their rooms, `PAGE` to a page. A page that isn't made is the empty list, or is missing at the
    /// end.
    pages: List<List<Room>>,
}

impl<'a> Model for Rooms<'a> {
    ghost use Rattle.std.specs.Prelude.{List};
    ghost use Rattle.std.specs.Coded.{coded_list, codes};
    ghost use Rattle.step_memory.specs.declared.room.Room.{Room};
    ghost use Rattle.step_memory.specs.contracts.room.Room as room;

    ghost Value = { List Room };

    ghost coded = { coded_list (Prim.hlevel (codes, room.the_row.coded)) };

    ghost use Rattle.std.specs.Prelude.{◌++◌};
    ghost use Rattle.step_memory.specs.Pages.{shown, ArePages};

    ghost view = { λ it. it.first ++ shown it.pages it.slots.now };

    ghost invariant = { λ it. ArePages it.pages it.slots.now };
}

/// So many numbers, all 0.
fn zeros(alloc: Global, count: u32) -> Result<List<i128>, Memory>
    ensures { IfOk result (λ it. it ≡ replicate count (pos 0)) }
{
    let mut cells = List::new(alloc);
    for _at in 0..count {
        cells.push(0i128)?;
    }
    Ok(cells)
}

/// The room of a slot at the start of a call: 0 everywhere.
fn zero_room(alloc: Global, slot: &Slot) -> Result<Room, Memory>
    ensures { IfOk result (λ it. it ≡ room_at_start slot.now) }
{
    let cells = match slot.cells {
        None => Cells::Number(0),
        Some(count) => Cells::Array(zeros(alloc, count)?),
    };
    Ok(Room {
        kind: slot.kind,
        cells,
    })
}

/// Adds the rooms of these slots at the start of a call.
fn add_zero_rooms(alloc: Global, rooms: &mut List<Room>, slots: &[Slot]) -> Result<(), Memory>
    ensures { OnOk result (rooms.new ≡ rooms.old ++ map room_at_start slots.now) }
{
    for slot in slots {
        rooms.push(zero_room(alloc, slot)?)?;
    }
    Ok(())
}

/// The rooms of these slots at the start of a call.
fn zero_rooms(alloc: Global, slots: &[Slot]) -> Result<List<Room>, Memory>
    ensures { IfOk result (λ it. it ≡ map room_at_start slots.now) }
{
    let mut rooms = List::from_vec(Vec::with_capacity(alloc, slots.len())?);
    add_zero_rooms(alloc, &mut rooms, slots)?;
    Ok(rooms)
}

/// How many slots get their rooms at the start of a call, behind so many parameters.
fn more_at_start(parameters: usize, slots: usize) -> usize
    ensures { result ≤ slots }
{
    if parameters >= FIRST {
        return 0;
    }
    let count = FIRST - parameters;
    if count < slots { count } else { slots }
}

/// The slots of a page.
fn part(slots: &[Slot], page: usize) -> &[Slot]
    requires { page * 64 ≤ length slots.now }
    ensures { result.now ≡ take 64 (drop (page * 64) slots.now) }
{
    let from = page * PAGE;
    if slots.len() - from <= PAGE {
        return &slots[from..];
    }
    &slots[from..from + PAGE]
}

/// Whether a page is made.
fn is_made(pages: &List<List<Room>>, page: usize) -> bool
    ensures made { result ≡ true → (page < length pages.now) × (get_or pages.now page [] ≢ []) }
    ensures unmade { result ≡ false → get_or pages.now page [] ≡ [] }
{
    match pages.get(page) {
        Some(rooms) => !rooms.is_empty(),
        None => false,
    }
}

/// Adds pages that aren't made until there are so many.
fn add_pages(
    alloc: Global,
    pages: &mut List<List<Room>>,
    slots: &[Slot],
    count: usize,
) -> Result<(), Memory>
    requires { ArePages pages.old slots.now }
    ensures pages { ArePages pages.new slots.now }
    ensures rooms { shown pages.new slots.now ≡ shown pages.old slots.now }
    ensures each { (q : ℕ) → get_or pages.new q [] ≡ get_or pages.old q [] }
    ensures count { OnOk result (count ≤ length pages.new) }
{
    for _at in pages.len()..count {
        pages.push(List::new(alloc))?;
    }
    Ok(())
}

/// Makes a page, unless it is made. The rooms stay as they are.
fn make_page(
    alloc: Global,
    pages: &mut List<List<Room>>,
    slots: &[Slot],
    page: usize,
) -> Result<(), Memory>
    requires pages { ArePages pages.old slots.now }
    requires within { page * 64 < length slots.now }
    ensures pages { ArePages pages.new slots.now }
    ensures rooms { shown pages.new slots.now ≡ shown pages.old slots.now }
    ensures made { OnOk result ((page < length pages.new) × (get_or pages.new page [] ≢ [])) }
{
    if is_made(pages, page) {
        return Ok(());
    }
    let rooms = zero_rooms(alloc, part(slots, page))?;
    add_pages(alloc, pages, slots, page + 1)?;
    pages.set(page, rooms);
    Ok(())
}

/// What is seen of the room of a slot behind the first ones.
fn seen_in_pages<'r>(pages: &'r List<List<Room>>, slots: &'r [Slot], at: usize) -> Option<Seen<'r>>
    requires { ArePages pages.now slots.now }
    ensures { MatchOption result (slice_get (shown pages.now slots.now) at ≡ None) (λ it. slice_get (shown pages.now slots.now) at ≡ Some (room_seen it)) }
{
    if at >= slots.len() {
        return None;
    }
    if let Some(rooms) = pages.get(at / PAGE) {
        if let Some(room) = rooms.get(at % PAGE) {
            return Some(Seen::Made(room));
        }
    }
    Some(Seen::Start(&slots[at]))
}

/// A change of a room.
#[derive(Clone, Copy)]
enum Change {
    /// A number is stored, converted, in a cell.
    Set(u32, i128),
    /// The cells from one on become 0.
    Clear(u32),
}

/// Changes a room.
fn change_in(rooms: &mut List<Room>, place: usize, change: Change) -> Result<(), Memory>
    ensures length { length rooms.new ≡ length rooms.old }
    ensures ok { OnOk result (BecomesAt (changed change) place rooms.old rooms.new) }
    ensures err { OnErr result (rooms.new ≡ rooms.old) }
{
    match change {
        Change::Set(at, value) => set_in(rooms, place, at, value),
        Change::Clear(from) => clear_in(rooms, place, from),
    }
}

/// Changes a room behind the first ones, whose page is made before.
fn change_in_pages(
    alloc: Global,
    pages: &mut List<List<Room>>,
    slots: &[Slot],
    place: usize,
    change: Change,
) -> Result<(), Memory>
    requires { ArePages pages.old slots.now }
    ensures pages { ArePages pages.new slots.now }
    ensures ok { OnOk result (BecomesAt (changed change) place (shown pages.old slots.now) (shown pages.new slots.now)) }
    ensures err { OnErr result (shown pages.new slots.now ≡ shown pages.old slots.now) }
{
    if place >= slots.len() {
        return Err(Memory);
    }
    let page = place / PAGE;
    make_page(alloc, pages, slots, page)?;
    change_in(pages.at_mut(page), place % PAGE, change)
}

impl<'a> Rooms<'a> {
    /// The rooms at the start of a call: those of its parameters, and behind them those of these
    /// slots. `Err` where memory is refused.
    pub fn new(
        alloc: Global,
        parameters: List<Room>,
        slots: &'a [Slot],
    ) -> Result<Rooms<'a>, Memory>
        ensures { IfOk result (λ it. it ≡ parameters ++ map room_at_start slots.now) }
    {
        let mut first = parameters;
        let count = more_at_start(first.len(), slots.len());
        add_zero_rooms(alloc, &mut first, &slots[..count])?;
        Ok(Rooms {
            alloc,
            first,
            slots: &slots[count..],
            pages: List::new(alloc),
        })
    }

    /// A room of the first slots, which each call makes at its start, or `None` behind them.
    pub fn first_room(&self, at: usize) -> Option<&Room>
        ensures { IfSome result (λ it. slice_get self.now at ≡ Some it.now) }
    {
        self.first.get(at)
    }

    /// What is seen of a room, or `None` past the last. `first_room` is faster.
    #[cold]
    #[inline(never)]
    pub fn get(&self, at: usize) -> Option<Seen<'_>>
        ensures { MatchOption result (slice_get self.now at ≡ None) (λ it. slice_get self.now at ≡ Some (room_seen it)) }
    {
        match self.first.get(at) {
            Some(room) => Some(Seen::Made(room)),
            None => seen_in_pages(&self.pages, self.slots, at - self.first.len()),
        }
    }

    /// Stores the number, converted, in a cell of a room. A cell that isn't there is refused, and
    /// nothing changes then, nor where memory is refused.
    pub fn set(&mut self, place: usize, at: u32, value: i128) -> Result<(), Memory>
        ensures ok { OnOk result (BecomesAt (with_number at value) place self.old self.new) }
        ensures err { OnErr result (self.new ≡ self.old) }
    {
        if place < self.first.len() {
            return set_in(&mut self.first, place, at, value);
        }
        self.set_behind(place, at, value)
    }

    /// The cells of a room from one on become 0. A room that isn't there is refused, and nothing
    /// changes then, nor where memory is refused.
    pub fn clear(&mut self, place: usize, from: u32) -> Result<(), Memory>
        ensures ok { OnOk result (BecomesAt (with_zeros from) place self.old self.new) }
        ensures err { OnErr result (self.new ≡ self.old) }
    {
        if place < self.first.len() {
            return clear_in(&mut self.first, place, from);
        }
        self.clear_behind(place, from)
    }

    /// `set` of a room behind the first ones.
    #[cold]
    #[inline(never)]
    fn set_behind(&mut self, place: usize, at: u32, value: i128) -> Result<(), Memory>
        ensures ok { OnOk result (BecomesAt (with_number at value) place self.old self.new) }
        ensures err { OnErr result (self.new ≡ self.old) }
    {
        self.change_behind(place, Change::Set(at, value))
    }

    /// `clear` of a room behind the first ones.
    #[cold]
    #[inline(never)]
    fn clear_behind(&mut self, place: usize, from: u32) -> Result<(), Memory>
        ensures ok { OnOk result (BecomesAt (with_zeros from) place self.old self.new) }
        ensures err { OnErr result (self.new ≡ self.old) }
    {
        self.change_behind(place, Change::Clear(from))
    }

    /// Changes a room behind the first ones.
    fn change_behind(&mut self, place: usize, change: Change) -> Result<(), Memory>
        ensures ok { OnOk result (BecomesAt (changed change) place self.old self.new) }
        ensures err { OnErr result (self.new ≡ self.old) }
    {
        let count = self.first.len();
        if place < count {
            return Err(Memory);
        }
        change_in_pages(
            self.alloc,
            &mut self.pages,
            self.slots,
            place - count,
            change,
        )
    }
}
