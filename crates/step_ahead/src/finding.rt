ghost use Rattle.std.specs.Prelude.{◌≡◌, FitsSigned, IfSome, Option};
ghost use Rattle.std.specs.Int.{w128};
ghost use Rattle.c_types.specs.declared.kinds.IntKind.{IntKind as TheKind};
ghost use Rattle.c_tree.specs.ExpressionTrees.{ExpressionTree, PlaceTree, Typed, Read, Var, Cell};
ghost use Rattle.c_tree.specs.declared.tree.Home.TheVariants as H;
ghost use Rattle.step_ahead.specs.Marks.{has_cell as the_cell};
ghost use Rattle.step_ahead.specs.Taken.{IsComputed, IsFound, IsSlotNumber};

use crate::marks::{Computed, constant, sum};
use c_tree::Home;
use c_types::Memory;
use step_memory::{Cells, Owner, Rooms, Seen, Store};

/// A cell of a variable, and how many steps of the run it takes to find it.
#[derive(Clone, Copy)]
pub struct Found {
    pub owner: Owner,
    pub at: u32,
    pub steps: u32,
}

/// A variable, which is found in one step.
pub fn variable(store: &Store<'_>, home: &Home) -> Option<Found>
    ensures { IfSome result (λ r. IsFound store.now (Var home.now) r) }
{
    match store.reached(home) {
        Ok(owner) => Some(Found {
            owner,
            at: 0,
            steps: 1,
        }),
        Err(Memory) => None,
    }
}

/// Whether an array of so many cells has the cell of an index.
fn has_cell(at: i128, count: usize) -> bool
    ensures { result ≡ the_cell at count }
{
    at >= 0 && at < count as i128
}

/// The cell of an array at an index, if it has that cell.
pub fn cell(store: &Store<'_>, home: &Home, index: Computed) -> Option<Found>
    ensures { FitsSigned w128 index.number → (e : ExpressionTree) → IsComputed store.now e index → IfSome result (λ r. IsFound store.now (Cell home.now e) r) }
{
    let at = index.number;
    let Ok(owner) = store.reached(home) else {
        return None;
    };
    let Ok(count) = store.count(owner) else {
        return None;
    };
    if !has_cell(at, count) {
        return None;
    }
    if at < 0 || at > 4294967295 {
        return None;
    }
    match sum(index.steps, 2, 0) {
        Some(steps) => Some(Found {
            owner,
            at: at as u32,
            steps,
        }),
        None => None,
    }
}

/// The number in the cell that a place is.
pub fn number_in(store: &Store<'_>, found: Found) -> Option<Computed>
    ensures ok { (p : PlaceTree) (k : Option TheKind) → IsFound store.now p found → IfSome result (λ r. IsComputed store.now (Typed k (Read p)) r) }
    ensures fits { IfSome result (λ r. FitsSigned w128 r.number) }
{
    match store.number(found.owner, found.at) {
        Ok(number) => match sum(found.steps, 2, 0) {
            Some(steps) => Some(Computed { number, steps }),
            None => None,
        },
        Err(Memory) => None,
    }
}

/// The number of a slot that is none of the first ones, if that is a number.
#[cold]
#[inline(never)]
fn number_behind(slots: &Rooms<'_>, slot: usize) -> Option<Computed>
    ensures ok { IfSome result (λ r. IsSlotNumber slots.now slot r) }
    ensures fits { IfSome result (λ r. FitsSigned w128 r.number) }
{
    let Some(seen) = slots.get(slot) else {
        return None;
    };
    match seen {
        Seen::Made(room) => match &room.cells {
            Cells::Number(number) => constant(number, 3),
            _ => None,
        },
        Seen::Start(slot) => match slot.cells {
            None => constant(&0, 3),
            Some(_) => None,
        },
    }
}

/// The number of a slot of the newest call, if that is a number.
fn slot_number(store: &Store<'_>, slot: u32) -> Option<Computed>
    ensures ok { (k : Option TheKind) → IfSome result (λ r. IsComputed store.now (Typed k (Read (Var (H.Slot slot)))) r) }
    ensures fits { IfSome result (λ r. FitsSigned w128 r.number) }
{
    let Some(slots) = store.calls.get(store.newest as usize) else {
        return None;
    };
    match slots.first_room(slot as usize) {
        Some(room) => match &room.cells {
            Cells::Number(number) => constant(number, 3),
            _ => None,
        },
        None => number_behind(slots, slot as usize),
    }
}

/// The number of a variable.
pub fn value(store: &Store<'_>, home: &Home) -> Option<Computed>
    ensures ok { (k : Option TheKind) → IfSome result (λ r. IsComputed store.now (Typed k (Read (Var home.now))) r) }
    ensures fits { IfSome result (λ r. FitsSigned w128 r.number) }
{
    match home {
        Home::Slot(slot) => slot_number(store, *slot),
        Home::Global(_) => match variable(store, home) {
            Some(found) => number_in(store, found),
            None => None,
        },
    }
}
