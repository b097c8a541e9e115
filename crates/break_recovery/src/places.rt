//! The next change of the outermost list, sought from a place on.

ghost use Rattle.std.specs.Prelude.{◌≡◌, ◌<◌, ◌⊎◌, ℕ, [], reverse, Some, None, IfOk};
ghost use Rattle.c_tree.specs.Trees.{trees_of};
ghost use Rattle.jump_meaning.specs.Code.{FunctionTree};
ghost use Rattle.tidy_loops.specs.Slots.{count_in, Tells};
ghost use Rattle.break_recovery.specs.Next.{put, next_at, changed_to};
ghost use Rattle.break_recovery.specs.Places.{behind, replaced, AreQuiet, IsFoundAt, GoesOn};
ghost use Rattle.break_recovery.specs.Ways.{IsWayAt, LeadsOn, IsAhead, IsBefore, KeepsWay};
ghost use Rattle.break_recovery.specs.Within.{AreApart};

use crate::boxes::change_at;
use crate::held::Holds;
use c_tree::Item;
use c_types::{Boxed, List, Memory};
use std::alloc::Global;

/// Where the search for the next change goes on: at one place that is in doubt, and from another on.
#[derive(Clone, Copy)]
pub struct Start {
    pub doubt: usize,
    pub from: usize,
}

/// Makes the change at this place, if one applies, and answers its slot. Else the list stays. No item on a sure
/// way is asked whether it allows a change itself.
fn change_place(
    alloc: Global,
    counts: &List<u64>,
    level: u32,
    list: &mut List<Boxed<Item>>,
    place: usize,
    way: &mut List<usize>,
    sure: &mut bool,
    holds: &mut Holds,
) -> Result<Option<u32>, Memory>
    requires { AreApart (count_in counts.now) (trees_of list.old) }
    ensures made { IfOk result (λ it. (f : FunctionTree) → Tells counts.now f → IsWayAt sure.old f level (reverse way.old) (behind place (trees_of list.old)) → changed_to it (trees_of list.new) ≡ put (λ c. replaced place c (trees_of list.old)) (next_at f level (behind place (trees_of list.old)))) }
    ensures kept { IfOk result (λ it. it ≡ None → list.new ≡ list.old) }
    ensures way { IfOk result (λ it. LeadsOn counts.now it (λ g. g) (λ f. IsWayAt sure.old f level (reverse way.old) (behind place (trees_of list.old))) (λ (g : ℕ) h. IsWayAt sure.new h level (reverse way.new) (behind place (trees_of list.new)))) }
{
    if place < list.len() {
        return change_at(alloc, counts, level, list, place, way, sure, holds);
    }
    Ok(None)
}

/// Makes the first change from this place on, if one applies, and answers its slot and its place. Else the list stays.
fn change_behind(
    alloc: Global,
    counts: &List<u64>,
    level: u32,
    list: &mut List<Boxed<Item>>,
    from: usize,
    way: &mut List<usize>,
    sure: &mut bool,
    holds: &mut Holds,
) -> Result<Option<(u32, usize)>, Memory>
    requires { AreApart (count_in counts.now) (trees_of list.old) }
    ensures made { IfOk result (λ it. (f : FunctionTree) → Tells counts.now f → AreQuiet f level from (trees_of list.old) → IsWayAt sure.old f level (reverse way.old) (behind from (trees_of list.old)) → IsFoundAt f level it (trees_of list.old) (trees_of list.new)) }
    ensures kept { IfOk result (λ it. it ≡ None → list.new ≡ list.old) }
    ensures way { IfOk result (λ it. LeadsOn counts.now it (λ c. c.0) (λ f. AreQuiet f level from (trees_of list.old) × IsWayAt sure.old f level (reverse way.old) (behind from (trees_of list.old))) (λ (c : ℕ × ℕ) h. IsWayAt sure.new h level (reverse way.new) (behind c.1 (trees_of list.new)))) }
{
    let mut i = from;
    while i < list.len() {
        let change = change_place(alloc, counts, level, list, i, way, sure, holds)?;
        match change {
            Some(slot) => return Ok(Some((slot, i))),
            None => {
                *way = List::new(alloc);
                i += 1;
            }
        }
    }
    Ok(None)
}

/// Makes the first change of the whole list, at the place in doubt first.
fn change_doubt(
    alloc: Global,
    counts: &List<u64>,
    level: u32,
    list: &mut List<Boxed<Item>>,
    start: Start,
    way: &mut List<usize>,
    sure: &mut bool,
    holds: &mut Holds,
) -> Result<Option<(u32, usize)>, Memory>
    requires place { start.doubt < start.from }
    requires within { AreApart (count_in counts.now) (trees_of list.old) }
    ensures made { IfOk result (λ it. (f : FunctionTree) → Tells counts.now f → IsAhead sure.old f level start.doubt start.from (reverse way.old) (trees_of list.old) → IsFoundAt f level it (trees_of list.old) (trees_of list.new)) }
    ensures kept { IfOk result (λ it. it ≡ None → list.new ≡ list.old) }
    ensures way { IfOk result (λ it. LeadsOn counts.now it (λ c. c.0) (λ f. IsAhead sure.old f level start.doubt start.from (reverse way.old) (trees_of list.old)) (λ (c : ℕ × ℕ) h. IsWayAt sure.new h level (reverse way.new) (behind c.1 (trees_of list.new)))) }
{
    let mut inside = List::new(alloc);
    let mut steady = true;
    let change = change_place(
        alloc,
        counts,
        level,
        list,
        start.doubt,
        &mut inside,
        &mut steady,
        holds,
    )?;
    match change {
        Some(slot) => {
            *way = inside;
            *sure = steady;
            Ok(Some((slot, start.doubt)))
        }
        None => change_behind(alloc, counts, level, list, start.from, way, sure, holds),
    }
}

/// Makes the first change of the whole list, where none applies before the start but at the place in doubt.
pub fn change_from(
    alloc: Global,
    counts: &List<u64>,
    level: u32,
    list: &mut List<Boxed<Item>>,
    start: Start,
    way: &mut List<usize>,
    sure: &mut bool,
    holds: &mut Holds,
) -> Result<Option<(u32, usize)>, Memory>
    requires { AreApart (count_in counts.now) (trees_of list.old) }
    ensures made { IfOk result (λ it. (f : FunctionTree) → Tells counts.now f → IsAhead sure.old f level start.doubt start.from (reverse way.old) (trees_of list.old) → IsFoundAt f level it (trees_of list.old) (trees_of list.new)) }
    ensures kept { IfOk result (λ it. it ≡ None → list.new ≡ list.old) }
    ensures way { IfOk result (λ it. LeadsOn counts.now it (λ c. c.0) (λ f. IsAhead sure.old f level start.doubt start.from (reverse way.old) (trees_of list.old)) (λ (c : ℕ × ℕ) h. IsWayAt sure.new h level (reverse way.new) (behind c.1 (trees_of list.new)))) }
{
    if start.doubt < start.from {
        return change_doubt(alloc, counts, level, list, start, way, sure, holds);
    }
    change_behind(alloc, counts, level, list, start.from, way, sure, holds)
}

/// Where the search goes on behind a change at this place, with the declaration gone from that one.
pub fn behind_change(place: usize, gone: Option<usize>) -> Start
    ensures goes_on { GoesOn place gone result.doubt result.from }
    ensures way { KeepsWay place gone result.from }
{
    match gone {
        None => Start {
            doubt: place,
            from: place,
        },
        Some(at) => behind_removal(place, at),
    }
}

fn behind_removal(place: usize, at: usize) -> Start
    ensures goes_on { GoesOn place (Some at) result.doubt result.from }
    ensures way { KeepsWay place (Some at) result.from }
{
    if place < at {
        return Start {
            doubt: place,
            from: place,
        };
    }
    Start {
        doubt: at.saturating_sub(1),
        from: place.saturating_sub(1),
    }
}

/// Gives the way up where the declaration went from this place, or from behind it.
pub fn keep_way(alloc: Global, place: usize, gone: Option<usize>, way: &mut List<usize>)
    ensures { (way.new ≡ []) ⊎ (IsBefore gone place × (way.new ≡ way.old)) }
{
    match gone {
        Some(at) => {
            if at >= place {
                *way = List::new(alloc);
            }
        }
        None => {}
    }
}
