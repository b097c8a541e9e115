ghost use Rattle.std.specs.Prelude.{◌≡◌, ◌<◌, ◌≤◌, IfOk, OnOk, IsSome, Some, None, take};
ghost use Rattle.c_tree.specs.Trees.{trees_of};
ghost use Rattle.c_tree.specs.WellMade.{IsWellMade};
ghost use Rattle.label_offsets.specs.Leaps.{leaps_from, first};
ghost use Rattle.label_offsets.specs.Marks.{label_at as the_label_at};
ghost use Rattle.label_offsets.specs.Standing.{outermost as the_outermost};
ghost use Rattle.move_order_laws.specs.Leaps.{leaps};
ghost use Rattle.move_order_laws.specs.Derivations.{Derives};
ghost use Rattle.move_bodies.specs.Moving.{IsEliminated};

use crate::going_on::go_on;
use crate::leaving::leave;
use crate::one_move::{Moved, move_once};
use c_tree::{Item, Path};
use c_types::{List, Memory};
use label_offsets::{first_leap_from, label_at, outermost, place_of};
use move_order_laws::Kept;
use std::alloc::Global;

/// Moves the Leap at the path until it is joined, and adds its moves to those before: out of lists that
/// don't lead to its Land, then by the rule that applies, then into those that do. Answers how many items
/// at the front of the body stand before both the Leap and the Land: none of them is touched.
fn eliminate(
    alloc: Global,
    body: &mut List<Item>,
    at: Path,
    moves: &mut List<Kept>,
) -> Result<u32, Memory>
    requires well_made { IsWellMade (trees_of body.old) }
    requires leap { IsSome (the_label_at body.old at) }
    ensures eliminated { OnOk result (IsEliminated at body.old body.new moves.old moves.new) }
    ensures front { IfOk result (λ n. (n ≤ the_outermost at) × (take n body.new ≡ take n body.old)) }
    ensures well_made { OnOk result (IsWellMade (trees_of body.new)) }
{
    let Some(label) = label_at(body, &at) else {
        unreachable!();
    };
    let near = outermost(&at);
    let land = place_of(alloc, body, near, label)?;
    let front = near.min(outermost(&land));
    let path = leave(alloc, body, at, label, &land, moves)?;
    let Moved { kind, to } = move_once(alloc, body, &path, label)?;
    moves.push(Kept { kind, label, path })?;
    let mut next = to;
    while let Some(path) = next {
        let Moved { kind, to } = go_on(alloc, body, &path, label)?;
        moves.push(Kept { kind, label, path })?;
        next = to;
    }
    Ok(front)
}

/// All moves of a well made body, in place: its first Leap in text order is moved until it is joined,
/// then the next, until none is left. Answers the moves. After `Memory` some of them are made.
pub fn derive(alloc: Global, body: &mut List<Item>) -> Result<List<Kept>, Memory>
    requires { IsWellMade (trees_of body.old) }
    ensures derives { IfOk result (λ ms. Derives body.old ms body.new) }
    ensures well_made { OnOk result (IsWellMade (trees_of body.new)) }
{
    let mut moves = List::new(alloc);
    let mut front = 0;
    while let Some(at) = first_leap_from(alloc, body, front)? {
        front = eliminate(alloc, body, at, &mut moves)?;
    }
    Ok(moves)
}
