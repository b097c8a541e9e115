//! The derivation of one function.

ghost use Rattle.std.specs.Prelude.{◌≡◌, ◌++◌, IfOk, OnOk};
ghost use Rattle.move_order_laws.specs.Moved.{IsMovable, IsMoved};
ghost use Rattle.move_programs.specs.Derived.{IsReady, IsDerived};

use crate::converting::convert_function;
use c_tree::Function;
use c_types::{List, Memory};
use move_bodies::{derive, name_moves, simplify};
use move_order_laws::Kept;
use report_moves::Move;
use std::alloc::Global;
use std::mem;

/// Moves the Leaps of a converted function until none is left.
fn derive_function(alloc: Global, function: &mut Function) -> Result<List<Kept>, Memory>
    requires { IsReady function.old }
    ensures { IfOk result (λ ms. IsDerived function.old function.new ms) }
{
    let Some(body) = mem::replace(&mut function.body, None) else {
        unreachable!();
    };
    let mut body = body;
    let done = derive(alloc, &mut body);
    drop(mem::replace(&mut function.body, Some(body)));
    done
}

/// Puts further moves behind those before.
pub fn append(moves: &mut List<Move>, more: List<Move>) -> Result<(), Memory>
    ensures { OnOk result (moves.new ≡ moves.old ++ more) }
{
    for one in more.into_vec() {
        moves.push(one)?;
    }
    Ok(())
}

/// Converts a flat function, moves its Leaps until none is left, and simplifies its body until no
/// simplification applies. Answers the moves in order, with their names. After `Memory` the function stands
/// somewhere on this way.
pub fn move_function(alloc: Global, function: &mut Function) -> Result<List<Move>, Memory>
    requires { IsMovable function.old }
    ensures { IfOk result (λ ms. IsMoved function.old function.new ms) }
{
    convert_function(alloc, function)?;
    let kept = derive_function(alloc, function)?;
    let mut moves = name_moves(alloc, &function.name, &function.labels, kept)?;
    let more = simplify(alloc, function)?;
    append(&mut moves, more)?;
    Ok(moves)
}
