//! The derivation of all functions of a program.

ghost use Rattle.std.specs.Prelude.{IfOk, All};
ghost use Rattle.move_order_laws.specs.Moved.{IsTopMovable, MovedTop, MovedTops};

use crate::one_function::{append, move_function};
use c_tree::{Program, Top};
use c_types::{List, Memory};
use report_moves::Move;
use std::alloc::Global;

fn move_top(alloc: Global, top: &mut Top) -> Result<List<Move>, Memory>
    requires { IsTopMovable top.old }
    ensures { IfOk result (λ ms. MovedTop top.old top.new ms) }
{
    match top {
        Top::Function(function) => {
            if function.flat {
                move_function(alloc, function)
            } else {
                Ok(List::new(alloc))
            }
        }
        _ => Ok(List::new(alloc)),
    }
}

fn move_tops(alloc: Global, tops: &mut List<Top>) -> Result<List<Move>, Memory>
    requires { All IsTopMovable tops.old }
    ensures { IfOk result (λ ms. MovedTops tops.old tops.new ms) }
{
    let mut moves = List::new(alloc);
    let mut i = 0;
    while i < tops.len() {
        let more = move_top(alloc, tops.at_mut(i))?;
        append(&mut moves, more)?;
        i += 1;
    }
    Ok(moves)
}

/// Converts each flat function of a program in file order, moves its Leaps until none is left, and
/// simplifies its body until no simplification applies. Answers all moves in this order, with their names.
/// Other functions stay. After `Memory` the program stands somewhere on this way.
pub fn move_program(alloc: Global, program: &mut Program) -> Result<List<Move>, Memory>
    requires { All IsTopMovable program.old.tops }
    ensures { IfOk result (λ ms. MovedTops program.old.tops program.new.tops ms) }
{
    move_tops(alloc, &mut program.tops)
}
