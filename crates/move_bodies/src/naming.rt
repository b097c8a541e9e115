ghost use Rattle.std.specs.Prelude.{◌≡◌, IfOk};
ghost use Rattle.move_order_laws.specs.Naming.{all_named};

use c_types::{List, Memory, Name};
use move_order_laws::Kept;
use report_moves::{Move, named_move};
use std::alloc::Global;

/// The moves of a function's body with the names of the function and of its labels, for the report.
/// The paths are moved, not copied.
pub fn name_moves(
    alloc: Global,
    function: &Name,
    labels: &List<Name>,
    moves: List<Kept>,
) -> Result<List<Move>, Memory>
    ensures { IfOk result (λ ms. ms ≡ all_named function.now labels.now moves) }
{
    let mut out = List::new(alloc);
    for kept in moves.into_vec() {
        let Kept { kind, label, path } = kept;
        let named = named_move(alloc, function, labels, kind, Some(label), path)?;
        out.push(named)?;
    }
    Ok(out)
}
