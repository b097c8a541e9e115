//! The names of a function and of its labels in a move.

ghost use Rattle.std.specs.Prelude.{◌≡◌, ◌↔◌, IfOk, IsTrue, slice_get};
ghost use Rattle.std.specs.Option.{option_and_then};

use crate::moves::{Move, MoveKind};
use c_tree::Path;
use c_types::{List, Memory, Name};
use std::alloc::Global;

/// The name of the label with this number, where there is one.
fn label_name(
    alloc: Global,
    labels: &List<Name>,
    label: Option<u32>,
) -> Result<Option<Name>, Memory>
    ensures { IfOk result (λ n. n ≡ option_and_then (slice_get labels.now) label) }
{
    let Some(label) = label else {
        return Ok(None);
    };
    match labels.get(label as usize) {
        Some(name) => Ok(Some(name.copy(alloc)?)),
        None => Ok(None),
    }
}

/// A move of a function, which has these labels. The label of the move is given by its number, if it has one. Want of
/// memory is the only failure.
pub fn named_move(
    alloc: Global,
    function: &Name,
    labels: &List<Name>,
    kind: MoveKind,
    label: Option<u32>,
    path: Path,
) -> Result<Move, Memory>
    ensures { IfOk result (λ m. m ≡ record { function = function.now; kind = kind; label = option_and_then (slice_get labels.now) label; path = path }) }
{
    let function = function.copy(alloc)?;
    let label = label_name(alloc, labels, label)?;
    Ok(Move {
        function,
        kind,
        label,
        path,
    })
}

/// Whether the label with this number, if there is one, has this name, if there is one.
pub fn has_name(labels: &List<Name>, label: Option<u32>, name: &Option<Name>) -> bool
    ensures { IsTrue result ↔ option_and_then (slice_get labels.now) label ≡ name.now }
{
    let found = match label {
        Some(label) => labels.get(label as usize),
        None => None,
    };
    match (found, name) {
        (Some(found), Some(name)) => found == name,
        (None, None) => true,
        _ => false,
    }
}
