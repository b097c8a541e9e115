//! Simplifications with the names of their function and labels, for the report.

ghost use Rattle.std.specs.Prelude.{◌≡◌, IfOk};
ghost use Rattle.guard_simplify.specs.Naming.{choices_named};

use c_types::{List, Memory, Name};
use guard_simplify::Choice;
use report_moves::{Move, named_move};
use std::alloc::Global;

/// The simplifications of a function's body with the names of the function and of its labels, for the
/// report. The paths are moved, not copied.
pub fn name_choices(
    alloc: Global,
    function: &Name,
    labels: &List<Name>,
    choices: List<Choice>,
) -> Result<List<Move>, Memory>
    ensures { IfOk result (λ ms. ms ≡ choices_named function.now labels.now choices) }
{
    let mut out = List::new(alloc);
    for choice in choices.into_vec() {
        let Choice { kind, label, path } = choice;
        let named = named_move(alloc, function, labels, kind, label, path)?;
        out.push(named)?;
    }
    Ok(out)
}
