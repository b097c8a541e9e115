//! The conversion of one function, with what it keeps.

ghost use Rattle.std.specs.Prelude.{◌≡◌, OnOk, true};
ghost use Rattle.guard_vars.specs.Conversion.{converted};
ghost use Rattle.move_order_laws.specs.Exchanged.{KeepsBehaviour, IsConvertible};

use c_tree::Function;
use c_types::Memory;
use guard_vars::convert;
use std::alloc::Global;

/// Converts a flat function (`guard_vars::convert`). Let its conversion be well made. Then each steady program
/// that has it is steady with the function converted, and behaves the same, whatever its other functions are.
pub fn convert_function(alloc: Global, function: &mut Function) -> Result<(), Memory>
    ensures value { OnOk result (function.new ≡ converted function.old) }
    ensures behaves { OnOk result (function.old.flat ≡ true → IsConvertible function.old → KeepsBehaviour function.old function.new) }
{
    convert(alloc, function)
}
