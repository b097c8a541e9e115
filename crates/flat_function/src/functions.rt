ghost use Rattle.std.specs.Prelude.{◌≡◌, OnOk, OnErr};
ghost use Rattle.flat_form.specs.Flattened.{IsFlattenedBeside, IsFlattened};
ghost use Rattle.move_order_laws.specs.Exchanged.{KeepsBehaviour, IsConvertible};
ghost use Rattle.flat_function.specs.Behaviour.{IsOfResolved};

use c_tree::Function;
use c_types::{List, Memory, Name};
use flat_form::flatten_function;
use flat_names::ProgramNames;
use std::alloc::Global;

/// What `flatten` does, where the names of the program are gathered. They are kept for its next function, also
/// after `Memory`.
pub fn flatten_beside(
    alloc: Global,
    names: &mut ProgramNames,
    function: &mut Function,
) -> Result<(), Memory>
    ensures value { OnOk result (IsFlattenedBeside names.old.used.file names.old.taken.file function.old function.new) }
    ensures behaves { OnOk result (IsOfResolved function.old → KeepsBehaviour function.old function.new) }
    ensures convertible { OnOk result (IsOfResolved function.old → IsConvertible function.new) }
    ensures err { OnErr result (function.new ≡ function.old) }
    ensures used { names.new.used.file ≡ names.old.used.file }
    ensures taken { names.new.taken.file ≡ names.old.taken.file }
{
    flatten_function(alloc, names, function)
}

/// The flat form of a function (docs/REWRITING.md). `names` are all names of its program, and
/// `file_names` those of file scope.
///
/// A function with a goto or a scattered switch becomes flat: scattered switches become tests and
/// gotos, labels that no goto names go, initialisers become assignments, blocks and first parts of
/// `for`s dissolve, and exits of jumpy loops and switches become gotos. Its labels are then those that
/// stand in it, in text order, and its variables the parameters, the block variables and those of the
/// scattered switches. Any other function loses its labels and nothing else; a prototype stays. The
/// body is made beside the old one, so that after `Memory`, the only failure, the function is as it was.
///
/// A function of a resolved program may stand in any steady program: this is steady with the function flattened, and
/// behaves the same. Where the function becomes flat, its conversion is well made.
pub fn flatten(
    alloc: Global,
    names: &List<Name>,
    file_names: &List<Name>,
    function: &mut Function,
) -> Result<(), Memory>
    ensures value { OnOk result (IsFlattened names.now file_names.now function.old function.new) }
    ensures behaves { OnOk result (IsOfResolved function.old → KeepsBehaviour function.old function.new) }
    ensures convertible { OnOk result (IsOfResolved function.old → IsConvertible function.new) }
    ensures err { OnErr result (function.new ≡ function.old) }
{
    let mut gathered = ProgramNames::new(alloc, names, file_names)?;
    flatten_beside(alloc, &mut gathered, function)
}
