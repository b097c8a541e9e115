//! The flat form of a function with its names, and that programs behave the same with it.
#![tactic(auto)]

mod functions;

ghost use Rattle.flat_function.specs.Laws.{FlatNamesMakeForms, FlattenedAreForms};
ghost use Rattle.flat_function.specs.Own.{FlatNamesAreOwn};

pub use functions::{flatten, flatten_beside};

/// A function whose variables and labels are those that a flat form names, with a flat body, is the flat form of the
/// function.
pub fn flat_names_make_forms()
    ensures { FlatNamesMakeForms }
{}

/// A function of a source is flattened to its flat form, or, where it has no jumps, loses its labels alone.
pub fn flattened_are_forms()
    ensures { FlattenedAreForms }
{}

/// Each variable of a flat form that is no parameter has a name of its own in the program.
pub fn flat_names_are_own()
    ensures { FlatNamesAreOwn }
{}
