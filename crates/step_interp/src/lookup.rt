ghost use Rattle.std.specs.Prelude.{◌≡◌, ◌∷◌, [], ◌≤◌, Some, None, MatchOption};
ghost use Rattle.jump_meaning.specs.Code.{cells_of as the_cells, cell_count as the_count, global_cells as the_global_cells, function_tree, function_in as the_function_in, function_named, undeclared};
ghost use Rattle.step_interp.specs.Lookups.{wanted};

use c_tree::{Function, Program, Slot, Top};
use c_types::{List, Name};

/// The cells of an array, none of a number and of an array parameter.
fn cell_count(slot: &Slot) -> u64
    ensures value { result ≡ the_count slot.now }
    ensures bound { result ≤ 4294967295 }
{
    match slot.cells {
        Some(cells) => cells as u64,
        None => 0,
    }
}

/// The cells of all arrays of the slots.
pub fn cells_of(slots: &List<Slot>) -> u64
    ensures { result ≡ the_cells slots.now }
{
    let mut cells: u64 = 0;
    for slot in slots.as_slice() {
        cells += cell_count(slot);
    }
    cells
}

/// The cells of the array of a declaration of file scope.
fn top_cells(top: &Top) -> u64
    ensures value { result ≡ the_global_cells (top.now ∷ []) }
    ensures bound { result ≤ 4294967295 }
{
    match top {
        Top::Global(global) => cell_count(&global.slot),
        _ => 0,
    }
}

/// The cells of all arrays of file scope.
pub fn global_cells(tops: &List<Top>) -> u64
    ensures { result ≡ the_global_cells tops.now }
{
    let mut cells: u64 = 0;
    for top in tops.as_slice() {
        cells += top_cells(top);
    }
    cells
}

/// The first function of the name, or the first that has a body.
fn function_in<'a>(tops: &'a [Top], name: &Name, defined: bool) -> Option<&'a Function>
    ensures { MatchOption result (the_function_in (wanted defined) name.now tops.now ≡ None)
        (λ f. (the_function_in (wanted defined) name.now tops.now ≡ Some (function_tree f.now)) × (f.now.name ≡ name.now)) }
{
    for top in tops {
        if let Top::Function(function) = top {
            if function.name.as_str() == name.as_str() && (!defined || function.body.is_some()) {
                return Some(function);
            }
        }
    }
    None
}

/// The definition of the name, else its first declaration.
pub fn definition<'a>(program: &'a Program, name: &Name) -> Option<&'a Function>
    ensures { MatchOption result (function_named name.now program.now.tops ≡ undeclared)
        (λ f. (function_named name.now program.now.tops ≡ function_tree f.now) × (f.now.name ≡ name.now)) }
{
    let tops = program.tops.as_slice();
    match function_in(tops, name, true) {
        Some(function) => Some(function),
        None => function_in(tops, name, false),
    }
}
