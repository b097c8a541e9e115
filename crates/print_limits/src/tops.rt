//! What stands at file scope, and whole programs.

ghost use Rattle.std.specs.Prelude.{◌≤◌, ◌↔◌, IsTrue, All, option_map};
ghost use Rattle.c_tree.specs.Trees.{expression_trees};
ghost use Rattle.print_limits.specs.Limits.{FunctionIsWithin, EnumItemIsWithin, TopIsWithin, IsWithinLimits};

use crate::counted::are_short_items;
use crate::expressions::{are_short_values, is_short_constant};
use crate::items::are_nested;
use c_tree::{EnumItem, Function, Program, Top};

fn is_function_within(function: &Function) -> bool
    ensures { IsTrue result ↔ FunctionIsWithin function.now }
{
    match &function.body {
        Some(body) => are_nested(body.as_slice(), 399) && are_short_items(body.as_slice()),
        None => true,
    }
}

fn is_enum_within(items: &[EnumItem]) -> bool
    ensures { IsTrue result ↔ All EnumItemIsWithin items.now }
{
    for i in 0..items.len() {
        if !is_short_constant(&items[i].given) {
            return false;
        }
    }
    true
}

fn is_top_within(top: &Top) -> bool
    ensures { IsTrue result ↔ TopIsWithin top.now }
{
    match top {
        Top::Function(function) => is_function_within(function),
        Top::Enum(items) => is_enum_within(items.as_slice()),
        Top::Global(variable) => are_short_values(&variable.init),
        _ => true,
    }
}

fn are_tops_within(tops: &[Top]) -> bool
    ensures { IsTrue result ↔ All TopIsWithin tops.now }
{
    for i in 0..tops.len() {
        if !is_top_within(&tops[i]) {
            return false;
        }
    }
    true
}

/// Whether no list of the program is nested more than 400 deep, and no full expression of its printed text has more
/// than 400 counted tokens (docs/SUBSET.md).
pub fn is_within_limits(program: &Program) -> bool
    ensures { IsTrue result ↔ IsWithinLimits program.now }
{
    are_tops_within(program.tops.as_slice())
}
