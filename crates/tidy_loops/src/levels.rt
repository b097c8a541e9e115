ghost use Rattle.std.specs.Prelude.{◌≡◌, suc, IfOk};
ghost use Rattle.c_tree.specs.ExpressionTrees.{expression_tree};
ghost use Rattle.c_tree.specs.Trees.{trees_of};
ghost use Rattle.c_tree.specs.Views.{tree_at};
ghost use Rattle.tidy_laws.specs.Changes.{set_value as the_set_value, low_set, are_low as the_are_low, is_low as the_is_low};

use crate::forms::{is_number, set_value};
use c_tree::{Expression, Item};
use c_types::{List, Memory};

/// One level deeper. `Memory` where no `u32` numbers it.
pub fn deeper(level: u32) -> Result<u32, Memory>
    ensures { IfOk result (λ n. n ≡ suc level) }
{
    match level.checked_add(1) {
        Some(n) => Ok(n),
        None => Err(Memory),
    }
}

fn is_low_set(slot: u32, level: u32, e: &Expression) -> bool
    ensures { result ≡ low_set level (the_set_value slot (expression_tree e.now)) }
{
    match set_value(slot, e) {
        None => true,
        Some(value) => is_number(1, value) || level <= 399,
    }
}

/// Whether each set of another number than 1 in a list at this level stands at a level of at most
/// 399. `Memory` where no `u32` numbers the levels.
#[cycle(low)]
pub fn are_low(slot: u32, level: u32, list: &List<Item>) -> Result<bool, Memory>
    ensures { IfOk result (λ it. it ≡ the_are_low slot level (trees_of list.now)) }
{
    items_are_low(slot, level, list.as_slice())
}

/// Whether each set of another number than 1 among these items at this level stands at a level of at most 399.
/// `Memory` where no `u32` numbers the levels.
#[cycle(low)]
pub fn items_are_low(slot: u32, level: u32, items: &[Item]) -> Result<bool, Memory>
    ensures { IfOk result (λ it. it ≡ the_are_low slot level (trees_of items.now)) }
{
    for i in 0..items.len() {
        if !is_low(slot, level, &items[i])? {
            return Ok(false);
        }
    }
    Ok(true)
}

#[cycle(low)]
fn is_low(slot: u32, level: u32, item: &Item) -> Result<bool, Memory>
    ensures { IfOk result (λ it. it ≡ the_is_low slot level (tree_at item.now)) }
{
    match item {
        Item::Evaluate(e) => Ok(is_low_set(slot, level, e)),
        Item::If(_, a, b) => {
            let inside = deeper(level)?;
            let a = are_low(slot, inside, a)?;
            let b = are_low(slot, inside, b)?;
            Ok(a && b)
        }
        _ => Ok(true),
    }
}
