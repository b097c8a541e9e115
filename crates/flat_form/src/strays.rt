//! Case labels that no switch is around.

ghost use Rattle.std.specs.Prelude.{◌≡◌, IfOk};
ghost use Rattle.c_tree.specs.Trees.{trees_of};
ghost use Rattle.c_resolved_laws.specs.Counts.{without_strays as the_without_strays};

use crate::clearing::clear;
use c_copies::copy_items;
use c_tree::Item;
use c_types::{List, Memory};
use std::alloc::Global;

/// A list without the case labels that no switch is around. Want of memory is the only failure.
pub fn without_strays(alloc: Global, list: &List<Item>) -> Result<List<Item>, Memory>
    ensures { IfOk result (λ it. trees_of it ≡ the_without_strays (trees_of list.now)) }
{
    let mut out = copy_items(alloc, list)?;
    clear(alloc, true, &mut out);
    Ok(out)
}
