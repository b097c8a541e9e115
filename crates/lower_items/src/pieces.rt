ghost use Rattle.std.specs.Prelude.{◌≡◌, OnOk};
ghost use Rattle.c_tree.specs.Trees.{trees_of, join};

use c_tree::Item;
use c_types::{List, Memory};
use flat_items::add;

/// All items of a list.
pub fn add_all(items: List<Item>, out: &mut List<Item>) -> Result<(), Memory>
    ensures { OnOk result (trees_of out.new ≡ join (trees_of out.old) (trees_of items)) }
{
    for item in items.into_vec() {
        add(out, item)?;
    }
    Ok(())
}
