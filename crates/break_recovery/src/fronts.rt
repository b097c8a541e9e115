//! Whether the declarations of guards stand in front of all that holds lists, so that none of them stands between a loop
//! and the item behind it.

ghost use Rattle.std.specs.Prelude.{◌≡◌, ◌⊎◌, ℕ, true, false};
ghost use Rattle.c_tree.specs.Trees.{trees_of};
ghost use Rattle.c_tree.specs.Views.{tree_at};
ghost use Rattle.tidy_laws.specs.Changes.{is_declaration as the_is_declaration};
ghost use Rattle.break_recovery.specs.Fronts.{holds_none as the_holds_none, DeclaresFirst};

use c_tree::Item;
use c_types::{Boxed, List};
use tidy_loops::is_declaration;

/// Whether the item holds no list.
pub fn holds_none(item: &Item) -> bool
    ensures { result ≡ the_holds_none (tree_at item.now) }
{
    match item {
        Item::If(_, _, _)
        | Item::While(_, _)
        | Item::Do(_, _)
        | Item::For(_, _, _, _)
        | Item::Switch(_, _)
        | Item::Block(_) => false,
        _ => true,
    }
}

/// Whether the item is `int g = 0;` of some slot.
fn declares_some(item: &Item) -> bool
    ensures { result ≡ false → (g : ℕ) → the_is_declaration g (tree_at item.now) ≡ false }
{
    match item {
        Item::Local(slot, _) => is_declaration(*slot, item),
        _ => false,
    }
}

/// Whether an item may stand in front of others, of which this says whether none declares a slot.
fn may_stand(item: &Item, none: bool) -> bool
    ensures { result ≡ true → (the_holds_none (tree_at item.now) ≡ true) ⊎ (none ≡ true) }
{
    none || holds_none(item)
}

/// Whether neither the item declares a slot nor those behind it, of which this says so.
fn none_with(item: &Item, none: bool) -> bool
    ensures { result ≡ true → (none ≡ true) × ((g : ℕ) → the_is_declaration g (tree_at item.now) ≡ false) }
{
    none && !declares_some(item)
}

/// Whether each `int g = 0;` of the list stands in front of all that holds lists.
pub fn declares_first(list: &List<Boxed<Item>>) -> bool
    ensures { result ≡ true → DeclaresFirst (trees_of list.now) }
{
    let items = list.as_slice();
    let mut none = true;
    let mut left = items.len();
    'items: while left > 0 {
        let at = left - 1;
        let item = items[at].get();
        if !may_stand(item, none) {
            return false;
        }
        let still = none_with(item, none);
        none = still;
        left = at;
    }
    true
}
