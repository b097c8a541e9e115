ghost use Rattle.std.specs.Prelude.{◌≡◌, ℕ, ◌<◌, ◌≤◌, length, IfSome, IfNone, slice_get};
ghost use Rattle.c_tree.specs.Join.{Holds};
ghost use Rattle.c_tree.specs.Labels.{lands};
ghost use Rattle.c_tree.specs.Outward.{HasBranch};
ghost use Rattle.c_tree.specs.Paths.{child as the_child, list_of};
ghost use Rattle.c_tree.specs.Trees.{trees_of};
ghost use Rattle.inward_moves.specs.Entering.{LeadsTo};

use c_tree::{Branch, Item, Section};
use c_types::List;
use label_offsets::has_land;

fn section_with(sections: &[Section], label: u32) -> Option<u32>
    requires { length sections.now ≤ 4294967295 }
    ensures found { IfSome result (λ k. Holds (λ c. 0 < lands label (trees_of (list_of c))) (slice_get sections.now k)) }
    ensures none { IfNone result ((k : ℕ) → Holds (λ c. 0 < lands label (trees_of (list_of c))) (slice_get sections.now k) → ⊥) }
{
    for k in 0..sections.len() {
        if has_land(&sections[k].list, label) {
            return Some(k as u32);
        }
    }
    None
}

fn list_with(list: &List<Item>, branch: Branch, label: u32) -> Option<Branch>
    ensures found { IfSome result (λ b. (b ≡ branch) × (0 < lands label (trees_of list.now))) }
    ensures none { IfNone result (0 < lands label (trees_of list.now) → ⊥) }
{
    if has_land(list, label) {
        Some(branch)
    } else {
        None
    }
}

/// The branch of an item that leads to the Land of the label, or `None` where the item has none.
pub fn branch_with(item: &Item, label: u32) -> Option<Branch>
    ensures found { IfSome result (λ b. LeadsTo label b item.now) }
    ensures none { IfNone result ((b : Branch) → LeadsTo label b item.now → ⊥) }
{
    match item {
        Item::If(_, a, b) => match list_with(a, Branch::Then, label) {
            Some(branch) => Some(branch),
            None => list_with(b, Branch::Else, label),
        },
        Item::While(_, a) => list_with(a, Branch::Body, label),
        Item::Do(a, _) => list_with(a, Branch::Body, label),
        Item::Switch(_, sections) => match section_with(sections.as_slice(), label) {
            Some(k) => Some(Branch::Section(k)),
            None => None,
        },
        _ => None,
    }
}
