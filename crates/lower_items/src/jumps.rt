ghost use Rattle.std.specs.Prelude.{◌≡◌, cond, drop, None};
ghost use Rattle.c_tree.specs.Trees.{trees_of};
ghost use Rattle.flat_questions.specs.Reading.{is_flagged as the_flagged};
ghost use Rattle.lower_laws.specs.Lowered.{is_bare as the_is_bare, only_goto as the_only_goto, jump_of as the_jump_of};
ghost use Rattle.lower_items.specs.Jumps.{goes, goto_of};
ghost use Rattle.c_tree.specs.Views.{tree_at};

use c_tree::Item;
use c_types::List;
use flat_questions::is_flagged;

fn is_gone(named: &[bool], item: &Item) -> bool
    ensures { result ≡ goes (the_flagged named.now) (tree_at item.now) }
{
    match item {
        Item::Mark(label) => !is_flagged(named, *label),
        _ => false,
    }
}

/// Whether nothing is left of a list from a place on but labels that go.
fn is_bare(named: &[bool], items: &[Item], from: usize) -> bool
    ensures { result ≡ the_is_bare (the_flagged named.now) (trees_of (drop from items.now)) }
{
    for i in from..items.len() {
        if !is_gone(named, &items[i]) {
            return false;
        }
    }
    true
}

fn goto_label(item: &Item) -> Option<u32>
    ensures { result ≡ goto_of (tree_at item.now) }
{
    match item {
        Item::Goto(label) => Some(*label),
        _ => None,
    }
}

fn goto_if(alone: bool, item: &Item) -> Option<u32>
    ensures { result ≡ cond alone (goto_of (tree_at item.now)) None }
{
    if alone { goto_label(item) } else { None }
}

/// The goto that alone is left of a list.
fn only_goto(named: &[bool], items: &[Item]) -> Option<u32>
    ensures { result ≡ the_only_goto (the_flagged named.now) (trees_of items.now) }
{
    for i in 0..items.len() {
        let item = &items[i];
        if !is_gone(named, item) {
            return goto_if(is_bare(named, items, i + 1), item);
        }
    }
    None
}

/// The goto of an `if` with one goto and no else-list.
pub fn jump_of(named: &[bool], a: &List<Item>, b: &List<Item>) -> Option<u32>
    ensures { result ≡ the_jump_of (the_flagged named.now) (trees_of a.now) (trees_of b.now) }
{
    if is_bare(named, b.as_slice(), 0) {
        only_goto(named, a.as_slice())
    } else {
        None
    }
}
