ghost use Rattle.std.specs.Prelude.{◌≡◌, ◌≤◌, ◌+◌, min};
ghost use Rattle.c_tree.specs.Exits.{breaks, breaks_of, breaks_in, continues, continues_of, continues_in};
ghost use Rattle.c_tree.specs.Trees.{trees_of, sections_of};
ghost use Rattle.flat_laws.specs.Parts.{is_some_number};
ghost use Rattle.c_tree.specs.Views.{tree_at};

use c_tree::{Item, Section};
use c_types::List;

/// Whether a `break` of a list is bound to a loop or switch around it.
pub fn has_break(list: &List<Item>) -> bool
    ensures { result ≡ is_some_number (breaks (trees_of list.now)) }
{
    count_breaks(list, 0) != 0
}

/// How many breaks of a list are bound to a loop or switch around it, added to a count that stops at two.
#[cycle(counting)]
pub fn count_breaks(list: &List<Item>, count: u32) -> u32
    requires { count ≤ 2 }
    ensures { result ≡ min (count + breaks (trees_of list.now)) 2 }
{
    count_among(list.as_slice(), count)
}

#[cycle(counting)]
fn count_among(items: &[Item], count: u32) -> u32
    requires { count ≤ 2 }
    ensures { result ≡ min (count + breaks (trees_of items.now)) 2 }
{
    let mut sum = count;
    for i in 0..items.len() {
        if sum == 2 {
            return 2;
        }
        sum = count_in(&items[i], sum);
    }
    sum
}

#[cycle(counting)]
fn count_in(item: &Item, count: u32) -> u32
    requires { count ≤ 2 }
    ensures { result ≡ min (count + breaks_of (tree_at item.now)) 2 }
{
    match item {
        Item::If(_, a, b) => count_breaks(b, count_breaks(a, count)),
        Item::For(first, _, _, _) => count_breaks(first, count),
        Item::Block(a) => count_breaks(a, count),
        Item::Break => one_more(count),
        _ => count,
    }
}

fn one_more(count: u32) -> u32
    requires { count ≤ 2 }
    ensures { result ≡ min (count + 1) 2 }
{
    if count == 0 { 1 } else { 2 }
}

/// Whether a `break` is bound to the switch of these sections.
pub fn sections_have_break(sections: &[Section]) -> bool
    ensures { result ≡ is_some_number (breaks_in (sections_of sections.now)) }
{
    for i in 0..sections.len() {
        if has_break(&sections[i].list) {
            return true;
        }
    }
    false
}

/// Whether a `continue` of a list is bound to a loop around it.
#[cycle(continuing)]
pub fn has_continue(list: &List<Item>) -> bool
    ensures { result ≡ is_some_number (continues (trees_of list.now)) }
{
    items_have_continue(list.as_slice())
}

#[cycle(continuing)]
fn items_have_continue(items: &[Item]) -> bool
    ensures { result ≡ is_some_number (continues (trees_of items.now)) }
{
    for i in 0..items.len() {
        if is_continue_in(&items[i]) {
            return true;
        }
    }
    false
}

#[cycle(continuing)]
fn is_continue_in(item: &Item) -> bool
    ensures { result ≡ is_some_number (continues_of (tree_at item.now)) }
{
    match item {
        Item::If(_, a, b) => has_continue(a) || has_continue(b),
        Item::For(first, _, _, _) => has_continue(first),
        Item::Switch(_, sections) => sections_have_continue(sections),
        Item::Block(a) => has_continue(a),
        Item::Continue => true,
        _ => false,
    }
}

/// Whether a `continue` in these sections is bound to a loop around their switch.
#[cycle(continuing)]
pub fn sections_have_continue(sections: &List<Section>) -> bool
    ensures { result ≡ is_some_number (continues_in (sections_of sections.now)) }
{
    slice_has_continue(sections.as_slice())
}

#[cycle(continuing)]
fn slice_has_continue(sections: &[Section]) -> bool
    ensures { result ≡ is_some_number (continues_in (sections_of sections.now)) }
{
    for i in 0..sections.len() {
        if has_continue(&sections[i].list) {
            return true;
        }
    }
    false
}
