ghost use Rattle.std.specs.Prelude.{◌≡◌};
ghost use Rattle.c_tree.specs.Everywhere.{total, total_of, total_in};
ghost use Rattle.c_tree.specs.Trees.{trees_of, sections_of};
ghost use Rattle.flat_laws.specs.Parts.{is_some_number, jumps_of, has_jumps as the_has_jumps, holds_jump as the_holds_jump, holds_jump_in, holds_jump_among};
ghost use Rattle.flat_questions.specs.Reading.{is_flagged as the_is_flagged};
ghost use Rattle.c_tree.specs.Views.{tree_at};

use crate::arrivals::is_scattered;
use c_tree::{Item, Section};
use c_types::List;

/// Whether the label is one of those that are flagged.
pub fn is_flagged(flags: &[bool], label: u32) -> bool
    ensures { result ≡ the_is_flagged flags.now label }
{
    let at = label as usize;
    if at < flags.len() { flags[at] } else { false }
}

/// Whether a list holds, at any depth, a goto, a label that is named, or a scattered switch. The
/// flags say which labels are named.
#[cycle(jump)]
pub fn holds_jump(named: &[bool], list: &List<Item>) -> bool
    ensures { result ≡ the_holds_jump (the_is_flagged named.now) (trees_of list.now) }
{
    items_hold_jump(named, list.as_slice())
}

#[cycle(jump)]
fn items_hold_jump(named: &[bool], items: &[Item]) -> bool
    ensures { result ≡ the_holds_jump (the_is_flagged named.now) (trees_of items.now) }
{
    for i in 0..items.len() {
        if is_jump_in(named, &items[i]) {
            return true;
        }
    }
    false
}

#[cycle(jump)]
fn is_jump_in(named: &[bool], item: &Item) -> bool
    ensures { result ≡ holds_jump_in (the_is_flagged named.now) (tree_at item.now) }
{
    match item {
        Item::If(_, a, b) => holds_jump(named, a) || holds_jump(named, b),
        Item::While(_, a) => holds_jump(named, a),
        Item::Do(a, _) => holds_jump(named, a),
        Item::For(_, _, _, a) => holds_jump(named, a),
        Item::Block(a) => holds_jump(named, a),
        Item::Switch(_, sections) => {
            is_scattered(sections.as_slice()) || sections_hold_jump(named, sections)
        }
        Item::Goto(_) => true,
        Item::Mark(label) => is_flagged(named, *label),
        Item::Arrival(_) => true,
        _ => false,
    }
}

/// Whether sections hold one.
#[cycle(jump)]
pub fn sections_hold_jump(named: &[bool], sections: &List<Section>) -> bool
    ensures { result ≡ holds_jump_among (the_is_flagged named.now) (sections_of sections.now) }
{
    slice_holds_jump(named, sections.as_slice())
}

#[cycle(jump)]
fn slice_holds_jump(named: &[bool], sections: &[Section]) -> bool
    ensures { result ≡ holds_jump_among (the_is_flagged named.now) (sections_of sections.now) }
{
    for i in 0..sections.len() {
        if holds_jump(named, &sections[i].list) {
            return true;
        }
    }
    false
}

/// Whether a function with this body has jumps: it holds a goto or a scattered switch.
#[cycle(having)]
pub fn has_jumps(list: &List<Item>) -> bool
    ensures { result ≡ the_has_jumps (trees_of list.now) }
{
    items_have_jumps(list.as_slice())
}

#[cycle(having)]
fn items_have_jumps(items: &[Item]) -> bool
    ensures { result ≡ the_has_jumps (trees_of items.now) }
{
    for i in 0..items.len() {
        if is_jump(&items[i]) {
            return true;
        }
    }
    false
}

#[cycle(having)]
fn is_jump(item: &Item) -> bool
    ensures { result ≡ is_some_number (total_of jumps_of (tree_at item.now)) }
{
    match item {
        Item::If(_, a, b) => has_jumps(a) || has_jumps(b),
        Item::While(_, a) => has_jumps(a),
        Item::Do(a, _) => has_jumps(a),
        Item::For(first, _, _, a) => has_jumps(first) || has_jumps(a),
        Item::Block(a) => has_jumps(a),
        Item::Switch(_, sections) => {
            is_scattered(sections.as_slice()) || sections_have_jumps(sections.as_slice())
        }
        Item::Goto(_) => true,
        _ => false,
    }
}

#[cycle(having)]
fn sections_have_jumps(sections: &[Section]) -> bool
    ensures { result ≡ is_some_number (total_in jumps_of (sections_of sections.now)) }
{
    for i in 0..sections.len() {
        if has_jumps(&sections[i].list) {
            return true;
        }
    }
    false
}
