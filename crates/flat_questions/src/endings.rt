ghost use Rattle.std.specs.Prelude.{◌≡◌, false, option_map};
ghost use Rattle.c_tree.specs.Exits.{breaks};
ghost use Rattle.c_tree.specs.Trees.{Local, expression_trees, trees_of, sections_of};
ghost use Rattle.flat_laws.specs.Parts.{is_some_number, gone_or, ends_some as the_ends_some, leaves as the_leaves, ending as the_ending, ending_of as the_ending_of, last_ending as the_last_ending, if_jumps as the_if_jumps, is_gone as the_is_gone, kept_breaks, section_list};
ghost use Rattle.flat_questions.specs.Reading.{ends_in, is_flagged as the_is_flagged, ending_as};
ghost use Rattle.c_tree.specs.Views.{tree_at};

use crate::arrivals::{is_scattered, switch_has_default};
use crate::exits::{count_breaks, has_break, sections_have_break};
use crate::jumps::is_flagged;
use c_tree::{Expression, Item, Section};
use c_types::List;

/// How a list ends.
#[derive(Clone, Copy, PartialEq, Eq)]
pub enum Ending {
    /// Nothing of it stays in the flat form.
    Gone,
    /// By a `break`.
    Breaks,
    /// By a goto.
    Jumps,
    /// By something else.
    Otherwise,
}

/// Whether some section has an end.
fn ends_some(sections: &[Section]) -> bool
    ensures { result ≡ the_ends_some (sections_of sections.now) }
{
    for i in 0..sections.len() {
        if has_end(&sections[i]) {
            return true;
        }
    }
    false
}

fn has_end(section: &Section) -> bool
    ensures { result ≡ ends_in section.now }
{
    section.ends
}

/// Whether a goto leads behind the scattered switch of these sections: from the end of a section,
/// from a `break`, or since it has no default.
pub fn leaves(sections: &[Section]) -> bool
    ensures { result ≡ the_leaves (sections_of sections.now) }
{
    !switch_has_default(sections) || ends_some(sections) || sections_have_break(sections)
}

fn if_jumps(ending: Ending) -> Ending
    ensures { ending_as result ≡ the_if_jumps (ending_as ending) }
{
    match ending {
        Ending::Jumps => Ending::Jumps,
        _ => Ending::Otherwise,
    }
}

/// Whether nothing of the list stays.
pub fn is_gone(ending: Ending) -> bool
    ensures { result ≡ the_is_gone (ending_as ending) }
{
    match ending {
        Ending::Gone => true,
        _ => false,
    }
}

/// How a list ends in the flat form. The flags say which labels are named.
#[cycle(ends)]
pub fn ends_by(named: &[bool], list: &List<Item>) -> Ending
    ensures { ending_as result ≡ the_ending (the_is_flagged named.now) (trees_of list.now) }
{
    items_end_by(named, list.as_slice())
}

#[cycle(ends)]
fn items_end_by(named: &[bool], items: &[Item]) -> Ending
    ensures { ending_as result ≡ the_ending (the_is_flagged named.now) (trees_of items.now) }
{
    let count = items.len();
    for k in 0..count {
        let at = count - 1 - k;
        let ending = item_ends_by(named, &items[at]);
        if !is_gone(ending) {
            return ending;
        }
    }
    Ending::Gone
}

/// How a list ends that ends by a declaration.
fn declaration_ends_by(given: &Option<List<Expression>>) -> Ending
    ensures { ending_as result ≡ the_ending_of (λ l. false) (Local 0 (option_map expression_trees given.now)) }
{
    match given {
        Some(_) => Ending::Otherwise,
        None => Ending::Gone,
    }
}

/// How a list ends that ends by a label.
fn label_ends_by(named: bool) -> Ending
    ensures { ending_as result ≡ gone_or named }
{
    if named {
        Ending::Otherwise
    } else {
        Ending::Gone
    }
}

#[cycle(ends)]
fn item_ends_by(named: &[bool], item: &Item) -> Ending
    ensures { ending_as result ≡ the_ending_of (the_is_flagged named.now) (tree_at item.now) }
{
    match item {
        Item::Break => Ending::Breaks,
        Item::Goto(_) => Ending::Jumps,
        Item::Mark(label) => label_ends_by(is_flagged(named, *label)),
        Item::Local(_, given) => declaration_ends_by(given),
        Item::Block(a) => ends_by(named, a),
        Item::Switch(_, sections) => {
            let sections = sections.as_slice();
            if is_scattered(sections) && !leaves(sections) {
                if_jumps(last_ends_by(named, sections))
            } else {
                Ending::Otherwise
            }
        }
        _ => Ending::Otherwise,
    }
}

#[cycle(ends)]
fn last_ends_by(named: &[bool], sections: &[Section]) -> Ending
    ensures { ending_as result ≡ the_last_ending (the_is_flagged named.now) (sections_of sections.now) }
{
    let count = sections.len();
    if count == 0 {
        Ending::Gone
    } else {
        let at = count - 1;
        ends_by(named, &sections[at].list)
    }
}

/// Whether a `break` stays in the list of a section. One by which it ends is not counted.
fn section_keeps_break(named: &[bool], list: &List<Item>) -> bool
    ensures { result ≡ is_some_number (breaks (section_list (the_is_flagged named.now) (trees_of list.now) (the_ending (the_is_flagged named.now) (trees_of list.now)))) }
{
    match ends_by(named, list) {
        Ending::Breaks => count_breaks(list, 0) == 2,
        _ => has_break(list),
    }
}

/// Whether a `break` of the switch of these sections stays: one that doesn't become the end of a
/// section.
pub fn keeps_break(named: &[bool], sections: &[Section]) -> bool
    ensures { result ≡ is_some_number (kept_breaks (the_is_flagged named.now) (sections_of sections.now)) }
{
    for i in 0..sections.len() {
        if section_keeps_break(named, &sections[i].list) {
            return true;
        }
    }
    false
}
