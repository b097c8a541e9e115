//! Whether the full expressions of items have few enough counted tokens.

ghost use Rattle.std.specs.Prelude.{◌≤◌, ◌↔◌, IsTrue};
ghost use Rattle.c_tree.specs.TestTrees.{test_tree, selector_tree};
ghost use Rattle.c_tree.specs.Cases.{selector_source};
ghost use Rattle.c_tree.specs.Trees.{trees_of, sections_of};
ghost use Rattle.c_resolved_defs.specs.Limits.{most_tested, most_counted, most_counted_of, most_counted_in};
ghost use Rattle.c_resolved_defs.specs.PrintableExpressions.{counted};
ghost use Rattle.c_resolved_defs.specs.PrintableStatements.{most};
ghost use Rattle.c_tree.specs.Views.{tree_at};
ghost use Rattle.print_limits.specs.Limits.{section_most};

use crate::expressions::{
    are_short, are_short_values, is_short, is_short_constant, is_short_part, is_short_value,
};
use c_tree::{Item, Section, Selector, Test};
use c_types::List;

fn is_short_test(test: &Test) -> bool
    ensures { IsTrue result ↔ most_tested (test_tree test.now) ≤ most }
{
    match test {
        Test::Source(e) => is_short(e),
        Test::AndOff(_, t) => is_short_test(t.get()),
        Test::OrOn(_, t) => is_short_test(t.get()),
        Test::On(_) => true,
        Test::Off(_) => true,
    }
}

fn is_short_selector(selector: &Selector) -> bool
    ensures { IsTrue result ↔ counted (selector_source (selector_tree selector.now)) ≤ most }
{
    match selector {
        Selector::Source(e) => is_short(e),
        Selector::Pick(_, _, s) => is_short_selector(s.get()),
    }
}

#[cycle(measuring)]
fn is_short_list(list: &List<Item>) -> bool
    ensures { IsTrue result ↔ most_counted (trees_of list.now) ≤ most }
{
    are_short_items(list.as_slice())
}

/// Whether each full expression of the items is short enough.
#[cycle(measuring)]
pub fn are_short_items(items: &[Item]) -> bool
    ensures { IsTrue result ↔ most_counted (trees_of items.now) ≤ most }
{
    for i in 0..items.len() {
        if !is_short_item(&items[i]) {
            return false;
        }
    }
    true
}

#[cycle(measuring)]
fn is_short_item(item: &Item) -> bool
    ensures { IsTrue result ↔ most_counted_of (tree_at item.now) ≤ most }
{
    match item {
        Item::Evaluate(e) => is_short(e),
        Item::Return(e) => is_short_value(e),
        Item::If(test, a, b) => is_short_test(test) && is_short_list(a) && is_short_list(b),
        Item::While(test, a) => is_short_test(test) && is_short_list(a),
        Item::Do(a, test) => is_short_list(a) && is_short_test(test),
        Item::For(first, test, third, a) => {
            is_short_list(first) && is_short_part(test) && is_short_part(third) && is_short_list(a)
        }
        Item::Switch(selector, sections) => {
            is_short_selector(selector) && are_short_sections(sections.as_slice())
        }
        Item::Block(a) => is_short_list(a),
        Item::Local(_, given) => are_short_values(given),
        Item::Arrival(e) => is_short_constant(e),
        _ => true,
    }
}

#[cycle(measuring)]
fn is_short_section(section: &Section) -> bool
    ensures { IsTrue result ↔ section_most section.now ≤ most }
{
    are_short(section.cases.as_slice(), 3) && is_short_list(&section.list)
}

#[cycle(measuring)]
fn are_short_sections(sections: &[Section]) -> bool
    ensures { IsTrue result ↔ most_counted_in (sections_of sections.now) ≤ most }
{
    for i in 0..sections.len() {
        if !is_short_section(&sections[i]) {
            return false;
        }
    }
    true
}
