ghost use Rattle.std.specs.Prelude.{◌≡◌, length};
ghost use Rattle.c_tree.specs.Paths.{list_of, with_list};
ghost use Rattle.c_tree.specs.TestTrees.{test_tree, selector_tree};
ghost use Rattle.c_tree.specs.Trees.{trees_of, sections_of};
ghost use Rattle.tidy_laws.specs.Renamed.{renamed_test, renamed_selector, renamed_item, renamed_list, renamed_sections};
ghost use Rattle.tidy_slots.specs.Numbers.{number};
ghost use Rattle.c_tree.specs.Views.{tree_at};

use crate::numbers::{Numbers, new_number};
use crate::renumber_expressions::{
    renumber_expression, renumbered_option, renumbered_part, renumbered_values,
};
use c_tree::{Expression, Item, Node, Section, Selector, Test};
use c_types::List;
use std::mem;

/// A test with the new numbers.
pub fn renumbered_test(numbers: &Numbers, test: Test) -> Test
    ensures { test_tree result ≡ renamed_test (number numbers.now) (test_tree test) }
{
    match test {
        Test::Source(mut e) => {
            renumber_expression(numbers, &mut e);
            Test::Source(e)
        }
        Test::On(label) => Test::On(label),
        Test::Off(label) => Test::Off(label),
        Test::AndOff(label, mut rest) => {
            let inner = mem::replace(rest.get_mut(), Test::On(0));
            rest.set(renumbered_test(numbers, inner));
            Test::AndOff(label, rest)
        }
        Test::OrOn(label, mut rest) => {
            let inner = mem::replace(rest.get_mut(), Test::On(0));
            rest.set(renumbered_test(numbers, inner));
            Test::OrOn(label, rest)
        }
    }
}

/// A selector that stands in the place of one that is taken out.
fn placeholder() -> Selector {
    Selector::Source(Expression {
        kind: None,
        node: Node::Number(0),
    })
}

fn renumbered_selector(numbers: &Numbers, selector: Selector) -> Selector
    ensures { selector_tree result ≡ renamed_selector (number numbers.now) (selector_tree selector) }
{
    match selector {
        Selector::Source(mut e) => {
            renumber_expression(numbers, &mut e);
            Selector::Source(e)
        }
        Selector::Pick(label, n, mut rest) => {
            let inner = mem::replace(rest.get_mut(), placeholder());
            rest.set(renumbered_selector(numbers, inner));
            Selector::Pick(label, n, rest)
        }
    }
}

/// Gives the slots of a list their new numbers.
#[cycle(items)]
pub fn renumber_list(numbers: &Numbers, list: &mut List<Item>)
    ensures { trees_of list.new ≡ renamed_list (number numbers.now) (trees_of list.old) }
{
    renumber_items(numbers, list.as_mut_slice());
}

#[cycle(items)]
fn renumber_items(numbers: &Numbers, items: &mut [Item])
    ensures as_long { length items.new ≡ length items.old }
    ensures made { trees_of items.new ≡ renamed_list (number numbers.now) (trees_of items.old) }
{
    for i in 0..items.len() {
        renumber_item(numbers, &mut items[i]);
    }
}

#[cycle(items)]
fn renumber_sections(numbers: &Numbers, sections: &mut [Section])
    ensures as_long { length sections.new ≡ length sections.old }
    ensures made { sections_of sections.new ≡ renamed_sections (number numbers.now) (sections_of sections.old) }
{
    for i in 0..sections.len() {
        renumber_section(numbers, &mut sections[i]);
    }
}

#[cycle(items)]
fn renumber_section(numbers: &Numbers, section: &mut Section)
    ensures list { trees_of (list_of section.new) ≡ renamed_list (number numbers.now) (trees_of (list_of section.old)) }
    ensures rest { section.new ≡ with_list (list_of section.new) section.old }
{
    renumber_list(numbers, &mut section.list);
}

#[cycle(items)]
fn renumber_item(numbers: &Numbers, item: &mut Item)
    ensures { tree_at item.new ≡ renamed_item (number numbers.now) (tree_at item.old) }
{
    match mem::replace(item, Item::Break) {
        Item::Evaluate(mut e) => {
            renumber_expression(numbers, &mut e);
            *item = Item::Evaluate(e);
        }
        Item::Return(e) => *item = Item::Return(renumbered_option(numbers, e)),
        Item::If(test, mut a, mut b) => {
            renumber_list(numbers, &mut a);
            renumber_list(numbers, &mut b);
            *item = Item::If(renumbered_test(numbers, test), a, b);
        }
        Item::While(test, mut a) => {
            renumber_list(numbers, &mut a);
            *item = Item::While(renumbered_test(numbers, test), a);
        }
        Item::Do(mut a, test) => {
            renumber_list(numbers, &mut a);
            *item = Item::Do(a, renumbered_test(numbers, test));
        }
        Item::For(mut first, test, third, mut a) => {
            renumber_list(numbers, &mut first);
            renumber_list(numbers, &mut a);
            let test = renumbered_part(numbers, test);
            let third = renumbered_part(numbers, third);
            *item = Item::For(first, test, third, a);
        }
        Item::Switch(selector, mut sections) => {
            renumber_sections(numbers, sections.as_mut_slice());
            *item = Item::Switch(renumbered_selector(numbers, selector), sections);
        }
        Item::Block(mut a) => {
            renumber_list(numbers, &mut a);
            *item = Item::Block(a);
        }
        Item::Local(at, values) => {
            *item = Item::Local(new_number(numbers, at), renumbered_values(numbers, values));
        }
        Item::Arm(label, e) => *item = Item::Arm(label, renumbered_option(numbers, e)),
        Item::Break => *item = Item::Break,
        Item::Continue => *item = Item::Continue,
        Item::Goto(label) => *item = Item::Goto(label),
        Item::Mark(label) => *item = Item::Mark(label),
        Item::Leap(label) => *item = Item::Leap(label),
        Item::Land(label) => *item = Item::Land(label),
        Item::Arrival(e) => *item = Item::Arrival(e),
        Item::Note(bytes) => *item = Item::Note(bytes),
    }
}
