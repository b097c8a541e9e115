ghost use Rattle.std.specs.Prelude.{◌≡◌, not, option_map};
ghost use Rattle.c_tree.specs.ExpressionTrees.{expression_tree};
ghost use Rattle.c_tree.specs.TestTrees.{test_tree, selector_tree};
ghost use Rattle.c_tree.specs.Trees.{expression_trees, trees_of, sections_of};
ghost use Rattle.tidy_laws.specs.Mentions.{test_lacks, selector_lacks, option_lacks, all_lack, values_lack, list_lacks, item_lacks, sections_lack};
ghost use Rattle.c_tree.specs.Views.{tree_at};

use crate::mention_expressions::names;
use c_tree::{Expression, Item, Section, Selector, Test};
use c_types::{Boxed, List};

/// Whether a test names the slot.
pub fn test_names(slot: u32, test: &Test) -> bool
    ensures { result ≡ not (test_lacks slot (test_tree test.now)) }
{
    match test {
        Test::Source(e) => names(slot, e),
        Test::On(_) => false,
        Test::Off(_) => false,
        Test::AndOff(_, rest) => test_names(slot, rest.get()),
        Test::OrOn(_, rest) => test_names(slot, rest.get()),
    }
}

/// Whether a selector does.
pub fn selector_names(slot: u32, selector: &Selector) -> bool
    ensures { result ≡ not (selector_lacks slot (selector_tree selector.now)) }
{
    match selector {
        Selector::Source(e) => names(slot, e),
        Selector::Pick(_, _, rest) => selector_names(slot, rest.get()),
    }
}

fn option_names(slot: u32, e: &Option<Expression>) -> bool
    ensures { result ≡ not (option_lacks slot (option_map expression_tree e.now)) }
{
    match e {
        None => false,
        Some(e) => names(slot, e),
    }
}

/// Whether a part of the head of a `for` does.
pub fn part_names(slot: u32, e: &Option<Boxed<Expression>>) -> bool
    ensures { result ≡ not (option_lacks slot (option_map expression_tree e.now)) }
{
    match e {
        None => false,
        Some(e) => names(slot, e.get()),
    }
}

fn all_names(slot: u32, items: &[Expression]) -> bool
    ensures { result ≡ not (all_lack slot (expression_trees items.now)) }
{
    for i in 0..items.len() {
        if names(slot, &items[i]) {
            return true;
        }
    }
    false
}

fn values_name(slot: u32, values: &Option<List<Expression>>) -> bool
    ensures { result ≡ not (values_lack slot (option_map expression_trees values.now)) }
{
    match values {
        None => false,
        Some(es) => all_names(slot, es.as_slice()),
    }
}

/// Whether a list names the slot, at any depth.
#[cycle(items)]
pub fn list_names(slot: u32, list: &List<Item>) -> bool
    ensures { result ≡ not (list_lacks slot (trees_of list.now)) }
{
    items_name(slot, list.as_slice())
}

/// Whether one of the items does.
#[cycle(items)]
pub fn items_name(slot: u32, items: &[Item]) -> bool
    ensures { result ≡ not (list_lacks slot (trees_of items.now)) }
{
    for i in 0..items.len() {
        if item_names(slot, &items[i]) {
            return true;
        }
    }
    false
}

/// Whether an item does, or an item that stands in it.
#[cycle(items)]
pub fn item_names(slot: u32, item: &Item) -> bool
    ensures { result ≡ not (item_lacks slot (tree_at item.now)) }
{
    match item {
        Item::Evaluate(e) => names(slot, e),
        Item::Return(e) => option_names(slot, e),
        Item::If(test, a, b) => {
            let test = test_names(slot, test);
            let a = list_names(slot, a);
            let b = list_names(slot, b);
            test | (a | b)
        }
        Item::While(test, a) => {
            let test = test_names(slot, test);
            let a = list_names(slot, a);
            test | a
        }
        Item::Do(a, test) => {
            let a = list_names(slot, a);
            let test = test_names(slot, test);
            a | test
        }
        Item::For(first, test, third, a) => {
            let first = list_names(slot, first);
            let test = part_names(slot, test);
            let third = part_names(slot, third);
            let a = list_names(slot, a);
            first | (test | (third | a))
        }
        Item::Switch(selector, sections) => {
            let selector = selector_names(slot, selector);
            let sections = sections_name(slot, sections.as_slice());
            selector | sections
        }
        Item::Block(a) => list_names(slot, a),
        Item::Local(at, values) => {
            let values = values_name(slot, values);
            (*at == slot) | values
        }
        Item::Break => false,
        Item::Continue => false,
        Item::Goto(_) => false,
        Item::Mark(_) => false,
        Item::Arm(_, e) => option_names(slot, e),
        Item::Leap(_) => false,
        Item::Land(_) => false,
        Item::Arrival(_) => false,
        Item::Note(_) => false,
    }
}

#[cycle(items)]
fn sections_name(slot: u32, sections: &[Section]) -> bool
    ensures { result ≡ not (sections_lack slot (sections_of sections.now)) }
{
    for i in 0..sections.len() {
        if list_names(slot, &sections[i].list) {
            return true;
        }
    }
    false
}
