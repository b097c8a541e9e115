ghost use Rattle.std.specs.Prelude.{◌≡◌, option_map, OnOk};
ghost use Rattle.c_tree.specs.ExpressionTrees.{expression_tree};
ghost use Rattle.c_tree.specs.TestTrees.{test_tree, selector_tree};
ghost use Rattle.c_tree.specs.Trees.{expression_trees, trees_of, sections_of};
ghost use Rattle.c_tree.specs.Views.{tree_at};
ghost use Rattle.tidy_slots.specs.Counts.{test_count, selector_count, option_count, all_count, values_count, list_count, item_count, sections_count};
ghost use Rattle.tidy_slots.specs.Added.{Adds};

use crate::count_expressions::{count_expression, count_slot};
use c_tree::{Expression, Item, Section, Selector, Test};
use c_types::{Boxed, List, Memory};

fn count_test(counts: &mut List<u64>, test: &Test) -> Result<(), Memory>
    ensures { OnOk result (Adds counts.old (λ g. test_count g (test_tree test.now)) counts.new) }
{
    match test {
        Test::Source(e) => count_expression(counts, e),
        Test::On(_) => Ok(()),
        Test::Off(_) => Ok(()),
        Test::AndOff(_, rest) => count_test(counts, rest.get()),
        Test::OrOn(_, rest) => count_test(counts, rest.get()),
    }
}

fn count_selector(counts: &mut List<u64>, selector: &Selector) -> Result<(), Memory>
    ensures { OnOk result (Adds counts.old (λ g. selector_count g (selector_tree selector.now)) counts.new) }
{
    match selector {
        Selector::Source(e) => count_expression(counts, e),
        Selector::Pick(_, _, rest) => count_selector(counts, rest.get()),
    }
}

fn count_option(counts: &mut List<u64>, e: &Option<Expression>) -> Result<(), Memory>
    ensures { OnOk result (Adds counts.old (λ g. option_count g (option_map expression_tree e.now)) counts.new) }
{
    match e {
        Some(e) => count_expression(counts, e),
        None => Ok(()),
    }
}

fn count_part(counts: &mut List<u64>, e: &Option<Boxed<Expression>>) -> Result<(), Memory>
    ensures { OnOk result (Adds counts.old (λ g. option_count g (option_map expression_tree e.now)) counts.new) }
{
    match e {
        Some(e) => count_expression(counts, e.get()),
        None => Ok(()),
    }
}

fn count_each(counts: &mut List<u64>, items: &[Expression]) -> Result<(), Memory>
    ensures { OnOk result (Adds counts.old (λ g. all_count g (expression_trees items.now)) counts.new) }
{
    for i in 0..items.len() {
        count_expression(counts, &items[i])?;
    }
    Ok(())
}

fn count_values(counts: &mut List<u64>, values: &Option<List<Expression>>) -> Result<(), Memory>
    ensures { OnOk result (Adds counts.old (λ g. values_count g (option_map expression_trees values.now)) counts.new) }
{
    match values {
        Some(es) => count_each(counts, es.as_slice()),
        None => Ok(()),
    }
}

/// Adds how often a list names each slot that has a count. `Memory` where no `u64` counts them.
#[cycle(count)]
pub fn count_list(counts: &mut List<u64>, list: &List<Item>) -> Result<(), Memory>
    ensures { OnOk result (Adds counts.old (λ g. list_count g (trees_of list.now)) counts.new) }
{
    count_items(counts, list.as_slice())
}

#[cycle(count)]
fn count_items(counts: &mut List<u64>, items: &[Item]) -> Result<(), Memory>
    ensures { OnOk result (Adds counts.old (λ g. list_count g (trees_of items.now)) counts.new) }
{
    for i in 0..items.len() {
        count_item(counts, &items[i])?;
    }
    Ok(())
}

#[cycle(count)]
fn count_sections(counts: &mut List<u64>, sections: &[Section]) -> Result<(), Memory>
    ensures { OnOk result (Adds counts.old (λ g. sections_count g (sections_of sections.now)) counts.new) }
{
    for i in 0..sections.len() {
        count_list(counts, &sections[i].list)?;
    }
    Ok(())
}

#[cycle(count)]
fn count_item(counts: &mut List<u64>, item: &Item) -> Result<(), Memory>
    ensures { OnOk result (Adds counts.old (λ g. item_count g (tree_at item.now)) counts.new) }
{
    match item {
        Item::If(test, a, b) => {
            count_test(counts, test)?;
            count_list(counts, a)?;
            count_list(counts, b)
        }
        Item::While(test, a) => {
            count_test(counts, test)?;
            count_list(counts, a)
        }
        Item::Do(a, test) => {
            count_list(counts, a)?;
            count_test(counts, test)
        }
        Item::For(first, test, third, a) => {
            count_list(counts, first)?;
            count_part(counts, test)?;
            count_part(counts, third)?;
            count_list(counts, a)
        }
        Item::Switch(selector, sections) => {
            count_selector(counts, selector)?;
            count_sections(counts, sections.as_slice())
        }
        Item::Block(a) => count_list(counts, a),
        Item::Evaluate(e) => count_expression(counts, e),
        Item::Return(e) => count_option(counts, e),
        Item::Local(at, values) => {
            count_slot(counts, *at)?;
            count_values(counts, values)
        }
        Item::Arm(_, e) => count_option(counts, e),
        Item::Break => Ok(()),
        Item::Continue => Ok(()),
        Item::Goto(_) => Ok(()),
        Item::Mark(_) => Ok(()),
        Item::Leap(_) => Ok(()),
        Item::Land(_) => Ok(()),
        Item::Arrival(_) => Ok(()),
        Item::Note(_) => Ok(()),
    }
}
