//! The labels whose guards can't go.

ghost use Rattle.std.specs.Prelude.{◌≡◌, ◌||◌, ◌==◌, ℕ, IfOk, OnOk};
ghost use Rattle.c_tree.specs.ExpressionTrees.{expression_tree};
ghost use Rattle.c_tree.specs.TestTrees.{test_tree, selector_tree};
ghost use Rattle.c_tree.specs.Trees.{trees_of, sections_of};
ghost use Rattle.guard_simplify.specs.Choice.{has as the_has, test_names, selector_names, ends_in_call as the_ends_in_call, barred, barred_in};
ghost use Rattle.guard_simplify.specs.Views.{arm_bars, bars_item};

use c_tree::{Expression, Item, Node, Section, Selector, Test};
use c_types::{List, Memory};
use std::alloc::Global;

pub fn has(labels: &[u32], label: u32) -> bool
    ensures { result ≡ the_has label labels.now }
{
    labels.iter().any(|other| *other == label)
}

fn add(labels: &mut List<u32>, label: u32) -> Result<(), Memory>
    ensures { OnOk result ((l : ℕ) → the_has l labels.new ≡ (the_has l labels.old || l == label)) }
{
    if has(labels.as_slice(), label) {
        return Ok(());
    }
    labels.push(label)
}

fn add_test(labels: &mut List<u32>, test: &Test) -> Result<(), Memory>
    ensures { OnOk result ((l : ℕ) → the_has l labels.new ≡ (the_has l labels.old || test_names l (test_tree test.now))) }
{
    match test {
        Test::Source(_) => Ok(()),
        Test::On(label) => add(labels, *label),
        Test::Off(label) => add(labels, *label),
        Test::AndOff(label, rest) => {
            add(labels, *label)?;
            add_test(labels, rest.get())
        }
        Test::OrOn(label, rest) => {
            add(labels, *label)?;
            add_test(labels, rest.get())
        }
    }
}

fn add_selector(labels: &mut List<u32>, selector: &Selector) -> Result<(), Memory>
    ensures { OnOk result ((l : ℕ) → the_has l labels.new ≡ (the_has l labels.old || selector_names l (selector_tree selector.now))) }
{
    match selector {
        Selector::Source(_) => Ok(()),
        Selector::Pick(label, _, rest) => {
            add(labels, *label)?;
            add_selector(labels, rest.get())
        }
    }
}

/// Whether the value of the expression may be that of a call, and missing.
fn ends_in_call(e: &Expression) -> bool
    ensures { result ≡ the_ends_in_call (expression_tree e.now) }
{
    match &e.node {
        Node::Call(_, _) => true,
        Node::Comma(_, last) => ends_in_call(last.get()),
        Node::Conditional(_, _, _) => e.kind.is_none(),
        _ => false,
    }
}

fn add_arm(labels: &mut List<u32>, label: u32, e: &Option<Expression>) -> Result<(), Memory>
    ensures { OnOk result ((l : ℕ) → the_has l labels.new ≡ (the_has l labels.old || arm_bars l label e.now)) }
{
    match e {
        Some(e) => {
            if ends_in_call(e) {
                add(labels, label)
            } else {
                Ok(())
            }
        }
        None => Ok(()),
    }
}

#[cycle(bars)]
fn add_item(labels: &mut List<u32>, item: &Item) -> Result<(), Memory>
    ensures { OnOk result ((l : ℕ) → the_has l labels.new ≡ (the_has l labels.old || bars_item l item.now)) }
{
    match item {
        Item::If(test, a, b) => {
            add_test(labels, test)?;
            add_list(labels, a)?;
            add_list(labels, b)
        }
        Item::While(test, a) => {
            add_test(labels, test)?;
            add_list(labels, a)
        }
        Item::Do(a, test) => {
            add_test(labels, test)?;
            add_list(labels, a)
        }
        Item::For(first, _, _, a) => {
            add_list(labels, first)?;
            add_list(labels, a)
        }
        Item::Switch(selector, sections) => {
            add_selector(labels, selector)?;
            add_section_list(labels, sections)
        }
        Item::Block(a) => add_list(labels, a),
        Item::Goto(label) => add(labels, *label),
        Item::Leap(label) => add(labels, *label),
        Item::Arm(label, e) => add_arm(labels, *label, e),
        _ => Ok(()),
    }
}

#[cycle(bars)]
fn add_list(labels: &mut List<u32>, list: &List<Item>) -> Result<(), Memory>
    ensures { OnOk result ((l : ℕ) → the_has l labels.new ≡ (the_has l labels.old || barred l (trees_of list.now))) }
{
    add_items(labels, list.as_slice())
}

#[cycle(bars)]
fn add_items(labels: &mut List<u32>, items: &[Item]) -> Result<(), Memory>
    ensures { OnOk result ((l : ℕ) → the_has l labels.new ≡ (the_has l labels.old || barred l (trees_of items.now))) }
{
    for i in 0..items.len() {
        add_item(labels, &items[i])?;
    }
    Ok(())
}

#[cycle(bars)]
fn add_section_list(labels: &mut List<u32>, sections: &List<Section>) -> Result<(), Memory>
    ensures { OnOk result ((l : ℕ) → the_has l labels.new ≡ (the_has l labels.old || barred_in l (sections_of sections.now))) }
{
    add_sections(labels, sections.as_slice())
}

#[cycle(bars)]
fn add_sections(labels: &mut List<u32>, sections: &[Section]) -> Result<(), Memory>
    ensures { OnOk result ((l : ℕ) → the_has l labels.new ≡ (the_has l labels.old || barred_in l (sections_of sections.now))) }
{
    for i in 0..sections.len() {
        add_list(labels, &sections[i].list)?;
    }
    Ok(())
}

/// The labels whose guards can't go from a body.
pub fn barred_labels(alloc: Global, body: &List<Item>) -> Result<List<u32>, Memory>
    ensures { IfOk result (λ labels. (l : ℕ) → the_has l labels ≡ barred l (trees_of body.now)) }
{
    let mut labels = List::new(alloc);
    add_list(&mut labels, body)?;
    Ok(labels)
}
