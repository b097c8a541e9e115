ghost use Rattle.std.specs.Prelude.{◌≡◌, eqb, map, OnOk};
ghost use Rattle.c_tree.specs.ExpressionTrees.{expression_tree, place_tree, node_tree, arguments};
ghost use Rattle.tidy_slots.specs.Counts.{one_if, home_count, expression_count, place_count, node_count, arguments_count};
ghost use Rattle.tidy_slots.specs.Added.{Adds};

use c_tree::{Expression, Home, Node, Place};
use c_types::{List, Memory};

/// One more for the slot, if it has a count. `Memory` where no `u64` counts them.
pub fn count_slot(counts: &mut List<u64>, slot: u32) -> Result<(), Memory>
    ensures { OnOk result (Adds counts.old (λ g. one_if (eqb slot g)) counts.new) }
{
    let at = slot as usize;
    if at >= counts.len() {
        return Ok(());
    }
    match counts.as_slice()[at].checked_add(1) {
        Some(n) => {
            counts.set(at, n);
            Ok(())
        }
        None => Err(Memory),
    }
}

fn count_home(counts: &mut List<u64>, home: &Home) -> Result<(), Memory>
    ensures { OnOk result (Adds counts.old (λ g. home_count g home.now) counts.new) }
{
    match home {
        Home::Slot(at) => count_slot(counts, *at),
        Home::Global(_) => Ok(()),
    }
}

/// Adds how often an expression names each slot.
#[cycle(counting)]
pub fn count_expression(counts: &mut List<u64>, e: &Expression) -> Result<(), Memory>
    ensures { OnOk result (Adds counts.old (λ g. expression_count g (expression_tree e.now)) counts.new) }
{
    count_node(counts, &e.node)
}

#[cycle(counting)]
fn count_place(counts: &mut List<u64>, place: &Place) -> Result<(), Memory>
    ensures { OnOk result (Adds counts.old (λ g. place_count g (place_tree place.now)) counts.new) }
{
    match place {
        Place::Var(home) => count_home(counts, home),
        Place::Cell(home, a) => {
            count_home(counts, home)?;
            count_expression(counts, a.get())
        }
    }
}

#[cycle(counting)]
fn count_node(counts: &mut List<u64>, node: &Node) -> Result<(), Memory>
    ensures { OnOk result (Adds counts.old (λ g. node_count g (node_tree node.now)) counts.new) }
{
    match node {
        Node::Array(home) => count_home(counts, home),
        Node::Read(place) => count_place(counts, place),
        Node::Unary(_, a) => count_expression(counts, a.get()),
        Node::Cast(a) => count_expression(counts, a.get()),
        Node::Binary(_, a, b) => {
            count_expression(counts, a.get())?;
            count_expression(counts, b.get())
        }
        Node::Conditional(a, b, c) => {
            count_expression(counts, a.get())?;
            count_expression(counts, b.get())?;
            count_expression(counts, c.get())
        }
        Node::Assign(place, a) => {
            count_place(counts, place)?;
            count_expression(counts, a.get())
        }
        Node::Update(_, place, a) => {
            count_place(counts, place)?;
            count_expression(counts, a.get())
        }
        Node::Count(place, _, _) => count_place(counts, place),
        Node::Comma(a, b) => {
            count_expression(counts, a.get())?;
            count_expression(counts, b.get())
        }
        Node::Call(_, xs) => count_arguments(counts, xs.as_slice()),
        Node::Number(_) => Ok(()),
        Node::Character(_) => Ok(()),
        Node::EnumName(_, _) => Ok(()),
        Node::Text(_) => Ok(()),
    }
}

#[cycle(counting)]
fn count_arguments(counts: &mut List<u64>, items: &[Expression]) -> Result<(), Memory>
    ensures { OnOk result (Adds counts.old (λ g. arguments_count g (arguments (map expression_tree items.now))) counts.new) }
{
    for i in 0..items.len() {
        count_expression(counts, &items[i])?;
    }
    Ok(())
}
