ghost use Rattle.std.specs.Prelude.{◌≡◌, ◌-◌, [], true, option_map, length, None, IfOk, OnOk};
ghost use Rattle.c_tree.specs.Changed.{one};
ghost use Rattle.c_tree.specs.ExpressionTrees.{expression_tree};
ghost use Rattle.c_tree.specs.TestTrees.{Source, test_tree, selector_tree};
ghost use Rattle.c_tree.specs.Trees.{Then, Nil, If, While, Do, For, Switch, Goto, Mark, Break, Continue, expression_trees, trees_of, sections_of, join};
ghost use Rattle.flat_laws.specs.Pieces.{mark_of, test_or_one, third_items, assigned_cells};
ghost use Rattle.flat_laws.specs.FlatForm.{assigned, exit as the_exit, end_goto as the_end_goto, flat_for, flat_loop};
ghost use Rattle.flat_items.specs.Pieces.{for_loop, initialised_of};
ghost use Rattle.flat_items.specs.Plans.{aim_of};
ghost use Rattle.c_tree.specs.Views.{tree_at};

use crate::plans::{Aim, Scope};
use crate::values::{assignment, cell_assignment, cell_cleared, test_of};
use c_copies::{copy_expression, copy_item, make_do, make_for, make_if, make_switch, make_while};
use c_tree::{Expression, Item, Section, Selector, Slot, Test};
use c_types::{Boxed, IntKind, List, Memory};
use std::alloc::Global;

/// Puts an item behind the others.
pub fn add(out: &mut List<Item>, item: Item) -> Result<(), Memory>
    ensures { OnOk result (trees_of out.new ≡ join (trees_of out.old) (one (tree_at item))) }
{
    out.push(item)
}

/// A copy of an item that stays.
pub fn add_copy(alloc: Global, item: &Item, out: &mut List<Item>) -> Result<(), Memory>
    ensures { OnOk result (trees_of out.new ≡ join (trees_of out.old) (one (tree_at item.now))) }
{
    add(out, copy_item(alloc, item)?)
}

/// A goto.
pub fn add_goto(label: u32, out: &mut List<Item>) -> Result<(), Memory>
    ensures { OnOk result (trees_of out.new ≡ join (trees_of out.old) (one (Goto label))) }
{
    add(out, Item::Goto(label))
}

/// A label.
pub fn add_label(label: u32, out: &mut List<Item>) -> Result<(), Memory>
    ensures { OnOk result (trees_of out.new ≡ join (trees_of out.old) (one (Mark label))) }
{
    add(out, Item::Mark(label))
}

/// The label to which an exit leads, if it became a goto.
pub fn add_mark(aim: Aim, out: &mut List<Item>) -> Result<(), Memory>
    ensures { OnOk result (trees_of out.new ≡ join (trees_of out.old) (mark_of (aim_of aim))) }
{
    match aim {
        Aim::Stays => Ok(()),
        Aim::Becomes(label) => add_label(label, out),
        Aim::Absent => Ok(()),
    }
}

/// A `break`, or the goto that it becomes.
pub fn add_break(aim: Aim, out: &mut List<Item>) -> Result<(), Memory>
    ensures { OnOk result (trees_of out.new ≡ join (trees_of out.old) (the_exit (aim_of aim) Break)) }
{
    match aim {
        Aim::Becomes(label) => add_goto(label, out),
        _ => add(out, Item::Break),
    }
}

/// A `continue`, or the goto that it becomes.
pub fn add_continue(aim: Aim, out: &mut List<Item>) -> Result<(), Memory>
    ensures { OnOk result (trees_of out.new ≡ join (trees_of out.old) (the_exit (aim_of aim) Continue)) }
{
    match aim {
        Aim::Becomes(label) => add_goto(label, out),
        _ => add(out, Item::Continue),
    }
}

/// The goto at the end of a section of a switch that becomes gotos.
pub fn add_end(ends: bool, aim: Aim, out: &mut List<Item>) -> Result<(), Memory>
    ensures { OnOk result (trees_of out.new ≡ join (trees_of out.old) (the_end_goto ends (aim_of aim))) }
{
    if ends { add_leaving(aim, out) } else { Ok(()) }
}

fn add_leaving(aim: Aim, out: &mut List<Item>) -> Result<(), Memory>
    ensures { OnOk result (trees_of out.new ≡ join (trees_of out.old) (the_end_goto true (aim_of aim))) }
{
    match aim {
        Aim::Stays => Ok(()),
        Aim::Becomes(label) => add_goto(label, out),
        Aim::Absent => Ok(()),
    }
}

/// An `if` with these lists.
pub fn add_if(
    alloc: Global,
    test: &Test,
    a: List<Item>,
    b: List<Item>,
    out: &mut List<Item>,
) -> Result<(), Memory>
    ensures { OnOk result (trees_of out.new ≡ join (trees_of out.old) (one (If (test_tree test.now) (trees_of a) (trees_of b)))) }
{
    add(out, make_if(alloc, test, a, b)?)
}

fn with_mark(a: List<Item>, aim: Aim) -> Result<List<Item>, Memory>
    ensures { IfOk result (λ it. trees_of it ≡ join (trees_of a) (mark_of (aim_of aim))) }
{
    let mut a = a;
    add_mark(aim, &mut a)?;
    Ok(a)
}

/// A `while` with this body and the labels of its exits.
pub fn add_while(
    alloc: Global,
    test: &Test,
    a: List<Item>,
    scope: Scope,
    out: &mut List<Item>,
) -> Result<(), Memory>
    ensures { OnOk result (trees_of out.new ≡ join (trees_of out.old) (flat_loop (λ body. While (test_tree test.now) body) (trees_of a) (aim_of scope.breaks) (aim_of scope.continues))) }
{
    let body = with_mark(a, scope.continues)?;
    add(out, make_while(alloc, test, body)?)?;
    add_mark(scope.breaks, out)
}

/// A `do` with this body and the labels of its exits.
pub fn add_do(
    alloc: Global,
    test: &Test,
    a: List<Item>,
    scope: Scope,
    out: &mut List<Item>,
) -> Result<(), Memory>
    ensures { OnOk result (trees_of out.new ≡ join (trees_of out.old) (flat_loop (λ body. Do body (test_tree test.now)) (trees_of a) (aim_of scope.breaks) (aim_of scope.continues))) }
{
    let body = with_mark(a, scope.continues)?;
    add(out, make_do(alloc, body, test)?)?;
    add_mark(scope.breaks, out)
}

fn with_third(
    alloc: Global,
    a: List<Item>,
    third: &Option<Boxed<Expression>>,
) -> Result<List<Item>, Memory>
    ensures { IfOk result (λ it. trees_of it ≡ join (trees_of a) (third_items (option_map expression_tree third.now))) }
{
    let mut a = a;
    match third {
        Some(e) => {
            let e = copy_expression(alloc, e.get())?;
            add(&mut a, Item::Evaluate(e))?;
            Ok(a)
        }
        None => Ok(a),
    }
}

fn made_while(
    alloc: Global,
    test: &Option<Boxed<Expression>>,
    a: List<Item>,
) -> Result<Item, Memory>
    ensures { IfOk result (λ it. tree_at it ≡ While (Source (test_or_one (option_map expression_tree test.now))) (trees_of a)) }
{
    let test = test_of(alloc, test)?;
    Ok(Item::While(test, a))
}

fn add_jumpy(
    alloc: Global,
    test: &Option<Boxed<Expression>>,
    third: &Option<Boxed<Expression>>,
    a: List<Item>,
    out: &mut List<Item>,
) -> Result<(), Memory>
    ensures { OnOk result (trees_of out.new ≡ join (trees_of out.old) (one (While (Source (test_or_one (option_map expression_tree test.now))) (join (trees_of a) (third_items (option_map expression_tree third.now)))))) }
{
    let body = with_third(alloc, a, third)?;
    let made = made_while(alloc, test, body)?;
    add(out, made)
}

fn add_calm(
    alloc: Global,
    test: &Option<Boxed<Expression>>,
    third: &Option<Boxed<Expression>>,
    a: List<Item>,
    out: &mut List<Item>,
) -> Result<(), Memory>
    ensures { OnOk result (trees_of out.new ≡ join (trees_of out.old) (one (For Nil (option_map expression_tree test.now) (option_map expression_tree third.now) (trees_of a)))) }
{
    let made = make_for(alloc, List::new(alloc), test, third, a)?;
    add(out, made)
}

fn add_loop(
    alloc: Global,
    jumpy: bool,
    test: &Option<Boxed<Expression>>,
    third: &Option<Boxed<Expression>>,
    a: List<Item>,
    out: &mut List<Item>,
) -> Result<(), Memory>
    ensures { OnOk result (trees_of out.new ≡ join (trees_of out.old) (one (for_loop jumpy (option_map expression_tree test.now) (option_map expression_tree third.now) (trees_of a)))) }
{
    if jumpy {
        add_jumpy(alloc, test, third, a, out)
    } else {
        add_calm(alloc, test, third, a, out)
    }
}

/// A `for` whose first part is gone, with this body: a jumpy one is a `while` with its third part last.
pub fn add_for(
    alloc: Global,
    jumpy: bool,
    test: &Option<Boxed<Expression>>,
    third: &Option<Boxed<Expression>>,
    a: List<Item>,
    scope: Scope,
    out: &mut List<Item>,
) -> Result<(), Memory>
    ensures { OnOk result (trees_of out.new ≡ join (trees_of out.old) (flat_for jumpy (option_map expression_tree test.now) (option_map expression_tree third.now) (trees_of a) (aim_of scope.breaks) (aim_of scope.continues))) }
{
    let marked = with_mark(a, scope.continues)?;
    add_loop(alloc, jumpy, test, third, marked, out)?;
    add_mark(scope.breaks, out)
}

/// A switch with these sections and the label of its exit.
pub fn add_switch(
    alloc: Global,
    selector: &Selector,
    sections: List<Section>,
    breaks: Aim,
    out: &mut List<Item>,
) -> Result<(), Memory>
    ensures { OnOk result (trees_of out.new ≡ join (trees_of out.old) (Then (Switch (selector_tree selector.now) (sections_of sections)) (mark_of (aim_of breaks)))) }
{
    add(out, make_switch(alloc, selector, sections)?)?;
    add_mark(breaks, out)
}

fn add_cleared(
    alloc: Global,
    kind: IntKind,
    slot: u32,
    from: usize,
    cells: usize,
    out: &mut List<Item>,
) -> Result<(), Memory>
    ensures { OnOk result (trees_of out.new ≡ join (trees_of out.old) (assigned_cells kind slot from [] (cells - from))) }
{
    for i in from..cells {
        add(out, cell_cleared(alloc, kind, slot, i)?)?;
    }
    Ok(())
}

/// The assignments of initialisers to the first cells of an array, and of 0 to the others.
fn add_cells(
    alloc: Global,
    kind: IntKind,
    slot: u32,
    given: List<Expression>,
    cells: usize,
    out: &mut List<Item>,
) -> Result<(), Memory>
    ensures { OnOk result (trees_of out.new ≡ join (trees_of out.old) (assigned_cells kind slot 0 (expression_trees given) (cells - length given))) }
{
    let count = given.len();
    let mut at = 0;
    for e in given.into_vec() {
        add(out, cell_assignment(alloc, kind, slot, at, e)?)?;
        at += 1;
    }
    add_cleared(alloc, kind, slot, count, cells, out)
}

fn add_number(
    alloc: Global,
    kind: IntKind,
    slot: u32,
    given: List<Expression>,
    out: &mut List<Item>,
) -> Result<(), Memory>
    ensures { OnOk result (trees_of out.new ≡ join (trees_of out.old) (assigned kind slot None (expression_trees given))) }
{
    let mut given = given;
    if given.is_empty() {
        Ok(())
    } else {
        let first = given.remove(0);
        add(out, assignment(alloc, kind, slot, first)?)
    }
}

fn add_assigned(
    alloc: Global,
    kind: IntKind,
    cells: Option<u32>,
    slot: u32,
    given: List<Expression>,
    out: &mut List<Item>,
) -> Result<(), Memory>
    ensures { OnOk result (trees_of out.new ≡ join (trees_of out.old) (assigned kind slot cells (expression_trees given))) }
{
    match cells {
        Some(cells) => add_cells(alloc, kind, slot, given, cells as usize, out),
        None => add_number(alloc, kind, slot, given, out),
    }
}

/// The assignments that initialise one of these variables.
pub fn add_initialised(
    alloc: Global,
    slots: &[Slot],
    slot: u32,
    given: List<Expression>,
    out: &mut List<Item>,
) -> Result<(), Memory>
    ensures { OnOk result (trees_of out.new ≡ join (trees_of out.old) (initialised_of slots.now slot (expression_trees given))) }
{
    match slots.get(slot as usize) {
        Some(found) => add_assigned(alloc, found.kind, found.cells, slot, given, out),
        None => add_assigned(alloc, IntKind::Int, None, slot, given, out),
    }
}
