//! Items that name slots, by the numbers of the slots.

use crate::bodies::program_of;
use c_tree::{Item, Program, Test, Top};
use c_types::{List, Memory};
use std::alloc::Global;
use tidy_slots::{
    Numbers, item_names, items_name, list_names, names, new_number, new_numbers,
    renumber_expression, renumber_list, test_names,
};

/// The body of the function that stands first.
fn body_of(program: &Program) -> Option<&List<Item>> {
    match program.tops.get(0) {
        Some(Top::Function(function)) => function.body.as_ref(),
        _ => None,
    }
}

/// Slot 0 is assigned to slot 2 in a loop, while that isn't 0.
const LOOP: &str = "void f(int a, int b) { int c; while (c) { c = a; } }";

/// `LOOP` without slot 1.
const LOOP_WITHOUT: &str = "void f(int a) { int c; while (c) { c = a; } }";

/// Slot 0 is assigned to slot 2, outside of a loop.
const STEP: &str = "void f(int a, int b, int c) { c = a; }";

const STEP_WITHOUT: &str = "void f(int a, int c) { c = a; }";

fn assigns(item: &Item) -> bool {
    match item {
        Item::Evaluate(e) => names(0, e) && !names(1, e) && names(2, e),
        _ => false,
    }
}

/// Whether the test of a loop and the item in it name the slots that they are to.
fn loops(item: &Item) -> bool {
    match item {
        Item::While(test, body) => {
            test_names(2, test) && !test_names(3, test) && body.as_slice().iter().all(assigns)
        }
        _ => false,
    }
}

fn has_names(body: &List<Item>) -> bool {
    match body.as_slice() {
        [local, item] => item_names(2, local) && !item_names(0, local) && loops(item),
        _ => false,
    }
}

/// Whether the body of LOOP names the slots that it is to.
fn is_named(body: &List<Item>) -> bool {
    list_names(0, body) && !list_names(1, body) && items_name(2, body.as_slice()) && has_names(body)
}

fn are_named(alloc: Global) -> Result<bool, Memory> {
    let program = program_of(alloc, LOOP)?;
    let met = body_of(&program).is_some_and(is_named);
    drop(program);
    Ok(met)
}

#[test]
fn slots_are_named(rt: HostRuntime) {
    assert!(rt; are_named(rt.alloc()) == Ok(true));
}

/// The numbers of three slots once slot 1 is gone.
fn numbers_without(alloc: Global) -> Result<Numbers, Memory> {
    let gone = List::from_slice(alloc, &[false, true, false])?;
    new_numbers(alloc, &gone)
}

/// Gives the expression that stands first in a body its numbers, if one does, by the call for expressions.
fn renumber_first(numbers: &Numbers, body: &mut List<Item>) -> bool {
    match body.get_mut(0) {
        Some(Item::Evaluate(e)) => {
            renumber_expression(numbers, e);
            true
        }
        _ => false,
    }
}

/// Gives a body its numbers, which has an expression alone, or none in its own list.
fn renumber_body(numbers: &Numbers, body: &mut List<Item>) {
    if !renumber_first(numbers, body) {
        renumber_list(numbers, body);
    }
}

fn renumber(numbers: &Numbers, program: &mut Program) -> Result<(), Memory> {
    match program.tops.get_mut(0) {
        Some(Top::Function(function)) => match &mut function.body {
            Some(body) => {
                renumber_body(numbers, body);
                Ok(())
            }
            None => Err(Memory),
        },
        _ => Err(Memory),
    }
}

/// Whether the body of a text without slot 1 is that of the other text.
fn is_renumbered(
    alloc: Global,
    numbers: &Numbers,
    text: &str,
    without: &str,
) -> Result<bool, Memory> {
    let mut program = program_of(alloc, text)?;
    renumber(numbers, &mut program)?;
    let wanted = program_of(alloc, without)?;
    let met = body_of(&program).is_some() && body_of(&program) == body_of(&wanted);
    drop(wanted);
    drop(program);
    Ok(met)
}

fn are_renumbered(alloc: Global) -> Result<bool, Memory> {
    let numbers = numbers_without(alloc)?;
    let met = new_number(&numbers, 0) == 0
        && new_number(&numbers, 2) == 1
        && new_number(&numbers, 5) == 4
        && is_renumbered(alloc, &numbers, LOOP, LOOP_WITHOUT)?
        && is_renumbered(alloc, &numbers, STEP, STEP_WITHOUT)?;
    drop(numbers);
    Ok(met)
}

#[test]
fn later_slots_have_one_number_less(rt: HostRuntime) {
    assert!(rt; are_renumbered(rt.alloc()) == Ok(true));
}
