//! Names of a program, and copies of bodies.

use crate::guards::{are_names, name};
use c_copies::{copy_items, file_names, names};
use c_tree::{Expression, Function, GlobalVariable, Item, Node, Program, Slot, Top};
use c_types::{IntKind, List, Memory};
use std::alloc::Global;
use std::mem;

fn variable(alloc: Global, text: &str) -> Result<Slot, Memory> {
    Ok(Slot {
        name: name(alloc, text)?,
        kind: IntKind::Int,
        cells: None,
        constant: false,
    })
}

/// `getchar();`
fn call(alloc: Global) -> Result<Item, Memory> {
    let callee = name(alloc, "getchar")?;
    Ok(Item::Evaluate(Expression {
        kind: Some(IntKind::Int),
        node: Node::Call(callee, List::new(alloc)),
    }))
}

fn body(alloc: Global) -> Result<List<Item>, Memory> {
    let mut body = List::new(alloc);
    body.push(call(alloc)?)?;
    Ok(body)
}

/// `main` without parameters, variables and labels.
fn main_of(alloc: Global) -> Result<Function, Memory> {
    let name = name(alloc, "main")?;
    Ok(Function {
        name,
        result: Some(IntKind::Int),
        file_only: false,
        params: 1,
        slots: List::new(alloc),
        labels: List::new(alloc),
        body: None,
        flat: false,
    })
}

/// Gives a function a parameter without a name, a variable `x`, a label `end` and a call.
fn fill(alloc: Global, function: &mut Function) -> Result<(), Memory> {
    function.slots.push(variable(alloc, "")?)?;
    function.slots.push(variable(alloc, "x")?)?;
    function.labels.push(name(alloc, "end")?)?;
    let body = body(alloc)?;
    drop(mem::replace(&mut function.body, Some(body)));
    Ok(())
}

fn filled(alloc: Global) -> Result<Function, Memory> {
    let mut function = main_of(alloc)?;
    fill(alloc, &mut function)?;
    Ok(function)
}

fn global(alloc: Global) -> Result<GlobalVariable, Memory> {
    Ok(GlobalVariable {
        slot: variable(alloc, "x")?,
        init: None,
        file_only: false,
    })
}

fn program(alloc: Global) -> Result<Program, Memory> {
    let mut tops = List::new(alloc);
    tops.push(Top::Global(global(alloc)?))?;
    tops.push(Top::Function(filled(alloc)?))?;
    Ok(Program { tops })
}

fn has_file_names(alloc: Global, program: &Program) -> Result<bool, Memory> {
    let names = file_names(alloc, program)?;
    let met = are_names(&names, &["main", "x"]);
    drop(names);
    Ok(met)
}

fn has_names(alloc: Global, program: &Program) -> Result<bool, Memory> {
    let names = names(alloc, program)?;
    let met = are_names(&names, &["end", "getchar", "main", "x"]);
    drop(names);
    Ok(met)
}

fn has_all_names(alloc: Global) -> Result<bool, Memory> {
    let program = program(alloc)?;
    let of_file = has_file_names(alloc, &program);
    let of_all = has_names(alloc, &program);
    drop(program);
    Ok(of_file == Ok(true) && of_all == Ok(true))
}

#[test]
fn names_of_a_program(rt: HostRuntime) {
    assert!(rt; has_all_names(rt.alloc()) == Ok(true));
}

/// Puts a `break` into so many blocks, each in the one before.
fn nest(alloc: Global, list: &mut List<Item>, levels: u32) -> Result<(), Memory> {
    list.push(Item::Break)?;
    for _ in 0..levels {
        let inner = mem::replace(list, List::new(alloc));
        list.push(Item::Block(inner))?;
    }
    Ok(())
}

/// Puts labels into a list, each with another number.
fn label(list: &mut List<Item>, count: u32) -> Result<(), Memory> {
    for number in 0..count {
        list.push(Item::Mark(number))?;
    }
    Ok(())
}

fn is_copied(alloc: Global, list: &List<Item>) -> Result<bool, Memory> {
    let copy = copy_items(alloc, list)?;
    let same = copy.len() == list.len() && copy == *list;
    drop(copy);
    Ok(same)
}

/// Whether a `break` in so many blocks is copied.
fn copies_nested(alloc: Global, levels: u32) -> Result<bool, Memory> {
    let mut list = List::new(alloc);
    nest(alloc, &mut list, levels)?;
    let met = is_copied(alloc, &list);
    drop(list);
    met
}

/// Whether so many labels are copied.
fn copies_labels(alloc: Global, count: u32) -> Result<bool, Memory> {
    let mut list = List::new(alloc);
    label(&mut list, count)?;
    let met = list.len() == count as usize && is_copied(alloc, &list)?;
    drop(list);
    Ok(met)
}

fn copies_call(alloc: Global) -> Result<bool, Memory> {
    let body = body(alloc)?;
    let met = is_copied(alloc, &body);
    drop(body);
    met
}

#[test]
fn copies_are_equal(rt: HostRuntime) {
    assert!(rt; copies_call(rt.alloc()) == Ok(true));
    assert!(rt; copies_nested(rt.alloc(), 399) == Ok(true));
    assert!(rt; copies_labels(rt.alloc(), 150000) == Ok(true));
}
