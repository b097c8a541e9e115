//! The plain form of an `if` on a guard. No move makes one; what moves make stands in the tests of regoto_cli.

use crate::printing::{prints_as, program_of};
use c_copies::names;
use c_tree::{Function, Item, Program, Test, Top};
use c_types::{List, Memory, Name};
use plain_form::plain;
use std::alloc::Global;

/// The label is `c`, and a variable has the name that its guard would have.
const SOURCE: &str =
    "int f(int goto_c) { if (1) { putchar('c'); } else { putchar('d'); } return 0; }";

const PLAIN: &str = "int f(int goto_c) {
    int goto_c_2 = 0;
    if (goto_c_2) {
        putchar('c');
    } else {
        putchar('d');
    }
    return 0;
}
";

/// Gives a function a label, and lets each `if` in its list test the guard of it.
fn guard(alloc: Global, function: &mut Function) -> Result<(), Memory> {
    function.flat = true;
    let label = Name::from_string(String::from_str(alloc, "c")?);
    function.labels.push(label)?;
    match &mut function.body {
        Some(body) => {
            test_guard(body);
            Ok(())
        }
        None => Err(Memory),
    }
}

fn test_guard(body: &mut List<Item>) {
    for item in body.as_mut_slice() {
        if let Item::If(test, _, _) = item {
            *test = Test::On(0);
        }
    }
}

fn guard_first(alloc: Global, program: &mut Program) -> Result<(), Memory> {
    match program.tops.get_mut(0) {
        Some(Top::Function(function)) => guard(alloc, function),
        _ => Err(Memory),
    }
}

fn guarded(alloc: Global) -> Result<Program, Memory> {
    let mut program = program_of(alloc, SOURCE)?;
    guard_first(alloc, &mut program)?;
    Ok(program)
}

fn plain_of(alloc: Global, program: Program) -> Result<Program, Memory> {
    match names(alloc, &program) {
        Ok(names) => {
            let made = plain(alloc, &names, program);
            drop(names);
            made
        }
        Err(e) => {
            drop(program);
            Err(e)
        }
    }
}

fn gives_its_plain_form(alloc: Global) -> Result<bool, Memory> {
    let program = guarded(alloc)?;
    let made = plain_of(alloc, program)?;
    let met = prints_as(alloc, &made, PLAIN);
    drop(made);
    met
}

#[test]
fn gives_the_plain_form(rt: HostRuntime) {
    assert!(rt; gives_its_plain_form(rt.alloc()) == Ok(true));
}
