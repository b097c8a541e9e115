//! Texts, and what is told of the body of their function once it has no goto.

ghost use Rattle.std.specs.Prelude.{IfOk, OnOk};
ghost use Rattle.c_tree.specs.InRange.{body_of};
ghost use Rattle.c_tree.specs.WellMade.{IsWellMade};
ghost use Rattle.c_resolved_laws.specs.Counts.{IsResolved};
ghost use Rattle.flat_function.specs.Behaviour.{IsOfResolved};

use crate::cases::{Asked, CASES};
use crate::moves::tell_moves;
use crate::reports::tell_report;
use crate::single_steps::{tell_neighbours, tell_unread};
use c_text::read;
use c_tree::{Function, Program, Top};
use c_types::{List, Memory};
use flat_function::flatten;
use guard_vars::convert;
use std::alloc::Global;

/// The program of a text.
pub fn program_of(alloc: Global, text: &str) -> Result<Program, Memory>
    ensures { IfOk result IsResolved }
{
    match read(alloc, text.as_bytes()) {
        Ok(program) => Ok(program),
        Err(_) => Err(Memory),
    }
}

/// Makes a function flat, and its gotos Leaps. Each of the texts has jumps.
fn make_leaps(alloc: Global, function: &mut Function) -> Result<(), Memory>
    requires { IsOfResolved function.old }
    ensures { OnOk result (IsWellMade (body_of function.new)) }
{
    let none = List::new(alloc);
    flatten(alloc, &none, &none, function)?;
    if !function.flat {
        return Err(Memory);
    }
    convert(alloc, function)
}

fn tell_body(
    alloc: Global,
    asked: Asked,
    function: &mut Function,
    out: &mut String,
) -> Result<(), Memory>
    requires { IsWellMade (body_of function.old) }
{
    match asked {
        Asked::Unread => return tell_unread(alloc, function, out),
        Asked::Neighbours => return tell_neighbours(alloc, function, out),
        _ => {}
    }
    match (asked, &mut function.body) {
        (Asked::Moves, Some(body)) => tell_moves(alloc, body, out),
        (Asked::Report, Some(body)) => tell_report(alloc, body, out),
        _ => Err(Memory),
    }
}

fn tell_function(
    alloc: Global,
    asked: Asked,
    function: &mut Function,
    out: &mut String,
) -> Result<(), Memory>
    requires { IsOfResolved function.old }
{
    make_leaps(alloc, function)?;
    tell_body(alloc, asked, function, out)
}

/// Tells of the function that stands first.
fn tell_first(
    alloc: Global,
    asked: Asked,
    program: &mut Program,
    out: &mut String,
) -> Result<(), Memory>
    requires { IsResolved program.old }
{
    if program.tops.is_empty() {
        return Err(Memory);
    }
    match program.tops.at_mut(0) {
        Top::Function(function) => tell_function(alloc, asked, function, out),
        _ => Err(Memory),
    }
}

fn tell(alloc: Global, asked: Asked, text: &str, out: &mut String) -> Result<(), Memory> {
    let mut program = program_of(alloc, text)?;
    let told = tell_first(alloc, asked, &mut program, out);
    drop(program);
    told
}

fn is_told(alloc: Global, asked: Asked, text: &str, want: &str) -> bool {
    let mut out = String::new(alloc);
    let told = tell(alloc, asked, text, &mut out).is_ok() && out.as_str() == want;
    drop(out);
    told
}

#[test]
fn bodies_move_as_they_are_to(rt: HostRuntime) {
    for (asked, text, want) in &CASES {
        assert!(rt; is_told(rt.alloc(), *asked, text, want), "{text}");
    }
}
