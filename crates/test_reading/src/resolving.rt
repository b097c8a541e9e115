//! Texts that are read step by step: their tokens, their syntax, their program.

use crate::reading::NoJumps;
use crate::refusals::{Place, is_at};
use c_lexer::tokens;
use c_parser::parse;
use c_scopes::resolve;
use c_tree::{Program, Top};
use c_types::ReadStop;
use std::alloc::Global;

fn program(alloc: Global, text: &[u8]) -> Result<Program, ReadStop> {
    let tokens = tokens(alloc, text)?;
    let syntax = parse(alloc, text, &tokens)?;
    resolve(alloc, &NoJumps, text, &tokens, syntax)
}

const TEXT: &[u8] = b"/* x */ int x; int f(void) { return x; }";

/// Whether this stands in the place of the TEXT that it is to stand in.
fn is_in_place(at: usize, top: &Top) -> bool {
    match top {
        Top::Note(note) => at == 0 && note.as_slice() == b"/* x */".as_slice(),
        Top::Global(variable) => at == 1 && variable.slot.name.as_str() == "x",
        Top::Function(function) => at == 2 && function.name.as_str() == "f",
        _ => false,
    }
}

/// Whether the program is that of the TEXT.
fn has_three(program: &Program) -> bool {
    for (at, top) in program.tops.as_slice().iter().enumerate() {
        if !is_in_place(at, top) {
            return false;
        }
    }
    program.tops.len() == 3
}

fn resolves(alloc: Global) -> Result<bool, ReadStop> {
    let found = program(alloc, TEXT)?;
    let met = has_three(&found);
    drop(found);
    Ok(met)
}

fn stops(alloc: Global, text: &[u8], place: Place) -> bool {
    match program(alloc, text) {
        Ok(found) => {
            drop(found);
            false
        }
        Err(stop) => is_at(stop, place),
    }
}

#[test]
fn resolves_names(rt: HostRuntime) {
    assert!(rt; resolves(rt.alloc()) == Ok(true));
    assert!(rt; stops(rt.alloc(), b"int f(void) { return x; }", (20, 1, 22, 21)));
}
