//! The pieces in which programs print.

ghost use Rattle.rg_ports.specs.Written.{Untold};

use crate::printing::program_of;
use c_printer::{print, print_to};
use c_tree::{Item, Program, Top};
use c_types::{List, Memory};
use rg_ports::{Failed, Sink};
use std::alloc::Global;
use std::mem;

/// Keeps the length of the longest piece and of all.
#[derive(Drop)]
struct Lengths {
    longest: usize,
    total: usize,
}

impl Sink for Lengths {
    ghost written = { λ s. Untold };

    ghost faults = { λ s. 0 };

    ghost counts = { λ s. tt };

    fn write(&mut self, piece: &[u8]) -> Result<usize, Failed> {
        self.longest = self.longest.max(piece.len());
        self.total = self.total.saturating_add(piece.len());
        Ok(piece.len())
    }
}

/// Puts a body into blocks, so many levels deep.
fn nest(alloc: Global, body: &mut List<Item>, levels: u32) -> Result<(), Memory> {
    for _ in 0..levels {
        let inner = mem::replace(body, List::new(alloc));
        body.push(Item::Block(inner))?;
    }
    Ok(())
}

/// Does so with the function that stands first.
fn nest_first(alloc: Global, program: &mut Program) -> Result<(), Memory> {
    match program.tops.get_mut(0) {
        Some(Top::Function(function)) => match &mut function.body {
            Some(body) => nest(alloc, body, 400),
            None => Err(Memory),
        },
        _ => Err(Memory),
    }
}

fn length_of(alloc: Global, program: &Program) -> Result<usize, Memory> {
    let text = print(alloc, program)?;
    let length = text.len();
    drop(text);
    Ok(length)
}

/// Whether the longest piece in which a program prints has 4,096 bytes, and all together those of its text.
fn is_in_short_pieces(alloc: Global, program: &mut Program) -> Result<bool, Memory> {
    nest_first(alloc, program)?;
    let mut out = Lengths {
        longest: 0,
        total: 0,
    };
    let is_written = print_to(program, &mut out).is_ok();
    let length = length_of(alloc, program)?;
    Ok(is_written && out.longest == 4096 && out.total == length)
}

fn prints_in_short_pieces(alloc: Global) -> Result<bool, Memory> {
    let mut program = program_of(alloc, "int f(int a) { 1; }")?;
    let met = is_in_short_pieces(alloc, &mut program);
    drop(program);
    met
}

#[test]
fn prints_deep_nesting_in_short_pieces(rt: HostRuntime) {
    assert!(rt; prints_in_short_pieces(rt.alloc()) == Ok(true));
}
