//! All moves and simplifications of a body in the form of the report, and the body then.

ghost use Rattle.c_tree.specs.Trees.{trees_of};
ghost use Rattle.c_tree.specs.WellMade.{IsWellMade};

use crate::printed::{print_items, print_path};
use c_tree::{Item, Path};
use c_types::{List, Memory};
use move_bodies::{derive, simplify_body};
use report_moves::MoveKind;
use std::alloc::{AllocError, Global};

fn kind(kind: MoveKind) -> &'static str {
    match kind {
        MoveKind::Out => "out",
        MoveKind::Lift => "lift",
        MoveKind::Inward => "in",
        MoveKind::Join => "join",
        MoveKind::Z1 => "z1",
        MoveKind::Z2 => "z2",
        MoveKind::Z3 => "z3",
        MoveKind::Z4 => "z4",
        MoveKind::Z5 => "z5",
    }
}

fn print_label(alloc: Global, out: &mut String, label: Option<u32>) -> Result<(), AllocError> {
    match label {
        Some(label) => out.push_str(&format!(in alloc; " {label} ")?),
        None => out.push_str(" - "),
    }
}

/// Writes a line: the kind, the label's number, and the path.
fn print_move(
    alloc: Global,
    out: &mut String,
    by: MoveKind,
    label: Option<u32>,
    at: &Path,
) -> Result<(), AllocError> {
    out.push_str(kind(by))?;
    print_label(alloc, out, label)?;
    print_path(alloc, out, at)?;
    out.push_str("\n")
}

/// Moves all Leaps of a body, and writes a line for each move.
pub fn tell_derived(alloc: Global, body: &mut List<Item>, out: &mut String) -> Result<(), Memory>
    requires { IsWellMade (trees_of body.old) }
{
    let moves = derive(alloc, body)?;
    for kept in moves.as_slice() {
        print_move(alloc, out, kept.kind, Some(kept.label), &kept.path)?;
    }
    Ok(())
}

fn tell_simplified(alloc: Global, body: &mut List<Item>, out: &mut String) -> Result<(), Memory> {
    let choices = simplify_body(alloc, body)?;
    for choice in choices.as_slice() {
        print_move(alloc, out, choice.kind, choice.label, &choice.path)?;
    }
    Ok(())
}

/// Moves and simplifies a body, and writes a line for each move, and the body then.
pub fn tell_report(alloc: Global, body: &mut List<Item>, out: &mut String) -> Result<(), Memory>
    requires { IsWellMade (trees_of body.old) }
{
    tell_derived(alloc, body, out)?;
    tell_simplified(alloc, body, out)?;
    print_items(alloc, out, body.as_slice())?;
    Ok(())
}
