//! Single simplifications that a report may name, in whatever order.

ghost use Rattle.c_tree.specs.InRange.{body_of};
ghost use Rattle.c_tree.specs.WellMade.{IsWellMade};

use crate::printed::print_items;
use crate::reports::tell_derived;
use c_tree::{Function, Item, Path, Test};
use c_types::{List, Memory, Name};
use move_bodies::apply_one;
use report_moves::{Move, MoveKind};
use std::alloc::Global;
use std::mem;

/// A simplification of this kind, with this label, of a function at an item of its body.
struct Try {
    function: &'static str,
    kind: MoveKind,
    label: Option<&'static str>,
    item: u32,
}

fn name(alloc: Global, text: &str) -> Result<Name, Memory> {
    Ok(Name::from_string(String::from_str(alloc, text)?))
}

fn label_of(alloc: Global, label: Option<&str>) -> Result<Option<Name>, Memory> {
    match label {
        Some(label) => Ok(Some(name(alloc, label)?)),
        None => Ok(None),
    }
}

fn step_of(alloc: Global, it: &Try) -> Result<Move, Memory> {
    let function = name(alloc, it.function)?;
    let label = label_of(alloc, it.label)?;
    Ok(Move {
        function,
        kind: it.kind,
        label,
        path: Path {
            steps: List::new(alloc),
            item: it.item,
        },
    })
}

/// Whether the simplification that a step names is made.
fn makes(alloc: Global, function: &mut Function, it: &Try) -> Result<bool, Memory> {
    let step = step_of(alloc, it)?;
    let is_made = apply_one(alloc, function, &step);
    drop(step);
    is_made
}

/// Tries simplifications one after another, and writes a line for each: whether it is made, and the body then.
fn tell_tries(
    alloc: Global,
    function: &mut Function,
    tries: &[Try],
    out: &mut String,
) -> Result<(), Memory> {
    for it in tries {
        let is_made = makes(alloc, function, it)?;
        out.push_str(if is_made { "made: " } else { "refused: " })?;
        if let Some(body) = &function.body {
            print_items(alloc, out, body.as_slice())?;
        }
        out.push_str("\n")?;
    }
    Ok(())
}

/// One guard that nothing reads goes. Of the other, a step names its first place, its label and the function.
static UNREAD: [Try; 6] = [
    Try {
        function: "main",
        kind: MoveKind::Z5,
        label: Some("second"),
        item: 2,
    },
    Try {
        function: "main",
        kind: MoveKind::Z1,
        label: None,
        item: 0,
    },
    Try {
        function: "main",
        kind: MoveKind::Z5,
        label: Some("first"),
        item: 1,
    },
    Try {
        function: "main",
        kind: MoveKind::Z5,
        label: Some("second"),
        item: 0,
    },
    Try {
        function: "f",
        kind: MoveKind::Z5,
        label: Some("first"),
        item: 0,
    },
    Try {
        function: "main",
        kind: MoveKind::Z5,
        label: Some("first"),
        item: 0,
    },
];

/// Moves the Leaps of a function with two labels, and tries these.
pub fn tell_unread(alloc: Global, function: &mut Function, out: &mut String) -> Result<(), Memory>
    requires { IsWellMade (body_of function.old) }
{
    match &mut function.body {
        Some(body) => tell_derived(alloc, body, out)?,
        None => return Err(Memory),
    }
    tell_tries(alloc, function, &UNREAD, out)
}

fn guarded(alloc: Global, item: Item) -> Result<Item, Memory> {
    let mut list = List::new(alloc);
    list.push(item)?;
    Ok(Item::If(Test::Off(1), list, List::new(alloc)))
}

/// Three neighbours on one guard, of which the middle one arms it. No move makes such a body.
fn neighbours(alloc: Global) -> Result<List<Item>, Memory> {
    let mut body = List::new(alloc);
    body.push(guarded(alloc, Item::Break)?)?;
    body.push(guarded(alloc, Item::Arm(1, None))?)?;
    body.push(guarded(alloc, Item::Break)?)?;
    Ok(body)
}

/// Neighbours are joined where the first one doesn't arm.
static NEIGHBOURS: [Try; 2] = [
    Try {
        function: "main",
        kind: MoveKind::Z3,
        label: Some("second"),
        item: 1,
    },
    Try {
        function: "main",
        kind: MoveKind::Z3,
        label: Some("second"),
        item: 0,
    },
];

/// Gives a function with two labels another body, and tries these.
pub fn tell_neighbours(
    alloc: Global,
    function: &mut Function,
    out: &mut String,
) -> Result<(), Memory> {
    let body = neighbours(alloc)?;
    drop(mem::replace(&mut function.body, Some(body)));
    tell_tries(alloc, function, &NEIGHBOURS, out)
}
