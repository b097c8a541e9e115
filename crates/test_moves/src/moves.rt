//! The moves of a body in the order of the text, in lines.

ghost use Rattle.std.specs.Prelude.{IsSome, OnOk};
ghost use Rattle.c_tree.specs.Trees.{trees_of};
ghost use Rattle.c_tree.specs.WellMade.{IsWellMade};
ghost use Rattle.label_offsets.specs.Marks.{label_at as the_label_at};

use crate::printed::{print_items, print_path};
use c_tree::{Item, Path};
use c_types::{List, Memory};
use goto_lifting::lift;
use inward_moves::move_in;
use label_offsets::{Rule, first_leap, has_land, label_at, place_of, rule_at};
use outward_moves::move_out;
use sibling_elim::join;
use std::alloc::Global;

/// Moves the Leap at the path by the rule that applies to it, and answers where it then
/// stands, unless it was joined.
fn move_by_rule(alloc: Global, body: &mut List<Item>, at: &Path) -> Result<Option<Path>, Memory>
    requires well_made { IsWellMade (trees_of body.old) }
    requires leap { IsSome (the_label_at body.old at.now) }
    ensures { OnOk result (IsWellMade (trees_of body.new)) }
{
    match rule_at(alloc, body, at)? {
        Rule::SiblingBefore => {
            join(alloc, body, at)?;
            Ok(None)
        }
        Rule::SiblingAfter => {
            join(alloc, body, at)?;
            Ok(None)
        }
        Rule::LiftOf => Ok(Some(lift(alloc, body, at)?)),
        Rule::InwardOf => Ok(Some(move_in(alloc, body, at)?)),
        Rule::Outward => Ok(Some(move_out(alloc, body, at)?)),
    }
}

/// Writes where the Leap and its Land stand, and the rule that applies.
fn print_rule(alloc: Global, out: &mut String, body: &List<Item>, at: &Path) -> Result<(), Memory>
    requires well_made { IsWellMade (trees_of body.now) }
    requires leap { IsSome (the_label_at body.now at.now) }
{
    print_path(alloc, out, at)?;
    if let Some(label) = label_at(body, at)
        && has_land(body, label)
    {
        out.push_str(" to ")?;
        print_path(alloc, out, &place_of(alloc, body, 0, label)?)?;
    }
    let rule = rule_at(alloc, body, at)?;
    out.push_str(&format!(in alloc; " {rule:?}")?)?;
    Ok(())
}

/// Moves the Leap at the path once, and writes a line: where the Leap and its Land stand, the rule, where the Leap then
/// stands, and the body then. Answers which Leap is moved next: this one, or once it was joined, the first.
fn tell_move(
    alloc: Global,
    body: &mut List<Item>,
    at: &Path,
    out: &mut String,
) -> Result<Option<Path>, Memory>
    requires well_made { IsWellMade (trees_of body.old) }
    requires leap { IsSome (the_label_at body.old at.now) }
    ensures { OnOk result (IsWellMade (trees_of body.new)) }
{
    out.push_str("\n")?;
    print_rule(alloc, out, body, at)?;
    let next = match move_by_rule(alloc, body, at)? {
        Some(to) => {
            out.push_str(" ")?;
            print_path(alloc, out, &to)?;
            Some(to)
        }
        None => first_leap(alloc, body)?,
    };
    out.push_str(": ")?;
    print_items(alloc, out, body.as_slice())?;
    Ok(next)
}

/// Writes the body, then moves the first Leap until it is joined, then the next, until none is left.
pub fn tell_moves(alloc: Global, body: &mut List<Item>, out: &mut String) -> Result<(), Memory>
    requires { IsWellMade (trees_of body.old) }
{
    print_items(alloc, out, body.as_slice())?;
    let mut next = first_leap(alloc, body)?;
    for _ in 0..9 {
        let Some(at) = next else {
            return Ok(());
        };
        if label_at(body, &at).is_none() {
            return Err(Memory);
        }
        next = tell_move(alloc, body, &at, out)?;
    }
    Err(Memory)
}
