//! Comments among the items of a body.

ghost use Rattle.std.specs.Prelude.{◌≡◌, ◌++◌, ◌∷◌, [], map, OnOk};
ghost use Rattle.c_bodies.specs.Views as views;
ghost use Rattle.c_statements.specs.Context as spec;
ghost use Rattle.c_statements.specs.NoteViews.{all_now};
ghost use Rattle.c_tree.specs.declared.tree.Item as item;

use crate::state::FunctionContext;
use c_statements::Anchor;
use c_tree::Item;
use c_types::{List, Memory};
use std::alloc::Global;

fn add_note(alloc: Global, bytes: &[u8], out: &mut List<Item>) -> Result<(), Memory>
    ensures { OnOk result (out.new ≡ out.old ++ item.Note bytes.now ∷ []) }
{
    out.push(Item::Note(List::from_slice(alloc, bytes)?))
}

#[tactic(auto, using(crate::proofs::Walks::listed))]
fn add_each(alloc: Global, notes: &[&[u8]], out: &mut List<Item>) -> Result<(), Memory>
    ensures { OnOk result (out.new ≡ out.old ++ map item.Note (all_now notes.now)) }
{
    for bytes in notes {
        add_note(alloc, bytes, out)?;
    }
    Ok(())
}

/// Puts the comments of a place behind other items.
pub fn add_notes(
    alloc: Global,
    ctx: &FunctionContext,
    anchor: Anchor,
    out: &mut List<Item>,
) -> Result<(), Memory>
    ensures { OnOk result (out.new ≡ out.old ++ spec.notes_at (views.context_of ctx.now) anchor) }
{
    match ctx.notes.at(anchor) {
        Some(notes) => add_each(alloc, notes.as_slice(), out),
        None => Ok(()),
    }
}
