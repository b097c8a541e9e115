ghost use Rattle.std.specs.Prelude.{◌≡◌, true, [], IfOk, OnOk};
ghost use Rattle.c_tree.specs.Changed.{one};
ghost use Rattle.c_tree.specs.Trees.{Nil, Then, Goto, Mark, trees_of, join};
ghost use Rattle.lower_items.specs.Forms.{then_part};
ghost use Rattle.lower_items.specs.Pieces.{pieces_of, written};

use crate::pieces::add_all;
use crate::plans::Labels;
use c_tree::Item;
use c_types::{List, MOST, Memory};
use flat_items::{add_goto, add_label};
use std::alloc::Global;
use std::mem;

/// What is written of a flat list: pieces, and behind them the items to which others are added.
#[derive(Drop)]
pub struct Written {
    pub pieces: List<List<Item>>,
    pub last: List<Item>,
}

/// So many items are moved; more stay where they are.
const FEW: usize = 8;

/// The beginning of a flat list.
pub fn nothing(alloc: Global) -> Written
    ensures { written result ≡ Nil }
{
    Written {
        pieces: List::new(alloc),
        last: List::new(alloc),
    }
}

fn add_pieces(pieces: List<List<Item>>, out: &mut List<List<Item>>) -> Result<(), Memory>
    ensures { OnOk result (pieces_of out.new ≡ join (pieces_of out.old) (pieces_of pieces)) }
{
    for piece in pieces.into_vec() {
        out.push(piece)?;
    }
    Ok(())
}

/// Puts more behind what is written; no item is moved.
fn hang(more: Written, out: &mut Written) -> Result<(), Memory>
    ensures { OnOk result (written out.new ≡ join (written out.old) (written more)) }
{
    let Written { pieces, last } = more;
    let front = mem::replace(&mut out.last, last);
    out.pieces.push(front)?;
    add_pieces(pieces, &mut out.pieces)
}

fn is_short(more: &Written) -> bool
    ensures { result ≡ true → more.now.pieces ≡ [] }
{
    more.pieces.is_empty() && more.last.len() <= FEW
}

/// Puts more behind what is written.
fn add_written(more: Written, out: &mut Written) -> Result<(), Memory>
    ensures { OnOk result (written out.new ≡ join (written out.old) (written more)) }
{
    if is_short(&more) {
        add_all(more.last, &mut out.last)
    } else {
        hang(more, out)
    }
}

/// What stands between the else-list of an `if` and its then-list.
pub fn start_then(labels: Labels, out: &mut Written) -> Result<(), Memory>
    ensures { OnOk result (written out.new ≡ join (written out.old) (Then (Goto labels.behind) (one (Mark labels.list)))) }
{
    add_goto(labels.behind, &mut out.last)?;
    add_label(labels.list, &mut out.last)
}

/// A then-list that is written, between its labels.
pub fn add_then(then: Written, labels: Labels, out: &mut Written) -> Result<(), Memory>
    ensures { OnOk result (written out.new ≡ join (written out.old) (then_part labels (written then))) }
{
    start_then(labels, out)?;
    add_written(then, out)?;
    add_label(labels.behind, &mut out.last)
}

/// How many items these are.
fn room(pieces: &[List<Item>]) -> usize {
    let mut count = 0usize;
    for piece in pieces {
        count = count.saturating_add(piece.len());
    }
    count
}

/// An empty list with room for pieces and for so many items more.
fn with_room(alloc: Global, pieces: &[List<Item>], more: usize) -> Result<List<Item>, Memory>
    ensures { IfOk result (λ it. it ≡ []) }
{
    let count = room(pieces).saturating_add(more);
    if count > MOST {
        return Err(Memory);
    }
    Ok(List::from_vec(Vec::with_capacity(alloc, count)?))
}

fn add_each(pieces: List<List<Item>>, out: &mut List<Item>) -> Result<(), Memory>
    ensures { OnOk result (trees_of out.new ≡ join (trees_of out.old) (pieces_of pieces)) }
{
    for piece in pieces.into_vec() {
        add_all(piece, out)?;
    }
    Ok(())
}

/// All that is written, in one list: each item moves once, or none where there are no pieces.
pub fn in_one(alloc: Global, all: Written) -> Result<List<Item>, Memory>
    ensures { IfOk result (λ it. trees_of it ≡ written all) }
{
    let Written { pieces, last } = all;
    if pieces.is_empty() {
        return Ok(last);
    }
    let mut out = with_room(alloc, pieces.as_slice(), last.len())?;
    add_each(pieces, &mut out)?;
    add_all(last, &mut out)?;
    Ok(out)
}
