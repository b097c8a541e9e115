//! What an item is to the list or the section that it stands in.

ghost use Rattle.std.specs.Prelude.{◌≡◌, map};
ghost use Rattle.c_tree.specs.declared.tree.Function.{Function};
ghost use Rattle.c_tree.specs.TextItems.{printed, is_if as the_is_if, is_local as the_is_local, is_note as the_is_note, is_printed as the_is_printed, is_lone_if as the_is_lone_if, begins_with_local as the_begins_with_local, ends_in_note as the_ends_in_note};
ghost use Rattle.c_printer.specs.Shapes.{as_printed};

use c_tree::Item;

/// What an item is to the list or the section that it stands in.
#[derive(Clone, Copy)]
enum Shape {
    If,
    Local,
    Note,
    /// What the rewriting puts into a body, which has no lines.
    Unprinted,
    Other,
}

fn shape_of(item: &Item) -> Shape
    ensures { (f : Function) → as_printed result ≡ (printed f item.now).shape }
{
    match item {
        Item::If(..) => Shape::If,
        Item::Local(..) => Shape::Local,
        Item::Note(_) => Shape::Note,
        Item::Arm(..) | Item::Leap(_) | Item::Land(_) | Item::Arrival(_) => Shape::Unprinted,
        Item::Evaluate(_)
        | Item::Return(_)
        | Item::While(..)
        | Item::Do(..)
        | Item::For(..)
        | Item::Switch(..)
        | Item::Block(_)
        | Item::Break
        | Item::Continue
        | Item::Goto(_)
        | Item::Mark(_) => Shape::Other,
    }
}

/// Whether an item has lines of its own.
pub fn is_printed(item: &Item) -> bool
    ensures { (f : Function) → result ≡ the_is_printed (printed f item.now).shape }
{
    match shape_of(item) {
        Shape::Unprinted => false,
        Shape::If | Shape::Local | Shape::Note | Shape::Other => true,
    }
}

fn is_if(item: &Item) -> bool
    ensures { (f : Function) → result ≡ the_is_if (printed f item.now).shape }
{
    match shape_of(item) {
        Shape::If => true,
        Shape::Local | Shape::Note | Shape::Unprinted | Shape::Other => false,
    }
}

fn is_local(item: &Item) -> bool
    ensures { (f : Function) → result ≡ the_is_local (printed f item.now).shape }
{
    match shape_of(item) {
        Shape::Local => true,
        Shape::If | Shape::Note | Shape::Unprinted | Shape::Other => false,
    }
}

fn is_note(item: &Item) -> bool
    ensures { (f : Function) → result ≡ the_is_note (printed f item.now).shape }
{
    match shape_of(item) {
        Shape::Note => true,
        Shape::If | Shape::Local | Shape::Unprinted | Shape::Other => false,
    }
}

/// Whether a list is one `if`.
pub fn is_lone_if(items: &[Item]) -> bool
    ensures { (f : Function) → result ≡ the_is_lone_if (map (printed f) items.now) }
{
    items.len() == 1 && is_if(&items[0])
}

/// Whether the first item that is no comment is a declaration.
pub fn begins_with_local(items: &[Item]) -> bool
    ensures { (f : Function) → result ≡ the_begins_with_local (map (printed f) items.now) }
{
    for i in 0..items.len() {
        if !is_note(&items[i]) {
            return is_local(&items[i]);
        }
    }
    false
}

/// Whether the last item is a comment.
pub fn ends_in_note(items: &[Item]) -> bool
    ensures { (f : Function) → result ≡ the_ends_in_note (map (printed f) items.now) }
{
    match items.last() {
        Some(item) => is_note(item),
        None => false,
    }
}
