//! The space between a unary operator and an operand that begins with the same byte.

ghost use Rattle.std.specs.Prelude.{◌≡◌, ℕ, List, ◌++◌, nat_eq};
ghost use Rattle.c_tree.specs.TextPieces.{Piece, spelled, number, starts, begins_with as the_begins_with};
ghost use Rattle.c_tree.specs.TextExpressions.{unary_spelling as the_unary_spelling, count_spelling as the_count_spelling, prefix_or_postfix, gap, place_text, node_text, expression_text};
ghost use Rattle.c_printer.specs.Writing.{Prints};

use crate::pieces::{put_space, suffix};
use crate::spelling::home_name;
use c_tree::{Expression, Node, Place, Slot, UnaryOp};
use c_types::IntKind;
use itoa::Buffer;
use rg_ports::Output;

/// Whether the bytes begin with a byte, or where there are none, what holds of those that follow.
fn starts_or(bytes: &[u8], byte: u8, otherwise: bool) -> bool
    ensures { (rest : List ℕ) → starts rest byte ≡ otherwise → result ≡ starts (bytes.now ++ rest) byte }
{
    match bytes.first() {
        Some(first) => byte == *first,
        None => otherwise,
    }
}

fn first_of_unary(op: UnaryOp) -> u8
    ensures { (rest : List ℕ) (b : ℕ) → starts (the_unary_spelling op ++ rest) b ≡ nat_eq b result }
{
    match op {
        UnaryOp::Plus => b'+',
        UnaryOp::Minus => b'-',
        UnaryOp::Not => b'!',
        UnaryOp::Flip => b'~',
    }
}

fn first_of_count(up: bool) -> u8
    ensures { (rest : List ℕ) (b : ℕ) → starts (the_count_spelling up ++ rest) b ≡ nat_eq b result }
{
    if up { b'+' } else { b'-' }
}

fn place_begins_with(slots: &[Slot], place: &Place, byte: u8, otherwise: bool) -> bool
    ensures { (rest : List Piece) → starts (spelled rest) byte ≡ otherwise → result ≡ starts (spelled (place_text slots.now place.now rest)) byte }
{
    match place {
        Place::Var(home) => starts_or(home_name(slots, home).as_bytes(), byte, otherwise),
        Place::Cell(home, _) => starts_or(home_name(slots, home).as_bytes(), byte, byte == b'['),
    }
}

fn read_begins_with(slots: &[Slot], place: &Place, byte: u8) -> bool
    ensures { result ≡ the_begins_with byte (place_text slots.now place.now) }
{
    place_begins_with(slots, place, byte, false)
}

fn count_begins_with(slots: &[Slot], place: &Place, up: bool, after: bool, byte: u8) -> bool
    ensures { result ≡ the_begins_with byte (prefix_or_postfix after (the_count_spelling up) (place_text slots.now place.now) 14) }
{
    let counted = byte == first_of_count(up);
    if after {
        place_begins_with(slots, place, byte, counted)
    } else {
        counted
    }
}

fn number_begins_with(n: i128, kind: Option<IntKind>, byte: u8) -> bool
    ensures { result ≡ the_begins_with byte (number kind n) }
{
    let mut buffer = Buffer::new();
    let after = starts_or(suffix(kind).as_bytes(), byte, false);
    starts_or(buffer.format(n).as_bytes(), byte, after)
}

fn node_begins_with(slots: &[Slot], node: &Node, kind: Option<IntKind>, byte: u8) -> bool
    ensures { result ≡ the_begins_with byte (node_text slots.now node.now kind 14) }
{
    match node {
        Node::Number(n) => number_begins_with(*n, kind, byte),
        Node::Character(_) => byte == b'\'',
        Node::EnumName(name, _) => starts_or(name.as_str().as_bytes(), byte, false),
        Node::Text(_) => byte == b'"',
        Node::Array(home) => starts_or(home_name(slots, home).as_bytes(), byte, false),
        Node::Read(place) => read_begins_with(slots, place, byte),
        Node::Unary(op, _) => byte == first_of_unary(*op),
        Node::Count(place, up, after) => count_begins_with(slots, place, *up, *after, byte),
        Node::Call(name, _) => starts_or(name.as_str().as_bytes(), byte, byte == b'('),
        Node::Cast(_)
        | Node::Binary(..)
        | Node::Conditional(..)
        | Node::Assign(..)
        | Node::Update(..)
        | Node::Comma(..) => byte == b'(',
    }
}

fn begins_with(slots: &[Slot], e: &Expression, byte: u8) -> bool
    ensures { result ≡ the_begins_with byte (expression_text slots.now e.now 14) }
{
    node_begins_with(slots, &e.node, e.kind, byte)
}

/// The space after a unary operator, where its operand begins with the same byte.
pub fn put_gap<W: Output>(out: &mut W, slots: &[Slot], op: UnaryOp, operand: &Expression)
    ensures { Prints (W.progress out.old) (W.progress out.new) (gap op (expression_text slots.now operand.now 14)) }
{
    let sign = match op {
        UnaryOp::Plus => b'+',
        UnaryOp::Minus => b'-',
        _ => return,
    };
    if begins_with(slots, operand, sign) {
        put_space(out);
    }
}
