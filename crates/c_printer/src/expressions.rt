//! Expressions, with brackets exactly where the grammar needs a higher level.

ghost use Rattle.std.specs.Prelude.{codes, nat_lt};
ghost use Rattle.c_tree.specs.TextPieces.{◌⨾◌, word, punctuator, only_if, spaced, comma};
ghost use Rattle.c_tree.specs.TextExpressions.{kind_text, result_text, unary_spelling as the_unary_spelling, count_spelling as the_count_spelling, prefix_or_postfix, gap, node_text, place_text, expression_text, expressions_text};
ghost use Rattle.c_printer.specs.Writing.{Prints};

use crate::gap::put_gap;
use crate::pieces::{
    put_character, put_comma, put_literal, put_number, put_punctuator, put_space, put_spaced,
    put_word,
};
use crate::spelling::{
    binary_level, binary_spelling, count_spelling, home_name, is_bracketed, unary_spelling,
    update_spelling,
};
use c_tree::{Expression, Node, Place, Slot, UnaryOp};
use c_types::IntKind;
use rg_ports::Output;

/// The words of a kind.
pub fn put_kind<W: Output>(out: &mut W, kind: IntKind)
    ensures { Prints (W.progress out.old) (W.progress out.new) (kind_text kind) }
{
    match kind {
        IntKind::Char => put_word(out, "char"),
        IntKind::UChar => {
            put_word(out, "unsigned");
            put_space(out);
            put_word(out, "char");
        }
        IntKind::Int => put_word(out, "int"),
        IntKind::UInt => put_word(out, "unsigned"),
        IntKind::Long => put_word(out, "long"),
        IntKind::ULong => {
            put_word(out, "unsigned");
            put_space(out);
            put_word(out, "long");
        }
    }
}

/// The words of a kind, or `void`.
pub fn put_result<W: Output>(out: &mut W, kind: Option<IntKind>)
    ensures { Prints (W.progress out.old) (W.progress out.new) (result_text kind) }
{
    match kind {
        Some(kind) => put_kind(out, kind),
        None => put_word(out, "void"),
    }
}

/// A bracket, where it is wanted.
fn put_bracket<W: Output>(out: &mut W, text: &str, wanted: bool)
    ensures { Prints (W.progress out.old) (W.progress out.new) (only_if wanted (punctuator text.now)) }
{
    if wanted {
        put_punctuator(out, text);
    }
}

/// A type in brackets.
fn put_type<W: Output>(out: &mut W, kind: Option<IntKind>)
    ensures { Prints (W.progress out.old) (W.progress out.new) (punctuator (codes "(") ⨾ result_text kind ⨾ punctuator (codes ")")) }
{
    put_punctuator(out, "(");
    put_result(out, kind);
    put_punctuator(out, ")");
}

/// The comma before an expression of a list, if it isn't the first.
pub fn put_comma_between<W: Output>(out: &mut W, before: usize)
    ensures { Prints (W.progress out.old) (W.progress out.new) (only_if (nat_lt 0 before) comma) }
{
    if before > 0 {
        put_comma(out);
    }
}

/// An expression where the grammar needs at least a level.
#[cycle(put_expression)]
pub fn put_expression<W: Output>(out: &mut W, slots: &[Slot], e: &Expression, need: u32)
    ensures { Prints (W.progress out.old) (W.progress out.new) (expression_text slots.now e.now need) }
{
    let bracketed = is_bracketed(&e.node, need);
    put_bracket(out, "(", bracketed);
    put_node(out, slots, &e.node, e.kind);
    put_bracket(out, ")", bracketed);
}

#[cycle(put_expression)]
fn put_place<W: Output>(out: &mut W, slots: &[Slot], place: &Place)
    ensures { Prints (W.progress out.old) (W.progress out.new) (place_text slots.now place.now) }
{
    match place {
        Place::Var(home) => put_word(out, home_name(slots, home)),
        Place::Cell(home, at) => {
            put_word(out, home_name(slots, home));
            put_punctuator(out, "[");
            put_expression(out, slots, at.get(), 1);
            put_punctuator(out, "]");
        }
    }
}

/// An operand and the operator after it.
#[cycle(put_expression)]
fn put_left<W: Output>(out: &mut W, slots: &[Slot], e: &Expression, need: u32, operator: &str)
    ensures { Prints (W.progress out.old) (W.progress out.new) (expression_text slots.now e.now need ⨾ spaced operator.now) }
{
    put_expression(out, slots, e, need);
    put_spaced(out, operator);
}

/// What is assigned to, and the operator after it.
#[cycle(put_expression)]
fn put_target<W: Output>(out: &mut W, slots: &[Slot], place: &Place, operator: &str)
    ensures { Prints (W.progress out.old) (W.progress out.new) (place_text slots.now place.now ⨾ spaced operator.now) }
{
    put_place(out, slots, place);
    put_spaced(out, operator);
}

#[cycle(put_expression)]
fn put_unary<W: Output>(out: &mut W, slots: &[Slot], op: UnaryOp, operand: &Expression)
    ensures { Prints (W.progress out.old) (W.progress out.new) (punctuator (the_unary_spelling op) ⨾ gap op (expression_text slots.now operand.now 14) ⨾ expression_text slots.now operand.now 14) }
{
    put_punctuator(out, unary_spelling(op));
    put_gap(out, slots, op, operand);
    put_expression(out, slots, operand, 14);
}

#[cycle(put_expression)]
fn put_cast<W: Output>(out: &mut W, slots: &[Slot], kind: Option<IntKind>, operand: &Expression)
    ensures { Prints (W.progress out.old) (W.progress out.new) (punctuator (codes "(") ⨾ result_text kind ⨾ punctuator (codes ")") ⨾ expression_text slots.now operand.now 14) }
{
    put_type(out, kind);
    put_expression(out, slots, operand, 14);
}

/// `++` or `--`, before or after its place.
#[cycle(put_expression)]
fn put_count<W: Output>(out: &mut W, slots: &[Slot], place: &Place, up: bool, after: bool)
    ensures { Prints (W.progress out.old) (W.progress out.new) (prefix_or_postfix after (the_count_spelling up) (place_text slots.now place.now) 0) }
{
    if after {
        put_place(out, slots, place);
        put_punctuator(out, count_spelling(up));
    } else {
        put_punctuator(out, count_spelling(up));
        put_place(out, slots, place);
    }
}

#[cycle(put_expression)]
fn put_call<W: Output>(out: &mut W, slots: &[Slot], name: &str, arguments: &[Expression])
    ensures { Prints (W.progress out.old) (W.progress out.new) (word name.now ⨾ punctuator (codes "(") ⨾ expressions_text slots.now arguments.now ⨾ punctuator (codes ")")) }
{
    put_word(out, name);
    put_punctuator(out, "(");
    put_expressions(out, slots, arguments);
    put_punctuator(out, ")");
}

/// A node without brackets round it.
#[cycle(put_expression)]
fn put_node<W: Output>(out: &mut W, slots: &[Slot], node: &Node, kind: Option<IntKind>)
    ensures { Prints (W.progress out.old) (W.progress out.new) (node_text slots.now node.now kind 0) }
{
    match node {
        Node::Number(n) => put_number(out, kind, *n),
        Node::Character(byte) => put_character(out, *byte),
        Node::EnumName(name, _) => put_word(out, name.as_str()),
        Node::Text(bytes) => put_literal(out, bytes.as_slice()),
        Node::Array(home) => put_word(out, home_name(slots, home)),
        Node::Read(place) => put_place(out, slots, place),
        Node::Unary(op, a) => put_unary(out, slots, *op, a.get()),
        Node::Cast(a) => put_cast(out, slots, kind, a.get()),
        Node::Binary(op, a, b) => {
            let level = binary_level(*op);
            put_left(out, slots, a.get(), level, binary_spelling(*op));
            put_expression(out, slots, b.get(), level + 1);
        }
        Node::Conditional(a, b, c) => {
            put_left(out, slots, a.get(), 4, "?");
            put_left(out, slots, b.get(), 1, ":");
            put_expression(out, slots, c.get(), 3);
        }
        Node::Assign(place, a) => {
            put_target(out, slots, place, "=");
            put_expression(out, slots, a.get(), 2);
        }
        Node::Update(op, place, a) => {
            put_target(out, slots, place, update_spelling(*op));
            put_expression(out, slots, a.get(), 2);
        }
        Node::Count(place, up, after) => put_count(out, slots, place, *up, *after),
        Node::Comma(a, b) => {
            put_expression(out, slots, a.get(), 1);
            put_comma(out);
            put_expression(out, slots, b.get(), 2);
        }
        Node::Call(name, arguments) => put_call(out, slots, name.as_str(), arguments.as_slice()),
    }
}

/// Expressions with commas between them.
#[cycle(put_expression)]
pub fn put_expressions<W: Output>(out: &mut W, slots: &[Slot], items: &[Expression])
    ensures { Prints (W.progress out.old) (W.progress out.new) (expressions_text slots.now items.now) }
{
    for i in 0..items.len() {
        put_comma_between(out, i);
        put_expression(out, slots, &items[i], 2);
    }
}
