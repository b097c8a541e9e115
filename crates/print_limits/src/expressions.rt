//! The counted tokens of printed expressions: how much of a room they leave.

ghost use Rattle.std.specs.Prelude.{◌≡◌, ◌≤◌, ◌↔◌, ◌+◌, IsTrue, map, option_map};
ghost use Rattle.c_tree.specs.ExpressionTrees.{expression_tree, place_tree, arguments};
ghost use Rattle.c_tree.specs.Trees.{expression_trees};
ghost use Rattle.c_resolved_defs.specs.PrintableExpressions.{counted, counted_at, node_counted, place_counted, all_counted, bracket_count};
ghost use Rattle.c_resolved_defs.specs.PrintableStatements.{most};
ghost use Rattle.c_resolved_defs.specs.Limits.{most_if, most_case, most_of, most_listed};
ghost use Rattle.print_limits.specs.Views.{node_at, place_at, Spends};

use crate::levels::{binary_level, level};
use c_tree::{Expression, Node, Place};
use c_types::{Boxed, List};

fn spend(room: u64, much: u64) -> Option<u64>
    ensures { Spends much room result }
{
    room.checked_sub(much)
}

fn spend_bracket(level: u32, need: u32, room: u64) -> Option<u64>
    ensures { Spends (bracket_count level need) room result }
{
    if level < need {
        spend(room, 1)
    } else {
        Some(room)
    }
}

#[cycle(spending)]
fn spend_expression(e: &Expression, room: u64) -> Option<u64>
    ensures { Spends (counted (expression_tree e.now)) room result }
{
    spend_node(&e.node, room)
}

/// Where the grammar needs this level.
#[cycle(spending)]
fn spend_at(e: &Expression, need: u32, room: u64) -> Option<u64>
    ensures { Spends (counted_at need (expression_tree e.now)) room result }
{
    let room = spend_expression(e, room)?;
    spend_bracket(level(e), need, room)
}

#[cycle(spending)]
fn spend_place(place: &Place, room: u64) -> Option<u64>
    ensures { Spends (place_counted (place_at place.now)) room result }
{
    match place {
        Place::Var(_) => Some(room),
        Place::Cell(_, e) => {
            let room = spend(room, 1)?;
            spend_expression(e.get(), room)
        }
    }
}

/// A unary mark or a cast.
#[cycle(spending)]
fn spend_unary(e: &Expression, room: u64) -> Option<u64>
    ensures { Spends (counted_at 14 (expression_tree e.now) + 1) room result }
{
    let room = spend_at(e, 14, room)?;
    spend(room, 1)
}

#[cycle(spending)]
fn spend_arguments(items: &[Expression], room: u64) -> Option<u64>
    ensures { Spends (all_counted (arguments (map expression_tree items.now))) room result }
{
    let mut left = room;
    for i in 0..items.len() {
        left = spend_at(&items[i], 2, left)?;
    }
    Some(left)
}

#[cycle(spending)]
fn spend_node(node: &Node, room: u64) -> Option<u64>
    ensures { Spends (node_counted (node_at node.now)) room result }
{
    match node {
        Node::Read(place) => spend_place(place, room),
        Node::Unary(_, a) => spend_unary(a.get(), room),
        Node::Cast(a) => spend_unary(a.get(), room),
        Node::Binary(op, a, b) => {
            let level = binary_level(*op);
            let room = spend_at(a.get(), level, room)?;
            let room = spend(room, 1)?;
            spend_at(b.get(), level + 1, room)
        }
        Node::Conditional(a, b, c) => {
            let room = spend_at(a.get(), 4, room)?;
            let room = spend(room, 1)?;
            let room = spend_expression(b.get(), room)?;
            spend_at(c.get(), 3, room)
        }
        Node::Assign(place, a) | Node::Update(_, place, a) => {
            let room = spend_place(place, room)?;
            let room = spend(room, 1)?;
            spend_at(a.get(), 2, room)
        }
        Node::Count(place, _, _) => {
            let room = spend_place(place, room)?;
            spend(room, 1)
        }
        Node::Comma(a, b) => {
            let room = spend_expression(a.get(), room)?;
            let room = spend(room, 1)?;
            spend_at(b.get(), 2, room)
        }
        Node::Call(_, arguments) => {
            let room = spend(room, 1)?;
            spend_arguments(arguments.as_slice(), room)
        }
        _ => Some(room),
    }
}

/// Whether a full expression has few enough counted tokens.
pub fn is_short(e: &Expression) -> bool
    ensures { IsTrue result ↔ counted (expression_tree e.now) ≤ most }
{
    spend_expression(e, 400).is_some()
}

/// Whether an expression has few enough counted tokens where the grammar needs this level.
fn is_short_at(e: &Expression, need: u32) -> bool
    ensures { IsTrue result ↔ counted_at need (expression_tree e.now) ≤ most }
{
    spend_at(e, need, 400).is_some()
}

/// Whether the value of a `return`, which may be left out, has few enough counted tokens.
pub fn is_short_value(e: &Option<Expression>) -> bool
    ensures { IsTrue result ↔ most_if (option_map expression_tree e.now) ≤ most }
{
    match e {
        Some(e) => is_short(e),
        None => true,
    }
}

/// Whether a part of a `for`, which may be left out, has few enough counted tokens.
pub fn is_short_part(e: &Option<Boxed<Expression>>) -> bool
    ensures { IsTrue result ↔ most_if (option_map expression_tree e.now) ≤ most }
{
    match e {
        Some(e) => is_short(e.get()),
        None => true,
    }
}

/// Whether the constant of a case or an enum, which may be left out, has few enough counted tokens.
pub fn is_short_constant(e: &Option<Expression>) -> bool
    ensures { IsTrue result ↔ most_case (option_map expression_tree e.now) ≤ most }
{
    match e {
        Some(e) => is_short_at(e, 3),
        None => true,
    }
}

/// Whether each expression of a list has few enough counted tokens.
pub fn are_short(items: &[Expression], need: u32) -> bool
    ensures { IsTrue result ↔ most_of need (expression_trees items.now) ≤ most }
{
    for i in 0..items.len() {
        if !is_short_at(&items[i], need) {
            return false;
        }
    }
    true
}

/// Whether initialisers, which may be left out, have few enough counted tokens each.
pub fn are_short_values(items: &Option<List<Expression>>) -> bool
    ensures { IsTrue result ↔ most_listed (option_map expression_trees items.now) ≤ most }
{
    match items {
        Some(items) => are_short(items.as_slice(), 2),
        None => true,
    }
}
