ghost use Rattle.std.specs.Prelude.{◌≡◌, length, map, option_map};
ghost use Rattle.c_tree.specs.ExpressionTrees.{expression_tree, place_tree, node_tree};
ghost use Rattle.c_tree.specs.Trees.{expression_trees};
ghost use Rattle.tidy_laws.specs.Renamed.{renamed_home, renamed, renamed_place, renamed_node, renamed_option, renamed_values};
ghost use Rattle.tidy_slots.specs.Numbers.{number};

use crate::numbers::{Numbers, new_number};
use c_tree::{Expression, Home, Node, Place};
use c_types::{Boxed, List};
use std::mem;

fn renumbered_home(numbers: &Numbers, home: Home) -> Home
    ensures { result ≡ renamed_home (number numbers.now) home }
{
    match home {
        Home::Global(name) => Home::Global(name),
        Home::Slot(at) => Home::Slot(new_number(numbers, at)),
    }
}

/// Gives the slots of an expression their new numbers.
#[cycle(renumbering)]
pub fn renumber_expression(numbers: &Numbers, e: &mut Expression)
    ensures { expression_tree e.new ≡ renamed (number numbers.now) (expression_tree e.old) }
{
    let kind = e.kind;
    let taken = mem::replace(&mut e.node, Node::Number(0));
    let node = renumbered_node(numbers, taken);
    let old = mem::replace(e, Expression { kind, node });
    drop(old);
}

#[cycle(renumbering)]
fn renumbered_place(numbers: &Numbers, place: Place) -> Place
    ensures { place_tree result ≡ renamed_place (number numbers.now) (place_tree place) }
{
    match place {
        Place::Var(home) => Place::Var(renumbered_home(numbers, home)),
        Place::Cell(home, mut at) => {
            renumber_expression(numbers, at.get_mut());
            Place::Cell(renumbered_home(numbers, home), at)
        }
    }
}

#[cycle(renumbering)]
fn renumbered_node(numbers: &Numbers, node: Node) -> Node
    ensures { node_tree result ≡ renamed_node (number numbers.now) (node_tree node) }
{
    match node {
        Node::Array(home) => Node::Array(renumbered_home(numbers, home)),
        Node::Read(place) => Node::Read(renumbered_place(numbers, place)),
        Node::Unary(op, mut a) => {
            renumber_expression(numbers, a.get_mut());
            Node::Unary(op, a)
        }
        Node::Cast(mut a) => {
            renumber_expression(numbers, a.get_mut());
            Node::Cast(a)
        }
        Node::Binary(op, mut a, mut b) => {
            renumber_expression(numbers, a.get_mut());
            renumber_expression(numbers, b.get_mut());
            Node::Binary(op, a, b)
        }
        Node::Conditional(mut a, mut b, mut c) => {
            renumber_expression(numbers, a.get_mut());
            renumber_expression(numbers, b.get_mut());
            renumber_expression(numbers, c.get_mut());
            Node::Conditional(a, b, c)
        }
        Node::Assign(place, mut a) => {
            renumber_expression(numbers, a.get_mut());
            Node::Assign(renumbered_place(numbers, place), a)
        }
        Node::Update(op, place, mut a) => {
            renumber_expression(numbers, a.get_mut());
            Node::Update(op, renumbered_place(numbers, place), a)
        }
        Node::Count(place, up, after) => Node::Count(renumbered_place(numbers, place), up, after),
        Node::Comma(mut a, mut b) => {
            renumber_expression(numbers, a.get_mut());
            renumber_expression(numbers, b.get_mut());
            Node::Comma(a, b)
        }
        Node::Call(name, mut args) => {
            renumber_each(numbers, args.as_mut_slice());
            Node::Call(name, args)
        }
        Node::Number(n) => Node::Number(n),
        Node::Character(c) => Node::Character(c),
        Node::EnumName(name, n) => Node::EnumName(name, n),
        Node::Text(text) => Node::Text(text),
    }
}

#[cycle(renumbering)]
fn renumber_each(numbers: &Numbers, items: &mut [Expression])
    ensures as_long { length items.new ≡ length items.old }
    ensures made { map expression_tree items.new ≡ map (renamed (number numbers.now)) (map expression_tree items.old) }
{
    for i in 0..items.len() {
        renumber_expression(numbers, &mut items[i]);
    }
}

/// An expression with the new numbers, if there is one.
pub fn renumbered_option(numbers: &Numbers, e: Option<Expression>) -> Option<Expression>
    ensures { option_map expression_tree result ≡ renamed_option (number numbers.now) (option_map expression_tree e) }
{
    match e {
        Some(mut e) => {
            renumber_expression(numbers, &mut e);
            Some(e)
        }
        None => None,
    }
}

/// A part of a `for` with the new numbers, if there is one.
pub fn renumbered_part(numbers: &Numbers, e: Option<Boxed<Expression>>) -> Option<Boxed<Expression>>
    ensures { option_map expression_tree result ≡ renamed_option (number numbers.now) (option_map expression_tree e) }
{
    match e {
        Some(mut e) => {
            renumber_expression(numbers, e.get_mut());
            Some(e)
        }
        None => None,
    }
}

/// Initialisers with the new numbers, if there are any.
pub fn renumbered_values(
    numbers: &Numbers,
    values: Option<List<Expression>>,
) -> Option<List<Expression>>
    ensures { option_map expression_trees result ≡ renamed_values (number numbers.now) (option_map expression_trees values) }
{
    match values {
        Some(mut es) => {
            renumber_each(numbers, es.as_mut_slice());
            Some(es)
        }
        None => None,
    }
}
