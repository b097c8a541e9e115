ghost use Rattle.std.specs.Prelude.{◌≡◌};
ghost use Rattle.step_open_calls.specs.Calls.{is_open as the_is_open, expression_calls, node_calls, place_calls, expressions_call, option_calls, given_call};

use c_tree::{Expression, Node, Place, Program};
use c_types::{Boxed, List, Name, is_known};
use step_interp::definition;

/// Whether no function of the name has a body, and it is none of the library's.
fn is_open(program: &Program, name: &Name) -> bool
    ensures { result ≡ the_is_open program.now name.now }
{
    if is_known(name.as_str().as_bytes()) {
        return false;
    }
    match definition(program, name) {
        Some(function) => function.body.is_none(),
        None => true,
    }
}

/// Whether such a function is called in an expression.
#[cycle(expression)]
pub fn in_expression(program: &Program, e: &Expression) -> bool
    ensures { result ≡ expression_calls (the_is_open program.now) e.now }
{
    in_node(program, &e.node)
}

#[cycle(expression)]
fn in_place(program: &Program, place: &Place) -> bool
    ensures { result ≡ place_calls (the_is_open program.now) place.now }
{
    match place {
        Place::Var(_) => false,
        Place::Cell(_, at) => in_expression(program, at.get()),
    }
}

#[cycle(expression)]
#[tactic(auto, using(crate::proofs::Forms::node_calls_binary, crate::proofs::Forms::node_calls_conditional, crate::proofs::Forms::node_calls_assign, crate::proofs::Forms::node_calls_update, crate::proofs::Forms::node_calls_comma, crate::proofs::Forms::node_calls_call))]
fn in_node(program: &Program, node: &Node) -> bool
    ensures { result ≡ node_calls (the_is_open program.now) node.now }
{
    match node {
        Node::Number(_) => false,
        Node::Character(_) => false,
        Node::EnumName(_, _) => false,
        Node::Text(_) => false,
        Node::Array(_) => false,
        Node::Read(place) => in_place(program, place),
        Node::Unary(_, a) => in_expression(program, a.get()),
        Node::Cast(a) => in_expression(program, a.get()),
        Node::Binary(_, a, b) => {
            in_expression(program, a.get()) || in_expression(program, b.get())
        }
        Node::Conditional(a, b, c) => {
            in_expression(program, a.get())
                || in_expression(program, b.get())
                || in_expression(program, c.get())
        }
        Node::Assign(place, a) => { in_place(program, place) || in_expression(program, a.get()) }
        Node::Update(_, place, a) => { in_place(program, place) || in_expression(program, a.get()) }
        Node::Count(place, _, _) => in_place(program, place),
        Node::Comma(a, b) => { in_expression(program, a.get()) || in_expression(program, b.get()) }
        Node::Call(name, arguments) => {
            is_open(program, name) || in_expressions(program, arguments.as_slice())
        }
    }
}

#[cycle(expression)]
pub fn in_expressions(program: &Program, all: &[Expression]) -> bool
    ensures { result ≡ expressions_call (the_is_open program.now) all.now }
{
    for e in all {
        if in_expression(program, e) {
            return true;
        }
    }
    false
}

pub fn in_option(program: &Program, e: &Option<Expression>) -> bool
    ensures { result ≡ option_calls (the_is_open program.now) e.now }
{
    match e {
        Some(e) => in_expression(program, e),
        None => false,
    }
}

pub fn in_part(program: &Program, e: &Option<Boxed<Expression>>) -> bool
    ensures { result ≡ option_calls (the_is_open program.now) e.now }
{
    match e {
        Some(e) => in_expression(program, e.get()),
        None => false,
    }
}

pub fn in_given(program: &Program, given: &Option<List<Expression>>) -> bool
    ensures { result ≡ given_call (the_is_open program.now) given.now }
{
    match given {
        Some(all) => in_expressions(program, all.as_slice()),
        None => false,
    }
}
