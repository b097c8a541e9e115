ghost use Rattle.std.specs.Prelude.{◌≡◌, IfOk};

use c_tree::{Expression, Home, Node, Place};
use c_types::{Boxed, List, Memory};
use std::alloc::Global;

fn copy_home(alloc: Global, home: &Home) -> Result<Home, Memory>
    ensures { IfOk result (λ it. it ≡ home.now) }
{
    match home {
        Home::Global(name) => Ok(Home::Global(name.copy(alloc)?)),
        Home::Slot(at) => Ok(Home::Slot(*at)),
    }
}

/// An equal expression. Want of memory is the only failure.
#[cycle(copy_expression)]
pub fn copy_expression(alloc: Global, e: &Expression) -> Result<Expression, Memory>
    ensures { IfOk result (λ it. it ≡ e.now) }
{
    let node = copy_node(alloc, &e.node)?;
    Ok(Expression { kind: e.kind, node })
}

#[cycle(copy_expression)]
fn copy_boxed(alloc: Global, e: &Boxed<Expression>) -> Result<Boxed<Expression>, Memory>
    ensures { IfOk result (λ it. it ≡ e.now) }
{
    let inner = copy_expression(alloc, e.get())?;
    Ok(Boxed::new(alloc, inner)?)
}

#[cycle(copy_expression)]
fn copy_place(alloc: Global, place: &Place) -> Result<Place, Memory>
    ensures { IfOk result (λ it. it ≡ place.now) }
{
    match place {
        Place::Var(home) => Ok(Place::Var(copy_home(alloc, home)?)),
        Place::Cell(home, at) => {
            let at = copy_boxed(alloc, at)?;
            let home = copy_home(alloc, home)?;
            Ok(Place::Cell(home, at))
        }
    }
}

#[cycle(copy_expression)]
fn copy_node(alloc: Global, node: &Node) -> Result<Node, Memory>
    ensures { IfOk result (λ it. it ≡ node.now) }
{
    match node {
        Node::Number(n) => Ok(Node::Number(*n)),
        Node::Character(c) => Ok(Node::Character(*c)),
        Node::EnumName(name, n) => Ok(Node::EnumName(name.copy(alloc)?, *n)),
        Node::Text(text) => Ok(Node::Text(List::from_slice(alloc, text.as_slice())?)),
        Node::Array(home) => Ok(Node::Array(copy_home(alloc, home)?)),
        Node::Read(place) => Ok(Node::Read(copy_place(alloc, place)?)),
        Node::Unary(op, a) => Ok(Node::Unary(*op, copy_boxed(alloc, a)?)),
        Node::Cast(a) => Ok(Node::Cast(copy_boxed(alloc, a)?)),
        Node::Binary(op, a, b) => Ok(Node::Binary(
            *op,
            copy_boxed(alloc, a)?,
            copy_boxed(alloc, b)?,
        )),
        Node::Conditional(a, b, c) => {
            let a = copy_boxed(alloc, a)?;
            let b = copy_boxed(alloc, b)?;
            let c = copy_boxed(alloc, c)?;
            Ok(Node::Conditional(a, b, c))
        }
        Node::Assign(place, a) => {
            let a = copy_boxed(alloc, a)?;
            let place = copy_place(alloc, place)?;
            Ok(Node::Assign(place, a))
        }
        Node::Update(op, place, a) => {
            let a = copy_boxed(alloc, a)?;
            let place = copy_place(alloc, place)?;
            Ok(Node::Update(*op, place, a))
        }
        Node::Count(place, up, after) => Ok(Node::Count(copy_place(alloc, place)?, *up, *after)),
        Node::Comma(a, b) => Ok(Node::Comma(copy_boxed(alloc, a)?, copy_boxed(alloc, b)?)),
        Node::Call(name, args) => {
            let name = name.copy(alloc)?;
            let args = copy_expressions(alloc, args.as_slice())?;
            Ok(Node::Call(name, args))
        }
    }
}

/// An equal list of expressions. Want of memory is the only failure.
#[cycle(copy_expression)]
pub fn copy_expressions(alloc: Global, items: &[Expression]) -> Result<List<Expression>, Memory>
    ensures { IfOk result (λ it. it ≡ items.now) }
{
    let mut out = List::new(alloc);
    for item in items {
        out.push(copy_expression(alloc, item)?)?;
    }
    Ok(out)
}

/// An equal expression, if there is one. Want of memory is the only failure.
pub fn copy_option(alloc: Global, e: &Option<Expression>) -> Result<Option<Expression>, Memory>
    ensures { IfOk result (λ it. it ≡ e.now) }
{
    match e {
        Some(e) => Ok(Some(copy_expression(alloc, e)?)),
        None => Ok(None),
    }
}

/// An equal part of a `for`, if there is one. Want of memory is the only failure.
pub fn copy_part(
    alloc: Global,
    e: &Option<Boxed<Expression>>,
) -> Result<Option<Boxed<Expression>>, Memory>
    ensures { IfOk result (λ it. it ≡ e.now) }
{
    match e {
        Some(e) => Ok(Some(copy_boxed(alloc, e)?)),
        None => Ok(None),
    }
}

/// An equal list of initialisers, if there is one. Want of memory is the only failure.
pub fn copy_given(
    alloc: Global,
    e: &Option<List<Expression>>,
) -> Result<Option<List<Expression>>, Memory>
    ensures { IfOk result (λ it. it ≡ e.now) }
{
    match e {
        Some(e) => Ok(Some(copy_expressions(alloc, e.as_slice())?)),
        None => Ok(None),
    }
}
