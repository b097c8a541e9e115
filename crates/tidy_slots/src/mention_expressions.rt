ghost use Rattle.std.specs.Prelude.{◌≡◌, not, map};
ghost use Rattle.c_tree.specs.ExpressionTrees.{expression_tree, place_tree, node_tree, arguments};
ghost use Rattle.tidy_laws.specs.Mentions.{home_lacks, lacks, place_lacks, node_lacks, arguments_lack};

use c_tree::{Expression, Home, Node, Place};

fn home_names(slot: u32, home: &Home) -> bool
    ensures { result ≡ not (home_lacks slot home.now) }
{
    match home {
        Home::Slot(at) => *at == slot,
        Home::Global(_) => false,
    }
}

/// Whether an expression names the slot.
#[cycle(naming)]
pub fn names(slot: u32, e: &Expression) -> bool
    ensures { result ≡ not (lacks slot (expression_tree e.now)) }
{
    node_names(slot, &e.node)
}

#[cycle(naming)]
fn place_names(slot: u32, place: &Place) -> bool
    ensures { result ≡ not (place_lacks slot (place_tree place.now)) }
{
    match place {
        Place::Var(home) => home_names(slot, home),
        Place::Cell(home, a) => {
            let a = names(slot, a.get());
            let home = home_names(slot, home);
            home | a
        }
    }
}

#[cycle(naming)]
fn node_names(slot: u32, node: &Node) -> bool
    ensures { result ≡ not (node_lacks slot (node_tree node.now)) }
{
    match node {
        Node::Array(home) => home_names(slot, home),
        Node::Read(place) => place_names(slot, place),
        Node::Unary(_, a) => names(slot, a.get()),
        Node::Cast(a) => names(slot, a.get()),
        Node::Binary(_, a, b) => {
            let a = names(slot, a.get());
            let b = names(slot, b.get());
            a | b
        }
        Node::Conditional(a, b, c) => {
            let a = names(slot, a.get());
            let b = names(slot, b.get());
            let c = names(slot, c.get());
            a | (b | c)
        }
        Node::Assign(place, a) => {
            let place = place_names(slot, place);
            let a = names(slot, a.get());
            place | a
        }
        Node::Update(_, place, a) => {
            let place = place_names(slot, place);
            let a = names(slot, a.get());
            place | a
        }
        Node::Count(place, _, _) => place_names(slot, place),
        Node::Comma(a, b) => {
            let a = names(slot, a.get());
            let b = names(slot, b.get());
            a | b
        }
        Node::Call(_, xs) => any_names(slot, xs.as_slice()),
        Node::Number(_) => false,
        Node::Character(_) => false,
        Node::EnumName(_, _) => false,
        Node::Text(_) => false,
    }
}

#[cycle(naming)]
fn any_names(slot: u32, items: &[Expression]) -> bool
    ensures { result ≡ not (arguments_lack slot (arguments (map expression_tree items.now))) }
{
    for i in 0..items.len() {
        if names(slot, &items[i]) {
            return true;
        }
    }
    false
}
