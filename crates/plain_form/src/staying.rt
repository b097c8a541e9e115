//! Functions that are their own plain form.

ghost use Rattle.std.specs.Prelude.{◌≡◌};
ghost use Rattle.plain_form.specs.Staying.{holds_switch as the_holds_switch, has_switch as the_has_switch, stays as the_stays};

use c_tree::{Function, Item};
use c_types::List;

/// Whether a switch stands in a list, at any depth.
#[cycle(has_switch)]
fn has_switch(list: &List<Item>) -> bool
    ensures { result ≡ the_has_switch list.now }
{
    items_have_switch(list.as_slice())
}

#[cycle(has_switch)]
fn items_have_switch(items: &[Item]) -> bool
    ensures { result ≡ the_has_switch items.now }
{
    for i in 0..items.len() {
        if holds_switch(&items[i]) {
            return true;
        }
    }
    false
}

#[cycle(has_switch)]
fn holds_switch(item: &Item) -> bool
    ensures { result ≡ the_holds_switch item.now }
{
    match item {
        Item::Switch(_, _) => true,
        Item::If(_, a, b) => has_switch(a) || has_switch(b),
        Item::While(_, a) => has_switch(a),
        Item::Do(a, _) => has_switch(a),
        Item::For(first, _, _, a) => has_switch(first) || has_switch(a),
        Item::Block(a) => has_switch(a),
        _ => false,
    }
}

/// Whether a function is its own plain form for want of anything to become plain: it is a prototype, or it
/// isn't flat and has no switch.
pub fn stays(function: &Function) -> bool
    ensures { result ≡ the_stays function.now }
{
    match &function.body {
        None => true,
        Some(body) => !function.flat && !has_switch(body),
    }
}
