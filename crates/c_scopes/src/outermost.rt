//! The outermost list of a function's body, which is one scope with the parameters.

ghost use Rattle.std.specs.Prelude.{◌≡◌, IfOk, OnOk};
ghost use Rattle.c_bodies.specs.Views.{context_of, walk_of};
ghost use Rattle.c_grammar.specs.Views.{words_of};
ghost use Rattle.c_statements.specs.Functions as spec;
ghost use Rattle.c_scopes.specs.BlockViews.{block_form};

use crate::blocks::Block;
use c_bodies::{FunctionContext, State, function_body};
use c_grammar::BodyLayer;
use c_tree::Item;
use c_types::{List, Memory};
use std::alloc::Global;

/// The items, with no more room than they take where memory can be given back: the list of a function lives until it is
/// made flat.
fn fitted(items: List<Item>) -> List<Item>
    ensures { result ≡ items }
{
    let mut items = items.into_vec();
    items.shrink_to_fit();
    List::from_vec(items)
}

/// The items of a function's body, behind its parameters.
pub fn read_block<'n, 'a>(
    alloc: Global,
    ctx: &FunctionContext<'n, 'a>,
    state: &mut State<'a>,
    body: Block,
) -> Result<List<Item>, Memory>
    ensures walk { OnOk result (walk_of state.new ≡ spec.behind_body (context_of ctx.now) (block_form (words_of ctx.now.words) body.entry) (walk_of state.old)) }
    ensures items { IfOk result (λ items. items ≡ spec.body_items (context_of ctx.now) (block_form (words_of ctx.now.words) body.entry) (walk_of state.old)) }
    ensures faults { OnOk result (state.new.faults ≡ spec.body_faults (context_of ctx.now) (block_form (words_of ctx.now.words) body.entry) (walk_of state.old) state.old.faults) }
{
    let list = BodyLayer::Braces(body.first, body.after, body.items);
    let items = function_body(alloc, ctx, state, list)?;
    Ok(fitted(items))
}
