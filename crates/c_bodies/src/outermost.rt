//! The outermost list of a function.

ghost use Rattle.std.specs.Prelude.{◌≡◌, ◌++◌, [], IfOk, OnOk};
ghost use Rattle.c_bodies.specs.Views as views;
ghost use Rattle.c_grammar.specs.Items as items;
ghost use Rattle.c_grammar.specs.ItemViews.{body_form, item_of};
ghost use Rattle.c_grammar.specs.Views.{words_of};
ghost use Rattle.c_statements.specs.Functions as spec;
ghost use Rattle.c_statements.specs.Nodes.{items_of};

use crate::notes::add_notes;
use crate::state::{Around, FunctionContext, State, put_cases, set_words, take_cases};
use crate::walk::{add_item, add_list};
use c_grammar::{BodyLayer, SyntaxNode};
use c_statements::Anchor;
use c_tree::Item;
use c_types::{List, Memory};
use std::alloc::Global;

#[tactic(auto, using(crate::proofs::Walks::listed))]
fn braces<'n, 'a>(
    alloc: Global,
    ctx: &FunctionContext<'n, 'a>,
    state: &mut State<'a>,
    first: u32,
    nodes: &[SyntaxNode],
) -> Result<List<Item>, Memory>
    ensures value { IfOk result (λ xs. xs ≡ spec.body_items (views.context_of ctx.now) (items.Braces first 0 (items_of (words_of ctx.now.words) nodes.now)) (views.walk_of state.old)) }
    ensures walk { OnOk result (views.walk_of state.new ≡ spec.behind_body (views.context_of ctx.now) (items.Braces first 0 (items_of (words_of ctx.now.words) nodes.now)) (views.walk_of state.old)) }
    ensures faults { OnOk result (state.new.faults ≡ spec.body_faults (views.context_of ctx.now) (items.Braces first 0 (items_of (words_of ctx.now.words) nodes.now)) (views.walk_of state.old) state.old.faults) }
{
    let around = Around {
        in_loop: false,
        in_switch: false,
    };
    let mut out = List::new(alloc);
    add_list(alloc, ctx, around, state, nodes, &mut out)?;
    add_notes(alloc, ctx, Anchor::AtEnd(first), &mut out)?;
    Ok(out)
}

#[tactic(auto, using(crate::proofs::Walks::listed))]
fn lone<'n, 'a>(
    alloc: Global,
    ctx: &FunctionContext<'n, 'a>,
    state: &mut State<'a>,
    first: u32,
    x: &SyntaxNode,
) -> Result<List<Item>, Memory>
    ensures value { IfOk result (λ xs. xs ≡ spec.body_items (views.context_of ctx.now) (items.Lone first 0 (item_of (words_of ctx.now.words) x.now)) (views.walk_of state.old)) }
    ensures walk { OnOk result (views.walk_of state.new ≡ spec.behind_body (views.context_of ctx.now) (items.Lone first 0 (item_of (words_of ctx.now.words) x.now)) (views.walk_of state.old)) }
    ensures faults { OnOk result (state.new.faults ≡ spec.body_faults (views.context_of ctx.now) (items.Lone first 0 (item_of (words_of ctx.now.words) x.now)) (views.walk_of state.old) state.old.faults) }
{
    let around = Around {
        in_loop: false,
        in_switch: false,
    };
    let mut out = List::new(alloc);
    add_item(alloc, ctx, around, state, x, &mut out)?;
    add_notes(alloc, ctx, Anchor::AtEnd(first), &mut out)?;
    Ok(out)
}

fn listed<'n, 'a>(
    alloc: Global,
    ctx: &FunctionContext<'n, 'a>,
    state: &mut State<'a>,
    body: BodyLayer,
) -> Result<List<Item>, Memory>
    ensures value { IfOk result (λ xs. xs ≡ spec.body_items (views.context_of ctx.now) (body_form (words_of ctx.now.words) body.entry) (views.walk_of state.old)) }
    ensures walk { OnOk result (views.walk_of state.new ≡ spec.behind_body (views.context_of ctx.now) (body_form (words_of ctx.now.words) body.entry) (views.walk_of state.old)) }
    ensures faults { OnOk result (state.new.faults ≡ spec.body_faults (views.context_of ctx.now) (body_form (words_of ctx.now.words) body.entry) (views.walk_of state.old) state.old.faults) }
{
    match body {
        BodyLayer::Braces(first, _, nodes) => braces(alloc, ctx, state, first, nodes),
        BodyLayer::Lone(first, _, x) => lone(alloc, ctx, state, first, x),
    }
}

/// The items of a function's outermost list, which is in one scope with its parameters. The scopes and
/// slots behind it are in the state, its violations in front of those that were found before, and the
/// words of the state are those of the context. Want of memory is the only failure.
pub fn function_body<'n, 'a>(
    alloc: Global,
    ctx: &FunctionContext<'n, 'a>,
    state: &mut State<'a>,
    body: BodyLayer,
) -> Result<List<Item>, Memory>
    ensures value { IfOk result (λ xs. xs ≡ spec.body_items (views.context_of ctx.now) (body_form (words_of ctx.now.words) body.entry) (views.walk_of state.old)) }
    ensures walk { OnOk result (views.walk_of state.new ≡ spec.behind_body (views.context_of ctx.now) (body_form (words_of ctx.now.words) body.entry) (views.walk_of state.old)) }
    ensures words { OnOk result (state.new.known.words ≡ ctx.now.words) }
    ensures cases { OnOk result (state.new.cases ≡ state.old.cases) }
    ensures faults { OnOk result (state.new.faults ≡ spec.body_faults (views.context_of ctx.now) (body_form (words_of ctx.now.words) body.entry) (views.walk_of state.old) state.old.faults) }
{
    let cases = take_cases(alloc, state);
    let items = listed(alloc, ctx, state, body)?;
    put_cases(state, cases);
    set_words(ctx, state);
    Ok(items)
}
