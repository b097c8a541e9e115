//! The walk over the items of a body.

ghost use Rattle.std.specs.Prelude.{◌≡◌, ◌++◌, ◌||◌, [], None, List, true, false, option_map, IfOk, OnOk};
ghost use Rattle.c_bodies.specs.Steps as steps;
ghost use Rattle.c_bodies.specs.Views as views;
ghost use Rattle.c_kinds.specs.Typing.{typed};
ghost use Rattle.c_kinds.specs.Values.{value_of};
ghost use Rattle.c_tree.specs.SectionLabels.{labels_passed as the_labels_passed};
ghost use Rattle.c_grammar.specs.ItemViews.{body_of, item_of, labels_of, plain_of, start_form, statement_form};
ghost use Rattle.c_grammar.specs.Items as items;
ghost use Rattle.c_grammar.specs.Parts.{term_of};
ghost use Rattle.c_grammar.specs.Views.{words_of};
ghost use Rattle.c_statements.specs.Cases as cases;
ghost use Rattle.c_statements.specs.Context as context;
ghost use Rattle.c_statements.specs.Labels as the_labels;
ghost use Rattle.c_statements.specs.Nodes.{items_of};
ghost use Rattle.c_statements.specs.Sections as the_sections;
ghost use Rattle.c_statements.specs.Statements as spec;
ghost use Rattle.c_statements.specs.Violations as violations;

use crate::elements::{first_of_item, is_element, is_outside, is_token};
use crate::items::{
    Lists, push_block, push_choice, push_do, push_for, push_if, push_switch, push_while,
};
use crate::labels::{add_labels, begin, has_case};
use crate::notes::add_notes;
use crate::sections::{Sections, close, finish, no_sections};
use crate::simple::{add_break, add_continue, add_evaluation, add_goto, add_return, read_heads};
use crate::state::{
    Around, FunctionContext, State, enter, leave, put_cases, report_at, report_switch, take_cases,
};
use crate::values::{add_variables, selector, used};
use c_grammar::{
    BodyLayer, ItemLayer, StartLayer, StatementLayer, SyntaxNode, body_layer, item_layer,
    statement_layer,
};
use c_statements::Anchor;
use c_tree::{Item, Section, labels_passed};
use c_types::{IntKind, List, Memory, reasons};
use std::alloc::Global;

/// Puts the items of a declaration or a statement behind others. What is declared by then is in the
/// state, with the labels for the switch around and the violations.
#[cycle(walk)]
#[tactic(auto, using(crate::proofs::Walks::listed))]
pub fn add_item<'n, 'a>(
    alloc: Global,
    ctx: &FunctionContext<'n, 'a>,
    around: Around,
    state: &mut State<'a>,
    x: &SyntaxNode,
    out: &mut List<Item>,
) -> Result<(), Memory>
    ensures walk { OnOk result (views.walk_of state.new ≡ spec.behind_item (views.context_of ctx.now) (item_of (words_of ctx.now.words) x.now) (views.walk_of state.old)) }
    ensures out { OnOk result (out.new ≡ out.old ++ spec.item_items (views.context_of ctx.now) (item_of (words_of ctx.now.words) x.now) (views.walk_of state.old)) }
    ensures cases { OnOk result (state.new.cases ≡ cases.item_entries (views.context_of ctx.now) (item_of (words_of ctx.now.words) x.now) (views.walk_of state.old) state.old.cases) }
    ensures faults { OnOk result (state.new.faults ≡ violations.item_faults (views.context_of ctx.now) (views.around_of around) (item_of (words_of ctx.now.words) x.now) (views.walk_of state.old) state.old.faults) }
{
    match item_layer(&ctx.words, x) {
        ItemLayer::Declares(first, _, d) => {
            add_notes(alloc, ctx, Anchor::Before(first), out)?;
            add_variables(alloc, ctx, state, d, out)
        }
        ItemLayer::States(labels, plain) => {
            add_labels(alloc, ctx, around, state, labels, out)?;
            add_plain(alloc, ctx, around, state, plain, out)
        }
        ItemLayer::Unread(first, _) => add_notes(alloc, ctx, Anchor::Before(first), out),
    }
}

/// Puts a statement without its labels behind others.
#[cycle(walk)]
#[tactic(auto, using(crate::proofs::Walks::listed))]
fn add_plain<'n, 'a>(
    alloc: Global,
    ctx: &FunctionContext<'n, 'a>,
    around: Around,
    state: &mut State<'a>,
    x: &SyntaxNode,
    out: &mut List<Item>,
) -> Result<(), Memory>
    ensures walk { OnOk result (views.walk_of state.new ≡ spec.behind_plain (views.context_of ctx.now) (plain_of (words_of ctx.now.words) x.now) (views.walk_of state.old)) }
    ensures out { OnOk result (out.new ≡ out.old ++ spec.plain_items (views.context_of ctx.now) (plain_of (words_of ctx.now.words) x.now) (views.walk_of state.old)) }
    ensures cases { OnOk result (state.new.cases ≡ cases.plain_entries (views.context_of ctx.now) (plain_of (words_of ctx.now.words) x.now) (views.walk_of state.old) state.old.cases) }
    ensures faults { OnOk result (state.new.faults ≡ violations.plain_faults (views.context_of ctx.now) (views.around_of around) (plain_of (words_of ctx.now.words) x.now) (views.walk_of state.old) state.old.faults) }
{
    let first = x.first();
    add_notes(alloc, ctx, Anchor::Before(first), out)?;
    let layer = statement_layer(&ctx.words, x);
    add_statement(alloc, ctx, around, state, first, layer, out)
}

/// Puts a statement without its labels behind others, by its first token and its layer.
#[cycle(walk)]
fn add_statement<'n, 'a>(
    alloc: Global,
    ctx: &FunctionContext<'n, 'a>,
    around: Around,
    state: &mut State<'a>,
    first: u32,
    layer: StatementLayer,
    out: &mut List<Item>,
) -> Result<(), Memory>
    ensures walk { OnOk result (views.walk_of state.new ≡ spec.behind_statement (views.context_of ctx.now) (statement_form (words_of ctx.now.words) layer.entry) (views.walk_of state.old)) }
    ensures out { OnOk result (out.new ≡ out.old ++ spec.statement_items (views.context_of ctx.now) (statement_form (words_of ctx.now.words) layer.entry) (views.walk_of state.old)) }
    ensures cases { OnOk result (state.new.cases ≡ cases.statement_entries (views.context_of ctx.now) (statement_form (words_of ctx.now.words) layer.entry) (views.walk_of state.old) state.old.cases) }
    ensures faults { OnOk result (state.new.faults ≡ violations.statement_faults (views.context_of ctx.now) (views.around_of around) first (statement_form (words_of ctx.now.words) layer.entry) (views.walk_of state.old) state.old.faults) }
{
    match layer {
        StatementLayer::Null => Ok(()),
        StatementLayer::Evaluate(x) => add_evaluation(alloc, ctx, state, x, out),
        StatementLayer::If(t, b) => add_if(alloc, ctx, around, state, t, b, out),
        StatementLayer::IfElse(t, b, c) => add_choice(alloc, ctx, around, state, t, b, c, out),
        StatementLayer::While(t, b) => add_while(alloc, ctx, around, state, t, b, out),
        StatementLayer::DoWhile(b, t) => add_do(alloc, ctx, around, state, b, t, out),
        StatementLayer::For(start, t, u, b) => {
            add_for(alloc, ctx, around, state, start, t, u, b, out)
        }
        StatementLayer::Switch(t, b) => add_switch(alloc, ctx, around, state, t, b, out),
        StatementLayer::Block(first, _, items) => {
            add_block(alloc, ctx, around, state, first, items, out)
        }
        StatementLayer::Goto(at) => add_goto(ctx, state, at, out),
        StatementLayer::Break => add_break(ctx, around, state, first, out),
        StatementLayer::Continue => add_continue(ctx, around, state, first, out),
        StatementLayer::Return(x) => add_return(alloc, ctx, state, first, x, out),
        StatementLayer::Unread => Ok(()),
    }
}

#[cycle(walk)]
fn add_if<'n, 'a>(
    alloc: Global,
    ctx: &FunctionContext<'n, 'a>,
    around: Around,
    state: &mut State<'a>,
    t: &SyntaxNode,
    b: &SyntaxNode,
    out: &mut List<Item>,
) -> Result<(), Memory>
    ensures walk { OnOk result (views.walk_of state.new ≡ spec.behind_statement (views.context_of ctx.now) (items.If (term_of (words_of ctx.now.words) t.now) (body_of (words_of ctx.now.words) b.now)) (views.walk_of state.old)) }
    ensures out { OnOk result (out.new ≡ out.old ++ spec.statement_items (views.context_of ctx.now) (items.If (term_of (words_of ctx.now.words) t.now) (body_of (words_of ctx.now.words) b.now)) (views.walk_of state.old)) }
    ensures cases { OnOk result (state.new.cases ≡ cases.statement_entries (views.context_of ctx.now) (items.If (term_of (words_of ctx.now.words) t.now) (body_of (words_of ctx.now.words) b.now)) (views.walk_of state.old) state.old.cases) }
    ensures faults { OnOk result (state.new.faults ≡ violations.statement_faults (views.context_of ctx.now) (views.around_of around) 0 (items.If (term_of (words_of ctx.now.words) t.now) (body_of (words_of ctx.now.words) b.now)) (views.walk_of state.old) state.old.faults) }
{
    let e = used(alloc, ctx, state, t)?;
    match body(alloc, ctx, around, state, b) {
        Ok(xs) => push_if(out, e, xs, List::new(alloc)),
        Err(m) => {
            drop(e);
            Err(m)
        }
    }
}

#[cycle(walk)]
fn add_choice<'n, 'a>(
    alloc: Global,
    ctx: &FunctionContext<'n, 'a>,
    around: Around,
    state: &mut State<'a>,
    t: &SyntaxNode,
    b: &SyntaxNode,
    c: &SyntaxNode,
    out: &mut List<Item>,
) -> Result<(), Memory>
    ensures walk { OnOk result (views.walk_of state.new ≡ spec.behind_statement (views.context_of ctx.now) (items.IfElse (term_of (words_of ctx.now.words) t.now) (body_of (words_of ctx.now.words) b.now) (body_of (words_of ctx.now.words) c.now)) (views.walk_of state.old)) }
    ensures out { OnOk result (out.new ≡ out.old ++ spec.statement_items (views.context_of ctx.now) (items.IfElse (term_of (words_of ctx.now.words) t.now) (body_of (words_of ctx.now.words) b.now) (body_of (words_of ctx.now.words) c.now)) (views.walk_of state.old)) }
    ensures cases { OnOk result (state.new.cases ≡ cases.statement_entries (views.context_of ctx.now) (items.IfElse (term_of (words_of ctx.now.words) t.now) (body_of (words_of ctx.now.words) b.now) (body_of (words_of ctx.now.words) c.now)) (views.walk_of state.old) state.old.cases) }
    ensures faults { OnOk result (state.new.faults ≡ violations.statement_faults (views.context_of ctx.now) (views.around_of around) 0 (items.IfElse (term_of (words_of ctx.now.words) t.now) (body_of (words_of ctx.now.words) b.now) (body_of (words_of ctx.now.words) c.now)) (views.walk_of state.old) state.old.faults) }
{
    let e = used(alloc, ctx, state, t)?;
    match bodies(alloc, ctx, around, state, b, c) {
        Ok(lists) => push_choice(out, e, lists),
        Err(m) => {
            drop(e);
            Err(m)
        }
    }
}

/// Both lists of an `if`.
#[cycle(walk)]
fn bodies<'n, 'a>(
    alloc: Global,
    ctx: &FunctionContext<'n, 'a>,
    around: Around,
    state: &mut State<'a>,
    b: &SyntaxNode,
    c: &SyntaxNode,
) -> Result<Lists, Memory>
    ensures walk { OnOk result (views.walk_of state.new ≡ spec.behind_body (views.context_of ctx.now) (body_of (words_of ctx.now.words) c.now) (spec.behind_body (views.context_of ctx.now) (body_of (words_of ctx.now.words) b.now) (views.walk_of state.old))) }
    ensures then { IfOk result (λ xs. xs.then ≡ spec.body_items (views.context_of ctx.now) (body_of (words_of ctx.now.words) b.now) (views.walk_of state.old)) }
    ensures other { IfOk result (λ xs. xs.other ≡ spec.body_items (views.context_of ctx.now) (body_of (words_of ctx.now.words) c.now) (spec.behind_body (views.context_of ctx.now) (body_of (words_of ctx.now.words) b.now) (views.walk_of state.old))) }
    ensures cases { OnOk result (state.new.cases ≡ cases.body_entries (views.context_of ctx.now) (body_of (words_of ctx.now.words) c.now) (spec.behind_body (views.context_of ctx.now) (body_of (words_of ctx.now.words) b.now) (views.walk_of state.old)) (cases.body_entries (views.context_of ctx.now) (body_of (words_of ctx.now.words) b.now) (views.walk_of state.old) state.old.cases)) }
    ensures faults { OnOk result (state.new.faults ≡ violations.body_faults (views.context_of ctx.now) (views.around_of around) (body_of (words_of ctx.now.words) c.now) (spec.behind_body (views.context_of ctx.now) (body_of (words_of ctx.now.words) b.now) (views.walk_of state.old)) (violations.body_faults (views.context_of ctx.now) (views.around_of around) (body_of (words_of ctx.now.words) b.now) (views.walk_of state.old) state.old.faults)) }
{
    let then = body(alloc, ctx, around, state, b)?;
    let other = body(alloc, ctx, around, state, c)?;
    Ok(Lists { then, other })
}

#[cycle(walk)]
fn add_while<'n, 'a>(
    alloc: Global,
    ctx: &FunctionContext<'n, 'a>,
    around: Around,
    state: &mut State<'a>,
    t: &SyntaxNode,
    b: &SyntaxNode,
    out: &mut List<Item>,
) -> Result<(), Memory>
    ensures walk { OnOk result (views.walk_of state.new ≡ spec.behind_statement (views.context_of ctx.now) (items.While (term_of (words_of ctx.now.words) t.now) (body_of (words_of ctx.now.words) b.now)) (views.walk_of state.old)) }
    ensures out { OnOk result (out.new ≡ out.old ++ spec.statement_items (views.context_of ctx.now) (items.While (term_of (words_of ctx.now.words) t.now) (body_of (words_of ctx.now.words) b.now)) (views.walk_of state.old)) }
    ensures cases { OnOk result (state.new.cases ≡ cases.statement_entries (views.context_of ctx.now) (items.While (term_of (words_of ctx.now.words) t.now) (body_of (words_of ctx.now.words) b.now)) (views.walk_of state.old) state.old.cases) }
    ensures faults { OnOk result (state.new.faults ≡ violations.statement_faults (views.context_of ctx.now) (views.around_of around) 0 (items.While (term_of (words_of ctx.now.words) t.now) (body_of (words_of ctx.now.words) b.now)) (views.walk_of state.old) state.old.faults) }
{
    let inner = Around {
        in_loop: true,
        in_switch: around.in_switch,
    };
    let e = used(alloc, ctx, state, t)?;
    match body(alloc, ctx, inner, state, b) {
        Ok(xs) => push_while(out, e, xs),
        Err(m) => {
            drop(e);
            Err(m)
        }
    }
}

#[cycle(walk)]
#[tactic(auto, using(crate::proofs::Scopes::same_names))]
fn add_do<'n, 'a>(
    alloc: Global,
    ctx: &FunctionContext<'n, 'a>,
    around: Around,
    state: &mut State<'a>,
    b: &SyntaxNode,
    t: &SyntaxNode,
    out: &mut List<Item>,
) -> Result<(), Memory>
    ensures walk { OnOk result (views.walk_of state.new ≡ spec.behind_statement (views.context_of ctx.now) (items.DoWhile (body_of (words_of ctx.now.words) b.now) (term_of (words_of ctx.now.words) t.now)) (views.walk_of state.old)) }
    ensures out { OnOk result (out.new ≡ out.old ++ spec.statement_items (views.context_of ctx.now) (items.DoWhile (body_of (words_of ctx.now.words) b.now) (term_of (words_of ctx.now.words) t.now)) (views.walk_of state.old)) }
    ensures cases { OnOk result (state.new.cases ≡ cases.statement_entries (views.context_of ctx.now) (items.DoWhile (body_of (words_of ctx.now.words) b.now) (term_of (words_of ctx.now.words) t.now)) (views.walk_of state.old) state.old.cases) }
    ensures faults { OnOk result (state.new.faults ≡ violations.statement_faults (views.context_of ctx.now) (views.around_of around) 0 (items.DoWhile (body_of (words_of ctx.now.words) b.now) (term_of (words_of ctx.now.words) t.now)) (views.walk_of state.old) state.old.faults) }
{
    let inner = Around {
        in_loop: true,
        in_switch: around.in_switch,
    };
    let xs = body(alloc, ctx, inner, state, b)?;
    let e = used(alloc, ctx, state, t)?;
    push_do(out, xs, e)
}

#[cycle(walk)]
#[tactic(auto, using(crate::proofs::Scopes::left_lists))]
fn add_for<'n, 'a>(
    alloc: Global,
    ctx: &FunctionContext<'n, 'a>,
    around: Around,
    state: &mut State<'a>,
    start: StartLayer,
    t: Option<&SyntaxNode>,
    u: Option<&SyntaxNode>,
    b: &SyntaxNode,
    out: &mut List<Item>,
) -> Result<(), Memory>
    ensures walk { OnOk result (views.walk_of state.new ≡ spec.behind_statement (views.context_of ctx.now) (items.For (start_form (words_of ctx.now.words) start.entry) (option_map (λ y. term_of (words_of ctx.now.words) y.now) t.entry) (option_map (λ y. term_of (words_of ctx.now.words) y.now) u.entry) (body_of (words_of ctx.now.words) b.now)) (views.walk_of state.old)) }
    ensures out { OnOk result (out.new ≡ out.old ++ spec.statement_items (views.context_of ctx.now) (items.For (start_form (words_of ctx.now.words) start.entry) (option_map (λ y. term_of (words_of ctx.now.words) y.now) t.entry) (option_map (λ y. term_of (words_of ctx.now.words) y.now) u.entry) (body_of (words_of ctx.now.words) b.now)) (views.walk_of state.old)) }
    ensures cases { OnOk result (state.new.cases ≡ cases.statement_entries (views.context_of ctx.now) (items.For (start_form (words_of ctx.now.words) start.entry) (option_map (λ y. term_of (words_of ctx.now.words) y.now) t.entry) (option_map (λ y. term_of (words_of ctx.now.words) y.now) u.entry) (body_of (words_of ctx.now.words) b.now)) (views.walk_of state.old) state.old.cases) }
    ensures faults { OnOk result (state.new.faults ≡ violations.statement_faults (views.context_of ctx.now) (views.around_of around) 0 (items.For (start_form (words_of ctx.now.words) start.entry) (option_map (λ y. term_of (words_of ctx.now.words) y.now) t.entry) (option_map (λ y. term_of (words_of ctx.now.words) y.now) u.entry) (body_of (words_of ctx.now.words) b.now)) (views.walk_of state.old) state.old.faults) }
{
    let inner = Around {
        in_loop: true,
        in_switch: around.in_switch,
    };
    let heads = read_heads(alloc, ctx, state, start, t, u)?;
    match body(alloc, ctx, inner, state, b) {
        Ok(xs) => {
            leave(state);
            push_for(out, heads, xs)
        }
        Err(m) => {
            drop(heads);
            Err(m)
        }
    }
}

#[cycle(walk)]
fn add_block<'n, 'a>(
    alloc: Global,
    ctx: &FunctionContext<'n, 'a>,
    around: Around,
    state: &mut State<'a>,
    first: u32,
    nodes: &[SyntaxNode],
    out: &mut List<Item>,
) -> Result<(), Memory>
    ensures walk { OnOk result (views.walk_of state.new ≡ spec.behind_statement (views.context_of ctx.now) (items.Block (items.Braces first 0 (items_of (words_of ctx.now.words) nodes.now))) (views.walk_of state.old)) }
    ensures out { OnOk result (out.new ≡ out.old ++ spec.statement_items (views.context_of ctx.now) (items.Block (items.Braces first 0 (items_of (words_of ctx.now.words) nodes.now))) (views.walk_of state.old)) }
    ensures cases { OnOk result (state.new.cases ≡ cases.statement_entries (views.context_of ctx.now) (items.Block (items.Braces first 0 (items_of (words_of ctx.now.words) nodes.now))) (views.walk_of state.old) state.old.cases) }
    ensures faults { OnOk result (state.new.faults ≡ violations.statement_faults (views.context_of ctx.now) (views.around_of around) 0 (items.Block (items.Braces first 0 (items_of (words_of ctx.now.words) nodes.now))) (views.walk_of state.old) state.old.faults) }
{
    let xs = braces(alloc, ctx, around, state, first, nodes)?;
    push_block(out, xs)
}

/// The list of a construct, which is a scope of its own.
#[cycle(walk)]
fn body<'n, 'a>(
    alloc: Global,
    ctx: &FunctionContext<'n, 'a>,
    around: Around,
    state: &mut State<'a>,
    x: &SyntaxNode,
) -> Result<List<Item>, Memory>
    ensures walk { OnOk result (views.walk_of state.new ≡ spec.behind_body (views.context_of ctx.now) (body_of (words_of ctx.now.words) x.now) (views.walk_of state.old)) }
    ensures value { IfOk result (λ xs. xs ≡ spec.body_items (views.context_of ctx.now) (body_of (words_of ctx.now.words) x.now) (views.walk_of state.old)) }
    ensures cases { OnOk result (state.new.cases ≡ cases.body_entries (views.context_of ctx.now) (body_of (words_of ctx.now.words) x.now) (views.walk_of state.old) state.old.cases) }
    ensures faults { OnOk result (state.new.faults ≡ violations.body_faults (views.context_of ctx.now) (views.around_of around) (body_of (words_of ctx.now.words) x.now) (views.walk_of state.old) state.old.faults) }
{
    match body_layer(&ctx.words, x) {
        BodyLayer::Braces(first, _, items) => braces(alloc, ctx, around, state, first, items),
        BodyLayer::Lone(first, _, x) => lone(alloc, ctx, around, state, first, x),
    }
}

#[cycle(walk)]
#[tactic(auto, using(crate::proofs::Scopes::left_lists))]
fn braces<'n, 'a>(
    alloc: Global,
    ctx: &FunctionContext<'n, 'a>,
    around: Around,
    state: &mut State<'a>,
    first: u32,
    nodes: &[SyntaxNode],
) -> Result<List<Item>, Memory>
    ensures walk { OnOk result (views.walk_of state.new ≡ spec.behind_body (views.context_of ctx.now) (items.Braces first 0 (items_of (words_of ctx.now.words) nodes.now)) (views.walk_of state.old)) }
    ensures value { IfOk result (λ xs. xs ≡ spec.body_items (views.context_of ctx.now) (items.Braces first 0 (items_of (words_of ctx.now.words) nodes.now)) (views.walk_of state.old)) }
    ensures cases { OnOk result (state.new.cases ≡ cases.body_entries (views.context_of ctx.now) (items.Braces first 0 (items_of (words_of ctx.now.words) nodes.now)) (views.walk_of state.old) state.old.cases) }
    ensures faults { OnOk result (state.new.faults ≡ violations.body_faults (views.context_of ctx.now) (views.around_of around) (items.Braces first 0 (items_of (words_of ctx.now.words) nodes.now)) (views.walk_of state.old) state.old.faults) }
{
    let mut out = List::new(alloc);
    enter(alloc, state)?;
    add_list(alloc, ctx, around, state, nodes, &mut out)?;
    leave(state);
    add_notes(alloc, ctx, Anchor::AtEnd(first), &mut out)?;
    Ok(out)
}

#[cycle(walk)]
#[tactic(auto, using(crate::proofs::Scopes::left_lists))]
fn lone<'n, 'a>(
    alloc: Global,
    ctx: &FunctionContext<'n, 'a>,
    around: Around,
    state: &mut State<'a>,
    first: u32,
    x: &SyntaxNode,
) -> Result<List<Item>, Memory>
    ensures walk { OnOk result (views.walk_of state.new ≡ spec.behind_body (views.context_of ctx.now) (items.Lone first 0 (item_of (words_of ctx.now.words) x.now)) (views.walk_of state.old)) }
    ensures value { IfOk result (λ xs. xs ≡ spec.body_items (views.context_of ctx.now) (items.Lone first 0 (item_of (words_of ctx.now.words) x.now)) (views.walk_of state.old)) }
    ensures cases { OnOk result (state.new.cases ≡ cases.body_entries (views.context_of ctx.now) (items.Lone first 0 (item_of (words_of ctx.now.words) x.now)) (views.walk_of state.old) state.old.cases) }
    ensures faults { OnOk result (state.new.faults ≡ violations.body_faults (views.context_of ctx.now) (views.around_of around) (items.Lone first 0 (item_of (words_of ctx.now.words) x.now)) (views.walk_of state.old) state.old.faults) }
{
    let mut out = List::new(alloc);
    enter(alloc, state)?;
    add_item(alloc, ctx, around, state, x, &mut out)?;
    leave(state);
    add_notes(alloc, ctx, Anchor::AtEnd(first), &mut out)?;
    Ok(out)
}

/// Puts the items of a node of a list behind others, which may be a token.
#[cycle(walk)]
fn add_node<'n, 'a>(
    alloc: Global,
    ctx: &FunctionContext<'n, 'a>,
    around: Around,
    state: &mut State<'a>,
    x: &SyntaxNode,
    out: &mut List<Item>,
) -> Result<(), Memory>
    ensures walk { OnOk result ((xs : items.Items) → spec.behind_items (views.context_of ctx.now) xs (views.walk_of state.new) ≡ spec.behind_items (views.context_of ctx.now) (steps.with_node (words_of ctx.now.words) x.now xs) (views.walk_of state.old)) }
    ensures out { OnOk result ((xs : items.Items) → out.new ++ spec.list_items (views.context_of ctx.now) xs (views.walk_of state.new) ≡ out.old ++ spec.list_items (views.context_of ctx.now) (steps.with_node (words_of ctx.now.words) x.now xs) (views.walk_of state.old)) }
    ensures cases { OnOk result ((xs : items.Items) → cases.list_entries (views.context_of ctx.now) xs (views.walk_of state.new) state.new.cases ≡ cases.list_entries (views.context_of ctx.now) (steps.with_node (words_of ctx.now.words) x.now xs) (views.walk_of state.old) state.old.cases) }
    ensures faults { OnOk result ((xs : items.Items) → violations.list_faults (views.context_of ctx.now) (views.around_of around) xs (views.walk_of state.new) state.new.faults ≡ violations.list_faults (views.context_of ctx.now) (views.around_of around) (steps.with_node (words_of ctx.now.words) x.now xs) (views.walk_of state.old) state.old.faults) }
{
    if is_token(x) {
        return Ok(());
    }
    add_item(alloc, ctx, around, state, x, out)
}

/// Puts the items among these nodes behind others.
#[cycle(walk)]
#[tactic(auto, using(crate::proofs::Walks::item_list))]
pub fn add_list<'n, 'a>(
    alloc: Global,
    ctx: &FunctionContext<'n, 'a>,
    around: Around,
    state: &mut State<'a>,
    nodes: &[SyntaxNode],
    out: &mut List<Item>,
) -> Result<(), Memory>
    ensures walk { OnOk result (views.walk_of state.new ≡ spec.behind_items (views.context_of ctx.now) (items_of (words_of ctx.now.words) nodes.now) (views.walk_of state.old)) }
    ensures out { OnOk result (out.new ≡ out.old ++ spec.list_items (views.context_of ctx.now) (items_of (words_of ctx.now.words) nodes.now) (views.walk_of state.old)) }
    ensures cases { OnOk result (state.new.cases ≡ cases.list_entries (views.context_of ctx.now) (items_of (words_of ctx.now.words) nodes.now) (views.walk_of state.old) state.old.cases) }
    ensures faults { OnOk result (state.new.faults ≡ violations.list_faults (views.context_of ctx.now) (views.around_of around) (items_of (words_of ctx.now.words) nodes.now) (views.walk_of state.old) state.old.faults) }
{
    for x in nodes {
        add_node(alloc, ctx, around, state, x, out)?;
    }
    Ok(())
}

#[cycle(walk)]
fn add_switch<'n, 'a>(
    alloc: Global,
    ctx: &FunctionContext<'n, 'a>,
    around: Around,
    state: &mut State<'a>,
    t: &SyntaxNode,
    b: &SyntaxNode,
    out: &mut List<Item>,
) -> Result<(), Memory>
    ensures walk { OnOk result (views.walk_of state.new ≡ spec.behind_statement (views.context_of ctx.now) (items.Switch (term_of (words_of ctx.now.words) t.now) (body_of (words_of ctx.now.words) b.now)) (views.walk_of state.old)) }
    ensures out { OnOk result (out.new ≡ out.old ++ spec.statement_items (views.context_of ctx.now) (items.Switch (term_of (words_of ctx.now.words) t.now) (body_of (words_of ctx.now.words) b.now)) (views.walk_of state.old)) }
    ensures cases { OnOk result (state.new.cases ≡ cases.statement_entries (views.context_of ctx.now) (items.Switch (term_of (words_of ctx.now.words) t.now) (body_of (words_of ctx.now.words) b.now)) (views.walk_of state.old) state.old.cases) }
    ensures faults { OnOk result (state.new.faults ≡ violations.statement_faults (views.context_of ctx.now) (views.around_of around) 0 (items.Switch (term_of (words_of ctx.now.words) t.now) (body_of (words_of ctx.now.words) b.now)) (views.walk_of state.old) state.old.faults) }
{
    let inner = Around {
        in_loop: around.in_loop,
        in_switch: true,
    };
    let selected = selector(alloc, ctx, state, t)?;
    match switch_of(alloc, ctx, inner, state, selected.kind, b) {
        Ok(ss) => push_switch(out, selected, ss),
        Err(m) => {
            drop(selected);
            Err(m)
        }
    }
}

/// The sections of a switch on a selector of this kind.
#[cycle(walk)]
fn switch_of<'n, 'a>(
    alloc: Global,
    ctx: &FunctionContext<'n, 'a>,
    around: Around,
    state: &mut State<'a>,
    kind: Option<IntKind>,
    b: &SyntaxNode,
) -> Result<List<Section>, Memory>
    ensures walk { OnOk result (views.walk_of state.new ≡ spec.behind_body (views.context_of ctx.now) (body_of (words_of ctx.now.words) b.now) (views.walk_of state.old)) }
    ensures value { IfOk result (λ ss. ss ≡ the_labels_passed (spec.switch_sections (views.context_of ctx.now) (body_of (words_of ctx.now.words) b.now) (views.walk_of state.old))) }
    ensures cases { OnOk result (state.new.cases ≡ state.old.cases) }
    ensures faults { OnOk result (state.new.faults ≡ cases.switch_faults kind (cases.body_entries (views.context_of ctx.now) (body_of (words_of ctx.now.words) b.now) (views.walk_of state.old) []) (violations.switch_body_faults (views.context_of ctx.now) (views.around_of around) (body_of (words_of ctx.now.words) b.now) (views.walk_of state.old) state.old.faults)) }
{
    let outer = take_cases(alloc, state);
    let ss = switch_body(alloc, ctx, around, state, b)?;
    report_switch(alloc, state, kind)?;
    put_cases(state, outer);
    labels_passed(alloc, ss)
}

/// The sections in the list of a switch, before empty ones pass their labels on.
#[cycle(walk)]
fn switch_body<'n, 'a>(
    alloc: Global,
    ctx: &FunctionContext<'n, 'a>,
    around: Around,
    state: &mut State<'a>,
    x: &SyntaxNode,
) -> Result<List<Section>, Memory>
    ensures walk { OnOk result (views.walk_of state.new ≡ spec.behind_body (views.context_of ctx.now) (body_of (words_of ctx.now.words) x.now) (views.walk_of state.old)) }
    ensures value { IfOk result (λ ss. ss ≡ spec.switch_sections (views.context_of ctx.now) (body_of (words_of ctx.now.words) x.now) (views.walk_of state.old)) }
    ensures cases { OnOk result (state.new.cases ≡ cases.body_entries (views.context_of ctx.now) (body_of (words_of ctx.now.words) x.now) (views.walk_of state.old) state.old.cases) }
    ensures faults { OnOk result (state.new.faults ≡ violations.switch_body_faults (views.context_of ctx.now) (views.around_of around) (body_of (words_of ctx.now.words) x.now) (views.walk_of state.old) state.old.faults) }
{
    match body_layer(&ctx.words, x) {
        BodyLayer::Braces(first, _, items) => {
            switch_braces(alloc, ctx, around, state, first, items)
        }
        BodyLayer::Lone(first, _, x) => switch_lone(alloc, ctx, around, state, first, x),
    }
}

#[cycle(walk)]
#[tactic(auto, using(crate::proofs::Scopes::left_lists))]
fn switch_braces<'n, 'a>(
    alloc: Global,
    ctx: &FunctionContext<'n, 'a>,
    around: Around,
    state: &mut State<'a>,
    first: u32,
    nodes: &[SyntaxNode],
) -> Result<List<Section>, Memory>
    ensures walk { OnOk result (views.walk_of state.new ≡ spec.behind_body (views.context_of ctx.now) (items.Braces first 0 (items_of (words_of ctx.now.words) nodes.now)) (views.walk_of state.old)) }
    ensures value { IfOk result (λ ss. ss ≡ spec.switch_sections (views.context_of ctx.now) (items.Braces first 0 (items_of (words_of ctx.now.words) nodes.now)) (views.walk_of state.old)) }
    ensures cases { OnOk result (state.new.cases ≡ cases.body_entries (views.context_of ctx.now) (items.Braces first 0 (items_of (words_of ctx.now.words) nodes.now)) (views.walk_of state.old) state.old.cases) }
    ensures faults { OnOk result (state.new.faults ≡ violations.switch_body_faults (views.context_of ctx.now) (views.around_of around) (items.Braces first 0 (items_of (words_of ctx.now.words) nodes.now)) (views.walk_of state.old) state.old.faults) }
{
    enter(alloc, state)?;
    let read = sections_of(alloc, ctx, around, state, first, nodes)?;
    leave(state);
    Ok(read)
}

#[cycle(walk)]
#[tactic(auto, using(crate::proofs::SwitchSteps::lone_sections))]
fn switch_lone<'n, 'a>(
    alloc: Global,
    ctx: &FunctionContext<'n, 'a>,
    around: Around,
    state: &mut State<'a>,
    first: u32,
    x: &SyntaxNode,
) -> Result<List<Section>, Memory>
    ensures walk { OnOk result (views.walk_of state.new ≡ spec.behind_body (views.context_of ctx.now) (items.Lone first 0 (item_of (words_of ctx.now.words) x.now)) (views.walk_of state.old)) }
    ensures value { IfOk result (λ ss. ss ≡ spec.switch_sections (views.context_of ctx.now) (items.Lone first 0 (item_of (words_of ctx.now.words) x.now)) (views.walk_of state.old)) }
    ensures cases { OnOk result (state.new.cases ≡ cases.body_entries (views.context_of ctx.now) (items.Lone first 0 (item_of (words_of ctx.now.words) x.now)) (views.walk_of state.old) state.old.cases) }
    ensures faults { OnOk result (state.new.faults ≡ violations.switch_body_faults (views.context_of ctx.now) (views.around_of around) (items.Lone first 0 (item_of (words_of ctx.now.words) x.now)) (views.walk_of state.old) state.old.faults) }
{
    let mut read = no_sections(alloc);
    enter(alloc, state)?;
    section_item(alloc, ctx, around, state, x, &mut read)?;
    leave(state);
    finish(alloc, ctx, first, read)
}

/// Reads a node of a switch's list, which may be a token.
#[cycle(walk)]
fn section_node<'n, 'a>(
    alloc: Global,
    ctx: &FunctionContext<'n, 'a>,
    around: Around,
    state: &mut State<'a>,
    x: &SyntaxNode,
    read: &mut Sections,
) -> Result<(), Memory>
    ensures walk { OnOk result ((xs : items.Items) → spec.behind_items (views.context_of ctx.now) xs (views.walk_of state.new) ≡ spec.behind_items (views.context_of ctx.now) (steps.with_node (words_of ctx.now.words) x.now xs) (views.walk_of state.old)) }
    ensures sections { OnOk result ((xs : items.Items) (notes : List Item) → read.new.done ++ steps.sections_behind (views.context_of ctx.now) read.new.current xs notes (views.walk_of state.new) ≡ read.old.done ++ steps.sections_behind (views.context_of ctx.now) read.old.current (steps.with_node (words_of ctx.now.words) x.now xs) notes (views.walk_of state.old)) }
    ensures cases { OnOk result ((xs : items.Items) → cases.list_entries (views.context_of ctx.now) xs (views.walk_of state.new) state.new.cases ≡ cases.list_entries (views.context_of ctx.now) (steps.with_node (words_of ctx.now.words) x.now xs) (views.walk_of state.old) state.old.cases) }
    ensures faults { OnOk result ((xs : items.Items) → steps.section_faults (views.context_of ctx.now) (views.around_of around) read.new.current.begun xs (views.walk_of state.new) state.new.faults ≡ steps.section_faults (views.context_of ctx.now) (views.around_of around) read.old.current.begun (steps.with_node (words_of ctx.now.words) x.now xs) (views.walk_of state.old) state.old.faults) }
{
    if is_token(x) {
        return Ok(());
    }
    section_item(alloc, ctx, around, state, x, read)
}

/// The sections among these nodes.
#[cycle(walk)]
#[tactic(auto, using(crate::proofs::SwitchSteps::all_sections))]
fn sections_of<'n, 'a>(
    alloc: Global,
    ctx: &FunctionContext<'n, 'a>,
    around: Around,
    state: &mut State<'a>,
    first: u32,
    nodes: &[SyntaxNode],
) -> Result<List<Section>, Memory>
    ensures walk { OnOk result (views.walk_of state.new ≡ spec.behind_items (views.context_of ctx.now) (items_of (words_of ctx.now.words) nodes.now) (views.walk_of state.old)) }
    ensures value { IfOk result (λ ss. ss ≡ the_sections.front (spec.outside_items (views.context_of ctx.now) (items_of (words_of ctx.now.words) nodes.now) (views.walk_of state.old)) ++ spec.sections_from (views.context_of ctx.now) None (items_of (words_of ctx.now.words) nodes.now) (context.notes_at (views.context_of ctx.now) (Anchor.AtEnd first)) (views.walk_of state.old)) }
    ensures cases { OnOk result (state.new.cases ≡ cases.list_entries (views.context_of ctx.now) (items_of (words_of ctx.now.words) nodes.now) (views.walk_of state.old) state.old.cases) }
    ensures faults { OnOk result (state.new.faults ≡ violations.outside_faults (views.context_of ctx.now) (views.around_of around) (items_of (words_of ctx.now.words) nodes.now) (views.walk_of state.old) state.old.faults) }
{
    let mut read = no_sections(alloc);
    for x in nodes {
        section_node(alloc, ctx, around, state, x, &mut read)?;
    }
    finish(alloc, ctx, first, read)
}

/// Reads an item of a switch's list: one with a case or default label begins a section.
#[cycle(walk)]
fn section_item<'n, 'a>(
    alloc: Global,
    ctx: &FunctionContext<'n, 'a>,
    around: Around,
    state: &mut State<'a>,
    x: &SyntaxNode,
    read: &mut Sections,
) -> Result<(), Memory>
    ensures done { OnOk result (read.new.done ≡ read.old.done ++ steps.closed_before read.old.current (item_of (words_of ctx.now.words) x.now)) }
    ensures current { OnOk result (steps.reading_of read.new.current ≡ steps.reading_behind (views.context_of ctx.now) (steps.reading_of read.old.current) (item_of (words_of ctx.now.words) x.now) (views.walk_of state.old)) }
    ensures begun { OnOk result (read.new.current.begun ≡ (read.old.current.begun || steps.begins (item_of (words_of ctx.now.words) x.now))) }
    ensures outside { OnOk result (steps.outside_of read.new.current ≡ steps.outside_behind (views.context_of ctx.now) read.old.current (item_of (words_of ctx.now.words) x.now) (views.walk_of state.old)) }
    ensures walk { OnOk result (views.walk_of state.new ≡ spec.behind_item (views.context_of ctx.now) (item_of (words_of ctx.now.words) x.now) (views.walk_of state.old)) }
    ensures cases { OnOk result (state.new.cases ≡ cases.item_entries (views.context_of ctx.now) (item_of (words_of ctx.now.words) x.now) (views.walk_of state.old) state.old.cases) }
    ensures faults { OnOk result (state.new.faults ≡ steps.section_item_faults (views.context_of ctx.now) (views.around_of around) read.old.current.begun (item_of (words_of ctx.now.words) x.now) (views.walk_of state.old) state.old.faults) }
{
    match item_layer(&ctx.words, x) {
        ItemLayer::States(labels, plain) => {
            if has_case(&ctx.words, labels) {
                section(alloc, ctx, around, state, labels, plain, read)
            } else if read.current.begun || is_element(&ctx.words, x) {
                extend(alloc, ctx, around, state, x, read)
            } else {
                pass_over(alloc, ctx, around, state, x, read)
            }
        }
        ItemLayer::Declares(_, _, _) => extend(alloc, ctx, around, state, x, read),
        ItemLayer::Unread(_, _) => extend(alloc, ctx, around, state, x, read),
    }
}

#[cycle(walk)]
fn section<'n, 'a>(
    alloc: Global,
    ctx: &FunctionContext<'n, 'a>,
    around: Around,
    state: &mut State<'a>,
    labels: &[SyntaxNode],
    plain: &SyntaxNode,
    read: &mut Sections,
) -> Result<(), Memory>
    requires { the_labels.has_case (labels_of (words_of ctx.now.words) labels.now) ≡ true }
    ensures done { OnOk result (read.new.done ≡ read.old.done ++ steps.closed_before read.old.current (items.States (labels_of (words_of ctx.now.words) labels.now) (plain_of (words_of ctx.now.words) plain.now))) }
    ensures current { OnOk result (steps.reading_of read.new.current ≡ steps.reading_behind (views.context_of ctx.now) (steps.reading_of read.old.current) (items.States (labels_of (words_of ctx.now.words) labels.now) (plain_of (words_of ctx.now.words) plain.now)) (views.walk_of state.old)) }
    ensures begun { OnOk result (read.new.current.begun ≡ (read.old.current.begun || steps.begins (items.States (labels_of (words_of ctx.now.words) labels.now) (plain_of (words_of ctx.now.words) plain.now)))) }
    ensures outside { OnOk result (steps.outside_of read.new.current ≡ steps.outside_behind (views.context_of ctx.now) read.old.current (items.States (labels_of (words_of ctx.now.words) labels.now) (plain_of (words_of ctx.now.words) plain.now)) (views.walk_of state.old)) }
    ensures walk { OnOk result (views.walk_of state.new ≡ spec.behind_item (views.context_of ctx.now) (items.States (labels_of (words_of ctx.now.words) labels.now) (plain_of (words_of ctx.now.words) plain.now)) (views.walk_of state.old)) }
    ensures cases { OnOk result (state.new.cases ≡ cases.item_entries (views.context_of ctx.now) (items.States (labels_of (words_of ctx.now.words) labels.now) (plain_of (words_of ctx.now.words) plain.now)) (views.walk_of state.old) state.old.cases) }
    ensures faults { OnOk result (state.new.faults ≡ steps.section_item_faults (views.context_of ctx.now) (views.around_of around) read.old.current.begun (items.States (labels_of (words_of ctx.now.words) labels.now) (plain_of (words_of ctx.now.words) plain.now)) (views.walk_of state.old) state.old.faults) }
{
    close(alloc, read)?;
    begin(alloc, ctx, around, state, labels, &mut read.current)?;
    add_plain(alloc, ctx, around, state, plain, &mut read.current.list)
}

#[cycle(walk)]
#[tactic(auto, using(crate::proofs::SwitchSteps::extending))]
fn extend<'n, 'a>(
    alloc: Global,
    ctx: &FunctionContext<'n, 'a>,
    around: Around,
    state: &mut State<'a>,
    x: &SyntaxNode,
    read: &mut Sections,
) -> Result<(), Memory>
    requires further { steps.begins (item_of (words_of ctx.now.words) x.now) ≡ false }
    requires kept { (read.now.current.begun || steps.is_element (item_of (words_of ctx.now.words) x.now)) ≡ true }
    ensures done { OnOk result (read.new.done ≡ read.old.done ++ steps.closed_before read.old.current (item_of (words_of ctx.now.words) x.now)) }
    ensures current { OnOk result (steps.reading_of read.new.current ≡ steps.reading_behind (views.context_of ctx.now) (steps.reading_of read.old.current) (item_of (words_of ctx.now.words) x.now) (views.walk_of state.old)) }
    ensures begun { OnOk result (read.new.current.begun ≡ (read.old.current.begun || steps.begins (item_of (words_of ctx.now.words) x.now))) }
    ensures outside { OnOk result (steps.outside_of read.new.current ≡ steps.outside_behind (views.context_of ctx.now) read.old.current (item_of (words_of ctx.now.words) x.now) (views.walk_of state.old)) }
    ensures walk { OnOk result (views.walk_of state.new ≡ spec.behind_item (views.context_of ctx.now) (item_of (words_of ctx.now.words) x.now) (views.walk_of state.old)) }
    ensures cases { OnOk result (state.new.cases ≡ cases.item_entries (views.context_of ctx.now) (item_of (words_of ctx.now.words) x.now) (views.walk_of state.old) state.old.cases) }
    ensures faults { OnOk result (state.new.faults ≡ steps.section_item_faults (views.context_of ctx.now) (views.around_of around) read.old.current.begun (item_of (words_of ctx.now.words) x.now) (views.walk_of state.old) state.old.faults) }
{
    let outside = is_outside(&ctx.words, read.current.begun, x);
    let first = first_of_item(&ctx.words, x);
    add_item(alloc, ctx, around, state, x, &mut read.current.list)?;
    report_at(state, outside, first, reasons::CASE_OUTSIDE)
}

/// Reads a null statement in front of the first section, which is no item.
#[cycle(walk)]
#[tactic(auto, using(crate::proofs::SwitchSteps::passing))]
fn pass_over<'n, 'a>(
    alloc: Global,
    ctx: &FunctionContext<'n, 'a>,
    around: Around,
    state: &mut State<'a>,
    x: &SyntaxNode,
    read: &mut Sections,
) -> Result<(), Memory>
    requires further { steps.begins (item_of (words_of ctx.now.words) x.now) ≡ false }
    requires passed { (read.now.current.begun || steps.is_element (item_of (words_of ctx.now.words) x.now)) ≡ false }
    ensures done { OnOk result (read.new.done ≡ read.old.done ++ steps.closed_before read.old.current (item_of (words_of ctx.now.words) x.now)) }
    ensures current { OnOk result (steps.reading_of read.new.current ≡ steps.reading_behind (views.context_of ctx.now) (steps.reading_of read.old.current) (item_of (words_of ctx.now.words) x.now) (views.walk_of state.old)) }
    ensures begun { OnOk result (read.new.current.begun ≡ (read.old.current.begun || steps.begins (item_of (words_of ctx.now.words) x.now))) }
    ensures outside { OnOk result (steps.outside_of read.new.current ≡ steps.outside_behind (views.context_of ctx.now) read.old.current (item_of (words_of ctx.now.words) x.now) (views.walk_of state.old)) }
    ensures walk { OnOk result (views.walk_of state.new ≡ spec.behind_item (views.context_of ctx.now) (item_of (words_of ctx.now.words) x.now) (views.walk_of state.old)) }
    ensures cases { OnOk result (state.new.cases ≡ cases.item_entries (views.context_of ctx.now) (item_of (words_of ctx.now.words) x.now) (views.walk_of state.old) state.old.cases) }
    ensures faults { OnOk result (state.new.faults ≡ steps.section_item_faults (views.context_of ctx.now) (views.around_of around) read.old.current.begun (item_of (words_of ctx.now.words) x.now) (views.walk_of state.old) state.old.faults) }
{
    let mut none = List::new(alloc);
    add_item(alloc, ctx, around, state, x, &mut none)
}
