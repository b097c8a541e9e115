//! Expressions and declarations at a place of a body.

ghost use Rattle.std.specs.Prelude.{◌≡◌, ◌++◌, option_map, IfOk, OnOk};
ghost use Rattle.c_bodies.specs.Views as views;
ghost use Rattle.c_kinds.specs.Constants.{constant_of};
ghost use Rattle.c_kinds.specs.Typing.{typed, constant_faults, faults as the_faults};
ghost use Rattle.c_kinds.specs.Values.{value_of as the_value};
ghost use Rattle.c_grammar.specs.ItemViews.{declaration_of};
ghost use Rattle.c_grammar.specs.Parts.{term_of};
ghost use Rattle.c_grammar.specs.Views.{words_of};
ghost use Rattle.c_statements.specs.Declarations as declarations;
ghost use Rattle.c_statements.specs.Statements as spec;
ghost use Rattle.c_statements.specs.Violations as violations;

use crate::state::{FunctionContext, State, report_at};
use c_grammar::SyntaxNode;
use c_kinds::{
    Valued, constant_expression, dropped_value, expression_of, typed_of, used_value, value_of,
};
use c_statements::{add_declaration, or_placeholder, value};
use c_tree::{Expression, Item, Node};
use c_types::{Boxed, IntKind, List, Memory, reasons};
use std::alloc::Global;

/// An expression of which the value is used.
#[tactic(auto, unfolding(crate::specs::Views::walk_of))]
pub fn used<'n, 'a>(
    alloc: Global,
    ctx: &FunctionContext<'n, 'a>,
    state: &mut State<'a>,
    x: &SyntaxNode,
) -> Result<Expression, Memory>
    ensures value { IfOk result (λ e. e ≡ declarations.value_at (views.env ctx.now state.old) (term_of (words_of ctx.now.words) x.now)) }
    ensures walk { OnOk result (views.walk_of state.new ≡ views.walk_of state.old) }
    ensures cases { OnOk result (state.new.cases ≡ state.old.cases) }
    ensures faults { OnOk result (state.new.faults ≡ declarations.value_faults (views.env ctx.now state.old) (term_of (words_of ctx.now.words) x.now) state.old.faults) }
{
    state.known.words = ctx.words;
    value(alloc, &state.known, &mut state.faults, x)
}

fn or_dropped(e: Option<Expression>) -> Expression
    ensures { result ≡ spec.or_dropped e }
{
    match e {
        Some(e) => e,
        None => expression_of(Some(IntKind::Int), Node::Number(0)),
    }
}

/// An expression of which the value, if it has one, is dropped.
#[tactic(auto, unfolding(crate::specs::Views::walk_of))]
pub fn dropped<'n, 'a>(
    alloc: Global,
    ctx: &FunctionContext<'n, 'a>,
    state: &mut State<'a>,
    x: &SyntaxNode,
) -> Result<Expression, Memory>
    ensures value { IfOk result (λ e. e ≡ spec.dropped_at (views.env ctx.now state.old) (term_of (words_of ctx.now.words) x.now)) }
    ensures walk { OnOk result (views.walk_of state.new ≡ views.walk_of state.old) }
    ensures cases { OnOk result (state.new.cases ≡ state.old.cases) }
    ensures faults { OnOk result (state.new.faults ≡ violations.dropped_faults (views.env ctx.now state.old) (term_of (words_of ctx.now.words) x.now) state.old.faults) }
{
    state.known.words = ctx.words;
    Ok(or_dropped(dropped_value(alloc, &state.known, &mut state.faults, x)?))
}

/// A constant expression and its value, and `None` where it is none.
#[tactic(auto, unfolding(crate::specs::Views::walk_of))]
pub fn constant<'n, 'a>(
    alloc: Global,
    ctx: &FunctionContext<'n, 'a>,
    state: &mut State<'a>,
    x: &SyntaxNode,
) -> Result<Option<(Expression, i128)>, Memory>
    ensures value { IfOk result (λ c. c ≡ constant_of (typed (views.env ctx.now state.old) (term_of (words_of ctx.now.words) x.now))) }
    ensures walk { OnOk result (views.walk_of state.new ≡ views.walk_of state.old) }
    ensures cases { OnOk result (state.new.cases ≡ state.old.cases) }
    ensures faults { OnOk result (state.new.faults ≡ constant_faults (views.env ctx.now state.old) (term_of (words_of ctx.now.words) x.now) state.old.faults) }
{
    state.known.words = ctx.words;
    constant_expression(alloc, &state.known, &mut state.faults, x)
}

/// The selector of a switch, and its kind, which is `None` where it has a violation.
#[derive(Drop)]
pub struct Selected {
    pub expression: Expression,
    pub kind: Option<IntKind>,
}

fn kind_of(value: &Option<Valued>) -> Option<IntKind>
    ensures { result ≡ option_map (λ v. v.kind) value.now }
{
    match value {
        Some(value) => Some(value.kind),
        None => None,
    }
}

/// The selector of a switch.
#[tactic(auto, unfolding(crate::specs::Views::walk_of))]
pub fn selector<'n, 'a>(
    alloc: Global,
    ctx: &FunctionContext<'n, 'a>,
    state: &mut State<'a>,
    x: &SyntaxNode,
) -> Result<Selected, Memory>
    ensures value { IfOk result (λ s. s.expression ≡ declarations.value_at (views.env ctx.now state.old) (term_of (words_of ctx.now.words) x.now)) }
    ensures kind { IfOk result (λ s. s.kind ≡ option_map (λ v. v.kind) (the_value (typed (views.env ctx.now state.old) (term_of (words_of ctx.now.words) x.now)))) }
    ensures walk { OnOk result (views.walk_of state.new ≡ views.walk_of state.old) }
    ensures cases { OnOk result (state.new.cases ≡ state.old.cases) }
    ensures faults { OnOk result (state.new.faults ≡ declarations.value_faults (views.env ctx.now state.old) (term_of (words_of ctx.now.words) x.now) state.old.faults) }
{
    state.known.words = ctx.words;
    let value = used_value(alloc, &state.known, &mut state.faults, x)?;
    let kind = kind_of(&value);
    Ok(Selected {
        expression: or_placeholder(value),
        kind,
    })
}

/// Declares the variables of a declaration, and puts their declarations behind other items.
#[tactic(auto, unfolding(crate::specs::Views::walk_of))]
pub fn add_variables<'n, 'a>(
    alloc: Global,
    ctx: &FunctionContext<'n, 'a>,
    state: &mut State<'a>,
    x: &SyntaxNode,
    out: &mut List<Item>,
) -> Result<(), Memory>
    ensures walk { OnOk result (views.walk_of state.new ≡ spec.declared_by (views.context_of ctx.now) (declaration_of (words_of ctx.now.words) x.now) (views.walk_of state.old)) }
    ensures out { OnOk result (out.new ≡ out.old ++ spec.declaration_items (views.context_of ctx.now) (declaration_of (words_of ctx.now.words) x.now) (views.walk_of state.old)) }
    ensures cases { OnOk result (state.new.cases ≡ state.old.cases) }
    ensures faults { OnOk result (state.new.faults ≡ violations.declaration_faults (views.context_of ctx.now) (declaration_of (words_of ctx.now.words) x.now) (views.walk_of state.old) state.old.faults) }
{
    add_declaration(
        alloc,
        &ctx.words,
        &mut state.known,
        &mut state.slots,
        &mut state.faults,
        x,
        out,
    )
}

/// An expression where no value is wanted.
#[tactic(auto, unfolding(crate::specs::Views::walk_of))]
fn unwanted<'n, 'a>(
    alloc: Global,
    ctx: &FunctionContext<'n, 'a>,
    state: &mut State<'a>,
    x: &SyntaxNode,
) -> Result<Expression, Memory>
    ensures value { IfOk result (λ e. e ≡ declarations.value_at (views.env ctx.now state.old) (term_of (words_of ctx.now.words) x.now)) }
    ensures walk { OnOk result (views.walk_of state.new ≡ views.walk_of state.old) }
    ensures cases { OnOk result (state.new.cases ≡ state.old.cases) }
    ensures faults { OnOk result (state.new.faults ≡ the_faults (views.env ctx.now state.old) (term_of (words_of ctx.now.words) x.now) state.old.faults) }
{
    state.known.words = ctx.words;
    let value = value_of(typed_of(alloc, &state.known, &mut state.faults, x)?);
    Ok(or_placeholder(value))
}

/// The value of a `return`, by its first token, which a void function has none of.
pub fn returned<'n, 'a>(
    alloc: Global,
    ctx: &FunctionContext<'n, 'a>,
    state: &mut State<'a>,
    first: u32,
    x: &SyntaxNode,
) -> Result<Expression, Memory>
    ensures value { IfOk result (λ e. e ≡ declarations.value_at (views.env ctx.now state.old) (term_of (words_of ctx.now.words) x.now)) }
    ensures walk { OnOk result (views.walk_of state.new ≡ views.walk_of state.old) }
    ensures cases { OnOk result (state.new.cases ≡ state.old.cases) }
    ensures faults { OnOk result (state.new.faults ≡ violations.return_faults ctx.now.result (views.env ctx.now state.old) first (Some (term_of (words_of ctx.now.words) x.now)) state.old.faults) }
{
    if ctx.result.is_some() {
        return used(alloc, ctx, state, x);
    }
    let e = unwanted(alloc, ctx, state, x)?;
    match report_at(state, true, first, reasons::RETURN_UNFIT) {
        Ok(()) => Ok(e),
        Err(m) => {
            drop(e);
            Err(m)
        }
    }
}

/// The test of a `for`, if it has one.
pub fn optional_used<'n, 'a>(
    alloc: Global,
    ctx: &FunctionContext<'n, 'a>,
    state: &mut State<'a>,
    x: Option<&SyntaxNode>,
) -> Result<Option<Boxed<Expression>>, Memory>
    ensures value { IfOk result (λ e. e ≡ option_map (declarations.value_at (views.env ctx.now state.old)) (option_map (λ y. term_of (words_of ctx.now.words) y.now) x.entry)) }
    ensures walk { OnOk result (views.walk_of state.new ≡ views.walk_of state.old) }
    ensures cases { OnOk result (state.new.cases ≡ state.old.cases) }
    ensures faults { OnOk result (state.new.faults ≡ violations.optional_faults (declarations.value_faults (views.env ctx.now state.old)) (option_map (λ y. term_of (words_of ctx.now.words) y.now) x.entry) state.old.faults) }
{
    match x {
        Some(x) => Ok(Some(Boxed::new(alloc, used(alloc, ctx, state, x)?)?)),
        None => Ok(None),
    }
}

/// The third part of a `for`, if it has one.
pub fn optional_dropped<'n, 'a>(
    alloc: Global,
    ctx: &FunctionContext<'n, 'a>,
    state: &mut State<'a>,
    x: Option<&SyntaxNode>,
) -> Result<Option<Boxed<Expression>>, Memory>
    ensures value { IfOk result (λ e. e ≡ option_map (spec.dropped_at (views.env ctx.now state.old)) (option_map (λ y. term_of (words_of ctx.now.words) y.now) x.entry)) }
    ensures walk { OnOk result (views.walk_of state.new ≡ views.walk_of state.old) }
    ensures cases { OnOk result (state.new.cases ≡ state.old.cases) }
    ensures faults { OnOk result (state.new.faults ≡ violations.optional_faults (violations.dropped_faults (views.env ctx.now state.old)) (option_map (λ y. term_of (words_of ctx.now.words) y.now) x.entry) state.old.faults) }
{
    match x {
        Some(x) => Ok(Some(Boxed::new(alloc, dropped(alloc, ctx, state, x)?)?)),
        None => Ok(None),
    }
}
