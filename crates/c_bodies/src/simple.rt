//! Statements without statements in them.

ghost use Rattle.std.specs.Prelude.{◌≡◌, ◌++◌, ◌∷◌, [], Some, None, option_map, IfOk, OnOk};
ghost use Rattle.c_bodies.specs.Views as views;
ghost use Rattle.c_grammar.specs.ItemViews.{start_form};
ghost use Rattle.c_grammar.specs.Items as items;
ghost use Rattle.c_grammar.specs.Parts.{term_of};
ghost use Rattle.c_grammar.specs.Views.{words_of};
ghost use Rattle.c_statements.specs.Context as context;
ghost use Rattle.c_statements.specs.Declarations as declarations;
ghost use Rattle.c_statements.specs.Statements as spec;
ghost use Rattle.c_statements.specs.Violations as violations;

use crate::items::Heads;
use crate::state::{Around, FunctionContext, State, enter, report_at};
use crate::values::{add_variables, dropped, optional_dropped, optional_used, returned};
use c_grammar::{StartLayer, SyntaxNode};
use c_tree::Item;
use c_types::{List, Memory, reasons};
use std::alloc::Global;

/// An expression statement.
pub fn add_evaluation<'n, 'a>(
    alloc: Global,
    ctx: &FunctionContext<'n, 'a>,
    state: &mut State<'a>,
    x: &SyntaxNode,
    out: &mut List<Item>,
) -> Result<(), Memory>
    ensures walk { OnOk result (views.walk_of state.new ≡ views.walk_of state.old) }
    ensures out { OnOk result (out.new ≡ out.old ++ spec.statement_items (views.context_of ctx.now) (items.Evaluate (term_of (words_of ctx.now.words) x.now)) (views.walk_of state.old)) }
    ensures cases { OnOk result (state.new.cases ≡ state.old.cases) }
    ensures faults { OnOk result (state.new.faults ≡ violations.statement_faults (views.context_of ctx.now) context.no_construct 0 (items.Evaluate (term_of (words_of ctx.now.words) x.now)) (views.walk_of state.old) state.old.faults) }
{
    let e = dropped(alloc, ctx, state, x)?;
    out.push(Item::Evaluate(e))
}

/// A `goto` by the token of its label.
pub fn add_goto(
    ctx: &FunctionContext,
    state: &mut State,
    at: u32,
    out: &mut List<Item>,
) -> Result<(), Memory>
    ensures walk { OnOk result (views.walk_of state.new ≡ views.walk_of state.old) }
    ensures out { OnOk result (out.new ≡ out.old ++ spec.statement_items (views.context_of ctx.now) (items.Goto at) (views.walk_of state.old)) }
    ensures cases { OnOk result (state.new.cases ≡ state.old.cases) }
    ensures faults { OnOk result (state.new.faults ≡ violations.statement_faults (views.context_of ctx.now) context.no_construct 0 (items.Goto at) (views.walk_of state.old) state.old.faults) }
{
    let name = ctx.words.get(at);
    report_at(state, !ctx.labels.has(name), at, reasons::UNKNOWN_LABEL)?;
    let number = ctx.labels.number(name)?;
    out.push(Item::Goto(number))
}

/// A `break`, by its first token.
pub fn add_break(
    ctx: &FunctionContext,
    around: Around,
    state: &mut State,
    first: u32,
    out: &mut List<Item>,
) -> Result<(), Memory>
    ensures walk { OnOk result (views.walk_of state.new ≡ views.walk_of state.old) }
    ensures out { OnOk result (out.new ≡ out.old ++ spec.statement_items (views.context_of ctx.now) items.Break (views.walk_of state.old)) }
    ensures cases { OnOk result (state.new.cases ≡ state.old.cases) }
    ensures faults { OnOk result (state.new.faults ≡ violations.statement_faults (views.context_of ctx.now) (views.around_of around) first items.Break (views.walk_of state.old) state.old.faults) }
{
    report_at(
        state,
        !(around.in_loop || around.in_switch),
        first,
        reasons::BREAK_OUTSIDE,
    )?;
    out.push(Item::Break)
}

/// A `continue`, by its first token.
pub fn add_continue(
    ctx: &FunctionContext,
    around: Around,
    state: &mut State,
    first: u32,
    out: &mut List<Item>,
) -> Result<(), Memory>
    ensures walk { OnOk result (views.walk_of state.new ≡ views.walk_of state.old) }
    ensures out { OnOk result (out.new ≡ out.old ++ spec.statement_items (views.context_of ctx.now) items.Continue (views.walk_of state.old)) }
    ensures cases { OnOk result (state.new.cases ≡ state.old.cases) }
    ensures faults { OnOk result (state.new.faults ≡ violations.statement_faults (views.context_of ctx.now) (views.around_of around) first items.Continue (views.walk_of state.old) state.old.faults) }
{
    report_at(state, !around.in_loop, first, reasons::CONTINUE_OUTSIDE)?;
    out.push(Item::Continue)
}

fn add_returned<'n, 'a>(
    alloc: Global,
    ctx: &FunctionContext<'n, 'a>,
    state: &mut State<'a>,
    first: u32,
    x: &SyntaxNode,
    out: &mut List<Item>,
) -> Result<(), Memory>
    ensures walk { OnOk result (views.walk_of state.new ≡ views.walk_of state.old) }
    ensures out { OnOk result (out.new ≡ out.old ++ spec.statement_items (views.context_of ctx.now) (items.Return (Some (term_of (words_of ctx.now.words) x.now))) (views.walk_of state.old)) }
    ensures cases { OnOk result (state.new.cases ≡ state.old.cases) }
    ensures faults { OnOk result (state.new.faults ≡ violations.statement_faults (views.context_of ctx.now) context.no_construct first (items.Return (Some (term_of (words_of ctx.now.words) x.now))) (views.walk_of state.old) state.old.faults) }
{
    let e = returned(alloc, ctx, state, first, x)?;
    out.push(Item::Return(Some(e)))
}

fn add_empty_return(
    ctx: &FunctionContext,
    state: &mut State,
    first: u32,
    out: &mut List<Item>,
) -> Result<(), Memory>
    ensures walk { OnOk result (views.walk_of state.new ≡ views.walk_of state.old) }
    ensures out { OnOk result (out.new ≡ out.old ++ spec.statement_items (views.context_of ctx.now) (items.Return None) (views.walk_of state.old)) }
    ensures cases { OnOk result (state.new.cases ≡ state.old.cases) }
    ensures faults { OnOk result (state.new.faults ≡ violations.statement_faults (views.context_of ctx.now) context.no_construct first (items.Return None) (views.walk_of state.old) state.old.faults) }
{
    report_at(state, ctx.result.is_some(), first, reasons::RETURN_UNFIT)?;
    out.push(Item::Return(None))
}

/// A `return`, by its first token.
pub fn add_return<'n, 'a>(
    alloc: Global,
    ctx: &FunctionContext<'n, 'a>,
    state: &mut State<'a>,
    first: u32,
    x: Option<&SyntaxNode>,
    out: &mut List<Item>,
) -> Result<(), Memory>
    ensures walk { OnOk result (views.walk_of state.new ≡ views.walk_of state.old) }
    ensures out { OnOk result (out.new ≡ out.old ++ spec.statement_items (views.context_of ctx.now) (items.Return (option_map (λ y. term_of (words_of ctx.now.words) y.now) x.entry)) (views.walk_of state.old)) }
    ensures cases { OnOk result (state.new.cases ≡ state.old.cases) }
    ensures faults { OnOk result (state.new.faults ≡ violations.statement_faults (views.context_of ctx.now) context.no_construct first (items.Return (option_map (λ y. term_of (words_of ctx.now.words) y.now) x.entry)) (views.walk_of state.old) state.old.faults) }
{
    match x {
        Some(x) => add_returned(alloc, ctx, state, first, x, out),
        None => add_empty_return(ctx, state, first, out),
    }
}

/// The first part of a `for`, in the scope of the loop.
pub fn add_start<'n, 'a>(
    alloc: Global,
    ctx: &FunctionContext<'n, 'a>,
    state: &mut State<'a>,
    start: StartLayer,
    out: &mut List<Item>,
) -> Result<(), Memory>
    ensures walk { OnOk result (views.walk_of state.new ≡ spec.behind_start (views.context_of ctx.now) (start_form (words_of ctx.now.words) start.entry) (views.walk_of state.old)) }
    ensures out { OnOk result (out.new ≡ out.old ++ spec.start_items (views.context_of ctx.now) (start_form (words_of ctx.now.words) start.entry) (views.walk_of state.old)) }
    ensures cases { OnOk result (state.new.cases ≡ state.old.cases) }
    ensures faults { OnOk result (state.new.faults ≡ violations.start_faults (views.context_of ctx.now) (start_form (words_of ctx.now.words) start.entry) (views.walk_of state.old) state.old.faults) }
{
    match start {
        StartLayer::NoStart => Ok(()),
        StartLayer::StartValue(x) => add_evaluation(alloc, ctx, state, x, out),
        StartLayer::StartNames(x) => add_variables(alloc, ctx, state, x, out),
    }
}

/// The parts of a `for` in front of its list, in the scope of the loop, which stays open.
pub fn read_heads<'n, 'a>(
    alloc: Global,
    ctx: &FunctionContext<'n, 'a>,
    state: &mut State<'a>,
    start: StartLayer,
    test: Option<&SyntaxNode>,
    third: Option<&SyntaxNode>,
) -> Result<Heads, Memory>
    ensures start { IfOk result (λ h. h.start ≡ spec.start_items (views.context_of ctx.now) (start_form (words_of ctx.now.words) start.entry) (context.enter (views.walk_of state.old))) }
    ensures test { IfOk result (λ h. h.test ≡ option_map (declarations.value_at (context.env_at (views.context_of ctx.now) (spec.behind_start (views.context_of ctx.now) (start_form (words_of ctx.now.words) start.entry) (context.enter (views.walk_of state.old))))) (option_map (λ y. term_of (words_of ctx.now.words) y.now) test.entry)) }
    ensures third { IfOk result (λ h. h.third ≡ option_map (spec.dropped_at (context.env_at (views.context_of ctx.now) (spec.behind_start (views.context_of ctx.now) (start_form (words_of ctx.now.words) start.entry) (context.enter (views.walk_of state.old))))) (option_map (λ y. term_of (words_of ctx.now.words) y.now) third.entry)) }
    ensures walk { OnOk result (views.walk_of state.new ≡ (spec.behind_start (views.context_of ctx.now) (start_form (words_of ctx.now.words) start.entry) (context.enter (views.walk_of state.old)))) }
    ensures cases { OnOk result (state.new.cases ≡ state.old.cases) }
    ensures faults { OnOk result (state.new.faults ≡ violations.optional_faults (violations.dropped_faults (context.env_at (views.context_of ctx.now) (spec.behind_start (views.context_of ctx.now) (start_form (words_of ctx.now.words) start.entry) (context.enter (views.walk_of state.old))))) (option_map (λ y. term_of (words_of ctx.now.words) y.now) third.entry) (violations.optional_faults (declarations.value_faults (context.env_at (views.context_of ctx.now) (spec.behind_start (views.context_of ctx.now) (start_form (words_of ctx.now.words) start.entry) (context.enter (views.walk_of state.old))))) (option_map (λ y. term_of (words_of ctx.now.words) y.now) test.entry) (violations.start_faults (views.context_of ctx.now) (start_form (words_of ctx.now.words) start.entry) (context.enter (views.walk_of state.old)) state.old.faults))) }
{
    enter(alloc, state)?;
    let mut items = List::new(alloc);
    add_start(alloc, ctx, state, start, &mut items)?;
    let test = optional_used(alloc, ctx, state, test)?;
    match optional_dropped(alloc, ctx, state, third) {
        Ok(third) => Ok(Heads {
            start: items,
            test,
            third,
        }),
        Err(m) => {
            drop(test);
            Err(m)
        }
    }
}
