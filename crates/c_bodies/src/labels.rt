//! The labels of statements.

ghost use Rattle.std.specs.Prelude.{◌≡◌, ◌++◌, ◌∷◌, [], ◌||◌, not, IfOk, OnOk};
ghost use Rattle.c_bodies.specs.Steps as steps;
ghost use Rattle.c_bodies.specs.Views as views;
ghost use Rattle.c_kinds.specs.Scopes.{fault_if};
ghost use Rattle.c_grammar.specs.ItemViews.{label_form, labels_of};
ghost use Rattle.c_grammar.specs.Items as items;
ghost use Rattle.c_grammar.specs.Items.{Case as the_case};
ghost use Rattle.c_grammar.specs.Parts.{term_of};
ghost use Rattle.c_grammar.specs.Views.{words_of};
ghost use Rattle.c_statements.specs.Cases as cases;
ghost use Rattle.c_statements.specs.Context as context;
ghost use Rattle.c_statements.specs.Declarations as declarations;
ghost use Rattle.c_statements.specs.Labels as spec;

use crate::notes::add_notes;
use crate::reading::Reading;
use crate::state::{Around, FunctionContext, State, add_case, report_at};
use crate::values::constant;
use c_grammar::{LabelLayer, SyntaxNode, Words, label_layer};
use c_statements::{Anchor, Entry, or_placeholder};
use c_tree::{Expression, Item};
use c_types::{List, Memory, reasons};
use std::alloc::Global;

/// Puts the mark of a label behind other items.
#[tactic(auto, using(crate::proofs::Walks::listed))]
fn add_mark(
    alloc: Global,
    ctx: &FunctionContext,
    at: u32,
    out: &mut List<Item>,
) -> Result<(), Memory>
    ensures { OnOk result (out.new ≡ out.old ++ spec.mark (views.context_of ctx.now) at) }
{
    add_notes(alloc, ctx, Anchor::Before(at), out)?;
    let number = ctx.labels.number(ctx.words.get(at))?;
    out.push(Item::Mark(number))
}

fn constant_of(c: Option<(Expression, i128)>) -> Expression
    ensures { result ≡ declarations.constant_or_placeholder c }
{
    match c {
        Some((e, _)) => e,
        None => or_placeholder(None),
    }
}

/// Gives a case label, if it has a value, to the switch around it.
fn give_case(state: &mut State, at: u32, c: &Option<(Expression, i128)>) -> Result<(), Memory>
    ensures walk { OnOk result (views.walk_of state.new ≡ views.walk_of state.old) }
    ensures cases { OnOk result (state.new.cases ≡ cases.case_entry at c.now state.old.cases) }
    ensures faults { OnOk result (state.new.faults ≡ state.old.faults) }
{
    match c {
        Some((_, value)) => add_case(state, Entry::Value(at, *value)),
        None => Ok(()),
    }
}

/// The constant of a case label, which is given to the switch around it.
fn case<'n, 'a>(
    alloc: Global,
    ctx: &FunctionContext<'n, 'a>,
    around: Around,
    state: &mut State<'a>,
    at: u32,
    x: &SyntaxNode,
) -> Result<Expression, Memory>
    ensures value { IfOk result (λ e. e ≡ declarations.constant_at (views.env ctx.now state.old) (term_of (words_of ctx.now.words) x.now)) }
    ensures walk { OnOk result (views.walk_of state.new ≡ views.walk_of state.old) }
    ensures cases { OnOk result (state.new.cases ≡ cases.label_entry (views.env ctx.now state.old) (the_case at 0 (term_of (words_of ctx.now.words) x.now)) state.old.cases) }
    ensures faults { OnOk result (state.new.faults ≡ spec.label_faults (views.env ctx.now state.old) around.in_switch (the_case at 0 (term_of (words_of ctx.now.words) x.now)) state.old.faults) }
{
    report_at(state, !around.in_switch, at, reasons::CASE_OUTSIDE)?;
    let c = constant(alloc, ctx, state, x)?;
    match give_case(state, at, &c) {
        Ok(()) => Ok(constant_of(c)),
        Err(m) => {
            drop(c);
            Err(m)
        }
    }
}

/// Gives a default label to the switch around it.
fn default(around: Around, state: &mut State, at: u32) -> Result<(), Memory>
    ensures walk { OnOk result (views.walk_of state.new ≡ views.walk_of state.old) }
    ensures cases { OnOk result (state.new.cases ≡ state.old.cases ++ Entry.Other at ∷ []) }
    ensures faults { OnOk result (state.new.faults ≡ fault_if (not around.in_switch) at 29 state.old.faults) }
{
    report_at(state, !around.in_switch, at, reasons::CASE_OUTSIDE)?;
    add_case(state, Entry::Other(at))
}

/// Puts the item of a case label behind others.
#[tactic(auto, using(crate::proofs::Walks::listed))]
fn add_arrival<'n, 'a>(
    alloc: Global,
    ctx: &FunctionContext<'n, 'a>,
    around: Around,
    state: &mut State<'a>,
    at: u32,
    x: &SyntaxNode,
    out: &mut List<Item>,
) -> Result<(), Memory>
    ensures walk { OnOk result (views.walk_of state.new ≡ views.walk_of state.old) }
    ensures out { OnOk result (out.new ≡ out.old ++ spec.label_items (views.context_of ctx.now) (views.env ctx.now state.old) (the_case at 0 (term_of (words_of ctx.now.words) x.now))) }
    ensures cases { OnOk result (state.new.cases ≡ cases.label_entry (views.env ctx.now state.old) (the_case at 0 (term_of (words_of ctx.now.words) x.now)) state.old.cases) }
    ensures faults { OnOk result (state.new.faults ≡ spec.label_faults (views.env ctx.now state.old) around.in_switch (the_case at 0 (term_of (words_of ctx.now.words) x.now)) state.old.faults) }
{
    add_notes(alloc, ctx, Anchor::Before(at), out)?;
    let e = case(alloc, ctx, around, state, at, x)?;
    out.push(Item::Arrival(Some(e)))
}

/// Puts the item of a label behind others.
#[tactic(auto, using(crate::proofs::Walks::listed))]
fn add_label<'n, 'a>(
    alloc: Global,
    ctx: &FunctionContext<'n, 'a>,
    around: Around,
    state: &mut State<'a>,
    label: LabelLayer,
    out: &mut List<Item>,
) -> Result<(), Memory>
    ensures walk { OnOk result (views.walk_of state.new ≡ views.walk_of state.old) }
    ensures out { OnOk result (out.new ≡ out.old ++ spec.label_items (views.context_of ctx.now) (views.env ctx.now state.old) (label_form (words_of ctx.now.words) label.entry)) }
    ensures cases { OnOk result (state.new.cases ≡ cases.label_entry (views.env ctx.now state.old) (label_form (words_of ctx.now.words) label.entry) state.old.cases) }
    ensures faults { OnOk result (state.new.faults ≡ spec.label_faults (views.env ctx.now state.old) around.in_switch (label_form (words_of ctx.now.words) label.entry) state.old.faults) }
{
    match label {
        LabelLayer::Named(at, _) => add_mark(alloc, ctx, at, out),
        LabelLayer::Case(at, _, x) => add_arrival(alloc, ctx, around, state, at, x, out),
        LabelLayer::Default(at, _) => {
            add_notes(alloc, ctx, Anchor::Before(at), out)?;
            default(around, state, at)?;
            out.push(Item::Arrival(None))
        }
    }
}

/// Puts the item of a node behind others, if the node is a label.
#[tactic(auto, using(crate::proofs::Walks::one_label))]
fn add_node<'n, 'a>(
    alloc: Global,
    ctx: &FunctionContext<'n, 'a>,
    around: Around,
    state: &mut State<'a>,
    x: &SyntaxNode,
    out: &mut List<Item>,
) -> Result<(), Memory>
    ensures walk { OnOk result (views.walk_of state.new ≡ views.walk_of state.old) }
    ensures out { OnOk result (out.new ≡ out.old ++ spec.labels_items (views.context_of ctx.now) (views.env ctx.now state.old) (labels_of (words_of ctx.now.words) (x.now ∷ []))) }
    ensures cases { OnOk result (state.new.cases ≡ cases.label_entries (views.env ctx.now state.old) (labels_of (words_of ctx.now.words) (x.now ∷ [])) state.old.cases) }
    ensures faults { OnOk result (state.new.faults ≡ spec.labels_faults (views.env ctx.now state.old) around.in_switch (labels_of (words_of ctx.now.words) (x.now ∷ [])) state.old.faults) }
{
    match label_layer(&ctx.words, x) {
        Some(label) => add_label(alloc, ctx, around, state, label, out),
        None => Ok(()),
    }
}

/// Puts the items of the labels among these nodes behind others.
#[tactic(auto, using(crate::proofs::Walks::labelled))]
pub fn add_labels<'n, 'a>(
    alloc: Global,
    ctx: &FunctionContext<'n, 'a>,
    around: Around,
    state: &mut State<'a>,
    nodes: &[SyntaxNode],
    out: &mut List<Item>,
) -> Result<(), Memory>
    ensures walk { OnOk result (views.walk_of state.new ≡ views.walk_of state.old) }
    ensures out { OnOk result (out.new ≡ out.old ++ spec.labels_items (views.context_of ctx.now) (views.env ctx.now state.old) (labels_of (words_of ctx.now.words) nodes.now)) }
    ensures cases { OnOk result (state.new.cases ≡ cases.label_entries (views.env ctx.now state.old) (labels_of (words_of ctx.now.words) nodes.now) state.old.cases) }
    ensures faults { OnOk result (state.new.faults ≡ spec.labels_faults (views.env ctx.now state.old) around.in_switch (labels_of (words_of ctx.now.words) nodes.now) state.old.faults) }
{
    for x in nodes {
        add_node(alloc, ctx, around, state, x, out)?;
    }
    Ok(())
}

/// Puts the constant of a case label at the head of a section.
fn read_case<'n, 'a>(
    alloc: Global,
    ctx: &FunctionContext<'n, 'a>,
    around: Around,
    state: &mut State<'a>,
    at: u32,
    x: &SyntaxNode,
    heads: &mut List<Expression>,
) -> Result<(), Memory>
    ensures heads { OnOk result (heads.new ≡ heads.old ++ spec.label_cases (views.env ctx.now state.old) (the_case at 0 (term_of (words_of ctx.now.words) x.now))) }
    ensures walk { OnOk result (views.walk_of state.new ≡ views.walk_of state.old) }
    ensures cases { OnOk result (state.new.cases ≡ cases.label_entry (views.env ctx.now state.old) (the_case at 0 (term_of (words_of ctx.now.words) x.now)) state.old.cases) }
    ensures faults { OnOk result (state.new.faults ≡ spec.label_faults (views.env ctx.now state.old) around.in_switch (the_case at 0 (term_of (words_of ctx.now.words) x.now)) state.old.faults) }
{
    let e = case(alloc, ctx, around, state, at, x)?;
    heads.push(e)
}

/// Puts a label of a section where it belongs: a name among the items, others at the section's head.
#[tactic(auto, using(crate::proofs::Walks::listed))]
fn read_label<'n, 'a>(
    alloc: Global,
    ctx: &FunctionContext<'n, 'a>,
    around: Around,
    state: &mut State<'a>,
    label: LabelLayer,
    section: &mut Reading,
) -> Result<(), Memory>
    ensures begun { OnOk result (section.new.begun ≡ section.old.begun) }
    ensures heads { OnOk result (section.new.cases ≡ section.old.cases ++ spec.label_cases (views.env ctx.now state.old) (label_form (words_of ctx.now.words) label.entry)) }
    ensures default { OnOk result (section.new.default ≡ section.old.default || spec.is_default (label_form (words_of ctx.now.words) label.entry)) }
    ensures list { OnOk result (section.new.list ≡ section.old.list ++ spec.label_marks (views.context_of ctx.now) (label_form (words_of ctx.now.words) label.entry)) }
    ensures walk { OnOk result (views.walk_of state.new ≡ views.walk_of state.old) }
    ensures cases { OnOk result (state.new.cases ≡ cases.label_entry (views.env ctx.now state.old) (label_form (words_of ctx.now.words) label.entry) state.old.cases) }
    ensures faults { OnOk result (state.new.faults ≡ spec.label_faults (views.env ctx.now state.old) around.in_switch (label_form (words_of ctx.now.words) label.entry) state.old.faults) }
{
    match label {
        LabelLayer::Named(at, _) => add_mark(alloc, ctx, at, &mut section.list),
        LabelLayer::Case(at, _, x) => {
            read_case(alloc, ctx, around, state, at, x, &mut section.cases)
        }
        LabelLayer::Default(at, _) => {
            default(around, state, at)?;
            section.default = true;
            Ok(())
        }
    }
}

/// Puts a node where it belongs in its section, if it is a label.
#[tactic(auto, using(crate::proofs::Walks::one_label))]
fn read_node<'n, 'a>(
    alloc: Global,
    ctx: &FunctionContext<'n, 'a>,
    around: Around,
    state: &mut State<'a>,
    x: &SyntaxNode,
    section: &mut Reading,
) -> Result<(), Memory>
    ensures begun { OnOk result (section.new.begun ≡ section.old.begun) }
    ensures heads { OnOk result (section.new.cases ≡ section.old.cases ++ spec.section_cases (views.env ctx.now state.old) (labels_of (words_of ctx.now.words) (x.now ∷ []))) }
    ensures default { OnOk result (section.new.default ≡ section.old.default || spec.has_default (labels_of (words_of ctx.now.words) (x.now ∷ []))) }
    ensures list { OnOk result (section.new.list ≡ section.old.list ++ spec.section_marks (views.context_of ctx.now) (labels_of (words_of ctx.now.words) (x.now ∷ []))) }
    ensures walk { OnOk result (views.walk_of state.new ≡ views.walk_of state.old) }
    ensures cases { OnOk result (state.new.cases ≡ cases.label_entries (views.env ctx.now state.old) (labels_of (words_of ctx.now.words) (x.now ∷ [])) state.old.cases) }
    ensures faults { OnOk result (state.new.faults ≡ spec.labels_faults (views.env ctx.now state.old) around.in_switch (labels_of (words_of ctx.now.words) (x.now ∷ [])) state.old.faults) }
{
    match label_layer(&ctx.words, x) {
        Some(label) => read_label(alloc, ctx, around, state, label, section),
        None => Ok(()),
    }
}

/// Puts the labels of a section among these nodes where they belong.
#[tactic(auto, using(crate::proofs::Walks::labelled))]
pub fn read_labels<'n, 'a>(
    alloc: Global,
    ctx: &FunctionContext<'n, 'a>,
    around: Around,
    state: &mut State<'a>,
    nodes: &[SyntaxNode],
    section: &mut Reading,
) -> Result<(), Memory>
    ensures begun { OnOk result (section.new.begun ≡ section.old.begun) }
    ensures heads { OnOk result (section.new.cases ≡ section.old.cases ++ spec.section_cases (views.env ctx.now state.old) (labels_of (words_of ctx.now.words) nodes.now)) }
    ensures default { OnOk result (section.new.default ≡ section.old.default || spec.has_default (labels_of (words_of ctx.now.words) nodes.now)) }
    ensures list { OnOk result (section.new.list ≡ section.old.list ++ spec.section_marks (views.context_of ctx.now) (labels_of (words_of ctx.now.words) nodes.now)) }
    ensures walk { OnOk result (views.walk_of state.new ≡ views.walk_of state.old) }
    ensures cases { OnOk result (state.new.cases ≡ cases.label_entries (views.env ctx.now state.old) (labels_of (words_of ctx.now.words) nodes.now) state.old.cases) }
    ensures faults { OnOk result (state.new.faults ≡ spec.labels_faults (views.env ctx.now state.old) around.in_switch (labels_of (words_of ctx.now.words) nodes.now) state.old.faults) }
{
    for x in nodes {
        read_node(alloc, ctx, around, state, x, section)?;
    }
    Ok(())
}

/// The head of a section, and the items in front of its statement.
#[tactic(auto, using(crate::proofs::Walks::beginnings))]
pub fn begin<'n, 'a>(
    alloc: Global,
    ctx: &FunctionContext<'n, 'a>,
    around: Around,
    state: &mut State<'a>,
    nodes: &[SyntaxNode],
    section: &mut Reading,
) -> Result<(), Memory>
    ensures begun { OnOk result (section.new.begun ≡ section.old.begun) }
    ensures heads { OnOk result (section.new.cases ≡ section.old.cases ++ spec.section_cases (views.env ctx.now state.old) (labels_of (words_of ctx.now.words) nodes.now)) }
    ensures default { OnOk result (section.new.default ≡ (section.old.default || spec.has_default (labels_of (words_of ctx.now.words) nodes.now))) }
    ensures list { OnOk result (section.new.list ≡ section.old.list ++ (context.notes_at (views.context_of ctx.now) (Anchor.AtSection (items.first_label (labels_of (words_of ctx.now.words) nodes.now))) ++ spec.section_marks (views.context_of ctx.now) (labels_of (words_of ctx.now.words) nodes.now))) }
    ensures walk { OnOk result (views.walk_of state.new ≡ views.walk_of state.old) }
    ensures cases { OnOk result (state.new.cases ≡ cases.label_entries (views.env ctx.now state.old) (labels_of (words_of ctx.now.words) nodes.now) state.old.cases) }
    ensures faults { OnOk result (state.new.faults ≡ spec.labels_faults (views.env ctx.now state.old) around.in_switch (labels_of (words_of ctx.now.words) nodes.now) state.old.faults) }
{
    let first = first_or_none(&ctx.words, nodes);
    add_notes(alloc, ctx, Anchor::AtSection(first), &mut section.list)?;
    read_labels(alloc, ctx, around, state, nodes, section)
}

/// The first token of the labels among these nodes, and 0 where there are none.
#[tactic(auto, using(crate::proofs::Walks::beginnings))]
fn first_or_none(words: &Words, nodes: &[SyntaxNode]) -> u32
    ensures { result ≡ items.first_label (labels_of (words_of words.now) nodes.now) }
{
    match first_label(words, nodes) {
        Some(first) => first,
        None => 0,
    }
}

/// Whether a node is a case or default label.
fn is_case(words: &Words, x: &SyntaxNode) -> bool
    ensures { result ≡ spec.has_case (labels_of (words_of words.now) (x.now ∷ [])) }
{
    match label_layer(words, x) {
        Some(LabelLayer::Named(_, _)) => false,
        Some(LabelLayer::Case(_, _, _)) => true,
        Some(LabelLayer::Default(_, _)) => true,
        None => false,
    }
}

/// Whether a case or default label is among these nodes.
#[tactic(auto, using(crate::proofs::Walks::any_case))]
pub fn has_case(words: &Words, nodes: &[SyntaxNode]) -> bool
    ensures { result ≡ spec.has_case (labels_of (words_of words.now) nodes.now) }
{
    for x in nodes {
        if is_case(words, x) {
            return true;
        }
    }
    false
}

/// The first token of a label, if a node is one.
fn label_first(words: &Words, x: &SyntaxNode) -> Option<u32>
    ensures { result ≡ steps.first_of (labels_of (words_of words.now) (x.now ∷ [])) }
{
    match label_layer(words, x) {
        Some(LabelLayer::Named(first, _)) => Some(first),
        Some(LabelLayer::Case(first, _, _)) => Some(first),
        Some(LabelLayer::Default(first, _)) => Some(first),
        None => None,
    }
}

/// The first token of the labels among these nodes, if there are any.
#[tactic(auto, using(crate::proofs::Walks::first_label))]
pub fn first_label(words: &Words, nodes: &[SyntaxNode]) -> Option<u32>
    ensures { result ≡ steps.first_of (labels_of (words_of words.now) nodes.now) }
{
    for x in nodes {
        if let Some(first) = label_first(words, x) {
            return Some(first);
        }
    }
    None
}
