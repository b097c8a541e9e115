//! The values of initialisers, and their violations.

ghost use Rattle.std.specs.Prelude.{◌≡◌, ◌++◌, ◌∷◌, [], map, IfOk, OnOk};
ghost use Rattle.c_kinds.specs.Views.{env_of, term};
ghost use Rattle.c_grammar.specs.ItemViews.{initialiser_form, term_list_of};
ghost use Rattle.c_grammar.specs.Views.{words_of};
ghost use Rattle.c_statements.specs.Declarations as spec;

use crate::nodes::is_token;
use c_grammar::{InitialiserLayer, SyntaxNode};
use c_kinds::{Fault, Known, Valued, expression, expression_of, used_value};
use c_tree::{Expression, Node};
use c_types::{IntKind, List, Memory, Stack};
use std::alloc::Global;

/// The expression of a value, and another in the place of one with a violation.
pub fn or_placeholder(value: Option<Valued>) -> Expression
    ensures { result ≡ spec.or_placeholder value }
{
    match value {
        Some(value) => expression(value),
        None => expression_of(Some(IntKind::Int), Node::Number(0)),
    }
}

/// An expression of which the value is used.
pub fn value(
    alloc: Global,
    known: &Known,
    faults: &mut Stack<Fault>,
    x: &SyntaxNode,
) -> Result<Expression, Memory>
    ensures value { IfOk result (λ e. e ≡ spec.value_at (env_of known.now) (term known.now x.now)) }
    ensures faults { OnOk result (faults.new ≡ spec.value_faults (env_of known.now) (term known.now x.now) faults.old) }
{
    Ok(or_placeholder(used_value(alloc, known, faults, x)?))
}

/// Puts an expression of which the value is used behind others.
fn add_value(
    alloc: Global,
    known: &Known,
    faults: &mut Stack<Fault>,
    x: &SyntaxNode,
    out: &mut List<Expression>,
) -> Result<(), Memory>
    ensures out { OnOk result (out.new ≡ out.old ++ spec.value_at (env_of known.now) (term known.now x.now) ∷ []) }
    ensures faults { OnOk result (faults.new ≡ spec.value_faults (env_of known.now) (term known.now x.now) faults.old) }
{
    out.push(value(alloc, known, faults, x)?)
}

/// The values of a list, between tokens.
#[tactic(auto, using(crate::proofs::Lists::listed))]
fn values(
    alloc: Global,
    known: &Known,
    faults: &mut Stack<Fault>,
    parts: &[SyntaxNode],
) -> Result<List<Expression>, Memory>
    ensures value { IfOk result (λ es. es ≡ map (spec.value_at (env_of known.now)) (term_list_of (words_of known.now.words) parts.now)) }
    ensures faults { OnOk result (faults.new ≡ spec.each_faults (spec.value_faults (env_of known.now)) (term_list_of (words_of known.now.words) parts.now) faults.old) }
{
    let mut out = List::new(alloc);
    for x in parts {
        if !is_token(x) {
            add_value(alloc, known, faults, x, &mut out)?;
        }
    }
    Ok(out)
}

fn one_value(
    alloc: Global,
    known: &Known,
    faults: &mut Stack<Fault>,
    x: &SyntaxNode,
) -> Result<List<Expression>, Memory>
    ensures value { IfOk result (λ es. es ≡ spec.value_at (env_of known.now) (term known.now x.now) ∷ []) }
    ensures faults { OnOk result (faults.new ≡ spec.value_faults (env_of known.now) (term known.now x.now) faults.old) }
{
    let mut out = List::new(alloc);
    add_value(alloc, known, faults, x, &mut out)?;
    Ok(out)
}

/// The values of an initialiser, if there is one.
pub fn initial(
    alloc: Global,
    known: &Known,
    faults: &mut Stack<Fault>,
    initialiser: InitialiserLayer,
) -> Result<Option<List<Expression>>, Memory>
    ensures value { IfOk result (λ es. es ≡ spec.initial (spec.value_at (env_of known.now)) (initialiser_form (words_of known.now.words) initialiser.entry)) }
    ensures faults { OnOk result (faults.new ≡ spec.initial_faults (spec.value_faults (env_of known.now)) (initialiser_form (words_of known.now.words) initialiser.entry) faults.old) }
{
    match initialiser {
        InitialiserLayer::NoValue => Ok(None),
        InitialiserLayer::OneValue(x) => Ok(Some(one_value(alloc, known, faults, x)?)),
        InitialiserLayer::ValueList(parts) => Ok(Some(values(alloc, known, faults, parts)?)),
    }
}
