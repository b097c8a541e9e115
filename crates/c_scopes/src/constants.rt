//! Constant expressions at file scope (ISO/IEC 9899:2011, 6.6), and initialisers of them.

ghost use Rattle.std.specs.Prelude.{◌≡◌, ◌++◌, ◌∷◌, [], map, IfOk, OnOk};
ghost use Rattle.c_kinds.specs.Typing.{constant_faults};
ghost use Rattle.c_kinds.specs.Views.{env_of, term};
ghost use Rattle.c_grammar.specs.ItemViews.{initialiser_form, term_list_of};
ghost use Rattle.c_grammar.specs.Views.{words_of};
ghost use Rattle.c_statements.specs.Declarations as spec;

use c_grammar::{InitialiserLayer, SyntaxNode};
use c_kinds::{Fault, Known, constant_expression, expression_of};
use c_statements::is_token;
use c_tree::{Expression, Node};
use c_types::{IntKind, List, Memory, Stack};
use std::alloc::Global;

/// What stands in the place of an expression with a violation.
pub fn placeholder() -> Expression
    ensures { result ≡ spec.placeholder }
{
    expression_of(Some(IntKind::Int), Node::Number(0))
}

fn or_placeholder(constant: Option<(Expression, i128)>) -> Expression
    ensures { result ≡ spec.constant_or_placeholder constant }
{
    match constant {
        Some((e, _)) => e,
        None => placeholder(),
    }
}

/// Puts a constant expression behind others.
fn add_constant(
    alloc: Global,
    known: &Known,
    faults: &mut Stack<Fault>,
    x: &SyntaxNode,
    out: &mut List<Expression>,
) -> Result<(), Memory>
    ensures out { OnOk result (out.new ≡ out.old ++ spec.constant_at (env_of known.now) (term known.now x.now) ∷ []) }
    ensures faults { OnOk result (faults.new ≡ constant_faults (env_of known.now) (term known.now x.now) faults.old) }
{
    out.push(or_placeholder(constant_expression(alloc, known, faults, x)?))
}

/// The constant expressions of a list, between tokens.
#[tactic(auto, using(c_statements::proofs::Lists::listed))]
fn constants(
    alloc: Global,
    known: &Known,
    faults: &mut Stack<Fault>,
    parts: &[SyntaxNode],
) -> Result<List<Expression>, Memory>
    ensures value { IfOk result (λ es. es ≡ map (spec.constant_at (env_of known.now)) (term_list_of (words_of known.now.words) parts.now)) }
    ensures faults { OnOk result (faults.new ≡ spec.each_faults (constant_faults (env_of known.now)) (term_list_of (words_of known.now.words) parts.now) faults.old) }
{
    let mut out = List::new(alloc);
    for x in parts {
        if !is_token(x) {
            add_constant(alloc, known, faults, x, &mut out)?;
        }
    }
    Ok(out)
}

fn one_constant(
    alloc: Global,
    known: &Known,
    faults: &mut Stack<Fault>,
    x: &SyntaxNode,
) -> Result<List<Expression>, Memory>
    ensures value { IfOk result (λ es. es ≡ spec.constant_at (env_of known.now) (term known.now x.now) ∷ []) }
    ensures faults { OnOk result (faults.new ≡ constant_faults (env_of known.now) (term known.now x.now) faults.old) }
{
    let mut out = List::new(alloc);
    add_constant(alloc, known, faults, x, &mut out)?;
    Ok(out)
}

/// The values of an initialiser at file scope, if there is one.
pub fn constant_initial(
    alloc: Global,
    known: &Known,
    faults: &mut Stack<Fault>,
    initialiser: InitialiserLayer,
) -> Result<Option<List<Expression>>, Memory>
    ensures value { IfOk result (λ es. es ≡ spec.initial (spec.constant_at (env_of known.now)) (initialiser_form (words_of known.now.words) initialiser.entry)) }
    ensures faults { OnOk result (faults.new ≡ spec.initial_faults (constant_faults (env_of known.now)) (initialiser_form (words_of known.now.words) initialiser.entry) faults.old) }
{
    match initialiser {
        InitialiserLayer::NoValue => Ok(None),
        InitialiserLayer::OneValue(x) => Ok(Some(one_constant(alloc, known, faults, x)?)),
        InitialiserLayer::ValueList(parts) => Ok(Some(constants(alloc, known, faults, parts)?)),
    }
}
