//! What each expression of a syntax is, and its violations, in one walk.

ghost use Rattle.std.specs.Prelude.{◌≡◌, ◌++◌, ◌∷◌, [], true, IfOk, OnOk};
ghost use Rattle.std.specs.Option.{option_copied};
ghost use Rattle.c_grammar.specs.declared.syntax.Syntax.{out-Syntax};
ghost use Rattle.c_kinds.specs.Constants as constants;
ghost use Rattle.c_kinds.specs.Names as names;
ghost use Rattle.c_kinds.specs.Scopes.{meaning as the_meaning};
ghost use Rattle.c_kinds.specs.Typing as spec;
ghost use Rattle.c_kinds.specs.Values as values;
ghost use Rattle.c_kinds.specs.Views.{env_of, given_of, term, terms};
ghost use Rattle.c_grammar.specs.Parts.{is_token as the_token};
ghost use Rattle.c_grammar.specs.Terms.{Variable as the_variable, Prefix as the_prefix, Binary as the_binary, Choice as the_choice, Assign as the_assign, Commas as the_commas};
ghost use Rattle.c_lexer.specs.Marks.{mark_of as the_mark_of};
ghost use Rattle.c_grammar.specs.Views.{words_of};

use crate::calls::call;
use crate::constants::{constant, constant_of, texts};
use crate::faults::report_drop;
use crate::marks::{binary_op, counts_up, step_of, unary_op, update_op};
use crate::names::{Known, meaning, named, report_name, report_target, variable_of};
use crate::typed::{Fault, Given, Target, Typed, Valued};
use crate::values::{
    assignment, behind_comma, binary, cast, cast_void, cell_target, choice, counting,
    number_target, reading, unary, unused, used, writable,
};
use c_grammar::{Layer, Production, SyntaxNode, first_token, kind_of, layer_of};
use c_lexer::{Mark, mark_of};
use c_tree::Expression;
use c_types::{List, Memory, Stack};
use std::alloc::Global;

fn mark_at(known: &Known, at: u32) -> Option<Mark>
    ensures { result ≡ the_mark_of (words_of known.now.words at) }
{
    mark_of(known.words.get(at))
}

/// An expression of which the value is used, and `None` where it has none.
#[cycle(typed)]
pub fn used_value(
    alloc: Global,
    known: &Known,
    faults: &mut Stack<Fault>,
    x: &SyntaxNode,
) -> Result<Option<Valued>, Memory>
    ensures value { IfOk result (λ v. v ≡ values.value_of (spec.typed (env_of known.now) (term known.now x.now))) }
    ensures faults { OnOk result (faults.new ≡ spec.used (env_of known.now) (term known.now x.now) (spec.faults (env_of known.now) (term known.now x.now) faults.old)) }
{
    let first = first_token(&known.words, x);
    let x = typed_of(alloc, known, faults, x)?;
    used(faults, first, x)
}

/// An expression of which the value, if it has one, is dropped, and `None` where it may not stand there.
#[cycle(typed)]
pub fn dropped_value(
    alloc: Global,
    known: &Known,
    faults: &mut Stack<Fault>,
    x: &SyntaxNode,
) -> Result<Option<Expression>, Memory>
    ensures value { IfOk result (λ e. e ≡ values.dropped (spec.typed (env_of known.now) (term known.now x.now))) }
    ensures faults { OnOk result (faults.new ≡ spec.unused (env_of known.now) (term known.now x.now) (spec.faults (env_of known.now) (term known.now x.now) faults.old)) }
{
    let first = first_token(&known.words, x);
    let x = typed_of(alloc, known, faults, x)?;
    unused(faults, first, x)
}

fn variable_name(
    alloc: Global,
    known: &Known,
    faults: &mut Stack<Fault>,
    at: u32,
) -> Result<Typed, Memory>
    ensures value { IfOk result (λ x. x ≡ spec.form_typed (env_of known.now) (the_variable at)) }
    ensures faults { OnOk result (faults.new ≡ spec.form_faults (env_of known.now) (the_variable at) faults.old) }
{
    let binding = meaning(known, at);
    report_name(faults, at, binding)?;
    named(alloc, at, known.words.get(at), binding)
}

/// A variable where it is assigned or counted.
fn variable_target(
    alloc: Global,
    known: &Known,
    faults: &mut Stack<Fault>,
    at: u32,
) -> Result<Option<Target>, Memory>
    ensures value { IfOk result (λ t. t ≡ spec.form_target (env_of known.now) (the_variable at)) }
    ensures faults { OnOk result (faults.new ≡ spec.form_target_faults (env_of known.now) (the_variable at) faults.old) }
{
    let binding = meaning(known, at);
    report_target(faults, true, false, at, binding)?;
    Ok(number_target(variable_of(alloc, known.words.get(at), binding)?))
}

/// The cell of an array at an index that was read.
fn indexed(
    alloc: Global,
    known: &Known,
    faults: &mut Stack<Fault>,
    writes: bool,
    at: u32,
    i: Option<Valued>,
) -> Result<Option<Target>, Memory>
    ensures value { IfOk result (λ t. t ≡ values.cell_target (names.variable_of (words_of known.now.words at) (the_meaning (env_of known.now) at)) i) }
    ensures faults { OnOk result (faults.new ≡ names.target_fault writes true at (the_meaning (env_of known.now) at) faults.old) }
{
    let binding = meaning(known, at);
    let reported = report_target(faults, writes, true, at, binding);
    let x = match reported {
        Ok(()) => variable_of(alloc, known.words.get(at), binding),
        Err(e) => Err(e),
    };
    match x {
        Ok(x) => cell_target(alloc, x, i),
        Err(e) => {
            drop(i);
            Err(e)
        }
    }
}

/// A variable or a cell, where it is assigned or counted.
#[cycle(typed)]
fn target(
    alloc: Global,
    known: &Known,
    faults: &mut Stack<Fault>,
    x: &SyntaxNode,
) -> Result<Option<Target>, Memory>
    ensures value { IfOk result (λ t. t ≡ spec.target_of (env_of known.now) (term known.now x.now)) }
    ensures faults { OnOk result (faults.new ≡ spec.target_faults (env_of known.now) (term known.now x.now) faults.old) }
{
    match layer_of(&known.words, x) {
        Layer::Variable(at) => variable_target(alloc, known, faults, at),
        Layer::Cell(at, i) => cell(alloc, known, faults, true, at, i),
        _ => Ok(None),
    }
}

/// The cell of an array at an index.
#[cycle(typed)]
fn cell(
    alloc: Global,
    known: &Known,
    faults: &mut Stack<Fault>,
    writes: bool,
    at: u32,
    i: &SyntaxNode,
) -> Result<Option<Target>, Memory>
    ensures value { IfOk result (λ t. t ≡ spec.cell_of (env_of known.now) at (term known.now i.now)) }
    ensures faults { OnOk result (faults.new ≡ spec.cell_faults (env_of known.now) writes at (term known.now i.now) (spec.faults (env_of known.now) (term known.now i.now) faults.old)) }
{
    let i = used_value(alloc, known, faults, i)?;
    indexed(alloc, known, faults, writes, at, i)
}

/// A mark in front of an operand.
#[cycle(typed)]
fn prefix(
    alloc: Global,
    known: &Known,
    faults: &mut Stack<Fault>,
    m: u32,
    a: &SyntaxNode,
) -> Result<Typed, Memory>
    ensures value { IfOk result (λ t. t ≡ spec.form_typed (env_of known.now) (the_prefix m (term known.now a.now))) }
    ensures faults { OnOk result (faults.new ≡ spec.form_faults (env_of known.now) (the_prefix m (term known.now a.now)) faults.old) }
{
    let mark = mark_at(known, m);
    match step_of(mark) {
        Some(up) => {
            let t = target(alloc, known, faults, a)?;
            Ok(counting(up, false, writable(t)))
        }
        None => {
            let a = used_value(alloc, known, faults, a)?;
            unary(alloc, unary_op(mark), a)
        }
    }
}

/// Two operands and the mark between them.
#[cycle(typed)]
fn typed_binary(
    alloc: Global,
    known: &Known,
    faults: &mut Stack<Fault>,
    m: u32,
    a: &SyntaxNode,
    b: &SyntaxNode,
) -> Result<Typed, Memory>
    ensures value { IfOk result (λ t. t ≡ spec.form_typed (env_of known.now) (the_binary m (term known.now a.now) (term known.now b.now))) }
    ensures faults { OnOk result (faults.new ≡ spec.form_faults (env_of known.now) (the_binary m (term known.now a.now) (term known.now b.now)) faults.old) }
{
    let op = binary_op(mark_at(known, m));
    let a = used_value(alloc, known, faults, a)?;
    match used_value(alloc, known, faults, b) {
        Ok(b) => binary(alloc, op, a, b),
        Err(e) => {
            drop(a);
            Err(e)
        }
    }
}

/// `a ? b : c`.
#[cycle(typed)]
fn typed_choice(
    alloc: Global,
    known: &Known,
    faults: &mut Stack<Fault>,
    a: &SyntaxNode,
    b: &SyntaxNode,
    c: &SyntaxNode,
) -> Result<Typed, Memory>
    ensures value { IfOk result (λ t. t ≡ spec.form_typed (env_of known.now) (the_choice (term known.now a.now) (term known.now b.now) (term known.now c.now))) }
    ensures faults { OnOk result (faults.new ≡ spec.form_faults (env_of known.now) (the_choice (term known.now a.now) (term known.now b.now) (term known.now c.now)) faults.old) }
{
    let a = used_value(alloc, known, faults, a)?;
    let b = match used_value(alloc, known, faults, b) {
        Ok(b) => b,
        Err(e) => {
            drop(a);
            return Err(e);
        }
    };
    match used_value(alloc, known, faults, c) {
        Ok(c) => choice(alloc, a, b, c),
        Err(e) => {
            drop(a);
            drop(b);
            Err(e)
        }
    }
}

/// A target, an assignment's mark and the value.
#[cycle(typed)]
fn assigned(
    alloc: Global,
    known: &Known,
    faults: &mut Stack<Fault>,
    m: u32,
    t: &SyntaxNode,
    a: &SyntaxNode,
) -> Result<Typed, Memory>
    ensures value { IfOk result (λ x. x ≡ spec.form_typed (env_of known.now) (the_assign m (term known.now t.now) (term known.now a.now))) }
    ensures faults { OnOk result (faults.new ≡ spec.form_faults (env_of known.now) (the_assign m (term known.now t.now) (term known.now a.now)) faults.old) }
{
    let op = update_op(mark_at(known, m));
    let t = target(alloc, known, faults, t)?;
    match used_value(alloc, known, faults, a) {
        Ok(a) => assignment(alloc, op, writable(t), a),
        Err(e) => {
            drop(t);
            Err(e)
        }
    }
}

fn is_token(x: &SyntaxNode) -> bool
    ensures { result ≡ the_token (out-Syntax x.now).rule }
{
    matches!(x.rule(), Production::Token)
}

/// `left, x`, where x is an operand of a comma operator, and not a comma.
#[cycle(typed)]
fn behind_left(
    alloc: Global,
    known: &Known,
    faults: &mut Stack<Fault>,
    left: Typed,
    x: &SyntaxNode,
) -> Result<Typed, Memory>
    ensures value { IfOk result (λ t. t ≡ values.comma (values.dropped left) (spec.typed (env_of known.now) (term known.now x.now))) }
    ensures faults { OnOk result (faults.new ≡ spec.unused (env_of known.now) (term known.now x.now) (spec.faults (env_of known.now) (term known.now x.now) faults.old)) }
{
    let first = first_token(&known.words, x);
    match typed_of(alloc, known, faults, x) {
        Ok(right) => behind_comma(alloc, faults, first, left, right),
        Err(e) => {
            drop(left);
            Err(e)
        }
    }
}

/// The operands of comma operators behind the first, from the left, between the commas.
#[cycle(typed)]
#[tactic(auto, using(crate::proofs::Walks::operands))]
fn commas(
    alloc: Global,
    known: &Known,
    faults: &mut Stack<Fault>,
    left: Typed,
    parts: &[SyntaxNode],
) -> Result<Typed, Memory>
    ensures value { IfOk result (λ t. t ≡ spec.commas (env_of known.now) left (terms known.now parts.now)) }
    ensures faults { OnOk result (faults.new ≡ spec.unused_faults (env_of known.now) (terms known.now parts.now) faults.old) }
{
    let mut left = left;
    for x in parts {
        if !is_token(x) {
            left = behind_left(alloc, known, faults, left, x)?;
        }
    }
    Ok(left)
}

/// The first operand of comma operators, and the others.
#[cycle(typed)]
fn sequence(
    alloc: Global,
    known: &Known,
    faults: &mut Stack<Fault>,
    a: &SyntaxNode,
    parts: &[SyntaxNode],
) -> Result<Typed, Memory>
    ensures value { IfOk result (λ t. t ≡ spec.form_typed (env_of known.now) (the_commas (term known.now a.now) (terms known.now parts.now))) }
    ensures faults { OnOk result (faults.new ≡ spec.form_faults (env_of known.now) (the_commas (term known.now a.now) (terms known.now parts.now)) faults.old) }
{
    let first = first_token(&known.words, a);
    let a = typed_of(alloc, known, faults, a)?;
    match report_drop(faults, first, &a) {
        Ok(()) => commas(alloc, known, faults, a, parts),
        Err(e) => {
            drop(a);
            Err(e)
        }
    }
}

/// Puts an argument behind others.
#[cycle(typed)]
fn give(
    alloc: Global,
    known: &Known,
    faults: &mut Stack<Fault>,
    x: &SyntaxNode,
    out: &mut List<Given>,
) -> Result<(), Memory>
    ensures out { OnOk result (out.new ≡ out.old ++ given_of (env_of known.now) (term known.now x.now) ∷ []) }
    ensures faults { OnOk result (faults.new ≡ spec.faults (env_of known.now) (term known.now x.now) faults.old) }
{
    let first = first_token(&known.words, x);
    let typed = typed_of(alloc, known, faults, x)?;
    out.push(Given { first, typed })
}

/// The arguments of a call, between the commas.
#[cycle(typed)]
#[tactic(auto, using(crate::proofs::Walks::arguments))]
fn arguments_given(
    alloc: Global,
    known: &Known,
    faults: &mut Stack<Fault>,
    parts: &[SyntaxNode],
) -> Result<List<Given>, Memory>
    ensures value { IfOk result (λ gs. gs ≡ spec.given (env_of known.now) (terms known.now parts.now)) }
    ensures faults { OnOk result (faults.new ≡ spec.given_faults (env_of known.now) (terms known.now parts.now) faults.old) }
{
    let mut out = List::new(alloc);
    for x in parts {
        if !is_token(x) {
            give(alloc, known, faults, x, &mut out)?;
        }
    }
    Ok(out)
}

/// What an expression is. Its violations are put in front of those that were found before.
#[cycle(typed)]
pub fn typed_of(
    alloc: Global,
    known: &Known,
    faults: &mut Stack<Fault>,
    x: &SyntaxNode,
) -> Result<Typed, Memory>
    ensures value { IfOk result (λ t. t ≡ spec.typed (env_of known.now) (term known.now x.now)) }
    ensures faults { OnOk result (faults.new ≡ spec.faults (env_of known.now) (term known.now x.now) faults.old) }
{
    match layer_of(&known.words, x) {
        Layer::Constant(at) => constant(alloc, known.words.get(at)),
        Layer::Variable(at) => variable_name(alloc, known, faults, at),
        Layer::Cell(at, i) => Ok(reading(cell(alloc, known, faults, false, at, i)?)),
        Layer::Prefix(m, a) => prefix(alloc, known, faults, m, a),
        Layer::Suffix(m, a) => {
            let t = target(alloc, known, faults, a)?;
            Ok(counting(counts_up(mark_at(known, m)), true, writable(t)))
        }
        Layer::CastTo(n, a) => {
            let a = used_value(alloc, known, faults, a)?;
            cast(alloc, kind_of(&known.words, n), a)
        }
        Layer::CastVoid(a) => {
            let a = dropped_value(alloc, known, faults, a)?;
            cast_void(alloc, a)
        }
        Layer::Binary(m, a, b) => typed_binary(alloc, known, faults, m, a, b),
        Layer::Choice(a, b, c) => typed_choice(alloc, known, faults, a, b, c),
        Layer::Assign(m, t, a) => assigned(alloc, known, faults, m, t, a),
        Layer::Texts(ts) => texts(alloc, &known.words, ts),
        Layer::Unknown => Ok(Typed::Wrong),
        Layer::Commas(a, bs) => sequence(alloc, known, faults, a, bs),
        Layer::Call(at, xs) => {
            let xs = arguments_given(alloc, known, faults, xs)?;
            call(
                alloc,
                faults,
                at,
                known.words.get(at),
                meaning(known, at),
                xs,
            )
        }
    }
}

/// A constant expression and its value, and `None` where it is none, or traps.
pub fn constant_expression(
    alloc: Global,
    known: &Known,
    faults: &mut Stack<Fault>,
    x: &SyntaxNode,
) -> Result<Option<(Expression, i128)>, Memory>
    ensures value { IfOk result (λ c. c ≡ constants.constant_of (spec.typed (env_of known.now) (term known.now x.now))) }
    ensures faults { OnOk result (faults.new ≡ spec.constant_faults (env_of known.now) (term known.now x.now) faults.old) }
{
    let first = first_token(&known.words, x);
    let x = typed_of(alloc, known, faults, x)?;
    constant_of(faults, first, x)
}
