//! Numbers, characters and texts, and constant expressions.

ghost use Rattle.std.specs.Prelude.{◌≡◌, IfOk, OnOk, map};
ghost use Rattle.c_grammar.specs.declared.syntax.Syntax.{out-Syntax};
ghost use Rattle.c_kinds.specs.Constants as constants;
ghost use Rattle.c_kinds.specs.Typing as spec;
ghost use Rattle.c_kinds.specs.declared.typed.Typed.TheVariants.{Text};
ghost use Rattle.c_grammar.specs.Views.{words_of};
ghost use Rattle.c_tree.specs.ExpressionTrees.{expression_tree};

use crate::faults::{report, report_use};
use crate::typed::{Fault, Typed};
use crate::values::{character_constant, expression, number};
use c_constants::constant_value;
use c_grammar::{SyntaxNode, Words, add_decoded, character, is_character};
use c_lexer::integer_constant;
use c_tree::{Expression, Node};
use c_types::{Bytes, List, Memory, Stack, reasons};
use std::alloc::Global;

/// A number or a character constant.
pub fn constant(alloc: Global, word: &[u8]) -> Result<Typed, Memory>
    ensures { IfOk result (λ x. x ≡ spec.constant word.now) }
{
    if is_character(word) {
        Ok(character_constant(character(alloc, word)?))
    } else {
        Ok(number(integer_constant(word)))
    }
}

/// The bytes of texts that stand side by side.
pub fn texts(alloc: Global, words: &Words, tokens: &[SyntaxNode]) -> Result<Typed, Memory>
    ensures { IfOk result (λ x. x ≡ Text (spec.joined_texts (words_of words.now) (map (λ y. (out-Syntax y).first) tokens.now))) }
{
    let mut out: Bytes = List::new(alloc);
    for token in tokens {
        add_decoded(words.get(token.first()), &mut out)?;
    }
    Ok(Typed::Text(out))
}

/// Whether an expression is made of constants, marks, casts to number types and `?:`.
#[tactic(auto, using(crate::proofs::ConstantForms::forms))]
fn is_constant(e: &Expression) -> bool
    ensures { result ≡ constants.is_constant (expression_tree e.now) }
{
    match &e.node {
        Node::Number(_) | Node::Character(_) | Node::EnumName(_, _) => true,
        Node::Unary(_, a) => is_constant(a.get()),
        Node::Cast(a) => e.kind.is_some() && is_constant(a.get()),
        Node::Binary(_, a, b) => is_constant(a.get()) && is_constant(b.get()),
        Node::Conditional(a, b, c) => {
            is_constant(a.get()) && is_constant(b.get()) && is_constant(c.get())
        }
        _ => false,
    }
}

fn with_value(e: Expression) -> Option<(Expression, i128)>
    ensures { result ≡ constants.with_value e }
{
    if !is_constant(&e) {
        drop(e);
        return None;
    }
    match constant_value(&e) {
        Some(value) => Some((e, value)),
        None => {
            drop(e);
            None
        }
    }
}

fn value_of_constant(x: Typed) -> Option<(Expression, i128)>
    ensures { result ≡ constants.constant_of x }
{
    match x {
        Typed::Value(v) => with_value(expression(v)),
        other => {
            drop(other);
            None
        }
    }
}

/// A constant expression and its value, with the violations where it has none or isn't constant.
pub fn constant_of(
    faults: &mut Stack<Fault>,
    first: u32,
    x: Typed,
) -> Result<Option<(Expression, i128)>, Memory>
    ensures value { IfOk result (λ c. c ≡ constants.constant_of x) }
    ensures faults { OnOk result (faults.new ≡ constants.constant_fault first x faults.old) }
{
    if let Err(e) = report_use(faults, first, &x) {
        drop(x);
        return Err(e);
    }
    match value_of_constant(x) {
        Some(c) => Ok(Some(c)),
        None => {
            report(faults, first, reasons::NOT_CONSTANT)?;
            Ok(None)
        }
    }
}
