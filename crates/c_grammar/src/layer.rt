//! The outermost form of an expression, without its brackets and the levels of the grammar.

ghost use Rattle.std.specs.Prelude.{◌≡◌, ◌+◌, ◌≤◌, length, map};
ghost use Rattle.c_grammar.specs.Kept as kept;
ghost use Rattle.c_grammar.specs.Parts as spec;
ghost use Rattle.c_grammar.specs.Terms.{first_of};
ghost use Rattle.c_grammar.specs.Weights.{weight, weights};
ghost use Rattle.c_grammar.specs.Views.{words_of, layer_form, AreSmaller};

use crate::words::Words;
use crate::{Production, SyntaxNode};

/// The form of an expression, with the syntax of its operands.
#[derive(Clone, Copy)]
pub enum Layer<'a> {
    /// A number or a character constant.
    Constant(u32),
    Variable(u32),
    Cell(u32, &'a SyntaxNode),
    Prefix(u32, &'a SyntaxNode),
    Suffix(u32, &'a SyntaxNode),
    /// The words of the type stand in the parts of the first.
    CastTo(&'a SyntaxNode, &'a SyntaxNode),
    CastVoid(&'a SyntaxNode),
    Binary(u32, &'a SyntaxNode, &'a SyntaxNode),
    Choice(&'a SyntaxNode, &'a SyntaxNode, &'a SyntaxNode),
    Assign(u32, &'a SyntaxNode, &'a SyntaxNode),
    /// The first, and the others between commas.
    Commas(&'a SyntaxNode, &'a [SyntaxNode]),
    /// The called name, and the arguments between tokens.
    Call(u32, &'a [SyntaxNode]),
    Texts(&'a [SyntaxNode]),
    /// No expression.
    Unknown,
}

pub fn is_token(rule: Production) -> bool
    ensures { result ≡ spec.is_token rule }
{
    matches!(rule, Production::Token)
}

/// Whether a token stands below the productions of an expression: a number or a character constant.
fn is_constant(top: Production, base: Production) -> bool
    ensures { result ≡ kept.is_constant top base }
{
    is_token(base)
        && matches!(
            top,
            Production::Argument
                | Production::Expression
                | Production::Assignment
                | Production::Conditional
                | Production::Binary
                | Production::Unary
                | Production::Postfix
        )
}

/// Whether the innermost node of those that are kept as one is a target that is a name.
pub fn is_variable(base: Production, is_name: bool, parts: &[SyntaxNode]) -> bool
    ensures { result ≡ kept.is_variable base is_name parts.now }
{
    is_name && matches!(base, Production::Target) && parts.is_empty()
}

#[cycle(layer)]
#[tactic(auto, using(crate::proofs::Layers::layers))]
fn expression_layer<'a>(words: &Words, parts: &'a [SyntaxNode]) -> Layer<'a>
    ensures form { spec.expression_form (map (spec.part_of (words_of words.now)) parts.now) ≡ layer_form (words_of words.now) result }
    ensures smaller { AreSmaller (weights parts.now + 1) result }
{
    if parts.len() == 1 {
        return layer_of(words, &parts[0]);
    }
    if parts.len() >= 2 {
        return Layer::Commas(&parts[0], &parts[1..]);
    }
    Layer::Unknown
}

#[cycle(layer)]
#[tactic(auto, using(crate::proofs::Layers::layers))]
fn assignment_layer<'a>(words: &Words, parts: &'a [SyntaxNode]) -> Layer<'a>
    ensures form { spec.assignment_form (map (spec.part_of (words_of words.now)) parts.now) ≡ layer_form (words_of words.now) result }
    ensures smaller { AreSmaller (weights parts.now + 1) result }
{
    if parts.len() == 1 {
        return layer_of(words, &parts[0]);
    }
    if parts.len() == 3 {
        return Layer::Assign(parts[1].first(), &parts[0], &parts[2]);
    }
    Layer::Unknown
}

#[cycle(layer)]
#[tactic(auto, using(crate::proofs::Layers::layers))]
fn conditional_layer<'a>(words: &Words, parts: &'a [SyntaxNode]) -> Layer<'a>
    ensures form { spec.conditional_form (map (spec.part_of (words_of words.now)) parts.now) ≡ layer_form (words_of words.now) result }
    ensures smaller { AreSmaller (weights parts.now + 1) result }
{
    if parts.len() == 1 {
        return layer_of(words, &parts[0]);
    }
    if parts.len() == 5 {
        return Layer::Choice(&parts[0], &parts[2], &parts[4]);
    }
    Layer::Unknown
}

#[cycle(layer)]
#[tactic(auto, using(crate::proofs::Layers::layers))]
fn binary_layer<'a>(words: &Words, parts: &'a [SyntaxNode]) -> Layer<'a>
    ensures form { spec.binary_form (map (spec.part_of (words_of words.now)) parts.now) ≡ layer_form (words_of words.now) result }
    ensures smaller { AreSmaller (weights parts.now + 1) result }
{
    if parts.len() == 1 {
        return layer_of(words, &parts[0]);
    }
    if parts.len() == 3 {
        return Layer::Binary(parts[1].first(), &parts[0], &parts[2]);
    }
    Layer::Unknown
}

#[cycle(layer)]
#[tactic(auto, using(crate::proofs::Layers::layers))]
fn unary_layer<'a>(words: &Words, parts: &'a [SyntaxNode]) -> Layer<'a>
    ensures form { spec.unary_form (map (spec.part_of (words_of words.now)) parts.now) ≡ layer_form (words_of words.now) result }
    ensures smaller { AreSmaller (weights parts.now + 1) result }
{
    if parts.len() == 1 {
        return layer_of(words, &parts[0]);
    }
    if parts.len() == 2 {
        return Layer::Prefix(parts[0].first(), &parts[1]);
    }
    if parts.len() == 4 {
        return if is_token(parts[1].rule()) {
            Layer::CastVoid(&parts[3])
        } else {
            Layer::CastTo(&parts[1], &parts[3])
        };
    }
    Layer::Unknown
}

#[cycle(layer)]
#[tactic(auto, using(crate::proofs::Layers::layers))]
fn bracket_layer<'a>(words: &Words, parts: &'a [SyntaxNode]) -> Layer<'a>
    requires { 3 ≤ length parts.now }
    ensures form { spec.bracket_form (map (spec.part_of (words_of words.now)) parts.now) ≡ layer_form (words_of words.now) result }
    ensures smaller { AreSmaller (weights parts.now + 1) result }
{
    if is_token(parts[1].rule()) {
        Layer::Call(parts[0].first(), &parts[2..])
    } else {
        layer_of(words, &parts[1])
    }
}

#[cycle(layer)]
#[tactic(auto, using(crate::proofs::Layers::layers))]
fn postfix_layer<'a>(words: &Words, parts: &'a [SyntaxNode]) -> Layer<'a>
    ensures form { spec.postfix_form (map (spec.part_of (words_of words.now)) parts.now) ≡ layer_form (words_of words.now) result }
    ensures smaller { AreSmaller (weights parts.now + 1) result }
{
    if parts.len() == 1 {
        return if is_token(parts[0].rule()) {
            Layer::Constant(parts[0].first())
        } else {
            layer_of(words, &parts[0])
        };
    }
    if parts.len() == 2 {
        return Layer::Suffix(parts[1].first(), &parts[0]);
    }
    if parts.len() >= 3 {
        return bracket_layer(words, parts);
    }
    Layer::Unknown
}

#[cycle(layer)]
#[tactic(auto, using(crate::proofs::Layers::layers))]
fn target_layer<'a>(words: &Words, parts: &'a [SyntaxNode]) -> Layer<'a>
    ensures form { spec.target_form (map (spec.part_of (words_of words.now)) parts.now) ≡ layer_form (words_of words.now) result }
    ensures smaller { AreSmaller (weights parts.now + 1) result }
{
    if parts.len() == 1 {
        return Layer::Variable(parts[0].first());
    }
    if parts.len() == 3 {
        return layer_of(words, &parts[1]);
    }
    if parts.len() == 4 {
        return Layer::Cell(parts[0].first(), &parts[2]);
    }
    Layer::Unknown
}

#[cycle(layer)]
#[tactic(auto, using(crate::proofs::Layers::layers))]
fn argument_layer<'a>(words: &Words, parts: &'a [SyntaxNode]) -> Layer<'a>
    ensures form { spec.argument_form (map (spec.part_of (words_of words.now)) parts.now) ≡ layer_form (words_of words.now) result }
    ensures smaller { AreSmaller (weights parts.now + 1) result }
{
    if parts.len() == 0 {
        return Layer::Texts(parts);
    }
    if is_token(parts[0].rule()) {
        Layer::Texts(parts)
    } else {
        layer_of(words, &parts[0])
    }
}

#[cycle(layer)]
#[tactic(auto, using(crate::proofs::Layers::layers))]
fn form<'a>(words: &Words, rule: Production, parts: &'a [SyntaxNode]) -> Layer<'a>
    ensures form { spec.form_by rule (map (spec.part_of (words_of words.now)) parts.now) ≡ layer_form (words_of words.now) result }
    ensures smaller { AreSmaller (weights parts.now + 1) result }
{
    match rule {
        Production::Expression => expression_layer(words, parts),
        Production::Assignment => assignment_layer(words, parts),
        Production::Conditional => conditional_layer(words, parts),
        Production::Binary => binary_layer(words, parts),
        Production::Unary => unary_layer(words, parts),
        Production::Postfix => postfix_layer(words, parts),
        Production::Target => target_layer(words, parts),
        Production::Argument => argument_layer(words, parts),
        _ => Layer::Unknown,
    }
}

/// The outermost form of the expression that a syntax writes.
#[cycle(layer)]
#[tactic(auto, using(crate::proofs::Kept::layers))]
pub fn layer_of<'a>(words: &Words, x: &'a SyntaxNode) -> Layer<'a>
    ensures form { spec.form_in (spec.part_of (words_of words.now) x.now).content ≡ layer_form (words_of words.now) result }
    ensures smaller { AreSmaller (weight x.now) result }
{
    let node = x.opened();
    if is_constant(node.top, node.base) {
        return Layer::Constant(node.first);
    }
    if is_variable(node.base, node.is_name, node.parts) {
        return Layer::Variable(node.first);
    }
    form(words, node.base, node.parts)
}

/// The number of the first token of an expression.
#[tactic(auto, using(crate::proofs::Layers::firsts))]
pub fn first_token(words: &Words, x: &SyntaxNode) -> u32
    ensures { result ≡ first_of (spec.term_of (words_of words.now) x.now) }
{
    x.first()
}
