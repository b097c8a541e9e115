//! The longest name of a label or a variable of a block.

ghost use Rattle.std.specs.Prelude.{◌≡◌, max};
ghost use Rattle.c_grammar.specs.ItemViews.{item_of, plain_of, body_of, label_of, labels_of, declarator_of, declarators_of, declaration_of, start_form};
ghost use Rattle.c_grammar.specs.Views.{words_of};
ghost use Rattle.c_statements.specs.Measures as spec;
ghost use Rattle.c_statements.specs.Nodes.{items_of};

use crate::nodes::{greater, is_token};
use c_grammar::{
    BodyLayer, ItemLayer, LabelLayer, StartLayer, StatementLayer, SyntaxNode, Words, body_layer,
    declaration_layer, declarator_layer, item_layer, label_layer, statement_layer,
};

fn label_length(words: &Words, x: &SyntaxNode) -> u64
    ensures { result ≡ spec.length_in (words_of words.now) (label_of (words_of words.now) x.now) }
{
    match label_layer(words, x) {
        Some(LabelLayer::Named(at, _)) => words.get(at).len() as u64,
        Some(LabelLayer::Case(_, _, _)) => 0,
        Some(LabelLayer::Default(_, _)) => 0,
        None => 0,
    }
}

#[tactic(auto, using(crate::proofs::Lists::label_lengths))]
fn longest_label(words: &Words, nodes: &[SyntaxNode]) -> u64
    ensures { result ≡ spec.longest_label (words_of words.now) (labels_of (words_of words.now) nodes.now) }
{
    let mut longest = 0;
    for x in nodes {
        longest = greater(longest, label_length(words, x));
    }
    longest
}

fn name_length(words: &Words, x: &SyntaxNode) -> u64
    ensures { result ≡ spec.declared_length (words_of words.now) (declarator_of (words_of words.now) x.now) }
{
    match declarator_layer(words, x) {
        Some(d) => words.get(d.name).len() as u64,
        None => 0,
    }
}

#[tactic(auto, using(crate::proofs::Lists::name_lengths))]
fn longest_name(words: &Words, nodes: &[SyntaxNode]) -> u64
    ensures { result ≡ spec.longest_declared (words_of words.now) (declarators_of (words_of words.now) nodes.now) }
{
    let mut longest = 0;
    for x in nodes {
        longest = greater(longest, name_length(words, x));
    }
    longest
}

fn longest_declared(words: &Words, x: &SyntaxNode) -> u64
    ensures { result ≡ spec.longest_declared (words_of words.now) (declaration_of (words_of words.now) x.now).names }
{
    longest_name(words, declaration_layer(words, x).names)
}

fn start_longest(words: &Words, start: StartLayer) -> u64
    ensures { result ≡ spec.start_longest (words_of words.now) (start_form (words_of words.now) start.entry) }
{
    match start {
        StartLayer::NoStart => 0,
        StartLayer::StartValue(_) => 0,
        StartLayer::StartNames(d) => longest_declared(words, d),
    }
}

#[cycle(longest)]
fn item_longest(words: &Words, x: &SyntaxNode) -> u64
    ensures { result ≡ spec.item_longest (words_of words.now) (item_of (words_of words.now) x.now) }
{
    match item_layer(words, x) {
        ItemLayer::States(labels, plain) => {
            greater(longest_label(words, labels), plain_longest(words, plain))
        }
        ItemLayer::Declares(_, _, d) => longest_declared(words, d),
        ItemLayer::Unread(_, _) => 0,
    }
}

#[cycle(longest)]
fn plain_longest(words: &Words, x: &SyntaxNode) -> u64
    ensures { result ≡ spec.plain_longest (words_of words.now) (plain_of (words_of words.now) x.now) }
{
    match statement_layer(words, x) {
        StatementLayer::If(_, b) => body_longest(words, b),
        StatementLayer::IfElse(_, b, c) => greater(body_longest(words, b), body_longest(words, c)),
        StatementLayer::While(_, b) => body_longest(words, b),
        StatementLayer::DoWhile(b, _) => body_longest(words, b),
        StatementLayer::For(start, _, _, b) => {
            greater(start_longest(words, start), body_longest(words, b))
        }
        StatementLayer::Switch(_, b) => body_longest(words, b),
        StatementLayer::Block(_, _, items) => list_longest(words, items),
        StatementLayer::Null
        | StatementLayer::Evaluate(_)
        | StatementLayer::Goto(_)
        | StatementLayer::Break
        | StatementLayer::Continue
        | StatementLayer::Return(_)
        | StatementLayer::Unread => 0,
    }
}

/// The bytes of the longest name of a label or a variable that a list declares.
#[cycle(longest)]
pub fn body_longest(words: &Words, x: &SyntaxNode) -> u64
    ensures { result ≡ spec.body_longest (words_of words.now) (body_of (words_of words.now) x.now) }
{
    match body_layer(words, x) {
        BodyLayer::Braces(_, _, items) => list_longest(words, items),
        BodyLayer::Lone(_, _, item) => item_longest(words, item),
    }
}

/// The bytes of the longest name of a label or a variable among items.
#[cycle(longest)]
#[tactic(auto, using(crate::proofs::Lists::lengths))]
pub fn list_longest(words: &Words, items: &[SyntaxNode]) -> u64
    ensures { result ≡ spec.list_longest (words_of words.now) (items_of (words_of words.now) items.now) }
{
    let mut longest = 0;
    for x in items {
        if !is_token(x) {
            longest = greater(longest, item_longest(words, x));
        }
    }
    longest
}
