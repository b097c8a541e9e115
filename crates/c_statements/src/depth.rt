//! How deep statements are nested.

ghost use Rattle.std.specs.Prelude.{◌≡◌, ◌+◌};
ghost use Rattle.c_grammar.specs.ItemViews.{item_of, plain_of, body_of};
ghost use Rattle.c_grammar.specs.Views.{words_of};
ghost use Rattle.c_statements.specs.Measures as spec;
ghost use Rattle.c_statements.specs.Nodes.{items_of};

use crate::nodes::{greater, is_token};
use c_grammar::{
    BodyLayer, ItemLayer, StatementLayer, SyntaxNode, Words, body_layer, item_layer,
    statement_layer,
};

fn one_more(n: u64) -> u64
    ensures { result ≡ spec.bounded (n + 1) }
{
    if n < u64::MAX { n + 1 } else { n }
}

#[cycle(depth)]
fn item_depth(words: &Words, x: &SyntaxNode) -> u64
    ensures { result ≡ spec.bounded (spec.item_depth (item_of (words_of words.now) x.now)) }
{
    match item_layer(words, x) {
        ItemLayer::States(_, plain) => plain_depth(words, plain),
        ItemLayer::Declares(_, _, _) => 0,
        ItemLayer::Unread(_, _) => 0,
    }
}

#[cycle(depth)]
fn plain_depth(words: &Words, x: &SyntaxNode) -> u64
    ensures { result ≡ spec.bounded (spec.plain_depth (plain_of (words_of words.now) x.now)) }
{
    match statement_layer(words, x) {
        StatementLayer::If(_, b) => body_depth(words, b),
        StatementLayer::IfElse(_, b, c) => greater(body_depth(words, b), body_depth(words, c)),
        StatementLayer::While(_, b) => body_depth(words, b),
        StatementLayer::DoWhile(b, _) => body_depth(words, b),
        StatementLayer::For(_, _, _, b) => body_depth(words, b),
        StatementLayer::Switch(_, b) => body_depth(words, b),
        StatementLayer::Block(_, _, items) => one_more(list_depth(words, items)),
        StatementLayer::Null
        | StatementLayer::Evaluate(_)
        | StatementLayer::Goto(_)
        | StatementLayer::Break
        | StatementLayer::Continue
        | StatementLayer::Return(_)
        | StatementLayer::Unread => 0,
    }
}

/// How many lists are nested in a list, with itself.
#[cycle(depth)]
pub fn body_depth(words: &Words, x: &SyntaxNode) -> u64
    ensures { result ≡ spec.bounded (spec.body_depth (body_of (words_of words.now) x.now)) }
{
    match body_layer(words, x) {
        BodyLayer::Braces(_, _, items) => one_more(list_depth(words, items)),
        BodyLayer::Lone(_, _, item) => one_more(item_depth(words, item)),
    }
}

/// How many lists are nested in one list, without itself.
#[cycle(depth)]
#[tactic(auto, using(crate::proofs::Lists::depths))]
pub fn list_depth(words: &Words, items: &[SyntaxNode]) -> u64
    ensures { result ≡ spec.bounded (spec.list_depth (items_of (words_of words.now) items.now)) }
{
    let mut deepest = 0;
    for x in items {
        if !is_token(x) {
            deepest = greater(deepest, item_depth(words, x));
        }
    }
    deepest
}
