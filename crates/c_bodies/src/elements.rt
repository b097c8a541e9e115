//! The items of a switch's list.

ghost use Rattle.std.specs.Prelude.{◌≡◌, []};
ghost use Rattle.c_bodies.specs.Steps as steps;
ghost use Rattle.c_grammar.specs.declared.syntax.Syntax.{out-Syntax};
ghost use Rattle.c_grammar.specs.ItemViews.{item_of, plain_of};
ghost use Rattle.c_grammar.specs.Items as items;
ghost use Rattle.c_grammar.specs.Parts.{is_token as the_token};
ghost use Rattle.c_grammar.specs.Views.{words_of};
ghost use Rattle.c_statements.specs.Violations.{is_null as the_null};

use crate::labels::{first_label, has_case};
use c_grammar::{
    ItemLayer, Production, StatementLayer, SyntaxNode, Words, item_layer, statement_layer,
};

fn begins(words: &Words, x: &SyntaxNode) -> bool
    ensures { result ≡ steps.begins (item_of (words_of words.now) x.now) }
{
    match item_layer(words, x) {
        ItemLayer::States(labels, _) => has_case(words, labels),
        ItemLayer::Declares(_, _, _) => false,
        ItemLayer::Unread(_, _) => false,
    }
}

/// Whether a statement is a null statement.
fn is_null(words: &Words, x: &SyntaxNode) -> bool
    ensures { result ≡ the_null [] (plain_of (words_of words.now) x.now) }
{
    match statement_layer(words, x) {
        StatementLayer::Null => true,
        StatementLayer::Evaluate(_) => false,
        StatementLayer::If(_, _) => false,
        StatementLayer::IfElse(_, _, _) => false,
        StatementLayer::While(_, _) => false,
        StatementLayer::DoWhile(_, _) => false,
        StatementLayer::For(_, _, _, _) => false,
        StatementLayer::Switch(_, _) => false,
        StatementLayer::Block(_, _, _) => false,
        StatementLayer::Goto(_) => false,
        StatementLayer::Break => false,
        StatementLayer::Continue => false,
        StatementLayer::Return(_) => false,
        StatementLayer::Unread => false,
    }
}

/// Whether an item is an element in front of the first section: a null statement without labels is none.
#[tactic(auto, using(crate::proofs::FirstTokens::firsts))]
pub fn is_element(words: &Words, x: &SyntaxNode) -> bool
    ensures { result ≡ steps.is_element (item_of (words_of words.now) x.now) }
{
    match item_layer(words, x) {
        ItemLayer::States(labels, plain) => {
            first_label(words, labels).is_some() || !is_null(words, plain)
        }
        ItemLayer::Declares(_, _, _) => true,
        ItemLayer::Unread(_, _) => true,
    }
}

/// Whether an item stands in front of the first section, where a section was begun or not.
pub fn is_outside(words: &Words, begun: bool, x: &SyntaxNode) -> bool
    ensures { result ≡ steps.is_outside begun (item_of (words_of words.now) x.now) }
{
    !begun && !begins(words, x) && is_element(words, x)
}

/// The first token of a statement without its labels.
fn first_of_plain(words: &Words, x: &SyntaxNode) -> u32
    ensures { result ≡ items.plain_first (plain_of (words_of words.now) x.now) }
{
    let _layer = statement_layer(words, x);
    x.first()
}

/// The first token of an item.
#[tactic(auto, using(crate::proofs::FirstTokens::firsts))]
pub fn first_of_item(words: &Words, x: &SyntaxNode) -> u32
    ensures { result ≡ items.item_first (item_of (words_of words.now) x.now) }
{
    match item_layer(words, x) {
        ItemLayer::States(labels, plain) => match first_label(words, labels) {
            Some(first) => first,
            None => first_of_plain(words, plain),
        },
        ItemLayer::Declares(first, _, _) => first,
        ItemLayer::Unread(first, _) => first,
    }
}

/// Whether a node is one token.
pub fn is_token(x: &SyntaxNode) -> bool
    ensures { result ≡ the_token (out-Syntax x.now).rule }
{
    matches!(x.rule(), Production::Token)
}
