//! The labels of a function, by the tokens of their names.

ghost use Rattle.std.specs.Prelude.{◌≡◌, OnOk};
ghost use Rattle.c_grammar.specs.ItemViews.{item_of, plain_of, body_of, label_of, labels_of, label_form};
ghost use Rattle.c_grammar.specs.Parts.{part_of, items_in};
ghost use Rattle.c_grammar.specs.Views.{words_of};
ghost use Rattle.c_statements.specs.Labels as spec;
ghost use Rattle.c_statements.specs.Nodes.{items_of};

use crate::nodes::is_token;
use c_grammar::{
    BodyLayer, ItemLayer, LabelLayer, StatementLayer, SyntaxNode, Words, body_layer, item_layer,
    label_layer, statement_layer,
};
use c_types::{Memory, Stack};

/// Puts the name of a label, if a node is one that has a name, in front of others.
fn add_label(words: &Words, x: &SyntaxNode, out: &mut Stack<u32>) -> Result<(), Memory>
    ensures { OnOk result (out.new ≡ spec.name_in (label_of (words_of words.now) x.now) out.old) }
{
    match label_layer(words, x) {
        Some(LabelLayer::Named(at, _)) => out.push(at),
        Some(LabelLayer::Case(_, _, _)) => Ok(()),
        Some(LabelLayer::Default(_, _)) => Ok(()),
        None => Ok(()),
    }
}

/// Puts the names of the labels among these nodes in front of others.
#[tactic(auto, using(crate::proofs::Lists::names_back))]
fn add_named(words: &Words, nodes: &[SyntaxNode], out: &mut Stack<u32>) -> Result<(), Memory>
    ensures { OnOk result (out.new ≡ spec.named_in (labels_of (words_of words.now) nodes.now) out.old) }
{
    let mut i = nodes.len();
    while i > 0 {
        i -= 1;
        add_label(words, &nodes[i], out)?;
    }
    Ok(())
}

#[cycle(labels)]
fn item_labels(words: &Words, x: &SyntaxNode, out: &mut Stack<u32>) -> Result<(), Memory>
    ensures { OnOk result (out.new ≡ spec.item_labels (item_of (words_of words.now) x.now) out.old) }
{
    match item_layer(words, x) {
        ItemLayer::States(labels, plain) => {
            plain_labels(words, plain, out)?;
            add_named(words, labels, out)
        }
        ItemLayer::Declares(_, _, _) => Ok(()),
        ItemLayer::Unread(_, _) => Ok(()),
    }
}

#[cycle(labels)]
fn plain_labels(words: &Words, x: &SyntaxNode, out: &mut Stack<u32>) -> Result<(), Memory>
    ensures { OnOk result (out.new ≡ spec.plain_labels (plain_of (words_of words.now) x.now) out.old) }
{
    match statement_layer(words, x) {
        StatementLayer::If(_, b) => body_labels(words, b, out),
        StatementLayer::IfElse(_, b, c) => {
            body_labels(words, c, out)?;
            body_labels(words, b, out)
        }
        StatementLayer::While(_, b) => body_labels(words, b, out),
        StatementLayer::DoWhile(b, _) => body_labels(words, b, out),
        StatementLayer::For(_, _, _, b) => body_labels(words, b, out),
        StatementLayer::Switch(_, b) => body_labels(words, b, out),
        StatementLayer::Block(_, _, items) => list_labels(words, items, out),
        StatementLayer::Null
        | StatementLayer::Evaluate(_)
        | StatementLayer::Goto(_)
        | StatementLayer::Break
        | StatementLayer::Continue
        | StatementLayer::Return(_)
        | StatementLayer::Unread => Ok(()),
    }
}

/// Puts the labels of a list, by the tokens of their names in text order, in front of others.
#[cycle(labels)]
pub fn body_labels(words: &Words, x: &SyntaxNode, out: &mut Stack<u32>) -> Result<(), Memory>
    ensures { OnOk result (out.new ≡ spec.body_labels (body_of (words_of words.now) x.now) out.old) }
{
    match body_layer(words, x) {
        BodyLayer::Braces(_, _, items) => list_labels(words, items, out),
        BodyLayer::Lone(_, _, item) => item_labels(words, item, out),
    }
}

/// Puts the labels of items, by the tokens of their names in text order, in front of others.
#[cycle(labels)]
#[tactic(auto, using(crate::proofs::Lists::labels_back))]
pub fn list_labels(words: &Words, items: &[SyntaxNode], out: &mut Stack<u32>) -> Result<(), Memory>
    ensures { OnOk result (out.new ≡ spec.list_labels (items_of (words_of words.now) items.now) out.old) }
{
    let mut i = items.len();
    while i > 0 {
        i -= 1;
        if !is_token(&items[i]) {
            item_labels(words, &items[i], out)?;
        }
    }
    Ok(())
}
