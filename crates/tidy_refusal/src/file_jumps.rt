ghost use Rattle.std.specs.Prelude.{◌≡◌, map};
ghost use Rattle.c_grammar.specs.ItemViews.{item_of, plain_of, body_of, label_of, labels_of};
ghost use Rattle.c_grammar.specs.Parts.{part_of, block_in, file_of};
ghost use Rattle.c_grammar.specs.TopViews.{top_of};
ghost use Rattle.c_grammar.specs.Views.{words_of};
ghost use Rattle.c_statements.specs.Nodes.{items_of};
ghost use Rattle.tidy_refusal.specs.FileJumps as spec;

use c_grammar::{
    BodyLayer, ItemLayer, LabelLayer, StatementLayer, SyntaxNode, TopLayer, Words, block_layer,
    body_layer, item_layer, label_layer, statement_layer, top_layer, tops_of,
};
use c_statements::is_token;

fn label_jump(words: &Words, x: &SyntaxNode, rest: Option<u32>) -> Option<u32>
    ensures { result ≡ spec.jump_in (label_of (words_of words.now) x.now) rest }
{
    match label_layer(words, x) {
        Some(LabelLayer::Named(_, _)) => rest,
        Some(LabelLayer::Case(first, _, _)) => Some(first),
        Some(LabelLayer::Default(first, _)) => Some(first),
        None => rest,
    }
}

#[tactic(auto, using(crate::proofs::Nodes::labels_back))]
fn labels_jump(words: &Words, nodes: &[SyntaxNode], rest: Option<u32>) -> Option<u32>
    ensures { result ≡ spec.labels_jump (labels_of (words_of words.now) nodes.now) rest }
{
    let mut found = rest;
    let mut i = nodes.len();
    while i > 0 {
        i -= 1;
        found = label_jump(words, &nodes[i], found);
    }
    found
}

#[cycle(jumps)]
fn item_jump(words: &Words, x: &SyntaxNode, rest: Option<u32>) -> Option<u32>
    ensures { result ≡ spec.item_jump (item_of (words_of words.now) x.now) rest }
{
    match item_layer(words, x) {
        ItemLayer::States(labels, plain) => {
            let found = plain_jump(words, plain, rest);
            labels_jump(words, labels, found)
        }
        ItemLayer::Declares(_, _, _) => rest,
        ItemLayer::Unread(_, _) => rest,
    }
}

#[cycle(jumps)]
fn plain_jump(words: &Words, x: &SyntaxNode, rest: Option<u32>) -> Option<u32>
    ensures { result ≡ spec.plain_jump (plain_of (words_of words.now) x.now) rest }
{
    match statement_layer(words, x) {
        StatementLayer::If(_, b) => body_jump(words, b, rest),
        StatementLayer::IfElse(_, b, c) => {
            let found = body_jump(words, c, rest);
            body_jump(words, b, found)
        }
        StatementLayer::While(_, b) => body_jump(words, b, rest),
        StatementLayer::DoWhile(b, _) => body_jump(words, b, rest),
        StatementLayer::For(_, _, _, b) => body_jump(words, b, rest),
        StatementLayer::Switch(_, b) => switch_jump(words, b, rest),
        StatementLayer::Block(_, _, items) => list_jump(words, items, rest),
        StatementLayer::Goto(at) => Some(at.saturating_sub(1)),
        StatementLayer::Null
        | StatementLayer::Evaluate(_)
        | StatementLayer::Break
        | StatementLayer::Continue
        | StatementLayer::Return(_)
        | StatementLayer::Unread => rest,
    }
}

#[cycle(jumps)]
fn body_jump(words: &Words, x: &SyntaxNode, rest: Option<u32>) -> Option<u32>
    ensures { result ≡ spec.body_jump (body_of (words_of words.now) x.now) rest }
{
    match body_layer(words, x) {
        BodyLayer::Braces(_, _, items) => list_jump(words, items, rest),
        BodyLayer::Lone(_, _, item) => item_jump(words, item, rest),
    }
}

#[cycle(jumps)]
#[tactic(auto, using(crate::proofs::Nodes::items_back))]
fn list_jump(words: &Words, items: &[SyntaxNode], rest: Option<u32>) -> Option<u32>
    ensures { result ≡ spec.list_jump (items_of (words_of words.now) items.now) rest }
{
    let mut found = rest;
    let mut i = items.len();
    while i > 0 {
        i -= 1;
        if !is_token(&items[i]) {
            found = item_jump(words, &items[i], found);
        }
    }
    found
}

#[cycle(jumps)]
fn switch_jump(words: &Words, x: &SyntaxNode, rest: Option<u32>) -> Option<u32>
    ensures { result ≡ spec.switch_jump (body_of (words_of words.now) x.now) rest }
{
    match body_layer(words, x) {
        BodyLayer::Braces(_, _, items) => sections_jump(words, items, rest),
        BodyLayer::Lone(_, _, item) => section_jump(words, item, rest),
    }
}

#[cycle(jumps)]
#[tactic(auto, using(crate::proofs::Nodes::items_back))]
fn sections_jump(words: &Words, items: &[SyntaxNode], rest: Option<u32>) -> Option<u32>
    ensures { result ≡ spec.sections_jump (items_of (words_of words.now) items.now) rest }
{
    let mut found = rest;
    let mut i = items.len();
    while i > 0 {
        i -= 1;
        if !is_token(&items[i]) {
            found = section_jump(words, &items[i], found);
        }
    }
    found
}

#[cycle(jumps)]
fn section_jump(words: &Words, x: &SyntaxNode, rest: Option<u32>) -> Option<u32>
    ensures { result ≡ spec.section_jump (item_of (words_of words.now) x.now) rest }
{
    match item_layer(words, x) {
        ItemLayer::States(_, plain) => plain_jump(words, plain, rest),
        ItemLayer::Declares(_, _, _) => rest,
        ItemLayer::Unread(_, _) => rest,
    }
}

fn block_jump(words: &Words, x: &SyntaxNode, rest: Option<u32>) -> Option<u32>
    ensures { result ≡ spec.block_jump (block_in (part_of (words_of words.now) x.now)) rest }
{
    match block_layer(words, x) {
        Some(BodyLayer::Braces(_, _, items)) => list_jump(words, items, rest),
        Some(BodyLayer::Lone(_, _, item)) => item_jump(words, item, rest),
        None => rest,
    }
}

fn top_jump(words: &Words, x: &SyntaxNode, rest: Option<u32>) -> Option<u32>
    ensures { result ≡ spec.top_jump (top_of (words_of words.now) x.now) rest }
{
    match top_layer(words, x) {
        TopLayer::Defines(f) => block_jump(words, f.body, rest),
        TopLayer::Line => rest,
        TopLayer::Enum(_) => rest,
        TopLayer::Globals(_, _) => rest,
        TopLayer::Unread => rest,
    }
}

#[tactic(auto, using(crate::proofs::Nodes::tops_back))]
fn tops_jump(words: &Words, nodes: &[SyntaxNode]) -> Option<u32>
    ensures { result ≡ spec.first_jump (map (top_of (words_of words.now)) nodes.now) }
{
    let mut found = None;
    let mut i = nodes.len();
    while i > 0 {
        i -= 1;
        found = top_jump(words, &nodes[i], found);
    }
    found
}

/// The token of the first jump of a file, if it has one: of a `goto`, or of a case or default label that begins no
/// section of a switch.
pub fn first_jump(words: &Words, x: &SyntaxNode) -> Option<u32>
    ensures { result ≡ spec.first_jump (file_of (words_of words.now) x.now) }
{
    tops_jump(words, tops_of(words, x))
}
