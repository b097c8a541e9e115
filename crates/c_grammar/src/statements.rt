//! Labels and statements (ISO/IEC 9899:2011, 6.8), one layer at a time.

ghost use Rattle.std.specs.Prelude.{◌≡◌, ◌≤◌, ◌+◌, codes, length, map, option_map, is_some};
ghost use Rattle.std.specs.Str.{bytes_eq};
ghost use Rattle.std.specs.List.{list_any};
ghost use Rattle.c_grammar.specs.Items as items;
ghost use Rattle.c_grammar.specs.Parts as spec;
ghost use Rattle.c_grammar.specs.Weights.{weight, weights};
ghost use Rattle.c_grammar.specs.Views.{words_of};
ghost use Rattle.c_grammar.specs.ItemViews.{label_of, labels_of, item_of, body_of, plain_of, label_form, item_form, body_form, start_form, statement_form, ItemIsSmaller, BodyIsSmaller, StatementIsSmaller};
ghost use Rattle.c_grammar.specs.declared.syntax.Syntax.{out-Syntax};

use crate::declarations::first_at;
use crate::layer::is_token;
use crate::words::Words;
use crate::{Class, Production, SyntaxNode, keyword_class};

/// A label, from its first token to the one behind it.
#[derive(Clone, Copy)]
pub enum LabelLayer<'a> {
    Named(u32, u32),
    Case(u32, u32, &'a SyntaxNode),
    Default(u32, u32),
}

/// A declaration or a statement of a list.
#[derive(Clone, Copy)]
pub enum ItemLayer<'a> {
    /// A declaration, from its first token to the one behind it.
    Declares(u32, u32, &'a SyntaxNode),
    /// The labels are among these nodes, and the statement stands behind them.
    States(&'a [SyntaxNode], &'a SyntaxNode),
    /// Neither, from its first token to the one behind it.
    Unread(u32, u32),
}

/// The list of a construct or of a function, from its first token to the one behind it.
#[derive(Clone, Copy)]
pub enum BodyLayer<'a> {
    /// The items in braces, among tokens.
    Braces(u32, u32, &'a [SyntaxNode]),
    /// One statement that is no block.
    Lone(u32, u32, &'a SyntaxNode),
}

/// The first part of a `for`.
#[derive(Clone, Copy)]
pub enum StartLayer<'a> {
    NoStart,
    StartValue(&'a SyntaxNode),
    StartNames(&'a SyntaxNode),
}

/// A statement without its labels, with the syntax of its parts.
#[derive(Clone, Copy)]
pub enum StatementLayer<'a> {
    Null,
    Evaluate(&'a SyntaxNode),
    If(&'a SyntaxNode, &'a SyntaxNode),
    IfElse(&'a SyntaxNode, &'a SyntaxNode, &'a SyntaxNode),
    While(&'a SyntaxNode, &'a SyntaxNode),
    DoWhile(&'a SyntaxNode, &'a SyntaxNode),
    /// The first part, the test, the third part and the body.
    For(StartLayer<'a>, Option<&'a SyntaxNode>, Option<&'a SyntaxNode>, &'a SyntaxNode),
    Switch(&'a SyntaxNode, &'a SyntaxNode),
    /// The items in braces, among tokens, from the first token to the one behind.
    Block(u32, u32, &'a [SyntaxNode]),
    /// The token of the label's name.
    Goto(u32),
    Break,
    Continue,
    Return(Option<&'a SyntaxNode>),
    /// No statement.
    Unread,
}

/// Whether a word is `default`.
fn is_default(word: &[u8]) -> bool
    ensures { result ≡ bytes_eq (codes "default") word.now }
{
    let default: &[u8] = b"default";
    default == word
}

#[tactic(auto, using(crate::proofs::Items::parts))]
fn label_by<'a>(words: &Words, first: u32, after: u32, parts: &'a [SyntaxNode]) -> LabelLayer<'a>
    ensures { spec.label (words_of words.now) first after (map (spec.part_of (words_of words.now)) parts.now) ≡ label_form (words_of words.now) result }
{
    if parts.len() == 3 {
        return LabelLayer::Case(first, after, &parts[1]);
    }
    if is_default(words.get(first)) {
        return LabelLayer::Default(first, after);
    }
    LabelLayer::Named(first, after)
}

/// The label that a syntax writes, and none where it writes something else.
#[tactic(auto, using(crate::proofs::Items::opened_nodes))]
pub fn label_layer<'a>(words: &Words, x: &'a SyntaxNode) -> Option<LabelLayer<'a>>
    ensures { label_of (words_of words.now) x.now ≡ option_map (label_form (words_of words.now)) result }
{
    match x.rule() {
        Production::Label => Some(label_by(words, x.first(), x.after(), x.parts())),
        _ => None,
    }
}

fn is_label(words: &Words, x: &SyntaxNode) -> bool
    ensures { result ≡ is_some (label_of (words_of words.now) x.now) }
{
    label_layer(words, x).is_some()
}

/// Whether a label is among these nodes.
pub fn has_label(words: &Words, nodes: &[SyntaxNode]) -> bool
    ensures { result ≡ list_any (λ x. is_some (label_of (words_of words.now) x)) nodes.now }
{
    nodes.iter().any(|node| is_label(words, node))
}

#[tactic(auto, using(crate::proofs::Items::statement_parts))]
fn statement_item<'a>(words: &Words, parts: &'a [SyntaxNode]) -> ItemLayer<'a>
    ensures form { spec.labelled (map (spec.part_of (words_of words.now)) parts.now) ≡ item_form (words_of words.now) result }
    ensures smaller { ItemIsSmaller (weights parts.now + 1) result }
{
    if parts.len() == 0 {
        return ItemLayer::Unread(0, 0);
    }
    ItemLayer::States(parts, &parts[parts.len() - 1])
}

/// The declaration or statement that a syntax writes, without brackets and levels.
#[tactic(auto, using(crate::proofs::Items::opened_nodes))]
pub fn item_layer<'a>(words: &Words, x: &'a SyntaxNode) -> ItemLayer<'a>
    ensures form { item_of (words_of words.now) x.now ≡ item_form (words_of words.now) result }
    ensures smaller { ItemIsSmaller (weight x.now) result }
{
    match x.rule() {
        Production::Statement => statement_item(words, x.parts()),
        Production::Local => ItemLayer::Declares(x.first(), x.after(), x),
        _ => ItemLayer::Unread(x.first(), x.after()),
    }
}

/// An expression, unless a token stands in its place.
#[tactic(auto, using(crate::proofs::Items::parts))]
fn optional_at<'a>(words: &Words, parts: &'a [SyntaxNode], at: usize) -> Option<&'a SyntaxNode>
    ensures { spec.optional_at (map (spec.part_of (words_of words.now)) parts.now) at ≡ option_map (λ x. spec.term_of (words_of words.now) x.now) result }
{
    if at < parts.len() {
        if is_token(parts[at].rule()) {
            return None;
        }
        return Some(&parts[at]);
    }
    None
}

/// The nodes behind an expression that may be left out, and the token behind it.
#[tactic(auto, using(crate::proofs::Items::parts))]
fn behind_optional<'a>(words: &Words, parts: &'a [SyntaxNode]) -> &'a [SyntaxNode]
    ensures rest { spec.behind_optional (map (spec.part_of (words_of words.now)) parts.now) ≡ map (spec.part_of (words_of words.now)) result.now }
    ensures smaller { weights result.now ≤ weights parts.now }
{
    if parts.len() == 0 {
        return parts;
    }
    if is_token(parts[0].rule()) {
        return &parts[1..];
    }
    if parts.len() == 1 {
        return &[];
    }
    &parts[2..]
}

#[tactic(auto, using(crate::proofs::Items::parts))]
fn start_of<'a>(words: &Words, parts: &'a [SyntaxNode]) -> StartLayer<'a>
    ensures { spec.start_of (map (spec.part_of (words_of words.now)) parts.now) ≡ start_form (words_of words.now) result }
{
    if parts.len() == 0 {
        return StartLayer::NoStart;
    }
    if is_local(parts[0].rule()) {
        return StartLayer::StartNames(&parts[0]);
    }
    if is_token(parts[0].rule()) {
        return StartLayer::NoStart;
    }
    StartLayer::StartValue(&parts[0])
}

#[tactic(auto, using(crate::proofs::Items::parts))]
fn behind_start<'a>(words: &Words, parts: &'a [SyntaxNode]) -> &'a [SyntaxNode]
    ensures rest { spec.behind_start (map (spec.part_of (words_of words.now)) parts.now) ≡ map (spec.part_of (words_of words.now)) result.now }
    ensures smaller { weights result.now ≤ weights parts.now }
{
    if parts.len() == 0 {
        return parts;
    }
    if is_local(parts[0].rule()) {
        return &parts[1..];
    }
    behind_optional(words, parts)
}

fn is_local(rule: Production) -> bool
    ensures { result ≡ spec.is_local rule }
{
    matches!(rule, Production::Local)
}

#[tactic(auto, using(crate::proofs::Items::parts))]
fn for_layer<'a>(words: &Words, parts: &'a [SyntaxNode]) -> StatementLayer<'a>
    ensures form { spec.for_of (map (spec.part_of (words_of words.now)) parts.now) ≡ statement_form (words_of words.now) result }
    ensures smaller { StatementIsSmaller (weights parts.now + 1) result }
{
    let behind_first = behind_start(words, parts);
    let behind_test = behind_optional(words, behind_first);
    let behind_third = behind_optional(words, behind_test);
    if behind_third.len() == 0 {
        return StatementLayer::Unread;
    }
    let start = start_of(words, parts);
    let test = optional_at(words, behind_first, 0);
    let third = optional_at(words, behind_test, 0);
    StatementLayer::For(start, test, third, &behind_third[0])
}

#[tactic(auto, using(crate::proofs::Items::parts))]
fn if_layer<'a>(words: &Words, parts: &'a [SyntaxNode]) -> StatementLayer<'a>
    ensures form { spec.if_of (map (spec.part_of (words_of words.now)) parts.now) ≡ statement_form (words_of words.now) result }
    ensures smaller { StatementIsSmaller (weights parts.now + 1) result }
{
    if parts.len() == 5 {
        return StatementLayer::If(&parts[2], &parts[4]);
    }
    if parts.len() == 7 {
        return StatementLayer::IfElse(&parts[2], &parts[4], &parts[6]);
    }
    StatementLayer::Unread
}

/// A statement of one of these classes that has five parts, or seven for `do`.
#[tactic(auto, using(crate::proofs::Items::parts))]
fn while_layer<'a>(words: &Words, parts: &'a [SyntaxNode]) -> StatementLayer<'a>
    ensures form { spec.keyword_statement Class.While (map (spec.part_of (words_of words.now)) parts.now) ≡ statement_form (words_of words.now) result }
    ensures smaller { StatementIsSmaller (weights parts.now + 1) result }
{
    if parts.len() != 5 {
        return StatementLayer::Unread;
    }
    StatementLayer::While(&parts[2], &parts[4])
}

#[tactic(auto, using(crate::proofs::Items::parts))]
fn do_layer<'a>(words: &Words, parts: &'a [SyntaxNode]) -> StatementLayer<'a>
    ensures form { spec.keyword_statement Class.Do (map (spec.part_of (words_of words.now)) parts.now) ≡ statement_form (words_of words.now) result }
    ensures smaller { StatementIsSmaller (weights parts.now + 1) result }
{
    if parts.len() != 7 {
        return StatementLayer::Unread;
    }
    StatementLayer::DoWhile(&parts[1], &parts[4])
}

#[tactic(auto, using(crate::proofs::Items::parts))]
fn switch_layer<'a>(words: &Words, parts: &'a [SyntaxNode]) -> StatementLayer<'a>
    ensures form { spec.keyword_statement Class.Switch (map (spec.part_of (words_of words.now)) parts.now) ≡ statement_form (words_of words.now) result }
    ensures smaller { StatementIsSmaller (weights parts.now + 1) result }
{
    if parts.len() != 5 {
        return StatementLayer::Unread;
    }
    StatementLayer::Switch(&parts[2], &parts[4])
}

#[tactic(auto, using(crate::proofs::Items::parts))]
fn goto_layer<'a>(words: &Words, parts: &'a [SyntaxNode]) -> StatementLayer<'a>
    ensures form { spec.keyword_statement Class.Goto (map (spec.part_of (words_of words.now)) parts.now) ≡ statement_form (words_of words.now) result }
    ensures smaller { StatementIsSmaller (weights parts.now + 1) result }
{
    if parts.len() != 3 {
        return StatementLayer::Unread;
    }
    StatementLayer::Goto(parts[1].first())
}

#[tactic(auto, using(crate::proofs::Items::parts))]
fn head_and_for<'a>(words: &Words, parts: &'a [SyntaxNode]) -> StatementLayer<'a>
    ensures form { spec.keyword_statement Class.For (map (spec.part_of (words_of words.now)) parts.now) ≡ statement_form (words_of words.now) result }
    ensures smaller { StatementIsSmaller (weights parts.now + 1) result }
{
    if parts.len() < 2 {
        return StatementLayer::Unread;
    }
    for_layer(words, &parts[2..])
}

/// A statement that begins with a keyword, or `;`.
fn keyword_layer<'a>(words: &Words, class: Class, parts: &'a [SyntaxNode]) -> StatementLayer<'a>
    ensures form { spec.keyword_statement class (map (spec.part_of (words_of words.now)) parts.now) ≡ statement_form (words_of words.now) result }
    ensures smaller { StatementIsSmaller (weights parts.now + 1) result }
{
    match class {
        Class::If => if_layer(words, parts),
        Class::While => while_layer(words, parts),
        Class::Do => do_layer(words, parts),
        Class::For => head_and_for(words, parts),
        Class::Switch => switch_layer(words, parts),
        Class::Goto => goto_layer(words, parts),
        Class::Break => StatementLayer::Break,
        Class::Continue => StatementLayer::Continue,
        Class::Return => StatementLayer::Return(optional_at(words, parts, 1)),
        _ => StatementLayer::Null,
    }
}

/// A block, or an expression in front of `;`.
#[tactic(auto, using(crate::proofs::Items::others))]
fn other_layer<'a>(words: &Words, x: &'a SyntaxNode) -> StatementLayer<'a>
    ensures form { spec.other_statement (spec.part_of (words_of words.now) x.now) ≡ statement_form (words_of words.now) result }
    ensures smaller { StatementIsSmaller (weight x.now) result }
{
    match x.rule() {
        Production::Block => StatementLayer::Block(x.first(), x.after(), x.parts()),
        Production::Expression
        | Production::Assignment
        | Production::Conditional
        | Production::Binary
        | Production::Unary
        | Production::Postfix
        | Production::Target
        | Production::Argument => StatementLayer::Evaluate(x),
        _ => StatementLayer::Unread,
    }
}

#[tactic(auto, using(crate::proofs::Items::plains))]
fn plain_layer<'a>(words: &Words, parts: &'a [SyntaxNode]) -> StatementLayer<'a>
    ensures form { spec.plain_statement (words_of words.now) (map (spec.part_of (words_of words.now)) parts.now) ≡ statement_form (words_of words.now) result }
    ensures smaller { StatementIsSmaller (weights parts.now + 1) result }
{
    if parts.len() == 0 {
        return StatementLayer::Unread;
    }
    if is_token(parts[0].rule()) {
        let class = keyword_class(words.get(first_at(words, parts, 0)));
        return keyword_layer(words, class, parts);
    }
    other_layer(words, &parts[0])
}

/// The statement without labels that a syntax writes, without brackets and levels.
#[tactic(auto, using(crate::proofs::Items::opened_nodes))]
pub fn statement_layer<'a>(words: &Words, x: &'a SyntaxNode) -> StatementLayer<'a>
    ensures form { plain_of (words_of words.now) x.now ≡ items.From (out-Syntax x.now).first (out-Syntax x.now).after (statement_form (words_of words.now) result) }
    ensures smaller { StatementIsSmaller (weight x.now) result }
{
    match x.rule() {
        Production::Plain => plain_layer(words, x.parts()),
        _ => StatementLayer::Unread,
    }
}

/// The list of a construct that a syntax writes: a block without labels is its own list.
#[tactic(auto, using(crate::proofs::Items::bodies))]
pub fn body_layer<'a>(words: &Words, x: &'a SyntaxNode) -> BodyLayer<'a>
    ensures form { body_of (words_of words.now) x.now ≡ body_form (words_of words.now) result }
    ensures smaller { BodyIsSmaller (weight x.now) result }
{
    let lone = BodyLayer::Lone(x.first(), x.after(), x);
    match item_layer(words, x) {
        ItemLayer::States(labels, plain) => {
            if has_label(words, labels) {
                return lone;
            }
            match statement_layer(words, plain) {
                StatementLayer::Block(first, after, parts) => BodyLayer::Braces(
                    first, after, parts,
                ),
                _ => lone,
            }
        }
        _ => lone,
    }
}
