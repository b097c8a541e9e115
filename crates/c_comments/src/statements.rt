//! Where a token leads in an item, a statement or the list of a construct.

ghost use Rattle.std.specs.Prelude.{◌≡◌, ◌||◌, ◌&&◌, not, nat_lt, ◌+◌, ◌≤◌, ℕ, List, []};
ghost use Rattle.c_grammar.specs.declared.syntax.Syntax.{out-Syntax};
ghost use Rattle.c_grammar.specs.Items.{Braces, Lone};
ghost use Rattle.c_grammar.specs.ItemViews.{BodyIsSmaller, body_form, body_of, item_of, labels_of, plain_of};
ghost use Rattle.c_grammar.specs.Parts as parts;
ghost use Rattle.c_grammar.specs.Weights.{weight, weights};
ghost use Rattle.c_grammar.specs.Views.{words_of};
ghost use Rattle.c_statements.specs.Nodes.{items_of};
ghost use Rattle.c_statements.specs.Violations as violations;
ghost use Rattle.c_comments.specs.Notes as spec;
ghost use Rattle.c_comments.specs.Steps.{Behind, IsBelow, Leads, body_ahead as ahead_of};

use crate::labels::{case_place, first_label, has_case};
use crate::steps::{Rest, Step, bounded};
use c_grammar::{
    BodyLayer, ItemLayer, StatementLayer, SyntaxNode, Words, body_layer, has_label, item_layer,
    statement_layer,
};
use c_statements::{Anchor, is_token};

/// The token behind an item.
#[tactic(auto, using(crate::proofs::Written::afters))]
pub fn item_after(words: &Words, x: &SyntaxNode) -> u32
    ensures { result ≡ spec.item_after (item_of (words_of words.now) x.now) }
{
    match item_layer(words, x) {
        ItemLayer::Declares(_, after, _) => after,
        ItemLayer::States(_, plain) => plain.after(),
        ItemLayer::Unread(_, after) => after,
    }
}

/// Whether an item begins a section where it stands in a switch body.
fn begins_section(words: &Words, x: &SyntaxNode) -> bool
    ensures { result ≡ spec.begins_section (item_of (words_of words.now) x.now) }
{
    match item_layer(words, x) {
        ItemLayer::Declares(_, _, _) => false,
        ItemLayer::States(labels, _) => has_case(words, labels),
        ItemLayer::Unread(_, _) => false,
    }
}

/// Whether a section has begun behind a node of a switch body.
pub fn has_begun(words: &Words, begun: bool, x: &SyntaxNode) -> bool
    ensures { result ≡ (begun || (not (parts.is_token (out-Syntax x.now).rule) && spec.begins_section (item_of (words_of words.now) x.now))) }
{
    begun || (!is_token(x) && begins_section(words, x))
}

/// Whether a node of a list is an item that ends behind a token.
pub fn ends_behind(words: &Words, x: &SyntaxNode, token: u32) -> bool
    ensures { result ≡ (not (parts.is_token (out-Syntax x.now).rule) && nat_lt token (spec.item_after (item_of (words_of words.now) x.now))) }
{
    !is_token(x) && token < item_after(words, x)
}

fn is_null_statement(words: &Words, x: &SyntaxNode) -> bool
    ensures { result ≡ violations.is_null [] (plain_of (words_of words.now) x.now) }
{
    match statement_layer(words, x) {
        StatementLayer::Null => true,
        _ => false,
    }
}

/// Whether a statement is a null statement without labels.
#[tactic(auto, using(crate::proofs::Written::null))]
fn is_null(words: &Words, labels: &[SyntaxNode], plain: &SyntaxNode) -> bool
    ensures { result ≡ violations.is_null (labels_of (words_of words.now) labels.now) (plain_of (words_of words.now) plain.now) }
{
    !has_label(words, labels) && is_null_statement(words, plain)
}

/// Whether a statement of a switch body is no element, where a section has begun or not.
fn is_no_element(words: &Words, begun: bool, labels: &[SyntaxNode], plain: &SyntaxNode) -> bool
    ensures { result ≡ (not begun && violations.is_null (labels_of (words_of words.now) labels.now) (plain_of (words_of words.now) plain.now)) }
{
    !begun && is_null(words, labels, plain)
}

/// Where a token in an item leads.
pub fn item_step<'n>(words: &Words, x: &'n SyntaxNode, token: u32) -> Step<'n>
    ensures leads { Leads (words_of words.now) (spec.item_place (item_of (words_of words.now) x.now)) token result }
    ensures smaller { IsBelow (weight x.now) result }
{
    match item_layer(words, x) {
        ItemLayer::Declares(first, _, _) => Step::At(Anchor::Before(first)),
        ItemLayer::States(labels, plain) => Step::Into(Rest::Labels(None, labels, plain), u64::MAX),
        ItemLayer::Unread(first, _) => Step::At(Anchor::Before(first)),
    }
}

/// Where a token leads in a list of a construct, with the place in front of the list.
fn block_step<'n>(
    before: Anchor,
    first: u32,
    after: u32,
    items: &'n [SyntaxNode],
    token: u32,
) -> Step<'n>
    ensures leads { (word : ℕ → List ℕ) → Leads word (spec.body_place before (Braces first after (items_of word items.now))) token result }
    ensures smaller { IsBelow (weights items.now + 1) result }
{
    if token <= first {
        return Step::At(before);
    }
    if token < after {
        return Step::Into(Rest::Items(Anchor::AtEnd(first), items), after as u64);
    }
    Step::At(Anchor::AtEnd(first))
}

fn lone_step<'n>(
    words: &Words,
    before: Anchor,
    first: u32,
    after: u32,
    item: &'n SyntaxNode,
    token: u32,
) -> Step<'n>
    ensures leads { Leads (words_of words.now) (spec.body_place before (Lone first after (item_of (words_of words.now) item.now))) token result }
    ensures smaller { IsBelow (weight item.now) result }
{
    if token < first {
        return Step::At(before);
    }
    if token < after {
        return bounded(item_step(words, item, token), after as u64);
    }
    Step::At(Anchor::AtEnd(first))
}

/// Where a token leads in the list of a construct, with the place in front of the list.
pub fn layer_step<'n>(words: &Words, before: Anchor, body: BodyLayer<'n>, token: u32) -> Step<'n>
    ensures leads { Leads (words_of words.now) (spec.body_place before (body_form (words_of words.now) body.entry)) token result }
    ensures smaller { (n : ℕ) → BodyIsSmaller n body.entry → IsBelow n result }
{
    match body {
        BodyLayer::Braces(first, after, items) => block_step(before, first, after, items, token),
        BodyLayer::Lone(first, after, item) => {
            lone_step(words, before, first, after, item, token)
        }
    }
}

fn body_step<'n>(words: &Words, before: Anchor, x: &'n SyntaxNode, token: u32) -> Step<'n>
    ensures leads { Leads (words_of words.now) (spec.body_place before (body_of (words_of words.now) x.now)) token result }
    ensures smaller { IsBelow (weight x.now) result }
{
    layer_step(words, before, body_layer(words, x), token)
}

/// How many tokens are in front of the list of a construct.
fn body_ahead(words: &Words, x: &SyntaxNode) -> u64
    ensures { result ≡ ahead_of (body_of (words_of words.now) x.now) }
{
    match body_layer(words, x) {
        BodyLayer::Braces(first, _, _) => first as u64 + 1,
        BodyLayer::Lone(first, _, _) => first as u64,
    }
}

/// Where a token leads in the two lists of an `if` with an `else`.
fn branch_step<'n>(
    words: &Words,
    before: Anchor,
    x: &'n SyntaxNode,
    other: &'n SyntaxNode,
    token: u32,
) -> Step<'n>
    ensures leads { Leads (words_of words.now) (λ t. spec.body_place (spec.body_place before (body_of (words_of words.now) x.now) t) (body_of (words_of words.now) other.now) t) token result }
    ensures smaller { (n : ℕ) → weight x.now ≤ n → weight other.now ≤ n → IsBelow n result }
{
    let ahead = body_ahead(words, other);
    if (token as u64) < ahead {
        return bounded(body_step(words, before, x, token), ahead);
    }
    body_step(words, before, other, token)
}

/// Where a token leads in the body of the switch that begins with a token.
fn switch_step<'n>(words: &Words, switch: u32, x: &'n SyntaxNode, token: u32) -> Step<'n>
    ensures leads { Leads (words_of words.now) (spec.switch_place switch (body_of (words_of words.now) x.now)) token result }
    ensures smaller { IsBelow (weight x.now) result }
{
    match body_layer(words, x) {
        BodyLayer::Braces(first, _, items) => {
            if token <= first {
                return Step::At(Anchor::Before(switch));
            }
            Step::Into(Rest::Members(false, switch, first, items), u64::MAX)
        }
        BodyLayer::Lone(first, _, item) => {
            if token < first {
                return Step::At(Anchor::Before(switch));
            }
            member_step(words, false, switch, item, token)
        }
    }
}

/// Where a token leads in an item of a switch body, where a section has begun or not.
pub fn member_step<'n>(
    words: &Words,
    begun: bool,
    switch: u32,
    x: &'n SyntaxNode,
    token: u32,
) -> Step<'n>
    ensures leads { Leads (words_of words.now) (spec.member_place begun switch (item_of (words_of words.now) x.now)) token result }
    ensures smaller { IsBelow (weight x.now) result }
{
    match item_layer(words, x) {
        ItemLayer::Declares(first, _, _) => Step::At(Anchor::Before(first)),
        ItemLayer::States(labels, plain) => {
            if has_case(words, labels) {
                let section = case_place(words, labels, first_label(words, labels));
                return Step::Into(Rest::Labels(Some(section), labels, plain), u64::MAX);
            }
            if is_no_element(words, begun, labels, plain) {
                return Step::At(Anchor::Before(switch));
            }
            Step::Into(Rest::Labels(None, labels, plain), u64::MAX)
        }
        ItemLayer::Unread(first, _) => Step::At(Anchor::Before(first)),
    }
}

/// Where a token leads in a statement behind its labels.
pub fn plain_step<'n>(words: &Words, x: &'n SyntaxNode, token: u32) -> Step<'n>
    ensures leads { Leads (words_of words.now) (spec.plain_place (plain_of (words_of words.now) x.now)) token result }
    ensures smaller { IsBelow (weight x.now) result }
{
    let first = x.first();
    let before = Anchor::Before(first);
    let layer = statement_layer(words, x);
    if token <= first {
        return Step::At(before);
    }
    match layer {
        StatementLayer::If(_, b) => body_step(words, before, b, token),
        StatementLayer::IfElse(_, b, c) => branch_step(words, before, b, c, token),
        StatementLayer::While(_, b) => body_step(words, before, b, token),
        StatementLayer::DoWhile(b, _) => body_step(words, before, b, token),
        StatementLayer::For(_, _, _, b) => body_step(words, before, b, token),
        StatementLayer::Switch(_, b) => switch_step(words, first, b, token),
        StatementLayer::Block(open, after, items) => block_step(before, open, after, items, token),
        StatementLayer::Null
        | StatementLayer::Evaluate(_)
        | StatementLayer::Goto(_)
        | StatementLayer::Break
        | StatementLayer::Continue
        | StatementLayer::Return(_)
        | StatementLayer::Unread => Step::At(before),
    }
}
