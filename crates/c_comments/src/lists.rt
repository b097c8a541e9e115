//! What holds a token in what is left of a list.

ghost use Rattle.std.specs.Prelude.{◌≡◌, cond};
ghost use Rattle.c_grammar.specs.ItemViews.{labels_of, plain_of};
ghost use Rattle.c_grammar.specs.Weights.{weight, weights};
ghost use Rattle.c_grammar.specs.Views.{words_of};
ghost use Rattle.c_statements.specs.Nodes.{items_of};
ghost use Rattle.c_statements.specs.declared.anchors.Anchor.TheVariants.{AtEnd, Before};
ghost use Rattle.c_comments.specs.Notes as spec;
ghost use Rattle.c_comments.specs.Steps.{Behind, IsBelow, Leads, place_in_labels, rest_place, rest_weight};

use crate::labels::place_in_label;
use crate::statements::{ends_behind, has_begun, item_after, item_step, member_step, plain_step};
use crate::steps::{Passed, Rest, Step, behind, bounded};
use c_grammar::{SyntaxNode, Words};
use c_statements::Anchor;

/// Passes the items in front of a token.
fn pass_items<'n>(words: &Words, end: Anchor, items: &'n [SyntaxNode], token: u32) -> Passed<'n>
    ensures rest { Behind (rest_place (words_of words.now) result.rest) (spec.list_place end (items_of (words_of words.now) items.now)) token }
    ensures leads { Leads (words_of words.now) (spec.list_place end (items_of (words_of words.now) items.now)) token result.step }
    ensures smaller { IsBelow (weights items.now) result.step }
{
    let mut i = 0;
    while i < items.len() {
        let x = &items[i];
        if ends_behind(words, x, token) {
            return Passed {
                rest: Rest::Items(end, behind(items, i)),
                step: bounded(item_step(words, x, token), item_after(words, x) as u64),
            };
        }
        i += 1;
    }
    Passed {
        rest: Rest::Items(end, behind(items, i)),
        step: Step::At(end),
    }
}

/// The place at the end of a switch body, where a section has begun or not.
fn members_end(begun: bool, switch: u32, first: u32) -> Anchor
    ensures { result ≡ cond begun (AtEnd first) (Before switch) }
{
    if begun {
        Anchor::AtEnd(first)
    } else {
        Anchor::Before(switch)
    }
}

/// Passes the items of a switch body in front of a token.
fn pass_members<'n>(
    words: &Words,
    had_begun: bool,
    switch: u32,
    first: u32,
    items: &'n [SyntaxNode],
    token: u32,
) -> Passed<'n>
    ensures rest { Behind (rest_place (words_of words.now) result.rest) (spec.members_place had_begun switch first (items_of (words_of words.now) items.now)) token }
    ensures leads { Leads (words_of words.now) (spec.members_place had_begun switch first (items_of (words_of words.now) items.now)) token result.step }
    ensures smaller { IsBelow (weights items.now) result.step }
{
    let mut begun = had_begun;
    let mut i = 0;
    while i < items.len() {
        let x = &items[i];
        if ends_behind(words, x, token) {
            return Passed {
                rest: Rest::Members(begun, switch, first, behind(items, i)),
                step: bounded(
                    member_step(words, begun, switch, x, token),
                    item_after(words, x) as u64,
                ),
            };
        }
        begun = has_begun(words, begun, x);
        i += 1;
    }
    Passed {
        rest: Rest::Members(begun, switch, first, behind(items, i)),
        step: Step::At(members_end(begun, switch, first)),
    }
}

/// Passes the labels in front of a token.
fn pass_labels<'n>(
    words: &Words,
    section: Option<Anchor>,
    labels: &'n [SyntaxNode],
    plain: &'n SyntaxNode,
    token: u32,
) -> Passed<'n>
    ensures rest { Behind (rest_place (words_of words.now) result.rest) (λ t. spec.or_behind (place_in_labels section (labels_of (words_of words.now) labels.now) t) (spec.plain_place (plain_of (words_of words.now) plain.now) t)) token }
    ensures leads { Leads (words_of words.now) (λ t. spec.or_behind (place_in_labels section (labels_of (words_of words.now) labels.now) t) (spec.plain_place (plain_of (words_of words.now) plain.now) t)) token result.step }
    ensures smaller { IsBelow (weight plain.now) result.step }
{
    let mut i = 0;
    while i < labels.len() {
        if let Some(place) = place_in_label(words, section, &labels[i], token) {
            return Passed {
                rest: Rest::Labels(section, behind(labels, i), plain),
                step: Step::At(place),
            };
        }
        i += 1;
    }
    Passed {
        rest: Rest::Labels(section, behind(labels, i), plain),
        step: plain_step(words, plain, token),
    }
}

/// What is left of a list from what holds a token on, and where the token leads.
pub fn pass<'n>(words: &Words, rest: Rest<'n>, token: u32) -> Passed<'n>
    ensures rest { Behind (rest_place (words_of words.now) result.rest) (rest_place (words_of words.now) rest.entry) token }
    ensures leads { Leads (words_of words.now) (rest_place (words_of words.now) rest.entry) token result.step }
    ensures smaller { IsBelow (rest_weight rest.entry) result.step }
{
    match rest {
        Rest::Items(end, items) => pass_items(words, end, items, token),
        Rest::Members(begun, switch, first, items) => {
            pass_members(words, begun, switch, first, items, token)
        }
        Rest::Labels(section, labels, plain) => {
            pass_labels(words, section, labels, plain, token)
        }
    }
}
