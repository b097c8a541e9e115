//! The labels among the nodes of a statement, and the places of comments in them.

ghost use Rattle.std.specs.Prelude.{◌≡◌, ℕ, List};
ghost use Rattle.c_grammar.specs.ItemViews.{label_form, label_of, labels_of};
ghost use Rattle.c_grammar.specs.Items as items;
ghost use Rattle.c_grammar.specs.Views.{words_of};
ghost use Rattle.c_statements.specs.Labels as labels;
ghost use Rattle.c_comments.specs.Notes as spec;
ghost use Rattle.c_comments.specs.Steps as steps;

use c_grammar::{LabelLayer, SyntaxNode, Words, label_layer};
use c_statements::Anchor;

fn is_case(l: LabelLayer) -> bool
    ensures { (word : ℕ → List ℕ) → result ≡ labels.is_case (label_form word l.entry) }
{
    match l {
        LabelLayer::Named(_, _) => false,
        LabelLayer::Case(_, _, _) => true,
        LabelLayer::Default(_, _) => true,
    }
}

fn label_first(l: LabelLayer) -> u32
    ensures { (word : ℕ → List ℕ) → result ≡ items.label_first (label_form word l.entry) }
{
    match l {
        LabelLayer::Named(first, _) => first,
        LabelLayer::Case(first, _, _) => first,
        LabelLayer::Default(first, _) => first,
    }
}

fn label_after(l: LabelLayer) -> u32
    ensures { (word : ℕ → List ℕ) → result ≡ spec.label_after (label_form word l.entry) }
{
    match l {
        LabelLayer::Named(_, after) => after,
        LabelLayer::Case(_, after, _) => after,
        LabelLayer::Default(_, after) => after,
    }
}

/// The place of a label; a case or default label of a section has the one that is given.
fn label_place(section: Option<Anchor>, l: LabelLayer) -> Anchor
    ensures { (word : ℕ → List ℕ) → result ≡ steps.label_place section (label_form word l.entry) }
{
    match section {
        None => Anchor::Before(label_first(l)),
        Some(place) => match l {
            LabelLayer::Named(first, _) => Anchor::Before(first),
            LabelLayer::Case(_, _, _) => place,
            LabelLayer::Default(_, _) => place,
        },
    }
}

/// The place of a token that stands in a label, if this node is one.
pub fn place_in_label(
    words: &Words,
    section: Option<Anchor>,
    x: &SyntaxNode,
    token: u32,
) -> Option<Anchor>
    ensures { result ≡ steps.place_in_label section (label_of (words_of words.now) x.now) token }
{
    let l = label_layer(words, x)?;
    if token < label_after(l) {
        return Some(label_place(section, l));
    }
    None
}

/// Whether a case or default label is among these nodes.
#[tactic(auto, using(crate::proofs::Written::labelled))]
pub fn has_case(words: &Words, nodes: &[SyntaxNode]) -> bool
    ensures { result ≡ labels.has_case (labels_of (words_of words.now) nodes.now) }
{
    for x in nodes {
        if let Some(l) = label_layer(words, x) {
            if is_case(l) {
                return true;
            }
        }
    }
    false
}

/// The first token of the first label among these nodes, and 0 where there is none.
#[tactic(auto, using(crate::proofs::Written::labelled))]
pub fn first_label(words: &Words, nodes: &[SyntaxNode]) -> u32
    ensures { result ≡ items.first_label (labels_of (words_of words.now) nodes.now) }
{
    for x in nodes {
        if let Some(l) = label_layer(words, x) {
            return label_first(l);
        }
    }
    0
}

/// The place of the first label with a name among these nodes, and else that of a section.
#[tactic(auto, using(crate::proofs::Written::labelled))]
pub fn case_place(words: &Words, nodes: &[SyntaxNode], first: u32) -> Anchor
    ensures { result ≡ spec.case_place first (labels_of (words_of words.now) nodes.now) }
{
    for x in nodes {
        if let Some(LabelLayer::Named(at, _)) = label_layer(words, x) {
            return Anchor::Before(at);
        }
    }
    Anchor::AtSection(first)
}
