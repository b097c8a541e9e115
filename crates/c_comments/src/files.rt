//! Where a token leads at file scope.

ghost use Rattle.std.specs.Prelude.{◌≡◌};
ghost use Rattle.c_grammar.specs.TopViews.{top_form, top_of};
ghost use Rattle.c_grammar.specs.declared.tops.TopLayer.TheVariants as layer;
ghost use Rattle.c_grammar.specs.Views.{words_of};
ghost use Rattle.c_comments.specs.NodeViews.{tops_in};
ghost use Rattle.c_comments.specs.Notes as spec;
ghost use Rattle.c_comments.specs.Steps.{Behind, Leads};

use crate::statements::layer_step;
use crate::steps::{Step, behind, bounded};
use c_grammar::{FunctionLayer, SyntaxNode, TopLayer, Words, block_layer, top_layer};
use c_statements::Anchor;

/// What stands at file scope from what holds a token on, and where the token leads.
#[derive(Clone, Copy)]
pub struct PassedTops<'n> {
    pub tops: &'n [SyntaxNode],
    pub step: Step<'n>,
}

fn function_step<'n>(words: &Words, first: u32, f: FunctionLayer<'n>, token: u32) -> Step<'n>
    ensures { Leads (words_of words.now) (spec.form_place first (top_form (words_of words.now) (layer.Defines f.entry))) token result }
{
    let before = Anchor::Before(first);
    match block_layer(words, f.body) {
        Some(body) => layer_step(words, before, body, token),
        None => Step::At(before),
    }
}

fn top_step<'n>(words: &Words, x: &'n SyntaxNode, token: u32) -> Step<'n>
    ensures { Leads (words_of words.now) (spec.top_place (top_of (words_of words.now) x.now)) token result }
{
    let first = x.first();
    let before = Anchor::Before(first);
    let top = top_layer(words, x);
    if token <= first {
        return Step::At(before);
    }
    match top {
        TopLayer::Defines(f) => function_step(words, first, f, token),
        TopLayer::Line => Step::At(before),
        TopLayer::Enum(_) => Step::At(before),
        TopLayer::Globals(_, _) => Step::At(before),
        TopLayer::Unread => Step::At(before),
    }
}

/// The token behind what stands at file scope.
#[tactic(auto, using(crate::proofs::Written::afters))]
fn top_after(words: &Words, x: &SyntaxNode) -> u32
    ensures { result ≡ spec.top_after (top_of (words_of words.now) x.now) }
{
    x.after()
}

/// Passes what stands at file scope in front of a token.
pub fn pass_tops<'n>(words: &Words, tops: &'n [SyntaxNode], token: u32) -> PassedTops<'n>
    ensures tops { Behind (spec.place_in (tops_in (words_of words.now) result.tops.now)) (spec.place_in (tops_in (words_of words.now) tops.now)) token }
    ensures leads { Leads (words_of words.now) (spec.place_in (tops_in (words_of words.now) tops.now)) token result.step }
{
    let mut i = 0;
    while i < tops.len() {
        let x = &tops[i];
        let after = top_after(words, x);
        if token < after {
            return PassedTops {
                tops: behind(tops, i),
                step: bounded(top_step(words, x, token), after as u64),
            };
        }
        i += 1;
    }
    PassedTops {
        tops: behind(tops, i),
        step: Step::At(Anchor::Last),
    }
}
