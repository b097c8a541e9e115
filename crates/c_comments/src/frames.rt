//! The lists that were entered, by the tokens that they hold, so that a comment goes on from where the last one
//! led.

ghost use Rattle.std.specs.Prelude.{◌≡◌, ◌<◌, ◌≤◌, ◌∷◌, [], ℕ, All, IfOk, IsTrue, List, OnOk, MatchOption};
ghost use Rattle.c_grammar.specs.Views.{words_of};
ghost use Rattle.c_statements.specs.declared.anchors.Anchor.{Anchor};
ghost use Rattle.c_comments.specs.Frames.{IsWalk, Speaks, holds as holds_at, holding};
ghost use Rattle.c_comments.specs.NodeViews.{tops_in};
ghost use Rattle.c_comments.specs.Notes.{place_in};
ghost use Rattle.c_comments.specs.Steps.{rest_place};

use crate::files::pass_tops;
use crate::lists::pass;
use crate::steps::{Rest, Step};
use c_grammar::{SyntaxNode, Words};
use c_statements::Anchor;
use c_types::{Memory, Stack};
use std::alloc::Global;

/// What is left of a list that was entered, which gives the places of the tokens from one up to another.
#[derive(Clone, Copy)]
pub struct Frame<'n> {
    rest: Rest<'n>,
    from: u32,
    to: u64,
}

/// A walk over a file: what is left of it, which gives the places of the tokens from one on, and the lists
/// that were entered.
#[derive(Drop)]
pub struct Walk<'n> {
    tops: &'n [SyntaxNode],
    from: u32,
    frames: Stack<Frame<'n>>,
}

impl<'n> Walk<'n> {
    /// A walk that begins in front of a file.
    pub fn new(alloc: Global, nodes: &'n [SyntaxNode]) -> Walk<'n>
        ensures { (word : ℕ → List ℕ) → IsWalk word (place_in (tops_in word nodes.now)) result }
    {
        Walk {
            tops: nodes,
            from: 0,
            frames: Stack::new(alloc),
        }
    }
}

/// Whether a frame gives the place of a token.
fn holds(frame: &Frame, token: u32) -> bool
    ensures { result ≡ holds_at token frame.now }
{
    frame.from <= token && (token as u64) < frame.to
}

/// Leaves the lists that give no place of a token, and takes off the one that does.
fn leave<'n>(frames: &mut Stack<Frame<'n>>, token: u32) -> Option<Frame<'n>>
    ensures { MatchOption result ((holding token frames.old ≡ []) × (frames.new ≡ [])) (λ frame. holding token frames.old ≡ frame ∷ frames.new) }
{
    while let Some(frame) = frames.pop() {
        if holds(&frame, token) {
            return Some(frame);
        }
    }
    None
}

/// The place of a token in a list that gives it, with the lists that are entered.
fn descend<'n>(
    words: &Words,
    frames: &mut Stack<Frame<'n>>,
    start: Frame<'n>,
    token: u32,
) -> Result<Anchor, Memory>
    requires { IsTrue (holds_at token start) }
    ensures place { IfOk result (λ place. place ≡ rest_place (words_of words.now) start.entry.rest token) }
    ensures frames { OnOk result ((place : ℕ → Anchor) → Speaks (words_of words.now) place start.entry → All (Speaks (words_of words.now) place) frames.old → All (Speaks (words_of words.now) place) frames.new) }
{
    let mut frame = start;
    loop {
        let passed = pass(words, frame.rest, token);
        frames.push(Frame {
            rest: passed.rest,
            from: token,
            to: frame.to,
        })?;
        match passed.step {
            Step::At(place) => return Ok(place),
            Step::Into(rest, bound) => {
                frame = Frame {
                    rest,
                    from: token,
                    to: bound.min(frame.to),
                };
            }
        }
    }
}

/// The place of a token that no list gives, from what stands at file scope.
fn place_from_tops<'n>(
    words: &Words,
    nodes: &'n [SyntaxNode],
    walk: &mut Walk<'n>,
    token: u32,
) -> Result<Anchor, Memory>
    requires { IsWalk (words_of words.now) (place_in (tops_in (words_of words.now) nodes.now)) walk.old }
    ensures place { IfOk result (λ place. place ≡ place_in (tops_in (words_of words.now) nodes.now) token) }
    ensures walk { OnOk result (IsWalk (words_of words.now) (place_in (tops_in (words_of words.now) nodes.now)) walk.new) }
{
    let tops = if walk.from <= token { walk.tops } else { nodes };
    let passed = pass_tops(words, tops, token);
    walk.tops = passed.tops;
    walk.from = token;
    match passed.step {
        Step::At(place) => Ok(place),
        Step::Into(rest, bound) => {
            let frame = Frame {
                rest,
                from: token,
                to: bound,
            };
            descend(words, &mut walk.frames, frame, token)
        }
    }
}

/// The place of a comment before a token in a file.
pub fn place<'n>(
    words: &Words,
    nodes: &'n [SyntaxNode],
    walk: &mut Walk<'n>,
    token: u32,
) -> Result<Anchor, Memory>
    requires { IsWalk (words_of words.now) (place_in (tops_in (words_of words.now) nodes.now)) walk.old }
    ensures place { IfOk result (λ place. place ≡ place_in (tops_in (words_of words.now) nodes.now) token) }
    ensures walk { OnOk result (IsWalk (words_of words.now) (place_in (tops_in (words_of words.now) nodes.now)) walk.new) }
{
    match leave(&mut walk.frames, token) {
        Some(frame) => descend(words, &mut walk.frames, frame, token),
        None => place_from_tops(words, nodes, walk, token),
    }
}
