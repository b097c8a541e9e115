//! The comments of a file, by their places.

ghost use Rattle.std.specs.Prelude.{◌≡◌, ◌≤◌, ◌+◌, [], All, drop, length, IfOk, OnOk};
ghost use Rattle.c_lexer.specs.Pieces.{IsWithin};
ghost use Rattle.c_grammar.specs.Views.{words_of};
ghost use Rattle.c_statements.specs.Context.{with_note};
ghost use Rattle.c_statements.specs.NoteViews as views;
ghost use Rattle.c_comments.specs.Frames.{IsWalk};
ghost use Rattle.c_comments.specs.NodeViews.{tops_in};
ghost use Rattle.c_comments.specs.Notes as spec;

use crate::frames::{Walk, place};
use c_grammar::{SyntaxNode, Words};
use c_lexer::{Span, Token};
use c_statements::Notes;
use c_types::Memory;
use std::alloc::Global;

/// How many tokens begin before an offset, of which so many are known to do.
#[tactic(auto, using(crate::proofs::NoteLists::tokens))]
fn next_token(tokens: &[Token], from: usize, start: u64) -> usize
    requires within { from ≤ length tokens.now }
    requires begun { spec.next_token tokens.now start ≡ from + spec.next_token (drop from tokens.now) start }
    ensures value { result ≡ spec.next_token tokens.now start }
    ensures within { result ≤ length tokens.now }
{
    let mut at = from;
    while at < tokens.len() && tokens[at].start < start {
        at += 1;
    }
    at
}

/// The tokens before an offset.
#[derive(Clone, Copy)]
struct Reached {
    start: u64,
    at: usize,
}

/// How many tokens begin before an offset, which is mostly behind one that was reached before.
#[tactic(auto, using(crate::proofs::NoteLists::later))]
fn reach(tokens: &[Token], reached: Reached, start: u64) -> Reached
    requires within { reached.at ≤ length tokens.now }
    requires at { reached.at ≡ spec.next_token tokens.now reached.start }
    ensures within { result.at ≤ length tokens.now }
    ensures start { result.start ≡ start }
    ensures at { result.at ≡ spec.next_token tokens.now start }
{
    let from = if reached.start <= start {
        reached.at
    } else {
        0
    };
    Reached {
        start,
        at: next_token(tokens, from, start),
    }
}

/// Puts a comment before a token behind those of its place. 2^32 tokens are refused as for want of
/// memory.
fn add_comment<'n, 'a>(
    alloc: Global,
    words: &Words<'a>,
    nodes: &'n [SyntaxNode],
    comment: Span,
    at: usize,
    walk: &mut Walk<'n>,
    notes: &mut Notes<'a>,
) -> Result<(), Memory>
    requires walk { IsWalk (words_of words.now) (spec.place_in (tops_in (words_of words.now) nodes.now)) walk.old }
    requires within { IsWithin words.now.text.now comment.start comment.end }
    ensures walk { OnOk result (IsWalk (words_of words.now) (spec.place_in (tops_in (words_of words.now) nodes.now)) walk.new) }
    ensures notes { OnOk result (views.notes_of notes.new ≡ with_note (spec.place_in (tops_in (words_of words.now) nodes.now) at) (spec.comment_bytes words.now.text.now comment) (views.notes_of notes.old)) }
{
    if at > 4294967295 {
        return Err(Memory);
    }
    let place = place(words, nodes, walk, at as u32)?;
    let bytes = &words.text[comment.start as usize..comment.end as usize];
    notes.push(alloc, place, bytes)
}

/// The comments of a file, by their places.
#[tactic(auto, using(crate::proofs::NoteLists::placing))]
pub fn place_notes<'a>(
    alloc: Global,
    words: &Words<'a>,
    nodes: &[SyntaxNode],
    comments: &[Span],
) -> Result<Notes<'a>, Memory>
    requires { All (λ comment. IsWithin words.now.text.now comment.start comment.end) comments.now }
    ensures { IfOk result (λ notes. views.notes_of notes ≡ spec.notes_of words.now.text.now words.now.tokens.now comments.now (tops_in (words_of words.now) nodes.now)) }
{
    let mut notes = Notes::new(alloc);
    let mut reached = Reached { start: 0, at: 0 };
    let mut walk = Walk::new(alloc, nodes);
    for comment in comments {
        let next = reach(words.tokens, reached, comment.start);
        reached = next;
        add_comment(
            alloc, words, nodes, *comment, next.at, &mut walk, &mut notes,
        )?;
    }
    Ok(notes)
}
