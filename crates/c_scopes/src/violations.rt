//! The violation that is reported: the one with the least place, and there with the least reason.

ghost use Rattle.std.specs.Prelude.{◌≡◌, ◌≤◌, Some, length, All};
ghost use Rattle.c_grammar.specs.TokenClasses.{offset_of as the_offset};
ghost use Rattle.c_lexer.specs.Pieces.{IsWithin};
ghost use Rattle.c_scopes.specs.Resolving as spec;

use c_grammar::Words;
use c_kinds::Fault;
use c_lexer::{Token, refusal_at};
use c_types::{Refusal, Stack};

fn is_before(a: Fault, b: Fault) -> bool
    ensures { result ≡ spec.is_before a b }
{
    a.at < b.at || (a.at == b.at && a.reason < b.reason)
}

fn earlier(found: Option<Fault>, v: Fault) -> Fault
    ensures { result ≡ spec.earlier found v }
{
    match found {
        None => v,
        Some(found) => { if is_before(v, found) { v } else { found } }
    }
}

/// The first of the violations by their tokens, then by their reasons.
pub fn least(faults: Stack<Fault>) -> Option<Fault>
    ensures { result ≡ spec.least faults }
{
    let mut left = faults;
    let mut found = None;
    while let Some(v) = left.pop() {
        found = Some(earlier(found, v));
    }
    found
}

/// The offset of a token by its number, and the text's length where there is no such token.
#[tactic(auto, using(crate::proofs::Offsets::offsets))]
fn offset_of(words: &Words, at: u32) -> u64
    requires { All (λ token. IsWithin words.now.text.now token.start token.end) words.now.tokens.now }
    ensures value { result ≡ the_offset words.now.text.now words.now.tokens.now at }
    ensures within { result ≤ length words.now.text.now }
{
    if (at as usize) < words.tokens.len() {
        words.tokens[at as usize].start
    } else {
        words.text.len() as u64
    }
}

/// The refusal of a text for a violation.
pub fn refused(words: &Words, v: Fault) -> Refusal
    requires { All (λ token. IsWithin words.now.text.now token.start token.end) words.now.tokens.now }
    ensures { result ≡ spec.refused words.now.text.now words.now.tokens.now v }
{
    refusal_at(v.reason, words.text, offset_of(words, v.at))
}
