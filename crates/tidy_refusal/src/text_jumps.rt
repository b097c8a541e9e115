ghost use Rattle.std.specs.Prelude.{◌≡◌, ◌≤◌, All, length, IfOk, Ok};
ghost use Rattle.c_grammar.specs.TokenClasses.{offset_of as the_offset};
ghost use Rattle.c_lexer.specs.Pieces.{IsWithin};
ghost use Rattle.c_parser.specs.Answers.{parsed};
ghost use Rattle.tidy_refusal.specs.TextJumps as spec;

use crate::first_jump;
use c_grammar::{SyntaxNode, Words};
use c_lexer::{Scanned, Token, refusal_at, scan};
use c_parser::parse;
use c_types::{Memory, ReadStop, Refusal, reasons};
use std::alloc::Global;

/// The offset of a token by its number, and the text's length where there is no such token.
#[tactic(auto, using(c_scopes::proofs::Offsets::offsets))]
fn offset_of(text: &[u8], tokens: &[Token], at: u32) -> u64
    requires { All (λ token. IsWithin text.now token.start token.end) tokens.now }
    ensures value { result ≡ the_offset text.now tokens.now at }
    ensures within { result ≤ length text.now }
{
    if (at as usize) < tokens.len() {
        tokens[at as usize].start
    } else {
        text.len() as u64
    }
}

fn jump_refusal(text: &[u8], tokens: &[Token], syntax: &SyntaxNode) -> Option<Refusal>
    requires { All (λ token. IsWithin text.now token.start token.end) tokens.now }
    ensures { result ≡ spec.jump_refusal text.now tokens.now syntax.now }
{
    let words = Words { text, tokens };
    match first_jump(&words, syntax) {
        Some(at) => Some(refusal_at(reasons::JUMP_PRESENT, text, offset_of(text, tokens, at))),
        None => None,
    }
}

fn jump_of_tokens(alloc: Global, text: &[u8], scanned: &Scanned) -> Result<Option<Refusal>, Memory>
    requires { All (λ token. IsWithin text.now token.start token.end) scanned.now.tokens }
    ensures { IfOk result (λ it. it ≡ spec.jump_of_syntax text.now scanned.now.tokens (parsed text.now scanned.now.tokens)) }
{
    match parse(alloc, text, &scanned.tokens) {
        Ok(syntax) => Ok(jump_refusal(text, scanned.tokens.as_slice(), &syntax)),
        Err(ReadStop::Refused(_)) => Ok(None),
        Err(ReadStop::Memory) => Err(Memory),
    }
}

/// The refusal of a text for its first jump, with reason 60 at its token: a `goto`, or a case or default label that begins
/// no section of a switch. None where it has no jump or no syntax.
pub fn text_jump(alloc: Global, text: &[u8]) -> Result<Option<Refusal>, Memory>
    ensures { IfOk result (λ it. it ≡ spec.text_jump text.now) }
{
    match scan(alloc, text) {
        Ok(scanned) => jump_of_tokens(alloc, text, &scanned),
        Err(ReadStop::Refused(_)) => Ok(None),
        Err(ReadStop::Memory) => Err(Memory),
    }
}
