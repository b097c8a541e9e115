//! The whole list of tokens.

ghost use Rattle.std.specs.Prelude.{◌≡◌, ◌<◌, ◌≤◌, Some, None, All, MatchResult, length};
ghost use Rattle.c_types.specs.Stop.{Gives};
ghost use Rattle.c_lexer.specs.Faults.{refusal_of};
ghost use Rattle.c_types.specs.declared.refusal.ReadStop.TheVariants.{Refused as Stopped};
ghost use Rattle.c_lexer.specs.Pieces.{IsWithin};
ghost use Rattle.c_parser.specs.Answers as answers;
ghost use Rattle.c_parser.specs.Answers.{parsed};
ghost use Rattle.c_parse_step.specs.Machine as spec;
ghost use Rattle.c_parser.specs.Reads.{Reads};

use c_grammar::{Class, SyntaxNode, class_of};
use c_lexer::{Token, refusal_at};
use c_parse_step::{Entry, FrameStack, Load, Role, step};
use c_types::{List, MOST, ReadStop, reasons};
use std::alloc::Global;

/// The greatest level of nesting, and the most counted tokens of one full expression.
const LIMIT: u32 = 400;

fn is_deep(level: Option<u32>) -> bool
    ensures { result ≡ spec.is_deep level }
{
    match level {
        Some(level) => level > LIMIT,
        None => false,
    }
}

fn is_long(role: Role, count: u32) -> bool
    ensures { result ≡ spec.is_long role count }
{
    match role {
        Role::Counted => count >= LIMIT,
        Role::Uncounted | Role::Outside => false,
    }
}

/// The token opens a level or counts past the limit.
fn is_over(load: Load, count: u32) -> bool
    ensures { result ≡ spec.is_over load count }
{
    is_deep(load.opens) || is_long(load.role, count)
}

fn refused(reason: u32, text: &[u8], at: u64) -> ReadStop
    requires { at ≤ length text.now }
    ensures { result ≡ Stopped (refusal_of reason text.now at) }
{
    ReadStop::Refused(refusal_at(reason, text, at))
}

/// How many tokens count so far in the full expression that is open.
fn count_behind(role: Role, count: u32) -> u32
    requires { count < 4294967295 }
    ensures { result ≡ spec.count_behind role count }
{
    match role {
        Role::Counted => count + 1,
        Role::Uncounted => count,
        Role::Outside => 0,
    }
}

/// The file that the frames hold once all tokens are taken.
fn accepted(mut stack: FrameStack) -> Option<SyntaxNode>
    ensures { result ≡ answers.accepted stack }
{
    match stack.pop() {
        Some(entry) => match entry {
            Entry::Accepted(whole) => Some(whole),
            _ => {
                drop(entry);
                None
            }
        },
        None => None,
    }
}

/// Takes the tokens one by one, and then the end behind them.
fn run(alloc: Global, text: &[u8], tokens: &[Token]) -> Result<SyntaxNode, ReadStop>
    requires within { All (λ token. IsWithin text.now token.start token.end) tokens.now }
    requires bound { length tokens.now < 4294967295 }
    ensures { Gives (λ syntax. syntax) result (parsed text.now tokens.now) }
{
    let mut stack = FrameStack::new(alloc);
    stack.push(Entry::Tops(List::new(alloc)))?;
    let mut count: u32 = 0;
    for i in 0..tokens.len() {
        let class = class_of(text, tokens[i]);
        match step(alloc, &mut stack, class, i as u32)? {
            None => return Err(refused(reasons::UNEXPECTED_TOKEN, text, tokens[i].start)),
            Some(load) => {
                if is_over(load, count) {
                    return Err(refused(reasons::TOO_DEEP, text, tokens[i].start));
                }
                count = count_behind(load.role, count);
            }
        }
    }
    match step(alloc, &mut stack, Class::End, tokens.len() as u32)? {
        None => Err(refused(reasons::UNEXPECTED_TOKEN, text, text.len() as u64)),
        Some(load) => {
            if is_over(load, count) {
                return Err(refused(reasons::TOO_DEEP, text, text.len() as u64));
            }
            match accepted(stack) {
                Some(whole) => Ok(whole),
                None => Err(refused(reasons::UNEXPECTED_TOKEN, text, text.len() as u64)),
            }
        }
    }
}

/// The syntax of the tokens of a text (ISO/IEC 9899:2011, 6.5 to 6.9; docs/SUBSET.md), from which
/// the tree is built. Tokens that no file has are refused at their first fault: with reason 10 at
/// the token that fits nowhere, or at the end of the text where a token is missing there; with
/// reason 11 at the token that opens level 401 of nesting, or is counted token 401 of a full
/// expression. The tokens may be any slices of the text.
#[tactic(auto, using(crate::proofs::Reading::reads))]
pub fn parse(alloc: Global, text: &[u8], tokens: &List<Token>) -> Result<SyntaxNode, ReadStop>
    requires { All (λ token. IsWithin text.now token.start token.end) tokens.now }
    // What reading the tokens one by one gives, or want of memory.
    ensures read { Gives (λ syntax. syntax) result (parsed text.now tokens.now) }
    // What the grammar says of them.
    ensures derived { Reads text.now tokens.now result }
{
    if tokens.len() >= MOST {
        return Err(ReadStop::Memory);
    }
    run(alloc, text, tokens.as_slice())
}
