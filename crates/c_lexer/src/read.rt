ghost use Rattle.std.specs.Prelude.{◌≡◌, ◌≤◌, ◌<◌, length, List, Ok, Err, All, IfOk, OnOk};
ghost use Rattle.c_types.specs.Stop.{Gives};
ghost use Rattle.c_types.specs.declared.refusal.Refusal.{Refusal};
ghost use Rattle.c_lexer.specs.Faults.{IsFirstFault};
ghost use Rattle.c_lexer.specs.Pieces.{Piece, Spells, scanned_of, tokens_of, comments_of, IsWithin};
ghost use Rattle.c_lexer.specs.Machine.{add_ended as the_add_ended, stays as the_stays, behind_stays, word_from};
ghost use Rattle.std.specs.List.{prefix_len};
ghost use Rattle.c_types.specs.Words.{is_word_byte};
ghost use Rattle.c_lexer.specs.Answers.{scanning, read_tokens, read_comments, IsReading};

use crate::place::refusal_at;
use crate::state::{Ended, State, Taken};
use crate::step::{begins_mark, begins_word, finish, mark, stays, step};
use crate::token::{Scanned, Span, Token};
use crate::word::word_kind;
use c_types::{List, Memory, ReadStop, is_word_byte};
use std::alloc::Global;

fn add_ended(out: &mut Scanned, ended: Ended) -> Result<(), Memory>
    ensures { OnOk result (out.new ≡ the_add_ended ended out.old) }
{
    match ended {
        Ended::Nothing => Ok(()),
        Ended::Token(token) => out.tokens.push(token),
        Ended::Dots(first, second) => {
            out.tokens.push(first)?;
            out.tokens.push(second)
        }
        Ended::Comment(comment) => out.comments.push(comment),
    }
}

fn count_word(bytes: &[u8]) -> usize
    ensures value { result ≡ prefix_len is_word_byte bytes.now }
    ensures bound { result ≤ length bytes.now }
{
    bytes.iter().take_while(|byte| is_word_byte(**byte)).count()
}

fn count_staying(state: State, bytes: &[u8]) -> usize
    ensures value { result ≡ prefix_len (the_stays state) bytes.now }
    ensures bound { result ≤ length bytes.now }
{
    bytes.iter().take_while(|byte| stays(state, **byte)).count()
}

/// The place behind this byte, which stays, and those behind it that stay.
fn behind_staying(text: &[u8], state: State, start: usize) -> usize
    requires { start < length text.now }
    ensures value { result ≡ behind_stays text.now state start }
    ensures order { start < result }
    ensures within { result ≤ length text.now }
{
    start + 1 + count_staying(state, &text[start + 1..])
}

/// The token of the word that begins at this place.
fn word_at(text: &[u8], start: usize) -> Token
    requires { start < length text.now }
    ensures value { result ≡ word_from text.now start }
    ensures within { result.end ≤ length text.now }
{
    let end = start + 1 + count_word(&text[start + 1..]);
    let kind = word_kind(&text[start..end]);
    Token {
        kind,
        start: start as u64,
        end: end as u64,
    }
}

fn scan_pieces(alloc: Global, text: &[u8]) -> Result<Scanned, ReadStop>
    ensures { Gives (λ scanned. scanned) result (scanning text.now) }
{
    let mut out = Scanned {
        tokens: List::new(alloc),
        comments: List::new(alloc),
    };
    let mut state = State::Between(true);
    let mut i = 0;
    while i < text.len() {
        if begins_word(state, text[i]) {
            let token = word_at(text, i);
            state = State::Between(false);
            i = token.end as usize;
            out.tokens.push(token)?;
        } else if stays(state, text[i]) {
            i = behind_staying(text, state, i);
        } else if begins_mark(state, text[i]) {
            let token = mark(i as u64, i as u64 + 1);
            state = State::Between(false);
            i += 1;
            out.tokens.push(token)?;
        } else {
            match step(text, state, text[i], i as u64) {
                Taken::Fault(reason, place) => {
                    return Err(ReadStop::Refused(refusal_at(reason, text, place)));
                }
                Taken::Go(next, ended) => {
                    state = next;
                    add_ended(&mut out, ended)?;
                    i += 1;
                }
            }
        }
    }
    match finish(text, state, text.len() as u64) {
        Taken::Fault(reason, place) => Err(ReadStop::Refused(refusal_at(reason, text, place))),
        Taken::Go(_, ended) => {
            add_ended(&mut out, ended)?;
            Ok(out)
        }
    }
}

/// The tokens and the comments of a text in order (ISO/IEC 9899:2011, 6.4; docs/SUBSET.md); the text of
/// each is its slice. A text that is no list of pieces is refused at its first lexical fault: the first
/// byte at which no piece begins, or the byte at which the comment `//` or the directive that begins there
/// breaks off, with reason 2 to 6.
pub fn scan(alloc: Global, text: &[u8]) -> Result<Scanned, ReadStop>
    // What reading gives, or want of memory; each token and each comment has a byte at least.
    ensures read { Gives (λ scanned. scanned) result (scanning text.now) }
    ensures tokens_within { IfOk result (λ scanned. All (λ token. IsWithin text.now token.start token.end) scanned.tokens) }
    ensures comments_within { IfOk result (λ scanned. All (λ comment. IsWithin text.now comment.start comment.end) scanned.comments) }

    // What reading gives are the tokens and comments of the pieces that are the text, or its first fault.
    ensures pieces { IsReading scanned_of text.now (scanning text.now) }
    ensures read_back { (pieces : List Piece) → Spells pieces text.now → scanning text.now ≡ Ok (scanned_of pieces) }
    ensures fault_back { (fault : Refusal) → IsFirstFault text.now fault → scanning text.now ≡ Err fault }
{
    scan_pieces(alloc, text)
}

/// The tokens of a text in order, as `scan` finds them, or its refusal.
pub fn tokens(alloc: Global, text: &[u8]) -> Result<List<Token>, ReadStop>
    ensures read { Gives (λ tokens. tokens) result (read_tokens text.now) }
    ensures within { IfOk result (λ tokens. All (λ token. IsWithin text.now token.start token.end) tokens) }
    ensures pieces { IsReading tokens_of text.now (read_tokens text.now) }
    ensures read_back { (pieces : List Piece) → Spells pieces text.now → read_tokens text.now ≡ Ok (tokens_of pieces) }
    ensures fault_back { (fault : Refusal) → IsFirstFault text.now fault → read_tokens text.now ≡ Err fault }
{
    let scanned = scan(alloc, text)?;
    Ok(scanned.tokens)
}

/// The comments of a text in order (ISO/IEC 9899:2011, 6.4.9), as `scan` finds them, or its refusal.
pub fn comments(alloc: Global, text: &[u8]) -> Result<List<Span>, ReadStop>
    ensures read { Gives (λ comments. comments) result (read_comments text.now) }
    ensures within { IfOk result (λ comments. All (λ comment. IsWithin text.now comment.start comment.end) comments) }
    ensures pieces { IsReading comments_of text.now (read_comments text.now) }
    ensures read_back { (pieces : List Piece) → Spells pieces text.now → read_comments text.now ≡ Ok (comments_of pieces) }
    ensures fault_back { (fault : Refusal) → IsFirstFault text.now fault → read_comments text.now ≡ Err fault }
{
    let scanned = scan(alloc, text)?;
    Ok(scanned.comments)
}
