//! The resolved program of a text, or its first violation.

ghost use Rattle.std.specs.Prelude.{◌≡◌, [], All, IfOk, Ok};
ghost use Rattle.c_lexer.specs.Answers.{read_tokens};
ghost use Rattle.c_lexer.specs.Pieces.{IsWithin};
ghost use Rattle.c_grammar.specs.Parts.{file_of};
ghost use Rattle.c_grammar.specs.Views.{words_of};
ghost use Rattle.c_types.specs.Stop.{Gives};
ghost use Rattle.c_comments.specs.NodeViews.{tops_in};
ghost use Rattle.c_scopes.specs.FileViews as views;
ghost use Rattle.c_scopes.specs.Files.{file_faults, start, tops_of as the_tops};
ghost use Rattle.c_scopes.specs.Resolving as spec;

use crate::files::{FileContext, read_tops};
use crate::flat_counter::FlatCounter;
use crate::function_names::{FunctionNames, bodies_of};
use crate::functions::Outside;
use crate::violations::{least, refused};
use c_bodies::State;
use c_comments::place_notes;
use c_grammar::{SyntaxNode, Words, into_tops};
use c_kinds::{Fault, Known, Scopes};
use c_lexer::{Span, Token, comments};
use c_tree::{Program, Top};
use c_types::{List, Memory, ReadStop, Stack};
use std::alloc::Global;

/// What stands at file scope, and the violations, the last first.
#[derive(Drop)]
struct Read {
    tops: List<Top>,
    faults: Stack<Fault>,
}

/// The scopes at the beginning of a file.
fn start_scopes<'a>(alloc: Global) -> Result<Scopes<'a>, Memory>
    ensures { IfOk result (λ scopes. scopes ≡ start.scopes) }
{
    let mut scopes = Scopes::known(alloc)?;
    scopes.enter(alloc)?;
    Ok(scopes)
}

/// What the nodes of a file are, in a file with these comments and bodies.
fn read_nodes<'n, 'a, C: FlatCounter>(
    alloc: Global,
    counter: &C,
    file: &FileContext<'n, 'a>,
    nodes: List<SyntaxNode>,
) -> Result<Read, Memory>
    ensures tops { IfOk result (λ it. it.tops ≡ the_tops (views.file_of (C.flat counter.now) file.now) (tops_in (words_of file.now.outside.words) nodes) start) }
    ensures faults { IfOk result (λ it. it.faults ≡ file_faults (views.file_of (C.flat counter.now) file.now) (tops_in (words_of file.now.outside.words) nodes) start []) }
{
    let scopes = start_scopes(alloc)?;
    let mut state = State {
        known: Known {
            words: file.outside.words,
            scopes,
        },
        slots: List::new(alloc),
        cases: List::new(alloc),
        faults: Stack::new(alloc),
    };
    let mut before = FunctionNames::new(alloc);
    let tops = read_tops(alloc, counter, file, &mut state, &mut before, nodes)?;
    Ok(Read {
        tops,
        faults: state.faults,
    })
}

/// What a syntax of these tokens is, with these comments.
fn read_file<'a, C: FlatCounter>(
    alloc: Global,
    counter: &C,
    words: &Words<'a>,
    comments: &[Span],
    syntax: SyntaxNode,
) -> Result<Read, Memory>
    requires { All (λ comment. IsWithin words.now.text.now comment.start comment.end) comments.now }
    ensures tops { IfOk result (λ it. it.tops ≡ (spec.program_of (spec.file_at (C.flat counter.now) words.now.text.now words.now.tokens.now comments.now (file_of (words_of words.now) syntax)) (file_of (words_of words.now) syntax)).tops) }
    ensures faults { IfOk result (λ it. it.faults ≡ file_faults (spec.file_at (C.flat counter.now) words.now.text.now words.now.tokens.now comments.now (file_of (words_of words.now) syntax)) (file_of (words_of words.now) syntax) start []) }
{
    let nodes = into_tops(alloc, words, syntax);
    let whole = nodes.as_slice();
    let notes = place_notes(alloc, words, whole, comments)?;
    let bodies = bodies_of(alloc, words, whole)?;
    let outside = Outside {
        words: *words,
        notes: &notes,
    };
    let file = FileContext {
        outside,
        bodies: &bodies,
    };
    let read = read_nodes(alloc, counter, &file, nodes)?;
    Ok(read)
}

/// The program of a syntax of these tokens of a text, with these comments, or its first violation: the
/// one with the least place, then the least reason (docs/SUBSET.md). The syntax is given back on the way.
pub fn resolve_with<C: FlatCounter>(
    alloc: Global,
    counter: &C,
    text: &[u8],
    tokens: &[Token],
    comments: &[Span],
    syntax: SyntaxNode,
) -> Result<Program, ReadStop>
    requires tokens { All (λ token. IsWithin text.now token.start token.end) tokens.now }
    requires comments { All (λ comment. IsWithin text.now comment.start comment.end) comments.now }
    ensures { Gives (λ program. program) result (spec.resolved (C.flat counter.now) text.now tokens.now comments.now syntax) }
{
    let words = Words { text, tokens };
    let Read { tops, faults } = read_file(alloc, counter, &words, comments, syntax)?;
    match least(faults) {
        None => Ok(Program { tops }),
        Some(v) => Err(ReadStop::Refused(refused(&words, v))),
    }
}

/// The program of a syntax of the tokens of a text, or its first violation: the one with the least
/// place, then the least reason (docs/SUBSET.md). Where tokens are known with the comments,
/// `resolve_with` reads the text once less.
pub fn resolve<C: FlatCounter>(
    alloc: Global,
    counter: &C,
    text: &[u8],
    tokens: &List<Token>,
    syntax: SyntaxNode,
) -> Result<Program, ReadStop>
    requires read { read_tokens text.now ≡ Ok tokens.now }
    requires within { All (λ token. IsWithin text.now token.start token.end) tokens.now }
    ensures { Gives (λ program. program) result (spec.resolved (C.flat counter.now) text.now tokens.now (spec.comments_of text.now) syntax) }
{
    match comments(alloc, text) {
        Ok(comments) => resolve_with(
            alloc,
            counter,
            text,
            tokens.as_slice(),
            comments.as_slice(),
            syntax,
        ),
        // no refusal comes, since the tokens could be read
        Err(_) => Err(ReadStop::Memory),
    }
}
