//! Reading: from a text to its resolved program, or its first fault.

ghost use Rattle.std.specs.Prelude.{◌≤◌, length, All, IfOk};
ghost use Rattle.c_lexer.specs.Answers.{scanning};
ghost use Rattle.c_lexer.specs.Pieces.{IsWithin};
ghost use Rattle.c_parser.specs.Answers.{parsed};
ghost use Rattle.c_types.specs.Stop.{Gives};
ghost use Rattle.c_scopes.specs.Reading as spec;

use crate::flat_counter::FlatCounter;
use crate::resolving::resolve_with;
use c_lexer::{Scanned, scan};
use c_parser::parse;
use c_tree::Program;
use c_types::ReadStop;
use std::alloc::Global;

/// The program of the tokens and comments of a text.
fn read_scanned<C: FlatCounter>(
    alloc: Global,
    counter: &C,
    text: &[u8],
    scanned: &Scanned,
) -> Result<Program, ReadStop>
    requires tokens { All (λ token. IsWithin text.now token.start token.end) scanned.now.tokens }
    requires comments { All (λ comment. IsWithin text.now comment.start comment.end) scanned.now.comments }
    ensures value { Gives (λ program. program) result (spec.of_syntax (C.flat counter.now) text.now scanned.now (parsed text.now scanned.now.tokens)) }
    ensures few { length scanned.now.tokens ≤ 4294967295 }
{
    // the bound of a list, which its length tells
    let _count = scanned.tokens.len();
    match parse(alloc, text, &scanned.tokens) {
        Ok(syntax) => resolve_with(
            alloc,
            counter,
            text,
            scanned.tokens.as_slice(),
            scanned.comments.as_slice(),
            syntax,
        ),
        Err(stop) => Err(stop),
    }
}

/// The resolved program of a text (ISO/IEC 9899:2011, 6.4 to 6.9; docs/SUBSET.md), where `counter` counts
/// the gotos and labels of the flat forms of its functions. A text outside of the subset is refused at
/// its first fault: the first lexical one, else the first token that fits nowhere or is nested too
/// deeply, else the violation with the least place, then the least reason. Else the only failure is want
/// of memory.
pub fn read<C: FlatCounter>(alloc: Global, counter: &C, text: &[u8]) -> Result<Program, ReadStop>
    ensures value { Gives (λ program. program) result (spec.reading (C.flat counter.now) text.now) }
    // A text with more tokens than a list holds is not read for want of memory.
    ensures few { IfOk result (λ _. IfOk (scanning text.now) (λ scanned. length scanned.tokens ≤ 4294967295)) }
{
    match scan(alloc, text) {
        Ok(scanned) => read_scanned(alloc, counter, text, &scanned),
        Err(stop) => Err(stop),
    }
}
