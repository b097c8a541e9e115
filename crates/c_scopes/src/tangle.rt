//! The numbers by which a function with jumps is too tangled.

ghost use Rattle.std.specs.Prelude.{◌≡◌, OnOk};
ghost use Rattle.c_grammar.specs.TopViews.{function_form};
ghost use Rattle.c_grammar.specs.Views.{words_of};
ghost use Rattle.c_statements.specs.Functions as functions;
ghost use Rattle.c_statements.specs.Measures as spec;
ghost use Rattle.c_scopes.specs.BlockViews.{block_form};

use crate::blocks::{Block, block_depth, block_longest};
use crate::counted::counts_in;
use c_grammar::{FunctionLayer, Words};
use c_kinds::{Fault, report_if};
use c_statements::Measures;
use c_types::{Memory, Stack};

/// The numbers of a function with a body, of which the flat form has so many gotos and labels. Its
/// nesting and its counted tokens count no further than 64 bits do.
pub fn measures_of(
    words: &Words,
    f: FunctionLayer,
    body: Block,
    jumps: u64,
    labels: u64,
) -> Measures
    ensures { result ≡ spec.within_bounds (functions.measures (words_of words.now) (function_form (words_of words.now) f.entry) (block_form (words_of words.now) body.entry) (jumps, labels)) }
{
    Measures {
        depth: block_depth(words, body),
        counted: counts_in(words, f.nodes).most,
        jumps,
        labels,
        longest: block_longest(words, body),
    }
}

/// Whether a function with these numbers is too tangled.
pub fn is_tangled(m: Measures) -> bool
    ensures { result ≡ spec.is_tangled m }
{
    if m.depth > 400 || m.jumps > 133 || m.counted > 400 || m.labels > 66 {
        return true;
    }
    m.depth + 3 * m.jumps > 400 || m.counted + 6 * m.labels > 400 || m.longest > 63
}
