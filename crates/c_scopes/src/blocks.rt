//! The bodies of functions, as they are written.

ghost use Rattle.std.specs.Prelude.{◌≡◌, ◌+◌, map, option_map, OnOk};
ghost use Rattle.c_grammar.specs.Parts.{part_of, block_in};
ghost use Rattle.c_grammar.specs.Views.{words_of};
ghost use Rattle.c_statements.specs.Labels.{body_labels};
ghost use Rattle.c_statements.specs.Measures as measures;
ghost use Rattle.c_scopes.specs.BlockViews.{block_form};

use c_grammar::{Production, SyntaxNode, Words};
use c_statements::{list_depth, list_labels, list_longest};
use c_types::{Memory, Stack};

/// A block, by its first token and the one behind it.
#[derive(Clone, Copy)]
pub struct Block<'a> {
    pub first: u32,
    pub after: u32,
    /// The items, among tokens.
    pub items: &'a [SyntaxNode],
}

/// The block that is a function's body, and none where a `;` stands in its place.
#[tactic(auto, using(c_grammar::proofs::FileScope::opened_tops))]
pub fn block_of<'a>(words: &Words, x: &'a SyntaxNode) -> Option<Block<'a>>
    ensures { block_in (part_of (words_of words.now) x.now) ≡ option_map (block_form (words_of words.now)) result }
{
    match x.rule() {
        Production::Block => Some(Block {
            first: x.first(),
            after: x.after(),
            items: x.parts(),
        }),
        _ => None,
    }
}

/// Puts the labels of a body, by the tokens of their names in text order, in front of others.
pub fn block_labels(words: &Words, b: Block, out: &mut Stack<u32>) -> Result<(), Memory>
    ensures { OnOk result (out.new ≡ body_labels (block_form (words_of words.now) b.entry) out.old) }
{
    list_labels(words, b.items, out)
}

/// How many lists are nested in a body, with itself.
pub fn block_depth(words: &Words, b: Block) -> u64
    ensures { result ≡ measures.bounded (measures.body_depth (block_form (words_of words.now) b.entry)) }
{
    let depth = list_depth(words, b.items);
    if depth < u64::MAX { depth + 1 } else { depth }
}

/// The bytes of the longest name of a label or a variable of a body.
pub fn block_longest(words: &Words, b: Block) -> u64
    ensures { result ≡ measures.body_longest (words_of words.now) (block_form (words_of words.now) b.entry) }
{
    list_longest(words, b.items)
}
