//! The tokens that count in the full expressions of a function.

ghost use Rattle.std.specs.Prelude.{◌≡◌, ◌+◌, ℕ, true, [], map, Some};
ghost use Rattle.c_grammar.specs.TokenClasses.{class_of_found};
ghost use Rattle.c_grammar.specs.declared.syntax.Production.TheVariants as p;
ghost use Rattle.c_grammar.specs.Shown.{innermost};
ghost use Rattle.c_grammar.specs.Counted as counted;
ghost use Rattle.c_grammar.specs.Parts.{part_of, greatest, sum_counted};
ghost use Rattle.c_grammar.specs.Views.{words_of};
ghost use Rattle.c_scopes.specs.FullAbove as spec;
ghost use Rattle.c_statements.specs.Measures.{bounded};

use c_grammar::{Opened, Production, SyntaxNode, Words, is_variable};
use c_lexer::{Mark, mark_of};
use c_statements::greater;

/// How many tokens of a node count, and the most that count in one full expression in it.
#[derive(Clone, Copy, Debug, PartialEq, Eq)]
pub struct Counts {
    pub counted: u64,
    pub most: u64,
}

fn is_counted(mark: Mark) -> bool
    ensures { result ≡ counted.is_counted (class_of_found (Some mark)) }
{
    match mark {
        Mark::CloseBracket
        | Mark::CloseParenthesis
        | Mark::OpenBrace
        | Mark::CloseBrace
        | Mark::Colon
        | Mark::Semicolon
        | Mark::Comma
        | Mark::Dot
        | Mark::Arrow
        | Mark::Ellipsis => false,
        _ => true,
    }
}

/// How many tokens count of one that is this word.
fn token_count(word: &[u8]) -> u64
    ensures { result ≡ counted.token_count (λ at. word.now) 0 }
{
    match mark_of(word) {
        Some(mark) => { if is_counted(mark) { 1 } else { 0 } }
        None => 0,
    }
}

fn total(a: u64, b: u64) -> u64
    ensures { (m n : ℕ) → a ≡ bounded m → b ≡ bounded n → result ≡ bounded (m + n) }
{
    if b <= u64::MAX - a { a + b } else { u64::MAX }
}

fn is_full(rule: Production) -> bool
    ensures { result ≡ counted.is_full rule }
{
    match rule {
        Production::Expression | Production::Assignment | Production::Conditional => true,
        _ => false,
    }
}

/// Whether a production of full expressions stands above the innermost of those that are kept as one.
fn is_full_above(top: Production, base: Production) -> bool
    ensures { result ≡ spec.is_full_above top base }
{
    match top {
        Production::Argument => !matches!(base, Production::Argument | Production::Assignment),
        Production::Expression => !matches!(base, Production::Expression),
        Production::Assignment => !matches!(base, Production::Assignment),
        Production::Conditional => !matches!(base, Production::Conditional),
        _ => false,
    }
}

/// How many tokens of a node count, by those of its parts.
fn own_count(words: &Words, rule: Production, first: u32, parts: usize, tokens: u64) -> u64
    ensures { (n : ℕ) → tokens ≡ bounded n → result ≡ bounded (counted.own_count (words_of words.now) rule first parts n) }
{
    match rule {
        Production::Token => token_count(words.get(first)),
        Production::Expression => total(tokens, (parts / 2) as u64),
        _ => tokens,
    }
}

/// The counts of a target that is a name.
#[tactic(auto, using(crate::proofs::Counting::names))]
fn name_counts(words: &Words, first: u32, after: u32) -> Counts
    ensures counted { result.counted ≡ bounded (part_of (words_of words.now) (innermost p.Target true first after [])).counted }
    ensures most { result.most ≡ bounded (part_of (words_of words.now) (innermost p.Target true first after [])).most }
{
    Counts {
        counted: token_count(words.get(first)),
        most: 0,
    }
}

/// The counts of the innermost node of those that are kept as one.
#[cycle(counts)]
#[tactic(auto, using(crate::proofs::Counting::opened))]
fn innermost_counts(words: &Words, node: Opened) -> Counts
    ensures counted { result.counted ≡ bounded (part_of (words_of words.now) (innermost node.entry.base node.entry.is_name node.entry.first node.entry.after node.entry.parts.now)).counted }
    ensures most { result.most ≡ bounded (part_of (words_of words.now) (innermost node.entry.base node.entry.is_name node.entry.first node.entry.after node.entry.parts.now)).most }
{
    if is_variable(node.base, node.is_name, node.parts) {
        return name_counts(words, node.first, node.after);
    }
    let within = counts_in(words, node.parts);
    let counted = own_count(
        words,
        node.base,
        node.first,
        node.parts.len(),
        within.counted,
    );
    let most = if is_full(node.base) {
        counted
    } else {
        within.most
    };
    Counts { counted, most }
}

/// The counts of a node.
#[cycle(counts)]
#[tactic(auto, using(crate::proofs::Counting::kept_as_one))]
pub fn counts_of(words: &Words, x: &SyntaxNode) -> Counts
    ensures counted { result.counted ≡ bounded (part_of (words_of words.now) x.now).counted }
    ensures most { result.most ≡ bounded (part_of (words_of words.now) x.now).most }
{
    let node = x.opened();
    let within = innermost_counts(words, node);
    if is_full_above(node.top, node.base) {
        return Counts {
            counted: within.counted,
            most: within.counted,
        };
    }
    within
}

/// The counts of some nodes: how many tokens count in all of them, and the most of one full
/// expression.
#[cycle(counts)]
#[tactic(auto, using(crate::proofs::Counting::next))]
pub fn counts_in(words: &Words, nodes: &[SyntaxNode]) -> Counts
    ensures counted { result.counted ≡ bounded (sum_counted (map (part_of (words_of words.now)) nodes.now)) }
    ensures most { result.most ≡ bounded (greatest (map (part_of (words_of words.now)) nodes.now)) }
{
    let mut counted = 0;
    let mut most = 0;
    let mut i = nodes.len();
    while i > 0 {
        i -= 1;
        let one = counts_of(words, &nodes[i]);
        counted = total(one.counted, counted);
        most = greater(one.most, most);
    }
    Counts { counted, most }
}
