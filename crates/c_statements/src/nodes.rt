ghost use Rattle.std.specs.Prelude.{◌≡◌, ◌≤◌, cond, max};
ghost use Rattle.c_grammar.specs.declared.syntax.Syntax.{out-Syntax};
ghost use Rattle.c_grammar.specs.Parts as parts;

use c_grammar::{Production, SyntaxNode};

/// Whether a node is one token.
pub fn is_token(x: &SyntaxNode) -> bool
    ensures { result ≡ parts.is_token (out-Syntax x.now).rule }
{
    matches!(x.rule(), Production::Token)
}

/// How many values are written by a node of a list of values and tokens.
pub fn value_count(x: &SyntaxNode) -> usize
    ensures value { result ≡ cond (parts.is_token (out-Syntax x.now).rule) 0 1 }
    ensures bound { result ≤ 1 }
{
    if is_token(x) { 0 } else { 1 }
}

/// The greater of two numbers.
pub fn greater(a: u64, b: u64) -> u64
    ensures { result ≡ max a b }
{
    if a < b { b } else { a }
}
