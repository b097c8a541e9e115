//! The kind that the words of a type name.

ghost use Rattle.std.specs.Prelude.{◌≡◌, map};
ghost use Rattle.std.specs.Str.{bytes_eq};
ghost use Rattle.std.specs.List.{list_any};
ghost use Rattle.c_grammar.specs.Parts as parts;
ghost use Rattle.c_grammar.specs.Views.{words_of};
ghost use Rattle.c_grammar.specs.Words as spec;
ghost use Rattle.c_grammar.specs.declared.syntax.Syntax.{out-Syntax};

use crate::words::Words;
use crate::{Production, SyntaxNode};
use c_types::IntKind;

fn is_same(word: &[u8], other: &[u8]) -> bool
    ensures { result ≡ bytes_eq word.now other.now }
{
    word == other
}

fn has_word(words: &Words, tokens: &[SyntaxNode], word: &[u8]) -> bool
    ensures { result ≡ list_any (λ x. bytes_eq (words_of words.now (out-Syntax x).first) word.now) tokens.now }
{
    tokens
        .iter()
        .any(|token| is_same(words.get(token.first()), word))
}

#[tactic(auto, using(crate::proofs::Layers::has_words))]
fn kind_by(words: &Words, tokens: &[SyntaxNode]) -> IntKind
    ensures { result ≡ spec.kind_of (words_of words.now) (map (λ x. (out-Syntax x).first) tokens.now) }
{
    let unsigned = has_word(words, tokens, b"unsigned");
    if has_word(words, tokens, b"char") {
        if unsigned {
            IntKind::UChar
        } else {
            IntKind::Char
        }
    } else if has_word(words, tokens, b"long") {
        if unsigned {
            IntKind::ULong
        } else {
            IntKind::Long
        }
    } else if unsigned {
        IntKind::UInt
    } else {
        IntKind::Int
    }
}

/// The kind of the number type that a node names.
pub fn kind_of(words: &Words, x: &SyntaxNode) -> IntKind
    ensures { result ≡ spec.kind_of (words_of words.now) (parts.part_of (words_of words.now) x.now).firsts }
{
    match x.rule() {
        Production::NumberType => kind_by(words, x.parts()),
        _ => kind_by(words, &[]),
    }
}
