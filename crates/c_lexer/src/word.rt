ghost use Rattle.std.specs.Prelude.{◌≡◌, ◌&&◌, not, cond};
ghost use Rattle.std.specs.Str.{bytes_eq};
ghost use Rattle.c_lexer.specs.Keywords as keywords;
ghost use Rattle.c_types.specs.Words as words;
ghost use Rattle.c_lexer.specs.Pieces as pieces;

use crate::token::TokenKind;
use c_types::{is_keyword, is_word};

/// Whether the bytes are a name and no keyword: a letter or `_`, then letters, digits and `_`
/// (ISO/IEC 9899:2011, 6.4.1 and 6.4.2).
pub fn is_name(bytes: &[u8]) -> bool
    ensures { result ≡ (words.is_word bytes.now && not (words.is_keyword bytes.now)) }
{
    is_word(bytes) && !is_keyword(bytes)
}

/// The kind of a word.
pub(crate) fn word_kind(word: &[u8]) -> TokenKind
    ensures { result ≡ pieces.word_kind word.now }
{
    if is_reserved(word) {
        TokenKind::Keyword
    } else {
        TokenKind::Name
    }
}

fn is_same(word: &[u8], keyword: &[u8]) -> bool
    ensures { result ≡ bytes_eq keyword.now word.now }
{
    keyword == word
}

/// Whether a word that begins with this byte is a keyword. Those that begin with another aren't looked at.
fn is_early(first: u8, word: &[u8]) -> bool
    ensures { result ≡ keywords.is_early first word.now }
{
    if first == b'a' {
        is_same(word, b"auto")
    } else if first == b'b' {
        is_same(word, b"break")
    } else if first == b'c' {
        is_same(word, b"case")
            || (is_same(word, b"char") || (is_same(word, b"const") || is_same(word, b"continue")))
    } else if first == b'd' {
        is_same(word, b"default") || (is_same(word, b"do") || is_same(word, b"double"))
    } else if first == b'e' {
        is_same(word, b"else") || (is_same(word, b"enum") || is_same(word, b"extern"))
    } else if first == b'f' {
        is_same(word, b"float") || is_same(word, b"for")
    } else if first == b'g' {
        is_same(word, b"goto")
    } else if first == b'i' {
        is_same(word, b"if") || (is_same(word, b"inline") || is_same(word, b"int"))
    } else {
        is_late(first, word)
    }
}

fn is_late(first: u8, word: &[u8]) -> bool
    ensures { result ≡ keywords.is_late first word.now }
{
    if first == b'l' {
        is_same(word, b"long")
    } else if first == b'r' {
        is_same(word, b"register") || (is_same(word, b"restrict") || is_same(word, b"return"))
    } else if first == b's' {
        is_same(word, b"short")
            || (is_same(word, b"signed")
                || (is_same(word, b"sizeof")
                    || (is_same(word, b"static")
                        || (is_same(word, b"struct") || is_same(word, b"switch")))))
    } else if first == b't' {
        is_same(word, b"typedef")
    } else if first == b'u' {
        is_same(word, b"union") || is_same(word, b"unsigned")
    } else if first == b'v' {
        is_same(word, b"void") || is_same(word, b"volatile")
    } else if first == b'w' {
        is_same(word, b"while")
    } else {
        first == b'_' && is_marked(word)
    }
}

fn is_marked(word: &[u8]) -> bool
    ensures { result ≡ keywords.is_marked word.now }
{
    is_same(word, b"_Alignas")
        || (is_same(word, b"_Alignof")
            || (is_same(word, b"_Atomic")
                || (is_same(word, b"_Bool")
                    || (is_same(word, b"_Complex")
                        || (is_same(word, b"_Generic")
                            || (is_same(word, b"_Imaginary")
                                || (is_same(word, b"_Noreturn")
                                    || (is_same(word, b"_Static_assert")
                                        || is_same(word, b"_Thread_local")))))))))
}

fn is_reserved(word: &[u8]) -> bool
    ensures { result ≡ words.is_keyword word.now }
{
    match word.first() {
        None => false,
        Some(first) => is_early(*first, word),
    }
}
