ghost use Rattle.std.specs.Prelude.{◌≡◌};
ghost use Rattle.std.specs.Str.{bytes_eq};
ghost use Rattle.c_lexer.specs.Pieces.{IsWithin};
ghost use Rattle.c_grammar.specs.TokenClasses as spec;

use crate::class::Class;
use c_lexer::{Mark, Token, TokenKind, mark_of};

/// Whether two words are the same. Most aren't, and differ in their first bytes, which costs less to see.
fn is_same(text: &[u8], word: &[u8]) -> bool
    ensures { result ≡ bytes_eq text.now word.now }
{
    match text.split_first() {
        None => word.is_empty(),
        Some((first, rest)) => match word.split_first() {
            None => false,
            Some((other, left)) => *first == *other && rest == left,
        },
    }
}

fn declaration_word(word: &[u8]) -> Class
    ensures { result ≡ spec.declaration_word word.now }
{
    if is_same(b"int", word) {
        Class::Int
    } else if is_same(b"char", word) {
        Class::Char
    } else if is_same(b"long", word) {
        Class::Long
    } else if is_same(b"signed", word) {
        Class::Signed
    } else if is_same(b"unsigned", word) {
        Class::Unsigned
    } else if is_same(b"void", word) {
        Class::Void
    } else if is_same(b"static", word) {
        Class::Static
    } else if is_same(b"const", word) {
        Class::Const
    } else if is_same(b"enum", word) {
        Class::Enum
    } else {
        Class::Foreign
    }
}

fn jump_word(word: &[u8]) -> Class
    ensures { result ≡ spec.jump_word word.now }
{
    if is_same(b"goto", word) {
        Class::Goto
    } else if is_same(b"return", word) {
        Class::Return
    } else if is_same(b"break", word) {
        Class::Break
    } else if is_same(b"continue", word) {
        Class::Continue
    } else {
        declaration_word(word)
    }
}

/// The class of a keyword, and `Foreign` for every other word.
pub fn keyword_class(word: &[u8]) -> Class
    ensures { result ≡ spec.keyword_class word.now }
{
    if is_same(b"if", word) {
        Class::If
    } else if is_same(b"else", word) {
        Class::Else
    } else if is_same(b"while", word) {
        Class::While
    } else if is_same(b"do", word) {
        Class::Do
    } else if is_same(b"for", word) {
        Class::For
    } else if is_same(b"switch", word) {
        Class::Switch
    } else if is_same(b"case", word) {
        Class::Case
    } else if is_same(b"default", word) {
        Class::Default
    } else {
        jump_word(word)
    }
}

fn class_of_mark(mark: Mark) -> Class
    ensures { result ≡ spec.class_of_mark mark }
{
    match mark {
        Mark::OpenBracket => Class::OpenIndex,
        Mark::CloseBracket => Class::CloseIndex,
        Mark::OpenParenthesis => Class::Open,
        Mark::CloseParenthesis => Class::Close,
        Mark::OpenBrace => Class::OpenBlock,
        Mark::CloseBrace => Class::CloseBlock,
        Mark::PlusPlus | Mark::MinusMinus => Class::Step,
        Mark::Plus | Mark::Minus => Class::Sign,
        Mark::Tilde | Mark::Exclamation => Class::Flip,
        Mark::Star | Mark::Slash | Mark::Percent => Class::Product,
        Mark::ShiftLeft | Mark::ShiftRight => Class::Shift,
        Mark::Less | Mark::Greater | Mark::LessEquals | Mark::GreaterEquals => Class::Order,
        Mark::EqualsEquals | Mark::ExclamationEquals => Class::Equality,
        Mark::Ampersand => Class::BitAnd,
        Mark::Caret => Class::BitXor,
        Mark::Bar => Class::BitOr,
        Mark::AmpersandAmpersand => Class::AndThen,
        Mark::BarBar => Class::OrElse,
        Mark::Question => Class::Question,
        Mark::Colon => Class::Colon,
        Mark::Semicolon => Class::Semicolon,
        Mark::Equals => Class::Equals,
        Mark::Comma => Class::Comma,
        Mark::Dot | Mark::Arrow | Mark::Ellipsis => Class::Foreign,
        _ => Class::Update,
    }
}

fn class_of_found(mark: Option<Mark>) -> Class
    ensures { result ≡ spec.class_of_found mark }
{
    match mark {
        Some(mark) => class_of_mark(mark),
        None => Class::Foreign,
    }
}

/// The class of a token of the text, by its kind and its bytes. Takes no memory.
pub fn class_of(text: &[u8], token: Token) -> Class
    requires { IsWithin text.now token.start token.end }
    ensures { result ≡ spec.class_of text.now token }
{
    let bytes = &text[token.start as usize..token.end as usize];
    match token.kind {
        TokenKind::Name => Class::Name,
        TokenKind::Keyword => keyword_class(bytes),
        TokenKind::Number => Class::Number,
        TokenKind::Char => Class::Character,
        TokenKind::Text => Class::Text,
        TokenKind::Mark => class_of_found(mark_of(bytes)),
        TokenKind::Directive => Class::Directive,
    }
}
