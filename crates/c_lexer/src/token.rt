use c_types::List;

/// What a token is (ISO/IEC 9899:2011, 6.4).
#[derive(Clone, Copy, Debug, PartialEq, Eq)]
pub enum TokenKind {
    /// An identifier that is no keyword (6.4.2).
    Name,
    /// One of the 44 keywords (6.4.1).
    Keyword,
    /// An integer constant that a kind holds (6.4.4.1).
    Number,
    /// A character constant of one character or escape (6.4.4.4).
    Char,
    /// A string literal (6.4.5).
    Text,
    /// A punctuator (6.4.6).
    Mark,
    /// A line `#include ..`, from its `#` on, without its newline and the carriage returns before
    /// that (6.10.2).
    Directive,
}

/// A token of a text, by the offsets of its first byte and of the byte behind it.
#[derive(Clone, Copy, Debug, PartialEq, Eq)]
pub struct Token {
    pub kind: TokenKind,
    pub start: u64,
    pub end: u64,
}

/// The place of a comment, by the offsets of its first byte and of the byte behind it. A comment
/// `//` has neither its newline nor the carriage returns before that.
#[derive(Clone, Copy, Debug, PartialEq, Eq)]
pub struct Span {
    pub start: u64,
    pub end: u64,
}

/// The tokens and the comments of a text, each in order.
#[derive(Debug, Drop)]
pub struct Scanned {
    pub tokens: List<Token>,
    pub comments: List<Span>,
}
