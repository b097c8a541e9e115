use crate::mark::Mark;
use crate::token::{Span, Token};

/// What the last bytes are. Each `u64` that comes first is the place of the first of them.
#[derive(Clone, Copy)]
pub(crate) enum State {
    /// Behind a piece. The flag says that nothing but white space stands before on the line.
    Between(bool),
    InWord(u64),
    /// The flag says that the last byte is the letter of an exponent.
    InNumber(u64, bool),
    InMark(u64, Mark),
    /// Two dots, which are two marks unless a third follows.
    Dots(u64),
    CharOpened(u64),
    CharEscape(u64, Escape),
    /// A character constant that lacks its last quote alone.
    CharHeld(u64),
    InText(u64),
    TextEscape(u64, Escape),
    /// With the place where the directive ends, should only carriage returns follow on its line.
    InDirective(u64, u64),
    /// With whether a `/` would close the comment.
    InComment(u64, Closing),
    /// With the place where the comment ends, should only carriage returns follow on its line.
    InLine(u64, u64),
}

/// What stands before a byte in a comment `/*`, which a `/` may close.
#[derive(Clone, Copy)]
pub(crate) enum Closing {
    /// No `*` that a `/` could close the comment with.
    Open,
    /// A `*`.
    Starred,
    /// A `*`, continued line ends, possibly none, a `\` and white space without a newline.
    Continued,
    /// What `Continued` is, with a carriage return as its last byte, which may end the line as well.
    Returned,
    /// A `*` and continued line ends: with the lines joined, a `/` would close the comment.
    Joined,
}

/// An escape that has begun. Octal digits are kept as they stand.
#[derive(Clone, Copy)]
pub(crate) enum Escape {
    Backslash,
    OneOctal(u8),
    TwoOctal(u8, u8),
    HexadecimalStart,
    /// With its value so far.
    InHexadecimal(u8),
}

/// What a byte does to an escape.
#[derive(Clone, Copy)]
pub(crate) enum Progress {
    More(Escape),
    /// The byte is its last one.
    Whole,
    /// The byte before was its last one.
    Over,
    Wrong,
}

/// What a byte ended.
#[derive(Clone, Copy)]
pub(crate) enum Ended {
    Nothing,
    Token(Token),
    /// Two marks `.`.
    Dots(Token, Token),
    Comment(Span),
}

/// What a byte does to the state: the next one, with what was ended; or a reason and a place.
#[derive(Clone, Copy)]
pub(crate) enum Taken {
    Go(State, Ended),
    Fault(u32, u64),
}
