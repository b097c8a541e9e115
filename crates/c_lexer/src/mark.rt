ghost use Rattle.std.specs.Prelude.{◌≡◌};
ghost use Rattle.c_lexer.specs.Marks as marks;
ghost use Rattle.c_lexer.specs.MarkSteps as steps;

/// The marks (ISO/IEC 9899:2011, 6.4.6, without `#`, `##` and the digraphs).
#[derive(Clone, Copy, Debug, PartialEq, Eq)]
pub enum Mark {
    OpenBracket,
    CloseBracket,
    OpenParenthesis,
    CloseParenthesis,
    OpenBrace,
    CloseBrace,
    Dot,
    Arrow,
    PlusPlus,
    MinusMinus,
    Ampersand,
    Star,
    Plus,
    Minus,
    Tilde,
    Exclamation,
    Slash,
    Percent,
    ShiftLeft,
    ShiftRight,
    Less,
    Greater,
    LessEquals,
    GreaterEquals,
    EqualsEquals,
    ExclamationEquals,
    Caret,
    Bar,
    AmpersandAmpersand,
    BarBar,
    Question,
    Colon,
    Semicolon,
    Ellipsis,
    Equals,
    StarEquals,
    SlashEquals,
    PercentEquals,
    PlusEquals,
    MinusEquals,
    ShiftLeftEquals,
    ShiftRightEquals,
    AmpersandEquals,
    CaretEquals,
    BarEquals,
    Comma,
}

/// The mark that is this byte alone.
pub(crate) fn mark_at(byte: u8) -> Option<Mark>
    ensures { result ≡ steps.mark_at byte }
{
    match byte {
        b'[' => Some(Mark::OpenBracket),
        b']' => Some(Mark::CloseBracket),
        b'(' => Some(Mark::OpenParenthesis),
        b')' => Some(Mark::CloseParenthesis),
        b'{' => Some(Mark::OpenBrace),
        b'}' => Some(Mark::CloseBrace),
        b'.' => Some(Mark::Dot),
        b'&' => Some(Mark::Ampersand),
        b'*' => Some(Mark::Star),
        b'+' => Some(Mark::Plus),
        b'-' => Some(Mark::Minus),
        b'~' => Some(Mark::Tilde),
        b'!' => Some(Mark::Exclamation),
        b'/' => Some(Mark::Slash),
        b'%' => Some(Mark::Percent),
        b'<' => Some(Mark::Less),
        b'>' => Some(Mark::Greater),
        b'^' => Some(Mark::Caret),
        b'|' => Some(Mark::Bar),
        b'?' => Some(Mark::Question),
        b':' => Some(Mark::Colon),
        b';' => Some(Mark::Semicolon),
        b'=' => Some(Mark::Equals),
        b',' => Some(Mark::Comma),
        _ => None,
    }
}

/// The mark with this byte behind it.
pub(crate) fn longer(mark: Mark, byte: u8) -> Option<Mark>
    ensures { result ≡ steps.longer mark byte }
{
    match (mark, byte) {
        (Mark::Ampersand, b'&') => Some(Mark::AmpersandAmpersand),
        (Mark::Ampersand, b'=') => Some(Mark::AmpersandEquals),
        (Mark::Star, b'=') => Some(Mark::StarEquals),
        (Mark::Plus, b'+') => Some(Mark::PlusPlus),
        (Mark::Plus, b'=') => Some(Mark::PlusEquals),
        (Mark::Minus, b'>') => Some(Mark::Arrow),
        (Mark::Minus, b'-') => Some(Mark::MinusMinus),
        (Mark::Minus, b'=') => Some(Mark::MinusEquals),
        (Mark::Exclamation, b'=') => Some(Mark::ExclamationEquals),
        (Mark::Slash, b'=') => Some(Mark::SlashEquals),
        (Mark::Percent, b'=') => Some(Mark::PercentEquals),
        (Mark::ShiftLeft, b'=') => Some(Mark::ShiftLeftEquals),
        (Mark::ShiftRight, b'=') => Some(Mark::ShiftRightEquals),
        (Mark::Less, b'<') => Some(Mark::ShiftLeft),
        (Mark::Less, b'=') => Some(Mark::LessEquals),
        (Mark::Greater, b'>') => Some(Mark::ShiftRight),
        (Mark::Greater, b'=') => Some(Mark::GreaterEquals),
        (Mark::Caret, b'=') => Some(Mark::CaretEquals),
        (Mark::Bar, b'|') => Some(Mark::BarBar),
        (Mark::Bar, b'=') => Some(Mark::BarEquals),
        (Mark::Equals, b'=') => Some(Mark::EqualsEquals),
        _ => None,
    }
}

/// Whether the byte is a mark with which no byte goes on.
#[inline(always)]
pub(crate) fn is_whole_mark(byte: u8) -> bool
    ensures { result ≡ steps.is_whole_mark byte }
{
    match mark_at(byte) {
        Some(mark) => is_alone(mark),
        None => false,
    }
}

#[inline(always)]
fn is_alone(mark: Mark) -> bool
    ensures { result ≡ steps.is_alone mark }
{
    matches!(
        mark,
        Mark::OpenBracket
            | Mark::CloseBracket
            | Mark::OpenParenthesis
            | Mark::CloseParenthesis
            | Mark::OpenBrace
            | Mark::CloseBrace
            | Mark::Tilde
            | Mark::Question
            | Mark::Colon
            | Mark::Semicolon
            | Mark::Comma
    )
}

/// The mark that these bytes are, other than `...`. Takes no memory.
#[tactic(auto, using(crate::proofs::MarkTable::mark_is))]
pub fn mark_of(bytes: &[u8]) -> Option<Mark>
    ensures { result ≡ marks.mark_of bytes.now }
{
    grown_mark(bytes)
}

fn grown_mark(bytes: &[u8]) -> Option<Mark>
    ensures { result ≡ steps.grown_mark bytes.now }
{
    let (first, rest) = bytes.split_first()?;
    let mut mark = mark_at(*first)?;
    for byte in rest {
        mark = longer(mark, *byte)?;
    }
    Some(mark)
}
