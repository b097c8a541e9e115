/// What the grammar tells apart in a token, and the end of the text, which counts as a last token.
#[derive(Clone, Copy, Debug, PartialEq, Eq)]
pub enum Class {
    /// A name that is no keyword.
    Name,
    Number,
    Character,
    Text,
    /// `(`
    Open,
    /// `)`
    Close,
    /// `[`
    OpenIndex,
    /// `]`
    CloseIndex,
    /// `{`
    OpenBlock,
    /// `}`
    CloseBlock,
    Comma,
    Semicolon,
    Colon,
    Question,
    /// `=`
    Equals,
    /// An assignment mark other than `=`.
    Update,
    /// `++` or `--`
    Step,
    /// `+` or `-`
    Sign,
    /// `!` or `~`
    Flip,
    /// `||`
    OrElse,
    /// `&&`
    AndThen,
    /// `|`
    BitOr,
    /// `^`
    BitXor,
    /// `&`
    BitAnd,
    /// `==` or `!=`
    Equality,
    /// `<`, `>`, `<=` or `>=`
    Order,
    /// `<<` or `>>`
    Shift,
    /// `*`, `/` or `%`
    Product,
    Char,
    Int,
    Long,
    Signed,
    Unsigned,
    Void,
    Static,
    Const,
    Enum,
    If,
    Else,
    While,
    Do,
    For,
    Switch,
    Case,
    Default,
    Goto,
    Break,
    Continue,
    Return,
    Directive,
    /// A token that no production has: another keyword, or `.`, `->` or `...`.
    Foreign,
    /// The end of the text.
    End,
}
