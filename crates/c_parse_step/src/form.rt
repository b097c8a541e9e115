use crate::frame::Full;
use c_grammar::{Class, Production, SyntaxNode};
use c_types::{List, Stack};

/// What may be left out of a production; a token that nothing else begins with leads it in.
#[derive(Clone, Copy)]
pub enum Lead {
    /// `const`
    Const,
    /// A name.
    Name,
    /// `int` behind `long`.
    Int,
    /// A length in brackets.
    Size,
    /// `=` and an initialiser.
    Value,
    /// `=` and the value of an enumerator.
    Constant,
    /// `else` and a statement.
    Else,
    /// A comma and one more declarator, again and again.
    Declarators,
    /// A comma and one more parameter, again and again.
    Parameters,
}

/// Of what a list is that may have a comma before its `}`.
#[derive(Clone, Copy)]
pub enum Member {
    Value,
    Enumerator,
}

/// What stands next in a production.
#[derive(Clone, Copy, Drop)]
pub enum Want {
    Token(Class),
    Type,
    /// What may follow `signed` and `unsigned`.
    Base,
    Full(Full),
    /// An expression, which may be left out, and this token.
    OptionalExpression(Class),
    /// A length, which may be left out, and `]`.
    Length,
    Optional(Lead),
    /// The further members of a list, up to its `}`.
    Tail(Member),
    /// The further members of a list behind a comma, up to its `}`.
    Next(Member),
    Declarator,
    Enumerator,
    Initialiser,
    Parameters,
    Parameter,
    /// The first part of a `for`.
    ForStart,
    /// `;` or a block.
    FunctionEnd,
    /// A statement that is the list of a construct.
    Body,
    /// The items of a block, and its `}`.
    Items,
    /// A statement without its first labels.
    Labelled,
}

/// A node that has begun: its rule and first token, the level of the list in which it stands, its
/// parts so far, and what is left.
#[derive(Drop)]
pub struct Form {
    pub rule: Production,
    pub first: u32,
    pub level: u32,
    pub parts: List<SyntaxNode>,
    pub todo: Stack<Want>,
}
