use c_types::List;

/// The productions of the grammar, and its tokens (ISO/IEC 9899:2011, 6.5 to 6.9, without what this
/// profile leaves out).
#[derive(Clone, Copy, Debug, PartialEq, Eq)]
pub enum Production {
    Token,
    File,
    Enum,
    Enumerator,
    NumberType,
    Declaration,
    Local,
    Declarator,
    Initialiser,
    Function,
    Params,
    Param,
    Block,
    Statement,
    Label,
    Plain,
    Expression,
    Assignment,
    Conditional,
    Binary,
    Unary,
    Postfix,
    Target,
    Argument,
}

/// A node of a derivation: its production, the number of its first token, that of the token behind
/// its last, and the tokens and nodes of the production in order. A node without tokens has the
/// number of the token that follows in both places. A token has no parts.
#[derive(Debug, Drop)]
pub struct Syntax {
    pub rule: Production,
    pub first: u32,
    pub after: u32,
    pub parts: List<Syntax>,
}
