use crate::form::Form;
use c_grammar::SyntaxNode;
use c_types::List;

/// What was read: a target alone, or a whole node of the rule that was asked for.
#[derive(Drop)]
pub enum Found {
    Lone(SyntaxNode),
    Whole(SyntaxNode),
}

/// Of which rule a full expression is.
#[derive(Clone, Copy)]
pub enum Full {
    Expression,
    Assignment,
    Conditional,
}

/// What is awaited, as contracts tell it; the stack keeps it as entries. The first number of each is
/// that of the node's first token, the other one that of the token where its next part begins.
#[derive(Drop)]
pub enum Frame {
    WantUnary,
    WantTarget,
    WantArgument,
    /// Behind `(`.
    Opened(u32, SyntaxNode, u32),
    /// Behind `( void`.
    VoidSeen(u32, SyntaxNode, SyntaxNode),
    Named(u32, SyntaxNode),
    TargetNamed(u32, SyntaxNode),
    /// Behind the bracket of a call.
    Called(u32, SyntaxNode, SyntaxNode),
    Texts(u32, List<SyntaxNode>),
    /// What was read, whole, waits for the token behind it.
    Done(Found),
    Post(u32),
    Prefix(u32, SyntaxNode, u32),
    Stepped(u32, SyntaxNode),
    Enclosed(u32, SyntaxNode),
    CastType(u32, SyntaxNode),
    Cast(u32, List<SyntaxNode>, u32),
    Operand(u32),
    /// The operand on the left, its mark, and the mark's level.
    Join(u32, SyntaxNode, SyntaxNode, u32, u32),
    Choice(u32),
    ChoiceThen(u32, SyntaxNode, SyntaxNode, u32),
    ChoiceElse(u32, List<SyntaxNode>, u32),
    Assigns(u32),
    AssignsTo(u32, List<SyntaxNode>, u32),
    Commas(u32, u32, List<SyntaxNode>),
    Indexed(u32, List<SyntaxNode>, u32),
    Bracketed(u32, SyntaxNode, u32),
    ArgumentSeen(u32),
    Arguments(u32, List<SyntaxNode>),
    /// A full expression.
    Whole(Full, u32),
    /// What is left of a production.
    Rest(Form),
    /// Behind a name that begins a statement.
    LabelOrName(u32, SyntaxNode, Form),
    /// Behind `static` in front of a declaration or a function.
    External(u32, List<SyntaxNode>),
    /// In front of the name of a declaration or a function, which have these parts so far.
    TopType(u32, List<SyntaxNode>, u32),
    /// Behind that name.
    TopName(u32, List<SyntaxNode>, u32, SyntaxNode, u32, SyntaxNode),
    /// The file so far.
    Tops(List<SyntaxNode>),
    Accepted(SyntaxNode),
}
