//! What the stack keeps.

use crate::form::{Form, Want};
use crate::frame::{Found, Full};
use c_grammar::{Production, SyntaxNode};
use c_types::{Boxed, List, Stack};

/// What the stack keeps as one: a frame, or frames that were put there together (`shown` in specs/Shown says which). A
/// token that a frame holds is told by its number and by that of the token behind it.
#[derive(Drop)]
pub enum Entry {
    WantUnary,
    /// An operand is awaited that is the whole of a binary expression's operand.
    WantOperand(u32),
    WantTarget,
    WantArgument,
    Opened(u32, u32),
    VoidSeen(u32, u32, u32, u32),
    Named(u32, u32),
    /// A name that is an operand, and where the operand begins.
    NamedOperand(u32, u32, u32),
    TargetNamed(u32, u32),
    Called(u32, u32, u32, u32),
    Texts(u32, List<SyntaxNode>),
    Done(Found),
    /// A constant that is an operand, and where the operand begins.
    ConstantOperand(u32, u32, u32),
    Post(u32),
    Prefix(u32, u32),
    Stepped(u32, u32),
    Enclosed(u32, u32),
    CastType(u32, u32),
    Cast(u32, u32, List<SyntaxNode>),
    Operand(u32),
    Join(u32, u32, u32, u32, SyntaxNode),
    /// What stands behind the first operand of an expression of this rule.
    Begun(Full, u32),
    ChoiceThen(u32, u32, u32, SyntaxNode),
    ChoiceElse(u32, u32, List<SyntaxNode>),
    Assigns(u32),
    AssignsTo(u32, u32, List<SyntaxNode>),
    Commas(u32, u32, List<SyntaxNode>),
    Indexed(u32, u32, List<SyntaxNode>),
    Bracketed(u32, u32),
    ArgumentSeen(u32),
    Arguments(u32, List<SyntaxNode>),
    Whole(Full, u32),
    /// The parts of a form, beside each other.
    Rest(Production, u32, u32, List<SyntaxNode>, Stack<Want>),
    /// A block and its items so far.
    Block(u32, u32, List<SyntaxNode>),
    /// A statement of which nothing is read.
    Statement(u32, u32),
    /// An expression that is a statement.
    Sentence(u32, u32),
    /// A name with which a statement begins.
    StatementName(u32, u32, u32),
    LabelOrName(u32, u32, Boxed<Form>),
    External(u32, List<SyntaxNode>),
    TopType(u32, u32, List<SyntaxNode>),
    TopName(u32, u32, u32, u32, List<SyntaxNode>, Boxed<SyntaxNode>),
    Tops(List<SyntaxNode>),
    Accepted(SyntaxNode),
}
