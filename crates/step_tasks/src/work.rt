use c_tree::{BinaryOp, Expression, Home, Item, Place, Section, Selector, Test, UnaryOp};
use c_types::{IntKind, Name, Stack};
use step_memory::Value;

/// What is to be done with an item.
#[derive(Clone, Copy, PartialEq, Eq)]
pub enum Stage {
    Run,
    /// Takes whether the test of an `if` holds.
    Branch,
    /// Takes whether the test of a loop holds.
    Turn,
    /// Behind the body of a loop.
    Loop,
    /// The test of a `for`.
    Head,
    /// Takes the value of the selector of a `switch`.
    Enter,
}

/// What is to be done with an expression.
#[derive(Clone, Copy, PartialEq, Eq)]
pub enum Use {
    Compute,
    /// Take the first operand, where this is the second.
    And,
    Or,
    /// Takes the condition of this conditional expression.
    Decide,
}

/// One task of a call.
#[derive(Clone, Copy)]
pub enum Task<'a> {
    Of(Stage, &'a Item),
    With(Use, &'a Expression),
    /// The `break` that ends a section.
    EndSection,
    /// Behind a `switch`.
    Out,
    Ask(&'a Test),
    AskSelector(&'a Selector),
    /// Takes the value that decides the guard of the label.
    Arm(u32),
    Find(&'a Place),
    DropValue,
    Index(&'a Home),
    Load,
    Fetch,
    Unary(UnaryOp, Option<IntKind>),
    Binary(BinaryOp, Option<IntKind>, Option<IntKind>),
    Convert(IntKind),
    LeaveNothing,
    Judge,
    Store,
    Count(bool, bool),
    Call(&'a Name, u32),
    End(bool),
    Set(u32, u32, &'a [Expression]),
    Clear(u32, u32),
}

/// What a call has still to do: a task, or several of one kind.
#[derive(Clone, Copy)]
pub enum Work<'a> {
    One(Task<'a>),
    /// The items of a list.
    Items(&'a [Item]),
    /// The sections of a switch from one on, and what is behind it.
    Tail(&'a [Section]),
    /// The arguments of a call, in order.
    Arguments(&'a [Expression]),
}

/// The tasks of a call, the next one on top.
pub type Tasks<'a> = Stack<Work<'a>>;

/// The values pending in a call, the last on top.
pub type Values<'a> = Stack<Value<'a>>;
