use c_types::{ArithOp, Boxed, Bytes, IntKind, List, Name};

/// A C file whose names are resolved.
#[derive(Drop, PartialEq, Eq)]
pub struct Program {
    /// In the order of the file.
    pub tops: List<Top>,
}

/// What stands at file scope, in the order of the file (ISO/IEC 9899:2011, 6.9).
#[derive(Drop, PartialEq, Eq)]
pub enum Top {
    /// An `#include` line: its bytes from the `#` on.
    Include(Bytes),
    /// An enum without a tag: its constants, in order (6.7.2.2).
    Enum(List<EnumItem>),
    /// A variable of file scope (6.9.2).
    Global(GlobalVariable),
    /// A function or a prototype (6.9.1).
    Function(Function),
    /// A comment: its bytes.
    Note(Bytes),
}

/// One constant of an enum, with its written value, if it has one (6.7.2.2).
#[derive(Drop, PartialEq, Eq)]
pub struct EnumItem {
    pub name: Name,
    /// The constant expression after `=`, if there is one.
    pub given: Option<Expression>,
    /// Its value, which is an `int`.
    pub value: i128,
}

/// A variable of file scope, with its initialisers, if it has any.
#[derive(Drop, PartialEq, Eq)]
pub struct GlobalVariable {
    pub slot: Slot,
    /// One for a number; for an array one for each of its first cells. The others are 0.
    pub init: Option<List<Expression>>,
    /// Whether it is `static`.
    pub file_only: bool,
}

/// A variable: a number, or an array of `cells` numbers. An array parameter has `Some(0)` cells.
#[derive(Drop, PartialEq, Eq)]
pub struct Slot {
    pub name: Name,
    /// The kind of the number, or of each cell.
    pub kind: IntKind,
    /// How many cells an array has, from 1 to 65,536; `Some(0)` for an array parameter, `None` for a
    /// number.
    pub cells: Option<u32>,
    /// Whether it is `const`.
    pub constant: bool,
}

/// A function, or a prototype where it has no body (6.9.1).
#[derive(Drop, PartialEq, Eq)]
pub struct Function {
    pub name: Name,
    /// `None` where it is void.
    pub result: Option<IntKind>,
    /// Whether it is `static`.
    pub file_only: bool,
    /// The first so many slots are the parameters. A parameter without a name has the empty name.
    pub params: u32,
    /// The parameters and the variables, in text order of their declarations.
    pub slots: List<Slot>,
    /// The labels in text order. A label's number is its place in this list.
    pub labels: List<Name>,
    /// The items, or `None` for a prototype.
    pub body: Option<List<Item>>,
    /// Whether the variables are all declared at the top, so that no `Local` stands in the body.
    pub flat: bool,
}

/// The unary marks `+ - ! ~` (6.5.3.3).
#[derive(Clone, Copy, Debug, PartialEq, Eq)]
pub enum UnaryOp {
    /// `+`
    Plus,
    /// `-`
    Minus,
    /// `!`
    Not,
    /// `~`
    Flip,
}

/// The binary marks (6.5.5 to 6.5.14).
#[derive(Clone, Copy, Debug, PartialEq, Eq)]
pub enum BinaryOp {
    /// An arithmetic mark.
    Arith(ArithOp),
    /// `<`
    Less,
    /// `>`
    Greater,
    /// `<=`
    AtMost,
    /// `>=`
    AtLeast,
    /// `==`
    Equal,
    /// `!=`
    Unequal,
    /// `&&`
    AndThen,
    /// `||`
    OrElse,
}

/// What a name is bound to: a variable of the file, or a slot of the function.
#[derive(Drop, PartialEq, Eq)]
pub enum Home {
    /// A variable of the file, by its name.
    Global(Name),
    /// A slot of the function, by its place in the slots, from 0.
    Slot(u32),
}

/// An expression and its kind, which is `None` where it has no value (6.5).
#[cycle(expression)]
#[derive(Drop, PartialEq, Eq)]
pub struct Expression {
    /// The kind of its value; of a cast the kind that it converts to, `None` for a cast to void.
    pub kind: Option<IntKind>,
    /// Its form.
    pub node: Node,
}

/// What can be read and assigned: a number, or a cell of an array.
#[cycle(expression)]
#[derive(Drop, PartialEq, Eq)]
pub enum Place {
    /// A number.
    Var(Home),
    /// The cell of an array at an index, from 0 (6.5.2.1).
    Cell(Home, Boxed<Expression>),
}

/// The forms of expressions (6.5).
#[cycle(expression)]
#[derive(Drop, PartialEq, Eq)]
pub enum Node {
    /// An integer constant (6.4.4.1).
    Number(i128),
    /// A character constant: its byte.
    Character(u8),
    /// An enum constant and its value.
    EnumName(Name, i128),
    /// The format of `printf`: its bytes.
    Text(Bytes),
    /// An array handed to a parameter.
    Array(Home),
    /// The value that a place holds.
    Read(Place),
    Unary(UnaryOp, Boxed<Expression>),
    /// A conversion to the kind of the whole (6.5.4).
    Cast(Boxed<Expression>),
    Binary(BinaryOp, Boxed<Expression>, Boxed<Expression>),
    /// `a ? b : c` (6.5.15).
    Conditional(Boxed<Expression>, Boxed<Expression>, Boxed<Expression>),
    /// An assignment by `=` (6.5.16.1).
    Assign(Place, Boxed<Expression>),
    /// An assignment by `+=` and the like.
    Update(ArithOp, Place, Boxed<Expression>),
    /// `++` or `--`: whether it counts up, and whether it stands after its place.
    Count(Place, bool, bool),
    /// `a, b` (6.5.17).
    Comma(Boxed<Expression>, Boxed<Expression>),
    /// A call of the function of that name, with its arguments (6.5.2.2).
    Call(Name, List<Expression>),
}

/// The test of an `if` or a loop: an expression of the source, or one made from the guards of labels.
#[derive(Drop, PartialEq, Eq)]
pub enum Test {
    /// An expression of the source: whether it isn't 0.
    Source(Expression),
    /// Whether the guard is set.
    On(u32),
    /// Whether the guard is not set.
    Off(u32),
    /// Whether the guard is not set and the rest holds.
    AndOff(u32, Boxed<Test>),
    /// Whether the guard is set or the rest holds.
    OrOn(u32, Boxed<Test>),
}

/// The selector of a `switch`: an expression of the source, or a number where a guard is set.
#[derive(Drop, PartialEq, Eq)]
pub enum Selector {
    /// An expression of the source.
    Source(Expression),
    /// The number if the guard of the label is set, else the rest.
    Pick(u32, i128, Boxed<Selector>),
}

/// The statements of a `switch` from one group of case labels to the next (6.8.4.2).
#[cycle(item)]
#[derive(Drop, PartialEq, Eq)]
pub struct Section {
    /// The constants of its case labels.
    pub cases: List<Expression>,
    /// Whether it has the label `default`.
    pub default: bool,
    /// Its statements, without the `break` that ends it.
    pub list: List<Item>,
    /// Whether it ends with `break`, and doesn't fall through.
    pub ends: bool,
}

/// A statement or a declaration in a body, or what the rewriting puts there (6.8).
#[cycle(item)]
#[derive(Drop, PartialEq, Eq)]
pub enum Item {
    /// An expression statement.
    Evaluate(Expression),
    /// `return`, with its value, if it has one (6.8.6.4).
    Return(Option<Expression>),
    /// `if`, with its then-list and its else-list (6.8.4.1).
    If(Test, List<Item>, List<Item>),
    /// `while` (6.8.5.1).
    While(Test, List<Item>),
    /// `do` (6.8.5.2).
    Do(List<Item>, Test),
    /// `for` (6.8.5.3): the first part, the test, the third part and the body.
    For(List<Item>, Option<Boxed<Expression>>, Option<Boxed<Expression>>, List<Item>),
    /// `switch`, with its sections in order (6.8.4.2).
    Switch(Selector, List<Section>),
    /// A compound statement (6.8.2).
    Block(List<Item>),
    /// The declaration of a slot, with its initialisers, if it has any.
    Local(u32, Option<List<Expression>>),
    /// `break` (6.8.6.3), other than one that ends a section.
    Break,
    /// `continue` (6.8.6.2).
    Continue,
    /// `goto`, with the number of its label (6.8.6.1).
    Goto(u32),
    /// A label (6.8.1), before the item that follows.
    Mark(u32),
    /// Sets the guard of a label, or sets it to whether an expression isn't 0.
    Arm(u32, Option<Expression>),
    /// A jump to the label if its guard is set.
    Leap(u32),
    /// A label whose guard is reset there.
    Land(u32),
    /// A case label in a nested statement, with its constant, or a nested `default`.
    Arrival(Option<Expression>),
    /// A comment: its bytes.
    Note(Bytes),
}

/// Which list of an item: a loop's or a block's body, a list of an `if`, a section of a `switch`.
#[derive(Clone, Copy, Debug, PartialEq, Eq)]
pub enum Branch {
    /// The body of a loop or a block.
    Body,
    /// The then-list of an `if`.
    Then,
    /// Its else-list.
    Else,
    /// A section of a `switch`, from 0.
    Section(u32),
}

/// One step down a path: the place of an item in its list, and the list of that item.
#[derive(Clone, Copy, Debug, PartialEq, Eq)]
pub struct Step {
    /// The place of the item, from 0.
    pub item: u32,
    /// The list of the item.
    pub branch: Branch,
}

/// Where an item stands in a body: the steps to its list, and its place there, from 0.
#[derive(Drop, PartialEq, Eq)]
pub struct Path {
    /// The steps from the body to the list, the outermost first.
    pub steps: List<Step>,
    /// The place in that list, from 0.
    pub item: u32,
}
