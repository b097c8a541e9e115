ghost use Rattle.std.specs.Prelude.{◌≡◌, ◌≤ℤ◌, Some, negsuc, option_map, IfOk};
ghost use Rattle.c_types.specs.Numbers.{least as the_least};
ghost use Rattle.c_tree.specs.ExpressionTrees.{Typed, Number, Unary, expression_tree};
ghost use Rattle.c_tree.specs.Numerals.{constant as the_constant, least_constant as the_least_constant};
ghost use Rattle.c_tree.specs.TestTrees.{Source, test_tree};
ghost use Rattle.c_tree.specs.Trees.{Evaluate, If, Goto, Nil};
ghost use Rattle.c_tree.specs.Changed.{one};
ghost use Rattle.flat_laws.specs.Pieces.{assign_number, assign_cell, is_number, test_or_one, zero_tree};
ghost use Rattle.c_tree.specs.Views.{tree_at};

use c_copies::copy_expression;
use c_tree::{BinaryOp, Expression, Home, Item, Node, Place, Test, UnaryOp};
use c_types::{ArithOp, Boxed, IntKind, List, Memory};
use std::alloc::Global;

fn number(alloc: Global, kind: IntKind, value: i128) -> Result<Boxed<Expression>, Memory>
    ensures { IfOk result (λ it. expression_tree it ≡ Typed (Some kind) (Number value)) }
{
    Boxed::new(
        alloc,
        Expression {
            kind: Some(kind),
            node: Node::Number(value),
        },
    )
}

fn negated(alloc: Global, kind: IntKind, value: i128) -> Result<Boxed<Expression>, Memory>
    ensures { IfOk result (λ it. expression_tree it ≡ Typed (Some kind) (Unary UnaryOp.Minus (Typed (Some kind) (Number value)))) }
{
    let number = number(alloc, kind, value)?;
    Boxed::new(
        alloc,
        Expression {
            kind: Some(kind),
            node: Node::Unary(UnaryOp::Minus, number),
        },
    )
}

fn least(kind: IntKind) -> i128
    ensures value { result ≡ the_least kind }
    ensures bound { negsuc 9223372036854775807 ≤ℤ result }
{
    match kind {
        IntKind::Char => -128,
        IntKind::UChar => 0,
        IntKind::Int => -2147483648,
        IntKind::UInt => 0,
        IntKind::Long => -9223372036854775808,
        IntKind::ULong => 0,
    }
}

fn least_constant(alloc: Global, kind: IntKind) -> Result<Boxed<Expression>, Memory>
    ensures { IfOk result (λ it. expression_tree it ≡ the_least_constant kind) }
{
    let greatest = negated(alloc, kind, kind.greatest())?;
    let one = number(alloc, kind, 1)?;
    Boxed::new(
        alloc,
        Expression {
            kind: Some(kind),
            node: Node::Binary(BinaryOp::Arith(ArithOp::Sub), greatest, one),
        },
    )
}

/// A number of the kind as a constant expression of it: `n`, `-n`, or `-max - 1` for the least.
fn constant(alloc: Global, kind: IntKind, n: i128) -> Result<Boxed<Expression>, Memory>
    ensures { IfOk result (λ it. expression_tree it ≡ the_constant kind n) }
{
    if n >= 0 {
        number(alloc, kind, n)
    } else if n <= least(kind) {
        least_constant(alloc, kind)
    } else {
        negated(alloc, kind, -n)
    }
}

/// `x = e;` of a variable that is a number of the kind.
pub fn assignment(alloc: Global, kind: IntKind, slot: u32, e: Expression) -> Result<Item, Memory>
    ensures { IfOk result (λ it. tree_at it ≡ Evaluate (assign_number kind slot (expression_tree e))) }
{
    let value = Boxed::new(alloc, e)?;
    Ok(Item::Evaluate(Expression {
        kind: Some(kind),
        node: Node::Assign(Place::Var(Home::Slot(slot)), value),
    }))
}

fn cell(
    alloc: Global,
    kind: IntKind,
    slot: u32,
    at: usize,
    value: Boxed<Expression>,
) -> Result<Item, Memory>
    ensures { IfOk result (λ it. tree_at it ≡ Evaluate (assign_cell kind slot at (expression_tree value))) }
{
    let at = number(alloc, IntKind::Int, at as i128)?;
    Ok(Item::Evaluate(Expression {
        kind: Some(kind),
        node: Node::Assign(Place::Cell(Home::Slot(slot), at), value),
    }))
}

/// `x[at] = e;` of an array of the kind.
pub fn cell_assignment(
    alloc: Global,
    kind: IntKind,
    slot: u32,
    at: usize,
    e: Expression,
) -> Result<Item, Memory>
    ensures { IfOk result (λ it. tree_at it ≡ Evaluate (assign_cell kind slot at (expression_tree e))) }
{
    let value = Boxed::new(alloc, e)?;
    cell(alloc, kind, slot, at, value)
}

/// `x[at] = 0;` of an array of the kind.
pub fn cell_cleared(alloc: Global, kind: IntKind, slot: u32, at: usize) -> Result<Item, Memory>
    ensures { IfOk result (λ it. tree_at it ≡ Evaluate (assign_cell kind slot at zero_tree)) }
{
    let value = number(alloc, IntKind::Int, 0)?;
    cell(alloc, kind, slot, at, value)
}

/// `if (test) goto label;`
pub fn jump(alloc: Global, test: Test, label: u32) -> Result<Item, Memory>
    ensures { IfOk result (λ it. tree_at it ≡ If (test_tree test) (one (Goto label)) Nil) }
{
    let mut gotos = List::new(alloc);
    match gotos.push(Item::Goto(label)) {
        Ok(()) => Ok(Item::If(test, gotos, List::new(alloc))),
        Err(e) => {
            drop(test);
            Err(e)
        }
    }
}

/// `if (v == n) goto label;` of a variable of the kind.
pub fn case_test(
    alloc: Global,
    kind: IntKind,
    variable: u32,
    n: i128,
    label: u32,
) -> Result<Item, Memory>
    ensures { IfOk result (λ it. tree_at it ≡ If (Source (is_number kind variable (the_constant kind n))) (one (Goto label)) Nil) }
{
    let number = constant(alloc, kind, n)?;
    let read = Boxed::new(
        alloc,
        Expression {
            kind: Some(kind),
            node: Node::Read(Place::Var(Home::Slot(variable))),
        },
    )?;
    let test = Expression {
        kind: Some(IntKind::Int),
        node: Node::Binary(BinaryOp::Equal, read, number),
    };
    jump(alloc, Test::Source(test), label)
}

/// The test of a `for`, 1 where it has none.
pub fn test_of(alloc: Global, test: &Option<Boxed<Expression>>) -> Result<Test, Memory>
    ensures { IfOk result (λ it. test_tree it ≡ Source (test_or_one (option_map expression_tree test.now))) }
{
    match test {
        Some(e) => Ok(Test::Source(copy_expression(alloc, e.get())?)),
        None => Ok(Test::Source(Expression {
            kind: Some(IntKind::Int),
            node: Node::Number(1),
        })),
    }
}
