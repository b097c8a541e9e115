ghost use Rattle.std.specs.Prelude.{◌≡◌, ◌≤ℤ◌, negsuc, pos, IfOk};
ghost use Rattle.c_types.specs.Numbers.{least as the_least};
ghost use Rattle.plain_laws.specs.Plain.{expression as the_expression, number as the_number, guard as the_guard, guard_off as the_guard_off, guard_set as the_guard_set, is_truth as the_is_truth, is_truth_mark as the_is_truth_mark, truth as the_truth, least_constant as the_least_constant, constant as the_constant, promoted as the_promoted, plain_test as the_plain_test, selector_kind as the_selector_kind, picked as the_picked, plain_selector as the_plain_selector, armed as the_armed, slot_among};

use crate::slots::Slots;
use c_tree::{BinaryOp, Expression, Home, Item, Node, Place, Selector, Test, UnaryOp};
use c_types::{ArithOp, Boxed, IntKind, Memory, promote};
use std::alloc::Global;

fn expression(kind: IntKind, node: Node) -> Expression
    ensures { result ≡ the_expression kind node }
{
    Expression {
        kind: Some(kind),
        node,
    }
}

/// A number as an expression of a kind.
pub fn number(kind: IntKind, value: i128) -> Expression
    ensures { result ≡ the_number kind value }
{
    expression(kind, Node::Number(value))
}

fn unary(alloc: Global, kind: IntKind, op: UnaryOp, a: Expression) -> Result<Expression, Memory>
    ensures { IfOk result (λ it. it ≡ the_expression kind (Node.Unary op a)) }
{
    let a = Boxed::new(alloc, a)?;
    Ok(expression(kind, Node::Unary(op, a)))
}

fn binary(kind: IntKind, op: BinaryOp, a: Boxed<Expression>, b: Boxed<Expression>) -> Expression
    ensures { result ≡ the_expression kind (Node.Binary op a b) }
{
    expression(kind, Node::Binary(op, a, b))
}

fn guard(slot: u32) -> Expression
    ensures { result ≡ the_guard slot }
{
    expression(IntKind::Int, Node::Read(Place::Var(Home::Slot(slot))))
}

fn guard_off(alloc: Global, slot: u32) -> Result<Expression, Memory>
    ensures { IfOk result (λ it. it ≡ the_guard_off slot) }
{
    unary(alloc, IntKind::Int, UnaryOp::Not, guard(slot))
}

/// The statement that gives the variable in a slot a value.
pub fn guard_set(alloc: Global, slot: u32, e: Expression) -> Result<Item, Memory>
    ensures { IfOk result (λ it. it ≡ the_guard_set slot e) }
{
    let e = Boxed::new(alloc, e)?;
    Ok(Item::Evaluate(expression(IntKind::Int, Node::Assign(Place::Var(Home::Slot(slot)), e))))
}

fn is_truth_mark(op: BinaryOp) -> bool
    ensures { result ≡ the_is_truth_mark op }
{
    match op {
        BinaryOp::Arith(_) => false,
        BinaryOp::Less => true,
        BinaryOp::Greater => true,
        BinaryOp::AtMost => true,
        BinaryOp::AtLeast => true,
        BinaryOp::Equal => true,
        BinaryOp::Unequal => true,
        BinaryOp::AndThen => true,
        BinaryOp::OrElse => true,
    }
}

fn is_truth(e: &Expression) -> bool
    ensures { result ≡ the_is_truth e.now }
{
    match &e.node {
        Node::Unary(UnaryOp::Not, _) => true,
        Node::Binary(op, _, _) => is_truth_mark(*op),
        _ => false,
    }
}

fn compared_with_zero(alloc: Global, e: Expression) -> Result<Expression, Memory>
    ensures { IfOk result (λ it. it ≡ the_expression IntKind.Int (Node.Binary BinaryOp.Unequal e (the_number IntKind.Int (pos 0)))) }
{
    let e = Boxed::new(alloc, e)?;
    let zero = Boxed::new(alloc, number(IntKind::Int, 0))?;
    Ok(binary(IntKind::Int, BinaryOp::Unequal, e, zero))
}

/// The value of a condition as 0 or 1: compared with 0 unless it is 0 or 1 anyway.
fn truth(alloc: Global, e: Expression) -> Result<Expression, Memory>
    ensures { IfOk result (λ it. it ≡ the_truth e) }
{
    if is_truth(&e) {
        Ok(e)
    } else {
        compared_with_zero(alloc, e)
    }
}

/// What the guard of a label is set to where its jump is taken.
pub fn armed(alloc: Global, e: Option<Expression>) -> Result<Expression, Memory>
    ensures { IfOk result (λ it. it ≡ the_armed e) }
{
    match e {
        None => Ok(number(IntKind::Int, 1)),
        Some(e) => truth(alloc, e),
    }
}

fn least(kind: IntKind) -> i128
    ensures value { result ≡ the_least kind }
    ensures bound { negsuc 9223372036854775807 ≤ℤ result }
{
    match kind {
        IntKind::Char => -128,
        IntKind::UChar => 0,
        IntKind::Int => -2147483648,
        IntKind::UInt => 0,
        IntKind::Long => -9223372036854775808,
        IntKind::ULong => 0,
    }
}

fn least_constant(alloc: Global, kind: IntKind) -> Result<Expression, Memory>
    ensures { IfOk result (λ it. it ≡ the_least_constant kind) }
{
    let greatest = unary(alloc, kind, UnaryOp::Minus, number(kind, kind.greatest()))?;
    let greatest = Boxed::new(alloc, greatest)?;
    let one = Boxed::new(alloc, number(kind, 1))?;
    Ok(binary(kind, BinaryOp::Arith(ArithOp::Sub), greatest, one))
}

/// A number as it is written in a kind: a negative one with a minus, and the least one of the kind as
/// `-max - 1`.
fn constant(alloc: Global, kind: IntKind, n: i128) -> Result<Expression, Memory>
    ensures { IfOk result (λ it. it ≡ the_constant kind n) }
{
    if n >= 0 {
        Ok(number(kind, n))
    } else if n <= least(kind) {
        least_constant(alloc, kind)
    } else {
        unary(alloc, kind, UnaryOp::Minus, number(kind, -n))
    }
}

fn off_and(alloc: Global, slot: u32, rest: Expression) -> Result<Expression, Memory>
    ensures { IfOk result (λ it. it ≡ the_expression IntKind.Int (Node.Binary BinaryOp.AndThen (the_guard_off slot) rest)) }
{
    let rest = Boxed::new(alloc, rest)?;
    let off = Boxed::new(alloc, guard_off(alloc, slot)?)?;
    Ok(binary(IntKind::Int, BinaryOp::AndThen, off, rest))
}

fn on_or(alloc: Global, slot: u32, rest: Expression) -> Result<Expression, Memory>
    ensures { IfOk result (λ it. it ≡ the_expression IntKind.Int (Node.Binary BinaryOp.OrElse (the_guard slot) rest)) }
{
    let rest = Boxed::new(alloc, rest)?;
    let on = Boxed::new(alloc, guard(slot))?;
    Ok(binary(IntKind::Int, BinaryOp::OrElse, on, rest))
}

/// A test in which guards are variables.
pub fn plain_test(alloc: Global, slots: &Slots, test: Test) -> Result<Expression, Memory>
    ensures { IfOk result (λ it. it ≡ the_plain_test (slot_among slots.now.base slots.now.left) test) }
{
    match test {
        Test::Source(e) => Ok(e),
        Test::On(label) => Ok(guard(slots.slot(label))),
        Test::Off(label) => guard_off(alloc, slots.slot(label)),
        Test::AndOff(label, rest) => {
            let rest = plain_test(alloc, slots, rest.into_inner())?;
            off_and(alloc, slots.slot(label), rest)
        }
        Test::OrOn(label, rest) => {
            let rest = plain_test(alloc, slots, rest.into_inner())?;
            on_or(alloc, slots.slot(label), rest)
        }
    }
}

fn promoted(kind: Option<IntKind>) -> IntKind
    ensures { result ≡ the_promoted kind }
{
    match kind {
        Some(kind) => promote(kind),
        None => IntKind::Int,
    }
}

fn selector_kind(selector: &Selector) -> Option<IntKind>
    ensures { result ≡ the_selector_kind selector.now }
{
    match selector {
        Selector::Source(e) => e.kind,
        Selector::Pick(_, _, rest) => selector_kind(rest.get()),
    }
}

/// The number if the variable in the slot is set, else the rest.
fn number_or(
    alloc: Global,
    kind: IntKind,
    slot: u32,
    n: i128,
    rest: Expression,
) -> Result<Expression, Memory>
    ensures { IfOk result (λ it. it ≡ the_expression kind (Node.Conditional (the_guard slot) (the_constant kind n) rest)) }
{
    let rest = Boxed::new(alloc, rest)?;
    let on = Boxed::new(alloc, guard(slot))?;
    let n = Boxed::new(alloc, constant(alloc, kind, n)?)?;
    Ok(expression(kind, Node::Conditional(on, n, rest)))
}

fn picked(
    alloc: Global,
    slots: &Slots,
    kind: IntKind,
    selector: Selector,
) -> Result<Expression, Memory>
    ensures { IfOk result (λ it. it ≡ the_picked (slot_among slots.now.base slots.now.left) kind selector) }
{
    match selector {
        Selector::Source(e) => Ok(e),
        Selector::Pick(label, n, rest) => {
            let rest = picked(alloc, slots, kind, rest.into_inner())?;
            number_or(alloc, kind, slots.slot(label), n, rest)
        }
    }
}

/// A selector in which guards are variables.
pub fn plain_selector(
    alloc: Global,
    slots: &Slots,
    selector: Selector,
) -> Result<Expression, Memory>
    ensures { IfOk result (λ it. it ≡ the_plain_selector (slot_among slots.now.base slots.now.left) selector) }
{
    let kind = promoted(selector_kind(&selector));
    picked(alloc, slots, kind, selector)
}
