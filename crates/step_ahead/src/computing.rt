ghost use Rattle.std.specs.Prelude.{◌≡◌, ◌+◌, pos, Ok, FitsSigned, IfSome, not};
ghost use Rattle.std.specs.Int.{w128};
ghost use Rattle.c_types.specs.declared.kinds.IntKind.TheVariants.{Char};
ghost use Rattle.c_types.specs.Numbers.{converted};
ghost use Rattle.c_tree.specs.ExpressionTrees.{expression_tree, place_tree};
ghost use Rattle.c_tree.specs.Operators.{is_zero, truth, binary_result as the_binary, unary_result as the_unary};
ghost use Rattle.jump_meaning.specs.Operations.{operand_kind as the_kind};
ghost use Rattle.step_ahead.specs.Marks.{decides as the_decision, decided as the_number, IsCast, IsOfBoth};
ghost use Rattle.step_ahead.specs.Taken.{IsAfter, IsComputed, IsFound};

use crate::finding::{Found, cell, number_in, value, variable};
use crate::marks::{Computed, after, constant, operand_kind};
use c_constants::{binary_result, unary_result};
use c_tree::{BinaryOp, Expression, Node, Place, UnaryOp};
use c_types::{IntKind, convert};
use step_memory::Store;

/// How deep an expression may be that is computed at once. So one that calls a function is looked
/// through at most so often in vain.
pub const DEPTH: u32 = 16;

fn character(byte: &u8) -> Option<Computed>
    ensures ok { IfSome result (λ r. IsAfter (Ok (converted Char (pos byte.now))) 1 r) }
    ensures fits { IfSome result (λ r. FitsSigned w128 r.number) }
{
    let byte = *byte;
    Some(Computed {
        number: convert(IntKind::Char, byte as i128),
        steps: 1,
    })
}

fn unary(op: UnaryOp, kind: Option<IntKind>, a: Computed) -> Option<Computed>
    ensures ok { IfSome result (λ r. IsAfter (the_unary op (the_kind kind) a.number) (a.steps + 2) r) }
    ensures fits { IfSome result (λ r. FitsSigned w128 r.number) }
{
    let number = unary_result(op, operand_kind(kind), a.number);
    after(number, a.steps, 2, 0)
}

fn cast(kind: Option<IntKind>, a: Computed) -> Option<Computed>
    ensures ok { IfSome result (λ r. IsCast kind a r) }
    ensures fits { IfSome result (λ r. FitsSigned w128 r.number) }
{
    match kind {
        Some(kind) => after(Ok(convert(kind, a.number)), a.steps, 2, 0),
        None => None,
    }
}

/// Whether the first operand of `&&` or `||` decides.
fn decides(op: BinaryOp, a: Computed) -> bool
    ensures { result ≡ the_decision op a.number }
{
    match op {
        BinaryOp::AndThen => a.number == 0,
        BinaryOp::OrElse => a.number != 0,
        _ => false,
    }
}

/// What the first operand of `&&` or `||` decides.
fn decided(op: BinaryOp, a: Computed) -> Option<Computed>
    ensures ok { IfSome result (λ r. IsAfter (Ok (the_number op)) (a.steps + 2) r) }
    ensures fits { IfSome result (λ r. FitsSigned w128 r.number) }
{
    match op {
        BinaryOp::OrElse => after(Ok(1), a.steps, 2, 0),
        _ => after(Ok(0), a.steps, 2, 0),
    }
}

/// Whether the second operand of `&&` or `||`, where the first doesn't decide, isn't 0.
fn judged(a: Computed, b: Computed) -> Option<Computed>
    ensures ok { IfSome result (λ r. IsAfter (Ok (truth (not (is_zero b.number)))) (a.steps + b.steps + 3) r) }
    ensures fits { IfSome result (λ r. FitsSigned w128 r.number) }
{
    if b.number == 0 {
        after(Ok(0), a.steps, b.steps, 3)
    } else {
        after(Ok(1), a.steps, b.steps, 3)
    }
}

/// A binary mark at both operands.
fn of_both(
    op: BinaryOp,
    j: Option<IntKind>,
    k: Option<IntKind>,
    a: Computed,
    b: Computed,
) -> Option<Computed>
    ensures ok { IfSome result (λ r. IsOfBoth op j k a b r) }
    ensures fits { IfSome result (λ r. FitsSigned w128 r.number) }
{
    match op {
        BinaryOp::AndThen => judged(a, b),
        BinaryOp::OrElse => judged(a, b),
        _ => {
            let number = binary_result(op, operand_kind(j), operand_kind(k), a.number, b.number);
            after(number, a.steps, b.steps, 2)
        }
    }
}

/// The number of an expression, and how many steps of the run it takes. `None` where it calls or changes
/// something, meets a trap, is deeper than so many levels, or needs what the store lacks; it promises
/// nothing then, and the run takes single steps.
pub fn computed(store: &Store<'_>, e: &Expression, depth: u32) -> Option<Computed>
    ensures ok { IfSome result (λ r. IsComputed store.now (expression_tree e.now) r) }
    ensures fits { IfSome result (λ r. FitsSigned w128 r.number) }
{
    if depth == 0 {
        return None;
    }
    match &e.node {
        Node::Number(number) => constant(number, 1),
        Node::Character(byte) => character(byte),
        Node::EnumName(_, number) => constant(number, 1),
        Node::Read(place) => match place {
            Place::Var(home) => value(store, home),
            Place::Cell(home, index) => match computed(store, index.get(), depth - 1) {
                Some(at) => match cell(store, home, at) {
                    Some(found) => number_in(store, found),
                    None => None,
                },
                None => None,
            },
        },
        Node::Unary(op, a) => {
            let a = a.get();
            match computed(store, a, depth - 1) {
                Some(x) => unary(*op, a.kind, x),
                None => None,
            }
        }
        Node::Cast(a) => match computed(store, a.get(), depth - 1) {
            Some(x) => cast(e.kind, x),
            None => None,
        },
        Node::Binary(op, a, b) => {
            let (a, b) = (a.get(), b.get());
            let Some(x) = computed(store, a, depth - 1) else {
                return None;
            };
            if decides(*op, x) {
                return decided(*op, x);
            }
            match computed(store, b, depth - 1) {
                Some(y) => of_both(*op, a.kind, b.kind, x, y),
                None => None,
            }
        }
        _ => None,
    }
}

/// The cell that a place is, if there are only numbers to compute for it.
pub fn found(store: &Store<'_>, place: &Place) -> Option<Found>
    ensures { IfSome result (λ r. IsFound store.now (place_tree place.now) r) }
{
    match place {
        Place::Var(home) => variable(store, home),
        Place::Cell(home, index) => match computed(store, index.get(), DEPTH) {
            Some(at) => cell(store, home, at),
            None => None,
        },
    }
}
