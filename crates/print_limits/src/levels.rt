//! The levels of printed expressions.

ghost use Rattle.std.specs.Prelude.{◌≡◌, None};
ghost use Rattle.c_tree.specs.ExpressionTrees.{expression_tree, Typed};
ghost use Rattle.c_tree.specs.TextExpressions.{arith_level as the_arith_level, binary_level as the_binary_level};
ghost use Rattle.c_resolved_defs.specs.PrintableExpressions.{level_of};
ghost use Rattle.print_limits.specs.Views.{node_at};

use c_tree::{BinaryOp, Expression, Node};
use c_types::ArithOp;

fn arith_level(op: ArithOp) -> u32
    ensures { result ≡ the_arith_level op }
{
    match op {
        ArithOp::Mul | ArithOp::Div | ArithOp::Rem => 13,
        ArithOp::Add | ArithOp::Sub => 12,
        ArithOp::Shl | ArithOp::Shr => 11,
        ArithOp::And => 8,
        ArithOp::Xor => 7,
        ArithOp::Or => 6,
    }
}

pub fn binary_level(op: BinaryOp) -> u32
    ensures { result ≡ the_binary_level op }
{
    match op {
        BinaryOp::Arith(op) => arith_level(op),
        BinaryOp::Less | BinaryOp::Greater | BinaryOp::AtMost | BinaryOp::AtLeast => 10,
        BinaryOp::Equal | BinaryOp::Unequal => 9,
        BinaryOp::AndThen => 5,
        BinaryOp::OrElse => 4,
    }
}

fn node_level(node: &Node) -> u32
    ensures { result ≡ level_of (Typed None (node_at node.now)) }
{
    match node {
        Node::Binary(op, _, _) => binary_level(*op),
        Node::Conditional(_, _, _) => 3,
        Node::Assign(_, _) | Node::Update(_, _, _) => 2,
        Node::Comma(_, _) => 1,
        _ => 14,
    }
}

/// The level of the grammar that the printed expression is of.
pub fn level(e: &Expression) -> u32
    ensures { result ≡ level_of (expression_tree e.now) }
{
    node_level(&e.node)
}
