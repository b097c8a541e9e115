//! How operators are spelled and how tightly they bind, and the names of slots.

ghost use Rattle.std.specs.Prelude.{◌≡◌, ◌≤◌, List, Option, codes};
ghost use Rattle.c_types.specs.declared.kinds.IntKind.{IntKind};
ghost use Rattle.c_tree.specs.declared.tree.Slot.{Slot};
ghost use Rattle.c_tree.specs.TextPieces.{◌⨾◌, punctuator, only_if};
ghost use Rattle.c_tree.specs.TextExpressions.{unary_spelling as the_unary_spelling, arith_spelling as the_arith_spelling, binary_spelling as the_binary_spelling, update_spelling as the_update_spelling, count_spelling as the_count_spelling, arith_level as the_arith_level, binary_level as the_binary_level, slot_name as the_slot_name, home_name as the_home_name, node_text};

use c_tree::{BinaryOp, Home, Node, Slot, UnaryOp};
use c_types::ArithOp;

pub fn unary_spelling(op: UnaryOp) -> &'static str
    ensures { result.now ≡ the_unary_spelling op }
{
    match op {
        UnaryOp::Plus => "+",
        UnaryOp::Minus => "-",
        UnaryOp::Not => "!",
        UnaryOp::Flip => "~",
    }
}

pub fn arith_spelling(op: ArithOp) -> &'static str
    ensures { result.now ≡ the_arith_spelling op }
{
    match op {
        ArithOp::Add => "+",
        ArithOp::Sub => "-",
        ArithOp::Mul => "*",
        ArithOp::Div => "/",
        ArithOp::Rem => "%",
        ArithOp::Shl => "<<",
        ArithOp::Shr => ">>",
        ArithOp::And => "&",
        ArithOp::Or => "|",
        ArithOp::Xor => "^",
    }
}

pub fn binary_spelling(op: BinaryOp) -> &'static str
    ensures { result.now ≡ the_binary_spelling op }
{
    match op {
        BinaryOp::Arith(op) => arith_spelling(op),
        BinaryOp::Less => "<",
        BinaryOp::Greater => ">",
        BinaryOp::AtMost => "<=",
        BinaryOp::AtLeast => ">=",
        BinaryOp::Equal => "==",
        BinaryOp::Unequal => "!=",
        BinaryOp::AndThen => "&&",
        BinaryOp::OrElse => "||",
    }
}

pub fn update_spelling(op: ArithOp) -> &'static str
    ensures { result.now ≡ the_update_spelling op }
{
    match op {
        ArithOp::Add => "+=",
        ArithOp::Sub => "-=",
        ArithOp::Mul => "*=",
        ArithOp::Div => "/=",
        ArithOp::Rem => "%=",
        ArithOp::Shl => "<<=",
        ArithOp::Shr => ">>=",
        ArithOp::And => "&=",
        ArithOp::Or => "|=",
        ArithOp::Xor => "^=",
    }
}

pub fn count_spelling(up: bool) -> &'static str
    ensures { result.now ≡ the_count_spelling up }
{
    if up { "++" } else { "--" }
}

pub fn arith_level(op: ArithOp) -> u32
    ensures value { result ≡ the_arith_level op }
    ensures bound { result ≤ 13 }
{
    match op {
        ArithOp::Add => 12,
        ArithOp::Sub => 12,
        ArithOp::Mul => 13,
        ArithOp::Div => 13,
        ArithOp::Rem => 13,
        ArithOp::Shl => 11,
        ArithOp::Shr => 11,
        ArithOp::And => 8,
        ArithOp::Or => 6,
        ArithOp::Xor => 7,
    }
}

pub fn binary_level(op: BinaryOp) -> u32
    ensures value { result ≡ the_binary_level op }
    ensures bound { result ≤ 13 }
{
    match op {
        BinaryOp::Arith(op) => arith_level(op),
        BinaryOp::Less => 10,
        BinaryOp::Greater => 10,
        BinaryOp::AtMost => 10,
        BinaryOp::AtLeast => 10,
        BinaryOp::Equal => 9,
        BinaryOp::Unequal => 9,
        BinaryOp::AndThen => 5,
        BinaryOp::OrElse => 4,
    }
}

/// Whether brackets stand round a node where the grammar needs a level.
pub fn is_bracketed(node: &Node, need: u32) -> bool
    ensures { (slots : List Slot) (kind : Option IntKind) → node_text slots node.now kind need ≡ (only_if result (punctuator (codes "(")) ⨾ node_text slots node.now kind 0 ⨾ only_if result (punctuator (codes ")"))) }
{
    match node {
        Node::Number(_) => false,
        Node::Character(_) => false,
        Node::EnumName(..) => false,
        Node::Text(_) => false,
        Node::Array(_) => false,
        Node::Read(_) => false,
        Node::Unary(..) => 14 < need,
        Node::Cast(_) => 14 < need,
        Node::Binary(op, ..) => binary_level(*op) < need,
        Node::Conditional(..) => 3 < need,
        Node::Assign(..) => 2 < need,
        Node::Update(..) => 2 < need,
        Node::Count(_, _, after) => !*after && 14 < need,
        Node::Comma(..) => 1 < need,
        Node::Call(..) => false,
    }
}

/// The name of a slot, empty where there is no such slot.
pub fn slot_name(slots: &[Slot], at: u32) -> &str
    ensures { result.now ≡ the_slot_name slots.now at }
{
    match slots.get(at as usize) {
        Some(slot) => slot.name.as_str(),
        None => "",
    }
}

pub fn home_name<'a>(slots: &'a [Slot], home: &'a Home) -> &'a str
    ensures { result.now ≡ the_home_name slots.now home.now }
{
    match home {
        Home::Global(name) => name.as_str(),
        Home::Slot(at) => slot_name(slots, *at),
    }
}
