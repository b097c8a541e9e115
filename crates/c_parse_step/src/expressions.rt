//! Tokens that begin an expression or a part of one.

ghost use Rattle.std.specs.Prelude.{◌≡◌, ◌<◌, ◌∷◌, []};
ghost use Rattle.c_parse_step.specs.Shown as shown;
ghost use Rattle.c_parse_step.specs.Starts as spec;
ghost use Rattle.c_parse_step.specs.Steps.{Steps};

use crate::build::{constant, leaf, one, three, token};
use crate::entry::Entry;
use crate::frame::{Frame, Full};
use crate::frames::FrameStack;
use crate::kind::{is_close, is_text};
use crate::load::{COUNTED, Load, UNCOUNTED};
use crate::types::at_type;
use crate::want::{behind_full, both_taken, taken};
use c_grammar::{Class, SyntaxNode};
use c_types::Memory;
use std::alloc::Global;

pub fn at_unary(
    alloc: Global,
    stack: &mut FrameStack,
    class: Class,
    at: u32,
) -> Result<Option<Load>, Memory>
    requires { at < 4294967295 }
    ensures { Steps (spec.at_unary stack.old class at) result stack.new }
{
    match class {
        Class::Sign | Class::Flip => {
            both_taken(stack, COUNTED, Entry::Prefix(at, at + 1), Entry::WantUnary)
        }
        Class::Step => both_taken(
            stack,
            COUNTED,
            Entry::Stepped(at, at + 1),
            Entry::WantTarget,
        ),
        Class::Open => both_taken(stack, COUNTED, Entry::Post(at), Entry::Opened(at, at + 1)),
        Class::Name => both_taken(stack, UNCOUNTED, Entry::Post(at), Entry::Named(at, at + 1)),
        Class::Number | Class::Character => {
            let value = constant(alloc, at, at + 1)?;
            taken(stack, UNCOUNTED, Entry::Done(value))
        }
        _ => Ok(None),
    }
}

/// Where an operand that begins there is a unary expression alone.
#[inline(always)]
pub fn at_operand(
    alloc: Global,
    stack: &mut FrameStack,
    first: u32,
    class: Class,
    at: u32,
) -> Result<Option<Load>, Memory>
    requires { at < 4294967295 }
    ensures { Steps (spec.at_unary (Frame.Operand first ∷ stack.old) class at) result stack.new }
{
    match class {
        Class::Name => taken(stack, UNCOUNTED, Entry::NamedOperand(at, at + 1, first)),
        Class::Number | Class::Character => {
            taken(stack, UNCOUNTED, Entry::ConstantOperand(at, at + 1, first))
        }
        _ => {
            stack.push(Entry::Operand(first))?;
            at_unary(alloc, stack, class, at)
        }
    }
}

pub fn at_target(
    alloc: Global,
    stack: &mut FrameStack,
    class: Class,
    at: u32,
) -> Result<Option<Load>, Memory>
    requires { at < 4294967295 }
    ensures { Steps (spec.at_target stack.old class at) result stack.new }
{
    match class {
        Class::Open => both_taken(
            stack,
            COUNTED,
            Entry::Enclosed(at, at + 1),
            Entry::WantTarget,
        ),
        Class::Name => taken(stack, UNCOUNTED, Entry::TargetNamed(at, at + 1)),
        _ => Ok(None),
    }
}

pub fn at_argument(
    alloc: Global,
    stack: &mut FrameStack,
    class: Class,
    at: u32,
) -> Result<Option<Load>, Memory>
    requires { at < 4294967295 }
    ensures { Steps (spec.at_argument stack.old class at) result stack.new }
{
    if is_text(class) {
        let parts = one(alloc, leaf(alloc, at))?;
        return taken(stack, UNCOUNTED, Entry::Texts(at, parts));
    }
    stack.push(Entry::ArgumentSeen(at))?;
    stack.push(Entry::Begun(Full::Assignment, at))?;
    at_operand(alloc, stack, at, class, at)
}

pub fn at_full(
    alloc: Global,
    stack: &mut FrameStack,
    kind: Full,
    class: Class,
    at: u32,
) -> Result<Option<Load>, Memory>
    requires { at < 4294967295 }
    ensures { Steps (spec.at_full kind stack.old class at) result stack.new }
{
    behind_full(stack, kind, at)?;
    at_operand(alloc, stack, at, class, at)
}

/// Behind an opening bracket: a type of a cast, or an expression.
pub fn at_opened(
    alloc: Global,
    stack: &mut FrameStack,
    first: u32,
    next: u32,
    class: Class,
    at: u32,
) -> Result<Option<Load>, Memory>
    requires { at < 4294967295 }
    ensures { Steps (spec.at_opened first (shown.token first next) next stack.old class at) result stack.new }
{
    match class {
        Class::Char | Class::Int | Class::Long | Class::Signed | Class::Unsigned => {
            stack.push(Entry::CastType(first, next))?;
            at_type(alloc, stack, class, at)
        }
        Class::Void => taken(stack, UNCOUNTED, Entry::VoidSeen(first, next, at, at + 1)),
        _ => {
            stack.push(Entry::Bracketed(first, next))?;
            stack.push(Entry::Begun(Full::Expression, at))?;
            at_operand(alloc, stack, at, class, at)
        }
    }
}

/// The end of a cast's type.
pub fn at_type_end(
    alloc: Global,
    stack: &mut FrameStack,
    first: u32,
    next: u32,
    kind: SyntaxNode,
    class: Class,
    at: u32,
) -> Result<Option<Load>, Memory>
    requires { at < 4294967295 }
    ensures { Steps (spec.at_type_end first (shown.token first next) kind stack.old class at) result stack.new }
{
    if !is_close(class) {
        return Ok(None);
    }
    let parts = three(alloc, token(alloc, first, next), kind, leaf(alloc, at))?;
    both_taken(
        stack,
        UNCOUNTED,
        Entry::Cast(first, at + 1, parts),
        Entry::WantUnary,
    )
}
