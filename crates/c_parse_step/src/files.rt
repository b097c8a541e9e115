//! Tokens that begin a part of a file.

ghost use Rattle.std.specs.Prelude.{◌≡◌, ◌<◌, IfOk};
ghost use Rattle.c_parse_step.specs.Starts as spec;
ghost use Rattle.c_parse_step.specs.Steps.{Steps};

use crate::build::{leaf, more, node, of_function, one};
use crate::entry::Entry;
use crate::form::{Member, Want};
use crate::frames::FrameStack;
use crate::load::{Load, OUTSIDE};
use crate::types::{at_local, at_type, begun};
use crate::want::{both_taken, rest, taken, todo};
use c_grammar::{Class, Production, SyntaxNode};
use c_types::{List, Memory, Stack};
use std::alloc::Global;

fn function_rest(alloc: Global) -> Result<Stack<Want>, Memory>
    ensures { IfOk result (λ it. it ≡ spec.function_rest) }
{
    todo(
        alloc,
        &[
            Want::Token(Class::Name),
            Want::Token(Class::Open),
            Want::Parameters,
            Want::Token(Class::Close),
            Want::FunctionEnd,
        ],
    )
}

/// A declaration or a function, which has these parts so far.
pub fn at_external(
    alloc: Global,
    stack: &mut FrameStack,
    first: u32,
    parts: List<SyntaxNode>,
    class: Class,
    at: u32,
) -> Result<Option<Load>, Memory>
    requires { at < 4294967295 }
    ensures { Steps (spec.at_external first parts stack.old class at) result stack.new }
{
    match class {
        Class::Const => {
            let none = Stack::new(alloc);
            rest(stack, Production::Declaration, first, 0, parts, none)?;
            at_local(alloc, stack, class, at)
        }
        Class::Void => {
            let parts = more(of_function(parts)?, leaf(alloc, at))?;
            let wants = function_rest(alloc)?;
            taken(
                stack,
                OUTSIDE,
                Entry::Rest(Production::Function, first, 0, parts, wants),
            )
        }
        _ => {
            stack.push(Entry::TopType(first, at, parts))?;
            at_type(alloc, stack, class, at)
        }
    }
}

pub fn at_top(
    alloc: Global,
    stack: &mut FrameStack,
    parts: List<SyntaxNode>,
    class: Class,
    at: u32,
) -> Result<Option<Load>, Memory>
    requires { at < 4294967295 }
    ensures { Steps (spec.at_top parts stack.old class at) result stack.new }
{
    match class {
        Class::End => {
            let file = node(Production::File, 0, at, parts);
            taken(stack, OUTSIDE, Entry::Accepted(file))
        }
        Class::Directive => {
            let parts = more(parts, leaf(alloc, at))?;
            taken(stack, OUTSIDE, Entry::Tops(parts))
        }
        Class::Enum => {
            stack.push(Entry::Tops(parts))?;
            let wants = [
                Want::Token(Class::OpenBlock),
                Want::Enumerator,
                Want::Tail(Member::Enumerator),
                Want::Token(Class::Semicolon),
            ];
            begun(alloc, stack, OUTSIDE, Production::Enum, at, 4, &wants)
        }
        Class::Static => {
            let begun = one(alloc, leaf(alloc, at))?;
            both_taken(
                stack,
                OUTSIDE,
                Entry::Tops(parts),
                Entry::External(at, begun),
            )
        }
        _ => {
            stack.push(Entry::Tops(parts))?;
            at_external(alloc, stack, at, List::new(alloc), class, at)
        }
    }
}
