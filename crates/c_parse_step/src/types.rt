//! Tokens that begin a declaration or a part of one.

ghost use Rattle.std.specs.Prelude.{◌≡◌, ◌<◌, ◌∷◌, [], OnOk};
ghost use Rattle.c_grammar.specs.Nodes as nodes;
ghost use Rattle.c_parse_step.specs.Starts as spec;
ghost use Rattle.c_parse_step.specs.Steps.{Steps};

use crate::build::{first_of, leaf, none_of};
use crate::entry::Entry;
use crate::expressions::at_full;
use crate::form::{Lead, Member, Want};
use crate::frame::Full;
use crate::frames::FrameStack;
use crate::kind::is_same;
use crate::load::{Load, OUTSIDE, UNCOUNTED};
use crate::want::{rest, taken, todo};
use c_grammar::{Class, Production};
use c_types::{List, Memory, Stack};
use std::alloc::Global;

/// Behind the first token of a node, which it has alone so far, with room for so many parts.
pub fn begun_with(
    alloc: Global,
    stack: &mut FrameStack,
    load: Load,
    rule: Production,
    level: u32,
    at: u32,
    room: usize,
    todo: Stack<Want>,
) -> Result<Option<Load>, Memory>
    requires { at < 4294967295 }
    ensures { Steps (spec.Takes load (spec.rest rule at level (nodes.leaf at ∷ []) todo ∷ stack.old)) result stack.new }
{
    let parts = first_of(alloc, room, leaf(alloc, at))?;
    taken(stack, load, Entry::Rest(rule, at, level, parts, todo))
}

/// Behind the first token of a node, which it has alone so far, with room for so many parts, where these are left.
pub fn begun(
    alloc: Global,
    stack: &mut FrameStack,
    load: Load,
    rule: Production,
    at: u32,
    room: usize,
    wants: &[Want],
) -> Result<Option<Load>, Memory>
    requires { at < 4294967295 }
    ensures { Steps (spec.Takes load (spec.rest rule at 0 (nodes.leaf at ∷ []) wants.now ∷ stack.old)) result stack.new }
{
    let left = todo(alloc, wants)?;
    begun_with(alloc, stack, load, rule, 0, at, room, left)
}

/// A node that begins there and has no part yet, with room for so many.
fn open(
    alloc: Global,
    stack: &mut FrameStack,
    rule: Production,
    at: u32,
    room: usize,
    wants: &[Want],
) -> Result<(), Memory>
    ensures { OnOk result (stack.new ≡ spec.rest rule at 0 [] wants.now ∷ stack.old) }
{
    let left = todo(alloc, wants)?;
    rest(stack, rule, at, 0, none_of(alloc, room)?, left)
}

pub fn at_type(
    alloc: Global,
    stack: &mut FrameStack,
    class: Class,
    at: u32,
) -> Result<Option<Load>, Memory>
    requires { at < 4294967295 }
    ensures { Steps (spec.at_type stack.old class at) result stack.new }
{
    let rule = Production::NumberType;
    match class {
        Class::Char | Class::Int => begun(alloc, stack, UNCOUNTED, rule, at, 1, &[]),
        Class::Long => begun(
            alloc,
            stack,
            UNCOUNTED,
            rule,
            at,
            1,
            &[Want::Optional(Lead::Int)],
        ),
        Class::Signed | Class::Unsigned => {
            begun(alloc, stack, UNCOUNTED, rule, at, 1, &[Want::Base])
        }
        _ => Ok(None),
    }
}

pub fn at_local(
    alloc: Global,
    stack: &mut FrameStack,
    class: Class,
    at: u32,
) -> Result<Option<Load>, Memory>
    requires { at < 4294967295 }
    ensures { Steps (spec.at_local stack.old class at) result stack.new }
{
    if let Class::Const = class {
        let wants = [
            Want::Type,
            Want::Declarator,
            Want::Optional(Lead::Declarators),
            Want::Token(Class::Semicolon),
        ];
        return begun(alloc, stack, OUTSIDE, Production::Local, at, 4, &wants);
    }
    let wants = [
        Want::Declarator,
        Want::Optional(Lead::Declarators),
        Want::Token(Class::Semicolon),
    ];
    open(alloc, stack, Production::Local, at, 3, &wants)?;
    at_type(alloc, stack, class, at)
}

pub fn at_declarator(
    alloc: Global,
    stack: &mut FrameStack,
    class: Class,
    at: u32,
) -> Result<Option<Load>, Memory>
    requires { at < 4294967295 }
    ensures { Steps (spec.at_declarator stack.old class at) result stack.new }
{
    if !is_same(Class::Name, class) {
        return Ok(None);
    }
    let wants = [Want::Optional(Lead::Size), Want::Optional(Lead::Value)];
    begun(alloc, stack, OUTSIDE, Production::Declarator, at, 1, &wants)
}

pub fn at_enumerator(
    alloc: Global,
    stack: &mut FrameStack,
    class: Class,
    at: u32,
) -> Result<Option<Load>, Memory>
    requires { at < 4294967295 }
    ensures { Steps (spec.at_enumerator stack.old class at) result stack.new }
{
    if !is_same(Class::Name, class) {
        return Ok(None);
    }
    let wants = [Want::Optional(Lead::Constant)];
    begun(alloc, stack, OUTSIDE, Production::Enumerator, at, 1, &wants)
}

pub fn at_initialiser(
    alloc: Global,
    stack: &mut FrameStack,
    class: Class,
    at: u32,
) -> Result<Option<Load>, Memory>
    requires { at < 4294967295 }
    ensures { Steps (spec.at_initialiser stack.old class at) result stack.new }
{
    if is_same(Class::OpenBlock, class) {
        let wants = [Want::Full(Full::Assignment), Want::Tail(Member::Value)];
        return begun(
            alloc,
            stack,
            OUTSIDE,
            Production::Initialiser,
            at,
            4,
            &wants,
        );
    }
    rest(
        stack,
        Production::Initialiser,
        at,
        0,
        List::new(alloc),
        Stack::new(alloc),
    )?;
    at_full(alloc, stack, Full::Assignment, class, at)
}

pub fn at_member(
    alloc: Global,
    stack: &mut FrameStack,
    member: Member,
    class: Class,
    at: u32,
) -> Result<Option<Load>, Memory>
    requires { at < 4294967295 }
    ensures { Steps (spec.at_member member stack.old class at) result stack.new }
{
    match member {
        Member::Value => at_full(alloc, stack, Full::Assignment, class, at),
        Member::Enumerator => at_enumerator(alloc, stack, class, at),
    }
}

pub fn at_parameter(
    alloc: Global,
    stack: &mut FrameStack,
    class: Class,
    at: u32,
) -> Result<Option<Load>, Memory>
    requires { at < 4294967295 }
    ensures { Steps (spec.at_parameter stack.old class at) result stack.new }
{
    if let Class::Const = class {
        let wants = [
            Want::Type,
            Want::Optional(Lead::Name),
            Want::Optional(Lead::Size),
        ];
        return begun(alloc, stack, OUTSIDE, Production::Param, at, 3, &wants);
    }
    let wants = [Want::Optional(Lead::Name), Want::Optional(Lead::Size)];
    open(alloc, stack, Production::Param, at, 2, &wants)?;
    at_type(alloc, stack, class, at)
}

pub fn at_parameters(
    alloc: Global,
    stack: &mut FrameStack,
    class: Class,
    at: u32,
) -> Result<Option<Load>, Memory>
    requires { at < 4294967295 }
    ensures { Steps (spec.at_parameters stack.old class at) result stack.new }
{
    if let Class::Void = class {
        return begun(alloc, stack, OUTSIDE, Production::Params, at, 1, &[]);
    }
    let wants = [Want::Optional(Lead::Parameters)];
    open(alloc, stack, Production::Params, at, 3, &wants)?;
    at_parameter(alloc, stack, class, at)
}
