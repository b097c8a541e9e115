//! What a token does with what is left of a node.

ghost use Rattle.std.specs.Prelude.{◌≡◌, ◌<◌, ◌∷◌, [], ◌++◌};
ghost use Rattle.c_grammar.specs.Nodes as nodes;
ghost use Rattle.c_parse_step.specs.Machine as spec;
ghost use Rattle.c_parse_step.specs.Starts as starts;
ghost use Rattle.c_parse_step.specs.Steps.{Reduces, Steps};

use crate::build::{leaf, node};
use crate::expressions::at_full;
use crate::form::{Form, Lead, Member, Want};
use crate::frame::{Found, Full};
use crate::frames::FrameStack;
use crate::given::Given;
use crate::kind::{is_same, skips, starts_local};
use crate::load::{Load, OUTSIDE, UNCOUNTED};
use crate::statements::{at_block, at_body, at_labelled, at_statement};
use crate::types::{
    at_declarator, at_enumerator, at_initialiser, at_local, at_member, at_parameter, at_parameters,
    at_type,
};
use crate::want::{lead_in, put, put_before};
use c_grammar::{Class, Production, SyntaxNode};
use c_types::{List, Memory};
use std::alloc::Global;

/// The token is the next part of the node.
#[inline(always)]
fn take(
    alloc: Global,
    stack: &mut FrameStack,
    load: Load,
    mut form: Form,
    at: u32,
) -> Result<Option<Load>, Memory>
    requires { at < 4294967295 }
    ensures { Steps (starts.Takes load (starts.rest form.rule form.first form.level (form.parts ++ nodes.leaf at ∷ []) form.todo ∷ stack.old)) result stack.new }
{
    form.parts.push(leaf(alloc, at))?;
    put(stack, form)?;
    Ok(Some(load))
}

fn load_of(lead: Lead) -> Load
    ensures { result ≡ starts.load (spec.role_of lead) }
{
    match lead {
        Lead::Int => UNCOUNTED,
        _ => OUTSIDE,
    }
}

/// What may follow a sign in a type; `long` goes on.
fn at_base(
    alloc: Global,
    stack: &mut FrameStack,
    mut form: Form,
    class: Class,
    at: u32,
) -> Result<Option<Load>, Memory>
    requires { at < 4294967295 }
    ensures { Steps (spec.at_base form.rule form.first form.level form.parts form.todo stack.old class at) result stack.new }
{
    match class {
        Class::Char | Class::Int => take(alloc, stack, UNCOUNTED, form, at),
        Class::Long => {
            form.todo.push(Want::Optional(Lead::Int))?;
            take(alloc, stack, UNCOUNTED, form, at)
        }
        _ => Ok(None),
    }
}

/// An expression that may be left out, and this token.
fn at_optional(
    alloc: Global,
    stack: &mut FrameStack,
    form: Form,
    kind: Full,
    close: Class,
    class: Class,
    at: u32,
) -> Result<Option<Load>, Memory>
    requires { at < 4294967295 }
    ensures { Steps (spec.at_optional form.rule form.first form.level form.parts form.todo kind close stack.old class at) result stack.new }
{
    if is_same(close, class) {
        return take(alloc, stack, OUTSIDE, form, at);
    }
    put_before(stack, form, Want::Token(close))?;
    at_full(alloc, stack, kind, class, at)
}

fn at_tail(
    alloc: Global,
    stack: &mut FrameStack,
    mut form: Form,
    member: Member,
    class: Class,
    at: u32,
) -> Result<Option<Load>, Memory>
    requires { at < 4294967295 }
    ensures { Steps (spec.begin form.rule form.first form.level form.parts form.todo (Want.Tail member) stack.old class at) result stack.new }
{
    if is_same(Class::Comma, class) {
        form.todo.push(Want::Next(member))?;
        return take(alloc, stack, OUTSIDE, form, at);
    }
    if is_same(Class::CloseBlock, class) {
        return take(alloc, stack, OUTSIDE, form, at);
    }
    Ok(None)
}

fn at_next(
    alloc: Global,
    stack: &mut FrameStack,
    form: Form,
    member: Member,
    class: Class,
    at: u32,
) -> Result<Option<Load>, Memory>
    requires { at < 4294967295 }
    ensures { Steps (spec.begin form.rule form.first form.level form.parts form.todo (Want.Next member) stack.old class at) result stack.new }
{
    if is_same(Class::CloseBlock, class) {
        return take(alloc, stack, OUTSIDE, form, at);
    }
    put_before(stack, form, Want::Tail(member))?;
    at_member(alloc, stack, member, class, at)
}

fn at_for_start(
    alloc: Global,
    stack: &mut FrameStack,
    form: Form,
    class: Class,
    at: u32,
) -> Result<Option<Load>, Memory>
    requires { at < 4294967295 }
    ensures { Steps (spec.begin form.rule form.first form.level form.parts form.todo Want.ForStart stack.old class at) result stack.new }
{
    if starts_local(class) {
        put(stack, form)?;
        return at_local(alloc, stack, class, at);
    }
    at_optional(
        alloc,
        stack,
        form,
        Full::Expression,
        Class::Semicolon,
        class,
        at,
    )
}

fn at_items(
    alloc: Global,
    stack: &mut FrameStack,
    form: Form,
    class: Class,
    at: u32,
) -> Result<Option<Load>, Memory>
    requires { at < 4294967295 }
    ensures { Steps (spec.begin form.rule form.first form.level form.parts form.todo Want.Items stack.old class at) result stack.new }
{
    if is_same(Class::CloseBlock, class) {
        return take(alloc, stack, OUTSIDE, form, at);
    }
    let level = form.level;
    put_before(stack, form, Want::Items)?;
    if starts_local(class) {
        return at_local(alloc, stack, class, at);
    }
    at_statement(alloc, stack, level, class, at)
}

/// A node of its own, in front of the rest of this one.
fn begin_node(
    alloc: Global,
    stack: &mut FrameStack,
    form: Form,
    want: Want,
    class: Class,
    at: u32,
) -> Result<Option<Load>, Memory>
    requires { at < 4294967295 }
    ensures { Steps (spec.begin_node form.rule form.first form.level form.parts form.todo want stack.old class at) result stack.new }
{
    let level = form.level;
    put(stack, form)?;
    match want {
        Want::Type => at_type(alloc, stack, class, at),
        Want::Full(kind) => at_full(alloc, stack, kind, class, at),
        Want::Declarator => at_declarator(alloc, stack, class, at),
        Want::Enumerator => at_enumerator(alloc, stack, class, at),
        Want::Initialiser => at_initialiser(alloc, stack, class, at),
        Want::Parameters => at_parameters(alloc, stack, class, at),
        Want::Parameter => at_parameter(alloc, stack, class, at),
        Want::Body => at_body(alloc, stack, level, class, at),
        _ => Ok(None),
    }
}

/// The token begins what is wanted, in front of the rest of a node.
fn begin(
    alloc: Global,
    stack: &mut FrameStack,
    mut form: Form,
    want: Want,
    class: Class,
    at: u32,
) -> Result<Option<Load>, Memory>
    requires { at < 4294967295 }
    ensures { Steps (spec.begin form.rule form.first form.level form.parts form.todo want stack.old class at) result stack.new }
{
    match want {
        Want::Token(awaited) => {
            if !is_same(awaited, class) {
                return Ok(None);
            }
            take(alloc, stack, OUTSIDE, form, at)
        }
        Want::Base => at_base(alloc, stack, form, class, at),
        Want::OptionalExpression(close) => {
            at_optional(alloc, stack, form, Full::Expression, close, class, at)
        }
        Want::Length => at_optional(
            alloc,
            stack,
            form,
            Full::Conditional,
            Class::CloseIndex,
            class,
            at,
        ),
        Want::Optional(lead) => {
            lead_in(&mut form.todo, lead)?;
            take(alloc, stack, load_of(lead), form, at)
        }
        Want::Tail(member) => at_tail(alloc, stack, form, member, class, at),
        Want::Next(member) => at_next(alloc, stack, form, member, class, at),
        Want::ForStart => at_for_start(alloc, stack, form, class, at),
        Want::FunctionEnd => {
            if is_same(Class::Semicolon, class) {
                return take(alloc, stack, OUTSIDE, form, at);
            }
            put(stack, form)?;
            at_block(alloc, stack, 1, class, at)
        }
        Want::Items => at_items(alloc, stack, form, class, at),
        Want::Labelled => at_labelled(alloc, stack, form, class, at),
        _ => begin_node(alloc, stack, form, want, class, at),
    }
}

/// A node of which nothing is left, in front of a token.
pub fn finished_node(form: Form, at: u32) -> SyntaxNode
    ensures { result ≡ nodes.node form.rule form.first at form.parts }
{
    node(form.rule, form.first, at, form.parts)
}

/// Goes on with a node, which is passed on where nothing is left of it.
pub fn resume(
    alloc: Global,
    stack: &mut FrameStack,
    mut form: Form,
    class: Class,
    at: u32,
) -> Result<Given, Memory>
    requires { at < 4294967295 }
    ensures { Reduces (spec.resume form stack.old class at) stack.old class at result stack.new }
{
    while let Some(want) = form.todo.pop() {
        if !skips(want, class) {
            return match begin(alloc, stack, form, want, class, at)? {
                Some(load) => Ok(Given::Taken(load)),
                None => Ok(Given::Refused),
            };
        }
        if let Want::Parameters = want {
            form.parts
                .push(node(Production::Params, at, at, List::new(alloc)))?;
        }
    }
    Ok(Given::Passed(Found::Whole(finished_node(form, at))))
}
