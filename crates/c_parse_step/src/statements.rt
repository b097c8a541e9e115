//! Tokens that begin a statement or a part of one.

ghost use Rattle.std.specs.Prelude.{◌≡◌, ◌<◌, ◌≤◌, ◌+◌, ◌∷◌, [], IfOk};
ghost use Rattle.c_parse_step.specs.Machine as machine;
ghost use Rattle.c_parse_step.specs.Starts as spec;
ghost use Rattle.c_parse_step.specs.Steps.{Steps};

use crate::build::{first_of, leaf};
use crate::entry::Entry;
use crate::expressions::at_operand;
use crate::form::{Form, Lead, Want};
use crate::frame::Full;
use crate::frames::FrameStack;
use crate::kind::{is_same, starts_local};
use crate::load::{Load, OUTSIDE, Role, UNCOUNTED};
use crate::types::{at_local, begun, begun_with};
use crate::want::{behind_operand, put, put_before, rest, taken, todo};
use c_grammar::{Class, Production, SyntaxNode};
use c_types::{Boxed, List, Memory, Stack};
use std::alloc::Global;

fn one_deeper(level: u32) -> Result<u32, Memory>
    ensures { IfOk result (λ it. it ≡ level + 1) }
{
    if level == u32::MAX {
        return Err(Memory);
    }
    Ok(level + 1)
}

pub fn at_block(
    alloc: Global,
    stack: &mut FrameStack,
    level: u32,
    class: Class,
    at: u32,
) -> Result<Option<Load>, Memory>
    requires { at < 4294967295 }
    ensures { Steps (spec.at_block level stack.old class at) result stack.new }
{
    if !is_same(Class::OpenBlock, class) {
        return Ok(None);
    }
    let load = Load {
        role: Role::Outside,
        opens: Some(level),
    };
    let parts = first_of(alloc, 4, leaf(alloc, at))?;
    taken(stack, load, Entry::Block(at, level, parts))
}

/// What stands behind the first word of a statement with parts.
fn construct_wants(alloc: Global, class: Class) -> Result<Option<Stack<Want>>, Memory>
    ensures { IfOk result (λ it. it ≡ spec.construct_wants class) }
{
    match class {
        Class::If => Ok(Some(todo(
            alloc,
            &[
                Want::Token(Class::Open),
                Want::Full(Full::Expression),
                Want::Token(Class::Close),
                Want::Body,
                Want::Optional(Lead::Else),
            ],
        )?)),
        Class::While | Class::Switch => Ok(Some(todo(
            alloc,
            &[
                Want::Token(Class::Open),
                Want::Full(Full::Expression),
                Want::Token(Class::Close),
                Want::Body,
            ],
        )?)),
        Class::Do => Ok(Some(todo(
            alloc,
            &[
                Want::Body,
                Want::Token(Class::While),
                Want::Token(Class::Open),
                Want::Full(Full::Expression),
                Want::Token(Class::Close),
                Want::Token(Class::Semicolon),
            ],
        )?)),
        _ => Ok(None),
    }
}

/// What stands behind the first word of a statement.
fn plain_wants(alloc: Global, class: Class) -> Result<Option<Stack<Want>>, Memory>
    ensures { IfOk result (λ it. it ≡ spec.plain_wants class) }
{
    match class {
        Class::For => Ok(Some(todo(
            alloc,
            &[
                Want::Token(Class::Open),
                Want::ForStart,
                Want::OptionalExpression(Class::Semicolon),
                Want::OptionalExpression(Class::Close),
                Want::Body,
            ],
        )?)),
        Class::Goto => Ok(Some(todo(
            alloc,
            &[Want::Token(Class::Name), Want::Token(Class::Semicolon)],
        )?)),
        Class::Break | Class::Continue => {
            Ok(Some(todo(alloc, &[Want::Token(Class::Semicolon)])?))
        }
        Class::Return => Ok(Some(todo(alloc, &[Want::OptionalExpression(Class::Semicolon)])?)),
        Class::Semicolon => Ok(Some(Stack::new(alloc))),
        _ => construct_wants(alloc, class),
    }
}

/// How many parts a statement with this first word mostly has: the room of its list, which grows where that is too little.
fn usual_parts(class: Class) -> usize
    ensures { result ≤ 9 }
{
    match class {
        Class::For => 9,
        Class::Do => 7,
        Class::If | Class::While | Class::Switch => 5,
        Class::Goto | Class::Return => 3,
        Class::Break | Class::Continue => 2,
        _ => 1,
    }
}

pub fn at_plain(
    alloc: Global,
    stack: &mut FrameStack,
    level: u32,
    class: Class,
    at: u32,
) -> Result<Option<Load>, Memory>
    requires { at < 4294967295 }
    ensures { Steps (spec.at_plain level stack.old class at) result stack.new }
{
    if let Some(wants) = plain_wants(alloc, class)? {
        return begun_with(
            alloc,
            stack,
            OUTSIDE,
            Production::Plain,
            level,
            at,
            usual_parts(class),
            wants,
        );
    }
    if is_same(Class::OpenBlock, class) {
        rest(
            stack,
            Production::Plain,
            at,
            level,
            List::new(alloc),
            Stack::new(alloc),
        )?;
        return at_block(alloc, stack, one_deeper(level)?, class, at);
    }
    behind_operand(stack, level, at)?;
    at_operand(alloc, stack, at, class, at)
}

pub fn at_labelled(
    alloc: Global,
    stack: &mut FrameStack,
    form: Form,
    class: Class,
    at: u32,
) -> Result<Option<Load>, Memory>
    requires { at < 4294967295 }
    ensures { Steps (spec.at_labelled form stack.old class at) result stack.new }
{
    match class {
        Class::Case => {
            put_before(stack, form, Want::Labelled)?;
            let wants = [Want::Full(Full::Conditional), Want::Token(Class::Colon)];
            begun(alloc, stack, OUTSIDE, Production::Label, at, 3, &wants)
        }
        Class::Default => {
            put_before(stack, form, Want::Labelled)?;
            let wants = [Want::Token(Class::Colon)];
            begun(alloc, stack, OUTSIDE, Production::Label, at, 2, &wants)
        }
        Class::Name => {
            let form = Boxed::new(alloc, form)?;
            taken(stack, UNCOUNTED, Entry::LabelOrName(at, at + 1, form))
        }
        _ => {
            let level = form.level;
            put(stack, form)?;
            at_plain(alloc, stack, level, class, at)
        }
    }
}

/// A statement of which nothing is read, and which begins there.
pub fn statement_form(alloc: Global, first: u32, level: u32) -> Form
    ensures { result ≡ record { rule = Production.Statement; first = first; level = level; parts = []; todo = [] } }
{
    Form {
        rule: Production::Statement,
        first,
        level,
        parts: List::new(alloc),
        todo: Stack::new(alloc),
    }
}

pub fn at_statement(
    alloc: Global,
    stack: &mut FrameStack,
    level: u32,
    class: Class,
    at: u32,
) -> Result<Option<Load>, Memory>
    requires { at < 4294967295 }
    ensures { Steps (spec.at_statement level stack.old class at) result stack.new }
{
    match class {
        Class::Case | Class::Default => {
            let form = statement_form(alloc, at, level);
            at_labelled(alloc, stack, form, class, at)
        }
        Class::Name => taken(stack, UNCOUNTED, Entry::StatementName(at, at + 1, level)),
        _ => {
            stack.push(Entry::Statement(at, level))?;
            at_plain(alloc, stack, level, class, at)
        }
    }
}

/// What a block goes on with.
pub fn at_block_items(
    alloc: Global,
    stack: &mut FrameStack,
    first: u32,
    level: u32,
    mut parts: List<SyntaxNode>,
    class: Class,
    at: u32,
) -> Result<Option<Load>, Memory>
    requires { at < 4294967295 }
    ensures { Steps (machine.begin Production.Block first level parts [] Want.Items stack.old class at) result stack.new }
{
    if is_same(Class::CloseBlock, class) {
        parts.push(leaf(alloc, at))?;
        let none = Stack::new(alloc);
        let whole = Entry::Rest(Production::Block, first, level, parts, none);
        return taken(stack, OUTSIDE, whole);
    }
    stack.push(Entry::Block(first, level, parts))?;
    if starts_local(class) {
        return at_local(alloc, stack, class, at);
    }
    at_statement(alloc, stack, level, class, at)
}

/// A block as the list of a construct opens the level itself, any other statement with its first
/// token.
pub fn at_body(
    alloc: Global,
    stack: &mut FrameStack,
    level: u32,
    class: Class,
    at: u32,
) -> Result<Option<Load>, Memory>
    requires { at < 4294967295 }
    ensures { Steps (spec.at_body level stack.old class at) result stack.new }
{
    if is_same(Class::OpenBlock, class) {
        return at_statement(alloc, stack, level, class, at);
    }
    let inner = one_deeper(level)?;
    match at_statement(alloc, stack, inner, class, at)? {
        None => Ok(None),
        Some(load) => Ok(Some(Load {
            role: load.role,
            opens: Some(inner),
        })),
    }
}
