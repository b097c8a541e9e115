//! What a frame does with a value, in front of the next token.

ghost use Rattle.std.specs.Prelude.{◌≡◌, ◌<◌, ◌+◌, ℕ, List, [], ◌∷◌, IfOk, OnOk};
ghost use Rattle.c_grammar.specs.Classes as classes;
ghost use Rattle.c_grammar.specs.declared.class.Class as classes_of;
ghost use Rattle.c_grammar.specs.Nodes as nodes;
ghost use Rattle.c_parse_step.specs.Machine as spec;
ghost use Rattle.c_parse_step.specs.Shown as shown;
ghost use Rattle.c_parse_step.specs.Starts as starts;
ghost use Rattle.c_parse_step.specs.Steps.{Reduces, ReducesAlone};

use crate::build::{
    commas, four, leaf, lift, more, node, one, postfix, solid, solid_assignment, solid_binary,
    solid_conditional, solid_expression, solid_unary, target, three, token, two, two_more, two_of,
};
use crate::entry::Entry;
use crate::expressions::at_type_end;
use crate::files::at_top;
use crate::form::Form;
use crate::frame::{Found, Frame, Full};
use crate::frames::FrameStack;
use crate::given::Given;
use crate::kind::{
    is_assign, is_close, is_close_index, is_colon, is_comma, is_question, is_same, is_step, level,
};
use crate::load::{COUNTED, Load, OUTSIDE, UNCOUNTED};
use crate::resume::{finished_node, resume};
use crate::statements::at_block_items;
use crate::want::want_expression;
use c_grammar::{Class, Production, SyntaxNode};
use c_types::{Boxed, List, Memory, Stack};
use std::alloc::Global;

fn post(
    alloc: Global,
    stack: &mut FrameStack,
    first: u32,
    found: Found,
    class: Class,
    at: u32,
) -> Result<Given, Memory>
    requires { at < 4294967295 }
    ensures { Reduces (spec.give (Frame.Post first ∷ stack.old) found class at) stack.old class at result stack.new }
{
    match found {
        Found::Lone(v) => {
            if !is_step(class) {
                return Ok(Given::Passed(Found::Lone(v)));
            }
            let parts = two(alloc, v, leaf(alloc, at))?;
            let stepped = postfix(first, at + 1, parts, alloc)?;
            taken(stack, COUNTED, Entry::Done(stepped))
        }
        Found::Whole(v) => Ok(Given::Passed(Found::Whole(v))),
    }
}

fn operand(alloc: Global, first: u32, found: Found, at: u32) -> Result<Given, Memory>
    ensures { ReducesAlone (Frame.Operand first) found at result }
{
    Ok(Given::Passed(lift(alloc, Production::Binary, first, at, found)?))
}

/// The token is taken, and this is awaited behind it.
fn taken(stack: &mut FrameStack, load: Load, entry: Entry) -> Result<Given, Memory>
    ensures { (z : List Frame) (t : classes_of.Class) (at : ℕ) → Reduces (starts.Takes load (shown.shown entry stack.old)) z t at result stack.new }
{
    stack.push(entry)?;
    Ok(Given::Taken(load))
}

/// The token is taken, and an assignment expression is awaited behind it.
fn await_assignment(stack: &mut FrameStack, at: u32) -> Result<Given, Memory>
    ensures { (z : List Frame) (t : classes_of.Class) (i : ℕ) → Reduces (starts.counted (starts.assignment at stack.old)) z t i result stack.new }
{
    stack.push(Entry::Begun(Full::Assignment, at))?;
    taken(stack, COUNTED, Entry::WantOperand(at))
}

/// The token is taken, and a conditional expression is awaited behind it.
fn await_conditional(stack: &mut FrameStack, at: u32) -> Result<Given, Memory>
    ensures { (z : List Frame) (t : classes_of.Class) (i : ℕ) → Reduces (starts.taken (starts.conditional at stack.old)) z t i result stack.new }
{
    stack.push(Entry::Begun(Full::Conditional, at))?;
    taken(stack, UNCOUNTED, Entry::WantOperand(at))
}

/// The operand in front of a binary mark, which is taken, and what is awaited behind it.
fn put_join(
    stack: &mut FrameStack,
    first: u32,
    operand: SyntaxNode,
    class: Class,
    at: u32,
) -> Result<Given, Memory>
    requires { at < 4294967295 }
    ensures { (z : List Frame) (t : classes_of.Class) (i : ℕ) → Reduces (starts.counted (Frame.WantUnary ∷ Frame.Operand (at + 1) ∷ Frame.Join first operand (nodes.leaf at) (at + 1) (classes.level class) ∷ stack.old)) z t i result stack.new }
{
    stack.push(Entry::Join(first, at, at + 1, level(class), operand))?;
    taken(stack, COUNTED, Entry::WantOperand(at + 1))
}

fn join(
    alloc: Global,
    stack: &mut FrameStack,
    first: u32,
    left: SyntaxNode,
    mark: u32,
    next: u32,
    bound: u32,
    found: Found,
    class: Class,
    at: u32,
) -> Result<Given, Memory>
    requires { at < 4294967295 }
    ensures { Reduces (spec.give (Frame.Join first left (shown.token mark next) next bound ∷ stack.old) found class at) stack.old class at result stack.new }
{
    let operand = solid_binary(alloc, next, at, found)?;
    if bound < level(class) {
        stack.push(Entry::Join(first, mark, next, bound, left))?;
        return put_join(stack, next, operand, class, at);
    }
    let parts = three(alloc, left, token(alloc, mark, next), operand)?;
    Ok(Given::Passed(Found::Whole(node(Production::Binary, first, at, parts))))
}

fn prefix(alloc: Global, first: u32, next: u32, found: Found, at: u32) -> Result<Given, Memory>
    ensures { ReducesAlone (Frame.Prefix first (shown.token first next) next) found at result }
{
    let operand = solid_unary(alloc, next, at, found)?;
    let parts = two(alloc, token(alloc, first, next), operand)?;
    Ok(Given::Passed(Found::Whole(node(Production::Unary, first, at, parts))))
}

fn stepped(alloc: Global, first: u32, next: u32, found: Found, at: u32) -> Result<Given, Memory>
    ensures { ReducesAlone (Frame.Stepped first (shown.token first next)) found at result }
{
    match found {
        Found::Lone(v) => {
            let parts = two(alloc, token(alloc, first, next), v)?;
            Ok(Given::Passed(Found::Whole(node(Production::Unary, first, at, parts))))
        }
        Found::Whole(_) => Ok(Given::Refused),
    }
}

fn enclosed(
    alloc: Global,
    stack: &mut FrameStack,
    first: u32,
    next: u32,
    found: Found,
    class: Class,
    at: u32,
) -> Result<Given, Memory>
    requires { at < 4294967295 }
    ensures { Reduces (spec.give (Frame.Enclosed first (shown.token first next) ∷ stack.old) found class at) stack.old class at result stack.new }
{
    match found {
        Found::Lone(v) => {
            if !is_close(class) {
                return Ok(Given::Refused);
            }
            let parts = three(alloc, token(alloc, first, next), v, leaf(alloc, at))?;
            taken(stack, UNCOUNTED, Entry::Done(target(first, at + 1, parts)))
        }
        Found::Whole(_) => Ok(Given::Refused),
    }
}

fn cast(
    alloc: Global,
    first: u32,
    parts: List<SyntaxNode>,
    next: u32,
    found: Found,
    at: u32,
) -> Result<Given, Memory>
    ensures { ReducesAlone (Frame.Cast first parts next) found at result }
{
    let operand = solid_unary(alloc, next, at, found)?;
    let parts = more(parts, operand)?;
    Ok(Given::Passed(Found::Whole(node(Production::Unary, first, at, parts))))
}

/// Puts what an expression of this rule awaits behind a conditional expression.
fn put_behind(alloc: Global, stack: &mut FrameStack, kind: Full, first: u32) -> Result<(), Memory>
    ensures { OnOk result (stack.new ≡ shown.behind kind first stack.old) }
{
    match kind {
        Full::Conditional => Ok(()),
        Full::Assignment => stack.push(Entry::Assigns(first)),
        Full::Expression => {
            stack.push(Entry::Commas(first, first, List::new(alloc)))?;
            stack.push(Entry::Assigns(first))
        }
    }
}

/// What an expression awaits behind its first operand.
fn begun(
    alloc: Global,
    stack: &mut FrameStack,
    kind: Full,
    first: u32,
    found: Found,
    class: Class,
    at: u32,
) -> Result<Given, Memory>
    requires { at < 4294967295 }
    ensures { Reduces (spec.give (shown.begun kind first stack.old) found class at) stack.old class at result stack.new }
{
    if 0 < level(class) {
        let operand = solid_binary(alloc, first, at, found)?;
        stack.push(Entry::Begun(kind, first))?;
        return put_join(stack, first, operand, class, at);
    }
    if is_question(class) {
        let test = solid_binary(alloc, first, at, found)?;
        put_behind(alloc, stack, kind, first)?;
        stack.push(Entry::ChoiceThen(first, at, at + 1, test))?;
        want_expression(stack, at + 1)?;
        return Ok(Given::Taken(COUNTED));
    }
    let whole = lift(alloc, Production::Conditional, first, at, found)?;
    behind(alloc, stack, kind, first, whole, class, at)
}

/// What an expression of this rule awaits behind a conditional expression.
fn behind(
    alloc: Global,
    stack: &mut FrameStack,
    kind: Full,
    first: u32,
    found: Found,
    class: Class,
    at: u32,
) -> Result<Given, Memory>
    requires { at < 4294967295 }
    ensures { Reduces (spec.give (shown.behind kind first stack.old) found class at) stack.old class at result stack.new }
{
    match kind {
        Full::Conditional => Ok(Given::Passed(found)),
        Full::Assignment => assigns(alloc, stack, first, found, class, at),
        Full::Expression => first_of_commas(alloc, stack, first, found, class, at),
    }
}

fn choice_then(
    alloc: Global,
    stack: &mut FrameStack,
    first: u32,
    test: SyntaxNode,
    question: u32,
    next: u32,
    found: Found,
    class: Class,
    at: u32,
) -> Result<Given, Memory>
    requires { at < 4294967295 }
    ensures { Reduces (spec.give (Frame.ChoiceThen first test (shown.token question next) next ∷ stack.old) found class at) stack.old class at result stack.new }
{
    if !is_colon(class) {
        return Ok(Given::Refused);
    }
    let then = solid_expression(alloc, next, at, found)?;
    let mark = token(alloc, question, next);
    let parts = four(alloc, test, mark, then, leaf(alloc, at))?;
    stack.push(Entry::ChoiceElse(first, at + 1, parts))?;
    await_conditional(stack, at + 1)
}

fn choice_else(
    alloc: Global,
    first: u32,
    parts: List<SyntaxNode>,
    next: u32,
    found: Found,
    at: u32,
) -> Result<Given, Memory>
    ensures { ReducesAlone (Frame.ChoiceElse first parts next) found at result }
{
    let last = solid_conditional(alloc, next, at, found)?;
    let parts = more(parts, last)?;
    Ok(Given::Passed(Found::Whole(node(Production::Conditional, first, at, parts))))
}

/// A target in front of an assignment's mark, which is taken, and what is awaited behind it.
fn put_assigns(
    alloc: Global,
    stack: &mut FrameStack,
    first: u32,
    left: SyntaxNode,
    at: u32,
) -> Result<Given, Memory>
    requires { at < 4294967295 }
    ensures { (z : List Frame) (t : classes_of.Class) (i : ℕ) → Reduces (starts.counted (starts.assignment (at + 1) (Frame.AssignsTo first (left ∷ nodes.leaf at ∷ []) (at + 1) ∷ stack.old))) z t i result stack.new }
{
    let parts = two_of(alloc, 3, left, leaf(alloc, at))?;
    stack.push(Entry::AssignsTo(first, at + 1, parts))?;
    await_assignment(stack, at + 1)
}

fn assigns(
    alloc: Global,
    stack: &mut FrameStack,
    first: u32,
    found: Found,
    class: Class,
    at: u32,
) -> Result<Given, Memory>
    requires { at < 4294967295 }
    ensures { Reduces (spec.give (Frame.Assigns first ∷ stack.old) found class at) stack.old class at result stack.new }
{
    match found {
        Found::Lone(v) => {
            if !is_assign(class) {
                return Ok(Given::Passed(Found::Lone(v)));
            }
            put_assigns(alloc, stack, first, v, at)
        }
        found => Ok(Given::Passed(lift(alloc, Production::Assignment, first, at, found)?)),
    }
}

/// What an expression becomes that may be the first of assignments with commas between them: the target of an assignment,
/// such a list, or whole.
fn first_of_commas(
    alloc: Global,
    stack: &mut FrameStack,
    first: u32,
    found: Found,
    class: Class,
    at: u32,
) -> Result<Given, Memory>
    requires { at < 4294967295 }
    ensures { Reduces (spec.give (Frame.Assigns first ∷ Frame.Commas first first [] ∷ stack.old) found class at) stack.old class at result stack.new }
{
    match found {
        Found::Lone(v) => {
            if is_assign(class) {
                stack.push(Entry::Commas(first, first, List::new(alloc)))?;
                return put_assigns(alloc, stack, first, v, at);
            }
            let none = List::new(alloc);
            after_commas(alloc, stack, first, first, none, Found::Lone(v), class, at)
        }
        found => {
            let whole = lift(alloc, Production::Assignment, first, at, found)?;
            after_commas(
                alloc,
                stack,
                first,
                first,
                List::new(alloc),
                whole,
                class,
                at,
            )
        }
    }
}

fn assigns_to(
    alloc: Global,
    first: u32,
    parts: List<SyntaxNode>,
    next: u32,
    found: Found,
    at: u32,
) -> Result<Given, Memory>
    ensures { ReducesAlone (Frame.AssignsTo first parts next) found at result }
{
    let last = solid_assignment(alloc, next, at, found)?;
    let parts = more(parts, last)?;
    Ok(Given::Passed(Found::Whole(node(Production::Assignment, first, at, parts))))
}

#[inline(always)]
fn after_commas(
    alloc: Global,
    stack: &mut FrameStack,
    first: u32,
    start: u32,
    parts: List<SyntaxNode>,
    found: Found,
    class: Class,
    at: u32,
) -> Result<Given, Memory>
    requires { at < 4294967295 }
    ensures { Reduces (spec.give (Frame.Commas first start parts ∷ stack.old) found class at) stack.old class at result stack.new }
{
    if !is_comma(class) {
        return Ok(Given::Passed(commas(alloc, first, start, at, parts, found)?));
    }
    let last = solid_assignment(alloc, start, at, found)?;
    let parts = two_more(parts, last, leaf(alloc, at))?;
    stack.push(Entry::Commas(first, at + 1, parts))?;
    await_assignment(stack, at + 1)
}

fn indexed(
    alloc: Global,
    stack: &mut FrameStack,
    first: u32,
    parts: List<SyntaxNode>,
    next: u32,
    found: Found,
    class: Class,
    at: u32,
) -> Result<Given, Memory>
    requires { at < 4294967295 }
    ensures { Reduces (spec.give (Frame.Indexed first parts next ∷ stack.old) found class at) stack.old class at result stack.new }
{
    if !is_close_index(class) {
        return Ok(Given::Refused);
    }
    let index = solid_expression(alloc, next, at, found)?;
    let parts = two_more(parts, index, leaf(alloc, at))?;
    taken(stack, UNCOUNTED, Entry::Done(target(first, at + 1, parts)))
}

fn bracketed(
    alloc: Global,
    stack: &mut FrameStack,
    first: u32,
    next: u32,
    found: Found,
    class: Class,
    at: u32,
) -> Result<Given, Memory>
    requires { at < 4294967295 }
    ensures { Reduces (spec.give (Frame.Bracketed first (shown.token first next) next ∷ stack.old) found class at) stack.old class at result stack.new }
{
    if !is_close(class) {
        return Ok(Given::Refused);
    }
    let bracket = token(alloc, first, next);
    let done = match found {
        Found::Lone(v) => target(first, at + 1, three(alloc, bracket, v, leaf(alloc, at))?),
        Found::Whole(v) => postfix(
            first,
            at + 1,
            three(alloc, bracket, v, leaf(alloc, at))?,
            alloc,
        )?,
    };
    taken(stack, UNCOUNTED, Entry::Done(done))
}

fn argument_seen(alloc: Global, first: u32, found: Found, at: u32) -> Result<Given, Memory>
    ensures { ReducesAlone (Frame.ArgumentSeen first) found at result }
{
    let inner = solid_assignment(alloc, first, at, found)?;
    let whole = SyntaxNode::around(alloc, Production::Argument, first, at, inner)?;
    Ok(Given::Passed(Found::Whole(whole)))
}

fn arguments(
    alloc: Global,
    stack: &mut FrameStack,
    first: u32,
    parts: List<SyntaxNode>,
    found: Found,
    class: Class,
    at: u32,
) -> Result<Given, Memory>
    requires { at < 4294967295 }
    ensures { Reduces (spec.give (Frame.Arguments first parts ∷ stack.old) found class at) stack.old class at result stack.new }
{
    match found {
        Found::Lone(_) => Ok(Given::Refused),
        Found::Whole(v) => {
            if is_comma(class) {
                let parts = two_more(parts, v, leaf(alloc, at))?;
                stack.push(Entry::Arguments(first, parts))?;
                return taken(stack, UNCOUNTED, Entry::WantArgument);
            }
            if is_close(class) {
                let parts = two_more(parts, v, leaf(alloc, at))?;
                let call = postfix(first, at + 1, parts, alloc)?;
                return taken(stack, UNCOUNTED, Entry::Done(call));
            }
            Ok(Given::Refused)
        }
    }
}

fn cast_end(
    alloc: Global,
    stack: &mut FrameStack,
    first: u32,
    next: u32,
    found: Found,
    class: Class,
    at: u32,
) -> Result<Given, Memory>
    requires { at < 4294967295 }
    ensures { Reduces (spec.give (Frame.CastType first (shown.token first next) ∷ stack.old) found class at) stack.old class at result stack.new }
{
    match found {
        Found::Lone(_) => Ok(Given::Refused),
        Found::Whole(v) => match at_type_end(alloc, stack, first, next, v, class, at)? {
            Some(load) => Ok(Given::Taken(load)),
            None => Ok(Given::Refused),
        },
    }
}

fn whole(alloc: Global, kind: Full, start: u32, found: Found, at: u32) -> Result<Given, Memory>
    ensures { ReducesAlone (Frame.Whole kind start) found at result }
{
    Ok(Given::Passed(Found::Whole(solid(alloc, kind, start, at, found)?)))
}

/// The expression of a statement in front of its semicolon.
fn sentence(
    alloc: Global,
    stack: &mut FrameStack,
    first: u32,
    level: u32,
    found: Found,
    class: Class,
    at: u32,
) -> Result<Given, Memory>
    requires { at < 4294967295 }
    ensures { Reduces (spec.give (shown.shown (Entry.Sentence first level) stack.old) found class at) stack.old class at result stack.new }
{
    if !is_same(Class::Semicolon, class) {
        drop(found);
        return Ok(Given::Refused);
    }
    let whole = solid_expression(alloc, first, at, found)?;
    let parts = two(alloc, whole, leaf(alloc, at))?;
    let none = Stack::new(alloc);
    taken(
        stack,
        OUTSIDE,
        Entry::Rest(Production::Plain, first, level, parts, none),
    )
}

/// A statement that has no labels, once it is read.
fn statement(alloc: Global, first: u32, level: u32, found: Found, at: u32) -> Result<Given, Memory>
    ensures { ReducesAlone (starts.rest Production.Statement first level [] []) found at result }
{
    match found {
        Found::Lone(_) => Ok(Given::Refused),
        Found::Whole(v) => {
            let parts = one(alloc, v)?;
            Ok(Given::Passed(Found::Whole(node(Production::Statement, first, at, parts))))
        }
    }
}

/// One more item of a block.
fn item(
    alloc: Global,
    stack: &mut FrameStack,
    first: u32,
    level: u32,
    mut parts: List<SyntaxNode>,
    found: Found,
    class: Class,
    at: u32,
) -> Result<Given, Memory>
    requires { at < 4294967295 }
    ensures { Reduces (spec.give (shown.shown (Entry.Block first level parts) stack.old) found class at) stack.old class at result stack.new }
{
    match found {
        Found::Lone(_) => Ok(Given::Refused),
        Found::Whole(v) => {
            parts.push(v)?;
            match at_block_items(alloc, stack, first, level, parts, class, at)? {
                Some(load) => Ok(Given::Taken(load)),
                None => Ok(Given::Refused),
            }
        }
    }
}

fn rest_of_node(
    alloc: Global,
    stack: &mut FrameStack,
    mut form: Form,
    found: Found,
    class: Class,
    at: u32,
) -> Result<Given, Memory>
    requires { at < 4294967295 }
    ensures { Reduces (spec.give (Frame.Rest form ∷ stack.old) found class at) stack.old class at result stack.new }
{
    match found {
        Found::Lone(_) => Ok(Given::Refused),
        Found::Whole(v) => {
            form.parts.push(v)?;
            if form.todo.is_empty() {
                return Ok(Given::Passed(Found::Whole(finished_node(form, at))));
            }
            resume(alloc, stack, form, class, at)
        }
    }
}

fn top_type(
    alloc: Global,
    stack: &mut FrameStack,
    first: u32,
    parts: List<SyntaxNode>,
    start: u32,
    found: Found,
    class: Class,
    at: u32,
) -> Result<Given, Memory>
    requires { at < 4294967295 }
    ensures { Reduces (spec.give (Frame.TopType first parts start ∷ stack.old) found class at) stack.old class at result stack.new }
{
    match found {
        Found::Lone(_) => Ok(Given::Refused),
        Found::Whole(v) => {
            if !is_same(Class::Name, class) {
                return Ok(Given::Refused);
            }
            let kind = Boxed::new(alloc, v)?;
            taken(
                stack,
                OUTSIDE,
                Entry::TopName(first, start, at, at + 1, parts, kind),
            )
        }
    }
}

fn tops(
    alloc: Global,
    stack: &mut FrameStack,
    parts: List<SyntaxNode>,
    found: Found,
    class: Class,
    at: u32,
) -> Result<Given, Memory>
    requires { at < 4294967295 }
    ensures { Reduces (spec.give (Frame.Tops parts ∷ stack.old) found class at) stack.old class at result stack.new }
{
    match found {
        Found::Lone(_) => Ok(Given::Refused),
        Found::Whole(v) => {
            let parts = more(parts, v)?;
            match at_top(alloc, stack, parts, class, at)? {
                Some(load) => Ok(Given::Taken(load)),
                None => Ok(Given::Refused),
            }
        }
    }
}

/// What the frames that stood on top of the stack do.
#[inline(always)]
pub fn reduce(
    alloc: Global,
    stack: &mut FrameStack,
    entry: Entry,
    found: Found,
    class: Class,
    at: u32,
) -> Result<Given, Memory>
    requires { at < 4294967295 }
    ensures { Reduces (spec.give (shown.shown entry stack.old) found class at) stack.old class at result stack.new }
{
    match entry {
        Entry::Post(first) => post(alloc, stack, first, found, class, at),
        Entry::Prefix(first, next) => prefix(alloc, first, next, found, at),
        Entry::Stepped(first, next) => stepped(alloc, first, next, found, at),
        Entry::Enclosed(first, next) => enclosed(alloc, stack, first, next, found, class, at),
        Entry::Cast(first, next, parts) => cast(alloc, first, parts, next, found, at),
        Entry::Operand(first) => operand(alloc, first, found, at),
        Entry::Join(first, mark, next, bound, left) => join(
            alloc, stack, first, left, mark, next, bound, found, class, at,
        ),
        Entry::Begun(kind, first) => begun(alloc, stack, kind, first, found, class, at),
        Entry::ChoiceThen(first, question, next, test) => choice_then(
            alloc, stack, first, test, question, next, found, class, at,
        ),
        Entry::ChoiceElse(first, next, parts) => choice_else(alloc, first, parts, next, found, at),
        Entry::Assigns(first) => assigns(alloc, stack, first, found, class, at),
        Entry::AssignsTo(first, next, parts) => assigns_to(alloc, first, parts, next, found, at),
        Entry::Commas(first, start, parts) => {
            after_commas(alloc, stack, first, start, parts, found, class, at)
        }
        Entry::Indexed(first, next, parts) => {
            indexed(alloc, stack, first, parts, next, found, class, at)
        }
        Entry::Bracketed(first, next) => bracketed(alloc, stack, first, next, found, class, at),
        Entry::ArgumentSeen(first) => argument_seen(alloc, first, found, at),
        Entry::Arguments(first, parts) => arguments(alloc, stack, first, parts, found, class, at),
        Entry::CastType(first, next) => cast_end(alloc, stack, first, next, found, class, at),
        Entry::Whole(kind, start) => whole(alloc, kind, start, found, at),
        Entry::Rest(rule, first, level, parts, todo) => {
            let form = Form {
                rule,
                first,
                level,
                parts,
                todo,
            };
            rest_of_node(alloc, stack, form, found, class, at)
        }
        Entry::Block(first, level, parts) => {
            item(alloc, stack, first, level, parts, found, class, at)
        }
        Entry::Statement(first, level) => statement(alloc, first, level, found, at),
        Entry::Sentence(first, level) => { sentence(alloc, stack, first, level, found, class, at) }
        Entry::TopType(first, start, parts) => {
            top_type(alloc, stack, first, parts, start, found, class, at)
        }
        Entry::Tops(parts) => tops(alloc, stack, parts, found, class, at),
        // The others await no value. A silent drop would be proved part by part.
        _ => {
            drop(entry);
            drop(found);
            Ok(Given::Refused)
        }
    }
}
