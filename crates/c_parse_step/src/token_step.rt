//! One token more.

ghost use Rattle.std.specs.Prelude.{◌≡◌, ◌<◌, ◌∷◌, ◌++◌, [], OnOk};
ghost use Rattle.c_grammar.specs.Nodes as nodes;
ghost use Rattle.c_parse_step.specs.Machine as spec;
ghost use Rattle.c_parse_step.specs.Shown as shown;
ghost use Rattle.c_parse_step.specs.Nodes as nodes_of;
ghost use Rattle.c_parse_step.specs.Starts as starts;
ghost use Rattle.c_parse_step.specs.Steps.{Steps};

use crate::build::{
    constant, leaf, lift, more, node, of_function, one, postfix, three, token, two, two_more,
    two_of, variable,
};
use crate::entry::Entry;
use crate::expressions::{at_argument, at_opened, at_operand, at_target, at_type_end, at_unary};
use crate::files::{at_external, at_top};
use crate::form::{Form, Lead, Want};
use crate::frame::{Found, Frame, Full};
use crate::frames::FrameStack;
use crate::given::Given;
use crate::kind::{is_close, is_open, is_open_index, is_same, is_step, is_text};
use crate::load::{COUNTED, Load, OUTSIDE, UNCOUNTED};
use crate::reduce::reduce;
use crate::resume::{finished_node, resume};
use crate::statements::{at_block_items, statement_form};
use crate::want::{behind_operand, put, put_before, rest, taken, todo, want_expression};
use c_grammar::{Class, Production, SyntaxNode};
use c_types::{List, Memory, Stack};
use std::alloc::Global;

/// Hands a value to the frames, down to the one that takes the token.
#[tactic(auto, using(crate::proofs::Entries::shown_longer))]
fn give(
    alloc: Global,
    stack: &mut FrameStack,
    mut found: Found,
    class: Class,
    at: u32,
) -> Result<Option<Load>, Memory>
    requires { at < 4294967295 }
    ensures { Steps (spec.give stack.old found class at) result stack.new }
{
    while let Some(entry) = stack.pop() {
        match reduce(alloc, stack, entry, found, class, at)? {
            Given::Taken(load) => return Ok(Some(load)),
            Given::Refused => return Ok(None),
            Given::Passed(v) => found = v,
        }
    }
    Ok(None)
}

#[inline(always)]
fn resumed(
    alloc: Global,
    stack: &mut FrameStack,
    form: Form,
    class: Class,
    at: u32,
) -> Result<Option<Load>, Memory>
    requires { at < 4294967295 }
    ensures { Steps (spec.resume form stack.old class at) result stack.new }
{
    if form.todo.is_empty() {
        let whole = finished_node(form, at);
        return give(alloc, stack, Found::Whole(whole), class, at);
    }
    match resume(alloc, stack, form, class, at)? {
        Given::Taken(load) => Ok(Some(load)),
        Given::Refused => Ok(None),
        Given::Passed(v) => give(alloc, stack, v, class, at),
    }
}

/// Behind a name that begins a target.
fn at_index(
    alloc: Global,
    stack: &mut FrameStack,
    first: u32,
    after: u32,
    class: Class,
    at: u32,
) -> Result<Option<Load>, Memory>
    requires { at < 4294967295 }
    ensures { Steps (spec.at_index first (shown.token first after) stack.old class at) result stack.new }
{
    let name = token(alloc, first, after);
    if is_open_index(class) {
        let parts = two_of(alloc, 4, name, leaf(alloc, at))?;
        stack.push(Entry::Indexed(first, at + 1, parts))?;
        want_expression(stack, at + 1)?;
        return Ok(Some(COUNTED));
    }
    let found = variable(alloc, first, at, name)?;
    give(alloc, stack, found, class, at)
}

/// Behind a name that begins a target or a call.
fn at_named(
    alloc: Global,
    stack: &mut FrameStack,
    first: u32,
    after: u32,
    class: Class,
    at: u32,
) -> Result<Option<Load>, Memory>
    requires { at < 4294967295 }
    ensures { Steps (spec.at_named first (shown.token first after) stack.old class at) result stack.new }
{
    if is_open(class) {
        return taken(stack, COUNTED, Entry::Called(first, after, at, at + 1));
    }
    at_index(alloc, stack, first, after, class, at)
}

/// Behind a name that begins an operand.
#[inline(always)]
fn at_named_operand(
    alloc: Global,
    stack: &mut FrameStack,
    name: u32,
    after: u32,
    first: u32,
    class: Class,
    at: u32,
) -> Result<Option<Load>, Memory>
    requires { at < 4294967295 }
    ensures { Steps (spec.at_named name (shown.token name after) (Frame.Post name ∷ Frame.Operand first ∷ stack.old) class at) result stack.new }
{
    if is_open(class) || is_open_index(class) || is_step(class) {
        stack.push(Entry::Operand(first))?;
        stack.push(Entry::Post(name))?;
        return at_named(alloc, stack, name, after, class, at);
    }
    let mark = token(alloc, name, after);
    let found = variable(alloc, name, at, mark)?;
    give(alloc, stack, found, class, at)
}

/// Behind a constant that is an operand.
fn at_constant_operand(
    alloc: Global,
    stack: &mut FrameStack,
    constant_at: u32,
    after: u32,
    first: u32,
    class: Class,
    at: u32,
) -> Result<Option<Load>, Memory>
    requires { at < 4294967295 }
    ensures { Steps (spec.give (Frame.Operand first ∷ stack.old) (nodes_of.postfix constant_at after (shown.token constant_at after ∷ [])) class at) result stack.new }
{
    let value = constant(alloc, constant_at, after)?;
    let found = lift(alloc, Production::Binary, first, at, value)?;
    give(alloc, stack, found, class, at)
}

fn at_called(
    alloc: Global,
    stack: &mut FrameStack,
    first: u32,
    after: u32,
    bracket: u32,
    next: u32,
    class: Class,
    at: u32,
) -> Result<Option<Load>, Memory>
    requires { at < 4294967295 }
    ensures { Steps (spec.step (Frame.Called first (shown.token first after) (shown.token bracket next) ∷ stack.old) class at) result stack.new }
{
    let name = token(alloc, first, after);
    let opened = token(alloc, bracket, next);
    if is_close(class) {
        let parts = three(alloc, name, opened, leaf(alloc, at))?;
        let call = postfix(first, at + 1, parts, alloc)?;
        return taken(stack, UNCOUNTED, Entry::Done(call));
    }
    let parts = two_of(alloc, 4, name, opened)?;
    stack.push(Entry::Arguments(first, parts))?;
    at_argument(alloc, stack, class, at)
}

fn at_texts(
    alloc: Global,
    stack: &mut FrameStack,
    first: u32,
    parts: List<SyntaxNode>,
    class: Class,
    at: u32,
) -> Result<Option<Load>, Memory>
    requires { at < 4294967295 }
    ensures { Steps (spec.step (Frame.Texts first parts ∷ stack.old) class at) result stack.new }
{
    if is_text(class) {
        let parts = more(parts, leaf(alloc, at))?;
        return taken(stack, UNCOUNTED, Entry::Texts(first, parts));
    }
    let whole = node(Production::Argument, first, at, parts);
    give(alloc, stack, Found::Whole(whole), class, at)
}

/// The name of a label, in front of the statement that is left of this node.
fn put_label(
    alloc: Global,
    stack: &mut FrameStack,
    name: u32,
    after: u32,
    form: Form,
    at: u32,
) -> Result<(), Memory>
    requires { at < 4294967295 }
    ensures { OnOk result (stack.new ≡ starts.rest Production.Label name 0 (shown.token name after ∷ nodes.leaf at ∷ []) [] ∷ Frame.Rest (record form { todo = Want.Labelled ∷ form.todo }) ∷ stack.old) }
{
    let parts = two(alloc, token(alloc, name, after), leaf(alloc, at))?;
    put_before(stack, form, Want::Labelled)?;
    rest(stack, Production::Label, name, 0, parts, Stack::new(alloc))
}

/// Behind a name that begins a statement.
fn at_label_or_name(
    alloc: Global,
    stack: &mut FrameStack,
    name: u32,
    after: u32,
    form: Form,
    class: Class,
    at: u32,
) -> Result<Option<Load>, Memory>
    requires { at < 4294967295 }
    ensures { Steps (spec.at_label_or_name name (shown.token name after) form stack.old class at) result stack.new }
{
    if is_same(Class::Colon, class) {
        put_label(alloc, stack, name, after, form, at)?;
        return Ok(Some(OUTSIDE));
    }
    let level = form.level;
    put(stack, form)?;
    behind_operand(stack, level, name)?;
    at_named_operand(alloc, stack, name, after, name, class, at)
}

/// Behind a name that begins a statement without labels.
fn at_statement_name(
    alloc: Global,
    stack: &mut FrameStack,
    name: u32,
    after: u32,
    level: u32,
    class: Class,
    at: u32,
) -> Result<Option<Load>, Memory>
    requires { at < 4294967295 }
    ensures { Steps (spec.step (shown.shown (Entry.StatementName name after level) stack.old) class at) result stack.new }
{
    if is_same(Class::Colon, class) {
        let form = statement_form(alloc, name, level);
        put_label(alloc, stack, name, after, form, at)?;
        return Ok(Some(OUTSIDE));
    }
    stack.push(Entry::Statement(name, level))?;
    behind_operand(stack, level, name)?;
    at_named_operand(alloc, stack, name, after, name, class, at)
}

/// The name of a function, with what stands in front of it and the bracket behind it, and what is awaited there.
fn put_function(
    alloc: Global,
    stack: &mut FrameStack,
    first: u32,
    parts: List<SyntaxNode>,
    kind: SyntaxNode,
    name: u32,
    after: u32,
    at: u32,
) -> Result<(), Memory>
    requires { at < 4294967295 }
    ensures { OnOk result (stack.new ≡ starts.rest Production.Function first 0 (parts ++ kind ∷ shown.token name after ∷ nodes.leaf at ∷ []) (Want.Parameters ∷ Want.Token Class.Close ∷ Want.FunctionEnd ∷ []) ∷ stack.old) }
{
    let parts = more(of_function(parts)?, kind)?;
    let parts = two_more(parts, token(alloc, name, after), leaf(alloc, at))?;
    let wants = todo(
        alloc,
        &[
            Want::Parameters,
            Want::Token(Class::Close),
            Want::FunctionEnd,
        ],
    )?;
    rest(stack, Production::Function, first, 0, parts, wants)
}

/// What is awaited for a declaration of this type behind its first declarator.
fn put_declared(
    alloc: Global,
    stack: &mut FrameStack,
    first: u32,
    parts: List<SyntaxNode>,
    start: u32,
    kind: SyntaxNode,
) -> Result<(), Memory>
    ensures { OnOk result (stack.new ≡ spec.declared first parts start kind stack.old) }
{
    let kinds = one(alloc, kind)?;
    let none = Stack::new(alloc);
    rest(stack, Production::Declaration, first, 0, parts, none)?;
    let wants = todo(
        alloc,
        &[
            Want::Optional(Lead::Declarators),
            Want::Token(Class::Semicolon),
        ],
    )?;
    rest(stack, Production::Local, start, 0, kinds, wants)
}

/// Behind the name of a declaration or a function.
fn at_top_name(
    alloc: Global,
    stack: &mut FrameStack,
    first: u32,
    parts: List<SyntaxNode>,
    start: u32,
    kind: SyntaxNode,
    name: u32,
    after: u32,
    class: Class,
    at: u32,
) -> Result<Option<Load>, Memory>
    requires { at < 4294967295 }
    ensures { Steps (spec.at_top_name first parts start kind name (shown.token name after) stack.old class at) result stack.new }
{
    if is_same(Class::Open, class) {
        put_function(alloc, stack, first, parts, kind, name, after, at)?;
        return Ok(Some(OUTSIDE));
    }
    put_declared(alloc, stack, first, parts, start, kind)?;
    let todo = todo(
        alloc,
        &[Want::Optional(Lead::Size), Want::Optional(Lead::Value)],
    )?;
    let form = Form {
        rule: Production::Declarator,
        first: name,
        level: 0,
        parts: one(alloc, token(alloc, name, after))?,
        todo,
    };
    resumed(alloc, stack, form, class, at)
}

/// Takes one more token, the one with the number `at`, of which only the class counts. `None` where no file goes on
/// with it; after that, as after want of memory, the stack is given up. What the limits have to know of a token that
/// is taken is answered (docs/SUBSET.md).
pub fn step(
    alloc: Global,
    stack: &mut FrameStack,
    class: Class,
    at: u32,
) -> Result<Option<Load>, Memory>
    requires { at < 4294967295 }
    ensures { Steps (spec.step stack.old class at) result stack.new }
{
    let Some(entry) = stack.pop() else {
        return Ok(None);
    };
    match entry {
        Entry::WantUnary => at_unary(alloc, stack, class, at),
        Entry::WantOperand(first) => at_operand(alloc, stack, first, class, at),
        Entry::WantTarget => at_target(alloc, stack, class, at),
        Entry::WantArgument => at_argument(alloc, stack, class, at),
        Entry::Opened(first, next) => at_opened(alloc, stack, first, next, class, at),
        Entry::VoidSeen(first, next, word, after) => {
            let kind = token(alloc, word, after);
            at_type_end(alloc, stack, first, next, kind, class, at)
        }
        Entry::Named(name, after) => at_named(alloc, stack, name, after, class, at),
        Entry::NamedOperand(name, after, first) => {
            at_named_operand(alloc, stack, name, after, first, class, at)
        }
        Entry::TargetNamed(name, after) => at_index(alloc, stack, name, after, class, at),
        Entry::Called(first, after, bracket, next) => {
            at_called(alloc, stack, first, after, bracket, next, class, at)
        }
        Entry::Texts(first, parts) => at_texts(alloc, stack, first, parts, class, at),
        Entry::Done(found) => give(alloc, stack, found, class, at),
        Entry::ConstantOperand(constant_at, after, first) => {
            at_constant_operand(alloc, stack, constant_at, after, first, class, at)
        }
        Entry::Rest(rule, first, level, parts, todo) => {
            let form = Form {
                rule,
                first,
                level,
                parts,
                todo,
            };
            resumed(alloc, stack, form, class, at)
        }
        Entry::Block(first, level, parts) => {
            at_block_items(alloc, stack, first, level, parts, class, at)
        }
        Entry::Statement(first, level) => {
            resumed(alloc, stack, statement_form(alloc, first, level), class, at)
        }
        Entry::StatementName(name, after, level) => {
            at_statement_name(alloc, stack, name, after, level, class, at)
        }
        Entry::LabelOrName(name, after, form) => {
            at_label_or_name(alloc, stack, name, after, form.into_inner(), class, at)
        }
        Entry::External(first, parts) => at_external(alloc, stack, first, parts, class, at),
        Entry::TopName(first, start, name, after, parts, kind) => {
            let kind = kind.into_inner();
            at_top_name(
                alloc, stack, first, parts, start, kind, name, after, class, at,
            )
        }
        Entry::Tops(parts) => at_top(alloc, stack, parts, class, at),
        // The others await a value first, or nothing more; dropped by name as in `reduce`.
        _ => {
            drop(entry);
            Ok(None)
        }
    }
}
