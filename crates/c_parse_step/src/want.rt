//! What is awaited for a node that begins at a place.

ghost use Rattle.std.specs.Prelude.{◌≡◌, [], ◌∷◌, OnOk, IfOk};
ghost use Rattle.c_parse_step.specs.Machine as machine;
ghost use Rattle.c_parse_step.specs.Shown as shown;
ghost use Rattle.c_parse_step.specs.Starts as spec;
ghost use Rattle.c_parse_step.specs.Steps.{Steps};

use crate::entry::Entry;
use crate::form::{Form, Lead, Want};
use crate::frame::{Frame, Full};
use crate::frames::FrameStack;
use crate::load::Load;
use c_grammar::{Class, Production, SyntaxNode};
use c_types::{List, Memory, Stack};
use std::alloc::Global;

pub fn want_expression(stack: &mut FrameStack, at: u32) -> Result<(), Memory>
    ensures { OnOk result (stack.new ≡ spec.expression at stack.old) }
{
    stack.push(Entry::Begun(Full::Expression, at))?;
    stack.push(Entry::WantOperand(at))
}

/// The frames of a full expression behind its first operand.
pub fn behind_full(stack: &mut FrameStack, kind: Full, at: u32) -> Result<(), Memory>
    ensures { OnOk result (stack.new ≡ shown.begun kind at (Frame.Whole kind at ∷ stack.old)) }
{
    stack.push(Entry::Whole(kind, at))?;
    stack.push(Entry::Begun(kind, at))
}

/// The token is taken, and this is awaited behind it. A call of this is cheaper to prove than a push with a `?`.
pub fn taken(stack: &mut FrameStack, load: Load, entry: Entry) -> Result<Option<Load>, Memory>
    ensures { Steps (spec.Takes load (shown.shown entry stack.old)) result stack.new }
{
    stack.push(entry)?;
    Ok(Some(load))
}

/// The token is taken, and these two are awaited behind it, the second one first.
pub fn both_taken(
    stack: &mut FrameStack,
    load: Load,
    below: Entry,
    top: Entry,
) -> Result<Option<Load>, Memory>
    ensures { Steps (spec.Takes load (shown.shown top (shown.shown below stack.old))) result stack.new }
{
    match stack.push(below) {
        Ok(()) => taken(stack, load, top),
        // said, as what an entry holds would be let go part by part here
        Err(e) => {
            drop(top);
            Err(e)
        }
    }
}

/// What is awaited behind the name with which an expression statement begins.
pub fn behind_operand(stack: &mut FrameStack, level: u32, name: u32) -> Result<(), Memory>
    ensures { OnOk result (stack.new ≡ shown.begun Full.Expression name (Frame.Whole Full.Expression name ∷ spec.rest Production.Plain name level [] (Want.Token Class.Semicolon ∷ []) ∷ stack.old)) }
{
    stack.push(Entry::Sentence(name, level))?;
    stack.push(Entry::Begun(Full::Expression, name))
}

/// What is left of a production.
pub fn todo(alloc: Global, wants: &[Want]) -> Result<Stack<Want>, Memory>
    ensures { IfOk result (λ it. it ≡ wants.now) }
{
    let mut left = Stack::new(alloc);
    let mut i = wants.len();
    while i > 0 {
        i -= 1;
        left.push(wants[i])?;
    }
    Ok(left)
}

/// Puts what is left of a node on the stack.
pub fn rest(
    stack: &mut FrameStack,
    rule: Production,
    first: u32,
    level: u32,
    parts: List<SyntaxNode>,
    todo: Stack<Want>,
) -> Result<(), Memory>
    ensures { OnOk result (stack.new ≡ spec.rest rule first level parts todo ∷ stack.old) }
{
    stack.push(Entry::Rest(rule, first, level, parts, todo))
}

/// Puts a form on the stack.
pub fn put(stack: &mut FrameStack, form: Form) -> Result<(), Memory>
    ensures { OnOk result (stack.new ≡ Frame.Rest form ∷ stack.old) }
{
    let Form {
        rule,
        first,
        level,
        parts,
        todo,
    } = form;
    stack.push(Entry::Rest(rule, first, level, parts, todo))
}

/// Puts a form on the stack, with this in front of what is left of it.
pub fn put_before(stack: &mut FrameStack, mut form: Form, want: Want) -> Result<(), Memory>
    ensures { OnOk result (stack.new ≡ Frame.Rest (record form { todo = want ∷ form.todo }) ∷ stack.old) }
{
    form.todo.push(want)?;
    put(stack, form)
}

/// What stands behind the token that leads in what may be left out.
pub fn lead_in(todo: &mut Stack<Want>, lead: Lead) -> Result<(), Memory>
    ensures { OnOk result (todo.new ≡ machine.follow lead todo.old) }
{
    match lead {
        Lead::Const | Lead::Name | Lead::Int => Ok(()),
        Lead::Size => todo.push(Want::Length),
        Lead::Value => todo.push(Want::Initialiser),
        Lead::Constant => todo.push(Want::Full(Full::Conditional)),
        Lead::Else => todo.push(Want::Body),
        Lead::Declarators => {
            todo.push(Want::Optional(Lead::Declarators))?;
            todo.push(Want::Declarator)
        }
        Lead::Parameters => {
            todo.push(Want::Optional(Lead::Parameters))?;
            todo.push(Want::Parameter)
        }
    }
}
