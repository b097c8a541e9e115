//! The names at a place, and what a name in an expression stands for.

ghost use Rattle.std.specs.Prelude.{◌≡◌, IfOk, OnOk};
ghost use Rattle.std.specs.Option.{option_copied};
ghost use Rattle.c_kinds.specs.Names as spec;
ghost use Rattle.c_kinds.specs.Scopes.{meaning as the_meaning};
ghost use Rattle.c_kinds.specs.Views.{env_of};

use crate::binding::{Binding, Shape};
use crate::faults::report;
use crate::scopes::Scopes;
use crate::typed::{Fault, Typed, Variable};
use crate::values::{enum_name, variable};
use c_grammar::Words;
use c_tree::{Home, Node};
use c_types::{Memory, Name, Stack, reasons};
use std::alloc::Global;

/// The names at a place of the file: the words of the tokens, and the scopes around it.
#[derive(Drop)]
pub struct Known<'a> {
    pub words: Words<'a>,
    pub scopes: Scopes<'a>,
}

/// A name of the text. Bytes that are no text, as no name is, are refused as for want of memory.
pub fn name_of(alloc: Global, bytes: &[u8]) -> Result<Name, Memory>
    ensures { IfOk result (λ n. n ≡ bytes.now) }
{
    match std::str::from_utf8(bytes) {
        Ok(text) => Ok(Name::from_string(String::from_str(alloc, text)?)),
        Err(_) => Err(Memory),
    }
}

/// What the name of a token is bound to.
pub fn meaning<'k>(known: &'k Known, at: u32) -> Option<&'k Binding>
    ensures { option_copied result ≡ the_meaning (env_of known.now) at }
{
    known.scopes.look_up(known.words.get(at))
}

/// The variable that a name is bound to.
pub fn variable_of(
    alloc: Global,
    name: &[u8],
    binding: Option<&Binding>,
) -> Result<Option<Variable>, Memory>
    ensures { IfOk result (λ x. x ≡ spec.variable_of name.now (option_copied binding.entry)) }
{
    match binding {
        Some(Binding::Global(shape)) => {
            let home = Home::Global(name_of(alloc, name)?);
            Ok(Some(Variable {
                home,
                shape: *shape,
            }))
        }
        Some(Binding::Local(slot, shape)) => Ok(Some(Variable {
            home: Home::Slot(*slot),
            shape: *shape,
        })),
        _ => Ok(None),
    }
}

/// A name that is no called function.
pub fn named(
    alloc: Global,
    at: u32,
    name: &[u8],
    binding: Option<&Binding>,
) -> Result<Typed, Memory>
    ensures { IfOk result (λ x. x ≡ spec.named at name.now (option_copied binding.entry)) }
{
    if let Some(Binding::Constant(value)) = binding {
        return Ok(enum_name(name_of(alloc, name)?, *value));
    }
    match variable_of(alloc, name, binding)? {
        Some(x) => Ok(variable(at, x)),
        None => Ok(Typed::Wrong),
    }
}

/// Reports a name that is not declared, and a function that is not called.
pub fn report_name(
    faults: &mut Stack<Fault>,
    at: u32,
    binding: Option<&Binding>,
) -> Result<(), Memory>
    ensures { OnOk result (faults.new ≡ spec.name_fault at (option_copied binding.entry) faults.old) }
{
    match binding {
        None => report(faults, at, reasons::NOT_DECLARED),
        Some(Binding::Function(_)) => report(faults, at, reasons::WRONG_KIND),
        Some(Binding::Printf) => report(faults, at, reasons::WRONG_KIND),
        Some(_) => Ok(()),
    }
}

fn report_shape(
    faults: &mut Stack<Fault>,
    writes: bool,
    indexed: bool,
    at: u32,
    shape: Shape,
) -> Result<(), Memory>
    ensures { OnOk result (faults.new ≡ spec.shape_fault writes indexed at shape faults.old) }
{
    if shape.array != indexed {
        return report(faults, at, reasons::WRONG_KIND);
    }
    if writes && shape.constant {
        return report(faults, at, reasons::CONST_ASSIGNED);
    }
    Ok(())
}

/// Reports a name in the place of a target that can't be one.
pub fn report_target(
    faults: &mut Stack<Fault>,
    writes: bool,
    indexed: bool,
    at: u32,
    binding: Option<&Binding>,
) -> Result<(), Memory>
    ensures { OnOk result (faults.new ≡ spec.target_fault writes indexed at (option_copied binding.entry) faults.old) }
{
    match binding {
        None => report(faults, at, reasons::NOT_DECLARED),
        Some(Binding::Global(shape)) => report_shape(faults, writes, indexed, at, *shape),
        Some(Binding::Local(_, shape)) => report_shape(faults, writes, indexed, at, *shape),
        Some(_) => report(faults, at, reasons::WRONG_KIND),
    }
}
