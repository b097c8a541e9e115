ghost use Rattle.std.specs.Prelude.{◌≡◌, ℕ, pos, List, codes, is_some, IfOk, OnOk};
ghost use Rattle.c_types.specs.declared.kinds.IntKind.TheVariants.{UChar, Int};
ghost use Rattle.c_types.specs.Numbers.{residue, converted};
ghost use Rattle.jump_meaning.specs.Code.{FunctionTree};
ghost use Rattle.jump_meaning.specs.Known.{next as the_next, printed_bytes, write_byte, write_bytes, call_declared, call_without_body as the_call};
ghost use Rattle.jump_meaning.specs.Values.{Value as TheValue};
ghost use Rattle.step_memory.specs.Stores.{names_of};
ghost use Rattle.step_memory.specs.Values.{values_of};
ghost use Rattle.step_interp.specs.Machines.{IsGiven};
ghost use Rattle.step_interp.specs.Calls.{Settles, SettlesQuietly};

use crate::formats::printed;
use crate::machine::{Machine, Next};
use c_types::{IntKind, Memory, Name, Trap, convert};
use step_memory::Value;
use step_tasks::{Values, integer};

/// The first argument as a number.
fn first(arguments: &mut Values<'_>) -> i128
    ensures { (ns : List (List ℕ)) → result ≡ the_next (values_of ns arguments.old) }
{
    match arguments.pop() {
        Some(value) => integer(value),
        None => 0,
    }
}

/// The first argument, converted to an int.
fn first_int(arguments: &mut Values<'_>) -> i128
    ensures { (ns : List (List ℕ)) → result ≡ converted Int (the_next (values_of ns arguments.old)) }
{
    convert(IntKind::Int, first(arguments))
}

/// The first argument, converted to an unsigned char.
fn first_byte(arguments: &mut Values<'_>) -> u8
    ensures { (ns : List (List ℕ)) → result ≡ residue UChar (the_next (values_of ns arguments.old)) }
{
    convert(IntKind::UChar, first(arguments)) as u8
}

/// The byte is the value of the call.
fn give_byte(machine: &mut Machine<'_, '_>, byte: u8) -> Result<(), Memory>
    ensures program { machine.new.program ≡ machine.old.program }
    ensures ok { OnOk result (IsGiven (pos byte) machine.old machine.new) }
{
    machine.give(byte as i128)
}

/// The number of bytes, converted to an int, is the value of the call.
fn give_count(machine: &mut Machine<'_, '_>, count: usize) -> Result<(), Memory>
    ensures program { machine.new.program ≡ machine.old.program }
    ensures ok { OnOk result (IsGiven (converted Int (pos count)) machine.old machine.new) }
{
    machine.give(convert(IntKind::Int, count as i128))
}

/// `putchar`: the byte is written, and is the value.
fn put_char<'a>(machine: &mut Machine<'_, 'a>, arguments: Values<'a>) -> Result<Next, Memory>
    ensures program { machine.new.program ≡ machine.old.program }
    ensures ok { IfOk result (λ next. Settles ⊥ (write_byte (residue UChar (the_next (values_of (names_of machine.old.store) arguments.entry)))) machine.old next machine.new) }
{
    let mut arguments = arguments;
    let byte = first_byte(&mut arguments);
    give_byte(machine, byte)?;
    Ok(Next::Writes(byte))
}

/// `printf`: the bytes are written, and their number is the value.
fn print<'a>(machine: &mut Machine<'_, 'a>, arguments: Values<'a>) -> Result<Next, Memory>
    ensures program { machine.new.program ≡ machine.old.program }
    ensures ok { IfOk result (λ next. Settles ⊥ (write_bytes (printed_bytes (values_of (names_of machine.old.store) arguments.entry))) machine.old next machine.new) }
{
    let mut arguments = arguments;
    let text = printed(machine.alloc, &mut arguments)?;
    give_count(machine, text.len())?;
    Ok(Next::Prints(text))
}

/// A function of no known name without a body, for which no answer is left.
fn without_answer(machine: &mut Machine<'_, '_>, gives: bool) -> Result<Next, Memory>
    ensures program { machine.new.program ≡ machine.old.program }
    ensures ok { IfOk result (λ next. (m : List ℕ) (f : FunctionTree) (vs : List TheValue) → gives ≡ is_some f.result → SettlesQuietly ⊥ (call_declared m f vs) machine.old next machine.new) }
{
    if gives {
        return Ok(Next::Traps(Trap::NoAnswer));
    }
    machine.call.values.push(Value::Missing)?;
    Ok(Next::Goes)
}

/// A call that enters no body, of a function that gives a value or none, with these arguments, the
/// first one on top.
pub fn call_without_body<'a>(
    machine: &mut Machine<'_, 'a>,
    name: &Name,
    gives: bool,
    arguments: Values<'a>,
) -> Result<Next, Memory>
    ensures program { machine.new.program ≡ machine.old.program }
    ensures ok { IfOk result (λ next. (f : FunctionTree) → gives ≡ is_some f.result
        → SettlesQuietly (name.now ≡ codes "getchar") (the_call name.now f (values_of (names_of machine.old.store) arguments.entry)) machine.old next machine.new) }
{
    let mut arguments = arguments;
    let name = name.as_str();
    if name == "getchar" {
        return Ok(Next::Reads);
    }
    if name == "putchar" {
        return put_char(machine, arguments);
    }
    if name == "printf" {
        return print(machine, arguments);
    }
    if name == "exit" {
        return Ok(Next::Ends(first_int(&mut arguments)));
    }
    if name == "abort" {
        return Ok(Next::Traps(Trap::Abort));
    }
    without_answer(machine, gives)
}
