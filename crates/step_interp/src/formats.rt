ghost use Rattle.std.specs.Prelude.{◌≡◌, ◌++◌, ◌∷◌, [], ℕ, List, IfOk, OnOk};
ghost use Rattle.c_types.specs.declared.kinds.IntKind.TheVariants.{UChar};
ghost use Rattle.c_types.specs.Numbers.{residue};
ghost use Rattle.jump_meaning.specs.Known.{InText, in_decimal, in_hexadecimal, next as the_next, later, printed as the_printed, printed_bytes};
ghost use Rattle.step_memory.specs.Values.{values_of};
ghost use Rattle.step_interp.specs.Readings.{ReadsByte, short_conversion, long_conversion};
ghost use Rattle.step_memory.specs.declared.value.Value.{Value as TheValue};

use c_types::{Bytes, IntKind, List, Memory, convert};
use itoa::Buffer;
use std::alloc::Global;
use step_memory::Value;
use step_tasks::{Values, integer};

/// Where the reading of a format stands.
#[derive(Clone, Copy)]
enum Reading {
    InText,
    AfterPercent,
    AfterL,
}

fn add_bytes(text: &mut List<u8>, bytes: &[u8]) -> Result<(), Memory>
    ensures ok { OnOk result (text.new ≡ text.old ++ bytes.now) }
{
    for byte in bytes {
        text.push(*byte)?;
    }
    Ok(())
}

/// A number in decimal, after its conversion to a kind.
fn add_decimal(text: &mut List<u8>, kind: IntKind, number: i128) -> Result<(), Memory>
    ensures ok { OnOk result (text.new ≡ text.old ++ in_decimal kind number) }
{
    let mut buffer = Buffer::new();
    add_bytes(text, buffer.format(convert(kind, number)).as_bytes())
}

/// A number as an unsigned int in lower-case hexadecimal.
fn add_hexadecimal(alloc: Global, text: &mut List<u8>, number: i128) -> Result<(), Memory>
    ensures ok { OnOk result (text.new ≡ text.old ++ in_hexadecimal number) }
{
    let word = convert(IntKind::UInt, number) as u32;
    let digits = format!(in alloc; "{word:x}")?;
    add_bytes(text, digits.as_bytes())
}

/// A number as an unsigned char.
fn add_character(text: &mut List<u8>, number: i128) -> Result<(), Memory>
    ensures ok { OnOk result (text.new ≡ text.old ++ residue UChar number ∷ []) }
{
    text.push(convert(IntKind::UChar, number) as u8)
}

/// Takes the next argument, the first of those that are left.
fn next(arguments: &mut Values<'_>) -> i128
    ensures value { (ns : List (List ℕ)) → result ≡ the_next (values_of ns arguments.old) }
    ensures left { (ns : List (List ℕ)) → values_of ns arguments.new ≡ later (values_of ns arguments.old) }
{
    match arguments.pop() {
        Some(value) => integer(value),
        None => 0,
    }
}

/// What a conversion of the format adds: the byte behind `%`.
fn add_converted(alloc: Global, text: &mut List<u8>, byte: u8, number: i128) -> Result<(), Memory>
    ensures ok { OnOk result (text.new ≡ text.old ++ short_conversion byte number) }
{
    match byte {
        b'd' => add_decimal(text, IntKind::Int, number),
        b'u' => add_decimal(text, IntKind::UInt, number),
        b'x' => add_hexadecimal(alloc, text, number),
        _ => add_character(text, number),
    }
}

/// What a long conversion of the format adds: the byte behind `%l`.
fn add_long(text: &mut List<u8>, byte: u8, number: i128) -> Result<(), Memory>
    ensures ok { OnOk result (text.new ≡ text.old ++ long_conversion byte number) }
{
    if byte == b'd' {
        return add_decimal(text, IntKind::Long, number);
    }
    add_decimal(text, IntKind::ULong, number)
}

/// Reads a byte of the text of a format.
fn read_text(text: &mut List<u8>, byte: u8) -> Result<Reading, Memory>
    ensures ok { IfOk result (λ it. (arguments : List TheValue) → ReadsByte Reading.InText byte it text.old text.new arguments arguments) }
{
    if byte == b'%' {
        return Ok(Reading::AfterPercent);
    }
    text.push(byte)?;
    Ok(Reading::InText)
}

/// Reads a byte behind `%`.
fn read_percent(
    alloc: Global,
    text: &mut List<u8>,
    byte: u8,
    arguments: &mut Values<'_>,
) -> Result<Reading, Memory>
    ensures ok { IfOk result (λ it. ReadsByte Reading.AfterPercent byte it text.old text.new arguments.old arguments.new) }
{
    if byte == b'%' {
        text.push(b'%')?;
        return Ok(Reading::InText);
    }
    if byte == b'l' {
        return Ok(Reading::AfterL);
    }
    let number = next(arguments);
    add_converted(alloc, text, byte, number)?;
    Ok(Reading::InText)
}

/// Reads a byte behind `%l`.
fn read_long(text: &mut List<u8>, byte: u8, arguments: &mut Values<'_>) -> Result<Reading, Memory>
    ensures ok { IfOk result (λ it. ReadsByte Reading.AfterL byte it text.old text.new arguments.old arguments.new) }
{
    let number = next(arguments);
    add_long(text, byte, number)?;
    Ok(Reading::InText)
}

/// What one byte of a format adds, and where the reading stands then.
fn read(
    alloc: Global,
    text: &mut List<u8>,
    reading: Reading,
    byte: u8,
    arguments: &mut Values<'_>,
) -> Result<Reading, Memory>
    ensures ok { IfOk result (λ it. ReadsByte reading byte it text.old text.new arguments.old arguments.new) }
{
    match reading {
        Reading::InText => read_text(text, byte),
        Reading::AfterPercent => read_percent(alloc, text, byte, arguments),
        Reading::AfterL => read_long(text, byte, arguments),
    }
}

/// The bytes that a format prints with these arguments.
fn printed_text(alloc: Global, format: &Bytes, arguments: &mut Values<'_>) -> Result<Bytes, Memory>
    ensures { IfOk result (λ it. (ns : List (List ℕ)) → it ≡ the_printed InText format.now (values_of ns arguments.old)) }
{
    let mut text = List::new(alloc);
    let mut reading = Reading::InText;
    for byte in format.as_slice() {
        reading = read(alloc, &mut text, reading, *byte, arguments)?;
    }
    Ok(text)
}

/// The bytes that a call of `printf` writes; its first argument, on top, is the format.
pub fn printed(alloc: Global, arguments: &mut Values<'_>) -> Result<Bytes, Memory>
    ensures { IfOk result (λ it. (ns : List (List ℕ)) → it ≡ printed_bytes (values_of ns arguments.old)) }
{
    match arguments.pop() {
        Some(Value::Format(format)) => printed_text(alloc, format, arguments),
        _ => Ok(List::new(alloc)),
    }
}
