//! What character constants and texts write (ISO/IEC 9899:2011, 6.4.4.4 and 6.4.5).

ghost use Rattle.std.specs.Prelude.{◌≡◌, ◌++◌, ◌<◌, ◌≤◌, ◌+◌, ◌*◌, ◌%◌, OnOk, IfOk, length};
ghost use Rattle.c_lexer.specs.Bytes as bytes;
ghost use Rattle.c_grammar.specs.DecodingSteps as steps;
ghost use Rattle.c_grammar.specs.Words as spec;

use crate::decoding::Decoding;
use c_lexer::{digit_value, is_hexadecimal_digit, is_octal_digit};
use c_types::{Bytes, List, Memory};
use std::alloc::Global;

fn escape_value(byte: u8) -> u8
    ensures { result ≡ spec.escape_value byte }
{
    match byte {
        b'a' => 7,
        b'b' => 8,
        b't' => 9,
        b'n' => 10,
        b'v' => 11,
        b'f' => 12,
        b'r' => 13,
        other => other,
    }
}

/// The value with one digit more, of which a byte holds the last eight bits.
fn grown(value: u8, radix: u32, byte: u8) -> u8
    requires { radix ≤ 16 }
    ensures { result ≡ (value * radix + bytes.digit_value byte) % 256 }
{
    ((value as u32 * radix + digit_value(byte) as u32) % 256) as u8
}

fn plain(byte: u8, out: &mut Bytes) -> Result<Decoding, Memory>
    ensures pending { IfOk result (λ s. s ≡ (steps.plain byte).0) }
    ensures out { OnOk result (out.new ≡ out.old ++ (steps.plain byte).1) }
{
    if byte == b'\\' {
        return Ok(Decoding::Backslash);
    }
    out.push(byte)?;
    Ok(Decoding::Plain)
}

fn escaped(byte: u8, out: &mut Bytes) -> Result<Decoding, Memory>
    ensures pending { IfOk result (λ s. s ≡ (steps.decode Decoding.Backslash byte).0) }
    ensures out { OnOk result (out.new ≡ out.old ++ (steps.decode Decoding.Backslash byte).1) }
{
    if is_octal_digit(byte) {
        return Ok(Decoding::Octal(1, digit_value(byte)));
    }
    if byte == b'x' {
        return Ok(Decoding::Hexadecimal(0));
    }
    out.push(escape_value(byte))?;
    Ok(Decoding::Plain)
}

fn decode(pending: Decoding, byte: u8, out: &mut Bytes) -> Result<Decoding, Memory>
    ensures pending { IfOk result (λ s. s ≡ (steps.decode pending byte).0) }
    ensures out { OnOk result (out.new ≡ out.old ++ (steps.decode pending byte).1) }
{
    match pending {
        Decoding::Plain => plain(byte, out),
        Decoding::Backslash => escaped(byte, out),
        Decoding::Octal(count, value) => {
            if count < 3 && is_octal_digit(byte) {
                return Ok(Decoding::Octal(count + 1, grown(value, 8, byte)));
            }
            out.push(value)?;
            plain(byte, out)
        }
        Decoding::Hexadecimal(value) => {
            if is_hexadecimal_digit(byte) {
                return Ok(Decoding::Hexadecimal(grown(value, 16, byte)));
            }
            out.push(value)?;
            plain(byte, out)
        }
    }
}

fn within_quotes(word: &[u8]) -> &[u8]
    ensures { result.now ≡ spec.within_quotes word.now }
{
    if word.len() < 2 {
        return &[];
    }
    &word[1..word.len() - 1]
}

fn add_elements(bytes: &[u8], out: &mut Bytes) -> Result<(), Memory>
    ensures { OnOk result (out.new ≡ out.old ++ steps.decoded_from Decoding.Plain bytes.now) }
{
    let mut pending = Decoding::Plain;
    for byte in bytes {
        pending = decode(pending, *byte, out)?;
    }
    match pending {
        Decoding::Plain => Ok(()),
        Decoding::Backslash => out.push(b'\\'),
        Decoding::Octal(_, value) => out.push(value),
        Decoding::Hexadecimal(value) => out.push(value),
    }
}

/// Puts the bytes that a character constant or a text writes behind others.
pub fn add_decoded(word: &[u8], out: &mut Bytes) -> Result<(), Memory>
    ensures out { OnOk result (out.new ≡ out.old ++ steps.decoded word.now) }
    ensures written { spec.Writes (spec.within_quotes word.now) (steps.decoded word.now) }
{
    add_elements(within_quotes(word), out)
}

/// The byte of a character constant. Want of memory is the only failure.
pub fn character(alloc: Global, word: &[u8]) -> Result<u8, Memory>
    ensures { IfOk result (λ b. b ≡ spec.character word.now) }
{
    let mut out: Bytes = List::new(alloc);
    add_decoded(word, &mut out)?;
    match out.get(0) {
        Some(byte) => Ok(*byte),
        None => Ok(0),
    }
}

/// Whether a constant is that of a character.
pub fn is_character(word: &[u8]) -> bool
    ensures { result ≡ spec.is_character word.now }
{
    match word.first() {
        Some(byte) => *byte == b'\'',
        None => false,
    }
}
