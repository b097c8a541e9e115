ghost use Rattle.std.specs.Prelude.{◌≡◌, ◌<◌};
ghost use Rattle.c_lexer.specs.Bytes as bytes;

use c_types::{is_digit, is_word_byte};

/// Whether the byte is white space.
pub(crate) fn is_space(byte: u8) -> bool
    ensures { result ≡ bytes.is_space byte }
{
    byte == b' ' || (9 <= byte && byte <= 13)
}

/// Whether the byte is a space or a tab.
pub(crate) fn is_blank(byte: u8) -> bool
    ensures { result ≡ bytes.is_blank byte }
{
    byte == b' ' || byte == b'\t'
}

/// Whether the byte is a carriage return.
pub(crate) fn is_return(byte: u8) -> bool
    ensures { result ≡ bytes.is_return byte }
{
    byte == b'\r'
}

/// Whether the byte stands for itself in a text.
#[inline(always)]
pub(crate) fn is_text_byte(byte: u8) -> bool
    ensures { result ≡ bytes.is_text_byte byte }
{
    byte != b'\n' && byte != b'"' && byte != b'\\'
}

/// Whether the byte is an octal digit.
pub fn is_octal_digit(byte: u8) -> bool
    ensures { result ≡ bytes.is_octal_digit byte }
{
    b'0' <= byte && byte <= b'7'
}

/// Whether the byte is a hexadecimal digit.
pub fn is_hexadecimal_digit(byte: u8) -> bool
    ensures { result ≡ bytes.is_hexadecimal_digit byte }
{
    is_digit(byte) || (b'A' <= byte && byte <= b'F') || (b'a' <= byte && byte <= b'f')
}

/// What a digit of any base counts.
pub fn digit_value(byte: u8) -> u8
    ensures value { result ≡ bytes.digit_value byte }
    ensures bound { result < 256 }
{
    if 97 <= byte {
        byte - 87
    } else if 65 <= byte {
        byte - 55
    } else {
        byte.saturating_sub(48)
    }
}

/// Whether the byte is the letter of an exponent.
pub(crate) fn is_power(byte: u8) -> bool
    ensures { result ≡ bytes.is_power byte }
{
    byte == b'E' || byte == b'e' || byte == b'P' || byte == b'p'
}

/// Whether the byte goes on with the run of a number, where the byte before is the letter of an
/// exponent or not.
pub(crate) fn is_run_byte(power: bool, byte: u8) -> bool
    ensures { result ≡ bytes.is_run_byte power byte }
{
    is_word_byte(byte) || byte == b'.' || (power && (byte == b'+' || byte == b'-'))
}

/// Whether the byte stands for itself in a character constant.
pub(crate) fn is_character_byte(byte: u8) -> bool
    ensures { result ≡ bytes.is_character_byte byte }
{
    (32 <= byte && byte <= 126) && byte != b'\'' && byte != b'\\'
}

/// Whether the byte behind a backslash makes a simple escape.
pub(crate) fn is_simple_escape(byte: u8) -> bool
    ensures { result ≡ bytes.is_simple_escape byte }
{
    byte == b'\''
        || byte == b'"'
        || byte == b'?'
        || byte == b'\\'
        || byte == b'a'
        || byte == b'b'
        || byte == b'f'
        || byte == b'n'
        || byte == b'r'
        || byte == b't'
        || byte == b'v'
}
