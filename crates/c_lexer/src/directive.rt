ghost use Rattle.std.specs.Prelude.{◌≡◌, ◌≤◌, length, slice_index};
ghost use Rattle.std.specs.List.{prefix_len};
ghost use Rattle.c_lexer.specs.Bytes.{is_blank};
ghost use Rattle.c_types.specs.Words.{is_word_byte};
ghost use Rattle.c_lexer.specs.IncludeSteps as steps;
ghost use Rattle.c_lexer.specs.Pieces as pieces;

use crate::byte::is_blank;
use c_types::is_word_byte;

/// What stands before a byte of an `#include` line.
#[derive(Clone, Copy)]
pub(crate) enum Before {
    /// No name and no comment is open. The flags say that a name stands before, and that the last byte
    /// is a `/`.
    Outside(bool, bool),
    /// A name has begun that this byte ends. The flag says that the last byte is a `/`.
    Name(u8, bool),
    /// A comment `/*`. The flags say that a name stands before it, and that the last byte is a `*`.
    Comment(bool, bool),
    /// A comment `//`.
    Line,
    /// Something that compilers don't read alike. The flags say that a comment `/*` may be open, and that
    /// the last byte is a `/` or a `*` that begins no comment.
    Doubt(bool, bool, bool),
}

/// Whether the bytes behind a `#` make its line an `#include` (ISO/IEC 9899:2011, 6.10.2) that leaves no
/// comment open.
pub(crate) fn is_directive(line: &[u8]) -> bool
    ensures { result ≡ steps.is_directive line.now }
{
    is_include(line) && !leaves_open(line)
}

fn leaves_open(line: &[u8]) -> bool
    ensures { result ≡ steps.leaves_open line.now }
{
    let mut before = Before::Outside(false, false);
    for i in 0..line.len() {
        before = past(before, line[i]);
    }
    is_open(before)
}

fn is_open(before: Before) -> bool
    ensures { result ≡ steps.is_open before }
{
    match before {
        Before::Comment(_, _) => true,
        Before::Doubt(opened, _, _) => opened,
        _ => false,
    }
}

fn past(before: Before, byte: u8) -> Before
    ensures { result ≡ steps.past before byte }
{
    match before {
        Before::Outside(named, slashed) => outside(named, slashed, byte),
        Before::Name(end, slashed) => in_name(end, slashed, byte),
        Before::Comment(named, starred) => {
            if starred && byte == b'/' {
                Before::Outside(named, false)
            } else {
                Before::Comment(named, byte == b'*')
            }
        }
        Before::Line => Before::Line,
        Before::Doubt(opened, slashed, starred) => in_doubt(opened, slashed, starred, byte),
    }
}

fn outside(named: bool, slashed: bool, byte: u8) -> Before
    ensures { result ≡ steps.outside named slashed byte }
{
    if slashed && byte == b'*' {
        Before::Comment(named, false)
    } else if slashed && byte == b'/' {
        Before::Line
    } else if byte == b'\'' || (named && (byte == b'"' || byte == b'<')) {
        Before::Doubt(false, false, false)
    } else if byte == b'<' {
        Before::Name(b'>', false)
    } else if byte == b'"' {
        Before::Name(b'"', false)
    } else {
        Before::Outside(named, byte == b'/')
    }
}

fn in_name(end: u8, slashed: bool, byte: u8) -> Before
    ensures { result ≡ steps.in_name end slashed byte }
{
    if byte == end {
        Before::Outside(true, false)
    } else if slashed && byte == b'*' {
        Before::Doubt(true, false, false)
    } else if byte == b'"' || byte == b'\'' || byte == b'\\' {
        Before::Doubt(false, false, false)
    } else {
        Before::Name(end, byte == b'/')
    }
}

fn in_doubt(opened: bool, slashed: bool, starred: bool, byte: u8) -> Before
    ensures { result ≡ steps.in_doubt opened slashed starred byte }
{
    if slashed && byte == b'*' {
        Before::Doubt(true, false, false)
    } else if starred && byte == b'/' {
        Before::Doubt(false, true, false)
    } else {
        Before::Doubt(opened, byte == b'/', byte == b'*')
    }
}

fn is_include(line: &[u8]) -> bool
    ensures { result ≡ pieces.is_include line.now }
{
    begins_with_include(&line[count_blanks(line)..])
}

fn count_blanks(line: &[u8]) -> usize
    ensures value { result ≡ prefix_len is_blank line.now }
    ensures bound { result ≤ length line.now }
{
    line.iter().take_while(|byte| is_blank(**byte)).count()
}

fn begins_with_include(line: &[u8]) -> bool
    ensures { result ≡ pieces.begins_with_include line.now }
{
    line.starts_with(b"include") && !is_word_at(line, 7)
}

fn is_word_at(line: &[u8], at: usize) -> bool
    ensures { result ≡ is_word_byte (slice_index line.now at) }
{
    match line.get(at) {
        Some(byte) => is_word_byte(*byte),
        None => false,
    }
}
