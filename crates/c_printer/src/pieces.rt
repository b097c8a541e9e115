#![tactic(auto, unfolding(crate::specs::Writing::StandsBefore))]

ghost use Rattle.std.specs.Prelude.{◌≡◌, Option};
ghost use Rattle.c_tree.specs.TextPieces.{suffix as the_suffix, escaped, space, newline, indentation, word, punctuator, spaced, comma, number, character, literal, verbatim};
ghost use Rattle.rg_ports.specs.Writing.{Gives};
ghost use Rattle.c_printer.specs.Writing.{Prints};

use c_types::IntKind;
use itoa::Buffer;
use rg_ports::Output;

pub fn put_space<W: Output>(out: &mut W)
    ensures { Prints (W.progress out.old) (W.progress out.new) space }
{
    out.put(b" ");
}

pub fn put_newline<W: Output>(out: &mut W)
    ensures { Prints (W.progress out.old) (W.progress out.new) newline }
{
    out.put(b"\n");
}

/// The spaces before a line, step by step.
fn put_steps<W: Output>(out: &mut W, depth: u32)
    ensures { Prints (W.progress out.old) (W.progress out.new) (indentation depth) }
{
    for _ in 0..depth {
        out.put(b"    ");
    }
}

/// The spaces before a line, four for each step of the depth. Most lines stand at the first steps, whose spaces go out at
/// once.
pub fn put_indentation<W: Output>(out: &mut W, depth: u32)
    ensures { Prints (W.progress out.old) (W.progress out.new) (indentation depth) }
{
    match depth {
        2 => out.put(b"        "),
        3 => out.put(b"            "),
        4 => out.put(b"                "),
        _ => put_steps(out, depth),
    }
}

pub fn put_word<W: Output>(out: &mut W, text: &str)
    ensures { Prints (W.progress out.old) (W.progress out.new) (word text.now) }
{
    out.put(text.as_bytes());
}

pub fn put_punctuator<W: Output>(out: &mut W, text: &str)
    ensures { Prints (W.progress out.old) (W.progress out.new) (punctuator text.now) }
{
    out.put(text.as_bytes());
}

/// A punctuator with a space on both sides.
#[tactic(auto)]
pub fn put_spaced<W: Output>(out: &mut W, text: &str)
    ensures { Prints (W.progress out.old) (W.progress out.new) (spaced text.now) }
{
    put_space(out);
    put_punctuator(out, text);
    put_space(out);
}

/// A comma and a space.
#[tactic(auto)]
pub fn put_comma<W: Output>(out: &mut W)
    ensures { Prints (W.progress out.old) (W.progress out.new) comma }
{
    put_punctuator(out, ",");
    put_space(out);
}

pub fn suffix(kind: Option<IntKind>) -> &'static str
    ensures { result.now ≡ the_suffix kind }
{
    match kind {
        Some(IntKind::UInt) => "U",
        Some(IntKind::Long) => "L",
        Some(IntKind::ULong) => "UL",
        _ => "",
    }
}

/// An integer constant, with the suffix of its kind.
pub fn put_number<W: Output>(out: &mut W, kind: Option<IntKind>, n: i128)
    ensures { Prints (W.progress out.old) (W.progress out.new) (number kind n) }
{
    let mut buffer = Buffer::new();
    out.put(buffer.format(n).as_bytes());
    out.put(suffix(kind).as_bytes());
}

/// A byte between quotes.
fn put_escaped<W: Output>(out: &mut W, quote: u8, byte: u8)
    ensures { Gives (W.progress out.old) (W.progress out.new) (escaped quote byte) }
{
    if byte == 10 {
        out.put(b"\\n");
    } else if byte == 9 {
        out.put(b"\\t");
    } else if byte == quote || byte == 92 {
        out.put(&[92, byte]);
    } else if 32 <= byte && byte <= 126 {
        out.put(&[byte]);
    } else {
        out.put(&[92, 48 + byte / 64, 48 + byte / 8 % 8, 48 + byte % 8]);
    }
}

/// A character constant.
pub fn put_character<W: Output>(out: &mut W, byte: u8)
    ensures { Prints (W.progress out.old) (W.progress out.new) (character byte) }
{
    out.put(b"'");
    put_escaped(out, b'\'', byte);
    out.put(b"'");
}

/// A string literal.
pub fn put_literal<W: Output>(out: &mut W, bytes: &[u8])
    ensures { Prints (W.progress out.old) (W.progress out.new) (literal bytes.now) }
{
    out.put(b"\"");
    for byte in bytes {
        put_escaped(out, b'"', *byte);
    }
    out.put(b"\"");
}

/// A directive or a comment.
pub fn put_verbatim<W: Output>(out: &mut W, bytes: &[u8])
    ensures { Prints (W.progress out.old) (W.progress out.new) (verbatim bytes.now) }
{
    out.put(bytes);
}
