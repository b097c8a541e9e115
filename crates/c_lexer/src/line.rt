ghost use Rattle.std.specs.Prelude.{◌≡◌, ◌<◌, length};
ghost use Rattle.std.specs.Option.{IfSome};
ghost use Rattle.c_lexer.specs.Machine as spec;

use crate::byte::{is_return, is_space};

/// What is known of the bytes from a place of a line on to its end: where the line breaks off, and whether
/// they are white space, and carriage returns, alone.
#[derive(Clone, Copy)]
pub(crate) struct Tail {
    pub broken: Option<usize>,
    pub white: bool,
    pub returns: bool,
}

fn broken_here(byte: u8, at: usize, tail: Tail) -> Option<usize>
    ensures { result ≡ spec.broken_here byte at tail }
{
    if (byte == b'\\' && tail.white) || (is_return(byte) && !tail.returns) {
        Some(at)
    } else {
        tail.broken
    }
}

fn onto(byte: u8, at: usize, tail: Tail) -> Tail
    ensures { result ≡ spec.onto byte at tail }
{
    Tail {
        broken: broken_here(byte, at, tail),
        white: is_space(byte) && tail.white,
        returns: is_return(byte) && tail.returns,
    }
}

/// Of a line without its newline: how many bytes stand before the one at which it breaks off, a backslash
/// behind which there is nothing but white space, or a carriage return behind which there is more than
/// carriage returns.
pub(crate) fn broken_at(line: &[u8]) -> Option<usize>
    ensures value { result ≡ spec.broken_at line.now }
    ensures bound { IfSome result (λ count. count < length line.now) }
{
    let mut tail = Tail {
        broken: None,
        white: true,
        returns: true,
    };
    for passed in 0..line.len() {
        let i = line.len() - 1 - passed;
        tail = onto(line[i], i, tail);
    }
    tail.broken
}
