//! Texts that are cut off, and texts that are shown in part.

use crate::tests::limits::{Piece, text_of};
use crate::tests::ports::{CASE, Case, Failing, Outcome, SOUND, leaves, restructuring, run};
use c_types::Memory;
use std::alloc::Global;
use test_texts::LOOP_BY_HAND;

/// Whether a text is refused by this line, and nothing is written.
fn is_refused<'x>(alloc: Global, source: &'x str, line: &'x str) -> bool {
    let refused = Case {
        code: 1,
        line,
        ..restructuring(source)
    };
    leaves(alloc, &refused)
}

/// Where the front of so many bytes of a worked text is refused, the reason, and its text.
fn fault_of_front(length: u32) -> (u32, u32, &'static str) {
    let token = "unexpected token";
    match length {
        1 | 2 => (1, 10, token),
        10..=12 => (10, 10, token),
        53 => (52, 10, token),
        66 | 67 => (66, 4, "bad character constant or string"),
        _ => (length.saturating_add(1), 10, token),
    }
}

fn line_of_front(alloc: Global, length: u32) -> Result<String, Memory> {
    let (column, reason, text) = fault_of_front(length);
    let mut line = String::new(alloc);
    write!(line, "a.c:1:{column}: error {reason}: {text}")?;
    Ok(line)
}

fn is_front_refused(alloc: Global, length: u32) -> bool {
    let front = LOOP_BY_HAND.source.get(..length as usize).unwrap_or("");
    match line_of_front(alloc, length) {
        Ok(line) => {
            let met = is_refused(alloc, front, line.as_str());
            drop(line);
            met
        }
        Err(_) => false,
    }
}

#[test]
fn refuses_a_text_that_is_cut_off(rt: HostRuntime) {
    for length in 1..108 {
        assert!(rt; is_front_refused(rt.alloc(), length), "{length}");
    }
}

/// A text that is shown in more than one piece.
static LONG: [Piece; 3] = [
    Piece::Times("int main(void) {\n", 1),
    Piece::Times("    putchar('a');\n", 400),
    Piece::Times("}\n", 1),
];

fn is_shown(alloc: Global, source: &str) -> bool {
    let shown = Case {
        words: &["show", "a.c"],
        source,
        out: source,
        ..CASE
    };
    leaves(alloc, &shown)
}

/// Whether this is the first piece of the text.
fn is_first_piece(source: &str, ran: &Outcome) -> bool {
    let out = ran.out.bytes();
    ran.status.code() == 5 && out.len() == 4096 && source.as_bytes().starts_with(out)
}

fn is_shown_in_part(alloc: Global, source: &str) -> bool {
    let failing = Failing { out: &[1], ..SOUND };
    let shown = Case {
        words: &["show", "a.c"],
        source,
        failing,
        ..CASE
    };
    match run(alloc, &shown) {
        Ok(ran) => {
            let met = is_first_piece(source, &ran);
            drop(ran);
            met
        }
        Err(_) => false,
    }
}

/// Whether the text is shown, and where its second piece isn't taken, the first.
fn shows_pieces(alloc: Global) -> bool {
    match text_of(alloc, &LONG) {
        Ok(source) => {
            let met = is_shown(alloc, source.as_str()) && is_shown_in_part(alloc, source.as_str());
            drop(source);
            met
        }
        Err(_) => false,
    }
}

#[test]
fn shows_in_pieces(rt: HostRuntime) {
    assert!(rt; shows_pieces(rt.alloc()));
}
