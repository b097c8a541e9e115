//! Reports that are replayed otherwise than they were written, reports that are refused, and a text that is written
//! before its report or in its own place.

use crate::tests::ports::{CASE, Case, Failing, SOUND, leaves};
use std::alloc::Global;
use test_texts::{OVER_STATEMENT, TWO_RESOURCES};

/// Reports of the text with two resources, whether they give what that is restructured to, and the lines.
static REPORTS: [(&str, bool, &str); 5] = [
    // the moves in another order
    (
        "copy join close_a 6\ncopy join out 3\n",
        true,
        "regoto: 2 moves, 2 guards",
    ),
    (
        "main out loop 3.t\n",
        false,
        "r.txt:1:1: error 50: bad report line",
    ),
    (
        "copy join close_a 3\n",
        false,
        "r.txt:1:1: error 51: move does not fit",
    ),
    ("", false, "r.txt:1:1: error 52: a jump is left"),
    (
        "copy join close_a 6\n",
        false,
        "r.txt:2:1: error 52: a jump is left",
    ),
];

fn is_replayed<'x>(alloc: Global, report: &'x str, is_taken: bool, line: &'x str) -> bool {
    let replayed = Case {
        words: &["replay", "a.c", "r.txt", "b.c"],
        source: TWO_RESOURCES.source,
        report,
        code: if is_taken { 0 } else { 1 },
        text: if is_taken {
            Some(TWO_RESOURCES.text)
        } else {
            None
        },
        line,
        ..CASE
    };
    leaves(alloc, &replayed)
}

#[test]
fn replays(rt: HostRuntime) {
    for (report, is_taken, line) in &REPORTS {
        assert!(rt; is_replayed(rt.alloc(), report, *is_taken, line), "{line}");
    }
}

/// Whether the text is written where the shelf fails at its third call, the write of the report.
fn is_written_before(alloc: Global) -> bool {
    let restructured = Case {
        words: &["restructure", "a.c", "b.c", "--report", "r.txt"],
        source: OVER_STATEMENT.source,
        failing: Failing {
            shelf: &[2],
            ..SOUND
        },
        code: 5,
        text: Some(OVER_STATEMENT.text),
        line: "regoto: write failed",
        ..CASE
    };
    leaves(alloc, &restructured)
}

/// Whether the text is written in its own place, also where nothing can be told.
fn is_written_in_place(alloc: Global) -> bool {
    let restructured = Case {
        words: &["restructure", "a.c", "a.c"],
        source: OVER_STATEMENT.source,
        failing: Failing { err: &[0], ..SOUND },
        put: Some(OVER_STATEMENT.text),
        ..CASE
    };
    leaves(alloc, &restructured)
}

#[test]
fn restructures_before_the_report_and_in_place(rt: HostRuntime) {
    assert!(rt; is_written_before(rt.alloc()));
    assert!(rt; is_written_in_place(rt.alloc()));
}
