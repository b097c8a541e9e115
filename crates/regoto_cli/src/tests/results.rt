//! Texts that are run, and run again as what they were restructured to.

use crate::tests::ports::{CASE, Case, Outcome, leaves, restructuring, run};
use crate::tests::written::{LETTERS, LOWERED};
use std::alloc::Global;
use std::str;
use test_texts::{
    BACK_INTO_LOOP, CAPTURED_EXITS, ENDLESS_LOOP, INTO_ELSE, INTO_LOOP, LABELS_IN_IF, LOOP_BY_HAND,
    ONE_LABEL_TWO_JUMPS, OUT_OF_THREE, PAST_INITIALISER, Worked,
};

/// Worked texts, and how they run.
static RUNS: [(Worked, Case<'static>); 11] = [
    (
        LOOP_BY_HAND,
        Case {
            words: &["run", "a.c", "--steps", "1000"],
            out: "abc",
            line: "regoto: ended with 0",
            ..CASE
        },
    ),
    (
        ENDLESS_LOOP,
        Case {
            words: &["run", "a.c", "--steps", "1000"],
            code: 7,
            line: "regoto: stopped after 1000 steps",
            ..CASE
        },
    ),
    (
        INTO_LOOP,
        Case {
            words: &["run", "a.c", "--steps", "1000"],
            out: "babab",
            line: "regoto: ended with 0",
            ..CASE
        },
    ),
    (
        INTO_ELSE,
        Case {
            words: &["run", "a.c", "--steps", "1000"],
            out: "b",
            line: "regoto: ended with 0",
            ..CASE
        },
    ),
    (
        OUT_OF_THREE,
        Case {
            words: &["run", "a.c", "--steps", "1000"],
            out: "!",
            line: "regoto: ended with 2",
            ..CASE
        },
    ),
    (
        ONE_LABEL_TWO_JUMPS,
        Case {
            words: &["run", "a.c", "--steps", "1000"],
            input: "abq",
            out: "ab",
            line: "regoto: ended with 0",
            ..CASE
        },
    ),
    (
        CAPTURED_EXITS,
        Case {
            words: &["run", "a.c", "--steps", "1000"],
            input: "xrx",
            out: "122",
            line: "regoto: ended with 3",
            ..CASE
        },
    ),
    (
        BACK_INTO_LOOP,
        Case {
            words: &["run", "a.c", "--steps", "1000"],
            out: "aababab",
            line: "regoto: ended with 0",
            ..CASE
        },
    ),
    (
        PAST_INITIALISER,
        Case {
            words: &["run", "a.c", "--steps", "1000"],
            out: "057",
            line: "regoto: ended with 0",
            ..CASE
        },
    ),
    (
        LABELS_IN_IF,
        Case {
            words: &["run", "a.c", "--steps", "1000"],
            input: "ab",
            out: "abp",
            line: "regoto: ended with -1",
            ..CASE
        },
    ),
    (
        LABELS_IN_IF,
        Case {
            words: &["run", "a.c", "--steps", "1000"],
            input: "aZ",
            out: "a",
            line: "regoto: ended with 90",
            ..CASE
        },
    ),
];

static OTHERS: [Case<'static>; 3] = [
    // a jump over a statement to one whose value is out of range
    Case {
        words: &["run", "a.c", "--steps", "1000"],
        source: "int main(void) { int i = 2147483647; putchar('a'); goto up; putchar('x'); up: i = i + 1; return 0; }",
        code: 6,
        out: "a",
        line: "regoto: trap 1: signed overflow",
        ..CASE
    },
    Case {
        words: &["run", "a.c"],
        source: LETTERS,
        out: "abc",
        line: "regoto: ended with 0",
        ..CASE
    },
    Case {
        words: &["run", "a.c"],
        source: LOWERED,
        out: "abc",
        line: "regoto: ended with 0",
        ..CASE
    },
];

/// The text that was written, or an empty one.
fn written<'a>(ran: &'a Outcome) -> &'a str {
    match ran.shelf.held("b.c") {
        Some(bytes) => str::from_utf8(bytes).unwrap_or(""),
        None => "",
    }
}

/// Whether this text, in place of the one of the case, runs as that is to.
fn ends_so(alloc: Global, text: &str, case: &Case) -> bool {
    let other = Case {
        source: text,
        ..*case
    };
    leaves(alloc, &other)
}

/// Whether what the text is restructured to runs as the case is to.
fn result_ends_so(alloc: Global, source: &str, case: &Case) -> bool {
    match run(alloc, &restructuring(source)) {
        Ok(made) => {
            let met = ends_so(alloc, written(&made), case);
            drop(made);
            met
        }
        Err(_) => false,
    }
}

fn both_end_so(alloc: Global, source: &str, case: &Case) -> bool {
    ends_so(alloc, source, case) && result_ends_so(alloc, source, case)
}

#[test]
fn run_as_their_sources(rt: HostRuntime) {
    for (worked, case) in &RUNS {
        assert!(rt;
            both_end_so(rt.alloc(), worked.source, case),
            "{}",
            worked.source
        );
    }
    for case in &OTHERS {
        assert!(rt;
            both_end_so(rt.alloc(), case.source, case),
            "{}",
            case.source
        );
    }
}
