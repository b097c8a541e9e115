//! Commands that don't do their job.

use crate::tests::ports::{CASE, Case, Failing, SOUND, leaves};
use std::alloc::Global;

const SOURCE: &str =
    "int main(void) { int a; a = 1; if (a == 1) goto end; putchar('x'); end: putchar('y'); return 0; }";

static UNDONE: [Case<'static>; 26] = [
    Case {
        words: &["restructure", "a.c", "b.c"],
        source: "int f(void) { goto no; } int g(void) { return y; }",
        code: 1,
        line: "a.c:1:20: error 33: unknown label",
        ..CASE
    },
    Case {
        words: &["restructure", "a.c", "b.c"],
        source: "int main(void) {\n    L: goto L;",
        code: 1,
        line: "a.c:2:15: error 10: unexpected token",
        ..CASE
    },
    Case {
        words: &["restructure", "a.c", "b.c"],
        source: "int x; /*",
        code: 1,
        line: "a.c:1:8: error 3: comment without end",
        ..CASE
    },
    Case {
        words: &["restructure", "c.c", "b.c"],
        source: SOURCE,
        code: 8,
        line: "regoto: no file c.c",
        ..CASE
    },
    Case {
        words: &["restructure", "a.c", "b.c", "--report", "b.c"],
        source: SOURCE,
        code: 2,
        line: "regoto: unknown use, try help",
        ..CASE
    },
    Case {
        words: &["restructure", "a.c", "b.c", "--report"],
        source: SOURCE,
        code: 2,
        line: "regoto: unknown use, try help",
        ..CASE
    },
    Case {
        words: &["restructure", "a.c", "-b"],
        source: SOURCE,
        code: 2,
        line: "regoto: unknown use, try help",
        ..CASE
    },
    Case {
        words: &["restructure", "a.c", "b.c"],
        source: SOURCE,
        failing: Failing {
            shelf: &[0],
            ..SOUND
        },
        code: 4,
        line: "regoto: read failed",
        ..CASE
    },
    Case {
        words: &["restructure", "a.c", "b.c"],
        source: SOURCE,
        failing: Failing {
            shelf: &[1],
            ..SOUND
        },
        code: 5,
        line: "regoto: write failed",
        ..CASE
    },
    Case {
        words: &["show", "a.c"],
        source: "float x;",
        code: 1,
        line: "a.c:1:1: error 10: unexpected token",
        ..CASE
    },
    Case {
        words: &["moves", "c.c"],
        source: SOURCE,
        code: 8,
        line: "regoto: no file c.c",
        ..CASE
    },
    Case {
        words: &["show", "a.c"],
        source: SOURCE,
        failing: Failing {
            shelf: &[0],
            ..SOUND
        },
        code: 4,
        line: "regoto: read failed",
        ..CASE
    },
    Case {
        words: &["show", "a.c"],
        source: SOURCE,
        failing: Failing { out: &[0], ..SOUND },
        code: 5,
        line: "regoto: write failed",
        ..CASE
    },
    Case {
        words: &["moves", "a.c"],
        source: SOURCE,
        failing: Failing { out: &[0], ..SOUND },
        code: 5,
        line: "regoto: write failed",
        ..CASE
    },
    Case {
        words: &["replay", "a.c", "r.txt", "b.c"],
        source: SOURCE,
        code: 1,
        line: "r.txt:1:1: error 50: bad report line",
        ..CASE
    },
    Case {
        words: &["replay", "a.c", "no.txt", "b.c"],
        source: SOURCE,
        code: 8,
        line: "regoto: no file no.txt",
        ..CASE
    },
    Case {
        words: &["replay", "a.c", "no.txt", "b.c"],
        source: "float x;",
        code: 1,
        line: "a.c:1:1: error 10: unexpected token",
        ..CASE
    },
    Case {
        words: &["replay", "a.c", "r.txt", "b.c"],
        source: SOURCE,
        failing: Failing {
            shelf: &[1],
            ..SOUND
        },
        code: 4,
        line: "regoto: read failed",
        ..CASE
    },
    Case {
        words: &["tidy", "a.c", "b.c"],
        source: SOURCE,
        code: 1,
        line: "a.c:1:44: error 60: jump present",
        ..CASE
    },
    Case {
        words: &["tidy", "a.c", "b.c"],
        source: "int x;",
        failing: Failing {
            shelf: &[1],
            ..SOUND
        },
        code: 5,
        line: "regoto: write failed",
        ..CASE
    },
    Case {
        words: &["lower", "c.c", "b.c"],
        source: SOURCE,
        code: 8,
        line: "regoto: no file c.c",
        ..CASE
    },
    Case {
        words: &["lower", "a.c", "b.c"],
        source: SOURCE,
        failing: Failing {
            shelf: &[1],
            ..SOUND
        },
        code: 5,
        line: "regoto: write failed",
        ..CASE
    },
    Case {
        words: &["demo", "2"],
        source: SOURCE,
        failing: Failing { out: &[0], ..SOUND },
        code: 5,
        line: "regoto: write failed",
        ..CASE
    },
    Case {
        words: &["demo", "0"],
        source: SOURCE,
        code: 2,
        line: "regoto: unknown use, try help",
        ..CASE
    },
    Case {
        words: &["demo", "2001"],
        source: SOURCE,
        code: 2,
        line: "regoto: unknown use, try help",
        ..CASE
    },
    Case {
        words: &["help"],
        source: SOURCE,
        failing: Failing { out: &[0], ..SOUND },
        code: 5,
        line: "regoto: write failed",
        ..CASE
    },
];

/// Whether the command leaves the same where the standard error fails, so that nothing is told.
fn leaves_untold(alloc: Global, case: &Case) -> bool {
    let failing = Failing {
        err: &[0],
        ..case.failing
    };
    let untold = Case {
        failing,
        line: "",
        ..*case
    };
    leaves(alloc, &untold)
}

#[test]
fn tells_what_is_wrong(rt: HostRuntime) {
    for case in &UNDONE {
        assert!(rt; leaves(rt.alloc(), case), "{}", case.line);
        assert!(rt; leaves_untold(rt.alloc(), case), "{}", case.line);
    }
}
