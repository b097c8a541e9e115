//! Programs that are run.

use crate::tests::ports::{CASE, Case, Failing, SOUND, leaves};
use crate::tests::written::{LETTERS, LOWERED};

const LOOP: &str =
    "int main(void) { int i = 0; loop: if (i >= 3) goto done; putchar('a' + i); i++; goto loop; done: return 0; }";

const ECHO: &str = "int main(void) { while (1) { putchar(getchar()); } }";

static RUNS: [Case<'static>; 22] = [
    Case {
        words: &["run", "a.c"],
        source: LOOP,
        out: "abc",
        line: "regoto: ended with 0",
        ..CASE
    },
    Case {
        words: &["run", "a.c", "--steps", "007"],
        source: LOOP,
        code: 7,
        line: "regoto: stopped after 7 steps",
        ..CASE
    },
    Case {
        words: &["run", "a.c"],
        source: "int main(void) { int c; while (1) { c = getchar(); if (c == -1) goto end; if (c == 'q') goto end; putchar(c); } end: return 0; }",
        input: "abq",
        out: "ab",
        line: "regoto: ended with 0",
        ..CASE
    },
    Case {
        words: &["run", "a.c"],
        source: "int main(void) { int c; while (1) { c = getchar(); if (c == -1) goto end; if (c == 'q') goto end; putchar(c); } end: return 0; }",
        input: "ab",
        out: "ab",
        line: "regoto: ended with 0",
        ..CASE
    },
    Case {
        words: &["run", "a.c"],
        source: "int main(void) { int i = 2147483647; putchar('a'); goto up; putchar('x'); up: i = i + 1; return 0; }",
        code: 6,
        out: "a",
        line: "regoto: trap 1: signed overflow",
        ..CASE
    },
    Case {
        words: &["run", "a.c"],
        source: "",
        code: 1,
        line: "a.c:1:1: error 41: no main",
        ..CASE
    },
    Case {
        words: &["run", "a.c"],
        source: "int p(int x); int main(void) { return p(1); }",
        code: 1,
        line: "a.c:1:1: error 42: call of a function without body",
        ..CASE
    },
    Case {
        words: &["run", "a.c"],
        source: "int p(int x); int q(int x) { return p(x); } int main(void) { return 0; }",
        code: 1,
        line: "a.c:1:1: error 42: call of a function without body",
        ..CASE
    },
    Case {
        words: &["run", "a.c"],
        source: "int p(int x); int main(void) { return 7; } int p(int x) { return x; }",
        line: "regoto: ended with 7",
        ..CASE
    },
    Case {
        words: &["run", "a.c"],
        source: "int p(int x); int main(void) { return 7; }",
        line: "regoto: ended with 7",
        ..CASE
    },
    Case {
        words: &["run", "a.c"],
        source: "int main(void); int f(void) { return 1; }",
        code: 1,
        line: "a.c:1:1: error 41: no main",
        ..CASE
    },
    Case {
        words: &["run", "a.c", "--steps", "1000"],
        source: "int main(void) { L: goto L; }",
        code: 7,
        line: "regoto: stopped after 1000 steps",
        ..CASE
    },
    Case {
        words: &["run", "a.c", "--steps", "0"],
        source: "int main(void) { }",
        code: 7,
        line: "regoto: stopped after 0 steps",
        ..CASE
    },
    Case {
        words: &["run", "a.c", "--steps", "1"],
        source: "int main(void) { }",
        line: "regoto: ended with 0",
        ..CASE
    },
    Case {
        words: &["run", "a.c"],
        source: "int main(void) { exit(-5); }",
        line: "regoto: ended with -5",
        ..CASE
    },
    Case {
        words: &["run", "a.c"],
        source: "int main(void) { putchar('x'); abort(); }",
        code: 6,
        out: "x",
        line: "regoto: trap 8: abort",
        ..CASE
    },
    Case {
        words: &["run", "a.c"],
        source: "int a[65536]; int main(void) { printf(\"%d%%%c\", 12, 65); return a[2] - 2147483647 - 1; }",
        out: "12%A",
        line: "regoto: ended with -2147483648",
        ..CASE
    },
    Case {
        words: &["run", "a.c"],
        source: "int main(void) { return x; }",
        code: 1,
        line: "a.c:1:25: error 20: not declared",
        ..CASE
    },
    Case {
        words: &["run", "c.c"],
        source: "int main(void) { }",
        code: 8,
        line: "regoto: no file c.c",
        ..CASE
    },
    Case {
        words: &["run", "a.c", "--steps", "x"],
        source: "int main(void) { }",
        code: 2,
        line: "regoto: unknown use, try help",
        ..CASE
    },
    Case {
        words: &["run", "a.c"],
        source: LETTERS,
        out: "abc",
        line: "regoto: ended with 0",
        ..CASE
    },
    Case {
        words: &["run", "a.c"],
        source: LOWERED,
        out: "abc",
        line: "regoto: ended with 0",
        ..CASE
    },
];

/// Runs of which a call of a port fails.
static BROKEN: [Case<'static>; 6] = [
    Case {
        words: &["run", "a.c"],
        source: ECHO,
        input: "abc",
        failing: Failing {
            input: &[1],
            ..SOUND
        },
        code: 4,
        out: "a",
        rest: Some("bc"),
        line: "regoto: read failed",
        ..CASE
    },
    Case {
        words: &["run", "a.c"],
        source: ECHO,
        input: "abc",
        failing: Failing { out: &[2], ..SOUND },
        code: 5,
        out: "ab",
        rest: Some(""),
        line: "regoto: write failed",
        ..CASE
    },
    Case {
        words: &["run", "a.c"],
        source: ECHO,
        input: "abc",
        failing: Failing {
            shelf: &[0],
            ..SOUND
        },
        code: 4,
        rest: Some("abc"),
        line: "regoto: read failed",
        ..CASE
    },
    // a write of each byte
    Case {
        words: &["run", "a.c"],
        source: LOOP,
        failing: Failing { out: &[0], ..SOUND },
        code: 5,
        line: "regoto: write failed",
        ..CASE
    },
    Case {
        words: &["run", "a.c"],
        source: LOOP,
        failing: Failing { out: &[1], ..SOUND },
        code: 5,
        out: "a",
        line: "regoto: write failed",
        ..CASE
    },
    Case {
        words: &["run", "a.c"],
        source: LOOP,
        failing: Failing { out: &[2], ..SOUND },
        code: 5,
        out: "ab",
        line: "regoto: write failed",
        ..CASE
    },
];

#[test]
fn runs(rt: HostRuntime) {
    for case in &RUNS {
        assert!(rt; leaves(rt.alloc(), case), "{}", case.source);
    }
}

#[test]
fn stops_at_a_failed_call(rt: HostRuntime) {
    for case in &BROKEN {
        assert!(rt; leaves(rt.alloc(), case), "{}", case.out);
    }
}
