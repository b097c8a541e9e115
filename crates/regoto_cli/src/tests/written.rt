//! Commands and what they write: help, demonstrations, and texts that are lowered and tidied.

use crate::tests::ports::{CASE, Case, Failing, SOUND, leaves};

const SOURCE: &str =
    "int main(void) { int a; a = 1; if (a == 1) goto end; putchar('x'); end: putchar('y'); return 0; }";

/// Three letters by a loop, and the same by gotos.
pub const LETTERS: &str =
    "int main(void) { int i = 0; while (i < 3) { putchar('a' + i); i++; } return 0; }\n";

pub const LOWERED: &str = "int main(void) {
    int i;
    i = 0;
    low_1: ;
    if (i < 3) {
        goto low_2;
    }
    goto low_3;
    low_2: ;
    putchar('a' + i);
    i++;
    goto low_1;
    low_3: ;
    return 0;
}
";

const HELP: &str = "regoto restructure IN OUT [--report R]
regoto run FILE [--steps N]
regoto demo N
regoto help
regoto show IN
regoto moves IN
regoto replay IN REPORT OUT
regoto tidy IN OUT
regoto lower IN OUT
";

static WRITTEN: [Case<'static>; 16] = [
    Case {
        words: &["help"],
        source: SOURCE,
        out: HELP,
        ..CASE
    },
    Case {
        words: &["demo", "1"],
        source: "int x;",
        out: "demo 1: 3 jumps, 5 moves, 3 guards, 3 bytes of output, ended with 0\n",
        ..CASE
    },
    Case {
        words: &["demo", "2"],
        source: "int x;",
        out: "demo 2: 6 jumps, 10 moves, 6 guards, 4 bytes of output, ended with 0\n",
        ..CASE
    },
    Case {
        words: &["demo", "02"],
        source: "int x;",
        out: "demo 2: 6 jumps, 10 moves, 6 guards, 4 bytes of output, ended with 0\n",
        ..CASE
    },
    // nothing is said, so a fault there is not met
    Case {
        words: &["demo", "2"],
        source: "int x;",
        failing: Failing { err: &[0], ..SOUND },
        out: "demo 2: 6 jumps, 10 moves, 6 guards, 4 bytes of output, ended with 0\n",
        ..CASE
    },
    // the sum of what 2,000 functions give has six digits
    Case {
        words: &["demo", "2000"],
        source: "int x;",
        out: "demo 2000: 6000 jumps, 10000 moves, 6000 guards, 7 bytes of output, ended with 0\n",
        ..CASE
    },
    Case {
        words: &["lower", "a.c", "b.c"],
        source: LETTERS,
        text: Some(LOWERED),
        line: "regoto: 3 gotos",
        ..CASE
    },
    Case {
        words: &["lower", "a.c", "b.c"],
        source: "",
        text: Some(""),
        line: "regoto: 0 gotos",
        ..CASE
    },
    Case {
        words: &["lower", "a.c", "b.c"],
        source: "float x;\n",
        code: 1,
        line: "a.c:1:1: error 10: unexpected token",
        ..CASE
    },
    // a check around what a turn leaves out
    Case {
        words: &["tidy", "a.c", "b.c"],
        source: r#"int main(void) { int c; int skip = 0; do { c = getchar(); skip = c == ' '; if (!skip) { putchar(c); } skip = 0; } while (c >= 0); return 0; }
"#,
        text: Some(
            r#"int main(void) {
    int c;
    do {
        c = getchar();
        if (c == ' ') {
            continue;
        }
        putchar(c);
    } while (c >= 0);
    return 0;
}
"#,
        ),
        line: "regoto: 1 changes",
        ..CASE
    },
    // a variable declared in a check
    Case {
        words: &["tidy", "a.c", "b.c"],
        source: r#"int main(void) { int c; int skip = 0; do { c = getchar(); skip = c == ' '; if (!skip) { int d = c + 1; putchar(d); } skip = 0; } while (c >= 0); return 0; }
"#,
        text: Some(
            r#"int main(void) {
    int c;
    do {
        c = getchar();
        if (c == ' ') {
            continue;
        }
        {
            int d = c + 1;
            putchar(d);
        }
    } while (c >= 0);
    return 0;
}
"#,
        ),
        line: "regoto: 1 changes",
        ..CASE
    },
    // a for, whose third part a break would leave out
    Case {
        words: &["tidy", "a.c", "b.c"],
        source: r#"int main(void) { int n; int done = 0; for (n = 0; !done && n < 9; n++) { if (n == 4) { done = 1; } } done = 0; return n; }
"#,
        text: Some(
            r#"int main(void) {
    int n;
    int done = 0;
    for (n = 0; !done && n < 9; n++) {
        if (n == 4) {
            done = 1;
        }
    }
    done = 0;
    return n;
}
"#,
        ),
        line: "regoto: 0 changes",
        ..CASE
    },
    // a label without a jump
    Case {
        words: &["tidy", "a.c", "b.c"],
        source: r#"int main(void) { unused: return 0; }
"#,
        text: Some(
            r#"int main(void) {
    return 0;
}
"#,
        ),
        line: "regoto: 0 changes",
        ..CASE
    },
    // jumps
    Case {
        words: &["tidy", "a.c", "b.c"],
        source: "int main(void) { L: goto L; }",
        code: 1,
        line: "a.c:1:21: error 60: jump present",
        ..CASE
    },
    Case {
        words: &["tidy", "a.c", "b.c"],
        source: "int main(void) { switch (1) { case 1: { case 2: ; } } return 0; }",
        code: 1,
        line: "a.c:1:41: error 60: jump present",
        ..CASE
    },
    Case {
        words: &["tidy", "a.c", "b.c"],
        source: "int main(void) { L: goto L; return x; }",
        code: 1,
        line: "a.c:1:36: error 20: not declared",
        ..CASE
    },
];

#[test]
fn writes(rt: HostRuntime) {
    for case in &WRITTEN {
        assert!(rt; leaves(rt.alloc(), case), "{}", case.source);
    }
}
