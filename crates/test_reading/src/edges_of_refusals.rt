use crate::reading::is_refused;

/// A text, and the reason and the offset with which it is refused.
struct Refused {
    text: &'static [u8],
    reason: u32,
    at: u64,
}

static REFUSED: [Refused; 50] = [
    Refused {
        text: b"int f(int (x); ",
        reason: 10,
        at: 10,
    },
    Refused {
        text: b"int x = y; int f(void) { return 0; } int z = f();",
        reason: 20,
        at: 8,
    },
    Refused {
        text: b"int f(void) { return g(); }",
        reason: 20,
        at: 21,
    },
    Refused {
        text: b"int f(void) { { int x; } return x; }",
        reason: 20,
        at: 32,
    },
    Refused {
        text: b"int f(void) { for (int i = 0; i < 2; i++) ; return i; }",
        reason: 20,
        at: 51,
    },
    Refused {
        text: b"int getchar;",
        reason: 21,
        at: 4,
    },
    Refused {
        text: b"int printf; ",
        reason: 21,
        at: 4,
    },
    Refused {
        text: b"int putchar(int c) { return c; }",
        reason: 21,
        at: 4,
    },
    Refused {
        text: b"int x; int x;",
        reason: 21,
        at: 11,
    },
    Refused {
        text: b"int f(int a, int a);",
        reason: 21,
        at: 17,
    },
    Refused {
        text: b"int f(int x, int x) { int x; return x; }",
        reason: 21,
        at: 17,
    },
    Refused {
        text: b"int f(int a, char b); int f(int a, char b) { return a; } int f(int a, char b) { return b; }",
        reason: 21,
        at: 61,
    },
    Refused {
        text: b"int f(void) { return f; }",
        reason: 22,
        at: 21,
    },
    Refused {
        text: b"enum { A }; int f(void) { A = 1; return 0; }",
        reason: 22,
        at: 26,
    },
    Refused {
        text: b"int g0; int f(void) { return g0[1]; }",
        reason: 22,
        at: 29,
    },
    Refused {
        text: b"int a[3]; int f(void) { return a[0] + a; }",
        reason: 22,
        at: 38,
    },
    Refused {
        text: b"int a[2]; int f(void) { a[1]++; return a; }",
        reason: 22,
        at: 39,
    },
    Refused {
        text: b"int f(int a) { return a; } int g(void) { return f(1, 2); }",
        reason: 23,
        at: 48,
    },
    Refused {
        text: b"void v(void) { } int f(void) { return v(); }",
        reason: 24,
        at: 38,
    },
    Refused {
        text: b"int f(void) { return; }",
        reason: 25,
        at: 14,
    },
    Refused {
        text: b"void f(void) { return 1; }",
        reason: 25,
        at: 15,
    },
    Refused {
        text: b"const int c = 1; int f(void) { c = 2; return 0; }",
        reason: 26,
        at: 31,
    },
    Refused {
        text: b"int f(int a[2], const char b[]) { a[0] = 1; b[0] = 1; return 0; }",
        reason: 26,
        at: 44,
    },
    Refused {
        text: b"int f(const int a[]) { return a[0]; } const int b[2]; int g(int a[]) { return f(a) + f(b); } int h(void) { return g(b); }",
        reason: 26,
        at: 116,
    },
    Refused {
        text: b"int f(void) { break; }",
        reason: 27,
        at: 14,
    },
    Refused {
        text: b"int f(void) { continue; }",
        reason: 28,
        at: 14,
    },
    Refused {
        text: b"int f(int x) { case 1: return x; }",
        reason: 29,
        at: 15,
    },
    Refused {
        text: b"int f(int x) { switch (x) { x = 1; case 1: return x; } return 0; }",
        reason: 29,
        at: 28,
    },
    Refused {
        text: b"int f(int x) { switch (x) { case 1: case 1: default: default: ; } return 0; }",
        reason: 30,
        at: 36,
    },
    Refused {
        text: b"int f(int x) { switch (x) { case 4294967296L + 1: case 1: return 1; } return 0; }",
        reason: 30,
        at: 50,
    },
    Refused {
        text: b"int f(void) { L: ; L: ; return 0; }",
        reason: 32,
        at: 19,
    },
    Refused {
        text: b"int x; int f(void) { goto no; } int g(void) { return y; }",
        reason: 33,
        at: 26,
    },
    Refused {
        text: b"int x = 1 + A; enum { A };",
        reason: 34,
        at: 8,
    },
    Refused {
        text: b"enum { A = 1 / 0 };",
        reason: 34,
        at: 11,
    },
    Refused {
        text: b"enum { A = 2147483648 };",
        reason: 34,
        at: 11,
    },
    Refused {
        text: b"enum { A = 2147483647, B };",
        reason: 34,
        at: 23,
    },
    Refused {
        text: b"int a[0]; int b[65536]; int c[65537];",
        reason: 35,
        at: 4,
    },
    Refused {
        text: b"int a[]; int b = {1}; int c[2] = 3; int d[1] = {1, 2};",
        reason: 35,
        at: 4,
    },
    Refused {
        text: b"int f(void) { int a[1025] = {1}; return 0; }",
        reason: 35,
        at: 18,
    },
    Refused {
        text: b"int main(int argc) { return 0; }",
        reason: 36,
        at: 4,
    },
    Refused {
        text: b"int main;",
        reason: 36,
        at: 4,
    },
    Refused {
        text: b"long main(void) { return 0; }",
        reason: 36,
        at: 5,
    },
    Refused {
        text: b"enum { main };",
        reason: 36,
        at: 7,
    },
    Refused {
        text: b"static int main(void) { return 0; }",
        reason: 36,
        at: 11,
    },
    Refused {
        text: b"int f(int a); int f(long a);",
        reason: 37,
        at: 18,
    },
    Refused {
        text: b"int e(int a[]); int b[2]; int f(void) { return e(b); }",
        reason: 38,
        at: 49,
    },
    Refused {
        text: b"int f(void) { printf(\"%d\\n\"); printf(\"%q\", 1); printf(1); printf(\"%ld\", 1); return 0; }",
        reason: 40,
        at: 14,
    },
    Refused {
        text: b"int f(void) { return printf(\"%d %s\", 1, 2); }",
        reason: 40,
        at: 21,
    },
    Refused {
        text: b"int f(void) { putchar(\"a\"); return 0; }",
        reason: 40,
        at: 22,
    },
    Refused {
        text: b"int f(int); int f(int a) { return a; } int g(int) { return 1; }",
        reason: 43,
        at: 45,
    },
];

#[test]
fn refuses(rt: HostRuntime) {
    for (number, case) in REFUSED.iter().enumerate() {
        assert!(rt;
            is_refused(rt.alloc(), case.text, case.reason, case.at),
            "{number}"
        );
    }
}
