use crate::reading::is_printed;

/// Texts, and how their programs are printed.
static PRINTED: [(&[u8], &[u8]); 14] = [
    (
        b"int x; int main(void) { return x; }",
        b"int x;\nint main(void) {\n    return x;\n}\n",
    ),
    (
        b"enum { A, B = 5, C, D = B + C }; int y = D, z[3] = {1, 2}; int main(void) { return A; }",
        b"enum { A, B = 5, C, D = B + C };\nint y = D;\nint z[3] = {1, 2};\nint main(void) {\n    return A;\n}\n",
    ),
    (
        b"/* one */ int x; /* two */ int main(void) { /* three */ int y = 1; // four\n return y; } // five",
        b"/* one */\nint x;\n/* two */\nint main(void) {\n    /* three */\n    int y = 1;\n    // four\n    return y;\n}\n// five\n",
    ),
    (
        b"int f(int x) { switch (x) { case 1: ; /* a */ case 2: return x; /* b */ } return 0; }",
        b"int f(int x) {\n    switch (x) {\n    case 1:\n    case 2:\n        /* a */\n        return x;\n        /* b */\n        ;\n    }\n    return 0;\n}\n",
    ),
    (
        b"int f(int x) { switch (x) { /* 0 */ ; /* 1 */ case 1: /* 2 */ L: /* 3 */ x = 1; /* 4 */ break; /* 5 */ default: /* 6 */ ; /* 7 */ } /* 8 */ return 0; /* 9 */ } /* 10 */",
        b"int f(int x) {\n    /* 0 */\n    switch (x) {\n    case 1:\n        /* 1 */\n        /* 2 */\n        L: ;\n        /* 3 */\n        x = 1;\n        /* 4 */\n        break;\n    default:\n        /* 5 */\n        /* 6 */\n        /* 7 */\n        ;\n    }\n    /* 8 */\n    return 0;\n    /* 9 */\n}\n/* 10 */\n",
    ),
    (
        b"int f(int x) { if (x) /* a */ x = 1; /* b */ else /* c */ { /* d */ x = 2; /* e */ } /* f */ do { x--; /* g */ } while (/* h */ x); /* i */ for (/* j */ ; x; /* k */) /* l */ { /* m */ } return 0; }",
        b"int f(int x) {\n    if (x) {\n        /* a */\n        x = 1;\n        /* b */\n        /* c */\n    } else {\n        /* d */\n        x = 2;\n        /* e */\n    }\n    /* f */\n    do {\n        x--;\n        /* g */\n        /* h */\n    } while (x);\n    /* i */\n    /* j */\n    /* k */\n    /* l */\n    for (; x;) {\n        /* m */\n    }\n    return 0;\n}\n",
    ),
    (
        b"int main(void) { int getchar = 1; return getchar; }",
        b"int main(void) {\n    int getchar = 1;\n    return getchar;\n}\n",
    ),
    (
        b"int f(void) { goto L; { int y = 1; L: y++; } return 0; }",
        b"int f(void) {\n    goto L;\n    {\n        int y = 1;\n        L: ;\n        y++;\n    }\n    return 0;\n}\n",
    ),
    (b"/* only */", b"/* only */\n"),
    (b"// only", b"// only\n"),
    (
        b"enum { A /* x */ , B }; int y[2] = { 1, /* z */ 2 };",
        b"/* x */\nenum { A, B };\n/* z */\nint y[2] = {1, 2};\n",
    ),
    (
        b"int f(void) { return printf(\"%c%x\\n\", 1, 2U); }",
        b"int f(void) {\n    return printf(\"%c%x\\n\", 1, 2U);\n}\n",
    ),
    (
        b"int x; int f(void) { int x = x; return x; }",
        b"int x;\nint f(void) {\n    int x = x;\n    return x;\n}\n",
    ),
    (
        b"int f(void) { goto f; f: return 0; }",
        b"int f(void) {\n    goto f;\n    f: ;\n    return 0;\n}\n",
    ),
];

#[test]
fn printed(rt: HostRuntime) {
    for (number, (text, printed)) in PRINTED.iter().enumerate() {
        assert!(rt; is_printed(rt.alloc(), text, printed), "{number}");
    }
}
