//! Texts of which the layout is what matters: names, numbers, sections and comments.

use crate::worked::Worked;

/// An empty file.
pub const EMPTY_FILE: Worked = Worked {
    source: "",
    line: "regoto: 0 jumps, 0 moves, 0 guards",
    report: "",
    text: "",
    tidied: None,
};

/// No jump, and names that hide one another.
pub const HIDING_NAMES: Worked = Worked {
    source: r#"int x = 1;
int main(void) {
    int x = 2;
    {
        int x = 3;
        putchar(x);
    }
    while (x < 4) {
        x++;
        if (x == 3) {
            continue;
        } else if (x == 4) {
            break;
        }
    }
    return x;
}
"#,
    line: "regoto: 0 jumps, 0 moves, 0 guards",
    report: "",
    text: r#"int x = 1;
int main(void) {
    int x = 2;
    {
        int x = 3;
        putchar(x);
    }
    while (x < 4) {
        x++;
        if (x == 3) {
            continue;
        } else if (x == 4) {
            break;
        }
    }
    return x;
}
"#,
    tidied: None,
};

/// Numbers, characters and brackets.
pub const NUMBERS_AND_BRACKETS: Worked = Worked {
    source: r#"long a = 2147483648; unsigned b = 0xFFFFFFFF; int c = '\0'; int d[] = {1, 010}; int f(int a, int b) { return a - (b - 1) - (a * b) + (- -a); }
"#,
    line: "regoto: 0 jumps, 0 moves, 0 guards",
    report: "",
    text: r#"long a = 2147483648L;
unsigned b = 4294967295U;
int c = '\000';
int d[2] = {1, 8};
int f(int a, int b) {
    return a - (b - 1) - a * b + - -a;
}
"#,
    tidied: None,
};

/// A declaration behind a case label.
pub const DECLARATION_BEHIND_CASE: Worked = Worked {
    source: r#"int f(int x) { switch (x) { case 1: ; int y = x; return y; } return 0; }
"#,
    line: "regoto: 0 jumps, 0 moves, 0 guards",
    report: "",
    text: r#"int f(int x) {
    switch (x) {
    case 1:
        ;
        int y = x;
        return y;
    }
    return 0;
}
"#,
    tidied: None,
};

/// Comments.
pub const COMMENTS: Worked = Worked {
    source: r#"/* main */ int main(void) { goto end; /* skipped */ putchar('x'); // last
end: return 0; }
"#,
    line: "regoto: 1 jumps, 1 moves, 1 guards",
    report: r#"main join end 1
"#,
    text: r#"/* main */
int main(void) {
    int goto_end = 0;
    goto_end = 1;
    if (!goto_end) {
        /* skipped */
        putchar('x');
        // last
    }
    goto_end = 0;
    return 0;
}
"#,
    tidied: None,
};

/// Comments between cases.
pub const COMMENTS_BETWEEN_CASES: Worked = Worked {
    source: r#"int f(int x) { switch (x) { case 1: ; /* a */ case 2: return x; /* b */ } return 0; }
"#,
    line: "regoto: 0 jumps, 0 moves, 0 guards",
    report: "",
    text: r#"int f(int x) {
    switch (x) {
    case 1:
    case 2:
        /* a */
        return x;
        /* b */
        ;
    }
    return 0;
}
"#,
    tidied: None,
};
