//! Texts with jumps.

use crate::worked::Worked;

/// A loop by hand.
pub const LOOP_BY_HAND: Worked = Worked {
    source: r#"int main(void) { int i = 0; loop: if (i >= 3) goto done; putchar('a' + i); i++; goto loop; done: return 0; }
"#,
    line: "regoto: 2 jumps, 3 moves, 2 guards",
    report: r#"main join done 3
main out loop 3.t.3
main join loop 4
"#,
    text: r#"int main(void) {
    int i;
    int goto_loop = 0;
    int goto_done = 0;
    i = 0;
    do {
        goto_loop = 0;
        goto_done = i >= 3;
        if (!goto_done) {
            putchar('a' + i);
            i++;
            goto_loop = 1;
        }
    } while (goto_loop);
    goto_done = 0;
    return 0;
}
"#,
    tidied: None,
};

/// A jump to the next statement.
pub const JUMP_TO_NEXT: Worked = Worked {
    source: r#"int main(void) { goto L; L: ; }
"#,
    line: "regoto: 1 jumps, 2 moves, 0 guards",
    report: r#"main join L 1
main z5 L 0
"#,
    text: r#"int main(void) {
}
"#,
    tidied: None,
};

/// A loop without end.
pub const ENDLESS_LOOP: Worked = Worked {
    source: r#"int main(void) { L: goto L; }
"#,
    line: "regoto: 1 jumps, 1 moves, 1 guards",
    report: r#"main join L 2
"#,
    text: r#"int main(void) {
    int goto_L = 0;
    do {
        goto_L = 0;
        goto_L = 1;
    } while (goto_L);
}
"#,
    tidied: None,
};

/// Into a loop.
pub const INTO_LOOP: Worked = Worked {
    source: r#"int main(void) { int i = 0; goto mid; while (i < 3) { putchar('a'); mid: putchar('b'); i++; } return 0; }
"#,
    line: "regoto: 1 jumps, 2 moves, 1 guards",
    report: r#"main in mid 2
main join mid 2.b.0
"#,
    text: r#"int main(void) {
    int i;
    int goto_mid = 0;
    i = 0;
    goto_mid = 1;
    while (goto_mid || i < 3) {
        if (!goto_mid) {
            putchar('a');
        }
        goto_mid = 0;
        putchar('b');
        i++;
    }
    return 0;
}
"#,
    tidied: None,
};

/// Into an else.
pub const INTO_ELSE: Worked = Worked {
    source: r#"int f(void) { putchar('f'); return 1; } int main(void) { goto low; if (f()) putchar('a'); else { putchar('x'); low: putchar('b'); } return 0; }
"#,
    line: "regoto: 1 jumps, 2 moves, 1 guards",
    report: r#"main in low 1
main join low 1.e.0
"#,
    text: r#"int f(void) {
    putchar('f');
    return 1;
}
int main(void) {
    int goto_low = 0;
    goto_low = 1;
    if (!goto_low && f()) {
        putchar('a');
    } else {
        if (!goto_low) {
            putchar('x');
        }
        goto_low = 0;
        putchar('b');
    }
    return 0;
}
"#,
    tidied: None,
};

/// Out of three constructs.
pub const OUT_OF_THREE: Worked = Worked {
    source: r#"int main(void) { int i; int j; for (i = 0; i < 3; i++) for (j = 0; j < 3; j++) if (i + j == 2) { putchar('!'); goto end; } end: return i * 10 + j; }
"#,
    line: "regoto: 1 jumps, 4 moves, 1 guards",
    report: r#"main out end 1.b.1.b.0.t.2
main out end 1.b.1.b.1
main out end 1.b.2
main join end 2
"#,
    text: r#"int main(void) {
    int i;
    int j;
    int goto_end = 0;
    i = 0;
    while (!goto_end && i < 3) {
        j = 0;
        while (!goto_end && j < 3) {
            if (i + j == 2) {
                putchar('!');
                goto_end = 1;
            }
            if (!goto_end) {
                j++;
            }
        }
        if (!goto_end) {
            i++;
        }
    }
    goto_end = 0;
    return i * 10 + j;
}
"#,
    tidied: None,
};

/// One label, two jumps.
pub const ONE_LABEL_TWO_JUMPS: Worked = Worked {
    source: r#"int main(void) { int c; while (1) { c = getchar(); if (c == -1) goto end; if (c == 'q') goto end; putchar(c); } end: return 0; }
"#,
    line: "regoto: 2 jumps, 6 moves, 1 guards",
    report: r#"main out end 0.b.2
main join end 1
main out end 0.b.2.t.1
main out end 0.b.3
main join end 1
main z2 end 0
"#,
    text: r#"int main(void) {
    int c;
    int goto_end = 0;
    while (!goto_end && 1) {
        c = getchar();
        goto_end = c == -1;
        if (!goto_end) {
            goto_end = c == 'q';
            if (!goto_end) {
                putchar(c);
            }
        }
    }
    goto_end = 0;
    return 0;
}
"#,
    tidied: Some((
        "regoto: 1 changes",
        r#"int main(void) {
    int c;
    while (1) {
        c = getchar();
        if (c == -1) {
            break;
        }
        if (c == 'q') {
            break;
        }
        putchar(c);
    }
    return 0;
}
"#,
    )),
};

/// From section to section.
pub const SECTION_TO_SECTION: Worked = Worked {
    source: r#"int f(int x) { switch (x) { case 1: if (getchar() == 'j') goto two; putchar('a'); case 2: putchar('b'); case 3: putchar('c'); two: putchar('d'); break; default: putchar('e'); } return 0; }
"#,
    line: "regoto: 1 jumps, 5 moves, 1 guards",
    report: r#"f out two 0.s0.1
f lift two 1
f in two 0.b.0
f in two 0.b.0.s2.0
f join two 0.b.0.s2.0.t.0
"#,
    text: r#"int f(int x) {
    int goto_two = 0;
    do {
        switch (goto_two ? 3 : x) {
        case 1:
            goto_two = getchar() == 'j';
            if (!goto_two) {
                putchar('a');
            }
        case 2:
            if (!goto_two) {
                putchar('b');
            }
        case 3:
            if (goto_two || !goto_two) {
                if (!goto_two) {
                    putchar('c');
                }
                goto_two = 0;
                putchar('d');
            }
            break;
        default:
            putchar('e');
        }
    } while (goto_two);
    return 0;
}
"#,
    tidied: None,
};

/// Into a section with the default alone.
pub const INTO_DEFAULT: Worked = Worked {
    source: r#"int f(int x) { goto mid; switch (x) { case 0: putchar('0'); break; case 1: putchar('1'); break; default: putchar('x'); mid: putchar('d'); } return 0; }
"#,
    line: "regoto: 1 jumps, 2 moves, 1 guards",
    report: r#"f in mid 1
f join mid 1.s2.0
"#,
    text: r#"int f(int x) {
    int goto_mid = 0;
    goto_mid = 1;
    switch (goto_mid ? 2 : x) {
    case 0:
        putchar('0');
        break;
    case 1:
        putchar('1');
        break;
    default:
        if (!goto_mid) {
            putchar('x');
        }
        goto_mid = 0;
        putchar('d');
    }
    return 0;
}
"#,
    tidied: None,
};

/// Captured break and continue.
pub const CAPTURED_EXITS: Worked = Worked {
    source: r#"int main(void) { int i; for (i = 0; i < 4; i++) { again: if (i == 0) continue; if (i == 3) break; putchar('0' + i); if (getchar() == 'r') goto again; } return i; }
"#,
    line: "regoto: 3 jumps, 7 moves, 3 guards",
    report: r#"main join continue_1 1.b.2
main out break_1 1.b.2.t.1
main out break_1 1.b.3
main join break_1 2
main out again 1.b.2.t.1.t.2
main out again 1.b.2.t.2
main join again 1.b.3
"#,
    text: r#"int main(void) {
    int i;
    int goto_again = 0;
    int goto_continue_1 = 0;
    int goto_break_1 = 0;
    i = 0;
    while (!goto_break_1 && i < 4) {
        do {
            goto_again = 0;
            goto_continue_1 = i == 0;
            if (!goto_continue_1) {
                goto_break_1 = i == 3;
                if (!goto_break_1) {
                    putchar('0' + i);
                    goto_again = getchar() == 'r';
                }
            }
        } while (goto_again);
        if (!goto_break_1) {
            goto_continue_1 = 0;
            i++;
        }
    }
    goto_break_1 = 0;
    return i;
}
"#,
    tidied: None,
};

/// Back into an earlier loop.
pub const BACK_INTO_LOOP: Worked = Worked {
    source: r#"int main(void) { int i = 0; while (i < 2) { mid: putchar('a'); i++; } putchar('b'); if (i < 4) goto mid; return 0; }
"#,
    line: "regoto: 1 jumps, 3 moves, 1 guards",
    report: r#"main lift mid 4
main in mid 1.b.0
main join mid 1.b.0.b.0
"#,
    text: r#"int main(void) {
    int i;
    int goto_mid = 0;
    i = 0;
    do {
        while (goto_mid || i < 2) {
            goto_mid = 0;
            putchar('a');
            i++;
        }
        putchar('b');
        goto_mid = i < 4;
    } while (goto_mid);
    return 0;
}
"#,
    tidied: None,
};

/// Past an initialiser.
pub const PAST_INITIALISER: Worked = Worked {
    source: r#"int x = 7; int main(void) { int n = 0; goto mid; while (n < 2) { int x = 5; mid: putchar('0' + x); n++; } putchar('0' + x); return 0; }
"#,
    line: "regoto: 1 jumps, 2 moves, 1 guards",
    report: r#"main in mid 2
main join mid 2.b.0
"#,
    text: r#"int x = 7;
int main(void) {
    int n;
    int x_2;
    int goto_mid = 0;
    n = 0;
    goto_mid = 1;
    while (goto_mid || n < 2) {
        if (!goto_mid) {
            x_2 = 5;
        }
        goto_mid = 0;
        putchar('0' + x_2);
        n++;
    }
    putchar('0' + x);
    return 0;
}
"#,
    tidied: None,
};

/// Two resources given back.
pub const TWO_RESOURCES: Worked = Worked {
    source: r#"#include <stdio.h>
int open_port(int n); void close_port(int n); int copy(int n) { int r = -1; int a = open_port(n); int b; if (a < 0) goto out; b = open_port(n + 1); if (b < 0) goto close_a; r = a + b; close_port(b); close_a: close_port(a); out: return r; }
"#,
    line: "regoto: 2 jumps, 2 moves, 2 guards",
    report: r#"copy join out 3
copy join close_a 3.t.2
"#,
    text: r#"#include <stdio.h>
int open_port(int n);
void close_port(int n);
int copy(int n) {
    int r;
    int a;
    int b;
    int goto_close_a = 0;
    int goto_out = 0;
    r = -1;
    a = open_port(n);
    goto_out = a < 0;
    if (!goto_out) {
        b = open_port(n + 1);
        goto_close_a = b < 0;
        if (!goto_close_a) {
            r = a + b;
            close_port(b);
        }
        goto_close_a = 0;
        close_port(a);
    }
    goto_out = 0;
    return r;
}
"#,
    tidied: None,
};

/// Over a statement.
pub const OVER_STATEMENT: Worked = Worked {
    source: r#"int main(void) { int a; a = 1; if (a == 1) goto end; putchar('x'); end: putchar('y'); return 0; }
"#,
    line: "regoto: 1 jumps, 1 moves, 1 guards",
    report: r#"main join end 2
"#,
    text: r#"int main(void) {
    int a;
    int goto_end = 0;
    a = 1;
    goto_end = a == 1;
    if (!goto_end) {
        putchar('x');
    }
    goto_end = 0;
    putchar('y');
    return 0;
}
"#,
    tidied: None,
};

/// Back over a statement, with a test.
pub const BACK_WITH_TEST: Worked = Worked {
    source: r#"int main(void) { int i; i = 0; again: putchar('a' + i); i = i + 1; if (i < 3) goto again; return 0; }
"#,
    line: "regoto: 1 jumps, 1 moves, 1 guards",
    report: r#"main join again 5
"#,
    text: r#"int main(void) {
    int i;
    int goto_again = 0;
    i = 0;
    do {
        goto_again = 0;
        putchar('a' + i);
        i = i + 1;
        goto_again = i < 3;
    } while (goto_again);
    return 0;
}
"#,
    tidied: None,
};

/// Labels in an if and its else.
pub const LABELS_IN_IF: Worked = Worked {
    source: r#"int main(void) { int c; while (1) { c = getchar(); if (c < 'a') { if (c < 0) goto p; goto q; } putchar(c); } p: putchar('p'); q: return c; }
"#,
    line: "regoto: 2 jumps, 8 moves, 2 guards",
    report: r#"main out p 0.b.1.t.1
main out p 0.b.2
main join p 1
main out q 0.b.1.t.1.t.1
main out q 0.b.1.t.2
main out q 0.b.2
main join q 1
main z4 - 0.b.2
"#,
    text: r#"int main(void) {
    int c;
    int goto_p = 0;
    int goto_q = 0;
    while (!goto_q && (!goto_p && 1)) {
        c = getchar();
        if (c < 'a') {
            goto_p = c < 0;
            if (!goto_p) {
                goto_q = 1;
            }
        }
        if (!goto_q && !goto_p) {
            putchar(c);
        }
    }
    if (!goto_q) {
        goto_p = 0;
        putchar('p');
    }
    goto_q = 0;
    return c;
}
"#,
    tidied: None,
};

/// A scattered switch.
pub const SCATTERED_SWITCH: Worked = Worked {
    source: r#"int f(int n) { int k = 0; switch (n % 2) { case 0: do { putchar('a'); k++; case 1: putchar('b'); n = n - 2; } while (n > 0); } return k; }
"#,
    line: "regoto: 3 jumps, 7 moves, 3 guards",
    report: r#"f join case_1_1 3
f out case_1_2 3.t.1
f in case_1_2 4
f join case_1_2 5.b.0
f out break_1 3.t.1.t.1
f out break_1 3.t.2
f join break_1 4
"#,
    text: r#"int f(int n) {
    int k;
    int switch_1;
    int goto_case_1_1 = 0;
    int goto_case_1_2 = 0;
    int goto_break_1 = 0;
    k = 0;
    switch_1 = n % 2;
    goto_case_1_1 = switch_1 == 0;
    if (!goto_case_1_1) {
        goto_case_1_2 = switch_1 == 1;
        if (!goto_case_1_2) {
            goto_break_1 = 1;
        }
    }
    if (!goto_break_1) {
        if (!goto_case_1_2) {
            goto_case_1_1 = 0;
        }
        do {
            if (!goto_case_1_2) {
                putchar('a');
                k++;
            }
            goto_case_1_2 = 0;
            putchar('b');
            n = n - 2;
        } while (n > 0);
    }
    goto_break_1 = 0;
    return k;
}
"#,
    tidied: None,
};
