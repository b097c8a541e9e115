//! Texts of whose plain form the names, the constants and the ends of sections are what matters.

use test_texts::Worked;

pub static PLAIN_FORMS: [Worked; 3] = [
    // Names of guards that are taken, and a guard that is gone.
    Worked {
        source: r#"int goto_a = 1;
int main(void) {
    int goto_c;
    goto_c = getchar();
    if (goto_c) goto a;
    if (!goto_c) goto a_2;
    putchar('x');
a:
    putchar('a');
a_2:
    goto b;
b:
    while (1) {
        if (goto_c && 1) goto c;
        putchar('d');
    }
c:
    return 0;
}
"#,
        line: "regoto: 4 jumps, 7 moves, 3 guards",
        report: r#"main join a 2
main out a_2 2.t.1
main join a_2 3
main join b 6
main out c 7.b.1
main join c 8
main z5 b 5
"#,
        text: r#"int goto_a = 1;
int main(void) {
    int goto_c;
    int goto_a_2 = 0;
    int goto_a_2_2 = 0;
    int goto_c_2 = 0;
    goto_c = getchar();
    goto_a_2 = goto_c != 0;
    if (!goto_a_2) {
        goto_a_2_2 = !goto_c;
        if (!goto_a_2_2) {
            putchar('x');
        }
    }
    if (!goto_a_2_2) {
        goto_a_2 = 0;
        putchar('a');
    }
    goto_a_2_2 = 0;
    while (!goto_c_2 && 1) {
        goto_c_2 = goto_c && 1;
        if (!goto_c_2) {
            putchar('d');
        }
    }
    goto_c_2 = 0;
    return 0;
}
"#,
        tidied: Some((
            "regoto: 1 changes",
            r#"int goto_a = 1;
int main(void) {
    int goto_c;
    int goto_a_2 = 0;
    int goto_a_2_2 = 0;
    goto_c = getchar();
    goto_a_2 = goto_c != 0;
    if (!goto_a_2) {
        goto_a_2_2 = !goto_c;
        if (!goto_a_2_2) {
            putchar('x');
        }
    }
    if (!goto_a_2_2) {
        goto_a_2 = 0;
        putchar('a');
    }
    goto_a_2_2 = 0;
    while (1) {
        if (goto_c && 1) {
            break;
        }
        putchar('d');
    }
    return 0;
}
"#,
        )),
    },
    // Constants in the promoted kind of a selector, the least of each kind among them.
    Worked {
        source: r#"int f(int x) {
    goto l;
    switch ((char)x) {
    case -2147483647 - 1:
        putchar('a');
    l:
        putchar('b');
    }
    return 0;
}
int g(int x) {
    goto l;
    switch (x) {
    case -5:
    l:
        putchar('b');
    }
    return 0;
}
int h(int x) {
    goto l;
    switch ((unsigned)x) {
    case 0:
    l:
        putchar('c');
    }
    return 0;
}
int i(int x) {
    goto l;
    switch ((long)x) {
    case -9223372036854775807L - 1L:
    l:
        putchar('d');
    }
    return 0;
}
int j(int x) {
    goto l;
    switch ((long)x) {
    case -9223372036854775807L:
    l:
        putchar('e');
    }
    return 0;
}
int k(int x) {
    if (x) goto m;
    goto l;
    switch ((unsigned long)x) {
    case 18446744073709551615UL:
    l:
        putchar('f');
        break;
    case 0:
    m:
        putchar('g');
    }
    return 0;
}
"#,
        line: "regoto: 7 jumps, 15 moves, 7 guards",
        report: r#"f in l 1
f join l 1.s0.0
g in l 1
g join l 1.s0.0
h in l 1
h join l 1.s0.0
i in l 1
i join l 1.s0.0
j in l 1
j join l 1.s0.0
k in m 1
k join m 2.s1.0
k out l 1.t.1
k in l 2
k join l 2.s0.0
"#,
        text: r#"int f(int x) {
    int goto_l = 0;
    goto_l = 1;
    switch (goto_l ? -2147483647 - 1 : (char)x) {
    case -2147483647 - 1:
        if (!goto_l) {
            putchar('a');
        }
        goto_l = 0;
        putchar('b');
    }
    return 0;
}
int g(int x) {
    int goto_l = 0;
    goto_l = 1;
    switch (goto_l ? -5 : x) {
    case -5:
        goto_l = 0;
        putchar('b');
    }
    return 0;
}
int h(int x) {
    int goto_l = 0;
    goto_l = 1;
    switch (goto_l ? 0U : (unsigned)x) {
    case 0:
        goto_l = 0;
        putchar('c');
    }
    return 0;
}
int i(int x) {
    int goto_l = 0;
    goto_l = 1;
    switch (goto_l ? -9223372036854775807L - 1L : (long)x) {
    case -9223372036854775807L - 1L:
        goto_l = 0;
        putchar('d');
    }
    return 0;
}
int j(int x) {
    int goto_l = 0;
    goto_l = 1;
    switch (goto_l ? -9223372036854775807L : (long)x) {
    case -9223372036854775807L:
        goto_l = 0;
        putchar('e');
    }
    return 0;
}
int k(int x) {
    int goto_l = 0;
    int goto_m = 0;
    goto_m = x != 0;
    if (!goto_m) {
        goto_l = 1;
    }
    switch (goto_l ? 18446744073709551615UL : goto_m ? 0UL : (unsigned long)x) {
    case 18446744073709551615UL:
        goto_l = 0;
        putchar('f');
        break;
    case 0:
        goto_m = 0;
        putchar('g');
    }
    return 0;
}
"#,
        tidied: None,
    },
    // Sections that lose a label get their ends, and those with an empty list and no end give to the next.
    Worked {
        source: r#"int f(int x) {
    goto l;
    switch (x) {
    case 0:
    none_0: ;
    case 1:
        putchar('a');
        break;
    none_1: ;
    case 2:
        break;
    none_2: ;
    case 3:
    l: ;
    none_3: ;
    default:
    none_4: ;
    case 4:
        putchar('b');
    case 5:
        break;
    case 6:
    none_6: ;
    }
    return 0;
}
int g(int x) {
    switch (x) {
    case 7:
    none_7: ;
    case 8:
        while (x) { break; }
    default:
        switch (x) {
        case 0:
        none_0: ;
        case 1:
            putchar('a');
            break;
        none_1: ;
        case 2:
            break;
        none_2: ;
        case 3:
        none_3: ;
        default:
        none_4: ;
        case 4:
            putchar('b');
        case 5:
            break;
        case 6:
        none_6: ;
        }
    }
    return 0;
}
"#,
        line: "regoto: 1 jumps, 2 moves, 1 guards",
        report: r#"f in l 1
f join l 1.s3.0
"#,
        text: r#"int f(int x) {
    int goto_l = 0;
    goto_l = 1;
    switch (goto_l ? 3 : x) {
    case 0:
    case 1:
        putchar('a');
        break;
    case 2:
        break;
    case 3:
        goto_l = 0;
    case 4:
    default:
        putchar('b');
    case 5:
        break;
    case 6:
        ;
    }
    return 0;
}
int g(int x) {
    switch (x) {
    case 7:
    case 8:
        while (x) {
            break;
        }
    default:
        switch (x) {
        case 0:
        case 1:
            putchar('a');
            break;
        case 2:
            break;
        case 3:
        case 4:
        default:
            putchar('b');
        case 5:
            break;
        case 6:
            ;
        }
    }
    return 0;
}
"#,
        tidied: None,
    },
];
