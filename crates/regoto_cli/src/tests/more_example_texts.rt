//! The other texts of examples/, and the results that stand beside them there.

use test_texts::Worked;

/// The texts, in the order of their names.
pub static MORE_EXAMPLES: [Worked; 5] = [
    // examples/parser_errors.c
    Worked {
        source: r#"int at;
int line[80];

/* Reads "[digits, digits]" and says by one exit for each error what is wrong. */
int read_pair(int pair[]) {
    int value;
    int which = 0;
    if (line[at++] != '[') goto no_bracket;
    for (;;) {
        value = 0;
        if (line[at] < '0' || line[at] > '9') goto no_digit;
        while (line[at] >= '0' && line[at] <= '9') {
            value = 10 * value + line[at++] - '0';
            if (value > 9999) goto too_large;
        }
        pair[which++] = value;
        if (which == 2) break;
        if (line[at++] != ',') goto no_comma;
        while (line[at] == ' ') at++;
    }
    if (line[at++] == ']') return 0;
no_bracket:
    printf("%d: bracket expected\n", at);
    return 1;
no_digit:
    printf("%d: digit expected\n", at);
    return 2;
no_comma:
    printf("%d: comma expected\n", at);
    return 3;
too_large:
    printf("%d: number too large\n", at);
    return 4;
}
"#,
        line: "regoto: 5 jumps, 23 moves, 5 guards",
        report: r#"read_pair join no_bracket 2
read_pair out no_digit 2.t.0.b.2
read_pair out no_digit 2.t.1
read_pair join no_digit 3
read_pair out too_large 2.t.0.b.2.t.0.b.2
read_pair out too_large 2.t.0.b.2.t.1
read_pair out too_large 2.t.0.b.3
read_pair out too_large 2.t.1
read_pair join too_large 3
read_pair out break_1 2.t.0.b.2.t.1.t.2
read_pair out break_1 2.t.0.b.2.t.2
read_pair out break_1 2.t.0.b.3
read_pair in break_1 2.t.1
read_pair in break_1 2.t.1.t.0
read_pair join break_1 2.t.1.t.0.t.0
read_pair out no_comma 2.t.0.b.2.t.1.t.2.t.1
read_pair out no_comma 2.t.0.b.2.t.1.t.3
read_pair out no_comma 2.t.0.b.2.t.2
read_pair out no_comma 2.t.0.b.3
read_pair out no_comma 2.t.1
read_pair in no_comma 3
read_pair join no_comma 3.t.0
read_pair z4 - 2.t.1
"#,
        text: r#"int at;
int line[80];
/* Reads "[digits, digits]" and says by one exit for each error what is wrong. */
int read_pair(int pair[]) {
    int value;
    int which;
    int goto_break_1 = 0;
    int goto_no_bracket = 0;
    int goto_no_digit = 0;
    int goto_no_comma = 0;
    int goto_too_large = 0;
    which = 0;
    goto_no_bracket = line[at++] != '[';
    if (!goto_no_bracket) {
        while (!goto_no_comma && (!goto_break_1 && (!goto_too_large && (!goto_no_digit && 1)))) {
            value = 0;
            goto_no_digit = line[at] < '0' || line[at] > '9';
            if (!goto_no_digit) {
                while (!goto_too_large && (line[at] >= '0' && line[at] <= '9')) {
                    value = 10 * value + line[at++] - '0';
                    goto_too_large = value > 9999;
                }
                if (!goto_too_large) {
                    pair[which++] = value;
                    goto_break_1 = which == 2;
                    if (!goto_break_1) {
                        goto_no_comma = line[at++] != ',';
                        if (!goto_no_comma) {
                            while (line[at] == ' ') {
                                at++;
                            }
                        }
                    }
                }
            }
        }
        if (!goto_no_comma && (goto_break_1 || !goto_too_large)) {
            if (goto_break_1 || !goto_no_digit) {
                goto_break_1 = 0;
                if (line[at++] == ']') {
                    return 0;
                }
            }
        }
    }
    if (goto_no_comma || !goto_too_large) {
        if (!goto_no_comma) {
            if (!goto_no_digit) {
                goto_no_bracket = 0;
                printf("%d: bracket expected\n", at);
                return 1;
            }
            goto_no_digit = 0;
            printf("%d: digit expected\n", at);
            return 2;
        }
        goto_no_comma = 0;
        printf("%d: comma expected\n", at);
        return 3;
    }
    goto_too_large = 0;
    printf("%d: number too large\n", at);
    return 4;
}
"#,
        tidied: None,
    },
    // examples/retry.c
    Worked {
        source: r#"int connect_to(int host);
int send_to(int line, int byte);
void hang_up(int line);

/* Tries again up to three times, from any of two places. */
int deliver(int host, int byte) {
    int tries = 0;
    int line;
retry:
    if (++tries > 3) return -1;
    line = connect_to(host);
    if (line < 0) goto retry;
    if (send_to(line, byte) < 0) {
        hang_up(line);
        goto retry;
    }
    hang_up(line);
    return tries;
}
"#,
        line: "regoto: 2 jumps, 5 moves, 1 guards",
        report: r#"deliver join retry 5
deliver out retry 2.t.2
deliver lift retry 3
deliver in retry 1.b.0
deliver join retry 1.b.0.b.0
"#,
        text: r#"int connect_to(int host);
int send_to(int line, int byte);
void hang_up(int line);
/* Tries again up to three times, from any of two places. */
int deliver(int host, int byte) {
    int tries;
    int line;
    int goto_retry = 0;
    tries = 0;
    do {
        do {
            goto_retry = 0;
            if (++tries > 3) {
                return -1;
            }
            line = connect_to(host);
            goto_retry = line < 0;
        } while (goto_retry);
        if (send_to(line, byte) < 0) {
            hang_up(line);
            goto_retry = 1;
        }
    } while (goto_retry);
    hang_up(line);
    return tries;
}
"#,
        tidied: None,
    },
    // examples/scattered_switch.c
    Worked {
        source: r#"/* A switch whose default stands in an if, beside a case in its else. */
int grade(int points) {
    int bonus = 0;
    switch (points / 10) {
    case 10:
        bonus = 1;
    case 9:
        return 5 + bonus;
    case 8:
        return 4;
        if (points < 0) {
    default:
            putchar('?');
        } else {
    case 7:
            putchar('!');
        }
    }
    return points < 50 ? 1 : 3;
}
"#,
        line: "regoto: 5 jumps, 18 moves, 5 guards",
        report: r#"grade join case_1_1 3
grade out case_1_2 3.t.1
grade join case_1_2 4
grade out case_1_3 3.t.1.t.1
grade out case_1_3 3.t.2
grade join case_1_3 4
grade out case_1_4 3.t.1.t.1.t.1
grade out case_1_4 3.t.1.t.2
grade out case_1_4 3.t.2
grade in case_1_4 4
grade join case_1_4 5.e.0
grade out default_1 3.t.1.t.1.t.1.t.1
grade out default_1 3.t.1.t.1.t.2
grade out default_1 3.t.1.t.2
grade out default_1 3.t.2
grade in default_1 4
grade join default_1 5.t.0
grade z4 - 4
"#,
        text: r#"/* A switch whose default stands in an if, beside a case in its else. */
int grade(int points) {
    int bonus;
    int switch_1;
    int goto_case_1_1 = 0;
    int goto_case_1_2 = 0;
    int goto_case_1_3 = 0;
    int goto_default_1 = 0;
    int goto_case_1_4 = 0;
    bonus = 0;
    switch_1 = points / 10;
    goto_case_1_1 = switch_1 == 10;
    if (!goto_case_1_1) {
        goto_case_1_2 = switch_1 == 9;
        if (!goto_case_1_2) {
            goto_case_1_3 = switch_1 == 8;
            if (!goto_case_1_3) {
                goto_case_1_4 = switch_1 == 7;
                if (!goto_case_1_4) {
                    goto_default_1 = 1;
                }
            }
        }
    }
    if (!goto_default_1 && !goto_case_1_4) {
        if (!goto_case_1_3) {
            if (!goto_case_1_2) {
                goto_case_1_1 = 0;
                bonus = 1;
            }
            goto_case_1_2 = 0;
            return 5 + bonus;
        }
        goto_case_1_3 = 0;
        return 4;
    }
    if (goto_default_1 || !goto_case_1_4 && points < 0) {
        goto_default_1 = 0;
        putchar('?');
    } else {
        goto_case_1_4 = 0;
        putchar('!');
    }
    return points < 50 ? 1 : 3;
}
"#,
        tidied: None,
    },
    // examples/state_machine.c
    Worked {
        source: r#"/* Counts words and lines: each state is a label. */
int main(void) {
    int c;
    int words = 0;
    int lines = 0;
between:
    c = getchar();
    if (c == -1) goto done;
    if (c == '\n') lines++;
    if (c == ' ' || c == '\n') goto between;
    words++;
inside:
    c = getchar();
    if (c == -1) goto done;
    if (c == '\n') lines++;
    if (c == ' ' || c == '\n') goto between;
    goto inside;
done:
    printf("%d words, %d lines\n", words, lines);
    return 0;
}
"#,
        line: "regoto: 5 jumps, 14 moves, 3 guards",
        report: r#"main join done 5
main out between 5.t.2
main join between 6
main out done 2.b.3.t.2.t.4
main out done 2.b.3.t.3
main out done 2.b.4
main join done 3
main out between 2.b.3.t.2.t.4.t.2
main out between 2.b.3.t.2.t.5
main out between 2.b.3.t.3
main join between 2.b.4
main out inside 2.b.0.b.3.t.2.t.4.t.2.t.1
main out inside 2.b.0.b.3.t.2.t.4.t.3
main join inside 2.b.0.b.3.t.2.t.5
"#,
        text: r#"/* Counts words and lines: each state is a label. */
int main(void) {
    int c;
    int words;
    int lines;
    int goto_between = 0;
    int goto_inside = 0;
    int goto_done = 0;
    words = 0;
    lines = 0;
    do {
        do {
            goto_between = 0;
            c = getchar();
            goto_done = c == -1;
            if (!goto_done) {
                if (c == '\n') {
                    lines++;
                }
                goto_between = c == ' ' || c == '\n';
                if (!goto_between) {
                    words++;
                    do {
                        goto_inside = 0;
                        c = getchar();
                        goto_done = c == -1;
                        if (!goto_done) {
                            if (c == '\n') {
                                lines++;
                            }
                            goto_between = c == ' ' || c == '\n';
                            if (!goto_between) {
                                goto_inside = 1;
                            }
                        }
                    } while (goto_inside);
                }
            }
        } while (goto_between);
    } while (!goto_done && goto_between);
    goto_done = 0;
    printf("%d words, %d lines\n", words, lines);
    return 0;
}
"#,
        tidied: None,
    },
    // examples/total.c
    Worked {
        source: r#"/* One jump into a loop, and one out of it: docs/REWRITING.md shows it after each step. */
int total(int n) {
    int sum = 0;
    if (n > 9) goto middle;
    while (n > 0) {
        sum = sum + n;
        if (sum > 99) goto done;
middle:
        n--;
    }
done:
    return sum;
}
"#,
        line: "regoto: 2 jumps, 5 moves, 2 guards",
        report: r#"total in middle 2
total join middle 2.b.0
total out done 2.b.0.t.2
total out done 2.b.1
total join done 3
"#,
        text: r#"/* One jump into a loop, and one out of it: docs/REWRITING.md shows it after each step. */
int total(int n) {
    int sum;
    int goto_middle = 0;
    int goto_done = 0;
    sum = 0;
    goto_middle = n > 9;
    while (!goto_done && (goto_middle || n > 0)) {
        if (!goto_middle) {
            sum = sum + n;
            goto_done = sum > 99;
        }
        if (!goto_done) {
            goto_middle = 0;
            n--;
        }
    }
    goto_done = 0;
    return sum;
}
"#,
        tidied: Some((
            "regoto: 1 changes",
            r#"/* One jump into a loop, and one out of it: docs/REWRITING.md shows it after each step. */
int total(int n) {
    int sum;
    int goto_middle = 0;
    sum = 0;
    goto_middle = n > 9;
    while (goto_middle || n > 0) {
        if (!goto_middle) {
            sum = sum + n;
            if (sum > 99) {
                break;
            }
        }
        goto_middle = 0;
        n--;
    }
    return sum;
}
"#,
        )),
    },
];
