//! The first texts of examples/, and the results that stand beside them there.

use test_texts::Worked;

/// The texts, in the order of their names.
pub static EXAMPLES: [Worked; 7] = [
    // examples/cleanup.c
    Worked {
        source: r#"#include <stdio.h>

int open_source(int id);
int open_target(int id);
int reserve(int bytes);
void release(int handle);
void close_port(int port);

/* Three resources are taken, and given back in reverse order. */
int copy(int id) {
    int result = -1;
    int source = open_source(id);
    int target;
    int buffer;
    if (source < 0) goto out;
    target = open_target(id);
    if (target < 0) goto close_source;
    buffer = reserve(4096);
    if (buffer < 0) goto close_target;
    printf("copy %d to %d\n", source, target);
    result = 0;
    release(buffer);
close_target:
    close_port(target);
close_source:
    close_port(source);
out:
    return result;
}
"#,
        line: "regoto: 3 jumps, 3 moves, 3 guards",
        report: r#"copy join out 3
copy join close_source 3.t.2
copy join close_target 3.t.2.t.2
"#,
        text: r#"#include <stdio.h>
int open_source(int id);
int open_target(int id);
int reserve(int bytes);
void release(int handle);
void close_port(int port);
/* Three resources are taken, and given back in reverse order. */
int copy(int id) {
    int result;
    int source;
    int target;
    int buffer;
    int goto_close_target = 0;
    int goto_close_source = 0;
    int goto_out = 0;
    result = -1;
    source = open_source(id);
    goto_out = source < 0;
    if (!goto_out) {
        target = open_target(id);
        goto_close_source = target < 0;
        if (!goto_close_source) {
            buffer = reserve(4096);
            goto_close_target = buffer < 0;
            if (!goto_close_target) {
                printf("copy %d to %d\n", source, target);
                result = 0;
                release(buffer);
            }
            goto_close_target = 0;
            close_port(target);
        }
        goto_close_source = 0;
        close_port(source);
    }
    goto_out = 0;
    return result;
}
"#,
        tidied: None,
    },
    // examples/duff.c
    Worked {
        source: r#"int port;

/* Duff's device: the cases of the switch stand in a loop. */
void send(int count, const char bytes[]) {
    int at = 0;
    int rounds = (count + 3) / 4;
    switch (count % 4) {
    case 0:
        do {
            port = bytes[at++];
        case 3:
            port = bytes[at++];
        case 2:
            port = bytes[at++];
        case 1:
            port = bytes[at++];
        } while (--rounds > 0);
    }
}
"#,
        line: "regoto: 5 jumps, 20 moves, 5 guards",
        report: r#"send join case_1_1 4
send out case_1_2 4.t.1
send in case_1_2 5
send join case_1_2 6.b.0
send out case_1_3 4.t.1.t.1
send out case_1_3 4.t.2
send in case_1_3 5
send join case_1_3 6.b.0
send out case_1_4 4.t.1.t.1.t.1
send out case_1_4 4.t.1.t.2
send out case_1_4 4.t.2
send in case_1_4 5
send join case_1_4 6.b.0
send out break_1 4.t.1.t.1.t.1.t.1
send out break_1 4.t.1.t.1.t.2
send out break_1 4.t.1.t.2
send out break_1 4.t.2
send join break_1 5
send z4 - 5.t.0
send z4 - 5.t.0
"#,
        text: r#"int port;
/* Duff's device: the cases of the switch stand in a loop. */
void send(int count, const char bytes[]) {
    int at;
    int rounds;
    int switch_1;
    int goto_case_1_1 = 0;
    int goto_case_1_2 = 0;
    int goto_case_1_3 = 0;
    int goto_case_1_4 = 0;
    int goto_break_1 = 0;
    at = 0;
    rounds = (count + 3) / 4;
    switch_1 = count % 4;
    goto_case_1_1 = switch_1 == 0;
    if (!goto_case_1_1) {
        goto_case_1_2 = switch_1 == 3;
        if (!goto_case_1_2) {
            goto_case_1_3 = switch_1 == 2;
            if (!goto_case_1_3) {
                goto_case_1_4 = switch_1 == 1;
                if (!goto_case_1_4) {
                    goto_break_1 = 1;
                }
            }
        }
    }
    if (!goto_break_1) {
        if (!goto_case_1_4 && (!goto_case_1_3 && !goto_case_1_2)) {
            goto_case_1_1 = 0;
        }
        do {
            if (!goto_case_1_4) {
                if (!goto_case_1_3) {
                    if (!goto_case_1_2) {
                        port = bytes[at++];
                    }
                    goto_case_1_2 = 0;
                    port = bytes[at++];
                }
                goto_case_1_3 = 0;
                port = bytes[at++];
            }
            goto_case_1_4 = 0;
            port = bytes[at++];
        } while (--rounds > 0);
    }
    goto_break_1 = 0;
}
"#,
        tidied: None,
    },
    // examples/echo.c
    Worked {
        source: r#"/* Copies the input up to its end or to a q: both leave the loop by one jump each, which tidy makes a break. */
int main(void) {
    int c;
    while (1) {
        c = getchar();
        if (c == -1) goto end;
        if (c == 'q') goto end;
        putchar(c);
    }
end:
    return 0;
}
"#,
        line: "regoto: 2 jumps, 6 moves, 1 guards",
        report: r#"main out end 0.b.2
main join end 1
main out end 0.b.2.t.1
main out end 0.b.3
main join end 1
main z2 end 0
"#,
        text: r#"/* Copies the input up to its end or to a q: both leave the loop by one jump each, which tidy makes a break. */
int main(void) {
    int c;
    int goto_end = 0;
    while (!goto_end && 1) {
        c = getchar();
        goto_end = c == -1;
        if (!goto_end) {
            goto_end = c == 'q';
            if (!goto_end) {
                putchar(c);
            }
        }
    }
    goto_end = 0;
    return 0;
}
"#,
        tidied: Some((
            "regoto: 1 changes",
            r#"/* Copies the input up to its end or to a q: both leave the loop by one jump each, which tidy makes a break. */
int main(void) {
    int c;
    while (1) {
        c = getchar();
        if (c == -1) {
            break;
        }
        if (c == 'q') {
            break;
        }
        putchar(c);
    }
    return 0;
}
"#,
        )),
    },
    // examples/endless.c
    Worked {
        source: r#"/* A loop by a jump that never ends: see "Compiling the result" in the README. */
int main(void) {
    int x = 0;
again:
    x = x ^ 1;
    if (x < 5) goto again;
    putchar(65);
    return 0;
}
"#,
        line: "regoto: 1 jumps, 1 moves, 1 guards",
        report: r#"main join again 4
"#,
        text: r#"/* A loop by a jump that never ends: see "Compiling the result" in the README. */
int main(void) {
    int x;
    int goto_again = 0;
    x = 0;
    do {
        goto_again = 0;
        x = x ^ 1;
        goto_again = x < 5;
    } while (goto_again);
    putchar(65);
    return 0;
}
"#,
        tidied: None,
    },
    // examples/found.c
    Worked {
        source: r#"int grid[16];

/* Leaves two loops at once. */
int find(int wanted) {
    int x;
    int y;
    for (x = 0; x < 4; x++)
        for (y = 0; y < 4; y++)
            if (grid[4 * x + y] == wanted) goto found;
    return -1;
found:
    return 4 * x + y;
}
"#,
        line: "regoto: 1 jumps, 3 moves, 1 guards",
        report: r#"find out found 1.b.1.b.1
find out found 1.b.2
find join found 2
"#,
        text: r#"int grid[16];
/* Leaves two loops at once. */
int find(int wanted) {
    int x;
    int y;
    int goto_found = 0;
    x = 0;
    while (!goto_found && x < 4) {
        y = 0;
        while (!goto_found && y < 4) {
            goto_found = grid[4 * x + y] == wanted;
            if (!goto_found) {
                y++;
            }
        }
        if (!goto_found) {
            x++;
        }
    }
    if (!goto_found) {
        return -1;
    }
    goto_found = 0;
    return 4 * x + y;
}
"#,
        tidied: None,
    },
    // examples/into_loop.c
    Worked {
        source: r#"/* Writes a list with commas between: the loop is entered in its middle. */
int main(void) {
    int i = 1;
    goto first;
    while (i <= 5) {
        putchar(',');
first:
        putchar('0' + i);
        i++;
    }
    putchar('\n');
    return 0;
}
"#,
        line: "regoto: 1 jumps, 2 moves, 1 guards",
        report: r#"main in first 2
main join first 2.b.0
"#,
        text: r#"/* Writes a list with commas between: the loop is entered in its middle. */
int main(void) {
    int i;
    int goto_first = 0;
    i = 1;
    goto_first = 1;
    while (goto_first || i <= 5) {
        if (!goto_first) {
            putchar(',');
        }
        goto_first = 0;
        putchar('0' + i);
        i++;
    }
    putchar('\n');
    return 0;
}
"#,
        tidied: None,
    },
    // examples/nested_loops.c
    Worked {
        source: r#"int grid[64];

/* Leaves three loops at once. */
int find(int wanted) {
    int x;
    int y;
    int z;
    for (x = 0; x < 4; x++) {
        for (y = 0; y < 4; y++) {
            for (z = 0; z < 4; z++) {
                if (grid[16 * x + 4 * y + z] == wanted) goto found;
            }
        }
    }
    return -1;
found:
    return 16 * x + 4 * y + z;
}
"#,
        line: "regoto: 1 jumps, 4 moves, 1 guards",
        report: r#"find out found 1.b.1.b.1.b.1
find out found 1.b.1.b.2
find out found 1.b.2
find join found 2
"#,
        text: r#"int grid[64];
/* Leaves three loops at once. */
int find(int wanted) {
    int x;
    int y;
    int z;
    int goto_found = 0;
    x = 0;
    while (!goto_found && x < 4) {
        y = 0;
        while (!goto_found && y < 4) {
            z = 0;
            while (!goto_found && z < 4) {
                goto_found = grid[16 * x + 4 * y + z] == wanted;
                if (!goto_found) {
                    z++;
                }
            }
            if (!goto_found) {
                y++;
            }
        }
        if (!goto_found) {
            x++;
        }
    }
    if (!goto_found) {
        return -1;
    }
    goto_found = 0;
    return 16 * x + 4 * y + z;
}
"#,
        tidied: None,
    },
];
