//! Texts, each expression of which is a variable of its own, in the order of the text, and what is told of their bodies.
//! No rule looks at more of an expression.

/// What is told of a body without gotos.
#[derive(Clone, Copy)]
pub enum Asked {
    /// Its moves one by one: where the Leap and its Land stand, the rule, where the Leap then stands, and the body then.
    Moves,
    /// All its moves and simplifications in the form of the report, and the body then.
    Report,
    /// Whether single simplifications are made of it, and the body then, after all its moves.
    Unread,
    /// Whether single simplifications are made of another body in its place, and that body then.
    Neighbours,
}

/// Into a `while`.
const INTO_WHILE: &str =
    "int main(void) { int v0, v1, v2, v3, v4, v5; v0; goto in; while (v1) { v2; in: v3; v4; } return v5; }";

/// Into an else-list.
const INTO_ELSE: &str =
    "int main(void) { int v0, v1, v2, v3, v4; goto in; if (v0) { v1; } else { v2; in: v3; } return v4; }";

/// Out of an `if` and two loops.
const OUT_OF_LOOPS: &str =
    "int main(void) { int v0, v1, v2, v3, v4, v5, v6, v7, v8; v0; while (v1) { v2; while (v3) { if (v4) { v5; goto out; } v6; } v7; } out: return v8; }";

/// Two jumps to one label, out of a loop.
const TWO_JUMPS: &str =
    "int main(void) { int v0, v1, v2, v3, v4, v5; while (v0) { v1; if (v2) goto out; if (v3) goto out; v4; } out: return v5; }";

/// From one section of a `switch` to another, past one that is fallen into.
const BETWEEN_SECTIONS: &str =
    "int main(void) { int v0, v1, v2, v3, v4, v5, v6, v7; switch (v0) { case 1: if (v1) goto there; v2; case 2: v3; case 3: v4; there: v5; break; default: v6; } return v7; }";

/// Into the section of a `switch` that has the default alone.
const INTO_DEFAULT: &str =
    "int main(void) { int v0, v1, v2, v3, v4, v5; goto in; switch (v0) { case 0: v1; break; case 1: v2; break; default: v3; in: v4; } return v5; }";

/// A loop that is left, continued and begun again, by jumps to the labels 2, 1 and 0.
const BREAK_AND_CONTINUE: &str =
    "int main(void) { int v0, v1, v2, v3, v4, v5, v6, v7; v0; while (v1) { again: if (v2) goto next; if (v3) goto out; v4; if (v5) goto again; next: v6; } out: return v7; }";

/// Back into an earlier loop.
const BACK_INTO_LOOP: &str =
    "int main(void) { int v0, v1, v2, v3, v4, v5, v6; v0; while (v1) { in: v2; v3; } v4; if (v5) goto in; return v6; }";

/// To a label right behind the jump.
const TO_THE_NEXT: &str = "int main(void) { goto next; next: ; }";

/// Two labels out of one loop, from one `if`.
const TWO_LABELS: &str =
    "int main(void) { int v0, v1, v2, v3, v4, v5, v6; while (v0) { v1; if (v2) { if (v3) goto near; goto far; } v4; } near: v5; far: return v6; }";

/// Three jumps to one label, out of a loop.
const THREE_JUMPS: &str =
    "int main(void) { int v0, v1, v2, v3, v4, v5, v6; while (v0) { v1; if (v2) goto out; if (v3) goto out; if (v4) goto out; v5; } out: return v6; }";

/// Two jumps, each to a label right behind it.
const TWO_TO_THE_NEXT: &str = "int main(void) { goto first; first: ; goto second; second: ; }";

/// What is asked of a text, and what is told.
pub static CASES: [(Asked, &str, &str); 21] = [
    (
        Asked::Moves,
        INTO_WHILE,
        "v0 arm 0 leap 0 while (v1) {v2 land 0 v3 v4 } return v5 \n\
            2 to 3.b.1 InwardOf 2.b.0: v0 arm 0 while (on 0 | v1) {leap 0 v2 land 0 v3 v4 } return v5 \n\
            2.b.0 to 2.b.2 SiblingBefore: v0 arm 0 while (on 0 | v1) {if (off 0) {v2 } land 0 v3 v4 } return v5 ",
    ),
    (
        Asked::Moves,
        INTO_ELSE,
        "arm 0 leap 0 if (v0) {v1 } else {v2 land 0 v3 } return v4 \n\
            1 to 2.e.1 InwardOf 1.e.0: arm 0 if (off 0 & v0) {v1 } else {leap 0 v2 land 0 v3 } return v4 \n\
            1.e.0 to 1.e.2 SiblingBefore: arm 0 if (off 0 & v0) {v1 } else {if (off 0) {v2 } land 0 v3 } return v4 ",
    ),
    (
        Asked::Moves,
        OUT_OF_LOOPS,
        "v0 while (v1) {v2 while (v3) {if (v4) {v5 arm 0 leap 0 } v6 } v7 } land 0 return v8 \n\
            1.b.1.b.0.t.2 to 2 Outward 1.b.1.b.1: v0 while (v1) {v2 while (v3) {if (v4) {v5 arm 0 } leap 0 v6 } v7 } land 0 return v8 \n\
            1.b.1.b.1 to 2 Outward 1.b.2: v0 while (v1) {v2 while (off 0 & v3) {if (v4) {v5 arm 0 } if (off 0) {v6 } } leap 0 v7 } land 0 return v8 \n\
            1.b.2 to 2 Outward 2: v0 while (off 0 & v1) {v2 while (off 0 & v3) {if (v4) {v5 arm 0 } if (off 0) {v6 } } if (off 0) {v7 } } leap 0 land 0 return v8 \n\
            2 to 3 SiblingBefore: v0 while (off 0 & v1) {v2 while (off 0 & v3) {if (v4) {v5 arm 0 } if (off 0) {v6 } } if (off 0) {v7 } } land 0 return v8 ",
    ),
    (
        Asked::Moves,
        TWO_JUMPS,
        "while (v0) {v1 arm 0 v2 leap 0 arm 0 v3 leap 0 v4 } land 0 return v5 \n\
            0.b.2 to 1 Outward 1: while (off 0 & v0) {v1 arm 0 v2 if (off 0) {arm 0 v3 leap 0 v4 } } leap 0 land 0 return v5 \n\
            1 to 2 SiblingBefore: while (off 0 & v0) {v1 arm 0 v2 if (off 0) {arm 0 v3 leap 0 v4 } } land 0 return v5 \n\
            0.b.2.t.1 to 1 Outward 0.b.3: while (off 0 & v0) {v1 arm 0 v2 if (off 0) {arm 0 v3 if (off 0) {v4 } } leap 0 } land 0 return v5 \n\
            0.b.3 to 1 Outward 1: while (off 0 & off 0 & v0) {v1 arm 0 v2 if (off 0) {arm 0 v3 if (off 0) {v4 } } } leap 0 land 0 return v5 \n\
            1 to 2 SiblingBefore: while (off 0 & off 0 & v0) {v1 arm 0 v2 if (off 0) {arm 0 v3 if (off 0) {v4 } } } land 0 return v5 ",
    ),
    (
        Asked::Moves,
        BETWEEN_SECTIONS,
        "switch (v0) case 1 {arm 0 v1 leap 0 v2 } case 2 {v3 } case 3 {v4 land 0 v5 } break default {v6 } return v7 \n\
            0.s0.1 to 0.s2.1 Outward 1: switch (v0) case 1 {arm 0 v1 if (off 0) {v2 } } case 2 {if (off 0) {v3 } } case 3 {if (off 0) {v4 land 0 v5 } } break default {v6 } leap 0 return v7 \n\
            1 to 0.s2.0.t.1 LiftOf 0.b.0: do {leap 0 switch (v0) case 1 {arm 0 v1 if (off 0) {v2 } } case 2 {if (off 0) {v3 } } case 3 {if (off 0) {v4 land 0 v5 } } break default {v6 } } while (on 0) return v7 \n\
            0.b.0 to 0.b.1.s2.0.t.1 InwardOf 0.b.0.s2.0: do {switch (on 0 ? 3 : v0) case 1 {arm 0 v1 if (off 0) {v2 } } case 2 {if (off 0) {v3 } } case 3 {leap 0 if (off 0) {v4 land 0 v5 } } break default {v6 } } while (on 0) return v7 \n\
            0.b.0.s2.0 to 0.b.0.s2.1.t.1 InwardOf 0.b.0.s2.0.t.0: do {switch (on 0 ? 3 : v0) case 1 {arm 0 v1 if (off 0) {v2 } } case 2 {if (off 0) {v3 } } case 3 {if (on 0 | off 0) {leap 0 v4 land 0 v5 } } break default {v6 } } while (on 0) return v7 \n\
            0.b.0.s2.0.t.0 to 0.b.0.s2.0.t.2 SiblingBefore: do {switch (on 0 ? 3 : v0) case 1 {arm 0 v1 if (off 0) {v2 } } case 2 {if (off 0) {v3 } } case 3 {if (on 0 | off 0) {if (off 0) {v4 } land 0 v5 } } break default {v6 } } while (on 0) return v7 ",
    ),
    (
        Asked::Moves,
        INTO_DEFAULT,
        "arm 0 leap 0 switch (v0) case 0 {v1 } break case 1 {v2 } break default {v3 land 0 v4 } return v5 \n\
            1 to 2.s2.1 InwardOf 1.s2.0: arm 0 switch (on 0 ? 2 : v0) case 0 {v1 } break case 1 {v2 } break default {leap 0 v3 land 0 v4 } return v5 \n\
            1.s2.0 to 1.s2.2 SiblingBefore: arm 0 switch (on 0 ? 2 : v0) case 0 {v1 } break case 1 {v2 } break default {if (off 0) {v3 } land 0 v4 } return v5 ",
    ),
    (
        Asked::Moves,
        BREAK_AND_CONTINUE,
        "v0 while (v1) {land 0 arm 1 v2 leap 1 arm 2 v3 leap 2 v4 arm 0 v5 leap 0 land 1 v6 } land 2 return v7 \n\
            1.b.2 to 1.b.8 SiblingBefore: v0 while (v1) {land 0 arm 1 v2 if (off 1) {arm 2 v3 leap 2 v4 arm 0 v5 leap 0 } land 1 v6 } land 2 return v7 \n\
            1.b.2.t.1 to 2 Outward 1.b.3: v0 while (v1) {land 0 arm 1 v2 if (off 1) {arm 2 v3 if (off 2) {v4 arm 0 v5 leap 0 } } leap 2 land 1 v6 } land 2 return v7 \n\
            1.b.3 to 2 Outward 2: v0 while (off 2 & v1) {land 0 arm 1 v2 if (off 1) {arm 2 v3 if (off 2) {v4 arm 0 v5 leap 0 } } if (off 2) {land 1 v6 } } leap 2 land 2 return v7 \n\
            2 to 3 SiblingBefore: v0 while (off 2 & v1) {land 0 arm 1 v2 if (off 1) {arm 2 v3 if (off 2) {v4 arm 0 v5 leap 0 } } if (off 2) {land 1 v6 } } land 2 return v7 \n\
            1.b.2.t.1.t.2 to 1.b.0 Outward 1.b.2.t.2: v0 while (off 2 & v1) {land 0 arm 1 v2 if (off 1) {arm 2 v3 if (off 2) {v4 arm 0 v5 } leap 0 } if (off 2) {land 1 v6 } } land 2 return v7 \n\
            1.b.2.t.2 to 1.b.0 Outward 1.b.3: v0 while (off 2 & v1) {land 0 arm 1 v2 if (off 1) {arm 2 v3 if (off 2) {v4 arm 0 v5 } } leap 0 if (off 2) {land 1 v6 } } land 2 return v7 \n\
            1.b.3 to 1.b.0 SiblingAfter: v0 while (off 2 & v1) {do {land 0 arm 1 v2 if (off 1) {arm 2 v3 if (off 2) {v4 arm 0 v5 } } } while (on 0) if (off 2) {land 1 v6 } } land 2 return v7 ",
    ),
    (
        Asked::Moves,
        BACK_INTO_LOOP,
        "v0 while (v1) {land 0 v2 v3 } v4 arm 0 v5 leap 0 return v6 \n\
            4 to 1.b.0 LiftOf 1.b.0: v0 do {leap 0 while (v1) {land 0 v2 v3 } v4 arm 0 v5 } while (on 0) return v6 \n\
            1.b.0 to 1.b.1.b.0 InwardOf 1.b.0.b.0: v0 do {while (on 0 | v1) {leap 0 land 0 v2 v3 } v4 arm 0 v5 } while (on 0) return v6 \n\
            1.b.0.b.0 to 1.b.0.b.1 SiblingBefore: v0 do {while (on 0 | v1) {land 0 v2 v3 } v4 arm 0 v5 } while (on 0) return v6 ",
    ),
    (
        Asked::Report,
        INTO_WHILE,
        "in 0 2\njoin 0 2.b.0\n\
            v0 arm 0 while (on 0 | v1) {if (off 0) {v2 } land 0 v3 v4 } return v5 ",
    ),
    (
        Asked::Report,
        INTO_ELSE,
        "in 0 1\njoin 0 1.e.0\n\
            arm 0 if (off 0 & v0) {v1 } else {if (off 0) {v2 } land 0 v3 } return v4 ",
    ),
    (
        Asked::Report,
        OUT_OF_LOOPS,
        "out 0 1.b.1.b.0.t.2\nout 0 1.b.1.b.1\nout 0 1.b.2\njoin 0 2\n\
            v0 while (off 0 & v1) {v2 while (off 0 & v3) {if (v4) {v5 arm 0 } if (off 0) {v6 } } if (off 0) {v7 } } land 0 return v8 ",
    ),
    (
        Asked::Report,
        TWO_JUMPS,
        "out 0 0.b.2\njoin 0 1\nout 0 0.b.2.t.1\nout 0 0.b.3\njoin 0 1\nz2 0 0\n\
            while (off 0 & v0) {v1 arm 0 v2 if (off 0) {arm 0 v3 if (off 0) {v4 } } } land 0 return v5 ",
    ),
    (
        Asked::Report,
        BETWEEN_SECTIONS,
        "out 0 0.s0.1\nlift 0 1\nin 0 0.b.0\nin 0 0.b.0.s2.0\njoin 0 0.b.0.s2.0.t.0\n\
            do {switch (on 0 ? 3 : v0) case 1 {arm 0 v1 if (off 0) {v2 } } case 2 {if (off 0) {v3 } } case 3 {if (on 0 | off 0) {if (off 0) {v4 } land 0 v5 } } break default {v6 } } while (on 0) return v7 ",
    ),
    (
        Asked::Report,
        INTO_DEFAULT,
        "in 0 1\njoin 0 1.s2.0\n\
            arm 0 switch (on 0 ? 2 : v0) case 0 {v1 } break case 1 {v2 } break default {if (off 0) {v3 } land 0 v4 } return v5 ",
    ),
    (
        Asked::Report,
        BREAK_AND_CONTINUE,
        "join 1 1.b.2\nout 2 1.b.2.t.1\nout 2 1.b.3\njoin 2 2\nout 0 1.b.2.t.1.t.2\nout 0 1.b.2.t.2\njoin 0 1.b.3\n\
            v0 while (off 2 & v1) {do {land 0 arm 1 v2 if (off 1) {arm 2 v3 if (off 2) {v4 arm 0 v5 } } } while (on 0) if (off 2) {land 1 v6 } } land 2 return v7 ",
    ),
    (
        Asked::Report,
        BACK_INTO_LOOP,
        "lift 0 4\nin 0 1.b.0\njoin 0 1.b.0.b.0\n\
            v0 do {while (on 0 | v1) {land 0 v2 v3 } v4 arm 0 v5 } while (on 0) return v6 ",
    ),
    (Asked::Report, TO_THE_NEXT, "join 0 1\nz5 0 0\n"),
    (
        Asked::Report,
        TWO_LABELS,
        "out 0 0.b.1.t.1\nout 0 0.b.2\njoin 0 1\nout 1 0.b.1.t.1.t.1\nout 1 0.b.1.t.2\nout 1 0.b.2\njoin 1 1\nz4 - 0.b.2\n\
            while (off 1 & off 0 & v0) {v1 if (v2) {arm 0 v3 if (off 0) {arm 1 } } if (off 1 & off 0) {v4 } } if (off 1) {land 0 v5 } land 1 return v6 ",
    ),
    (
        Asked::Report,
        THREE_JUMPS,
        "out 0 0.b.2\njoin 0 1\nout 0 0.b.2.t.1\nout 0 0.b.3\njoin 0 1\n\
            out 0 0.b.2.t.1.t.1\nout 0 0.b.2.t.2\nout 0 0.b.3\njoin 0 1\nz2 0 0\nz2 0 0\n\
            while (off 0 & v0) {v1 arm 0 v2 if (off 0) {arm 0 v3 if (off 0) {arm 0 v4 if (off 0) {v5 } } } } land 0 return v6 ",
    ),
    (
        Asked::Unread,
        TWO_TO_THE_NEXT,
        "join 0 1\njoin 1 3\nmade: arm 0 land 0 \nrefused: arm 0 land 0 \nrefused: arm 0 land 0 \n\
            refused: arm 0 land 0 \nrefused: arm 0 land 0 \nmade: \n",
    ),
    (
        Asked::Neighbours,
        TWO_TO_THE_NEXT,
        "refused: if (off 1) {? } if (off 1) {arm 1 } if (off 1) {? } \n\
            made: if (off 1) {? arm 1 } if (off 1) {? } \n",
    ),
];
