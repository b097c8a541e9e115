//! Texts of which the report is replayed.

use test_texts::{
    JUMP_TO_NEXT, LOOP_BY_HAND, ONE_LABEL_TWO_JUMPS, SCATTERED_SWITCH, SECTION_TO_SECTION, Worked,
};

pub static REPLAYED: [Worked; 5] = [
    LOOP_BY_HAND,
    JUMP_TO_NEXT,
    ONE_LABEL_TWO_JUMPS,
    SECTION_TO_SECTION,
    SCATTERED_SWITCH,
];

/// Jumps in several functions.
pub const SEVERAL_FUNCTIONS: &str =
    "int f(void) { L: goto L; } int g(int n) { again: if (n < 3) { n++; goto again; } return n; } int main(void) { return f() + g(1); }
";
