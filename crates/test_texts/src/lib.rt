//! Texts, and what the commands make of them: worked out by hand from the rules, and by an independent model of
//! the method. This crate holds constants alone, which several crates of tests share.
#![tactic(auto)]

mod jumps;
mod layouts;
mod worked;

pub use jumps::{
    BACK_INTO_LOOP, BACK_WITH_TEST, CAPTURED_EXITS, ENDLESS_LOOP, INTO_DEFAULT, INTO_ELSE,
    INTO_LOOP, JUMP_TO_NEXT, LABELS_IN_IF, LOOP_BY_HAND, ONE_LABEL_TWO_JUMPS, OUT_OF_THREE,
    OVER_STATEMENT, PAST_INITIALISER, SCATTERED_SWITCH, SECTION_TO_SECTION, TWO_RESOURCES,
};
pub use layouts::{
    COMMENTS, COMMENTS_BETWEEN_CASES, DECLARATION_BEHIND_CASE, EMPTY_FILE, HIDING_NAMES,
    NUMBERS_AND_BRACKETS,
};
pub use worked::{WORKED, Worked};
