//! What a text and what becomes of it are.

use crate::jumps::{
    BACK_INTO_LOOP, BACK_WITH_TEST, CAPTURED_EXITS, ENDLESS_LOOP, INTO_DEFAULT, INTO_ELSE,
    INTO_LOOP, JUMP_TO_NEXT, LABELS_IN_IF, LOOP_BY_HAND, ONE_LABEL_TWO_JUMPS, OUT_OF_THREE,
    OVER_STATEMENT, PAST_INITIALISER, SCATTERED_SWITCH, SECTION_TO_SECTION, TWO_RESOURCES,
};
use crate::layouts::{
    COMMENTS, COMMENTS_BETWEEN_CASES, DECLARATION_BEHIND_CASE, EMPTY_FILE, HIDING_NAMES,
    NUMBERS_AND_BRACKETS,
};

/// A text, and what the commands make of it.
#[derive(Clone, Copy)]
pub struct Worked {
    pub source: &'static str,
    /// The line on the standard error when it is restructured.
    pub line: &'static str,
    /// The moves that restructure it.
    pub report: &'static str,
    /// The text that it is restructured to.
    pub text: &'static str,
    /// The line and the text of `tidy` on the text that it is restructured to, where it changes that.
    pub tidied: Option<(&'static str, &'static str)>,
}

/// All of them.
pub static WORKED: [Worked; 23] = [
    LOOP_BY_HAND,
    EMPTY_FILE,
    HIDING_NAMES,
    JUMP_TO_NEXT,
    ENDLESS_LOOP,
    INTO_LOOP,
    INTO_ELSE,
    OUT_OF_THREE,
    ONE_LABEL_TWO_JUMPS,
    SECTION_TO_SECTION,
    INTO_DEFAULT,
    CAPTURED_EXITS,
    BACK_INTO_LOOP,
    PAST_INITIALISER,
    NUMBERS_AND_BRACKETS,
    TWO_RESOURCES,
    OVER_STATEMENT,
    BACK_WITH_TEST,
    DECLARATION_BEHIND_CASE,
    LABELS_IN_IF,
    SCATTERED_SWITCH,
    COMMENTS,
    COMMENTS_BETWEEN_CASES,
];
