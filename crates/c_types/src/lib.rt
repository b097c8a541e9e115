//! What the other crates stand on: lists, boxes, names and bytes that contracts see as what they hold, refusals with their
//! reasons, and the kinds of integers.
#![tactic(auto)]

mod boxed;
mod kinds;
mod list;
mod name;
mod numbers;
pub mod reasons;
mod refusal;
mod stack;
mod trap;
mod words;

pub use boxed::Boxed;
pub use kinds::{ArithOp, Base, IntKind, Suffix, constant_kind, promote, usual};
pub use list::{List, MOST, concatenated};
pub use name::Name;
pub use numbers::{arith, convert};
pub use refusal::{Memory, ReadStop, Refusal};
pub use stack::Stack;
pub use trap::Trap;
pub use words::{is_digit, is_keyword, is_known, is_letter, is_word, is_word_byte};

/// Bytes that contracts see as the list of their values.
pub type Bytes = List<u8>;
