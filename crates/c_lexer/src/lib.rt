//! The tokens and the comments of a text (ISO/IEC 9899:2011, 6.4), or its first lexical fault.
//!
//! A text is a list of pieces: white space, comments and tokens, each the longest at its byte. One
//! pass, a byte at a time, with a state and no copy of the text.
#![tactic(auto)]

mod byte;
mod directive;
mod line;
mod mark;
mod number;
mod place;
mod read;
mod state;
mod step;
mod token;
mod word;

pub use byte::{digit_value, is_hexadecimal_digit, is_octal_digit};
pub use c_types::ReadStop;
pub use mark::{Mark, mark_of};
pub use number::{Integer, integer_constant};
pub use place::refusal_at;
pub use read::{comments, scan, tokens};
pub use token::{Scanned, Span, Token, TokenKind};
pub use word::is_name;
