//! The parser: the tokens of a text, one by one, on the stack of what is awaited (ISO/IEC 9899:2011, 6.5 to 6.9).
#![tactic(auto)]

mod whole;

pub use c_grammar::{Production, SyntaxNode};
pub use whole::parse;
