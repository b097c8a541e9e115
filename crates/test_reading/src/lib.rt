//! Texts and what their reading gives: tokens, comments, syntax, programs, refusals and their places, also at the
//! edges of the subset. The expected results there are those of a reader that was written apart from this one.
//!
//! This crate holds tests alone, so that the readers are not proved twice for them.
#![tactic(auto)]

#[cfg(test)]
mod edges_of_refusals;
#[cfg(test)]
mod lexer;
#[cfg(test)]
mod parser;
#[cfg(test)]
mod programs;
#[cfg(test)]
mod reading;
#[cfg(test)]
mod refusal_texts;
#[cfg(test)]
mod refusals;
#[cfg(test)]
mod resolving;
