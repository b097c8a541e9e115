//! Numbers, ports, the demo text, the words of commands, and texts that are written in pieces, on worked examples.
//! This crate holds tests alone, so that what they call is not proved twice for them.
#![tactic(auto)]

#[cfg(test)]
mod demo;
#[cfg(test)]
mod lists;
#[cfg(test)]
mod numbers;
#[cfg(test)]
mod pieces;
#[cfg(test)]
mod ports;
#[cfg(test)]
mod words;
