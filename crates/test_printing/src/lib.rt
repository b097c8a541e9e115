//! Programs, the texts that they print as, and those of their plain forms. This crate holds tests alone, so that
//! the printer and the plain form are not proved twice for them.
#![tactic(auto)]

#[cfg(test)]
mod pieces;
#[cfg(test)]
mod plain_forms;
#[cfg(test)]
mod printing;
