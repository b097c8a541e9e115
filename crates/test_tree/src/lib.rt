//! Trees, and what the calls on them give: exchanges at a path, copies, names, guards, relations of a jump to
//! its label. This crate holds tests alone, so that these calls are not proved twice for them.
#![tactic(auto)]

#[cfg(test)]
mod copies;
#[cfg(test)]
mod guards;
#[cfg(test)]
mod offsets;
#[cfg(test)]
mod paths;
