//! Programs that are run, and how their runs stand; the expected results are those of a model that was
//! written apart from this one. A worked function and what it is restructured to are run in proofs, by the two meanings
//! with answers of the functions that it calls. This crate holds tests and proofs alone.
#![tactic(auto)]

#[cfg(test)]
mod faults;
#[cfg(test)]
mod known;
#[cfg(test)]
mod running;
#[cfg(test)]
mod worked;
