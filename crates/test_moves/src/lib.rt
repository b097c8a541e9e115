//! Texts, and what becomes of their functions: flat forms, the four movements, each from the body that the conversion
//! gives to the last join, the simplifications after it, and items that name slots. This crate holds tests alone, so
//! that what they call is not proved twice for them.
#![tactic(auto)]

#[cfg(test)]
mod bodies;
#[cfg(test)]
mod cases;
#[cfg(test)]
mod flat_forms;
#[cfg(test)]
mod moves;
#[cfg(test)]
mod printed;
#[cfg(test)]
mod reports;
#[cfg(test)]
mod single_steps;
#[cfg(test)]
mod slots;
