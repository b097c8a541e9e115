//! The bodies of functions: one walk that gives the items, the scopes and slots behind them, and the
//! violations.
#![tactic(auto)]

mod elements;
mod items;
mod labels;
mod notes;
mod outermost;
mod reading;
mod sections;
mod simple;
mod state;
mod values;
mod walk;

pub use outermost::function_body;
pub use state::{FunctionContext, State};
