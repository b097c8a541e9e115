//! The words of the commands, how they end, and what they tell about it.
#![tactic(auto)]

mod demo_lines;
mod help;
mod lines;
mod numbers;
mod run_lines;
mod status;
mod words;

pub use demo_lines::{Demonstration, write_demo};
pub use help::write_help;
pub use lines::{Summary, tell, tell_absent, tell_refusal, tell_summary};
pub use numbers::number;
pub use run_lines::{tell_ended, tell_spent, tell_trap};
pub use status::Status;
pub use words::{Job, STEPS, command};
