//! Files: names of file scope, and the resolved program of a text, or its first fault.
#![tactic(auto)]

mod blocks;
mod constants;
mod counted;
mod enums;
mod file_names;
mod files;
mod flat_counter;
mod function_names;
mod functions;
mod globals;
mod outermost;
mod parameters;
mod reading;
mod resolving;
mod signatures;
mod tangle;
mod violations;

pub use blocks::{Block, block_of};
pub use c_statements::Measures;
pub use constants::constant_initial;
pub use counted::{Counts, counts_of};
pub use enums::read_enum;
pub use files::{FileContext, read_tops};
pub use flat_counter::FlatCounter;
pub use function_names::{FunctionNames, add_body, bodies_of, declare_function, has_body};
pub use functions::{Outside, read_function};
pub use globals::read_globals;
pub use parameters::read_parameters;
pub use reading::read;
pub use resolving::{resolve, resolve_with};
pub use signatures::{same_signature, signature};
pub use tangle::{is_tangled, measures_of};
pub use violations::{least, refused};
