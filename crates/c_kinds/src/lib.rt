//! Names and kinds: what each expression of a file is, and its violations.
#![tactic(auto)]

mod binding;
mod calls;
mod constants;
mod faults;
mod format;
mod formats;
mod marks;
mod names;
mod scopes;
mod typed;
mod typing;
mod values;

pub use binding::{Binding, Shape, Signature, Want};
pub use faults::{report, report_if, same_kind, same_truth};
pub use names::{Known, name_of};
pub use scopes::Scopes;
pub use typed::{ArrayName, Fault, Given, Target, Typed, Valued, Variable};
pub use typing::{constant_expression, dropped_value, typed_of, used_value};
pub use values::{expression, expression_of, value_of};
