//! What a parser awaits, as a stack of frames, and the step that one token makes (ISO/IEC 9899:2011, 6.5 to 6.9).
#![tactic(auto)]

mod build;
mod entry;
mod expressions;
mod files;
mod form;
mod frame;
mod frames;
mod given;
mod kind;
mod load;
mod reduce;
mod resume;
mod statements;
mod token_step;
mod types;
mod want;

pub use entry::Entry;
pub use form::{Form, Lead, Member, Want};
pub use frame::{Found, Frame, Full};
pub use frames::FrameStack;
pub use load::{Load, Role};
pub use token_step::step;
