//! What commands do that read a file and write what they make of it.
#![tactic(auto)]

mod pieces;
mod shown;
mod taken;
mod translator;
mod written;

pub use pieces::{MOST_IN_PIECE, write_in_pieces};
pub use shown::show;
pub use taken::take_text;
pub use translator::{MOST_BYTES, Part, Translation, Translator};
pub use written::{Targets, write, write_translation};
