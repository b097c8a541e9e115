//! Names as keys of maps and sets, most of which one comparison of numbers tells apart.
#![tactic(auto)]

mod front;
mod held;
mod key;
mod text_key;

pub use held::HeldName;
pub use key::{Key, key_of};
pub use text_key::{TextKey, key_of_text};
