use crate::frame::Found;
use crate::load::Load;

/// What a frame does with a value in front of a token.
#[derive(Drop)]
pub enum Given {
    /// The token was taken.
    Taken(Load),
    /// The token fits nowhere.
    Refused,
    /// The token waits behind this value for the frame below.
    Passed(Found),
}
