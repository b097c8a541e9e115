/// A place of comments in a file.
#[derive(Clone, Copy, Debug, PartialEq, Eq)]
pub enum Anchor {
    /// Directly before the element that begins with the token.
    Before(u32),
    /// At the end of the list that begins with the token.
    AtEnd(u32),
    /// First in the section of a switch that begins with the token.
    AtSection(u32),
    /// At the end of the file.
    Last,
}
