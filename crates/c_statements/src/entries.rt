/// A label of a switch, by its token: a case and its value, or a default.
#[derive(Clone, Copy, Debug, PartialEq, Eq)]
pub enum Entry {
    Value(u32, i128),
    Other(u32),
}
