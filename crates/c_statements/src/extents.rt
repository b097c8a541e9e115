use c_types::IntKind;

/// What all names of a declaration have.
#[derive(Clone, Copy, Debug, PartialEq, Eq)]
pub struct Kinded {
    pub kind: IntKind,
    pub constant: bool,
}

/// What the brackets behind a declared name give.
#[derive(Clone, Copy, Debug, PartialEq, Eq)]
pub enum Length {
    /// There are none.
    NoLength,
    /// There is nothing in them: the length is that of the list of values.
    OfList,
    /// The value of a constant expression, which has a violation where it is `None`.
    Constant(Option<i128>),
}

/// How many cells a variable has.
#[derive(Clone, Copy, Debug, PartialEq, Eq)]
pub enum Extent {
    /// It is a number.
    One,
    Many(u64),
    /// It is an array of which the length has a violation.
    Unclear,
}
