/// Where a token stands that is taken.
#[derive(Clone, Copy)]
pub enum Role {
    /// It counts in a full expression.
    Counted,
    /// It stands in an expression or in a type, or is a label's name, and doesn't count.
    Uncounted,
    /// No full expression goes over it.
    Outside,
}

/// What the limits have to know of a token that is taken.
#[derive(Clone, Copy)]
pub struct Load {
    pub role: Role,
    /// The level of nesting that it opens.
    pub opens: Option<u32>,
}

pub const COUNTED: Load = Load {
    role: Role::Counted,
    opens: None,
};

pub const UNCOUNTED: Load = Load {
    role: Role::Uncounted,
    opens: None,
};

pub const OUTSIDE: Load = Load {
    role: Role::Outside,
    opens: None,
};
