//! How a body's flat form is counted.

ghost use Rattle.std.specs.Prelude.{◌≡◌, ◌≤◌, None, IfOk, IfNone, IfSome, IsSomeAnd};
ghost use Rattle.c_statements.specs.Functions.{FlatCounts};

use c_tree::Item;
use c_types::{List, Memory};

/// What counts the gotos and the labels of the flat form of a body.
pub trait FlatCounter {
    /// Their numbers, and none where the body has no jumps.
    ghost flat: { Self → FlatCounts };

    /// The most gotos and labels, in this order, that the flat form of a body can have, and none where
    /// it has none. So it need not be made to see that it has few.
    fn most(&self, body: &List<Item>) -> Result<Option<(u64, u64)>, Memory>
        ensures none { IfOk result (λ most. IfNone most (flat self.now body.now ≡ None)) }
        ensures some { IfOk result (λ most. IfSome most (λ m. IsSomeAnd (flat self.now body.now) (λ n. n.0 ≤ m.0 × n.1 ≤ m.1))) };

    /// Counts the gotos and the labels, in this order, of the flat form of a body, which has one if
    /// it has jumps.
    fn count(&self, body: &List<Item>) -> Result<Option<(u64, u64)>, Memory>
        ensures { IfOk result (λ counts. counts ≡ flat self.now body.now) };
}
