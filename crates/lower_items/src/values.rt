ghost use Rattle.std.specs.Prelude.{◌≡◌};
ghost use Rattle.c_tree.specs.Cases.{selector_source};
ghost use Rattle.c_tree.specs.ExpressionTrees.{expression_tree};
ghost use Rattle.c_tree.specs.TestTrees.{selector_tree};

use c_tree::{Expression, Selector};

/// The source expression of a selector.
pub fn into_source(selector: Selector) -> Expression
    ensures { expression_tree result ≡ selector_source (selector_tree selector) }
{
    match selector {
        Selector::Source(e) => e,
        Selector::Pick(_, _, rest) => into_source(rest.into_inner()),
    }
}
