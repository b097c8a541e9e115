ghost use Rattle.std.specs.Prelude.{◌≡◌};
ghost use Rattle.c_tree.specs.Cases.{selector_source as the_selector_source};
ghost use Rattle.c_tree.specs.ExpressionTrees.{expression_tree};
ghost use Rattle.c_tree.specs.TestTrees.{selector_tree};
ghost use Rattle.jump_meaning.specs.Operations.{operand_kind};
ghost use Rattle.jump_meaning.specs.Step.{switch_kind as the_switch_kind};

use c_tree::{Expression, Selector};
use c_types::{IntKind, promote};

fn kind_or_int(kind: Option<IntKind>) -> IntKind
    ensures { result ≡ operand_kind kind }
{
    match kind {
        Some(kind) => kind,
        None => IntKind::Int,
    }
}

/// The source expression of a selector.
pub fn selector_source(selector: &Selector) -> &Expression
    ensures { expression_tree result.now ≡ the_selector_source (selector_tree selector.now) }
{
    match selector {
        Selector::Source(e) => e,
        Selector::Pick(_, _, rest) => selector_source(rest.get()),
    }
}

/// The kind in which a switch compares (6.8.4.2).
pub fn switch_kind(selector: &Selector) -> IntKind
    ensures { result ≡ the_switch_kind (selector_tree selector.now) }
{
    promote(kind_or_int(selector_source(selector).kind))
}
