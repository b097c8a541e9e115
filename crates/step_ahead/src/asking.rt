ghost use Rattle.std.specs.Prelude.{◌≡◌, IfSome};
ghost use Rattle.c_tree.specs.ExpressionTrees.{expression_tree};
ghost use Rattle.step_ahead.specs.Ahead.{IsAsked};

use crate::computing::{DEPTH, computed};
use c_tree::Expression;
use step_memory::Store;

/// Whether the number of an expression isn't 0, and how many steps that takes.
#[derive(Clone, Copy)]
pub struct Asked {
    pub holds: bool,
    pub steps: u64,
}

/// Whether the number of an expression isn't 0, where that and some steps more are at most so many.
pub fn ask(store: &Store<'_>, e: &Expression, more: u32, most: u64) -> Option<Asked>
    ensures { IfSome result (λ r. IsAsked store.now (expression_tree e.now) more most r) }
{
    let Some(x) = computed(store, e, DEPTH) else {
        return None;
    };
    let steps = x.steps as u64 + more as u64;
    if steps > most {
        return None;
    }
    Some(Asked {
        holds: x.number != 0,
        steps,
    })
}
