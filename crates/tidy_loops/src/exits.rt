ghost use Rattle.std.specs.Prelude.{◌≡◌};
ghost use Rattle.c_tree.specs.Views.{tree_at};
ghost use Rattle.tidy_loops.specs.Exits.{jump_of};

use c_tree::Item;

/// The jump that leaves a turn of a loop.
#[derive(Clone, Copy, Debug, PartialEq, Eq)]
pub enum Exit {
    /// `break`, which leaves the loop.
    Break,
    /// `continue`, which goes on to the next turn.
    Continue,
}

pub fn jump(exit: Exit) -> Item
    ensures { tree_at result ≡ jump_of exit }
{
    match exit {
        Exit::Break => Item::Break,
        Exit::Continue => Item::Continue,
    }
}
