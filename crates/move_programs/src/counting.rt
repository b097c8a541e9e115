//! How many moves are joins.

ghost use Rattle.std.specs.Prelude.{◌≡◌};
ghost use Rattle.move_order_laws.specs.MoveOrderCounts.{is_join as the_is_join};
ghost use Rattle.move_order_laws.specs.MoveFunctionCounts.{joined};

use c_types::List;
use report_moves::{Move, MoveKind};

fn is_join(kind: MoveKind) -> bool
    ensures { result ≡ the_is_join kind }
{
    matches!(kind, MoveKind::Join)
}

/// How many of the moves are joins. In a derivation there is one for each jump of the flat forms.
pub fn join_count(moves: &List<Move>) -> u64
    ensures { result ≡ joined moves.now }
{
    moves.as_slice().iter().filter(|m| is_join(m.kind)).count() as u64
}
