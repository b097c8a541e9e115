ghost use Rattle.std.specs.Prelude.{◌≡◌, ◌+◌, Ok, FitsSigned, IfSome};
ghost use Rattle.std.specs.Int.{w128};
ghost use Rattle.jump_meaning.specs.Operations.{operand_kind as the_kind};
ghost use Rattle.step_ahead.specs.Taken.{IsAfter};

use c_types::{IntKind, Trap};

/// The number of an expression, and how many steps of the run it takes.
#[derive(Clone, Copy)]
pub struct Computed {
    pub number: i128,
    pub steps: u32,
}

/// The sum of numbers of steps, if a `u32` holds it.
pub fn sum(a: u32, b: u32, more: u32) -> Option<u32>
    ensures { IfSome result (λ n. n ≡ a + b + more) }
{
    let steps = a as u64 + b as u64 + more as u64;
    if steps > 4294967295 {
        return None;
    }
    Some(steps as u32)
}

/// A number after so many steps, if there is no trap.
pub fn after(number: Result<i128, Trap>, a: u32, b: u32, more: u32) -> Option<Computed>
    ensures ok { IfSome result (λ r. IsAfter number (a + b + more) r) }
    ensures fits { IfSome result (λ r. FitsSigned w128 r.number) }
{
    match number {
        Ok(number) => match sum(a, b, more) {
            Some(steps) => Some(Computed { number, steps }),
            None => None,
        },
        Err(_) => None,
    }
}

/// A number that stands somewhere, after so many steps.
pub fn constant(number: &i128, steps: u32) -> Option<Computed>
    ensures ok { IfSome result (λ r. IsAfter (Ok number.now) steps r) }
    ensures fits { IfSome result (λ r. FitsSigned w128 r.number) }
{
    Some(Computed {
        number: *number,
        steps,
    })
}

/// The kind of an operand; each operand of a resolved program has one.
pub fn operand_kind(kind: Option<IntKind>) -> IntKind
    ensures { result ≡ the_kind kind }
{
    match kind {
        Some(kind) => kind,
        None => IntKind::Int,
    }
}
