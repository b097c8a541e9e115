ghost use Rattle.std.specs.Prelude.{◌≡◌, ◌+◌, ◌-◌, ◌<◌, ℕ, cond, length, remove, IfOk};
ghost use Rattle.tidy_laws.specs.Gone.{gone_before, left};
ghost use Rattle.tidy_slots.specs.Numbers.{number};

use c_tree::Slot;
use c_types::{List, Memory};
use std::alloc::Global;

/// The new numbers of slots, some of which are gone.
#[derive(Drop)]
pub struct Numbers {
    /// How many are gone before each.
    pub before: List<u32>,
    /// How many are gone in all.
    pub total: u32,
}

/// The number of a slot that is left.
pub fn new_number(numbers: &Numbers, at: u32) -> u32
    ensures { result ≡ number numbers.now at }
{
    match numbers.before.get(at as usize) {
        Some(n) => at.saturating_sub(*n),
        None => at.saturating_sub(numbers.total),
    }
}

fn counted(gone: bool, sofar: u32) -> Result<u32, Memory>
    ensures { IfOk result (λ n. n ≡ sofar + cond gone 1 0) }
{
    if !gone {
        return Ok(sofar);
    }
    match sofar.checked_add(1) {
        Some(n) => Ok(n),
        None => Err(Memory),
    }
}

/// The new numbers once the slots that are marked are gone. `Memory` where no `u32` counts them.
pub fn new_numbers(alloc: Global, gone: &List<bool>) -> Result<Numbers, Memory>
    ensures { IfOk result (λ it. (x : ℕ) → number it x ≡ x - gone_before gone.now x) }
{
    let mut before = List::new(alloc);
    let mut total = 0;
    let marks = gone.as_slice();
    for i in 0..marks.len() {
        before.push(total)?;
        total = counted(marks[i], total)?;
    }
    Ok(Numbers { before, total })
}

fn remove_if(gone: bool, slots: &mut List<Slot>, at: usize)
    requires { at < length slots.old }
    ensures { slots.new ≡ cond gone (remove slots.old at) slots.old }
{
    if gone {
        slots.remove(at);
    }
}

/// Takes out the slots that are marked.
pub fn remove_gone(gone: &List<bool>, slots: &mut List<Slot>)
    requires { length gone.now ≡ length slots.old }
    ensures { slots.new ≡ left gone.now slots.old }
{
    let marks = gone.as_slice();
    let mut i = marks.len();
    while i > 0 {
        i -= 1;
        remove_if(marks[i], slots, i);
    }
}
