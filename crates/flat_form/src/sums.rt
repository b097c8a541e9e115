//! Sums that are refused where `u64` doesn't hold them.

ghost use Rattle.std.specs.Prelude.{◌≡◌, ◌≤◌, ◌+◌, cond, OnOk};

use c_types::Memory;

pub fn one_if(test: bool) -> u64
    ensures value { result ≡ cond test 1 0 }
    ensures few { result ≤ 1 }
{
    if test { 1 } else { 0 }
}

pub fn add(count: &mut u64, by: u64) -> Result<(), Memory>
    ensures { OnOk result (count.new ≡ count.old + by) }
{
    match count.checked_add(by) {
        Some(sum) => {
            *count = sum;
            Ok(())
        }
        None => Err(Memory),
    }
}
