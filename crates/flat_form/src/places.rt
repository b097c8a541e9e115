ghost use Rattle.std.specs.Prelude.{◌≡◌, ◌<◌, ◌≤◌, ℕ, None, get_or, length, IfOk, OnOk};
ghost use Rattle.flat_laws.specs.FlatForm.{place_in};
ghost use Rattle.flat_items.specs.Plans.{number_at};
ghost use Rattle.flat_form.specs.Places.{with_place};

use c_types::{List, Memory};
use flat_items::Places;
use std::alloc::Global;

fn grow(table: &mut List<Option<u32>>, code: u32) -> Result<(), Memory>
    ensures same { OnOk result ((c : ℕ) → get_or table.new c None ≡ get_or table.old c None) }
    ensures room { OnOk result (code < length table.new) }
{
    let from = table.len();
    for _i in from..code as usize + 1 {
        table.push(None)?;
    }
    Ok(())
}

/// Enters a place for a code that has none yet.
fn enter(table: &mut List<Option<u32>>, code: u32, place: u32) -> Result<(), Memory>
    ensures { OnOk result ((c : ℕ) → get_or table.new c None ≡ with_place (get_or table.old c None) code place c) }
{
    grow(table, code)?;
    match table.as_slice()[code as usize] {
        Some(_) => Ok(()),
        None => {
            table.set(code as usize, Some(place));
            Ok(())
        }
    }
}

/// Where the labels with these codes stand: each has the number of its first place in the list, and
/// all others come behind. Want of memory is the only failure.
pub fn places_of(alloc: Global, codes: &[u32]) -> Result<Places, Memory>
    requires { length codes.now ≤ 4294967295 }
    ensures { IfOk result (λ it. (c : ℕ) → number_at it c ≡ place_in codes.now c) }
{
    let mut table = List::new(alloc);
    for i in 0..codes.len() {
        enter(&mut table, codes[i], i as u32)?;
    }
    Ok(Places {
        table,
        behind: codes.len() as u32,
    })
}
