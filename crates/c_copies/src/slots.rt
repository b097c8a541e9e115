ghost use Rattle.std.specs.Prelude.{◌≡◌, IfOk};

use c_tree::Slot;
use c_types::{List, Memory};
use std::alloc::Global;

/// An equal variable. Want of memory is the only failure.
pub fn copy_slot(alloc: Global, slot: &Slot) -> Result<Slot, Memory>
    ensures { IfOk result (λ it. it ≡ slot.now) }
{
    let name = slot.name.copy(alloc)?;
    Ok(Slot {
        name,
        kind: slot.kind,
        cells: slot.cells,
        constant: slot.constant,
    })
}

/// An equal list of variables. Want of memory is the only failure.
pub fn copy_slots(alloc: Global, slots: &[Slot]) -> Result<List<Slot>, Memory>
    ensures { IfOk result (λ it. it ≡ slots.now) }
{
    let mut out = List::new(alloc);
    for slot in slots {
        out.push(copy_slot(alloc, slot)?)?;
    }
    Ok(out)
}
