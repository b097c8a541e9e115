ghost use Rattle.std.specs.Prelude.{◌≡◌, ◌+◌, ◌≤◌, length};
ghost use Rattle.plain_laws.specs.Plain.{slot_among};

use c_types::List;

/// The slots of the variables for guards: those of these labels follow one another from `base` on.
#[derive(Drop)]
pub struct Slots {
    pub base: u32,
    pub left: List<u32>,
    ghost fits: { base + length left ≤ 4294967295 },
}

impl Slots {
    /// The slot of a label's guard.
    pub fn slot(&self, label: u32) -> u32
        ensures { result ≡ slot_among self.now.base self.now.left label }
    {
        let left = self.left.as_slice();
        for i in 0..left.len() {
            if left[i] == label {
                return self.base + i as u32;
            }
        }
        self.base + left.len() as u32
    }
}

/// What becomes of the guards in a body.
#[derive(Drop)]
pub enum Guards {
    /// They stay, as in a function that isn't flat.
    Kept,
    /// They are variables in these slots.
    Variables(Slots),
}
