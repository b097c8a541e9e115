ghost use Rattle.std.specs.Prelude.{◌≡◌, true, false, OnOk, OnErr};
ghost use Rattle.jump_meaning.specs.Step.{with_guard};
ghost use Rattle.step_tasks.specs.Controls.{guards_of};

use c_types::{List, Memory};

/// Whether the guard of a label is set.
pub fn is_set(guards: &List<u32>, label: u32) -> bool
    ensures { result ≡ guards_of guards.now label }
{
    for set in guards.as_slice() {
        if *set == label {
            return true;
        }
    }
    false
}

/// The guard of a label is set. Nothing changes where memory is refused.
pub fn set_guard(guards: &mut List<u32>, label: u32) -> Result<(), Memory>
    ensures ok { OnOk result (guards_of guards.new ≡ with_guard label true (guards_of guards.old)) }
    ensures err { OnErr result (guards.new ≡ guards.old) }
{
    if is_set(guards, label) {
        return Ok(());
    }
    guards.push(label)
}

/// The guard of a label is reset.
pub fn reset_guard(guards: &mut List<u32>, label: u32)
    ensures { guards_of guards.new ≡ with_guard label false (guards_of guards.old) }
{
    let mut at = 0;
    while at < guards.len() {
        if guards.as_slice()[at] == label {
            guards.remove(at);
        } else {
            at += 1;
        }
    }
}
