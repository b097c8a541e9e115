ghost use Rattle.std.specs.Prelude.{◌≡◌, List, ℕ, Some, cond, IfOk, OnOk};
ghost use Rattle.std.specs.BTreeMap.{get_by_text};
ghost use Rattle.std.specs.Str.{bytes_eq};
ghost use Rattle.c_tree.specs.declared.tree.Top.{Top as TheTop};
ghost use Rattle.move_replay.specs.Places.{found_at, place_in, Finds};

use c_tree::Top;
use c_types::{Memory, Name};
use std::alloc::Global;
use std::collections::BTreeMap;

/// The place of the first flat function of each name.
#[derive(Drop)]
pub struct Places {
    pub table: BTreeMap<String, u32>,
}

fn enter(
    alloc: Global,
    table: &mut BTreeMap<String, u32>,
    name: &Name,
    at: u32,
) -> Result<(), Memory>
    ensures { OnOk result ((m : List ℕ) → get_by_text table.new m ≡ (cond (bytes_eq name.now m) (Some at) (get_by_text table.old m))) }
{
    let key = String::from_str(alloc, name.as_str())?;
    table.insert(key, at)?;
    Ok(())
}

/// Enters a flat function, in place of one of its name.
fn add(alloc: Global, table: &mut BTreeMap<String, u32>, top: &Top, at: u32) -> Result<(), Memory>
    ensures { OnOk result ((m : List ℕ) → get_by_text table.new m ≡ found_at m at top.now (get_by_text table.old m)) }
{
    match top {
        Top::Function(function) => {
            if function.flat {
                enter(alloc, table, &function.name, at)
            } else {
                Ok(())
            }
        }
        _ => Ok(()),
    }
}

impl Places {
    /// The places of these. Want of memory is the only failure.
    pub fn new(alloc: Global, tops: &[Top]) -> Result<Places, Memory>
        ensures { IfOk result (λ it. Finds it tops.now) }
    {
        let mut table = BTreeMap::new(alloc);
        let mut at = tops.len();
        if at > 4294967295 {
            return Err(Memory);
        }
        while at > 0 {
            at -= 1;
            add(alloc, &mut table, &tops[at], at as u32)?;
        }
        Ok(Places { table })
    }

    /// The place of the first flat function of the name, where there is one.
    pub fn find(&self, name: &Name) -> Option<u32>
        ensures { (tops : List TheTop) → Finds self.now tops → result ≡ place_in name.now tops }
    {
        match self.table.get(name.as_str()) {
            Some(at) => Some(*at),
            None => None,
        }
    }
}
