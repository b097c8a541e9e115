//! The labels of a body that stay.

ghost use Rattle.std.specs.Prelude.{◌≡◌, ◌≤◌, ◌==◌, ◌&&◌, length, IfOk};
ghost use Rattle.flat_items.specs.Plans.{number_at};
ghost use Rattle.flat_questions.specs.Reading.{is_flagged as the_is_flagged};
ghost use Rattle.c_resolved_laws.specs.Counts.{labels_named};

use crate::places_of;
use c_types::Memory;
use flat_items::{Places, label_of};
use flat_questions::is_flagged;
use std::alloc::Global;

/// Whether the label at this place counts.
fn counts_here(places: &Places, named: &[bool], label: u32, place: usize) -> Result<bool, Memory>
    ensures { IfOk result (λ it. it ≡ (the_is_flagged named.now label && (number_at places.now label == place))) }
{
    if !is_flagged(named, label) {
        return Ok(false);
    }
    let first = label_of(places, label as usize)?;
    Ok(first as usize == place)
}

/// How many of these labels are named: one that stands twice counts once. The flags say which labels
/// are named. Want of memory is the only failure.
#[tactic(auto, using(crate::proofs::CountedPlaces::steps))]
pub fn label_count(alloc: Global, named: &[bool], labels: &[u32]) -> Result<u64, Memory>
    requires { length labels.now ≤ 4294967295 }
    ensures { IfOk result (λ it. it ≡ labels_named (the_is_flagged named.now) labels.now) }
{
    let places = places_of(alloc, labels)?;
    let mut count: u64 = 0;
    for i in 0..labels.len() {
        if counts_here(&places, named, labels[i], i)? {
            count += 1;
        }
    }
    Ok(count)
}
