//! The violations of the case and default labels of a switch.

ghost use Rattle.std.specs.Prelude.{◌≡◌, [], false, OnOk};
ghost use Rattle.c_statements.specs.Cases as spec;

use crate::entries::Entry;
use c_kinds::{Fault, report_if};
use c_types::{IntKind, Memory, Stack, convert, promote, reasons};
use std::alloc::Global;
use std::collections::BTreeSet;
use std::marker::Model;

/// Numbers, which contracts see in rising order, each once.
#[derive(Drop)]
struct Numbers {
    numbers: BTreeSet<i128>,
}

impl Model for Numbers {
    ghost use Rattle.std.specs.Prelude.{List, ℤ};

    ghost Value = { List ℤ };

    ghost view = { λ it. it.numbers.keys };
}

impl Numbers {
    fn new(alloc: Global) -> Numbers
        ensures { result ≡ [] }
    {
        Numbers {
            numbers: BTreeSet::new(alloc),
        }
    }

    fn has(&self, number: i128) -> bool
        ensures { result ≡ spec.is_among number self.now }
    {
        self.numbers.contains(&number)
    }

    fn add(&mut self, number: i128) -> Result<(), Memory>
        ensures { OnOk result (self.new ≡ spec.with_value number self.old) }
    {
        self.numbers.insert(number)?;
        Ok(())
    }
}

/// Reports equal cases, after conversion to a kind, and a second default.
#[tactic(auto, using(crate::proofs::Lists::next))]
fn report_entries(
    alloc: Global,
    faults: &mut Stack<Fault>,
    kind: IntKind,
    entries: &[Entry],
) -> Result<(), Memory>
    ensures { OnOk result (faults.new ≡ spec.entry_faults kind [] false entries.now faults.old) }
{
    let mut seen = Numbers::new(alloc);
    let mut default = false;
    for entry in entries {
        match *entry {
            Entry::Value(at, value) => {
                let value = convert(kind, value);
                report_if(faults, seen.has(value), at, reasons::EQUAL_CASES)?;
                seen.add(value)?;
            }
            Entry::Other(at) => {
                report_if(faults, default, at, reasons::SECOND_DEFAULT)?;
                default = true;
            }
        }
    }
    Ok(())
}

/// Reports a second default.
#[tactic(auto, using(crate::proofs::Lists::next))]
fn report_defaults(faults: &mut Stack<Fault>, entries: &[Entry]) -> Result<(), Memory>
    ensures { OnOk result (faults.new ≡ spec.default_faults false entries.now faults.old) }
{
    let mut default = false;
    for entry in entries {
        if let Entry::Other(at) = *entry {
            report_if(faults, default, at, reasons::SECOND_DEFAULT)?;
            default = true;
        }
    }
    Ok(())
}

/// Reports the violations among the labels of a switch, by the kind of its selector, which is `None`
/// where the selector has a violation.
pub fn report_cases(
    alloc: Global,
    faults: &mut Stack<Fault>,
    kind: Option<IntKind>,
    entries: &[Entry],
) -> Result<(), Memory>
    ensures { OnOk result (faults.new ≡ spec.switch_faults kind entries.now faults.old) }
{
    match kind {
        Some(kind) => report_entries(alloc, faults, promote(kind), entries),
        None => report_defaults(faults, entries),
    }
}
