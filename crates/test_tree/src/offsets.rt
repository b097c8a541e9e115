//! The relations of a jump to its label.

use c_tree::{Branch, Path, Step};
use c_types::{List, Memory};
use label_offsets::{Rule, level, relation};
use std::alloc::Global;

/// Where a Leap stands, where its Land, and the rule that applies.
struct Related {
    leap: (&'static [Step], u32),
    land: (&'static [Step], u32),
    rule: Rule,
}

const THEN: Step = Step {
    item: 3,
    branch: Branch::Then,
};

const ELSE: Step = Step {
    item: 3,
    branch: Branch::Else,
};

const LATER: Step = Step {
    item: 6,
    branch: Branch::Body,
};

const EARLIER: Step = Step {
    item: 1,
    branch: Branch::Body,
};

static RELATED: [Related; 6] = [
    Related {
        leap: (&[], 2),
        land: (&[], 5),
        rule: Rule::SiblingBefore,
    },
    Related {
        leap: (&[], 5),
        land: (&[], 1),
        rule: Rule::SiblingAfter,
    },
    Related {
        leap: (&[], 4),
        land: (&[LATER], 2),
        rule: Rule::InwardOf,
    },
    Related {
        leap: (&[], 4),
        land: (&[EARLIER], 0),
        rule: Rule::LiftOf,
    },
    Related {
        leap: (&[THEN], 1),
        land: (&[], 8),
        rule: Rule::Outward,
    },
    Related {
        leap: (&[THEN], 1),
        land: (&[ELSE], 0),
        rule: Rule::Outward,
    },
];

fn path(alloc: Global, steps: &[Step], item: u32) -> Result<Path, Memory> {
    Ok(Path {
        steps: List::from_slice(alloc, steps)?,
        item,
    })
}

fn is_related(alloc: Global, it: &Related) -> Result<bool, Memory> {
    let from = path(alloc, it.leap.0, it.leap.1)?;
    let to = path(alloc, it.land.0, it.land.1)?;
    let rule = relation(&from, &to);
    let depth = level(&from);
    drop(to);
    drop(from);
    Ok(rule == it.rule && depth == it.leap.0.len() as u64)
}

#[test]
fn relations(rt: HostRuntime) {
    for (number, it) in RELATED.iter().enumerate() {
        assert!(rt; is_related(rt.alloc(), it) == Ok(true), "{number}");
    }
}
