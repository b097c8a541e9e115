//! Items, offsets and exchanges at paths.

use c_tree::{
    Branch, Expression, Item, Node, Path, Section, Selector, Step, Test, find_list, fits, list_at,
    replace_at,
};
use c_types::{IntKind, List, Memory};
use label_offsets::offset;
use std::alloc::Global;
use std::mem;

/// Where an item stands: the list in the body that holds it, unless the body does, and its place there.
type Spot = (Option<(u32, Branch)>, u32);

fn number(n: i128) -> Expression {
    Expression {
        kind: Some(IntKind::Int),
        node: Node::Number(n),
    }
}

/// `goto 7; while (1) { break; continue; }`
fn push_loop(alloc: Global, body: &mut List<Item>) -> Result<(), Memory> {
    body.push(Item::Goto(7))?;
    body.push(Item::While(Test::Source(number(1)), List::new(alloc)))?;
    match body.get_mut(1) {
        Some(Item::While(_, inner)) => {
            inner.push(Item::Break)?;
            inner.push(Item::Continue)
        }
        _ => Err(Memory),
    }
}

/// `if (1) { goto 8; } else { break; goto 9; }`
fn push_if(alloc: Global, body: &mut List<Item>) -> Result<(), Memory> {
    body.push(Item::If(Test::Source(number(1)), List::new(alloc), List::new(alloc)))?;
    match body.get_mut(2) {
        Some(Item::If(_, then, _)) => then.push(Item::Goto(8))?,
        _ => return Err(Memory),
    }
    match body.get_mut(2) {
        Some(Item::If(_, _, otherwise)) => {
            otherwise.push(Item::Break)?;
            otherwise.push(Item::Goto(9))
        }
        _ => Err(Memory),
    }
}

/// `case 1:` with an empty list.
fn section(alloc: Global, ends: bool) -> Result<Section, Memory> {
    let mut cases = List::new(alloc);
    cases.push(number(1))?;
    Ok(Section {
        cases,
        default: false,
        list: List::new(alloc),
        ends,
    })
}

fn push_sections(alloc: Global, sections: &mut List<Section>) -> Result<(), Memory> {
    sections.push(section(alloc, false)?)?;
    sections.push(section(alloc, true)?)?;
    match sections.as_mut_slice() {
        [first, second] => {
            first.list.push(Item::Goto(4))?;
            second.list.push(Item::Continue)?;
            second.list.push(Item::Goto(5))
        }
        _ => Err(Memory),
    }
}

/// `switch (1) { case 1: goto 4; case 1: continue; goto 5; }`
fn push_switch(alloc: Global, body: &mut List<Item>) -> Result<(), Memory> {
    body.push(Item::Switch(Selector::Source(number(1)), List::new(alloc)))?;
    match body.get_mut(3) {
        Some(Item::Switch(_, sections)) => push_sections(alloc, sections),
        _ => Err(Memory),
    }
}

/// A `goto`, a loop, an `if` and a `switch`.
fn body(alloc: Global) -> Result<List<Item>, Memory> {
    let mut body = List::new(alloc);
    push_loop(alloc, &mut body)?;
    push_if(alloc, &mut body)?;
    push_switch(alloc, &mut body)?;
    Ok(body)
}

fn path(alloc: Global, spot: &Spot) -> Result<Path, Memory> {
    let mut steps = List::new(alloc);
    if let Some((item, branch)) = spot.0 {
        steps.push(Step { item, branch })?;
    }
    Ok(Path {
        steps,
        item: spot.1,
    })
}

/// The label of the goto at the path; 100 where another item stands, 200 where none does.
fn label_at(list: &List<Item>, at: &Path) -> u32 {
    if !fits(list, at) {
        return 200;
    }
    match list_at(list, at).get(at.item as usize) {
        Some(Item::Goto(label)) => *label,
        Some(_) => 100,
        None => 200,
    }
}

/// The label of the goto at the spot; 100 where another item stands, 200 where none does.
fn label_of(alloc: Global, list: &List<Item>, spot: &Spot) -> Result<u32, Memory> {
    let at = path(alloc, spot)?;
    let label = label_at(list, &at);
    drop(at);
    Ok(label)
}

static LABELS: [(Spot, u32); 15] = [
    ((None, 0), 7),
    ((None, 1), 100),
    ((None, 3), 100),
    ((None, 4), 200),
    ((Some((1, Branch::Body)), 1), 100),
    ((Some((1, Branch::Body)), 2), 200),
    ((Some((2, Branch::Then)), 0), 8),
    ((Some((2, Branch::Then)), 1), 200),
    ((Some((2, Branch::Else)), 1), 9),
    ((Some((2, Branch::Body)), 0), 200),
    ((Some((3, Branch::Section(0))), 0), 4),
    ((Some((3, Branch::Section(1))), 1), 5),
    ((Some((3, Branch::Section(2))), 0), 200),
    ((Some((0, Branch::Body)), 0), 200),
    ((Some((4, Branch::Then)), 0), 200),
];

fn leads(alloc: Global, body: &List<Item>) -> Result<bool, Memory> {
    for (spot, label) in &LABELS {
        if label_of(alloc, body, spot)? != *label {
            return Ok(false);
        }
    }
    Ok(true)
}

/// The items of the body in text order, each by the list in which it stands.
static IN_ORDER: [Spot; 12] = [
    (None, 0),
    (None, 1),
    (Some((1, Branch::Body)), 0),
    (Some((1, Branch::Body)), 1),
    (None, 2),
    (Some((2, Branch::Then)), 0),
    (Some((2, Branch::Else)), 0),
    (Some((2, Branch::Else)), 1),
    (None, 3),
    (Some((3, Branch::Section(0))), 0),
    (Some((3, Branch::Section(1))), 0),
    (Some((3, Branch::Section(1))), 1),
];

fn offset_of(alloc: Global, body: &List<Item>, spot: &Spot) -> Result<u64, Memory> {
    let at = path(alloc, spot)?;
    let found = offset(body, &at);
    drop(at);
    Ok(found)
}

fn counts(alloc: Global, body: &List<Item>) -> Result<bool, Memory> {
    for (count, spot) in IN_ORDER.iter().enumerate() {
        if offset_of(alloc, body, spot)? != count as u64 {
            return Ok(false);
        }
    }
    Ok(true)
}

fn leads_and_counts(alloc: Global) -> Result<bool, Memory> {
    let body = body(alloc)?;
    let does_lead = leads(alloc, &body);
    let does_count = counts(alloc, &body);
    drop(body);
    Ok(does_lead == Ok(true) && does_count == Ok(true))
}

#[test]
fn paths_lead_to_items_in_text_order(rt: HostRuntime) {
    assert!(rt; leads_and_counts(rt.alloc()) == Ok(true));
}

/// Three gotos to the label.
fn three(alloc: Global, label: u32) -> Result<List<Item>, Memory> {
    let mut list = List::new(alloc);
    for _ in 0..3 {
        list.push(Item::Goto(label))?;
    }
    Ok(list)
}

/// Exchanges the list at the path for one of three gotos to the label, and gives the old one's length.
fn exchange(alloc: Global, body: &mut List<Item>, at: &Path, label: u32) -> Result<usize, Memory> {
    let new = three(alloc, label)?;
    if find_list(body, at.steps.as_slice()).is_none() {
        drop(new);
        return Ok(0);
    }
    let old = replace_at(body, at.steps.as_slice(), new);
    let length = old.len();
    drop(old);
    Ok(length)
}

/// Exchanges the list with the spot for one of three gotos to the label, and gives the old one's length.
fn exchange_at(
    alloc: Global,
    body: &mut List<Item>,
    spot: &Spot,
    label: u32,
) -> Result<usize, Memory> {
    let at = path(alloc, spot)?;
    let length = exchange(alloc, body, &at, label);
    drop(at);
    length
}

/// A spot in a list that is exchanged for one of gotos to this label, how many items the list had, and the labels
/// that stand at the spot and at the end of the else-list then.
struct Exchanged {
    spot: Spot,
    label: u32,
    length: usize,
    there: u32,
    in_else: u32,
}

static EXCHANGED: [Exchanged; 7] = [
    Exchanged {
        spot: (None, 2),
        label: 40,
        length: 4,
        there: 40,
        in_else: 200,
    },
    Exchanged {
        spot: (Some((1, Branch::Body)), 2),
        label: 41,
        length: 2,
        there: 41,
        in_else: 9,
    },
    Exchanged {
        spot: (Some((2, Branch::Then)), 2),
        label: 42,
        length: 1,
        there: 42,
        in_else: 9,
    },
    Exchanged {
        spot: (Some((2, Branch::Else)), 2),
        label: 43,
        length: 2,
        there: 43,
        in_else: 43,
    },
    Exchanged {
        spot: (Some((3, Branch::Section(0))), 2),
        label: 44,
        length: 1,
        there: 44,
        in_else: 9,
    },
    Exchanged {
        spot: (Some((3, Branch::Section(1))), 2),
        label: 45,
        length: 2,
        there: 45,
        in_else: 9,
    },
    // no list stands there
    Exchanged {
        spot: (Some((3, Branch::Section(2))), 2),
        label: 46,
        length: 0,
        there: 200,
        in_else: 9,
    },
];

static END_OF_ELSE: Spot = (Some((2, Branch::Else)), 1);

fn is_exchanged(alloc: Global, body: &mut List<Item>, it: &Exchanged) -> Result<bool, Memory> {
    let length = exchange_at(alloc, body, &it.spot, it.label)?;
    let there = label_of(alloc, body, &it.spot)?;
    let in_else = label_of(alloc, body, &END_OF_ELSE)?;
    Ok(length == it.length && there == it.there && in_else == it.in_else)
}

fn exchanges(alloc: Global, it: &Exchanged) -> Result<bool, Memory> {
    let mut body = body(alloc)?;
    let met = is_exchanged(alloc, &mut body, it);
    drop(body);
    met
}

#[test]
fn lists_are_exchanged(rt: HostRuntime) {
    for it in &EXCHANGED {
        assert!(rt; exchanges(rt.alloc(), it) == Ok(true), "{}", it.label);
    }
}

/// Puts the items into the else-list of an `if`, and that behind a `continue`; the steps lead there.
fn nest(alloc: Global, list: &mut List<Item>, steps: &mut List<Step>) -> Result<(), Memory> {
    let mut outer = List::new(alloc);
    outer.push(Item::Continue)?;
    let inner = mem::replace(list, outer);
    list.push(Item::If(Test::On(1), List::new(alloc), inner))?;
    steps.push(Step {
        item: 1,
        branch: Branch::Else,
    })
}

/// As many lists as `depth` round one goto, and the steps to it.
fn nest_often(
    alloc: Global,
    list: &mut List<Item>,
    steps: &mut List<Step>,
    depth: u32,
) -> Result<(), Memory> {
    list.push(Item::Goto(3))?;
    for _ in 0..depth {
        nest(alloc, list, steps)?;
    }
    Ok(())
}

/// Whether a list of so many items with this label at its end is exchanged for the three gotos, of which this path
/// then leads to the last.
fn is_exchanged_at(
    alloc: Global,
    body: &mut List<Item>,
    at: &mut Path,
    label: u32,
    length: usize,
) -> Result<bool, Memory> {
    let before = label_at(body, at);
    let found = exchange(alloc, body, at, 5)?;
    let there = label_at(body, at);
    at.item = 2;
    let last = label_at(body, at);
    at.item = 3;
    let behind = label_at(body, at);
    let stands_there = if length > 3 { 200 } else { 5 };
    Ok(before == label && found == length && there == stands_there && last == 5 && behind == 200)
}

fn exchanges_deep(alloc: Global, list: &mut List<Item>, at: &mut Path) -> Result<bool, Memory> {
    nest_often(alloc, list, &mut at.steps, 400)?;
    is_exchanged_at(alloc, list, at, 3, 1)
}

/// Puts so many gotos into a loop, each to another label; the step leads there.
fn put_in_loop(
    alloc: Global,
    list: &mut List<Item>,
    steps: &mut List<Step>,
    count: u32,
) -> Result<(), Memory> {
    for label in 0..count {
        list.push(Item::Goto(label))?;
    }
    let inner = mem::replace(list, List::new(alloc));
    list.push(Item::While(Test::On(1), inner))?;
    steps.push(Step {
        item: 0,
        branch: Branch::Body,
    })
}

fn exchanges_long(alloc: Global, list: &mut List<Item>, at: &mut Path) -> Result<bool, Memory> {
    put_in_loop(alloc, list, &mut at.steps, 150_000)?;
    at.item = 149_999;
    is_exchanged_at(alloc, list, at, 149_999, 150_000)
}

/// Whether a list that stands deep is exchanged, or else a long one.
fn exchanges_large(alloc: Global, is_deep: bool) -> Result<bool, Memory> {
    let mut list = List::new(alloc);
    let mut at = Path {
        steps: List::new(alloc),
        item: 0,
    };
    let met = if is_deep {
        exchanges_deep(alloc, &mut list, &mut at)
    } else {
        exchanges_long(alloc, &mut list, &mut at)
    };
    drop(at);
    drop(list);
    met
}

#[test]
fn deep_and_long_lists_are_exchanged(rt: HostRuntime) {
    assert!(rt; exchanges_large(rt.alloc(), true) == Ok(true));
    assert!(rt; exchanges_large(rt.alloc(), false) == Ok(true));
}
