ghost use Rattle.std.specs.Prelude.{◌≡◌, [], ◌∷◌, ◌++◌, IfOk, length, min, map, sum, take};
ghost use Rattle.label_offsets.specs.Standing.{outermost as the_outermost};
ghost use Rattle.label_offsets.specs.Relation.{same_branch, same_step, relation as the_relation, Means};
ghost use Rattle.label_offsets.specs.Offset.{count as the_count, counts as the_counts, section_count as the_section_count, section_counts as the_section_counts, before_branch as the_before_branch, before as the_before};

use c_tree::{Branch, Item, Path, Section, Step, child};
use c_types::{List, MOST, Memory};
use std::alloc::Global;

/// How a jump stands to its label, which says the rule that moves it (docs/REWRITING.md).
#[derive(Clone, Copy, Debug, PartialEq, Eq)]
pub enum Rule {
    /// The Leap stands before the Land in the same list.
    SiblingBefore,
    /// The Leap stands after the Land in the same list.
    SiblingAfter,
    /// The Land stands in a later item of the Leap's list.
    InwardOf,
    /// The Land stands in an earlier item of the Leap's list.
    LiftOf,
    /// The Land stands neither in the Leap's list nor in an item of it.
    Outward,
}

/// The level of an item: how many lists of a body it stands in, the body not counted.
pub fn level(at: &Path) -> u64
    ensures { result ≡ length at.now.steps }
{
    at.steps.len() as u64
}

/// The item of the outermost list to which a path leads, or into which.
pub fn outermost(at: &Path) -> u32
    ensures { result ≡ the_outermost at.now }
{
    match at.steps.as_slice() {
        [] => at.item,
        [step, ..] => step.item,
    }
}

fn branch_is(a: Branch, b: Branch) -> bool
    ensures { result ≡ same_branch a b }
{
    a == b
}

fn step_is(a: &Step, b: &Step) -> bool
    ensures { result ≡ same_step a.now b.now }
{
    a.item == b.item && branch_is(a.branch, b.branch)
}

fn compare(p: &[Step], i: u32, q: &[Step], j: u32) -> Rule
    ensures { result ≡ the_relation p.now i q.now j }
{
    match p {
        [] => match q {
            [] => if i < j {
                Rule::SiblingBefore
            } else {
                Rule::SiblingAfter
            },
            [t, ..] => if t.item < i {
                Rule::LiftOf
            } else {
                Rule::InwardOf
            },
        },
        [s, ss @ ..] => match q {
            [] => Rule::Outward,
            [t, ts @ ..] => {
                if step_is(s, t) {
                    compare(ss, i, ts, j)
                } else {
                    Rule::Outward
                }
            }
        },
    }
}

/// How the Leap at one path stands to the Land at another (docs/REWRITING.md). The paths differ.
pub fn relation(leap: &Path, land: &Path) -> Rule
    ensures value { result ≡ the_relation leap.now.steps leap.now.item land.now.steps land.now.item }
    ensures steps { Means result leap.now.steps leap.now.item land.now.steps land.now.item }
{
    compare(
        leap.steps.as_slice(),
        leap.item,
        land.steps.as_slice(),
        land.item,
    )
}

#[cycle(count)]
fn count(item: &Item) -> u64
    ensures { result ≡ min (the_count item.now) u64.MAX }
{
    match item {
        Item::If(_, a, b) => counts(a).saturating_add(counts(b)).saturating_add(1),
        Item::While(_, a) => counts(a).saturating_add(1),
        Item::Do(a, _) => counts(a).saturating_add(1),
        Item::For(f, _, _, a) => counts(f).saturating_add(counts(a)).saturating_add(1),
        Item::Switch(_, sections) => section_counts(sections.as_slice()).saturating_add(1),
        Item::Block(a) => counts(a).saturating_add(1),
        _ => 1,
    }
}

#[cycle(count)]
fn counts(list: &List<Item>) -> u64
    ensures { result ≡ min (the_counts list.now) u64.MAX }
{
    counts_of(list.as_slice())
}

#[cycle(count)]
fn counts_of(items: &[Item]) -> u64
    ensures { result ≡ min (the_counts items.now) u64.MAX }
{
    let mut n: u64 = 0;
    for item in items {
        n = n.saturating_add(count(item));
    }
    n
}

#[cycle(count)]
fn section_counts(sections: &[Section]) -> u64
    ensures { result ≡ min (the_section_counts sections.now) u64.MAX }
{
    let mut n: u64 = 0;
    for section in sections {
        n = n.saturating_add(counts(&section.list));
    }
    n
}

fn front<T>(items: &[T], n: usize) -> &[T]
    ensures { result.now ≡ take n items.now }
{
    if n < items.len() { &items[..n] } else { items }
}

fn before_branch(item: &Item, branch: Branch) -> u64
    ensures { result ≡ min (the_before_branch branch item.now) u64.MAX }
{
    match (branch, item) {
        (Branch::Else, Item::If(_, a, _)) => counts(a),
        (Branch::Body, Item::For(first, _, _, _)) => counts(first),
        (Branch::Section(k), Item::Switch(_, sections)) => {
            section_counts(front(sections.as_slice(), k as usize))
        }
        _ => 0,
    }
}

fn before(list: &List<Item>, steps: &[Step], at: u32) -> u64
    ensures { result ≡ min (the_before list.now steps.now at) u64.MAX }
{
    match steps {
        [] => counts_of(front(list.as_slice(), at as usize)),
        [step, rest @ ..] => {
            let left = counts_of(front(list.as_slice(), step.item as usize));
            let Some(item) = list.get(step.item as usize) else {
                return left;
            };
            let here = left
                .saturating_add(before_branch(item, step.branch))
                .saturating_add(1);
            match child(item, step.branch) {
                Some(inner) => here.saturating_add(before(inner, rest, at)),
                None => here,
            }
        }
    }
}

/// The offset of an item: how many items of the body stand before it in text order
/// (docs/REWRITING), counted up to the last `u64`.
pub fn offset(body: &List<Item>, at: &Path) -> u64
    ensures { result ≡ min (the_before body.now at.now.steps at.now.item) u64.MAX }
{
    before(body, at.steps.as_slice(), at.item)
}

/// The path of the first item of the list that the step leads to, from the list at the steps.
pub fn path_into(alloc: Global, steps: &[Step], step: Step) -> Result<Path, Memory>
    ensures { IfOk result (λ to. to ≡ record { steps = steps.now ++ step ∷ []; item = 0 }) }
{
    let mut all = List::from_slice(alloc, steps)?;
    all.push(step)?;
    Ok(Path {
        steps: all,
        item: 0,
    })
}

/// A path in a list of an item, as one of the list that the item stands in.
pub fn path_under(path: Path, item: u32, branch: Branch) -> Result<Path, Memory>
    ensures { IfOk result (λ to. to ≡ record { steps = record { item = item; branch = branch } ∷ path.steps; item = path.item }) }
{
    let Path { steps, item: last } = path;
    let mut steps = steps.into_vec();
    steps.insert(0, Step { item, branch })?;
    if steps.len() > MOST {
        return Err(Memory);
    }
    Ok(Path {
        steps: List::from_vec(steps),
        item: last,
    })
}
