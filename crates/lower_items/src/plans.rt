ghost use Rattle.std.specs.Prelude.{◌≡◌, ◌+◌, ◌*◌, ◌^◌, ◌<◌, ◌≤◌, IfOk};
ghost use Rattle.flat_items.specs.Plans.{here_of};
ghost use Rattle.lower_items.specs.Plans.{labels_at, entered_at};

use c_tree::Slot;
use c_types::{IntKind, List, Memory};
use flat_items::{CasePlaces, Here};

/// What a flat list takes of its function.
#[derive(Drop)]
pub struct Plan {
    /// Which labels of the source are named by a goto.
    pub named: List<bool>,
    /// The variables of the source.
    pub slots: List<Slot>,
}

/// The labels of an `if`, loop or switch, by their codes.
#[derive(Clone, Copy)]
pub struct Labels {
    /// Behind it.
    pub behind: u32,
    /// Behind the list of a loop, where its `continue` leads that is not in front of it.
    pub next: u32,
    /// Of the default of a switch.
    pub default: u32,
    /// In front of a loop.
    pub head: u32,
    /// In front of the list to which the test of a loop or of an `if` leads.
    pub list: u32,
}

/// An `if`, loop or switch: its labels, and the numbers inside it.
#[derive(Clone, Copy)]
pub struct Inside {
    pub labels: Labels,
    pub start: Here,
}

/// The case labels of the switch to which nested ones are bound, if there is one.
#[derive(Drop)]
pub struct Cases {
    /// Whether there is one.
    pub bound: bool,
    /// The kind in which it compares.
    pub kind: IntKind,
    /// The number of its first case label.
    pub first: u32,
    /// The label of its default.
    pub default: u32,
    /// The numbers of its cases, and where each stands among them.
    pub numbers: List<Option<i128>>,
    pub places: CasePlaces,
}

/// How many sorts of labels there are.
const SORTS: usize = 7;

/// The labels of the source.
const SOURCE: u32 = 0;

/// The labels behind an `if`, loop or switch.
const BEHIND: u32 = 1;

/// The labels behind the list of a loop.
const NEXT: u32 = 2;

/// The labels of defaults.
const DEFAULT: u32 = 3;

/// The labels of cases.
const CASE: u32 = 4;

/// The labels in front of loops.
const HEAD: u32 = 5;

/// The labels in front of the lists of loops and of `if`s.
const LIST: u32 = 6;

/// The code of a label: each sort of labels has every seventh number. A code past `u32` counts as want
/// of memory, here and below.
fn code(number: usize, sort: u32) -> Result<u32, Memory>
    requires number { number < 2 ^ 34 }
    requires sort { sort < 7 }
    ensures { IfOk result (λ it. it ≡ 7 * number + sort) }
{
    let code = SORTS * number + sort as usize;
    if code > u32::MAX as usize {
        Err(Memory)
    } else {
        Ok(code as u32)
    }
}

/// The label that a label of the source becomes.
pub fn source_label(label: u32) -> Result<u32, Memory>
    ensures { IfOk result (λ it. it ≡ 7 * label) }
{
    code(label as usize, SOURCE)
}

/// The label of a case.
pub fn case_label(case: usize) -> Result<u32, Memory>
    requires { case < 2 ^ 34 }
    ensures { IfOk result (λ it. it ≡ 7 * case + 4) }
{
    code(case, CASE)
}

/// The labels of the `if`, loop or switch of this number.
fn labels_of(construct: u32) -> Result<Labels, Memory>
    ensures { IfOk result (λ it. it ≡ labels_at construct) }
{
    let list = code(construct as usize, LIST)?;
    let first = list - LIST;
    Ok(Labels {
        behind: first + BEHIND,
        next: first + NEXT,
        default: first + DEFAULT,
        head: first + HEAD,
        list,
    })
}

/// The `if`, loop or switch that stands here and has so many case labels and variables of its own.
pub fn entered(here: Here, cases: usize, variables: usize) -> Result<Inside, Memory>
    requires cases { cases ≤ 4294967295 }
    requires variables { variables ≤ 4294967295 }
    ensures labels { IfOk result (λ it. it.labels ≡ labels_at here.construct) }
    ensures start { IfOk result (λ it. here_of it.start ≡ entered_at (here_of here) cases variables) }
{
    let labels = labels_of(here.construct)?;
    let start = flat_items::entered(here, cases, variables)?;
    Ok(Inside { labels, start })
}
