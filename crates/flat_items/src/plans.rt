ghost use Rattle.std.specs.Prelude.{◌≡◌, ◌+◌, ◌^◌, ◌<◌, ◌≤◌, None, suc, get_or, IfOk};
ghost use Rattle.flat_items.specs.Plans.{number_at, plan_of};

use crate::places::CaseNumbers;
use c_tree::Slot;
use c_types::{IntKind, List, Memory};

/// Where labels stand. A label has a code: first come the labels of the source, then those that are
/// made.
#[derive(Drop)]
pub struct Places {
    /// The number of the label of each code, if it has one here.
    pub table: List<Option<u32>>,
    /// How far behind its code the number of any other label lies.
    pub behind: u32,
}

/// What the writing of a flat form takes of its function.
#[derive(Drop)]
pub struct Plan {
    /// Which labels of the source are named by a goto.
    pub named: List<bool>,
    /// The numbers of labels by their codes.
    pub places: Places,
    /// How many labels the source has.
    pub count: u32,
    /// The variables of the source.
    pub slots: List<Slot>,
}

/// The numbers of what comes next in text order.
#[derive(Clone, Copy)]
pub struct Here {
    /// Of the next construct that is numbered, from 0.
    pub construct: u32,
    /// Of the next case label of the switches that become gotos, from 0.
    pub case: u32,
    /// Of the next variable of such a switch, among all variables.
    pub variable: u32,
}

/// What a `break` or a `continue` becomes.
#[derive(Clone, Copy)]
pub enum Aim {
    /// It stays.
    Stays,
    /// It becomes a goto to the label.
    Becomes(u32),
    /// There is none.
    Absent,
}

/// What exits become in a list.
#[derive(Clone, Copy)]
pub struct Scope {
    pub breaks: Aim,
    pub continues: Aim,
}

/// The case labels of the scattered switch to which nested ones are bound, if there is one.
#[derive(Drop)]
pub struct Cases {
    /// Whether there is one.
    pub bound: bool,
    /// The kind in which it compares.
    pub kind: IntKind,
    /// The number of its first case label.
    pub first: u32,
    /// Its number among loops and switches.
    pub construct: u32,
    /// The numbers of its cases.
    pub numbers: CaseNumbers,
}

fn entry(table: &[Option<u32>], code: usize) -> Option<u32>
    ensures { result ≡ get_or table.now code None }
{
    if code < table.len() {
        table[code]
    } else {
        None
    }
}

fn shifted(code: usize, behind: u32) -> Result<u32, Memory>
    ensures { IfOk result (λ it. it ≡ code + behind) }
{
    match code.checked_add(behind as usize) {
        Some(number) => {
            if number > 4294967295 {
                Err(Memory)
            } else {
                Ok(number as u32)
            }
        }
        None => Err(Memory),
    }
}

/// The label with this code. A number past `u32` counts as want of memory, here and below.
pub fn label_of(places: &Places, code: usize) -> Result<u32, Memory>
    ensures { IfOk result (λ it. it ≡ number_at places.now code) }
{
    match entry(places.table.as_slice(), code) {
        Some(number) => Ok(number),
        None => shifted(code, places.behind),
    }
}

/// The label that a label of the source becomes.
pub fn source_label(plan: &Plan, label: u32) -> Result<u32, Memory>
    ensures { IfOk result (λ it. it ≡ (plan_of plan.now).source label) }
{
    label_of(&plan.places, label as usize)
}

/// The label right behind a loop or switch.
pub fn break_label(plan: &Plan, construct: u32) -> Result<u32, Memory>
    ensures { IfOk result (λ it. it ≡ (plan_of plan.now).break_label construct) }
{
    label_of(&plan.places, plan.count as usize + 4 * construct as usize)
}

/// The label before the end of a loop's body.
pub fn continue_label(plan: &Plan, construct: u32) -> Result<u32, Memory>
    ensures { IfOk result (λ it. it ≡ (plan_of plan.now).continue_label construct) }
{
    label_of(
        &plan.places,
        plan.count as usize + (4 * construct as usize + 1),
    )
}

/// The label of the default of a scattered switch.
pub fn default_label(plan: &Plan, construct: u32) -> Result<u32, Memory>
    ensures { IfOk result (λ it. it ≡ (plan_of plan.now).default_label construct) }
{
    label_of(
        &plan.places,
        plan.count as usize + (4 * construct as usize + 2),
    )
}

/// The label of a case of a scattered switch.
pub fn case_label(plan: &Plan, case: usize) -> Result<u32, Memory>
    requires { case < 2 ^ 34 }
    ensures { IfOk result (λ it. it ≡ (plan_of plan.now).case_label case) }
{
    label_of(&plan.places, plan.count as usize + (4 * case + 3))
}

fn sum(a: u32, b: usize) -> Result<u32, Memory>
    requires { b ≤ 4294967295 }
    ensures { IfOk result (λ it. it ≡ a + b) }
{
    match a.checked_add(b as u32) {
        Some(sum) => Ok(sum),
        None => Err(Memory),
    }
}

/// The numbers inside a construct that has so many case labels and variables of its own.
pub fn entered(here: Here, cases: usize, variables: usize) -> Result<Here, Memory>
    requires cases { cases ≤ 4294967295 }
    requires variables { variables ≤ 4294967295 }
    ensures construct { IfOk result (λ it. it.construct ≡ suc here.construct) }
    ensures case { IfOk result (λ it. it.case ≡ here.case + cases) }
    ensures variable { IfOk result (λ it. it.variable ≡ here.variable + variables) }
{
    let construct = sum(here.construct, 1)?;
    let case = sum(here.case, cases)?;
    let variable = sum(here.variable, variables)?;
    Ok(Here {
        construct,
        case,
        variable,
    })
}
