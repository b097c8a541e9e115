ghost use Rattle.std.specs.Prelude.{◌≡◌, Some, cond, option_map, length, false, IfOk, OnOk};
ghost use Rattle.c_tree.specs.ExpressionTrees.{expression_tree};
ghost use Rattle.c_tree.specs.TestTrees.{selector_tree};
ghost use Rattle.c_tree.specs.Trees.{expression_trees, trees_of, sections_of, join};
ghost use Rattle.jump_meaning.specs.Step.{switch_kind as the_switch_kind};
ghost use Rattle.flat_laws.specs.Pieces.{Becomes, Absent, case_marks};
ghost use Rattle.flat_laws.specs.Parts.{switch_labels, cases_among, has_default, leaves as the_leaves};
ghost use Rattle.flat_laws.specs.FlatForm.{arrival};
ghost use Rattle.flat_items.specs.Pieces.{number_test, number_tests};
ghost use Rattle.lower_items.specs.Choices.{AreCases, breaks_of, otherwise_of, choice_form};
ghost use Rattle.flat_items.specs.Plans.{aim_of, here_of};
ghost use Rattle.lower_items.specs.Plans.{entered_at, arrivals_of, case_names, number_label};

use crate::plans::{Cases, Inside, Labels, case_label, entered};
use crate::values::into_source;
use c_tree::{Expression, Item, Section, Selector};
use c_types::{IntKind, List, Memory};
use flat_items::{
    Aim, Here, add, add_goto, add_label, assignment, case_test, no_places, place_of, places_of,
};
use flat_questions::{case_number, case_numbers, leaves, switch_has_default, switch_kind};
use std::alloc::Global;

/// No switch.
pub fn no_cases(alloc: Global) -> Cases
    ensures { result.bound ≡ false }
{
    Cases {
        bound: false,
        kind: IntKind::Int,
        first: 0,
        default: 0,
        numbers: List::new(alloc),
        places: no_places(alloc),
    }
}

fn label_of_number(cases: &Cases, number: Option<i128>) -> Result<u32, Memory>
    ensures { IfOk result (λ it. it ≡ number_label cases.now number) }
{
    let place = place_of(&cases.places, number);
    case_label(cases.first as usize + place as usize)
}

/// The label of a case.
fn label_of_case(cases: &Cases, case: &Expression) -> Result<u32, Memory>
    ensures { IfOk result (λ it. it ≡ case_names cases.now (Some (expression_tree case.now))) }
{
    label_of_number(cases, case_number(cases.kind, case))
}

/// The label of a case or of the default.
fn label_of_option(cases: &Cases, case: &Option<Expression>) -> Result<u32, Memory>
    ensures { IfOk result (λ it. it ≡ case_names cases.now (option_map expression_tree case.now)) }
{
    match case {
        Some(e) => label_of_case(cases, e),
        None => Ok(cases.default),
    }
}

/// A nested case label, or the label of its case, where it is bound to a switch.
pub fn add_arrival(
    cases: &Cases,
    case: Option<Expression>,
    out: &mut List<Item>,
) -> Result<(), Memory>
    ensures { OnOk result (trees_of out.new ≡ join (trees_of out.old) (arrival (arrivals_of cases.now) (option_map expression_tree case))) }
{
    if cases.bound {
        let label = label_of_option(cases, &case);
        drop(case);
        add_label(label?, out)
    } else {
        add(out, Item::Arrival(case))
    }
}

/// The labels of a section of a switch: of its cases, then of its default.
pub fn add_case_marks(
    cases: &Cases,
    given: &[Expression],
    default: bool,
    out: &mut List<Item>,
) -> Result<(), Memory>
    ensures { OnOk result (trees_of out.new ≡ join (trees_of out.old) (case_marks (case_names cases.now) (expression_trees given.now) default)) }
{
    for i in 0..given.len() {
        let label = label_of_case(cases, &given[i])?;
        add_label(label, out)?;
    }
    if default {
        add_label(cases.default, out)
    } else {
        Ok(())
    }
}

/// The test of a case, if it has a number.
fn add_test(
    alloc: Global,
    cases: &Cases,
    variable: u32,
    number: Option<i128>,
    out: &mut List<Item>,
) -> Result<(), Memory>
    ensures { OnOk result (trees_of out.new ≡ join (trees_of out.old) (number_test cases.now.kind variable (number_label cases.now) number)) }
{
    match number {
        Some(n) => {
            let label = label_of_number(cases, Some(n))?;
            let test = case_test(alloc, cases.kind, variable, n, label)?;
            add(out, test)
        }
        None => Ok(()),
    }
}

/// The tests of the cases of a switch that have these numbers, in text order.
fn add_tests(
    alloc: Global,
    cases: &Cases,
    numbers: &[Option<i128>],
    variable: u32,
    out: &mut List<Item>,
) -> Result<(), Memory>
    ensures { OnOk result (trees_of out.new ≡ join (trees_of out.old) (number_tests cases.now.kind variable (number_label cases.now) numbers.now)) }
{
    for i in 0..numbers.len() {
        add_test(alloc, cases, variable, numbers[i], out)?;
    }
    Ok(())
}

/// A switch: its cases, what its `break`s become, where it goes if no case is selected, and the numbers
/// inside it.
#[derive(Drop)]
pub struct Choice {
    pub cases: Cases,
    pub breaks: Aim,
    pub otherwise: u32,
    pub start: Here,
}

/// What a `break` becomes in a switch with this label behind it.
fn switch_aim(behind: u32, sections: &[Section]) -> Aim
    ensures { aim_of result ≡ cond (the_leaves (sections_of sections.now)) (Becomes behind) Absent }
{
    if leaves(sections) {
        Aim::Becomes(behind)
    } else {
        Aim::Absent
    }
}

fn otherwise(labels: Labels, sections: &[Section]) -> u32
    ensures { result ≡ cond (has_default (switch_labels (sections_of sections.now))) labels.default labels.behind }
{
    if switch_has_default(sections) {
        labels.default
    } else {
        labels.behind
    }
}

fn choice_of(
    alloc: Global,
    kind: IntKind,
    sections: &[Section],
    here: Here,
) -> Result<Choice, Memory>
    ensures cases { IfOk result (λ it. AreCases it.cases kind (sections_of sections.now) (here_of here)) }
    ensures breaks { IfOk result (λ it. aim_of it.breaks ≡ breaks_of (sections_of sections.now) here.construct) }
    ensures otherwise { IfOk result (λ it. it.otherwise ≡ otherwise_of (sections_of sections.now) here.construct) }
    ensures start { IfOk result (λ it. here_of it.start ≡ entered_at (here_of here) (length (cases_among (switch_labels (sections_of sections.now)))) 1) }
{
    let numbers = case_numbers(alloc, kind, sections)?;
    let places = places_of(alloc, numbers.as_slice())?;
    let Inside { labels, start } = entered(here, numbers.len(), 1)?;
    Ok(Choice {
        cases: Cases {
            bound: true,
            kind,
            first: here.case,
            default: labels.default,
            numbers,
            places,
        },
        breaks: switch_aim(labels.behind, sections),
        otherwise: otherwise(labels, sections),
        start,
    })
}

/// The first items of a switch: its variable gets the value of the selector, then come the tests of its
/// cases, and a goto for where none of them holds.
pub fn add_choice(
    alloc: Global,
    selector: Selector,
    sections: &[Section],
    here: Here,
    out: &mut List<Item>,
) -> Result<Choice, Memory>
    ensures cases { IfOk result (λ it. AreCases it.cases (the_switch_kind (selector_tree selector)) (sections_of sections.now) (here_of here)) }
    ensures breaks { IfOk result (λ it. aim_of it.breaks ≡ breaks_of (sections_of sections.now) here.construct) }
    ensures start { IfOk result (λ it. here_of it.start ≡ entered_at (here_of here) (length (cases_among (switch_labels (sections_of sections.now)))) 1) }
    ensures items { OnOk result (trees_of out.new ≡ join (trees_of out.old) (choice_form (selector_tree selector) (sections_of sections.now) (here_of here))) }
{
    let kind = switch_kind(&selector);
    add(
        out,
        assignment(alloc, kind, here.variable, into_source(selector))?,
    )?;
    let chosen = choice_of(alloc, kind, sections, here)?;
    let cases = &chosen.cases;
    add_tests(alloc, cases, cases.numbers.as_slice(), here.variable, out)?;
    add_goto(chosen.otherwise, out)?;
    Ok(chosen)
}
