ghost use Rattle.std.specs.Prelude.{◌≡◌, ◌≤◌, Some, option_map, length, map, true, false, IfOk, OnOk};
ghost use Rattle.c_tree.specs.Changed.{one};
ghost use Rattle.c_tree.specs.Cases.{case_number as the_case_number, selector_source as the_selector_source};
ghost use Rattle.c_tree.specs.ExpressionTrees.{expression_tree};
ghost use Rattle.c_tree.specs.TestTrees.{selector_tree};
ghost use Rattle.c_tree.specs.Trees.{Evaluate, Goto, Then, expression_trees, trees_of, sections_of, join};
ghost use Rattle.jump_meaning.specs.Step.{switch_kind as the_switch_kind};
ghost use Rattle.flat_laws.specs.Pieces.{assign_number, case_marks};
ghost use Rattle.flat_laws.specs.Parts.{switch_labels, cases_among};
ghost use Rattle.flat_laws.specs.FlatForm.{arrival, otherwise_label as the_otherwise_label};
ghost use Rattle.flat_items.specs.Pieces.{number_test, number_tests};
ghost use Rattle.flat_items.specs.Plans.{arrivals_of, case_names, number_label, plan_of, here_of};

use crate::pieces::{add, add_goto, add_label};
use crate::places::CaseNumbers;
use crate::plans::{Cases, Here, Plan, break_label, case_label, default_label};
use crate::values::{assignment, case_test};
use c_copies::{copy_expression, copy_option};
use c_tree::{Expression, Item, Section, Selector};
use c_types::{IntKind, List, Memory};
use flat_questions::{case_number, case_numbers, selector_source, switch_has_default, switch_kind};
use std::alloc::Global;

/// No scattered switch.
pub fn no_cases(alloc: Global) -> Cases
    ensures { result.bound ≡ false }
{
    Cases {
        bound: false,
        kind: IntKind::Int,
        first: 0,
        construct: 0,
        numbers: CaseNumbers::none(alloc),
    }
}

/// The cases of a scattered switch.
pub fn cases_of(
    alloc: Global,
    selector: &Selector,
    sections: &[Section],
    here: Here,
) -> Result<Cases, Memory>
    ensures bound { IfOk result (λ it. it.bound ≡ true) }
    ensures kind { IfOk result (λ it. it.kind ≡ the_switch_kind (selector_tree selector.now)) }
    ensures first { IfOk result (λ it. it.first ≡ here.case) }
    ensures construct { IfOk result (λ it. it.construct ≡ here.construct) }
    ensures numbers { IfOk result (λ it. it.numbers ≡ map (the_case_number (the_switch_kind (selector_tree selector.now))) (cases_among (switch_labels (sections_of sections.now)))) }
{
    let kind = switch_kind(selector);
    let numbers = CaseNumbers::new(alloc, case_numbers(alloc, kind, sections)?)?;
    Ok(Cases {
        bound: true,
        kind,
        first: here.case,
        construct: here.construct,
        numbers,
    })
}

fn label_of_number(plan: &Plan, cases: &Cases, number: Option<i128>) -> Result<u32, Memory>
    ensures { IfOk result (λ it. it ≡ number_label plan.now cases.now number) }
{
    let place = cases.numbers.place_of(number);
    case_label(plan, cases.first as usize + place as usize)
}

/// The label of a case.
fn label_of_case(plan: &Plan, cases: &Cases, case: &Expression) -> Result<u32, Memory>
    ensures { IfOk result (λ it. it ≡ case_names plan.now cases.now (Some (expression_tree case.now))) }
{
    label_of_number(plan, cases, case_number(cases.kind, case))
}

/// The label of a case or of the default.
fn label_of_option(plan: &Plan, cases: &Cases, case: &Option<Expression>) -> Result<u32, Memory>
    ensures { IfOk result (λ it. it ≡ case_names plan.now cases.now (option_map expression_tree case.now)) }
{
    match case {
        Some(e) => label_of_case(plan, cases, e),
        None => default_label(plan, cases.construct),
    }
}

/// A nested case label, or the label of its case, where it is bound to a scattered switch.
pub fn add_arrival(
    alloc: Global,
    plan: &Plan,
    cases: &Cases,
    case: &Option<Expression>,
    out: &mut List<Item>,
) -> Result<(), Memory>
    ensures { OnOk result (trees_of out.new ≡ join (trees_of out.old) (arrival (arrivals_of plan.now cases.now) (option_map expression_tree case.now))) }
{
    if cases.bound {
        let label = label_of_option(plan, cases, case)?;
        add_label(label, out)
    } else {
        let case = copy_option(alloc, case)?;
        add(out, Item::Arrival(case))
    }
}

/// The labels of a section of a scattered switch: of its cases, then of its default.
pub fn add_case_marks(
    plan: &Plan,
    cases: &Cases,
    given: &[Expression],
    default: bool,
    out: &mut List<Item>,
) -> Result<(), Memory>
    ensures { OnOk result (trees_of out.new ≡ join (trees_of out.old) (case_marks (case_names plan.now cases.now) (expression_trees given.now) default)) }
{
    for i in 0..given.len() {
        let label = label_of_case(plan, cases, &given[i])?;
        add_label(label, out)?;
    }
    if default {
        let label = default_label(plan, cases.construct)?;
        add_label(label, out)
    } else {
        Ok(())
    }
}

/// The test of a case, if it has a number.
fn add_test(
    alloc: Global,
    plan: &Plan,
    cases: &Cases,
    variable: u32,
    number: Option<i128>,
    out: &mut List<Item>,
) -> Result<(), Memory>
    ensures { OnOk result (trees_of out.new ≡ join (trees_of out.old) (number_test cases.now.kind variable (number_label plan.now cases.now) number)) }
{
    match number {
        Some(n) => {
            let label = label_of_number(plan, cases, Some(n))?;
            let test = case_test(alloc, cases.kind, variable, n, label)?;
            add(out, test)
        }
        None => Ok(()),
    }
}

/// The tests of the cases of a scattered switch that have these numbers, in text order.
fn add_tests(
    alloc: Global,
    plan: &Plan,
    cases: &Cases,
    numbers: &[Option<i128>],
    variable: u32,
    out: &mut List<Item>,
) -> Result<(), Memory>
    ensures { OnOk result (trees_of out.new ≡ join (trees_of out.old) (number_tests cases.now.kind variable (number_label plan.now cases.now) numbers.now)) }
{
    for i in 0..numbers.len() {
        add_test(alloc, plan, cases, variable, numbers[i], out)?;
    }
    Ok(())
}

fn add_otherwise(
    plan: &Plan,
    here: Here,
    sections: &[Section],
    out: &mut List<Item>,
) -> Result<(), Memory>
    ensures { OnOk result (trees_of out.new ≡ join (trees_of out.old) (one (Goto (the_otherwise_label (plan_of plan.now) (here_of here) (sections_of sections.now))))) }
{
    let label = if switch_has_default(sections) {
        default_label(plan, here.construct)?
    } else {
        break_label(plan, here.construct)?
    };
    add_goto(label, out)
}

/// The first items of a scattered switch: its variable gets the value of the selector, then come the
/// tests of its cases, and a goto for where none of them holds.
pub fn add_choice(
    alloc: Global,
    plan: &Plan,
    cases: &Cases,
    selector: &Selector,
    sections: &[Section],
    here: Here,
    out: &mut List<Item>,
) -> Result<(), Memory>
    ensures { OnOk result (trees_of out.new ≡ join (trees_of out.old) (Then (Evaluate (assign_number cases.now.kind here.variable (the_selector_source (selector_tree selector.now)))) (join (number_tests cases.now.kind here.variable (number_label plan.now cases.now) cases.now.numbers) (one (Goto (the_otherwise_label (plan_of plan.now) (here_of here) (sections_of sections.now))))))) }
{
    let source = copy_expression(alloc, selector_source(selector))?;
    let first = assignment(alloc, cases.kind, here.variable, source)?;
    add(out, first)?;
    add_tests(
        alloc,
        plan,
        cases,
        cases.numbers.as_slice(),
        here.variable,
        out,
    )?;
    add_otherwise(plan, here, sections, out)
}
