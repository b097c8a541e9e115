ghost use Rattle.std.specs.Prelude.{◌≡◌, ◌+◌, ◌*◌, true, IfOk, OnOk};
ghost use Rattle.c_tree.specs.Changed.{one};
ghost use Rattle.c_tree.specs.Everywhere.{total};
ghost use Rattle.c_tree.specs.Paths.{list_of};
ghost use Rattle.c_tree.specs.TestTrees.{test_tree, selector_tree};
ghost use Rattle.c_tree.specs.Trees.{While, Do, Switch, trees_of, sections_of, join};
ghost use Rattle.flat_laws.specs.Loose.{NoArrival};
ghost use Rattle.flat_laws.specs.Pieces.{Stays};
ghost use Rattle.flat_laws.specs.FlatForm.{first_here};
ghost use Rattle.lower_laws.specs.Lowered.{past, past_item, lowered, lowered_item, lowered_among, variables_of};
ghost use Rattle.lower_laws.specs.Straight.{jump_if};
ghost use Rattle.lower_items.specs.Forms.{past_among, then_part, part_form};
ghost use Rattle.lower_items.specs.Loops.{frame_of, framed};
ghost use Rattle.lower_items.specs.Pieces.{written};
ghost use Rattle.flat_items.specs.Plans.{aim_of, here_of};
ghost use Rattle.lower_items.specs.Plans.{layout_of, entered_at, arrivals_of, case_names};
ghost use Rattle.c_tree.specs.Views.{tree_at};

use crate::cases::{add_case_marks, add_choice, no_cases};
use crate::jumps::jump_of;
use crate::loops::{Loop, add_test, close_loop, do_loop, for_loop, while_loop};
use crate::pieces::add_all;
use crate::plans::{Cases, Inside, Plan, entered, source_label};
use crate::simple::write_simple;
use crate::written::{Written, add_then, in_one, nothing, start_then};
use c_tree::{Item, Section, Selector, Test};
use c_types::{List, Memory};
use flat_items::{Aim, Here, Scope, add, add_end, add_label, add_mark, jump};
use std::alloc::Global;

/// The flat list of a list, behind what is there.
#[cycle(write)]
fn write_list(
    alloc: Global,
    plan: &Plan,
    scope: Scope,
    cases: &Cases,
    list: List<Item>,
    here: Here,
    out: &mut Written,
) -> Result<Here, Memory>
    ensures place { IfOk result (λ it. here_of it ≡ past (trees_of list) (here_of here)) }
    ensures items { OnOk result (written out.new ≡ join (written out.old) (lowered (layout_of plan.now) (here_of here) (aim_of scope.breaks) (aim_of scope.continues) (arrivals_of cases.now) (trees_of list))) }
{
    let mut here = here;
    for item in list.into_vec() {
        here = write_item(alloc, plan, scope, cases, item, here, out)?;
    }
    Ok(here)
}

/// An `if` that stays.
fn write_jump(
    alloc: Global,
    test: Test,
    label: u32,
    here: Here,
    out: &mut List<Item>,
) -> Result<Here, Memory>
    ensures place { IfOk result (λ it. here_of it ≡ entered_at (here_of here) 0 0) }
    ensures items { OnOk result (trees_of out.new ≡ join (trees_of out.old) (one (jump_if (test_tree test) (7 * label)))) }
{
    match source_label(label) {
        Ok(label) => {
            add(out, jump(alloc, test, label)?)?;
            Ok(entered(here, 0, 0)?.start)
        }
        Err(e) => {
            drop(test);
            Err(e)
        }
    }
}

/// The then-list of an `if` without an else-list, between its labels.
#[cycle(write)]
fn write_then(
    alloc: Global,
    plan: &Plan,
    scope: Scope,
    cases: &Cases,
    a: List<Item>,
    opened: Inside,
    out: &mut Written,
) -> Result<Here, Memory>
    ensures place { IfOk result (λ it. here_of it ≡ past (trees_of a) (here_of opened.start)) }
    ensures items { OnOk result (written out.new ≡ join (written out.old) (then_part opened.labels (lowered (layout_of plan.now) (here_of opened.start) (aim_of scope.breaks) (aim_of scope.continues) (arrivals_of cases.now) (trees_of a)))) }
{
    start_then(opened.labels, out)?;
    let after = write_list(alloc, plan, scope, cases, a, opened.start, out)?;
    add_label(opened.labels.behind, &mut out.last)?;
    Ok(after)
}

/// A loop with this list.
#[cycle(write)]
fn write_loop(
    alloc: Global,
    plan: &Plan,
    cases: &Cases,
    a: List<Item>,
    made: Loop,
    here: Here,
    out: &mut Written,
) -> Result<Here, Memory>
    ensures place { IfOk result (λ it. here_of it ≡ past (trees_of a) (here_of here)) }
    ensures items { OnOk result (written out.new ≡ join (written out.old) (framed (frame_of made) (lowered (layout_of plan.now) (here_of here) (frame_of made).breaks (frame_of made).continues (arrivals_of cases.now) (trees_of a)))) }
{
    let Loop {
        opening,
        next,
        closing,
        scope,
        start: _,
    } = made;
    add_all(opening, &mut out.last)?;
    let after = write_list(alloc, plan, scope, cases, a, here, out)?;
    close_loop(next, closing, scope.breaks, &mut out.last)?;
    Ok(after)
}

#[cycle(write)]
fn write_while(
    alloc: Global,
    plan: &Plan,
    cases: &Cases,
    a: List<Item>,
    test: Test,
    here: Here,
    out: &mut Written,
) -> Result<Here, Memory>
    ensures place { IfOk result (λ it. here_of it ≡ past_item (While (test_tree test) (trees_of a)) (here_of here)) }
    ensures items { OnOk result (written out.new ≡ join (written out.old) (lowered_item (layout_of plan.now) (here_of here) Stays Stays (arrivals_of cases.now) (While (test_tree test) (trees_of a)))) }
{
    let made = while_loop(alloc, test, here)?;
    let start = made.start;
    write_loop(alloc, plan, cases, a, made, start, out)
}

#[cycle(write)]
fn write_do(
    alloc: Global,
    plan: &Plan,
    cases: &Cases,
    a: List<Item>,
    test: Test,
    here: Here,
    out: &mut Written,
) -> Result<Here, Memory>
    ensures place { IfOk result (λ it. here_of it ≡ past_item (Do (trees_of a) (test_tree test)) (here_of here)) }
    ensures items { OnOk result (written out.new ≡ join (written out.old) (lowered_item (layout_of plan.now) (here_of here) Stays Stays (arrivals_of cases.now) (Do (trees_of a) (test_tree test)))) }
{
    let made = do_loop(alloc, &a, test, here)?;
    let start = made.start;
    write_loop(alloc, plan, cases, a, made, start, out)
}

#[cycle(write)]
fn write_switch(
    alloc: Global,
    plan: &Plan,
    continues: Aim,
    sections: List<Section>,
    selector: Selector,
    here: Here,
    out: &mut Written,
) -> Result<Here, Memory>
    ensures place { IfOk result (λ it. here_of it ≡ past_item (Switch (selector_tree selector) (sections_of sections)) (here_of here)) }
    ensures items { OnOk result (written out.new ≡ join (written out.old) (lowered_item (layout_of plan.now) (here_of here) Stays (aim_of continues) NoArrival (Switch (selector_tree selector) (sections_of sections)))) }
{
    let chosen = add_choice(alloc, selector, sections.as_slice(), here, &mut out.last)?;
    let scope = Scope {
        breaks: chosen.breaks,
        continues,
    };
    let start = chosen.start;
    write_sections(alloc, plan, scope, &chosen.cases, sections, start, out)
}

/// The lists of a switch, each behind its labels.
#[cycle(write)]
fn write_sections(
    alloc: Global,
    plan: &Plan,
    scope: Scope,
    cases: &Cases,
    sections: List<Section>,
    here: Here,
    out: &mut Written,
) -> Result<Here, Memory>
    requires { cases.now.bound ≡ true }
    ensures place { IfOk result (λ it. here_of it ≡ past_among (sections_of sections) (here_of here)) }
    ensures items { OnOk result (written out.new ≡ join (written out.old) (lowered_among (layout_of plan.now) (here_of here) (aim_of scope.breaks) (aim_of scope.continues) (case_names cases.now) (sections_of sections))) }
{
    let mut here = here;
    for section in sections.into_vec() {
        here = write_section(alloc, plan, scope, cases, section, here, out)?;
    }
    add_mark(scope.breaks, &mut out.last)?;
    Ok(here)
}

#[cycle(write)]
fn write_section(
    alloc: Global,
    plan: &Plan,
    scope: Scope,
    cases: &Cases,
    section: Section,
    here: Here,
    out: &mut Written,
) -> Result<Here, Memory>
    requires { cases.now.bound ≡ true }
    ensures place { IfOk result (λ it. here_of it ≡ past (trees_of (list_of section)) (here_of here)) }
    ensures items { OnOk result (written out.new ≡ join (written out.old) (part_form (layout_of plan.now) (here_of here) (aim_of scope.breaks) (aim_of scope.continues) (case_names cases.now) section)) }
{
    let Section {
        cases: given,
        default,
        list,
        ends,
    } = section;
    add_case_marks(cases, given.as_slice(), default, &mut out.last)?;
    let after = write_list(alloc, plan, scope, cases, list, here, out)?;
    add_end(ends, scope.breaks, &mut out.last)?;
    Ok(after)
}

/// What stands in the place of an item.
#[cycle(write)]
fn write_item(
    alloc: Global,
    plan: &Plan,
    scope: Scope,
    cases: &Cases,
    item: Item,
    here: Here,
    out: &mut Written,
) -> Result<Here, Memory>
    ensures place { IfOk result (λ it. here_of it ≡ past_item (tree_at item) (here_of here)) }
    ensures items { OnOk result (written out.new ≡ join (written out.old) (lowered_item (layout_of plan.now) (here_of here) (aim_of scope.breaks) (aim_of scope.continues) (arrivals_of cases.now) (tree_at item))) }
{
    match item {
        Item::If(test, a, b) => match jump_of(plan.named.as_slice(), &a, &b) {
            Some(label) => write_jump(alloc, test, label, here, &mut out.last),
            None => {
                let opened = add_test(alloc, test, here, &mut out.last)?;
                if b.is_empty() {
                    write_then(alloc, plan, scope, cases, a, opened, out)
                } else {
                    // it is numbered first, and stands last
                    let mut then = nothing(alloc);
                    let behind = write_list(alloc, plan, scope, cases, a, opened.start, &mut then)?;
                    let after = write_list(alloc, plan, scope, cases, b, behind, out)?;
                    add_then(then, opened.labels, out)?;
                    Ok(after)
                }
            }
        },
        Item::While(test, a) => write_while(alloc, plan, cases, a, test, here, out),
        Item::Do(a, test) => write_do(alloc, plan, cases, a, test, here, out),
        Item::For(first, test, third, a) => {
            let made = for_loop(alloc, test, third, &a, here)?;
            let none = no_cases(alloc);
            let start = write_list(alloc, plan, scope, &none, first, made.start, out)?;
            write_loop(alloc, plan, cases, a, made, start, out)
        }
        Item::Switch(selector, sections) => {
            write_switch(alloc, plan, scope.continues, sections, selector, here, out)
        }
        Item::Block(a) => write_list(alloc, plan, scope, cases, a, here, out),
        other => write_simple(alloc, plan, scope, cases, other, here, &mut out.last),
    }
}

/// A flat list of a body, and how many variables there are with those of its switches.
#[derive(Drop)]
pub struct Lowered {
    pub items: List<Item>,
    pub variables: u32,
}

/// The flat list of a body of a function with so many variables, where each label has a code of its own.
/// Want of memory is the only failure; a code past `u32` counts as that.
pub fn lower_list(
    alloc: Global,
    plan: &Plan,
    variables: u32,
    body: List<Item>,
) -> Result<Lowered, Memory>
    ensures items { IfOk result (λ it. trees_of it.items ≡ lowered (layout_of plan.now) (first_here variables) Stays Stays NoArrival (trees_of body)) }
    ensures variables { IfOk result (λ it. it.variables ≡ variables + total variables_of (trees_of body)) }
{
    let none = no_cases(alloc);
    let scope = Scope {
        breaks: Aim::Stays,
        continues: Aim::Stays,
    };
    let here = Here {
        construct: 0,
        case: 0,
        variable: variables,
    };
    let mut out = nothing(alloc);
    let after = write_list(alloc, plan, scope, &none, body, here, &mut out)?;
    let items = in_one(alloc, out)?;
    Ok(Lowered {
        items,
        variables: after.variable,
    })
}
