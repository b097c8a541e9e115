ghost use Rattle.std.specs.Prelude.{◌≡◌, true, cond, option_map, IfOk, OnOk};
ghost use Rattle.c_tree.specs.Changed.{one};
ghost use Rattle.c_tree.specs.ExpressionTrees.{expression_tree};
ghost use Rattle.c_tree.specs.Paths.{list_of};
ghost use Rattle.c_tree.specs.TestTrees.{test_tree, selector_tree};
ghost use Rattle.c_tree.specs.Trees.{If, While, Do, Switch, Goto, Break, Continue, NoSection, expression_trees, trees_of, sections_of, join};
ghost use Rattle.flat_laws.specs.Loose.{NoArrival};
ghost use Rattle.flat_laws.specs.Pieces.{Stays};
ghost use Rattle.flat_laws.specs.Parts.{is_scattered as the_is_scattered, past, past_item};
ghost use Rattle.flat_laws.specs.FlatForm.{mark_if, arrival, exit, first_here, flat, flat_item, flat_sections, if_breaks, spread};
ghost use Rattle.flat_questions.specs.Reading.{ending_as};
ghost use Rattle.flat_items.specs.Forms.{but_last, with_parts, entered_of, past_among, while_form, do_form, for_form, kept_form, scattered_form, section_before, part_form, local_form};
ghost use Rattle.flat_items.specs.Pieces.{behind};
ghost use Rattle.flat_items.specs.Plans.{aim_of, plan_of, here_of, arrivals_of, case_names};
ghost use Rattle.c_tree.specs.Views.{tree_at};

use crate::cases::{add_arrival, add_case_marks, add_choice, cases_of, no_cases};
use crate::exits::{ends_then, is_jumpy, is_jumpy_switch, loop_scope, scatter_aim, switch_aim};
use crate::pieces::{
    add_break, add_continue, add_copy, add_do, add_end, add_for, add_goto, add_if, add_initialised,
    add_label, add_mark, add_switch, add_while,
};
use crate::plans::{Aim, Cases, Here, Plan, Scope, entered, source_label};
use c_copies::copy_expressions;
use c_tree::{Expression, Item, Section, Selector, Test};
use c_types::{Boxed, List, Memory};
use flat_questions::{Ending, ends_by, is_flagged, is_scattered};
use std::alloc::Global;

/// A list of the flat form, and the numbers of what comes behind it.
#[derive(Drop)]
struct Written {
    items: List<Item>,
    here: Here,
}

/// The flat form of a list as a list of its own.
#[cycle(write)]
fn write_list(
    alloc: Global,
    plan: &Plan,
    scope: Scope,
    cases: &Cases,
    list: &List<Item>,
    here: Here,
) -> Result<Written, Memory>
    ensures place { IfOk result (λ it. here_of it.here ≡ past (trees_of list.now) (here_of here)) }
    ensures items { IfOk result (λ it. trees_of it.items ≡ flat (plan_of plan.now) (here_of here) (aim_of scope.breaks) (aim_of scope.continues) (arrivals_of plan.now cases.now) (trees_of list.now)) }
{
    let mut items = List::new(alloc);
    let here = write_items(alloc, plan, scope, cases, list.as_slice(), here, &mut items)?;
    Ok(Written { items, here })
}

/// The flat form of a list, behind the items that are there.
#[cycle(write)]
fn write_items(
    alloc: Global,
    plan: &Plan,
    scope: Scope,
    cases: &Cases,
    items: &[Item],
    here: Here,
    out: &mut List<Item>,
) -> Result<Here, Memory>
    ensures place { IfOk result (λ it. here_of it ≡ past (trees_of items.now) (here_of here)) }
    ensures items { OnOk result (trees_of out.new ≡ join (trees_of out.old) (flat (plan_of plan.now) (here_of here) (aim_of scope.breaks) (aim_of scope.continues) (arrivals_of plan.now cases.now) (trees_of items.now))) }
{
    let mut here = here;
    for i in 0..items.len() {
        here = write_item(alloc, plan, scope, cases, &items[i], here, out)?;
    }
    Ok(here)
}

/// An `if` of two lists.
fn join_if(
    alloc: Global,
    test: &Test,
    first: Written,
    second: Written,
    out: &mut List<Item>,
) -> Result<Here, Memory>
    ensures place { IfOk result (λ it. it ≡ second.here) }
    ensures items { OnOk result (trees_of out.new ≡ join (trees_of out.old) (one (If (test_tree test.now) (trees_of first.items) (trees_of second.items)))) }
{
    let after = second.here;
    add_if(alloc, test, first.items, second.items, out)?;
    Ok(after)
}

#[cycle(write)]
fn write_while(
    alloc: Global,
    plan: &Plan,
    cases: &Cases,
    a: &List<Item>,
    test: &Test,
    here: Here,
    out: &mut List<Item>,
) -> Result<Here, Memory>
    ensures place { IfOk result (λ it. here_of it ≡ past_item (While (test_tree test.now) (trees_of a.now)) (here_of here)) }
    ensures items { OnOk result (trees_of out.new ≡ join (trees_of out.old) (while_form (plan_of plan.now) (here_of here) (arrivals_of plan.now cases.now) (test_tree test.now) (trees_of a.now))) }
{
    let scope = loop_scope(plan, is_jumpy(plan, a), here.construct, a)?;
    let start = entered(here, 0, 0)?;
    let body = write_list(alloc, plan, scope, cases, a, start)?;
    let after = body.here;
    add_while(alloc, test, body.items, scope, out)?;
    Ok(after)
}

#[cycle(write)]
fn write_do(
    alloc: Global,
    plan: &Plan,
    cases: &Cases,
    a: &List<Item>,
    test: &Test,
    here: Here,
    out: &mut List<Item>,
) -> Result<Here, Memory>
    ensures place { IfOk result (λ it. here_of it ≡ past_item (Do (trees_of a.now) (test_tree test.now)) (here_of here)) }
    ensures items { OnOk result (trees_of out.new ≡ join (trees_of out.old) (do_form (plan_of plan.now) (here_of here) (arrivals_of plan.now cases.now) (test_tree test.now) (trees_of a.now))) }
{
    let scope = loop_scope(plan, is_jumpy(plan, a), here.construct, a)?;
    let start = entered(here, 0, 0)?;
    let body = write_list(alloc, plan, scope, cases, a, start)?;
    let after = body.here;
    add_do(alloc, test, body.items, scope, out)?;
    Ok(after)
}

/// The first part of a `for`, before it.
#[cycle(write)]
fn write_first(
    alloc: Global,
    plan: &Plan,
    scope: Scope,
    first: &List<Item>,
    here: Here,
    out: &mut List<Item>,
) -> Result<Here, Memory>
    ensures place { IfOk result (λ it. here_of it ≡ past (trees_of first.now) (entered_of (here_of here))) }
    ensures items { OnOk result (trees_of out.new ≡ join (trees_of out.old) (flat (plan_of plan.now) (entered_of (here_of here)) (aim_of scope.breaks) (aim_of scope.continues) NoArrival (trees_of first.now))) }
{
    let none = no_cases(alloc);
    let start = entered(here, 0, 0)?;
    write_items(alloc, plan, scope, &none, first.as_slice(), start, out)
}

/// A `for` without its first part, whose number among loops and switches this is.
#[cycle(write)]
fn write_for(
    alloc: Global,
    plan: &Plan,
    cases: &Cases,
    construct: u32,
    test: &Option<Boxed<Expression>>,
    third: &Option<Boxed<Expression>>,
    a: &List<Item>,
    here: Here,
    out: &mut List<Item>,
) -> Result<Here, Memory>
    ensures place { IfOk result (λ it. here_of it ≡ past (trees_of a.now) (here_of here)) }
    ensures items { OnOk result (trees_of out.new ≡ join (trees_of out.old) (for_form (plan_of plan.now) construct (here_of here) (arrivals_of plan.now cases.now) (option_map expression_tree test.now) (option_map expression_tree third.now) (trees_of a.now))) }
{
    let jumpy = is_jumpy(plan, a);
    let scope = loop_scope(plan, jumpy, construct, a)?;
    let body = write_list(alloc, plan, scope, cases, a, here)?;
    let after = body.here;
    add_for(alloc, jumpy, test, third, body.items, scope, out)?;
    Ok(after)
}

/// A switch that stays one.
#[cycle(write)]
fn write_kept(
    alloc: Global,
    plan: &Plan,
    continues: Aim,
    sections: &List<Section>,
    selector: &Selector,
    here: Here,
    out: &mut List<Item>,
) -> Result<Here, Memory>
    ensures place { IfOk result (λ it. here_of it ≡ past_among (sections_of sections.now) (entered_of (here_of here))) }
    ensures items { OnOk result (trees_of out.new ≡ join (trees_of out.old) (kept_form (plan_of plan.now) (here_of here) (aim_of continues) (selector_tree selector.now) (sections_of sections.now))) }
{
    let jumpy = is_jumpy_switch(plan, continues, sections);
    let parts = sections.as_slice();
    let breaks = switch_aim(plan, jumpy, here.construct, parts)?;
    let scope = Scope { breaks, continues };
    let start = entered(here, 0, 0)?;
    let made = write_sections(alloc, plan, scope, jumpy, parts, start)?;
    let after = made.here;
    add_switch(alloc, selector, made.sections, breaks, out)?;
    Ok(after)
}

/// Sections of the flat form, and the numbers of what comes behind them.
#[derive(Drop)]
struct WrittenSections {
    sections: List<Section>,
    here: Here,
}

#[cycle(write)]
fn write_sections(
    alloc: Global,
    plan: &Plan,
    scope: Scope,
    jumpy: bool,
    sections: &[Section],
    here: Here,
) -> Result<WrittenSections, Memory>
    ensures place { IfOk result (λ it. here_of it.here ≡ past_among (sections_of sections.now) (here_of here)) }
    ensures sections { IfOk result (λ it. sections_of it.sections ≡ flat_sections (plan_of plan.now) (here_of here) jumpy (aim_of scope.breaks) (aim_of scope.continues) (sections_of sections.now)) }
{
    let mut out = List::new(alloc);
    let mut here = here;
    for i in 0..sections.len() {
        here = write_section(alloc, plan, scope, jumpy, &sections[i], here, &mut out)?;
    }
    Ok(WrittenSections {
        sections: out,
        here,
    })
}

#[cycle(write)]
fn write_section(
    alloc: Global,
    plan: &Plan,
    scope: Scope,
    jumpy: bool,
    section: &Section,
    here: Here,
    out: &mut List<Section>,
) -> Result<Here, Memory>
    ensures place { IfOk result (λ it. here_of it ≡ past (trees_of (list_of section.now)) (here_of here)) }
    ensures sections { OnOk result (sections_of out.new ≡ behind (sections_of out.old) (section_before (plan_of plan.now) (here_of here) jumpy (aim_of scope.breaks) (aim_of scope.continues) section.now NoSection)) }
{
    let none = no_cases(alloc);
    let made = write_list(alloc, plan, scope, &none, &section.list, here)?;
    let after = made.here;
    let ending = ends_by(plan.named.as_slice(), &section.list);
    let list = without_break(alloc, ending, made.items);
    let ends = ends_then(jumpy, section.ends, ending);
    add_section(alloc, section, list, ends, out)?;
    Ok(after)
}

/// A list without its last item. An empty one takes no memory.
fn without_last(alloc: Global, list: List<Item>) -> List<Item>
    ensures { trees_of result ≡ but_last (trees_of list) }
{
    let mut list = list;
    drop(list.pop());
    if list.is_empty() {
        List::new(alloc)
    } else {
        list
    }
}

/// The flat form of a list that ended so, without the `break` that becomes the end of a section.
fn without_break(alloc: Global, ending: Ending, list: List<Item>) -> List<Item>
    ensures { trees_of result ≡ if_breaks (ending_as ending) (but_last (trees_of list)) (trees_of list) }
{
    match ending {
        Ending::Breaks => without_last(alloc, list),
        _ => list,
    }
}

/// Puts a section behind others that has the labels of another, this list and this end. Want of
/// memory is the only failure.
pub fn add_section(
    alloc: Global,
    section: &Section,
    list: List<Item>,
    ends: bool,
    out: &mut List<Section>,
) -> Result<(), Memory>
    ensures { OnOk result (sections_of out.new ≡ behind (sections_of out.old) (with_parts section.now (trees_of list) ends)) }
{
    let cases = copy_expressions(alloc, section.cases.as_slice())?;
    out.push(Section {
        cases,
        default: section.default,
        list,
        ends,
    })
}

/// A switch with a case label in a nested statement: items in its place.
#[cycle(write)]
fn write_scattered(
    alloc: Global,
    plan: &Plan,
    continues: Aim,
    sections: &List<Section>,
    selector: &Selector,
    here: Here,
    out: &mut List<Item>,
) -> Result<Here, Memory>
    requires { the_is_scattered (sections_of sections.now) ≡ true }
    ensures place { IfOk result (λ it. here_of it ≡ past_item (Switch (selector_tree selector.now) (sections_of sections.now)) (here_of here)) }
    ensures items { OnOk result (trees_of out.new ≡ join (trees_of out.old) (scattered_form (plan_of plan.now) (here_of here) (aim_of continues) (selector_tree selector.now) (sections_of sections.now))) }
{
    let parts = sections.as_slice();
    let cases = cases_of(alloc, selector, parts, here)?;
    let breaks = scatter_aim(plan, here, parts)?;
    let scope = Scope { breaks, continues };
    add_choice(alloc, plan, &cases, selector, parts, here, out)?;
    let count = cases.numbers.len();
    let start = entered(here, count, 1)?;
    write_spread(alloc, plan, scope, &cases, parts, start, out)
}

#[cycle(write)]
fn write_spread(
    alloc: Global,
    plan: &Plan,
    scope: Scope,
    cases: &Cases,
    sections: &[Section],
    here: Here,
    out: &mut List<Item>,
) -> Result<Here, Memory>
    requires { cases.now.bound ≡ true }
    ensures place { IfOk result (λ it. here_of it ≡ past_among (sections_of sections.now) (here_of here)) }
    ensures items { OnOk result (trees_of out.new ≡ join (trees_of out.old) (spread (plan_of plan.now) (here_of here) (aim_of scope.breaks) (aim_of scope.continues) (case_names plan.now cases.now) (sections_of sections.now))) }
{
    let mut here = here;
    for i in 0..sections.len() {
        here = write_part(alloc, plan, scope, cases, &sections[i], here, out)?;
    }
    add_mark(scope.breaks, out)?;
    Ok(here)
}

/// The list of a section of a scattered switch, behind its labels.
#[cycle(write)]
fn write_part(
    alloc: Global,
    plan: &Plan,
    scope: Scope,
    cases: &Cases,
    section: &Section,
    here: Here,
    out: &mut List<Item>,
) -> Result<Here, Memory>
    requires { cases.now.bound ≡ true }
    ensures place { IfOk result (λ it. here_of it ≡ past (trees_of (list_of section.now)) (here_of here)) }
    ensures items { OnOk result (trees_of out.new ≡ join (trees_of out.old) (part_form (plan_of plan.now) (here_of here) (aim_of scope.breaks) (aim_of scope.continues) (case_names plan.now cases.now) section.now)) }
{
    let given = section.cases.as_slice();
    add_case_marks(plan, cases, given, section.default, out)?;
    let list = section.list.as_slice();
    let here = write_items(alloc, plan, scope, cases, list, here, out)?;
    add_end(section.ends, scope.breaks, out)?;
    Ok(here)
}

fn write_goto(plan: &Plan, label: u32, here: Here, out: &mut List<Item>) -> Result<Here, Memory>
    ensures place { IfOk result (λ it. it ≡ here) }
    ensures items { OnOk result (trees_of out.new ≡ join (trees_of out.old) (one (Goto ((plan_of plan.now).source label)))) }
{
    let label = source_label(plan, label)?;
    add_goto(label, out)?;
    Ok(here)
}

fn write_label(plan: &Plan, label: u32, here: Here, out: &mut List<Item>) -> Result<Here, Memory>
    ensures place { IfOk result (λ it. it ≡ here) }
    ensures items { OnOk result (trees_of out.new ≡ join (trees_of out.old) (mark_if ((plan_of plan.now).live label) ((plan_of plan.now).source label))) }
{
    if is_flagged(plan.named.as_slice(), label) {
        let label = source_label(plan, label)?;
        add_label(label, out)?;
    }
    Ok(here)
}

fn write_local(
    alloc: Global,
    plan: &Plan,
    slot: u32,
    given: &Option<List<Expression>>,
    here: Here,
    out: &mut List<Item>,
) -> Result<Here, Memory>
    ensures place { IfOk result (λ it. it ≡ here) }
    ensures items { OnOk result (trees_of out.new ≡ join (trees_of out.old) (local_form (plan_of plan.now) slot (option_map expression_trees given.now))) }
{
    match given {
        Some(given) => {
            let given = copy_expressions(alloc, given.as_slice())?;
            add_initialised(alloc, plan.slots.as_slice(), slot, given, out)?;
            Ok(here)
        }
        None => Ok(here),
    }
}

fn write_exit(
    scope: Scope,
    continues: bool,
    here: Here,
    out: &mut List<Item>,
) -> Result<Here, Memory>
    ensures place { IfOk result (λ it. it ≡ here) }
    ensures items { OnOk result (trees_of out.new ≡ join (trees_of out.old) (cond continues (exit (aim_of scope.continues) Continue) (exit (aim_of scope.breaks) Break))) }
{
    if continues {
        add_continue(scope.continues, out)?;
    } else {
        add_break(scope.breaks, out)?;
    }
    Ok(here)
}

/// An item that stays as it is.
fn write_same(alloc: Global, item: &Item, here: Here, out: &mut List<Item>) -> Result<Here, Memory>
    ensures place { IfOk result (λ it. it ≡ here) }
    ensures items { OnOk result (trees_of out.new ≡ join (trees_of out.old) (one (tree_at item.now))) }
{
    add_copy(alloc, item, out)?;
    Ok(here)
}

fn write_arrival(
    alloc: Global,
    plan: &Plan,
    cases: &Cases,
    case: &Option<Expression>,
    here: Here,
    out: &mut List<Item>,
) -> Result<Here, Memory>
    ensures place { IfOk result (λ it. it ≡ here) }
    ensures items { OnOk result (trees_of out.new ≡ join (trees_of out.old) (arrival (arrivals_of plan.now cases.now) (option_map expression_tree case.now))) }
{
    add_arrival(alloc, plan, cases, case, out)?;
    Ok(here)
}

#[cycle(write)]
fn write_switch(
    alloc: Global,
    plan: &Plan,
    continues: Aim,
    sections: &List<Section>,
    selector: &Selector,
    here: Here,
    out: &mut List<Item>,
) -> Result<Here, Memory>
    ensures place { IfOk result (λ it. here_of it ≡ past_item (Switch (selector_tree selector.now) (sections_of sections.now)) (here_of here)) }
    ensures items { OnOk result (trees_of out.new ≡ join (trees_of out.old) (cond (the_is_scattered (sections_of sections.now)) (scattered_form (plan_of plan.now) (here_of here) (aim_of continues) (selector_tree selector.now) (sections_of sections.now)) (kept_form (plan_of plan.now) (here_of here) (aim_of continues) (selector_tree selector.now) (sections_of sections.now)))) }
{
    if is_scattered(sections.as_slice()) {
        write_scattered(alloc, plan, continues, sections, selector, here, out)
    } else {
        write_kept(alloc, plan, continues, sections, selector, here, out)
    }
}

/// What stands in the place of an item.
#[cycle(write)]
fn write_item(
    alloc: Global,
    plan: &Plan,
    scope: Scope,
    cases: &Cases,
    item: &Item,
    here: Here,
    out: &mut List<Item>,
) -> Result<Here, Memory>
    ensures place { IfOk result (λ it. here_of it ≡ past_item (tree_at item.now) (here_of here)) }
    ensures items { OnOk result (trees_of out.new ≡ join (trees_of out.old) (flat_item (plan_of plan.now) (here_of here) (aim_of scope.breaks) (aim_of scope.continues) (arrivals_of plan.now cases.now) (tree_at item.now))) }
{
    match item {
        Item::If(test, a, b) => {
            let first = write_list(alloc, plan, scope, cases, a, here)?;
            let second = write_list(alloc, plan, scope, cases, b, first.here)?;
            join_if(alloc, test, first, second, out)
        }
        Item::While(test, a) => write_while(alloc, plan, cases, a, test, here, out),
        Item::Do(a, test) => write_do(alloc, plan, cases, a, test, here, out),
        Item::For(first, test, third, a) => {
            let after = write_first(alloc, plan, scope, first, here, out)?;
            write_for(
                alloc,
                plan,
                cases,
                here.construct,
                test,
                third,
                a,
                after,
                out,
            )
        }
        Item::Switch(selector, sections) => {
            write_switch(alloc, plan, scope.continues, sections, selector, here, out)
        }
        Item::Block(a) => write_items(alloc, plan, scope, cases, a.as_slice(), here, out),
        Item::Local(slot, given) => write_local(alloc, plan, *slot, given, here, out),
        Item::Break => write_exit(scope, false, here, out),
        Item::Continue => write_exit(scope, true, here, out),
        Item::Goto(label) => write_goto(plan, *label, here, out),
        Item::Mark(label) => write_label(plan, *label, here, out),
        Item::Arrival(case) => write_arrival(alloc, plan, cases, case, here, out),
        _ => write_same(alloc, item, here, out),
    }
}

/// The flat form of a body whose variables are so many. Want of memory is the only failure.
pub fn write_body(
    alloc: Global,
    plan: &Plan,
    variables: u32,
    body: &List<Item>,
) -> Result<List<Item>, Memory>
    ensures { IfOk result (λ it. trees_of it ≡ flat (plan_of plan.now) (first_here variables) Stays Stays NoArrival (trees_of body.now)) }
{
    let none = no_cases(alloc);
    let scope = Scope {
        breaks: Aim::Stays,
        continues: Aim::Stays,
    };
    let here = Here {
        construct: 0,
        case: 0,
        variable: variables,
    };
    let made = write_list(alloc, plan, scope, &none, body, here)?;
    Ok(made.items)
}
