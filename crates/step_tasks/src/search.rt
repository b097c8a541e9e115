ghost use Rattle.std.specs.Prelude.{◌≡◌, IsFalse, IfOk};
ghost use Rattle.std.specs.List.{list_any};
ghost use Rattle.c_tree.specs.ExpressionTrees.{expression_tree};
ghost use Rattle.c_tree.specs.Trees.{expression_trees, tree_of, trees_of, section_tree, sections_of};
ghost use Rattle.jump_meaning.specs.Search.{ToCase, ToDefault, is_case as the_case, is_goal as the_goal, is_section_goal as the_section, seek as the_seek, seek_in as the_seek_in, seek_sections as the_seek_sections};
ghost use Rattle.jump_meaning.specs.Tasks.{items, end_of};
ghost use Rattle.step_tasks.specs.Controls.{goal_of, HasNoLabel, Sought};
ghost use Rattle.step_tasks.specs.Tasks.{tasks_of, work_of};

use crate::work::{Stage, Task, Tasks, Work};
use c_constants::constant_value;
use c_tree::{Expression, Item, Section};
use c_types::{IntKind, Memory, convert};

/// What is sought in a switch: a case or the default.
#[derive(Clone, Copy)]
pub enum Goal {
    Case(IntKind, i128),
    Default,
}

/// Whether the case has the number.
fn is_case(kind: IntKind, number: &i128, case: &Expression) -> bool
    ensures { result ≡ the_case kind number.now (expression_tree case.now) }
{
    match constant_value(case) {
        Some(value) => *number == convert(kind, value),
        None => false,
    }
}

/// Whether an item is the nested case of the number.
fn is_arrival(kind: IntKind, number: &i128, item: &Item) -> bool
    ensures { result ≡ the_goal (ToCase kind number.now) (tree_of item.now) }
{
    match item {
        Item::Arrival(case) => match case {
            Some(case) => is_case(kind, number, case),
            None => false,
        },
        _ => false,
    }
}

/// Whether an item is a nested `default`.
fn is_default(item: &Item) -> bool
    ensures { result ≡ the_goal ToDefault (tree_of item.now) }
{
    match item {
        Item::Arrival(case) => match case {
            Some(_) => false,
            None => true,
        },
        _ => false,
    }
}

/// Whether an item is the label that is sought.
fn is_goal(goal: &Goal, item: &Item) -> bool
    ensures { result ≡ the_goal (goal_of goal.now) (tree_of item.now) }
{
    match goal {
        Goal::Case(kind, number) => is_arrival(*kind, number, item),
        Goal::Default => is_default(item),
    }
}

fn has_case(kind: IntKind, number: &i128, cases: &[Expression]) -> bool
    ensures { result ≡ list_any (the_case kind number.now) (expression_trees cases.now) }
{
    for case in cases {
        if is_case(kind, number, case) {
            return true;
        }
    }
    false
}

/// Whether a section has the label that is sought.
fn is_section_goal(goal: &Goal, section: &Section) -> bool
    ensures { result ≡ (let s = section_tree section.now in the_section (goal_of goal.now) s.cases s.default) }
{
    match goal {
        Goal::Case(kind, number) => has_case(*kind, number, section.cases.as_slice()),
        Goal::Default => section.default,
    }
}

/// Puts the tasks from the label in a list on before this work and the other tasks, if it stands
/// there.
#[cycle(search)]
fn seek_before<'a>(
    tasks: &mut Tasks<'a>,
    goal: &Goal,
    list: &'a [Item],
    work: Work<'a>,
) -> Result<bool, Memory>
    ensures ok { IfOk result (λ b. Sought b (the_seek (goal_of goal.now) (trees_of list.now) (work_of work.entry (tasks_of tasks.old))) tasks.old tasks.new) }
{
    tasks.push(work)?;
    if seek(tasks, goal, list)? {
        return Ok(true);
    }
    tasks.pop();
    Ok(false)
}

/// Puts the tasks from the label in an item on before the others, if it stands there.
#[cycle(search)]
fn seek_in<'a>(tasks: &mut Tasks<'a>, goal: &Goal, item: &'a Item) -> Result<bool, Memory>
    ensures ok { IfOk result (λ b. Sought b (the_seek_in (goal_of goal.now) (tree_of item.now) (tasks_of tasks.old)) tasks.old tasks.new) }
{
    match item {
        Item::If(_, a, b) => {
            if seek(tasks, goal, a.as_slice())? {
                return Ok(true);
            }
            seek(tasks, goal, b.as_slice())
        }
        Item::While(_, a) => {
            let work = Work::One(Task::Of(Stage::Loop, item));
            seek_before(tasks, goal, a.as_slice(), work)
        }
        Item::Do(a, _) => {
            let work = Work::One(Task::Of(Stage::Loop, item));
            seek_before(tasks, goal, a.as_slice(), work)
        }
        Item::For(_, _, _, a) => {
            let work = Work::One(Task::Of(Stage::Loop, item));
            seek_before(tasks, goal, a.as_slice(), work)
        }
        Item::Switch(_, _) => Ok(false),
        Item::Block(a) => seek(tasks, goal, a.as_slice()),
        _ => Ok(false),
    }
}

/// Whether an item has lists; in one without lists no label stands.
pub fn has_lists(item: &Item) -> bool
    ensures { IsFalse result → HasNoLabel (tree_of item.now) }
{
    match item {
        Item::If(_, _, _) => true,
        Item::While(_, _) => true,
        Item::Do(_, _) => true,
        Item::For(_, _, _, _) => true,
        Item::Switch(_, _) => true,
        Item::Block(_) => true,
        _ => false,
    }
}

/// Puts the tasks from the label in the lists of an item on before the others, if it stands there. These items stand
/// behind the item.
#[cycle(search)]
fn seek_inside<'a>(
    tasks: &mut Tasks<'a>,
    goal: &Goal,
    item: &'a Item,
    behind: &'a [Item],
) -> Result<bool, Memory>
    ensures ok { IfOk result (λ b. Sought b (the_seek_in (goal_of goal.now) (tree_of item.now) (items (trees_of behind.now) (tasks_of tasks.old))) tasks.old tasks.new) }
{
    if !has_lists(item) {
        return Ok(false);
    }
    tasks.push(Work::Items(behind))?;
    if seek_in(tasks, goal, item)? {
        return Ok(true);
    }
    tasks.pop();
    Ok(false)
}

/// Puts the tasks from the label in a list on before the others, if it stands there.
#[cycle(search)]
fn seek<'a>(tasks: &mut Tasks<'a>, goal: &Goal, list: &'a [Item]) -> Result<bool, Memory>
    ensures ok { IfOk result (λ b. Sought b (the_seek (goal_of goal.now) (trees_of list.now) (tasks_of tasks.old)) tasks.old tasks.new) }
{
    for at in 0..list.len() {
        let item = &list[at];
        if is_goal(goal, item) {
            tasks.push(Work::Items(&list[at..]))?;
            return Ok(true);
        }
        if seek_inside(tasks, goal, item, &list[at + 1..])? {
            return Ok(true);
        }
    }
    Ok(false)
}

/// Puts the tasks from the label in the sections of a switch on before the others, if it stands there.
pub fn seek_sections<'a>(
    tasks: &mut Tasks<'a>,
    goal: &Goal,
    sections: &'a [Section],
) -> Result<bool, Memory>
    ensures ok { IfOk result (λ b. Sought b (the_seek_sections (goal_of goal.now) (sections_of sections.now) (tasks_of tasks.old)) tasks.old tasks.new) }
{
    for at in 0..sections.len() {
        let section = &sections[at];
        if is_section_goal(goal, section) {
            tasks.push(Work::Tail(&sections[at..]))?;
            return Ok(true);
        }
        tasks.push(Work::Tail(&sections[at + 1..]))?;
        if seek_section(tasks, goal, section)? {
            return Ok(true);
        }
        tasks.pop();
    }
    Ok(false)
}

/// Puts the tasks from the label in the list of one section on before the others, if it stands there. The section's end
/// stands behind the list.
fn seek_section<'a>(
    tasks: &mut Tasks<'a>,
    goal: &Goal,
    section: &'a Section,
) -> Result<bool, Memory>
    ensures ok { IfOk result (λ b. Sought b (let s = section_tree section.now in the_seek (goal_of goal.now) s.list (end_of s.ends (tasks_of tasks.old))) tasks.old tasks.new) }
{
    let list = section.list.as_slice();
    if section.ends {
        seek_before(tasks, goal, list, Work::One(Task::EndSection))
    } else {
        seek(tasks, goal, list)
    }
}
