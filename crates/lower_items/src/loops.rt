ghost use Rattle.std.specs.Prelude.{◌≡◌, ◌+◌, ◌*◌, true, false, cond, option_map, is_some, IfOk, OnOk};
ghost use Rattle.c_tree.specs.Changed.{one};
ghost use Rattle.c_tree.specs.Exits.{breaks, continues};
ghost use Rattle.c_tree.specs.ExpressionTrees.{expression_tree};
ghost use Rattle.c_tree.specs.TestTrees.{test_tree};
ghost use Rattle.c_tree.specs.Trees.{Then, Goto, Mark, trees_of, join};
ghost use Rattle.flat_laws.specs.Pieces.{Becomes, mark_of, third_items as the_third_items};
ghost use Rattle.flat_laws.specs.FlatForm.{aim as the_aim};
ghost use Rattle.lower_laws.specs.Straight.{jump_if};
ghost use Rattle.lower_items.specs.Loops.{frame_of, tested as the_tested, for_start, while_frame, do_frame, for_frame};
ghost use Rattle.flat_items.specs.Plans.{aim_of, here_of};
ghost use Rattle.lower_items.specs.Plans.{labels_at, entered_at};
ghost use Rattle.c_tree.specs.Views.{tree_at};

use crate::pieces::add_all;
use crate::plans::{Inside, Labels, entered};
use c_tree::{Expression, Item, Test};
use c_types::{Boxed, List, Memory};
use flat_items::{Aim, Here, Scope, add, add_goto, add_label, add_mark, jump};
use flat_questions::{has_break, has_continue};
use std::alloc::Global;

/// A loop: what stands around its list, what its exits become, and the numbers inside it.
#[derive(Drop)]
pub struct Loop {
    /// The items before the list.
    pub opening: List<Item>,
    /// The label right behind the list, if a goto leads there.
    pub next: Aim,
    /// The items behind that.
    pub closing: List<Item>,
    pub scope: Scope,
    pub start: Here,
}

fn alone(alloc: Global, item: Item) -> Result<List<Item>, Memory>
    ensures { IfOk result (λ it. trees_of it ≡ one (tree_at item)) }
{
    let mut out = List::new(alloc);
    add(&mut out, item)?;
    Ok(out)
}

/// The test of an `if`, which leads to its then-list.
pub fn add_test(
    alloc: Global,
    test: Test,
    here: Here,
    out: &mut List<Item>,
) -> Result<Inside, Memory>
    ensures labels { IfOk result (λ it. it.labels ≡ labels_at here.construct) }
    ensures start { IfOk result (λ it. here_of it.start ≡ entered_at (here_of here) 0 0) }
    ensures items { OnOk result (trees_of out.new ≡ join (trees_of out.old) (one (jump_if (test_tree test) (7 * here.construct + 6)))) }
{
    match entered(here, 0, 0) {
        Ok(entered) => {
            add(out, jump(alloc, test, entered.labels.list)?)?;
            Ok(entered)
        }
        Err(e) => {
            drop(test);
            Err(e)
        }
    }
}

/// What `break` becomes in a loop behind which a label stands only if a goto leads there.
fn break_aim(labels: Labels, a: &List<Item>) -> Aim
    ensures { aim_of result ≡ the_aim true (breaks (trees_of a.now)) labels.behind }
{
    if has_break(a) {
        Aim::Becomes(labels.behind)
    } else {
        Aim::Absent
    }
}

/// What `continue` becomes in a loop in which it does not lead to the start.
fn continue_aim(labels: Labels, a: &List<Item>) -> Aim
    ensures { aim_of result ≡ the_aim true (continues (trees_of a.now)) labels.next }
{
    if has_continue(a) {
        Aim::Becomes(labels.next)
    } else {
        Aim::Absent
    }
}

/// The items before the list of a loop that tests first.
fn tested(alloc: Global, test: Test, labels: Labels) -> Result<List<Item>, Memory>
    ensures { IfOk result (λ it. trees_of it ≡ Then (Mark labels.head) (Then (jump_if (test_tree test) labels.list) (Then (Goto labels.behind) (one (Mark labels.list))))) }
{
    let jump = jump(alloc, test, labels.list)?;
    match alone(alloc, Item::Mark(labels.head)) {
        Ok(mut out) => {
            add(&mut out, jump)?;
            add_goto(labels.behind, &mut out)?;
            add_label(labels.list, &mut out)?;
            Ok(out)
        }
        Err(e) => {
            drop(jump);
            Err(e)
        }
    }
}

/// The start of a loop, which its list comes behind.
#[derive(Drop)]
struct Head {
    items: List<Item>,
    /// Whether it tests first.
    tests: bool,
    entered: Inside,
}

fn tested_head(alloc: Global, test: Test, here: Here) -> Result<Head, Memory>
    ensures items { IfOk result (λ it. trees_of it.items ≡ the_tested here.construct (test_tree test)) }
    ensures tests { IfOk result (λ it. it.tests ≡ true) }
    ensures labels { IfOk result (λ it. it.entered.labels ≡ labels_at here.construct) }
    ensures start { IfOk result (λ it. here_of it.entered.start ≡ entered_at (here_of here) 0 0) }
{
    match entered(here, 0, 0) {
        Ok(entered) => {
            let items = tested(alloc, test, entered.labels)?;
            Ok(Head {
                items,
                tests: true,
                entered,
            })
        }
        Err(e) => {
            drop(test);
            Err(e)
        }
    }
}

fn endless_head(alloc: Global, here: Here) -> Result<Head, Memory>
    ensures items { IfOk result (λ it. trees_of it.items ≡ one (Mark (7 * here.construct + 5))) }
    ensures tests { IfOk result (λ it. it.tests ≡ false) }
    ensures labels { IfOk result (λ it. it.entered.labels ≡ labels_at here.construct) }
    ensures start { IfOk result (λ it. here_of it.entered.start ≡ entered_at (here_of here) 0 0) }
{
    let entered = entered(here, 0, 0)?;
    let items = alone(alloc, Item::Mark(entered.labels.head))?;
    Ok(Head {
        items,
        tests: false,
        entered,
    })
}

fn for_head(alloc: Global, test: Option<Boxed<Expression>>, here: Here) -> Result<Head, Memory>
    ensures items { IfOk result (λ it. trees_of it.items ≡ for_start here.construct (option_map expression_tree test)) }
    ensures tests { IfOk result (λ it. it.tests ≡ is_some test) }
    ensures labels { IfOk result (λ it. it.entered.labels ≡ labels_at here.construct) }
    ensures start { IfOk result (λ it. here_of it.entered.start ≡ entered_at (here_of here) 0 0) }
{
    match test {
        Some(e) => tested_head(alloc, Test::Source(e.into_inner()), here),
        None => endless_head(alloc, here),
    }
}

/// A `while`: its `continue` leads to its test.
pub fn while_loop(alloc: Global, test: Test, here: Here) -> Result<Loop, Memory>
    ensures frame { IfOk result (λ it. frame_of it ≡ while_frame here.construct (test_tree test)) }
    ensures start { IfOk result (λ it. here_of it.start ≡ entered_at (here_of here) 0 0) }
{
    let head = tested_head(alloc, test, here)?;
    let Inside { labels, start } = head.entered;
    let closing = alone(alloc, Item::Goto(labels.head))?;
    Ok(Loop {
        opening: head.items,
        next: Aim::Absent,
        closing,
        scope: Scope {
            breaks: Aim::Becomes(labels.behind),
            continues: Aim::Becomes(labels.head),
        },
        start,
    })
}

/// A `do` with this list: its `continue` leads to its test.
pub fn do_loop(alloc: Global, a: &List<Item>, test: Test, here: Here) -> Result<Loop, Memory>
    ensures frame { IfOk result (λ it. frame_of it ≡ do_frame here.construct (trees_of a.now) (test_tree test)) }
    ensures start { IfOk result (λ it. here_of it.start ≡ entered_at (here_of here) 0 0) }
{
    match entered(here, 0, 0) {
        Ok(entered) => {
            let Inside { labels, start } = entered;
            let closing = alone(alloc, jump(alloc, test, labels.list)?)?;
            let opening = alone(alloc, Item::Mark(labels.list))?;
            let continues = continue_aim(labels, a);
            Ok(Loop {
                opening,
                next: continues,
                closing,
                scope: Scope {
                    breaks: break_aim(labels, a),
                    continues,
                },
                start,
            })
        }
        Err(e) => {
            drop(test);
            Err(e)
        }
    }
}

fn third_items(alloc: Global, third: Option<Boxed<Expression>>) -> Result<List<Item>, Memory>
    ensures { IfOk result (λ it. trees_of it ≡ the_third_items (option_map expression_tree third)) }
{
    match third {
        Some(e) => alone(alloc, Item::Evaluate(e.into_inner())),
        None => Ok(List::new(alloc)),
    }
}

/// What `break` becomes in a `for`: behind one that tests a label stands anyway.
fn for_aim(tests: bool, labels: Labels, a: &List<Item>) -> Aim
    ensures { aim_of result ≡ cond tests (Becomes labels.behind) (the_aim true (breaks (trees_of a.now)) labels.behind) }
{
    if tests {
        Aim::Becomes(labels.behind)
    } else {
        break_aim(labels, a)
    }
}

/// A `for` with this list, behind its first part: its `continue` leads to its third part.
pub fn for_loop(
    alloc: Global,
    test: Option<Boxed<Expression>>,
    third: Option<Boxed<Expression>>,
    a: &List<Item>,
    here: Here,
) -> Result<Loop, Memory>
    ensures frame { IfOk result (λ it. frame_of it ≡ for_frame here.construct (option_map expression_tree test) (option_map expression_tree third) (trees_of a.now)) }
    ensures start { IfOk result (λ it. here_of it.start ≡ entered_at (here_of here) 0 0) }
{
    let third = third_items(alloc, third);
    let head = for_head(alloc, test, here)?;
    let mut closing = third?;
    let Inside { labels, start } = head.entered;
    add_goto(labels.head, &mut closing)?;
    let continues = continue_aim(labels, a);
    Ok(Loop {
        opening: head.items,
        next: continues,
        closing,
        scope: Scope {
            breaks: for_aim(head.tests, labels, a),
            continues,
        },
        start,
    })
}

/// What stands behind the list of a loop.
pub fn close_loop(
    next: Aim,
    closing: List<Item>,
    breaks: Aim,
    out: &mut List<Item>,
) -> Result<(), Memory>
    ensures { OnOk result (trees_of out.new ≡ join (trees_of out.old) (join (mark_of (aim_of next)) (join (trees_of closing) (mark_of (aim_of breaks))))) }
{
    add_mark(next, out)?;
    add_all(closing, out)?;
    add_mark(breaks, out)
}
