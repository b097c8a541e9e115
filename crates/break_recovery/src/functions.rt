ghost use Rattle.std.specs.Prelude.{◌≡◌, ◌+◌, ◌<◌, ℕ, suc, [], false, true, length, replicate, reverse, slice_set, option_map, Some, None, IfOk, OnOk};
ghost use Rattle.c_tree.specs.Trees.{trees_of};
ghost use Rattle.jump_meaning.specs.Code.{FunctionTree, function_tree};
ghost use Rattle.tidy_loops.specs.Slots.{count_in, Tells};
ghost use Rattle.break_recovery.specs.Ways.{LeadsOn, IsAhead};
ghost use Rattle.tidy_laws.specs.Renamed.{renamed_list};
ghost use Rattle.tidy_slots.specs.Numbers.{number};
ghost use Rattle.break_recovery.specs.Places.{behind, AreQuiet, AreQuietBut};
ghost use Rattle.break_recovery.specs.Ways.{first_item};
ghost use Rattle.break_recovery.specs.Fronts.{holds_none as the_holds_none, DeclaresFirst, all_marked, all_undeclared};
ghost use Rattle.break_recovery.specs.Starts.{IsStart};
ghost use Rattle.break_recovery.specs.Underway.{Underway};
ghost use Rattle.break_recovery.specs.Ends.{with_body, IsBodyChanged, WentOn, WentOnBy, AreMade, IsNumbered, IsFunctionTidied, TopTidied, AreTidied};
ghost use Rattle.break_recovery.specs.Within.{AreApart};

use crate::boxes::{boxed, unboxed, undeclare};
use crate::fronts::{declares_first, holds_none};
use crate::held::{Holds, no_holds};
use crate::places::{Start, behind_change, change_from, keep_way};
use crate::rest::change_on_in;
use crate::search::was_asked;
use c_tree::{Function, Item, Top};
use c_types::{Boxed, List, Memory};
use std::alloc::Global;
use std::mem;
use tidy_loops::guard_counts;
use tidy_slots::{Numbers, new_numbers, remove_gone, renumber_list};

/// Makes the next change of a body, if one applies, and answers its slot: the declaration goes too. Each slot
/// keeps its number. Else the body stays. The counts are those of the function. The search starts where no
/// earlier change can apply, and the start moves on.
fn change_list_of(
    alloc: Global,
    counts: &List<u64>,
    start: &mut Start,
    way: &mut List<usize>,
    sure: &mut bool,
    holds: &mut Holds,
    list: &mut List<Boxed<Item>>,
) -> Result<Option<u32>, Memory>
    requires { AreApart (count_in counts.now) (trees_of list.old) }
    ensures made { IfOk result (λ it. (f : FunctionTree) → Tells counts.now f → IsAhead sure.old f 2 start.old.doubt start.old.from (reverse way.old) (trees_of list.old) → f.body ≡ Some (trees_of list.old) → IsBodyChanged f it (Some (trees_of list.new))) }
    ensures kept { IfOk result (λ it. it ≡ None → list.new ≡ list.old) }
    ensures first { IfOk result (λ it. (f : FunctionTree) → Tells counts.now f → IsAhead sure.old f 2 start.old.doubt start.old.from (reverse way.old) (trees_of list.old) → DeclaresFirst (trees_of list.old) → DeclaresFirst (trees_of list.new)) }
    ensures start { IfOk result (λ it. LeadsOn counts.now it (λ g. g) (λ f. IsAhead sure.old f 2 start.old.doubt start.old.from (reverse way.old) (trees_of list.old)) (λ (g : ℕ) h. IsAhead sure.new h 2 start.new.doubt start.new.from (reverse way.new) (trees_of list.new))) }
{
    let change = change_from(alloc, counts, 2, list, *start, way, sure, holds)?;
    match change {
        Some((slot, place)) => {
            let gone = undeclare(slot, list);
            *start = behind_change(place, gone);
            keep_way(alloc, place, gone, way);
            Ok(Some(slot))
        }
        None => Ok(None),
    }
}

/// Marks a slot as gone.
fn mark(slot: u32, gone: &mut List<bool>)
    ensures { gone.new ≡ slice_set gone.old slot true }
{
    if (slot as usize) < gone.len() {
        gone.set(slot as usize, true);
    }
}

/// Counts a slot no more.
pub fn forget(slot: u32, counts: &mut List<u64>)
    ensures { counts.new ≡ slice_set counts.old slot 0 }
{
    if (slot as usize) < counts.len() {
        counts.set(slot as usize, 0);
    }
}

/// Makes the next change with the old numbers, and says whether there was one.
fn change_once(
    alloc: Global,
    start: &mut Start,
    way: &mut List<usize>,
    sure: &mut bool,
    holds: &mut Holds,
    gone: &mut List<bool>,
    counts: &mut List<u64>,
    list: &mut List<Boxed<Item>>,
) -> Result<bool, Memory>
    requires { AreApart (count_in counts.old) (trees_of list.old) }
    ensures went { IfOk result (λ went. (f : Function) → IsStart counts.old start.old sure.old (reverse way.old) (trees_of list.old) → WentOn went gone.old counts.old (with_body f list.old) gone.new counts.new (with_body f list.new)) }
    ensures start { IfOk result (λ went. went ≡ true → (f : Function) → Tells counts.old (function_tree (with_body f list.old)) → IsStart counts.old start.old sure.old (reverse way.old) (trees_of list.old) → IsStart counts.new start.new sure.new (reverse way.new) (trees_of list.new)) }
    ensures first { IfOk result (λ went. (f : Function) → Tells counts.old (function_tree (with_body f list.old)) → IsStart counts.old start.old sure.old (reverse way.old) (trees_of list.old) → DeclaresFirst (trees_of list.old) → DeclaresFirst (trees_of list.new)) }
{
    let change = change_list_of(alloc, counts, start, way, sure, holds, list)?;
    match change {
        Some(slot) => {
            mark(slot, gone);
            forget(slot, counts);
            Ok(true)
        }
        None => Ok(false),
    }
}

/// Whether no change can apply at the place in doubt, which holds no list or is none in front of the other.
fn is_doubtless(start: Start, list: &List<Boxed<Item>>) -> bool
    requires { start.from < length list.now }
    ensures { result ≡ true → (f : FunctionTree) (n : ℕ) → AreQuietBut f n start.doubt start.from (trees_of list.now) → AreQuiet f n start.from (trees_of list.now) }
{
    if start.doubt >= start.from {
        return true;
    }
    holds_none(list.as_slice()[start.doubt].get())
}

/// Whether changes can be made in a row in the item where the search goes on: the way to the last change leads into it
/// and is sure, and no change can apply in front of it.
fn goes_in(start: Start, way: &List<usize>, sure: bool, list: &List<Boxed<Item>>) -> bool
    ensures sure { result ≡ true → (sure ≡ true) × (way.now ≡ [] → ⊥) }
    ensures there { result ≡ true → (start.from < length list.now) × (the_holds_none (first_item (behind start.from (trees_of list.now))) ≡ false) }
    ensures quiet { result ≡ true → (f : FunctionTree) (n : ℕ) → AreQuietBut f n start.doubt start.from (trees_of list.now) → AreQuiet f n start.from (trees_of list.now) }
{
    if !was_asked(way, sure) {
        return false;
    }
    if start.from >= list.len() {
        return false;
    }
    if holds_none(list.as_slice()[start.from].get()) {
        return false;
    }
    is_doubtless(start, list)
}

/// Marks the slots as gone and takes their declarations out.
fn undeclare_all(slots: &List<u32>, gone: &mut List<bool>, list: &mut List<Boxed<Item>>)
    ensures marked { gone.new ≡ all_marked gone.old slots.now }
    ensures gone { trees_of list.new ≡ all_undeclared slots.now (trees_of list.old) }
{
    let all = slots.as_slice();
    for i in 0..all.len() {
        let slot = &all[i];
        mark(*slot, gone);
        undeclare(*slot, list);
    }
}

/// Makes changes in a row in the list of the last change, without a search from the outermost list on for each, and says
/// how many. It is only done where the declarations stand first: then none in front of the list has to be asked again
/// once one goes, so that they go together at the end.
fn change_rest(
    alloc: Global,
    first: bool,
    start: &mut Start,
    way: &mut List<usize>,
    sure: bool,
    gone: &mut List<bool>,
    counts: &mut List<u64>,
    list: &mut List<Boxed<Item>>,
    holds: &mut Holds,
) -> Result<u64, Memory>
    requires { AreApart (count_in counts.old) (trees_of list.old) }
    ensures went { IfOk result (λ m. (f : Function) → IsStart counts.old start.old sure (reverse way.old) (trees_of list.old) → (first ≡ true → DeclaresFirst (trees_of list.old)) → WentOnBy m gone.old counts.old (with_body f list.old) gone.new counts.new (with_body f list.new)) }
    ensures start { IfOk result (λ m. (f : Function) (n : ℕ) (s : FunctionTree) → Underway n s gone.old counts.old (function_tree (with_body f list.old)) → IsStart counts.old start.old sure (reverse way.old) (trees_of list.old) → (first ≡ true → DeclaresFirst (trees_of list.old)) → IsStart counts.new start.new sure (reverse way.new) (trees_of list.new) × (first ≡ true → DeclaresFirst (trees_of list.new))) }
{
    if !first {
        return Ok(0);
    }
    if !goes_in(*start, way, sure, list) {
        return Ok(0);
    }
    let slots = change_on_in(
        alloc,
        counts,
        2,
        list.at_mut(start.from).get_mut(),
        way,
        holds,
    )?;
    let before = list.len();
    undeclare_all(&slots, gone, list);
    let after = list.len();
    let from = start.from.saturating_sub(before.saturating_sub(after));
    *start = Start { doubt: from, from };
    let count = slots.len();
    Ok(count as u64)
}

/// One more. `Memory` where no `u64` counts it.
fn one_more(count: u64) -> Result<u64, Memory>
    ensures { IfOk result (λ n. n ≡ suc count) }
{
    match count.checked_add(1) {
        Some(n) => Ok(n),
        None => Err(Memory),
    }
}

/// One more, and so many beside it. `Memory` where no `u64` counts them.
fn one_and(count: u64, more: u64) -> Result<u64, Memory>
    ensures { IfOk result (λ n. n ≡ suc (count + more)) }
{
    let both = sum(count, more)?;
    one_more(both)
}

fn none_gone(alloc: Global, count: usize) -> Result<List<bool>, Memory>
    ensures { IfOk result (λ it. it ≡ replicate count false) }
{
    let mut gone = List::new(alloc);
    for i in 0..count {
        gone.push(false)?;
    }
    Ok(gone)
}

/// Makes one change after another in the body of a function until none applies, with the old numbers. Says how many,
/// and which slots are gone. The counts are those of the function.
fn change_boxes(
    alloc: Global,
    counts: List<u64>,
    function: &Function,
    list: &mut List<Boxed<Item>>,
) -> Result<(u64, List<bool>), Memory>
    requires { Tells counts (function_tree (with_body function.now list.old)) }
    ensures { IfOk result (λ r. AreMade r.0 (with_body function.now list.old) r.1 (with_body function.now list.new)) }
{
    let mut counts = counts;
    let first = declares_first(list);
    let mut gone = none_gone(alloc, function.slots.len())?;
    let mut start = Start { doubt: 0, from: 0 };
    let mut way = List::new(alloc);
    let mut sure = true;
    let mut holds = no_holds(alloc);
    let mut count = 0;
    'changes: while change_once(
        alloc,
        &mut start,
        &mut way,
        &mut sure,
        &mut holds,
        &mut gone,
        &mut counts,
        list,
    )? {
        let more = change_rest(
            alloc,
            first,
            &mut start,
            &mut way,
            sure,
            &mut gone,
            &mut counts,
            list,
            &mut holds,
        )?;
        count = one_and(count, more)?;
    }
    Ok((count, gone))
}

/// Makes one change after another in a function until none applies, with the old numbers. The items of its
/// outermost list are boxed meanwhile. After `Memory` its body is gone.
fn change_all(alloc: Global, function: &mut Function) -> Result<(u64, List<bool>), Memory>
    ensures { IfOk result (λ r. AreMade r.0 function.old r.1 function.new) }
{
    let counts = guard_counts(alloc, function)?;
    match mem::replace(&mut function.body, None) {
        Some(list) => {
            let mut boxes = boxed(alloc, list)?;
            let made = change_boxes(alloc, counts, function, &mut boxes)?;
            let items = unboxed(alloc, boxes)?;
            function.body = Some(items);
            Ok(made)
        }
        None => {
            let gone = none_gone(alloc, function.slots.len())?;
            Ok((0, gone))
        }
    }
}

fn renumber_body(numbers: &Numbers, body: &mut Option<List<Item>>)
    ensures { option_map trees_of body.new ≡ option_map (renamed_list (number numbers.now)) (option_map trees_of body.old) }
{
    match body {
        Some(list) => renumber_list(numbers, list),
        None => {}
    }
}

/// Gives the slots that are left their new numbers.
fn number_again(alloc: Global, gone: &List<bool>, function: &mut Function) -> Result<(), Memory>
    requires { length gone.now ≡ length function.old.slots }
    ensures { OnOk result (IsNumbered gone.now function.old function.new) }
{
    let numbers = new_numbers(alloc, gone)?;
    renumber_body(&numbers, &mut function.body);
    remove_gone(gone, &mut function.slots);
    Ok(())
}

/// Makes one change after another until none applies, and says how many.
fn change_fully(alloc: Global, function: &mut Function) -> Result<u64, Memory>
    ensures { IfOk result (λ n. IsFunctionTidied n function.old function.new) }
{
    let made = change_all(alloc, function)?;
    if made.0 == 0 {
        return Ok(0);
    }
    number_again(alloc, &made.1, function)?;
    Ok(made.0)
}

fn change_top(alloc: Global, top: &mut Top) -> Result<u64, Memory>
    ensures { IfOk result (λ n. TopTidied n top.old top.new) }
{
    match top {
        Top::Function(function) => change_fully(alloc, function),
        _ => Ok(0),
    }
}

/// Makes the changes of each function in file order, and says how many. After `Memory` some are made, and a body may be
/// gone.
pub fn change_tops(alloc: Global, tops: &mut List<Top>) -> Result<u64, Memory>
    ensures { IfOk result (λ n. AreTidied n tops.old tops.new) }
{
    let mut count = 0;
    let mut i = 0;
    while i < tops.len() {
        let more = change_top(alloc, tops.at_mut(i))?;
        count = sum(count, more)?;
        i += 1;
    }
    Ok(count)
}

/// The sum. `Memory` where no `u64` is.
fn sum(a: u64, b: u64) -> Result<u64, Memory>
    ensures { IfOk result (λ n. n ≡ a + b) }
{
    match a.checked_add(b) {
        Some(n) => Ok(n),
        None => Err(Memory),
    }
}
