ghost use Rattle.std.specs.Prelude.{◌≡◌, ◌↔◌, ℕ, ℤ, Option, ◌≤◌, ◌++◌, map, Contains, IfOk, IfSome, IsSome, IsTrue, OnOk, length};
ghost use Rattle.std.specs.BTreeSet.{contains};
ghost use Rattle.std.specs.Ordering.{int_cmp};
ghost use Rattle.std.specs.Option.{IsSomeAnd, option_cmp};
ghost use Rattle.c_tree.specs.Cases.{selector_source, selector_kind as the_selector_kind, case_number as the_case_number, case_numbers as the_case_numbers, cases_at, AreCases, IsFree, IsNumberFor, SelectsBranch};
ghost use Rattle.c_tree.specs.Constants.{kind_of};
ghost use Rattle.c_tree.specs.ExpressionTrees.{expression_tree};
ghost use Rattle.c_tree.specs.TestTrees.{selector_tree};
ghost use Rattle.c_tree.specs.Trees.{expression_trees, sections_of, tree_of};
ghost use Rattle.c_tree.specs.WellMade.{HasSelectorKind, HasCases};

use c_constants::constant_value;
use c_tree::{Branch, Expression, Item, Section, Selector};
use c_types::{IntKind, Memory, convert, promote};
use std::alloc::Global;
use std::collections::BTreeSet;

fn selector_kind(selector: &Selector) -> Option<IntKind>
    ensures { result ≡ the_selector_kind (selector_tree selector.now) }
{
    match selector {
        Selector::Source(e) => match e.kind {
            Some(kind) => Some(promote(kind)),
            None => None,
        },
        Selector::Pick(_, _, rest) => selector_kind(rest.get()),
    }
}

fn case_number(kind: IntKind, e: &Expression) -> Option<i128>
    ensures { result ≡ the_case_number kind (expression_tree e.now) }
{
    match constant_value(e) {
        Some(value) => Some(convert(kind, value)),
        None => None,
    }
}

fn add_numbers(
    numbers: &mut Vec<Option<i128>>,
    kind: IntKind,
    cases: &[Expression],
) -> Result<(), Memory>
    ensures { OnOk result (numbers.new.items ≡ numbers.old.items ++ map (the_case_number kind) (expression_trees cases.now)) }
{
    for e in cases {
        numbers.push(case_number(kind, e))?;
    }
    Ok(())
}

fn case_numbers(
    alloc: Global,
    kind: IntKind,
    sections: &[Section],
) -> Result<Vec<Option<i128>>, Memory>
    ensures { IfOk result (λ v. v.items ≡ the_case_numbers kind (sections_of sections.now)) }
{
    let mut numbers = Vec::new(alloc);
    for section in sections {
        add_numbers(&mut numbers, kind, section.cases.as_slice())?;
    }
    Ok(numbers)
}

/// The numbers of a list, in order, to be looked up.
fn number_set(alloc: Global, numbers: &[Option<i128>]) -> Result<BTreeSet<Option<i128>>, Memory>
    ensures { IfOk result (λ s. (n : Option ℤ) → IsTrue (contains (option_cmp int_cmp) s n) ↔ Contains numbers.now n) }
{
    let mut set = BTreeSet::new(alloc);
    for number in numbers {
        set.insert(*number)?;
    }
    Ok(set)
}

fn free_number(alloc: Global, kind: IntKind, sections: &[Section]) -> Result<i128, Memory>
    ensures { IfOk result (λ n. IsFree kind (sections_of sections.now) n) }
{
    let numbers = case_numbers(alloc, kind, sections)?;
    let taken = number_set(alloc, numbers.as_slice())?;
    let end = numbers.len();
    for m in 0..=end {
        if !taken.contains(&Some(m as i128)) {
            return Ok(m as i128);
        }
    }
    unreachable!()
}

fn section_number(
    alloc: Global,
    kind: IntKind,
    sections: &[Section],
    k: u32,
) -> Result<i128, Memory>
    requires { AreCases kind (sections_of sections.now) }
    ensures { IfOk result (λ n. IsNumberFor kind (sections_of sections.now) (cases_at k (sections_of sections.now)) n) }
{
    let Some(section) = sections.get(k as usize) else {
        return free_number(alloc, kind, sections);
    };
    let Some(first) = section.cases.get(0) else {
        return free_number(alloc, kind, sections);
    };
    match case_number(kind, first) {
        Some(number) => Ok(number),
        None => unreachable!(),
    }
}

fn switch_number(
    alloc: Global,
    selector: &Selector,
    sections: &[Section],
    k: u32,
) -> Result<i128, Memory>
    requires kind { IsSome (kind_of (selector_source (selector_tree selector.now))) }
    requires cases { IfSome (the_selector_kind (selector_tree selector.now)) (λ kind. AreCases kind (sections_of sections.now)) }
    ensures { IfOk result (λ n. IsSomeAnd (the_selector_kind (selector_tree selector.now)) (λ kind. IsNumberFor kind (sections_of sections.now) (cases_at k (sections_of sections.now)) n)) }
{
    let Some(kind) = selector_kind(selector) else {
        unreachable!();
    };
    section_number(alloc, kind, sections, k)
}

/// The number by which a guard selects the branch of an item; of no meaning where the item is no
/// `switch`.
pub fn number_for(alloc: Global, item: &Item, branch: Branch) -> Result<i128, Memory>
    requires kind { HasSelectorKind (tree_of item.now) }
    requires cases { HasCases (tree_of item.now) }
    ensures { IfOk result (λ n. SelectsBranch branch n (tree_of item.now)) }
{
    match branch {
        Branch::Section(k) => match item {
            Item::Switch(selector, sections) => {
                switch_number(alloc, selector, sections.as_slice(), k)
            }
            _ => Ok(0),
        },
        _ => Ok(0),
    }
}
