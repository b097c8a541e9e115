ghost use Rattle.std.specs.Prelude.{◌≡◌, ◌∷◌, ◌&&◌, not, List as Several, IfOk, OnOk};
ghost use Rattle.c_tree.specs.declared.tree.Section.{Section, out-Section};
ghost use Rattle.c_tree.specs.TextItems.{is_empty};
ghost use Rattle.c_tree.specs.SectionLabels.{with_entries as the_with_entries, labels_passed as the_labels_passed, passed_after};

use crate::tree::Section;
use c_types::{List, Memory, concatenated};
use std::alloc::Global;

/// Whether a section gives its cases and its default to the next: it has an empty list and no end.
fn passes(section: &Section) -> bool
    ensures { result ≡ (is_empty (out-Section section.now).list && not (out-Section section.now).ends) }
{
    section.list.is_empty() && !section.ends
}

/// The second section with the cases and the default of the first before its own.
fn with_entries(first: Section, second: Section) -> Result<Section, Memory>
    ensures { IfOk result (λ it. it ≡ the_with_entries (out-Section first) second) }
{
    let Section {
        cases,
        default,
        list,
        ends,
    } = second;
    let cases = concatenated(first.cases, cases)?;
    Ok(Section {
        cases,
        default: first.default || default,
        list,
        ends,
    })
}

/// Puts a section behind the others, with the labels that the last of them passes to it.
fn add_section(out: &mut List<Section>, section: Section) -> Result<(), Memory>
    ensures { OnOk result ((rest : Several Section) → passed_after out.new rest ≡ passed_after out.old (section ∷ rest)) }
{
    match out.pop() {
        Some(last) => {
            if passes(&last) {
                out.push(with_entries(last, section)?)
            } else {
                out.push(last)?;
                out.push(section)
            }
        }
        None => out.push(section),
    }
}

/// The sections of a switch, in which a section with an empty list and no end, other than the last, has passed its cases
/// and its default to the next (6.8.4.2). `Err` where memory is refused, or where a section gets more cases than a list holds.
pub fn labels_passed(alloc: Global, sections: List<Section>) -> Result<List<Section>, Memory>
    ensures { IfOk result (λ it. it ≡ the_labels_passed sections) }
{
    let mut out = List::new(alloc);
    for section in sections.into_vec() {
        add_section(&mut out, section)?;
    }
    Ok(out)
}
