//! The sections of a switch.

ghost use Rattle.std.specs.Prelude.{◌≡◌, ◌++◌, ◌∷◌, [], true, false, cond, IfOk, OnOk};
ghost use Rattle.c_bodies.specs.Steps as steps;
ghost use Rattle.c_bodies.specs.Views as views;
ghost use Rattle.c_statements.specs.Context as context;
ghost use Rattle.c_statements.specs.Sections as spec;
ghost use Rattle.c_statements.specs.Statements as statements;

use crate::notes::add_notes;
use crate::reading::Reading;
use crate::state::FunctionContext;
use c_statements::{Anchor, or_placeholder};
use c_tree::{Expression, Item, Section};
use c_types::{List, Memory};
use std::alloc::Global;
use std::mem;

/// The sections of a switch that are read, and what is being read.
#[derive(Drop)]
pub struct Sections {
    pub done: List<Section>,
    pub current: Reading,
}

/// Nothing, in a section or in front of the first.
fn nothing(alloc: Global, begun: bool) -> Reading
    ensures { result ≡ record { begun = begun; cases = []; default = false; list = [] } }
{
    Reading {
        begun,
        cases: List::new(alloc),
        default: false,
        list: List::new(alloc),
    }
}

/// No sections.
pub fn no_sections(alloc: Global) -> Sections
    ensures done { result.done ≡ [] }
    ensures current { result.current ≡ record { begun = false; cases = []; default = false; list = [] } }
{
    Sections {
        done: List::new(alloc),
        current: nothing(alloc, false),
    }
}

fn is_break(x: &Item) -> bool
    ensures { result ≡ spec.is_break x.now }
{
    matches!(x, Item::Break)
}

#[tactic(auto, using(crate::proofs::Endings::last))]
fn ends_in_break(items: &[Item]) -> bool
    ensures { result ≡ spec.ends_in_break items.now }
{
    match items.split_last() {
        Some((last, _)) => is_break(last),
        None => false,
    }
}

#[tactic(auto, using(crate::proofs::Endings::last))]
fn cut_last(list: &mut List<Item>)
    ensures { list.new ≡ spec.without_last list.old }
{
    drop(list.pop());
}

/// The section with these cases, default and items, of which a last `break` is its end.
fn ended_section(cases: List<Expression>, default: bool, list: List<Item>) -> Section
    ensures { result ≡ spec.ended (record { cases = cases; default = default; list = list }) }
{
    let mut list = list;
    let labelled = !cases.is_empty() || default;
    if labelled && ends_in_break(list.as_slice()) {
        cut_last(&mut list);
        return Section {
            cases,
            default,
            list,
            ends: true,
        };
    }
    Section {
        cases,
        default,
        list,
        ends: false,
    }
}

/// Puts items that stand in front of the first section behind the others, in a list without labels.
fn add_front(alloc: Global, items: List<Item>, done: &mut List<Section>) -> Result<(), Memory>
    ensures { OnOk result (done.new ≡ done.old ++ spec.front items) }
{
    if items.is_empty() {
        drop(items);
        return Ok(());
    }
    let mut list = items;
    list.push(Item::Evaluate(or_placeholder(None)))?;
    done.push(Section {
        cases: List::new(alloc),
        default: false,
        list,
        ends: false,
    })
}

/// Puts what was read behind the others.
fn add_ended(alloc: Global, read: Reading, done: &mut List<Section>) -> Result<(), Memory>
    ensures { OnOk result (done.new ≡ done.old ++ steps.closed_now read) }
{
    let Reading {
        begun,
        cases,
        default,
        list,
    } = read;
    if begun {
        return done.push(ended_section(cases, default, list));
    }
    drop(cases);
    add_front(alloc, list, done)
}

/// Ends what is being read, and begins a section.
pub fn close(alloc: Global, sections: &mut Sections) -> Result<(), Memory>
    ensures done { OnOk result (sections.new.done ≡ sections.old.done ++ steps.closed_now sections.old.current) }
    ensures current { OnOk result (sections.new.current ≡ record { begun = true; cases = []; default = false; list = [] }) }
{
    let read = mem::replace(&mut sections.current, nothing(alloc, true));
    add_ended(alloc, read, &mut sections.done)
}

/// The sections, of which the last gets the comments at the end of the list.
pub fn finish(
    alloc: Global,
    ctx: &FunctionContext,
    first: u32,
    sections: Sections,
) -> Result<List<Section>, Memory>
    ensures { IfOk result (λ ss. ss ≡ sections.done ++ (spec.front (steps.outside_of sections.current) ++ statements.sections_of (steps.reading_of sections.current) (context.notes_at (views.context_of ctx.now) (Anchor.AtEnd first)))) }
{
    let Sections { done, current } = sections;
    let mut done = done;
    let mut current = current;
    if current.begun {
        add_notes(alloc, ctx, Anchor::AtEnd(first), &mut current.list)?;
    }
    add_ended(alloc, current, &mut done)?;
    Ok(done)
}
