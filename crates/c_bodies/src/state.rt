//! What the walk over a body reads, and what it changes.

ghost use Rattle.std.specs.Prelude.{◌≡◌, ◌++◌, ◌∷◌, [], OnOk};
ghost use Rattle.c_kinds.specs.Scopes.{fault_if};
ghost use Rattle.c_bodies.specs.Views as views;
ghost use Rattle.c_statements.specs.Cases.{switch_faults};
ghost use Rattle.c_statements.specs.Context as spec;

use c_grammar::Words;
use c_kinds::{Fault, Known, report_if};
use c_statements::{Entry, LabelNumbers, Notes, report_cases};
use c_tree::Slot;
use c_types::{IntKind, List, Memory, Stack};
use std::alloc::Global;
use std::mem;

/// What is known in the whole body of a function.
#[derive(Clone, Copy)]
pub struct FunctionContext<'n, 'a> {
    /// The words of the text.
    pub words: Words<'a>,
    /// The comments of the file, by their places.
    pub notes: &'n Notes<'a>,
    /// The function's labels, with their numbers in text order.
    pub labels: &'n LabelNumbers<'a>,
    /// The kind of the function's result, `None` where it is void.
    pub result: Option<IntKind>,
}

/// A place of the file, and what was found before it.
#[derive(Drop)]
pub struct State<'a> {
    /// The names that are declared there. What reads them sets the words to those of the text.
    pub known: Known<'a>,
    /// The slots of the function that are declared before it.
    pub slots: List<Slot>,
    /// The labels before it of the switch that it is in.
    pub cases: List<Entry>,
    /// The violations that were found, the last first.
    pub faults: Stack<Fault>,
}

/// The constructs around a place.
#[derive(Clone, Copy, Debug, PartialEq, Eq)]
pub struct Around {
    pub in_loop: bool,
    pub in_switch: bool,
}

/// Enters a scope of its own.
#[tactic(auto, unfolding(crate::specs::Views::walk_of))]
pub fn enter(alloc: Global, state: &mut State) -> Result<(), Memory>
    ensures walk { OnOk result (views.walk_of state.new ≡ spec.enter (views.walk_of state.old)) }
    ensures cases { OnOk result (state.new.cases ≡ state.old.cases) }
    ensures faults { OnOk result (state.new.faults ≡ state.old.faults) }
{
    state.known.scopes.enter(alloc)
}

/// Leaves the nearest scope. The slots stay.
#[tactic(auto, unfolding(crate::specs::Views::walk_of))]
pub fn leave(state: &mut State)
    ensures walk { views.walk_of state.new ≡ views.left (views.walk_of state.old) }
    ensures cases { state.new.cases ≡ state.old.cases }
    ensures faults { state.new.faults ≡ state.old.faults }
{
    state.known.scopes.leave();
}

/// Puts a label of the switch around behind others.
#[tactic(auto, unfolding(crate::specs::Views::walk_of))]
pub fn add_case(state: &mut State, entry: Entry) -> Result<(), Memory>
    ensures walk { OnOk result (views.walk_of state.new ≡ views.walk_of state.old) }
    ensures cases { OnOk result (state.new.cases ≡ state.old.cases ++ entry ∷ []) }
    ensures faults { OnOk result (state.new.faults ≡ state.old.faults) }
{
    state.cases.push(entry)
}

/// Puts a violation in front of others where there is one.
#[tactic(auto, unfolding(crate::specs::Views::walk_of))]
pub fn report_at(state: &mut State, wrong: bool, at: u32, reason: u32) -> Result<(), Memory>
    ensures walk { OnOk result (views.walk_of state.new ≡ views.walk_of state.old) }
    ensures cases { OnOk result (state.new.cases ≡ state.old.cases) }
    ensures faults { OnOk result (state.new.faults ≡ fault_if wrong at reason state.old.faults) }
{
    report_if(&mut state.faults, wrong, at, reason)
}

/// Takes the labels of the switch around out.
#[tactic(auto, unfolding(crate::specs::Views::walk_of))]
pub fn take_cases(alloc: Global, state: &mut State) -> List<Entry>
    ensures value { result ≡ state.old.cases }
    ensures walk { views.walk_of state.new ≡ views.walk_of state.old }
    ensures cases { state.new.cases ≡ [] }
    ensures faults { state.new.faults ≡ state.old.faults }
{
    mem::replace(&mut state.cases, List::new(alloc))
}

/// Puts the labels of a switch in the place of those of one in it.
#[tactic(auto, unfolding(crate::specs::Views::walk_of))]
pub fn put_cases(state: &mut State, entries: List<Entry>)
    ensures walk { views.walk_of state.new ≡ views.walk_of state.old }
    ensures cases { state.new.cases ≡ entries }
    ensures faults { state.new.faults ≡ state.old.faults }
{
    state.cases = entries;
}

/// Reports the violations among the labels of a switch, by the kind of its selector.
#[tactic(auto, unfolding(crate::specs::Views::walk_of))]
pub fn report_switch(alloc: Global, state: &mut State, kind: Option<IntKind>) -> Result<(), Memory>
    ensures walk { OnOk result (views.walk_of state.new ≡ views.walk_of state.old) }
    ensures cases { OnOk result (state.new.cases ≡ state.old.cases) }
    ensures faults { OnOk result (state.new.faults ≡ switch_faults kind state.old.cases state.old.faults) }
{
    report_cases(alloc, &mut state.faults, kind, state.cases.as_slice())
}

/// Sets the words to those of the text.
#[tactic(auto, unfolding(crate::specs::Views::walk_of))]
pub fn set_words<'n, 'a>(ctx: &FunctionContext<'n, 'a>, state: &mut State<'a>)
    ensures words { state.new.known.words ≡ ctx.now.words }
    ensures walk { views.walk_of state.new ≡ views.walk_of state.old }
    ensures cases { state.new.cases ≡ state.old.cases }
    ensures faults { state.new.faults ≡ state.old.faults }
{
    state.known.words = ctx.words;
}
