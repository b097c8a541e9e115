//! Functions (ISO/IEC 9899:2011, 6.9.1): what their definitions give, and the violations.

ghost use Rattle.std.specs.Prelude.{◌≡◌, [], Some, drop, map, IfOk, OnOk};
ghost use Rattle.c_bodies.specs.Views.{context_of, walk_of};
ghost use Rattle.c_grammar.specs.TopViews.{function_form};
ghost use Rattle.c_grammar.specs.Views.{words_of};
ghost use Rattle.c_statements.specs.Functions as spec;
ghost use Rattle.c_statements.specs.Labels as labels;
ghost use Rattle.c_statements.specs.NoteViews.{notes_of};
ghost use Rattle.c_scopes.specs.BlockViews.{block_form};

use crate::blocks::{Block, block_labels, block_of};
use crate::flat_counter::FlatCounter;
use crate::function_names::has_body;
use crate::outermost::read_block;
use crate::parameters::read_parameters;
use crate::signatures::result_kind;
use crate::tangle::{is_tangled, measures_of};
use c_bodies::{FunctionContext, State};
use c_grammar::{FunctionLayer, Words};
use c_kinds::{Fault, name_of, report_if};
use c_statements::{FunctionLabels, LabelNumbers, Notes, function_labels};
use c_tree::{Function, Item, Slot};
use c_types::{List, Memory, Name, Stack, reasons};
use std::alloc::Global;
use std::mem;

/// What is known outside of a function.
#[derive(Clone, Copy)]
pub struct Outside<'n, 'a> {
    /// The words of the text.
    pub words: Words<'a>,
    /// The comments of the file, by their places.
    pub notes: &'n Notes<'a>,
}

/// The items of a body, and the labels of the function.
#[derive(Drop)]
struct Inside {
    labels: List<Name>,
    body: Option<List<Item>>,
}

/// Reports a function with jumps that is too tangled, by the flat form of its body.
#[tactic(auto, using(crate::proofs::Tangles::bounded_tangled))]
fn report_counted<C: FlatCounter>(
    counter: &C,
    words: &Words,
    faults: &mut Stack<Fault>,
    f: FunctionLayer,
    body: Block,
    items: &List<Item>,
) -> Result<(), Memory>
    ensures { OnOk result (faults.new ≡ spec.tangle_fault (C.flat counter.now) (words_of words.now) (function_form (words_of words.now) f.entry) (block_form (words_of words.now) body.entry) items.now faults.old) }
{
    match counter.count(items)? {
        Some((jumps, labels)) => {
            let tangled = is_tangled(measures_of(words, f, body, jumps, labels));
            report_if(faults, tangled, f.name, reasons::TOO_TANGLED)
        }
        None => Ok(()),
    }
}

/// Reports a function with jumps that is too tangled. Its flat form is counted only where it may be:
/// to count it is to make it, and most functions have too few statements to be.
fn report_tangle<C: FlatCounter>(
    counter: &C,
    words: &Words,
    faults: &mut Stack<Fault>,
    f: FunctionLayer,
    body: Block,
    items: &List<Item>,
) -> Result<(), Memory>
    ensures { OnOk result (faults.new ≡ spec.tangle_fault (C.flat counter.now) (words_of words.now) (function_form (words_of words.now) f.entry) (block_form (words_of words.now) body.entry) items.now faults.old) }
{
    match counter.most(items)? {
        Some((jumps, labels)) => {
            if is_tangled(measures_of(words, f, body, jumps, labels)) {
                report_counted(counter, words, faults, f, body, items)
            } else {
                Ok(())
            }
        }
        None => Ok(()),
    }
}

/// The labels of a body. Those whose name an earlier one has are reported.
fn read_labels<'a>(
    alloc: Global,
    words: &Words<'a>,
    faults: &mut Stack<Fault>,
    body: Block,
) -> Result<FunctionLabels<'a>, Memory>
    ensures numbers { IfOk result (λ t. t.numbers ≡ labels.numbers (map (words_of words.now) (labels.body_labels (block_form (words_of words.now) body.entry) []))) }
    ensures names { IfOk result (λ t. t.names ≡ spec.labels_within (words_of words.now) (Some (block_form (words_of words.now) body.entry))) }
    ensures faults { OnOk result (faults.new ≡ labels.twice_faults (words_of words.now) (labels.body_labels (block_form (words_of words.now) body.entry) []) faults.old) }
{
    let mut tokens = Stack::new(alloc);
    block_labels(words, body, &mut tokens)?;
    function_labels(alloc, words, faults, tokens)
}

/// The items of a body, in a function with these labels.
fn read_items<'n, 'a>(
    alloc: Global,
    outside: &Outside<'n, 'a>,
    state: &mut State<'a>,
    numbers: &LabelNumbers<'a>,
    f: FunctionLayer,
    body: Block,
) -> Result<List<Item>, Memory>
    requires { numbers.now ≡ labels.numbers (map (words_of outside.now.words) (labels.body_labels (block_form (words_of outside.now.words) body) [])) }
    ensures items { IfOk result (λ items. items ≡ spec.body_items (spec.context (words_of outside.now.words) (notes_of outside.now.notes.now) (function_form (words_of outside.now.words) f.entry) (block_form (words_of outside.now.words) body.entry)) (block_form (words_of outside.now.words) body.entry) (walk_of state.old)) }
    ensures walk { OnOk result (walk_of state.new ≡ spec.behind_body (spec.context (words_of outside.now.words) (notes_of outside.now.notes.now) (function_form (words_of outside.now.words) f.entry) (block_form (words_of outside.now.words) body.entry)) (block_form (words_of outside.now.words) body.entry) (walk_of state.old)) }
    ensures faults { OnOk result (state.new.faults ≡ spec.body_faults (spec.context (words_of outside.now.words) (notes_of outside.now.notes.now) (function_form (words_of outside.now.words) f.entry) (block_form (words_of outside.now.words) body.entry)) (block_form (words_of outside.now.words) body.entry) (walk_of state.old) state.old.faults) }
{
    let ctx = FunctionContext {
        words: outside.words,
        notes: outside.notes,
        labels: numbers,
        result: result_kind(&outside.words, f),
    };
    read_block(alloc, &ctx, state, body)
}

/// The items of a body, with its labels and violations, behind the parameters.
#[tactic(auto, unfolding(c_bodies::specs::Views::walk_of))]
fn read_body<'n, 'a, C: FlatCounter>(
    alloc: Global,
    counter: &C,
    outside: &Outside<'n, 'a>,
    state: &mut State<'a>,
    f: FunctionLayer,
    body: Block,
) -> Result<Inside, Memory>
    ensures labels { IfOk result (λ it. it.labels ≡ spec.labels_within (words_of outside.now.words) (Some (block_form (words_of outside.now.words) body.entry))) }
    ensures items { IfOk result (λ it. it.body ≡ spec.items_within (words_of outside.now.words) (notes_of outside.now.notes.now) (function_form (words_of outside.now.words) f.entry) (Some (block_form (words_of outside.now.words) body.entry)) (walk_of state.old)) }
    ensures walk { OnOk result (walk_of state.new ≡ spec.behind_within (words_of outside.now.words) (notes_of outside.now.notes.now) (function_form (words_of outside.now.words) f.entry) (Some (block_form (words_of outside.now.words) body.entry)) (walk_of state.old)) }
    ensures faults { OnOk result (state.new.faults ≡ spec.faults_within (C.flat counter.now) (words_of outside.now.words) (notes_of outside.now.notes.now) (function_form (words_of outside.now.words) f.entry) (Some (block_form (words_of outside.now.words) body.entry)) (walk_of state.old) state.old.faults) }
{
    let labels = read_labels(alloc, &outside.words, &mut state.faults, body)?;
    let items = read_items(alloc, outside, state, &labels.numbers, f, body)?;
    report_tangle(counter, &outside.words, &mut state.faults, f, body, &items)?;
    Ok(Inside {
        labels: labels.names,
        body: Some(items),
    })
}

/// What a function's body gives, if it has one, behind the parameters.
fn read_inside<'n, 'a, C: FlatCounter>(
    alloc: Global,
    counter: &C,
    outside: &Outside<'n, 'a>,
    state: &mut State<'a>,
    f: FunctionLayer,
) -> Result<Inside, Memory>
    ensures labels { IfOk result (λ it. it.labels ≡ spec.labels_within (words_of outside.now.words) (function_form (words_of outside.now.words) f.entry).body) }
    ensures items { IfOk result (λ it. it.body ≡ spec.items_within (words_of outside.now.words) (notes_of outside.now.notes.now) (function_form (words_of outside.now.words) f.entry) (function_form (words_of outside.now.words) f.entry).body (walk_of state.old)) }
    ensures walk { OnOk result (walk_of state.new ≡ spec.behind_within (words_of outside.now.words) (notes_of outside.now.notes.now) (function_form (words_of outside.now.words) f.entry) (function_form (words_of outside.now.words) f.entry).body (walk_of state.old)) }
    ensures faults { OnOk result (state.new.faults ≡ spec.faults_within (C.flat counter.now) (words_of outside.now.words) (notes_of outside.now.notes.now) (function_form (words_of outside.now.words) f.entry) (function_form (words_of outside.now.words) f.entry).body (walk_of state.old) state.old.faults) }
{
    match block_of(&outside.words, f.body) {
        Some(body) => read_body(alloc, counter, outside, state, f, body),
        None => Ok(Inside {
            labels: List::new(alloc),
            body: None,
        }),
    }
}

/// Enters the scope of a function's parameters, before them.
#[tactic(auto, unfolding(c_bodies::specs::Views::walk_of))]
fn enter_function<'a>(alloc: Global, words: &Words<'a>, state: &mut State<'a>) -> Result<(), Memory>
    ensures words { OnOk result (state.new.known.words ≡ words.now) }
    ensures walk { OnOk result (walk_of state.new ≡ spec.entered state.old.known.scopes) }
    ensures faults { OnOk result (state.new.faults ≡ state.old.faults) }
{
    state.known.words = *words;
    state.slots = List::new(alloc);
    state.known.scopes.enter(alloc)
}

/// Leaves the scope of a function's parameters, and answers the slots.
#[tactic(auto, unfolding(c_bodies::specs::Views::walk_of))]
fn leave_function(alloc: Global, state: &mut State) -> List<Slot>
    ensures slots { result ≡ (walk_of state.old).slots }
    ensures scopes { state.new.known.scopes ≡ drop 1 (walk_of state.old).scopes }
    ensures faults { state.new.faults ≡ state.old.faults }
{
    state.known.scopes.leave();
    mem::replace(&mut state.slots, List::new(alloc))
}

/// A function, and what is wrong in it, but for its name.
pub fn read_function<'n, 'a, C: FlatCounter>(
    alloc: Global,
    counter: &C,
    outside: &Outside<'n, 'a>,
    state: &mut State<'a>,
    f: FunctionLayer,
) -> Result<Function, Memory>
    ensures scopes { OnOk result (state.new.known.scopes ≡ state.old.known.scopes) }
    ensures value { IfOk result (λ it. it ≡ spec.function_of (words_of outside.now.words) (notes_of outside.now.notes.now) (function_form (words_of outside.now.words) f.entry) state.old.known.scopes) }
    ensures faults { OnOk result (state.new.faults ≡ spec.function_faults (C.flat counter.now) (words_of outside.now.words) (notes_of outside.now.notes.now) (function_form (words_of outside.now.words) f.entry) state.old.known.scopes state.old.faults) }
{
    let name = name_of(alloc, outside.words.get(f.name))?;
    enter_function(alloc, &outside.words, state)?;
    let defines = has_body(&outside.words, f);
    read_parameters(alloc, state, defines, f.parameters)?;
    let params = state.slots.len() as u32;
    let Inside { labels, body } = read_inside(alloc, counter, outside, state, f)?;
    let slots = leave_function(alloc, state);
    Ok(Function {
        name,
        result: result_kind(&outside.words, f),
        file_only: f.is_static,
        params,
        slots,
        labels,
        body,
        flat: false,
    })
}
