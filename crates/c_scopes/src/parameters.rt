//! The parameters of a function (ISO/IEC 9899:2011, 6.7.6.3): its first slots.

ghost use Rattle.std.specs.Prelude.{◌≡◌, ◌++◌, ◌∷◌, [], length, IfOk, OnOk};
ghost use Rattle.c_bodies.specs.Views.{walk_of};
ghost use Rattle.c_kinds.specs.Views.{env_of};
ghost use Rattle.c_grammar.specs.ItemViews.{size_form};
ghost use Rattle.c_grammar.specs.TopViews.{parameter_form, parameter_of};
ghost use Rattle.c_grammar.specs.Views.{words_of};
ghost use Rattle.c_statements.specs.Declarations.{walk};
ghost use Rattle.c_statements.specs.Functions as spec;
ghost use Rattle.c_scopes.specs.NodeViews as views;
ghost use Rattle.c_scopes.specs.NodeViews.{parameters_of};

use crate::signatures::parameter_kind;
use c_bodies::State;
use c_grammar::{ParameterLayer, SyntaxNode, Words, parameter_layer};
use c_kinds::{Binding, Fault, Known, Shape, name_of, report_if};
use c_statements::{is_array, read_length};
use c_tree::Slot;
use c_types::{List, Memory, Name, Stack, reasons};
use std::alloc::Global;

fn parameter_shape(words: &Words, p: ParameterLayer) -> Shape
    ensures { result ≡ spec.parameter_shape (words_of words.now) (parameter_form (words_of words.now) p.entry) }
{
    Shape {
        kind: parameter_kind(words, p),
        array: is_array(words, p.size),
        constant: p.constant,
    }
}

fn parameter_name(alloc: Global, words: &Words, name: Option<u32>) -> Result<Name, Memory>
    ensures { IfOk result (λ n. n ≡ spec.parameter_name (words_of words.now) name) }
{
    match name {
        Some(at) => name_of(alloc, words.get(at)),
        None => name_of(alloc, &[]),
    }
}

fn parameter_slot(alloc: Global, words: &Words, p: ParameterLayer) -> Result<Slot, Memory>
    ensures { IfOk result (λ s. s ≡ spec.parameter_slot (words_of words.now) (parameter_form (words_of words.now) p.entry)) }
{
    let cells = if is_array(words, p.size) {
        Some(0)
    } else {
        None
    };
    Ok(Slot {
        name: parameter_name(alloc, words, p.name)?,
        kind: parameter_kind(words, p),
        cells,
        constant: p.constant,
    })
}

/// Gives a parameter the next slot, and binds its name, if it has one.
#[tactic(auto, unfolding(c_bodies::specs::Views::walk_of))]
fn bind_parameter(alloc: Global, state: &mut State, p: ParameterLayer) -> Result<(), Memory>
    ensures words { OnOk result (state.new.known.words ≡ state.old.known.words) }
    ensures walk { OnOk result (walk_of state.new ≡ spec.bind_parameter (words_of state.old.known.words) (parameter_form (words_of state.old.known.words) p.entry) (walk_of state.old)) }
    ensures faults { OnOk result (state.new.faults ≡ state.old.faults) }
{
    let words = state.known.words;
    let shape = parameter_shape(&words, p);
    let number = state.slots.len() as u32;
    state.slots.push(parameter_slot(alloc, &words, p)?)?;
    if let Some(at) = p.name {
        state
            .known
            .scopes
            .bind(words.get(at), Binding::Local(number, shape))?;
    }
    Ok(())
}

fn report_parameter(
    alloc: Global,
    known: &Known,
    faults: &mut Stack<Fault>,
    defines: bool,
    p: ParameterLayer,
) -> Result<(), Memory>
    ensures { OnOk result (faults.new ≡ spec.parameter_fault (words_of known.now.words) defines (parameter_form (words_of known.now.words) p.entry) (walk known.now.scopes []) faults.old) }
{
    read_length(alloc, known, faults, p.size)?;
    match p.name {
        Some(at) => {
            let again = known.scopes.is_bound(known.words.get(at));
            report_if(faults, again, at, reasons::DECLARED_TWICE)
        }
        None => report_if(faults, defines, p.first, reasons::NAMELESS_PARAMETER),
    }
}

/// Declares a parameter, of a function with a body or without one.
#[tactic(auto, unfolding(c_bodies::specs::Views::walk_of))]
fn read_parameter(
    alloc: Global,
    state: &mut State,
    defines: bool,
    p: ParameterLayer,
) -> Result<(), Memory>
    ensures words { OnOk result (state.new.known.words ≡ state.old.known.words) }
    ensures walk { OnOk result (walk_of state.new ≡ spec.bind_parameter (words_of state.old.known.words) (parameter_form (words_of state.old.known.words) p.entry) (walk_of state.old)) }
    ensures faults { OnOk result (state.new.faults ≡ spec.parameter_fault (words_of state.old.known.words) defines (parameter_form (words_of state.old.known.words) p.entry) (walk_of state.old) state.old.faults) }
{
    report_parameter(alloc, &state.known, &mut state.faults, defines, p)?;
    bind_parameter(alloc, state, p)
}

/// Declares the parameter that a node writes, if it writes one.
#[tactic(auto, unfolding(c_bodies::specs::Views::walk_of))]
fn read_node(alloc: Global, state: &mut State, defines: bool, x: &SyntaxNode) -> Result<(), Memory>
    ensures words { OnOk result (state.new.known.words ≡ state.old.known.words) }
    ensures walk { OnOk result (walk_of state.new ≡ views.bind_optional (words_of state.old.known.words) (parameter_of (words_of state.old.known.words) x.now) (walk_of state.old)) }
    ensures faults { OnOk result (state.new.faults ≡ views.optional_faults (words_of state.old.known.words) defines (parameter_of (words_of state.old.known.words) x.now) (walk_of state.old) state.old.faults) }
{
    match parameter_layer(&state.known.words, x) {
        Some(p) => read_parameter(alloc, state, defines, p),
        None => Ok(()),
    }
}

/// Declares the parameters among these nodes, of a function with a body or without one.
#[tactic(auto, using(crate::proofs::ParameterLists::next), unfolding(c_bodies::specs::Views::walk_of))]
pub fn read_parameters(
    alloc: Global,
    state: &mut State,
    defines: bool,
    nodes: &[SyntaxNode],
) -> Result<(), Memory>
    ensures words { OnOk result (state.new.known.words ≡ state.old.known.words) }
    ensures walk { OnOk result (walk_of state.new ≡ spec.bind_parameters (words_of state.old.known.words) (parameters_of (words_of state.old.known.words) nodes.now) (walk_of state.old)) }
    ensures faults { OnOk result (state.new.faults ≡ spec.parameters_faults (words_of state.old.known.words) defines (parameters_of (words_of state.old.known.words) nodes.now) (walk_of state.old) state.old.faults) }
{
    for x in nodes {
        read_node(alloc, state, defines, x)?;
    }
    Ok(())
}
