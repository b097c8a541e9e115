//! Signatures of functions (ISO/IEC 9899:2011, 6.7.6.3).

ghost use Rattle.std.specs.Prelude.{◌≡◌, ◌++◌, ◌∷◌, [], map, option_map, IfOk, OnOk};
ghost use Rattle.c_grammar.specs.TopViews.{function_form, parameter_form};
ghost use Rattle.c_grammar.specs.Views.{words_of};
ghost use Rattle.c_grammar.specs.Words as source;
ghost use Rattle.c_statements.specs.Functions as functions;
ghost use Rattle.c_scopes.specs.FunctionNames as spec;
ghost use Rattle.c_scopes.specs.NodeViews.{parameters_of};

use c_grammar::{FunctionLayer, ParameterLayer, SyntaxNode, Words, kind_of, parameter_layer};
use c_kinds::{Signature, Want, same_kind, same_truth};
use c_statements::is_array;
use c_types::{IntKind, List, Memory};
use std::alloc::Global;

/// The kind of a parameter, which is `int` where no word of a type stands.
pub fn parameter_kind(words: &Words, p: ParameterLayer) -> IntKind
    ensures { result ≡ source.kind_of (words_of words.now) (parameter_form (words_of words.now) p.entry).words }
{
    match p.kind {
        Some(x) => kind_of(words, x),
        None => IntKind::Int,
    }
}

/// The kind of what a function returns.
pub fn result_kind(words: &Words, f: FunctionLayer) -> Option<IntKind>
    ensures { result ≡ functions.result_kind (words_of words.now) (function_form (words_of words.now) f.entry) }
{
    match f.result {
        Some(x) => Some(kind_of(words, x)),
        None => None,
    }
}

/// What an argument for a parameter has to be.
fn want_of(words: &Words, external: bool, p: ParameterLayer) -> Want
    ensures { result ≡ functions.want_of (words_of words.now) external (parameter_form (words_of words.now) p.entry) }
{
    let kind = parameter_kind(words, p);
    if is_array(words, p.size) {
        Want::Array(kind, p.constant, external)
    } else {
        Want::Number(kind, p.constant)
    }
}

/// What the arguments for the parameters among these nodes have to be.
#[tactic(auto, using(crate::proofs::Nodes::parameters))]
fn wants_of(
    alloc: Global,
    words: &Words,
    external: bool,
    nodes: &[SyntaxNode],
) -> Result<List<Want>, Memory>
    ensures { IfOk result (λ wants. wants ≡ map (functions.want_of (words_of words.now) external) (parameters_of (words_of words.now) nodes.now)) }
{
    let mut wants = List::new(alloc);
    for x in nodes {
        if let Some(p) = parameter_layer(words, x) {
            wants.push(want_of(words, external, p))?;
        }
    }
    Ok(wants)
}

/// The signature of a function, and whether it has no body in the file.
pub fn signature(
    alloc: Global,
    words: &Words,
    external: bool,
    f: FunctionLayer,
) -> Result<Signature, Memory>
    ensures { IfOk result (λ s. s ≡ functions.signature (words_of words.now) external (function_form (words_of words.now) f.entry)) }
{
    Ok(Signature {
        result: result_kind(words, f),
        wants: wants_of(alloc, words, external, f.parameters)?,
    })
}

/// Whether two results are the same.
pub fn same_result(a: Option<IntKind>, b: Option<IntKind>) -> bool
    ensures { result ≡ spec.same_result a b }
{
    match a {
        Some(a) => match b {
            Some(b) => same_kind(a, b),
            None => false,
        },
        None => b.is_none(),
    }
}

fn same_number(kind: IntKind, constant: bool, other: Want) -> bool
    ensures { result ≡ spec.same_want (Want.Number kind constant) other }
{
    match other {
        Want::Number(other, other_constant) => {
            same_kind(kind, other) && same_truth(constant, other_constant)
        }
        Want::Array(_, _, _) => false,
        Want::Sized(_) => false,
    }
}

fn same_array(kind: IntKind, constant: bool, external: bool, other: Want) -> bool
    ensures { result ≡ spec.same_want (Want.Array kind constant external) other }
{
    match other {
        Want::Array(other, other_constant, _) => {
            same_kind(kind, other) && same_truth(constant, other_constant)
        }
        Want::Number(_, _) => false,
        Want::Sized(_) => false,
    }
}

fn same_want(a: Want, b: Want) -> bool
    ensures { result ≡ spec.same_want a b }
{
    match a {
        Want::Number(kind, constant) => same_number(kind, constant, b),
        Want::Array(kind, constant, external) => same_array(kind, constant, external, b),
        Want::Sized(_) => false,
    }
}

/// Whether what two functions want is the same.
#[tactic(auto, using(crate::proofs::Wants::same))]
fn same_wants(a: &[Want], b: &[Want]) -> bool
    ensures { result ≡ spec.same_wants a.now b.now }
{
    if a.len() != b.len() {
        return false;
    }
    for i in 0..a.len() {
        if !same_want(a[i], b[i]) {
            return false;
        }
    }
    true
}

/// Whether two declarations of a function agree.
pub fn same_signature(a: &Signature, b: &Signature) -> bool
    ensures { result ≡ spec.same_signature a.now b.now }
{
    same_result(a.result, b.result) && same_wants(a.wants.as_slice(), b.wants.as_slice())
}
