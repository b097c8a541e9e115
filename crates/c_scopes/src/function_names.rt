//! Functions by their names.

ghost use Rattle.std.specs.Prelude.{◌≡◌, [], IfOk, OnOk};
ghost use Rattle.std.specs.Option.{option_copied};
ghost use Rattle.c_kinds.specs.Views.{env_of};
ghost use Rattle.c_grammar.specs.TopViews.{function_form, top_of};
ghost use Rattle.c_grammar.specs.Views.{words_of};
ghost use Rattle.c_comments.specs.NodeViews.{tops_in};
ghost use Rattle.c_scopes.specs.FunctionNames as spec;
ghost use Rattle.c_scopes.specs.NodeViews.{parameters_of};

use crate::file_names::bind_name;
use crate::signatures::{result_kind, same_result, same_signature, signature};
use c_grammar::{
    FunctionLayer, SyntaxNode, TopLayer, Words, block_layer, parameter_layer, top_layer,
};
use c_kinds::{Binding, Fault, Known, Signature, report, report_if};
use c_types::{IntKind, Memory, Stack, is_known, reasons};
use name_keys::{Key, key_of};
use std::alloc::Global;
use std::collections::BTreeSet;
use std::marker::Model;

/// Names of functions, which contracts see each once and in byte order.
#[derive(Drop)]
pub struct FunctionNames<'a> {
    names: BTreeSet<Key<'a>>,
}

impl<'a> Model for FunctionNames<'a> {
    ghost use Rattle.std.specs.Prelude.{List, ℕ};

    ghost Value = { List (List ℕ) };

    ghost view = { λ it. it.names.keys };
}

impl<'a> FunctionNames<'a> {
    /// No names.
    pub fn new(alloc: Global) -> FunctionNames<'a>
        ensures { result ≡ [] }
    {
        FunctionNames {
            names: BTreeSet::new(alloc),
        }
    }

    /// Whether a name is among them.
    pub fn has(&self, name: &'a [u8]) -> bool
        ensures { result ≡ spec.has_function self.now name.now }
    {
        self.names.contains(&key_of(name))
    }

    /// Puts a name among them.
    pub fn add(&mut self, name: &'a [u8]) -> Result<(), Memory>
        ensures { OnOk result (self.new ≡ spec.with_function name.now self.old) }
    {
        self.names.insert(key_of(name))?;
        Ok(())
    }
}

/// Whether a function has a body.
pub fn has_body(words: &Words, f: FunctionLayer) -> bool
    ensures { result ≡ spec.has_body (function_form (words_of words.now) f.entry) }
{
    block_layer(words, f.body).is_some()
}

/// Puts a function among those with a body, if it has one.
pub fn add_body<'a>(
    words: &Words<'a>,
    f: FunctionLayer,
    bodies: &mut FunctionNames<'a>,
) -> Result<(), Memory>
    ensures { OnOk result (bodies.new ≡ spec.with_body (words_of words.now) (function_form (words_of words.now) f.entry) bodies.old) }
{
    if !has_body(words, f) {
        return Ok(());
    }
    bodies.add(words.get(f.name))
}

fn add_top<'a>(
    words: &Words<'a>,
    x: &SyntaxNode,
    bodies: &mut FunctionNames<'a>,
) -> Result<(), Memory>
    ensures { OnOk result (bodies.new ≡ spec.with_top (words_of words.now) (top_of (words_of words.now) x.now) bodies.old) }
{
    match top_layer(words, x) {
        TopLayer::Defines(f) => add_body(words, f, bodies),
        TopLayer::Line => Ok(()),
        TopLayer::Enum(_) => Ok(()),
        TopLayer::Globals(_, _) => Ok(()),
        TopLayer::Unread => Ok(()),
    }
}

/// The functions that have a body in a file.
#[tactic(auto, using(crate::proofs::Nodes::tops))]
pub fn bodies_of<'a>(
    alloc: Global,
    words: &Words<'a>,
    nodes: &[SyntaxNode],
) -> Result<FunctionNames<'a>, Memory>
    ensures { IfOk result (λ it. it ≡ spec.bodies_of (words_of words.now) (tops_in (words_of words.now) nodes.now)) }
{
    let mut bodies = FunctionNames::new(alloc);
    let mut i = nodes.len();
    while i > 0 {
        i -= 1;
        add_top(words, &nodes[i], &mut bodies)?;
    }
    Ok(bodies)
}

#[tactic(auto, using(crate::proofs::Nodes::parameters))]
fn has_no_parameter(words: &Words, nodes: &[SyntaxNode]) -> bool
    ensures { result ≡ spec.is_empty (parameters_of (words_of words.now) nodes.now) }
{
    for x in nodes {
        if parameter_layer(words, x).is_some() {
            return false;
        }
    }
    true
}

/// Whether a function is `int main(void)` or `int main()`, if that is its name.
fn is_main_form(words: &Words, f: FunctionLayer) -> bool
    ensures { result ≡ spec.is_main_form (words_of words.now) (function_form (words_of words.now) f.entry) }
{
    same_result(result_kind(words, f), Some(IntKind::Int))
        && !f.is_static
        && has_no_parameter(words, f.parameters)
}

/// Reports a name that is bound to another function, to this one with a body, or to something else.
fn report_again(
    faults: &mut Stack<Fault>,
    at: u32,
    again: bool,
    signature: &Signature,
    binding: Option<&Binding>,
) -> Result<(), Memory>
    ensures { OnOk result (faults.new ≡ spec.again_faults at again signature.now (option_copied binding.entry) faults.old) }
{
    match binding {
        None => Ok(()),
        Some(Binding::Function(bound)) => {
            report_if(
                faults,
                !same_signature(bound, signature),
                at,
                reasons::DECLARATIONS_DISAGREE,
            )?;
            report_if(faults, again, at, reasons::DECLARED_TWICE)
        }
        Some(_) => report(faults, at, reasons::DECLARED_TWICE),
    }
}

/// Reports what is wrong with the name of a function.
fn report_function_name<'a>(
    faults: &mut Stack<Fault>,
    known: &Known<'a>,
    before: &FunctionNames<'a>,
    f: FunctionLayer,
    signature: &Signature,
) -> Result<(), Memory>
    ensures { OnOk result (faults.new ≡ spec.name_faults before.now signature.now (function_form (words_of known.now.words) f.entry) (env_of known.now) faults.old) }
{
    let name = known.words.get(f.name);
    report_if(faults, is_known(name), f.name, reasons::DECLARED_TWICE)?;
    let bad_main = name == b"main".as_slice() && !is_main_form(&known.words, f);
    report_if(faults, bad_main, f.name, reasons::BAD_MAIN)?;
    let again = has_body(&known.words, f) && before.has(name);
    report_again(faults, f.name, again, signature, known.scopes.bound(name))
}

/// The signature of a function of a file with these bodies.
fn signature_in<'a>(
    alloc: Global,
    words: &Words<'a>,
    bodies: &FunctionNames<'a>,
    f: FunctionLayer,
) -> Result<Signature, Memory>
    ensures { IfOk result (λ s. s ≡ spec.signature_in bodies.now (words_of words.now) (function_form (words_of words.now) f.entry)) }
{
    let external = !bodies.has(words.get(f.name));
    signature(alloc, words, external, f)
}

/// Declares a function of a file with these bodies, behind those that have one so far.
pub fn declare_function<'a>(
    alloc: Global,
    known: &mut Known<'a>,
    faults: &mut Stack<Fault>,
    bodies: &FunctionNames<'a>,
    before: &FunctionNames<'a>,
    f: FunctionLayer,
) -> Result<(), Memory>
    ensures words { OnOk result (known.new.words ≡ known.old.words) }
    ensures env { OnOk result (env_of known.new ≡ spec.function_bound bodies.now (function_form (words_of known.old.words) f.entry) (env_of known.old)) }
    ensures faults { OnOk result (faults.new ≡ spec.function_name_faults bodies.now before.now (function_form (words_of known.old.words) f.entry) (env_of known.old) faults.old) }
{
    let signature = signature_in(alloc, &known.words, bodies, f)?;
    report_function_name(faults, known, before, f, &signature)?;
    bind_name(known, f.name, Binding::Function(signature))
}
