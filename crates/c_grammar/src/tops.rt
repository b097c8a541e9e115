//! What stands at file scope (ISO/IEC 9899:2011, 6.9), one layer at a time.

ghost use Rattle.std.specs.Prelude.{◌≡◌, map, length, option_map};
ghost use Rattle.c_grammar.specs.Tops as tops;
ghost use Rattle.c_grammar.specs.Parts as spec;
ghost use Rattle.c_grammar.specs.Views.{words_of};
ghost use Rattle.c_grammar.specs.ItemViews.{body_form, size_form};
ghost use Rattle.c_grammar.specs.TopViews.{enumerator_of, parameter_of, top_of, words_in, enumerator_form, parameter_form, function_form, top_form};
ghost use Rattle.c_grammar.specs.declared.syntax.Syntax.{out-Syntax};

use crate::declarations::{SizeLayer, first_at};
use crate::layer::is_token;
use crate::statements::BodyLayer;
use crate::words::Words;
use crate::{Production, SyntaxNode};
use c_types::List;
use std::alloc::Global;

/// An enum constant, by the token of its name, and the value that is written.
#[derive(Clone, Copy)]
pub struct EnumeratorLayer<'a> {
    pub name: u32,
    pub value: Option<&'a SyntaxNode>,
}

/// A parameter, by its first token and the token of its name.
#[derive(Clone, Copy)]
pub struct ParameterLayer<'a> {
    pub first: u32,
    pub constant: bool,
    /// The node of the type's words; none where the syntax is that of no derivation.
    pub kind: Option<&'a SyntaxNode>,
    pub name: Option<u32>,
    pub size: SizeLayer<'a>,
}

/// A function's declaration or definition, by the token of its name.
#[derive(Clone, Copy)]
pub struct FunctionLayer<'a> {
    pub is_static: bool,
    /// The node of the words of the result's type, none for `void`.
    pub result: Option<&'a SyntaxNode>,
    pub name: u32,
    /// The parameters, among tokens.
    pub parameters: &'a [SyntaxNode],
    /// The block of its body, or the `;` in its place.
    pub body: &'a SyntaxNode,
    /// All nodes of the function.
    pub nodes: &'a [SyntaxNode],
}

#[derive(Clone, Copy)]
pub enum TopLayer<'a> {
    /// A directive.
    Line,
    /// The enum constants, among tokens.
    Enum(&'a [SyntaxNode]),
    /// Variables, and whether they are `static`.
    Globals(bool, &'a SyntaxNode),
    Defines(FunctionLayer<'a>),
    /// Nothing of a file.
    Unread,
}

#[tactic(auto, using(crate::proofs::Items::parts))]
fn enumerator_by<'a>(words: &Words, parts: &'a [SyntaxNode]) -> EnumeratorLayer<'a>
    ensures { spec.enumerator (map (spec.part_of (words_of words.now)) parts.now) ≡ enumerator_form (words_of words.now) result }
{
    let name = first_at(words, parts, 0);
    if parts.len() == 3 {
        return EnumeratorLayer {
            name,
            value: Some(&parts[2]),
        };
    }
    EnumeratorLayer { name, value: None }
}

/// The enum constant that a syntax writes, and none where it writes something else.
#[tactic(auto, using(crate::proofs::FileScope::opened_tops))]
pub fn enumerator_layer<'a>(words: &Words, x: &'a SyntaxNode) -> Option<EnumeratorLayer<'a>>
    ensures { enumerator_of (words_of words.now) x.now ≡ option_map (enumerator_form (words_of words.now)) result }
{
    match x.rule() {
        Production::Enumerator => Some(enumerator_by(words, x.parts())),
        _ => None,
    }
}

/// The name of a parameter, by what stands behind its type.
#[tactic(auto, using(crate::proofs::Items::parts))]
fn parameter_name(words: &Words, parts: &[SyntaxNode]) -> Option<u32>
    ensures { result ≡ spec.parameter_name (map (spec.part_of (words_of words.now)) parts.now) }
{
    if parts.len() == 1 {
        return Some(parts[0].first());
    }
    if parts.len() == 3 {
        return if is_token(parts[1].rule()) {
            Some(parts[0].first())
        } else {
            None
        };
    }
    if parts.len() == 4 {
        return Some(parts[0].first());
    }
    None
}

#[tactic(auto, using(crate::proofs::Items::parts))]
fn parameter_size<'a>(words: &Words, parts: &'a [SyntaxNode]) -> SizeLayer<'a>
    ensures { spec.parameter_size (map (spec.part_of (words_of words.now)) parts.now) ≡ size_form (words_of words.now) result }
{
    if parts.len() == 2 {
        return SizeLayer::Unsized;
    }
    if parts.len() == 3 {
        return if is_token(parts[1].rule()) {
            SizeLayer::Unsized
        } else {
            SizeLayer::Sized(&parts[1])
        };
    }
    if parts.len() == 4 {
        return SizeLayer::Sized(&parts[2]);
    }
    SizeLayer::NoSize
}

#[tactic(auto, using(crate::proofs::FileScope::parameters))]
fn parameter_by<'a>(words: &Words, first: u32, parts: &'a [SyntaxNode]) -> ParameterLayer<'a>
    ensures { spec.parameter first (map (spec.part_of (words_of words.now)) parts.now) ≡ parameter_form (words_of words.now) result }
{
    if parts.len() == 0 {
        return ParameterLayer {
            first,
            constant: true,
            kind: None,
            name: None,
            size: SizeLayer::NoSize,
        };
    }
    if !is_token(parts[0].rule()) {
        let behind = &parts[1..];
        let name = parameter_name(words, behind);
        let size = parameter_size(words, behind);
        return ParameterLayer {
            first,
            constant: false,
            kind: Some(&parts[0]),
            name,
            size,
        };
    }
    if parts.len() == 1 {
        return ParameterLayer {
            first,
            constant: true,
            kind: None,
            name: None,
            size: SizeLayer::NoSize,
        };
    }
    let behind = &parts[2..];
    let name = parameter_name(words, behind);
    let size = parameter_size(words, behind);
    ParameterLayer {
        first,
        constant: true,
        kind: Some(&parts[1]),
        name,
        size,
    }
}

/// The parameter that a syntax writes, and none where it writes something else.
#[tactic(auto, using(crate::proofs::FileScope::opened_tops))]
pub fn parameter_layer<'a>(words: &Words, x: &'a SyntaxNode) -> Option<ParameterLayer<'a>>
    ensures { parameter_of (words_of words.now) x.now ≡ option_map (parameter_form (words_of words.now)) result }
{
    match x.rule() {
        Production::Param => Some(parameter_by(words, x.first(), x.parts())),
        _ => None,
    }
}

/// The nodes among which the parameters stand.
#[tactic(auto, using(crate::proofs::FileScope::opened_tops))]
fn parameters_of<'a>(words: &Words, x: &'a SyntaxNode) -> &'a [SyntaxNode]
    ensures { spec.parameters_in (spec.part_of (words_of words.now) x.now).content ≡ spec.gathered spec.parameter_in (map (spec.part_of (words_of words.now)) result.now) }
{
    match x.rule() {
        Production::Params => x.parts(),
        _ => &[],
    }
}

#[tactic(auto, using(crate::proofs::FileScope::opened_tops))]
fn result_of<'a>(words: &Words, x: &'a SyntaxNode) -> Option<&'a SyntaxNode>
    ensures { spec.result_words (spec.part_of (words_of words.now) x.now) ≡ option_map (λ y. words_in (words_of words.now) y.now) result }
{
    if is_token(x.rule()) {
        return None;
    }
    Some(x)
}

#[tactic(auto, using(crate::proofs::Items::parts))]
fn function_of<'a>(words: &Words, is_static: bool, parts: &'a [SyntaxNode]) -> FunctionLayer<'a>
    requires { length parts.now ≡ 6 }
    ensures { spec.function_of is_static (map (spec.part_of (words_of words.now)) parts.now) ≡ function_form (words_of words.now) result }
{
    FunctionLayer {
        is_static,
        result: result_of(words, &parts[0]),
        name: parts[1].first(),
        parameters: parameters_of(words, &parts[3]),
        body: &parts[5],
        nodes: parts,
    }
}

#[tactic(auto, using(crate::proofs::Items::parts))]
fn function_layer<'a>(words: &Words, parts: &'a [SyntaxNode]) -> TopLayer<'a>
    ensures { spec.function (map (spec.part_of (words_of words.now)) parts.now) ≡ top_form (words_of words.now) result }
{
    if parts.len() == 7 {
        return TopLayer::Defines(function_of(words, true, &parts[1..]));
    }
    if parts.len() == 6 {
        return TopLayer::Defines(function_of(words, false, parts));
    }
    TopLayer::Unread
}

#[tactic(auto, using(crate::proofs::Items::parts))]
fn globals_layer<'a>(words: &Words, parts: &'a [SyntaxNode]) -> TopLayer<'a>
    ensures { spec.globals (map (spec.part_of (words_of words.now)) parts.now) ≡ top_form (words_of words.now) result }
{
    if parts.len() == 2 {
        return TopLayer::Globals(true, &parts[1]);
    }
    if parts.len() == 1 {
        return TopLayer::Globals(false, &parts[0]);
    }
    TopLayer::Unread
}

/// What stands at file scope, as a syntax writes it.
#[tactic(auto, using(crate::proofs::FileScope::opened_tops))]
pub fn top_layer<'a>(words: &Words, x: &'a SyntaxNode) -> TopLayer<'a>
    ensures { top_of (words_of words.now) x.now ≡ tops.From (out-Syntax x.now).first (out-Syntax x.now).after (top_form (words_of words.now) result) }
{
    match x.rule() {
        Production::Token => TopLayer::Line,
        Production::Enum => TopLayer::Enum(x.parts()),
        Production::Declaration => globals_layer(words, x.parts()),
        Production::Function => function_layer(words, x.parts()),
        _ => TopLayer::Unread,
    }
}

/// The nodes of what stands at file scope.
#[tactic(auto, using(crate::proofs::FileScope::opened_tops))]
pub fn tops_of<'a>(words: &Words, x: &'a SyntaxNode) -> &'a [SyntaxNode]
    ensures { spec.file_of (words_of words.now) x.now ≡ map (top_of (words_of words.now)) result.now }
{
    match x.rule() {
        Production::File => x.parts(),
        _ => &[],
    }
}

/// The nodes of what stands at file scope, for whoever needs the file no more. They can be given back one by one.
#[tactic(auto, using(crate::proofs::FileScope::opened_tops))]
pub fn into_tops(alloc: Global, words: &Words, x: SyntaxNode) -> List<SyntaxNode>
    ensures { spec.file_of (words_of words.now) x ≡ map (top_of (words_of words.now)) result }
{
    match x.rule() {
        Production::File => x.into_parts(),
        _ => {
            drop(x);
            List::new(alloc)
        }
    }
}

/// The body of a function from its block, and none where no block stands there.
#[tactic(auto, using(crate::proofs::FileScope::opened_tops))]
pub fn block_layer<'a>(words: &Words, x: &'a SyntaxNode) -> Option<BodyLayer<'a>>
    ensures { spec.block_in (spec.part_of (words_of words.now) x.now) ≡ option_map (body_form (words_of words.now)) result }
{
    match x.rule() {
        Production::Block => Some(BodyLayer::Braces(x.first(), x.after(), x.parts())),
        _ => None,
    }
}
