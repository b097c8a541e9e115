//! Declarations of variables (ISO/IEC 9899:2011, 6.7), one layer at a time.

ghost use Rattle.std.specs.Prelude.{◌≡◌, ◌≤◌, length, map, option_map};
ghost use Rattle.c_grammar.specs.Items as items;
ghost use Rattle.c_grammar.specs.Parts as spec;
ghost use Rattle.c_grammar.specs.Views.{words_of};
ghost use Rattle.c_grammar.specs.ItemViews.{declaration_of, declarator_of, declaration_form, declarator_form, size_form, initialiser_form};

use crate::layer::is_token;
use crate::words::Words;
use crate::{Production, SyntaxNode};

/// What stands in square brackets behind a declared name.
#[derive(Clone, Copy)]
pub enum SizeLayer<'a> {
    NoSize,
    Unsized,
    Sized(&'a SyntaxNode),
}

#[derive(Clone, Copy)]
pub enum InitialiserLayer<'a> {
    NoValue,
    OneValue(&'a SyntaxNode),
    /// The values in braces, between tokens.
    ValueList(&'a [SyntaxNode]),
}

/// A declared name, by its token.
#[derive(Clone, Copy)]
pub struct DeclaratorLayer<'a> {
    pub name: u32,
    pub size: SizeLayer<'a>,
    pub value: InitialiserLayer<'a>,
}

#[derive(Clone, Copy)]
pub struct DeclarationLayer<'a> {
    pub constant: bool,
    /// The node of the type's words; none where the syntax is that of no derivation.
    pub kind: Option<&'a SyntaxNode>,
    /// The declarators, among tokens.
    pub names: &'a [SyntaxNode],
}

#[tactic(auto, using(crate::proofs::Items::parts))]
fn initialiser_by<'a>(words: &Words, parts: &'a [SyntaxNode]) -> InitialiserLayer<'a>
    ensures { spec.initialiser (map (spec.part_of (words_of words.now)) parts.now) ≡ initialiser_form (words_of words.now) result }
{
    if parts.len() == 1 {
        return InitialiserLayer::OneValue(&parts[0]);
    }
    InitialiserLayer::ValueList(parts)
}

/// The initialiser that a syntax writes, and none where it writes something else.
#[tactic(auto, using(crate::proofs::Items::opened_nodes))]
pub fn initialiser_layer<'a>(words: &Words, x: &'a SyntaxNode) -> InitialiserLayer<'a>
    ensures { spec.initialiser_in (spec.part_of (words_of words.now) x.now).content ≡ initialiser_form (words_of words.now) result }
{
    match x.rule() {
        Production::Initialiser => initialiser_by(words, x.parts()),
        _ => InitialiserLayer::NoValue,
    }
}

/// The number of the first token of a part, and 0 where there is no such part.
#[tactic(auto, using(crate::proofs::Items::parts))]
pub fn first_at(words: &Words, parts: &[SyntaxNode], at: usize) -> u32
    ensures { result ≡ spec.first_at (map (spec.part_of (words_of words.now)) parts.now) at }
{
    if at < parts.len() {
        parts[at].first()
    } else {
        0
    }
}

#[tactic(auto, using(crate::proofs::Items::parts))]
fn declarator_of<'a>(
    words: &Words,
    parts: &'a [SyntaxNode],
    size: SizeLayer<'a>,
    value: InitialiserLayer<'a>,
) -> DeclaratorLayer<'a>
    ensures { spec.declared (map (spec.part_of (words_of words.now)) parts.now) (size_form (words_of words.now) size.entry) (initialiser_form (words_of words.now) value.entry) ≡ declarator_form (words_of words.now) result }
{
    DeclaratorLayer {
        name: first_at(words, parts, 0),
        size,
        value,
    }
}

#[tactic(auto, using(crate::proofs::Items::parts))]
fn declarator_by<'a>(words: &Words, parts: &'a [SyntaxNode]) -> DeclaratorLayer<'a>
    ensures { spec.declarator (map (spec.part_of (words_of words.now)) parts.now) ≡ declarator_form (words_of words.now) result }
{
    let none = InitialiserLayer::NoValue;
    if parts.len() == 3 {
        if is_token(parts[2].rule()) {
            return declarator_of(words, parts, SizeLayer::Unsized, none);
        }
        let value = initialiser_layer(words, &parts[2]);
        return declarator_of(words, parts, SizeLayer::NoSize, value);
    }
    if parts.len() == 4 {
        return declarator_of(words, parts, SizeLayer::Sized(&parts[2]), none);
    }
    if parts.len() == 5 {
        let value = initialiser_layer(words, &parts[4]);
        return declarator_of(words, parts, SizeLayer::Unsized, value);
    }
    if parts.len() == 6 {
        let value = initialiser_layer(words, &parts[5]);
        return declarator_of(words, parts, SizeLayer::Sized(&parts[2]), value);
    }
    declarator_of(words, parts, SizeLayer::NoSize, none)
}

/// The declarator that a syntax writes, and none where it writes something else.
#[tactic(auto, using(crate::proofs::Items::opened_nodes))]
pub fn declarator_layer<'a>(words: &Words, x: &'a SyntaxNode) -> Option<DeclaratorLayer<'a>>
    ensures { declarator_of (words_of words.now) x.now ≡ option_map (declarator_form (words_of words.now)) result }
{
    match x.rule() {
        Production::Declarator => Some(declarator_by(words, x.parts())),
        _ => None,
    }
}

/// What stands behind `const`, if it stands there.
#[tactic(auto, using(crate::proofs::Items::parts))]
fn declaration_by<'a>(words: &Words, parts: &'a [SyntaxNode]) -> DeclarationLayer<'a>
    ensures { spec.declaration (map (spec.part_of (words_of words.now)) parts.now) ≡ declaration_form (words_of words.now) result }
{
    if parts.len() < 2 {
        return DeclarationLayer {
            constant: false,
            kind: None,
            names: &[],
        };
    }
    if is_token(parts[0].rule()) {
        return DeclarationLayer {
            constant: true,
            kind: Some(&parts[1]),
            names: parts,
        };
    }
    DeclarationLayer {
        constant: false,
        kind: Some(&parts[0]),
        names: parts,
    }
}

/// The declaration that a syntax writes, one without names where it writes something else.
#[tactic(auto, using(crate::proofs::Items::opened_nodes))]
pub fn declaration_layer<'a>(words: &Words, x: &'a SyntaxNode) -> DeclarationLayer<'a>
    ensures { declaration_of (words_of words.now) x.now ≡ declaration_form (words_of words.now) result }
{
    match x.rule() {
        Production::Local => declaration_by(words, x.parts()),
        _ => DeclarationLayer {
            constant: false,
            kind: None,
            names: &[],
        },
    }
}
