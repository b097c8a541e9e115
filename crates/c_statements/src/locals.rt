//! Declared variables of a block.

ghost use Rattle.std.specs.Prelude.{◌≡◌, ◌++◌, ◌∷◌, [], IfOk, OnOk};
ghost use Rattle.c_grammar.specs.ItemViews.{declaration_of, declaration_form, declarator_form, declarators_of, size_form};
ghost use Rattle.c_grammar.specs.Views.{words_of};
ghost use Rattle.c_grammar.specs.Words.{kind_of as the_kind};
ghost use Rattle.c_kinds.specs.Views.{env_of};
ghost use Rattle.c_statements.specs.Declarations as spec;
ghost use Rattle.c_statements.specs.Nodes.{type_words};

use crate::arrays::{extent_of, is_bad_shape, read_length};
use crate::extents::{Kinded, Length};
use crate::initialisers::initial;
use crate::slots::declare;
use c_grammar::{
    DeclarationLayer, DeclaratorLayer, SizeLayer, SyntaxNode, Words, declaration_layer,
    declarator_layer, kind_of,
};
use c_kinds::{Fault, Known, Shape, report_if};
use c_tree::{Item, Slot};
use c_types::{IntKind, List, Memory, Stack, reasons};
use std::alloc::Global;

/// Whether a declared name is that of an array.
pub fn is_array(words: &Words, size: SizeLayer) -> bool
    ensures { result ≡ spec.is_array (size_form (words_of words.now) size.entry) }
{
    match size {
        SizeLayer::NoSize => false,
        SizeLayer::Unsized => true,
        SizeLayer::Sized(_) => true,
    }
}

/// Declares a variable, whose length was read and whose initialiser comes after it.
fn declare_local<'a>(
    alloc: Global,
    known: &mut Known<'a>,
    slots: &mut List<Slot>,
    kinded: Kinded,
    d: DeclaratorLayer,
    length: Length,
) -> Result<(), Memory>
    requires { length ≡ spec.length_in (env_of known.old) (size_form (words_of known.old.words) d.size) }
    ensures words { OnOk result (known.new.words ≡ known.old.words) }
    ensures walk { OnOk result (spec.walk known.new.scopes slots.new ≡ spec.declared (words_of known.old.words) kinded (declarator_form (words_of known.old.words) d.entry) (spec.walk known.old.scopes slots.old)) }
{
    let words = known.words;
    let shape = Shape {
        kind: kinded.kind,
        array: is_array(&words, d.size),
        constant: kinded.constant,
    };
    let extent = extent_of(&words, length, d.value);
    declare(
        alloc,
        &words,
        &mut known.scopes,
        slots,
        d.name,
        shape,
        extent,
    )
}

/// Reports a length that is no constant or that no array can have, an initialiser that doesn't fit,
/// and a name that is declared twice.
fn report_local(
    alloc: Global,
    known: &Known,
    faults: &mut Stack<Fault>,
    d: DeclaratorLayer,
) -> Result<Length, Memory>
    ensures value { IfOk result (λ l. l ≡ spec.length_in (env_of known.now) (size_form (words_of known.now.words) d.entry.size)) }
    ensures faults { OnOk result (faults.new ≡ spec.shape_faults (env_of known.now) (declarator_form (words_of known.now.words) d.entry) faults.old) }
{
    let length = read_length(alloc, known, faults, d.size)?;
    let bad = is_bad_shape(&known.words, true, length, d.value);
    report_if(faults, bad, d.name, reasons::BAD_ARRAY)?;
    let bound = known.scopes.is_bound(known.words.get(d.name));
    report_if(faults, bound, d.name, reasons::DECLARED_TWICE)?;
    Ok(length)
}

/// Declares a variable, and puts its declaration behind other items.
fn add_local<'a>(
    alloc: Global,
    words: &Words<'a>,
    known: &mut Known<'a>,
    slots: &mut List<Slot>,
    faults: &mut Stack<Fault>,
    kinded: Kinded,
    d: DeclaratorLayer,
    out: &mut List<Item>,
) -> Result<(), Memory>
    ensures walk { OnOk result (spec.walk known.new.scopes slots.new ≡ spec.declared (words_of words.now) kinded (declarator_form (words_of words.now) d.entry) (spec.walk known.old.scopes slots.old)) }
    ensures out { OnOk result (out.new ≡ out.old ++ spec.local (words_of words.now) kinded (declarator_form (words_of words.now) d.entry) (spec.walk known.old.scopes slots.old) ∷ []) }
    ensures faults { OnOk result (faults.new ≡ spec.local_faults (words_of words.now) kinded (declarator_form (words_of words.now) d.entry) (spec.walk known.old.scopes slots.old) faults.old) }
{
    known.words = *words;
    let length = report_local(alloc, known, faults, d)?;
    let number = slots.len() as u32;
    declare_local(alloc, known, slots, kinded, d, length)?;
    let values = initial(alloc, known, faults, d.value)?;
    out.push(Item::Local(number, values))
}

/// Declares the variables among these nodes, and puts their declarations behind other items.
#[tactic(auto, using(crate::proofs::Lists::declarators))]
fn add_locals<'a>(
    alloc: Global,
    words: &Words<'a>,
    known: &mut Known<'a>,
    slots: &mut List<Slot>,
    faults: &mut Stack<Fault>,
    kinded: Kinded,
    names: &[SyntaxNode],
    out: &mut List<Item>,
) -> Result<(), Memory>
    ensures walk { OnOk result (spec.walk known.new.scopes slots.new ≡ spec.all_declared (words_of words.now) kinded (declarators_of (words_of words.now) names.now) (spec.walk known.old.scopes slots.old)) }
    ensures out { OnOk result (out.new ≡ out.old ++ spec.locals (words_of words.now) kinded (declarators_of (words_of words.now) names.now) (spec.walk known.old.scopes slots.old)) }
    ensures faults { OnOk result (faults.new ≡ spec.locals_faults (words_of words.now) kinded (declarators_of (words_of words.now) names.now) (spec.walk known.old.scopes slots.old) faults.old) }
{
    for x in names {
        if let Some(d) = declarator_layer(words, x) {
            add_local(alloc, words, known, slots, faults, kinded, d, out)?;
        }
    }
    Ok(())
}

/// The kind of a type, which is `int` where no words are there.
pub fn kind_in(words: &Words, node: Option<&SyntaxNode>) -> IntKind
    ensures { result ≡ the_kind (words_of words.now) (type_words (words_of words.now) node.entry) }
{
    match node {
        Some(x) => kind_of(words, x),
        None => IntKind::Int,
    }
}

pub fn kinded(words: &Words, d: DeclarationLayer) -> Kinded
    ensures { result ≡ spec.kinded (words_of words.now) (declaration_form (words_of words.now) d.entry) }
{
    Kinded {
        kind: kind_in(words, d.kind),
        constant: d.constant,
    }
}

/// Declares the variables of a declaration, and puts their declarations behind other items. Their
/// violations are put in front of those that were found before. The words of `known` are set to
/// those that are given.
pub fn add_declaration<'a>(
    alloc: Global,
    words: &Words<'a>,
    known: &mut Known<'a>,
    slots: &mut List<Slot>,
    faults: &mut Stack<Fault>,
    x: &SyntaxNode,
    out: &mut List<Item>,
) -> Result<(), Memory>
    ensures walk { OnOk result (let d = declaration_of (words_of words.now) x.now in spec.walk known.new.scopes slots.new ≡ spec.all_declared (words_of words.now) (spec.kinded (words_of words.now) d) d.names (spec.walk known.old.scopes slots.old)) }
    ensures out { OnOk result (let d = declaration_of (words_of words.now) x.now in out.new ≡ out.old ++ spec.locals (words_of words.now) (spec.kinded (words_of words.now) d) d.names (spec.walk known.old.scopes slots.old)) }
    ensures faults { OnOk result (let d = declaration_of (words_of words.now) x.now in faults.new ≡ spec.locals_faults (words_of words.now) (spec.kinded (words_of words.now) d) d.names (spec.walk known.old.scopes slots.old) faults.old) }
{
    let d = declaration_layer(words, x);
    let kinded = kinded(words, d);
    add_locals(alloc, words, known, slots, faults, kinded, d.names, out)
}
