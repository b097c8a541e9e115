//! Variables of file scope (ISO/IEC 9899:2011, 6.9.2).

ghost use Rattle.std.specs.Prelude.{◌≡◌, ◌++◌, ◌∷◌, [], IfOk, OnOk};
ghost use Rattle.c_kinds.specs.Views.{env_of};
ghost use Rattle.c_grammar.specs.ItemViews.{declarator_form, declarators_of, initialiser_form, size_form};
ghost use Rattle.c_grammar.specs.Views.{words_of};
ghost use Rattle.c_statements.specs.Declarations as spec;
ghost use Rattle.c_tree.specs.declared.tree.Top.TheVariants as top;
ghost use Rattle.c_scopes.specs.FileNames.{file_name_faults};
ghost use Rattle.c_scopes.specs.Globals as globals;

use crate::constants::constant_initial;
use crate::file_names::{bind_name, report_file_name};
use c_grammar::{DeclaratorLayer, SyntaxNode, Words, declarator_layer};
use c_kinds::{Binding, Fault, Known, Shape, name_of, report_if};
use c_statements::{
    Extent, Kinded, Length, cells_of, extent_of, is_array, is_bad_shape, read_length,
};
use c_tree::{GlobalVariable, Slot, Top};
use c_types::{List, Memory, Stack, reasons};
use std::alloc::Global;

fn shape_of(words: &Words, kinded: Kinded, d: DeclaratorLayer) -> Shape
    ensures { result ≡ spec.shape_of kinded (declarator_form (words_of words.now) d.entry) }
{
    Shape {
        kind: kinded.kind,
        array: is_array(words, d.size),
        constant: kinded.constant,
    }
}

fn slot_of(alloc: Global, name: &[u8], kinded: Kinded, extent: Extent) -> Result<Slot, Memory>
    ensures { IfOk result (λ s. s ≡ record { name = name.now; kind = kinded.kind; cells = spec.cells_of extent; constant = kinded.constant }) }
{
    let cells = cells_of(extent)?;
    Ok(Slot {
        name: name_of(alloc, name)?,
        kind: kinded.kind,
        cells,
        constant: kinded.constant,
    })
}

/// The slot of a variable, with the violations of its length and its name.
fn read_slot(
    alloc: Global,
    known: &Known,
    faults: &mut Stack<Fault>,
    kinded: Kinded,
    d: DeclaratorLayer,
) -> Result<Slot, Memory>
    ensures slot { IfOk result (λ s. s ≡ spec.slot_of (env_of known.now) kinded (declarator_form (words_of known.now.words) d.entry)) }
    ensures faults { OnOk result (faults.new ≡ globals.slot_faults (declarator_form (words_of known.now.words) d.entry) (env_of known.now) faults.old) }
{
    let length = read_length(alloc, known, faults, d.size)?;
    let wrong = is_bad_shape(&known.words, false, length, d.value);
    report_if(faults, wrong, d.name, reasons::BAD_ARRAY)?;
    report_file_name(faults, known, d.name)?;
    let extent = extent_of(&known.words, length, d.value);
    slot_of(alloc, known.words.get(d.name), kinded, extent)
}

/// Declares a variable of file scope.
fn read_global<'a>(
    alloc: Global,
    known: &mut Known<'a>,
    faults: &mut Stack<Fault>,
    is_static: bool,
    kinded: Kinded,
    d: DeclaratorLayer,
) -> Result<GlobalVariable, Memory>
    ensures words { OnOk result (known.new.words ≡ known.old.words) }
    ensures env { OnOk result (env_of known.new ≡ globals.global_declared kinded (declarator_form (words_of known.old.words) d.entry) (env_of known.old)) }
    ensures value { IfOk result (λ it. it ≡ globals.global is_static kinded (declarator_form (words_of known.old.words) d.entry) (env_of known.old)) }
    ensures faults { OnOk result (faults.new ≡ globals.global_faults kinded (declarator_form (words_of known.old.words) d.entry) (env_of known.old) faults.old) }
{
    let slot = read_slot(alloc, known, faults, kinded, d)?;
    let shape = shape_of(&known.words, kinded, d);
    bind_name(known, d.name, Binding::Global(shape))?;
    let init = constant_initial(alloc, known, faults, d.value)?;
    Ok(GlobalVariable {
        slot,
        init,
        file_only: is_static,
    })
}

/// Declares the variables of a declaration, and puts them behind what stands before them.
#[tactic(auto, using(crate::proofs::Nodes::declarators))]
pub fn read_globals<'a>(
    alloc: Global,
    known: &mut Known<'a>,
    faults: &mut Stack<Fault>,
    is_static: bool,
    kinded: Kinded,
    nodes: &[SyntaxNode],
    out: &mut List<Top>,
) -> Result<(), Memory>
    ensures words { OnOk result (known.new.words ≡ known.old.words) }
    ensures env { OnOk result (env_of known.new ≡ globals.behind_globals kinded (declarators_of (words_of known.old.words) nodes.now) (env_of known.old)) }
    ensures out { OnOk result (out.new ≡ out.old ++ globals.globals is_static kinded (declarators_of (words_of known.old.words) nodes.now) (env_of known.old)) }
    ensures faults { OnOk result (faults.new ≡ globals.globals_faults kinded (declarators_of (words_of known.old.words) nodes.now) (env_of known.old) faults.old) }
{
    for x in nodes {
        if let Some(d) = declarator_layer(&known.words, x) {
            let global = read_global(alloc, known, faults, is_static, kinded, d)?;
            out.push(Top::Global(global))?;
        }
    }
    Ok(())
}
