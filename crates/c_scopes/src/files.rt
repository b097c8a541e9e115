//! What stands at file scope (ISO/IEC 9899:2011, 6.9).

ghost use Rattle.std.specs.Prelude.{◌≡◌, ◌++◌, ◌∷◌, [], Some, negsuc, map, IfOk, OnOk};
ghost use Rattle.c_kinds.specs.Views.{env_of};
ghost use Rattle.c_grammar.specs.ItemViews.{declaration_of};
ghost use Rattle.c_grammar.specs.TopViews.{function_form, top_form, top_of};
ghost use Rattle.c_grammar.specs.Views.{words_of};
ghost use Rattle.c_statements.specs.NoteViews.{all_now, notes_of};
ghost use Rattle.c_grammar.specs.Tops as tops;
ghost use Rattle.c_comments.specs.NodeViews.{tops_in};
ghost use Rattle.c_scopes.specs.Enums as enums;
ghost use Rattle.c_scopes.specs.FunctionNames as names;
ghost use Rattle.c_scopes.specs.Files as spec;
ghost use Rattle.c_scopes.specs.FileViews.{env, file_of, state_of};
ghost use Rattle.c_scopes.specs.NodeViews.{enumerators_of};
ghost use Rattle.c_tree.specs.declared.tree.Top.TheVariants as top;

use crate::enums::read_enum;
use crate::flat_counter::FlatCounter;
use crate::function_names::{FunctionNames, add_body, declare_function};
use crate::functions::{Outside, read_function};
use crate::globals::read_globals;
use c_bodies::State;
use c_grammar::{FunctionLayer, SyntaxNode, TopLayer, declaration_layer, top_layer};
use c_kinds::{Fault, Known};
use c_statements::{Anchor, Notes, kinded};
use c_tree::Top;
use c_types::{List, Memory, Stack};
use std::alloc::Global;

/// What is known at file scope.
#[derive(Clone, Copy)]
pub struct FileContext<'n, 'a> {
    pub outside: Outside<'n, 'a>,
    /// The functions that have a body in the file.
    pub bodies: &'n FunctionNames<'a>,
}

fn add_note(alloc: Global, bytes: &[u8], out: &mut List<Top>) -> Result<(), Memory>
    ensures { OnOk result (out.new ≡ out.old ++ top.Note bytes.now ∷ []) }
{
    out.push(Top::Note(List::from_slice(alloc, bytes)?))
}

#[tactic(auto, using(crate::proofs::Nodes::listed))]
fn add_each(alloc: Global, notes: &[&[u8]], out: &mut List<Top>) -> Result<(), Memory>
    ensures { OnOk result (out.new ≡ out.old ++ map top.Note (all_now notes.now)) }
{
    for bytes in notes {
        add_note(alloc, bytes, out)?;
    }
    Ok(())
}

/// Puts the comments of a place behind what stands before them.
fn add_notes(
    alloc: Global,
    notes: &Notes,
    anchor: Anchor,
    out: &mut List<Top>,
) -> Result<(), Memory>
    ensures { OnOk result (out.new ≡ out.old ++ map top.Note (notes_of notes.now anchor)) }
{
    match notes.at(anchor) {
        Some(notes) => add_each(alloc, notes.as_slice(), out),
        None => Ok(()),
    }
}

/// Declares the variables of a declaration, and puts them behind what stands before them.
fn read_declaration<'a>(
    alloc: Global,
    known: &mut Known<'a>,
    faults: &mut Stack<Fault>,
    is_static: bool,
    x: &SyntaxNode,
    out: &mut List<Top>,
) -> Result<(), Memory>
    ensures words { OnOk result (known.new.words ≡ known.old.words) }
    ensures env { OnOk result (env_of known.new ≡ spec.behind_declaration (declaration_of (words_of known.old.words) x.now) (env_of known.old)) }
    ensures out { OnOk result (out.new ≡ out.old ++ spec.declaration_tops is_static (declaration_of (words_of known.old.words) x.now) (env_of known.old)) }
    ensures faults { OnOk result (faults.new ≡ spec.declaration_faults (declaration_of (words_of known.old.words) x.now) (env_of known.old) faults.old) }
{
    let d = declaration_layer(&known.words, x);
    let kinded = kinded(&known.words, d);
    read_globals(alloc, known, faults, is_static, kinded, d.names, out)
}

/// Declares the variables of a declaration, and puts them behind what stands before them.
fn add_variables<'n, 'a>(
    alloc: Global,
    file: &FileContext<'n, 'a>,
    state: &mut State<'a>,
    is_static: bool,
    x: &SyntaxNode,
    out: &mut List<Top>,
) -> Result<(), Memory>
    ensures scopes { OnOk result (state.new.known.scopes ≡ (spec.behind_declaration (declaration_of (words_of file.now.outside.words) x.now) (env file.now state.old)).scopes) }
    ensures out { OnOk result (out.new ≡ out.old ++ spec.declaration_tops is_static (declaration_of (words_of file.now.outside.words) x.now) (env file.now state.old)) }
    ensures faults { OnOk result (state.new.faults ≡ spec.declaration_faults (declaration_of (words_of file.now.outside.words) x.now) (env file.now state.old) state.old.faults) }
{
    state.known.words = file.outside.words;
    read_declaration(
        alloc,
        &mut state.known,
        &mut state.faults,
        is_static,
        x,
        out,
    )?;
    Ok(())
}

/// Declares the constants of an enum, and puts it behind what stands before it.
fn add_enum<'a>(
    alloc: Global,
    known: &mut Known<'a>,
    faults: &mut Stack<Fault>,
    nodes: &[SyntaxNode],
    out: &mut List<Top>,
) -> Result<(), Memory>
    ensures env { OnOk result (env_of known.new ≡ enums.behind_enum (enumerators_of (words_of known.old.words) nodes.now) (Some (negsuc 0)) (env_of known.old)) }
    ensures out { OnOk result (out.new ≡ out.old ++ top.Enum (enums.enum_items (enumerators_of (words_of known.old.words) nodes.now) (Some (negsuc 0)) (env_of known.old)) ∷ []) }
    ensures faults { OnOk result (faults.new ≡ enums.enum_faults (enumerators_of (words_of known.old.words) nodes.now) (Some (negsuc 0)) (env_of known.old) faults.old) }
{
    let items = read_enum(alloc, known, faults, nodes)?;
    out.push(Top::Enum(items))
}

/// Declares the name of a function.
fn declare<'n, 'a>(
    alloc: Global,
    file: &FileContext<'n, 'a>,
    state: &mut State<'a>,
    before: &FunctionNames<'a>,
    f: FunctionLayer,
) -> Result<(), Memory>
    ensures scopes { OnOk result (state.new.known.scopes ≡ (names.function_bound file.now.bodies.now (function_form (words_of file.now.outside.words) f.entry) (env file.now state.old)).scopes) }
    ensures faults { OnOk result (state.new.faults ≡ names.function_name_faults file.now.bodies.now before.now (function_form (words_of file.now.outside.words) f.entry) (env file.now state.old) state.old.faults) }
{
    state.known.words = file.outside.words;
    declare_function(
        alloc,
        &mut state.known,
        &mut state.faults,
        file.bodies,
        before,
        f,
    )
}

/// Declares a function, and puts it behind what stands before it.
fn add_function<'n, 'a, C: FlatCounter>(
    alloc: Global,
    counter: &C,
    file: &FileContext<'n, 'a>,
    state: &mut State<'a>,
    before: &mut FunctionNames<'a>,
    f: FunctionLayer,
    out: &mut List<Top>,
) -> Result<(), Memory>
    ensures state { OnOk result (state_of state.new before.new ≡ spec.function_declared (file_of (C.flat counter.now) file.now) (function_form (words_of file.now.outside.words) f.entry) (state_of state.old before.old)) }
    ensures out { OnOk result (out.new ≡ out.old ++ spec.form_tops (file_of (C.flat counter.now) file.now) 0 (tops.Defines (function_form (words_of file.now.outside.words) f.entry)) (state_of state.old before.old)) }
    ensures faults { OnOk result (state.new.faults ≡ spec.form_faults (file_of (C.flat counter.now) file.now) (tops.Defines (function_form (words_of file.now.outside.words) f.entry)) (state_of state.old before.old) state.old.faults) }
{
    declare(alloc, file, state, before, f)?;
    add_body(&file.outside.words, f, before)?;
    let function = read_function(alloc, counter, &file.outside, state, f)?;
    out.push(Top::Function(function))?;
    Ok(())
}

fn add_line(alloc: Global, bytes: &[u8], out: &mut List<Top>) -> Result<(), Memory>
    ensures { OnOk result (out.new ≡ out.old ++ top.Include bytes.now ∷ []) }
{
    out.push(Top::Include(List::from_slice(alloc, bytes)?))
}

/// Puts what a node is behind what stands before it.
fn add_form<'n, 'a, C: FlatCounter>(
    alloc: Global,
    counter: &C,
    file: &FileContext<'n, 'a>,
    state: &mut State<'a>,
    before: &mut FunctionNames<'a>,
    first: u32,
    top: TopLayer,
    out: &mut List<Top>,
) -> Result<(), Memory>
    ensures state { OnOk result (state_of state.new before.new ≡ spec.behind_form (file_of (C.flat counter.now) file.now) (top_form (words_of file.now.outside.words) top.entry) (state_of state.old before.old)) }
    ensures out { OnOk result (out.new ≡ out.old ++ spec.form_tops (file_of (C.flat counter.now) file.now) first (top_form (words_of file.now.outside.words) top.entry) (state_of state.old before.old)) }
    ensures faults { OnOk result (state.new.faults ≡ spec.form_faults (file_of (C.flat counter.now) file.now) (top_form (words_of file.now.outside.words) top.entry) (state_of state.old before.old) state.old.faults) }
{
    state.known.words = file.outside.words;
    match top {
        TopLayer::Line => add_line(alloc, file.outside.words.get(first), out),
        TopLayer::Enum(nodes) => {
            add_enum(alloc, &mut state.known, &mut state.faults, nodes, out)
        }
        TopLayer::Globals(is_static, d) => {
            add_variables(alloc, file, state, is_static, d, out)?;
            Ok(())
        }
        TopLayer::Defines(f) => { add_function(alloc, counter, file, state, before, f, out) },
        TopLayer::Unread => Ok(()),
    }
}

/// Puts the comments before a node, and what it is, behind what stands before it.
fn add_top<'n, 'a, C: FlatCounter>(
    alloc: Global,
    counter: &C,
    file: &FileContext<'n, 'a>,
    state: &mut State<'a>,
    before: &mut FunctionNames<'a>,
    x: &SyntaxNode,
    out: &mut List<Top>,
) -> Result<(), Memory>
    ensures state { OnOk result (state_of state.new before.new ≡ spec.behind_top (file_of (C.flat counter.now) file.now) (top_of (words_of file.now.outside.words) x.now) (state_of state.old before.old)) }
    ensures out { OnOk result (out.new ≡ out.old ++ spec.top_tops (file_of (C.flat counter.now) file.now) (top_of (words_of file.now.outside.words) x.now) (state_of state.old before.old)) }
    ensures faults { OnOk result (state.new.faults ≡ spec.top_faults (file_of (C.flat counter.now) file.now) (top_of (words_of file.now.outside.words) x.now) (state_of state.old before.old) state.old.faults) }
{
    add_notes(alloc, file.outside.notes, Anchor::Before(x.first()), out)?;
    let top = top_layer(&file.outside.words, x);
    add_form(alloc, counter, file, state, before, x.first(), top, out)
}

/// The nodes, of which the first is taken first.
#[tactic(auto, using(crate::proofs::Nodes::listed))]
fn stacked(alloc: Global, nodes: List<SyntaxNode>) -> Result<Stack<SyntaxNode>, Memory>
    ensures { IfOk result (λ it. it ≡ nodes) }
{
    let mut nodes = nodes;
    let mut stack = Stack::new(alloc);
    while let Some(x) = nodes.pop() {
        stack.push(x)?;
    }
    Ok(stack)
}

/// What the nodes of a file are, with the comments among them and behind them. Each is given back when it is read, so that
/// what is read of those behind it takes its room.
#[tactic(auto, using(crate::proofs::Nodes::tops))]
pub fn read_tops<'n, 'a, C: FlatCounter>(
    alloc: Global,
    counter: &C,
    file: &FileContext<'n, 'a>,
    state: &mut State<'a>,
    before: &mut FunctionNames<'a>,
    nodes: List<SyntaxNode>,
) -> Result<List<Top>, Memory>
    ensures tops { IfOk result (λ it. it ≡ spec.tops_of (file_of (C.flat counter.now) file.now) (tops_in (words_of file.now.outside.words) nodes) (state_of state.old before.old)) }
    ensures faults { OnOk result (state.new.faults ≡ spec.file_faults (file_of (C.flat counter.now) file.now) (tops_in (words_of file.now.outside.words) nodes) (state_of state.old before.old) state.old.faults) }
{
    let mut left = stacked(alloc, nodes)?;
    let mut out = List::new(alloc);
    while let Some(x) = left.pop() {
        add_top(alloc, counter, file, state, before, &x, &mut out)?;
    }
    add_notes(alloc, file.outside.notes, Anchor::Last, &mut out)?;
    Ok(out)
}
