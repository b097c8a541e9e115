ghost use Rattle.std.specs.Prelude.{◌≡◌, ◌≤◌, true, IfOk, OnOk, length};
ghost use Rattle.c_copies.specs.Names.{names as the_names, file_names as the_file_names};
ghost use Rattle.c_tree.specs.InRange.{IsProgramInRange};
ghost use Rattle.c_tree.specs.Jumps.{is_plain_program};
ghost use Rattle.plain_laws.specs.Laws.{BehavesAsStructured};
ghost use Rattle.c_resolved_laws.specs.Counts.{IsResolved};
ghost use Rattle.c_tree.specs.Text.{text_of};
ghost use Rattle.restructure_laws.specs.Flattened.{most_held, FlattenedTops};
ghost use Rattle.c_text.specs.Reading.{IsProgramOf};
ghost use Rattle.move_driver.specs.Kept.{KeepsSkeletons, DeclaresFewGuards, IsMovedWithinLevels, StaysWithinSizes};
ghost use Rattle.whole_laws.specs.Notes.{notes_of};
ghost use Rattle.move_driver.specs.Restructured.{IsRestructured, IsOnly};
ghost use Rattle.move_driver.specs.Settled.{IsSettled};
ghost use Rattle.move_driver.specs.Flattened.{IsTopFlattenedBeside, AreFlattenedBeside};

use crate::counts::{Counts, count, slot_counts};
use c_tree::{Program, Top};
use c_types::{List, Memory, Name};
use flat_function::flatten_beside;
use flat_names::ProgramNames;
use move_programs::move_program;
use plain_form::plain;
use report_moves::Move;
use std::alloc::Global;

fn flatten_top(alloc: Global, names: &mut ProgramNames, top: &mut Top) -> Result<(), Memory>
    ensures ok { OnOk result (IsTopFlattenedBeside names.old top.old top.new) }
    ensures used { names.new.used.file ≡ names.old.used.file }
    ensures taken { names.new.taken.file ≡ names.old.taken.file }
{
    match top {
        Top::Function(function) => {
            flatten_beside(alloc, names, function)?;
            // a list holds at most 4,294,967,295 variables, which its slice tells
            let _ = function.slots.as_slice();
            Ok(())
        }
        _ => Ok(()),
    }
}

/// Gives each function its flat form (`flat_function::flatten_beside`), with the names of the program and of its file
/// scope. After `Memory` some functions have it.
fn flatten_tops(alloc: Global, names: &mut ProgramNames, tops: &mut List<Top>) -> Result<(), Memory>
    ensures { OnOk result (AreFlattenedBeside names.old tops.old tops.new) }
{
    let mut i = 0;
    while i < tops.len() {
        flatten_top(alloc, names, tops.at_mut(i))?;
        i += 1;
    }
    Ok(())
}

/// Gives each function of a program its flat form, and answers all names that the program had. After `Memory` some
/// functions have it.
pub fn flatten_program(alloc: Global, program: &mut Program) -> Result<List<Name>, Memory>
    ensures names { IfOk result (λ it. it ≡ the_names program.old) }
    ensures held { OnOk result (length (the_names program.old) ≤ most_held) }
    ensures flat { OnOk result (FlattenedTops (the_names program.old) (the_file_names program.old) program.old.tops program.new.tops) }
{
    let (used, gathered) = ProgramNames::of_program(alloc, program)?;
    let mut gathered = gathered;
    flatten_tops(alloc, &mut gathered, &mut program.tops)?;
    Ok(used)
}

/// A program that was restructured, by these moves, and what was done.
#[derive(Drop)]
pub struct Rewritten {
    pub program: Program,
    pub moves: List<Move>,
    pub counts: Counts,
}

/// The plain form of a resolved program after all its moves, the moves, and their counts.
pub fn rewrite(alloc: Global, program: Program) -> Result<Rewritten, Memory>
    requires { IsResolved program }
    ensures value { IfOk result (λ r. IsRestructured program r.program r.moves r.counts) }
    ensures only { IfOk result (λ r. IsOnly program r.program r.moves r.counts) }
    ensures plain { IfOk result (λ r. is_plain_program r.program ≡ true) }
    ensures ranged { IfOk result (λ r. IsProgramInRange r.program) }
    ensures behaves { IfOk result (λ r. BehavesAsStructured program r.program) }
    ensures resolved { IfOk result (λ r. IsResolved r.program) }
    ensures reads_back { IfOk result (λ r. IsProgramOf (text_of r.program) r.program) }
    ensures skeletons { IfOk result (λ r. KeepsSkeletons program r.program r.moves) }
    ensures guards { IfOk result (λ r. DeclaresFewGuards program r.program r.moves) }
    ensures levels { IfOk result (λ r. IsMovedWithinLevels program r.program r.moves) }
    ensures sizes { IfOk result (λ r. StaysWithinSizes program r.program) }
    ensures notes { IfOk result (λ r. notes_of r.program ≡ notes_of program) }
    ensures settled { IfOk result (λ r. IsSettled r.program) }
{
    let mut program = program;
    let names = flatten_program(alloc, &mut program)?;
    let moves = move_program(alloc, &mut program)?;
    let before = slot_counts(alloc, &program)?;
    let plain = plain(alloc, &names, program)?;
    let counts = count(&moves, &before, &plain);
    Ok(Rewritten {
        program: plain,
        moves,
        counts,
    })
}

/// The plain form of a resolved program after all its moves, and the moves with their names (docs/REWRITING.md): each
/// function takes its flat form, is converted, its jumps are moved until none is left, and its tests are simplified, in
/// file order; then the guards become variables. It has no goto and no label, and from every entry, on every input and
/// all answers, its structural run ends, traps or runs on as the run of the program does. It is a resolved program again,
/// with the same Notes in the same order, and its printed text reads back as it; restructured, it comes out the same, by no
/// moves. Want of memory is the only failure, and the program is given up then.
pub fn restructure_program(alloc: Global, program: Program) -> Result<(Program, List<Move>), Memory>
    requires { IsResolved program }
    ensures value { IfOk result (λ r. (counts : Counts) × IsRestructured program r.0 r.1 counts) }
    ensures only { IfOk result (λ r. (counts : Counts) × IsOnly program r.0 r.1 counts) }
    ensures plain { IfOk result (λ r. is_plain_program r.0 ≡ true) }
    ensures ranged { IfOk result (λ r. IsProgramInRange r.0) }
    ensures behaves { IfOk result (λ r. BehavesAsStructured program r.0) }
    ensures resolved { IfOk result (λ r. IsResolved r.0) }
    ensures reads_back { IfOk result (λ r. IsProgramOf (text_of r.0) r.0) }
    ensures skeletons { IfOk result (λ r. KeepsSkeletons program r.0 r.1) }
    ensures guards { IfOk result (λ r. DeclaresFewGuards program r.0 r.1) }
    ensures levels { IfOk result (λ r. IsMovedWithinLevels program r.0 r.1) }
    ensures sizes { IfOk result (λ r. StaysWithinSizes program r.0) }
    ensures notes { IfOk result (λ r. notes_of r.0 ≡ notes_of program) }
    ensures settled { IfOk result (λ r. IsSettled r.0) }
{
    let Rewritten { program, moves, .. } = rewrite(alloc, program)?;
    Ok((program, moves))
}
