ghost use Rattle.std.specs.Prelude.{◌≡◌, map, IfOk};
ghost use Rattle.c_tree.specs.declared.tree.Program.{Program as TheProgram};
ghost use Rattle.move_driver.specs.Counts.{counted, slot_count as the_slot_count, guards_behind, guards_past, counts_of};

use c_tree::{Program, Top};
use c_types::{List, Memory};
use move_programs::join_count;
use report_moves::Move;
use std::alloc::Global;

/// What a rewriting did, each counted up to the last `u64`.
#[derive(Clone, Copy, Debug, PartialEq, Eq)]
pub struct Counts {
    /// The gotos of the flat forms, each of which is joined with its label once.
    pub jumps: u64,
    /// The moves and simplifications, which are the lines of the report.
    pub moves: u64,
    /// The variables that are declared for labels.
    pub guards: u64,
}

/// How many variables a function has; `None` for what is no function.
fn slot_count(top: &Top) -> Option<usize>
    ensures { result ≡ the_slot_count top.now }
{
    match top {
        Top::Function(f) => Some(f.slots.len()),
        _ => None,
    }
}

/// How many variables each function at file scope has, place by place. Want of memory is the only failure.
pub fn slot_counts(alloc: Global, program: &Program) -> Result<List<Option<usize>>, Memory>
    ensures { IfOk result (λ it. it ≡ map the_slot_count program.now.tops) }
{
    let mut out = List::new(alloc);
    for top in program.tops.as_slice() {
        out.push(slot_count(top))?;
    }
    Ok(out)
}

/// How many variables a function that had so many has more in its plain form.
fn guards_of(before: Option<usize>, plain: &Top) -> u64
    ensures { result ≡ guards_behind before plain.now }
{
    match before {
        Some(slots) => match plain {
            Top::Function(g) => g.slots.len().saturating_sub(slots) as u64,
            _ => 0,
        },
        None => 0,
    }
}

/// How many variables the functions of the second list have more than those of the first, place by place.
fn count_guards(before: &[Option<usize>], plain: &[Top]) -> u64
    ensures { result ≡ counted (guards_past before.now plain.now) }
{
    let mut guards: u64 = 0;
    for i in 0..before.len() {
        if i >= plain.len() {
            return guards;
        }
        guards = guards.saturating_add(guards_of(before[i], &plain[i]));
    }
    guards
}

/// What was done from a program after its moves, which had these `slot_counts`, to its plain form.
pub fn count(moves: &List<Move>, before: &List<Option<usize>>, plain: &Program) -> Counts
    ensures { (moved : TheProgram) → before.now ≡ map the_slot_count moved.tops → result ≡ counts_of moves.now moved plain.now }
{
    Counts {
        jumps: join_count(moves),
        moves: moves.len() as u64,
        guards: count_guards(before.as_slice(), plain.tops.as_slice()),
    }
}
