ghost use Rattle.std.specs.Prelude.{◌≡◌, ℕ, List, map, length, IfOk, OnOk};
ghost use Rattle.c_types.specs.Numbers.{converted};
ghost use Rattle.c_tree.specs.ExpressionTrees.{expression_tree};
ghost use Rattle.jump_meaning.specs.Code.{constant_or_zero, initial_variable};
ghost use Rattle.step_memory.specs.Rooms.{IsRoom};
ghost use Rattle.step_interp.specs.Files.{AddsTop, AreFirstCells, HasPlaces, first_cell};
ghost use Rattle.step_interp.specs.Started.{HoldsFirst};

use c_constants::constant_value;
use c_tree::{Expression, GlobalVariable, Program, Top};
use c_types::{IntKind, List, Memory, Name, convert};
use std::alloc::Global;
use std::collections::BTreeMap;
use step_memory::{Cells, Room, Rooms, Store};

/// The value of an initialiser, converted, where that of one that traps is 0.
fn initial_number(kind: IntKind, initialiser: &Expression) -> i128
    ensures { result ≡ converted kind (constant_or_zero (expression_tree initialiser.now)) }
{
    let number = match constant_value(initialiser) {
        Some(number) => number,
        None => 0,
    };
    convert(kind, number)
}

/// The number of a cell of file scope at the start: its initialiser, or 0.
fn first_number(kind: IntKind, initialisers: &[Expression], at: usize) -> i128
    ensures { result ≡ first_cell kind initialisers.now at }
{
    if at >= initialisers.len() {
        return 0;
    }
    initial_number(kind, &initialisers[at])
}

/// The numbers of the cells of an array of file scope at the start.
fn first_numbers(
    alloc: Global,
    kind: IntKind,
    initialisers: &[Expression],
    count: u32,
) -> Result<List<i128>, Memory>
    ensures length { IfOk result (λ it. length it ≡ count) }
    ensures cells { IfOk result (λ it. AreFirstCells kind initialisers.now it) }
{
    let mut cells = List::new(alloc);
    for at in 0..count {
        cells.push(first_number(kind, initialisers, at as usize))?;
    }
    Ok(cells)
}

/// A variable of file scope at the start of a run.
fn global_room(alloc: Global, global: &GlobalVariable) -> Result<Room, Memory>
    ensures { IfOk result (λ r. (ns : List (List ℕ)) → IsRoom ns r (initial_variable global.now)) }
{
    let kind = global.slot.kind;
    let given: &[Expression] = match &global.init {
        Some(initialisers) => initialisers.as_slice(),
        None => &[],
    };
    let cells = match global.slot.cells {
        None => Cells::Number(first_number(kind, given, 0)),
        Some(count) => Cells::Array(first_numbers(alloc, kind, given, count)?),
    };
    Ok(Room { kind, cells })
}

/// Adds the variable that is declared to those of the file, if there is none of its name yet.
fn add_top<'a>(
    alloc: Global,
    names: &mut Vec<&'a Name>,
    places: &mut BTreeMap<&'a str, u32>,
    file: &mut List<Room>,
    top: &'a Top,
) -> Result<(), Memory>
    requires { HasPlaces (map (λ n. n.now) names.old.items) places.old }
    ensures places { OnOk result (HasPlaces (map (λ n. n.now) names.new.items) places.new) }
    ensures file { OnOk result (AddsTop top.now (map (λ n. n.now) names.old.items) file.old (map (λ n. n.now) names.new.items) file.new) }
{
    let Top::Global(global) = top else {
        return Ok(());
    };
    let name = &global.slot.name;
    if places.contains_key(name.as_str()) {
        return Ok(());
    }
    let at = names.len();
    if at > 4294967295 {
        return Err(Memory);
    }
    file.push(global_room(alloc, global)?)?;
    names.push(name)?;
    places.insert(name.as_str(), at as u32)?;
    Ok(())
}

/// The variables before any call.
pub fn store_at_start<'a>(alloc: Global, program: &'a Program) -> Result<Store<'a>, Memory>
    ensures { IfOk result (λ it. HoldsFirst program.now it) }
{
    let mut names = Vec::new(alloc);
    let mut places = BTreeMap::new(alloc);
    let mut file = List::new(alloc);
    for top in program.tops.as_slice() {
        add_top(alloc, &mut names, &mut places, &mut file, top)?;
    }
    let none = List::new(alloc);
    let rooms = Rooms::new(alloc, none, &[])?;
    let mut calls = List::new(alloc);
    calls.push(rooms)?;
    Ok(Store {
        names,
        places,
        file,
        calls,
        newest: 0,
    })
}
