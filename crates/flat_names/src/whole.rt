ghost use Rattle.std.specs.Prelude.{◌≡◌, ◌≤◌, ◌++◌, IfOk, OnOk, length};
ghost use Rattle.c_copies.specs.Names.{names as the_names, file_names as the_file_names};
ghost use Rattle.c_tree.specs.Trees.{trees_of};
ghost use Rattle.flat_names.specs.Gathered.{given_of, AreGathered};
ghost use Rattle.flat_names.specs.FlatNames.{constructs as the_constructs, none_given, name_constructs as the_name_constructs, flat_names_beside};

use crate::constructs::constructs;
use crate::giving::{GivenNames, Made, name_constructs};
use crate::labels::label_names;
use crate::variables::name_slots;
use c_copies::{file_names, names};
use c_fresh_names::UsedNames;
use c_tree::{Function, Item, Program, Slot};
use c_types::{List, Memory, Name};
use std::alloc::Global;

/// The variables and the labels of a flat form.
#[derive(Drop)]
pub struct FlatNames {
    pub slots: List<Slot>,
    pub labels: List<Name>,
}

/// The names of a program, gathered once for all its functions. More names are those of one function.
#[derive(Drop)]
pub struct ProgramNames {
    /// All names of the program, and the known functions: no name that is made may be one of them.
    pub used: UsedNames,
    /// Those of file scope, and the known functions: no block variable may keep one of them.
    pub taken: UsedNames,
}

impl ProgramNames {
    /// Gathers all names of a program, and those of its file scope. Want of memory is the only failure.
    pub fn new(
        alloc: Global,
        names: &List<Name>,
        file_names: &List<Name>,
    ) -> Result<ProgramNames, Memory>
        ensures { IfOk result (λ it. AreGathered names.now file_names.now it) }
    {
        let used = UsedNames::new(alloc, names.as_slice())?;
        let taken = UsedNames::new(alloc, file_names.as_slice())?;
        Ok(ProgramNames { used, taken })
    }

    /// Gathers all names of a program, and those of its file scope. All names are answered as a list, too. Want of memory is
    /// the only failure.
    pub fn of_program(
        alloc: Global,
        program: &Program,
    ) -> Result<(List<Name>, ProgramNames), Memory>
        ensures names { IfOk result (λ it. it.0 ≡ the_names program.now) }
        ensures held { OnOk result (length (the_names program.now) ≤ 4294967295) }
        ensures gathered { IfOk result (λ it. AreGathered (the_names program.now) (the_file_names program.now) it.1) }
    {
        let used = names(alloc, program)?;
        // a list holds at most 4,294,967,295 names, which its slice tells
        let _ = used.as_slice();
        let of_file = file_names(alloc, program)?;
        let gathered = ProgramNames::new(alloc, &used, &of_file)?;
        Ok((used, gathered))
    }
}

fn given_names(alloc: Global, used: &mut UsedNames, body: &List<Item>) -> Result<GivenNames, Memory>
    ensures value { IfOk result (λ it. given_of used.new it ≡ the_name_constructs 1 (the_constructs (trees_of body.now)) (none_given used.old.file)) }
    ensures file { used.new.file ≡ used.old.file }
{
    used.forget_own(alloc);
    let all = constructs(alloc, body)?;
    let mut given = GivenNames {
        variables: List::new(alloc),
        made: Made {
            cases: List::new(alloc),
            defaults: List::new(alloc),
            breaks: List::new(alloc),
        },
    };
    name_constructs(alloc, used, &mut given, all.as_slice())?;
    Ok(given)
}

fn with_slots(slots: List<Slot>, more: List<Slot>) -> Result<List<Slot>, Memory>
    ensures { IfOk result (λ it. it ≡ slots ++ more) }
{
    let mut out = slots;
    for slot in more.into_vec() {
        out.push(slot)?;
    }
    Ok(out)
}

/// The variables and labels of the flat form of a function: the names that it makes are given in the
/// order of its steps. The names of its program are gathered, and serve its next function then. `codes` say
/// which labels stand in the flat form. Want of memory is the only failure.
pub fn name_flat(
    alloc: Global,
    names: &mut ProgramNames,
    function: &Function,
    body: &List<Item>,
    codes: &[u32],
) -> Result<FlatNames, Memory>
    ensures value { IfOk result (λ it. it ≡ flat_names_beside names.old.used.file names.old.taken.file function.now (trees_of body.now) codes.now) }
    ensures used { names.new.used.file ≡ names.old.used.file }
    ensures taken { names.new.taken.file ≡ names.old.taken.file }
{
    let ProgramNames { used, taken } = names;
    let given = given_names(alloc, used, body)?;
    let GivenNames { variables, made } = given;
    taken.forget_own(alloc);
    let slots = name_slots(
        alloc,
        function.params,
        taken,
        used,
        function.slots.as_slice(),
    )?;
    let labels = label_names(alloc, function.labels.as_slice(), &made, used, codes)?;
    let slots = with_slots(slots, variables)?;
    Ok(FlatNames { slots, labels })
}
