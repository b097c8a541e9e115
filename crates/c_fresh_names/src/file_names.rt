ghost use Rattle.std.specs.Prelude.{◌≡◌, ◌+◌, ◌≤◌, ◌<◌, ◌^◌, [], ◌++◌, true, length, IfOk, IfSome, OnOk};
ghost use Rattle.c_types.specs.Words.{known_functions};
ghost use Rattle.c_copies.specs.Names.{has_name, with_names};
ghost use Rattle.c_fresh_names.specs.Fresh.{numbered as the_numbered};
ghost use Rattle.c_fresh_names.specs.Runs.{AreUsedFrom, AreRuns};

use crate::names::numbered;
use c_copies::RisingNames;
use c_types::{List, Memory, Name};
use std::alloc::Global;
use std::collections::BTreeMap;
use std::marker::Model;

/// Used names with one base and numbers that follow one another.
#[derive(Drop)]
pub struct Run {
    pub base: Name,
    pub first: u64,
    /// The number behind the last.
    pub behind: u64,
}

/// The names of a file and the known functions. Contracts see the names in byte order.
#[derive(Drop)]
pub struct FileNames {
    names: RisingNames,
    /// Runs, so that a search for a free number passes each at once.
    runs: List<Run>,
    /// The place of the run that begins with a name.
    places: BTreeMap<String, u32>,
}

impl Model for FileNames {
    ghost use Rattle.std.specs.Prelude.{List, ℕ};
    ghost use Rattle.std.specs.Coded.{coded_list, coded_ℕ};

    ghost Value = { List (List ℕ) };

    ghost coded = { coded_list (coded_list coded_ℕ) };

    ghost use Rattle.c_fresh_names.specs.Runs.{AreRuns};

    ghost view = { λ it. it.names };

    ghost invariant = { λ it. AreRuns it.names it.runs };
}

fn add_given(alloc: Global, used: &mut RisingNames, names: &[Name]) -> Result<(), Memory>
    ensures { OnOk result (used.new ≡ with_names used.old names.now) }
{
    for name in names {
        used.add(alloc, name.as_str())?;
    }
    Ok(())
}

fn add_known(alloc: Global, used: &mut RisingNames) -> Result<(), Memory>
    ensures { OnOk result (used.new ≡ with_names used.old known_functions) }
{
    used.add(alloc, "getchar")?;
    used.add(alloc, "putchar")?;
    used.add(alloc, "printf")?;
    used.add(alloc, "exit")?;
    used.add(alloc, "abort")
}

fn file_names(alloc: Global, names: &[Name]) -> Result<RisingNames, Memory>
    ensures { IfOk result (λ it. it ≡ with_names [] (names.now ++ known_functions)) }
{
    let mut used = RisingNames::new(alloc);
    add_given(alloc, &mut used, names)?;
    add_known(alloc, &mut used)?;
    Ok(used)
}

/// The first number from this one on behind which the base makes no used name.
fn behind(alloc: Global, names: &RisingNames, base: &str, first: u64) -> Result<u64, Memory>
    requires { first < 2 ^ 63 }
    ensures { IfOk result (λ it. AreUsedFrom names.now base.now first it) }
{
    let most = first + names.len() as u64;
    for n in first..most {
        let name = numbered(alloc, base, n)?;
        if !names.contains(name.as_str()) {
            return Ok(n);
        }
    }
    Ok(most)
}

/// Whether a name is the base with the number, and the number before makes no used name.
fn begins(
    alloc: Global,
    names: &RisingNames,
    name: &str,
    base: &str,
    number: u64,
) -> Result<bool, Memory>
    requires { 2 ≤ number }
{
    if numbered(alloc, base, number)?.as_str() != name {
        return Ok(false);
    }
    if number == 2 {
        return Ok(true);
    }
    let before = numbered(alloc, base, number - 1)?;
    Ok(!names.contains(before.as_str()))
}

/// The base and the number of a name with which a run begins.
fn beginning<'a>(
    alloc: Global,
    names: &RisingNames,
    name: &'a str,
) -> Result<Option<(&'a str, u64)>, Memory>
    ensures { IfOk result (λ it. IfSome it (λ b. b.1 < 2 ^ 63)) }
{
    let Some((base, digits)) = name.rsplit_once('_') else {
        return Ok(None);
    };
    let Ok(number) = digits.parse::<u64>() else {
        return Ok(None);
    };
    if number < 2 || number > names.len() as u64 {
        return Ok(None);
    }
    if begins(alloc, names, name, base, number)? {
        Ok(Some((base, number)))
    } else {
        Ok(None)
    }
}

/// Enters the run that begins with a name, if one does and isn't entered yet.
fn enter(
    alloc: Global,
    names: &RisingNames,
    name: &str,
    runs: &mut List<Run>,
    places: &mut BTreeMap<String, u32>,
) -> Result<(), Memory>
    requires { AreRuns names.now runs.old }
    ensures { OnOk result (AreRuns names.now runs.new) }
{
    let Some((base, first)) = beginning(alloc, names, name)? else {
        return Ok(());
    };
    if places.contains_key(name) {
        return Ok(());
    }
    let behind = behind(alloc, names, base, first)?;
    places.insert(String::from_str(alloc, name)?, runs.len() as u32)?;
    let base = Name::from_string(String::from_str(alloc, base)?);
    runs.push(Run {
        base,
        first,
        behind,
    })
}

/// The runs among these names.
fn runs(
    alloc: Global,
    names: &RisingNames,
    given: &[Name],
    places: &mut BTreeMap<String, u32>,
) -> Result<List<Run>, Memory>
    ensures { IfOk result (AreRuns names.now) }
{
    let mut runs = List::new(alloc);
    for i in 0..given.len() {
        enter(alloc, names, given[i].as_str(), &mut runs, places)?;
    }
    Ok(runs)
}

impl FileNames {
    /// The names of a file and the known functions. Want of memory is the only failure.
    pub fn new(alloc: Global, given: &[Name]) -> Result<FileNames, Memory>
        ensures { IfOk result (λ it. it ≡ with_names [] (given.now ++ known_functions)) }
    {
        let names = file_names(alloc, given)?;
        let mut places = BTreeMap::new(alloc);
        let runs = runs(alloc, &names, given, &mut places)?;
        Ok(FileNames {
            names,
            runs,
            places,
        })
    }

    /// How many names there are.
    pub fn len(&self) -> usize
        ensures value { result ≡ length self.now }
        ensures bound { result < 2 ^ 63 }
    {
        self.names.len()
    }

    /// Whether a name is one of them.
    pub fn contains(&self, name: &str) -> bool
        ensures { result ≡ has_name self.now name.now }
    {
        self.names.contains(name)
    }

    fn run_at(&self, name: &str) -> Option<&Run>
        ensures { IfSome result (λ it. AreUsedFrom self.now it.now.base it.now.first it.now.behind) }
    {
        let place = self.places.get(name)?;
        self.runs.get(*place as usize)
    }

    /// A number below which this used name and those with the next numbers are used.
    pub fn past(&self, base: &str, name: &str, number: u64) -> u64
        requires used { has_name self.now (the_numbered base.now number) ≡ true }
        requires room { number + 1 < 2 ^ 64 }
        ensures further { number < result }
        ensures used { AreUsedFrom self.now base.now number result }
    {
        match self.run_at(name) {
            Some(run) => {
                if run.first == number && run.behind > number && run.base.as_str() == base {
                    run.behind
                } else {
                    number + 1
                }
            }
            None => number + 1,
        }
    }
}
