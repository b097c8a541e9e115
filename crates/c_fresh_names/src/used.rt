ghost use Rattle.std.specs.Prelude.{◌≡◌, ◌+◌, ◌≤◌, ◌<◌, ◌^◌, [], ◌++◌, false, length, IfOk, IfSome, IfNone, OnOk};
ghost use Rattle.c_types.specs.Words.{known_functions};
ghost use Rattle.c_copies.specs.Names.{has_name, with_name, with_names};
ghost use Rattle.c_fresh_names.specs.Fresh.{numbered as the_numbered, first_free as the_first_free, fresh as the_fresh};
ghost use Rattle.c_fresh_names.specs.Runs.{AreUsedFrom};

use crate::file_names::FileNames;
use crate::names::numbered;
use c_copies::NameSet;
use c_types::{Memory, Name};
use std::alloc::Global;

/// The names that are used where names are given. Those of the file are gathered once for all its
/// functions. The names that are used are `with_names file own`.
#[derive(Drop)]
pub struct UsedNames {
    /// The names of the file and the known functions of the library.
    pub file: FileNames,
    /// More names, those of one function.
    pub own: NameSet,
}

impl UsedNames {
    /// The names of a file and the known functions. Want of memory is the only failure.
    pub fn new(alloc: Global, names: &[Name]) -> Result<UsedNames, Memory>
        ensures file { IfOk result (λ it. it.file ≡ with_names [] (names.now ++ known_functions)) }
        ensures own { IfOk result (λ it. it.own ≡ []) }
    {
        let file = FileNames::new(alloc, names)?;
        Ok(UsedNames {
            file,
            own: NameSet::new(alloc),
        })
    }

    /// Lets the names of the function go, so that those of another can come.
    pub fn forget_own(&mut self, alloc: Global)
        ensures file { self.new.file ≡ self.old.file }
        ensures own { self.new.own ≡ [] }
    {
        self.own = NameSet::new(alloc);
    }

    /// Whether a name is used.
    pub fn contains(&self, name: &str) -> bool
        ensures { result ≡ has_name (with_names self.now.file self.now.own) name.now }
    {
        self.file.contains(name) || self.own.contains(name)
    }

    /// Puts a name to those of the function. Want of memory is the only failure.
    pub fn add(&mut self, alloc: Global, name: &str) -> Result<(), Memory>
        ensures file { self.new.file ≡ self.old.file }
        ensures ok { OnOk result (with_names self.new.file self.new.own ≡ with_name (with_names self.old.file self.old.own) name.now) }
    {
        self.own.add(alloc, name)
    }

    /// At least as many as there are used names, and 2.
    fn most(&self) -> Result<u64, Memory>
        ensures enough { IfOk result (λ it. length (with_names self.now.file self.now.own) + 2 ≤ it) }
        ensures bound { IfOk result (λ it. it < 2 ^ 64) }
    {
        let names = self.file.len() as u64 + self.own.len() as u64;
        match names.checked_add(2) {
            Some(most) => Ok(most),
            None => Err(Memory),
        }
    }

    /// The next number that may be free behind the base, or `None` where this one is.
    fn next(&self, base: &str, name: &str, number: u64, most: u64) -> Option<u64>
        requires name { name.now ≡ the_numbered base.now number }
        requires within { number < most }
        ensures further { IfSome result (λ it. number < it) }
        ensures within { IfSome result (λ it. it ≤ most) }
        ensures used { IfSome result (λ it. AreUsedFrom (with_names self.now.file self.now.own) base.now number it) }
        ensures free { IfNone result (has_name (with_names self.now.file self.now.own) name.now ≡ false) }
    {
        if self.file.contains(name) {
            Some(self.file.past(base, name, number).min(most))
        } else if self.own.contains(name) {
            Some(number + 1)
        } else {
            None
        }
    }

    /// The first of `base_2`, `base_3` and so on that isn't used, and its number, where those below a number
    /// are used. Want of memory is the only failure.
    pub fn free_from(&self, alloc: Global, base: &str, start: u64) -> Result<(Name, u64), Memory>
        requires first { 2 ≤ start }
        requires used { AreUsedFrom (with_names self.now.file self.now.own) base.now 2 start }
        ensures name { IfOk result (λ it. it.0 ≡ the_first_free (with_names self.now.file self.now.own) base.now 2 (length (with_names self.now.file self.now.own))) }
        ensures unused { IfOk result (λ it. has_name (with_names self.now.file self.now.own) it.0 ≡ false) }
        ensures first { IfOk result (λ it. 2 ≤ it.1) }
        ensures used { IfOk result (λ it. AreUsedFrom (with_names self.now.file self.now.own) base.now 2 it.1) }
    {
        let most = self.most()?;
        let mut number = start.min(most);
        while number < most {
            let name = numbered(alloc, base, number)?;
            match self.next(base, name.as_str(), number, most) {
                Some(next) => number = next,
                None => return Ok((name, number)),
            }
        }
        Ok((numbered(alloc, base, most)?, most))
    }

    /// The name itself if it isn't used, else the first of `base_2`, `base_3` and so on that isn't used.
    /// Want of memory is the only failure.
    pub fn fresh(&self, alloc: Global, base: &str) -> Result<Name, Memory>
        ensures value { IfOk result (λ it. it ≡ the_fresh base.now (with_names self.now.file self.now.own)) }
        ensures unused { IfOk result (λ it. has_name (with_names self.now.file self.now.own) it ≡ false) }
    {
        if self.contains(base) {
            let (name, _) = self.free_from(alloc, base, 2)?;
            Ok(name)
        } else {
            Ok(Name::from_string(String::from_str(alloc, base)?))
        }
    }
}
