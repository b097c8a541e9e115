ghost use Rattle.std.specs.Prelude.{◌≡◌, ◌≤◌, ℤ, [], Some, cond, length, IfOk, OnOk};
ghost use Rattle.std.specs.BTreeMap.{get};
ghost use Rattle.std.specs.Ordering.{int_cmp};
ghost use Rattle.flat_laws.specs.FlatForm.{same_number, place_of as the_place_of};
ghost use Rattle.flat_items.specs.Places.{place_at, ArePlaces};

use c_types::{List, Memory};
use std::alloc::Global;
use std::collections::BTreeMap;
use std::marker::Model;

/// Where the numbers of cases stand in a list of them.
#[derive(Drop)]
pub struct CasePlaces {
    /// Of each number the place of the first case that has it.
    pub table: BTreeMap<i128, u32>,
    /// What stands for the place of any other number: how many cases there are.
    pub behind: u32,
}

/// No cases.
pub fn no_places(alloc: Global) -> CasePlaces
    ensures { ArePlaces result [] }
{
    CasePlaces {
        table: BTreeMap::new(alloc),
        behind: 0,
    }
}

/// The place of a number.
pub fn place_of(places: &CasePlaces, number: Option<i128>) -> u32
    ensures { result ≡ place_at places.now number }
{
    match number {
        Some(n) => match places.table.get(&n) {
            Some(place) => *place,
            None => places.behind,
        },
        None => places.behind,
    }
}

/// Enters the place of a number, in front of all that were entered.
fn enter(table: &mut BTreeMap<i128, u32>, number: Option<i128>, place: u32) -> Result<(), Memory>
    ensures { OnOk result ((n : ℤ) → get int_cmp table.new n ≡ cond (same_number (Some n) number) (Some place) (get int_cmp table.old n)) }
{
    match number {
        Some(n) => {
            table.insert(n, place)?;
            Ok(())
        }
        None => Ok(()),
    }
}

/// The places of these numbers. Want of memory is the only failure.
pub fn places_of(alloc: Global, numbers: &[Option<i128>]) -> Result<CasePlaces, Memory>
    requires { length numbers.now ≤ 4294967295 }
    ensures { IfOk result (λ it. ArePlaces it numbers.now) }
{
    let count = numbers.len();
    let mut table = BTreeMap::new(alloc);
    for k in 0..count {
        let at = count - 1 - k;
        enter(&mut table, numbers[at], at as u32)?;
    }
    Ok(CasePlaces {
        table,
        behind: count as u32,
    })
}

/// The numbers of cases, and where each stands. Contracts see the numbers.
#[derive(Drop)]
pub struct CaseNumbers {
    numbers: List<Option<i128>>,
    places: CasePlaces,
}

impl Model for CaseNumbers {
    ghost use Rattle.std.specs.Prelude.{List, Option, ℤ};

    ghost Value = { List (Option ℤ) };

    ghost use Rattle.flat_items.specs.Places.{ArePlaces};

    ghost view = { λ it. it.numbers };

    ghost invariant = { λ it. ArePlaces it.places it.numbers };
}

impl CaseNumbers {
    /// No numbers.
    pub fn none(alloc: Global) -> CaseNumbers
        ensures { result ≡ [] }
    {
        CaseNumbers {
            numbers: List::new(alloc),
            places: no_places(alloc),
        }
    }

    /// These numbers. Want of memory is the only failure.
    pub fn new(alloc: Global, numbers: List<Option<i128>>) -> Result<CaseNumbers, Memory>
        ensures { IfOk result (λ it. it ≡ numbers) }
    {
        let places = places_of(alloc, numbers.as_slice())?;
        Ok(CaseNumbers { numbers, places })
    }

    /// How many there are.
    pub fn len(&self) -> usize
        ensures value { result ≡ length self.now }
        ensures bound { result ≤ 4294967295 }
    {
        self.numbers.len()
    }

    /// All of them.
    pub fn as_slice(&self) -> &[Option<i128>]
        ensures value { result.now ≡ self.now }
        ensures bound { length self.now ≤ 4294967295 }
    {
        self.numbers.as_slice()
    }

    /// The place of a number, or how many there are where it is none of them.
    pub fn place_of(&self, number: Option<i128>) -> u32
        ensures { result ≡ the_place_of number self.now }
    {
        place_of(&self.places, number)
    }
}
