ghost use Rattle.indexmap.specs.IndexMap.{get};
ghost use Rattle.ms_names_scopes.specs.inner.Numbers.{is_number, is_one_of, number_at};
ghost use Rattle.std.specs.BTreeSet.{contains};
ghost use Rattle.std.specs.Ordering.{nat_cmp};
ghost use Rattle.std.specs.Prelude.{◌≡◌, ◌==◌, ◌-◌, ◌∷◌, ◌++◌, ◌||◌, [], None, ℕ, if◌then◌else◌, true, length, nat_eq, take, IfOk, OnErr, OnOk};

use crate::memory::add;
use crate::name::small;
use crate::ordered::insert;
use indexmap::IndexMap;
use ms_list::NoMemory;
use std::alloc::Global;
use std::collections::BTreeSet;
use std::marker::Model;

/// The number of a place, if it has one, and the last place before it with the same number.
#[derive(Clone, Copy)]
pub(crate) struct Place {
    pub(crate) number: Option<u32>,
    pub(crate) earlier: Option<u32>,
}

/// Places that are found by their numbers. Contracts see for each place its number, if it has one.
#[derive(Drop)]
pub(crate) struct Numbers {
    last: IndexMap<u32, u32>,
    places: Vec<Place>,
}

impl Model for Numbers {
    ghost use Rattle.std.specs.Prelude.{nat_eq};
    ghost use Rattle.indexmap.specs.IndexMap.{get};
    ghost use Rattle.ms_names_scopes.specs.inner.Numbers.{IsLinked, Numbered, numbers_of};

    ghost Value = { Numbered };

    ghost view = { λ numbers. numbers_of numbers.places.items };

    ghost invariant = { λ numbers. IsLinked (λ x. get nat_eq numbers.last x) numbers.places.items };
}

impl Numbers {
    /// No places.
    pub(crate) fn new(alloc: Global) -> Numbers
        ensures { result ≡ [] }
    {
        Numbers {
            last: IndexMap::new(alloc),
            places: Vec::new(alloc),
        }
    }

    /// One more place, with a number or without. Where memory is refused, the places are as they were.
    pub(crate) fn push(&mut self, number: Option<u32>) -> Result<(), NoMemory>
        ensures ok { OnOk result (self.new ≡ self.old ++ number ∷ []) }
        ensures same { OnErr result (self.new ≡ self.old) }
    {
        let Some(x) = number else {
            let place = Place {
                number,
                earlier: None,
            };
            add(&mut self.places, place)?;
            return Ok(());
        };
        let last = small(self.places.len())?;
        let place = Place {
            number,
            earlier: last_of(&self.last, x),
        };
        add(&mut self.places, place)?;
        let Ok(()) = set_last(&mut self.last, x, Some(last)) else {
            self.places.pop();
            return Err(NoMemory);
        };
        Ok(())
    }

    /// Without the last place.
    pub(crate) fn pop(&mut self)
        ensures { self.new ≡ take (length self.old - 1) self.old }
    {
        if let Some(place) = self.places.pop() {
            if let Some(x) = place.number {
                // The number is there, so this takes no memory.
                let Ok(()) = set_last(&mut self.last, x, place.earlier) else {
                    return;
                };
            }
        }
    }

    /// The places of some numbers.
    pub(crate) fn places_of(
        &self,
        alloc: Global,
        numbers: &[u32],
    ) -> Result<BTreeSet<usize>, NoMemory>
        ensures { IfOk result (λ places. (i : ℕ) → contains nat_cmp places i ≡ is_one_of numbers.now (number_at self.now i)) }
    {
        let mut places = BTreeSet::new(alloc);
        for x in numbers {
            self.add_places(*x, &mut places)?;
        }
        Ok(places)
    }

    // The places of a number more.
    fn add_places(&self, x: u32, places: &mut BTreeSet<usize>) -> Result<(), NoMemory>
        ensures { OnOk result ((i : ℕ) → contains nat_cmp places.new i ≡ (contains nat_cmp places.old i || is_number x (number_at self.now i))) }
    {
        let mut next = last_of(&self.last, x);
        while let Some(place) = next {
            insert(places, place as usize)?;
            next = self.places[place as usize].earlier;
        }
        Ok(())
    }
}

// The last place of a number.
fn last_of(last: &IndexMap<u32, u32>, x: u32) -> Option<u32>
    ensures { result ≡ get nat_eq last.now x }
{
    match last.get(&x) {
        Some(place) => Some(*place),
        None => None,
    }
}

// Notes the last place of a number, or that it has none. A number that is there takes no memory.
fn set_last(last: &mut IndexMap<u32, u32>, x: u32, place: Option<u32>) -> Result<(), NoMemory>
    ensures ok { OnOk result ((y : ℕ) → get nat_eq last.new y ≡ (if x == y then place else get nat_eq last.old y)) }
    ensures absent { OnErr result (get nat_eq last.old x ≡ None) }
    ensures same { OnErr result ((y : ℕ) → get nat_eq last.new y ≡ get nat_eq last.old y) }
{
    let Some(place) = place else {
        last.swap_remove(&x);
        return Ok(());
    };
    match last.insert(x, place) {
        Ok(_) => Ok(()),
        Err(_) => Err(NoMemory),
    }
}
