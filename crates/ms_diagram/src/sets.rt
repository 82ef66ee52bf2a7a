ghost use Rattle.std.specs.Prelude.{◌≡◌, ◌<◌, [], length, slice_get, IfOk, OnErr, MatchOption};
ghost use Rattle.std.specs.List.Sorted.{IsStrictlyIncreasing};
ghost use Rattle.ms_diagram.specs.Collect.{IsSetNumbering};
ghost use Rattle.ms_diagram.specs.Numbering.{IsMissing, Numbers};

use indexmap::IndexSet;
use ms_list::NoMemory;
use std::alloc::Global;
use std::marker::Model;

/// A numbering of strictly rising lists by first sight. Contracts see the list of these lists.
#[derive(Drop)]
pub struct Sets {
    sets: IndexSet<Vec<u32>>,
}

impl Model for Sets {
    ghost use Rattle.std.specs.Prelude.{List, ℕ, map};
    ghost use Rattle.ms_diagram.specs.Collect.{IsSetNumbering as Numbered};

    ghost Value = { List (List ℕ) };

    ghost view = { λ s. map (λ set. set.items) s.sets.keys };

    ghost invariant = { λ s. Numbered (map (λ set. set.items) s.sets.keys) };
}

impl Sets {
    /// No sets.
    pub fn new(alloc: Global) -> Sets
        ensures { result ≡ [] }
    {
        Sets {
            sets: IndexSet::new(alloc),
        }
    }

    pub fn len(&self) -> u32
        ensures len { result ≡ length self.now }
        ensures numbering { IsSetNumbering self.now }
    {
        self.sets.len() as u32
    }

    /// The set with this number.
    pub fn get(&self, i: u32) -> &[u32]
        requires { i < length self.now }
        ensures set { slice_get self.now i ≡ Some result.now }
        ensures rising { IsStrictlyIncreasing result.now }
    {
        self.sets.as_slice()[i as usize].as_slice()
    }

    /// The number of the set, which gets the next one where it has none.
    pub fn number(&mut self, set: Vec<u32>) -> Result<u32, NoMemory>
        requires rising { IsStrictlyIncreasing set.items }
        requires room { length self.old < 4294967295 }
        ensures number { IfOk result (λ number. slice_get self.new number ≡ Some set.items) }
        ensures numbers { Numbers self.old self.new set.items }
        ensures refused { OnErr result (self.new ≡ self.old) }
        ensures numbering { IsSetNumbering self.new }
    {
        let Ok((number, _)) = self.sets.insert_full(set) else {
            return Err(NoMemory);
        };
        Ok(number as u32)
    }

    // The number that the set has.
    pub(crate) fn find(&self, set: &[u32]) -> Option<u32>
        ensures found { MatchOption result (IsMissing self.now set.now) (λ number. slice_get self.now number ≡ Some set.now) }
        ensures numbering { IsSetNumbering self.now }
    {
        let Some(number) = self.sets.get_index_of(set) else {
            return None;
        };
        Some(number as u32)
    }
}
