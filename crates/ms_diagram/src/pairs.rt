ghost use Rattle.std.specs.Prelude.{◌≡◌, ◌<◌, [], length, slice_get, IfOk, OnErr, MatchOption};
ghost use Rattle.ms_diagram.specs.Numbering.{AreOwnPairs, IsMissing, IsNumbering, Numbers};

use indexmap::IndexSet;
use ms_list::NoMemory;
use std::alloc::Global;
use std::marker::Model;

/// A numbering of pairs by first sight. Contracts see the list of the pairs.
#[derive(Drop)]
pub struct Pairs {
    pairs: IndexSet<(u32, u32)>,
}

impl Model for Pairs {
    ghost use Rattle.std.specs.Prelude.{List, ℕ};
    ghost use Rattle.ms_diagram.specs.Numbering.{IsNumbering as Numbered};

    ghost Value = { List (ℕ × ℕ) };

    ghost view = { λ p. p.pairs.keys };

    ghost invariant = { λ p. Numbered p.pairs.keys };
}

impl Pairs {
    /// No pairs.
    pub fn new(alloc: Global) -> Pairs
        ensures { result ≡ [] }
    {
        Pairs {
            pairs: IndexSet::new(alloc),
        }
    }

    /// So many pairs, each of its own number and 0.
    pub fn own(alloc: Global, count: u32) -> Result<Pairs, NoMemory>
        ensures { IfOk result (AreOwnPairs count) }
    {
        let mut pairs = Pairs::new(alloc);
        for number in 0..count {
            let _ = pairs.number(number, 0)?;
        }
        Ok(pairs)
    }

    pub fn len(&self) -> u32
        ensures len { result ≡ length self.now }
        ensures numbering { IsNumbering self.now }
    {
        self.pairs.len() as u32
    }

    /// The pair with this number.
    pub fn get(&self, i: u32) -> (u32, u32)
        requires { i < length self.now }
        ensures { slice_get self.now i ≡ Some result }
    {
        self.pairs.as_slice()[i as usize]
    }

    /// The number of the pair, which gets the next one where it has none.
    pub fn number(&mut self, left: u32, right: u32) -> Result<u32, NoMemory>
        requires { length self.old < 4294967295 }
        ensures number { IfOk result (λ number. slice_get self.new number ≡ Some (left, right)) }
        ensures numbers { Numbers self.old self.new (left, right) }
        ensures refused { OnErr result (self.new ≡ self.old) }
        ensures numbering { IsNumbering self.new }
    {
        let Ok((number, _)) = self.pairs.insert_full((left, right)) else {
            return Err(NoMemory);
        };
        Ok(number as u32)
    }

    // The number that the pair has.
    pub(crate) fn find(&self, left: u32, right: u32) -> Option<u32>
        ensures { MatchOption result (IsMissing self.now (left, right)) (λ number. slice_get self.now number ≡ Some (left, right)) }
    {
        let Some(number) = self.pairs.get_index_of(&(left, right)) else {
            return None;
        };
        Some(number as u32)
    }
}
