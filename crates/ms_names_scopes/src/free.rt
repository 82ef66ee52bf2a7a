ghost use Rattle.indexmap.specs.IndexSet.{contains};
ghost use Rattle.ms_names_rules.specs.inner.Free.{Readings};
ghost use Rattle.ms_names_rules.specs.Reads.{with_predicates};
ghost use Rattle.ms_names_scopes.specs.inner.Read.{IsLastRead, NoneIsRead, Tells};
ghost use Rattle.std.specs.Prelude.{◌≡◌, ◌==◌, ◌∷◌, ◌++◌, [], ℕ, if◌then◌else◌, true, nat_eq, reverse, IfNone, IfOk, IfSome, OnOk};

use crate::ordered::insert;
use indexmap::IndexSet;
use ms_list::{List, NoMemory};
use ms_names_rules::Reading;
use std::alloc::Global;
use std::collections::BTreeSet;

/// What some readings lead to. Predicates are followed from the last to the first.
#[derive(Drop)]
pub(crate) struct Read {
    // The numbers of the variables.
    pub(crate) variables: IndexSet<u32>,
    // The numbers of the predicates that are read and left to follow.
    pub(crate) waiting: BTreeSet<usize>,
    // The predicates below this number are left.
    pub(crate) left: usize,
}

impl Read {
    // No readings, where so many predicates are left.
    fn new(alloc: Global, left: usize) -> Read
        ensures tells { Tells result [] }
        ensures left { result.left ≡ left }
    {
        Read {
            variables: IndexSet::new(alloc),
            waiting: BTreeSet::new(alloc),
            left,
        }
    }

    /// What some readings lead to through these predicates, of which each has its readings.
    pub(crate) fn through(
        alloc: Global,
        readings: &[Reading],
        predicates: &[List<Reading>],
    ) -> Result<Read, NoMemory>
        ensures { IfOk result (λ read. Tells read (with_predicates (reverse predicates.now) readings.now)) }
    {
        let mut read = Read::new(alloc, predicates.len());
        read.add_all(readings)?;
        while let Some(p) = read.next_predicate() {
            let more = &predicates[p];
            read.add_all(more.slice())?;
        }
        Ok(read)
    }

    // The last predicate that is read and left, if there is one. It is left no more, nor are those behind it.
    fn next_predicate(&mut self) -> Option<usize>
        ensures tells { (rs : Readings) → Tells self.old rs → Tells self.new rs }
        ensures last { IfSome result (λ p. (rs : Readings) → Tells self.old rs → IsLastRead p self.old.left rs) }
        ensures left { IfSome result (λ p. self.new.left ≡ p) }
        ensures none { IfNone result ((rs : Readings) → Tells self.old rs → NoneIsRead 0 self.old.left rs) }
    {
        match self.waiting.pop_last() {
            Some(p) => {
                self.left = p;
                Some(p)
            }
            None => None,
        }
    }

    // Some readings more.
    fn add_all(&mut self, readings: &[Reading]) -> Result<(), NoMemory>
        ensures tells { OnOk result ((rs : Readings) → Tells self.old rs → Tells self.new (rs ++ readings.now)) }
        ensures left { OnOk result (self.new.left ≡ self.old.left) }
    {
        for reading in readings {
            self.add(*reading)?;
        }
        Ok(())
    }

    // One reading more.
    fn add(&mut self, reading: Reading) -> Result<(), NoMemory>
        ensures tells { OnOk result ((rs : Readings) → Tells self.old rs → Tells self.new (rs ++ reading ∷ [])) }
        ensures left { OnOk result (self.new.left ≡ self.old.left) }
    {
        match reading {
            Reading::Variable(x) => {
                note(&mut self.variables, x)?;
                Ok(())
            }
            Reading::Predicate(p) => {
                let p = p as usize;
                if p < self.left {
                    insert(&mut self.waiting, p)?;
                    return Ok(());
                }
                Ok(())
            }
        }
    }
}

// One number more.
fn note(numbers: &mut IndexSet<u32>, number: u32) -> Result<(), NoMemory>
    ensures { OnOk result ((k : ℕ) → contains nat_eq numbers.new k ≡ (if number == k then true else contains nat_eq numbers.old k)) }
{
    match numbers.insert(number) {
        Ok(_) => Ok(()),
        Err(_) => Err(NoMemory),
    }
}
