ghost use Rattle.ms_lower.specs.Callees.{IsTablesOf, callable, callees_in};
ghost use Rattle.ms_lower.specs.Numbering.{number_at, rank};
ghost use Rattle.std.specs.Prelude.{◌≡◌, ◌<◌, ◌^◌, map, min, slice_get, IfNone, IfOk, IfSome, None, Some, OnOk};

use ms_list::NoMemory;
use ms_logic::{Checked, ImportUse, Order, Param, Predicate};
use std::alloc::Global;

/// The number of globals of a source, how many numbers are kept, and its predicates and imports by their numbers. Of the
/// predicates the first so many may be called.
#[derive(Clone, Copy)]
pub struct Tables<'a> {
    pub alloc: Global,
    pub kept: u32,
    pub globals: u32,
    pub callable: u32,
    pub predicates: &'a [Predicate],
    pub imports: &'a [ImportUse],
}

fn rank_of(order: Order) -> u64
    ensures { result ≡ rank order }
{
    match order {
        Order::Zero => 0,
        Order::One => 1,
        Order::Two => 2,
    }
}

/// The number in the answer of a variable of the spread. Where numbers run out, memory has long run out.
pub fn number(tables: &Tables, order: Order, name: u64) -> Result<u32, NoMemory>
    ensures number { IfOk result (λ number. number ≡ number_at tables.now.kept tables.now.globals order name) }
    ensures small { OnOk result (name < 2 ^ 32) }
{
    let kept = u64::from(tables.kept);
    let number = if name < kept {
        name
    } else if name <= u64::from(u32::MAX) {
        u64::from(tables.globals) + (3 * (name - kept) + rank_of(order))
    } else {
        return Err(NoMemory);
    };
    u32::try_from(number).map_err(|_| NoMemory)
}

fn count(items: usize) -> Result<u32, NoMemory>
    ensures { IfOk result (λ count. count ≡ items) }
{
    u32::try_from(items).map_err(|_| NoMemory)
}

impl<'a> Tables<'a> {
    /// The tables of a source, all of whose predicates may be called.
    pub fn of(alloc: Global, checked: &'a Checked) -> Result<Tables<'a>, NoMemory>
        ensures { IfOk result (IsTablesOf checked.now) }
    {
        let globals = count(checked.globals.len())?;
        Ok(Tables {
            alloc,
            kept: globals,
            globals,
            callable: count(checked.predicates.len())?,
            predicates: checked.predicates.slice(),
            imports: checked.imports.slice(),
        })
    }

    /// The tables in which the predicates before one alone may be called.
    pub fn before(&self, predicate: u32) -> Tables<'a>
        ensures kept { result.kept ≡ self.now.kept }
        ensures globals { result.globals ≡ self.now.globals }
        ensures callable { result.callable ≡ min self.now.callable predicate }
        ensures predicates { result.predicates.now ≡ self.now.predicates.now }
        ensures imports { result.imports.now ≡ self.now.imports.now }
    {
        Tables {
            callable: self.callable.min(predicate),
            ..*self
        }
    }

    /// The predicate with a number, if there is one that may be called.
    pub fn predicate(&self, number: u32) -> Option<&'a Predicate>
        ensures none { IfNone result (slice_get (callable self.now) number ≡ None) }
        ensures some { IfSome result (λ known. (slice_get (callable self.now) number ≡ Some known.now)
            × (slice_get self.now.predicates.now number ≡ Some known.now)) }
    {
        if number < self.callable {
            self.predicates.get(number as usize)
        } else {
            None
        }
    }

    /// The parameters of a predicate, of which there are none where no predicate has the number.
    pub fn params(&self, predicate: u32) -> &'a [Param]
        ensures { map (λ p. p.variable) result.now ≡ (callees_in self.now).parameters predicate }
    {
        match self.predicate(predicate) {
            None => &[],
            Some(known) => known.params.slice(),
        }
    }
}
