ghost use Rattle.ms_logic_core.specs.Size.{alone};
ghost use Rattle.ms_lower.specs.Counted.{counted, deepest, narrowed};
ghost use Rattle.ms_lower.specs.inner.Extents.{AreExtents, known_extents};
ghost use Rattle.std.specs.Prelude.{◌≡◌, ◌∷◌, [], ◌≤◌};

use crate::counted::{Counted, NO_PARTS, above};
use ms_logic::Predicate;

/// What counts where a predicate is called: its parameters' restrictions and its body; and the body alone, for where it stands
/// as a default restriction.
#[derive(Clone, Copy)]
pub struct Called {
    pub called: Option<Counted>,
    pub default: Option<Counted>,
}

/// Some predicates, with what counts where each of them is called.
#[derive(Clone, Copy)]
pub struct Extents<'a> {
    pub predicates: &'a [Predicate],
    pub called: &'a [Called],
}

/// The count, where it is within a limit.
fn narrow(count: Option<Counted>, limit: u32) -> Option<Counted>
    ensures { result ≡ narrowed limit count }
{
    let count = count?;
    if count.depth <= limit {
        Some(count)
    } else {
        None
    }
}

impl Extents<'_> {
    /// What counts at a call of the predicate with a number, besides the arguments.
    pub fn called(&self, predicate: u32, limit: u32) -> Option<Counted>
        requires known { AreExtents self.now }
        requires limit { limit ≤ deepest }
        ensures { result ≡ counted limit ((known_extents self.now).called predicate) }
    {
        match self.called.get(predicate as usize) {
            None => Some(NO_PARTS),
            Some(entry) => narrow(entry.called, limit),
        }
    }

    /// What counts where the predicate with a number stands as a default restriction.
    pub fn default(&self, predicate: u32, limit: u32) -> Option<Counted>
        requires known { AreExtents self.now }
        requires positive { 1 ≤ limit }
        requires limit { limit ≤ deepest }
        ensures { result ≡ counted limit ((known_extents self.now).default predicate ∷ []) }
    {
        match self.called.get(predicate as usize) {
            None => above(Some(NO_PARTS)),
            Some(entry) => narrow(entry.default, limit),
        }
    }
}
