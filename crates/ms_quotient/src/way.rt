ghost use Rattle.std.specs.Prelude.{◌≡◌, ℕ, ◌<◌, ◌≤◌, ◌≢◌, length, slice_index, IfOk, OnOk};
ghost use Rattle.std.specs.Prelude.{All};
ghost use Rattle.ms_quotient.specs.Closure.{LeadsWithin};
ghost use Rattle.ms_quotient.specs.Way.{IsSeen, IsSeenAlong, LeadsTo};

use ms_list::{List, NoMemory, push};
use std::alloc::Global;

/// Places each of which leads on to the next, and the place to which the last one leads.
#[derive(Drop)]
pub(crate) struct Way {
    pub(crate) places: List<usize>,
    pub(crate) end: usize,
}

/// The places from this one on that have not been seen; now they are seen.
pub(crate) fn go_on(
    alloc: Global,
    next: &[u32],
    seen: &mut [bool],
    start: usize,
) -> Result<Way, NoMemory>
    requires within { LeadsWithin next.now }
    requires start { start < length next.now }
    requires long { length seen.old ≡ length next.now }
    ensures way { IfOk result (λ way. LeadsTo next.now start way.places way.end) }
    ensures places { IfOk result (λ way. All (λ place. place < length next.now) way.places) }
    ensures end { IfOk result (λ way. way.end < length next.now) }
    ensures along { IfOk result (λ way. IsSeenAlong seen.old seen.new way.places) }
    ensures start { OnOk result (IsSeen seen.new start) }
    ensures last { IfOk result (λ way. IsSeen seen.new way.end) }
{
    let mut places = List::new(alloc);
    let mut end = start;
    while !seen[end] {
        push(&mut places, end)?;
        seen[end] = true;
        end = next[end] as usize;
    }
    Ok(Way { places, end })
}

/// Where the place stands on a way, and past the end where it does not.
pub(crate) fn place_on(way: &[usize], place: usize) -> usize
    ensures within { result ≤ length way.now }
    ensures before { (k : ℕ) → k < result → slice_index way.now k ≢ place }
    ensures found { result < length way.now → slice_index way.now result ≡ place }
{
    for (k, on_way) in way.iter().enumerate() {
        if *on_way == place {
            return k;
        }
    }
    way.len()
}
