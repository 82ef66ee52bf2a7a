ghost use Rattle.std.specs.Prelude.{◌≡◌, ◌<◌, ◌≤◌, ◌^◌, ◌↔◌, true, false, map, IsTrue, IfOk, All};
ghost use Rattle.std.specs.List.Sorted.{IsStrictlyIncreasing};
ghost use Rattle.ms_arena.specs.Diagram.{IsValid};
ghost use Rattle.ms_arena.specs.Halves.{half_of, IsLeaf};
ghost use Rattle.ms_diagram.specs.Collect.{AreBothHalves, AreHalves, HaveSameItems, least_level, leaf_values};
ghost use Rattle.ms_diagram.specs.Hash.{rank_of};

use crate::halves::LEAF_LEVEL;
use crate::root_list::RootList;
use crate::store::Store;
use ms_arena::Ref;
use ms_list::NoMemory;
use std::alloc::Global;

// Where a reference stands in a sorted list: the leaves first.
pub(crate) fn rank(reference: &Ref) -> u64
    ensures value { result ≡ rank_of reference.now }
    ensures short { result < 2 ^ 64 }
{
    match reference {
        Ref::Leaf(value) => u64::from(*value),
        Ref::Inner(place) => LEAF_LEVEL + u64::from(*place),
    }
}

// The roots in one order, each once, so that equal sets are equal lists.
fn ordered_set(mut roots: Vec<Ref>) -> RootList
    ensures { HaveSameItems roots.items result }
{
    if roots.len() < 2 {
        return RootList::new(roots);
    }
    roots.sort_unstable_by_key(rank);
    roots.dedup();
    RootList::new(roots)
}

// The numbers of the leaves among the roots, in rising order, each once.
pub(crate) fn leaf_set(alloc: Global, roots: &[Ref]) -> Result<Vec<u32>, NoMemory>
    ensures rising { IfOk result (λ set. IsStrictlyIncreasing set.items) }
    ensures same { IfOk result (λ set. HaveSameItems (leaf_values roots.now) set.items) }
{
    let Ok(mut values) = Vec::with_capacity(alloc, roots.len()) else {
        return Err(NoMemory);
    };
    for root in roots {
        if let Ref::Leaf(value) = root {
            if values.push(*value).is_err() {
                return Err(NoMemory);
            }
        }
    }
    values.sort_unstable();
    values.dedup();
    Ok(values)
}

// Whether no root is a node.
pub(crate) fn are_leaves(roots: &[Ref]) -> bool
    ensures { IsTrue result ↔ All IsLeaf roots.now }
{
    for root in roots {
        if let Ref::Inner(_) = root {
            return false;
        }
    }
    true
}

impl Store {
    // The first variable that one of the roots tests, or the level of a leaf.
    fn least_level(&self, roots: &[Ref]) -> u64
        requires { All (IsValid self.now.nodes) roots.now }
        ensures level { result ≡ least_level self.now.nodes roots.now }
        ensures leaves { result ≡ 4294967296 → All IsLeaf roots.now }
        ensures most { result ≤ 4294967296 }
    {
        let mut least = LEAF_LEVEL;
        for root in roots {
            least = least.min(self.level(*root));
        }
        least
    }

    // The first variable that one of the roots tests, some of which are nodes.
    #[inline(never)]
    pub(crate) fn first_variable(&self, roots: &[Ref]) -> u32
        requires valid { All (IsValid self.now.nodes) roots.now }
        requires node { ¬ All IsLeaf roots.now }
        ensures { result ≡ least_level self.now.nodes roots.now }
    {
        self.least_level(roots) as u32
    }

    // The halves of the roots where the bit of the variable is 0, in their order, with room for so many more, and those where it
    // is 1.
    fn half_lists(
        &self,
        roots: &[Ref],
        var: u32,
        spare: usize,
    ) -> Result<(Vec<Ref>, Vec<Ref>), NoMemory>
        requires { All (IsValid self.now.nodes) roots.now }
        ensures low { IfOk result (λ lists. lists.0.items ≡ map (half_of self.now.nodes var false) roots.now) }
        ensures high { IfOk result (λ lists. lists.1.items ≡ map (half_of self.now.nodes var true) roots.now) }
    {
        let room = roots.len().saturating_add(spare);
        let Ok(mut low) = Vec::with_capacity(self.alloc, room) else {
            return Err(NoMemory);
        };
        let Ok(mut high) = Vec::with_capacity(self.alloc, roots.len()) else {
            return Err(NoMemory);
        };
        for root in roots {
            let (low_half, high_half) = self.halves(*root, var);
            if low.push(low_half).is_err() || high.push(high_half).is_err() {
                return Err(NoMemory);
            }
        }
        Ok((low, high))
    }

    // The same as ordered sets.
    #[inline(never)]
    pub(crate) fn half_sets(
        &self,
        roots: &[Ref],
        var: u32,
    ) -> Result<(RootList, RootList), NoMemory>
        requires { All (IsValid self.now.nodes) roots.now }
        ensures low { IfOk result (λ sets. AreHalves self.now.nodes var false roots.now sets.0) }
        ensures high { IfOk result (λ sets. AreHalves self.now.nodes var true roots.now sets.1) }
    {
        let (low, high) = self.half_lists(roots, var, 0)?;
        Ok((ordered_set(low), ordered_set(high)))
    }

    // The halves for both values as one ordered set.
    #[inline(never)]
    pub(crate) fn both_halves(&self, roots: &[Ref], var: u32) -> Result<RootList, NoMemory>
        requires { All (IsValid self.now.nodes) roots.now }
        ensures { IfOk result (λ halves. AreBothHalves self.now.nodes var roots.now halves) }
    {
        let (mut list, high) = self.half_lists(roots, var, roots.len())?;
        let Ok(()) = list.extend_from_slice(high.as_slice()) else {
            return Err(NoMemory);
        };
        Ok(ordered_set(list))
    }
}
