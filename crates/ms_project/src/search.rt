ghost use Rattle.std.specs.Prelude.{◌≡◌, ◌≤◌, ◌+◌, length, IfOk};
ghost use Rattle.ms_dfa_explore.specs.Explored.{OnRefused};
ghost use Rattle.ms_project.specs.Subsetting.{AreSetsFound, IsLaterSubsetting, IsReadyForSets, SetsAreAtLeast, begun, with_sets};

use crate::pairing::Product;
use crate::subsets::{Subsets, SubsetsMachine};
use ms_arena::Ref;
use ms_dfa::State;
use ms_dfa_explore::explore;
use ms_diagram::{ListTable, Sets, Store};
use ms_list::{List, StepFault};
use std::alloc::Global;

/// All sets of a subset construction, with their diagrams over the other tracks in a store of its own.
#[derive(Drop)]
pub(crate) struct SetsFound {
    pub(crate) sets: Sets,
    pub(crate) store: Store,
    pub(crate) start: Ref,
    pub(crate) states: List<State>,
}

/// Finds all sets, from those of the start on.
pub(crate) fn find_sets(
    alloc: Global,
    product: Product<'_>,
    bound: u32,
    back: List<u32>,
    limit: u64,
) -> Result<SetsFound, StepFault>
    requires ready { IsReadyForSets (begun product.body.now product.store.now product.start product.states bound back) }
    requires some { 1 ≤ limit }
    requires small { limit ≤ 4000000000 }
    ensures later { let first = begun product.entry.body.now product.entry.store.now product.entry.start product.entry.states bound back in
        IfOk result (λ found. IsLaterSubsetting first (with_sets first found.sets)) }
    ensures found { let first = begun product.entry.body.now product.entry.store.now product.entry.start product.entry.states bound back in
        IfOk result (λ found. AreSetsFound (with_sets first found.sets) found.store found.start found.states) }
    ensures within { IfOk result (λ found. length found.store.nodes + length found.states ≤ limit) }
    ensures size { IfOk result (λ found. SetsAreAtLeast (length found.store.nodes + length found.states) (begun product.entry.body.now product.entry.store.now product.entry.start product.entry.states bound back)) }
    ensures nodes { OnRefused result (λ refused. (refused ≡ limit) × SetsAreAtLeast refused (begun product.entry.body.now product.entry.store.now product.entry.start product.entry.states bound back)) }
{
    // The lengths tell that the nodes are those of stores, and the sets a numbering.
    let _ = product.store.len();
    let mut store = Store::new(alloc, limit);
    let subsets = Subsets {
        alloc,
        body: product.body,
        inner: product.store,
        start: product.start,
        states: product.states,
        bound,
        back,
        sets: Sets::new(alloc),
    };
    let mut machine = SubsetsMachine {
        subsets,
        lists: ListTable::new(alloc),
    };
    let mut states = List::new(alloc);
    let explored = explore(&mut machine, &mut store, &mut states);
    let subsets = machine.subsets;
    let _ = subsets.sets.len();
    let start = match explored {
        Ok(start) => start,
        Err(fault) => return Err(fault),
    };
    Ok(SetsFound {
        sets: subsets.sets,
        store,
        start,
        states,
    })
}
