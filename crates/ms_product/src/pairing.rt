ghost use Rattle.std.specs.Prelude.{◌≡◌, ◌≤◌, ◌+◌, length, IfOk};
ghost use Rattle.ms_dfa_explore.specs.Explored.{OnRefused};
ghost use Rattle.ms_product.specs.Pairing.{AreAtLeast, AreReachedPairs, IsPairedIn, IsPairedStore, ReachedAreAtLeast};
ghost use Rattle.ms_product.specs.Widened.{IsRisingMap};

use crate::op::Op;
use crate::operand::Widened;
use crate::product::{Product, ProductMachine};
use ms_arena::Ref;
use ms_dfa::State;
use ms_dfa_explore::explore;
use ms_diagram::{PairTable, Pairs, Store};
use ms_list::{List, StepFault};
use std::alloc::Global;

/// The product of two automata in a store of its own: where the truth values lead, its states, and the pairs that these are.
#[derive(Drop)]
pub struct Paired {
    pub store: Store,
    pub start: Ref,
    pub states: List<State>,
    pub pairs: Pairs,
}

/// The product of two automata, with their tracks at the places that the maps have: its states are pairs of theirs, and it holds
/// none of the nodes of the two. Nodes and pairs are together at most `limit`.
pub fn pair_up(
    alloc: Global,
    op: Op,
    left: Widened<'_>,
    right: Widened<'_>,
    limit: u64,
) -> Result<Paired, StepFault>
    requires left { IsRisingMap (length left.automaton.now.variables) left.map }
    requires right { IsRisingMap (length right.automaton.now.variables) right.map }
    requires some { 1 ≤ limit }
    requires small { limit ≤ 4000000000 }
    ensures paired { IfOk result (λ p. IsPairedIn p.store.nodes op
        (record { left = left.entry.automaton.now; left_map = left.entry.map; right = right.entry.automaton.now; right_map = right.entry.map }) p.pairs p.start p.states) }
    ensures reached { IfOk result (λ p. AreReachedPairs
        (record { left = left.entry.automaton.now; left_map = left.entry.map; right = right.entry.automaton.now; right_map = right.entry.map }) p.pairs) }
    ensures store { IfOk result (λ p. IsPairedStore p.store limit op
        (record { left = left.entry.automaton.now; left_map = left.entry.map; right = right.entry.automaton.now; right_map = right.entry.map }) p.pairs) }
    ensures within { IfOk result (λ p. length p.store.nodes + length p.states ≤ limit) }
    ensures nodes { OnRefused result (λ refused. (refused ≡ limit) × AreAtLeast limit op
        (record { left = left.entry.automaton.now; left_map = left.entry.map; right = right.entry.automaton.now; right_map = right.entry.map })) }
    ensures reached_nodes { OnRefused result (λ refused. ReachedAreAtLeast limit op
        (record { left = left.entry.automaton.now; left_map = left.entry.map; right = right.entry.automaton.now; right_map = right.entry.map })) }
{
    let product = Product {
        op,
        left,
        right,
        pairs: Pairs::new(alloc),
    };
    let mut machine = ProductMachine {
        product,
        table: PairTable::new(alloc),
    };
    let mut store = Store::new(alloc, limit);
    let mut states = List::new(alloc);
    let explored = explore(&mut machine, &mut store, &mut states);
    let product = machine.product;
    // The length tells that the pairs are a numbering.
    let _ = product.pairs.len();
    let start = match explored {
        Ok(start) => start,
        Err(fault) => return Err(fault),
    };
    Ok(Paired {
        store,
        start,
        states,
        pairs: product.pairs,
    })
}
