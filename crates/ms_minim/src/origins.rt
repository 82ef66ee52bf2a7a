ghost use Rattle.std.specs.Prelude.{◌≡◌, ◌⊎◌, ◌<◌, ◌≤◌, ◌+◌, ◌↔◌, ℕ, length, replicate, slice_index, IsTrue, IfOk};
ghost use Rattle.ms_arena.specs.declared.node.Ref.{Ref as Reference};
ghost use Rattle.ms_minim.specs.inner.Origin.{AreOrigins, HasPlace, IsNoted, IsSeen, OriginsSoFar, nowhere};

use crate::reading::Reader;
use ms_arena::Ref;
use ms_list::NoMemory;
use std::alloc::Global;

/// The origin of what is reached from nowhere.
const NOWHERE: u32 = u32::MAX;

/// From where each node and each state of an automaton is reached: 0 from the start, and a state's number and one from the
/// state. Of several origins the least is noted.
pub(crate) struct Origins {
    pub nodes: Vec<u32>,
    pub states: Vec<u32>,
}

// Written out, so that a function that lets one go at each of its exits is proved at the cost of a call.
impl Drop for Origins {
    fn drop(self) {
        let Origins {
            nodes: _,
            states: _,
        } = self;
    }
}

/// Whether a node is reached.
pub(crate) fn is_seen(origin: u32) -> bool
    ensures { IsTrue result ↔ (origin < nowhere) }
{
    origin < NOWHERE
}

/// Nothing is reached, of so many.
fn unreached(alloc: Global, count: u64) -> Result<Vec<u32>, NoMemory>
    ensures { IfOk result (λ made. made.items ≡ replicate count nowhere) }
{
    let mut made = Vec::new(alloc);
    for _ in 0..count {
        if made.push(NOWHERE).is_err() {
            return Err(NoMemory);
        }
    }
    Ok(made)
}

/// A lesser origin at a place.
fn lower(list: &mut Vec<u32>, place: u32, origin: u32)
    ensures count { length list.new.items ≡ length list.old.items }
    ensures lower { (other : ℕ) → slice_index list.new.items other ≤ slice_index list.old.items other }
    ensures own { place < length list.old.items → slice_index list.new.items place ≤ origin }
    ensures only { (other : ℕ) → (slice_index list.new.items other ≡ slice_index list.old.items other) ⊎ ((other ≡ place) × (slice_index list.new.items other ≡ origin)) }
{
    if (place as usize) < list.len() && origin < list[place as usize] {
        list[place as usize] = origin;
    }
}

/// A reference is reached from an origin.
fn note(origins: &mut Origins, reference: Ref, origin: u32)
    ensures { IsNoted origins.old origins.new reference origin }
{
    match reference {
        Ref::Leaf(state) => lower(&mut origins.states, state, origin),
        Ref::Inner(place) => lower(&mut origins.nodes, place, origin),
    }
}

/// The start and all states are origins.
fn note_roots(automaton: &Reader, origins: &mut Origins)
    requires nodes { length origins.old.nodes.items ≡ length automaton.now.nodes }
    requires states { length origins.old.states.items ≡ length automaton.now.states }
    requires few { length automaton.now.states < nowhere }
    requires none { (reference : Reference) → HasPlace origins.old reference → ¬ IsSeen origins.old reference }
    ensures { OriginsSoFar automaton.now origins.new (length automaton.now.states) (length automaton.now.nodes) }
{
    note(origins, automaton.start_ref(), 0);
    for state in 0..automaton.states() {
        note(origins, automaton.next_ref(state), state + 1);
    }
}

/// The ends of a node are reached from where the node is.
fn note_ends(automaton: &Reader, origins: &mut Origins, place: u32)
    requires place { place < length automaton.now.nodes }
    requires origins { OriginsSoFar automaton.now origins.old (length automaton.now.states) (place + 1) }
    ensures { OriginsSoFar automaton.now origins.new (length automaton.now.states) place }
{
    // The states tell that it is an automaton.
    let _ = automaton.states();
    let origin = origins.nodes[place as usize];
    if is_seen(origin) {
        let node = automaton.store().node(place);
        note(origins, node.low, origin);
        note(origins, node.high, origin);
    }
}

/// From where the nodes and the states of an automaton are reached.
pub(crate) fn origins_of(alloc: Global, automaton: &Reader) -> Result<Origins, NoMemory>
    ensures { IfOk result (AreOrigins automaton.now) }
{
    let states = automaton.states();
    if states == NOWHERE {
        return Err(NoMemory);
    }
    let mut origins = Origins {
        nodes: unreached(alloc, automaton.store().len())?,
        states: unreached(alloc, u64::from(states))?,
    };
    note_roots(automaton, &mut origins);
    let mut left = automaton.store().len() as u32;
    while left > 0 {
        left -= 1;
        note_ends(automaton, &mut origins, left);
    }
    Ok(origins)
}

/// Whether each state is reached from the start or from a state with a lesser number, so that words lead to all of them.
pub(crate) fn reach_all(origins: &Origins) -> bool
    ensures { IsTrue result → (state : ℕ) → state < length origins.now.states.items → slice_index origins.now.states.items state ≤ state }
{
    for state in 0..origins.states.len() {
        if origins.states[state] as usize > state {
            return false;
        }
    }
    true
}

/// Whether each node is reached from somewhere.
pub(crate) fn reach_nodes(origins: &Origins) -> bool
    ensures { IsTrue result → (place : ℕ) → place < length origins.now.nodes.items → slice_index origins.now.nodes.items place < nowhere }
{
    for place in 0..origins.nodes.len() {
        if !is_seen(origins.nodes[place]) {
            return false;
        }
    }
    true
}
