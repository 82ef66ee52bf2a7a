ghost use Rattle.std.specs.Prelude.{◌≡◌, ◌≤◌, length, map, IfOk, IsTrue, ◌+◌, ◌↔◌};
ghost use Rattle.ms_dfa.specs.Automaton.{states_of};
ghost use Rattle.ms_dfa.specs.Values.{HasValues, own_meaning};
ghost use Rattle.ms_logic_words.specs.Residual.{IsLeast};
ghost use Rattle.ms_dfa_explore.specs.Explored.{OnRefused};
ghost use Rattle.ms_dfa_explore.specs.Tracks.{distinct};
ghost use Rattle.ms_basic.specs.Operands.{HaveOneOrder};
ghost use Rattle.ms_rename.specs.inner.Image.{IsRenamedBy, with_image};
ghost use Rattle.ms_product.specs.Pairing.{ReachedAreAtLeast};
ghost use Rattle.ms_product.specs.declared.op.Op.TheVariants.{And};
ghost use Rattle.ms_rename.specs.Renamed.{HasPartsOf, NeedsAtLeast, Rises, beside_itself, renamed, renamed_meaning, renamed_places};

use crate::images::{image, images};
use crate::reached::reached;
use crate::tracks;
use ms_arena::Ref;
use ms_dfa::{Automaton, State};
use ms_dfa_explore::distinct;
use ms_diagram::Store;
use ms_list::{List, NoMemory, StepFault, push};
use ms_product::same_states;
use std::alloc::Global;

/// How many nodes there may be on the way; what is more is more than memory holds.
const SCRATCH: u64 = 4_000_000_000;

/// The states of an automaton, each with the image of its diagram.
fn states(alloc: Global, a: &Automaton, images: &[Ref]) -> Result<List<State>, NoMemory>
    requires { length images.now ≡ length a.now.nodes }
    ensures { IfOk result (λ made. states_of made ≡ map (with_image images.now) a.now.states) }
{
    let mut made = List::new(alloc);
    for state in 0..a.states() {
        let sign = a.sign(state);
        let next = image(images, a.next_ref(state));
        push(&mut made, State { sign, next })?;
    }
    Ok(made)
}

/// The automaton over the variables of a map, in a store that also holds what only its making needed.
fn renamed_in_scratch(alloc: Global, a: &Automaton, map: &[u32]) -> Result<Automaton, NoMemory>
    requires long { length map.now ≡ length a.now.variables }
    requires orders { HaveOneOrder (renamed map.now a.now.variables) }
    ensures mode { IfOk result (λ made. made.mode ≡ a.now.mode) }
    ensures variables { IfOk result (λ made. made.variables ≡ distinct (renamed map.now a.now.variables)) }
    ensures images { IfOk result (IsRenamedBy (renamed_places map.now a.now.variables) a.now) }
{
    let narrow = tracks::renamed_tracks(alloc, a.tracks(), map)?;
    let wide = distinct(alloc, narrow.slice())?;
    let places = tracks::places(alloc, narrow.slice(), wide.slice())?;
    let mut scratch = Store::new(alloc, SCRATCH);
    let Ok(images) = images(alloc, &mut scratch, a.store(), places.slice()) else {
        return Err(NoMemory);
    };
    let states = states(alloc, a, images.slice())?;
    let start = image(images.slice(), a.start_ref());
    // The length tells that the nodes are those of a store.
    let _ = scratch.len();
    Ok(Automaton::make(scratch, a.mode(), wide, start, states))
}

/// Whether each number is below the next.
pub fn rises(map: &[u32]) -> bool
    ensures { IsTrue result ↔ Rises map.now }
{
    for i in 1..map.len() {
        if map[i - 1] >= map[i] {
            return false;
        }
    }
    true
}

/// The automaton over the variables of a map whose numbers rise: the same but for the names of the tracks.
fn renamed_in_order(alloc: Global, a: &Automaton, map: &[u32]) -> Result<Automaton, NoMemory>
    requires long { length map.now ≡ length a.now.variables }
    requires rises { Rises map.now }
    ensures mode { IfOk result (λ made. made.mode ≡ a.now.mode) }
    ensures variables { IfOk result (λ made. made.variables ≡ distinct (renamed map.now a.now.variables)) }
    ensures parts { IfOk result (HasPartsOf a.now) }
    ensures least { IsLeast a.now → IfOk result IsLeast }
    ensures values { IfOk result (HasValues (renamed_meaning map.now a.now.variables (own_meaning a.now))) }
{
    let store = a.store().copy()?;
    let tracks = tracks::renamed_tracks(alloc, a.tracks(), map)?;
    let states = same_states(alloc, a)?;
    Ok(Automaton::make(store, a.mode(), tracks, a.start_ref(), states))
}

/// The automaton that has, at each assignment of the variables of the map, the sign of `a` where track `i` takes the value of
/// variable `map[i]`. Its tracks are those variables, each once, in rising order. Nodes and states are together at most
/// `limit`.
pub fn rename(alloc: Global, a: &Automaton, map: &[u32], limit: u64) -> Result<Automaton, StepFault>
    requires long { length map.now ≡ length a.now.variables }
    requires orders { HaveOneOrder (renamed map.now a.now.variables) }
    requires some { 1 ≤ limit }
    requires small { limit ≤ 4000000000 }
    ensures mode { IfOk result (λ made. made.mode ≡ a.now.mode) }
    ensures variables { IfOk result (λ made. made.variables ≡ distinct (renamed map.now a.now.variables)) }
    ensures values { IfOk result (HasValues (renamed_meaning map.now a.now.variables (own_meaning a.now))) }
    // Where the numbers rise, the automaton stays as it is but for its names, and memory alone can be wanting.
    ensures same { Rises map.now → IfOk result (HasPartsOf a.now) }
    ensures least { Rises map.now → IsLeast a.now → IfOk result IsLeast }
    ensures only_memory { Rises map.now → OnRefused result (λ refused. ⊥) }
    ensures within { (Rises map.now → length a.now.nodes + length a.now.states ≤ limit) → IfOk result (λ made. length made.nodes + length made.states ≤ limit) }
    // Where they do not rise, it has what starts reach alone.
    ensures size { ¬ Rises map.now → IfOk result (λ made. ReachedAreAtLeast (length made.nodes + length made.states) And (beside_itself a.now (renamed_places map.now a.now.variables))) }
    ensures nodes { OnRefused result (λ refused. (refused ≡ limit) × NeedsAtLeast limit a.now (renamed_places map.now a.now.variables)) }
    ensures reached_nodes { OnRefused result (λ refused. ReachedAreAtLeast limit And (beside_itself a.now (renamed_places map.now a.now.variables))) }
{
    if rises(map) {
        return match renamed_in_order(alloc, a, map) {
            Ok(made) => Ok(made),
            Err(_) => Err(StepFault::Memory),
        };
    }
    // The numbers of states tell that these are automata.
    let _ = a.states();
    let Ok(scattered) = renamed_in_scratch(alloc, a, map) else {
        return Err(StepFault::Memory);
    };
    let _ = scattered.states();
    reached(alloc, &scattered, limit)
}
