ghost use Rattle.std.specs.Prelude.{◌≡◌, ◌<◌, ℕ, length, slice_get, Some, IfOk};
ghost use Rattle.ms_dfa.specs.declared.state.State.{State};
ghost use Rattle.ms_dfa.specs.Files.{file_sign, sign_outside};
ghost use Rattle.ms_minim_canonical.specs.inner.Renumbering.{ArePaired, IsNodeOf, IsPlaceOf, IsRenamed, IsRenamedNode, IsRenumbered, IsStateOf, LeadsBelow};

use crate::order::sights;
use crate::walk::Sights;
use indexmap::IndexSet;
use ms_arena::{Node, Ref};
use ms_dfa::{FileSign, FileState, FileVersion, State};
use ms_diagram::Store;
use ms_list::{List, NoMemory, push};
use ms_logic_words::Sign;
use std::alloc::Global;

/// A start, states and nodes by first sight.
#[derive(Drop)]
pub(crate) struct Renumbering {
    pub start: Ref,
    pub states: List<FileState>,
    pub nodes: List<Node>,
}

/// The place of a number among those that were seen, and 0 where it is none of them.
fn place_of(seen: &IndexSet<u32>, number: u32) -> Result<u32, NoMemory>
    ensures { IfOk result (IsPlaceOf seen.now.keys number) }
{
    let Some(place) = seen.get_index_of(&number) else {
        return Ok(0);
    };
    match u32::try_from(place) {
        Ok(place) => Ok(place),
        Err(_) => Err(NoMemory),
    }
}

/// A reference under the new numbers.
fn renamed(seen: &Sights, reference: Ref) -> Result<Ref, NoMemory>
    ensures { IfOk result (IsRenamed seen.now.states.keys seen.now.places.keys reference) }
{
    match reference {
        Ref::Leaf(state) => Ok(Ref::Leaf(place_of(&seen.states, state)?)),
        Ref::Inner(place) => Ok(Ref::Inner(place_of(&seen.places, place)?)),
    }
}

/// A node under the new numbers.
fn renamed_node(seen: &Sights, node: Node) -> Result<Node, NoMemory>
    ensures { IfOk result (IsRenamedNode seen.now.states.keys seen.now.places.keys node) }
{
    let low = renamed(seen, node.low)?;
    let high = renamed(seen, node.high)?;
    Ok(Node {
        var: node.var,
        low,
        high,
    })
}

/// The sign of words that encode no assignment, in a file of a version.
fn sign_outside(version: FileVersion) -> FileSign
    ensures { result ≡ sign_outside version }
{
    match version {
        FileVersion::One => FileSign::Zero,
        FileVersion::Two => FileSign::Outside,
    }
}

/// The sign in a file of a version.
fn file_sign(version: FileVersion, sign: Sign) -> FileSign
    ensures { result ≡ file_sign version sign }
{
    match sign {
        Sign::Yes => FileSign::Plus,
        Sign::No => FileSign::Minus,
        Sign::Undefined => FileSign::Zero,
        Sign::Outside => sign_outside(version),
    }
}

/// The nodes that were seen, under the new numbers.
fn renamed_nodes(alloc: Global, store: &Store, seen: &Sights) -> Result<List<Node>, NoMemory>
    requires { (at place : ℕ) → slice_get seen.now.places.keys at ≡ Some place → place < length store.now.nodes }
    ensures { IfOk result (ArePaired (IsNodeOf store.now.nodes seen.now.states.keys seen.now.places.keys) seen.now.places.keys) }
{
    let mut made = List::new(alloc);
    for place in seen.places.as_slice() {
        let node = renamed_node(seen, store.node(*place))?;
        push(&mut made, node)?;
    }
    Ok(made)
}

/// The states that were seen, under the new numbers and with the signs of a file of a version.
fn renamed_states(
    alloc: Global,
    states: &[State],
    seen: &Sights,
    version: FileVersion,
) -> Result<List<FileState>, NoMemory>
    requires { (at state : ℕ) → slice_get seen.now.states.keys at ≡ Some state → state < length states.now }
    ensures { IfOk result (ArePaired (IsStateOf version states.now seen.now.states.keys seen.now.places.keys) seen.now.states.keys) }
{
    let mut made = List::new(alloc);
    for number in seen.states.as_slice() {
        let state = states[*number as usize];
        let next = renamed(seen, state.next)?;
        let sign = file_sign(version, state.sign);
        push(&mut made, FileState { sign, next })?;
    }
    Ok(made)
}

/// The start, the states and the nodes by first sight, with the signs of a file of a version. What is not reached is left out.
pub(crate) fn renumbered(
    alloc: Global,
    store: &Store,
    start: Ref,
    states: &[State],
    version: FileVersion,
) -> Result<Renumbering, NoMemory>
    requires start { LeadsBelow store.now.nodes (length states.now) start }
    requires next { (place : ℕ) (state : State) → slice_get states.now place ≡ Some state → LeadsBelow store.now.nodes (length states.now) state.next }
    ensures { IfOk result (λ made. IsRenumbered version store.now.nodes start states.now made.start made.states made.nodes) }
{
    // The length tells that it is a store.
    let _ = store.len();
    let seen = sights(alloc, store, start, states)?;
    let start = renamed(&seen, start)?;
    let states = renamed_states(alloc, states, &seen, version)?;
    let nodes = renamed_nodes(alloc, store, &seen)?;
    Ok(Renumbering {
        start,
        states,
        nodes,
    })
}
