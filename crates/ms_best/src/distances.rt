ghost use Rattle.std.specs.Prelude.{◌≡◌, ◌<◌, ◌^◌, ◌++◌, ◌∷◌, [], length, slice_get, slice_index_or, map, IfOk, IfSome, OnOk};
ghost use Rattle.ms_best.specs.inner.Automaton.{is_sign, place_of, vertex_of_state, vertex_of_node, graph_of};

use crate::distance::distances;
use crate::graph::Vertex;
use ms_arena::{Node, Ref};
use ms_dfa::{Automaton, Sign};
use ms_diagram::Store;
use ms_list::NoMemory;
use std::alloc::Global;

/// How far the states and the diagrams of an automaton are from a sign.
#[derive(Drop)]
pub struct Distances {
    states: usize,
    nodes: usize,
    values: Vec<usize>,
    ghost few_states: { states < 2 ^ 33 },
    ghost few_nodes: { nodes < 2 ^ 33 },
}

impl Distances {
    ghost use Rattle.ms_best.specs.inner.Distances.{HoldsDistances};

    /// The distances of an automaton from a sign.
    pub fn new(alloc: Global, automaton: &Automaton, sign: Sign) -> Result<Distances, NoMemory>
        ensures { IfOk result (λ made. HoldsDistances automaton.now sign made) }
    {
        let graph = graph(alloc, automaton, sign)?;
        let states = automaton.states() as usize;
        let nodes = automaton.store().len() as usize;
        let values = distances(alloc, &graph, states)?;
        Ok(Distances {
            states,
            nodes,
            values,
        })
    }

    /// How many letters lead at least from a reference to a state of the sign; no fewer than there are states, where
    /// none lead there.
    pub fn of(&self, reference: Ref) -> usize
        ensures { result ≡ slice_index_or self.now.values.items (place_of self.now.states self.now.nodes reference) self.now.states }
    {
        let place = place(self.states, self.nodes, reference);
        match self.values.get(place) {
            Some(value) => *value,
            None => self.states,
        }
    }
}

/// The place of a reference in the graph of an automaton with so many states and nodes.
fn place(states: usize, nodes: usize, reference: Ref) -> usize
    requires states { states < 2 ^ 33 }
    requires nodes { nodes < 2 ^ 33 }
    ensures { result ≡ place_of states nodes reference }
{
    match reference {
        Ref::Leaf(value) if (value as usize) < states => value as usize,
        Ref::Leaf(_) => states + nodes,
        Ref::Inner(place) => states + place as usize,
    }
}

fn is_same(one: Sign, other: Sign) -> bool
    ensures { result ≡ is_sign one other }
{
    one == other
}

fn state_vertex(automaton: &Automaton, nodes: usize, sign: Sign, state: u32) -> Vertex
    requires state { state < length automaton.now.states }
    requires nodes { nodes < 2 ^ 33 }
    ensures { IfSome (slice_get automaton.now.states state) (λ found. result ≡ vertex_of_state (length automaton.now.states) nodes sign found) }
{
    if is_same(automaton.sign(state), sign) {
        Vertex::Goal
    } else {
        Vertex::Letter(place(
            automaton.states() as usize,
            nodes,
            automaton.next_ref(state),
        ))
    }
}

fn node_vertex(states: usize, nodes: usize, node: Node) -> Vertex
    requires states { states < 2 ^ 33 }
    requires nodes { nodes < 2 ^ 33 }
    ensures { result ≡ vertex_of_node states nodes node }
{
    Vertex::Choice(
        place(states, nodes, node.low),
        place(states, nodes, node.high),
    )
}

/// The vertices of the states.
fn state_vertices(
    alloc: Global,
    automaton: &Automaton,
    nodes: usize,
    sign: Sign,
) -> Result<Vec<Vertex>, NoMemory>
    requires { nodes < 2 ^ 33 }
    ensures { IfOk result (λ made. made.items ≡ map (vertex_of_state (length automaton.now.states) nodes sign) automaton.now.states) }
{
    let mut made = Vec::new(alloc);
    for state in 0..automaton.states() {
        match made.push(state_vertex(automaton, nodes, sign, state)) {
            Ok(()) => {}
            Err(_) => return Err(NoMemory),
        }
    }
    Ok(made)
}

/// Appends the vertices of the nodes.
fn push_nodes(graph: &mut Vec<Vertex>, states: usize, store: &Store) -> Result<(), NoMemory>
    requires { states < 2 ^ 33 }
    ensures { OnOk result (graph.new.items ≡ graph.old.items ++ map (vertex_of_node states (length store.now.nodes)) store.now.nodes) }
{
    let nodes = store.len();
    for place in 0..nodes as u32 {
        match graph.push(node_vertex(states, nodes as usize, store.node(place))) {
            Ok(()) => {}
            Err(_) => return Err(NoMemory),
        }
    }
    Ok(())
}

/// The graph of an automaton, in which states of the sign are goals.
fn graph(alloc: Global, automaton: &Automaton, sign: Sign) -> Result<Vec<Vertex>, NoMemory>
    ensures { IfOk result (λ graph. graph.items ≡ graph_of automaton.now sign) }
{
    let states = automaton.states() as usize;
    let nodes = automaton.store().len() as usize;
    let mut graph = state_vertices(alloc, automaton, nodes, sign)?;
    push_nodes(&mut graph, states, automaton.store())?;
    match graph.push(Vertex::Letter(states + nodes)) {
        Ok(()) => Ok(graph),
        Err(_) => Err(NoMemory),
    }
}
