ghost use Rattle.std.specs.Prelude.{◌≡◌, ◌+◌, ◌*◌, ◌<◌, ◌≤◌, ℕ, List, [], ◌∷◌, length, sum, All, IfOk, OnOk};
ghost use Rattle.ms_best.specs.inner.Graph.{LeadsTo, IsClosed, AreDistances, distance_by};
ghost use Rattle.ms_best.specs.inner.Search.{IsSearch};

use crate::graph::{Vertex, users};
use ms_list::NoMemory;
use std::alloc::Global;
use std::collections::VecDeque;

/// The distance at a vertex, by the distances of those to which it leads.
fn distance(vertex: Vertex, distances: &[usize], far: usize) -> usize
    requires within { (place : ℕ) → LeadsTo vertex place → place < length distances.now }
    requires bounded { All (λ distance. distance ≤ far) distances.now }
    ensures { result ≡ distance_by far distances.now vertex }
{
    match vertex {
        Vertex::Goal => 0,
        Vertex::Letter(next) => {
            let next = distances[next];
            if next < far { next + 1 } else { far }
        }
        Vertex::Choice(low, high) => distances[low].min(distances[high]),
    }
}

/// Looks at a vertex that is due, and notes it where its distance becomes smaller.
fn look_at(
    graph: &[Vertex],
    far: usize,
    place: usize,
    distances: &mut Vec<usize>,
    nearer: &mut VecDeque<usize>,
) -> Result<(), NoMemory>
    requires closed { IsClosed graph.now }
    requires within { place < length graph.now }
    requires count { length distances.old.items ≡ length graph.now }
    requires bounded { All (λ distance. distance ≤ far) distances.old.items }
    ensures search { OnOk result ((due : List ℕ) → IsSearch graph.now far distances.old.items nearer.old.items (place ∷ due)
        → IsSearch graph.now far distances.new.items nearer.new.items due) }
    ensures fewer { OnOk result (2 * sum distances.new.items + length nearer.new.items ≤ 2 * sum distances.old.items + length nearer.old.items) }
{
    let smaller = distance(graph[place], distances, far);
    if distances[place] <= smaller {
        return Ok(());
    }
    distances[place] = smaller;
    match nearer.push_back(place) {
        Ok(()) => Ok(()),
        Err(_) => Err(NoMemory),
    }
}

/// Looks at vertices that are due.
fn look(
    graph: &[Vertex],
    far: usize,
    due: &[usize],
    distances: &mut Vec<usize>,
    nearer: &mut VecDeque<usize>,
) -> Result<(), NoMemory>
    requires closed { IsClosed graph.now }
    requires due { All (λ place. place < length graph.now) due.now }
    requires search { IsSearch graph.now far distances.old.items nearer.old.items due.now }
    ensures search { OnOk result (IsSearch graph.now far distances.new.items nearer.new.items []) }
    ensures fewer { OnOk result (2 * sum distances.new.items + length nearer.new.items ≤ 2 * sum distances.old.items + length nearer.old.items) }
{
    for place in due {
        look_at(graph, far, *place, distances, nearer)?;
    }
    Ok(())
}

/// How many letters lead at least from each vertex to a goal; `far` where it is that many or more, or none lead there.
pub fn distances(alloc: Global, graph: &[Vertex], far: usize) -> Result<Vec<usize>, NoMemory>
    requires { IsClosed graph.now }
    ensures { IfOk result (λ distances. AreDistances graph.now far distances.items) }
{
    let users = users(alloc, graph)?;
    let Ok(mut distances) = vec![in alloc; far; graph.len()] else {
        return Err(NoMemory);
    };
    let mut nearer = VecDeque::new(alloc);
    for place in 0..graph.len() {
        look_at(graph, far, place, &mut distances, &mut nearer)?;
    }
    while let Some(found) = nearer.pop_front() {
        look(
            graph,
            far,
            users[found].slice(),
            &mut distances,
            &mut nearer,
        )?;
    }
    Ok(distances)
}
