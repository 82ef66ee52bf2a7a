ghost use Rattle.std.specs.Prelude.{◌≡◌, ◌<◌, ℕ, length, IfOk, OnOk};
ghost use Rattle.ms_best.specs.inner.Graph.{LeadsTo, IsClosed, ListsUsers, with_user, with_users};

use ms_list::{List, NoMemory};
use std::alloc::Global;

/// A vertex of a graph in which letters are read: a goal; one from which a letter leads to another vertex; or one
/// from which a bit leads to one of two others. Vertices go by their places.
#[derive(Clone, Copy, PartialEq, Eq)]
pub enum Vertex {
    Goal,
    Letter(usize),
    Choice(usize, usize),
}

/// Notes that a vertex leads to the one at a place.
fn note(users: &mut Vec<List<usize>>, place: usize, user: usize) -> Result<(), NoMemory>
    requires { place < length users.old.items }
    ensures { OnOk result (users.new.items ≡ with_user users.old.items place user) }
{
    match users[place].push(user) {
        Ok(()) => Ok(()),
        Err(_) => Err(NoMemory),
    }
}

/// Notes a vertex, by its place, wherever it leads.
fn note_vertex(users: &mut Vec<List<usize>>, vertex: Vertex, place: usize) -> Result<(), NoMemory>
    requires { (to : ℕ) → LeadsTo vertex to → to < length users.old.items }
    ensures { OnOk result (users.new.items ≡ with_users users.old.items vertex place) }
{
    match vertex {
        Vertex::Goal => Ok(()),
        Vertex::Letter(next) => note(users, next, place),
        Vertex::Choice(low, high) => {
            note(users, low, place)?;
            note(users, high, place)
        }
    }
}

/// For each vertex those that lead to it.
pub fn users(alloc: Global, graph: &[Vertex]) -> Result<Vec<List<usize>>, NoMemory>
    requires { IsClosed graph.now }
    ensures { IfOk result (λ users. ListsUsers graph.now users.items) }
{
    let mut users = Vec::new(alloc);
    for _ in graph {
        if users.push(List::new(alloc)).is_err() {
            return Err(NoMemory);
        }
    }
    for (place, vertex) in graph.iter().enumerate() {
        note_vertex(&mut users, *vertex, place)?;
    }
    Ok(users)
}
