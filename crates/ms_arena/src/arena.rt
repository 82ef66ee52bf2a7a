ghost use Rattle.std.specs.Prelude.{◌≡◌, ◌+◌, ◌<◌, ◌≤◌, ◌/◌, [], ◌∷◌, ◌++◌, length, max, slice_get, MatchOption, IfOk, OnOk, OnErr};
ghost use Rattle.ms_arena.specs.Target.{IsNew};

use crate::cells::Cells;
use crate::chain::{empty_all, find_in_chain, find_in_row, link, link_all};
use crate::node::Node;
use ms_list::NoMemory;
use std::alloc::Global;
use std::marker::Model;

/// The least number of nodes that room is made for.
const LEAST_ROOM: u64 = 64;

/// How many nodes there is room for to each bucket. With one to each the program takes a fourteenth more memory, and no less time.
const ROOM_OF_BUCKET: usize = 2;

/// A list of nodes, no two equal, that knows the place of each. Contracts see the list, and how many more nodes there is
/// room for.
#[derive(Drop)]
pub struct Arena {
    alloc: Global,
    cells: Cells,
    heads: Vec<u32>,
    spare: u32,
}

impl Model for Arena {
    ghost use Rattle.ms_arena.specs.Arena.{Contents};
    ghost use Rattle.ms_arena.specs.inner.Table.{IsTable};
    ghost use Rattle.ms_arena.specs.inner.Chain.{nodes_of};

    ghost Value = { Contents };

    ghost view = { λ a. record { nodes = nodes_of a.cells.cells; spare = a.spare } };

    ghost invariant = { λ a. IsTable a.cells.cells a.heads.items a.spare a.cells.spare };
}

impl Arena {
    ghost use Rattle.ms_arena.specs.Arena.{IsUnique};

    /// An arena with no nodes and no room for any, which takes no memory.
    pub fn new(alloc: Global) -> Arena
        ensures empty { result.nodes ≡ [] }
        ensures spare { result.spare ≡ 0 }
    {
        Arena {
            alloc,
            cells: Cells::new(alloc),
            heads: Vec::new(alloc),
            spare: 0,
        }
    }

    /// The number of nodes.
    pub fn len(&self) -> u32
        ensures len { result ≡ length self.now.nodes }
        ensures unique { IsUnique self.now.nodes }
    {
        self.cells.len() as u32
    }

    /// The node at a place.
    pub fn get(&self, place: u32) -> Node
        requires { place < length self.now.nodes }
        ensures { slice_get self.now.nodes place ≡ Some result }
    {
        self.cells.get(place).node
    }

    /// The place of the node, if it is held.
    pub fn find(&self, node: Node) -> Option<u32>
        ensures { MatchOption result (IsNew self.now.nodes node) (λ place. slice_get self.now.nodes place ≡ Some node) }
    {
        if self.heads.is_empty() {
            return find_in_row(&self.cells, node);
        }
        find_in_chain(&self.cells, &self.heads, node)
    }

    /// Lets the heads of the chains go, and the room for more nodes, for an arena that is read alone: a node is then looked for at
    /// one place after the other, until room is made.
    pub fn seal(&mut self)
        ensures nodes { self.new.nodes ≡ self.old.nodes }
        ensures spare { self.new.spare ≡ 0 }
    {
        self.heads.clear();
        self.heads.shrink_to_fit();
        self.spare = 0;
    }

    /// Makes room for at least so many more nodes, and the chains anew where they were let go.
    pub fn reserve(&mut self, n: u32) -> Result<(), NoMemory>
        requires { length self.old.nodes + n ≤ 4294967295 }
        ensures room { OnOk result (n ≤ self.new.spare) }
        ensures nodes { self.new.nodes ≡ self.old.nodes }
        ensures refused { OnErr result (self.new ≡ self.old) }
    {
        if n <= self.spare && !self.heads.is_empty() {
            return Ok(());
        }
        self.grow(n)
    }

    // The same where there is too little room.
    #[cold]
    fn grow(&mut self, n: u32) -> Result<(), NoMemory>
        requires { length self.old.nodes + n ≤ 4294967295 }
        ensures room { OnOk result (n ≤ self.new.spare) }
        ensures nodes { self.new.nodes ≡ self.old.nodes }
        ensures refused { OnErr result (self.new ≡ self.old) }
    {
        let held = self.cells.len();
        let room = room_for(held as u64 + u64::from(n)) as usize;
        let buckets = room / ROOM_OF_BUCKET;
        let more = buckets.saturating_sub(self.heads.len());
        if self.heads.reserve_exact(more).is_err()
            || self.cells.reserve_exact(room - held).is_err()
        {
            return Err(NoMemory);
        }
        empty_all(&mut self.heads, buckets);
        link_all(&mut self.cells, &mut self.heads);
        self.spare = (room.min(u32::MAX as usize) - held) as u32;
        Ok(())
    }

    /// Appends the node, and gives its place.
    pub fn push(&mut self, node: Node) -> u32
        requires room { 1 ≤ self.old.spare }
        requires new { IsNew self.old.nodes node }
        ensures place { result ≡ length self.old.nodes }
        ensures nodes { self.new.nodes ≡ self.old.nodes ++ node ∷ [] }
        ensures spare { self.new.spare + 1 ≡ self.old.spare }
    {
        let place = self.cells.len() as u32;
        self.cells.push(node);
        link(&mut self.cells, &mut self.heads, place);
        self.spare -= 1;
        place
    }

    /// An arena with the same nodes. Room for more is to be made in it.
    pub fn copy(&self) -> Result<Arena, NoMemory>
        ensures { IfOk result (λ made. made.nodes ≡ self.now.nodes) }
    {
        let cells = self.cells.copy(self.alloc)?;
        let Ok(heads) = Vec::from_slice(self.alloc, &self.heads) else {
            return Err(NoMemory);
        };
        Ok(Arena {
            alloc: self.alloc,
            cells,
            heads,
            spare: 0,
        })
    }

    /// Lets all nodes go, and the room for more of them, which is to be made again.
    pub fn clear(&mut self)
        ensures nodes { self.new.nodes ≡ [] }
        ensures spare { self.new.spare ≡ 0 }
    {
        self.cells.clear();
        self.heads.clear();
        self.spare = 0;
    }
}

// How many nodes to make room for where so many are wanted: a power of two.
fn room_for(wanted: u64) -> u64
    requires { wanted ≤ 4294967295 }
    ensures least { max wanted LEAST_ROOM ≤ result }
    ensures most { result / 2 < max wanted LEAST_ROOM }
{
    wanted.max(LEAST_ROOM).next_power_of_two()
}
