ghost use Rattle.std.specs.Prelude.{◌≡◌, ◌+◌, ◌<◌, ◌≤◌, length, slice_get, MatchOption, vec_capacity};
ghost use Rattle.ms_arena.specs.Target.{IsNew};
ghost use Rattle.ms_arena.specs.inner.Chain.{nodes_of, AreEmpty, AreLinked};

use crate::cells::Cells;
use crate::hash::bucket;
use crate::node::Node;

// The place of the node, which is looked for at one place after the other.
#[cold]
pub(crate) fn find_in_row(cells: &Cells, node: Node) -> Option<u32>
    requires { length cells.now.cells ≤ 4294967295 }
    ensures { MatchOption result (IsNew (nodes_of cells.now.cells) node) (λ place. slice_get (nodes_of cells.now.cells) place ≡ Some node) }
{
    for place in 0..cells.len() as u32 {
        if cells.get(place).node == node {
            return Some(place);
        }
    }
    None
}

// The place of the node, which is looked for in the chain of its bucket.
pub(crate) fn find_in_chain(cells: &Cells, heads: &[u32], node: Node) -> Option<u32>
    requires heads { 0 < length heads.now }
    requires linked { AreLinked cells.now.cells heads.now (length cells.now.cells) }
    ensures { MatchOption result (IsNew (nodes_of cells.now.cells) node) (λ place. slice_get (nodes_of cells.now.cells) place ≡ Some node) }
{
    let mut link = heads[bucket(node, heads.len())];
    while link != 0 {
        let place = link - 1;
        let cell = cells.get(place);
        if cell.node == node {
            return Some(place);
        }
        link = cell.next;
    }
    None
}

// Puts the place in front of the chain of its bucket, where those below it are in theirs.
pub(crate) fn link(cells: &mut Cells, heads: &mut [u32], place: u32)
    requires place { place < length cells.old.cells }
    requires small { place < 4294967295 }
    requires heads { 0 < length heads.old }
    requires linked { AreLinked cells.old.cells heads.old place }
    ensures linked { AreLinked cells.new.cells heads.new (place + 1) }
    ensures nodes { nodes_of cells.new.cells ≡ nodes_of cells.old.cells }
    ensures spare { cells.new.spare ≡ cells.old.spare }
{
    let head = bucket(cells.get(place).node, heads.len());
    cells.set_next(place, heads[head]);
    heads[head] = place + 1;
}

// Makes so many heads, all empty, where they have room.
pub(crate) fn empty_all(heads: &mut Vec<u32>, buckets: usize)
    requires { buckets ≤ vec_capacity heads.old }
    ensures buckets { length heads.new.items ≡ buckets }
    ensures empty { AreEmpty heads.new.items }
{
    heads.clear();
    let _ = heads.resize(buckets, 0);
}

// Makes the chains anew, on heads that are all empty.
pub(crate) fn link_all(cells: &mut Cells, heads: &mut [u32])
    requires small { length cells.old.cells ≤ 4294967295 }
    requires heads { 0 < length heads.old }
    requires empty { AreEmpty heads.old }
    ensures linked { AreLinked cells.new.cells heads.new (length cells.old.cells) }
    ensures nodes { nodes_of cells.new.cells ≡ nodes_of cells.old.cells }
    ensures spare { cells.new.spare ≡ cells.old.spare }
{
    for place in 0..cells.len() as u32 {
        link(cells, heads, place);
    }
}
