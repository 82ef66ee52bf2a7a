ghost use Rattle.std.specs.Prelude.{◌≡◌, ◌+◌, ◌<◌, ◌≤◌, ◌∷◌, ◌++◌, [], length, slice_range, IsTrue, OnOk, OnErr};
ghost use Rattle.std.specs.Map.{lookup};
ghost use Rattle.ms_diagram.specs.inner.Equal.{roots_eq};
ghost use Rattle.ms_diagram.specs.inner.Listed.{entries_of, listed_behind, lists_of, IsListTable, IsListedIn};
ghost use Rattle.ms_diagram.specs.inner.Notes.{KeepsOnly};

use crate::listed::{Cell, Listed, bucket, link, make_buckets};
use crate::notes::Notes;
use crate::root_list::RootList;
use ms_arena::Ref;
use ms_list::NoMemory;
use std::alloc::Global;
use std::marker::Model;

/// What lists of references have become, where a numbering of sets grows beside it. A caller keeps it from call to call, so that
/// what several diagrams share is built once. Contracts see the list of its entries.
///
/// The lists stand in one row, one behind the other. A list takes 24 bytes beside its references, and 2 to 4 for the head of its
/// chain. Before there is a list whose end has no number of four bytes, all are let go.
pub struct ListTable {
    roots: Vec<Ref>,
    cells: Vec<Cell>,
    heads: Vec<u32>,
}

impl Drop for ListTable {
    fn drop(self) {
        let ListTable {
            roots: _,
            cells: _,
            heads: _,
        } = self;
    }
}

impl Model for ListTable {
    ghost use Rattle.std.specs.Prelude.{List};
    ghost use Rattle.ms_arena.specs.declared.node.Ref.{Ref};
    ghost use Rattle.ms_diagram.specs.inner.Listed.{IsListTable, entries_of, lists_of};

    ghost Value = { List (List Ref × Ref) };

    ghost view = { λ table. entries_of table.roots.items (lists_of table.cells.items) };

    ghost invariant = { λ table. IsListTable table.roots.items table.cells.items table.heads.items };
}

impl ListTable {
    ghost use Rattle.std.specs.Prelude.{[]};

    /// A table in which nothing has been noted.
    pub fn new(alloc: Global) -> ListTable
        ensures { result ≡ [] }
    {
        ListTable {
            roots: Vec::new(alloc),
            cells: Vec::new(alloc),
            heads: Vec::new(alloc),
        }
    }
}

// Whether this is the list.
fn is_of(listed: Listed, roots: &[Ref], key: &RootList) -> bool
    requires { IsListedIn roots.now listed }
    ensures { result ≡ roots_eq key.now (slice_range roots.now listed.begin listed.end) }
{
    listed.hash == key.hash
        && key.roots.as_slice() == &roots[listed.begin as usize..listed.end as usize]
}

// What the list has become, which is looked for in the chain of its bucket.
fn find(roots: &[Ref], cells: &[Cell], heads: &[u32], key: &RootList) -> Option<Ref>
    requires { IsListTable roots.now cells.now heads.now }
    ensures { result ≡ lookup (roots_eq key.now) (entries_of roots.now (lists_of cells.now)) }
{
    if cells.is_empty() {
        return None;
    }
    let mut link = heads[bucket(key.hash, heads.len())];
    while link != 0 {
        let cell = cells[(link - 1) as usize];
        if is_of(cell.listed, roots, key) {
            return Some(cell.listed.made);
        }
        link = cell.link;
    }
    None
}

// Whether there are numbers of four bytes for one list more, with so many references.
fn has_numbers(roots: &[Ref], cells: &[Cell], more: usize) -> bool
    ensures roots { IsTrue result → length roots.now + more ≤ 4294967295 }
    ensures cells { IsTrue result → length cells.now < 4294967295 }
{
    roots.len().saturating_add(more) <= u32::MAX as usize && cells.len() < u32::MAX as usize
}

// Sees that there are, and lets all lists go where there are not.
fn make_numbers(
    roots: &mut Vec<Ref>,
    cells: &mut Vec<Cell>,
    heads: &mut Vec<u32>,
    more: usize,
) -> Result<(), NoMemory>
    requires table { IsListTable roots.old.items cells.old.items heads.old.items }
    ensures table { IsListTable roots.new.items cells.new.items heads.new.items }
    ensures only { KeepsOnly (entries_of roots.old.items (lists_of cells.old.items)) (entries_of roots.new.items (lists_of cells.new.items)) }
    ensures roots { OnOk result (length roots.new.items + more ≤ 4294967295) }
    ensures cells { OnOk result (length cells.new.items < 4294967295) }
{
    if has_numbers(roots, cells, more) {
        return Ok(());
    }
    roots.clear();
    cells.clear();
    heads.clear();
    if has_numbers(roots, cells, more) {
        Ok(())
    } else {
        Err(NoMemory)
    }
}

// Puts the list behind all others, with what it has become, in no chain.
fn append(
    roots: &mut Vec<Ref>,
    cells: &mut Vec<Cell>,
    key: &RootList,
    made: Ref,
) -> Result<(), NoMemory>
    requires { length roots.old.items + length key.now ≤ 4294967295 }
    ensures roots { OnOk result (roots.new.items ≡ roots.old.items ++ key.now) }
    ensures cells { OnOk result (cells.new.items ≡ cells.old.items ++ record { listed = listed_behind roots.old.items key.now made; link = 0 } ∷ []) }
    ensures refused { OnErr result ((roots.new.items ≡ roots.old.items) × (cells.new.items ≡ cells.old.items)) }
{
    let begin = roots.len() as u32;
    if cells.try_reserve(1).is_err() || roots.extend_from_slice(key.roots.as_slice()).is_err() {
        return Err(NoMemory);
    }
    let listed = Listed {
        begin,
        end: roots.len() as u32,
        made,
        hash: key.hash,
    };
    cells.push_reserved(Cell { listed, link: 0 });
    Ok(())
}

// Makes room for one list more, with so many references.
fn make_room(
    roots: &mut Vec<Ref>,
    cells: &mut Vec<Cell>,
    heads: &mut Vec<u32>,
    more: usize,
) -> Result<(), NoMemory>
    requires table { IsListTable roots.old.items cells.old.items heads.old.items }
    ensures table { IsListTable roots.new.items cells.new.items heads.new.items }
    ensures only { KeepsOnly (entries_of roots.old.items (lists_of cells.old.items)) (entries_of roots.new.items (lists_of cells.new.items)) }
    ensures roots { OnOk result (length roots.new.items + more ≤ 4294967295) }
    ensures cells { OnOk result (length cells.new.items < 4294967295) }
    ensures heads { OnOk result (0 < length heads.new.items) }
{
    make_numbers(roots, cells, heads, more)?;
    make_buckets(cells, heads)
}

impl Notes<RootList> for ListTable {
    ghost entries = { λ table. table };

    fn ask(&mut self, key: &RootList) -> Option<Ref> {
        find(&self.roots, &self.cells, &self.heads, key)
    }

    fn tell(&mut self, key: RootList, made: Ref) -> Result<(), NoMemory> {
        make_room(
            &mut self.roots,
            &mut self.cells,
            &mut self.heads,
            key.roots.len(),
        )?;
        let place = self.cells.len() as u32;
        append(&mut self.roots, &mut self.cells, &key, made)?;
        link(&mut self.cells, &mut self.heads, place);
        Ok(())
    }
}
