ghost use Rattle.std.specs.Prelude.{◌≡◌, ◌+◌, ◌<◌, ◌≤◌, length, OnOk};
ghost use Rattle.ms_diagram.specs.inner.Listed.{bucket_of, lists_of, AreChained};

use ms_arena::Ref;
use ms_list::NoMemory;

/// The number of buckets of the first table that takes memory, a power of two.
const LEAST_BUCKETS: usize = 16;

/// How many lists there may be for each bucket.
const LISTS_OF_BUCKET: usize = 2;

// A list of references in a row of such lists: where it begins there and where it ends, what it has become, and its hash.
#[derive(Clone, Copy)]
pub(crate) struct Listed {
    pub begin: u32,
    pub end: u32,
    pub made: Ref,
    pub hash: u32,
}

// A list, and the link to the place before its own in the chain of its bucket. A link is one more than a place, and 0 ends the
// chain.
#[derive(Clone, Copy)]
pub(crate) struct Cell {
    pub listed: Listed,
    pub link: u32,
}

// Which of so many buckets a list with this hash is in. They are all in use where their number is a power of two.
pub(crate) fn bucket(hash: u32, buckets: usize) -> usize
    requires { 0 < buckets }
    ensures value { result ≡ bucket_of buckets hash }
    ensures within { result < buckets }
{
    hash as usize & (buckets - 1)
}

// Puts the place in front of the chain of its bucket, where those below it are in theirs.
pub(crate) fn link(cells: &mut [Cell], heads: &mut [u32], place: u32)
    requires place { place < length cells.old }
    requires small { place < 4294967295 }
    requires heads { 0 < length heads.old }
    requires chained { AreChained cells.old heads.old place }
    ensures chained { AreChained cells.new heads.new (place + 1) }
    ensures lists { lists_of cells.new ≡ lists_of cells.old }
{
    let head = bucket(cells[place as usize].listed.hash, heads.len());
    cells[place as usize].link = heads[head];
    heads[head] = place + 1;
}

// Makes the chains anew.
fn link_all(cells: &mut [Cell], heads: &mut [u32])
    requires small { length cells.old ≤ 4294967295 }
    requires heads { 0 < length heads.old }
    ensures chained { AreChained cells.new heads.new (length cells.new) }
    ensures lists { lists_of cells.new ≡ lists_of cells.old }
{
    heads.fill(0);
    for place in 0..cells.len() as u32 {
        link(cells, heads, place);
    }
}

// Makes twice as many buckets where there are too few for one list more.
pub(crate) fn make_buckets(cells: &mut [Cell], heads: &mut Vec<u32>) -> Result<(), NoMemory>
    requires small { length cells.old ≤ 4294967295 }
    requires chained { AreChained cells.old heads.old.items (length cells.old) }
    ensures some { OnOk result (0 < length heads.new.items) }
    ensures bucketed { 0 < length heads.old.items → 0 < length heads.new.items }
    ensures chained { AreChained cells.new heads.new.items (length cells.new) }
    ensures lists { lists_of cells.new ≡ lists_of cells.old }
{
    if cells.len() / LISTS_OF_BUCKET < heads.len() {
        return Ok(());
    }
    grow(cells, heads)
}

// Makes twice as many buckets, or the first ones.
#[cold]
fn grow(cells: &mut [Cell], heads: &mut Vec<u32>) -> Result<(), NoMemory>
    requires small { length cells.old ≤ 4294967295 }
    requires chained { AreChained cells.old heads.old.items (length cells.old) }
    ensures some { OnOk result (0 < length heads.new.items) }
    ensures bucketed { 0 < length heads.old.items → 0 < length heads.new.items }
    ensures chained { AreChained cells.new heads.new.items (length cells.new) }
    ensures lists { lists_of cells.new ≡ lists_of cells.old }
{
    let buckets = heads.len().saturating_mul(2).max(LEAST_BUCKETS);
    let Ok(()) = heads.resize(buckets, 0) else {
        return Err(NoMemory);
    };
    link_all(cells, heads);
    Ok(())
}
