ghost use Rattle.std.specs.Prelude.{◌≡◌, ◌+◌, ◌≤◌, ◌<◌, [], ◌∷◌, ◌++◌, length, get_or, set, slice_get, Some, IfOk, OnOk, vec_capacity};
ghost use Rattle.ms_arena.specs.inner.Packing.{whole_code, unpacked, no_upper, HasNoted};

use crate::code::{code, reference};
use crate::node::Node;
use ms_list::NoMemory;
use std::alloc::Global;
use std::marker::Model;

// A node, and the link to the place before its own in the chain of its bucket. A link is one more than a place, and 0
// ends the chain.
#[derive(Clone, Copy)]
pub(crate) struct Cell {
    pub node: Node,
    pub next: u32,
}

// A cell in sixteen bytes: of the code of each end it has the lower four.
#[derive(Clone, Copy)]
struct Packed {
    var: u32,
    low: u32,
    high: u32,
    next: u32,
}

// Whether the code of each end has a bit above its lower four bytes.
#[derive(Clone, Copy)]
struct Upper {
    low: bool,
    high: bool,
}

// One more than the greatest code of four bytes.
const LONG: u64 = 0x1_0000_0000;

// A list of cells, each kept in sixteen bytes. Nearly all codes have four bytes, so the bits above them are kept beside, for the
// cells up to the last one that has any. Contracts see the list, and how many more cells there is room for.
#[derive(Drop)]
pub(crate) struct Cells {
    packed: Vec<Packed>,
    uppers: Vec<Upper>,
}

impl Model for Cells {
    ghost use Rattle.std.specs.Prelude.{◌≤◌, ◌-◌, min, length, vec_capacity};
    ghost use Rattle.ms_arena.specs.inner.Packing.{Row, cells_of};

    ghost Value = { Row };

    ghost view = { λ c. record { cells = cells_of c.packed.items c.uppers.items; spare = min (vec_capacity c.packed) (vec_capacity c.uppers) - length c.packed.items } };

    ghost invariant = { λ c. length c.uppers.items ≤ length c.packed.items };
}

impl Cells {
    // No cells, and no room for any.
    pub(crate) fn new(alloc: Global) -> Cells
        ensures { result.cells ≡ [] }
    {
        Cells {
            packed: Vec::new(alloc),
            uppers: Vec::new(alloc),
        }
    }

    // The number of cells.
    pub(crate) fn len(&self) -> usize
        ensures { result ≡ length self.now.cells }
    {
        self.packed.len()
    }

    // The cell at a place.
    pub(crate) fn get(&self, place: u32) -> Cell
        requires { place < length self.now.cells }
        ensures { slice_get self.now.cells place ≡ Some result }
    {
        let packed = self.packed[place as usize];
        unpack(packed, upper_at(&self.uppers, place))
    }

    // Has the cell link to another one.
    pub(crate) fn set_next(&mut self, place: u32, next: u32)
        requires { place < length self.old.cells }
        ensures cells { (cell : Cell) → slice_get self.old.cells place ≡ Some cell → self.new.cells ≡ set self.old.cells place (record { node = cell.node; next = next }) }
        ensures spare { self.new.spare ≡ self.old.spare }
    {
        self.packed[place as usize].next = next;
    }

    // Makes room for at least so many more cells.
    pub(crate) fn reserve_exact(&mut self, n: usize) -> Result<(), NoMemory>
        requires { length self.old.cells + n ≤ 18446744073709551615 }
        ensures room { OnOk result (n ≤ self.new.spare) }
        ensures cells { self.new.cells ≡ self.old.cells }
        ensures kept { self.old.spare ≤ self.new.spare }
    {
        let more = self.packed.len() - self.uppers.len() + n;
        if self.packed.reserve_exact(n).is_err() || self.uppers.reserve_exact(more).is_err() {
            return Err(NoMemory);
        }
        Ok(())
    }

    // Appends a cell that links to none.
    pub(crate) fn push(&mut self, node: Node)
        requires { 1 ≤ self.old.spare }
        ensures cells { self.new.cells ≡ self.old.cells ++ record { node = node; next = 0 } ∷ [] }
        ensures spare { self.new.spare + 1 ≡ self.old.spare }
    {
        let low = code(node.low);
        let high = code(node.high);
        let upper = Upper {
            low: low >= LONG,
            high: high >= LONG,
        };
        note(&mut self.uppers, self.packed.len(), upper);
        self.packed.push_reserved(Packed {
            var: node.var,
            low: (low % LONG) as u32,
            high: (high % LONG) as u32,
            next: 0,
        });
    }

    // The same cells, with no room for more.
    pub(crate) fn copy(&self, alloc: Global) -> Result<Cells, NoMemory>
        ensures { IfOk result (λ made. made.cells ≡ self.now.cells) }
    {
        let Ok(packed) = Vec::from_slice(alloc, &self.packed) else {
            return Err(NoMemory);
        };
        let Ok(uppers) = Vec::from_slice(alloc, &self.uppers) else {
            return Err(NoMemory);
        };
        Ok(Cells { packed, uppers })
    }

    // Lets all cells go.
    pub(crate) fn clear(&mut self)
        ensures { self.new.cells ≡ [] }
    {
        self.packed.clear();
        self.uppers.clear();
    }
}

// The cell that is packed so.
fn unpack(packed: Packed, upper: Upper) -> Cell
    ensures { result ≡ unpacked packed upper }
{
    let low = reference(whole(packed.low, upper.low));
    let high = reference(whole(packed.high, upper.high));
    let node = Node {
        var: packed.var,
        low,
        high,
    };
    Cell {
        node,
        next: packed.next,
    }
}

// The code with these lower four bytes, and with a bit above them or without.
fn whole(lower: u32, upper: bool) -> u64
    ensures value { result ≡ whole_code lower upper }
    ensures small { result < 8589934592 }
{
    if upper {
        u64::from(lower) + LONG
    } else {
        u64::from(lower)
    }
}

// The upper bits of the cell at the place.
fn upper_at(uppers: &[Upper], place: u32) -> Upper
    ensures { result ≡ get_or uppers.now place no_upper }
{
    match uppers.get(place as usize) {
        Some(upper) => *upper,
        None => Upper {
            low: false,
            high: false,
        },
    }
}

// Notes the upper bits of a cell at the place behind those of all others, if it has any.
fn note(uppers: &mut Vec<Upper>, place: usize, upper: Upper)
    requires place { length uppers.old.items ≤ place }
    requires room { place < vec_capacity uppers.old }
    ensures noted { HasNoted uppers.old.items uppers.new.items place upper }
    ensures capacity { vec_capacity uppers.new ≡ vec_capacity uppers.old }
{
    if upper.low || upper.high {
        note_upper(uppers, place, upper);
    }
}

// The same where it has.
#[cold]
fn note_upper(uppers: &mut Vec<Upper>, place: usize, upper: Upper)
    requires place { length uppers.old.items ≤ place }
    requires room { place < vec_capacity uppers.old }
    ensures noted { HasNoted uppers.old.items uppers.new.items place upper }
    ensures capacity { vec_capacity uppers.new ≡ vec_capacity uppers.old }
{
    while uppers.len() < place {
        uppers.push_reserved(Upper {
            low: false,
            high: false,
        });
    }
    uppers.push_reserved(upper);
}
