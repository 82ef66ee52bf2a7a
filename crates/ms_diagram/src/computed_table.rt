ghost use Rattle.std.specs.Prelude.{◌≡◌, ◌≢◌, ◌<◌, ◌≤◌, ℕ, List, [], length, Some, OnOk, OnErr};
ghost use Rattle.std.specs.Map.{lookup};
ghost use Rattle.ms_diagram.specs.declared.computed_table.TheConstants.{EMPTY};
ghost use Rattle.ms_diagram.specs.inner.Computed.{no_slots, AreAllPlaced, ArePlaced, HasMoved, entries_in, entries_of, held, place_of};
ghost use Rattle.ms_diagram.specs.inner.Equal.{numbers_eq};
ghost use Rattle.ms_diagram.specs.inner.Notes.{KeepsOnly};
ghost use Rattle.ms_diagram.specs.inner.Short.{IsShort};

use crate::hash::scatter;
use ms_list::NoMemory;
use std::alloc::Global;
use std::marker::Model;

/// What stands in an empty slot for the first code. No pair that is told has it.
const EMPTY: u32 = 0xFFFF_FFFF;

const TWO_TO_32: u64 = 0x1_0000_0000;

/// The number of buckets of the first table that takes memory, a power of two.
const LEAST_BUCKETS: usize = 16;

// The codes of a pair of references, and that of what the pair has become.
#[derive(Clone, Copy)]
struct Slot {
    left: u32,
    right: u32,
    made: u32,
}

// The last two slots that were told of their pairs, the later one first.
#[derive(Clone, Copy)]
struct Bucket {
    first: Slot,
    second: Slot,
}

// What pairs of codes have become, as long as no two later ones have come into their bucket (a computed table: K. S. Brace,
// R. L. Rudell, R. E. Bryant, "Efficient implementation of a BDD package", 1990). Contracts see the list of its entries.
//
// It has four slots for three pairs that it was told. So a pair that was forgotten and is told again makes it larger, too.
#[derive(Drop)]
pub(crate) struct ComputedTable {
    buckets: Vec<Bucket>,
    told: usize,
}

impl Model for ComputedTable {
    ghost use Rattle.std.specs.Prelude.{ℕ, List};
    ghost use Rattle.ms_diagram.specs.inner.Computed.{AreAllPlaced, entries_of};

    ghost Value = { List ((ℕ × ℕ) × ℕ) };

    ghost view = { λ table. entries_of table.buckets.items };

    ghost invariant = { λ table. AreAllPlaced table.buckets.items };
}

impl ComputedTable {
    ghost use Rattle.std.specs.Prelude.{[]};
    ghost use Rattle.ms_diagram.specs.inner.Notes.{NotesOnly};

    // A table that was told nothing, which takes no memory.
    pub(crate) fn new(alloc: Global) -> ComputedTable
        ensures { result ≡ [] }
    {
        ComputedTable {
            buckets: Vec::new(alloc),
            told: 0,
        }
    }

    // What the pair has become, if it has an entry.
    pub(crate) fn ask(&self, codes: (u32, u32)) -> Option<u32>
        requires { IsShort codes.0 }
        ensures { result ≡ lookup (numbers_eq codes) self.now }
    {
        if self.buckets.is_empty() {
            return None;
        }
        let place = place(codes, self.buckets.len());
        self.buckets[place].find(codes)
    }

    // Gives an entry to the pair. Others may go.
    pub(crate) fn tell(&mut self, codes: (u32, u32), made: u32) -> Result<(), NoMemory>
        requires { IsShort codes.0 }
        ensures noted { OnOk result (lookup (numbers_eq codes) self.new ≡ Some made) }
        ensures only { NotesOnly numbers_eq self.old self.new codes made }
    {
        make_room(&mut self.buckets, self.told)?;
        self.told = self.told.saturating_add(1);
        let (left, right) = codes;
        put(&mut self.buckets, Slot { left, right, made });
        Ok(())
    }
}

impl Slot {
    // Whether it has the entry of the pair.
    fn has(self, codes: (u32, u32)) -> bool
        ensures { result ≡ numbers_eq codes (self.left, self.right) }
    {
        codes.0 == self.left && codes.1 == self.right
    }
}

impl Bucket {
    fn empty() -> Bucket
        ensures { result ≡ no_slots }
    {
        let slot = Slot {
            left: EMPTY,
            right: 0,
            made: 0,
        };
        Bucket {
            first: slot,
            second: slot,
        }
    }

    // What the pair has become, if it has an entry here.
    fn find(self, codes: (u32, u32)) -> Option<u32>
        requires { IsShort codes.0 }
        ensures { result ≡ lookup (numbers_eq codes) (entries_in self []) }
    {
        if self.first.has(codes) {
            Some(self.first.made)
        } else if self.second.has(codes) {
            Some(self.second.made)
        } else {
            None
        }
    }
}

// Makes twice as many buckets where there are too few for one pair more than were told. Some entries may go.
fn make_room(buckets: &mut Vec<Bucket>, told: usize) -> Result<(), NoMemory>
    requires placed { AreAllPlaced buckets.old.items }
    ensures moved { OnOk result (HasMoved buckets.old.items buckets.new.items) }
    ensures refused { OnErr result (buckets.new.items ≡ buckets.old.items) }
{
    if told / 3 < buckets.len() / 2 {
        return Ok(());
    }
    grow(buckets)
}

// Makes twice as many buckets, or the first ones. Some entries may go.
#[cold]
fn grow(buckets: &mut Vec<Bucket>) -> Result<(), NoMemory>
    ensures moved { OnOk result (HasMoved buckets.old.items buckets.new.items) }
    ensures refused { OnErr result (buckets.new.items ≡ buckets.old.items) }
{
    let count = buckets.len();
    let more = count.saturating_mul(2).max(LEAST_BUCKETS);
    let Ok(()) = buckets.resize(more, Bucket::empty()) else {
        return Err(NoMemory);
    };
    place_again(buckets, count);
    Ok(())
}

// Puts all slots of the first buckets again, each into the bucket that it has now. Some of them push others out.
fn place_again(buckets: &mut [Bucket], count: usize)
    requires room { 0 < length buckets.old }
    requires within { count ≤ length buckets.old }
    requires placed { ArePlaced (0, count) (length buckets.old) 0 buckets.old }
    ensures { HasMoved buckets.old buckets.new }
{
    for place in 0..count {
        let Bucket { first, second } = buckets[place];
        buckets[place] = Bucket::empty();
        put(buckets, second);
        put(buckets, first);
    }
}

// Puts the slot first into the bucket of its pair, unless it is empty. What was second there goes.
fn put(buckets: &mut [Bucket], slot: Slot)
    requires room { 0 < length buckets.old }
    ensures room { length buckets.new ≡ length buckets.old }
    ensures placed { (waiting : ℕ × ℕ) → ArePlaced waiting (length buckets.old) 0 buckets.old → ArePlaced waiting (length buckets.new) 0 buckets.new }
    ensures only { KeepsOnly (held slot (entries_of buckets.old)) (entries_of buckets.new) }
    ensures noted { AreAllPlaced buckets.old → slot.left ≢ EMPTY → lookup (numbers_eq (slot.left, slot.right)) (entries_of buckets.new) ≡ Some slot.made }
{
    if slot.left == EMPTY {
        return;
    }
    let place = place((slot.left, slot.right), buckets.len());
    let second = buckets[place].first;
    buckets[place] = Bucket {
        first: slot,
        second,
    };
}

// Which of so many buckets the pair of codes is in. They are all in use where their number is a power of two.
//
// A walk asks for the same right node with one left node after the other, of which most were made shortly after each other. So
// their buckets stand in a row: 1,024 left numbers from one bucket on, which a hash gives.
fn place(codes: (u32, u32), buckets: usize) -> usize
    requires { 0 < buckets }
    ensures value { result ≡ place_of buckets codes }
    ensures within { result < buckets }
{
    let (left, right) = codes;
    let row = scatter(scatter(TWO_TO_32 * u64::from(left / 2048) + u64::from(right / 2)));
    (row + u64::from(left / 2)) as usize & (buckets - 1)
}
