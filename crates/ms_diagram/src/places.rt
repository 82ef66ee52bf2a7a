ghost use Rattle.std.specs.Prelude.{◌≡◌, ◌<◌, ◌≤◌, ◌^◌, ℕ, length, nat_eq, None, Some, IsTrue, OnOk, false};
ghost use Rattle.std.specs.Map.{lookup};
ghost use Rattle.ms_diagram.specs.inner.Notes.{NotesOnly};
ghost use Rattle.ms_diagram.specs.inner.Places.{place_entries};

use crate::notes::Notes;
use indexmap::IndexMap;
use ms_arena::Ref;
use ms_list::NoMemory;
use std::alloc::Global;
use std::marker::Model;

/// The list of slots may have so many for each answer that was noted.
const SLOTS_FOR_ANSWER: u32 = 8;

/// What the nodes at places of a store have become. A caller keeps it from call to call, so that what several diagrams
/// share is built once. Contracts see the list of its entries.
///
/// Places near each other have slots in a list, and any others are hashed, so a few places of a large store take little
/// memory.
pub struct PlaceTable {
    first: u32,
    slots: Vec<Option<Ref>>,
    others: IndexMap<u32, Ref>,
    noted: u32,
}

impl Drop for PlaceTable {
    fn drop(self) {
        let PlaceTable {
            first: _,
            slots: _,
            others: _,
            noted: _,
        } = self;
    }
}

impl Model for PlaceTable {
    ghost use Rattle.std.specs.Prelude.{◌++◌, ℕ, List};
    ghost use Rattle.ms_arena.specs.declared.node.Ref.{Ref};
    ghost use Rattle.ms_diagram.specs.inner.Places.{place_entries};

    ghost Value = { List (ℕ × Ref) };

    ghost view = { λ table. place_entries table.first table.slots.items ++ table.others.entries };
}

impl PlaceTable {
    ghost use Rattle.std.specs.Prelude.{[]};

    /// A table in which nothing has been noted.
    pub fn new(alloc: Global) -> PlaceTable
        ensures { result ≡ [] }
    {
        PlaceTable {
            first: 0,
            slots: Vec::new(alloc),
            others: IndexMap::new(alloc),
            noted: 0,
        }
    }
}

impl Notes<u32> for PlaceTable {
    ghost entries = { λ table. table };

    fn ask(&mut self, key: &u32) -> Option<Ref> {
        match slot(&self.slots, self.first, *key) {
            Some(made) => Some(made),
            None => self.others.get(key).copied(),
        }
    }

    fn tell(&mut self, key: u32, made: Ref) -> Result<(), NoMemory> {
        self.first = first_place(&self.slots, self.first, key);
        self.noted = self.noted.saturating_add(1);
        if takes_slot(&self.slots, self.first, self.noted, key) {
            put(&mut self.slots, self.first, key, made)
        } else {
            self.others.tell(key, made)
        }
    }
}

// What the slot of the place has, if it has one.
fn slot(slots: &[Option<Ref>], first: u32, place: u32) -> Option<Ref>
    ensures { result ≡ lookup (nat_eq place) (place_entries first slots.now) }
{
    if place < first {
        return None;
    }
    let at = (place - first) as usize;
    if at < slots.len() { slots[at] } else { None }
}

// The place of the first slot, which is the given one where there are none.
fn first_place(slots: &[Option<Ref>], first: u32, place: u32) -> u32
    ensures { place_entries result slots.now ≡ place_entries first slots.now }
{
    if slots.is_empty() { place } else { first }
}

// Whether the place has a slot, or is to get one.
fn takes_slot(slots: &[Option<Ref>], first: u32, noted: u32, place: u32) -> bool
    ensures behind { IsTrue result → first ≤ place }
    ensures without { result ≡ false → lookup (nat_eq place) (place_entries first slots.now) ≡ None }
{
    if place < first {
        return false;
    }
    let at = place - first;
    (at as usize) < slots.len() || at / SLOTS_FOR_ANSWER <= noted
}

// Puts the answer into the slot of the place, behind as many empty slots as that takes.
fn put(slots: &mut Vec<Option<Ref>>, first: u32, place: u32, made: Ref) -> Result<(), NoMemory>
    requires { first ≤ place }
    ensures noted { OnOk result (lookup (nat_eq place) (place_entries first slots.new.items) ≡ Some made) }
    ensures only { NotesOnly nat_eq (place_entries first slots.old.items) (place_entries first slots.new.items) place made }
{
    let at = (place - first) as usize;
    reach(slots, at)?;
    slots[at] = Some(made);
    Ok(())
}

// Makes the list long enough for a slot.
fn reach(slots: &mut Vec<Option<Ref>>, at: usize) -> Result<(), NoMemory>
    requires { at < 2 ^ 32 }
    ensures long { OnOk result (at < length slots.new.items) }
    ensures entries { (first : ℕ) → place_entries first slots.new.items ≡ place_entries first slots.old.items }
{
    if at < slots.len() {
        return Ok(());
    }
    let Ok(()) = slots.resize(at + 1, None) else {
        return Err(NoMemory);
    };
    Ok(())
}
