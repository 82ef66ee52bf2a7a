ghost use Rattle.std.specs.Prelude.{◌≡◌, ◌≤◌, [], IfSome, MatchOption};
ghost use Rattle.std.specs.Map.{lookup};
ghost use Rattle.ms_arena.specs.inner.Code.{code_of};
ghost use Rattle.ms_diagram.specs.inner.Equal.{refs_eq};
ghost use Rattle.ms_diagram.specs.inner.Short.{AreShort, IsLong, IsShort, short_entries};

use crate::computed_table::ComputedTable;
use crate::notes::Notes;
use crate::short::{reference, short};
use indexmap::IndexMap;
use ms_arena::Ref;
use ms_list::NoMemory;
use std::alloc::Global;
use std::marker::Model;

/// What pairs of references have become, where a numbering of pairs grows beside it. A caller keeps it from call to call, so
/// that what several diagrams share is built once. Contracts see the list of its entries.
///
/// Nearly all references have a code of four bytes, so an entry is kept in twelve. Once there is one that needs more, all that
/// are told later are kept as they are.
pub struct PairTable {
    short: ComputedTable,
    long: IndexMap<(Ref, Ref), Ref>,
}

impl Drop for PairTable {
    fn drop(self) {
        let PairTable { short: _, long: _ } = self;
    }
}

impl Model for PairTable {
    ghost use Rattle.std.specs.Prelude.{◌++◌, List};
    ghost use Rattle.ms_arena.specs.declared.node.Ref.{Ref};
    ghost use Rattle.ms_diagram.specs.inner.Short.{AreShort, short_entries};

    ghost Value = { List ((Ref × Ref) × Ref) };

    ghost view = { λ table. table.long.entries ++ short_entries table.short };

    ghost invariant = { λ table. AreShort table.short };
}

impl PairTable {
    ghost use Rattle.std.specs.Prelude.{[]};

    /// A table in which nothing has been noted.
    pub fn new(alloc: Global) -> PairTable
        ensures { result ≡ [] }
    {
        PairTable {
            short: ComputedTable::new(alloc),
            long: IndexMap::new(alloc),
        }
    }
}

// The codes of both.
fn short_pair(key: &(Ref, Ref)) -> Option<(u32, u32)>
    ensures { MatchOption result (IsLong key.now) (λ codes. (codes ≡ (code_of key.now.0, code_of key.now.1)) × IsShort codes.0 × IsShort codes.1) }
{
    let left = short(key.0)?;
    let right = short(key.1)?;
    Some((left, right))
}

// The codes of both, and that of what they have become, as long as no entry is kept as it is.
fn short_entry(
    long: &IndexMap<(Ref, Ref), Ref>,
    key: &(Ref, Ref),
    made: Ref,
) -> Option<((u32, u32), u32)>
    ensures { IfSome result (λ entry. (entry.0 ≡ (code_of key.now.0, code_of key.now.1)) × (entry.1 ≡ code_of made) × IsShort entry.0.0 × IsShort entry.0.1 × (long.now.entries ≡ [])) }
{
    if !long.is_empty() {
        return None;
    }
    let codes = short_pair(key)?;
    let code = short(made)?;
    Some((codes, code))
}

// What the pair has become by an entry in twelve bytes.
fn ask_short(short: &ComputedTable, key: &(Ref, Ref)) -> Option<Ref>
    requires { AreShort short.now }
    ensures { result ≡ lookup (refs_eq key.now) (short_entries short.now) }
{
    let codes = short_pair(key)?;
    let made = short.ask(codes)?;
    Some(reference(made))
}

// What it has become by an entry that is kept as it is.
fn ask_long(long: &IndexMap<(Ref, Ref), Ref>, key: &(Ref, Ref)) -> Option<Ref>
    ensures { result ≡ lookup (refs_eq key.now) long.now.entries }
{
    if long.is_empty() {
        return None;
    }
    long.get(key).copied()
}

impl Notes<(Ref, Ref)> for PairTable {
    ghost entries = { λ table. table };

    fn ask(&mut self, key: &(Ref, Ref)) -> Option<Ref> {
        match ask_long(&self.long, key) {
            Some(made) => Some(made),
            None => ask_short(&self.short, key),
        }
    }

    fn tell(&mut self, key: (Ref, Ref), made: Ref) -> Result<(), NoMemory> {
        match short_entry(&self.long, &key, made) {
            Some((codes, code)) => self.short.tell(codes, code),
            None => self.long.tell(key, made),
        }
    }
}
