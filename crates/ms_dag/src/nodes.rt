ghost use Rattle.ms_dag.specs.inner.Keys.{IsKeyed, keys_of};
ghost use Rattle.ms_dag.specs.inner.Codes.{codes_of_entry};
ghost use Rattle.ms_diagram.specs.Numbering.{Numbers};
ghost use Rattle.std.specs.Prelude.{◌≡◌, ◌==◌, ◌∷◌, ◌++◌, [], if◌then◌else◌, length, slice_get, IfOk, OnOk, Ok};

use crate::codes::codes_of;
use crate::node::Entry;
use indexmap::IndexSet;
use ms_list::{List, NoMemory, push};
use std::alloc::Global;

/// The nodes of a graph while it grows, and their codes, by which each gets one number.
#[derive(Drop)]
pub(crate) struct Nodes {
    pub(crate) alloc: Global,
    pub(crate) entries: List<Entry>,
    keys: IndexSet<Vec<u64>>,
}

// Puts the item behind the others if it has got the next number.
fn keep<T: Drop>(
    items: &mut List<T>,
    item: T,
    number: Result<u32, NoMemory>,
) -> Result<u32, NoMemory>
    ensures number { IfOk result (λ given. number ≡ Ok given) }
    ensures kept { IfOk result (λ given. items.new
        ≡ (if given == length items.old then items.old ++ item ∷ [] else items.old)) }
{
    let number = number?;
    if number as usize == items.len() {
        push(items, item)?;
    }
    Ok(number)
}

impl Nodes {
    /// No nodes.
    pub(crate) fn new(alloc: Global) -> Nodes
        ensures entries { result.entries ≡ [] }
        ensures keyed { IsKeyed result }
    {
        Nodes {
            alloc,
            entries: List::new(alloc),
            keys: IndexSet::new(alloc),
        }
    }

    // The number of the codes of a node. Where numbers run out, memory has long run out.
    fn number_of_codes(&mut self, entry: &Entry) -> Result<u32, NoMemory>
        ensures entries { self.new.entries ≡ self.old.entries }
        ensures numbers { OnOk result (Numbers (keys_of self.old) (keys_of self.new) (codes_of_entry entry.now)) }
        ensures number { IfOk result (λ number. slice_get (keys_of self.new) number ≡ Some (codes_of_entry entry.now)) }
    {
        let codes = codes_of(self.alloc, entry)?;
        let Ok((number, _)) = self.keys.insert_full(codes.into_vec()) else {
            return Err(NoMemory);
        };
        let Ok(number) = u32::try_from(number) else {
            return Err(NoMemory);
        };
        Ok(number)
    }

    /// The number of the node, which gets the next one where there is none like it.
    pub(crate) fn number(&mut self, entry: Entry) -> Result<u32, NoMemory>
        requires keyed { IsKeyed self.old }
        ensures keyed { OnOk result (IsKeyed self.new) }
        ensures numbers { OnOk result (Numbers self.old.entries self.new.entries entry) }
        ensures number { IfOk result (λ number. slice_get self.new.entries number ≡ Some entry) }
    {
        let number = self.number_of_codes(&entry);
        keep(&mut self.entries, entry, number)
    }

    /// The nodes, without the codes.
    pub(crate) fn into_entries(self) -> List<Entry>
        ensures { result ≡ self.entries }
    {
        let Nodes {
            alloc: _,
            entries,
            keys: _,
        } = self;
        entries
    }
}
