ghost use Rattle.std.specs.Prelude.{◌≡◌, [], length, IfOk, OnOk};
ghost use Rattle.ms_arena.specs.Diagram.{IsValid};
ghost use Rattle.ms_arena.specs.Target.{Extends, Meets};
ghost use Rattle.ms_diagram.specs.Relabel.{MappedLeaf};
ghost use Rattle.ms_diagram.specs.Store.{IsStore};
ghost use Rattle.ms_minim.specs.inner.Lead.{AreLed};
ghost use Rattle.ms_minim.specs.inner.Partition.{IsIdentity, IsRoot};

use crate::reading::Reader;
use ms_arena::Ref;
use ms_diagram::{PlaceTable, Store};
use ms_list::{List, NoMemory};
use std::alloc::Global;

/// A class for each state of an automaton, and for each class one of its states.
pub(crate) struct Partition {
    pub classes: List<u32>,
    pub members: List<u32>,
}

impl Drop for Partition {
    fn drop(self) {
        let Partition {
            classes: _,
            members: _,
        } = self;
    }
}

/// An automaton and the places of its tracks.
#[derive(Clone, Copy)]
pub(crate) struct Plan<'a> {
    pub alloc: Global,
    pub automaton: &'a Reader<'a>,
    pub places: &'a [u32],
}

/// What the nodes of an automaton have become in another store, and what the nodes of that have become with classes at
/// their leaves.
pub(crate) struct LeadTables {
    pub brought: PlaceTable,
    pub led: PlaceTable,
}

impl Drop for LeadTables {
    fn drop(self) {
        let LeadTables { brought: _, led: _ } = self;
    }
}

impl LeadTables {
    pub(crate) fn new(alloc: Global) -> LeadTables
        ensures brought { result.brought ≡ [] }
        ensures led { result.led ≡ [] }
    {
        LeadTables {
            brought: PlaceTable::new(alloc),
            led: PlaceTable::new(alloc),
        }
    }
}

/// A diagram of an automaton with the classes of its states at its leaves, in another store.
pub(crate) fn lead(
    plan: &Plan,
    scratch: &mut Store,
    root: Ref,
    classes: &[u32],
    tables: &mut LeadTables,
) -> Result<Ref, NoMemory>
    requires root { IsRoot plan.now.automaton.now root }
    requires places { IsIdentity (length plan.now.automaton.now.variables) plan.now.places.now }
    requires classes { length classes.now ≡ length plan.now.automaton.now.states }
    requires tables { AreLed plan.now.automaton.now plan.now.places.now classes.now scratch.old.nodes tables.old }
    ensures extends { Extends scratch.old.nodes scratch.new.nodes }
    ensures store { IsStore scratch.new.nodes scratch.new.limit }
    ensures valid { IfOk result (IsValid scratch.new.nodes) }
    ensures leads { IfOk result (Meets scratch.new.nodes (MappedLeaf plan.now.automaton.now.nodes classes.now root)) }
    ensures tables { OnOk result (AreLed plan.now.automaton.now plan.now.places.now classes.now scratch.new.nodes tables.new) }
{
    // The states tell that it is an automaton, and the length that the nodes are those of a store.
    let _ = plan.automaton.states();
    let _ = scratch.len();
    let from = plan.automaton.store();
    let Ok(states) = scratch.bring_with(from, root, plan.places, &mut tables.brought) else {
        return Err(NoMemory);
    };
    match scratch.relabel_with(states, classes, &mut tables.led) {
        Ok(made) => Ok(made),
        Err(_) => Err(NoMemory),
    }
}
