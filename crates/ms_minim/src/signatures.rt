ghost use Rattle.std.specs.Prelude.{◌≡◌, ◌≢◌, ◌<◌, ◌≤◌, ℕ, ◌+◌, [], length, slice_get, Some, IfOk, OnOk};
ghost use Rattle.ms_arena.specs.Diagram.{Bits, IsValid, leaf_of};
ghost use Rattle.ms_arena.specs.Target.{Extends, Meets};
ghost use Rattle.ms_diagram.specs.Numbering.{IsNumbering};
ghost use Rattle.ms_diagram.specs.Relabel.{MappedLeaf};
ghost use Rattle.ms_diagram.specs.Store.{IsStore};
ghost use Rattle.ms_minim.specs.inner.Lead.{AreChosen};
ghost use Rattle.ms_minim.specs.inner.Partition.{IsIdentity, next_by};
ghost use Rattle.ms_minim.specs.inner.Grouping.{AreLabels, AreWithin, IsDue, IsLabel, IsLaterSeen, IsNewClass, IsSeen, through};

use crate::classes::{LeadTables, Plan, lead};
use crate::images::ROOM;
use crate::marking::{mark, number};
use ms_arena::Ref;
use ms_diagram::{Pairs, PlaceTable, Store};
use ms_list::{List, NoMemory, push};
use std::alloc::Global;

/// How many classes there are at most.
const CLASSES: u32 = 4000000000;

/// What has been seen of the states that are due: where they lead among the chosen classes, as references with their marks,
/// and for each class that is split off the old one and its mark. The first of these classes has the number `first`.
pub(crate) struct Seen {
    pub scratch: Store,
    pub marks: Pairs,
    pub keys: Pairs,
    pub first: u32,
}

// Written out, so that a function that lets one go at each of its exits is proved at the cost of a call.
impl Drop for Seen {
    fn drop(self) {
        let Seen {
            scratch: _,
            marks: _,
            keys: _,
            first: _,
        } = self;
    }
}

/// The classes of the states, and the number of each class, which is 0 where it is not chosen.
#[derive(Clone, Copy)]
pub(crate) struct Choice<'a> {
    pub classes: &'a [u32],
    pub splitters: &'a [u32],
}

/// What is seen before any state.
pub(crate) fn nothing_seen(alloc: Global, first: u32) -> Result<Seen, NoMemory>
    ensures seen { IfOk result IsSeen }
    ensures keys { IfOk result (λ made. made.keys ≡ []) }
    ensures first { IfOk result (λ made. made.first ≡ first) }
{
    let scratch = Store::new(alloc, ROOM);
    let mut marks = Pairs::new(alloc);
    let keys = Pairs::new(alloc);
    // The lengths tell that these are a store and a numbering.
    let _ = scratch.len();
    let _ = keys.len();
    let _ = number(&mut marks, 0, 0)?;
    Ok(Seen {
        scratch,
        marks,
        keys,
        first,
    })
}

/// What has been built of the diagrams of an automaton with the numbers of chosen classes at their leaves.
pub(crate) struct SignatureTables {
    pub lead: LeadTables,
    pub chosen: PlaceTable,
}

impl Drop for SignatureTables {
    fn drop(self) {
        let SignatureTables { lead: _, chosen: _ } = self;
    }
}

/// Where a state leads among the chosen classes.
fn signature(
    plan: &Plan,
    scratch: &mut Store,
    choice: &Choice,
    state: u32,
    tables: &mut SignatureTables,
) -> Result<Ref, NoMemory>
    requires places { IsIdentity (length plan.now.automaton.now.variables) plan.now.places.now }
    requires state { state < length plan.now.automaton.now.states }
    requires all { length choice.now.classes.now ≡ length plan.now.automaton.now.states }
    requires within { AreWithin choice.now.classes.now choice.now.splitters.now }
    requires tables { AreChosen plan.now.automaton.now plan.now.places.now choice.now.classes.now choice.now.splitters.now scratch.old.nodes tables.old }
    ensures extends { Extends scratch.old.nodes scratch.new.nodes }
    ensures store { IsStore scratch.new.nodes scratch.new.limit }
    ensures valid { IfOk result (IsValid scratch.new.nodes) }
    ensures leads { IfOk result (λ made. (bits : Bits) → slice_get (through choice.now.splitters.now choice.now.classes.now) (next_by plan.now.automaton.now state bits) ≡ Some (leaf_of scratch.new.nodes made bits)) }
    ensures tables { OnOk result (AreChosen plan.now.automaton.now plan.now.places.now choice.now.classes.now choice.now.splitters.now scratch.new.nodes tables.new) }
{
    // The length tells that the nodes are those of a store.
    let _ = scratch.len();
    let root = plan.automaton.next_ref(state);
    let behind = lead(plan, scratch, root, choice.classes, &mut tables.lead)?;
    match scratch.relabel_with(behind, choice.splitters, &mut tables.chosen) {
        Ok(made) => Ok(made),
        Err(_) => Err(NoMemory),
    }
}

/// The class of the states of a class with a mark.
fn label(keys: &mut Pairs, first: u32, class: u32, mark: u32) -> Result<u32, NoMemory>
    requires { IsNumbering keys.old }
    ensures keys { OnOk result (Extends keys.old keys.new) }
    ensures numbering { OnOk result (IsNumbering keys.new) }
    ensures label { IfOk result (IsLabel keys.new first class mark) }
{
    if mark == 0 {
        return Ok(class);
    }
    let place = number(keys, class, mark)?;
    if place >= CLASSES || first >= CLASSES - place {
        return Err(NoMemory);
    }
    Ok(first + place)
}

/// The new class of a state.
fn label_state(
    plan: &Plan,
    seen: &mut Seen,
    choice: &Choice,
    state: u32,
    tables: &mut SignatureTables,
) -> Result<u32, NoMemory>
    requires places { IsIdentity (length plan.now.automaton.now.variables) plan.now.places.now }
    requires state { state < length plan.now.automaton.now.states }
    requires all { length choice.now.classes.now ≡ length plan.now.automaton.now.states }
    requires within { AreWithin choice.now.classes.now choice.now.splitters.now }
    requires seen { IsSeen seen.old }
    requires tables { AreChosen plan.now.automaton.now plan.now.places.now choice.now.classes.now choice.now.splitters.now seen.old.scratch.nodes tables.old }
    ensures seen { OnOk result (IsSeen seen.new) }
    ensures later { OnOk result (IsLaterSeen seen.old seen.new) }
    ensures tables { OnOk result (AreChosen plan.now.automaton.now plan.now.places.now choice.now.classes.now choice.now.splitters.now seen.new.scratch.nodes tables.new) }
    ensures label { IfOk result (IsNewClass seen.new plan.now.automaton.now choice.now.classes.now choice.now.splitters.now state) }
{
    let reference = signature(plan, &mut seen.scratch, choice, state, tables)?;
    let found = mark(&mut seen.marks, reference)?;
    label(
        &mut seen.keys,
        seen.first,
        choice.classes[state as usize],
        found,
    )
}

/// The new classes of the states that are due.
pub(crate) fn labels(
    plan: &Plan,
    seen: &mut Seen,
    choice: &Choice,
    due: &Pairs,
) -> Result<List<u32>, NoMemory>
    requires places { IsIdentity (length plan.now.automaton.now.variables) plan.now.places.now }
    requires all { length choice.now.classes.now ≡ length plan.now.automaton.now.states }
    requires within { AreWithin choice.now.classes.now choice.now.splitters.now }
    requires due { (state : ℕ) → IsDue due.now state → state < length plan.now.automaton.now.states }
    requires seen { IsSeen seen.old }
    ensures seen { OnOk result (IsSeen seen.new) }
    ensures later { OnOk result (IsLaterSeen seen.old seen.new) }
    ensures labels { IfOk result (λ made. AreLabels seen.new plan.now.automaton.now choice.now.classes.now choice.now.splitters.now due.now made (length due.now)) }
{
    let mut tables = SignatureTables {
        lead: LeadTables::new(plan.alloc),
        chosen: PlaceTable::new(plan.alloc),
    };
    let mut made = List::new(plan.alloc);
    for place in 0..due.len() {
        let (state, _) = due.get(place);
        let found = label_state(plan, seen, choice, state, &mut tables)?;
        push(&mut made, found)?;
    }
    Ok(made)
}
