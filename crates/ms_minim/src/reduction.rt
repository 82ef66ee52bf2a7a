ghost use Rattle.std.specs.Prelude.{◌≡◌, ◌≤◌, ◌<◌, ◌+◌, List as Sequence, length, IsTrue, IfOk};
ghost use Rattle.ms_arena.specs.declared.node.Node.{Node};
ghost use Rattle.ms_dfa_explore.specs.Explored.{OnRefused};
ghost use Rattle.ms_minim.specs.Needed.{NeedsAtLeast};
ghost use Rattle.ms_minim.specs.inner.Lead.{AreNoted};
ghost use Rattle.ms_minim.specs.SignReading.{read_content};
ghost use Rattle.ms_minim.specs.Reduced.{IsReducedOf, content_over};

use crate::numbers::{Numbered, first_numbers};
use crate::origins::origins_of;
use crate::quotient::{Quotient, QuotientMachine, QuotientTables, Source};
use crate::reading::{Reader, SignReading};
use crate::refinement::{Residuals, refine};
use crate::settled::{own_start, own_states};
use ms_arena::Ref;
use ms_dfa::{Automaton, State};
use ms_dfa_explore::{explore, places_among};
use ms_diagram::{PairTable, PlaceTable, Store};
use ms_list::{List, NoMemory, StepFault};
use std::alloc::Global;

/// Diagrams, and a start and states over them.
#[derive(Drop)]
pub struct Reduced {
    pub store: Store,
    pub start: Ref,
    pub states: List<State>,
}

/// The quotient of an automaton by the residuals of its states, with what has been built for it.
fn machine_of<'a>(alloc: Global, automaton: &'a Reader<'a>) -> Result<QuotientMachine<'a>, NoMemory>
    ensures automaton { IfOk result (λ made. made.quotient.content ≡ automaton.now) }
    ensures ready { IfOk result (λ made. (nodes : Sequence Node) → AreNoted made.quotient nodes made.tables) }
    ensures few { IfOk result (λ made. length made.tables.images.store.nodes ≤ length automaton.now.nodes) }
{
    let tracks = automaton.tracks();
    let places = places_among(alloc, tracks, tracks)?;
    let origins = origins_of(alloc, automaton)?;
    let Residuals { partition, images } = refine(alloc, automaton, places.slice(), &origins)?;
    let Numbered { pairs, settled } = first_numbers(alloc, automaton, &origins, &partition)?;
    let source = Source {
        alloc,
        automaton,
        partition,
        places,
    };
    let tables = QuotientTables {
        origins,
        images,
        numbered: PairTable::new(alloc),
        brought: PlaceTable::new(alloc),
        settled,
    };
    Ok(QuotientMachine {
        quotient: Quotient { source, pairs },
        tables,
    })
}

/// The quotient of an automaton where each class has its own number: its diagrams are the images of the automaton's nodes.
fn reduce_settled(machine: QuotientMachine) -> Result<Reduced, NoMemory>
    requires ready { (nodes : Sequence Node) → AreNoted machine.quotient nodes machine.tables }
    requires settled { IsTrue machine.tables.settled }
    requires few { length machine.tables.images.store.nodes ≤ length machine.quotient.content.nodes }
    ensures reduced { IfOk result (λ made. IsReducedOf machine.entry.quotient.content (content_over machine.entry.quotient.content made.store.nodes made.start made.states)) }
    ensures own { IfOk result (λ made. length made.store.nodes + length made.states ≡ length machine.entry.tables.images.store.nodes + length machine.entry.quotient.pairs) }
{
    let QuotientMachine { quotient, tables } = machine;
    let Quotient { source, pairs } = quotient;
    // The length tells that the nodes are those of a store.
    let _ = tables.images.store.len();
    let states = own_states(&source, &pairs, &tables)?;
    let start = own_start(&source, &pairs, &tables);
    Ok(Reduced {
        store: tables.into_store(),
        start,
        states,
    })
}

/// Whether each class has its own number, and few nodes fall together, so that little room is left in the store of the images, and
/// these and the classes are within a limit.
fn is_nearly_reduced(machine: &QuotientMachine, nodes: u64, limit: u64) -> bool
    ensures settled { IsTrue result → IsTrue machine.now.tables.settled }
    ensures within { IsTrue result → length machine.now.tables.images.store.nodes + length machine.now.quotient.pairs ≤ limit }
{
    let images = machine.tables.images.store.len();
    let classes = u64::from(machine.quotient.count());
    machine.tables.settled && images >= nodes / 2 && images + classes <= limit
}

/// The states of an automaton that words reach, one for all with equal residuals, where its signs are read in some way. Nodes
/// and states are together at most `limit`.
pub fn reduce(
    alloc: Global,
    a: &Automaton,
    reading: SignReading,
    limit: u64,
) -> Result<Reduced, StepFault>
    requires some { 1 ≤ limit }
    requires small { limit ≤ 4000000000 }
    ensures reduced { IfOk result (λ made. IsReducedOf (read_content reading a.now) (content_over a.now made.store.nodes made.start made.states)) }
    ensures few { IfOk result (λ made. length made.store.nodes + length made.states ≤ limit) }
    ensures nodes { OnRefused result (λ refused. (refused ≡ limit) × (limit < length a.now.nodes + length a.now.states)) }
    ensures needs { OnRefused result (λ refused. NeedsAtLeast limit a.now) }
{
    let reader = Reader::new(a, reading);
    let Ok(mut machine) = machine_of(alloc, &reader) else {
        return Err(StepFault::Memory);
    };
    if is_nearly_reduced(&machine, a.store().len(), limit) {
        return match reduce_settled(machine) {
            Ok(made) => Ok(made),
            Err(_) => Err(StepFault::Memory),
        };
    }
    let mut store = Store::new(alloc, limit);
    let Ok(()) = store.reserve(machine.tables.images.store.len()) else {
        return Err(StepFault::Memory);
    };
    let mut states = List::new(alloc);
    let explored = explore(&mut machine, &mut store, &mut states);
    let quotient = machine.quotient;
    // The number of classes tells that it is a quotient.
    let _ = quotient.count();
    let start = match explored {
        Ok(start) => start,
        Err(fault) => return Err(fault),
    };
    Ok(Reduced {
        store,
        start,
        states,
    })
}
