ghost use Rattle.std.specs.Prelude.{◌≡◌, ◌<◌, ◌≤◌, ◌+◌, length, IsTrue, IfOk, OnOk};
ghost use Rattle.ms_arena.specs.Diagram.{IsValid};
ghost use Rattle.ms_arena.specs.Target.{Extends, Meets};
ghost use Rattle.ms_diagram.specs.Growth.{Builds};
ghost use Rattle.ms_diagram.specs.Numbering.{AddsOnly, IsNumbering};
ghost use Rattle.ms_diagram.specs.Table.{ArePaired};
ghost use Rattle.ms_minim.specs.inner.Image.{AreImages};
ghost use Rattle.ms_minim.specs.inner.Lead.{AreNoted, AreNumbered, IsGrownFrom};
ghost use Rattle.ms_minim.specs.inner.Origin.{IsSeen};
ghost use Rattle.ms_minim.specs.inner.Partition.{IsIdentity, IsRoot};
ghost use Rattle.ms_minim.specs.inner.Quotient.{HaveOwnNumbers, IsClassBehind, IsLaterQuotient, NumberBehind, findings_of};

use crate::classes::Partition;
use crate::images::{Images, image};
use crate::origins::Origins;
use crate::reading::Reader;
use ms_arena::Ref;
use ms_dfa_explore::Machine;
use ms_diagram::{PairTable, Pairs, PlaceTable, Store};
use ms_list::{List, NoMemory, StepFault};
use ms_logic_words::Sign;
use std::alloc::Global;
use std::marker::Model;

/// An automaton with the classes of its states, and the places of its tracks.
#[derive(Drop)]
pub(crate) struct Source<'a> {
    pub alloc: Global,
    pub automaton: &'a Reader<'a>,
    pub partition: Partition,
    pub places: List<u32>,
}

/// What has been built of the diagrams of a quotient: the images of the automaton's nodes by classes, in whose store are too
/// their diagrams with the numbers of classes at their leaves, where these are not the classes themselves; and what that store's
/// nodes have become in the store of the answer.
pub(crate) struct QuotientTables {
    pub origins: Origins,
    pub images: Images,
    pub numbered: PairTable,
    pub brought: PlaceTable,
    // Each class has its own number.
    pub settled: bool,
}

impl Drop for QuotientTables {
    fn drop(self) {
        let QuotientTables {
            origins: _,
            images: _,
            numbered: _,
            brought: _,
            settled: _,
        } = self;
    }
}

impl QuotientTables {
    /// The store of the images alone.
    pub(crate) fn into_store(self) -> Store
        ensures { result ≡ self.images.store }
    {
        let QuotientTables {
            origins: _,
            images,
            numbered: _,
            brought: _,
            settled: _,
        } = self;
        images.into_store()
    }
}

/// A diagram of the automaton with the numbers of classes at its leaves, in the store of the images. A class that is new gets
/// its number at first sight, as the pair of itself and 0.
fn numbers_behind(
    source: &Source,
    pairs: &mut Pairs,
    root: Ref,
    tables: &mut QuotientTables,
) -> Result<Ref, NoMemory>
    requires root { IsRoot source.now.automaton.now root }
    requires seen { IsSeen tables.old.origins root }
    requires places { IsIdentity (length source.now.automaton.now.variables) source.now.places }
    requires classes { length source.now.partition.classes ≡ length source.now.automaton.now.states }
    requires images { AreImages source.now.automaton.now.nodes source.now.partition.classes tables.old.origins.nodes.items tables.old.images }
    requires numbered { ArePaired tables.old.images.store.nodes pairs.old tables.old.numbered }
    requires settled { IsTrue tables.old.settled → HaveOwnNumbers source.now.partition.classes pairs.old }
    ensures pairs { Extends pairs.old pairs.new }
    ensures numbering { IsNumbering pairs.new }
    ensures added { AddsOnly (IsClassBehind source.now.automaton.now source.now.partition.classes root) pairs.old pairs.new }
    ensures kept { IsGrownFrom tables.old tables.new }
    ensures valid { IfOk result (IsValid tables.new.images.store.nodes) }
    ensures numbers { IfOk result (Meets tables.new.images.store.nodes (NumberBehind source.now.automaton.now source.now.partition.classes pairs.new root)) }
    ensures numbered { OnOk result (ArePaired tables.new.images.store.nodes pairs.new tables.new.numbered) }
{
    // The lengths tell that these are a store and a numbering, and the states that it is an automaton.
    let _ = tables.images.store.len();
    let _ = pairs.len();
    let _ = source.automaton.states();
    let classes = source.partition.classes.slice();
    let behind = image(&tables.images.list, classes, root);
    if tables.settled {
        return Ok(behind);
    }
    let scratch = &mut tables.images.store;
    let zero = scratch.leaf(0);
    let applied = scratch.apply_with(behind, zero, pairs, &mut tables.numbered);
    let _ = pairs.len();
    match applied {
        Ok(numbers) => Ok(numbers),
        Err(_) => Err(NoMemory),
    }
}

/// The same in the store of the answer.
fn lead_to_numbers(
    store: &mut Store,
    source: &Source,
    pairs: &mut Pairs,
    root: Ref,
    tables: &mut QuotientTables,
) -> Result<Ref, StepFault>
    requires root { IsRoot source.now.automaton.now root }
    requires seen { IsSeen tables.old.origins root }
    requires places { IsIdentity (length source.now.automaton.now.variables) source.now.places }
    requires classes { length source.now.partition.classes ≡ length source.now.automaton.now.states }
    requires tables { AreNumbered source.now.automaton.now source.now.places source.now.partition.classes pairs.old store.old.nodes tables.old }
    ensures pairs { Extends pairs.old pairs.new }
    ensures numbering { IsNumbering pairs.new }
    ensures added { AddsOnly (IsClassBehind source.now.automaton.now source.now.partition.classes root) pairs.old pairs.new }
    ensures builds { Builds store.old store.new (NumberBehind source.now.automaton.now source.now.partition.classes pairs.new root) ⊥ result }
    ensures tables { OnOk result (AreNumbered source.now.automaton.now source.now.places source.now.partition.classes pairs.new store.new.nodes tables.new) }
{
    // The lengths tell that these are stores, and the states that it is an automaton.
    let _ = store.len();
    let _ = source.automaton.states();
    let Ok(numbers) = numbers_behind(source, pairs, root, tables) else {
        return Err(StepFault::Memory);
    };
    let _ = pairs.len();
    let _ = tables.images.store.len();
    store.bring_with(
        &tables.images.store,
        numbers,
        source.places.slice(),
        &mut tables.brought,
    )
}

/// The quotient of an automaton: its states are classes, which get numbers at first sight.
#[derive(Drop)]
pub(crate) struct Quotient<'a> {
    pub source: Source<'a>,
    pub pairs: Pairs,
}

impl<'a> Model for Quotient<'a> {
    ghost use Rattle.ms_minim.specs.inner.Quotient.{IsQuotient, Quotienting};

    ghost Value = { Quotienting };

    ghost view = { λ q. record {
      content = q.source.automaton.now;
      classes = q.source.partition.classes;
      members = q.source.partition.members;
      places = q.source.places;
      pairs = q.pairs;
    } };

    ghost invariant = { λ q. IsQuotient q.source.automaton.now q.source.partition.classes q.source.partition.members q.source.places q.pairs };
}

impl<'a> Quotient<'a> {
    /// Where the truth values lead from the start.
    fn lead_from_start(
        &mut self,
        store: &mut Store,
        tables: &mut QuotientTables,
    ) -> Result<Ref, StepFault>
        requires tables { AreNoted self.old store.old.nodes tables.old }
        ensures tables { OnOk result (AreNoted self.new store.new.nodes tables.new) }
        ensures later { IsLaterQuotient self.old self.new }
        ensures builds { Builds store.old store.new (findings_of self.new).starts ⊥ result }
        ensures few { length store.new.nodes ≤ length store.old.nodes + (findings_of self.new).most_nodes }
    {
        let root = self.source.automaton.start_ref();
        lead_to_numbers(store, &self.source, &mut self.pairs, root, tables)
    }

    /// Where a letter leads from the class of this number.
    fn lead_from(
        &mut self,
        store: &mut Store,
        state: u32,
        tables: &mut QuotientTables,
    ) -> Result<Ref, StepFault>
        requires state { state < (findings_of self.old).count }
        requires tables { AreNoted self.old store.old.nodes tables.old }
        ensures tables { OnOk result (AreNoted self.new store.new.nodes tables.new) }
        ensures later { IsLaterQuotient self.old self.new }
        ensures builds { Builds store.old store.new ((findings_of self.new).steps state) ⊥ result }
        ensures few { length store.new.nodes ≤ length store.old.nodes + (findings_of self.new).most_nodes }
    {
        let (class, _) = self.pairs.get(state);
        let member = *self.source.partition.members.get(class as usize);
        let root = self.source.automaton.next_ref(member);
        lead_to_numbers(store, &self.source, &mut self.pairs, root, tables)
    }

    /// The sign of the class of this number.
    fn sign(&self, state: u32) -> Sign
        requires { state < (findings_of self.now).count }
        ensures { result ≡ (findings_of self.now).sign_of state }
    {
        let (class, _) = self.pairs.get(state);
        let member = *self.source.partition.members.get(class as usize);
        self.source.automaton.sign(member)
    }

    /// How many classes have numbers.
    pub(crate) fn count(&self) -> u32
        ensures { result ≡ (findings_of self.now).count }
    {
        self.pairs.len()
    }
}

/// A quotient with what has been built for it.
#[derive(Drop)]
pub(crate) struct QuotientMachine<'a> {
    pub quotient: Quotient<'a>,
    pub tables: QuotientTables,
}

impl<'a> Machine for QuotientMachine<'a> {
    ghost use Rattle.ms_minim.specs.inner.Lead.{AreNoted};
    ghost use Rattle.ms_minim.specs.inner.Quotient.{IsLaterQuotient, findings_of};
    ghost use Rattle.ms_minim.specs.inner.Later.{quotient_later_itself, quotient_later_later, quotient_later_findings};

    ghost findings = { λ machine. findings_of machine.quotient };

    ghost IsReady = { λ machine nodes. AreNoted machine.quotient nodes machine.tables };

    ghost IsLater = { λ early late. IsLaterQuotient early.quotient late.quotient };

    ghost later_itself = { λ machine. quotient_later_itself machine.quotient };

    ghost later_later = { λ one two three. quotient_later_later one.quotient two.quotient three.quotient };

    ghost later_findings = { λ early late. quotient_later_findings early.quotient late.quotient };

    fn start(&mut self, store: &mut Store) -> Result<Ref, StepFault> {
        self.quotient.lead_from_start(store, &mut self.tables)
    }

    fn next(&mut self, store: &mut Store, state: u32) -> Result<Ref, StepFault> {
        self.quotient.lead_from(store, state, &mut self.tables)
    }

    fn sign(&self, state: u32) -> Sign {
        self.quotient.sign(state)
    }

    fn count(&self) -> u32 {
        self.quotient.count()
    }
}
