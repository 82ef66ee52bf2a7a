ghost use Rattle.std.specs.Prelude.{◌≡◌, ℕ, ◌<◌, ◌≤◌, ◌+◌, Contains, IfOk, length, map};
ghost use Rattle.ms_diagram.specs.Growth.{Builds};
ghost use Rattle.ms_dfa.specs.Automaton.{states_of};
ghost use Rattle.ms_project.specs.Subsets.{next_in};
ghost use Rattle.ms_project.specs.Subsetting.{AreNoted, IsLaterSubsetting, IsReadyForSets, subset_findings};

use ms_arena::Ref;
use ms_dfa::{Automaton, State};
use ms_dfa_explore::Machine;
use ms_diagram::{ListTable, Projected, Sets, Store};
use ms_list::{List, NoMemory, StepFault, push};
use ms_logic_words::Sign;
use std::alloc::Global;
use std::marker::Model;

/// The subset construction over the states of a product: sets of states that words reach which differ in one track alone.
/// The diagrams of the product are read with that track left out.
#[derive(Drop)]
pub(crate) struct Subsets<'a> {
    pub(crate) alloc: Global,
    pub(crate) body: &'a Automaton,
    pub(crate) inner: &'a Store,
    pub(crate) start: Ref,
    pub(crate) states: List<State>,
    pub(crate) bound: u32,
    pub(crate) back: List<u32>,
    pub(crate) sets: Sets,
}

impl<'a> Model for Subsets<'a> {
    ghost use Rattle.ms_project.specs.Subsetting.{Subsetting};

    ghost Value = { Subsetting };

    ghost view = { λ s. record {
      body = s.body.now;
      inner = s.inner.now;
      start = s.start;
      states = s.states;
      bound = s.bound;
      back = s.back;
      sets = s.sets;
    } };
}

/// The references from which letters lead on from the members of a set.
fn roots_of(alloc: Global, states: &[State], set: &[u32]) -> Result<List<Ref>, NoMemory>
    requires { (member : ℕ) → Contains set.now member → member < length states.now }
    ensures { IfOk result (λ roots. roots ≡ map (next_in (states_of states.now)) set.now) }
{
    let mut roots = List::new(alloc);
    for member in set {
        let next = states[*member as usize].next;
        push(&mut roots, next)?;
    }
    Ok(roots)
}

impl<'a> Subsets<'a> {
    /// Where the truth values lead from the start.
    fn lead_from_start(
        &mut self,
        store: &mut Store,
        lists: &mut ListTable,
    ) -> Result<Ref, StepFault>
        requires ready { IsReadyForSets self.old }
        requires lists { AreNoted self.old store.old.nodes lists.old }
        ensures ready { IsReadyForSets self.new }
        ensures lists { AreNoted self.new store.new.nodes lists.new }
        ensures later { IsLaterSubsetting self.old self.new }
        ensures builds { Builds store.old store.new (subset_findings self.new).starts (subset_findings self.new).LacksNumber result }
        ensures few { length store.new.nodes ≤ length store.old.nodes + (subset_findings self.new).most_nodes }
    {
        // The lengths tell that the nodes are those of a store, and the sets a numbering.
        let _ = store.len();
        let _ = self.sets.len();
        let view = Projected {
            store: self.inner,
            map: self.back.slice(),
            track: self.bound,
        };
        let roots = [self.start];
        store.collect(&view, &roots, &mut self.sets, lists)
    }

    /// Where a letter leads from the set of this number.
    fn lead_from(
        &mut self,
        store: &mut Store,
        state: u32,
        lists: &mut ListTable,
    ) -> Result<Ref, StepFault>
        requires state { state < (subset_findings self.old).count }
        requires ready { IsReadyForSets self.old }
        requires lists { AreNoted self.old store.old.nodes lists.old }
        ensures ready { IsReadyForSets self.new }
        ensures lists { AreNoted self.new store.new.nodes lists.new }
        ensures later { IsLaterSubsetting self.old self.new }
        ensures builds { Builds store.old store.new ((subset_findings self.new).steps state) (subset_findings self.new).LacksNumber result }
        ensures few { length store.new.nodes ≤ length store.old.nodes + (subset_findings self.new).most_nodes }
    {
        let _ = store.len();
        let _ = self.sets.len();
        let Ok(roots) = roots_of(self.alloc, self.states.slice(), self.sets.get(state)) else {
            return Err(StepFault::Memory);
        };
        let view = Projected {
            store: self.inner,
            map: self.back.slice(),
            track: self.bound,
        };
        store.collect(&view, roots.slice(), &mut self.sets, lists)
    }

    /// How many sets have numbers.
    fn count(&self) -> u32
        ensures { result ≡ (subset_findings self.now).count }
    {
        self.sets.len()
    }
}

/// A subset construction with what lists of references have become in the store of the answer.
#[derive(Drop)]
pub(crate) struct SubsetsMachine<'a> {
    pub(crate) subsets: Subsets<'a>,
    pub(crate) lists: ListTable,
}

impl<'a> Machine for SubsetsMachine<'a> {
    ghost use Rattle.ms_project.specs.Subsetting.{AreNoted, IsReadyForSets, IsLaterSubsetting, subset_findings};
    ghost use Rattle.ms_project.specs.inner.Later.{subsetting_later_itself, subsetting_later_later, subsetting_later_findings};

    ghost findings = { λ machine. subset_findings machine.subsets };

    ghost IsReady = { λ machine nodes. IsReadyForSets machine.subsets × AreNoted machine.subsets nodes machine.lists };

    ghost IsLater = { λ early late. IsLaterSubsetting early.subsets late.subsets };

    ghost later_itself = { λ machine. subsetting_later_itself machine.subsets };

    ghost later_later = { λ one two three. subsetting_later_later one.subsets two.subsets three.subsets };

    ghost later_findings = { λ early late. subsetting_later_findings early.subsets late.subsets };

    fn start(&mut self, store: &mut Store) -> Result<Ref, StepFault> {
        self.subsets.lead_from_start(store, &mut self.lists)
    }

    fn next(&mut self, store: &mut Store, state: u32) -> Result<Ref, StepFault> {
        self.subsets.lead_from(store, state, &mut self.lists)
    }

    fn sign(&self, _state: u32) -> Sign {
        Sign::Outside
    }

    fn count(&self) -> u32 {
        self.subsets.count()
    }
}
