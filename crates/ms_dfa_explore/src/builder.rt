ghost use Rattle.std.specs.Prelude.{◌≡◌, ◌≤◌, ◌<◌, ◌+◌, ◌*◌, [], length, Some, IfOk};
ghost use Rattle.ms_list.specs.declared.word.Word.{Word};
ghost use Rattle.ms_logic_words.specs.Content.{IsWordOver, is_truth_value, is_in_letters, sign_of};
ghost use Rattle.ms_logic.specs.Lists.{AreRising};
ghost use Rattle.ms_dfa.specs.Automaton.{variables_of};
ghost use Rattle.ms_dfa.specs.Part.{has_value};
ghost use Rattle.ms_logic.specs.FiniteSet.{IsRising};
ghost use Rattle.ms_dfa_explore.specs.Explored.{Explores, OnRefused};
ghost use Rattle.ms_dfa_explore.specs.Small.{HasStatesOf, IsClosedTable, TellsWords, findings_of, most_nodes, places_of, sign_by};

use crate::exploration::explore;
use crate::machine::Machine;
use crate::small::{SmallMachine, TrackBits};
use crate::tabulate::diagram;
use ms_arena::Ref;
use ms_dfa::{Automaton, Part, Track, is_in};
use ms_diagram::Store;
use ms_list::{List, NoMemory, StepFault, push};
use ms_logic::Mode;
use ms_logic_words::Sign;
use std::alloc::Global;
use std::marker::Model;

/// The places of the tracks with a value in each part of a word.
#[derive(Drop)]
struct Reads {
    truth: List<u32>,
    letters: List<u32>,
}

impl Model for Reads {
    ghost use Rattle.std.specs.Prelude.{List, ℕ};
    ghost use Rattle.ms_logic.specs.FiniteSet.{IsRising};

    ghost Value = { List ℕ × List ℕ };

    ghost view = { λ reads. (reads.truth, reads.letters) };

    ghost invariant = { λ reads. IsRising reads.truth × IsRising reads.letters };
}

/// The places of the tracks with a value in a part of a word.
fn places(alloc: Global, tracks: &[Track], part: Part) -> Result<List<u32>, NoMemory>
    requires { length tracks.now ≤ 3 }
    ensures { IfOk result (λ made. made ≡ places_of (has_value part) 0 (variables_of tracks.now)) }
{
    let mut made = List::new(alloc);
    let mut place = 0;
    for track in tracks {
        if is_in(part, track.order) {
            push(&mut made, place)?;
        }
        place += 1;
    }
    Ok(made)
}

/// The places of the tracks with a value in either part.
fn places_by_part(alloc: Global, tracks: &[Track]) -> Result<Reads, NoMemory>
    requires { length tracks.now ≤ 3 }
    ensures { IfOk result (λ made. made ≡ (places_of is_truth_value 0 (variables_of tracks.now), places_of is_in_letters 0 (variables_of tracks.now))) }
{
    let truth = places(alloc, tracks, Part::Truth)?;
    let letters = places(alloc, tracks, Part::Letters)?;
    Ok(Reads { truth, letters })
}

/// A machine of known states, and what it reads. All of its states have been found from the beginning.
#[derive(Drop)]
struct Known<M: SmallMachine + Drop> {
    machine: M,
    reads: Reads,
}

impl<M: SmallMachine + Drop> Machine for Known<M> {
    ghost use Rattle.std.proofs.Common.{◌≡◌, [], refl, ◌∙◌, subst};
    ghost use Rattle.ms_dfa_explore.specs.Explored.{AreMore};
    ghost use Rattle.ms_dfa_explore.specs.Small.{findings_of};
    ghost use Rattle.std.proofs.Math.Nat.{le_refl};

    ghost findings = { λ known. findings_of (M.table known.machine) known.reads.0 known.reads.1 };

    ghost IsReady = { λ known nodes. Unit {0} };

    ghost IsLater = { λ early late. early ≡ late };

    ghost later_itself = { λ known. refl };

    ghost later_later = { λ one two three first second. first ∙ second };

    ghost later_findings = { λ early late same.
        subst (λ known. AreMore (findings_of (M.table early.machine) early.reads.0 early.reads.1) (findings_of (M.table known.machine) known.reads.0 known.reads.1)) same
        (record { count = le_refl (M.table early.machine).states; starts = λ bits number right. right; steps = λ state found bits number right. right; signs = λ state found. refl; most_nodes = refl }) };

    fn start(&mut self, store: &mut Store) -> Result<Ref, StepFault> {
        let reads = self.reads.truth.slice();
        diagram(store, &self.machine, None, reads, TrackBits::zero())
    }

    fn next(&mut self, store: &mut Store, state: u32) -> Result<Ref, StepFault> {
        let reads = self.reads.letters.slice();
        diagram(store, &self.machine, Some(state), reads, TrackBits::zero())
    }

    fn sign(&self, state: u32) -> Sign {
        self.machine.sign(state)
    }

    fn count(&self) -> u32 {
        self.machine.states()
    }
}

/// The automaton over these tracks that gives each word the sign of the machine, and has its states. Nodes and states are
/// together at most `limit`, and no more than eight for each state and for the start.
pub fn from_machine<M: SmallMachine + Drop>(
    alloc: Global,
    machine: M,
    mode: Mode,
    tracks: List<Track>,
    limit: u64,
) -> Result<Automaton, StepFault>
    requires few { length tracks ≤ 3 }
    requires rising { AreRising (variables_of tracks) }
    requires closed { IsClosedTable (M.table machine) }
    requires tells { TellsWords mode (variables_of tracks) (M.table machine) }
    requires some { 1 ≤ limit }
    requires small { limit ≤ 4000000000 }
    ensures mode { IfOk result (λ made. made.mode ≡ mode) }
    ensures variables { IfOk result (λ made. made.variables ≡ variables_of tracks) }
    ensures signs { IfOk result (λ made. (word : Word) → IsWordOver (variables_of tracks) word
        → sign_of made word ≡ Some (sign_by (M.table machine) (variables_of tracks) word)) }
    ensures states { IfOk result (HasStatesOf (M.table machine) (variables_of tracks)) }
    ensures within { IfOk result (λ made. length made.nodes + length made.states ≤ limit) }
    ensures nodes { OnRefused result (λ refused. (refused ≡ limit) × (limit < 8 * ((M.table machine).states + 1))) }
{
    let reads = match places_by_part(alloc, tracks.slice()) {
        Ok(reads) => reads,
        Err(_) => return Err(StepFault::Memory),
    };
    let mut store = Store::new(alloc, limit);
    let mut states = List::new(alloc);
    let mut known = Known { machine, reads };
    let start = match explore(&mut known, &mut store, &mut states) {
        Ok(start) => start,
        Err(fault) => return Err(fault),
    };
    Ok(Automaton::make(store, mode, tracks, start, states))
}
