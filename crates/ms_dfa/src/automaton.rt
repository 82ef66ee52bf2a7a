ghost use Rattle.std.specs.Prelude.{◌≡◌, ◌<◌, ℕ, length, slice_get, IfSome, Some};
ghost use Rattle.ms_arena.specs.Diagram.{leaf_of};
ghost use Rattle.ms_logic_words.specs.Content.{count_of, is_truth_value, is_in_letters, padded, bits_at, first_state, next_state, sign_at, IsFollowed};
ghost use Rattle.ms_dfa.specs.Automaton.{variables_of, content_of, IsAutomaton};
ghost use Rattle.ms_dfa.specs.Part.{has_value};

use crate::count::count_in;
use crate::part::Part;
use crate::state::State;
use crate::track::Track;
use ms_arena::Ref;
use ms_diagram::Store;
use ms_list::List;
use ms_logic::Mode;
use ms_logic_words::Sign;
use std::marker::Model;

/// An automaton over tracks, seen as its content.
#[derive(Drop)]
pub struct Automaton {
    store: Store,
    mode: Mode,
    tracks: List<Track>,
    start: Ref,
    states: List<State>,
}

impl Model for Automaton {
    ghost use Rattle.ms_logic_words.specs.Content.{Content};
    ghost use Rattle.ms_logic_words.specs.declared.sign.Sign.{Sign};

    ghost Value = { Content Sign };

    ghost use Rattle.ms_dfa.specs.Automaton.{content_of, IsAutomaton};

    ghost view = { λ a. content_of a.store.nodes a.mode a.tracks a.start a.states };

    ghost invariant = { λ a. IsAutomaton (content_of a.store.nodes a.mode a.tracks a.start a.states) };
}

impl Automaton {
    /// The automaton of these parts. Its store is read alone, so what finds a node there is let go.
    pub fn make(
        mut store: Store,
        mode: Mode,
        tracks: List<Track>,
        start: Ref,
        states: List<State>,
    ) -> Automaton
        requires { IsAutomaton (content_of store.nodes mode tracks start states) }
        ensures { result ≡ content_of store.nodes mode tracks start states }
    {
        store.seal();
        Automaton {
            store,
            mode,
            tracks,
            start,
            states,
        }
    }

    pub fn mode(&self) -> Mode
        ensures { result ≡ self.now.mode }
    {
        self.mode
    }

    /// The tracks, whose variables rise.
    pub fn tracks(&self) -> &[Track]
        ensures variables { variables_of result.now ≡ self.now.variables }
        ensures automaton { IsAutomaton self.now }
    {
        self.tracks.slice()
    }

    /// How many states there are.
    pub fn states(&self) -> u32
        ensures states { result ≡ length self.now.states }
        ensures automaton { IsAutomaton self.now }
    {
        self.states.len() as u32
    }

    /// The store of the diagrams.
    pub fn store(&self) -> &Store
        ensures { result.now.nodes ≡ self.now.nodes }
    {
        &self.store
    }

    /// The diagram that leads from truth values to the first state.
    pub fn start_ref(&self) -> Ref
        ensures start { result ≡ self.now.start }
        ensures followed { IsFollowed self.now is_truth_value result }
    {
        self.start
    }

    /// The diagram that leads from a letter to the state after it.
    pub fn next_ref(&self, state: u32) -> Ref
        requires { state < length self.now.states }
        ensures next { IfSome (slice_get self.now.states state) (λ found. result ≡ found.next) }
        ensures followed { IsFollowed self.now is_in_letters result }
    {
        self.states.get(state as usize).next
    }

    /// The sign of the words that end in the state.
    pub fn sign(&self, state: u32) -> Sign
        requires { state < length self.now.states }
        ensures { sign_at self.now state ≡ Some result }
    {
        self.states.get(state as usize).sign
    }

    /// The state to which the truth values lead, one for each track of order 0.
    pub fn start(&self, truth: &[bool]) -> u32
        requires { length truth.now ≡ count_of is_truth_value self.now.variables }
        ensures state { result ≡ first_state self.now truth.now }
        ensures within { result < length self.now.states }
    {
        self.follow(self.start, Part::Truth, truth)
    }

    /// The state to which a letter leads, a bit for each track that is not of order 0.
    pub fn step(&self, state: u32, letter: &[bool]) -> u32
        requires state { state < length self.now.states }
        requires letter { length letter.now ≡ count_of is_in_letters self.now.variables }
        ensures state { result ≡ next_state self.now state letter.now }
        ensures within { result < length self.now.states }
    {
        self.follow(self.states.get(state as usize).next, Part::Letters, letter)
    }

    /// The leaf to which the values of a part of a word lead.
    fn follow(&self, root: Ref, part: Part, values: &[bool]) -> u32
        requires root { IsFollowed self.now (has_value part) root }
        requires values { length values.now ≡ count_of (has_value part) self.now.variables }
        ensures { result ≡ leaf_of self.now.nodes root (bits_at (padded (has_value part) self.now.variables values.now)) }
    {
        let mut reference = root;
        loop {
            match reference {
                Ref::Leaf(state) => return state,
                Ref::Inner(place) => {
                    let node = self.store.node(place);
                    let tracks = self.tracks.slice();
                    let value = values[count_in(&tracks[..node.var as usize], part)];
                    reference = if value { node.high } else { node.low };
                }
            }
        }
    }
}
