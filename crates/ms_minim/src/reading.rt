ghost use Rattle.std.specs.Prelude.{◌≡◌, ◌<◌, length, slice_get, IfSome, Some};
ghost use Rattle.ms_logic_words.specs.Content.{is_truth_value, is_in_letters, sign_at, IsFollowed};
ghost use Rattle.ms_dfa.specs.Automaton.{variables_of};
ghost use Rattle.ms_minim.specs.SignReading.{IsRead, read_content, read_sign, without_undefined};

use ms_arena::Ref;
use ms_dfa::{Automaton, Track};
use ms_diagram::Store;
use ms_logic_words::Sign;
use std::marker::Model;

/// How signs are read: each as it is, or Undefined and Outside as one, as in files of version 1.
#[derive(Clone, Copy, PartialEq, Eq)]
pub enum SignReading {
    AsTheyAre,
    UndefinedAsOutside,
}

fn without_undefined(sign: Sign) -> Sign
    ensures { result ≡ without_undefined sign }
{
    match sign {
        Sign::Yes => Sign::Yes,
        Sign::No => Sign::No,
        Sign::Undefined => Sign::Outside,
        Sign::Outside => Sign::Outside,
    }
}

fn read_sign(reading: SignReading, sign: Sign) -> Sign
    ensures { result ≡ read_sign reading sign }
{
    match reading {
        SignReading::AsTheyAre => sign,
        SignReading::UndefinedAsOutside => without_undefined(sign),
    }
}

/// An automaton whose signs are read in some way. Contracts see its content with the signs as they are read.
#[derive(Drop)]
pub(crate) struct Reader<'a> {
    automaton: &'a Automaton,
    reading: SignReading,
}

impl<'a> Model for Reader<'a> {
    ghost use Rattle.ms_logic_words.specs.Content.{Content};
    ghost use Rattle.ms_logic_words.specs.declared.sign.Sign.{Sign};
    ghost use Rattle.ms_minim.specs.SignReading.{IsRead, read_content};

    ghost Value = { Content Sign };

    ghost view = { λ r. read_content r.reading r.automaton.now };

    ghost invariant = { λ r. IsRead (read_content r.reading r.automaton.now) };
}

impl<'a> Reader<'a> {
    pub(crate) fn new(automaton: &'a Automaton, reading: SignReading) -> Reader<'a>
        ensures { result ≡ read_content reading automaton.now }
    {
        // The states tell that it is an automaton.
        let _ = automaton.states();
        Reader { automaton, reading }
    }

    /// The tracks, whose variables rise.
    pub(crate) fn tracks(&self) -> &[Track]
        ensures variables { variables_of result.now ≡ self.now.variables }
        ensures automaton { IsRead self.now }
    {
        self.automaton.tracks()
    }

    /// How many states there are.
    pub(crate) fn states(&self) -> u32
        ensures states { result ≡ length self.now.states }
        ensures automaton { IsRead self.now }
    {
        self.automaton.states()
    }

    /// The store of the diagrams.
    pub(crate) fn store(&self) -> &Store
        ensures { result.now.nodes ≡ self.now.nodes }
    {
        self.automaton.store()
    }

    /// The diagram that leads from truth values to the first state.
    pub(crate) fn start_ref(&self) -> Ref
        ensures start { result ≡ self.now.start }
        ensures followed { IsFollowed self.now is_truth_value result }
    {
        self.automaton.start_ref()
    }

    /// The diagram that leads from a letter to the state after it.
    pub(crate) fn next_ref(&self, state: u32) -> Ref
        requires { state < length self.now.states }
        ensures next { IfSome (slice_get self.now.states state) (λ found. result ≡ found.next) }
        ensures followed { IsFollowed self.now is_in_letters result }
    {
        self.automaton.next_ref(state)
    }

    /// The sign that is read at the state.
    pub(crate) fn sign(&self, state: u32) -> Sign
        requires { state < length self.now.states }
        ensures { sign_at self.now state ≡ Some result }
    {
        read_sign(self.reading, self.automaton.sign(state))
    }
}
