ghost use Rattle.std.specs.Prelude.{◌≡◌, ◌<◌, IfOk, IsFalse, IsTrue, OnOk};
ghost use Rattle.ms_dfa.specs.Automaton.{variables_of};
ghost use Rattle.ms_logic.specs.Lists.{AreRising};
ghost use Rattle.ms_build.specs.inner.Lacked.{AreBelow, HasNumber, IsLacked, IsNotBelow, with_track};

use ms_dfa::Track;
use ms_list::{List, NoMemory, push};
use ms_logic::Order;
use std::alloc::Global;

/// Tracks that an automaton lacks: those that are of no number, whose variables rise, and those of numbers.
#[derive(Drop)]
pub(crate) struct Lacked {
    pub free: List<Track>,
    pub numbers: List<Track>,
}

impl Lacked {
    /// One track more.
    fn add(&mut self, track: Track) -> Result<(), NoMemory>
        ensures { OnOk result (self.new ≡ with_track self.old track) }
    {
        match track.order {
            Order::One => push(&mut self.numbers, track),
            Order::Zero => push(&mut self.free, track),
            Order::Two => push(&mut self.free, track),
        }
    }
}

/// The first place from this one on at which no lower variable than this one stands.
fn place_from(tracks: &[Track], place: usize, variable: u32) -> usize
    requires { AreBelow (variables_of tracks.now) place variable }
    ensures before { AreBelow (variables_of tracks.now) result variable }
    ensures there { IsNotBelow (variables_of tracks.now) result variable }
{
    let mut next = place;
    while next < tracks.len() && tracks[next].variable < variable {
        next += 1;
    }
    next
}

/// Whether a track of this variable is there: it would stand at the first place at which no lower one does.
fn stands_at(tracks: &[Track], place: usize, variable: u32) -> bool
    requires rising { AreRising (variables_of tracks.now) }
    requires before { AreBelow (variables_of tracks.now) place variable }
    requires there { IsNotBelow (variables_of tracks.now) place variable }
    ensures stands { IsTrue result → HasNumber (variables_of tracks.now) variable }
    ensures lacks { IsFalse result → ¬ HasNumber (variables_of tracks.now) variable }
{
    place < tracks.len() && tracks[place].variable == variable
}

/// Those of the wanted tracks that are not among an automaton's own, where both rise. It goes over each list once.
pub(crate) fn lacked_tracks(
    alloc: Global,
    own: &[Track],
    wanted: &[Track],
) -> Result<Lacked, NoMemory>
    requires own { AreRising (variables_of own.now) }
    requires wanted { AreRising (variables_of wanted.now) }
    ensures { IfOk result (IsLacked (variables_of own.now) (variables_of wanted.now)) }
{
    let mut lacked = Lacked {
        free: List::new(alloc),
        numbers: List::new(alloc),
    };
    let mut place = 0;
    for track in wanted {
        place = place_from(own, place, track.variable);
        if !stands_at(own, place, track.variable) {
            lacked.add(*track)?;
        }
    }
    Ok(lacked)
}
