ghost use Rattle.std.specs.Prelude.{◌≡◌, length, IfOk};
ghost use Rattle.ms_logic.specs.Assignment.{Variable};
ghost use Rattle.ms_logic.specs.Lists.{AreRising, IsAmong};
ghost use Rattle.ms_dfa.specs.Automaton.{variables_of};
ghost use Rattle.ms_dfa_explore.specs.Tracks.{places_among};
ghost use Rattle.ms_product.specs.Widened.{IsRisingMap};

use ms_dfa::{Automaton, Track};
use ms_dfa_explore::places_among;
use ms_list::{List, NoMemory};
use std::alloc::Global;

/// An automaton over more tracks: the map has the place of each of its own among them.
#[derive(Drop)]
pub struct Widened<'a> {
    pub automaton: &'a Automaton,
    pub map: List<u32>,
}

/// The automaton with its tracks at their places among these.
pub fn over_tracks<'a>(
    alloc: Global,
    automaton: &'a Automaton,
    tracks: &[Track],
) -> Result<Widened<'a>, NoMemory>
    requires rising { AreRising (variables_of tracks.now) }
    requires among { (v : Variable) → IsAmong automaton.now.variables v → IsAmong (variables_of tracks.now) v }
    ensures automaton { IfOk result (λ made. made.automaton.now ≡ automaton.now) }
    ensures map { IfOk result (λ made. made.map ≡ places_among automaton.now.variables (variables_of tracks.now)) }
    ensures rising { IfOk result (λ made. IsRisingMap (length made.automaton.now.variables) made.map) }
{
    let map = places_among(alloc, automaton.tracks(), tracks)?;
    Ok(Widened { automaton, map })
}
