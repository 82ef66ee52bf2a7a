ghost use Rattle.std.specs.Prelude.{◌≡◌, length, IfOk};
ghost use Rattle.ms_dfa.specs.Automaton.{variables_of};
ghost use Rattle.ms_dfa_explore.specs.Tracks.{places_among};
ghost use Rattle.ms_rename.specs.Renamed.{renamed};

use ms_dfa::Track;
use ms_dfa_explore::place_of;
use ms_list::{List, NoMemory, push};
use std::alloc::Global;

/// The tracks with the variables of a map, which has one for each.
pub fn renamed_tracks(alloc: Global, tracks: &[Track], map: &[u32]) -> Result<List<Track>, NoMemory>
    requires { length map.now ≡ length tracks.now }
    ensures { IfOk result (λ made. variables_of made ≡ renamed map.now (variables_of tracks.now)) }
{
    let mut made = List::new(alloc);
    for i in 0..tracks.len() {
        let track = Track {
            variable: map[i],
            order: tracks[i].order,
        };
        push(&mut made, track)?;
    }
    Ok(made)
}

/// Where tracks stand among others.
pub(crate) fn places(
    alloc: Global,
    tracks: &[Track],
    among: &[Track],
) -> Result<List<u32>, NoMemory>
    ensures { IfOk result (λ made. made ≡ places_among (variables_of tracks.now) (variables_of among.now)) }
{
    let mut made = List::new(alloc);
    for track in tracks {
        let Ok(place) = u32::try_from(place_of(among, track.variable)) else {
            return Err(NoMemory);
        };
        push(&mut made, place)?;
    }
    Ok(made)
}
