ghost use Rattle.std.specs.Prelude.{◌≡◌, ◌∷◌, ◌++◌, [], IfOk, OnOk};
ghost use Rattle.ms_dfa.specs.Automaton.{variable_of, variables_of};
ghost use Rattle.ms_project.specs.Paired.{places_left};
ghost use Rattle.ms_logic.specs.Lists.{without};

use ms_dfa::Track;
use ms_list::{List, NoMemory, push};
use std::alloc::Global;

/// The tracks of the other variables, and for each track its place among them.
#[derive(Drop)]
pub(crate) struct Rest {
    pub(crate) tracks: List<Track>,
    pub(crate) back: List<u32>,
}

/// Appends the track, if its variable is another one.
fn push_other(tracks: &mut List<Track>, track: Track, name: u32) -> Result<(), NoMemory>
    ensures { OnOk result (variables_of tracks.new ≡ variables_of tracks.old ++ without name (variable_of track ∷ [])) }
{
    if track.variable == name {
        return Ok(());
    }
    push(tracks, track)
}

/// Leaves out the track of a variable.
pub(crate) fn leave_out(alloc: Global, tracks: &[Track], name: u32) -> Result<Rest, NoMemory>
    ensures variables { IfOk result (λ rest. variables_of rest.tracks ≡ without name (variables_of tracks.now)) }
    ensures back { IfOk result (λ rest. rest.back ≡ places_left name 0 (variables_of tracks.now)) }
{
    let mut rest = List::new(alloc);
    let mut back = List::new(alloc);
    for track in tracks {
        let Ok(place) = u32::try_from(rest.len()) else {
            return Err(NoMemory);
        };
        push(&mut back, place)?;
        push_other(&mut rest, *track, name)?;
    }
    Ok(Rest { tracks: rest, back })
}
