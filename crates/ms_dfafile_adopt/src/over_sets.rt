ghost use Rattle.std.specs.Prelude.{◌≡◌, ◌<◌, ◌≤◌, length, IfOk};
ghost use Rattle.ms_dfa.specs.Automaton.{variables_of};
ghost use Rattle.ms_dfafile.specs.File.{IsFile};
ghost use Rattle.ms_dfa_explore.specs.Explored.{OnRefused};
ghost use Rattle.ms_dfafile_adopt.specs.Short.{IsFileOverSets};
ghost use Rattle.ms_dfafile_adopt.specs.Readings.{own_variables};

use crate::images::images;
use crate::states::{image, own_states};
use crate::tracks::set_tracks;
use ms_dfa::{Automaton, Plain, Track};
use ms_diagram::Store;
use ms_list::StepFault;
use ms_logic::Mode;
use std::alloc::Global;

/// The file as an automaton over strings, with its numbers read as sets.
pub(crate) fn over_sets(
    alloc: Global,
    plain: &Plain,
    tracks: &[Track],
    limit: u64,
) -> Result<Automaton, StepFault>
    requires file { IsFile plain.now }
    requires tracks { variables_of tracks.now ≡ own_variables plain.now }
    requires some { 1 ≤ limit }
    requires small { limit ≤ 4000000000 }
    ensures said { IfOk result (IsFileOverSets plain.now) }
    ensures nodes { OnRefused result (λ refused. (refused ≡ limit) × (limit < length plain.now.nodes)) }
{
    let mut store = Store::new(alloc, limit);
    let images = match images(alloc, &mut store, plain.nodes.slice()) {
        Ok(images) => images,
        Err(fault) => return Err(fault),
    };
    let Ok(states) = own_states(alloc, plain.states.slice(), images.slice()) else {
        return Err(StepFault::Memory);
    };
    let Ok(sets) = set_tracks(alloc, tracks) else {
        return Err(StepFault::Memory);
    };
    let start = image(images.slice(), plain.start);
    // The length tells that the nodes are those of a store.
    let _ = store.len();
    Ok(Automaton::make(store, Mode::M2lStr, sets, start, states))
}
