ghost use Rattle.std.specs.Prelude.{◌≡◌, ◌≤◌, ◌+◌, ◌++◌, ◌∷◌, drop, length, IfOk, OnOk};
ghost use Rattle.ms_dfa.specs.Automaton.{variables_of};
ghost use Rattle.ms_dfa_explore.specs.Tracks.{before, distinct, from, merged, place_of, places_among, without_first};
ghost use Rattle.ms_logic.specs.Assignment.{Variable};
ghost use Rattle.ms_logic.specs.Lists.{AreRising, IsAmong};

use ms_dfa::Track;
use ms_list::{List, NoMemory, push};
use std::alloc::Global;

/// Appends the tracks from a place on whose variables are below this one, and gives the place behind them.
fn push_below(
    made: &mut List<Track>,
    tracks: &[Track],
    place: usize,
    variable: u32,
) -> Result<usize, NoMemory>
    requires { place ≤ length tracks.now }
    ensures pushed { OnOk result (variables_of made.new ≡ variables_of made.old ++ before variable (variables_of (drop place tracks.now))) }
    ensures behind { IfOk result (λ next. variables_of (drop next tracks.now) ≡ from variable (variables_of (drop place tracks.now))) }
    ensures within { IfOk result (λ next. next ≤ length tracks.now) }
{
    let mut next = place;
    while next < tracks.len() && tracks[next].variable < variable {
        push(made, tracks[next])?;
        next += 1;
    }
    Ok(next)
}

/// The place behind a track of this variable, if one stands there.
fn pass(tracks: &[Track], place: usize, variable: u32) -> usize
    requires { place ≤ length tracks.now }
    ensures passed { variables_of (drop result tracks.now) ≡ without_first variable (variables_of (drop place tracks.now)) }
    ensures within { result ≤ length tracks.now }
{
    if place < tracks.len() && tracks[place].variable == variable {
        place + 1
    } else {
        place
    }
}

/// The tracks of both lists, each variable once; they rise where those of both lists do.
pub fn merge(alloc: Global, left: &[Track], right: &[Track]) -> Result<List<Track>, NoMemory>
    ensures { IfOk result (λ made. variables_of made ≡ merged (variables_of left.now) (variables_of right.now)) }
{
    let mut made = List::new(alloc);
    let mut place = 0;
    for track in left {
        let behind = push_below(&mut made, right, place, track.variable)?;
        push(&mut made, *track)?;
        place = pass(right, behind, track.variable);
    }
    for track in &right[place..] {
        push(&mut made, *track)?;
    }
    Ok(made)
}

/// The tracks of a few places, each variable once, in rising order.
pub fn distinct(alloc: Global, places: &[Track]) -> Result<List<Track>, NoMemory>
    ensures { IfOk result (λ made. variables_of made ≡ distinct (variables_of places.now)) }
{
    let mut made = List::new(alloc);
    for place in places {
        made = merge(alloc, made.slice(), &[*place])?;
    }
    Ok(made)
}

/// Where the first track of a variable stands from a place on, and past the end where there is none.
fn seek(tracks: &[Track], from: usize, variable: u32) -> usize
    requires { from ≤ length tracks.now }
    ensures place { result ≡ from + place_of variable (variables_of (drop from tracks.now)) }
    ensures within { result ≤ length tracks.now }
{
    let mut place = from;
    while place < tracks.len() && tracks[place].variable != variable {
        place += 1;
    }
    place
}

/// Where the first track of a variable stands, and past the end where there is none.
pub fn place_of(tracks: &[Track], variable: u32) -> usize
    ensures { result ≡ place_of variable (variables_of tracks.now) }
{
    seek(tracks, 0, variable)
}

/// Where the variables of tracks stand among others. Both lists rise, and the second has the variables of the first.
pub fn places_among(alloc: Global, narrow: &[Track], wide: &[Track]) -> Result<List<u32>, NoMemory>
    requires narrow { AreRising (variables_of narrow.now) }
    requires wide { AreRising (variables_of wide.now) }
    requires among { (v : Variable) → IsAmong (variables_of narrow.now) v → IsAmong (variables_of wide.now) v }
    ensures { IfOk result (λ made. made ≡ places_among (variables_of narrow.now) (variables_of wide.now)) }
{
    let mut made = List::new(alloc);
    let mut from = 0;
    for track in narrow {
        from = seek(wide, from, track.variable);
        let Ok(place) = u32::try_from(from) else {
            return Err(NoMemory);
        };
        push(&mut made, place)?;
    }
    Ok(made)
}
