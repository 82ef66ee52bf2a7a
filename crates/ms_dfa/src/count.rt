ghost use Rattle.std.specs.Prelude.{◌≡◌};
ghost use Rattle.ms_logic_words.specs.Content.{count_of};
ghost use Rattle.ms_dfa.specs.Automaton.{variables_of};
ghost use Rattle.ms_dfa.specs.Part.{has_value};

use crate::part::{Part, is_in};
use crate::track::Track;

/// How many of the tracks have a value in this part of a word.
pub fn count_in(tracks: &[Track], part: Part) -> usize
    ensures { result ≡ count_of (has_value part) (variables_of tracks.now) }
{
    let mut count = 0;
    for track in tracks {
        if is_in(part, track.order) {
            count += 1;
        }
    }
    count
}
