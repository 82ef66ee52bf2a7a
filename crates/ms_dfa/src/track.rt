ghost use Rattle.std.specs.Prelude.{◌≡◌, IfOk};

use ms_list::{List, NoMemory};
use ms_logic::Order;
use std::alloc::Global;

/// A track of a word: the bits of one variable.
#[derive(Clone, Copy, PartialEq, Eq)]
pub struct Track {
    pub variable: u32,
    pub order: Order,
}

/// The same tracks in a list of their own.
pub fn copy_tracks(alloc: Global, tracks: &[Track]) -> Result<List<Track>, NoMemory>
    ensures { IfOk result (λ made. made ≡ tracks.now) }
{
    match Vec::from_slice(alloc, tracks) {
        Ok(made) => Ok(List::from(made)),
        Err(_) => Err(NoMemory),
    }
}
