ghost use Rattle.std.specs.Prelude.{◌≡◌, ◌<◌, ◌^◌, length, map, IfOk};
ghost use Rattle.ms_dfa.specs.Automaton.{variables_of};
ghost use Rattle.ms_logic_words.specs.Content.{variables_by_place};
ghost use Rattle.ms_dfafile_adopt.specs.Sets.{as_sets, set_order};

use ms_dfa::{FileVar, Track};
use ms_list::{List, NoMemory, push};
use ms_logic::Order;
use std::alloc::Global;

/// The variables of a file by their places.
pub(crate) fn own_tracks(alloc: Global, variables: &[FileVar]) -> Result<List<Track>, NoMemory>
    requires { length variables.now < 2 ^ 32 }
    ensures { IfOk result (λ made. variables_of made ≡ variables_by_place (map (λ v. v.order) variables.now)) }
{
    let mut made = List::new(alloc);
    let mut place: u32 = 0;
    for file_variable in variables {
        let order = file_variable.order;
        let variable = place;
        push(&mut made, Track { variable, order })?;
        place += 1;
    }
    Ok(made)
}

/// A set in place of a number.
fn set_order(order: Order) -> Order
    ensures { result ≡ set_order order }
{
    match order {
        Order::Zero => Order::Zero,
        Order::One => Order::Two,
        Order::Two => Order::Two,
    }
}

/// The tracks, with a set in place of each number.
pub(crate) fn set_tracks(alloc: Global, tracks: &[Track]) -> Result<List<Track>, NoMemory>
    ensures { IfOk result (λ made. variables_of made ≡ as_sets (variables_of tracks.now)) }
{
    let mut made = List::new(alloc);
    for track in tracks {
        let variable = track.variable;
        let order = set_order(track.order);
        push(&mut made, Track { variable, order })?;
    }
    Ok(made)
}

/// An equal list.
pub(crate) fn copy_tracks(alloc: Global, tracks: &[Track]) -> Result<List<Track>, NoMemory>
    ensures { IfOk result (λ made. made ≡ tracks.now) }
{
    match Vec::from_slice(alloc, tracks) {
        Ok(made) => Ok(List::from(made)),
        Err(_) => Err(NoMemory),
    }
}
